// What no clause says: that the calls succeed with ample memory, and what they give on runs by hand.
use crate::cases::{Certs, Step, first_wrong};
use pj_core::Stop;

// Items, and bids on them.
pub(crate) const PAIR: &str =
    "plan 1\nstream items item:int seller:int\nscheme items + _\nstream bids bitem:int price:int\nscheme bids + _\njoin j items bids on item=bitem\noutput j\n";

pub(crate) const PAIR_CERTS: Certs = &[&[&[(1, 0)], &[(0, 0)]]];

// Three streams in a chain.
const CHAIN: &str =
    "plan 1\nstream a x:int\nscheme a +\nstream b bx:int by:int\nscheme b + _\nscheme b _ +\nstream c cy:int\nscheme c +\njoin j a b c on x=bx by=cy\noutput j\n";

const CHAIN_CERTS: Certs = &[&[&[(1, 0), (2, 0)], &[(0, 0), (2, 0)], &[(1, 1), (0, 0)]]];

// A join below a join.
const TOWER: &str =
    "plan 1\nstream a x:int\nscheme a +\nstream b bx:int\nscheme b +\njoin i a b on x=bx\nstream c cx:int\nscheme c +\njoin j i c on x=cx\noutput j\n";

const TOWER_CERTS: Certs = &[&[&[(1, 0)], &[(0, 0)]], &[&[(1, 0)], &[(0, 0)]]];

// ---- turns

const PAIR_LIMIT: Stop = Stop::Limit { node: 2 };

const FOURTH_STOPS: &[Step] = &[
    Step::Turn(0, "t 1 7", Ok("")),
    Step::Turn(1, "t 1 50", Ok("t 1 7 1 50\n")),
    Step::Turn(0, "t 1 7", Ok("t 1 7 1 50\n")),
    Step::Turn(1, "t 1 50", Err(PAIR_LIMIT)),
    Step::Turn(0, "t 1 7", Err(PAIR_LIMIT)),
    Step::Stopped(PAIR_LIMIT),
    Step::Halt,
];

#[test]
fn the_limit_stops_the_fourth_arrival(rt: HostRuntime) {
    let wrong = first_wrong(rt.alloc(), PAIR, PAIR_CERTS, 3, false, FOURTH_STOPS);
    assert_eq!(rt; wrong, Ok(None));
}

const CHAIN_LIMIT: Stop = Stop::Limit { node: 3 };

// The fourth arrival meets the limit, the fifth goes beyond it.
const THREE_JOIN: &[Step] = &[
    Step::Turn(0, "t 1", Ok("")),
    Step::Turn(1, "t 1 10", Ok("")),
    Step::Turn(2, "t 10", Ok("t 1 1 10 10\n")),
    Step::Turn(0, "t 1", Ok("t 1 1 10 10\n")),
    Step::Turn(2, "t 10", Err(CHAIN_LIMIT)),
    Step::Stopped(CHAIN_LIMIT),
];

#[test]
fn three_streams_join(rt: HostRuntime) {
    let wrong = first_wrong(rt.alloc(), CHAIN, CHAIN_CERTS, 4, false, THREE_JOIN);
    assert_eq!(rt; wrong, Ok(None));
}

const LOWER_LIMIT: Stop = Stop::Limit { node: 2 };

// The fourth row of the lower join's inputs goes beyond its limit, and the upper join has room left.
const LOWER_STOPS: &[Step] = &[
    Step::Turn(0, "t 1", Ok("")),
    Step::Turn(1, "t 1", Ok("")),
    Step::Turn(2, "t 1", Ok("t 1 1 1\n")),
    Step::Turn(0, "t 1", Ok("t 1 1 1\n")),
    Step::Turn(1, "t 1", Err(LOWER_LIMIT)),
    Step::Stopped(LOWER_LIMIT),
];

#[test]
fn the_limit_of_a_join_below_a_join_stops_it(rt: HostRuntime) {
    let wrong = first_wrong(rt.alloc(), TOWER, TOWER_CERTS, 3, false, LOWER_STOPS);
    assert_eq!(rt; wrong, Ok(None));
}

const UPPER_LIMIT: Stop = Stop::Limit { node: 4 };

// The lower join hands up two rows in one turn, and the second goes beyond the upper join's limit.
const UPPER_STOPS: &[Step] = &[
    Step::Turn(2, "t 1", Ok("")),
    Step::Turn(2, "t 1", Ok("")),
    Step::Turn(0, "t 1", Ok("")),
    Step::Turn(0, "t 1", Ok("")),
    Step::Turn(1, "t 1", Err(UPPER_LIMIT)),
    Step::Stopped(UPPER_LIMIT),
];

#[test]
fn the_limit_of_a_join_above_a_join_stops_it(rt: HostRuntime) {
    let wrong = first_wrong(rt.alloc(), TOWER, TOWER_CERTS, 3, false, UPPER_STOPS);
    assert_eq!(rt; wrong, Ok(None));
}

// The first closing frees the bid and waits for the item, which goes at the second; then both go up.
const CLOSINGS: &[Step] = &[
    Step::Turn(0, "t 1 7", Ok("")),
    Step::Turn(1, "t 1 50", Ok("t 1 7 1 50\n")),
    Step::Turn(0, "end", Ok("")),
    Step::Look(1, 1, 1),
    Step::Turn(1, "end", Ok("p * * * *\np * * * *\n")),
    Step::Look(0, 0, 2),
];

#[test]
fn turns_sweep_where_streams_close(rt: HostRuntime) {
    let wrong = first_wrong(rt.alloc(), PAIR, PAIR_CERTS, 9, false, CLOSINGS);
    assert_eq!(rt; wrong, Ok(None));
}

// ---- calls one by one

// Nothing goes before it is given with all before it; then the item and the bid go, and what waited for them goes up.
const PAIR_FORGETS: &[Step] = &[
    Step::Arrive(0, "t 1 7"),
    Step::Arrive(1, "t 1 50"),
    Step::Arrive(0, "p 1 *"),
    Step::Arrive(1, "p 1 *"),
    Step::Sweep(2, 0, 0),
    Step::Sweep(2, 1, 0),
    Step::Give(""),
    Step::Sweep(2, 0, 0),
    Step::Sweep(2, 1, 0),
    Step::Give("t 1 7 1 50\n"),
    Step::Sweep(2, 0, 1),
    Step::Sweep(2, 1, 1),
    Step::Drain("purge 2 0 t 1 7\np 1 * * *\npurge 2 1 t 1 50\np * * 1 *\n"),
];

#[test]
fn a_pair_forgets_what_is_given_and_closed(rt: HostRuntime) {
    let wrong = first_wrong(rt.alloc(), PAIR, PAIR_CERTS, 9, true, PAIR_FORGETS);
    assert_eq!(rt; wrong, Ok(None));
}

// The row of the first stream goes once both rows that it joins with have what they ask for.
const CHAIN_FORGETS: &[Step] = &[
    Step::Arrive(0, "t 1"),
    Step::Give(""),
    Step::Arrive(1, "t 1 10"),
    Step::Give(""),
    Step::Arrive(1, "t 1 20"),
    Step::Give(""),
    Step::Arrive(1, "p 1 *"),
    Step::Arrive(2, "p 10"),
    Step::Sweep(3, 0, 0),
    Step::Arrive(2, "p 20"),
    Step::Sweep(3, 0, 1),
];

#[test]
fn a_chain_forgets_what_all_partners_have_closed(rt: HostRuntime) {
    let wrong = first_wrong(rt.alloc(), CHAIN, CHAIN_CERTS, 9, false, CHAIN_FORGETS);
    assert_eq!(rt; wrong, Ok(None));
}

const LONE: &[Step] = &[
    Step::Arrive(0, "t 7"),
    Step::Drain("t 7\n"),
    Step::Turn(0, "end", Ok("p *\n")),
    Step::Look(0, 0, 1),
];

#[test]
fn a_lone_stream_hands_out_its_elements(rt: HostRuntime) {
    let plan = "plan 1\nstream a x:int\noutput a\n";
    assert_eq!(rt;
        first_wrong(rt.alloc(), plan, &[], 1, false, LONE),
        Ok(None)
    );
}
