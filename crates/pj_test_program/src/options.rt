// What the options of a run change, and which words ask for a run.
use crate::cases::{A, Case, Fault, case_of, ends, ends_with, front, number_of};
use crate::runs::auction;
use pj_engine::Status;

const USAGE_STATUS: u8 = 64;

const TWO_ITEMS: &[u8] = b"t 1 \"ann\"\nt 2 \"bob\"\n";

const TWO_BIDS: &[u8] = b"t 1 50\nt 2 60\n";

// The fourth arrival at the join is one too many; no line of it is written.
const STOPPED_AT_JOIN: &[u8] = b"t 1 \"ann\" 1 50\n# stopped limit node j\n";

const TWO_RESULTS: &[u8] =
    b"t 1 \"ann\" 1 50\nt 2 \"bob\" 2 60\np * * * *\np * * * *\n# stream items tuples 2 punctuations 0 rejected 0\n# stream bids tuples 2 punctuations 0 rejected 0\n# results 2 punctuations 2\n# peak j 4\n";

#[test]
fn a_limit_stops_the_run_at_its_node(rt: HostRuntime) {
    for (command, number, want) in [
        ("run --workers 0 --limit 3 plan a b", 6, STOPPED_AT_JOIN),
        ("run --workers=0 --limit=003 plan a b", 6, STOPPED_AT_JOIN),
        ("run --workers=0 plan --limit 6 a b", 0, TWO_RESULTS),
        (
            "run --workers=0 plan a b --limit 1099511627776",
            0,
            TWO_RESULTS,
        ),
    ] {
        let ended = ends_with(&rt, &auction(command, TWO_ITEMS, TWO_BIDS), want, b"");
        assert_eq!(rt; ended, Ok(Some(number)), "at {command}");
    }
}

const ITEMS: &[u8] = b"t 1 \"ann\"\np 1 *\n";

const BIDS: &[u8] = b"t 1 50\np 1 *\nt 1 60\n";

// Each row is noted in the sweep that removes it, before the punctuation that it held back.
const TRACED: &[u8] =
    b"t 1 \"ann\" 1 50\n# purge j bids t 1 50\np * * 1 *\n# purge j items t 1 \"ann\"\np 1 * * *\np * * * *\np * * * *\n# stream items tuples 1 punctuations 1 rejected 0\n# stream bids tuples 1 punctuations 1 rejected 1\n# reject bids line 3 closed by line 2\n# results 1 punctuations 4\n# peak j 2\n";

#[test]
fn rows_that_sweeps_remove_are_noted_in_a_trace(rt: HostRuntime) {
    for command in [
        "run --workers=0 --trace plan a b",
        "run plan a b --workers=0 --trace --limit 9",
    ] {
        let ended = ends(&rt, &auction(command, ITEMS, BIDS), TRACED, b"");
        assert_eq!(rt; ended, Ok(Some(Status::Done)), "at {command}");
    }
}

const CHECKED: &[u8] =
    b"t 1 \"ann\" 1 50\np * * 1 *\np 1 * * *\np * * * *\np * * * *\n# stream items tuples 1 punctuations 1 rejected 0\n# stream bids tuples 1 punctuations 1 rejected 1\n# reject bids line 3 closed by line 2\n# results 1 punctuations 4\n# peak j 2\n# check 1\n";

const TRACED_AND_CHECKED: &[u8] =
    b"t 1 \"ann\" 1 50\n# purge j bids t 1 50\np * * 1 *\n# purge j items t 1 \"ann\"\np 1 * * *\np * * * *\np * * * *\n# stream items tuples 1 punctuations 1 rejected 0\n# stream bids tuples 1 punctuations 1 rejected 1\n# reject bids line 3 closed by line 2\n# results 1 punctuations 4\n# peak j 2\n# check 1\n";

// A rejected row is not among those that the check goes over.
#[test]
fn a_check_goes_over_accepted_rows(rt: HostRuntime) {
    for (command, want) in [
        ("run --workers=0 --check plan a b", CHECKED),
        (
            "run --workers=0 --check plan a b --trace",
            TRACED_AND_CHECKED,
        ),
        (
            "run --workers 0 --trace plan a b --check",
            TRACED_AND_CHECKED,
        ),
    ] {
        let ended = ends(&rt, &auction(command, ITEMS, BIDS), want, b"");
        assert_eq!(rt; ended, Ok(Some(Status::Done)), "at {command}");
    }
}

// The items' punctuation comes before the result and waits until the last sweep.
const WAITING_BIDS: &[u8] = b"p 9 *\nt 1 50\n";

const WAITING_SORTED: &[u8] =
    b"t 1 \"ann\" 1 50\np * * * *\np * * * *\np * * 9 *\np 1 * * *\n# stream items tuples 1 punctuations 1 rejected 0\n# stream bids tuples 1 punctuations 1 rejected 0\n# results 1 punctuations 4\n";

const WAITING_RUN: &[u8] =
    b"p * * 9 *\nt 1 \"ann\" 1 50\np * * * *\np 1 * * *\np * * * *\n# stream items tuples 1 punctuations 1 rejected 0\n# stream bids tuples 1 punctuations 1 rejected 0\n# results 1 punctuations 4\n";

#[test]
fn results_are_sorted_and_checked_where_it_is_asked_for(rt: HostRuntime) {
    for (command, want, more) in [
        (
            "run --workers 0 --sorted plan a b",
            WAITING_SORTED,
            b"".as_slice(),
        ),
        (
            "run --workers 0 --sorted --check plan a b",
            WAITING_SORTED,
            b"# check 1\n",
        ),
        (
            "run --workers=0 plan a b --check",
            WAITING_RUN,
            b"# peak j 2\n# check 1\n",
        ),
    ] {
        let ended = ends(&rt, &auction(command, ITEMS, WAITING_BIDS), want, more);
        assert_eq!(rt; ended, Ok(Some(Status::Done)), "at {command}");
    }
}

const THREE_ITEMS: &[u8] = b"t 10 \"eve\"\nt 2 \"bob\"\nt 1 \"ann\"\n";

const FOUR_BIDS: &[u8] = b"t 10 70\nt 2 60\nt 1 50\nt 1 50\n";

// The order is that of the lines' bytes, neither that in which they come nor its reverse, and a row that is there twice is written
// twice.
const FOUR_SORTED: &[u8] =
    b"t 1 \"ann\" 1 50\nt 1 \"ann\" 1 50\nt 10 \"eve\" 10 70\nt 2 \"bob\" 2 60\np * * * *\np * * * *\n# stream items tuples 3 punctuations 0 rejected 0\n# stream bids tuples 4 punctuations 0 rejected 0\n# results 4 punctuations 2\n# check 4\n";

#[test]
fn sorted_lines_are_in_order_of_their_bytes(rt: HostRuntime) {
    let command = "run plan --check --sorted --workers 0 a b";
    let ended = ends(
        &rt,
        &auction(command, THREE_ITEMS, FOUR_BIDS),
        FOUR_SORTED,
        b"",
    );
    assert_eq!(rt; ended, Ok(Some(Status::Done)));
}

const SOME_RESULTS: &[u8] = b"t 10 \"eve\" 10 70\n";

// Where it meets its limit, where a write fails, and where a read does, with as many bytes of its lines.
#[test]
fn a_sorted_run_that_stops_writes_nothing_before_its_end(rt: HostRuntime) {
    let limited = b"# stopped limit node j\n".as_slice();
    let command = "run --workers=0 --sorted --limit 3 plan a b";
    let ended = ends_with(&rt, &auction(command, TWO_ITEMS, TWO_BIDS), limited, b"");
    assert_eq!(rt; ended, Ok(Some(6)));
    let unread = b"# stopped read fault operand 2\n".as_slice();
    for (command, cuts, fault, number, lines, left, stop) in [
        (
            "run --workers=0 --sorted --check plan a b",
            [100, 100, 9, 9, 100],
            Fault::Write(0),
            4,
            FOUR_SORTED,
            0,
            b"".as_slice(),
        ),
        (
            "run --workers=0 --sorted --check plan a b",
            [100, 100, 9, 9, 100],
            Fault::Write(2),
            4,
            FOUR_SORTED,
            30,
            b"",
        ),
        (
            "run --workers=0 --sorted --check plan a b",
            [100, 100, 9, 9, 100],
            Fault::Write(9),
            4,
            FOUR_SORTED,
            FOUR_SORTED.len() - 10,
            b"",
        ),
        (
            "run --workers=0 --sorted plan a b",
            [100, 100, 12, 100, 100],
            Fault::Read(A, 1),
            3,
            b"",
            0,
            unread,
        ),
        (
            "run --workers=0 --check plan a b",
            [100, 100, 12, 100, 100],
            Fault::Read(A, 1),
            3,
            SOME_RESULTS,
            100,
            unread,
        ),
    ] {
        let case = Case {
            cuts,
            fault,
            ..auction(command, THREE_ITEMS, FOUR_BIDS)
        };
        let ended = ends_with(&rt, &case, front(lines, left), stop);
        assert_eq!(rt; ended, Ok(Some(number)), "at {command} with {left} bytes");
    }
}

// The punctuation of `bids` goes through both joins, and then the sweep behind it lets that of `items` go, which is one arrival
// too many at the upper join.
const TOWER: &[u8] =
    b"plan 1\nstream c ck:int\nscheme c +\nstream d dk:int\nscheme d +\nstream items item:int seller:text\nscheme items + _\nstream bids bitem:int price:int\nscheme bids + _\njoin j items bids on item=bitem\njoin k j c d on item=ck=dk\noutput k\n";

const TOWER_OUT: &[u8] = b"p * * 1 * * *\n# stopped limit node k\n";

#[test]
fn a_stop_stands_before_a_write_that_fails_behind_it(rt: HostRuntime) {
    for (fault, left) in [
        (Fault::Nothing, TOWER_OUT.len()),
        (Fault::Write(0), 0),
        (Fault::Write(1), 14),
    ] {
        // The first stream's file is `script`.
        let case = Case {
            fault,
            ..case_of(
                "run --workers=0 plan script a b c --limit 5",
                [
                    TOWER,
                    b"t 7\nt 7\n",
                    b"t 8\nt 8\n",
                    ITEMS,
                    b"t 9 50\np 1 *\n",
                ],
            )
        };
        let ended = ends_with(&rt, &case, front(TOWER_OUT, left), b"");
        assert_eq!(rt; ended, Ok(Some(6)), "at {left}");
    }
}

// None of the files holds anything.
#[test]
fn words_of_a_run_are_taken(rt: HostRuntime) {
    for command in [
        "run p f",
        "run p f g h",
        "run --workers 0 p f",
        "run --workers=0 p f",
        "run p --workers=0 f",
        "run p f --workers 00",
        "run --workers=00000000000000000000 p f",
        "run --trace p f",
        "run p --trace f",
        "run p f --trace",
        "run --limit 1 p f",
        "run --limit=1 p f",
        "run p --limit 7 f g",
        "run p f --limit 1099511627776",
        "run --limit=007 p f",
        "run --limit=00000000000000000001 p f",
        "run --trace --limit 3 p f",
        "run --limit 3 --trace p f",
        "run --limit 3 p --trace f",
        "run p --limit 3 --trace f g",
        "run p f g --trace --limit=3 --workers=0",
        "run --workers 0 --trace --limit 3 p f",
        "run run run",
        "run help f",
        "run p check",
        "run p=1 f=2",
        "run p limit",
        "run . ..",
        "run p f --limit=1 --workers 0",
        "run --workers=0 p --trace f --limit 5",
        "run --sorted p f",
        "run p f --sorted --check --limit 3",
        "run --check --trace p f",
        "run p --check f g",
    ] {
        let number = number_of(&rt, &case_of(command, [b""; 5]));
        assert!(rt;
            number.is_ok() && number != Ok(USAGE_STATUS),
            "at {command}"
        );
    }
}

#[test]
fn other_words_are_no_run(rt: HostRuntime) {
    for command in [
        "run p f --help",
        "run -h",
        "run p f -- g",
        "run -- p f",
        "run --version",
        "run p f --trac",
        "run p f --Trace",
        "run p f --trace=yes",
        "run p f --trace --trace",
        "run p f --limit",
        "run p f --limit 0",
        "run p f --limit 1099511627777",
        "run p f --limit +3",
        "run p f --limit -3",
        "run p f --limit=",
        "run p f --limit=3x",
        "run p f --limit 0x3",
        "run p f --limit 000000000000000000003",
        "run p f --limit 3 --limit 3",
        "run p f --workers 17",
        "run p f --workers two",
        "run p f --workers",
        "run p f --trace g",
        "run p f --limit 3 g",
        "run p --trace",
        "run --trace p",
        "run p f --sorted --trace",
        "run p f --print",
        "run p f --sorted=yes",
        "run p f --check --check",
        "run p f --trace g --sorted",
        "RUN p f",
        "run  f",
    ] {
        let number = number_of(&rt, &case_of(command, [b""; 5]));
        assert_eq!(rt; number, Ok(USAGE_STATUS), "at {command}");
    }
}
