// The exact bytes of checks, and how they end.
use crate::cases::{Case, Fault, ends, ends_with, number_of, wrong_write};
use crate::runs::{AUCTION, UNSAFE, asked};
use pj_engine::{PlanRisk, Status};

const STUCK_CHECK: &[u8] =
    b"# unsafe join j input a: cannot reach b\n# reached: a\n# partner b t 0 1\n# safe join j input b: a by + _\n";

// A third input binds the other one.
const THREE_WAY: &[u8] =
    b"plan 1\nstream a x:int y:int\nstream b bx:int bz:int\nstream c cx:int cz:int\nscheme a + _\nscheme b + +\nscheme c + _\njoin j a b c on x=bx=cx bz=cz\noutput j\n";

const THREE_WAY_CHECK: &[u8] =
    b"# safe join j input a: c by + _, b by + +\n# safe join j input b: a by + _, c by + _\n# safe join j input c: a by + _, b by + +\n";

// Schemes stand behind their streams.
const AUCTION_PRINTED: &[u8] =
    b"plan 1\nstream items item:int seller:text\nscheme items + _\nstream bids bitem:int price:int\nscheme bids + _\njoin j items bids on item=bitem\noutput j\n# safe join j input items: bids by + _\n# safe join j input bids: items by + _\n";

// Two tests of a column are one.
const SELECT: &[u8] =
    b"plan 1\nstream s k:int v:text\nselect f s where k [1..9] k [3..]\nproject g f v\noutput g\n";

const SELECT_PRINTED: &[u8] =
    b"plan 1\nstream s k:int v:text\nselect f s where k [3..9]\nproject g f v\noutput g\n";

#[test]
fn plans_are_checked_and_printed(rt: HostRuntime) {
    for (command, plan, number, want) in [
        ("check plan", UNSAFE, 2, STUCK_CHECK),
        ("check plan", THREE_WAY, 0, THREE_WAY_CHECK),
        ("check plan --print", AUCTION, 0, AUCTION_PRINTED),
        ("check --print plan", SELECT, 0, SELECT_PRINTED),
        ("check plan", SELECT, 0, b""),
    ] {
        let ended = ends_with(&rt, &asked(command, plan), want, b"");
        assert_eq!(rt; ended, Ok(Some(number)), "at {command}");
    }
}

// An unsafe join behind another one is told too, and the status is that of the first.
const TWO_STUCK: &[u8] =
    b"plan 1\nstream a x:int\nstream b y:int\nstream c z:int\njoin j a b on x=y\njoin k j c on y=z\noutput k\n";

const TWO_STUCK_CHECK: &[u8] =
    b"# unsafe join j input a: cannot reach b\n# reached: a\n# partner b t 0\n# unsafe join j input b: cannot reach a\n# reached: b\n# partner a t 0\n# unsafe join k input j: cannot reach c\n# reached: j\n# partner c t 0\n# unsafe join k input c: cannot reach j\n# reached: c\n# partner j t 0 0\n";

#[test]
fn a_check_tells_every_join(rt: HostRuntime) {
    let status = Status::Unsafe {
        node: 3,
        risk: PlanRisk::Stuck {
            input: 0,
            missing: 1,
        },
    };
    let case = asked("check plan", TWO_STUCK);
    assert_eq!(rt; ends(&rt, &case, TWO_STUCK_CHECK, b""), Ok(Some(status)));
}

#[test]
fn a_plan_that_is_not_had_is_not_checked(rt: HostRuntime) {
    let refused = b"# refused plan line 1 P1 not a plan\n".as_slice();
    let unread = b"# stopped read fault operand 1\n".as_slice();
    let unopened = b"# stopped open fault operand 1\n".as_slice();
    for (command, plan, fault, number, want) in [
        ("check plan", b"".as_slice(), Fault::Nothing, 1, refused),
        ("check --print plan", b"", Fault::Nothing, 1, refused),
        ("check plan", AUCTION, Fault::Read(0, 0), 3, unread),
        ("check plan", AUCTION, Fault::Read(0, 1), 3, unread),
        ("check nosuch", AUCTION, Fault::Nothing, 3, unopened),
    ] {
        let case = Case {
            fault,
            ..asked(command, plan)
        };
        let ended = ends_with(&rt, &case, want, b"");
        assert_eq!(rt; ended, Ok(Some(number)), "at {command}");
    }
}

const STUCK_PRINTED: &[u8] =
    b"plan 1\nstream a x:int y:int\nscheme a + _\nstream b bx:int bz:int\nscheme b + +\njoin j a b on x=bx\noutput j\n# unsafe join j input a: cannot reach b\n# reached: a\n# partner b t 0 1\n# safe join j input b: a by + _\n";

// The status of an unsafe plan is known before its lines are written, and stays.
#[test]
fn each_write_of_a_check_fails_in_turn(rt: HostRuntime) {
    let stuck = asked("check --print plan", UNSAFE);
    let lefts = [0, 7, 28, 41, 64, 77, 96, 105, 145, 158, 176];
    let wrong = wrong_write(&rt, &stuck, 2, STUCK_PRINTED, &lefts);
    assert_eq!(rt; wrong, Ok(None));
    let safe = asked("check --print plan", AUCTION);
    let lefts = [0, 7, 41, 58, 90, 106, 138, 147, 186];
    let wrong = wrong_write(&rt, &safe, 4, AUCTION_PRINTED, &lefts);
    assert_eq!(rt; wrong, Ok(None));
}

#[test]
fn words_of_a_check(rt: HostRuntime) {
    for (command, number) in [
        ("check plan", 0),
        ("check --print plan", 0),
        ("check plan --print", 0),
        ("check", 64),
        ("check plan plan", 64),
        ("check --print", 64),
        ("check plan --print --print", 64),
        ("check plan --print=yes", 64),
        ("check plan --trace", 64),
        ("check -plan", 64),
    ] {
        let number_is = number_of(&rt, &asked(command, AUCTION));
        assert_eq!(rt; number_is, Ok(number), "at {command}");
    }
}
