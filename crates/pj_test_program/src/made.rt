// The exact bytes of made inputs, run and summed up, and how they end.
use crate::cases::{ends, number_of, wrong_write};
use crate::runs::{AUCTION, asked};
use pj_engine::Status;

const ONE: &[u8] =
    b"# make 7 1\n# stream items tuples 2 punctuations 1 rejected 0\n# stream bids tuples 2 punctuations 1 rejected 0\n# results 1 punctuations 3\n# peak j 4\n# total 807\n";

// Behind ten items each is closed that lies ten before, so that forty rows of ten items are stored, and four of the next.
const THOUSAND: &[u8] =
    b"# make 7 1000\n# stream items tuples 2000 punctuations 1000 rejected 0\n# stream bids tuples 2000 punctuations 1000 rejected 0\n# results 1000 punctuations 1002\n# peak j 44\n# total 669663\n";

#[test]
fn made_inputs_are_run_and_summed_up(rt: HostRuntime) {
    for (command, want) in [("make 7 1", ONE), ("make 7 1000", THOUSAND)] {
        let ended = ends(&rt, &asked(command, AUCTION), want, b"");
        assert_eq!(rt; ended, Ok(Some(Status::Done)), "at {command}");
    }
}

#[test]
fn each_write_of_a_made_run_fails_in_turn(rt: HostRuntime) {
    let case = asked("make 7 1", AUCTION);
    let wrong = wrong_write(&rt, &case, 4, ONE, &[0, 11, 61, 110, 137, 148]);
    assert_eq!(rt; wrong, Ok(None));
}

#[test]
fn words_of_a_make(rt: HostRuntime) {
    for (command, number) in [
        ("make 0 1", 0),
        ("make 2147483647 2", 0),
        ("make 007 01", 0),
        ("make 7", 64),
        ("make 7 0", 64),
        ("make 7 1000001", 64),
        ("make 2147483648 1", 64),
        ("make 7 1 plan", 64),
        ("make 7 1 --sorted", 64),
        ("make -7 1", 64),
        ("make seven 1", 64),
    ] {
        let number_is = number_of(&rt, &asked(command, AUCTION));
        assert_eq!(rt; number_is, Ok(number), "at {command}");
    }
}
