// The exact bytes of replays, whatever interleaving their scripts list, and how they end.
use crate::cases::{
    B, Case, Fault, SCRIPT, case_of, ends, ends_with, front, number_of, wrong_write,
};
use crate::runs::{AUCTION, UNSAFE, padded};
use pj_engine::{LimitOf, Status};
use pj_value::NoMemory;
use std::sync::Wait;
use std::thread::Threads;

// ---- what is written

// A chain of three streams. The middle one has a scheme for each of its neighbours.
const CHAIN: &[u8] =
    b"plan 1\nstream a x:int\nstream b bx:int by:int\nstream c cy:int\nscheme a +\nscheme b + _\nscheme b _ +\nscheme c +\njoin j a b c on x=bx by=cy\noutput j\n";

// The first sweep comes before the second punctuation of `c`, for which one of the rows that join with that of `a` asks.
const CHAIN_SCRIPT: &[u8] =
    b"arrive a\ntake\ngive j 0\narrive b\ntake\ngive j 1\narrive b\ntake\ngive j 2\narrive b\narrive c\nsweep j a\narrive c\nsweep j a\n";

const CHAIN_OUT: &[u8] =
    b"p * * * 10\np * * * 20\n# purge j a t 1\np * * * *\n# purge j b t 1 10\n# purge j b t 1 20\np * 1 * *\np * * * *\np * * * *\n# stream a tuples 1 punctuations 0 rejected 0\n# stream b tuples 2 punctuations 1 rejected 0\n# stream c tuples 0 punctuations 2 rejected 0\n# results 0 punctuations 6\n# peak j 3\n";

const ITEM: &[u8] = b"t 1 \"ann\"\np 1 *\n";

const BID: &[u8] = b"t 1 50\np 1 *\n";

// The first three sweeps find no row below the low-water ticket that is ripe.
pub(crate) const LOW_SCRIPT: &[u8] =
    b"arrive items\narrive bids\narrive items\narrive bids\nsweep j items\nsweep j bids\ntake\ngive j 0\ntake\nsweep j items\ngive j 1\nsweep j items\nsweep j bids\n";

const LOW_OUT: &[u8] =
    b"t 1 \"ann\" 1 50\n# purge j items t 1 \"ann\"\np 1 * * *\n# purge j bids t 1 50\np * * 1 *\np * * * *\np * * * *\n# stream items tuples 1 punctuations 1 rejected 0\n# stream bids tuples 1 punctuations 1 rejected 0\n# results 1 punctuations 4\n# peak j 2\n";

const OPEN_ITEM: &[u8] = b"t 1 \"ann\"\n";

const TWO_BIDS: &[u8] = b"t 1 50\nt 1 60\n";

const TURNED_SCRIPT: &[u8] =
    b"arrive items\narrive bids\narrive bids\ntake\ntake\ntake\ngive j 2\ngive j 1\nsweep j bids\ngive j 0\n";

const TURNED_OUT: &[u8] =
    b"t 1 \"ann\" 1 60\nt 1 \"ann\" 1 50\np * * * *\np * * * *\n# stream items tuples 1 punctuations 0 rejected 0\n# stream bids tuples 2 punctuations 0 rejected 0\n# results 2 punctuations 2\n# peak j 3\n";

#[test]
fn a_late_sweep_of_a_chain_removes_what_an_early_one_left(rt: HostRuntime) {
    let files = [
        CHAIN,
        CHAIN_SCRIPT,
        b"t 1\n".as_slice(),
        b"t 1 10\nt 1 20\np 1 *\n",
        b"p 10\np 20\n",
    ];
    let case = case_of("replay plan script a b c --trace", files);
    assert_eq!(rt; ends(&rt, &case, CHAIN_OUT, b""), Ok(Some(Status::Done)));
}

#[test]
fn sweeps_below_the_low_water_ticket_alone_remove_rows(rt: HostRuntime) {
    let case = case_of(
        "replay plan script a b --trace",
        [AUCTION, LOW_SCRIPT, ITEM, BID, b""],
    );
    assert_eq!(rt; ends(&rt, &case, LOW_OUT, b""), Ok(Some(Status::Done)));
}

#[test]
fn probes_are_given_out_of_order(rt: HostRuntime) {
    for command in [
        "replay plan script a b",
        "replay plan script a b --limit 5",
        "replay plan --limit=1099511627776 script a b",
    ] {
        let case = case_of(command, [AUCTION, TURNED_SCRIPT, OPEN_ITEM, TWO_BIDS, b""]);
        assert_eq!(rt;
            ends(&rt, &case, TURNED_OUT, b""),
            Ok(Some(Status::Done)),
            "at {command}"
        );
    }
}

// The same steps with a drain behind each of them.
const DRAINED_SCRIPT: &[u8] =
    b"drain\narrive items\ndrain\narrive bids\ndrain\narrive bids\ndrain\ntake\ndrain\ntake\ndrain\ntake\ndrain\ngive j 2\ndrain\ndrain\ngive j 1\ndrain\nsweep j bids\ndrain\ngive j 0\ndrain\n";

// What is under way behind the last step is given in order of tickets, and what is pending then.
const UNDER_WAY_SCRIPT: &[u8] = b"arrive items\narrive bids\ntake\ntake\narrive bids";

const IN_ORDER_OUT: &[u8] =
    b"t 1 \"ann\" 1 50\nt 1 \"ann\" 1 60\np * * * *\np * * * *\n# stream items tuples 1 punctuations 0 rejected 0\n# stream bids tuples 2 punctuations 0 rejected 0\n# results 2 punctuations 2\n# peak j 3\n";

#[test]
fn drains_change_no_bytes_and_probes_under_way_are_given(rt: HostRuntime) {
    for (name, script, want) in [
        ("drained", DRAINED_SCRIPT, TURNED_OUT),
        ("under way", UNDER_WAY_SCRIPT, IN_ORDER_OUT),
    ] {
        let case = case_of(
            "replay plan script a b",
            [AUCTION, script, OPEN_ITEM, TWO_BIDS, b""],
        );
        assert_eq!(rt;
            ends(&rt, &case, want, b""),
            Ok(Some(Status::Done)),
            "at {name}"
        );
    }
}

const CLOSED_BIDS: &[u8] = b"t 1 50\np 1 *\nt 1 60\n";

// What the run on one thread writes.
const RUN_OUT: &[u8] =
    b"t 1 \"ann\" 1 50\np * * 1 *\np 1 * * *\np * * * *\np * * * *\n# stream items tuples 1 punctuations 1 rejected 0\n# stream bids tuples 1 punctuations 1 rejected 1\n# reject bids line 3 closed by line 2\n# results 1 punctuations 4\n# peak j 2\n";

#[test]
fn a_script_without_steps_gives_the_run(rt: HostRuntime) {
    for script in [
        "",
        "\n",
        "# no step\n\n \t\r\n# take",
        "drain\nsweep j items\nsweep j bids\n",
    ] {
        let files = [AUCTION, script.as_bytes(), ITEM, CLOSED_BIDS, b""];
        for command in ["run --workers=0 plan a b", "replay plan script a b"] {
            let ended = ends(&rt, &case_of(command, files), RUN_OUT, b"");
            assert_eq!(rt; ended, Ok(Some(Status::Done)), "at {command} of {script}");
        }
    }
}

// ---- scripts that are refused

#[test]
fn a_line_that_is_no_step_is_refused_before_the_run(rt: HostRuntime) {
    for (script, line, want) in [
        (
            b"arrive q\n".as_slice(),
            1,
            b"# refused script line 1\n".as_slice(),
        ),
        (b"# a note\n\nwalk", 3, b"# refused script line 3\n"),
        (
            b"arrive items\narrive bids\ntake\ntake\ngive j 1\nsweep j j\n",
            6,
            b"# refused script line 6\n",
        ),
        // The first line's step is not enabled, but the second one's is none.
        (b"take\narrive j\n", 2, b"# refused script line 2\n"),
        (
            b"give j 12345678901234567890\n",
            1,
            b"# refused script line 1\n",
        ),
    ] {
        let files = [AUCTION, script, OPEN_ITEM, TWO_BIDS, b""];
        // The streams' files are not opened.
        for command in ["replay plan script a b", "replay plan script nosuch nosuch"] {
            let ended = ends(&rt, &case_of(command, files), want, b"");
            assert_eq!(rt;
                ended,
                Ok(Some(Status::ScriptRefused { line })),
                "at {command}"
            );
        }
    }
}

#[test]
fn a_step_that_is_not_enabled_is_refused_behind_what_came(rt: HostRuntime) {
    for (script, items, line, want) in [
        (
            b"give j 0\n".as_slice(),
            OPEN_ITEM,
            1,
            b"# refused script line 1\n".as_slice(),
        ),
        (b"take\n", OPEN_ITEM, 1, b"# refused script line 1\n"),
        // A ticket that is pending is not under way, and one that was given is no longer.
        (
            b"arrive items\ngive j 0\n",
            OPEN_ITEM,
            2,
            b"# refused script line 2\n",
        ),
        (
            b"# two bids on one item\narrive items\narrive bids\ntake\ntake\n\ngive j 1\ngive j 1\narrive bids\n",
            OPEN_ITEM,
            8,
            b"t 1 \"ann\" 1 50\n# refused script line 8\n",
        ),
        (
            b"arrive items\narrive bids\ntake\ntake\ngive j 1\ndrain\ngive j 0\ntake\ndrain\n",
            OPEN_ITEM,
            8,
            b"t 1 \"ann\" 1 50\n# refused script line 8\n",
        ),
        // A stream arrives once more at its end, and then no more.
        (
            b"arrive items\narrive items\n",
            b"",
            2,
            b"p * * * *\n# refused script line 2\n",
        ),
    ] {
        let case = case_of(
            "replay plan script a b",
            [AUCTION, script, items, TWO_BIDS, b""],
        );
        let status = Status::ScriptRefused { line };
        assert_eq!(rt; ends(&rt, &case, want, b""), Ok(Some(status)));
    }
}

// How a replay ends of whose script this is the first step, with line feeds behind it, so many bytes in all.
fn padded_script_ends(
    rt: &(impl AllocGlobal + Threads + Wait + Sync),
    step: &[u8],
    size: usize,
    want: &[u8],
) -> Result<Option<Status>, NoMemory> {
    let script = padded(rt.alloc(), step, size)?;
    let files = [AUCTION, script.as_slice(), ITEM, CLOSED_BIDS, b""];
    let case = Case {
        cuts: [65_536; 5],
        ..case_of("replay plan script a b", files)
    };
    ends(rt, &case, want, b"")
}

#[test]
fn a_script_of_more_bytes_than_may_be_is_refused(rt: HostRuntime) {
    let status = Status::Limit {
        what: LimitOf::Script,
    };
    let ended = padded_script_ends(&rt, b"take\n", 1_048_577, b"# stopped limit script\n");
    assert_eq!(rt; ended, Ok(Some(status)));
    let ended = padded_script_ends(&rt, b"drain\n", 1_048_576, RUN_OUT);
    assert_eq!(rt; ended, Ok(Some(Status::Done)));
}

// ---- faults and limits

// A replay over the auction of which a call fails.
fn failing<'a>(script: &'a [u8], fault: Fault) -> Case<'a> {
    Case {
        cuts: [65_536, 10, 65_536, 7, 65_536],
        fault,
        ..case_of(
            "replay plan script a b",
            [AUCTION, script, OPEN_ITEM, b"t 1 50\np 9 *\n", b""],
        )
    }
}

const STEPS: &[u8] =
    b"arrive items\narrive bids\ntake\ntake\ngive j 1\narrive bids\narrive bids\ntake\n";

#[test]
fn each_operand_of_a_replay_that_fails_is_named(rt: HostRuntime) {
    for (fault, want) in [
        (
            Fault::Opening(0),
            b"# stopped open fault operand 1\n".as_slice(),
        ),
        (Fault::Opening(1), b"# stopped open fault operand 2\n"),
        (Fault::Opening(2), b"# stopped open fault operand 3\n"),
        (Fault::Opening(3), b"# stopped open fault operand 4\n"),
        (Fault::Read(SCRIPT, 0), b"# stopped read fault operand 2\n"),
        (Fault::Read(SCRIPT, 4), b"# stopped read fault operand 2\n"),
        (Fault::Read(B, 0), b"# stopped read fault operand 4\n"),
        // The script's last step but one reads behind the last line.
        (
            Fault::Read(B, 2),
            b"t 1 \"ann\" 1 50\np * * 9 *\n# stopped read fault operand 4\n",
        ),
    ] {
        assert_eq!(rt;
            ends_with(&rt, &failing(STEPS, fault), want, b""),
            Ok(Some(3))
        );
    }
}

const UNREAD_OUT: &[u8] = b"t 1 \"ann\" 1 50\n# stopped read fault operand 4\n";

// The streams' files are read on behind the last step as in a run.
#[test]
fn a_read_behind_the_last_step_fails(rt: HostRuntime) {
    for script in ["", "arrive items\narrive bids\n"] {
        let case = failing(script.as_bytes(), Fault::Read(B, 1));
        let status = Status::ReadFault { operand: 4 };
        assert_eq!(rt;
            ends(&rt, &case, UNREAD_OUT, b""),
            Ok(Some(status)),
            "at {script}"
        );
    }
}

#[test]
fn each_write_of_a_replay_fails_in_turn(rt: HostRuntime) {
    let case = case_of(
        "replay plan script a b --trace",
        [AUCTION, LOW_SCRIPT, ITEM, BID, b""],
    );
    let lefts = [0, 15, 41, 51, 73, 83, 93, 103, 153, 202, 229];
    assert_eq!(rt; wrong_write(&rt, &case, 4, LOW_OUT, &lefts), Ok(None));
}

// The last step, on line 6, is not enabled.
const REFUSED_SCRIPT: &[u8] = b"arrive items\narrive bids\ntake\ntake\ngive j 1\ngive j 1\n";

const REFUSED_OUT: &[u8] = b"t 1 \"ann\" 1 50\n# refused script line 6\n";

// How it ends where this write fails, counted from 0, and leaves so many bytes.
fn refused_ends(
    rt: &(impl AllocGlobal + Threads + Wait + Sync),
    nth: u64,
    left: usize,
) -> Result<Option<Status>, NoMemory> {
    let case = Case {
        fault: Fault::Write(nth),
        ..case_of(
            "replay plan script a b",
            [AUCTION, REFUSED_SCRIPT, OPEN_ITEM, TWO_BIDS, b""],
        )
    };
    ends(rt, &case, front(REFUSED_OUT, left), b"")
}

#[test]
fn the_line_of_a_refused_step_that_is_not_written_changes_no_status(rt: HostRuntime) {
    for (nth, left) in [(1, 15), (2, 39)] {
        let refused = Status::ScriptRefused { line: 6 };
        assert_eq!(rt; refused_ends(&rt, nth, left), Ok(Some(refused)), "at {nth}");
    }
}

// What was handed out before the step is written behind the refusal, and likewise behind a read that fails.
#[test]
fn a_refusal_and_a_fault_stand_before_a_write_that_fails_behind_them(rt: HostRuntime) {
    let refused = Status::ScriptRefused { line: 6 };
    assert_eq!(rt; refused_ends(&rt, 0, 0), Ok(Some(refused)));
    let fault = Fault::Both {
        place: B,
        read: 2,
        write: 0,
    };
    let unread = Status::ReadFault { operand: 4 };
    assert_eq!(rt;
        ends(&rt, &failing(STEPS, fault), b"", b""),
        Ok(Some(unread))
    );
}

// A join over a join.
const TOWER: &[u8] =
    b"plan 1\nstream a x:int\nstream b y:int\nstream c z:int\nscheme a +\nscheme b +\nscheme c +\njoin j a b on x=y\njoin k j c on y=z\noutput k\n";

const AT_UPPER: &[u8] = b"t 1 1 1\n# stopped limit node k\n";

#[test]
fn a_limit_is_met_at_a_step_and_behind_the_last(rt: HostRuntime) {
    for (command, files, node, want) in [
        // At an arrival.
        (
            "replay plan script a b --limit 3",
            [
                AUCTION,
                b"arrive items\narrive bids\ntake\ntake\ngive j 1\narrive items\narrive bids\ntake\n".as_slice(),
                b"t 1 \"ann\"\nt 2 \"bob\"\n".as_slice(),
                b"t 1 50\nt 2 60\n".as_slice(),
                b"".as_slice(),
            ],
            2,
            b"t 1 \"ann\" 1 50\n# stopped limit node j\n".as_slice(),
        ),
        // At an arrival behind the script.
        (
            "replay --limit=3 plan script a b",
            [
                AUCTION,
                b"arrive items\narrive bids\n",
                b"t 1 \"ann\"\nt 2 \"bob\"\n",
                b"t 1 50\nt 2 60\n",
                b"",
            ],
            2,
            b"t 1 \"ann\" 1 50\n# stopped limit node j\n",
        ),
        // At a give, whose second row is one too many at the upper join.
        (
            "replay plan script a b c --limit 4",
            [
                TOWER,
                b"arrive a\narrive a\narrive b\narrive c\ntake\ntake\ntake\ngive j 2\ntake\ntake\ngive k 1\narrive b\ntake\ngive j 3\n",
                b"t 1\nt 1\n",
                b"t 1\nt 1\n",
                b"t 1\n",
            ],
            4,
            AT_UPPER,
        ),
        // The same give behind the last step.
        (
            "replay plan script --limit 4 a b c",
            [
                TOWER,
                b"arrive a\narrive a\narrive b\narrive c\ntake\ntake\ntake\ngive j 2\ntake\ntake\ngive k 1\narrive b\ntake\n",
                b"t 1\nt 1\n",
                b"t 1\nt 1\n",
                b"t 1\n",
            ],
            4,
            AT_UPPER,
        ),
    ] {
        let status = Status::Limit {
            what: LimitOf::Node(node),
        };
        let ended = ends(&rt, &case_of(command, files), want, b"");
        assert_eq!(rt; ended, Ok(Some(status)), "at {command}");
    }
}

// ---- words

// The plan is asked first, then the number of files, whether it is safe, and then the script.
#[test]
fn refusals_come_in_their_order(rt: HostRuntime) {
    for (command, plan, number, want) in [
        (
            "replay nosuch script a b",
            AUCTION,
            3,
            b"# stopped open fault operand 1\n".as_slice(),
        ),
        (
            "replay plan nosuch a",
            b"".as_slice(),
            1,
            b"# refused plan line 1 P1 not a plan\n",
        ),
        (
            "replay plan nosuch a",
            UNSAFE,
            8,
            b"# refused files want 2 got 1\n",
        ),
        (
            "replay plan nosuch nosuch nosuch nosuch",
            AUCTION,
            8,
            b"# refused files want 2 got 3\n",
        ),
        (
            "replay plan nosuch nosuch nosuch",
            UNSAFE,
            2,
            b"# unsafe join j input a: cannot reach b\n# reached: a\n",
        ),
        (
            "replay plan nosuch nosuch nosuch",
            AUCTION,
            3,
            b"# stopped open fault operand 2\n",
        ),
        (
            "replay plan script nosuch nosuch",
            AUCTION,
            7,
            b"# refused script line 1\n",
        ),
    ] {
        let ended = ends_with(
            &rt,
            &case_of(command, [plan, b"walk", b"", b"", b""]),
            want,
            b"",
        );
        assert_eq!(rt; ended, Ok(Some(number)), "at {command}");
    }
}

#[test]
fn words_of_a_replay(rt: HostRuntime) {
    for (command, number) in [
        ("replay plan script a b", 0),
        ("replay plan script a b --trace", 0),
        ("replay --limit 9 --trace plan script a b", 0),
        ("replay plan --trace script --limit=9 a b", 0),
        ("replay plan script a a", 0),
        ("replay", 64),
        ("replay plan", 64),
        ("replay plan script", 64),
        ("replay plan script a --trace b", 64),
        ("replay plan script a b --trace --trace", 64),
        ("replay plan script a b --limit 0", 64),
        ("replay plan script a b --limit", 64),
        ("replay plan script a b --sorted", 64),
        ("replay plan script a b --check", 64),
        ("replay plan script a b --workers 0", 64),
        ("replay plan script a b --print", 64),
        ("replay plan -script a b", 64),
    ] {
        let case = case_of(command, [AUCTION, b"drain\n", b"", b"", b""]);
        assert_eq!(rt; number_of(&rt, &case), Ok(number), "at {command}");
    }
}
