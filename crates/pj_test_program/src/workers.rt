// Runs with workers: threads that go side by side, the bytes of sorted runs, and how runs end that stop.
use crate::cases::{A, B, Case, Fault, case_of, ends_with, front, run_at, wrong_write};
use crate::gates::Worker::{Bids, Items, Prober, Sweeper, Writer};
use crate::gates::{Hold, Holding};
use crate::runs::AUCTION;
use pj_engine::{OpenGate, Status};
use pj_io::MemSink;
use pj_make::{Made, make};
use pj_value::NoMemory;
use std::sync::Wait;
use std::thread::Threads;

pub(crate) const ITEMS: &[u8] = b"t 1 \"ann\"\np 1 *\n";

pub(crate) const BIDS: &[u8] = b"t 1 50\np 1 *\nt 1 60\n";

// The rows stand before the punctuations.
pub(crate) const SORTED: &[u8] =
    b"t 1 \"ann\" 1 50\np * * * *\np * * * *\np * * 1 *\np 1 * * *\n# stream items tuples 1 punctuations 1 rejected 0\n# stream bids tuples 1 punctuations 1 rejected 1\n# reject bids line 3 closed by line 2\n# results 1 punctuations 4\n";

const ROW: &[u8] = b"t 1 \"ann\" 1 50";

// Each line of the results, and how often it stands there.
const LINES: [(&[u8], usize); 4] = [
    (ROW, 1),
    (b"p 1 * * *", 1),
    (b"p * * 1 *", 1),
    (b"p * * * *", 2),
];

fn auction(command: &str) -> Case<'_> {
    case_of(command, [AUCTION, b"", ITEMS, BIDS, b""])
}

// A worker is held until others have passed: one feeder until the other has, in turn, and one until all other workers have. In the
// last row both feeders go on step by step, each in answer to the other.
const HOLDS: [&[Hold]; 8] = [
    &[(Items, 1, Bids, 1)],
    &[(Items, 0, Bids, 1)],
    &[(Bids, 0, Items, 1)],
    &[
        (Items, 1, Prober, 1),
        (Items, 1, Sweeper, 1),
        (Items, 1, Writer, 1),
    ],
    &[(Prober, 0, Items, 2)],
    &[(Sweeper, 0, Bids, 2)],
    &[(Writer, 0, Items, 2)],
    &[
        (Items, 1, Bids, 1),
        (Bids, 1, Items, 2),
        (Items, 2, Bids, 2),
        (Bids, 2, Items, 3),
    ],
];

// Each element and each closing was fed by its own thread, the tuples were probed, and nobody gave up.
fn all_have_passed(gate: &Holding) -> bool {
    gate.passed(Items) == 3
        && gate.passed(Bids) == 3
        && gate.passed(Prober) >= 2
        && gate.given_up() == 0
}

fn times(bytes: &[u8], want: &[u8]) -> usize {
    let mut count = 0usize;
    for line in bytes.split(|byte| *byte == b'\n') {
        if line == want {
            count = count.saturating_add(1);
        }
    }
    count
}

// Whether these are the lines of the results, in some order.
fn are_lines(bytes: &[u8]) -> bool {
    for (line, count) in LINES {
        if times(bytes, line) != count {
            return false;
        }
    }
    true
}

fn is_sorted(bytes: &[u8]) -> bool {
    bytes == SORTED
}

// Whether a run with workers that are held so ends well, and its lines are those of the results, sorted or in some order.
fn holds_end(
    rt: &(impl AllocGlobal + Threads + Wait + Sync),
    sorted: bool,
    holds: &'static [Hold],
) -> Result<bool, NoMemory> {
    let gate = Holding::new(holds);
    let command = if sorted {
        "run --workers 2 --sorted plan a b"
    } else {
        "run --workers 2 plan a b"
    };
    let (status, out) = run_at(rt, &auction(command), &gate)?;
    let told = if sorted {
        is_sorted(out.bytes())
    } else {
        are_lines(out.bytes())
    };
    Ok(status == Status::Done && told && all_have_passed(&gate))
}

#[test]
fn workers_go_side_by_side(rt: HostRuntime) {
    for holds in HOLDS {
        for sorted in [false, true] {
            assert_eq!(rt; holds_end(&rt, sorted, holds), Ok(true), "sorted {sorted}");
        }
    }
}

#[test]
fn sorted_runs_write_the_same_for_every_number_of_workers(rt: HostRuntime) {
    for command in [
        "run --workers 0 --sorted plan a b",
        "run --workers 1 --sorted plan a b",
        "run --sorted plan a b",
        "run --workers 8 --sorted plan a b",
        "run --workers 16 --sorted plan a b",
    ] {
        let ended = ends_with(&rt, &auction(command), SORTED, b"");
        assert_eq!(rt; ended, Ok(Some(0)), "at {command}");
    }
}

fn feeds(bytes: &[u8]) -> usize {
    let mut count = 0usize;
    for byte in bytes {
        if *byte == b'\n' {
            count = count.saturating_add(1);
        }
    }
    count
}

// How many lines these are, where each is one of the results, none stands there more often than among them, and the row, which matches
// each punctuation, comes first; `None` where that is not so.
fn lawful_lines(bytes: &[u8]) -> Option<usize> {
    let mut count = 0usize;
    for (line, most) in LINES {
        let found = times(bytes, line);
        if found > most {
            return None;
        }
        count = count.saturating_add(found);
    }
    let is_first = times(bytes, ROW) == 0 || bytes.starts_with(ROW);
    if count == feeds(bytes) && is_first {
        Some(count)
    } else {
        None
    }
}

// How a run ends whose call fails so, and how many lawful lines it writes before this end; `None` where it writes something else.
fn ends_behind(
    rt: &(impl AllocGlobal + Threads + Wait + Sync),
    command: &str,
    fault: Fault,
    end: &[u8],
) -> Result<(u8, Option<usize>), NoMemory> {
    let case = Case {
        fault,
        ..auction(command)
    };
    let (status, out) = run_at(rt, &case, &OpenGate)?;
    let bytes = out.bytes();
    let lines = if bytes.ends_with(end) {
        lawful_lines(front(bytes, bytes.len().saturating_sub(end.len())))
    } else {
        None
    };
    Ok((status.number(), lines))
}

const ITEMS_UNREAD: &[u8] = b"# stopped read fault operand 2\n";

const BIDS_UNREAD: &[u8] = b"# stopped read fault operand 3\n";

// Each read of the items fails, by 7 bytes, and each of the bids, by one; what is written are lawful lines, and one that tells why.
#[test]
fn each_read_of_a_run_with_workers_fails_in_turn(rt: HostRuntime) {
    for command in ["run --workers 1 plan a b", "run --workers 2 plan a b"] {
        for (place, reads, end) in [(A, 4, ITEMS_UNREAD), (B, 21, BIDS_UNREAD)] {
            for nth in 0..reads {
                let ended = ends_behind(&rt, command, Fault::Read(place, nth), end);
                assert!(rt; matches!(ended, Ok((3, Some(_)))), "at {command} and {nth}");
            }
        }
    }
}

const LIMITED: &[u8] = b"# stopped limit node j\n";

// Six elements come to the join. A sorted run that stops writes no results.
#[test]
fn limits_stop_runs_with_workers(rt: HostRuntime) {
    for command in [
        "run --workers 2 --limit 1 plan a b",
        "run --workers 1 --limit 3 plan a b",
        "run --workers 2 --limit 4 plan a b",
        "run --workers 2 --limit 5 plan a b",
    ] {
        let ended = ends_behind(&rt, command, Fault::Nothing, LIMITED);
        assert!(rt; matches!(ended, Ok((6, Some(_)))), "at {command}");
    }
    for (command, number, want) in [
        ("run --workers 2 --limit 5 --sorted plan a b", 6, LIMITED),
        ("run --workers 2 --limit 6 --sorted plan a b", 0, SORTED),
        (
            "run --workers 2 plan a",
            8,
            b"# refused files want 2 got 1\n",
        ),
    ] {
        let ended = ends_with(&rt, &auction(command), want, b"");
        assert_eq!(rt; ended, Ok(Some(number)), "at {command}");
    }
}

// The first lines of the report are those of one thread.
const REPORT: &[u8] =
    b"# stream items tuples 1 punctuations 1 rejected 0\n# stream bids tuples 1 punctuations 1 rejected 1\n# reject bids line 3 closed by line 2\n# results 1 punctuations 4\n";

// As many lines are left as were written before; the results are the first five of them.
#[test]
fn each_write_of_a_run_with_workers_fails_in_turn(rt: HostRuntime) {
    for command in ["run --workers 1 plan a b", "run --workers 2 plan a b"] {
        for (nth, lines, left) in [
            (0, 0, 0),
            (1, 1, 0),
            (2, 2, 0),
            (3, 3, 0),
            (4, 4, 0),
            (5, 5, 0),
            (6, 5, 50),
            (7, 5, 99),
            (8, 5, 137),
            (9, 5, 164),
        ] {
            let ended = ends_behind(&rt, command, Fault::Write(nth), front(REPORT, left));
            assert_eq!(rt; ended, Ok((4, Some(lines))), "at {command} and {nth}");
        }
    }
}

#[test]
fn each_write_of_a_sorted_run_with_workers_fails_in_turn(rt: HostRuntime) {
    for command in [
        "run --workers 1 --sorted plan a b",
        "run --workers 2 --sorted plan a b",
    ] {
        let lefts = [0, 15, 25, 35, 45, 55, 105, 154, 192];
        let wrong = wrong_write(&rt, &auction(command), 4, SORTED, &lefts);
        assert_eq!(rt; wrong, Ok(None), "at {command}");
    }
}

// What a sorted run over made inputs writes.
fn made_run<'a>(
    rt: &(impl AllocGlobal + Threads + Wait + Sync),
    command: &'a str,
    made: &'a Made,
) -> Result<MemSink, NoMemory> {
    let files = [
        made.plan.as_slice(),
        b"",
        made.items.as_slice(),
        made.bids.as_slice(),
        b"",
    ];
    let case = Case {
        cuts: [65_536; 5],
        ..case_of(command, files)
    };
    let (_status, out) = run_at(rt, &case, &OpenGate)?;
    Ok(out)
}

// Whether so many workers write of made inputs what one thread writes.
fn write_alike(
    rt: &(impl AllocGlobal + Threads + Wait + Sync),
    command: &str,
    made: &Made,
) -> Result<bool, NoMemory> {
    let alone = made_run(rt, "run --workers 0 --sorted plan a b", made)?;
    let together = made_run(rt, command, made)?;
    Ok(alone.bytes() == together.bytes() && alone.bytes().ends_with(MADE_END))
}

const MADE_END: &[u8] = b"# results 1000 punctuations 1002\n";

#[test]
fn made_inputs_are_sorted_alike(rt: HostRuntime) {
    match make(rt.alloc(), 7, 1000) {
        Ok(made) => {
            for command in [
                "run --workers 2 --sorted plan a b",
                "run --workers 8 --sorted plan a b",
            ] {
                assert_eq!(rt; write_alike(&rt, command, &made), Ok(true), "at {command}");
            }
        }
        Err(NoMemory) => assert!(rt; false),
    }
}
