// What no clause says: the exact bytes of worked files, whatever the pieces of the reads, and every failure in turn.
use crate::cases::{A, B, Case, Fault, case_of, ends, ends_by, ends_with, front, wrong_write};
use crate::examples::EXAMPLES;
use pj_engine::{LimitOf, Status};
use pj_value::{List, NoMemory};
use std::alloc::Global;
use std::sync::Wait;
use std::thread::Threads;

pub(crate) const PLAN: &[u8] = b"plan 1\nstream s k:int v:text\noutput s\n";

// Elements, skipped lines and rejects, carriage returns, bytes that are no UTF-8, and a last line without a line feed.
pub(crate) const ODD: &[u8] =
    b"t 1 \"a\"\r\n\n \t\n# note\nx 1 \"a\"\nt 1\np 7 *\nt 7 \"\xff\\x41\"\n\tt  8\t\"\xff\\x41\"  \nt \"a\" 1\nt 9 \"a\np 7 \"b\nt * \"c\"\np \"a\" *\nt 2 \"\\r\"\r\np * \"z\"";

const ODD_OUT: &[u8] =
    b"t 1 \"a\"\np 7 *\nt 8 \"\xffA\"\nt 2 \"\\r\"\np * \"z\"\np * *\n# stream s tuples 3 punctuations 2 rejected 8\n# reject s line 5 not an element\n# reject s line 6 arity want 2 got 1\n# reject s line 8 closed by line 7\n# reject s line 10 wrong kind 1\n# reject s line 11 not an element\n# reject s line 12 not an element\n# reject s line 13 bad cell 1\n# reject s line 14 wrong kind 1\n# results 3 punctuations 3\n";

// Patterns of every form, which are written in normal form.
const PATTERNS: &[u8] = b"p [5..5] *\np [7..3] *\np {2|1|2} *\np [..] [\"\"..]\np * [..\"\"]\n";

const PATTERNS_OUT: &[u8] =
    b"p 5 *\np {} *\np {1|2} *\np * *\np * \"\"\np * *\n# stream s tuples 0 punctuations 5 rejected 0\n# results 0 punctuations 6\n";

// Values at their bounds, leading zeros and escapes.
const VALUES: &[u8] =
    b"t 9223372036854775807 \"a\"\nt 9223372036854775808 \"a\"\nt -007 \"b\"\nt 7 \"q\\\"\\\\\\x0A\\x41\"\n";

const VALUES_OUT: &[u8] =
    b"t 9223372036854775807 \"a\"\nt -7 \"b\"\nt 7 \"q\\\"\\\\\\nA\"\np * *\n# stream s tuples 3 punctuations 0 rejected 1\n# reject s line 2 bad cell 1\n# results 3 punctuations 1\n";

// A tuple behind a punctuation that it matches.
const CLOSED: &[u8] = b"t 1 \"a\"\np 1 *\nt 1 \"b\"\nt 2 \"b\"\n";

const CLOSED_OUT: &[u8] =
    b"t 1 \"a\"\np 1 *\nt 2 \"b\"\np * *\n# stream s tuples 2 punctuations 1 rejected 1\n# reject s line 3 closed by line 2\n# results 2 punctuations 2\n";

// Rejects only, and skipped lines.
const REJECTS: &[u8] =
    b"x 1 \"a\"\nt 1\nt * \"a\"\nt \"a\" \"b\"\nt 1 \"a\n\n# note\np {1|\"a\"} *\n";

const REJECTS_OUT: &[u8] =
    b"p * *\n# stream s tuples 0 punctuations 0 rejected 6\n# reject s line 1 not an element\n# reject s line 2 arity want 2 got 1\n# reject s line 3 bad cell 1\n# reject s line 4 wrong kind 1\n# reject s line 5 not an element\n# reject s line 8 wrong kind 1\n# results 0 punctuations 1\n";

const NOTHING_OUT: &[u8] =
    b"p * *\n# stream s tuples 0 punctuations 0 rejected 0\n# results 0 punctuations 1\n";

pub(crate) const AUCTION: &[u8] =
    b"plan 1\nstream items item:int seller:text\nstream bids bitem:int price:int\nscheme items + _\nscheme bids + _\njoin j items bids on item=bitem\noutput j\n";

const ITEMS: &[u8] = b"t 1 \"ann\"\np 1 *\n";

const BIDS: &[u8] = b"t 1 50\np 1 *\nt 1 60\n";

// What is written of the auction over these files. The bids' punctuation goes out at its arrival, since the sweep behind the
// items' punctuation removed the bid; the items' punctuation waits for the next sweep.
const AUCTION_OUT: &[u8] =
    b"t 1 \"ann\" 1 50\np * * 1 *\np 1 * * *\np * * * *\np * * * *\n# stream items tuples 1 punctuations 1 rejected 0\n# stream bids tuples 1 punctuations 1 rejected 1\n# reject bids line 3 closed by line 2\n# results 1 punctuations 4\n# peak j 2\n";

// A join whose inputs stand in another order than the streams, and its class in another than the inputs.
const THREE: &[u8] =
    b"plan 1\nstream a ak:int av:text\nstream b bk:int bv:int\nstream c cn:int ck:int\nscheme a + _\nscheme b + _\nscheme c _ +\njoin j c a b on bk=ck=ak\noutput j\n";

const THREE_OUT: &[u8] =
    b"t 10 1 1 \"x\" 1 5\nt 20 2 2 \"z\" 2 6\np * * * * * *\np * * * * * *\np * * * * * *\n# stream a tuples 3 punctuations 0 rejected 0\n# stream b tuples 3 punctuations 0 rejected 0\n# stream c tuples 3 punctuations 0 rejected 0\n# results 2 punctuations 3\n# peak j 9\n";

// A tuple of `a` binds one of the two marked columns of `b` alone.
pub(crate) const UNSAFE: &[u8] =
    b"plan 1\nstream a x:int y:int\nstream b bx:int bz:int\nscheme a + _\nscheme b + +\njoin j a b on x=bx\noutput j\n";

const STOPPED: &[u8] = b"# stopped read fault operand 2\n";

// A run over a plan and one file, by reads of so many bytes of it.
pub(crate) fn over<'a>(plan: &'a [u8], file: &'a [u8], cut: usize) -> Case<'a> {
    Case {
        cuts: [65_536, 65_536, cut, 65_536, 65_536],
        ..case_of("run --workers=0 plan a", [plan, b"", file, b"", b""])
    }
}

// The pieces by which the run on a file does not end well or writes something else.
fn wrong_pieces(
    rt: &(impl AllocGlobal + Threads + Wait + Sync),
    file: &[u8],
    want: &[u8],
) -> Result<Option<usize>, NoMemory> {
    for cut in [1, 7, 4096] {
        if ends(rt, &over(PLAN, file, cut), want, b"")? != Some(Status::Done) {
            return Ok(Some(cut));
        }
    }
    Ok(None)
}

#[test]
fn worked_files_in_any_pieces(rt: HostRuntime) {
    for (name, file, want) in [
        ("elements and rejects", ODD, ODD_OUT),
        ("patterns", PATTERNS, PATTERNS_OUT),
        ("values", VALUES, VALUES_OUT),
        ("a closed tuple", CLOSED, CLOSED_OUT),
        ("rejects", REJECTS, REJECTS_OUT),
        ("nothing", b"", NOTHING_OUT),
    ] {
        assert_eq!(rt; wrong_pieces(&rt, file, want), Ok(None), "at {name}");
    }
}

#[test]
fn examples_write_what_stands_beside_them(rt: HostRuntime) {
    for (example, command, files, number, want) in EXAMPLES {
        let ended = ends_with(&rt, &case_of(command, files), want, b"");
        assert_eq!(rt; ended, Ok(Some(number)), "at {example}: {command}");
    }
}

// Appends a tuple of a text of so many letters.
fn append_letters(count: usize, file: &mut List<u8>) -> Result<(), NoMemory> {
    file.append(b"t \"")?;
    for _ in 0..count {
        file.push(b'a')?;
    }
    file.append(b"\"\n")?;
    Ok(())
}

// A line of the greatest length, one that is longer, and a short one.
fn long_lines(alloc: Global) -> Result<List<u8>, NoMemory> {
    let mut file = List::new(alloc);
    append_letters(65_532, &mut file)?;
    append_letters(65_533, &mut file)?;
    file.append(b"t \"z\"")?;
    Ok(file)
}

// What is written behind the first of them.
const LONG_OUT: &[u8] =
    b"t \"z\"\np *\n# stream s tuples 2 punctuations 0 rejected 1\n# reject s line 2 too long\n# results 2 punctuations 1\n";

fn long_lines_end(
    rt: &(impl AllocGlobal + Threads + Wait + Sync),
) -> Result<Option<Status>, NoMemory> {
    let file = long_lines(rt.alloc())?;
    let case = over(
        b"plan 1\nstream s w:text\noutput s\n",
        file.as_slice(),
        1 << 20,
    );
    ends(rt, &case, front(file.as_slice(), 65_537), LONG_OUT)
}

#[test]
fn lines_of_the_greatest_length_and_longer(rt: HostRuntime) {
    assert_eq!(rt; long_lines_end(&rt), Ok(Some(Status::Done)));
}

// A command over the auction and these files.
pub(crate) fn auction<'a>(command: &'a str, items: &'a [u8], bids: &'a [u8]) -> Case<'a> {
    case_of(command, [AUCTION, b"", items, bids, b""])
}

#[test]
fn two_streams_are_joined(rt: HostRuntime) {
    for (name, items, bids, want) in [
        ("a bid behind its punctuation", ITEMS, BIDS, AUCTION_OUT),
        (
            "empty files",
            b"",
            b"",
            b"p * * * *\np * * * *\n# stream items tuples 0 punctuations 0 rejected 0\n# stream bids tuples 0 punctuations 0 rejected 0\n# results 0 punctuations 2\n# peak j 0\n",
        ),
        (
            "a stream that ends in its first line",
            b"p * *\nt 1 \"x\"\n",
            b"",
            b"p * * * *\np * * * *\np * * * *\n# stream items tuples 0 punctuations 1 rejected 1\n# reject items line 2 closed by line 1\n# stream bids tuples 0 punctuations 0 rejected 0\n# results 0 punctuations 3\n# peak j 0\n",
        ),
        // That of the items waits until the last sweep, though it came before the result.
        (
            "a punctuation that waits",
            b"t 1 \"ann\"\np 1 *\n",
            b"p 9 *\nt 1 50\n",
            b"p * * 9 *\nt 1 \"ann\" 1 50\np * * * *\np 1 * * *\np * * * *\n# stream items tuples 1 punctuations 1 rejected 0\n# stream bids tuples 1 punctuations 1 rejected 0\n# results 1 punctuations 4\n# peak j 2\n",
        ),
        // They count as often as they come.
        (
            "equal rows",
            b"t 1 \"a\"\nt 1 \"a\"\n",
            b"t 1 5\nt 1 5\nt 1 5\n",
            b"t 1 \"a\" 1 5\nt 1 \"a\" 1 5\nt 1 \"a\" 1 5\nt 1 \"a\" 1 5\nt 1 \"a\" 1 5\nt 1 \"a\" 1 5\np * * * *\np * * * *\n# stream items tuples 2 punctuations 0 rejected 0\n# stream bids tuples 3 punctuations 0 rejected 0\n# results 6 punctuations 2\n# peak j 4\n",
        ),
    ] {
        assert_eq!(rt;
            ends(
                &rt,
                &auction("run --workers=0 plan a b", items, bids),
                want,
                b""
            ),
            Ok(Some(Status::Done)),
            "at {name}"
        );
    }
}

#[test]
fn each_write_of_a_join_fails_in_turn(rt: HostRuntime) {
    let case = auction("run --workers=0 plan a b", ITEMS, BIDS);
    let lefts = [0, 15, 25, 35, 45, 55, 105, 154, 192, 219];
    assert_eq!(rt; wrong_write(&rt, &case, 4, AUCTION_OUT, &lefts), Ok(None));
}

// What is written of two items and two bids before the items' file ends.
const UNREAD_OUT: &[u8] = b"t 1 \"ann\" 1 50\np * * 1 *\np 1 * * *\n";

// The items have two reads of 7 bytes, a third of the rest, and one that finds their end.
#[test]
fn each_read_of_a_join_fails_in_turn(rt: HostRuntime) {
    for (nth, left) in [(0, 0), (1, 0), (2, 15), (3, 35)] {
        let case = Case {
            cuts: [65_536, 65_536, 7, 65_536, 65_536],
            fault: Fault::Read(A, nth),
            ..auction("run --workers=0 plan a b", ITEMS, b"t 1 50\np 1 *\n")
        };
        let ended = ends(&rt, &case, front(UNREAD_OUT, left), STOPPED);
        assert_eq!(rt;
            ended,
            Ok(Some(Status::ReadFault { operand: 2 })),
            "at {nth}"
        );
    }
}

// The third tuples of `a` and of `c` each complete a row, and `a` has its turn first.
#[test]
fn three_streams_are_joined(rt: HostRuntime) {
    let case = case_of(
        "run --workers=0 plan a b c",
        [
            THREE,
            b"",
            b"t 2 \"z\"\nt 3 \"w\"\nt 1 \"x\"\n",
            b"t 2 6\nt 1 5\nt 3 7\n",
            b"t 10 1\nt 30 4\nt 20 2\n",
        ],
    );
    assert_eq!(rt; ends(&rt, &case, THREE_OUT, b""), Ok(Some(Status::Done)));
}

// The file has 18 reads of at most 7 bytes, and one that finds its end; the lines that were read whole are written.
#[test]
fn each_read_fails_in_turn(rt: HostRuntime) {
    for (nth, left) in [
        (0, 0),
        (1, 0),
        (2, 8),
        (3, 8),
        (4, 8),
        (5, 8),
        (6, 14),
        (7, 14),
        (8, 14),
        (9, 14),
        (10, 23),
        (11, 23),
        (12, 23),
        (13, 23),
        (14, 23),
        (15, 23),
        (16, 23),
        (17, 32),
        (18, 32),
    ] {
        let case = Case {
            fault: Fault::Read(A, nth),
            ..over(PLAN, ODD, 7)
        };
        let ended = ends(&rt, &case, front(ODD_OUT, left), STOPPED);
        assert_eq!(rt;
            ended,
            Ok(Some(Status::ReadFault { operand: 2 })),
            "at {nth}"
        );
    }
}

// The opening and the first read of each operand. With workers too nothing else is written: no row has a partner yet, and each
// punctuation waits.
#[test]
fn each_operand_that_fails_is_named(rt: HostRuntime) {
    for command in [
        "run --workers=0 plan a b",
        "run --workers=1 plan a b",
        "run --workers=2 plan a b",
    ] {
        for (fault, status, want) in [
            (
                Fault::Opening(0),
                Status::OpenFault { operand: 1 },
                b"# stopped open fault operand 1\n".as_slice(),
            ),
            (
                Fault::Opening(1),
                Status::OpenFault { operand: 2 },
                b"# stopped open fault operand 2\n",
            ),
            (
                Fault::Opening(2),
                Status::OpenFault { operand: 3 },
                b"# stopped open fault operand 3\n",
            ),
            (
                Fault::Read(0, 0),
                Status::ReadFault { operand: 1 },
                b"# stopped read fault operand 1\n",
            ),
            (
                Fault::Read(A, 0),
                Status::ReadFault { operand: 2 },
                b"# stopped read fault operand 2\n",
            ),
            (
                Fault::Read(B, 0),
                Status::ReadFault { operand: 3 },
                b"# stopped read fault operand 3\n",
            ),
        ] {
            let case = Case {
                fault,
                ..auction(command, ITEMS, BIDS)
            };
            assert_eq!(rt;
                ends(&rt, &case, want, b""),
                Ok(Some(status)),
                "at {command}"
            );
        }
    }
}

// The bids come by 7 bytes a read, of which the third fails.
#[test]
fn a_late_read_that_fails_leaves_what_came(rt: HostRuntime) {
    let case = Case {
        cuts: [65_536, 65_536, 65_536, 7, 65_536],
        fault: Fault::Read(B, 2),
        ..auction(
            "run --workers=0 plan a b",
            b"t 1 \"ann\"\n",
            b"t 1 50\np 9 *\n",
        )
    };
    let want = b"t 1 \"ann\" 1 50\np * * 9 *\n# stopped read fault operand 3\n";
    let status = Status::ReadFault { operand: 3 };
    assert_eq!(rt; ends(&rt, &case, want, b""), Ok(Some(status)));
}

// A file that is not there stops the call before anything is written but the status' line.
#[test]
fn a_missing_file_is_named(rt: HostRuntime) {
    for (command, operand, want) in [
        (
            "run --workers=0 plan a nosuch",
            3,
            b"# stopped open fault operand 3\n".as_slice(),
        ),
        (
            "run --workers=0 plan nosuch a",
            2,
            b"# stopped open fault operand 2\n",
        ),
        (
            "run --workers=0 nosuch a a",
            1,
            b"# stopped open fault operand 1\n",
        ),
    ] {
        let ended = ends(&rt, &auction(command, b"t 1 \"ann\"\n", b""), want, b"");
        let status = Status::OpenFault { operand };
        assert_eq!(rt; ended, Ok(Some(status)), "at {command}");
    }
}

// There are 16 writes.
#[test]
fn each_write_fails_in_turn(rt: HostRuntime) {
    let lefts = [
        0, 8, 14, 23, 32, 40, 46, 92, 125, 162, 197, 229, 263, 297, 327, 359,
    ];
    let wrong = wrong_write(&rt, &over(PLAN, ODD, 4096), 4, ODD_OUT, &lefts);
    assert_eq!(rt; wrong, Ok(None));
    let case = Case {
        fault: Fault::Write(16),
        ..over(PLAN, ODD, 4096)
    };
    assert_eq!(rt; ends(&rt, &case, ODD_OUT, b""), Ok(Some(Status::Done)));
    assert_eq!(rt; ODD_OUT.len(), 386);
}

const USAGE: &[u8] =
    b"# usage: run PLAN FILE.. | replay PLAN SCRIPT FILE.. | check PLAN | make SEED N\n";

// A command over a plan and a file `a`.
pub(crate) fn asked<'a>(command: &'a str, plan: &'a [u8]) -> Case<'a> {
    case_of(command, [plan, b"", ODD, b"", b""])
}

#[test]
fn other_words_are_refused(rt: HostRuntime) {
    for command in [
        "",
        "run",
        "run plan",
        "walk plan a",
        "run -plan a",
        "run plan --a",
        "run plan a -",
        "walk nosuch a",
    ] {
        let ended = ends(&rt, &asked(command, b""), USAGE, b"");
        assert_eq!(rt; ended, Ok(Some(Status::Usage)), "at {command}");
    }
    for (fault, line) in [(Fault::Nothing, USAGE), (Fault::Write(0), b"")] {
        let case = Case {
            fault,
            ..asked("", b"")
        };
        assert_eq!(rt;
            ends_by(&rt, &[], &case, line, b""),
            Ok(Some(Status::Usage))
        );
    }
}

#[test]
fn a_plan_is_refused_with_its_first_fault(rt: HostRuntime) {
    for (plan, line) in [
        (
            b"".as_slice(),
            b"# refused plan line 1 P1 not a plan\n".as_slice(),
        ),
        (
            b"plan 2\nstream s k:int\noutput s\n",
            b"# refused plan line 1 P1 not a plan\n",
        ),
        (
            b"plan 1\n\nplan 1\n",
            b"# refused plan line 3 P2 unknown statement\n",
        ),
        (
            b"plan 1\nstream a x:int x:blob\nstream a y:int y:int\nscheme q +\n",
            b"# refused plan line 2 P3 bad shape\n",
        ),
        (
            b"plan 1\nstream on k:int\noutput on\n",
            b"# refused plan line 2 P3 bad shape\n",
        ),
        (
            b"plan 1\nstream a x:int\nstream a y:int y:int\nscheme q +\n",
            b"# refused plan line 3 P4 name given twice\n",
        ),
        (
            b"plan 1\nstream s k:int\noutput t\n",
            b"# refused plan line 3 P5 unknown name\n",
        ),
        (
            b"plan 1\nstream s k:int\nproject p s j\n",
            b"# refused plan line 3 P6 unknown column\n",
        ),
        (
            b"plan 1\nstream s k:int k:int\noutput s\n",
            b"# refused plan line 2 P7 column name twice\n",
        ),
        (
            b"plan 1\nstream a x:int\nstream b y:text\njoin j a b on x=y\n",
            b"# refused plan line 4 P8 kinds differ\n",
        ),
        (
            b"plan 1\nstream a x:int z:int\nstream b y:int\njoin j a b on x=z\n",
            b"# refused plan line 4 P9 bad class\n",
        ),
        (
            b"plan 1\nstream s k:int\nscheme s _\n",
            b"# refused plan line 3 P10 bad scheme\n",
        ),
        (
            b"plan 1\nstream s k:int\nstream t k:int\noutput s\n",
            b"# refused plan line 4 P11 used twice or never\n",
        ),
        (
            b"plan 1\nstream s k:int\noutput s\nstream t k:int\n",
            b"# refused plan line 4 P13 output\n",
        ),
        (
            b"plan 1\nstream s k:int\nselect t s where k \"\noutput t\n",
            b"# refused plan line 3 P14 unreadable line\n",
        ),
    ] {
        let ended = ends_with(
            &rt,
            &asked("run --workers=0 plan nosuch a a", plan),
            line,
            b"",
        );
        assert_eq!(rt; ended, Ok(Some(1)));
    }
}

#[test]
fn another_number_of_files_and_unsafe_plans_are_refused(rt: HostRuntime) {
    let select = b"plan 1\nstream s k:int\nselect t s where k 1\noutput t\n".as_slice();
    for (command, plan, number, line) in [
        (
            "run --workers=0 plan nosuch",
            AUCTION,
            8,
            b"# refused files want 2 got 1\n".as_slice(),
        ),
        (
            "run --workers=0 plan a a nosuch",
            AUCTION,
            8,
            b"# refused files want 2 got 3\n",
        ),
        (
            "run --workers=0 plan a nosuch",
            select,
            8,
            b"# refused files want 1 got 2\n",
        ),
        (
            "run --workers=0 plan nosuch",
            UNSAFE,
            8,
            b"# refused files want 2 got 1\n",
        ),
        (
            "run --workers=0 plan nosuch nosuch",
            UNSAFE,
            2,
            b"# unsafe join j input a: cannot reach b\n# reached: a\n",
        ),
        (
            "run --workers=0 plan nosuch nosuch nosuch",
            b"plan 1\nstream a k:int\nstream b l:int\nstream c m:int\nscheme a +\nscheme b +\njoin i a b on k=l\njoin j c i on m=l\noutput j\n",
            2,
            b"# unsafe join j input i: cannot reach c\n# reached: i\n",
        ),
    ] {
        let ended = ends_with(&rt, &asked(command, plan), line, b"");
        assert_eq!(rt; ended, Ok(Some(number)), "at {command}");
    }
}

#[test]
fn a_stream_alone_may_have_schemes(rt: HostRuntime) {
    let plan = b"plan 1\nstream s k:int v:text\nscheme s + _\noutput s\n";
    let ended = ends(&rt, &over(plan, CLOSED, 7), CLOSED_OUT, b"");
    assert_eq!(rt; ended, Ok(Some(Status::Done)));
}

// The bytes with line feeds behind them, so many bytes in all.
pub(crate) fn padded(alloc: Global, bytes: &[u8], size: usize) -> Result<List<u8>, NoMemory> {
    let mut long = List::copy_of(alloc, bytes)?;
    for _ in bytes.len()..size {
        long.push(b'\n')?;
    }
    Ok(long)
}

// How a plan of so many bytes ends, over a file of so many line feeds.
fn padded_plan_ends(
    rt: &(impl AllocGlobal + Threads + Wait + Sync),
    size: usize,
    feeds: usize,
    want: &[u8],
) -> Result<Option<Status>, NoMemory> {
    let plan = padded(rt.alloc(), PLAN, size)?;
    let file = padded(rt.alloc(), b"", feeds)?;
    ends(
        rt,
        &over(plan.as_slice(), file.as_slice(), 65_536),
        want,
        b"",
    )
}

#[test]
fn a_plan_of_more_bytes_than_may_be_is_refused(rt: HostRuntime) {
    let ended = padded_plan_ends(&rt, 1_048_576, 1_048_577, NOTHING_OUT);
    assert_eq!(rt; ended, Ok(Some(Status::Done)));
    let status = Status::Limit {
        what: LimitOf::Plan,
    };
    let ended = padded_plan_ends(&rt, 1_048_577, 0, b"# stopped limit plan\n");
    assert_eq!(rt; ended, Ok(Some(status)));
}

// Four streams, three unions of them, and then a chain of selects, of which each asks for its own name and those behind it.
#[rattlefmt::skip]
const NODES: [&[u8]; 64] = [
    b"stream naa v:text\n", b"stream nab v:text\n", b"stream nac v:text\n", b"stream nad v:text\n", b"union nae nad naa\n",
    b"union naf nae nab\n", b"union nag naf nac\n", b"select nah nag where v [\"nah\"..]\n", b"select nai nah where v [\"nai\"..]\n",
    b"select naj nai where v [\"naj\"..]\n", b"select nak naj where v [\"nak\"..]\n", b"select nal nak where v [\"nal\"..]\n",
    b"select nam nal where v [\"nam\"..]\n", b"select nan nam where v [\"nan\"..]\n", b"select nao nan where v [\"nao\"..]\n",
    b"select nap nao where v [\"nap\"..]\n", b"select nba nap where v [\"nba\"..]\n", b"select nbb nba where v [\"nbb\"..]\n",
    b"select nbc nbb where v [\"nbc\"..]\n", b"select nbd nbc where v [\"nbd\"..]\n", b"select nbe nbd where v [\"nbe\"..]\n",
    b"select nbf nbe where v [\"nbf\"..]\n", b"select nbg nbf where v [\"nbg\"..]\n", b"select nbh nbg where v [\"nbh\"..]\n",
    b"select nbi nbh where v [\"nbi\"..]\n", b"select nbj nbi where v [\"nbj\"..]\n", b"select nbk nbj where v [\"nbk\"..]\n",
    b"select nbl nbk where v [\"nbl\"..]\n", b"select nbm nbl where v [\"nbm\"..]\n", b"select nbn nbm where v [\"nbn\"..]\n",
    b"select nbo nbn where v [\"nbo\"..]\n", b"select nbp nbo where v [\"nbp\"..]\n", b"select nca nbp where v [\"nca\"..]\n",
    b"select ncb nca where v [\"ncb\"..]\n", b"select ncc ncb where v [\"ncc\"..]\n", b"select ncd ncc where v [\"ncd\"..]\n",
    b"select nce ncd where v [\"nce\"..]\n", b"select ncf nce where v [\"ncf\"..]\n", b"select ncg ncf where v [\"ncg\"..]\n",
    b"select nch ncg where v [\"nch\"..]\n", b"select nci nch where v [\"nci\"..]\n", b"select ncj nci where v [\"ncj\"..]\n",
    b"select nck ncj where v [\"nck\"..]\n", b"select ncl nck where v [\"ncl\"..]\n", b"select ncm ncl where v [\"ncm\"..]\n",
    b"select ncn ncm where v [\"ncn\"..]\n", b"select nco ncn where v [\"nco\"..]\n", b"select ncp nco where v [\"ncp\"..]\n",
    b"select nda ncp where v [\"nda\"..]\n", b"select ndb nda where v [\"ndb\"..]\n", b"select ndc ndb where v [\"ndc\"..]\n",
    b"select ndd ndc where v [\"ndd\"..]\n", b"select nde ndd where v [\"nde\"..]\n", b"select ndf nde where v [\"ndf\"..]\n",
    b"select ndg ndf where v [\"ndg\"..]\n", b"select ndh ndg where v [\"ndh\"..]\n", b"select ndi ndh where v [\"ndi\"..]\n",
    b"select ndj ndi where v [\"ndj\"..]\n", b"select ndk ndj where v [\"ndk\"..]\n", b"select ndl ndk where v [\"ndl\"..]\n",
    b"select ndm ndl where v [\"ndm\"..]\n", b"select ndn ndm where v [\"ndn\"..]\n", b"select ndo ndn where v [\"ndo\"..]\n",
    b"select ndp ndo where v [\"ndp\"..]\n",
];

fn plan_of(alloc: Global, last: &[u8]) -> Result<List<u8>, NoMemory> {
    let mut plan = List::copy_of(alloc, b"plan 1\n")?;
    for statement in NODES {
        plan.append(statement)?;
    }
    plan.append(last)?;
    Ok(plan)
}

// The last select drops what all others keep.
const CHAIN: &[u8] = b"t \"ndp\"\nt \"ndo\"\np \"ndp\"\nt \"ndp\"\nt \"z\"\n";

const CHAIN_OUT: &[u8] =
    b"t \"ndp\"\nt \"ndp\"\nt \"ndp\"\nt \"ndp\"\np \"ndp\"\np \"ndp\"\np \"ndp\"\np \"ndp\"\nt \"z\"\nt \"z\"\nt \"z\"\nt \"z\"\np *\np *\np *\np *\n# stream naa tuples 3 punctuations 1 rejected 1\n# reject naa line 4 closed by line 3\n# stream nab tuples 3 punctuations 1 rejected 1\n# reject nab line 4 closed by line 3\n# stream nac tuples 3 punctuations 1 rejected 1\n# reject nac line 4 closed by line 3\n# stream nad tuples 3 punctuations 1 rejected 1\n# reject nad line 4 closed by line 3\n# results 8 punctuations 8\n";

// How a plan of these nodes, and what else it says, ends.
fn nodes_end(
    rt: &(impl AllocGlobal + Threads + Wait + Sync),
    last: &[u8],
    want: &[u8],
) -> Result<Option<u8>, NoMemory> {
    let plan = plan_of(rt.alloc(), last)?;
    let files = [plan.as_slice(), b"", CHAIN, CHAIN, CHAIN];
    ends_with(
        rt,
        &case_of("run --workers=0 plan a b c a", files),
        want,
        b"",
    )
}

#[test]
fn the_greatest_plan_runs(rt: HostRuntime) {
    let ended = nodes_end(&rt, b"output ndp\n", CHAIN_OUT);
    assert_eq!(rt; ended, Ok(Some(0)));
}

#[test]
fn a_plan_of_more_nodes_than_may_be_is_refused(rt: HostRuntime) {
    let line = b"# refused plan line 66 P12 too many\n";
    let last = b"select nea ndp where v [\"nea\"..]\noutput nea\n";
    assert_eq!(rt; nodes_end(&rt, last, line), Ok(Some(1)));
}
