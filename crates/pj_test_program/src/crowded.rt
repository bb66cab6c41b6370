// Long, cut and crowded input: lines and lists beyond the common, cells that are cut, and the least limits.
use crate::cases::{ends, ends_with};
use crate::runs::{auction, over};
use pj_engine::Status;
use pj_value::{List, NoMemory};
use std::alloc::Global;
use std::sync::Wait;
use std::thread::Threads;

const NUMBERS: &[u8] = b"plan 1\nstream s v:int\noutput s\n";

const WORDS: &[u8] = b"plan 1\nstream s w:text\noutput s\n";

// ---- a list of many numbers

// How many numbers are listed, each below that.
const LISTED: u32 = 10_000;

// The punctuation that lists the numbers, falling or rising, on a line.
fn listed(alloc: Global, falls: bool) -> Result<List<u8>, NoMemory> {
    let mut line = List::copy_of(alloc, b"p {")?;
    for at in 0..LISTED {
        let number = if falls { LISTED - 1 - at } else { at };
        let cell = format!(in alloc; "{number}|")?;
        line.append(cell.as_bytes())?;
    }
    line.truncate(line.len().saturating_sub(1));
    line.append(b"}\n")?;
    Ok(line)
}

// The greatest number is closed, and the one above it is not.
const LISTED_OUT: &[u8] =
    b"t 10000\np *\n# stream s tuples 1 punctuations 1 rejected 1\n# reject s line 2 closed by line 1\n# results 1 punctuations 2\n";

fn listed_ends(rt: &(impl AllocGlobal + Threads + Wait + Sync)) -> Result<Option<u8>, NoMemory> {
    let mut file = listed(rt.alloc(), true)?;
    file.append(b"t 9999\nt 10000\n")?;
    let sorted = listed(rt.alloc(), false)?;
    if sorted.len() != 48_894 {
        return Ok(None);
    }
    let case = over(NUMBERS, file.as_slice(), 4096);
    ends_with(rt, &case, sorted.as_slice(), LISTED_OUT)
}

#[test]
fn a_long_list_is_written_in_order(rt: HostRuntime) {
    assert_eq!(rt; listed_ends(&rt), Ok(Some(0)));
}

// ---- a line of many bytes

const LONG: usize = 10_485_760;

const LONG_OUT: &[u8] =
    b"t 1\np *\n# stream s tuples 1 punctuations 0 rejected 1\n# reject s line 1 too long\n# results 1 punctuations 1\n";

fn long_line_ends(rt: &(impl AllocGlobal + Threads + Wait + Sync)) -> Result<Option<u8>, NoMemory> {
    let alloc = rt.alloc();
    let mut file = List::of(vec![in alloc; b'a'; LONG]?);
    file.append(b"\nt 1")?;
    ends_with(rt, &over(NUMBERS, file.as_slice(), 65_536), LONG_OUT, b"")
}

#[test]
fn a_line_of_ten_million_bytes_is_passed_over(rt: HostRuntime) {
    assert_eq!(rt; long_line_ends(&rt), Ok(Some(0)));
}

// ---- texts that are cut

// Behind a backslash, in an escape whose quote follows, and behind one.
const CUT: &[u8] = b"t \"a\\\nt \"\\x4\"\nt \"\\x41";

const CUT_OUT: &[u8] =
    b"p *\n# stream s tuples 0 punctuations 0 rejected 3\n# reject s line 1 not an element\n# reject s line 2 bad cell 1\n# reject s line 3 not an element\n# results 0 punctuations 1\n";

#[test]
fn texts_that_are_cut_are_rejected(rt: HostRuntime) {
    for cut in [1, 4096] {
        let ended = ends(&rt, &over(WORDS, CUT, cut), CUT_OUT, b"");
        assert_eq!(rt; ended, Ok(Some(Status::Done)), "at {cut}");
    }
}

// ---- the least limits

const LIMITED_OUT: &[u8] = b"p * * * *\n# stopped limit node j\n";

const EMPTY_OUT: &[u8] =
    b"p * * * *\np * * * *\n# stream items tuples 0 punctuations 0 rejected 0\n# stream bids tuples 0 punctuations 0 rejected 0\n# results 0 punctuations 2\n# peak j 0\n";

// Two empty files bring two elements, their ends.
#[test]
fn ends_of_files_count_against_a_limit(rt: HostRuntime) {
    for (command, number, want) in [
        ("run --workers 0 --limit 1 plan a b", 6, LIMITED_OUT),
        ("run --workers 0 --limit 2 plan a b", 0, EMPTY_OUT),
    ] {
        let ended = ends_with(&rt, &auction(command, b"", b""), want, b"");
        assert_eq!(rt; ended, Ok(Some(number)), "at {command}");
    }
}
