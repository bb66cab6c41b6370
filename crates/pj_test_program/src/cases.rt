// A case: a command over files, and what it writes.
use pj_engine::{Gate, OpenGate, Status, run_words};
use pj_io::{MemFolder, MemSink};
use pj_value::NoMemory;
use std::alloc::Global;
use std::sync::Wait;
use std::thread::Threads;

// The calls that fail: an opening, a read of the file at a place, a write, or both of these, each counted from 0.
#[derive(Clone, Copy)]
pub(crate) enum Fault {
    Nothing,
    Opening(u64),
    Read(usize, u64),
    Write(u64),
    Both { place: usize, read: u64, write: u64 },
}

// A command over the files `plan`, `script`, `a`, `b` and `c`, with the most that a read of each gives.
#[derive(Clone, Copy)]
pub(crate) struct Case<'a> {
    pub(crate) command: &'a str,
    pub(crate) cuts: [usize; 5],
    pub(crate) files: [&'a [u8]; 5],
    pub(crate) fault: Fault,
}

// The places of three of the files.
pub(crate) const SCRIPT: usize = 1;

pub(crate) const A: usize = 2;

pub(crate) const B: usize = 3;

// A command over these files, of which no call fails. All are read in pieces.
pub(crate) fn case_of<'a>(command: &'a str, files: [&'a [u8]; 5]) -> Case<'a> {
    Case {
        command,
        cuts: [100, 100, 7, 1, 100],
        files,
        fault: Fault::Nothing,
    }
}

// The numbers of the opening that fails, of the read of the file at this place, and of the write.
#[derive(Clone, Copy)]
struct Calls {
    opening: u64,
    place: usize,
    read: u64,
    write: u64,
}

// No call has this number.
const NEVER: u64 = u64::MAX;

const NONE: Calls = Calls {
    opening: NEVER,
    place: 0,
    read: NEVER,
    write: NEVER,
};

fn calls_of(fault: Fault) -> Calls {
    match fault {
        Fault::Nothing => NONE,
        Fault::Opening(opening) => Calls { opening, ..NONE },
        Fault::Read(place, read) => Calls {
            place,
            read,
            ..NONE
        },
        Fault::Write(write) => Calls { write, ..NONE },
        Fault::Both { place, read, write } => Calls {
            place,
            read,
            write,
            ..NONE
        },
    }
}

// The number of the read that fails of the file at a place.
fn read_at(calls: &Calls, place: usize) -> u64 {
    if calls.place == place {
        calls.read
    } else {
        NEVER
    }
}

// The words of a command.
pub(crate) fn words_of(alloc: Global, command: &str) -> Result<Vec<String>, NoMemory> {
    let mut words = Vec::new(alloc);
    for word in command.split(' ') {
        words.push(String::from_str(alloc, word)?)?;
    }
    Ok(words)
}

pub(crate) fn folder_of(alloc: Global, case: &Case<'_>) -> Result<MemFolder, NoMemory> {
    let [plan, script, a, b, c] = case.files;
    let cuts = case.cuts;
    let calls = calls_of(case.fault);
    let mut folder = MemFolder::new(alloc, &[calls.opening])?;
    folder.add(alloc, b"plan", plan, cuts[0].max(1), &[read_at(&calls, 0)])?;
    folder.add(
        alloc,
        b"script",
        script,
        cuts[SCRIPT].max(1),
        &[read_at(&calls, SCRIPT)],
    )?;
    folder.add(alloc, b"a", a, cuts[A].max(1), &[read_at(&calls, A)])?;
    folder.add(alloc, b"b", b, cuts[B].max(1), &[read_at(&calls, B)])?;
    folder.add(alloc, b"c", c, cuts[4].max(1), &[read_at(&calls, 4)])?;
    Ok(folder)
}

// How these words end over the files of the case, and the sink, which takes whole pieces.
fn run<G: Gate>(
    rt: &(impl AllocGlobal + Threads + Wait + Sync),
    words: &[String],
    case: &Case<'_>,
    gate: &G,
) -> Result<(Status, MemSink), NoMemory> {
    let mut folder = folder_of(rt.alloc(), case)?;
    let mut out = MemSink::new(rt.alloc(), 100_000, &[calls_of(case.fault).write])?;
    out.room(200_000)?;
    let status = run_words(rt, words, &mut folder, &mut out, gate);
    Ok((status, out))
}

// How the case ends whose workers pass this gate, and the sink.
pub(crate) fn run_at<G: Gate>(
    rt: &(impl AllocGlobal + Threads + Wait + Sync),
    case: &Case<'_>,
    gate: &G,
) -> Result<(Status, MemSink), NoMemory> {
    let words = words_of(rt.alloc(), case.command)?;
    run(rt, words.as_slice(), case, gate)
}

// How they end, where they write this and then this.
pub(crate) fn ends_by(
    rt: &(impl AllocGlobal + Threads + Wait + Sync),
    words: &[String],
    case: &Case<'_>,
    want: &[u8],
    more: &[u8],
) -> Result<Option<Status>, NoMemory> {
    let (status, out) = run(rt, words, case, &OpenGate)?;
    if is(out.bytes(), want, more) {
        return Ok(Some(status));
    }
    Ok(None)
}

fn is(bytes: &[u8], want: &[u8], more: &[u8]) -> bool {
    bytes.len().saturating_sub(want.len()) == more.len()
        && bytes.starts_with(want)
        && bytes.ends_with(more)
}

// How the case ends, where it writes this and then this; `None` where it writes something else.
pub(crate) fn ends(
    rt: &(impl AllocGlobal + Threads + Wait + Sync),
    case: &Case<'_>,
    want: &[u8],
    more: &[u8],
) -> Result<Option<Status>, NoMemory> {
    let words = words_of(rt.alloc(), case.command)?;
    ends_by(rt, words.as_slice(), case, want, more)
}

// The number of how it ends, where it writes this and then this.
pub(crate) fn ends_with(
    rt: &(impl AllocGlobal + Threads + Wait + Sync),
    case: &Case<'_>,
    want: &[u8],
    more: &[u8],
) -> Result<Option<u8>, NoMemory> {
    match ends(rt, case, want, more)? {
        None => Ok(None),
        Some(status) => Ok(Some(status.number())),
    }
}

// The number of how it ends, whatever it writes.
pub(crate) fn number_of(
    rt: &(impl AllocGlobal + Threads + Wait + Sync),
    case: &Case<'_>,
) -> Result<u8, NoMemory> {
    let (status, _out) = run_at(rt, case, &OpenGate)?;
    Ok(status.number())
}

// The first so many of these bytes.
pub(crate) fn front(bytes: &[u8], count: usize) -> &[u8] {
    bytes.split_at(count.min(bytes.len())).0
}

// The number of the first of the writes behind whose failure the case does not end with this number, or leaves not as many bytes of
// this as stand at that place.
pub(crate) fn wrong_write(
    rt: &(impl AllocGlobal + Threads + Wait + Sync),
    case: &Case<'_>,
    number: u8,
    want: &[u8],
    lefts: &[usize],
) -> Result<Option<usize>, NoMemory> {
    for nth in 0..lefts.len() {
        let failing = Case {
            fault: Fault::Write(nth as u64),
            ..*case
        };
        if ends_with(rt, &failing, front(want, lefts[nth]), b"")? != Some(number) {
            return Ok(Some(nth));
        }
    }
    Ok(None)
}
