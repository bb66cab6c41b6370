// Each command over files and an output that never fail is done, and writes these first lines.
use crate::cases::words_of;
use crate::replays::LOW_SCRIPT;
use crate::runs::AUCTION;
use crate::workers::{BIDS, ITEMS, SORTED};
use pj_engine::{OpenGate, steady_calls_complete};
use pj_io::{SteadyFolder, SteadySink};
use pj_value::{List, NoMemory};
use std::alloc::Global;
use std::sync::Wait;
use std::thread::Threads;

const ROW: &[u8] = b"t 1 \"ann\" 1 50\n";

const RUN: &[u8] =
    b"t 1 \"ann\" 1 50\np * * 1 *\np 1 * * *\np * * * *\np * * * *\n# stream items tuples 1 punctuations 1 rejected 0\n";

const REPLAYED: &[u8] =
    b"t 1 \"ann\" 1 50\n# purge j items t 1 \"ann\"\np 1 * * *\n# purge j bids t 1 50\np * * 1 *\n";

const CHECKED: &[u8] = b"# safe join j input items: bids by + _\n";

const MADE: &[u8] = b"# make 7 1\n# stream items tuples 2 punctuations 1 rejected 0\n";

fn folder_of(alloc: Global) -> Result<SteadyFolder, NoMemory> {
    let mut folder = SteadyFolder::new(alloc);
    folder.add(alloc, b"plan", List::copy_of(alloc, AUCTION)?, 100)?;
    folder.add(alloc, b"script", List::copy_of(alloc, LOW_SCRIPT)?, 100)?;
    folder.add(alloc, b"a", List::copy_of(alloc, ITEMS)?, 7)?;
    folder.add(alloc, b"b", List::copy_of(alloc, BIDS)?, 1)?;
    Ok(folder)
}

// The number of how a command ends, whose output has room for so many bytes; `None` where it doesn't write this first.
fn ends_with(
    rt: &(impl AllocGlobal + Threads + Wait + Sync),
    command: &str,
    room: usize,
    want: &[u8],
) -> Result<Option<u8>, NoMemory> {
    let words = words_of(rt.alloc(), command)?;
    let mut folder = folder_of(rt.alloc())?;
    let mut out = SteadySink::new(rt.alloc(), 16, room)?;
    let status = steady_calls_complete(rt, words.as_slice(), &mut folder, &mut out, &OpenGate);
    if out.bytes().starts_with(want) {
        return Ok(Some(status.number()));
    }
    Ok(None)
}

#[test]
fn nothing_stops_a_run(rt: HostRuntime) {
    for (command, room, want) in [
        ("run --workers=0 plan a b", 10_000, RUN),
        ("run --workers=0 plan a b", 20, ROW),
        ("run --workers=2 plan a b", 10_000, ROW),
        ("run --workers=2 plan a b", 20, ROW),
        ("run --workers=2 --sorted plan a b", 10_000, SORTED),
        ("replay plan script a b --trace", 10_000, REPLAYED),
        ("check plan", 10_000, CHECKED),
        ("make 7 1", 10_000, MADE),
    ] {
        let number = ends_with(&rt, command, room, want);
        assert_eq!(rt; number, Ok(Some(0)), "at {command}");
    }
}
