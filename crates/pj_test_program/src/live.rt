// What no clause says: what is held back is handed on before each read that waits.
ghost use Rattle.std.specs.Prelude.{[], false};
ghost use Rattle.pj_io.specs.MemoryFolders.{folder_of};

use crate::cases::{Case, case_of, folder_of, words_of};
use crate::runs::{ODD, PLAN, over};
use pj_engine::{OpenGate, Status, run_words};
use pj_io::{Failed, Folder, MemFolder, MemSource, OpenStop, Sink, Source};
use pj_value::NoMemory;
use std::alloc::Global;
use std::sync::Wait;
use std::sync::atomic::{AtomicU64, Ordering};
use std::thread::Threads;

// What the reads, writes and flushes of a run note: the bytes that are held back, how many flushes and reads there were, and at
// how many of the reads bytes were held back.
#[derive(Drop)]
struct Log {
    held: AtomicU64,
    flushes: AtomicU64,
    reads: AtomicU64,
    late: AtomicU64,
}

fn count(number: &AtomicU64, more: u64) {
    number.fetch_add(more, Ordering::SeqCst);
}

fn counted(number: &AtomicU64) -> u64 {
    number.load(Ordering::SeqCst)
}

// A file that notes its reads.
#[derive(Drop)]
struct NotedFile<'a> {
    inner: MemSource,
    log: &'a Log,
}

impl<'a> Source for NotedFile<'a> {
    ghost state = { λ s. s.inner.source };

    fn read(&mut self, buf: &mut [u8]) -> Result<usize, Failed> {
        count(&self.log.reads, 1);
        if counted(&self.log.held) > 0 {
            count(&self.log.late, 1);
        }
        self.inner.read(buf)
    }
}

#[derive(Drop)]
struct NotedFolder<'a> {
    inner: MemFolder,
    log: &'a Log,
}

impl<'a> Folder for NotedFolder<'a> {
    type File = NotedFile<'a>;

    ghost state = { λ f. folder_of f.inner };

    fn open_file(&mut self, alloc: Global, name: &[u8]) -> Result<NotedFile<'a>, OpenStop> {
        match self.inner.open_file(alloc, name) {
            Ok(inner) => Ok(NotedFile {
                inner,
                log: self.log,
            }),
            Err(stop) => Err(stop),
        }
    }

    fn close_file(&mut self, file: NotedFile<'a>) {
        let NotedFile { inner, log: _ } = file;
        self.inner.close_file(inner);
    }
}

// Holds all back until it is flushed. The flush of this number, counted from 0, fails, and so do those behind it.
#[derive(Drop)]
struct NotedSink<'a> {
    log: &'a Log,
    fails: u64,
    faults: u64,
}

impl<'a> Sink for NotedSink<'a> {
    ghost state = { λ s. record { told = false; written = []; faults = s.faults; held = [] } };

    fn write(&mut self, piece: &[u8]) -> Result<usize, Failed> {
        count(&self.log.held, piece.len() as u64);
        Ok(piece.len())
    }

    fn flush(&mut self) -> Result<(), Failed> {
        let number = counted(&self.log.flushes);
        count(&self.log.flushes, 1);
        if number >= self.fails {
            self.faults = self.faults.saturating_add(1);
            return Err(Failed);
        }
        self.log.held.store(0, Ordering::SeqCst);
        Ok(())
    }
}

// By 12 bytes a read: behind the first tuple a line that is rejected is held, behind the second a comment, behind the third none.
const FILE: &[u8] = b"t 1 \"a\"\nx 2\nt 2 \"b\"\n# c\nt 3 \"c\"\n";

const PAIR: &[u8] =
    b"plan 1\nstream a k:int\nstream b l:int\nscheme a +\nscheme b +\njoin j a b on k=l\noutput j\n";

// How the case ends, where the flush of this number and those behind it fail, and how many flushes, reads, and reads with something
// held back there were.
fn noted(
    rt: &(impl AllocGlobal + Threads + Wait + Sync),
    case: &Case<'_>,
    fails: u64,
) -> Result<(Status, u64, u64, u64), NoMemory> {
    let log = Log {
        held: AtomicU64::new(0),
        flushes: AtomicU64::new(0),
        reads: AtomicU64::new(0),
        late: AtomicU64::new(0),
    };
    let status = ends(rt, case, fails, &log)?;
    Ok((
        status,
        counted(&log.flushes),
        counted(&log.reads),
        counted(&log.late),
    ))
}

fn ends(
    rt: &(impl AllocGlobal + Threads + Wait + Sync),
    case: &Case<'_>,
    fails: u64,
    log: &Log,
) -> Result<Status, NoMemory> {
    let words = words_of(rt.alloc(), case.command)?;
    let inner = folder_of(rt.alloc(), case)?;
    let mut folder = NotedFolder { inner, log };
    let mut out = NotedSink {
        log,
        fails,
        faults: 0,
    };
    Ok(run_words(rt, words.as_slice(), &mut folder, &mut out, &OpenGate))
}

// A flush comes before the read, not for each line, and before the report's end. The plan's file has two reads.
#[test]
fn lines_are_handed_on_before_a_read(rt: HostRuntime) {
    for (cut, flushes, reads) in [(4096, 3, 4), (12, 5, 6), (8, 6, 7), (1, 6, 35)] {
        let want = (Status::Done, flushes, reads, 0);
        let ended = noted(&rt, &over(PLAN, FILE, cut), 99);
        assert_eq!(rt; ended, Ok(want), "at {cut}");
    }
}

#[test]
fn each_flush_fails_in_turn(rt: HostRuntime) {
    for (nth, flushes, reads) in [(0, 1, 2), (1, 2, 3), (2, 3, 4), (3, 4, 5), (4, 5, 6)] {
        let want = (Status::WriteFault, flushes, reads, 0);
        let ended = noted(&rt, &over(PLAN, FILE, 12), nth);
        assert_eq!(rt; ended, Ok(want), "at {nth}");
    }
}

// A run hands on before it reads its file. The plan's file has two reads.
#[test]
fn a_status_line_is_handed_on_too(rt: HostRuntime) {
    for (command, status, reads) in [
        ("run --workers=0 plan a", Status::WriteFault, 2),
        ("run", Status::Usage, 0),
    ] {
        let case = Case {
            command,
            ..over(PLAN, ODD, 100)
        };
        assert_eq!(rt;
            noted(&rt, &case, 0),
            Ok((status, 1, reads, 0)),
            "at {command}"
        );
    }
}

// What one stream's element brought is handed on before the other stream's file is read.
#[test]
fn streams_wait_for_each_other_with_nothing_held_back(rt: HostRuntime) {
    let case = Case {
        cuts: [65_536, 65_536, 4, 6, 65_536],
        ..case_of(
            "run --workers=0 plan a b",
            [PAIR, b"", b"t 1\nt 2\nt 1\n", b"t 1\nx\nt 2\nt 1\n", b""],
        )
    };
    let ended = noted(&rt, &case, 99);
    assert!(rt; matches!(ended, Ok((Status::Done, _, _, 0))));
}
