// What the workers pass, where they rest, and what they leave behind.
use pj_events::Look;
use pj_io::MemSink;
use pj_report::{Form, ResultWriter};
use pj_value::{List, NoMemory, Row};
use pj_workers::{FeedEnd, Gate, Pause, Role, WorkEnd, WriteEnd};
use std::alloc::Global;
use std::sync::atomic::{AtomicU64, Ordering};
use std::sync::{Mutex, Wait};
use std::thread::yield_now;

/// A number for each worker.
#[derive(Drop)]
pub(crate) struct Numbers {
    items: AtomicU64,
    bids: AtomicU64,
    prober: AtomicU64,
    sweeper: AtomicU64,
    writer: AtomicU64,
}

impl Numbers {
    fn new() -> Numbers {
        Numbers {
            items: AtomicU64::new(0),
            bids: AtomicU64::new(0),
            prober: AtomicU64::new(0),
            sweeper: AtomicU64::new(0),
            writer: AtomicU64::new(0),
        }
    }

    fn at(&self, role: Role, index: u32) -> &AtomicU64 {
        match role {
            Role::Feeder => { if index == 0 { &self.items } else { &self.bids } }
            Role::Prober => &self.prober,
            Role::Sweeper => &self.sweeper,
            Role::Writer => &self.writer,
        }
    }

    // Those of the feeders, the prober, the sweeper and the writer.
    pub(crate) fn all(&self) -> [u64; 5] {
        [
            self.items.load(Ordering::SeqCst),
            self.bids.load(Ordering::SeqCst),
            self.prober.load(Ordering::SeqCst),
            self.sweeper.load(Ordering::SeqCst),
            self.writer.load(Ordering::SeqCst),
        ]
    }
}

/// How the workers ended.
#[derive(Clone, Copy, Debug, PartialEq, Eq)]
pub(crate) struct Ends {
    pub items: Option<FeedEnd>,
    pub bids: Option<FeedEnd>,
    pub prober: Option<WorkEnd>,
    pub sweeper: Option<WorkEnd>,
    pub writer: Option<WriteEnd>,
}

/// Counts the passes and the rounds of each worker, and has what they leave behind.
#[derive(Drop)]
pub(crate) struct Desk {
    pub passes: Numbers,
    // How many passes came under another number than that of those before.
    pub strays: AtomicU64,
    pub rounds: Numbers,
    // The workers run side by side, and the feeder of the bids waits for others.
    side_by_side: bool,
    pub ends: Mutex<Ends>,
    // The lines of the items' rows that were kept.
    pub kept: Mutex<List<u8>>,
    pub results: Mutex<ResultWriter>,
    pub out: Mutex<MemSink>,
}

impl Desk {
    pub(crate) fn new(alloc: Global, form: Form, side_by_side: bool) -> Result<Desk, NoMemory> {
        let mut out = MemSink::new(alloc, 1000, &[])?;
        out.room(1000)?;
        Ok(Desk {
            passes: Numbers::new(),
            strays: AtomicU64::new(0),
            rounds: Numbers::new(),
            side_by_side,
            ends: Mutex::new(Ends {
                items: None,
                bids: None,
                prober: None,
                sweeper: None,
                writer: None,
            }),
            kept: Mutex::new(List::new(alloc)),
            results: Mutex::new(ResultWriter::new(alloc, form)),
            out: Mutex::new(out),
        })
    }

    // Until a worker has gone so many more rounds, or one has ended that goes on as long as a stream does.
    fn await_rounds<R: Wait>(&self, rt: &R, role: Role, more: u64) {
        let rounds = self.rounds.at(role, 0);
        let least = rounds.load(Ordering::SeqCst).saturating_add(more);
        self.await_number(rt, rounds, least);
    }

    // Until the number is at least this, or such a worker has ended.
    fn await_number<R: Wait>(&self, rt: &R, number: &AtomicU64, least: u64) {
        for _ in rt.forever() {
            if number.load(Ordering::SeqCst) >= least || self.has_ended(rt) {
                return;
            }
            yield_now();
        }
        unreachable!()
    }

    fn has_ended<R: Wait>(&self, rt: &R) -> bool {
        let ends = *self.ends.lock(rt);
        ends.prober.is_some() || ends.sweeper.is_some() || ends.writer.is_some()
    }
}

impl Gate for Desk {
    fn pass(&self, role: Role, index: u32, nth: u64) {
        let before = self.passes.at(role, index).fetch_add(1, Ordering::SeqCst);
        if before != nth {
            self.strays.fetch_add(1, Ordering::SeqCst);
        }
    }
}

impl Pause for Desk {
    fn begin<R: Wait>(&self, _rt: &R, _role: Role, _index: u32) {}

    // Side by side the feeder of the bids rests until all items have come, each ticket is given, both inputs of the join were swept,
    // and what was handed out has come to the writer: of so many rounds of a worker, all but the first began after the rest.
    fn pause<R: Wait>(&self, rt: &R, role: Role, index: u32, _look: &Look) {
        self.rounds.at(role, index).fetch_add(1, Ordering::SeqCst);
        if self.side_by_side && role == Role::Feeder && index == 1 {
            self.await_number(rt, &self.passes.items, 4);
            self.await_rounds(rt, Role::Prober, 8);
            self.await_rounds(rt, Role::Sweeper, 2);
            self.await_rounds(rt, Role::Writer, 2);
        }
    }

    fn before_read<R: Wait>(&self, _rt: &R, _index: u32) {}

    fn after_read<R: Wait>(&self, _rt: &R, _index: u32) {}

    fn end<R: Wait>(&self, _rt: &R, _role: Role, _index: u32) {}
}
