// A gate that holds workers at their passes, and counts them.
use pj_engine::{Gate, Role};
use std::sync::atomic::{AtomicU64, Ordering};
use std::thread::yield_now;

/// A feeder, by its stream, or the workers of another role.
#[derive(Clone, Copy, PartialEq, Eq)]
pub(crate) enum Worker {
    Items,
    Bids,
    Prober,
    Sweeper,
    Writer,
}

/// A worker is held at this pass of its own, counted from 0, until another has passed so often.
pub(crate) type Hold = (Worker, u64, Worker, u64);

// A worker that is held for so many turns goes on.
const MOST_TURNS: u64 = 20_000_000;

/// Holds workers at their passes.
#[derive(Drop)]
pub(crate) struct Holding {
    holds: &'static [Hold],
    items: AtomicU64,
    bids: AtomicU64,
    prober: AtomicU64,
    sweeper: AtomicU64,
    writer: AtomicU64,
    given_up: AtomicU64,
}

fn worker_of(role: Role, index: u32) -> Worker {
    match role {
        Role::Feeder => {
            if index == 0 {
                Worker::Items
            } else {
                Worker::Bids
            }
        }
        Role::Prober => Worker::Prober,
        Role::Sweeper => Worker::Sweeper,
        Role::Writer => Worker::Writer,
    }
}

impl Holding {
    pub(crate) fn new(holds: &'static [Hold]) -> Holding {
        Holding {
            holds,
            items: AtomicU64::new(0),
            bids: AtomicU64::new(0),
            prober: AtomicU64::new(0),
            sweeper: AtomicU64::new(0),
            writer: AtomicU64::new(0),
            given_up: AtomicU64::new(0),
        }
    }

    fn of(&self, worker: Worker) -> &AtomicU64 {
        match worker {
            Worker::Items => &self.items,
            Worker::Bids => &self.bids,
            Worker::Prober => &self.prober,
            Worker::Sweeper => &self.sweeper,
            Worker::Writer => &self.writer,
        }
    }

    /// How often a worker has passed, or the workers of a role have together.
    pub(crate) fn passed(&self, worker: Worker) -> u64 {
        self.of(worker).load(Ordering::SeqCst)
    }

    /// How often a worker went on though the other had not come.
    pub(crate) fn given_up(&self) -> u64 {
        self.given_up.load(Ordering::SeqCst)
    }

    fn await_passes(&self, other: Worker, least: u64) {
        for _ in 0..MOST_TURNS {
            if self.passed(other) >= least {
                return;
            }
            yield_now();
        }
        self.given_up.fetch_add(1, Ordering::SeqCst);
    }
}

impl Gate for Holding {
    fn pass(&self, role: Role, index: u32, nth: u64) {
        let worker = worker_of(role, index);
        for &(held, at, other, least) in self.holds {
            if held == worker && at == nth {
                self.await_passes(other, least);
            }
        }
        self.of(worker).fetch_add(1, Ordering::SeqCst);
    }
}
