// Those who may have the floor.
use crate::bell::Bell;
use std::sync::atomic::{AtomicBool, AtomicU64, Ordering};

/// A worker's place at the floor.
#[derive(Drop)]
pub(crate) struct Guest {
    /// Where it rests.
    pub(crate) bell: Bell,
    here: AtomicBool,
    until: AtomicU64,
    // How many rounds it made.
    made: AtomicU64,
    // So that no two places share a line of the cache.
    _apart: [u64; 10],
}

impl Guest {
    /// A worker who has not come yet.
    pub(crate) fn new() -> Guest {
        Guest {
            bell: Bell::new(),
            here: AtomicBool::new(false),
            until: AtomicU64::new(0),
            made: AtomicU64::new(0),
            _apart: [0; 10],
        }
    }

    /// Whether it can take the floor when it is handed on.
    pub(crate) fn is_here(&self) -> bool {
        self.here.load(Ordering::SeqCst)
    }

    pub(crate) fn come(&self) {
        self.here.store(true, Ordering::SeqCst);
    }

    pub(crate) fn leave(&self) {
        self.here.store(false, Ordering::SeqCst);
    }

    /// How many rounds it made.
    pub(crate) fn made(&self) -> u64 {
        self.made.load(Ordering::SeqCst)
    }

    /// It made one more.
    pub(crate) fn count(&self) {
        self.made.fetch_add(1, Ordering::SeqCst);
    }

    /// The number of rounds of all at which it hands the floor on; of a sweeper, at which it had it last.
    pub(crate) fn until(&self) -> u64 {
        self.until.load(Ordering::SeqCst)
    }

    pub(crate) fn stay_until(&self, rounds: u64) {
        self.until.store(rounds, Ordering::SeqCst);
    }
}
