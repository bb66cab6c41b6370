// The writer's drains, for which others may wait.
use std::sync::Wait;
use std::sync::atomic::{AtomicU64, Ordering};
use std::time::Duration;

/// How often the writer drained, and how many wait for its next drain.
#[derive(Drop)]
pub(crate) struct Drains {
    made: AtomicU64,
    waiting: AtomicU64,
}

impl Drains {
    /// None was made.
    pub(crate) fn new() -> Drains {
        Drains {
            made: AtomicU64::new(0),
            waiting: AtomicU64::new(0),
        }
    }

    /// How many were made so far.
    pub(crate) fn made(&self) -> u64 {
        self.made.load(Ordering::SeqCst)
    }

    /// One more was made.
    pub(crate) fn count(&self) {
        self.made.fetch_add(1, Ordering::SeqCst);
        if self.waiting.load(Ordering::SeqCst) != 0 {
            self.made.wake_all();
        }
    }

    /// Waits for one more than so many, or for so long.
    pub(crate) fn await_one<R: Wait>(&self, rt: &R, made: u64, most: Duration) {
        self.waiting.fetch_add(1, Ordering::SeqCst);
        if self.made() == made {
            self.made.park_timeout(rt, (made % (1 << 32)) as u32, most);
        }
        self.waiting.fetch_sub(1, Ordering::SeqCst);
    }
}
