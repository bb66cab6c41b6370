// A word to park on.
use std::sync::Wait;
use std::sync::atomic::{AtomicU64, Ordering};
use std::time::Duration;

// The states of who rests at a bell: awake, resting, and resting but rung.
const AWAKE: u64 = 0;

const RESTS: u64 = 1;

const RUNG: u64 = 2;

/// A place where one worker rests until another rings. It makes a call of the system only where somebody rests.
#[derive(Drop)]
pub(crate) struct Bell {
    rings: AtomicU64,
    state: AtomicU64,
}

impl Bell {
    /// Nobody rests, and nobody has rung.
    pub(crate) fn new() -> Bell {
        Bell {
            rings: AtomicU64::new(0),
            state: AtomicU64::new(AWAKE),
        }
    }

    /// How often it was rung so far.
    pub(crate) fn rings(&self) -> u64 {
        self.rings.load(Ordering::SeqCst)
    }

    /// Rests, unless it was rung since it was heard so often; until it is rung, or for so long. It may end early.
    pub(crate) fn rest<R: Wait>(&self, rt: &R, heard: u64, most: Duration) {
        self.state.store(RESTS, Ordering::SeqCst);
        if self.rings() == heard {
            self.rings
                .park_timeout(rt, (heard % (1 << 32)) as u32, most);
        }
        self.state.store(AWAKE, Ordering::SeqCst);
    }

    /// Rings, also for who is only about to rest.
    pub(crate) fn ring(&self) {
        self.rings.fetch_add(1, Ordering::SeqCst);
        if self.finds_resting() {
            self.rings.wake_one();
        }
    }

    /// Rings where somebody rests who was not rung yet.
    pub(crate) fn nudge(&self) {
        if self.finds_resting() {
            self.rings.fetch_add(1, Ordering::SeqCst);
            self.rings.wake_one();
        }
    }

    // Whether somebody rests who was not rung yet; from now on he was.
    fn finds_resting(&self) -> bool {
        self.state.load(Ordering::SeqCst) == RESTS
            && self
                .state
                .compare_exchange(RESTS, RUNG, Ordering::SeqCst, Ordering::SeqCst)
                .is_ok()
    }
}
