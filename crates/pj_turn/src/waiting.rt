// How a seat waits: it looks a while, and then rests. No contract speaks of it.
use std::hint::spin_loop;
use std::sync::atomic::{AtomicU32, Ordering};
use std::time::Duration;

// After so many looks a waiter rests before each further one.
const LOOKS: u32 = 200;

// A rest before a ticket is drawn ends after so many microseconds, if nobody ends it.
const REST: u64 = 2000;

/// How many rest: with a ticket, and before they draw one. Where nobody does, nobody is woken, which is a call of the system.
#[derive(Drop)]
pub struct Waiting {
    tickets: AtomicU32,
    seats: AtomicU32,
}

impl Waiting {
    /// Nobody rests.
    pub fn new() -> Waiting {
        Waiting {
            tickets: AtomicU32::new(0),
            seats: AtomicU32::new(0),
        }
    }

    /// One more rests that has a ticket.
    pub fn ticket_parks(&self) {
        self.tickets.fetch_add(1, Ordering::SeqCst);
    }

    /// One fewer does.
    pub fn ticket_wakes(&self) {
        self.tickets.fetch_sub(1, Ordering::SeqCst);
    }

    /// One more rests that has no ticket yet.
    pub fn seat_rests(&self) {
        self.seats.fetch_add(1, Ordering::SeqCst);
    }

    /// One fewer does.
    pub fn seat_rises(&self) {
        self.seats.fetch_sub(1, Ordering::SeqCst);
    }

    /// Whether somebody with a ticket rests, or is about to.
    pub fn has_tickets(&self) -> bool {
        self.tickets.load(Ordering::SeqCst) != 0
    }

    /// Whether somebody without a ticket rests, or is about to.
    pub fn has_seats(&self) -> bool {
        self.seats.load(Ordering::SeqCst) != 0
    }

    /// How long one rests at most before a ticket is drawn.
    pub fn rest(&self) -> Duration {
        Duration::from_micros(REST)
    }
}

/// How often a waiter has looked.
#[derive(Drop)]
pub struct Patience {
    looks: u32,
}

impl Patience {
    /// It has not looked yet.
    pub fn new() -> Patience {
        Patience { looks: 0 }
    }

    /// Whether to look again at once; and then a moment has passed.
    pub fn looks_on(&mut self) -> bool {
        if self.looks >= LOOKS {
            return false;
        }
        self.looks += 1;
        spin_loop();
        true
    }
}
