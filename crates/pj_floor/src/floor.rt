// Who may make rounds, and who comes next.
use crate::bell::Bell;
use crate::drains::Drains;
use crate::guests::Guest;
use pj_workers::Role;
use std::array::from_fn;
use std::hint::spin_loop;
use std::sync::Wait;
use std::sync::atomic::{AtomicU64, Ordering};
use std::time::Duration;

// As many workers can have places.
const PLACES: usize = 64;

// Who has no floor.
const FREE: u64 = 0;

// A feeder hands the floor on after so many rounds.
const TURNS: u64 = 512;

// A sweeper comes after so many rounds since it came last; where no feeder is here, after any.
const SWEEPS: u64 = 512;

// A worker looks so often whether the floor is its own before it rests.
const LOOKS: u32 = 200;

// The longest rests, in microseconds: while somebody has the floor, while nobody has it, once no stream is fed any more, and
// until all feeders have begun.
const REST: u64 = 20_000;

const FREE_REST: u64 = 100_000;

const LAST_REST: u64 = 1_000;

const BEGIN_REST: u64 = 20_000;

/// A floor that feeders, probers and sweepers share: who has it makes rounds, and the others rest. The writer rests on a bell of
/// its own. No contract speaks of who comes when.
#[derive(Drop)]
pub struct Floor {
    // The place of who has the floor, counted from 1.
    holder: AtomicU64,
    // How many rounds were made in which something was fed or probed.
    rounds: AtomicU64,
    // How many had been made when a prober last found nothing to do.
    probed: AtomicU64,
    _apart: [u64; 13],
    pub(crate) writer: Bell,
    pub(crate) drains: Drains,
    // How often the writer's bell was rung when it rested last.
    pub(crate) heard: AtomicU64,
    // How many feeders have begun, and how many have ended.
    begun: AtomicU64,
    fed: AtomicU64,
    feeders: usize,
    probers: usize,
    sweepers: usize,
    guests: [Guest; PLACES],
}

impl Floor {
    /// A free floor for so many feeders, probers and sweepers, 64 in all. Those beyond have no place, and wait for nobody.
    pub fn new(feeders: u32, probers: u32, sweepers: u32) -> Floor {
        Floor {
            holder: AtomicU64::new(FREE),
            rounds: AtomicU64::new(0),
            probed: AtomicU64::new(0),
            _apart: [0; 13],
            writer: Bell::new(),
            drains: Drains::new(),
            heard: AtomicU64::new(0),
            begun: AtomicU64::new(0),
            fed: AtomicU64::new(0),
            feeders: feeders.min(64) as usize,
            probers: probers.min(64) as usize,
            sweepers: sweepers.min(64) as usize,
            guests: from_fn(|_| Guest::new()),
        }
    }

    // ---- places

    /// The place of the worker of this role and number, if it has one.
    pub(crate) fn place(&self, role: Role, index: u32) -> Option<usize> {
        let (first, count) = match role {
            Role::Feeder => (0, self.feeders),
            Role::Prober => (self.feeders, self.probers),
            Role::Sweeper => (self.feeders.saturating_add(self.probers), self.sweepers),
            Role::Writer => (0, 0),
        };
        let index = index as usize;
        if index < count {
            Some(first.saturating_add(index))
        } else {
            None
        }
    }

    pub(crate) fn guest(&self, place: usize) -> Option<&Guest> {
        self.guests.get(place)
    }

    // The first of these places whose worker is here.
    fn first_here(&self, from: usize, to: usize) -> Option<usize> {
        for place in from..to {
            if self.guests.get(place).is_some_and(|guest| guest.is_here()) {
                return Some(place);
            }
        }
        None
    }

    // Of the feeders that are here the one that made the fewest rounds, the first where several did.
    fn hindmost(&self) -> Option<usize> {
        let mut found = None;
        let mut fewest = u64::MAX;
        for place in 0..self.feeders {
            if let Some(guest) = self.guests.get(place) {
                let made = guest.made();
                if guest.is_here() && made < fewest {
                    fewest = made;
                    found = Some(place);
                }
            }
        }
        found
    }

    // The first sweeper from this place on that is here and came last so many rounds ago.
    fn first_due(&self, from: usize, after: u64) -> Option<usize> {
        let rounds = self.rounds();
        let last = self
            .feeders
            .saturating_add(self.probers)
            .saturating_add(self.sweepers);
        for place in from..last {
            if self.guests.get(place).is_some_and(|guest| guest.is_here()
                && guest.until().saturating_add(after) <= rounds)
            {
                return Some(place);
            }
        }
        None
    }

    // ---- who comes next

    // Who comes behind the worker at this place: behind a feeder a prober, where something is pending; then the sweepers that
    // have not come for long; and then the feeder that is hindmost.
    fn next(&self, place: usize, pending: bool) -> Option<usize> {
        let first_sweeper = self.feeders.saturating_add(self.probers);
        if place < first_sweeper {
            self.after_feeder(pending)
        } else {
            self.after_sweeper(place)
        }
    }

    fn after_feeder(&self, pending: bool) -> Option<usize> {
        let first_sweeper = self.feeders.saturating_add(self.probers);
        if pending {
            let prober = self.first_here(self.feeders, first_sweeper);
            if prober.is_some() {
                return prober;
            }
        }
        self.sweeper_or_feeder(first_sweeper)
    }

    // Where no feeder is here a prober comes behind a sweeper, since what a sweep hands on may be probed.
    fn after_sweeper(&self, place: usize) -> Option<usize> {
        let next = self.sweeper_or_feeder(place.saturating_add(1));
        if next.is_some() {
            return next;
        }
        self.first_here(self.feeders, self.feeders.saturating_add(self.probers))
    }

    // A sweeper from this place on that has not come for long; the hindmost feeder; where none is here, a sweeper that has not
    // come since something was fed or probed.
    fn sweeper_or_feeder(&self, from: usize) -> Option<usize> {
        let sweeper = self.first_due(from, SWEEPS);
        if sweeper.is_some() {
            return sweeper;
        }
        let feeder = self.hindmost();
        if feeder.is_some() {
            return feeder;
        }
        self.first_due(from, 1)
    }

    // ---- rounds

    pub(crate) fn rounds(&self) -> u64 {
        self.rounds.load(Ordering::SeqCst)
    }

    /// Counts a round in which something was fed or probed.
    pub(crate) fn count_round(&self) -> u64 {
        self.rounds.fetch_add(1, Ordering::SeqCst).saturating_add(1)
    }

    /// A prober has found nothing to do.
    pub(crate) fn note_probed(&self) {
        self.probed.store(self.rounds(), Ordering::SeqCst);
    }

    /// Whether something was fed since a prober last found nothing to do.
    pub(crate) fn may_pend(&self) -> bool {
        self.probed.load(Ordering::SeqCst) != self.rounds()
    }

    // ---- the begin and the end

    /// One feeder more has begun.
    pub(crate) fn count_begun(&self) {
        self.begun.fetch_add(1, Ordering::SeqCst);
        if self.have_begun() {
            self.begun.wake_all();
        }
    }

    // Whether all feeders have.
    fn have_begun(&self) -> bool {
        self.begun.load(Ordering::SeqCst) >= self.feeders as u64
    }

    /// Waits until all feeders have begun, so that none is ahead of one whose thread comes late; where no more come, so long.
    pub(crate) fn await_all<R: Wait>(&self, rt: &R) {
        for _ in 0..self.feeders {
            let begun = self.begun.load(Ordering::SeqCst);
            if begun >= self.feeders as u64 {
                return;
            }
            let most = Duration::from_micros(BEGIN_REST);
            self.begun
                .park_timeout(rt, (begun % (1 << 32)) as u32, most);
            if self.begun.load(Ordering::SeqCst) == begun {
                return;
            }
        }
    }

    /// One feeder more has ended.
    pub(crate) fn count_fed(&self) {
        self.fed.fetch_add(1, Ordering::SeqCst);
    }

    /// Whether no stream is fed any more.
    pub(crate) fn is_over(&self) -> bool {
        self.fed.load(Ordering::SeqCst) >= self.feeders as u64
    }

    /// Rings for all that rest.
    pub(crate) fn ring_all(&self) {
        for guest in &self.guests {
            guest.bell.ring();
        }
        self.writer.ring();
    }

    // ---- the floor

    pub(crate) fn has_floor(&self, place: usize) -> bool {
        self.holder.load(Ordering::SeqCst) == number(place)
    }

    /// Whether nobody has it.
    pub(crate) fn is_free(&self) -> bool {
        self.holder.load(Ordering::SeqCst) == FREE
    }

    fn change_holder(&self, from: u64, to: u64) -> bool {
        self.holder
            .compare_exchange(from, to, Ordering::SeqCst, Ordering::SeqCst)
            .is_ok()
    }

    fn ring_at(&self, place: usize) {
        if let Some(guest) = self.guests.get(place) {
            guest.bell.ring();
        }
    }

    /// Hands the floor on. Whether the worker at this place keeps it, since nobody else comes.
    pub(crate) fn hand_on(&self, place: usize, pending: bool) -> bool {
        match self.next(place, pending) {
            Some(next) => {
                if next == place {
                    return true;
                }
                if self.change_holder(number(place), number(next)) {
                    self.ring_at(next);
                }
            }
            None => {
                if self.change_holder(number(place), FREE) {
                    self.call_feeder();
                }
            }
        }
        false
    }

    // A feeder that came while the floor was handed to nobody.
    fn call_feeder(&self) {
        if let Some(feeder) = self.first_here(0, self.feeders) {
            self.ring_at(feeder);
        }
    }

    /// Waits until the worker at this place has the floor. A worker may take a floor that is free if it is eager, and a feeder
    /// always; and each takes it where nothing moved while it rested as long as it may. Who is no feeder also goes on without it
    /// once no stream is fed any more.
    pub(crate) fn await_floor<R: Wait>(&self, rt: &R, place: usize, guest: &Guest, eager: bool) {
        let eager = eager || place < self.feeders;
        for _ in rt.forever() {
            let heard = guest.bell.rings();
            if self.comes_to(place, eager) {
                return;
            }
            if self.rests_in_vain(rt, place, guest, heard) {
                return;
            }
        }
    }

    // Looks a while whether the floor comes to this place.
    fn comes_to(&self, place: usize, eager: bool) -> bool {
        for _ in 0..LOOKS {
            let holder = self.holder.load(Ordering::SeqCst);
            if holder == number(place) {
                return true;
            }
            if holder == FREE && eager && self.change_holder(FREE, number(place)) {
                return true;
            }
            spin_loop();
        }
        false
    }

    // Rests; whether to go on then though the floor was not handed on.
    fn rests_in_vain<R: Wait>(&self, rt: &R, place: usize, guest: &Guest, heard: u64) -> bool {
        let is_last = place >= self.feeders && self.is_over();
        let holder = self.holder.load(Ordering::SeqCst);
        let rounds = self.rounds();
        let most = if is_last {
            LAST_REST
        } else if holder == FREE {
            FREE_REST
        } else {
            REST
        };
        guest.bell.rest(rt, heard, Duration::from_micros(most));
        if is_last {
            return true;
        }
        guest.bell.rings() == heard && self.rounds() == rounds && self.takes_from(holder, place)
    }

    // Takes the floor from its holder, to whom nobody hands it on until it comes again.
    fn takes_from(&self, holder: u64, place: usize) -> bool {
        if holder == number(place) || !self.change_holder(holder, number(place)) {
            return false;
        }
        if holder != FREE {
            if let Some(guest) = self.guests.get(holder.saturating_sub(1) as usize) {
                guest.leave();
            }
        }
        true
    }

    /// The number of all rounds at which a feeder that has the floor now hands it on.
    pub(crate) fn stay(&self, guest: &Guest) {
        guest.stay_until(self.rounds().saturating_add(TURNS));
    }
}

// What stands in the holder's word for a place.
fn number(place: usize) -> u64 {
    (place as u64).saturating_add(1)
}
