// What workers do between their rounds.
use crate::floor::Floor;
use crate::guests::Guest;
use pj_events::Look;
use pj_workers::{Pause, Role};
use std::sync::Wait;
use std::sync::atomic::Ordering;
use std::time::Duration;

// So many outputs call the writer.
const SOME_OUTPUTS: u64 = 200;

// With so many outputs a feeder or a prober waits for a drain.
const MANY_OUTPUTS: u64 = 32_768;

// The longest rests, in microseconds: of the writer, and of who waits for a drain.
const REST: u64 = 50_000;

impl Pause for Floor {
    fn begin<R: Wait>(&self, rt: &R, role: Role, index: u32) {
        match role {
            Role::Writer => self.rest_writer(rt),
            Role::Feeder => {
                self.count_begun();
                self.await_all(rt);
                self.come(rt, role, index);
            }
            _ => self.come(rt, role, index),
        }
    }

    fn pause<R: Wait>(&self, rt: &R, role: Role, index: u32, look: &Look) {
        match role {
            Role::Feeder => {
                self.await_writer(rt, look);
                self.pause_feeder(rt, index, look);
            }
            Role::Prober => {
                self.await_writer(rt, look);
                self.pause_prober(rt, index, look);
            }
            Role::Sweeper => self.pause_sweeper(rt, index),
            Role::Writer => {
                self.drains.count();
                self.rest_writer(rt);
            }
        }
    }

    fn before_read<R: Wait>(&self, _rt: &R, index: u32) {
        self.go(Role::Feeder, index);
        self.writer.ring();
    }

    fn after_read<R: Wait>(&self, rt: &R, index: u32) {
        self.come(rt, Role::Feeder, index);
    }

    fn end<R: Wait>(&self, _rt: &R, role: Role, index: u32) {
        if role == Role::Feeder {
            self.count_fed();
        }
        self.go(role, index);
        if self.is_over() {
            self.ring_all();
        }
    }
}

impl Floor {
    // A worker comes, and waits for the floor.
    fn come<R: Wait>(&self, rt: &R, role: Role, index: u32) {
        if let Some(place) = self.place(role, index) {
            if let Some(guest) = self.guest(place) {
                self.come_to(rt, place, guest);
            }
        }
    }

    fn come_to<R: Wait>(&self, rt: &R, place: usize, guest: &Guest) {
        guest.come();
        self.await_floor(rt, place, guest, true);
        self.stay(guest);
    }

    // A worker goes, and hands the floor on if it has it.
    fn go(&self, role: Role, index: u32) {
        if let Some(place) = self.place(role, index) {
            if let Some(guest) = self.guest(place) {
                guest.leave();
                if self.has_floor(place) {
                    self.hand_on(place, self.may_pend());
                }
            }
        }
    }

    fn pause_feeder<R: Wait>(&self, rt: &R, index: u32, look: &Look) {
        let Some(place) = self.place(Role::Feeder, index) else {
            return;
        };
        let Some(guest) = self.guest(place) else {
            return;
        };
        if !self.has_floor(place) {
            return self.come_to(rt, place, guest);
        }
        guest.count();
        let rounds = self.count_round();
        if rounds >= guest.until() {
            if !self.hand_on(place, look.pending > 0) {
                self.await_floor(rt, place, guest, true);
            }
            self.stay(guest);
        }
    }

    fn pause_prober<R: Wait>(&self, rt: &R, index: u32, look: &Look) {
        let Some(place) = self.place(Role::Prober, index) else {
            return;
        };
        let Some(guest) = self.guest(place) else {
            return;
        };
        if !self.has_floor(place) {
            return self.come_to(rt, place, guest);
        }
        if look.pending > 0 {
            self.count_round();
            return;
        }
        self.note_probed();
        self.hand_on(place, false);
        if look.outputs > 0 && self.is_free() {
            self.writer.ring();
        }
        self.await_floor(rt, place, guest, false);
    }

    fn pause_sweeper<R: Wait>(&self, rt: &R, index: u32) {
        let Some(place) = self.place(Role::Sweeper, index) else {
            return;
        };
        let Some(guest) = self.guest(place) else {
            return;
        };
        if !self.has_floor(place) {
            return self.come_to(rt, place, guest);
        }
        guest.stay_until(self.rounds());
        self.hand_on(place, false);
        if self.is_free() {
            self.writer.ring();
        }
        self.await_floor(rt, place, guest, false);
    }

    // The writer rests until it is rung once more than it has heard.
    fn rest_writer<R: Wait>(&self, rt: &R) {
        let heard = self.heard.load(Ordering::SeqCst);
        if !self.is_over() {
            self.writer.rest(rt, heard, Duration::from_micros(REST));
        }
        self.heard.store(self.writer.rings(), Ordering::SeqCst);
    }

    // Calls the writer where there are some outputs, and where there are many waits for one drain, if any was made before.
    fn await_writer<R: Wait>(&self, rt: &R, look: &Look) {
        if look.outputs < SOME_OUTPUTS {
            return;
        }
        self.writer.nudge();
        if look.outputs >= MANY_OUTPUTS {
            let made = self.drains.made();
            if made != 0 {
                self.drains.await_one(rt, made, Duration::from_micros(REST));
            }
        }
    }
}
