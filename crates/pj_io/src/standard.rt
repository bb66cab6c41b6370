// The standard output: the edge of what is proved. It tells no contents.
ghost use Rattle.std.specs.Prelude.{◌≡◌, ◌≤◌, ◌<◌, [], IsTrue, length, IfOk, OnOk, OnErr};
ghost use Rattle.pj_io.specs.Causes.{HasCause, CountsErrors};
ghost use Rattle.pj_io.specs.Held.{HandsOn, HoldsBack};
ghost use Rattle.pj_io.specs.Pieces.{Appends};

use crate::held::Held;
use crate::{Failed, Sink};
use pj_value::NoMemory;
use std::alloc::Global;
use std::marker::Model;

/// The standard output, with its faults counted. Bytes are held back until there are 65,536 of them or `flush` is
/// called, and go on in order, each once; dropping it hands on nothing.
pub struct StdSink<'a, P> {
    rt: &'a P,
    held: Held,
    faults: u64,
}

impl<'a, P> Drop for StdSink<'a, P> {
    fn drop(self) {
        let StdSink {
            rt: _,
            held: _,
            faults: _,
        } = self;
    }
}

impl<'a, P> Model for StdSink<'a, P> {
    ghost use Rattle.std.specs.Prelude.{false, [], drop};
    ghost use Rattle.pj_io.specs.States.{SinkState};

    ghost Value = { SinkState };

    ghost view = { λ s. record { told = false; written = []; faults = s.faults; held = drop s.held.sent s.held.bytes.items } };
}

impl<'a, P: Print> StdSink<'a, P> {
    /// A sink over the standard output, with its memory had at once.
    pub fn new(alloc: Global, rt: &'a P) -> Result<StdSink<'a, P>, NoMemory>
        ensures faults { IfOk result (λ s. s.faults ≡ 0) }
        ensures held { IfOk result (λ s. s.held ≡ []) }
    {
        Ok(StdSink {
            rt,
            held: Held::new(alloc)?,
            faults: 0,
        })
    }
}

impl<'a, P: Print> Sink for StdSink<'a, P> {
    ghost state = { λ s. s };

    /// Holds back a front of the piece, and first hands on what is held where there is no room.
    fn write(&mut self, piece: &[u8]) -> Result<usize, Failed>
        ensures bound { IfOk result (λ n. n ≤ length piece.now) }
        ensures progress { IfOk result (λ n. 0 < length piece.now → 0 < n) }
        ensures told { IsTrue self.new.told → IsTrue self.old.told }
        ensures bytes { IsTrue self.new.told → Appends self.old self.new piece.now result }
        ensures cause { HasCause self.old.faults self.new.faults result }
        ensures counts { CountsErrors self.old.faults self.new.faults result }
        ensures held { HoldsBack self.old.held self.new.held piece.now result }
    {
        match self.held.hold(self.rt, piece) {
            Ok(count) => Ok(count),
            Err(failed) => {
                self.faults = self.faults.saturating_add(1);
                Err(failed)
            }
        }
    }

    /// Hands on all that is held. On a fault the bytes that were not handed on are still held.
    fn flush(&mut self) -> Result<(), Failed>
        ensures told { IsTrue self.new.told → IsTrue self.old.told }
        ensures bytes { IsTrue self.new.told → self.new.written ≡ self.old.written }
        ensures cause { HasCause self.old.faults self.new.faults result }
        ensures counts { CountsErrors self.old.faults self.new.faults result }
        ensures handed_on { OnOk result (self.new.held ≡ []) }
        ensures held { OnErr result (HandsOn self.old.held self.new.held []) }
    {
        match self.held.hand_on(self.rt) {
            Ok(()) => Ok(()),
            Err(failed) => {
                self.faults = self.faults.saturating_add(1);
                Err(failed)
            }
        }
    }
}
