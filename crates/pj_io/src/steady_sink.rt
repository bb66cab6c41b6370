// A sink in memory that never fails.
ghost use Rattle.std.specs.Prelude.{◌≡◌, ◌≤◌, ◌<◌, ◌-◌, ◌&&◌, [], true, false, length, min, nat_le, IfOk, IsOk, IsTrue, OnOk};
ghost use Rattle.pj_io.specs.Causes.{HasCause};
ghost use Rattle.pj_io.specs.Pieces.{Appends};
ghost use Rattle.pj_io.specs.Steady.{steady_sink};

use crate::{Failed, Sink};
use pj_value::NoMemory;
use std::alloc::Global;
use std::marker::Model;

/// Takes at most `cut` bytes at a time, and keeps them where there is room. No write fails, and the count of faults is 0. From
/// the first write on for which there is no room, nothing more is kept, and what was written is no longer told.
#[derive(Drop)]
pub struct SteadySink {
    bytes: Vec<u8>,
    room: usize,
    cut: usize,
    told: bool,
}

impl Model for SteadySink {
    ghost use Rattle.std.specs.Prelude.{◌≤◌, ◌<◌, ◌+◌, vec_len, vec_capacity};
    ghost use Rattle.pj_io.specs.Steady.{SteadySinkState};

    ghost Value = { SteadySinkState };

    ghost view = { λ s. record { told = s.told; kept = s.bytes.items; cut = s.cut; room = s.room } };

    ghost invariant = { λ s. (0 < s.cut) × (vec_len s.bytes + s.room ≤ vec_capacity s.bytes) };
}

impl Sink for SteadySink {
    ghost state = { steady_sink };

    /// Takes as much of the piece as is within the cut. Stops telling exactly where there is no room for that much.
    fn write(&mut self, piece: &[u8]) -> Result<usize, Failed>
        ensures bound { IfOk result (λ n. n ≤ length piece.now) }
        ensures progress { IfOk result (λ n. 0 < length piece.now → 0 < n) }
        ensures told { IsTrue self.new.told → IsTrue self.old.told }
        ensures bytes { IsTrue self.new.told → Appends (steady_sink self.old) (steady_sink self.new) piece.now result }
        ensures cause { HasCause 0 0 result }
        ensures never_fails { IsOk result }
        ensures amount { IfOk result (λ n. n ≡ min (length piece.now) self.old.cut) }
        ensures tells { self.new.told ≡ (self.old.told && nat_le (min (length piece.now) self.old.cut) self.old.room) }
        ensures dropped { self.new.told ≡ false → self.new.kept ≡ self.old.kept }
        ensures room { IfOk result (λ n. IsTrue self.new.told → self.new.room ≡ self.old.room - n) }
        ensures cut { self.new.cut ≡ self.old.cut }
    {
        let count = piece.len().min(self.cut);
        if self.told && count <= self.room {
            self.told = self.bytes.extend_from_slice(&piece[..count]).is_ok();
            self.room -= count;
        } else {
            self.told = false;
        }
        Ok(count)
    }

    /// Does nothing, since nothing is held back.
    fn flush(&mut self) -> Result<(), Failed>
        ensures told { IsTrue self.new.told → IsTrue self.old.told }
        ensures bytes { self.new.kept ≡ self.old.kept }
        ensures handed_on { OnOk result ((steady_sink self.new).held ≡ []) }
        ensures cause { HasCause 0 0 result }
        ensures never_fails { IsOk result }
        ensures same { self.new ≡ self.old }
    {
        Ok(())
    }
}

impl SteadySink {
    /// An empty sink with room for so many bytes. `cut` is at least 1.
    pub fn new(alloc: Global, cut: usize, room: usize) -> Result<SteadySink, NoMemory>
        requires { 0 < cut }
        ensures { IfOk result (λ s. s ≡ record { told = true; kept = []; cut = cut; room = room }) }
    {
        let mut bytes = Vec::new(alloc);
        bytes.try_reserve(room)?;
        Ok(SteadySink {
            bytes,
            room,
            cut,
            told: true,
        })
    }

    /// What was kept: all that was written, while that is told.
    pub fn bytes(&self) -> &[u8]
        ensures kept { result.now ≡ self.now.kept }
        ensures written { IsTrue self.now.told → result.now ≡ (steady_sink self.now).written }
    {
        self.bytes.as_slice()
    }
}
