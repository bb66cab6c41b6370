// A sink in memory, which fails at planned calls.
ghost use Rattle.std.specs.Prelude.{◌≡◌, ◌≤◌, ◌<◌, ◌+◌, ◌-◌, ◌||◌, nat_lt, [], true, length, min, is_err, IfOk, OnOk, OnErr, IsOk, IsTrue};
ghost use Rattle.pj_io.specs.Causes.{HasCause, CountsErrors};
ghost use Rattle.pj_io.specs.Pieces.{Appends};
ghost use Rattle.pj_io.specs.Memory.{holding_none};
ghost use Rattle.pj_io.specs.Plans.{fresh_plan, fails_next, after_call};

use crate::{Failed, Sink};
use pj_value::{List, NoMemory};
use std::alloc::Global;
use std::marker::Model;

/// Takes at most `cut` bytes at a time, where room was made; the calls whose numbers are in `fails` fail.
#[derive(Drop)]
pub struct MemSink {
    bytes: Vec<u8>,
    room: usize,
    cut: usize,
    fails: List<u64>,
    calls: u64,
    faults: u64,
}

impl Model for MemSink {
    ghost use Rattle.std.specs.Prelude.{◌≤◌, ◌<◌, ◌+◌, [], true, vec_len, vec_capacity};
    ghost use Rattle.pj_io.specs.Memory.{MemSinkState};

    ghost Value = { MemSinkState };

    ghost view = { λ s. record {
      sink = record { told = true; written = s.bytes.items; faults = s.faults; held = [] };
      plan = record { fails = s.fails; cut = s.cut; calls = s.calls };
      room = s.room;
    } };

    ghost invariant = { λ s. (0 < s.cut) × (vec_len s.bytes + s.room ≤ vec_capacity s.bytes) };
}

impl Sink for MemSink {
    ghost state = { λ s. holding_none s.sink };

    /// Takes as much of the piece as is within the cut. Fails exactly at the planned calls and where there is no room
    /// for that much.
    fn write(&mut self, piece: &[u8]) -> Result<usize, Failed>
        ensures bound { IfOk result (λ n. n ≤ length piece.now) }
        ensures progress { IfOk result (λ n. 0 < length piece.now → 0 < n) }
        ensures told { IsTrue self.new.sink.told → IsTrue self.old.sink.told }
        ensures bytes { Appends self.old.sink self.new.sink piece.now result }
        ensures cause { HasCause self.old.sink.faults self.new.sink.faults result }
        ensures counts { CountsErrors self.old.sink.faults self.new.sink.faults result }
        ensures failed { is_err result ≡ (fails_next self.old.plan || nat_lt self.old.room (min (length piece.now) self.old.plan.cut)) }
        ensures amount { IfOk result (λ n. n ≡ min (length piece.now) self.old.plan.cut) }
        ensures plan { self.new.plan ≡ after_call self.old.plan }
        ensures room { IfOk result (λ n. self.new.room ≡ self.old.room - n) }
        ensures room_stays { OnErr result (self.new.room ≡ self.old.room) }
    {
        let call = self.calls;
        self.calls = call.saturating_add(1);
        let count = piece.len().min(self.cut);
        if self.fails.as_slice().contains(&call) || self.room < count {
            self.faults = self.faults.saturating_add(1);
            return Err(Failed);
        }
        match self.bytes.extend_from_slice(&piece[..count]) {
            Ok(()) => {
                self.room -= count;
                Ok(count)
            }
            Err(_) => {
                self.faults = self.faults.saturating_add(1);
                Err(Failed)
            }
        }
    }

    /// Does nothing, since nothing is held back.
    fn flush(&mut self) -> Result<(), Failed>
        ensures told { IsTrue self.new.sink.told → IsTrue self.old.sink.told }
        ensures bytes { self.new.sink.written ≡ self.old.sink.written }
        ensures handed_on { OnOk result ((holding_none self.new.sink).held ≡ []) }
        ensures cause { HasCause self.old.sink.faults self.new.sink.faults result }
        ensures never { IsOk result }
        ensures same { self.new ≡ self.old }
    {
        Ok(())
    }
}

impl MemSink {
    /// An empty sink without room. `cut` is at least 1; calls are counted from 0.
    pub fn new(alloc: Global, cut: usize, fails: &[u64]) -> Result<MemSink, NoMemory>
        requires { 0 < cut }
        ensures sink { IfOk result (λ s. s.sink ≡ record { told = true; written = []; faults = 0; held = [] }) }
        ensures plan { IfOk result (λ s. s.plan ≡ fresh_plan fails.now cut) }
        ensures room { IfOk result (λ s. s.room ≡ 0) }
    {
        Ok(MemSink {
            bytes: Vec::new(alloc),
            room: 0,
            cut,
            fails: List::copy_of(alloc, fails)?,
            calls: 0,
            faults: 0,
        })
    }

    /// Makes room for so many more bytes. On a refusal there is as much room as before.
    pub fn room(&mut self, bytes: usize) -> Result<(), NoMemory>
        ensures sink { self.new.sink ≡ self.old.sink }
        ensures plan { self.new.plan ≡ self.old.plan }
        ensures ok { OnOk result (self.new.room ≡ self.old.room + bytes) }
        ensures err { OnErr result (self.new.room ≡ self.old.room) }
    {
        let all = self.room.checked_add(bytes).ok_or(NoMemory)?;
        self.bytes.try_reserve(all)?;
        self.room = all;
        Ok(())
    }

    /// What was written.
    pub fn bytes(&self) -> &[u8]
        ensures { result.now ≡ self.now.sink.written }
    {
        self.bytes.as_slice()
    }
}
