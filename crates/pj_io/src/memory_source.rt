// A source in memory, which fails at planned calls.
ghost use Rattle.std.specs.Prelude.{◌≡◌, ◌≤◌, ◌<◌, [], length, min, is_err, IfOk};
ghost use Rattle.pj_io.specs.Causes.{HasCause, CountsErrors};
ghost use Rattle.pj_io.specs.Folders.{IsFresh, IsNew};
ghost use Rattle.pj_io.specs.Pieces.{Reads};
ghost use Rattle.pj_io.specs.Plans.{fresh_plan, fails_next, after_call};

use crate::{Failed, Source};
use pj_value::{Bytes, List, NoMemory};
use std::alloc::Global;
use std::marker::Model;

/// Bytes that are given in pieces of at most `cut`; the calls whose numbers are in `fails` fail.
#[derive(Drop)]
pub struct MemSource {
    name: Bytes,
    bytes: Bytes,
    at: usize,
    cut: usize,
    fails: List<u64>,
    calls: u64,
    faults: u64,
}

impl Model for MemSource {
    ghost use Rattle.std.specs.Prelude.{◌≤◌, ◌<◌, length};
    ghost use Rattle.pj_io.specs.Memory.{MemSourceState, source_at};

    ghost Value = { MemSourceState };

    ghost view = { λ s. record {
      source = source_at s.bytes s.at s.faults s.name;
      plan = record { fails = s.fails; cut = s.cut; calls = s.calls };
    } };

    ghost invariant = { λ s. (s.at ≤ length s.bytes) × (0 < s.cut) };
}

impl Source for MemSource {
    ghost state = { λ s. s.source };

    /// Fails exactly at the planned calls, and gives as many bytes as are left, fit the buffer and are within the cut.
    fn read(&mut self, buf: &mut [u8]) -> Result<usize, Failed>
        ensures bound { IfOk result (λ n. n ≤ length buf.new) }
        ensures bytes { Reads self.old.source self.new.source buf.new result }
        ensures told { self.new.source.told ≡ self.old.source.told }
        ensures name { self.new.source.name ≡ self.old.source.name }
        ensures cause { HasCause self.old.source.faults self.new.source.faults result }
        ensures counts { CountsErrors self.old.source.faults self.new.source.faults result }
        ensures failed { is_err result ≡ fails_next self.old.plan }
        ensures amount { IfOk result (λ n. n ≡ min (length self.old.source.left) (min (length buf.old) self.old.plan.cut)) }
        ensures plan { self.new.plan ≡ after_call self.old.plan }
    {
        let call = self.calls;
        self.calls = call.saturating_add(1);
        if self.fails.as_slice().contains(&call) {
            self.faults = self.faults.saturating_add(1);
            return Err(Failed);
        }
        let rest = &self.bytes.as_slice()[self.at..];
        let count = rest.len().min(buf.len().min(self.cut));
        buf[..count].copy_from_slice(&rest[..count]);
        self.at += count;
        Ok(count)
    }
}

impl MemSource {
    /// A source of these bytes under no name. `cut` is at least 1; calls are counted from 0.
    pub fn new(
        alloc: Global,
        bytes: &[u8],
        cut: usize,
        fails: &[u64],
    ) -> Result<MemSource, NoMemory>
        requires { 0 < cut }
        ensures new { IfOk result (λ s. IsNew [] s.source) }
        ensures fresh { IfOk result (λ s. IsFresh bytes.now s.source) }
        ensures plan { IfOk result (λ s. s.plan ≡ fresh_plan fails.now cut) }
    {
        MemSource::opened(alloc, &[], bytes, cut, fails)
    }

    // The same, opened under a name.
    pub(crate) fn opened(
        alloc: Global,
        name: &[u8],
        bytes: &[u8],
        cut: usize,
        fails: &[u64],
    ) -> Result<MemSource, NoMemory>
        requires { 0 < cut }
        ensures new { IfOk result (λ s. IsNew name.now s.source) }
        ensures fresh { IfOk result (λ s. IsFresh bytes.now s.source) }
        ensures plan { IfOk result (λ s. s.plan ≡ fresh_plan fails.now cut) }
    {
        Ok(MemSource {
            name: List::copy_of(alloc, name)?,
            bytes: List::copy_of(alloc, bytes)?,
            at: 0,
            cut,
            fails: List::copy_of(alloc, fails)?,
            calls: 0,
            faults: 0,
        })
    }

    // Its name, its faults and how much was taken.
    pub(crate) fn closed(self) -> (Bytes, u64, u64)
        ensures name { result.0 ≡ self.source.name }
        ensures faults { result.1 ≡ self.source.faults }
        ensures taken { result.2 ≡ length self.source.taken }
    {
        let MemSource {
            name,
            at,
            faults,
            ..
        } = self;
        (name, faults, at as u64)
    }
}
