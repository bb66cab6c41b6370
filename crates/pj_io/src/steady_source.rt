// A source in memory that never fails.
ghost use Rattle.std.specs.Prelude.{◌≡◌, ◌≤◌, ◌<◌, [], length, min, IsOk, IfOk};
ghost use Rattle.pj_io.specs.Causes.{HasCause};
ghost use Rattle.pj_io.specs.Folders.{IsFresh, IsNew};
ghost use Rattle.pj_io.specs.Pieces.{Reads};
ghost use Rattle.pj_io.specs.Steady.{steady};

use crate::memory_source::MemSource;
use crate::{Failed, Source};
use pj_value::{Bytes, NoMemory};
use std::alloc::Global;
use std::marker::Model;

/// Bytes that are given in pieces of at most `cut`, under a name or none. No read fails, and the count of faults is 0.
#[derive(Drop)]
pub struct SteadySource {
    source: MemSource,
}

impl Model for SteadySource {
    ghost use Rattle.std.specs.Prelude.{◌≡◌, []};
    ghost use Rattle.pj_io.specs.Steady.{SteadySourceState, steady};

    ghost Value = { SteadySourceState };

    ghost view = { λ s. record { source = steady s.source.source; cut = s.source.plan.cut } };

    ghost invariant = { λ s. s.source.plan.fails ≡ [] };
}

impl Source for SteadySource {
    ghost state = { λ s. steady s.source };

    /// Gives as many bytes as are left, fit the buffer and are within the cut.
    fn read(&mut self, buf: &mut [u8]) -> Result<usize, Failed>
        ensures bound { IfOk result (λ n. n ≤ length buf.new) }
        ensures bytes { Reads self.old.source self.new.source buf.new result }
        ensures told { self.new.source.told ≡ self.old.source.told }
        ensures name { self.new.source.name ≡ self.old.source.name }
        ensures cause { HasCause 0 0 result }
        ensures never_fails { IsOk result }
        ensures amount { IfOk result (λ n. n ≡ min (length self.old.source.left) (min (length buf.old) self.old.cut)) }
        ensures cut { self.new.cut ≡ self.old.cut }
    {
        self.source.read(buf)
    }
}

impl SteadySource {
    /// A source of these bytes. `cut` is at least 1.
    pub fn new(alloc: Global, bytes: &[u8], cut: usize) -> Result<SteadySource, NoMemory>
        requires { 0 < cut }
        ensures new { IfOk result (λ s. IsNew [] (steady s.source)) }
        ensures fresh { IfOk result (λ s. IsFresh bytes.now (steady s.source)) }
        ensures cut { IfOk result (λ s. s.cut ≡ cut) }
    {
        SteadySource::opened(alloc, &[], bytes, cut)
    }

    // The same, opened under a name.
    pub(crate) fn opened(
        alloc: Global,
        name: &[u8],
        bytes: &[u8],
        cut: usize,
    ) -> Result<SteadySource, NoMemory>
        requires { 0 < cut }
        ensures new { IfOk result (λ s. IsNew name.now (steady s.source)) }
        ensures fresh { IfOk result (λ s. IsFresh bytes.now (steady s.source)) }
        ensures cut { IfOk result (λ s. s.cut ≡ cut) }
    {
        Ok(SteadySource {
            source: MemSource::opened(alloc, name, bytes, cut, &[])?,
        })
    }

    // Its name, and how much was taken.
    pub(crate) fn closed(self) -> (Bytes, u64)
        ensures name { result.0 ≡ (steady self.source).name }
        ensures taken { result.1 ≡ length (steady self.source).taken }
    {
        let SteadySource { source } = self;
        let (name, _, taken) = source.closed();
        (name, taken)
    }
}
