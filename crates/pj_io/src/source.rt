// Where bytes come from.
ghost use Rattle.std.specs.Prelude.{◌≡◌, ◌≤◌, IsTrue, length, IfOk};
ghost use Rattle.pj_io.specs.Causes.{HasCause};
ghost use Rattle.pj_io.specs.Pieces.{Reads};
ghost use Rattle.pj_io.specs.States.{SourceState};

/// A read, a write or an opening failed, and the fault was counted.
#[derive(Clone, Copy, Debug, PartialEq, Eq)]
pub struct Failed;

/// Where bytes are read, with counted faults.
pub trait Source {
    /// What it tells of itself.
    ghost state: { Self → SourceState };

    /// Puts the next bytes at the front of the buffer, and says how many. With room in the buffer, none means the end.
    fn read(&mut self, buf: &mut [u8]) -> Result<usize, Failed>
        ensures bound { IfOk result (λ n. n ≤ length buf.new) }
        ensures bytes { IsTrue (state self.old).told → Reads (state self.old) (state self.new) buf.new result }
        ensures told { (state self.new).told ≡ (state self.old).told }
        ensures name { (state self.new).name ≡ (state self.old).name }
        ensures cause { HasCause (state self.old).faults (state self.new).faults result };
}
