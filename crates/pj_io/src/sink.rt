// Where bytes go.
ghost use Rattle.std.specs.Prelude.{◌≡◌, ◌≤◌, ◌<◌, [], IsTrue, length, IfOk, OnOk};
ghost use Rattle.pj_io.specs.Causes.{HasCause};
ghost use Rattle.pj_io.specs.Pieces.{Appends, AppendsAll};
ghost use Rattle.pj_io.specs.States.{SinkState};

use crate::Failed;

/// Where bytes are written, with counted faults.
pub trait Sink {
    /// What it tells of itself. One that no longer tells its bytes never does again.
    ghost state: { Self → SinkState };

    /// Takes a front of the piece, and says how long it is: at least one byte of a piece that has any.
    fn write(&mut self, piece: &[u8]) -> Result<usize, Failed>
        ensures bound { IfOk result (λ n. n ≤ length piece.now) }
        ensures progress { IfOk result (λ n. 0 < length piece.now → 0 < n) }
        ensures told { IsTrue (state self.new).told → IsTrue (state self.old).told }
        ensures bytes { IsTrue (state self.new).told → Appends (state self.old) (state self.new) piece.now result }
        ensures cause { HasCause (state self.old).faults (state self.new).faults result };

    /// Hands on what the sink holds back, all of it unless it fails. What is written stays as it is.
    fn flush(&mut self) -> Result<(), Failed>
        ensures told { IsTrue (state self.new).told → IsTrue (state self.old).told }
        ensures bytes { IsTrue (state self.new).told → (state self.new).written ≡ (state self.old).written }
        ensures handed_on { OnOk result ((state self.new).held ≡ []) }
        ensures cause { HasCause (state self.old).faults (state self.new).faults result };
}

/// Writes the whole piece. On a fault a front of it that is not all of it was written.
pub fn write_all<K: Sink>(sink: &mut K, piece: &[u8]) -> Result<(), Failed>
    ensures told { IsTrue (K.state sink.new).told → IsTrue (K.state sink.old).told }
    ensures bytes { IsTrue (K.state sink.new).told → AppendsAll (K.state sink.old) (K.state sink.new) piece.now result }
    ensures cause { HasCause (K.state sink.old).faults (K.state sink.new).faults result }
{
    let mut done = 0;
    while done < piece.len() {
        done += sink.write(&piece[done..])?;
    }
    Ok(())
}
