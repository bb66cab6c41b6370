// Writes a piece of a text.
ghost use Rattle.std.specs.Prelude.{◌≡◌, ◌≤◌, ℕ, List, IsTrue, IfErr};
ghost use Rattle.pj_io.specs.Causes.{Rose};
ghost use Rattle.pj_report.specs.Written.{flat, WritesBy, write_cut};

use crate::stops::WriteStop;
use pj_io::{Sink, write_all};

/// Writes one piece, by a `write_all` of its own. It takes no memory, so that it stops where the output fails alone; then a front of the
/// piece was written.
#[tactic(auto, using(crate::proofs::LinesWritten::piece_written, crate::proofs::LinesWritten::piece_cut))]
pub fn write_piece<K: Sink>(out: &mut K, piece: &[u8]) -> Result<(), WriteStop>
    ensures told { IsTrue (K.state out.new).told → IsTrue (K.state out.old).told }
    ensures lines { (lines : List (List ℕ)) → flat lines ≡ piece.now → IsTrue (K.state out.new).told → WritesBy write_cut lines (K.state out.old) (K.state out.new) result }
    ensures later { (K.state out.old).faults ≤ (K.state out.new).faults }
    ensures fault { IfErr result (λ stop. (stop ≡ WriteStop.Failed) × Rose (K.state out.old).faults (K.state out.new).faults) }
{
    write_all(out, piece)?;
    Ok(())
}
