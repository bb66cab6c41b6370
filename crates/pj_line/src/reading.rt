// Reading into a part of a buffer.
ghost use Rattle.std.specs.Prelude.{◌≡◌, ◌+◌, ◌<◌, ◌≤◌, [], IsTrue, IfOk, OnErr, length, take, drop};
ghost use Rattle.pj_io.specs.Causes.{HasCause};
ghost use Rattle.pj_io.specs.Pieces.{Consumes, Reads};
ghost use Rattle.pj_line.specs.Filled.{IsNextPiece};

use pj_io::{Failed, Source};

// Reads once into the buffer from this place on, at most so many bytes, and says how many. What stands in front stays.
pub(crate) fn read_behind<S: Source>(
    source: &mut S,
    bytes: &mut [u8],
    end: usize,
    most: u64,
) -> Result<usize, Failed>
    requires most { 0 < most }
    requires room { end < length bytes.old }
    ensures len { length bytes.new ≡ length bytes.old }
    ensures front { take end bytes.new ≡ take end bytes.old }
    ensures bound { IfOk result (λ n. (n ≤ most) × (end + n ≤ length bytes.new)) }
    ensures some { IsTrue (S.state source.old).told → IfOk result (λ n. IsNextPiece (S.state source.old) (S.state source.new) (take n (drop end bytes.new)) n) }
    ensures kept { IsTrue (S.state source.old).told → OnErr result (Consumes (S.state source.old) (S.state source.new) []) }
    ensures told { (S.state source.new).told ≡ (S.state source.old).told }
    ensures name { (S.state source.new).name ≡ (S.state source.old).name }
    ensures cause { HasCause (S.state source.old).faults (S.state source.new).faults result }
{
    let room = ((bytes.len() - end) as u64).min(most) as usize;
    let (_, free) = bytes.split_at_mut(end);
    let (front, _) = free.split_at_mut(room);
    source.read(front)
}
