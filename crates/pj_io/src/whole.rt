// A source read to its end.
ghost use Rattle.std.specs.Prelude.{◌≡◌, ◌≤◌, ◌<◌, ◌^◌, ◌+◌, IsTrue, length, vec_len, IfOk, OnOk, OnErr, IsErrOf, []};
ghost use Rattle.pj_io.specs.Causes.{Rose};
ghost use Rattle.pj_io.specs.Pieces.{Consumes, ConsumesAtMost, ConsumesExactly, ReadsOnto};

use crate::{Failed, Source};
use pj_value::{Bytes, List, NoMemory};
use std::alloc::Global;

/// How many bytes a read asks for at most.
const PIECE: usize = 65536;

/// Why a source was not read whole.
#[derive(Clone, Copy, Debug, PartialEq, Eq)]
pub enum WholeStop {
    /// A read failed.
    Fault,
    /// The source gave more bytes than the limit.
    TooLong,
    /// Memory could not be had.
    NoMemory,
}

/// All bytes to the end, if they are no more than the limit, which is below 2^63. Never are more than one byte beyond
/// the limit taken from the source.
#[tactic(auto, using(crate::proofs::Pieces::consumes_more))]
pub fn read_whole<S: Source>(alloc: Global, source: &mut S, limit: u64) -> Result<Bytes, WholeStop>
    requires { limit < 2 ^ 63 }
    ensures short { IfOk result (λ bytes. length bytes ≤ limit) }
    ensures all { IsTrue (S.state source.old).told → IfOk result (λ bytes. Consumes (S.state source.old) (S.state source.new) bytes) }
    ensures ended { IsTrue (S.state source.old).told → OnOk result ((S.state source.new).left ≡ []) }
    ensures long { IsTrue (S.state source.old).told → IsErrOf result WholeStop.TooLong → limit < length (S.state source.old).left }
    ensures one_more { IsTrue (S.state source.old).told → IsErrOf result WholeStop.TooLong → ConsumesExactly (limit + 1) (S.state source.old) (S.state source.new) }
    ensures most { IsTrue (S.state source.old).told → OnErr result (ConsumesAtMost (limit + 1) (S.state source.old) (S.state source.new)) }
    ensures told { (S.state source.new).told ≡ (S.state source.old).told }
    ensures name { (S.state source.new).name ≡ (S.state source.old).name }
    ensures later { (S.state source.old).faults ≤ (S.state source.new).faults }
    ensures fault { IsErrOf result WholeStop.Fault → Rose (S.state source.old).faults (S.state source.new).faults }
{
    let mut held = piece_buffer(alloc)?;
    let buffer = held.as_mut_slice();
    let mut whole = List::new(alloc);
    while whole.len() as u64 <= limit {
        let most = limit - whole.len() as u64 + 1;
        if read_piece(source, most, buffer, &mut whole)? == 0 {
            return Ok(whole);
        }
    }
    Err(WholeStop::TooLong)
}

impl From<NoMemory> for WholeStop {
    ghost use Rattle.pj_io.specs.declared.whole.WholeStop.TheVariants.{NoMemory as OutOfMemory};

    ghost from_gives = { λ _ e. e ≡ OutOfMemory };

    fn from(_: NoMemory) -> WholeStop {
        WholeStop::NoMemory
    }
}

impl From<Failed> for WholeStop {
    ghost use Rattle.pj_io.specs.declared.whole.WholeStop.TheVariants.{Fault};

    ghost from_gives = { λ _ e. e ≡ Fault };

    fn from(_: Failed) -> WholeStop {
        WholeStop::Fault
    }
}

// Room for one piece.
fn piece_buffer(alloc: Global) -> Result<Vec<u8>, NoMemory>
    ensures { IfOk result (λ buffer. vec_len buffer ≡ PIECE) }
{
    Ok(vec![in alloc; 0u8; PIECE]?)
}

// Reads once through the buffer and appends what came, at most so many bytes.
fn read_piece<S: Source>(
    source: &mut S,
    most: u64,
    buffer: &mut [u8],
    whole: &mut List<u8>,
) -> Result<usize, WholeStop>
    requires most { 0 < most }
    requires buffer { 0 < length buffer.old }
    ensures bound { IfOk result (λ n. n ≤ most) }
    ensures count { IfOk result (λ n. length whole.new ≡ length whole.old + n) }
    ensures some { IsTrue (S.state source.old).told → IfOk result (λ n. ReadsOnto (S.state source.old) (S.state source.new) whole.old whole.new n) }
    ensures err { IsTrue (S.state source.old).told → OnErr result (ConsumesAtMost most (S.state source.old) (S.state source.new)) }
    ensures never_long { IsErrOf result WholeStop.TooLong → ⊥ }
    ensures told { (S.state source.new).told ≡ (S.state source.old).told }
    ensures name { (S.state source.new).name ≡ (S.state source.old).name }
    ensures later { (S.state source.old).faults ≤ (S.state source.new).faults }
    ensures fault { IsErrOf result WholeStop.Fault → Rose (S.state source.old).faults (S.state source.new).faults }
{
    let room = (buffer.len() as u64).min(most) as usize;
    let (front, _) = buffer.split_at_mut(room);
    let count = source.read(front)?;
    whole.append(&front[..count])?;
    Ok(count)
}
