// Strings of bytes that share the memory in which they stand.
ghost use Rattle.std.specs.Prelude.{◌≡◌, ◌≤◌, length, slice_range, IfOk};

use crate::{Bytes, NoMemory};
use std::alloc::Global;
use std::marker::Model;
use std::sync::Arc;

/// A string of bytes that is a part of a piece of memory. The strings of one line share its piece, and a second handle
/// copies no byte.
#[derive(Drop)]
pub struct SharedText {
    piece: Arc<Bytes, Global>,
    start: u32,
    end: u32,
}

impl Model for SharedText {
    ghost use Rattle.std.specs.Prelude.{◌≤◌, ℕ, List, length, slice_range};
    ghost use Rattle.std.specs.Arc.{arc_value};

    ghost Value = { List ℕ };

    ghost view = { λ t. slice_range (arc_value t.piece) t.start t.end };

    ghost invariant = { λ t. (t.start ≤ t.end) × (t.end ≤ length (arc_value t.piece)) };
}

impl SharedText {
    /// These bytes, which are handed over: fewer than 2^32. `NoMemory` comes for more, too.
    pub fn of(alloc: Global, bytes: Bytes) -> Result<SharedText, NoMemory>
        ensures { IfOk result (λ text. text ≡ bytes) }
    {
        let len = bytes.len();
        if len > u32::MAX as usize {
            return Err(NoMemory);
        }
        Ok(SharedText {
            piece: Arc::new(alloc, bytes)?,
            start: 0,
            end: len as u32,
        })
    }

    /// A copy of these bytes, fewer than 2^32. `NoMemory` comes for more, too.
    pub fn copy_of(alloc: Global, bytes: &[u8]) -> Result<SharedText, NoMemory>
        ensures { IfOk result (λ text. text ≡ bytes.now) }
    {
        SharedText::of(alloc, Bytes::copy_of(alloc, bytes)?)
    }

    /// How many bytes there are.
    pub fn len(&self) -> usize
        ensures { result ≡ length self.now }
    {
        (self.end - self.start) as usize
    }

    /// All bytes.
    pub fn as_slice(&self) -> &[u8]
        ensures { result.now ≡ self.now }
    {
        let piece = self.piece.as_slice();
        &piece[self.start as usize..self.end as usize]
    }

    /// The bytes from one place to another, in the same memory.
    pub fn part(&self, start: usize, end: usize) -> Result<SharedText, NoMemory>
        requires ordered { start ≤ end }
        requires within { end ≤ length self.now }
        ensures { IfOk result (λ text. text ≡ slice_range self.now start end) }
    {
        let (first, _last) = (self.start, self.end);
        Ok(SharedText {
            piece: Arc::try_clone(&self.piece)?,
            start: first + start as u32,
            end: first + end as u32,
        })
    }

    /// A second handle of the same bytes.
    pub fn share(&self) -> Result<SharedText, NoMemory>
        ensures { IfOk result (λ text. text ≡ self.now) }
    {
        Ok(SharedText {
            piece: Arc::try_clone(&self.piece)?,
            start: self.start,
            end: self.end,
        })
    }
}
