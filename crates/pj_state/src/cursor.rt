// Stored rows by their positions, one near the other.
ghost use Rattle.std.specs.Prelude.{◌≡◌, ◌<◌, ◌≤◌, Some, length, slice_get};
ghost use Rattle.pj_state.specs.Reaching.{IsReached, StandsIn};
ghost use Rattle.pj_state.specs.States.{stored};
ghost use Rattle.pj_state.specs.Stores.{AreHeld, flat, rows_at};

use crate::places::Block;
use crate::shared::Shared;
use pj_value::Row;
use slab::Slab;
use std::marker::Model;

/// Stored rows, lent, in order of tickets; seen as their list. A row near the one that was looked at last takes a few steps.
#[derive(Drop)]
pub struct Cursor<'a> {
    blocks: &'a [Block],
    slab: &'a Slab<Shared>,
    count: usize,
    here: Reached,
}

// A block, and how many places stand before it.
#[derive(Clone, Copy)]
pub struct Reached {
    block: usize,
    before: usize,
}

impl<'a> Model for Cursor<'a> {
    ghost use Rattle.std.specs.Prelude.{◌≡◌, List, length};
    ghost use Rattle.pj_state.specs.declared.shared.Stored.{Stored as AnyStored};
    ghost use Rattle.pj_state.specs.Reaching.{IsReached};
    ghost use Rattle.pj_state.specs.Stores.{AreHeld, flat, rows_at};

    ghost Value = { List AnyStored };

    ghost view = { λ c. rows_at c.slab.now.slots (flat c.blocks.now) };

    ghost invariant = { λ c. AreHeld c.slab.now.slots (flat c.blocks.now) × (c.count ≡ length (flat c.blocks.now)) × IsReached c.blocks.now c.here };
}

impl<'a> Cursor<'a> {
    // The rows to which the places of these blocks lead, so many.
    pub(crate) fn of(blocks: &'a [Block], slab: &'a Slab<Shared>, count: usize) -> Cursor<'a>
        requires held { AreHeld slab.now.slots (flat blocks.now) }
        requires count { count ≡ length (flat blocks.now) }
        ensures { result ≡ rows_at slab.now.slots (flat blocks.now) }
    {
        Cursor {
            blocks,
            slab,
            count,
            here: Reached {
                block: 0,
                before: 0,
            },
        }
    }

    /// The row at a position, counted from 0, with its ticket.
    pub fn nth(&mut self, at: usize) -> (u64, &'a Row)
        requires { at < length self.old }
        ensures row { slice_get self.old at ≡ Some (stored result.0 result.1.now) }
        ensures same { self.new ≡ self.old }
    {
        self.here = reach(self.blocks, self.count, self.here, at);
        let place = self.blocks[self.here.block].at(at - self.here.before);
        (place.ticket, self.slab[place.key].row())
    }
}

// The block in which the place at a position stands, looked for from another one, or from the end where that is nearer.
fn reach(blocks: &[Block], count: usize, from: Reached, at: usize) -> Reached
    requires from { IsReached blocks.now from }
    requires count { count ≡ length (flat blocks.now) }
    requires within { at < count }
    ensures { StandsIn blocks.now result at }
{
    if at < from.before {
        return reach_back(blocks, from, at);
    }
    if count - at < at - from.before {
        return reach_back(blocks, end_of(blocks, count), at);
    }
    reach_on(blocks, from, at)
}

// The same, where it is none before that one.
fn reach_on(blocks: &[Block], from: Reached, at: usize) -> Reached
    requires from { IsReached blocks.now from }
    requires within { at < length (flat blocks.now) }
    requires behind { from.before ≤ at }
    ensures { StandsIn blocks.now result at }
{
    let mut before = from.before;
    for block in from.block..blocks.len() {
        let len = blocks[block].len();
        if at - before < len {
            return Reached { block, before };
        }
        before += len;
    }
    from
}

// The same, where it is one before that one.
fn reach_back(blocks: &[Block], from: Reached, at: usize) -> Reached
    requires from { IsReached blocks.now from }
    requires before { at < from.before }
    ensures { StandsIn blocks.now result at }
{
    let mut before = from.before;
    for back in 0..from.block {
        let block = from.block - 1 - back;
        before -= blocks[block].len();
        if before <= at {
            return Reached { block, before };
        }
    }
    from
}

// Behind the last block.
#[tactic(auto, using(crate::proofs::Reaching::before_last))]
fn end_of(blocks: &[Block], count: usize) -> Reached
    requires { count ≡ length (flat blocks.now) }
    ensures reached { IsReached blocks.now result }
    ensures before { result.before ≡ count }
{
    Reached {
        block: blocks.len(),
        before: count,
    }
}
