// Where rows stand, in order of their tickets: in blocks, so that one is taken out by moving few.
ghost use Rattle.std.specs.Prelude.{◌≡◌, ◌-◌, ◌<◌, [], ◌∷◌, ◌++◌, length, remove, slice_get, slice_index_or, slice_set, None, Some, IfOk, IfSome, IfNone, OnOk, OnErr};
ghost use Rattle.pj_state.specs.Rising.{IsRising, first_with, without};
ghost use Rattle.pj_state.specs.Nears.{IsBase, near_place};
ghost use Rattle.pj_state.specs.Stores.{AreFilled, flat, less_one, place_ticket};
ghost use Rattle.pj_state.specs.declared.places.Place.{Place as AnyPlace};

use crate::halving::{Ticketed, position, split_place, split_place_early};
use crate::matching::Spot;
use crate::remaining::Remaining;
use pj_value::NoMemory;
use std::alloc::Global;
use std::marker::Model;

/// A ticket, and the key under which its row stands.
#[derive(Clone, Copy)]
pub struct Place {
    pub ticket: u64,
    pub key: usize,
}

// The same in half the room: the ticket is told by how far it is past the base of its block.
#[derive(Clone, Copy)]
pub struct Near {
    past: u32,
    key: u32,
}

/// Some places that follow each other, at most 128, seen as their list.
#[derive(Drop)]
pub struct Block {
    base: u64,
    nears: Remaining<Near>,
}

/// All places, seen as their list.
#[derive(Drop)]
pub struct Places {
    blocks: Vec<Block>,
}

// How many places a block has at most.
const BLOCK: usize = 128;

// The greatest base of a block: each number of 32 bits past it is one of 64.
const LAST_BASE: u64 = 18446744069414584320;

impl Model for Block {
    ghost use Rattle.std.specs.Prelude.{List};
    ghost use Rattle.pj_state.specs.declared.places.Place.{Place as AnyPlace};
    ghost use Rattle.pj_state.specs.Nears.{IsBase, places_from};

    ghost Value = { List AnyPlace };

    ghost view = { λ b. places_from b.base b.nears };

    ghost invariant = { λ b. IsBase b.base };
}

impl Model for Places {
    ghost use Rattle.std.specs.Prelude.{List};
    ghost use Rattle.pj_state.specs.declared.places.Place.{Place as AnyPlace};
    ghost use Rattle.pj_state.specs.Stores.{AreFilled, flat};

    ghost Value = { List AnyPlace };

    ghost view = { λ p. flat p.blocks.items };

    ghost invariant = { λ p. AreFilled p.blocks.items };
}

impl Ticketed for Place {
    ghost use Rattle.pj_state.specs.Stores.{place_ticket};

    ghost number = { place_ticket };

    #[inline(always)]
    fn ticket(&self) -> u64 {
        self.ticket
    }
}

impl Ticketed for Near {
    ghost use Rattle.pj_state.specs.Nears.{near_past};

    ghost number = { near_past };

    #[inline(always)]
    fn ticket(&self) -> u64 {
        u64::from(self.past)
    }
}

impl Ticketed for Block {
    ghost use Rattle.pj_state.specs.Stores.{first_ticket};

    ghost number = { first_ticket };

    #[inline(always)]
    fn ticket(&self) -> u64 {
        match self.nears.as_slice().first() {
            None => 0,
            Some(near) => near.place(self.base).ticket,
        }
    }
}

impl Near {
    // A place in a block with this base; `None` where its ticket is too far past that, or its key too great.
    fn of(base: u64, place: Place) -> Option<Near>
        ensures { IfSome result (λ near. near_place base near ≡ place) }
    {
        if place.ticket < base {
            return None;
        }
        let past = place.ticket - base;
        if past > u64::from(u32::MAX) {
            return None;
        }
        if place.key > u32::MAX as usize {
            return None;
        }
        Some(Near {
            past: past as u32,
            key: place.key as u32,
        })
    }

    // The place in a block with this base.
    #[inline(always)]
    fn place(&self, base: u64) -> Place
        requires { IsBase base }
        ensures { result ≡ near_place base self.now }
    {
        Place {
            ticket: base + u64::from(self.past),
            key: self.key as usize,
        }
    }
}

impl Block {
    // A block of one place.
    fn of(alloc: Global, place: Place) -> Result<Block, NoMemory>
        ensures { IfOk result (λ b. b ≡ place ∷ []) }
    {
        let mut block = Block {
            base: place.ticket.min(LAST_BASE),
            nears: Remaining::of(Vec::new(alloc)),
        };
        block.push(place)?;
        Ok(block)
    }

    /// How many places there are.
    #[inline(always)]
    pub fn len(&self) -> usize
        ensures { result ≡ length self.now }
    {
        self.nears.len()
    }

    /// The place at a position, counted from 0.
    #[inline(always)]
    pub fn at(&self, at: usize) -> Place
        requires { at < length self.now }
        ensures { slice_get self.now at ≡ Some result }
    {
        self.nears.at(at).place(self.base)
    }

    // Whether a place fits behind those that are there.
    fn has_room_for(&self, place: Place) -> bool {
        self.nears.len() < BLOCK && Near::of(self.base, place).is_some()
    }

    // One more place at the end.
    fn push(&mut self, place: Place) -> Result<(), NoMemory>
        ensures ok { OnOk result (self.new ≡ self.old ++ place ∷ []) }
        ensures err { OnErr result (self.new ≡ self.old) }
    {
        match Near::of(self.base, place) {
            None => Err(NoMemory),
            Some(near) => {
                self.nears.push(near)?;
                Ok(())
            }
        }
    }

    // The place at a position, where it is there and has this ticket.
    #[inline(always)]
    fn found_at(&self, at: usize, ticket: u64) -> Option<Place>
        ensures { IfSome result (λ place. IsRising place_ticket self.now → first_with place_ticket ticket self.now ≡ Some place) }
    {
        if at >= self.len() {
            return None;
        }
        let place = self.at(at);
        if place.ticket != ticket {
            return None;
        }
        Some(place)
    }

    // The position of the place with this ticket; where the tickets rise, `None` exactly where there is none.
    #[inline]
    fn position(&self, ticket: u64) -> Option<usize>
        ensures within { IfSome result (λ at. at < length self.now) }
        ensures found { IfSome result (λ at. (d : AnyPlace) → place_ticket (slice_index_or self.now at d) ≡ ticket) }
        ensures missing { IfNone result (IsRising place_ticket self.now → first_with place_ticket ticket self.now ≡ None) }
    {
        if ticket < self.base {
            return None;
        }
        position(self.nears.as_slice(), ticket - self.base)
    }

    // The place with this ticket, where the tickets rise.
    fn get(&self, ticket: u64) -> Option<Place>
        ensures { IsRising place_ticket self.now → result ≡ first_with place_ticket ticket self.now }
    {
        match self.position(ticket) {
            None => None,
            Some(at) => Some(self.at(at)),
        }
    }

    // The same; tells the position behind it.
    fn get_near(&self, ticket: u64, next: &mut usize) -> Option<Place>
        ensures { IsRising place_ticket self.now → result ≡ first_with place_ticket ticket self.now }
    {
        match self.position(ticket) {
            None => None,
            Some(at) => {
                *next = at.wrapping_add(1);
                Some(self.at(at))
            }
        }
    }

    // Takes out the place with this ticket, where the tickets rise.
    fn take(&mut self, ticket: u64) -> Option<Place>
        ensures taken { IsRising place_ticket self.old → result ≡ first_with place_ticket ticket self.old }
        ensures left { IsRising place_ticket self.old → self.new ≡ without place_ticket ticket self.old }
    {
        match self.position(ticket) {
            None => None,
            Some(at) => Some(self.remove(at)),
        }
    }

    // Takes out the place at a position.
    fn remove(&mut self, at: usize) -> Place
        requires { at < length self.old }
        ensures taken { slice_get self.old at ≡ Some result }
        ensures left { self.new ≡ remove self.old at }
    {
        self.nears.remove(at).place(self.base)
    }
}

impl Places {
    /// No places.
    pub fn new(alloc: Global) -> Places
        ensures { result ≡ [] }
    {
        Places {
            blocks: Vec::new(alloc),
        }
    }

    /// The blocks, in order.
    pub fn blocks(&self) -> &[Block]
        ensures { flat result.now ≡ self.now }
    {
        self.blocks.as_slice()
    }

    /// One more place at the end. On a refusal all is as it was.
    pub fn push(&mut self, alloc: Global, place: Place) -> Result<(), NoMemory>
        ensures ok { OnOk result (self.new ≡ self.old ++ place ∷ []) }
        ensures err { OnErr result (self.new ≡ self.old) }
    {
        push_place(&mut self.blocks, alloc, place)
    }

    /// The place with this ticket, where the tickets rise. Looks at the last place first.
    #[inline]
    pub fn get(&self, ticket: u64) -> Option<Place>
        ensures { IsRising place_ticket self.now → result ≡ first_with place_ticket ticket self.now }
    {
        match self.last_with(ticket) {
            Some(place) => Some(place),
            None => self.search(ticket),
        }
    }

    /// The same; looks first at a spot, which then becomes the one behind the place.
    #[inline]
    pub fn get_near(&self, ticket: u64, near: &mut Spot) -> Option<Place>
        ensures { IsRising place_ticket self.now → result ≡ first_with place_ticket ticket self.now }
    {
        match self.found_at(near.block, near.at, ticket) {
            Some(place) => {
                near.at = near.at.wrapping_add(1);
                Some(place)
            }
            None => self.get_behind(ticket, near),
        }
    }

    // The same; looks first at the next block.
    fn get_behind(&self, ticket: u64, near: &mut Spot) -> Option<Place>
        ensures { IsRising place_ticket self.now → result ≡ first_with place_ticket ticket self.now }
    {
        let next = near.block.wrapping_add(1);
        match self.found_at(next, 0, ticket) {
            Some(place) => {
                near.block = next;
                near.at = 1;
                Some(place)
            }
            None => self.search_near(ticket, near),
        }
    }

    // The place with this ticket, where the tickets rise.
    fn search(&self, ticket: u64) -> Option<Place>
        ensures { IsRising place_ticket self.now → result ≡ first_with place_ticket ticket self.now }
    {
        let behind = split_place(self.blocks.as_slice(), ticket);
        if behind == 0 {
            return None;
        }
        self.blocks[behind - 1].get(ticket)
    }

    // The same; tells the spot behind it.
    fn search_near(&self, ticket: u64, near: &mut Spot) -> Option<Place>
        ensures { IsRising place_ticket self.now → result ≡ first_with place_ticket ticket self.now }
    {
        let behind = split_place(self.blocks.as_slice(), ticket);
        if behind == 0 {
            return None;
        }
        near.block = behind - 1;
        self.blocks[behind - 1].get_near(ticket, &mut near.at)
    }

    // The last place, where it has this ticket.
    #[inline(always)]
    fn last_with(&self, ticket: u64) -> Option<Place>
        ensures { IfSome result (λ place. IsRising place_ticket self.now → first_with place_ticket ticket self.now ≡ Some place) }
    {
        let count = self.blocks.len();
        if count == 0 {
            return None;
        }
        let last = self.blocks[count - 1].len().wrapping_sub(1);
        self.found_at(count - 1, last, ticket)
    }

    // The place at a position of a block, where it is there and has this ticket.
    #[inline(always)]
    fn found_at(&self, block: usize, at: usize, ticket: u64) -> Option<Place>
        ensures { IfSome result (λ place. IsRising place_ticket self.now → first_with place_ticket ticket self.now ≡ Some place) }
    {
        if block >= self.blocks.len() {
            return None;
        }
        self.blocks[block].found_at(at, ticket)
    }

    /// Takes out the place with this ticket, where the tickets rise.
    pub fn take(&mut self, ticket: u64) -> Option<Place>
        ensures taken { IsRising place_ticket self.old → result ≡ first_with place_ticket ticket self.old }
        ensures left { IsRising place_ticket self.old → self.new ≡ without place_ticket ticket self.old }
    {
        let behind = split_place_early(self.blocks.as_slice(), ticket);
        if behind == 0 {
            return None;
        }
        take_place(&mut self.blocks, behind - 1, ticket)
    }

    /// The place at a position, counted from 0.
    pub fn nth(&self, at: usize) -> Place
        requires { at < length self.now }
        ensures { slice_get self.now at ≡ Some result }
    {
        let mut left = at;
        for block in &self.blocks {
            if left < block.len() {
                return block.at(left);
            }
            left -= block.len();
        }
        Place { ticket: 0, key: 0 }
    }

    /// The place at a position, counted from 0 at the end.
    pub fn nth_back(&self, at: usize) -> Place
        requires { at < length self.now }
        ensures { slice_get self.now (length self.now - 1 - at) ≡ Some result }
    {
        let mut left = at;
        let mut behind = self.blocks.len();
        while behind > 0 {
            let block = &self.blocks[behind - 1];
            let len = block.len();
            if left < len {
                return block.at(len - 1 - left);
            }
            left -= len;
            behind -= 1;
        }
        Place { ticket: 0, key: 0 }
    }
}

// Puts a place at the end of the last block, or into a new one where that is full.
fn push_place(blocks: &mut Vec<Block>, alloc: Global, place: Place) -> Result<(), NoMemory>
    ensures ok { OnOk result (flat blocks.new.items ≡ flat blocks.old.items ++ place ∷ []) }
    ensures err { OnErr result (blocks.new.items ≡ blocks.old.items) }
    ensures filled { AreFilled blocks.old.items → AreFilled blocks.new.items }
{
    let count = blocks.len();
    if count > 0 && blocks[count - 1].has_room_for(place) {
        blocks[count - 1].push(place)?;
        Ok(())
    } else {
        let block = Block::of(alloc, place)?;
        blocks.push(block)?;
        Ok(())
    }
}

// Takes a place out of a block, and the block too where nothing is left in it.
fn take_place(blocks: &mut Vec<Block>, at: usize, ticket: u64) -> Option<Place>
    requires { at < length blocks.old.items }
    ensures taken { IsRising place_ticket (slice_index_or blocks.old.items at []) → result ≡ first_with place_ticket ticket (slice_index_or blocks.old.items at []) }
    ensures left { IsRising place_ticket (slice_index_or blocks.old.items at []) → flat blocks.new.items ≡ flat (less_one blocks.old.items at ticket) }
    ensures filled { AreFilled blocks.old.items → AreFilled blocks.new.items }
{
    let place = blocks[at].take(ticket);
    if blocks[at].len() == 0 {
        blocks.remove(at);
    }
    place
}
