// Rows in order of their tickets.
ghost use Rattle.std.specs.Prelude.{◌≡◌, ◌<◌, [], ◌∷◌, ◌++◌, length, slice_get, None, Some, IfOk, IfErr, IfSome, IfNone, OnOk, OnErr};
ghost use Rattle.pj_state.specs.Rising.{AllBelow, IsRising, first_with, without};
ghost use Rattle.pj_state.specs.States.{pairs, row_under, rows_below, stored, ticket_of};
ghost use Rattle.pj_state.specs.Stores.{AreHeld, rows_at};

use crate::cursor::Cursor;
use crate::matching::Spot;
use crate::places::{Block, Place, Places};
use crate::shared::{Shared, Stored};
use pj_value::{List, NoMemory};
use slab::Slab;
use std::alloc::Global;
use std::marker::Model;

/// Rows in order of their tickets, seen as their list.
#[derive(Drop)]
pub struct Store {
    places: Places,
    slab: Slab<Shared>,
}

impl Model for Store {
    ghost use Rattle.std.specs.Prelude.{List};
    ghost use Rattle.pj_state.specs.declared.shared.Stored.{Stored as AnyStored};
    ghost use Rattle.pj_state.specs.Stores.{IsStore, rows_at};

    ghost Value = { List AnyStored };

    ghost view = { λ s. rows_at s.slab.slots s.places };

    ghost invariant = { λ s. IsStore s.slab.slots s.places };
}

impl Store {
    /// No rows.
    pub fn new(alloc: Global) -> Store
        ensures { result ≡ [] }
    {
        Store {
            places: Places::new(alloc),
            slab: Slab::new(alloc),
        }
    }

    /// How many rows there are.
    pub fn len(&self) -> usize
        ensures len { result ≡ length self.now }
        ensures rising { IsRising ticket_of self.now }
    {
        self.slab.len()
    }

    /// One more row at the end. On a refusal it is handed back, and all is as it was.
    pub fn push(&mut self, alloc: Global, ticket: u64, row: Shared) -> Result<(), Shared>
        requires { AllBelow ticket_of ticket self.old }
        ensures ok { OnOk result (self.new ≡ self.old ++ stored ticket row ∷ []) }
        ensures err { OnErr result (self.new ≡ self.old) }
        ensures back { IfErr result (λ r. r ≡ row) }
        ensures rising { IsRising ticket_of self.old }
    {
        match self.slab.reserve(1) {
            Err(_) => Err(row),
            Ok(()) => {
                let key = self.slab.vacant_key();
                match self.places.push(alloc, Place { ticket, key }) {
                    Err(_) => Err(row),
                    Ok(()) => {
                        self.slab.insert_reserved(row);
                        Ok(())
                    }
                }
            }
        }
    }

    /// Takes out the row with this ticket.
    pub fn take(&mut self, ticket: u64) -> Option<Stored>
        ensures taken { result ≡ first_with ticket_of ticket self.old }
        ensures left { self.new ≡ without ticket_of ticket self.old }
        ensures rising { IsRising ticket_of self.old }
    {
        match self.places.take(ticket) {
            None => None,
            Some(place) => Some(Stored {
                ticket: place.ticket,
                row: self.slab.remove(place.key),
            }),
        }
    }

    /// The row with this ticket.
    #[inline]
    pub fn get(&self, ticket: u64) -> Option<&Shared>
        ensures found { IfSome result (λ row. first_with ticket_of ticket self.now ≡ Some (stored ticket row.now)) }
        ensures missing { IfNone result (first_with ticket_of ticket self.now ≡ None) }
    {
        match self.places.get(ticket) {
            None => None,
            Some(place) => Some(&self.slab[place.key]),
        }
    }

    /// The same; looks first at a spot, which then becomes the one behind the row.
    #[inline]
    pub fn get_near(&self, ticket: u64, near: &mut Spot) -> Option<&Shared>
        ensures found { IfSome result (λ row. first_with ticket_of ticket self.now ≡ Some (stored ticket row.now)) }
        ensures missing { IfNone result (first_with ticket_of ticket self.now ≡ None) }
    {
        match self.places.get_near(ticket, near) {
            None => None,
            Some(place) => Some(&self.slab[place.key]),
        }
    }

    /// The row at a position, counted from 0, with its ticket.
    pub fn nth(&self, at: usize) -> (u64, &Shared)
        requires { at < length self.now }
        ensures { slice_get self.now at ≡ Some (stored result.0 result.1.now) }
    {
        let place = place_at(&self.places, self.slab.len(), at);
        (place.ticket, &self.slab[place.key])
    }

    /// All rows, lent.
    pub fn cursor(&self) -> Cursor<'_>
        ensures { result ≡ self.now }
    {
        Cursor::of(self.places.blocks(), &self.slab, self.slab.len())
    }

    /// Second handles of the rows with smaller tickets than this one, in order.
    pub fn below(&self, alloc: Global, ticket: u64) -> Result<List<(u64, Shared)>, NoMemory>
        ensures { IfOk result (λ found. found ≡ pairs (rows_below ticket self.now)) }
    {
        let mut found = List::new(alloc);
        for block in self.places.blocks() {
            append_below(alloc, &self.slab, block, ticket, &mut found)?;
        }
        Ok(found)
    }
}

// The place at a position, of so many, from the nearer end.
fn place_at(places: &Places, count: usize, at: usize) -> Place
    requires count { count ≡ length places.now }
    requires within { at < count }
    ensures { slice_get places.now at ≡ Some result }
{
    if at < count / 2 {
        return places.nth(at);
    }
    places.nth_back(count - 1 - at)
}

// Appends second handles of those of these rows that have smaller tickets than this one.
fn append_below(
    alloc: Global,
    slab: &Slab<Shared>,
    block: &Block,
    ticket: u64,
    found: &mut List<(u64, Shared)>,
) -> Result<(), NoMemory>
    requires { AreHeld slab.now.slots block.now }
    ensures { OnOk result (found.new ≡ found.old ++ pairs (rows_below ticket (rows_at slab.now.slots block.now))) }
{
    for at in 0..block.len() {
        let place = block.at(at);
        if place.ticket < ticket {
            let row = slab[place.key].share(alloc)?;
            found.push((place.ticket, row))?;
        }
    }
    Ok(())
}
