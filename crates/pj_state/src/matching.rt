// Rows that have one value in a column, lent.
ghost use Rattle.std.specs.Prelude.{◌≡◌, ◌<◌, Some, length, slice_get};
ghost use Rattle.pj_state.specs.Rising.{IsRising};
ghost use Rattle.pj_state.specs.States.{rows_with, stored, ticket_of};
ghost use Rattle.pj_state.specs.Indexes.{IsMatching};

use crate::store::Store;
use pj_value::{Row, Value};
use std::marker::Model;

/// Where a row was found: a hint for finding the next one. Holds the place behind it.
#[derive(Clone, Copy)]
pub struct Spot {
    pub(crate) block: usize,
    pub(crate) at: usize,
}

impl Spot {
    /// No row was found yet.
    #[inline(always)]
    pub fn new() -> Spot {
        Spot { block: 0, at: 0 }
    }
}

/// The rows that have one value in a column, lent, in order of tickets; seen as their list.
#[derive(Drop)]
pub struct Matching<'a> {
    store: &'a Store,
    tickets: &'a [u64],
    column: u32,
    value: &'a Value,
}

impl<'a> Model for Matching<'a> {
    ghost use Rattle.std.specs.Prelude.{List};
    ghost use Rattle.pj_state.specs.declared.shared.Stored.{Stored as AnyStored};
    ghost use Rattle.pj_state.specs.States.{rows_with};
    ghost use Rattle.pj_state.specs.Indexes.{IsMatching};

    ghost Value = { List AnyStored };

    ghost view = { λ m. rows_with m.column m.value.now m.store.now };

    ghost invariant = { λ m. IsMatching m.column m.value.now m.store.now m.tickets.now };
}

impl<'a> Matching<'a> {
    /// The rows of the store with this value in this column, which have these tickets.
    pub(crate) fn of(
        store: &'a Store,
        tickets: &'a [u64],
        column: u32,
        value: &'a Value,
    ) -> Matching<'a>
        requires { IsMatching column value.now store.now tickets.now }
        ensures { result ≡ rows_with column value.now store.now }
    {
        Matching {
            store,
            tickets,
            column,
            value,
        }
    }

    /// How many rows there are.
    #[inline(always)]
    pub fn len(&self) -> usize
        ensures len { result ≡ length self.now }
        ensures rising { IsRising ticket_of self.now }
    {
        self.tickets.len()
    }

    /// The row at a position, counted from 0, with its ticket.
    pub fn nth(&self, at: usize) -> (u64, &'a Row)
        requires { at < length self.now }
        ensures { slice_get self.now at ≡ Some (stored result.0 result.1.now) }
    {
        let row = self.store.get(self.tickets[at]).unwrap();
        (self.tickets[at], row.row())
    }

    /// The same; near the place where the last one was found it takes a few steps.
    #[inline]
    pub fn nth_near(&self, at: usize, near: &mut Spot) -> (u64, &'a Row)
        requires { at < length self.now }
        ensures { slice_get self.now at ≡ Some (stored result.0 result.1.now) }
    {
        let row = self.store.get_near(self.tickets[at], near).unwrap();
        (self.tickets[at], row.row())
    }
}
