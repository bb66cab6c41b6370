// The stored rows of an input of a join.
ghost use Rattle.std.specs.Prelude.{◌≡◌, ◌<◌, ◌≤◌, [], ◌∷◌, ◌++◌, length, slice_get, All, Some, IfOk, IfNone, OnOk, OnErr};
ghost use Rattle.std.specs.Prelude.{◌==◌};
ghost use Rattle.std.specs.List.{list_any};
ghost use Rattle.std.specs.Option.{option_copied};
ghost use Rattle.pj_value.specs.Lists.{In};
ghost use Rattle.pj_state.specs.Rising.{IsRising, without};
ghost use Rattle.pj_state.specs.States.{pairs, row_under, rows_below, rows_with, state_of, stored, ticket_of, tickets_of};
ghost use Rattle.pj_state.specs.Indexes.{IndexesFewer, IndexesMore, IndexesSame, IsKept, SameBehind};
ghost use Rattle.pj_state.specs.Ordered.{TellsNearestRow};

use crate::index::ValueIndex;
use crate::shared::{Shared, Stored};
use crate::store::Store;
use crate::{Cursor, Matching, Spot};
use pj_value::{List, NoMemory, Row, Value};
use std::alloc::Global;
use std::marker::Model;

/// Stored rows, each under its ticket, with an index for each column that was named; seen as these columns, and the rows
/// in order of tickets.
#[derive(Drop)]
pub struct State {
    alloc: Global,
    columns: List<u32>,
    store: Store,
    indexes: Vec<ValueIndex>,
}

/// Which integer is sought: the least from one on, or the greatest up to one; where none is named, the least or greatest of all.
#[derive(Clone, Copy)]
pub enum Seek {
    AtLeast(Option<i64>),
    AtMost(Option<i64>),
}

/// What an order of the integers of a column tells of the one that is sought: nothing, where no order is kept; that there is
/// none; or which it is.
#[derive(Clone, Copy, Debug, PartialEq, Eq)]
pub enum NextNumber {
    Untold,
    Nothing,
    At(i64),
}

impl Model for State {
    ghost use Rattle.pj_state.specs.States.{StateView, state_of};
    ghost use Rattle.pj_state.specs.Indexes.{IsKept};

    ghost Value = { StateView };

    ghost view = { λ s. state_of s.columns s.store };

    ghost invariant = { λ s. IsKept s.columns s.store s.indexes.items };
}

impl State {
    /// No rows, with an index for each of these columns.
    pub fn new(alloc: Global, columns: &[u32]) -> Result<State, NoMemory>
        ensures { IfOk result (λ s. s ≡ state_of columns.now []) }
    {
        Ok(State {
            alloc,
            columns: List::copy_of(alloc, columns)?,
            store: Store::new(alloc),
            indexes: empty_indexes(alloc, columns)?,
        })
    }

    /// Stores a row under a ticket that is greater than all that are there. On a refusal all is as it was. `NoMemory` comes for
    /// more than 2^32 rows, too.
    pub fn insert(&mut self, ticket: u64, row: Shared) -> Result<(), NoMemory>
        requires later { All (λ s. s.ticket < ticket) self.old.rows }
        requires wide { All (λ column. column < length row) self.old.columns }
        ensures ok { OnOk result (self.new ≡ state_of self.old.columns (self.old.rows ++ stored ticket row ∷ [])) }
        ensures err { OnErr result (self.new ≡ self.old) }
    {
        let columns = self.columns.as_slice();
        match add_to_all(self.alloc, columns, &mut self.indexes, ticket, row.row()) {
            Err(_) => Err(no_memory_for(row)),
            Ok(()) => match self.store.push(self.alloc, ticket, row) {
                Ok(()) => Ok(()),
                Err(row) => {
                    take_from(columns, &mut self.indexes, columns.len(), ticket, row.row());
                    Err(no_memory_for(row))
                }
            },
        }
    }

    /// Takes out the row with a ticket; `None` exactly where there is none, and then all is as it was. Takes no memory.
    pub fn remove(&mut self, ticket: u64) -> Option<Shared>
        ensures row { result ≡ row_under ticket self.old.rows }
        ensures left { self.new ≡ state_of self.old.columns (without ticket_of ticket self.old.rows) }
        ensures missing { IfNone result (self.new ≡ self.old) }
    {
        match self.store.take(ticket) {
            None => None,
            Some(stored) => {
                let Stored { ticket: _, row } = stored;
                let columns = self.columns.as_slice();
                let every = columns.len();
                take_from(columns, &mut self.indexes, every, ticket, row.row());
                Some(row)
            }
        }
    }

    /// Second handles of the rows with smaller tickets than `below` that have this value in this column, which was named
    /// to `new`, each with its ticket, in order.
    pub fn candidates(
        &self,
        alloc: Global,
        column: u32,
        value: &Value,
        below: u64,
    ) -> Result<List<(u64, Shared)>, NoMemory>
        requires { In column self.now.columns }
        ensures { IfOk result (λ found. found ≡ pairs (rows_below below (rows_with column value.now self.now.rows))) }
    {
        let mut found = List::new(alloc);
        for ticket in self.tickets(column, value) {
            if *ticket >= below {
                return Ok(found);
            }
            match self.store.get(*ticket) {
                None => {}
                Some(row) => found.push((*ticket, row.share(alloc)?))?,
            }
        }
        Ok(found)
    }

    /// Second handles of the rows with smaller tickets than `below`, each with its ticket, in order.
    pub fn all(&self, alloc: Global, below: u64) -> Result<List<(u64, Shared)>, NoMemory>
        ensures { IfOk result (λ found. found ≡ pairs (rows_below below self.now.rows)) }
    {
        self.store.below(alloc, below)
    }

    /// How many rows there are.
    pub fn len(&self) -> usize
        ensures len { result ≡ length self.now.rows }
        ensures rising { IsRising ticket_of self.now.rows }
    {
        self.store.len()
    }

    /// The row at a position in order of tickets, counted from 0, with its ticket.
    pub fn nth(&self, at: usize) -> (u64, &Row)
        requires { at < length self.now.rows }
        ensures { slice_get self.now.rows at ≡ Some (stored result.0 result.1.now) }
    {
        let (ticket, row) = self.store.nth(at);
        (ticket, row.row())
    }

    /// The rows in order of tickets, lent, to be looked at one near the other. Takes no memory.
    pub fn cursor(&self) -> Cursor<'_>
        ensures { result ≡ self.now.rows }
    {
        self.store.cursor()
    }

    /// The tickets of the rows that have this value in this column, which was named to `new`, rising. Takes no memory.
    pub fn tickets(&self, column: u32, value: &Value) -> &[u64]
        requires { In column self.now.columns }
        ensures tickets { result.now ≡ tickets_of (rows_with column value.now self.now.rows) }
        ensures rising { IsRising ticket_of self.now.rows }
    {
        for (at, own) in self.columns.as_slice().iter().enumerate() {
            if *own == column {
                return self.indexes[at].tickets(value);
            }
        }
        &[]
    }

    /// Whether the column was named to `new`.
    pub fn is_indexed(&self, column: u32) -> bool
        ensures { result ≡ list_any (λ own. column == own) self.now.columns }
    {
        self.columns.as_slice().iter().any(|own| column == *own)
    }

    /// The rows that have this value in this column, which was named to `new`, in order of tickets. Takes no memory.
    pub fn matching<'a>(&'a self, column: u32, value: &'a Value) -> Matching<'a>
        requires { In column self.now.columns }
        ensures { result ≡ rows_with column value.now self.now.rows }
    {
        Matching::of(&self.store, self.tickets(column, value), column, value)
    }

    /// Keeps the integers of a column, which was named to `new`, in order from now on, where there is memory for it.
    pub fn keep_order(&mut self, column: u32)
        ensures { self.new ≡ self.old }
    {
        let columns = self.columns.as_slice();
        keep_order_in(self.alloc, columns, &mut self.indexes, column);
    }

    /// The nearest integer that is sought and that a row has in a column, which was named to `new`. Takes no memory.
    ///
    /// It is told where `keep_order` was called for the column and memory was there.
    pub fn nearest_number(&self, column: u32, seek: Seek) -> NextNumber
        requires { In column self.now.columns }
        ensures { TellsNearestRow column seek self.now.rows result }
    {
        for (at, named) in self.columns.as_slice().iter().enumerate() {
            if column == *named {
                return self.indexes[at].nearest_number(seek);
            }
        }
        NextNumber::Untold
    }

    /// The row with a ticket; `None` exactly where there is none.
    #[inline]
    pub fn get(&self, ticket: u64) -> Option<&Row>
        ensures { option_copied result ≡ row_under ticket self.now.rows }
    {
        match self.store.get(ticket) {
            None => None,
            Some(row) => Some(row.row()),
        }
    }

    /// The same; near the place where the last one was found it takes a few steps.
    pub fn get_near(&self, ticket: u64, near: &mut Spot) -> Option<&Row>
        ensures { option_copied result ≡ row_under ticket self.now.rows }
    {
        match self.store.get_near(ticket, near) {
            None => None,
            Some(row) => Some(row.row()),
        }
    }
}

// Indexes of no rows, one for each column.
fn empty_indexes(alloc: Global, columns: &[u32]) -> Result<Vec<ValueIndex>, NoMemory>
    ensures { IfOk result (λ indexes. IsKept columns.now [] indexes.items) }
{
    let mut indexes = Vec::with_capacity(alloc, columns.len())?;
    for column in columns {
        indexes.push(ValueIndex::new(alloc))?;
    }
    Ok(indexes)
}

// Lets a row go that could not be stored.
fn no_memory_for(row: Shared) -> NoMemory {
    let _ = row;
    NoMemory
}

// Keeps the integers of a column in order, where it has an index.
fn keep_order_in(alloc: Global, columns: &[u32], indexes: &mut Vec<ValueIndex>, column: u32)
    requires { length indexes.old.items ≡ length columns.now }
    ensures { indexes.new.items ≡ indexes.old.items }
{
    for at in 0..columns.len() {
        if columns[at] == column {
            indexes[at].keep_order(alloc);
            return;
        }
    }
}

// Puts a row into each index, or into none.
fn add_to_all(
    alloc: Global,
    columns: &[u32],
    indexes: &mut Vec<ValueIndex>,
    ticket: u64,
    row: &Row,
) -> Result<(), NoMemory>
    requires count { length indexes.old.items ≡ length columns.now }
    requires wide { All (λ column. column < length row.now) columns.now }
    ensures ok { OnOk result (IndexesMore columns.now indexes.old.items indexes.new.items (stored ticket row.now)) }
    ensures err { OnErr result (IndexesSame columns.now indexes.old.items indexes.new.items ticket) }
{
    for at in 0..columns.len() {
        let value = row.at(columns[at] as usize);
        match indexes[at].add(alloc, value, ticket) {
            Ok(()) => {}
            Err(stop) => {
                take_from(columns, indexes, at, ticket, row);
                return Err(stop);
            }
        }
    }
    Ok(())
}

// Takes a row out of the first so many indexes.
fn take_from(columns: &[u32], indexes: &mut Vec<ValueIndex>, count: usize, ticket: u64, row: &Row)
    requires columns { count ≤ length columns.now }
    requires indexes { count ≤ length indexes.old.items }
    ensures fewer { IndexesFewer columns.now indexes.old.items indexes.new.items count (stored ticket row.now) }
    ensures others { SameBehind indexes.old.items indexes.new.items count }
    ensures long { length indexes.new.items ≡ length indexes.old.items }
{
    for at in 0..count {
        match row.get(columns[at] as usize) {
            None => {}
            Some(value) => indexes[at].take(value, ticket),
        }
    }
}
