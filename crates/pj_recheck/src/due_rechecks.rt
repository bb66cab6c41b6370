// Where the rows are looked up that a punctuation marks.
ghost use Rattle.std.specs.Prelude.{◌≡◌, ◌||◌, ◌++◌, filter, slice_get, IfOk, OnOk, OnErr};
ghost use Rattle.pj_events.specs.Patterns.{is_wild};
ghost use Rattle.pj_state.specs.States.{stored, tickets_of};
ghost use Rattle.pj_value.specs.Lists.{In};
ghost use Rattle.pj_recheck.specs.Judging.{one_if};
ghost use Rattle.pj_rows.specs.Ranges.{HoldTrue};
ghost use Rattle.pj_recheck.specs.Watching.{AreMarked, IsFewer, is_wild_elsewhere, none_due};
ghost use Rattle.pj_rows.specs.Finding.{has_match, is_match};

use crate::marks::DueRechecks;
use pj_pattern::{Pattern, Punct};
use pj_rows::{numbers_of, tickets_among};
use pj_shape::Scheme;
use pj_state::State;
use pj_value::{List, NoMemory, Row};
use std::alloc::Global;

/// A column, and a pattern for it.
#[derive(Clone, Copy)]
pub struct Limit<'a> {
    pub column: u32,
    pub pattern: &'a Pattern,
}

impl DueRechecks {
    /// All rows are judged.
    pub fn new(alloc: Global) -> DueRechecks
        ensures { result ≡ none_due }
    {
        DueRechecks {
            from: 0,
            marked: List::new(alloc),
        }
    }

    /// All rows are judged.
    pub fn mark_all(&mut self)
        ensures { self.new.from ≡ 0 }
    {
        self.from = 0;
        self.marked.truncate(0);
    }

    /// The rows with these tickets are judged.
    pub fn mark(&mut self, tickets: &[u64]) -> Result<(), NoMemory>
        ensures from { self.new.from ≡ self.old.from }
        ensures ok { OnOk result (self.new.marked ≡ self.old.marked ++ tickets.now) }
        ensures err { OnErr result (self.new.marked ≡ self.old.marked) }
    {
        self.marked.append(tickets)
    }

    /// The rows with these tickets are judged; all where there is no memory to mark them.
    pub fn mark_or_all(&mut self, tickets: &[u64])
        ensures fewer { IsFewer self.old self.new }
        ensures marked { AreMarked tickets.now self.new }
    {
        match self.mark(tickets) {
            Ok(()) => {}
            Err(_) => self.mark_all(),
        }
    }
}

// Whether the pattern matches the row's value in a column.
fn has_match(row: &Row, column: u32, pattern: &Pattern) -> bool
    ensures { result ≡ is_match pattern.now (slice_get row.now column) }
{
    match row.get(column as usize) {
        None => false,
        Some(value) => pattern.matches(value),
    }
}

// Puts the ticket of the row at the end where the pattern matches its value in a column.
fn mark_match(
    ticket: u64,
    row: &Row,
    column: u32,
    pattern: &Pattern,
    marked: &mut List<u64>,
) -> Result<(), NoMemory>
    ensures ok { OnOk result (marked.new ≡ marked.old ++ one_if (has_match column pattern.now (stored ticket row.now)) ticket) }
    ensures err { OnErr result (marked.new ≡ marked.old) }
{
    if has_match(row, column, pattern) {
        marked.push(ticket)?;
    }
    Ok(())
}

// The tickets of the rows whose value in a column the pattern matches, where each is looked at.
fn walked_tickets(
    alloc: Global,
    state: &State,
    column: u32,
    pattern: &Pattern,
) -> Result<List<u64>, NoMemory>
    ensures { IfOk result (λ tickets. tickets ≡ tickets_of (filter (has_match column pattern.now) state.now.rows)) }
{
    let mut tickets = List::new(alloc);
    let mut rows = state.cursor();
    for at in 0..state.len() {
        let (ticket, row) = rows.nth(at);
        mark_match(ticket, row, column, pattern, &mut tickets)?;
    }
    Ok(tickets)
}

/// Tickets among which those of all rows are whose value in a column the pattern matches: by an order of the integers there
/// where the pattern is a range of them.
#[tactic(auto, using(pj_rows::proofs::Ranged::held_by, pj_rows::proofs::Ranged::held_among))]
pub fn matching_tickets(
    alloc: Global,
    state: &State,
    column: u32,
    pattern: &Pattern,
) -> Result<List<u64>, NoMemory>
    requires { In column state.now.columns }
    ensures { IfOk result (HoldTrue (has_match column pattern.now) state.now.rows) }
{
    match numbers_of(pattern) {
        None => walked_tickets(alloc, state, column, pattern),
        Some(numbers) => match tickets_among(alloc, state, column, numbers)? {
            None => walked_tickets(alloc, state, column, pattern),
            Some(tickets) => Ok(tickets),
        },
    }
}

// Whether the scheme marks the column, or the pattern is the wildcard.
fn is_marked_or_wild(mark: bool, pattern: &Pattern) -> bool
    ensures { result ≡ (mark || is_wild pattern.now) }
{
    mark || pattern.is_wild()
}

/// Whether the punctuation is a wildcard in each column that the scheme does not mark: else it covers no instance of it.
#[tactic(auto, using(crate::proofs::Elsewhere::elsewhere_length))]
pub fn is_wild_elsewhere(scheme: &Scheme, punct: &Punct) -> bool
    ensures { result ≡ is_wild_elsewhere scheme.now punct.now }
{
    if scheme.len() != punct.len() {
        return false;
    }
    for column in 0..punct.len() {
        let mark = *scheme.at(column);
        let pattern = punct.at(column);
        if !is_marked_or_wild(mark, pattern) {
            return false;
        }
    }
    true
}
