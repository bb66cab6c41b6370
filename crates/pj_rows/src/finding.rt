// The stored rows of an input that match a punctuation.
ghost use Rattle.std.specs.Prelude.{◌≡◌, ◌<◌, length, IfSome};
ghost use Rattle.pj_events.specs.Join.{has};
ghost use Rattle.pj_state.specs.Rising.{IsRising, itself};
ghost use Rattle.pj_state.specs.States.{stored};
ghost use Rattle.pj_rows.specs.Finding.{IsFound, IsLookup, stays, AreSome};

use crate::lookups::Lookup;
use crate::ranges::{find_among, first_stretch};
use pj_pattern::Punct;
use pj_state::{Matching, State};
use pj_value::Row;

// Whether the ticket is one of those that go, which are in order.
fn is_gone(gone: &[u64], ticket: u64) -> bool
    requires { IsRising itself gone.now }
    ensures { result ≡ has gone.now ticket }
{
    let count = gone.len();
    if count == 0 {
        return false;
    }
    if gone[count - 1] < ticket {
        return false;
    }
    gone.binary_search(&ticket).is_ok()
}

// Whether the row matches the punctuation, and is not among those that go.
fn stays(gone: &[u64], ticket: u64, row: &Row, punct: &Punct) -> bool
    requires { IsRising itself gone.now }
    ensures { result ≡ stays gone.now punct.now (stored ticket row.now) }
{
    punct.matches(row) && !is_gone(gone, ticket)
}

// The constant of the punctuation in a column, where that is indexed.
fn lookup_in<'a>(state: &State, punct: &'a Punct, column: usize) -> Option<Lookup<'a>>
    requires { column < length punct.now }
    ensures { IfSome result (λ at. IsLookup state.now punct.now at.column at.value.now) }
{
    if column > u32::MAX as usize {
        return None;
    }
    let number = column as u32;
    if !state.is_indexed(number) {
        return None;
    }
    match punct.at(column).as_constant() {
        None => None,
        Some(value) => Some(Lookup {
            column: number,
            value,
        }),
    }
}

// The first column that is indexed and in which the punctuation has a constant.
fn lookup<'a>(state: &State, punct: &'a Punct) -> Option<Lookup<'a>>
    ensures { IfSome result (λ at. IsLookup state.now punct.now at.column at.value.now) }
{
    for column in 0..punct.len() {
        match lookup_in(state, punct, column) {
            Some(at) => return Some(at),
            None => {}
        }
    }
    None
}

/// The ticket of one of these rows that stays and matches the punctuation.
pub fn find_matching(among: &Matching<'_>, gone: &[u64], punct: &Punct) -> Option<u64>
    requires { IsRising itself gone.now }
    ensures { IsFound among.now gone.now punct.now result }
{
    for at in 0..among.len() {
        let (ticket, row) = among.nth(at);
        if stays(gone, ticket, row, punct) {
            return Some(ticket);
        }
    }
    None
}

// The ticket of a row that stays and matches the punctuation, where each is looked at.
fn find_among_all(state: &State, gone: &[u64], punct: &Punct) -> Option<u64>
    requires { IsRising itself gone.now }
    ensures { IsFound state.now.rows gone.now punct.now result }
{
    let mut rows = state.cursor();
    for at in 0..state.len() {
        let (ticket, row) = rows.nth(at);
        if stays(gone, ticket, row, punct) {
            return Some(ticket);
        }
    }
    None
}

// The same, where the rows are looked for by a range of integers, if an order of them is kept.
fn find_by_order(state: &State, gone: &[u64], punct: &Punct) -> Option<u64>
    requires { IsRising itself gone.now }
    ensures { IsFound state.now.rows gone.now punct.now result }
{
    match first_stretch(state, punct) {
        None => find_among_all(state, gone, punct),
        Some(stretch) => match find_among(state, gone, punct, stretch) {
            None => find_among_all(state, gone, punct),
            Some(found) => found,
        },
    }
}

/// The ticket of a row that stays and matches the punctuation: by an index where one tells.
pub fn find(state: &State, gone: &[u64], punct: &Punct) -> Option<u64>
    requires { IsRising itself gone.now }
    ensures { IsFound state.now.rows gone.now punct.now result }
{
    match lookup(state, punct) {
        None => find_by_order(state, gone, punct),
        Some(at) => find_matching(&state.matching(at.column, at.value), gone, punct),
    }
}

/// The same where the tickets are those of some of the rows: where as many go as there are, none stays.
pub fn find_left(state: &State, gone: &[u64], punct: &Punct) -> Option<u64>
    requires rising { IsRising itself gone.now }
    requires some { AreSome state.now.rows gone.now }
    ensures { IsFound state.now.rows gone.now punct.now result }
{
    if gone.len() == state.len() {
        return None;
    }
    find(state, gone, punct)
}
