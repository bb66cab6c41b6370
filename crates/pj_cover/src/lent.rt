// Rows that are lent, and what links read of them.
ghost use Rattle.std.specs.Prelude.{◌≡◌, ◌<◌, ◌≤◌, ◌++◌, ◌∷◌, [], IfSome, length, slice_get};
ghost use Rattle.std.specs.Option.{option_copied};
ghost use Rattle.pj_cover.specs.Routes.{AreThere, HasKey, IsThere, cell_from, marked_values, match_all, matches, value_from};

use crate::route::{PurgeLink, Source};
use pj_puncts::Given;
use pj_shape::same_cells;
use pj_value::{Row, Value};
use std::marker::Model;

/// A row with its ticket and its input, lent.
#[derive(Drop)]
pub struct Lent<'a> {
    ticket: u64,
    input: u32,
    row: Option<&'a Row>,
}

impl<'a> Model for Lent<'a> {
    ghost use Rattle.std.specs.Option.{option_copied};
    ghost use Rattle.pj_events.specs.Join.{TupleAt};
    ghost use Rattle.pj_value.specs.Options.{row_there};

    ghost Value = { TupleAt };

    ghost view = { λ l. record { ticket = l.ticket; input = l.input; row = row_there (option_copied l.row) } };
}

impl<'a> Default for Lent<'a> {
    fn default() -> Lent<'a> {
        Lent {
            ticket: 0,
            input: 0,
            row: None,
        }
    }
}

impl<'a> Lent<'a> {
    pub fn of(ticket: u64, input: u32, row: &'a Row) -> Lent<'a>
        ensures { result ≡ record { ticket = ticket; input = input; row = row.now } }
    {
        Lent {
            ticket,
            input,
            row: Some(row),
        }
    }

    // Its value in a column.
    fn get(&self, column: u32) -> Option<&'a Value>
        ensures { option_copied result ≡ slice_get self.now.row column }
    {
        match self.row {
            None => None,
            Some(row) => row.get(column as usize),
        }
    }
}

// The cell that a link leads from.
fn cell_from<'a>(parts: &[Lent<'a>], from: Source) -> Option<&'a Value>
    ensures { option_copied result ≡ cell_from parts.now from }
{
    match parts.get(from.place) {
        None => None,
        Some(part) => part.get(from.column),
    }
}

/// The value there.
pub fn value_from<'a>(parts: &[Lent<'a>], link: PurgeLink) -> &'a Value
    requires { IsThere parts.now link }
    ensures { result.now ≡ value_from parts.now link }
{
    match cell_from(parts, link.from) {
        None => unreachable!(),
        Some(value) => value,
    }
}

#[inline(always)]
fn matches<'a>(parts: &[Lent<'a>], next: &Lent<'a>, link: PurgeLink) -> bool
    ensures { result ≡ matches parts.now next.now link }
{
    same_cells(next.get(link.column), cell_from(parts, link.from))
}

/// Whether the row has the values that these links lead to.
pub fn match_all<'a>(links: &[PurgeLink], parts: &[Lent<'a>], next: &Lent<'a>) -> bool
    ensures { result ≡ match_all links.now parts.now next.now }
{
    links.iter().all(|link| matches(parts, next, *link))
}

/// A column, and the value that each row has in it that joins with others.
#[derive(Clone, Copy)]
pub struct PartnerKey<'a> {
    pub column: u32,
    pub value: &'a Value,
}

/// What the first link leads to, where there is one.
pub fn key_of<'a>(links: &[PurgeLink], parts: &[Lent<'a>]) -> Option<PartnerKey<'a>>
    ensures { IfSome result (λ key. HasKey links.now parts.now key.column key.value.now) }
{
    match links.get(0) {
        None => None,
        Some(link) => match cell_from(parts, link.from) {
            None => None,
            Some(value) => Some(PartnerKey {
                column: link.column,
                value,
            }),
        },
    }
}

// Lends the value that a link leads to, where its column is marked.
fn lend_value<'a>(link: PurgeLink, parts: &[Lent<'a>], given: &mut Given<'a>)
    requires room { length given.old < 120 }
    requires there { IsThere parts.now link }
    ensures { given.new ≡ given.old ++ marked_values (link ∷ []) parts.now }
{
    if link.is_marked {
        given.push(value_from(parts, link));
    }
}

/// Lends the values that the links of marked columns lead to.
pub fn lend_values<'a>(links: &[PurgeLink], parts: &[Lent<'a>], given: &mut Given<'a>)
    requires empty { given.old ≡ [] }
    requires few { length links.now ≤ 120 }
    requires there { AreThere parts.now links.now }
    ensures { given.new ≡ marked_values links.now parts.now }
{
    for link in links {
        lend_value(*link, parts, given);
    }
}
