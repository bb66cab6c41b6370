// One combination of rows, lent.
ghost use Rattle.std.specs.Prelude.{◌≡◌, ◌<◌, Some, length, slice_get, IfOk};
ghost use Rattle.std.specs.Option.{option_copied};
ghost use Rattle.pj_probe.specs.Walks.{end_to_end};

use crate::Lent;
use pj_value::{JoinedParts, NoMemory, Row, Value};
use std::alloc::Global;
use std::marker::Model;

/// One combination of rows, the first so many inputs' in order, seen as the list of these rows. It copies none of them.
#[derive(Drop)]
pub struct Joined<'a> {
    rows: &'a [Lent<'a>],
}

impl<'a> Model for Joined<'a> {
    ghost use Rattle.std.specs.Prelude.{List};
    ghost use Rattle.pj_value.specs.declared.values.Value.{Value as AnyValue};

    ghost Value = { List (List AnyValue) };

    ghost view = { λ j. j.rows.now };
}

impl<'a> Joined<'a> {
    /// The combination of these rows.
    pub(crate) fn of(rows: &'a [Lent<'a>]) -> Joined<'a>
        ensures { result ≡ rows.now }
    {
        Joined { rows }
    }

    /// How many inputs have a row here.
    pub fn parts(&self) -> usize
        ensures { result ≡ length self.now }
    {
        self.rows.len()
    }

    /// The row of an input, which is below the number of parts.
    pub fn part(&self, input: u32) -> &'a Row
        requires { input < length self.now }
        ensures { slice_get self.now input ≡ Some result.now }
    {
        self.nth(input as usize)
    }

    /// The same by an index.
    pub(crate) fn nth(&self, input: usize) -> &'a Row
        requires { input < length self.now }
        ensures { slice_get self.now input ≡ Some result.now }
    {
        row_in(self.rows, input)
    }

    /// The value in a column of the joined row, counted through all parts from 0; `None` exactly where the column is not
    /// below the number of its columns.
    pub fn get(&self, column: u32) -> Option<&'a Value>
        ensures { option_copied result ≡ slice_get (end_to_end self.now) column }
    {
        get_in(self.rows, column as usize)
    }

    /// The value in a column of the joined row, counted through all parts from 0, and below the number of its columns.
    pub fn value(&self, column: u32) -> &'a Value
        requires { column < length (end_to_end self.now) }
        ensures { slice_get (end_to_end self.now) column ≡ Some result.now }
    {
        self.get(column).unwrap()
    }

    /// The joined row, which shares the values of the parts.
    pub fn to_row(&self, alloc: Global) -> Result<Row, NoMemory>
        ensures { IfOk result (λ row. row ≡ end_to_end self.now) }
    {
        let count = self.parts();
        if count == 2 {
            let row = Row::pair(alloc, self.part(0), self.part(1))?;
            return Ok(row);
        }
        let mut values = JoinedParts::with_room(alloc, count)?;
        for input in 0..count {
            self.nth(input).join_to(alloc, &mut values)?;
        }
        Ok(Row::joined(values))
    }
}

// The row of an input.
fn row_in<'a>(rows: &'a [Lent<'a>], input: usize) -> &'a Row
    requires { input < length rows.now }
    ensures { slice_get rows.now input ≡ Some result.now }
{
    rows[input].row()
}

// The value in a column, counted through all rows.
fn get_in<'a>(rows: &'a [Lent<'a>], column: usize) -> Option<&'a Value>
    ensures { option_copied result ≡ slice_get (end_to_end rows.now) column }
{
    let mut left = column;
    for part in 0..rows.len() {
        let row = row_in(rows, part);
        if left < row.len() {
            return Some(row.at(left));
        }
        left -= row.len();
    }
    None
}
