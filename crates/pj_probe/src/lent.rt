// Rows that are lent, and the candidates that a walk goes over.
ghost use Rattle.std.specs.Prelude.{◌≡◌, ◌<◌, List, ℕ, length};
ghost use Rattle.pj_value.specs.declared.values.Value.{Value as AnyValue};
ghost use Rattle.pj_probe.specs.Walks.{row_at};

use pj_state::Shared;
use pj_value::{List, Row};
use std::default::MadeWith;
use std::marker::Model;

/// A row that is lent, seen as the row.
#[derive(Drop)]
pub struct Lent<'a> {
    row: &'a Row,
}

impl<'a> Model for Lent<'a> {
    ghost use Rattle.std.specs.Prelude.{List};
    ghost use Rattle.pj_value.specs.declared.values.Value.{Value as AnyValue};

    ghost Value = { List AnyValue };

    ghost view = { λ l. l.row.now };
}

impl<'a> Lent<'a> {
    /// The row.
    #[inline(always)]
    pub fn of(row: &'a Row) -> Lent<'a>
        ensures { result ≡ row.now }
    {
        Lent { row }
    }

    /// The row itself.
    #[inline(always)]
    pub fn row(&self) -> &'a Row
        ensures { result.now ≡ self.now }
    {
        self.row
    }
}

// What stands in a place that is not used.
impl<'a> MadeWith<&'a Row> for Lent<'a> {
    fn made_with(row: &'a Row) -> Lent<'a> {
        Lent::of(row)
    }
}

/// The candidates of an input, each with its ticket.
pub trait Candidates {
    /// The rows with their tickets.
    ghost pairs: { Self → List (ℕ × List AnyValue) };

    /// How many there are.
    fn count(&self) -> usize
        ensures { result ≡ length (pairs self.now) };

    /// The row at a place, which is below their number.
    fn lend(&self, place: usize) -> Lent<'_>
        requires { place < length (pairs self.now) }
        ensures { result ≡ row_at (pairs self.now) place };
}

impl Candidates for List<(u64, Shared)> {
    ghost pairs = { λ side. side };

    fn count(&self) -> usize {
        self.len()
    }

    fn lend(&self, place: usize) -> Lent<'_> {
        Lent::of(self.as_slice()[place].1.row())
    }
}

impl<'a> Candidates for List<(u64, Lent<'a>)> {
    ghost pairs = { λ side. side };

    fn count(&self) -> usize {
        self.len()
    }

    fn lend(&self, place: usize) -> Lent<'_> {
        Lent::of(self.as_slice()[place].1.row())
    }
}
