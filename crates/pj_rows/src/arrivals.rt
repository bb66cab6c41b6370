// Tuples that have reached a join, with their tickets.
ghost use Rattle.std.specs.Prelude.{◌≡◌};

use pj_value::Row;
use std::marker::Model;

/// A tuple that has come, with its ticket and its input. Its row is lent.
#[derive(Drop)]
pub struct Arrived<'a> {
    ticket: u64,
    input: u32,
    row: &'a Row,
}

impl<'a> Model for Arrived<'a> {
    ghost use Rattle.pj_events.specs.Join.{TupleAt};

    ghost Value = { TupleAt };

    ghost view = { λ a. record { ticket = a.ticket; input = a.input; row = a.row.now } };
}

impl<'a> Arrived<'a> {
    /// A tuple with its ticket and its input.
    pub fn of(ticket: u64, input: u32, row: &'a Row) -> Arrived<'a>
        ensures { result ≡ record { ticket = ticket; input = input; row = row.now } }
    {
        Arrived { ticket, input, row }
    }

    /// Its ticket.
    pub fn ticket(&self) -> u64
        ensures { result ≡ self.now.ticket }
    {
        self.ticket
    }

    /// The input at which it came.
    pub fn input(&self) -> u32
        ensures { result ≡ self.now.input }
    {
        self.input
    }

    /// Its row.
    pub fn row(&self) -> &'a Row
        ensures { result.now ≡ self.now.row }
    {
        self.row
    }
}
