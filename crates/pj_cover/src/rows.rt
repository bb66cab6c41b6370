// The stored rows of the inputs of a join, as another crate keeps them.
ghost use Rattle.std.specs.Prelude.{◌≡◌, ◌<◌, ℕ, IfSome, List, length, slice_get, Some};
ghost use Rattle.std.specs.Option.{option_copied};
ghost use Rattle.pj_value.specs.declared.values.Value.{Value as AnyValue};
ghost use Rattle.pj_cover.specs.Rising.{AreRisingRows, row_with, tickets_with};

use pj_value::{Row, Value};

/// Rows that are stored, for each input of a join with their tickets and in the order of these.
pub trait StoredRows {
    /// The rows of an input.
    ghost rows: { Self → ℕ → List (ℕ × List AnyValue) };

    /// How many rows of the input there are.
    fn count(&self, input: u32) -> usize
        ensures count { result ≡ length (rows self.now input) }
        ensures rising { AreRisingRows (rows self.now input) };

    /// The ticket and the row at a place, counted from 0 and below the count.
    fn nth(&self, input: u32, at: usize) -> (u64, &Row)
        requires { at < length (rows self.now input) }
        ensures { slice_get (rows self.now input) at ≡ Some (result.0, result.1.now) };

    /// The tickets of the rows of an input that have a value in a column, rising; `None` where no index tells.
    fn tickets_with(&self, input: u32, column: u32, value: &Value) -> Option<&[u64]>
        ensures tickets { IfSome result (λ tickets. tickets.now ≡ tickets_with column value.now (rows self.now input)) }
        ensures rising { IfSome result (λ tickets. AreRisingRows (rows self.now input)) };

    /// The row of an input with a ticket; `None` exactly where there is none.
    fn get(&self, input: u32, ticket: u64) -> Option<&Row>
        ensures { option_copied result ≡ row_with ticket (rows self.now input) };
}
