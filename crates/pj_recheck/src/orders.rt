// The order of integers in columns in which rows are looked for by ranges.
ghost use Rattle.std.specs.Prelude.{◌≡◌};

use crate::routes::OrderRoute;
use pj_pattern::Punct;
use pj_rows::numbers_of;
use pj_shape::ClassCol;
use pj_state::State;

// Keeps the integers of a column of an input in order.
fn keep_order(row_states: &mut Vec<State>, at: ClassCol)
    ensures { row_states.new.items ≡ row_states.old.items }
{
    if (at.input as usize) < row_states.len() {
        row_states[at.input as usize].keep_order(at.column);
    }
}

// Whether the punctuation has a range of integers in a column.
fn has_range(punct: &Punct, column: u32) -> bool {
    (column as usize) < punct.len() && numbers_of(punct.at(column as usize)).is_some()
}

/// Keeps the integers in order of the columns in which rows are looked for by the ranges of a punctuation.
pub fn keep_orders(row_states: &mut Vec<State>, orders: &[OrderRoute], punct: &Punct)
    ensures { row_states.new.items ≡ row_states.old.items }
{
    for order in orders {
        if has_range(punct, order.column) {
            keep_order(row_states, order.at);
        }
    }
}
