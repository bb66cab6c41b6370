// The stored rows of all inputs, as a judge asks for them.
ghost use Rattle.std.specs.Prelude.{◌≡◌, ◌<◌, List, length};
ghost use Rattle.pj_rows.specs.Tuples.{row_pairs};

use pj_cover::StoredRows;
use pj_state::State;
use pj_value::{Row, Value};

/// The states of all inputs, lent.
#[derive(Drop)]
pub struct Inputs<'a> {
    pub row_states: &'a [State],
}

impl<'a> StoredRows for Inputs<'a> {
    ghost rows = { λ s. row_pairs s.row_states.now };

    fn count(&self, input: u32) -> usize {
        if input as usize >= self.row_states.len() {
            return 0;
        }
        self.row_states[input as usize].len()
    }

    fn nth(&self, input: u32, at: usize) -> (u64, &Row) {
        self.row_states[input as usize].nth(at)
    }

    fn tickets_with(&self, input: u32, column: u32, value: &Value) -> Option<&[u64]> {
        if input as usize >= self.row_states.len() {
            return None;
        }
        let state = &self.row_states[input as usize];
        if !state.is_indexed(column) {
            return None;
        }
        Some(state.tickets(column, value))
    }

    fn get(&self, input: u32, ticket: u64) -> Option<&Row> {
        if input as usize >= self.row_states.len() {
            return None;
        }
        self.row_states[input as usize].get(ticket)
    }
}
