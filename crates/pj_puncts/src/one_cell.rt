// Cells of which one has a value.
ghost use Rattle.std.specs.Prelude.{◌≡◌, ◌<◌, ◌+◌, true, IfSome, length, drop};
ghost use Rattle.std.specs.Option.{option_copied};
ghost use Rattle.pj_events.specs.Patterns.{covers};
ghost use Rattle.pj_puncts.specs.Givens.{first_marked, none_marked, one_cell, only_marked};
ghost use Rattle.pj_puncts.specs.Hashes.{cell_at, hash_of};

use crate::cells::{Cells, covers_cell};
use crate::hashes::with_cell;
use pj_pattern::{Pattern, Punct};
use pj_shape::Scheme;
use pj_value::Value;

/// So many cells, of which that of one column has a value.
#[derive(Drop)]
pub struct OneCell<'a> {
    pub count: usize,
    pub column: usize,
    pub value: &'a Value,
}

impl<'a> Cells for OneCell<'a> {
    ghost use Rattle.pj_puncts.specs.Givens.{one_cell};

    ghost cells = { λ o. one_cell o.count o.column o.value.now };

    #[tactic(auto, using(crate::proofs::SingleCell::one_length))]
    fn count(&self) -> usize {
        self.count
    }

    fn cell(&self, column: usize) -> Option<&Value> {
        value_at(self.count, self.column, self.value, column)
    }

    fn hash_value(&self, marks: &[bool]) -> u64 {
        hash_value(self.count, self.column, self.value, marks)
    }

    fn are_covered_by(&self, punct: &Punct) -> bool {
        are_covered(self.count, self.column, self.value, punct.as_slice())
    }
}

// The value of the cell of a column.
fn value_at(count: usize, column: usize, value: &Value, at: usize) -> Option<&Value>
    ensures { option_copied result ≡ cell_at (one_cell count column value.now) at }
{
    if at >= count {
        return None;
    }
    if at != column {
        return None;
    }
    Some(value)
}

fn hash_value(count: usize, column: usize, value: &Value, marks: &[bool]) -> u64
    ensures { result ≡ hash_of marks.now (one_cell count column value.now) }
{
    if marks.len() != count {
        return 0;
    }
    let mut hash_value = 0;
    for at in 0..marks.len() {
        hash_value = with_cell(hash_value, marks[at], value_at(count, column, value, at));
    }
    hash_value
}

fn are_covered(count: usize, column: usize, value: &Value, patterns: &[Pattern]) -> bool
    ensures { result ≡ covers patterns.now (one_cell count column value.now) }
{
    if patterns.len() != count {
        return false;
    }
    for at in 0..patterns.len() {
        if !covers_cell(&patterns[at], true, value_at(count, column, value, at)) {
            return false;
        }
    }
    true
}

/// The only marked column, where there is one.
pub fn only_mark(scheme: &Scheme) -> Option<usize>
    ensures { IfSome result (λ column. only_marked column scheme.now ≡ true) }
{
    let column = first_marked(scheme);
    if column >= scheme.len() {
        return None;
    }
    if !none_marked_from(scheme, column + 1) {
        return None;
    }
    Some(column)
}

// The first marked column, or the number of columns.
fn first_marked(scheme: &Scheme) -> usize
    ensures { result ≡ first_marked scheme.now }
{
    for column in 0..scheme.len() {
        if *scheme.at(column) {
            return column;
        }
    }
    scheme.len()
}

// Whether no column from this one on is marked.
fn none_marked_from(scheme: &Scheme, from: usize) -> bool
    requires { from < length scheme.now + 1 }
    ensures { result ≡ none_marked (drop from scheme.now) }
{
    for column in from..scheme.len() {
        if *scheme.at(column) {
            return false;
        }
    }
    true
}
