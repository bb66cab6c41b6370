// The cells that punctuations are asked to cover: those of a row, or of an instance of a scheme.
ghost use Rattle.std.specs.Prelude.{◌≡◌, ◌<◌, ◌≤◌, List, Option, length, take, if◌then◌else◌};
ghost use Rattle.std.specs.Option.{option_copied};
ghost use Rattle.pj_value.specs.declared.values.Value.{Value as AnyValue};
ghost use Rattle.pj_events.specs.Patterns.{covers, is_wild};
ghost use Rattle.pj_puncts.specs.Givens.{cell_of, covers_cell, marked};
ghost use Rattle.pj_puncts.specs.Hashes.{cell_at, constants_of, hash_of, row_cells};
ghost use Rattle.pj_shape.specs.Instances.{instance_of};

use crate::Given;
use crate::hashes::with_cell;
use pj_pattern::{Pattern, Punct};
use pj_shape::Scheme;
use pj_value::{Row, Value};

/// Cells, each with a value or with none.
pub trait Cells {
    ghost cells: { Self → List (Option AnyValue) };

    /// How many cells there are.
    fn count(&self) -> usize
        ensures { result ≡ length (cells self.now) };

    /// The value of the cell of a column, counted from 0, where that is there and has one.
    fn cell(&self, column: usize) -> Option<&Value>
        ensures { option_copied result ≡ cell_at (cells self.now) column };

    /// The hash of the values in the marked columns.
    fn hash_value(&self, marks: &[bool]) -> u64
        ensures { result ≡ hash_of marks.now (cells self.now) };

    /// Whether the punctuation has a wildcard in each column without a value, and matches the value of each other one.
    fn are_covered_by(&self, punct: &Punct) -> bool
        ensures { result ≡ covers punct.now (cells self.now) };
}

/// An instance of a scheme with these constants, lent.
#[derive(Drop)]
pub struct Instance<'a, 'b> {
    pub scheme: &'a Scheme,
    pub given: &'a Given<'b>,
}

impl Cells for Row {
    ghost cells = { row_cells };

    #[tactic(auto, using(crate::proofs::Cellwise::row_count))]
    fn count(&self) -> usize {
        self.len()
    }

    #[tactic(auto, using(crate::proofs::Cellwise::row_cell_at))]
    fn cell(&self, column: usize) -> Option<&Value> {
        self.get(column)
    }

    fn hash_value(&self, marks: &[bool]) -> u64 {
        if marks.len() != self.len() {
            return 0;
        }
        let mut hash_value = 0;
        for column in 0..marks.len() {
            hash_value = with_cell(hash_value, marks[column], self.get(column));
        }
        hash_value
    }

    #[tactic(auto, using(crate::proofs::Cellwise::row_covered))]
    fn are_covered_by(&self, punct: &Punct) -> bool {
        punct.matches(self)
    }
}

impl<'a, 'b> Cells for Instance<'a, 'b> {
    ghost use Rattle.pj_shape.specs.Instances.{instance_of};

    ghost cells = { λ i. instance_of i.scheme.now i.given.now };

    #[tactic(auto, using(crate::proofs::Cellwise::instance_count))]
    fn count(&self) -> usize {
        self.scheme.len()
    }

    fn cell(&self, column: usize) -> Option<&Value> {
        instance_cell(self.scheme, self.given, column)
    }

    fn hash_value(&self, marks: &[bool]) -> u64 {
        instance_hash(marks, self.scheme, self.given)
    }

    fn are_covered_by(&self, punct: &Punct) -> bool {
        covers(punct.as_slice(), self.scheme, self.given)
    }
}

// The constant of a column, where that is marked.
fn instance_cell<'a>(scheme: &Scheme, given: &'a Given<'_>, column: usize) -> Option<&'a Value>
    ensures { option_copied result ≡ cell_at (instance_of scheme.now given.now) column }
{
    if column >= scheme.len() {
        return None;
    }
    if !*scheme.at(column) {
        return None;
    }
    given.get(marks_before(scheme, column))
}

// How many columns before this one are marked.
fn marks_before(scheme: &Scheme, column: usize) -> usize
    requires { column ≤ length scheme.now }
    ensures { result ≡ marked (take column scheme.now) }
{
    let mut count = 0;
    for at in 0..column {
        count += one_if(*scheme.at(at));
    }
    count
}

fn instance_hash(marks: &[bool], scheme: &Scheme, given: &Given<'_>) -> u64
    ensures { result ≡ hash_of marks.now (instance_of scheme.now given.now) }
{
    if marks.len() != scheme.len() {
        return 0;
    }
    let mut hash_value = 0;
    let mut taken = 0;
    for column in 0..marks.len() {
        let is_given = *scheme.at(column);
        let cell = cell_of(is_given, given.get(taken));
        hash_value = with_cell(hash_value, marks[column], cell);
        taken += one_if(is_given);
    }
    hash_value
}

// The cell of a column: the next constant where it is marked.
fn cell_of<'a>(is_marked: bool, constant: Option<&'a Value>) -> Option<&'a Value>
    ensures { option_copied result ≡ cell_of is_marked (option_copied constant.entry) }
{
    if is_marked { constant } else { None }
}

/// The hash of a punctuation's constants in the marked columns.
pub fn constants_hash(marks: &[bool], patterns: &[Pattern]) -> u64
    ensures { result ≡ hash_of marks.now (constants_of patterns.now) }
{
    if marks.len() != patterns.len() {
        return 0;
    }
    let mut hash_value = 0;
    for column in 0..marks.len() {
        hash_value = with_cell(hash_value, marks[column], patterns[column].as_constant());
    }
    hash_value
}

// Whether the patterns cover the instance of the scheme with these constants.
fn covers(patterns: &[Pattern], scheme: &Scheme, given: &Given<'_>) -> bool
    ensures { result ≡ covers patterns.now (instance_of scheme.now given.now) }
{
    if patterns.len() != scheme.len() {
        return false;
    }
    let mut taken = 0;
    for column in 0..patterns.len() {
        let is_marked = *scheme.at(column);
        if !covers_cell(&patterns[column], is_marked, given.get(taken)) {
            return false;
        }
        taken += one_if(is_marked);
    }
    true
}

fn one_if(test: bool) -> usize
    ensures { result ≡ (if test then 1 else 0) }
{
    if test { 1 } else { 0 }
}

/// Whether the pattern matches the constant of a marked column, or is a wildcard in another one.
pub fn covers_cell(pattern: &Pattern, is_marked: bool, constant: Option<&Value>) -> bool
    ensures { result ≡ covers_cell pattern.now (cell_of is_marked (option_copied constant.entry)) }
{
    if !is_marked {
        return pattern.is_wild();
    }
    match constant {
        None => pattern.is_wild(),
        Some(v) => pattern.matches(v),
    }
}
