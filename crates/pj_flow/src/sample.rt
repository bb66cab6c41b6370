// Values that a punctuation matches.
ghost use Rattle.std.specs.Prelude.{◌≡◌, ◌++◌, ◌∷◌, [], true, false, IfSome};
ghost use Rattle.pj_events.specs.Patterns.{matches_value};
ghost use Rattle.pj_flow.specs.Stored.{IsSampleOf, TakesCell};

use pj_pattern::{Pattern, Punct, Shape};
use pj_puncts::Given;
use pj_shape::Scheme;
use pj_value::{List, Value};
use std::alloc::Global;

/// The columns of a punctuation without a wildcard, and for each of them a value that its pattern matches: where a
/// punctuation covers it, that one has a wildcard in each other column and matches these values.
#[derive(Drop)]
pub struct Sample<'a> {
    pub scheme: Scheme,
    pub values: Given<'a>,
}

/// A sample of a punctuation of so many columns; `None` where one of its patterns matches nothing, or memory is wanting.
pub fn sample_of<'a>(alloc: Global, arity: u32, punct: &'a Punct) -> Option<Sample<'a>>
    ensures { IfSome result (λ sample. IsSampleOf arity punct.now sample) }
{
    if punct.len() != arity as usize {
        return None;
    }
    let mut marks = List::new(alloc);
    let mut values = Given::new();
    for column in 0..punct.len() {
        if !take_cell(punct.at(column), &mut marks, &mut values) {
            return None;
        }
    }
    Some(Sample {
        scheme: Scheme::of(marks),
        values,
    })
}

// Takes the cell of one column more; or not.
fn take_cell<'a>(pattern: &'a Pattern, marks: &mut List<bool>, values: &mut Given<'a>) -> bool
    ensures { result ≡ true → TakesCell pattern.now marks.old values.old marks.new values.new }
{
    if pattern.is_wild() {
        return is_noted(marks, false);
    }
    if values.len() >= 120 {
        return false;
    }
    match value_in(pattern) {
        None => false,
        Some(value) => {
            values.push(value);
            is_noted(marks, true)
        }
    }
}

fn is_noted(marks: &mut List<bool>, mark: bool) -> bool
    ensures { result ≡ true → marks.new ≡ marks.old ++ mark ∷ [] }
{
    match marks.push(mark) {
        Ok(()) => true,
        Err(_) => false,
    }
}

// The greatest value in the pattern, where the pattern matches it.
fn value_in(pattern: &Pattern) -> Option<&Value>
    ensures { IfSome result (λ value. matches_value pattern.now value.now ≡ true) }
{
    match end_of(pattern) {
        None => None,
        Some(value) => {
            if pattern.matches(value) {
                Some(value)
            } else {
                None
            }
        }
    }
}

fn end_of(pattern: &Pattern) -> Option<&Value> {
    match pattern.shape() {
        Shape::Wild => None,
        Shape::Empty => None,
        Shape::Constant(value) => Some(value),
        Shape::Range(low, high) => high.or(low),
        Shape::Members(values) => values.last(),
    }
}
