// Rows that are found by a range of integers.
ghost use Rattle.std.specs.Prelude.{◌≡◌, ◌<◌, ◌++◌, ◌+ℤ◌, pos, OnOk, length, IsTrue, IfOk, IfSome};
ghost use Rattle.std.specs.Option.{option_copied};
ghost use Rattle.pj_value.specs.declared.values.Value.{Value as AnyValue};
ghost use Rattle.pj_value.specs.Lists.{In};
ghost use Rattle.pj_pattern.specs.declared.pattern.Form.TheVariants.{Range};
ghost use Rattle.pj_state.specs.States.{rows_with, tickets_of};
ghost use Rattle.pj_state.specs.Rising.{IsRising, itself};
ghost use Rattle.pj_rows.specs.Ranges.{HasAmong, HoldAll, IsPast, IsShort, MatchesAmong, NeedsAmong, TellsAmong, TellsAmongDown};
ghost use Rattle.pj_rows.specs.Finding.{IsFound};

use crate::finding::find_matching;
use pj_pattern::{Pattern, Punct, Shape};
use pj_state::{NextNumber, Seek, State};
use pj_value::{List, NoMemory, Value};
use std::alloc::Global;

/// The integers from one to another; an end that is missing is no bound.
#[derive(Clone, Copy)]
pub struct Numbers {
    pub low: Option<i64>,
    pub high: Option<i64>,
}

/// A column, and the integers that are looked for in it.
#[derive(Clone, Copy)]
pub struct Stretch {
    pub column: u32,
    pub numbers: Numbers,
}

// The integers between these ends; `None` where there are none but missing ones, or a text is one.
#[tactic(auto, using(crate::proofs::Ranged::up_matches, crate::proofs::Ranged::down_matches, crate::proofs::Ranged::both_match))]
fn numbers_between(low: Option<&Value>, high: Option<&Value>) -> Option<Numbers>
    ensures { IfSome result (MatchesAmong (Range (option_copied low.entry) (option_copied high.entry))) }
{
    match low {
        None => match high {
            None => None,
            Some(Value::Int(to)) => Some(Numbers {
                low: None,
                high: Some(*to),
            }),
            Some(Value::Text(_)) => None,
        },
        Some(Value::Int(from)) => match high {
            None => Some(Numbers {
                low: Some(*from),
                high: None,
            }),
            Some(Value::Int(to)) => Some(Numbers {
                low: Some(*from),
                high: Some(*to),
            }),
            Some(Value::Text(_)) => None,
        },
        Some(Value::Text(_)) => None,
    }
}

/// The integers that a pattern matches, where it is a range of them.
pub fn numbers_of(pattern: &Pattern) -> Option<Numbers>
    ensures { IfSome result (MatchesAmong pattern.now) }
{
    match pattern.shape() {
        Shape::Wild => None,
        Shape::Empty => None,
        Shape::Constant(_) => None,
        Shape::Range(low, high) => numbers_between(low, high),
        Shape::Members(_) => None,
    }
}

// Whether the integer is above the end.
fn is_above(number: i64, high: Option<i64>) -> bool
    ensures { IsTrue result → IsPast number high }
{
    match high {
        None => false,
        Some(to) => number > to,
    }
}

// The least of these integers that a row has in a column.
fn next_among(state: &State, column: u32, numbers: Numbers) -> NextNumber
    requires { In column state.now.columns }
    ensures { TellsAmong column numbers state.now.rows result }
{
    match state.nearest_number(column, Seek::AtLeast(numbers.low)) {
        NextNumber::Untold => NextNumber::Untold,
        NextNumber::Nothing => NextNumber::Nothing,
        NextNumber::At(number) => {
            if is_above(number, numbers.high) {
                NextNumber::Nothing
            } else {
                NextNumber::At(number)
            }
        }
    }
}

// Whether the integer is below the end.
fn is_below(number: i64, low: Option<i64>) -> bool
    ensures { IsTrue result → IsShort number low }
{
    match low {
        None => false,
        Some(from) => number < from,
    }
}

// The greatest of these integers that a row has in a column.
fn last_among(state: &State, column: u32, numbers: Numbers) -> NextNumber
    requires { In column state.now.columns }
    ensures { TellsAmongDown column numbers state.now.rows result }
{
    match state.nearest_number(column, Seek::AtMost(numbers.high)) {
        NextNumber::Untold => NextNumber::Untold,
        NextNumber::Nothing => NextNumber::Nothing,
        NextNumber::At(number) => {
            if is_below(number, numbers.low) {
                NextNumber::Nothing
            } else {
                NextNumber::At(number)
            }
        }
    }
}

// The integer before this one; `None` where it is the least.
fn before(number: i64) -> Option<i64>
    ensures { IfSome result (λ last. last +ℤ pos 1 ≡ number) }
{
    number.checked_sub(1)
}

// The integer behind this one; `None` where it is the greatest.
fn behind(number: i64) -> Option<i64>
    ensures { IfSome result (λ next. next ≡ number +ℤ pos 1) }
{
    number.checked_add(1)
}

// Puts the tickets of the rows that have this integer in a column at the end.
fn append_with(
    state: &State,
    column: u32,
    number: i64,
    tickets: &mut List<u64>,
) -> Result<(), NoMemory>
    requires { In column state.now.columns }
    ensures { OnOk result (tickets.new ≡ tickets.old ++ tickets_of (rows_with column (AnyValue.Int number) state.now.rows)) }
{
    tickets.append(state.tickets(column, &Value::Int(number)))
}

/// The tickets of the rows that have one of these integers in a column; `None` where no order of them is kept.
pub fn tickets_among(
    alloc: Global,
    state: &State,
    column: u32,
    numbers: Numbers,
) -> Result<Option<List<u64>>, NoMemory>
    requires { In column state.now.columns }
    ensures { IfOk result (λ told. IfSome told (HoldAll (HasAmong column numbers) state.now.rows)) }
{
    let mut tickets = List::new(alloc);
    let mut left = numbers;
    for _ in 0..state.len().saturating_add(1) {
        match next_among(state, column, left) {
            NextNumber::Untold => return Ok(None),
            NextNumber::Nothing => return Ok(Some(tickets)),
            NextNumber::At(number) => {
                append_with(state, column, number, &mut tickets)?;
                match behind(number) {
                    None => return Ok(None),
                    Some(next) => left.low = Some(next),
                }
            }
        }
    }
    Ok(None)
}

// The integers that the punctuation matches in a column, where that is indexed.
fn stretch_in(state: &State, punct: &Punct, column: usize) -> Option<Stretch>
    requires { column < length punct.now }
    ensures indexed { IfSome result (λ stretch. In stretch.column state.now.columns) }
    ensures needs { IfSome result (λ stretch. NeedsAmong punct.now stretch.column stretch.numbers) }
{
    if column > u32::MAX as usize {
        return None;
    }
    let number = column as u32;
    if !state.is_indexed(number) {
        return None;
    }
    match numbers_of(punct.at(column)) {
        None => None,
        Some(numbers) => Some(Stretch {
            column: number,
            numbers,
        }),
    }
}

/// The first column that is indexed and in which the punctuation has a range of integers.
pub fn first_stretch(state: &State, punct: &Punct) -> Option<Stretch>
    ensures indexed { IfSome result (λ stretch. In stretch.column state.now.columns) }
    ensures needs { IfSome result (λ stretch. NeedsAmong punct.now stretch.column stretch.numbers) }
{
    for column in 0..punct.len() {
        match stretch_in(state, punct, column) {
            Some(stretch) => return Some(stretch),
            None => {}
        }
    }
    None
}

// The ticket of a row with this integer in a column that stays and matches the punctuation.
fn find_with(state: &State, column: u32, number: i64, gone: &[u64], punct: &Punct) -> Option<u64>
    requires indexed { In column state.now.columns }
    requires rising { IsRising itself gone.now }
    ensures { IsFound (rows_with column (AnyValue.Int number) state.now.rows) gone.now punct.now result }
{
    let value = Value::Int(number);
    find_matching(&state.matching(column, &value), gone, punct)
}

/// The ticket of a row that stays and matches the punctuation, which needs one of these integers in the column; without
/// where no order of them is kept. Of a range with an upper end the greatest is found: where watermarks rise, that row stays
/// longest.
pub fn find_among(
    state: &State,
    gone: &[u64],
    punct: &Punct,
    stretch: Stretch,
) -> Option<Option<u64>>
    requires indexed { In stretch.column state.now.columns }
    requires needs { NeedsAmong punct.now stretch.column stretch.numbers }
    requires rising { IsRising itself gone.now }
    ensures { IfSome result (IsFound state.now.rows gone.now punct.now) }
{
    match stretch.numbers.high {
        None => find_upwards(state, gone, punct, stretch),
        Some(_) => find_downwards(state, gone, punct, stretch),
    }
}

// The same, from the greatest of the integers down.
fn find_downwards(
    state: &State,
    gone: &[u64],
    punct: &Punct,
    stretch: Stretch,
) -> Option<Option<u64>>
    requires indexed { In stretch.column state.now.columns }
    requires needs { NeedsAmong punct.now stretch.column stretch.numbers }
    requires rising { IsRising itself gone.now }
    ensures { IfSome result (IsFound state.now.rows gone.now punct.now) }
{
    let mut left = stretch.numbers;
    for _ in 0..state.len().saturating_add(1) {
        match last_among(state, stretch.column, left) {
            NextNumber::Untold => return None,
            NextNumber::Nothing => return Some(None),
            NextNumber::At(number) => {
                match find_with(state, stretch.column, number, gone, punct) {
                    Some(found) => return Some(Some(found)),
                    None => {}
                }
                match before(number) {
                    None => return None,
                    Some(last) => left.high = Some(last),
                }
            }
        }
    }
    None
}

// The same, from the least of the integers up.
fn find_upwards(state: &State, gone: &[u64], punct: &Punct, stretch: Stretch) -> Option<Option<u64>>
    requires indexed { In stretch.column state.now.columns }
    requires needs { NeedsAmong punct.now stretch.column stretch.numbers }
    requires rising { IsRising itself gone.now }
    ensures { IfSome result (IsFound state.now.rows gone.now punct.now) }
{
    let mut left = stretch.numbers;
    for _ in 0..state.len().saturating_add(1) {
        match next_among(state, stretch.column, left) {
            NextNumber::Untold => return None,
            NextNumber::Nothing => return Some(None),
            NextNumber::At(number) => {
                match find_with(state, stretch.column, number, gone, punct) {
                    Some(found) => return Some(Some(found)),
                    None => {}
                }
                match behind(number) {
                    None => return None,
                    Some(next) => left.low = Some(next),
                }
            }
        }
    }
    None
}
