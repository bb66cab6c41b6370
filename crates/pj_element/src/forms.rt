// Patterns that cells spell.
ghost use Rattle.std.specs.Prelude.{◌≡◌, IfOk};
ghost use Rattle.pj_line.specs.declared.quote.Quote.TheVariants.{Outside};
ghost use Rattle.pj_pattern.specs.Patterns.{is_of_one_kind as of_one_kind};
ghost use Rattle.pj_element.specs.Forms.{both_ends, end_of, ends_from, form_of, members_of, parts_from, pattern_of, range_in, values_of};

use crate::places::{before_last, find_dots, part_len};
use crate::spelled::read_value;
use pj_pattern::{Form, Pattern};
use pj_value::{Kind, List, NoMemory, Value};
use std::alloc::Global;

/// What a cell spells: a pattern in normal form, a pattern with values of both kinds, or none.
#[derive(Drop)]
pub enum Spelled {
    Good(Pattern),
    Mixed,
    Not,
}

/// The pattern that the cell spells: `*`, `{}`, a value, a list `{v|v|..}`, or a range `[low..high]`, each end a value or
/// nothing. `Not` exactly where it spells none, `Mixed` exactly where it spells one with values of both kinds. `NoMemory`
/// comes only where memory could not be had.
pub fn read_pattern(alloc: Global, cell: &[u8]) -> Result<Spelled, NoMemory>
    ensures { IfOk result (λ spelled. spelled ≡ pattern_of cell.now) }
{
    match read_form(alloc, cell)? {
        Some(form) => {
            if is_of_one_kind(&form) {
                Ok(Spelled::Good(Pattern::of_form(alloc, form)?))
            } else {
                Ok(Spelled::Mixed)
            }
        }
        None => Ok(Spelled::Not),
    }
}

// Whether the values in the form are of one kind.
fn is_of_one_kind(form: &Form) -> bool
    ensures { result ≡ of_one_kind form.now }
{
    form.fits(Kind::Int) || form.fits(Kind::Text)
}

/// The pattern that the cell spells, not yet in normal form, or `None` exactly where it spells none.
pub fn read_form(alloc: Global, cell: &[u8]) -> Result<Option<Form>, NoMemory>
    ensures { IfOk result (λ form. form ≡ form_of cell.now) }
{
    match cell {
        [b'{', rest @ ..] => match before_last(rest, b'}') {
            Some(inner) => read_members(alloc, inner),
            None => Ok(None),
        },
        [b'[', rest @ ..] => match before_last(rest, b']') {
            Some(inner) => read_range(alloc, inner),
            None => Ok(None),
        },
        [b'*'] => Ok(Some(Form::Wild)),
        _ => match read_value(alloc, cell)? {
            Some(value) => Ok(Some(Form::Constant(value))),
            None => Ok(None),
        },
    }
}

// The list whose members stand between braces.
fn read_members(alloc: Global, inner: &[u8]) -> Result<Option<Form>, NoMemory>
    ensures { IfOk result (λ form. form ≡ members_of inner.now) }
{
    if inner.is_empty() {
        return Ok(Some(Form::Members(List::new(alloc))));
    }
    match read_values(alloc, inner)? {
        Some(values) => Ok(Some(Form::Members(values))),
        None => Ok(None),
    }
}

// The values that are parted by bars.
#[tactic(auto, using(crate::proofs::Splits::values_more, crate::proofs::Splits::values_none, crate::proofs::Splits::values_end))]
fn read_values(alloc: Global, bytes: &[u8]) -> Result<Option<List<Value>>, NoMemory>
    ensures { IfOk result (λ values. values ≡ values_of (parts_from Outside bytes.now)) }
{
    let mut values = List::new(alloc);
    let mut rest = bytes;
    loop {
        let (part, behind) = rest.split_at(part_len(rest));
        match read_value(alloc, part)? {
            Some(value) => values.push(value)?,
            None => return Ok(None),
        }
        match behind {
            [] => return Ok(Some(values)),
            [_, more @ ..] => rest = more,
        }
    }
}

// The range whose ends stand between brackets.
fn read_range(alloc: Global, inner: &[u8]) -> Result<Option<Form>, NoMemory>
    ensures { IfOk result (λ form. form ≡ range_in (ends_from Outside inner.now)) }
{
    match find_dots(inner) {
        Some(at) => {
            let (low, behind) = inner.split_at(at);
            let (_, high) = behind.split_at(2);
            read_ends(alloc, low, high)
        }
        None => Ok(None),
    }
}

// The range with these ends.
fn read_ends(alloc: Global, low: &[u8], high: &[u8]) -> Result<Option<Form>, NoMemory>
    ensures { IfOk result (λ form. form ≡ both_ends (end_of low.now) (end_of high.now)) }
{
    match read_end(alloc, low)? {
        Some(low) => match read_end(alloc, high)? {
            Some(high) => Ok(Some(Form::Range(low, high))),
            None => Ok(None),
        },
        None => Ok(None),
    }
}

// An end of a range: a value, or nothing.
fn read_end(alloc: Global, bytes: &[u8]) -> Result<Option<Option<Value>>, NoMemory>
    ensures { IfOk result (λ end. end ≡ end_of bytes.now) }
{
    if bytes.is_empty() {
        return Ok(Some(None));
    }
    match read_value(alloc, bytes)? {
        Some(value) => Ok(Some(Some(value))),
        None => Ok(None),
    }
}
