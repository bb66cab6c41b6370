// What two patterns have in common.
ghost use Rattle.std.specs.Prelude.{◌≡◌, IfOk};
ghost use Rattle.pj_pattern.specs.Meets.{constant_if, earlier_high, later_low, matched, meet_of};
ghost use Rattle.pj_pattern.specs.Normal.{of_members, IsNormal};

use crate::forms::{copy_end, copy_form, form_matches};
use crate::normal::{members_form, range_form};
use crate::pattern::Form;
use pj_value::{List, NoMemory, Value};
use std::alloc::Global;

pub(crate) fn meet_forms(alloc: Global, one: &Form, other: &Form) -> Result<Form, NoMemory>
    requires one { IsNormal one.now }
    requires other { IsNormal other.now }
    ensures { IfOk result (λ f. f ≡ meet_of one.now other.now) }
{
    match one {
        Form::Wild => copy_form(alloc, other),
        Form::Empty => Ok(Form::Empty),
        Form::Constant(value) => constant_if(alloc, form_matches(other, value), value),
        Form::Range(low, high) => match other {
            Form::Wild => copy_form(alloc, one),
            Form::Empty => Ok(Form::Empty),
            Form::Constant(value) => constant_if(alloc, form_matches(one, value), value),
            Form::Range(from, to) => {
                let low = later_low(alloc, low, from)?;
                Ok(range_form(low, earlier_high(alloc, high, to)?))
            }
            Form::Members(values) => matched_form(alloc, one, values.as_slice()),
        },
        Form::Members(values) => matched_form(alloc, other, values.as_slice()),
    }
}

fn constant_if(alloc: Global, matches: bool, value: &Value) -> Result<Form, NoMemory>
    ensures { IfOk result (λ f. f ≡ constant_if matches value.now) }
{
    if matches {
        Ok(Form::Constant(value.copy(alloc)?))
    } else {
        Ok(Form::Empty)
    }
}

// The greater of two low ends.
fn later_low(
    alloc: Global,
    one: &Option<Value>,
    other: &Option<Value>,
) -> Result<Option<Value>, NoMemory>
    ensures { IfOk result (λ e. e ≡ later_low one.now other.now) }
{
    match (one, other) {
        (None, _) => copy_end(alloc, other),
        (Some(_), None) => copy_end(alloc, one),
        (Some(value), Some(limit)) => {
            if value.order(limit).is_gt() {
                copy_end(alloc, one)
            } else {
                copy_end(alloc, other)
            }
        }
    }
}

// The smaller of two high ends.
fn earlier_high(
    alloc: Global,
    one: &Option<Value>,
    other: &Option<Value>,
) -> Result<Option<Value>, NoMemory>
    ensures { IfOk result (λ e. e ≡ earlier_high one.now other.now) }
{
    match (one, other) {
        (None, _) => copy_end(alloc, other),
        (Some(_), None) => copy_end(alloc, one),
        (Some(value), Some(limit)) => {
            if value.order(limit).is_gt() {
                copy_end(alloc, other)
            } else {
                copy_end(alloc, one)
            }
        }
    }
}

fn matched_form(alloc: Global, form: &Form, values: &[Value]) -> Result<Form, NoMemory>
    requires { IsNormal form.now }
    ensures { IfOk result (λ f. f ≡ of_members (matched form.now values.now)) }
{
    Ok(members_form(matched_values(alloc, form, values)?))
}

// Those of the values that the pattern matches.
fn matched_values(alloc: Global, form: &Form, values: &[Value]) -> Result<List<Value>, NoMemory>
    requires { IsNormal form.now }
    ensures { IfOk result (λ l. l ≡ matched form.now values.now) }
{
    let mut kept = List::new(alloc);
    for value in values {
        if form_matches(form, value) {
            kept.push(value.copy(alloc)?)?;
        }
    }
    Ok(kept)
}
