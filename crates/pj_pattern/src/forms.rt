// Patterns by their forms.
ghost use Rattle.std.specs.Prelude.{◌≡◌, IfOk};
ghost use Rattle.pj_pattern.specs.Patterns.{all_of_kind, covers_high, covers_low, covers_pattern, covers_range, has_value, is_end_of_kind, is_from, is_of_kind, is_to, is_wild, matches_all, matches_value, same_kind, up_to};
ghost use Rattle.pj_pattern.specs.Normal.{IsNormal};

use crate::pattern::Form;
use pj_value::{Kind, NoMemory, Value, copy_values};
use std::alloc::Global;
use std::cmp::Ordering;

pub(crate) fn form_fits(form: &Form, kind: Kind) -> bool
    ensures { result ≡ is_of_kind kind form.now }
{
    match form {
        Form::Wild => true,
        Form::Empty => true,
        Form::Constant(value) => value.is_of(kind),
        Form::Range(low, high) => end_fits(low, kind) && end_fits(high, kind),
        Form::Members(values) => all_fit(values.as_slice(), kind),
    }
}

fn end_fits(end: &Option<Value>, kind: Kind) -> bool
    ensures { result ≡ is_end_of_kind kind end.now }
{
    match end {
        None => true,
        Some(value) => value.is_of(kind),
    }
}

fn all_fit(values: &[Value], kind: Kind) -> bool
    ensures { result ≡ all_of_kind kind values.now }
{
    for value in values {
        if !value.is_of(kind) {
            return false;
        }
    }
    true
}

pub(crate) fn form_matches(form: &Form, value: &Value) -> bool
    requires { IsNormal form.now }
    ensures { result ≡ matches_value form.now value.now }
{
    match form {
        Form::Wild => true,
        Form::Empty => false,
        Form::Constant(constant) => constant.same(value),
        Form::Range(low, high) => is_from(low, value) && is_to(high, value),
        Form::Members(members) => has_value(members.as_slice(), value),
    }
}

// Whether the value is not below this end.
fn is_from(low: &Option<Value>, value: &Value) -> bool
    ensures { result ≡ is_from low.now value.now }
{
    match low {
        None => true,
        Some(low) => is_up_to(low, value),
    }
}

// Whether the value is not above this end.
fn is_to(high: &Option<Value>, value: &Value) -> bool
    ensures { result ≡ is_to high.now value.now }
{
    match high {
        None => true,
        Some(high) => is_up_to(value, high),
    }
}

// Whether both are of one kind and the first is not above the second.
fn is_up_to(low: &Value, high: &Value) -> bool
    ensures { result ≡ up_to low.now high.now }
{
    match (low, high) {
        (Value::Int(low), Value::Int(high)) => !low.cmp(high).is_gt(),
        (Value::Int(_), Value::Text(_)) => false,
        (Value::Text(_), Value::Int(_)) => false,
        (Value::Text(low), Value::Text(high)) => !low.as_slice().cmp(high.as_slice()).is_gt(),
    }
}

// A binary search, since the members stand in order.
fn has_value(members: &[Value], value: &Value) -> bool
    requires { IsNormal (Form.Members members.now) }
    ensures { result ≡ has_value members.now value.now }
{
    members
        .binary_search_by(|member| member.order(value))
        .is_ok()
}

pub(crate) fn form_covers(form: &Form, other: &Form) -> bool
    requires form { IsNormal form.now }
    requires other { IsNormal other.now }
    ensures { result ≡ covers_pattern form.now other.now }
{
    match other {
        Form::Wild => form_is_wild(form),
        Form::Empty => true,
        Form::Constant(value) => form_matches(form, value),
        Form::Range(low, high) => covers_range(form, low, high),
        Form::Members(values) => covers_members(form, values.as_slice()),
    }
}

pub(crate) fn form_is_wild(form: &Form) -> bool
    ensures { result ≡ is_wild form.now }
{
    match form {
        Form::Wild => true,
        Form::Empty => false,
        Form::Constant(_) => false,
        Form::Range(_, _) => false,
        Form::Members(_) => false,
    }
}

fn covers_range(form: &Form, low: &Option<Value>, high: &Option<Value>) -> bool
    ensures { result ≡ covers_range form.now low.now high.now }
{
    match form {
        Form::Wild => true,
        Form::Empty => false,
        Form::Constant(_) => false,
        Form::Range(from, to) => covers_low(from, low) && covers_high(to, high),
        Form::Members(_) => false,
    }
}

// Whether a low end is no closer than another.
fn covers_low(low: &Option<Value>, other: &Option<Value>) -> bool
    ensures { result ≡ covers_low low.now other.now }
{
    match (low, other) {
        (None, _) => true,
        (Some(_), None) => false,
        (Some(low), Some(other)) => is_up_to(low, other),
    }
}

// Whether a high end is no closer than another.
fn covers_high(high: &Option<Value>, other: &Option<Value>) -> bool
    ensures { result ≡ covers_high high.now other.now }
{
    match (high, other) {
        (None, _) => true,
        (Some(_), None) => false,
        (Some(high), Some(other)) => is_up_to(other, high),
    }
}

fn covers_members(form: &Form, values: &[Value]) -> bool
    requires form { IsNormal form.now }
    requires values { IsNormal (Form.Members values.now) }
    ensures { result ≡ matches_all form.now values.now }
{
    match form {
        Form::Wild => matches_all(form, values),
        Form::Empty => matches_all(form, values),
        Form::Constant(_) => matches_all(form, values),
        Form::Range(_, _) => matches_all(form, values),
        Form::Members(members) => has_all(members.as_slice(), values),
    }
}

// Whether each of the values is a member: one walk over both, which stand in order.
#[tactic(auto, using(crate::proofs::Walking::none_left, crate::proofs::Walking::all_passed))]
fn has_all(members: &[Value], values: &[Value]) -> bool
    requires members { IsNormal (Form.Members members.now) }
    requires values { IsNormal (Form.Members values.now) }
    ensures { result ≡ matches_all (Form.Members members.now) values.now }
{
    let mut left = members;
    let mut rest = values;
    loop {
        match rest.split_first() {
            None => return true,
            Some((value, behind)) => match left.split_first() {
                None => return false,
                Some((member, others)) => match member.order(value) {
                    Ordering::Less => left = others,
                    Ordering::Equal => {
                        left = others;
                        rest = behind;
                    }
                    Ordering::Greater => return false,
                },
            },
        }
    }
}

fn matches_all(form: &Form, values: &[Value]) -> bool
    requires { IsNormal form.now }
    ensures { result ≡ matches_all form.now values.now }
{
    for value in values {
        if !form_matches(form, value) {
            return false;
        }
    }
    true
}

pub(crate) fn copy_form(alloc: Global, form: &Form) -> Result<Form, NoMemory>
    ensures { IfOk result (λ f. f ≡ form.now) }
{
    match form {
        Form::Wild => Ok(Form::Wild),
        Form::Empty => Ok(Form::Empty),
        Form::Constant(value) => Ok(Form::Constant(value.copy(alloc)?)),
        Form::Range(low, high) => {
            let low = copy_end(alloc, low)?;
            Ok(Form::Range(low, copy_end(alloc, high)?))
        }
        Form::Members(values) => Ok(Form::Members(copy_values(alloc, values.as_slice())?)),
    }
}

pub(crate) fn copy_end(alloc: Global, end: &Option<Value>) -> Result<Option<Value>, NoMemory>
    ensures { IfOk result (λ e. e ≡ end.now) }
{
    match end {
        None => Ok(None),
        Some(value) => Ok(Some(value.copy(alloc)?)),
    }
}
