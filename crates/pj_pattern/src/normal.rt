// Patterns in normal form, made of ends and of lists.
ghost use Rattle.std.specs.Prelude.{◌≡◌, IfOk, OnOk};
ghost use Rattle.std.specs.List.{dedup};
ghost use Rattle.std.specs.List.Sorted.{IsPermutation, IsSorted};
ghost use Rattle.pj_value.specs.Values.{value_cmp, value_eq};
ghost use Rattle.pj_pattern.specs.Normal.{between, from_low, greatest_of, high_end, least_of, low_end, normal_of, of_ends, of_members};

use crate::pattern::Form;
use pj_value::{List, NoMemory, Value};
use std::cmp::Ordering;

/// The normal form of a range.
pub(crate) fn range_form(low: Option<Value>, high: Option<Value>) -> Form
    ensures { result ≡ normal_of (Form.Range low high) }
{
    match (low, high) {
        (None, None) => Form::Wild,
        (None, Some(high)) => up_to_high(high),
        (Some(low), None) => up_from_low(low),
        (Some(low), Some(high)) => from_to(low, high),
    }
}

fn up_to_high(high: Value) -> Form
    ensures { result ≡ between (least_of high) high }
{
    match high {
        Value::Int(number) => from_to(Value::Int(i64::MIN), Value::Int(number)),
        Value::Text(text) => {
            if text.len() == 0 {
                Form::Constant(Value::Text(text))
            } else {
                Form::Range(None, Some(Value::Text(text)))
            }
        }
    }
}

fn up_from_low(low: Value) -> Form
    ensures { result ≡ from_low low (greatest_of low) }
{
    match low {
        Value::Int(number) => from_to(Value::Int(number), Value::Int(i64::MAX)),
        Value::Text(text) => of_ends(low_end(Value::Text(text)), None),
    }
}

fn from_to(low: Value, high: Value) -> Form
    ensures { result ≡ between low high }
{
    match low.order(&high) {
        Ordering::Less => of_ends(low_end(low), high_end(high)),
        Ordering::Equal => Form::Constant(low),
        Ordering::Greater => Form::Empty,
    }
}

fn of_ends(low: Option<Value>, high: Option<Value>) -> Form
    ensures { result ≡ of_ends low high }
{
    match (low, high) {
        (None, None) => Form::Wild,
        (None, Some(high)) => Form::Range(None, Some(high)),
        (Some(low), high) => Form::Range(Some(low), high),
    }
}

fn low_end(value: Value) -> Option<Value>
    ensures { result ≡ low_end value }
{
    if is_least(&value) { None } else { Some(value) }
}

fn is_least(value: &Value) -> bool
    ensures { result ≡ value_eq value.now (least_of value.now) }
{
    match value {
        Value::Int(number) => *number == i64::MIN,
        Value::Text(text) => text.as_slice() == b"".as_slice(),
    }
}

fn high_end(value: Value) -> Option<Value>
    ensures { result ≡ high_end value }
{
    match value {
        Value::Int(number) => {
            if number == i64::MAX {
                None
            } else {
                Some(Value::Int(number))
            }
        }
        Value::Text(text) => Some(Value::Text(text)),
    }
}

/// The values in order.
pub(crate) fn sort_values(values: &mut Vec<Value>) -> Result<(), NoMemory>
    ensures same { IsPermutation values.old.items values.new.items }
    ensures sorted { OnOk result (IsSorted value_cmp values.new.items) }
{
    values.sort_by(|one, other| one.order(other))?;
    Ok(())
}

/// Each value goes that is the same as the one before it.
pub(crate) fn drop_repeats(values: &mut Vec<Value>)
    ensures { values.new.items ≡ dedup value_eq values.old.items }
{
    values.dedup_by(|value, kept| value.same(kept));
}

/// The pattern of members that stand in order, each once.
pub(crate) fn members_form(members: List<Value>) -> Form
    ensures { result ≡ of_members members }
{
    if members.len() > 1 {
        return Form::Members(members);
    }
    match members.into_vec().pop() {
        None => Form::Empty,
        Some(only) => Form::Constant(only),
    }
}
