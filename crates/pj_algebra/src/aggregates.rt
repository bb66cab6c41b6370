// The aggregates of the rows of a group.
ghost use Rattle.std.specs.Prelude.{◌≡◌, IfOk};
ghost use Rattle.std.specs.Int.{saturate_signed, w64};
ghost use Rattle.pj_events.specs.Operators.{aggregate, column_of, greater, greatest_from, greatest_of, least_from, least_of, lesser, sum_of};
ghost use Rattle.pj_algebra.specs.Evaluating.{number_of};

use crate::passing::{cell, empty_text};
use pj_shape::Agg;
use pj_value::{List, NoMemory, Row, Value};
use std::alloc::Global;

/// The number of these rows; or the sum of a column, clamped to 64 bits, or its least or its greatest value; or `NoMemory`.
pub fn aggregate(alloc: Global, rows: &[Row], agg: Agg) -> Result<Value, NoMemory>
    ensures { IfOk result (λ value. value ≡ aggregate rows.now agg) }
{
    match agg {
        Agg::Count => Ok(Value::Int(rows.len() as i64)),
        Agg::Sum(column) => {
            let values = column_of(alloc, rows, column)?;
            Ok(Value::Int(clamped(sum(values.as_slice()))))
        }
        Agg::Min(column) => {
            let values = column_of(alloc, rows, column)?;
            Ok(least(alloc, values.as_slice())?)
        }
        Agg::Max(column) => {
            let values = column_of(alloc, rows, column)?;
            Ok(greatest(alloc, values.as_slice())?)
        }
    }
}

// The values in a column.
fn column_of(alloc: Global, rows: &[Row], column: u32) -> Result<List<Value>, NoMemory>
    ensures { IfOk result (λ values. values ≡ column_of column rows.now) }
{
    let mut values = List::with_room(alloc, rows.len())?;
    for row in rows {
        values.push(cell(alloc, row, column)?)?;
    }
    Ok(values)
}

// The exact sum of these values.
fn sum(values: &[Value]) -> i128
    ensures { result ≡ sum_of values.now }
{
    let mut sum = 0;
    for value in values {
        sum += i128::from(number_of(value));
    }
    sum
}

// The integer; a text counts as 0.
fn number_of(value: &Value) -> i64
    ensures { result ≡ number_of value.now }
{
    match value {
        Value::Int(number) => *number,
        Value::Text(_) => 0,
    }
}

// The nearest number of 64 bits.
fn clamped(sum: i128) -> i64
    ensures { result ≡ saturate_signed w64 sum }
{
    if sum > i128::from(i64::MAX) {
        i64::MAX
    } else if sum < i128::from(i64::MIN) {
        i64::MIN
    } else {
        sum as i64
    }
}

// The least of these values; the empty text where there is none.
fn least(alloc: Global, values: &[Value]) -> Result<Value, NoMemory>
    ensures { IfOk result (λ value. value ≡ least_of values.now) }
{
    match values.split_first() {
        None => Ok(empty_text(alloc)?),
        Some((first, others)) => Ok(least_from(first, others).copy(alloc)?),
    }
}

fn least_from<'a>(first: &'a Value, others: &'a [Value]) -> &'a Value
    ensures { result.now ≡ least_from first.now others.now }
{
    let mut least = first;
    for value in others {
        least = lesser(least, value);
    }
    least
}

fn lesser<'a>(value: &'a Value, other: &'a Value) -> &'a Value
    ensures { result.now ≡ lesser value.now other.now }
{
    if value.order(other).is_gt() {
        other
    } else {
        value
    }
}

// The greatest of these values; the empty text where there is none.
fn greatest(alloc: Global, values: &[Value]) -> Result<Value, NoMemory>
    ensures { IfOk result (λ value. value ≡ greatest_of values.now) }
{
    match values.split_first() {
        None => Ok(empty_text(alloc)?),
        Some((first, others)) => Ok(greatest_from(first, others).copy(alloc)?),
    }
}

fn greatest_from<'a>(first: &'a Value, others: &'a [Value]) -> &'a Value
    ensures { result.now ≡ greatest_from first.now others.now }
{
    let mut greatest = first;
    for value in others {
        greatest = greater(greatest, value);
    }
    greatest
}

fn greater<'a>(value: &'a Value, other: &'a Value) -> &'a Value
    ensures { result.now ≡ greater value.now other.now }
{
    if value.order(other).is_gt() {
        value
    } else {
        other
    }
}
