// The states of aggregates.
ghost use Rattle.std.specs.Prelude.{◌≡◌, ◌+◌, ◌<◌, ◌^◌, IfOk, length};
ghost use Rattle.std.specs.Option.{option_copied};
ghost use Rattle.std.specs.Int.{saturate_signed, w64};
ghost use Rattle.pj_group.specs.Insides.{IsBounded};
ghost use Rattle.pj_group.specs.Steps.{IsInRange, first_tally, greater_with, lesser_with, next_tally, number_of, sum_with};
ghost use Rattle.pj_events.specs.Tables.{Total, value_of};

use pj_flow::cell;
use pj_shape::Agg;
use pj_value::{NoMemory, Row, Value};
use std::alloc::Global;
use std::marker::Model;

/// The state of an aggregate of the rows that came: how many they are, their exact sum, or the least or the greatest value.
#[derive(Drop)]
pub struct Tally {
    state: State,
}

#[derive(Drop)]
enum State {
    Rows(u64),
    Total(i128),
    Least(Value),
    Greatest(Value),
}

impl Model for Tally {
    ghost use Rattle.pj_group.specs.States.{tally_in};
    ghost use Rattle.pj_events.specs.Tables.{Tally as KeptTally};

    ghost Value = { KeptTally };

    ghost view = { λ t. tally_in t.state };
}

impl Tally {
    /// The state after one row.
    pub fn first(alloc: Global, agg: Agg, row: &Row) -> Result<Tally, NoMemory>
        requires { IsInRange (length row.now) agg }
        ensures is { IfOk result (λ tally. tally ≡ first_tally row.now agg) }
        ensures bounded { IfOk result (IsBounded 1) }
    {
        let state = match agg {
            Agg::Count => State::Rows(1),
            Agg::Sum(column) => State::Total(i128::from(number_of(cell(row, column)))),
            Agg::Min(column) => State::Least(cell(row, column).copy(alloc)?),
            Agg::Max(column) => State::Greatest(cell(row, column).copy(alloc)?),
        };
        Ok(Tally { state })
    }

    /// The state after one row more, of which this value is read; so many came before.
    pub fn next(&self, alloc: Global, count: u64, cell: Option<&Value>) -> Result<Tally, NoMemory>
        requires few { count < 2 ^ 40 }
        requires bounded { IsBounded count self.now }
        ensures is { IfOk result (λ tally. tally ≡ next_tally self.now (option_copied cell.entry)) }
        ensures bounded { IfOk result (IsBounded (count + 1)) }
    {
        let state = match &self.state {
            State::Rows(rows) => State::Rows(*rows + 1),
            State::Total(sum) => State::Total(with_number(*sum, count, cell)),
            State::Least(value) => State::Least(lesser(alloc, value, cell)?),
            State::Greatest(value) => State::Greatest(greater(alloc, value, cell)?),
        };
        Ok(Tally { state })
    }

    /// What the aggregate comes to: a sum is clamped to 64 bits.
    pub fn value(&self, alloc: Global) -> Result<Value, NoMemory>
        requires { IsBounded (2 ^ 40) self.now }
        ensures { IfOk result (λ value. value ≡ value_of self.now) }
    {
        match &self.state {
            State::Rows(rows) => Ok(Value::Int(*rows as i64)),
            State::Total(sum) => Ok(Value::Int(clamped(*sum))),
            State::Least(value) => value.copy(alloc),
            State::Greatest(value) => value.copy(alloc),
        }
    }
}

// A sum with the value that is read, where so many values came before.
fn with_number(sum: i128, count: u64, cell: Option<&Value>) -> i128
    requires few { count < 2 ^ 40 }
    requires bounded { IsBounded count (Total sum) }
    ensures is { result ≡ sum_with sum (option_copied cell.entry) }
    ensures bounded { IsBounded (count + 1) (Total result) }
{
    match cell {
        None => sum,
        Some(value) => sum + i128::from(number_of(value)),
    }
}

fn number_of(value: &Value) -> i64
    ensures { result ≡ number_of value.now }
{
    match value {
        Value::Int(number) => *number,
        Value::Text(_) => 0,
    }
}

fn lesser(alloc: Global, value: &Value, cell: Option<&Value>) -> Result<Value, NoMemory>
    ensures { IfOk result (λ least. least ≡ lesser_with value.now (option_copied cell.entry)) }
{
    match cell {
        None => value.copy(alloc),
        Some(other) => {
            if value.order(other).is_gt() {
                other.copy(alloc)
            } else {
                value.copy(alloc)
            }
        }
    }
}

fn greater(alloc: Global, value: &Value, cell: Option<&Value>) -> Result<Value, NoMemory>
    ensures { IfOk result (λ greatest. greatest ≡ greater_with value.now (option_copied cell.entry)) }
{
    match cell {
        None => value.copy(alloc),
        Some(other) => {
            if value.order(other).is_gt() {
                value.copy(alloc)
            } else {
                other.copy(alloc)
            }
        }
    }
}

// The nearest number of 64 bits.
fn clamped(sum: i128) -> i64
    ensures { result ≡ saturate_signed w64 sum }
{
    if sum > i128::from(i64::MAX) {
        i64::MAX
    } else if sum < i128::from(i64::MIN) {
        i64::MIN
    } else {
        sum as i64
    }
}
