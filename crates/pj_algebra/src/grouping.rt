// Groups of complete lists.
ghost use Rattle.std.specs.Prelude.{◌≡◌, [], map, IfOk, OnOk};
ghost use Rattle.std.specs.List.{list_any};
ghost use Rattle.pj_value.specs.Values.{row_eq};
ghost use Rattle.pj_events.specs.Operators.{aggregate, group_row, group_rows, keys_from};
ghost use Rattle.pj_events.specs.Tables.{rows_with_key};
ghost use Rattle.pj_algebra.specs.Evaluating.{with_key};

use crate::aggregates::aggregate;
use crate::passing::picked;
use pj_shape::{Agg, GroupSpec};
use pj_value::{List, NoMemory, Row};
use std::alloc::Global;

/// A row for each distinct key, in the order of the keys' first rows: the key, and behind it the aggregates of its rows; or
/// `NoMemory`. It goes over all rows for each key.
pub fn grouped(alloc: Global, spec: &GroupSpec, rows: &[Row]) -> Result<List<Row>, NoMemory>
    ensures { IfOk result (λ made. made ≡ group_rows spec.now rows.now) }
{
    let keys = keys_of(alloc, spec, rows)?;
    Ok(rows_of_keys(alloc, spec, rows, keys.as_slice())?)
}

// The row of each of these keys.
fn rows_of_keys(
    alloc: Global,
    spec: &GroupSpec,
    rows: &[Row],
    keys: &[Row],
) -> Result<List<Row>, NoMemory>
    ensures { IfOk result (λ made. made ≡ map (group_row spec.now rows.now) keys.now) }
{
    let mut made = List::with_room(alloc, keys.len())?;
    for key in keys {
        made.push(group_row(alloc, spec, rows, key)?)?;
    }
    Ok(made)
}

// The distinct keys, in the order of their first rows.
fn keys_of(alloc: Global, spec: &GroupSpec, rows: &[Row]) -> Result<List<Row>, NoMemory>
    ensures { IfOk result (λ keys. keys ≡ keys_from [] spec.now rows.now) }
{
    let mut keys = List::new(alloc);
    for row in rows {
        let key = picked(alloc, spec.keys.as_slice(), row)?;
        add_key(key, &mut keys)?;
    }
    Ok(keys)
}

// Puts the key at the end, where it is not there yet.
fn add_key(key: Row, keys: &mut List<Row>) -> Result<(), NoMemory>
    ensures { OnOk result (keys.new ≡ with_key keys.old key) }
{
    if !has_key(keys.as_slice(), &key) {
        keys.push(key)?;
    }
    Ok(())
}

fn has_key(keys: &[Row], key: &Row) -> bool
    ensures { result ≡ list_any (row_eq key.now) keys.now }
{
    keys.iter().any(|other| same_row(key, other))
}

fn same_row(row: &Row, other: &Row) -> bool
    ensures { result ≡ row_eq row.now other.now }
{
    row.same(other)
}

// The row of a key.
fn group_row(alloc: Global, spec: &GroupSpec, rows: &[Row], key: &Row) -> Result<Row, NoMemory>
    ensures { IfOk result (λ row. row ≡ group_row spec.now rows.now key.now) }
{
    let own = rows_with_key(alloc, spec, rows, key)?;
    let values = aggregates(alloc, spec.aggs.as_slice(), own.as_slice())?;
    Ok(Row::pair(alloc, key, &values)?)
}

// The rows that have this key, in order.
fn rows_with_key(
    alloc: Global,
    spec: &GroupSpec,
    rows: &[Row],
    key: &Row,
) -> Result<List<Row>, NoMemory>
    ensures { IfOk result (λ own. own ≡ rows_with_key spec.now rows.now key.now) }
{
    let mut own = List::new(alloc);
    for row in rows {
        let other = picked(alloc, spec.keys.as_slice(), row)?;
        if same_row(key, &other) {
            own.push(row.copy(alloc)?)?;
        }
    }
    Ok(own)
}

// The aggregates of these rows.
fn aggregates(alloc: Global, aggs: &[Agg], rows: &[Row]) -> Result<Row, NoMemory>
    ensures { IfOk result (λ row. row ≡ map (aggregate rows.now) aggs.now) }
{
    let mut values = List::with_room(alloc, aggs.len())?;
    for agg in aggs {
        values.push(aggregate(alloc, rows, *agg)?)?;
    }
    Ok(Row::of(values))
}
