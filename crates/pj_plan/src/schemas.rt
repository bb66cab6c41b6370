// The columns of the node that a statement declares.
ghost use Rattle.std.specs.Prelude.{◌≡◌, ◌++◌, IfOk, OnOk, map, flat_map};
ghost use Rattle.pj_plan.specs.Made.{result_schema as result_of, schema_of as schema, first_schema as first, stream_column, renamed_column, key_column, agg_column, agg_kind as kind_of_agg};

use crate::names::{column_kind, schema_of};
use crate::{AggWord, ColumnWord, Draft, NamedAgg, PlanNode, Renamed, Statement};
use pj_shape::Column;
use pj_value::{Bytes, Kind, List, NoMemory, TryClone, copy_items};
use std::alloc::Global;

/// The columns of the node that the statement declares; none where it declares no node.
pub(crate) fn result_schema(
    alloc: Global,
    draft: &Draft,
    statement: &Statement,
) -> Result<List<Column>, NoMemory>
    ensures { IfOk result (λ columns. columns ≡ result_of draft.now statement.now) }
{
    let nodes = draft.nodes.as_slice();
    match statement {
        Statement::Plan { .. } => Ok(List::new(alloc)),
        Statement::Stream { columns, .. } => stream_schema(alloc, columns.as_slice()),
        Statement::Scheme { .. } => Ok(List::new(alloc)),
        Statement::Select { input, .. } => copy_items(alloc, schema_of(nodes, input.as_slice())),
        Statement::Project { input, columns, .. } => renamed_schema(
            alloc,
            schema_of(nodes, input.as_slice()),
            columns.as_slice(),
        ),
        Statement::Union { inputs, .. } => first_schema(alloc, nodes, inputs.as_slice()),
        Statement::Join { inputs, .. } => joined_schema(alloc, nodes, inputs.as_slice()),
        Statement::Group {
            input,
            keys,
            aggs,
            ..
        } => group_schema(
            alloc,
            schema_of(nodes, input.as_slice()),
            keys.as_slice(),
            aggs.as_slice(),
        ),
        Statement::Output { .. } => Ok(List::new(alloc)),
        Statement::Bad(_) => Ok(List::new(alloc)),
    }
}

fn stream_schema(alloc: Global, words: &[ColumnWord]) -> Result<List<Column>, NoMemory>
    ensures { IfOk result (λ columns. columns ≡ map stream_column words.now) }
{
    let mut columns = List::with_room(alloc, words.len())?;
    for word in words {
        columns.push(column(alloc, &word.name, word.kind)?)?;
    }
    Ok(columns)
}

fn column(alloc: Global, name: &Bytes, kind: Kind) -> Result<Column, NoMemory>
    ensures { IfOk result (λ column. column ≡ record { name = name.now; kind = kind }) }
{
    Ok(Column {
        name: List::copy_of(alloc, name.as_slice())?,
        kind,
    })
}

fn renamed_schema(
    alloc: Global,
    input: &[Column],
    words: &[Renamed],
) -> Result<List<Column>, NoMemory>
    ensures { IfOk result (λ columns. columns ≡ map (renamed_column input.now) words.now) }
{
    let mut columns = List::with_room(alloc, words.len())?;
    for word in words {
        let kind = column_kind(input, word.old.as_slice());
        columns.push(column(alloc, &word.new, kind)?)?;
    }
    Ok(columns)
}

fn first_schema(
    alloc: Global,
    nodes: &[PlanNode],
    inputs: &[Bytes],
) -> Result<List<Column>, NoMemory>
    ensures { IfOk result (λ columns. columns ≡ first nodes.now inputs.now) }
{
    match inputs {
        [] => Ok(List::new(alloc)),
        [name, ..] => copy_items(alloc, schema_of(nodes, name.as_slice())),
    }
}

/// The columns of the nodes of these names, one node behind the other.
pub(crate) fn joined_schema(
    alloc: Global,
    nodes: &[PlanNode],
    inputs: &[Bytes],
) -> Result<List<Column>, NoMemory>
    ensures { IfOk result (λ columns. columns ≡ flat_map (schema nodes.now) inputs.now) }
{
    let mut columns = List::new(alloc);
    for input in inputs {
        append_columns(alloc, schema_of(nodes, input.as_slice()), &mut columns)?;
    }
    Ok(columns)
}

fn append_columns(alloc: Global, columns: &[Column], out: &mut List<Column>) -> Result<(), NoMemory>
    ensures { OnOk result (out.new ≡ out.old ++ columns.now) }
{
    for column in columns {
        out.push(column.try_clone(alloc)?)?;
    }
    Ok(())
}

fn group_schema(
    alloc: Global,
    input: &[Column],
    keys: &[Bytes],
    aggs: &[NamedAgg],
) -> Result<List<Column>, NoMemory>
    ensures { IfOk result (λ columns. columns ≡ map (key_column input.now) keys.now ++ map (agg_column input.now) aggs.now) }
{
    let mut columns = key_columns(alloc, input, keys)?;
    append_aggs(alloc, input, aggs, &mut columns)?;
    Ok(columns)
}

fn key_columns(alloc: Global, input: &[Column], keys: &[Bytes]) -> Result<List<Column>, NoMemory>
    ensures { IfOk result (λ columns. columns ≡ map (key_column input.now) keys.now) }
{
    let mut columns = List::with_room(alloc, keys.len())?;
    for key in keys {
        columns.push(column(alloc, key, column_kind(input, key.as_slice()))?)?;
    }
    Ok(columns)
}

fn append_aggs(
    alloc: Global,
    input: &[Column],
    aggs: &[NamedAgg],
    out: &mut List<Column>,
) -> Result<(), NoMemory>
    ensures { OnOk result (out.new ≡ out.old ++ map (agg_column input.now) aggs.now) }
{
    for agg in aggs {
        out.push(column(alloc, &agg.name, agg_kind(input, &agg.agg))?)?;
    }
    Ok(())
}

fn agg_kind(input: &[Column], agg: &AggWord) -> Kind
    ensures { result ≡ kind_of_agg input.now agg.now }
{
    match agg {
        AggWord::Count => Kind::Int,
        AggWord::Sum(_) => Kind::Int,
        AggWord::Min(column) => column_kind(input, column.as_slice()),
        AggWord::Max(column) => column_kind(input, column.as_slice()),
    }
}
