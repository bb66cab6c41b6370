// Selects, projects and unions of complete lists.
ghost use Rattle.std.specs.Prelude.{◌≡◌, ◌++◌, filter, flat_map, map, IfOk, OnOk};
ghost use Rattle.pj_shape.specs.Joining.{no_value, value_at};
ghost use Rattle.pj_pattern.specs.Columns.{matches_row};
ghost use Rattle.pj_events.specs.Operators.{picked_cells};
ghost use Rattle.pj_algebra.specs.Answers.{list_of};

use pj_pattern::Punct;
use pj_value::{List, NoMemory, Row, SharedText, Value};
use std::alloc::Global;

/// The rows of the node of this number; none where there is no such node.
pub fn rows_of(lists: &[List<Row>], number: usize) -> &[Row]
    ensures { result.now ≡ list_of lists.now number }
{
    match lists.get(number) {
        None => &[],
        Some(rows) => rows.as_slice(),
    }
}

/// The rows that match the test, in order; or `NoMemory`.
pub fn selected(alloc: Global, test: &Punct, rows: &[Row]) -> Result<List<Row>, NoMemory>
    ensures { IfOk result (λ kept. kept ≡ filter (matches_row test.now) rows.now) }
{
    let mut kept = List::new(alloc);
    for row in rows {
        if test.matches(row) {
            kept.push(row.copy(alloc)?)?;
        }
    }
    Ok(kept)
}

/// Of each row the values in these columns, in order; or `NoMemory`.
pub fn projected(alloc: Global, columns: &[u32], rows: &[Row]) -> Result<List<Row>, NoMemory>
    ensures { IfOk result (λ made. made ≡ map (picked_cells columns.now) rows.now) }
{
    let mut made = List::with_room(alloc, rows.len())?;
    for row in rows {
        made.push(picked(alloc, columns, row)?)?;
    }
    Ok(made)
}

/// The row of the values in these columns, in order; or `NoMemory`. A column that is not there has the empty text.
pub fn picked(alloc: Global, columns: &[u32], row: &Row) -> Result<Row, NoMemory>
    ensures { IfOk result (λ made. made ≡ picked_cells columns.now row.now) }
{
    let mut values = List::with_room(alloc, columns.len())?;
    for column in columns {
        values.push(cell(alloc, row, *column)?)?;
    }
    Ok(Row::of(values))
}

/// The value in a column, or `NoMemory`. A column that is not there has the empty text.
#[tactic(auto, using(pj_shape::proofs::CellValues::cell_there, pj_shape::proofs::CellValues::cell_missing))]
pub fn cell(alloc: Global, row: &Row, column: u32) -> Result<Value, NoMemory>
    ensures { IfOk result (λ value. value ≡ value_at row.now column) }
{
    match row.get(column as usize) {
        None => Ok(empty_text(alloc)?),
        Some(value) => Ok(value.copy(alloc)?),
    }
}

/// The empty text, which stands where a row has no value; or `NoMemory`.
pub fn empty_text(alloc: Global) -> Result<Value, NoMemory>
    ensures { IfOk result (λ value. value ≡ no_value) }
{
    Ok(Value::Text(SharedText::copy_of(alloc, &[])?))
}

/// The rows of these nodes, one node's behind another's; or `NoMemory`.
pub fn united(alloc: Global, lists: &[List<Row>], inputs: &[u32]) -> Result<List<Row>, NoMemory>
    ensures { IfOk result (λ all. all ≡ flat_map (list_of lists.now) inputs.now) }
{
    let mut all = List::new(alloc);
    for input in inputs {
        append_rows(alloc, rows_of(lists, *input as usize), &mut all)?;
    }
    Ok(all)
}

// Puts equal rows at the end, or answers `NoMemory`.
fn append_rows(alloc: Global, rows: &[Row], out: &mut List<Row>) -> Result<(), NoMemory>
    ensures { OnOk result (out.new ≡ out.old ++ rows.now) }
{
    for row in rows {
        out.push(row.copy(alloc)?)?;
    }
    Ok(())
}
