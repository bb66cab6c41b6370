// Projects.
ghost use Rattle.std.specs.Prelude.{◌≡◌, ◌<◌, All, IfOk, Some, length};
ghost use Rattle.pj_shape.specs.Joining.{value_at};
ghost use Rattle.pj_events.specs.Operators.{picked_cells, project_hands};
ghost use Rattle.pj_flow.specs.Handed.{punct_handed, row_handed};

use pj_pattern::{Element, Punct};
use pj_value::{List, NoMemory, Row, Value};
use std::alloc::Global;

/// What a project hands up of a tuple: the values of these columns, in this order. A text is shared and not copied.
pub fn project_tuple(alloc: Global, columns: &[u32], row: &Row) -> Result<Row, NoMemory>
    requires { All (λ column. column < length row.now) columns.now }
    ensures { IfOk result (λ made. row_handed (Some made) ≡ project_hands columns.now (Element.Tuple row.now)) }
{
    Ok(Row::of(picked(alloc, columns, row)?))
}

fn picked(alloc: Global, columns: &[u32], row: &Row) -> Result<List<Value>, NoMemory>
    requires { All (λ column. column < length row.now) columns.now }
    ensures { IfOk result (λ values. values ≡ picked_cells columns.now row.now) }
{
    let mut values = List::with_room(alloc, columns.len())?;
    for column in columns {
        values.push(cell(row, *column).copy(alloc)?)?;
    }
    Ok(values)
}

/// The value of a column of a row.
#[tactic(auto, using(crate::proofs::Cells::cell_is))]
pub fn cell(row: &Row, column: u32) -> &Value
    requires { column < length row.now }
    ensures { result.now ≡ value_at row.now column }
{
    row.at(column as usize)
}

/// What a project hands up of a punctuation: its patterns of these columns, in this order, or `None` exactly where a column
/// that is not named is no wildcard.
pub fn project_punct(
    alloc: Global,
    columns: &[u32],
    punct: &Punct,
) -> Result<Option<Punct>, NoMemory>
    requires { All (λ column. column < length punct.now) columns.now }
    ensures { IfOk result (λ kept. punct_handed kept ≡ project_hands columns.now (Element.Punct punct.now)) }
{
    Ok(punct.keep(alloc, columns)?)
}
