// Joins of complete lists, by nested loops.
ghost use Rattle.std.specs.Prelude.{◌≡◌, ◌++◌, map, IfOk, OnOk};
ghost use Rattle.std.specs.List.{list_all};
ghost use Rattle.std.specs.Option.{option_copied};
ghost use Rattle.pj_shape.specs.Joining.{all_equal, cell_value, join_answer, joined_row, joins, parts_on, values};
ghost use Rattle.pj_algebra.specs.Answers.{list_of};
ghost use Rattle.pj_algebra.specs.Evaluating.{agrees_at, completions, equals_all, equals_at};

use crate::passing::rows_of;
use pj_shape::{ClassCol, same_cells};
use pj_value::{JoinedParts, List, NoMemory, Row, Value};
use std::alloc::Global;

/// Each combination of a row of each of these nodes that joins, end to end, in the order of nested loops; or `NoMemory`. Rows
/// of the first nodes that do not join among themselves are not combined with those of the others.
#[tactic(auto, using(crate::proofs::Combinations::all_completed))]
pub fn joined(
    alloc: Global,
    classes: &[List<ClassCol>],
    lists: &[List<Row>],
    inputs: &[u32],
) -> Result<List<Row>, NoMemory>
    ensures { IfOk result (λ made. made ≡ join_answer classes.now (map (list_of lists.now) inputs.now)) }
{
    let mut rows = List::new(alloc);
    let mut out = List::new(alloc);
    complete(alloc, classes, lists, inputs, &mut rows, &mut out)?;
    Ok(out)
}

// Puts the combinations that join and begin with these rows at the end, where these are the other inputs. The rows are then
// as before.
#[tactic(auto, using(crate::proofs::Combinations::none_follow))]
fn complete(
    alloc: Global,
    classes: &[List<ClassCol>],
    lists: &[List<Row>],
    inputs: &[u32],
    rows: &mut List<Row>,
    out: &mut List<Row>,
) -> Result<(), NoMemory>
    ensures rows { OnOk result (rows.new ≡ rows.old) }
    ensures out { OnOk result (out.new ≡ out.old ++ completions classes.now rows.old (map (list_of lists.now) inputs.now)) }
{
    if !join(classes, rows.as_slice()) {
        return Ok(());
    }
    match inputs.split_first() {
        None => {
            out.push(end_to_end(alloc, rows.as_slice())?)?;
            Ok(())
        }
        Some((input, others)) => {
            let count = rows.len();
            for row in rows_of(lists, *input as usize) {
                rows.push(row.copy(alloc)?)?;
                complete(alloc, classes, lists, others, rows, out)?;
                rows.truncate(count);
            }
            Ok(())
        }
    }
}

// These rows, end to end.
fn end_to_end(alloc: Global, rows: &[Row]) -> Result<Row, NoMemory>
    ensures { IfOk result (λ row. row ≡ joined_row (parts_on 0 rows.now)) }
{
    let mut parts = JoinedParts::with_room(alloc, rows.len())?;
    for row in rows {
        row.join_to(alloc, &mut parts)?;
    }
    Ok(Row::joined(parts))
}

// Whether these rows, one of each of the first inputs, agree in each class.
fn join(classes: &[List<ClassCol>], rows: &[Row]) -> bool
    ensures { result ≡ joins classes.now (parts_on 0 rows.now) }
{
    classes.iter().all(|class| agree(class.as_slice(), rows))
}

// Whether the values that these rows have in a class are all equal.
fn agree(class: &[ClassCol], rows: &[Row]) -> bool
    ensures { result ≡ all_equal (values (parts_on 0 rows.now) class.now) }
{
    each_agrees(class, rows)
}

fn each_agrees(class: &[ClassCol], rows: &[Row]) -> bool
    ensures { result ≡ list_all (agrees_at (parts_on 0 rows.now) class.now) class.now }
{
    class.iter().all(|at| agrees_at(class, rows, *at))
}

// Whether the value in a column, where there is a row for it, is equal to all in the class.
fn agrees_at(class: &[ClassCol], rows: &[Row], at: ClassCol) -> bool
    ensures { result ≡ agrees_at (parts_on 0 rows.now) class.now at }
{
    match rows.get(at.input as usize) {
        None => true,
        Some(row) => equals_all(class, rows, row.get(at.column as usize)),
    }
}

// Whether the cell is equal to each value in the class.
fn equals_all(class: &[ClassCol], rows: &[Row], cell: Option<&Value>) -> bool
    ensures { result ≡ equals_all (values (parts_on 0 rows.now) class.now) (cell_value (option_copied cell.entry)) }
{
    each_equals(class, rows, cell)
}

fn each_equals(class: &[ClassCol], rows: &[Row], cell: Option<&Value>) -> bool
    ensures { result ≡ list_all (equals_at (parts_on 0 rows.now) (cell_value (option_copied cell.entry))) class.now }
{
    class.iter().all(|at| equals_at(rows, cell, *at))
}

// Whether the cell is equal to the value in a column, where there is a row for it.
fn equals_at(rows: &[Row], cell: Option<&Value>, at: ClassCol) -> bool
    ensures { result ≡ equals_at (parts_on 0 rows.now) (cell_value (option_copied cell.entry)) at }
{
    match rows.get(at.input as usize) {
        None => true,
        Some(row) => same_cells(cell, row.get(at.column as usize)),
    }
}
