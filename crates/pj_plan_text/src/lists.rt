// What the cells of a statement say, one by one.
ghost use Rattle.std.specs.Prelude.{◌≡◌, IfOk};
ghost use Rattle.pj_plan_text.specs.Cuts.{all_of};
ghost use Rattle.pj_plan_text.specs.CellWords.{class_of, column_of, mark_of, name_of, named_agg_of, renamed_of};
ghost use Rattle.pj_plan_text.specs.Statements.{pairs_of};

use crate::cell_words::{
    read_class, read_column, read_mark, read_name, read_named_agg, read_renamed, read_test,
};
use crate::word::Word;
use pj_plan::{ColumnWord, NamedAgg, Renamed, TestWord};
use pj_value::{Bytes, List, NoMemory};
use std::alloc::Global;

/// Names of nodes, one for each cell.
#[tactic(auto, using(crate::proofs::CellLoops::item_good, crate::proofs::CellLoops::item_bad, crate::proofs::CellLoops::items_end))]
pub(crate) fn read_inputs(
    alloc: Global,
    cells: &[Word<'_>],
) -> Result<Option<List<Bytes>>, NoMemory>
    ensures { IfOk result (λ inputs. inputs ≡ all_of name_of cells.now) }
{
    let mut inputs = List::with_room(alloc, cells.len())?;
    let mut rest = cells;
    while let [cell, behind @ ..] = rest {
        match read_name(alloc, cell.bytes)? {
            Some(input) => inputs.push(input)?,
            None => return Ok(None),
        }
        rest = behind;
    }
    Ok(Some(inputs))
}

/// Columns of a stream, one for each cell.
#[tactic(auto, using(crate::proofs::CellLoops::item_good, crate::proofs::CellLoops::item_bad, crate::proofs::CellLoops::items_end))]
pub(crate) fn read_columns(
    alloc: Global,
    cells: &[Word<'_>],
) -> Result<Option<List<ColumnWord>>, NoMemory>
    ensures { IfOk result (λ columns. columns ≡ all_of column_of cells.now) }
{
    let mut columns = List::with_room(alloc, cells.len())?;
    let mut rest = cells;
    while let [cell, behind @ ..] = rest {
        match read_column(alloc, cell.bytes)? {
            Some(column) => columns.push(column)?,
            None => return Ok(None),
        }
        rest = behind;
    }
    Ok(Some(columns))
}

/// Marks, one for each cell.
#[tactic(auto, using(crate::proofs::CellLoops::item_good, crate::proofs::CellLoops::item_bad, crate::proofs::CellLoops::items_end))]
pub(crate) fn read_marks(alloc: Global, cells: &[Word<'_>]) -> Result<Option<List<bool>>, NoMemory>
    ensures { IfOk result (λ marks. marks ≡ all_of mark_of cells.now) }
{
    let mut marks = List::with_room(alloc, cells.len())?;
    let mut rest = cells;
    while let [cell, behind @ ..] = rest {
        match read_mark(cell.bytes) {
            Some(mark) => marks.push(mark)?,
            None => return Ok(None),
        }
        rest = behind;
    }
    Ok(Some(marks))
}

/// Columns of a project, one for each cell.
#[tactic(auto, using(crate::proofs::CellLoops::item_good, crate::proofs::CellLoops::item_bad, crate::proofs::CellLoops::items_end))]
pub(crate) fn read_renamed_all(
    alloc: Global,
    cells: &[Word<'_>],
) -> Result<Option<List<Renamed>>, NoMemory>
    ensures { IfOk result (λ columns. columns ≡ all_of renamed_of cells.now) }
{
    let mut columns = List::with_room(alloc, cells.len())?;
    let mut rest = cells;
    while let [cell, behind @ ..] = rest {
        match read_renamed(alloc, cell.bytes)? {
            Some(column) => columns.push(column)?,
            None => return Ok(None),
        }
        rest = behind;
    }
    Ok(Some(columns))
}

/// Classes, one for each cell.
#[tactic(auto, using(crate::proofs::CellLoops::item_good, crate::proofs::CellLoops::item_bad, crate::proofs::CellLoops::items_end))]
pub(crate) fn read_classes(
    alloc: Global,
    cells: &[Word<'_>],
) -> Result<Option<List<List<Bytes>>>, NoMemory>
    ensures { IfOk result (λ classes. classes ≡ all_of class_of cells.now) }
{
    let mut classes = List::with_room(alloc, cells.len())?;
    let mut rest = cells;
    while let [cell, behind @ ..] = rest {
        match read_class(alloc, cell.bytes)? {
            Some(class) => classes.push(class)?,
            None => return Ok(None),
        }
        rest = behind;
    }
    Ok(Some(classes))
}

/// Aggregates, one for each cell.
#[tactic(auto, using(crate::proofs::CellLoops::item_good, crate::proofs::CellLoops::item_bad, crate::proofs::CellLoops::items_end))]
pub(crate) fn read_aggs(
    alloc: Global,
    cells: &[Word<'_>],
) -> Result<Option<List<NamedAgg>>, NoMemory>
    ensures { IfOk result (λ aggs. aggs ≡ all_of named_agg_of cells.now) }
{
    let mut aggs = List::with_room(alloc, cells.len())?;
    let mut rest = cells;
    while let [cell, behind @ ..] = rest {
        match read_named_agg(alloc, cell.bytes)? {
            Some(agg) => aggs.push(agg)?,
            None => return Ok(None),
        }
        rest = behind;
    }
    Ok(Some(aggs))
}

/// Tests, one for each pair of cells.
#[tactic(auto, using(crate::proofs::CellLoops::pair_good, crate::proofs::CellLoops::pair_bad, crate::proofs::CellLoops::pair_open, crate::proofs::CellLoops::pairs_end))]
pub(crate) fn read_tests(
    alloc: Global,
    cells: &[Word<'_>],
) -> Result<Option<List<TestWord>>, NoMemory>
    ensures { IfOk result (λ tests. tests ≡ pairs_of cells.now) }
{
    let mut tests = List::with_room(alloc, cells.len() / 2)?;
    let mut rest = cells;
    while let [column, cell, behind @ ..] = rest {
        match read_test(alloc, column.bytes, cell.bytes)? {
            Some(test) => tests.push(test)?,
            None => return Ok(None),
        }
        rest = behind;
    }
    if rest.is_empty() {
        Ok(Some(tests))
    } else {
        Ok(None)
    }
}
