// What a cell of a statement says.
ghost use Rattle.std.specs.Prelude.{◌≡◌, IfOk};
ghost use Rattle.pj_plan_text.specs.Cuts.{all_of};
ghost use Rattle.pj_plan_text.specs.CellWords.{agg_named as agg_form, agg_of, class_in, class_of, column_name_of, column_of, kind_of as kind_form, mark_of, name_of, named_agg_of, renamed as renamed_form, renamed_of, test_of};

use crate::cuts::{cut, parts};
use crate::names::{is_column_name, is_name};
use crate::word::Word;
use pj_element::{Spelled, read_pattern};
use pj_plan::{AggWord, ColumnWord, NamedAgg, Renamed, Test, TestWord};
use pj_value::{Bytes, Kind, List, NoMemory};
use std::alloc::Global;

/// NAME, STREAM or INPUT.
pub(crate) fn read_name(alloc: Global, cell: &[u8]) -> Result<Option<Bytes>, NoMemory>
    ensures { IfOk result (λ name. name ≡ name_of cell.now) }
{
    if is_name(cell) {
        Ok(Some(List::copy_of(alloc, cell)?))
    } else {
        Ok(None)
    }
}

/// COL, or a column in a CLASS.
pub(crate) fn read_column_name(alloc: Global, cell: &[u8]) -> Result<Option<Bytes>, NoMemory>
    ensures { IfOk result (λ name. name ≡ column_name_of cell.now) }
{
    if is_column_name(cell) {
        Ok(Some(List::copy_of(alloc, cell)?))
    } else {
        Ok(None)
    }
}

/// `COL:KIND`.
pub(crate) fn read_column(alloc: Global, cell: &[u8]) -> Result<Option<ColumnWord>, NoMemory>
    ensures { IfOk result (λ column. column ≡ column_of cell.now) }
{
    match cut(b':', cell) {
        Some((name, word)) => match kind_of(word.bytes) {
            Some(kind) => {
                if !is_column_name(name.bytes) {
                    return Ok(None);
                }
                let name = List::copy_of(alloc, name.bytes)?;
                Ok(Some(ColumnWord { name, kind }))
            }
            None => Ok(None),
        },
        None => Ok(None),
    }
}

fn kind_of(word: &[u8]) -> Option<Kind>
    ensures { result ≡ kind_form word.now }
{
    match word {
        b"int" => Some(Kind::Int),
        b"text" => Some(Kind::Text),
        _ => None,
    }
}

/// `+` or `_`.
pub(crate) fn read_mark(cell: &[u8]) -> Option<bool>
    ensures { result ≡ mark_of cell.now }
{
    match cell {
        b"+" => Some(true),
        b"_" => Some(false),
        _ => None,
    }
}

/// `COL` or `NEW=OLD`.
pub(crate) fn read_renamed(alloc: Global, cell: &[u8]) -> Result<Option<Renamed>, NoMemory>
    ensures { IfOk result (λ column. column ≡ renamed_of cell.now) }
{
    match cut(b'=', cell) {
        Some((new, old)) => Ok(renamed(alloc, new.bytes, old.bytes)?),
        None => Ok(renamed(alloc, cell, cell)?),
    }
}

fn renamed(alloc: Global, new: &[u8], old: &[u8]) -> Result<Option<Renamed>, NoMemory>
    ensures { IfOk result (λ column. column ≡ renamed_form new.now old.now) }
{
    if !(is_column_name(new) && is_column_name(old)) {
        return Ok(None);
    }
    let new = List::copy_of(alloc, new)?;
    let old = List::copy_of(alloc, old)?;
    Ok(Some(Renamed { new, old }))
}

/// `COL=COL..`, two or more column names.
pub(crate) fn read_class(alloc: Global, cell: &[u8]) -> Result<Option<List<Bytes>>, NoMemory>
    ensures { IfOk result (λ class. class ≡ class_of cell.now) }
{
    let parts = parts(alloc, b'=', cell)?;
    Ok(class_of_parts(alloc, parts.as_slice())?)
}

fn class_of_parts(alloc: Global, parts: &[Word<'_>]) -> Result<Option<List<Bytes>>, NoMemory>
    ensures { IfOk result (λ class. class ≡ class_in parts.now) }
{
    if 2 <= parts.len() {
        Ok(read_column_names(alloc, parts)?)
    } else {
        Ok(None)
    }
}

/// Column names, one for each cell.
#[tactic(auto, using(crate::proofs::CellLoops::item_good, crate::proofs::CellLoops::item_bad, crate::proofs::CellLoops::items_end))]
pub(crate) fn read_column_names(
    alloc: Global,
    cells: &[Word<'_>],
) -> Result<Option<List<Bytes>>, NoMemory>
    ensures { IfOk result (λ names. names ≡ all_of column_name_of cells.now) }
{
    let mut names = List::with_room(alloc, cells.len())?;
    let mut rest = cells;
    while let [cell, behind @ ..] = rest {
        match read_column_name(alloc, cell.bytes)? {
            Some(name) => names.push(name)?,
            None => return Ok(None),
        }
        rest = behind;
    }
    Ok(Some(names))
}

/// `NEW=AGG`.
pub(crate) fn read_named_agg(alloc: Global, cell: &[u8]) -> Result<Option<NamedAgg>, NoMemory>
    ensures { IfOk result (λ agg. agg ≡ named_agg_of cell.now) }
{
    match cut(b'=', cell) {
        Some((name, word)) => match read_agg(alloc, word.bytes)? {
            Some(agg) => {
                if !is_column_name(name.bytes) {
                    return Ok(None);
                }
                let name = List::copy_of(alloc, name.bytes)?;
                Ok(Some(NamedAgg { name, agg }))
            }
            None => Ok(None),
        },
        None => Ok(None),
    }
}

/// `count`, `sum:COL`, `min:COL` or `max:COL`.
fn read_agg(alloc: Global, word: &[u8]) -> Result<Option<AggWord>, NoMemory>
    ensures { IfOk result (λ agg. agg ≡ agg_of word.now) }
{
    if word == b"count".as_slice() {
        return Ok(Some(AggWord::Count));
    }
    match cut(b':', word) {
        Some((word, column)) => {
            if !is_column_name(column.bytes) {
                return Ok(None);
            }
            let column = List::copy_of(alloc, column.bytes)?;
            Ok(agg_named(word.bytes, column))
        }
        None => Ok(None),
    }
}

fn agg_named(word: &[u8], column: Bytes) -> Option<AggWord>
    ensures { result ≡ agg_form word.now column }
{
    match word {
        b"sum" => Some(AggWord::Sum(column)),
        b"min" => Some(AggWord::Min(column)),
        b"max" => Some(AggWord::Max(column)),
        _ => None,
    }
}

/// `COL PATTERN`; the pattern may have values of both kinds.
pub(crate) fn read_test(
    alloc: Global,
    column: &[u8],
    cell: &[u8],
) -> Result<Option<TestWord>, NoMemory>
    ensures { IfOk result (λ test. test ≡ test_of column.now cell.now) }
{
    if !is_column_name(column) {
        return Ok(None);
    }
    let column = List::copy_of(alloc, column)?;
    match read_pattern(alloc, cell)? {
        Spelled::Good(pattern) => Ok(Some(TestWord {
            column,
            test: Test::One(pattern),
        })),
        Spelled::Mixed => Ok(Some(TestWord {
            column,
            test: Test::Mixed,
        })),
        Spelled::Not => Ok(None),
    }
}
