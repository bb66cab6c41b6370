// What stands in the cells of an element line: values of a tuple, or patterns of a punctuation.
ghost use Rattle.std.specs.Prelude.{◌≡◌, ◌≤◌, ◌+◌, ◌++◌, ◌∷◌, ℕ, List, drop, length, IfOk, OnOk, OnErr};
ghost use Rattle.std.specs.List.{flat_map};
ghost use Rattle.pj_shape.specs.declared.columns.Column.{Column};
ghost use Rattle.pj_value.specs.Texts.{value_spelling, IsFront};
ghost use Rattle.pj_line.specs.Cells.{bytes_in};
ghost use Rattle.pj_element.specs.declared.element.Judged.{Judged};
ghost use Rattle.pj_element.specs.Elements.{items_from, items_in, pattern_in, pattern_spelling, value_in};

use crate::element::{Judged, Reject};
use crate::forms::read_form;
use crate::spelled::read_value;
use crate::written::append_pattern;
use pj_line::Cells;
use pj_pattern::Pattern;
use pj_shape::Column;
use pj_value::{List, NoMemory, Value, value_text};
use std::alloc::Global;

/// What a cell of an element line says of a column, and how it is spelled.
pub trait Item: Drop {
    /// What a cell says of the column.
    ghost item_in: { Column → List ℕ → Judged Self };

    /// The canonical spelling.
    ghost spelling: { Self → List ℕ };

    /// What the cell says of the column: the item that it spells, if its values are of the column's kind.
    fn read_item(alloc: Global, column: &Column, cell: &[u8]) -> Result<Judged<Self>, NoMemory>
        ensures { IfOk result (λ judged. judged ≡ item_in column.now cell.now) };

    /// Appends the canonical spelling. On a refusal some of it may stand.
    fn write_item(&self, alloc: Global, out: &mut List<u8>) -> Result<(), NoMemory>
        ensures ok { OnOk result (out.new ≡ out.old ++ spelling self.now) }
        ensures err { OnErr result (IsFront out.old out.new) };
}

impl Item for Value {
    ghost item_in = { value_in };

    ghost spelling = { value_spelling };

    fn read_item(alloc: Global, column: &Column, cell: &[u8]) -> Result<Judged<Value>, NoMemory> {
        match read_value(alloc, cell)? {
            Some(value) => {
                if value.is_of(column.kind) {
                    Ok(Judged::Fits(value))
                } else {
                    Ok(Judged::OtherKind)
                }
            }
            None => Ok(Judged::Unspelled),
        }
    }

    fn write_item(&self, alloc: Global, out: &mut List<u8>) -> Result<(), NoMemory> {
        value_text(alloc, self, out)?;
        Ok(())
    }
}

impl Item for Pattern {
    ghost item_in = { pattern_in };

    ghost spelling = { pattern_spelling };

    fn read_item(alloc: Global, column: &Column, cell: &[u8]) -> Result<Judged<Pattern>, NoMemory> {
        match read_form(alloc, cell)? {
            Some(form) => {
                if form.fits(column.kind) {
                    Ok(Judged::Fits(Pattern::of_form(alloc, form)?))
                } else {
                    Ok(Judged::OtherKind)
                }
            }
            None => Ok(Judged::Unspelled),
        }
    }

    fn write_item(&self, alloc: Global, out: &mut List<u8>) -> Result<(), NoMemory> {
        append_pattern(alloc, self, out)?;
        Ok(())
    }
}

/// The items that the cells spell from the first of them on, one for each column, or the first reject that holds: `Arity`
/// where there are not as many cells as columns, and from the left the first column whose cell spells nothing or something of
/// another kind, counted from 1.
#[tactic(auto, using(crate::proofs::Lines::other_width, crate::proofs::Lines::fitting_width))]
pub fn read_items<T: Item>(
    alloc: Global,
    columns: &[Column],
    cells: &Cells<'_>,
    first: usize,
) -> Result<Result<List<T>, Reject>, NoMemory>
    requires few { length cells.now ≤ 128 }
    requires first { first ≤ length cells.now }
    ensures { IfOk result (λ items. items ≡ items_in T.item_in columns.now (bytes_in (drop first cells.now))) }
{
    let count = cells.len() - first;
    if count != columns.len() {
        return Ok(Err(Reject::Arity {
            want: columns.len().min(u32::MAX as usize) as u32,
            got: count as u32,
        }));
    }
    Ok(read_each(alloc, columns, cells, first)?)
}

// The items of the columns, or the fault of the first column whose cell does not fit.
#[tactic(auto, using(crate::proofs::Columns::items_start, crate::proofs::Columns::items_more, crate::proofs::Columns::items_unspelled, crate::proofs::Columns::items_other, crate::proofs::Columns::items_end))]
fn read_each<T: Item>(
    alloc: Global,
    columns: &[Column],
    cells: &Cells<'_>,
    first: usize,
) -> Result<Result<List<T>, Reject>, NoMemory>
    requires few { length cells.now ≤ 128 }
    requires same { length cells.now ≡ first + length columns.now }
    ensures { IfOk result (λ items. items ≡ items_from T.item_in 1 columns.now (bytes_in (drop first cells.now))) }
{
    let mut items = List::with_room(alloc, columns.len())?;
    for at in 0..columns.len() {
        let column = at as u32 + 1;
        let cell = cells.cell(first + at);
        match T::read_item(alloc, &columns[at], cell.bytes)? {
            Judged::Fits(item) => items.push(item)?,
            Judged::OtherKind => return Ok(Err(Reject::WrongKind { column })),
            Judged::Unspelled => return Ok(Err(Reject::BadCell { column })),
        }
    }
    Ok(Ok(items))
}

/// Appends the items, each behind a space. On a refusal some of it may stand.
pub fn append_items<T: Item>(alloc: Global, items: &[T], out: &mut List<u8>) -> Result<(), NoMemory>
    ensures ok { OnOk result (out.new ≡ out.old ++ flat_map (λ item. 32 ∷ T.spelling item) items.now) }
    ensures err { OnErr result (IsFront out.old out.new) }
{
    for item in items {
        out.push(b' ')?;
        item.write_item(alloc, out)?;
    }
    Ok(())
}
