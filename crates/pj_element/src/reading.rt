// From a line to an element, and back.
ghost use Rattle.std.specs.Prelude.{◌≡◌, ◌≤◌, ◌<◌, ◌^◌, ◌++◌, drop, length, IfOk, OnOk, OnErr};
ghost use Rattle.pj_line.specs.Cells.{bytes_in};
ghost use Rattle.pj_element.specs.Elements.{reading_of, tagged, read_row as row_read, read_punct as punct_read, items_in, value_in, pattern_in, row_line, punct_line, pattern_spelling};
ghost use Rattle.pj_element.specs.Laws.{RowIsReadAgain, PunctIsReadAgain, PatternIsReadAgain};

use crate::canonical::read_canonical;
use crate::element::{Read, Reject};
use crate::items::{append_items, read_items};
use crate::storable::{see_pattern, see_patterns};
use crate::written::append_pattern;
use pj_line::{Cells, cut_into, is_skipped};
use pj_pattern::{Pattern, Punct};
use pj_shape::{Column, Schema};
use pj_value::{List, NoMemory, Row, see_row};
use std::alloc::Global;

/// What the line says of a stream with these columns: it is skipped; it is a tuple or a punctuation; or it is the first reject
/// that holds: `NotElement` for a line that is unclosed, has more than 128 cells or has neither tag, `Arity` where there is not
/// a cell for each column, and from the left the first column whose cell spells nothing (`BadCell`) or something of another
/// kind (`WrongKind`). It never answers `TooLong` or `Closed`, which are no matter of one line alone. The line has fewer than 2^32 bytes.
///
/// The law `reading_is_exact` has the grammar. `NoMemory` comes only where memory could not be had.
#[inline(always)]
pub fn read_element(alloc: Global, schema: &Schema, line: &[u8]) -> Result<Read, NoMemory>
    requires { length line.now < 2 ^ 32 }
    ensures { IfOk result (λ read. read ≡ reading_of schema.now line.now) }
{
    match read_canonical(alloc, schema.columns(), line)? {
        Some(row) => Ok(Read::Tuple(row)),
        None => read_by_cells(alloc, schema.columns(), line),
    }
}

// What the line says, by its cells.
#[inline(never)]
#[tactic(auto, using(crate::proofs::Lines::cut_line, crate::proofs::Lines::uncut_line))]
fn read_by_cells(alloc: Global, columns: &[Column], line: &[u8]) -> Result<Read, NoMemory>
    requires { length line.now < 2 ^ 32 }
    ensures { IfOk result (λ read. read ≡ reading_of columns.now line.now) }
{
    if is_skipped(line) {
        return Ok(Read::Skip);
    }
    let mut cells = Cells::none();
    match cut_into(line, &mut cells) {
        Ok(()) => Ok(read_tagged(alloc, columns, &cells)?),
        Err(_) => Ok(Read::Bad(Reject::NotElement)),
    }
}

// What these cells of a line say.
#[tactic(auto, using(crate::proofs::Lines::tuple_tag, crate::proofs::Lines::punct_tag, crate::proofs::Lines::other_tag, crate::proofs::Lines::no_tag))]
fn read_tagged(alloc: Global, columns: &[Column], cells: &Cells<'_>) -> Result<Read, NoMemory>
    requires { length cells.now ≤ 128 }
    ensures { IfOk result (λ read. read ≡ tagged columns.now (bytes_in cells.now)) }
{
    if cells.len() == 0 {
        return Ok(Read::Bad(Reject::NotElement));
    }
    let tag = cells.cell(0);
    if tag.bytes == b"t".as_slice() {
        return Ok(read_tuple(alloc, columns, cells, 1)?);
    }
    if tag.bytes == b"p".as_slice() {
        return Ok(read_punct(alloc, columns, cells, 1)?);
    }
    Ok(Read::Bad(Reject::NotElement))
}

// What the cells behind a `t` say, from the first of them on.
fn read_tuple(
    alloc: Global,
    columns: &[Column],
    cells: &Cells<'_>,
    first: usize,
) -> Result<Read, NoMemory>
    requires few { length cells.now ≤ 128 }
    requires first { first ≤ length cells.now }
    ensures { IfOk result (λ read. read ≡ row_read (items_in value_in columns.now (bytes_in (drop first cells.now)))) }
{
    match read_items(alloc, columns, cells, first)? {
        Ok(values) => Ok(Read::Tuple(Row::of(values))),
        Err(why) => Ok(Read::Bad(why)),
    }
}

// What the cells behind a `p` say, from the first of them on.
fn read_punct(
    alloc: Global,
    columns: &[Column],
    cells: &Cells<'_>,
    first: usize,
) -> Result<Read, NoMemory>
    requires few { length cells.now ≤ 128 }
    requires first { first ≤ length cells.now }
    ensures { IfOk result (λ read. read ≡ punct_read (items_in pattern_in columns.now (bytes_in (drop first cells.now)))) }
{
    match read_items(alloc, columns, cells, first)? {
        Ok(patterns) => Ok(Read::Punct(Punct::of(patterns))),
        Err(why) => Ok(Read::Bad(why)),
    }
}

/// Appends the row's canonical line, without a line feed: `t`, and behind one space each the canonical
/// spellings of its values. A row that fits at most 120 columns is read again as itself. On `NoMemory` the bytes are as they were.
#[tactic(auto, using(crate::proofs::LinesAgain::row_again))]
pub fn row_text(alloc: Global, row: &Row, out: &mut List<u8>) -> Result<(), NoMemory>
    ensures ok { OnOk result (out.new ≡ out.old ++ row_line row.now) }
    ensures again { OnOk result (RowIsReadAgain row.now) }
    ensures err { OnErr result (out.new ≡ out.old) }
{
    let start = out.len();
    out.push(b't')?;
    see_row(row);
    match row.spell(alloc, out) {
        Ok(()) => Ok(()),
        Err(stop) => {
            out.truncate(start);
            Err(stop)
        }
    }
}

/// Appends the punctuation's canonical line, without a line feed: `p`, and behind one space each the canonical
/// spellings of its patterns. A punctuation that fits at most 120 columns is read again as itself. On `NoMemory` the bytes are
/// as they were.
#[tactic(auto, using(crate::proofs::LinesAgain::punct_again))]
pub fn punct_text(alloc: Global, punct: &Punct, out: &mut List<u8>) -> Result<(), NoMemory>
    ensures ok { OnOk result (out.new ≡ out.old ++ punct_line punct.now) }
    ensures again { OnOk result (PunctIsReadAgain punct.now) }
    ensures err { OnErr result (out.new ≡ out.old) }
{
    let start = out.len();
    out.push(b'p')?;
    see_patterns(punct.as_slice());
    match append_items(alloc, punct.as_slice(), out) {
        Ok(()) => Ok(()),
        Err(stop) => {
            out.truncate(start);
            Err(stop)
        }
    }
}

/// Appends the pattern's canonical spelling, without a blank. A pattern whose values are of one kind is read again as itself.
/// On `NoMemory` the bytes are as they were.
#[tactic(auto, using(crate::proofs::LinesAgain::pattern_again))]
pub fn pattern_text(alloc: Global, pattern: &Pattern, out: &mut List<u8>) -> Result<(), NoMemory>
    ensures ok { OnOk result (out.new ≡ out.old ++ pattern_spelling pattern.now) }
    ensures again { OnOk result (PatternIsReadAgain pattern.now) }
    ensures err { OnErr result (out.new ≡ out.old) }
{
    let start = out.len();
    see_pattern(pattern);
    match append_pattern(alloc, pattern, out) {
        Ok(()) => Ok(()),
        Err(stop) => {
            out.truncate(start);
            Err(stop)
        }
    }
}
