// Cutting a line into its cells.
ghost use Rattle.std.specs.Prelude.{◌≡◌, ◌≤◌, ◌<◌, ◌^◌, [], false, Ok, Err, length, drop, slice_index, IfErr, IfSome, OnErr, OnOk};
ghost use Rattle.pj_line.specs.Lines.{is_blank as blank};
ghost use Rattle.pj_line.specs.Cells.{AreCut, after as after_byte, cells_of, is_outside, open_quote as open_place};
ghost use Rattle.pj_line.specs.Cutting.{IsCellLen, IsAhead, IsFault, IsPlainLen, IsQuotedLen, ends_plain as is_end};
ghost use Rattle.pj_line.specs.Places.{AreWithin, cells_at};

use crate::cell::{CellFault, Cells, Place};
use crate::lines::is_blank;
use crate::quote::Quote;
use arrayvec::ArrayVec;
use memchr::memchr2;

/// Cuts a line of fewer than 2^32 bytes into its cells, which are lent from the line and stand in its order.
///
/// `Unclosed` comes exactly where the line ends inside quotes; `TooMany` exactly where it does not, and has more than
/// 128 cells.
pub fn cells(line: &[u8]) -> Result<Cells<'_>, CellFault>
    requires { length line.now < 2 ^ 32 }
    ensures { AreCut line.now result }
{
    let mut cut = Cells::none();
    match cut_into(line, &mut cut) {
        Ok(()) => Ok(cut),
        Err(fault) => Err(fault),
    }
}

/// The same, where the cells take the place of others. On a refusal none are left.
pub fn cut_into<'a>(line: &'a [u8], cells: &mut Cells<'a>) -> Result<(), CellFault>
    requires { length line.now < 2 ^ 32 }
    ensures ok { OnOk result (AreCut line.now (Ok cells.new)) }
    ensures err { IfErr result (λ fault. AreCut line.now (Err fault)) }
    ensures none { OnErr result (cells.new ≡ []) }
{
    cells.line = line;
    cells.places.clear();
    match cut_places(line, &mut cells.places) {
        Ok(()) => Ok(()),
        Err(fault) => {
            cells.places.clear();
            Err(fault)
        }
    }
}

// Puts the places of the line's cells into the list, which is empty.
#[tactic(auto, using(crate::proofs::CutCells::nothing_cut))]
fn cut_places(line: &[u8], places: &mut ArrayVec<Place, 128>) -> Result<(), CellFault>
    requires short { length line.now < 2 ^ 32 }
    requires empty { places.old.items ≡ [] }
    ensures within { AreWithin line.now places.new.items }
    ensures ok { OnOk result (AreCut line.now (Ok (cells_at line.now places.new.items))) }
    ensures err { IfErr result (λ fault. AreCut line.now (Err fault)) }
{
    let mut from = 0;
    loop {
        match cell_ahead(line, from) {
            CellAhead::NoCell => return Ok(()),
            CellAhead::OpenCell => return Err(fault_of(line)),
            CellAhead::ClosedCell(place) => {
                if places.is_full() {
                    return Err(fault_of(line));
                }
                from = place.end as usize;
                places.push(place);
            }
        }
    }
}

// The cell that comes next on a line.
#[derive(Clone, Copy)]
enum CellAhead {
    ClosedCell(Place),
    // no cell is left
    NoCell,
    // a cell that is unclosed
    OpenCell,
}

// The cell that comes next on the line from this place on.
fn cell_ahead(line: &[u8], from: usize) -> CellAhead
    requires line { length line.now < 2 ^ 32 }
    requires from { from ≤ length line.now }
    ensures { IsAhead line.now from result }
{
    let (_, behind) = line.split_at(from);
    let start = from + count_blanks(behind);
    if start == line.len() {
        return CellAhead::NoCell;
    }
    let (_, rest) = line.split_at(start);
    match cell_len(rest) {
        None => CellAhead::OpenCell,
        Some(len) => CellAhead::ClosedCell(Place {
            start: start as u32,
            end: (start + len) as u32,
        }),
    }
}

// How many blanks stand at the front of the line.
fn count_blanks(line: &[u8]) -> usize
    ensures same { cells_of (drop result line.now) ≡ cells_of line.now }
    ensures within { result ≤ length line.now }
    ensures begins { result < length line.now → blank (slice_index line.now result) ≡ false }
{
    for (at, byte) in line.iter().enumerate() {
        if !is_blank(*byte) {
            return at;
        }
    }
    line.len()
}

// How long the cell at the front is, if its quotes are closed.
fn cell_len(line: &[u8]) -> Option<usize>
    requires { blank (slice_index line.now 0) ≡ false }
    ensures cut { IsCellLen line.now result }
    ensures some { 0 < length line.now → IfSome result (λ len. 0 < len) }
{
    let mut at = 0;
    loop {
        let (_, rest) = line.split_at(at);
        let stop = at + plain_len(rest);
        if stop == line.len() || is_blank(line[stop]) {
            return Some(stop);
        }
        let (_, quoted) = line.split_at(stop + 1);
        match quoted_len(quoted) {
            None => return None,
            Some(len) => at = stop + 1 + len,
        }
    }
}

// How many bytes stand outside quotes before the next blank or quote, or before the end.
#[tactic(auto, using(crate::proofs::Cuts::plain_more))]
fn plain_len(bytes: &[u8]) -> usize
    ensures { IsPlainLen bytes.now result }
{
    for (at, byte) in bytes.iter().enumerate() {
        if ends_plain(*byte) {
            return at;
        }
    }
    bytes.len()
}

// Whether the byte is a blank or a quote.
fn ends_plain(byte: u8) -> bool
    ensures { result ≡ is_end byte }
{
    is_blank(byte) || byte == b'"'
}

// How many bytes the rest of a quoted part has, with its closing quote, if it is closed.
fn quoted_len(bytes: &[u8]) -> Option<usize>
    ensures { IsQuotedLen bytes.now result }
{
    let mut at = 0;
    loop {
        let (_, rest) = bytes.split_at(at);
        match memchr2(b'"', b'\\', rest) {
            None => return None,
            Some(run) => {
                let stop = at + run;
                if bytes[stop] == b'"' {
                    return Some(stop + 1);
                }
                if stop + 1 == bytes.len() {
                    return None;
                }
                at = stop + 2;
            }
        }
    }
}

// Why a line that is not cut is not.
fn fault_of(line: &[u8]) -> CellFault
    requires { length line.now < 2 ^ 32 }
    ensures { IsFault line.now result }
{
    match open_quote(line) {
        Some(at) => CellFault::Unclosed { at: at as u32 },
        None => CellFault::TooMany,
    }
}

// The place of the opening quote of the quoted part in which the line ends.
fn open_quote(line: &[u8]) -> Option<usize>
    ensures place { result ≡ open_place line.now }
    ensures within { IfSome result (λ at. at < length line.now) }
{
    let mut quote = Quote::Outside;
    let mut opened = 0;
    for (at, byte) in line.iter().enumerate() {
        if is_outside(quote) {
            opened = at;
        }
        quote = after(quote, *byte);
    }
    if is_outside(quote) {
        None
    } else {
        Some(opened)
    }
}

/// Whether it is outside quotes.
pub fn is_outside(quote: Quote) -> bool
    ensures { result ≡ is_outside quote }
{
    matches!(quote, Quote::Outside)
}

/// Where the byte of a cell leads: a quote begins and ends a quoted part, and in it a backslash takes the next byte with it.
pub fn after(quote: Quote, byte: u8) -> Quote
    ensures { result ≡ after_byte quote byte }
{
    match (quote, byte) {
        (Quote::Outside, b'"') => Quote::Inside,
        (Quote::Outside, _) => Quote::Outside,
        (Quote::Inside, b'"') => Quote::Outside,
        (Quote::Inside, b'\\') => Quote::Taken,
        (Quote::Inside, _) => Quote::Inside,
        (Quote::Taken, _) => Quote::Inside,
    }
}
