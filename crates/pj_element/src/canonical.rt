// Tuple lines that are the canonical lines of their tuples. A contract here speaks of the bytes behind the tag.
ghost use Rattle.std.specs.Prelude.{◌≡◌, ◌≤◌, ◌<◌, ◌+◌, ◌^◌, ◌∷◌, true, length, Some, IfOk, IfSome, IsTrue};
ghost use Rattle.std.specs.Fmt.{decimal, signed_decimal};
ghost use Rattle.pj_value.specs.Texts.{value_spelling};
ghost use Rattle.pj_value.specs.Values.{is_kind};
ghost use Rattle.pj_value.specs.declared.values.Kind.TheVariants.{Text as TextKind};
ghost use Rattle.pj_element.specs.Canonical.{AreSpelled, StandsAt};
ghost use Rattle.pj_element.specs.Elements.{reading_of};
ghost use Rattle.pj_value.specs.Storable.{AreStorable};
ghost use Rattle.pj_element.specs.declared.element.Read.TheVariants.{Tuple};

use crate::spelled::read_value;
use pj_shape::Column;
use pj_value::{
    Kind, List, NoMemory, Row, SharedText, Spelling, Value, plain_len, see_values, value_text,
};
use std::alloc::Global;

/// The tuple whose canonical line this is, for at most 120 columns. `None` says nothing of the line.
#[tactic(auto, using(crate::proofs::CanonicalCells::line_is_tuple))]
pub(crate) fn read_canonical(
    alloc: Global,
    columns: &[Column],
    line: &[u8],
) -> Result<Option<Row>, NoMemory>
    ensures { IfOk result (λ row. IfSome row (λ row. reading_of columns.now line.now ≡ Tuple row)) }
{
    match line.split_first() {
        Some((tag, cells)) => {
            if *tag != b't' || columns.len() > 120 {
                return Ok(None);
            }
            match read_cells(alloc, columns, cells)? {
                Some(row) => Ok(Some(row)),
                None => Ok(None),
            }
        }
        None => Ok(None),
    }
}

// The row of these cells, which keeps them as its spelling.
fn read_cells(alloc: Global, columns: &[Column], cells: &[u8]) -> Result<Option<Row>, NoMemory>
    ensures spelled { IfOk result (λ row. IfSome row (λ row. AreSpelled columns.now cells.now row)) }
    ensures storable { IfOk result (λ row. IfSome row (λ row. AreStorable row)) }
{
    let piece = text_piece(alloc, columns, cells)?;
    match read_values(alloc, columns, cells, &piece)? {
        Some(values) => {
            see_values(values.as_slice());
            let spelling = spelling_of(alloc, piece, cells)?;
            Ok(Some(Row::spelled(alloc, values, spelling)?))
        }
        None => Ok(None),
    }
}

// A copy of the cells, of which their texts are parts; none where no column has texts.
fn text_piece(
    alloc: Global,
    columns: &[Column],
    cells: &[u8],
) -> Result<Option<SharedText>, NoMemory>
    ensures { IfOk result (λ piece. IfSome piece (λ piece. piece ≡ cells.now)) }
{
    for column in columns {
        if is_text(column.kind) {
            return Ok(Some(SharedText::copy_of(alloc, cells)?));
        }
    }
    Ok(None)
}

fn is_text(kind: Kind) -> bool {
    match kind {
        Kind::Int => false,
        Kind::Text => true,
    }
}

// The cells as a spelling: the piece, where there is one.
fn spelling_of(alloc: Global, piece: Option<SharedText>, cells: &[u8]) -> Result<Spelling, NoMemory>
    requires { IfSome piece (λ piece. piece ≡ cells.now) }
    ensures { IfOk result (λ spelling. spelling ≡ Some cells.now) }
{
    match piece {
        Some(piece) => Ok(Spelling::shared(piece)),
        None => Spelling::copy_of(alloc, cells),
    }
}

// The values of the columns, whose texts are parts of the piece.
#[tactic(auto, using(crate::proofs::CanonicalCells::values_start, crate::proofs::CanonicalCells::values_more, crate::proofs::CanonicalCells::values_end))]
fn read_values(
    alloc: Global,
    columns: &[Column],
    cells: &[u8],
    piece: &Option<SharedText>,
) -> Result<Option<List<Value>>, NoMemory>
    requires { IfSome piece.now (λ piece. piece ≡ cells.now) }
    ensures { IfOk result (λ values. IfSome values (λ values. AreSpelled columns.now cells.now values)) }
{
    let mut values = List::with_room(alloc, columns.len())?;
    let mut at = 0;
    for column in columns {
        match read_cell(alloc, column.kind, cells, piece, at)? {
            Some((value, end)) => {
                values.push(value)?;
                at = end;
            }
            None => return Ok(None),
        }
    }
    if at == cells.len() {
        return Ok(Some(values));
    }
    Ok(None)
}

// The value of the cell that begins with the space at this place, and where the cell ends.
fn read_cell(
    alloc: Global,
    kind: Kind,
    cells: &[u8],
    piece: &Option<SharedText>,
    at: usize,
) -> Result<Option<(Value, usize)>, NoMemory>
    requires piece { IfSome piece.now (λ piece. piece ≡ cells.now) }
    requires within { at ≤ length cells.now }
    ensures cell { IfOk result (λ cell. IfSome cell (λ cell. StandsAt cells.now at cell.1 (32 ∷ value_spelling cell.0))) }
    ensures kind { IfOk result (λ cell. IfSome cell (λ cell. is_kind kind cell.0 ≡ true)) }
{
    if at == cells.len() || cells[at] != b' ' {
        return Ok(None);
    }
    match kind {
        Kind::Int => match read_int(cells, at + 1) {
            Some((n, end)) => Ok(Some((Value::Int(n), end))),
            None => Ok(None),
        },
        Kind::Text => match piece {
            Some(piece) => read_text(alloc, piece, cells, at + 1),
            None => Ok(None),
        },
    }
}

// The integer at this place, and where it ends.
#[tactic(auto, using(crate::proofs::CanonicalCells::minus_digits))]
fn read_int(bytes: &[u8], from: usize) -> Option<(i64, usize)>
    requires { from ≤ length bytes.now }
    ensures { IfSome result (λ int. StandsAt bytes.now from int.1 (signed_decimal int.0)) }
{
    if from == bytes.len() {
        return None;
    }
    if bytes[from] == b'-' {
        let (number, end) = read_digits(bytes, from + 1)?;
        if number == 0 {
            return None;
        }
        return Some((0 - number as i64, end));
    }
    let (number, end) = read_digits(bytes, from)?;
    Some((number as i64, end))
}

// The number whose digits stand at this place, as far as it is surely below 2^63, and where they end.
#[tactic(auto, using(crate::proofs::CanonicalCells::first_digit))]
fn read_digits(bytes: &[u8], from: usize) -> Option<(u64, usize)>
    requires { from ≤ length bytes.now }
    ensures digits { IfSome result (λ number. StandsAt bytes.now from number.1 (decimal number.0)) }
    ensures small { IfSome result (λ number. number.0 < 2 ^ 63) }
{
    if from == bytes.len() || !bytes[from].is_ascii_digit() {
        return None;
    }
    let first = u64::from(bytes[from] - b'0');
    if first == 0 {
        return Some((0, from + 1));
    }
    Some(more_digits(bytes, from, first))
}

// The number that begins with this digit, as far as it is surely below 2^63, and where its digits end.
#[tactic(auto, using(crate::proofs::CanonicalCells::more_digits))]
fn more_digits(bytes: &[u8], from: usize, first: u64) -> (u64, usize)
    requires digit { StandsAt bytes.now from (from + 1) (decimal first) }
    requires some { 0 < first }
    requires small { first < 10 }
    ensures digits { StandsAt bytes.now from result.1 (decimal result.0) }
    ensures small { result.0 < 2 ^ 63 }
{
    let mut number = first;
    for at in from + 1..bytes.len() {
        let byte = bytes[at];
        if !byte.is_ascii_digit() || number >= 922_337_203_685_477_580 {
            return (number, at);
        }
        number = number * 10 + u64::from(byte - b'0');
    }
    (number, bytes.len())
}

// The text at this place, which is a part of the piece where no byte of it is escaped, and where its cell ends.
#[tactic(auto, using(crate::proofs::CanonicalCells::quoted_run))]
fn read_text(
    alloc: Global,
    piece: &SharedText,
    bytes: &[u8],
    from: usize,
) -> Result<Option<(Value, usize)>, NoMemory>
    requires same { bytes.now ≡ piece.now }
    requires within { from ≤ length bytes.now }
    ensures cell { IfOk result (λ cell. IfSome cell (λ cell. StandsAt bytes.now from cell.1 (value_spelling cell.0))) }
    ensures kind { IfOk result (λ cell. IfSome cell (λ cell. is_kind TextKind cell.0 ≡ true)) }
{
    if from == bytes.len() || bytes[from] != b'"' {
        return Ok(None);
    }
    let (_, rest) = bytes.split_at(from + 1);
    let end = from + 1 + plain_len(rest);
    if end == bytes.len() {
        return Ok(None);
    }
    if bytes[end] == b'"' {
        return Ok(Some((Value::Text(piece.part(from + 1, end)?), end + 1)));
    }
    read_escaped(alloc, bytes, from, end)
}

// The text at this place, where its cell is the text's canonical spelling, and where the cell ends. A byte behind the opening
// quote is known to be no closing one.
#[inline(never)]
fn read_escaped(
    alloc: Global,
    bytes: &[u8],
    from: usize,
    inside: usize,
) -> Result<Option<(Value, usize)>, NoMemory>
    requires ordered { from ≤ inside }
    requires within { inside ≤ length bytes.now }
    ensures cell { IfOk result (λ cell. IfSome cell (λ cell. StandsAt bytes.now from cell.1 (value_spelling cell.0))) }
    ensures kind { IfOk result (λ cell. IfSome cell (λ cell. is_kind TextKind cell.0 ≡ true)) }
{
    match closing_end(bytes, inside) {
        Some(end) => match read_same(alloc, bytes, from, end)? {
            Some(value) => Ok(Some((value, end))),
            None => Ok(None),
        },
        None => Ok(None),
    }
}

// Behind the first quote from this place on that has no backslash before it.
fn closing_end(bytes: &[u8], inside: usize) -> Option<usize>
    requires { inside ≤ length bytes.now }
    ensures { IfSome result (λ end. (inside ≤ end) × (end ≤ length bytes.now)) }
{
    let mut escaped = false;
    for at in inside..bytes.len() {
        match bytes[at] {
            b'"' if !escaped => return Some(at + 1),
            b'\\' => escaped = !escaped,
            _ => escaped = false,
        }
    }
    None
}

// The text whose canonical spelling stands between these places.
#[tactic(auto, using(crate::proofs::CanonicalCells::same_cell))]
fn read_same(
    alloc: Global,
    bytes: &[u8],
    from: usize,
    end: usize,
) -> Result<Option<Value>, NoMemory>
    requires ordered { from ≤ end }
    requires within { end ≤ length bytes.now }
    ensures cell { IfOk result (λ value. IfSome value (λ value. StandsAt bytes.now from end (value_spelling value))) }
    ensures kind { IfOk result (λ value. IfSome value (λ value. is_kind TextKind value ≡ true)) }
{
    let cell = &bytes[from..end];
    match read_value(alloc, cell)? {
        Some(value) => {
            if value.is_of(Kind::Text) && is_spelled(alloc, &value, cell)? {
                return Ok(Some(value));
            }
            Ok(None)
        }
        None => Ok(None),
    }
}

// Whether the cell is the canonical spelling of the value.
fn is_spelled(alloc: Global, value: &Value, cell: &[u8]) -> Result<bool, NoMemory>
    ensures { IfOk result (λ is. IsTrue is → value_spelling value.now ≡ cell.now) }
{
    let mut spelling = List::with_room(alloc, cell.len())?;
    value_text(alloc, value, &mut spelling)?;
    Ok(spelling.as_slice() == cell)
}
