// Streams by the kinds of their columns, and what lines say, as text.
use pj_element::{Read, Reject, punct_text, row_text};
use pj_shape::{Column, Schema};
use pj_value::{Bytes, Kind, List, NoMemory};
use std::alloc::Global;

// A stream with a column `word` of each of these kinds.
pub(crate) fn schema_of(alloc: Global, kinds: &[Kind]) -> Result<Schema, NoMemory> {
    let mut columns = List::new(alloc);
    for &kind in kinds {
        let name = List::copy_of(alloc, b"word")?;
        columns.push(Column { name, kind })?;
    }
    Ok(Schema::of(columns))
}

// A number below 10.
pub(crate) fn digit(number: u64) -> u8 {
    b'0' + (number % 10) as u8
}

pub(crate) fn append_reject(why: Reject, out: &mut Bytes) -> Result<(), NoMemory> {
    match why {
        Reject::TooLong => out.append(b"too long"),
        Reject::NotElement => out.append(b"no element"),
        Reject::Arity { want, got } => {
            out.append(&[b'w', digit(u64::from(want)), b'g', digit(u64::from(got))])
        }
        Reject::BadCell { column } => out.append(&[b'b', digit(u64::from(column))]),
        Reject::WrongKind { column } => out.append(&[b'k', digit(u64::from(column))]),
        Reject::Closed { line } => out.append(&[b'c', digit(line)]),
    }
}

// The canonical line of what is read, or the words of the reject.
pub(crate) fn append_read(alloc: Global, read: Read, out: &mut Bytes) -> Result<(), NoMemory> {
    match read {
        Read::Skip => out.append(b"skip"),
        Read::Tuple(row) => row_text(alloc, &row, out),
        Read::Punct(punct) => punct_text(alloc, &punct, out),
        Read::Bad(why) => append_reject(why, out),
    }
}
