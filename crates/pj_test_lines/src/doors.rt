// What the pages of the crates show.
use pj_element::{Read, punct_text, read_element};
use pj_io::MemSource;
use pj_line::{Line, LineBuf, cells};
use pj_pattern::{Pattern, Punct};
use pj_shape::{Column, Schema};
use pj_value::{Kind, List, Row, Value, copy_values};
use std::test::Fail;

#[test]
fn a_line_is_cut_into_cells(rt: HostRuntime) -> Result<(), Fail> {
    let mut source = MemSource::new(rt.alloc(), b"t 1\t\"a b\"\r\nt 2 \"c\"", 4, &[])?;
    let mut lines = LineBuf::new(rt.alloc(), 65_536, 1 << 40)?;
    match lines.next_line(&mut source) {
        Ok(Line::Whole(line)) => match cells(line) {
            Ok(cut) => assert!(rt; cut.len() == 3 && cut.cell(2).bytes == b"\"a b\"".as_slice()),
            Err(_) => assert!(rt; false),
        },
        _ => assert!(rt; false),
    }
    Ok(())
}

#[test]
fn a_punctuation_tells_what_is_complete(rt: HostRuntime) -> Result<(), Fail> {
    let range = Pattern::range(Some(Value::Int(2)), Some(Value::Int(9)));
    let nine = Pattern::constant(Value::Int(9));
    assert!(rt; range.fits(Kind::Int) && range.covers(&nine) && !nine.covers(&range));
    let mut patterns = List::new(rt.alloc());
    patterns.push(range)?;
    patterns.push(Pattern::wild())?;
    let punct = Punct::of(patterns);
    for (number, is_complete) in [(9, true), (10, false)] {
        let row = copy_values(rt.alloc(), &[Value::Int(number), Value::Int(50)])?;
        assert!(rt; punct.matches(&Row::of(row)) == is_complete);
    }
    Ok(())
}

#[test]
fn a_line_is_read_and_written(rt: HostRuntime) -> Result<(), Fail> {
    let name = List::copy_of(rt.alloc(), b"price")?;
    let mut columns = List::new(rt.alloc());
    let kind = Kind::Int;
    columns.push(Column { name, kind })?;
    let schema = Schema::of(columns);
    let mut written = List::new(rt.alloc());
    match read_element(rt.alloc(), &schema, b"p {20|010|20}")? {
        Read::Punct(punct) => punct_text(rt.alloc(), &punct, &mut written)?,
        _ => assert!(rt; false),
    }
    assert!(rt; written.as_slice() == b"p {10|20}".as_slice());
    Ok(())
}
