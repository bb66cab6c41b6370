// Each call that takes memory, once with ample memory, on values from outside.
use pj_value::{JoinedParts, List, NoMemory, Row, SharedText, Spelling, Value, value_text};
use std::alloc::Global;
use std::cmp::Ordering;
use std::test::Fail;

#[test]
fn lists_grow(rt: HostRuntime) -> Result<(), Fail> {
    let mut list = List::copy_of(rt.alloc(), &[1u8, 2])?;
    list.push(7)?;
    list.append(&[8, 9])?;
    assert!(rt; list.as_slice() == [1u8, 2, 7, 8, 9].as_slice());
    Ok(())
}

fn text(alloc: Global, bytes: &[u8]) -> Result<Value, NoMemory> {
    Ok(Value::Text(SharedText::copy_of(alloc, bytes)?))
}

// Whether the value is spelled so.
fn is_spelled(alloc: Global, value: &Value, spelling: &[u8]) -> Result<bool, NoMemory> {
    let mut out = List::new(alloc);
    value_text(alloc, value, &mut out)?;
    Ok(out.as_slice() == spelling)
}

const TEXTS: [(&[u8], &[u8]); 4] = [
    (b"ann", b"\"ann\""),
    (b"q\"\\\nA", b"\"q\\\"\\\\\\nA\""),
    (b"\r\t\x00\x1f\x7f\xff", b"\"\\r\\t\\x00\\x1f\\x7f\xff\""),
    (b"", b"\"\""),
];

const NUMBERS: [(i64, &[u8]); 4] = [
    (0, b"0"),
    (-7, b"-7"),
    (9223372036854775807, b"9223372036854775807"),
    (-9223372036854775808, b"-9223372036854775808"),
];

#[test]
fn values_are_spelled(rt: HostRuntime) -> Result<(), Fail> {
    for (bytes, spelling) in TEXTS {
        let value = text(rt.alloc(), bytes)?;
        assert!(rt; is_spelled(rt.alloc(), &value, spelling)?);
    }
    for (number, spelling) in NUMBERS {
        assert!(rt; is_spelled(rt.alloc(), &Value::Int(number), spelling)?);
    }
    Ok(())
}

fn two_columns(alloc: Global) -> Result<Row, NoMemory> {
    let mut values = List::new(alloc);
    values.push(Value::Int(1))?;
    values.push(text(alloc, b"ann")?)?;
    Ok(Row::of(values))
}

#[test]
fn rows_are_copied(rt: HostRuntime) -> Result<(), Fail> {
    let row = two_columns(rt.alloc())?;
    let copy = row.copy(rt.alloc())?;
    assert!(rt; copy.len() == 2 && copy.same(&row));
    Ok(())
}

// A shared row, joined with a second handle of itself and with one of its own.
fn joined(alloc: Global, shared: &Row, own: &Row) -> Result<Row, NoMemory> {
    let mut parts = JoinedParts::with_room(alloc, 3)?;
    shared.join_to(alloc, &mut parts)?;
    shared.copy(alloc)?.join_to(alloc, &mut parts)?;
    own.join_to(alloc, &mut parts)?;
    Ok(Row::joined(parts))
}

// The same as a pair of two handles of the shared row, paired with the other.
fn paired(alloc: Global, shared: &Row, own: &Row) -> Result<Row, NoMemory> {
    let pair = Row::pair(alloc, shared, shared)?;
    Row::pair(alloc, &pair, own)
}

fn thrice(alloc: Global, by_pairs: bool) -> Result<Row, NoMemory> {
    let own = two_columns(alloc)?;
    let shared = own.copy(alloc)?.share(alloc)?;
    if by_pairs {
        paired(alloc, &shared, &own)
    } else {
        joined(alloc, &shared, &own)
    }
}

#[test]
fn rows_are_joined(rt: HostRuntime) -> Result<(), Fail> {
    for by_pairs in [false, true] {
        let row = thrice(rt.alloc(), by_pairs)?;
        let other = thrice(rt.alloc(), !by_pairs)?;
        assert!(rt; row.same(&other));
        assert!(rt; row.len() == 6 && row.at(5).same(row.at(1)));
        assert!(rt; matches!(row.get(4), Some(Value::Int(1))) && row.get(6).is_none());
        let mut out = List::new(rt.alloc());
        row.spell(rt.alloc(), &mut out)?;
        assert!(rt; out.as_slice() == b" 1 \"ann\" 1 \"ann\" 1 \"ann\"".as_slice());
    }
    Ok(())
}

#[test]
fn spellings_are_kept(rt: HostRuntime) -> Result<(), Fail> {
    for bytes in [
        b"".as_slice(),
        b" 1 50",
        b" 123456 12345678",
        b" 123456 123456789",
    ] {
        let spelling = Spelling::copy_of(rt.alloc(), bytes)?;
        assert!(rt; spelling.bytes() == Some(bytes));
    }
    assert!(rt; Spelling::none().bytes().is_none());
    Ok(())
}

#[test]
fn texts_have_parts(rt: HostRuntime) -> Result<(), Fail> {
    let text = SharedText::copy_of(rt.alloc(), b"ann")?;
    assert!(rt; text.len() == 3);
    assert!(rt; text.part(1, 3)?.as_slice() == b"nn".as_slice());
    Ok(())
}

#[test]
fn integers_come_first(rt: HostRuntime) -> Result<(), Fail> {
    let nine = text(rt.alloc(), b"9")?;
    assert_eq!(rt; Value::Int(10).order(&nine), Ordering::Less);
    Ok(())
}
