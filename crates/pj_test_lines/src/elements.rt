// What no clause says: that the calls succeed with ample memory, and that the definitions mean the format.
ghost use Rattle.std.specs.Prelude.{◌≡◌, [], ◌∷◌, None, Some, pos, negsuc, codes};
ghost use Rattle.pj_value.specs.declared.values.Value.TheVariants.{Int as IntValue, Text as TextValue};
ghost use Rattle.pj_pattern.specs.declared.pattern.Form.TheVariants.{Constant, Empty, Members, Range, Wild};
ghost use Rattle.pj_element.specs.declared.element.Read.TheVariants.{Tuple as TupleRead, Punct as PunctRead, Bad as BadRead, Skip as SkipRead};
ghost use Rattle.pj_element.specs.declared.element.Reject.TheVariants.{Arity, BadCell, NotElement, WrongKind};
ghost use Rattle.pj_element.specs.Elements.{reading_of};

use crate::texts::{append_read, schema_of};
use pj_element::{Spelled, pattern_text, read_element, read_pattern, read_value};
use pj_value::{Bytes, Kind, List, NoMemory, Value};
use std::alloc::Global;
use std::test::Fail;

// Whether the line, which is not too long, is read as this says.
fn is_read(alloc: Global, kinds: &[Kind], line: &[u8], want: &[u8]) -> Result<bool, NoMemory> {
    if line.len() > 65536 {
        return Ok(false);
    }
    let schema = schema_of(alloc, kinds)?;
    let mut out = List::new(alloc);
    append_read(alloc, read_element(alloc, &schema, line)?, &mut out)?;
    Ok(out.as_slice() == want)
}

// Tuples of a stream with an int column, each with the canonical line of what is read, or why it is rejected.
#[rattlefmt::skip]
const INT_TUPLES: &[(&str, &str)] = &[
    ("", "skip"), (" \t ", "skip"), ("\t#t 1", "skip"), (" \tt\t 1 \t", "t 1"), ("t -7", "t -7"), ("t 007", "t 7"),
    ("t -0", "t 0"), ("t 0", "t 0"), ("t -01", "t -1"), ("t  1", "t 1"),
    ("t 999999999999999999", "t 999999999999999999"), ("t 9223372036854775799", "t 9223372036854775799"),
    ("t 9223372036854775800", "t 9223372036854775800"), ("t -999999999999999999", "t -999999999999999999"),
    ("t 9223372036854775807", "t 9223372036854775807"), ("t -9223372036854775808", "t -9223372036854775808"),
    ("t 000000000000000000000000000000000001", "t 1"), ("t\r 1", "no element"), ("T 1", "no element"),
    ("t \"1", "no element"), ("t", "w1g0"), ("t 1 2", "w1g2"), ("t 12a", "b1"), ("t -", "b1"), ("t +1", "b1"),
    ("t 9223372036854775808", "b1"), ("t -9223372036854775809", "b1"), ("t *", "b1"), ("t \"1\"", "k1"),
];

// Punctuations of the same stream.
#[rattlefmt::skip]
const INT_PUNCTS: &[(&str, &str)] = &[
    ("p -01", "p -1"), ("p *", "p *"), ("p {}", "p {}"), ("p {7}", "p 7"), ("p {2|1|2}", "p {1|2}"),
    ("p [5..5]", "p 5"), ("p [5..3]", "p {}"), ("p [01..09]", "p [1..9]"), ("p [..]", "p *"),
    ("p [-9223372036854775808..]", "p *"), ("p [9223372036854775807..]", "p 9223372036854775807"),
    ("p [-9223372036854775808..9]", "p [..9]"), ("p 1 #", "w1g2"), ("p {1|}", "b1"), ("p [1..2..3]", "b1"),
    ("p [1.2]", "b1"), ("p [\"\"..]", "k1"), ("p {1|\"a|b\"}", "k1"),
];

// Lines of a stream with a text column.
#[rattlefmt::skip]
const TEXT_LINES: &[(&str, &str)] = &[
    ("t \" # \"", "t \" # \""), ("t \"\"", "t \"\""), ("t \"\\\\\"", "t \"\\\\\""), ("t \"a\tb\"", "t \"a\\tb\""),
    ("t \"\\\"\\\\\\n\\r\\t\"", "t \"\\\"\\\\\\n\\r\\t\""), ("t \"\\x41\\x4a\\x4A\"", "t \"AJJ\""),
    ("t \"\\x00\\x1F\\x7f\\x0a\"", "t \"\\x00\\x1f\\x7f\\n\""), ("p [\"\"..]", "p *"), ("p [..\"\"]", "p \"\""),
    ("p {\"b|\"|\"a..\"}", "p {\"a..\"|\"b|\"}"), ("p [\"a..\"..\"b]\"]", "p [\"a..\"..\"b]\"]"), ("t \"\\x4\"", "b1"),
    ("t \"\\X41\"", "b1"), ("t \"a\"b", "b1"), ("t b\"a\"", "b1"), ("t 'a'", "b1"), ("t\"a\"", "no element"),
    ("t \"a\\\"", "no element"), ("t \"a", "no element"), ("t \"a\"\"b\"", "b1"), ("t 1", "k1"), ("p [5..3]", "k1"),
];

// Lines of a stream with an int column and a text column.
#[rattlefmt::skip]
const PAIR_LINES: &[(&str, &str)] = &[
    ("t  1\t\"x\"", "t 1 \"x\""), ("t -12 \"a b\"", "t -12 \"a b\""), ("p {} *", "p {} *"), ("t 1", "w2g1"),
    ("t 1 \"x\" 2", "w2g3"), ("t 1 1", "k2"), ("t \"x\" x", "k1"), ("p * x", "b2"),
];

// The same, about what is read by places: canonical lines of tuples, and others.
#[rattlefmt::skip]
const PLACES: &[(&str, &str)] = &[
    ("t 7 \"x\"", "t 7 \"x\""), ("t -70 \"\"", "t -70 \"\""), ("t 0 \"a # b\"", "t 0 \"a # b\""),
    ("t 999999999999999999 \"\\\"\\\\\\n\\x1f\"", "t 999999999999999999 \"\\\"\\\\\\n\\x1f\""),
    ("t -9223372036854775799 \"x\"", "t -9223372036854775799 \"x\""), ("t 99999999999999999999 \"x\"", "b1"),
    ("t -0 \"x\"", "t 0 \"x\""), ("t 07 \"x\"", "t 7 \"x\""), ("t  7 \"x\"", "t 7 \"x\""), ("t 7 \"x\" ", "t 7 \"x\""),
    ("t 7 \"\\x41\"", "t 7 \"A\""), ("t 7 \"x", "no element"), ("t 7", "w2g1"), ("t 7 7", "k2"), ("t \"x\" 7", "k1"),
    ("t 7 \"x\" 7", "w2g3"), ("p 7 \"x\"", "p 7 \"x\""), ("", "skip"),
];

#[test]
fn odd_lines(rt: HostRuntime) {
    for (kinds, table) in [
        ([Kind::Int].as_slice(), INT_TUPLES),
        (&[Kind::Int], INT_PUNCTS),
        (&[Kind::Text], TEXT_LINES),
        (&[Kind::Int, Kind::Text], PAIR_LINES),
        (&[Kind::Int, Kind::Text], PLACES),
    ] {
        for (line, want) in table {
            let read = is_read(rt.alloc(), kinds, line.as_bytes(), want.as_bytes());
            assert_eq!(rt; read, Ok(true), "at {line}");
        }
    }
}

// Whether `t` and so many ones, 128 at most, are read as themselves, where there are as many columns.
fn reads_ones(alloc: Global, count: usize) -> Result<bool, NoMemory> {
    let count = count.min(128);
    let mut line = [b'1'; 257];
    line[0] = b't';
    for at in 0..128 {
        line[2 * at + 1] = b' ';
    }
    let part = &line[..2 * count + 1];
    is_read(alloc, &[Kind::Int; 128][..count], part, part)
}

// 120 columns are read by places, and 121 are not.
#[test]
fn at_most_128_cells(rt: HostRuntime) {
    for (count, are_read) in [(120, true), (121, true), (127, true), (128, false)] {
        let read = reads_ones(rt.alloc(), count);
        assert_eq!(rt; read, Ok(are_read), "at {count}");
    }
}

#[test]
fn values(rt: HostRuntime) {
    let value = read_value(rt.alloc(), b"-3");
    assert!(rt; matches!(&value, Ok(Some(Value::Int(-3)))));
}

// The pattern's canonical spelling, or `mixed` where it has values of both kinds, `none` where there is none.
fn spelled(alloc: Global, cell: &str) -> Result<Bytes, NoMemory> {
    let mut out = List::new(alloc);
    match read_pattern(alloc, cell.as_bytes())? {
        Spelled::Good(pattern) => pattern_text(alloc, &pattern, &mut out)?,
        Spelled::Mixed => out.append(b"mixed")?,
        Spelled::Not => out.append(b"none")?,
    }
    Ok(out)
}

#[test]
fn patterns(rt: HostRuntime) -> Result<(), Fail> {
    for (cell, want) in [
        ("{4}", "4"),
        ("[5..]", "[5..]"),
        ("[1..\"a\"]", "mixed"),
        ("{1", "none"),
    ] {
        assert!(rt;
            spelled(rt.alloc(), cell)?.as_slice() == want.as_bytes(),
            "at {cell}"
        );
    }
    Ok(())
}

// The definitions, computed on a few lines.
fn worked_lines()
    ensures tuple { reading_of (record { name = []; kind = Kind.Int } ∷ []) (codes "t -07") ≡ TupleRead (IntValue (negsuc 6) ∷ []) }
    ensures text { reading_of (record { name = []; kind = Kind.Text } ∷ []) (116 ∷ 32 ∷ 34 ∷ 92 ∷ 120 ∷ 52 ∷ 65 ∷ 34 ∷ []) ≡ TupleRead (TextValue (74 ∷ []) ∷ []) }
    ensures comment { reading_of [] (codes " #") ≡ SkipRead }
    ensures wild { reading_of (record { name = []; kind = Kind.Text } ∷ []) (codes "p *") ≡ PunctRead (Wild ∷ []) }
    ensures list { reading_of (record { name = []; kind = Kind.Int } ∷ []) (codes "p {2|1|2}") ≡ PunctRead (Members (IntValue (pos 1) ∷ IntValue (pos 2) ∷ []) ∷ []) }
    ensures range { reading_of (record { name = []; kind = Kind.Int } ∷ []) (codes "p [..9]") ≡ PunctRead (Range None (Some (IntValue (pos 9))) ∷ []) }
    ensures empty { reading_of (record { name = []; kind = Kind.Int } ∷ []) (codes "p [5..3]") ≡ PunctRead (Empty ∷ []) }
    ensures arity { reading_of (record { name = []; kind = Kind.Int } ∷ []) (codes "t 1 2") ≡ BadRead (Arity 1 2) }
    ensures cell { reading_of (record { name = []; kind = Kind.Int } ∷ []) (codes "t x") ≡ BadRead (BadCell 1) }
    ensures kind { reading_of (record { name = []; kind = Kind.Text } ∷ []) (codes "p [5..3]") ≡ BadRead (WrongKind 1) }
    ensures tag { reading_of [] (codes "x") ≡ BadRead NotElement }
{}
