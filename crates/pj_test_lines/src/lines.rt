// What no clause says: that the calls succeed with ample memory, and that the definitions mean the format.
ghost use Rattle.std.specs.Prelude.{◌≡◌, ◌^◌, [], ◌∷◌, map, None, Some, true, false, codes};
ghost use Rattle.pj_line.specs.Buffers.{piece_counts, KnowsEnd};
ghost use Rattle.pj_line.specs.Lines.{fed_pieces, lines_of, is_skipped as skipped};
ghost use Rattle.pj_line.specs.Cells.{cells_of, open_quote};

use pj_io::{MemSource, Source};
use pj_line::{Cell, CellFault, Cells, Line, LineBuf, LineStop, cut_into, is_blank, is_skipped};
use pj_value::NoMemory;
use std::alloc::Global;

// Whether the next call gives this line, or the stop of this name.
fn next_is<S: Source>(buffer: &mut LineBuf, source: &mut S, want: &str) -> bool
    requires { KnowsEnd buffer.old (S.state source.old) }
    ensures { KnowsEnd buffer.new (S.state source.new) }
{
    match buffer.next_line(source) {
        Ok(Line::Whole(line)) => line == want.as_bytes(),
        Ok(Line::TooLong) => want == "TooLong",
        Ok(Line::End) => want == "End",
        Err(LineStop::Fault) => want == "Fault",
        Err(LineStop::ByteLimit) => want == "ByteLimit",
    }
}

// Bytes that come three at a time, the most of a line and of all, the read that fails, and what each call gives.
const CASES: [(&str, u8, u64, u64, &str); 4] = [
    ("ab\r\n\nc\rd", 3, 9, 9, "ab||c\rd|End|End"),
    ("abcd\nef\r\n123\r", 3, 99, 9, "TooLong|ef|TooLong|End"),
    ("ab\ncd", 9, 4, 9, "ab|ByteLimit|ByteLimit"),
    ("ab\ncd\n", 9, 99, 1, "ab|Fault|Fault"),
];

fn are_given(
    alloc: Global,
    bytes: &str,
    size: u8,
    limit: u64,
    fail: u64,
    want: &str,
) -> Result<bool, NoMemory> {
    let mut buffer = LineBuf::new(alloc, u32::from(size), limit.max(1))?;
    let mut source = MemSource::new(alloc, bytes.as_bytes(), 3, &[fail])?;
    for line in want.split('|') {
        if !next_is(&mut buffer, &mut source, line) {
            return Ok(false);
        }
    }
    Ok(true)
}

#[test]
fn lines_are_given(rt: HostRuntime) {
    for (bytes, size, limit, fail, want) in CASES {
        let given = are_given(rt.alloc(), bytes, size, limit, fail, want);
        assert_eq!(rt; given, Ok(true), "at {want}");
    }
}

#[test]
fn cells_of_a_line(rt: HostRuntime) {
    let mut cut = Cells::none();
    assert!(rt; cut_into(b"t 1 2 3", &mut cut).is_ok());
    assert!(rt; cut_into(b" t\t\"a b\\\"\"1 x", &mut cut).is_ok());
    assert!(rt; cut.len() == 3 && cut.get(3).is_none());
    let last = cut.cell(2);
    assert!(rt; last.bytes == b"x".as_slice() && last.start == 12);
    for (at, bytes, start) in [(0, b"t".as_slice(), 1), (1, b"\"a b\\\"\"1", 3)] {
        let cell = cut.get(at);
        assert!(rt; matches!(&cell, Some(cell) if cell.bytes == bytes && cell.start == start));
    }
    let open = cut_into(b"t \"a\" \"b ", &mut cut);
    assert_eq!(rt; open, Err(CellFault::Unclosed { at: 6 }));
    assert!(rt; is_skipped(b" #") && is_blank(b'\t'));
}

// The definitions, computed on a few lines.
fn worked_lines()
    ensures lines { lines_of (codes "a\n\nb") ≡ codes "a" ∷ [] ∷ codes "b" ∷ [] }
    ensures fed { fed_pieces (codes "a\n\nb") ≡ codes "a" ∷ [] ∷ [] }
    ensures counts { map (piece_counts 3) (codes " #" ∷ codes "a" ∷ codes "\t" ∷ codes "#abc" ∷ []) ≡ false ∷ true ∷ false ∷ true ∷ [] }
    ensures cells { cells_of (codes " t 1") ≡ Some (codes "t" ∷ codes "1" ∷ []) }
    ensures closed { open_quote (codes "t 1") ≡ None }
    ensures open { open_quote (codes "t \" ") ≡ Some 2 }
    ensures comment { skipped (codes " #") ≡ true }
{}
