// Laws of the cells, the spellings and the canonical lines, as contracts of functions that do nothing.
ghost use Rattle.std.specs.Prelude.{List, ℕ};
ghost use Rattle.pj_value.specs.declared.values.Value.{Value};
ghost use Rattle.pj_pattern.specs.Patterns.{Pattern};
ghost use Rattle.pj_line.specs.Lines.{HasNo};
ghost use Rattle.pj_element.specs.Elements.{row_line, punct_line};
ghost use Rattle.pj_element.specs.Laws.{CellsAreExact, UnclosedIsExact, ValuesAreExact, FormsAreExact, LinesAreExact, RowsAreReadAgain, PunctsAreReadAgain};

/// The grammar and what is computed agree on every line, in both directions: on the cells of a line, on the lines that are
/// unclosed, on the values and patterns that cells spell, and on what a line says of a stream. So each line has one reading
/// and only one.
pub fn reading_is_exact()
    ensures cells { CellsAreExact }
    ensures unclosed { UnclosedIsExact }
    ensures values { ValuesAreExact }
    ensures forms { FormsAreExact }
    ensures lines { LinesAreExact }
{}

/// No byte of a canonical line is a line feed.
pub fn lines_hold_no_feed()
    ensures rows { (row : List Value) → HasNo 10 (row_line row) }
    ensures puncts { (punct : List Pattern) → HasNo 10 (punct_line punct) }
{}

/// A canonical line is read again as what was printed.
pub fn lines_are_read_again()
    ensures rows { RowsAreReadAgain }
    ensures puncts { PunctsAreReadAgain }
{}
