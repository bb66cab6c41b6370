// The forms of names.
ghost use Rattle.std.specs.Prelude.{◌≡◌};
ghost use Rattle.std.specs.List.{list_all};
ghost use Rattle.pj_plan.specs.Names.{begins_small as begins, is_column_name as column_name, is_name as name_form, is_name_byte as name_byte, is_word as word_form};

/// Whether the cell is the name of a node: 1 to 32 bytes, a small letter and then small letters, digits and `_`, and none of
/// `on`, `where`, `by` and `of`.
pub(crate) fn is_name(cell: &[u8]) -> bool
    ensures { result ≡ name_form cell.now }
{
    is_column_name(cell)
        && !(cell == b"on".as_slice() || (cell == b"where".as_slice() || cell == b"by".as_slice()))
}

/// Whether the cell is the name of a column: as that of a node, or `on`, `where` or `by`.
pub(crate) fn is_column_name(cell: &[u8]) -> bool
    ensures { result ≡ column_name cell.now }
{
    is_word(cell) && !(cell == b"of".as_slice())
}

fn is_word(cell: &[u8]) -> bool
    ensures { result ≡ word_form cell.now }
{
    begins_small(cell) && (cell.len() <= 32 && all_name_bytes(cell))
}

fn all_name_bytes(cell: &[u8]) -> bool
    ensures { result ≡ list_all name_byte cell.now }
{
    cell.iter().all(|byte| is_name_byte(*byte))
}

fn begins_small(cell: &[u8]) -> bool
    ensures { result ≡ begins cell.now }
{
    match cell {
        [first, ..] => first.is_ascii_lowercase(),
        [] => false,
    }
}

fn is_name_byte(byte: u8) -> bool
    ensures { result ≡ name_byte byte }
{
    matches!(byte, b'a'..=b'z' | b'0'..=b'9' | b'_')
}
