// Lines of a file.
ghost use Rattle.std.specs.Prelude.{◌≡◌};
ghost use Rattle.pj_line.specs.Lines.{line_of, is_skipped as skipped, is_blank as blank};

/// The line of a piece: the piece without one carriage return at its end, where there is one.
pub fn line_of_piece(piece: &[u8]) -> &[u8]
    ensures { result.now ≡ line_of piece.now }
{
    match piece {
        [line @ .., b'\r'] => line,
        _ => piece,
    }
}

/// Whether the byte is a space or a tab.
pub fn is_blank(byte: u8) -> bool
    ensures { result ≡ blank byte }
{
    byte == b' ' || byte == b'\t'
}

/// Whether the line is skipped: it has no byte but blanks, or `#` is its first other byte.
pub fn is_skipped(line: &[u8]) -> bool
    ensures { result ≡ skipped line.now }
{
    for byte in line {
        if !is_blank(*byte) {
            return *byte == b'#';
        }
    }
    true
}
