// A buffer that lends the lines of a source one by one.
ghost use Rattle.std.specs.Prelude.{◌≡◌, ◌≤◌, ◌^◌, [], true, IfOk, IsTrue};
ghost use Rattle.std.specs.Borrow.{sem};
ghost use Rattle.std.specs.Io.BufRead.{Rests};
ghost use Rattle.pj_line.specs.Buffers.{fresh, line_is_held, Called, KnowsEnd};

use crate::lines::line_of_piece;
use crate::pieces::{FoundPiece, PieceBuf};
use pj_io::Source;
use pj_value::NoMemory;
use std::alloc::Global;
use std::marker::Model;

/// The next piece of a source.
#[derive(Clone, Copy)]
pub enum Line<'a> {
    /// A piece that is not too long, without one carriage return at its end.
    Whole(&'a [u8]),
    /// A piece of more bytes than a line may have, which was passed over.
    TooLong,
    /// The source has ended, and no piece is left.
    End,
}

/// Why no further piece comes: a read failed, or as many bytes were taken as may be and the source had not ended.
#[derive(Clone, Copy, Debug, PartialEq, Eq)]
pub enum LineStop {
    Fault,
    ByteLimit,
}

/// Lends the lines of a source one by one, whatever pieces the source gives its bytes in.
#[derive(Drop)]
pub struct LineBuf {
    pieces: PieceBuf,
}

impl Model for LineBuf {
    ghost use Rattle.pj_line.specs.Buffers.{Buffered};
    ghost use Rattle.pj_line.specs.Searches.{buffered};

    ghost Value = { Buffered };

    ghost view = { λ b. buffered b.pieces };
}

impl LineBuf {
    ghost use Rattle.pj_line.specs.contracts.buffer.LineBuf.{the_row};

    /// A buffer for lines of at most `size` bytes, without their line feed and with a carriage return, that takes at most
    /// `limit` bytes; or `NoMemory`. `size` is at most 2^20 and `limit` at least 1.
    pub fn new(alloc: Global, size: u32, limit: u64) -> Result<LineBuf, NoMemory>
        requires size { size ≤ 2 ^ 20 }
        requires limit { 1 ≤ limit }
        ensures { IfOk result (λ buffer. buffer ≡ fresh size limit) }
    {
        let pieces = PieceBuf::new(alloc, size, limit)?;
        Ok(LineBuf { pieces })
    }

    /// Whether the next line that is not skipped stands in what is buffered, up to its line feed, or the end was read or a stop
    /// answered: then no call of `next_line` reads before such a line, the end or the stop is given.
    #[inline(always)]
    pub fn holds_line(&self) -> bool
        ensures { result ≡ line_is_held self.now }
    {
        self.pieces.holds_line()
    }

    /// The next piece, lent, with no memory taken. It reads only while no line feed stands in what is buffered. Once a read for
    /// this buffer has told that the source has ended, nothing is left of the source that is handed in, where it tells.
    ///
    /// `TooLong` comes exactly for a piece of more than `size` bytes, which is passed over whole; `End` exactly where the source
    /// has ended and no piece is left, and again at every later call. `Fault` comes only where the source's faults rose;
    /// `ByteLimit` exactly where `limit` bytes were taken without the end having been read and no line feed is left in the
    /// buffer. After a stop every call gives the same stop and reads nothing.
    pub fn next_line<S: Source>(&mut self, source: &mut S) -> Result<Line<'_>, LineStop>
        requires { KnowsEnd self.old (S.state source.old) }
        ensures* line { sem 𝓛 (Rests the_row self.entry (λ new.
            Called self.old new result (S.state source.old) (S.state source.new))) }
        ensures told { (S.state source.new).told ≡ (S.state source.old).told }
        ensures name { (S.state source.new).name ≡ (S.state source.old).name }
        ensures later { (S.state source.old).faults ≤ (S.state source.new).faults }
    {
        match self.pieces.advance(source)? {
            FoundPiece::Piece { start, end } => {
                let piece = self.pieces.window.part(start, end);
                Ok(Line::Whole(line_of_piece(piece)))
            }
            FoundPiece::LongPiece => Ok(Line::TooLong),
            FoundPiece::NoPiece => Ok(Line::End),
        }
    }
}
