// Whether a line stands whole in bytes that are held.
ghost use Rattle.std.specs.Prelude.{◌≡◌, ◌<◌, [], ◌∷◌, Some, length, MatchOption};
ghost use Rattle.std.specs.List.{list_any};
ghost use Rattle.pj_line.specs.Lines.{fed_pieces};
ghost use Rattle.pj_line.specs.Buffers.{piece_counts};
ghost use Rattle.pj_line.specs.FirstFeed.{IsFeedAt};

use crate::lines::{is_skipped, line_of_piece};
use memchr::memchr;

// Whether a piece that is too long, or whose line is not skipped, stands in these bytes up to its line feed; `feed` is the place
// of the first line feed.
pub(crate) fn holds_piece(bytes: &[u8], feed: Option<usize>, size: u32) -> bool
    requires { IsFeedAt bytes.now feed }
    ensures { result ≡ list_any (piece_counts size) (fed_pieces bytes.now) }
{
    match feed {
        None => false,
        Some(at) => {
            let (piece, behind) = cut_at_feed(bytes, at);
            counts(piece, size) || holds_more(behind, size)
        }
    }
}

// The same, with each line feed looked for.
fn holds_more(bytes: &[u8], size: u32) -> bool
    ensures { result ≡ list_any (piece_counts size) (fed_pieces bytes.now) }
{
    let mut rest = bytes;
    while let Some((piece, behind)) = split_piece(rest) {
        if counts(piece, size) {
            return true;
        }
        rest = behind;
    }
    false
}

// The first piece that ends with a line feed, and what stands behind that.
fn split_piece(bytes: &[u8]) -> Option<(&[u8], &[u8])>
    ensures { MatchOption result (fed_pieces bytes.now ≡ []) (λ parts.
        (fed_pieces bytes.now ≡ parts.0.now ∷ fed_pieces parts.1.now) × (length parts.1.now < length bytes.now)) }
{
    match memchr(b'\n', bytes) {
        None => None,
        Some(at) => Some(cut_at_feed(bytes, at)),
    }
}

// What stands in front of a line feed and behind it.
fn cut_at_feed(bytes: &[u8], at: usize) -> (&[u8], &[u8])
    requires { IsFeedAt bytes.now (Some at) }
    ensures parts { fed_pieces bytes.now ≡ result.0.now ∷ fed_pieces result.1.now }
    ensures shorter { length result.1.now < length bytes.now }
{
    let (piece, behind) = bytes.split_at(at);
    let (_, rest) = behind.split_at(1);
    (piece, rest)
}

fn counts(piece: &[u8], size: u32) -> bool
    ensures { result ≡ piece_counts size piece.now }
{
    piece.len() > size as usize || !is_skipped(line_of_piece(piece))
}
