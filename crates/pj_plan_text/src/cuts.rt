// Cutting cells into parts, and lines into cells.
ghost use Rattle.std.specs.Prelude.{◌≡◌, ◌<◌, IfOk, IfSome, length, position};
ghost use Rattle.pj_line.specs.Cells.{bytes_in};
ghost use Rattle.pj_plan_text.specs.Cuts.{around, cut_at, is_byte, parts_of};
ghost use Rattle.pj_plan_text.specs.Statements.{is_word};

use crate::word::Word;
use pj_line::Cells;
use pj_value::{List, NoMemory};
use std::alloc::Global;

/// The cells of a line, lent.
#[tactic(auto, using(crate::proofs::CellLoops::words_more, crate::proofs::CellLoops::words_end))]
pub(crate) fn words_in<'a>(alloc: Global, cells: &Cells<'a>) -> Result<List<Word<'a>>, NoMemory>
    ensures { IfOk result (λ words. words ≡ bytes_in cells.now) }
{
    let mut words = List::with_room(alloc, cells.len())?;
    for at in 0..cells.len() {
        let cell = cells.cell(at);
        words.push(Word { bytes: cell.bytes })?;
    }
    Ok(words)
}

/// The place of the first of these cells that is this word, at which they are cut.
pub(crate) fn place_of(word: &[u8], cells: &[Word<'_>]) -> Option<usize>
    ensures place { result ≡ position (is_word word.now) cells.now }
    ensures within { IfSome result (λ at. at < length cells.now) }
{
    cells.iter().position(|cell| cell.bytes == word)
}

fn byte_place(mark: u8, bytes: &[u8]) -> Option<usize>
    ensures place { result ≡ position (is_byte mark) bytes.now }
    ensures within { IfSome result (λ at. at < length bytes.now) }
{
    bytes.iter().position(|byte| *byte == mark)
}

/// What stands before the first of these bytes that is this one and behind it, if one is.
#[tactic(auto, using(crate::proofs::Parting::cut_around))]
pub(crate) fn cut<'a>(mark: u8, bytes: &'a [u8]) -> Option<(Word<'a>, Word<'a>)>
    ensures cut { result ≡ cut_at (is_byte mark) bytes.now }
    ensures shorter { IfSome result (λ parts. length parts.1 < length bytes.now) }
{
    match byte_place(mark, bytes) {
        Some(at) => {
            let (front, rest) = bytes.split_at(at);
            let (_mark, behind) = rest.split_at(1);
            Some((Word { bytes: front }, Word { bytes: behind }))
        }
        None => None,
    }
}

/// What stands between the bytes that are this one.
#[tactic(auto, using(crate::proofs::Parting::parts_start, crate::proofs::Parting::parts_more, crate::proofs::Parting::parts_end))]
pub(crate) fn parts<'a>(
    alloc: Global,
    mark: u8,
    bytes: &'a [u8],
) -> Result<List<Word<'a>>, NoMemory>
    ensures { IfOk result (λ parts. parts ≡ parts_of mark bytes.now) }
{
    let mut parts = List::new(alloc);
    let mut rest = bytes;
    loop {
        match cut(mark, rest) {
            Some((front, behind)) => {
                parts.push(front)?;
                rest = behind.bytes;
            }
            None => {
                parts.push(Word { bytes: rest })?;
                return Ok(parts);
            }
        }
    }
}
