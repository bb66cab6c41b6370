// Where the parts of a pattern stand in its cell.
ghost use Rattle.std.specs.Prelude.{◌≡◌, ◌==◌, ◌&&◌};
ghost use Rattle.std.specs.Option.{option_copied};
ghost use Rattle.pj_line.specs.Cells.{is_outside as outside};
ghost use Rattle.pj_element.specs.Forms.{before_last as all_but_last};
ghost use Rattle.pj_element.specs.Splits.{are_dots as dots_at, AreDots, IsPartLen};

use pj_line::{Quote, after, is_outside};

/// The bytes before the last one, where that is the closing one.
#[tactic(auto, using(crate::proofs::Splits::closing_is_last, crate::proofs::Splits::closing_is_not_last))]
pub fn before_last(bytes: &[u8], close: u8) -> Option<&[u8]>
    ensures { option_copied result ≡ all_but_last close bytes.now }
{
    match bytes {
        [inner @ .., last] => { if *last == close { Some(inner) } else { None } }
        [] => None,
    }
}

/// How many bytes the first part has, up to the next bar outside quotes or the end.
#[tactic(auto, using(crate::proofs::Splits::part_more, crate::proofs::Splits::part_ends, crate::proofs::Splits::part_is_last))]
pub fn part_len(bytes: &[u8]) -> usize
    ensures { IsPartLen bytes.now result }
{
    let mut quote = Quote::Outside;
    for (at, byte) in bytes.iter().enumerate() {
        if ends_part(quote, *byte) {
            return at;
        }
        quote = after(quote, *byte);
    }
    bytes.len()
}

// Whether the byte is a bar outside quotes.
fn ends_part(quote: Quote, byte: u8) -> bool
    ensures { result ≡ (outside quote && (byte == 124)) }
{
    is_outside(quote) && byte == b'|'
}

/// Where the first two dots outside quotes stand.
#[tactic(auto, using(crate::proofs::Splits::dots_more, crate::proofs::Splits::dots_found, crate::proofs::Splits::dots_none))]
pub fn find_dots(bytes: &[u8]) -> Option<usize>
    ensures { AreDots bytes.now result }
{
    let mut quote = Quote::Outside;
    for (at, byte) in bytes.iter().enumerate() {
        let (_, rest) = bytes.split_at(at);
        if are_dots(quote, rest) {
            return Some(at);
        }
        quote = after(quote, *byte);
    }
    None
}

// Whether two dots outside quotes stand at the front.
fn are_dots(quote: Quote, rest: &[u8]) -> bool
    ensures { result ≡ dots_at quote rest.now }
{
    match rest {
        [b'.', b'.', ..] => is_outside(quote),
        _ => false,
    }
}
