// What a punctuation covers beside what those that came cover.
ghost use Rattle.std.specs.Prelude.{◌≡◌, ◌<◌, true, None, Some, length, IfOk, IfSome};
ghost use Rattle.pj_pattern.specs.declared.pattern.Form.TheVariants.{Range};
ghost use Rattle.pj_pattern.specs.Normal.{normal_of};
ghost use Rattle.pj_pattern.specs.Patterns.{up_to};
ghost use Rattle.pj_recheck.specs.Added.{IsAdded, IsBeside, IsBeyond, replaced};

use pj_pattern::{Pattern, Punct, Shape, append_copies};
use pj_puncts::{PunctStore, only_filled};
use pj_value::{List, NoMemory, TryClone, Value};
use std::alloc::Global;

/// What a punctuation covers that none covers which came before it: nothing, or no more than what another one covers; or
/// what it covers is not told in parts.
#[derive(Drop)]
pub enum Added {
    Nothing,
    Part(Punct),
    Whole,
}

// The values from one to another.
fn between(alloc: Global, low: &Value, high: &Value) -> Result<Pattern, NoMemory>
    requires { up_to low.now high.now ≡ true }
    ensures { IfOk result (λ p. p ≡ normal_of (Range (Some low.now) (Some high.now))) }
{
    let low = low.try_clone(alloc)?;
    let high = high.try_clone(alloc)?;
    Ok(Pattern::range(Some(low), Some(high)))
}

// Of a pattern with an upper end alone, the part from a value on.
fn upwards(alloc: Global, pattern: &Pattern, from: &Value) -> Result<Option<Pattern>, NoMemory>
    ensures { IfOk result (λ told. IfSome told (IsBeyond pattern.now (Range None (Some from.now)))) }
{
    match pattern.shape() {
        Shape::Wild => Ok(None),
        Shape::Empty => Ok(None),
        Shape::Constant(_) => Ok(None),
        Shape::Members(_) => Ok(None),
        Shape::Range(low, high) => match low {
            Some(_) => Ok(None),
            None => match high {
                None => Ok(None),
                Some(to) => {
                    if !pattern.matches(from) {
                        return Ok(None);
                    }
                    let part = between(alloc, from, to)?;
                    Ok(Some(part))
                }
            },
        },
    }
}

// Of a pattern with a lower end alone, the part up to a value.
fn downwards(alloc: Global, pattern: &Pattern, to: &Value) -> Result<Option<Pattern>, NoMemory>
    ensures { IfOk result (λ told. IfSome told (IsBeyond pattern.now (Range (Some to.now) None))) }
{
    match pattern.shape() {
        Shape::Wild => Ok(None),
        Shape::Empty => Ok(None),
        Shape::Constant(_) => Ok(None),
        Shape::Members(_) => Ok(None),
        Shape::Range(low, high) => match high {
            Some(_) => Ok(None),
            None => match low {
                None => Ok(None),
                Some(from) => {
                    if !pattern.matches(to) {
                        return Ok(None);
                    }
                    let part = between(alloc, from, to)?;
                    Ok(Some(part))
                }
            },
        },
    }
}

// What a range with one end matches beside another one, which has the same end less far; `None` where they are no such ranges.
fn beyond(alloc: Global, pattern: &Pattern, last: &Pattern) -> Result<Option<Pattern>, NoMemory>
    ensures { IfOk result (λ told. IfSome told (IsBeyond pattern.now last.now)) }
{
    match last.shape() {
        Shape::Wild => Ok(None),
        Shape::Empty => Ok(None),
        Shape::Constant(_) => Ok(None),
        Shape::Members(_) => Ok(None),
        Shape::Range(low, high) => match low {
            None => match high {
                None => Ok(None),
                Some(from) => {
                    let part = upwards(alloc, pattern, from)?;
                    Ok(part)
                }
            },
            Some(to) => match high {
                None => {
                    let part = downwards(alloc, pattern, to)?;
                    Ok(part)
                }
                Some(_) => Ok(None),
            },
        },
    }
}

// The patterns with another one in a column.
fn with_pattern(
    alloc: Global,
    punct: &Punct,
    column: usize,
    pattern: Pattern,
) -> Result<Punct, NoMemory>
    requires { column < length punct.now }
    ensures { IfOk result (λ rest. rest ≡ replaced punct.now column pattern) }
{
    let (front, from) = punct.as_slice().split_at(column);
    let (_, behind) = from.split_at(1);
    let mut patterns = List::with_room(alloc, punct.len())?;
    append_copies(alloc, front, &mut patterns)?;
    patterns.push(pattern)?;
    append_copies(alloc, behind, &mut patterns)?;
    Ok(Punct::of(patterns))
}

// What a punctuation covers beside the last watermark of its column, where it is one too: what is between both ends. `None`
// where they are no such punctuations.
fn beside(alloc: Global, punct: &Punct, last: &Punct) -> Result<Option<Punct>, NoMemory>
    ensures { IfOk result (λ told. IfSome told (IsBeside punct.now last.now)) }
{
    if punct.len() != last.len() {
        return Ok(None);
    }
    match only_filled(last.as_slice()) {
        None => Ok(None),
        Some(column) => match beyond(alloc, punct.at(column), last.at(column))? {
            None => Ok(None),
            Some(part) => {
                let rest = with_pattern(alloc, punct, column, part)?;
                Ok(Some(rest))
            }
        },
    }
}

/// What a punctuation covers that none covers which came: of a watermark what is between its end and that of the last one that
/// bounds the same column at the same end, with both ends.
pub fn added_by(alloc: Global, came: &PunctStore, punct: &Punct) -> Result<Added, NoMemory>
    ensures { IfOk result (IsAdded came.now.kept punct.now) }
{
    match came.last_like(punct) {
        None => Ok(Added::Whole),
        Some(last) => {
            if last.covers(punct) {
                return Ok(Added::Nothing);
            }
            match beside(alloc, punct, last)? {
                None => Ok(Added::Whole),
                Some(rest) => Ok(Added::Part(rest)),
            }
        }
    }
}
