// Patterns in memory can be spelled and read again: their values are storable, and they are in normal form. The functions here
// only look, for the proof.
ghost use Rattle.std.specs.Option.{option_copied};
ghost use Rattle.pj_element.specs.Laws.{AreKeptPatterns, IsKeptPattern, IsStorableEnd};

use pj_pattern::{Pattern, Shape};
use pj_value::{Value, see_value, see_values};

fn see_end(end: Option<&Value>)
    ensures { IsStorableEnd (option_copied end.entry) }
{
    match end {
        Some(value) => see_value(value),
        None => {}
    }
}

/// The pattern is in normal form, and its values are storable.
pub(crate) fn see_pattern(pattern: &Pattern)
    ensures { IsKeptPattern pattern.now }
{
    match pattern.shape() {
        Shape::Wild => {}
        Shape::Empty => {}
        Shape::Constant(value) => see_value(value),
        Shape::Range(low, high) => {
            see_end(low);
            see_end(high);
        }
        Shape::Members(values) => see_values(values),
    }
}

/// The patterns are in normal form, and their values are storable: so they are read again as they are printed. It only looks,
/// for a proof.
#[tactic(auto, using(crate::proofs::Stored::kept_more, crate::proofs::Stored::kept_end))]
pub fn see_patterns(patterns: &[Pattern])
    ensures { AreKeptPatterns patterns.now }
{
    for pattern in patterns {
        see_pattern(pattern);
    }
}
