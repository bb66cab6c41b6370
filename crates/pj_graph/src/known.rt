// Inputs among those that are known.
ghost use Rattle.std.specs.Prelude.{◌≡◌};
ghost use Rattle.pj_value.specs.Lists.{has};
ghost use Rattle.pj_shape.specs.Sets.{touches as touched};

use pj_shape::ClassCol;

/// Whether the class has a column of a known input.
pub fn touches(class: &[ClassCol], known: &[u32]) -> bool
    ensures { result ≡ touched (has known.now) class.now }
{
    class.iter().any(|c| is_among(known, c.input))
}

/// Whether the number is one of these.
pub fn is_among(numbers: &[u32], k: u32) -> bool
    ensures { result ≡ has numbers.now k }
{
    numbers.iter().any(|m| *m == k)
}
