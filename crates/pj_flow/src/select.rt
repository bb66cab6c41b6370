// Selects.
ghost use Rattle.std.specs.Prelude.{◌≡◌};
ghost use Rattle.pj_events.specs.Operators.{select_hands};
ghost use Rattle.pj_flow.specs.Handed.{row_handed};

use pj_pattern::{Element, Punct};
use pj_value::Row;

/// What a select hands up of a tuple: the row itself, or `None` exactly where it does not match the test. A select hands up
/// each punctuation as it is.
pub fn select_tuple(test: &Punct, row: Row) -> Option<Row>
    ensures { row_handed result ≡ select_hands test.now (Element.Tuple row) }
{
    if test.matches(&row) { Some(row) } else { None }
}
