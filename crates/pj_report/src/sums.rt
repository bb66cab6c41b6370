// Results that are counted and summed.
ghost use Rattle.std.specs.Prelude.{◌≡◌, ◌++◌, ◌∷◌, [], List};
ghost use Rattle.pj_pattern.specs.declared.element.Element.{Element};
ghost use Rattle.pj_events.specs.Outcomes.{elements_out};
ghost use Rattle.pj_report.specs.Results.{counts_of};
ghost use Rattle.pj_report.specs.Sums.{last_number as last_number_of, total_of};

use crate::results::{Counts, count};
use pj_events::Out;
use pj_value::{Row, Value};

/// Counts the elements that were handed out, and adds the numbers in the last column of their rows to the total.
pub(crate) fn sum_outs(outs: &[Out], counts: &mut Counts, total: &mut i64)
    ensures counted { (before : List Element) → counts.old ≡ counts_of before → counts.new ≡ counts_of (before ++ elements_out outs.now) }
    ensures summed { (before : List Element) → total.old ≡ total_of before → total.new ≡ total_of (before ++ elements_out outs.now) }
{
    for handed in outs {
        add_to(handed, total);
        count(handed, counts);
    }
}

// Adds the number in the last column to the total, if it is a row.
#[tactic(auto, using(crate::proofs::Summing::summed_row, crate::proofs::Summing::summed_punct, crate::proofs::Summing::summed_none))]
fn add_to(handed: &Out, total: &mut i64)
    ensures { (before : List Element) → total.old ≡ total_of before → total.new ≡ total_of (before ++ elements_out (handed.now ∷ [])) }
{
    match handed {
        Out::Tuple(row) => *total = total.saturating_add(last_number(row)),
        Out::Punct(_) => {}
        Out::Purged { .. } => {}
    }
}

// The number in the last column of a row; 0 where that is a text, or there is none.
fn last_number(row: &Row) -> i64
    ensures { result ≡ last_number_of row.now }
{
    match row.get(row.len().saturating_sub(1)) {
        Some(Value::Int(number)) => *number,
        Some(Value::Text(_)) => 0,
        None => 0,
    }
}
