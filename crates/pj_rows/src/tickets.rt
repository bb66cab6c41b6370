// Tickets in order.
ghost use Rattle.std.specs.Prelude.{ℕ};
ghost use Rattle.pj_value.specs.Lists.{In};
ghost use Rattle.pj_state.specs.Rising.{IsRising, itself};

use pj_value::List;

/// The tickets in order, each once.
pub fn in_order(list: List<u64>) -> Vec<u64>
    ensures rising { IsRising itself result.items }
    ensures all { (n : ℕ) → In n list → In n result.items }
{
    let mut tickets = list.into_vec();
    if tickets.len() > 1 {
        tickets.sort_unstable();
        tickets.dedup();
    }
    tickets
}
