// Which stored rows are marked where rows of another input go.
ghost use Rattle.std.specs.Prelude.{IfSome};
ghost use Rattle.pj_rows.specs.Tuples.{AreWide};
ghost use Rattle.pj_recheck.specs.Recheck.{BackLeaves, BacksFit, BacksLeave, LeavesBackOwner, WayFits};
ghost use Rattle.pj_recheck.specs.Watching.{AreFewer, IsFewer};

use crate::marks::DueRechecks;
use crate::reaching::owners;
use crate::routes::BackRoute;
use pj_state::State;
use std::alloc::Global;

// Marks the rows to which the route leads back from rows with these tickets; or all.
fn mark_back(
    alloc: Global,
    due: &mut DueRechecks,
    back: &BackRoute,
    row_states: &[State],
    gone: &[u64],
)
    requires wide { AreWide row_states.now }
    requires fits { IfSome back.now.way (WayFits row_states.now) }
    ensures fewer { IsFewer due.old due.new }
    ensures aside { BackLeaves row_states.now back.now gone.now due.new }
{
    match &back.way {
        None => due.mark_all(),
        Some(way) => match owners(alloc, row_states, way, gone) {
            Ok(Some(found)) => due.mark_or_all(found.as_slice()),
            Ok(None) => due.mark_all(),
            Err(_) => due.mark_all(),
        },
    }
}

// The same among those of the route's owner.
fn mark_owner(
    alloc: Global,
    due: &mut Vec<DueRechecks>,
    back: &BackRoute,
    row_states: &[State],
    gone: &[u64],
)
    requires wide { AreWide row_states.now }
    requires fits { IfSome back.now.way (WayFits row_states.now) }
    ensures fewer { AreFewer due.old.items due.new.items }
    ensures aside { LeavesBackOwner row_states.now back.now gone.now due.new.items }
{
    if (back.owner as usize) < due.len() {
        mark_back(alloc, &mut due[back.owner as usize], back, row_states, gone);
    }
}

/// Marks the rows of each input that ask through rows with these tickets, where these routes back begin.
pub fn mark_dependents(
    alloc: Global,
    due: &mut Vec<DueRechecks>,
    backs: &[BackRoute],
    row_states: &[State],
    gone: &[u64],
)
    requires wide { AreWide row_states.now }
    requires fit { BacksFit row_states.now backs.now }
    ensures fewer { AreFewer due.old.items due.new.items }
    ensures aside { BacksLeave row_states.now backs.now gone.now due.new.items }
{
    if gone.len() == 0 {
        return;
    }
    for back in backs {
        mark_owner(alloc, due, back, row_states, gone);
    }
}
