// The probe of a tuple over the stored tuples of a join.
ghost use Rattle.std.specs.Prelude.{◌≡◌, ◌<◌, ◌≤◌, length, IfOk};
ghost use Rattle.std.specs.Arc.{arc_value};
ghost use Rattle.pj_probe.specs.Routes.{IsProbeRoute, columns_of};
ghost use Rattle.pj_rows.specs.Tuples.{AreWide, tuples_in};
ghost use Rattle.pj_probe.specs.Choices.{choices};
ghost use Rattle.pj_probe.specs.Walks.{found_in};

use crate::checks::share_checks;
use crate::choosing::{Rows, choices};
use crate::route::ProbeRoute;
use crate::{Lent, Probe};
use pj_rows::Arrived;
use pj_state::{Shared, State};
use pj_value::{List, NoMemory};
use std::alloc::Global;

/// The probe of this tuple at the join with this number, over the stored tuples of each of at most 16 inputs; or `NoMemory`.
/// It keeps handles of the rows that may join with the tuple: of another input those that are older, and of its own the
/// tuple's alone.
pub fn probe_of(
    alloc: Global,
    join: u32,
    route: &ProbeRoute,
    own: &Arrived<'_>,
    sides: &[State],
) -> Result<Probe, NoMemory>
    requires few { length sides.now ≤ 16 }
    requires there { own.now.input < length sides.now }
    requires wide { AreWide sides.now }
    requires route { IsProbeRoute (arc_value route.now.checks) (columns_of sides.now) own.now.input route.now }
    ensures { let classes = arc_value route.now.checks in IfOk result (λ probe. probe ≡ found_in join own.now.ticket classes (choices classes own.now (tuples_in 0 sides.now))) }
{
    let checks = share_checks(&route.checks)?;
    let lent = choices(alloc, route, own, sides)?;
    let sides = share_all(alloc, lent.as_slice())?;
    Ok(Probe::new(join, own.ticket(), checks, sides))
}

// Handles of these rows.
fn share_rows(alloc: Global, rows: &[(u64, Lent<'_>)]) -> Result<List<(u64, Shared)>, NoMemory>
    ensures { IfOk result (λ copy. copy ≡ rows.now) }
{
    let mut copy = List::with_room(alloc, rows.len())?;
    for at in 0..rows.len() {
        let row = rows[at].1.row().copy(alloc)?;
        copy.push((rows[at].0, Shared::new(alloc, row)?))?;
    }
    Ok(copy)
}

// The same of each of these lists.
fn share_all(alloc: Global, lists: &[Rows<'_>]) -> Result<List<List<(u64, Shared)>>, NoMemory>
    ensures { IfOk result (λ copy. copy ≡ lists.now) }
{
    let mut copy = List::with_room(alloc, lists.len())?;
    for list in lists {
        copy.push(share_rows(alloc, list.as_slice())?)?;
    }
    Ok(copy)
}
