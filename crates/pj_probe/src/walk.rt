// A walk through the combinations that join, one row after the other.
ghost use Rattle.std.specs.Prelude.{◌≡◌, ◌<◌, ◌≤◌, ◌++◌, ◌∷◌, [], true, length, map, IsTrue, OnOk, OnErr};
ghost use Rattle.pj_events.specs.Join.{joins};
ghost use Rattle.pj_probe.specs.Walks.{combined, sides_at};
ghost use Rattle.pj_probe.specs.Walking.{LacksOne, walked};
ghost use Rattle.pj_probe.specs.Visits.{Grows, GrowsByFront};
ghost use Rattle.pj_shape.specs.Joining.{parts_on};

use crate::lent::Candidates;
use crate::{JoinChecks, Joined, Lent, Visit};
use arrayvec::ArrayVec;
use pj_value::{NoMemory, Row};

/// The rows of a combination so far. A place that is not used holds the row that the stack was made with.
type Rows<'a> = ArrayVec<Lent<'a>, 16, &'a Row>;

/// Shows the visitor each combination of one candidate of each side that joins.
pub fn walk_all<S: Candidates, V: Visit>(
    checks: &JoinChecks,
    sides: &[S],
    visit: &mut V,
) -> Result<(), NoMemory>
    requires { length sides.now ≤ 16 }
    ensures told { IsTrue (V.told visit.new) → IsTrue (V.told visit.old) }
    ensures ok { OnOk result (Grows (V.told visit.new) (V.list visit.old) (V.list visit.new) (combined checks.now (sides_at 0 (map S.pairs sides.now)))) }
    ensures err { OnErr result (GrowsByFront (V.told visit.new) (V.list visit.old) (V.list visit.new) (combined checks.now (sides_at 0 (map S.pairs sides.now)))) }
{
    if sides.len() == 0 {
        visit.joined(Joined::of(&[]))?;
        return Ok(());
    }
    if sides[0].count() == 0 {
        return Ok(());
    }
    if lacks_one(sides) {
        return Ok(());
    }
    let mut rows = ArrayVec::new_in(sides[0].lend(0).row());
    walk(checks, sides, &mut rows, visit)
}

// Whether a side has no candidate.
fn lacks_one<S: Candidates>(sides: &[S]) -> bool
    ensures { result ≡ true → LacksOne (map S.pairs sides.now) }
{
    for side in sides {
        if side.count() == 0 {
            return true;
        }
    }
    false
}

/// Shows the visitor each combination that begins with these rows, which join, and joins. The rows are as before where it
/// ends well.
#[cycle(walking)]
fn walk<'a, S: Candidates, V: Visit>(
    checks: &JoinChecks,
    sides: &'a [S],
    rows: &mut Rows<'a>,
    visit: &mut V,
) -> Result<(), NoMemory>
    requires few { length sides.now ≤ 16 }
    requires joins { joins checks.now (parts_on 0 rows.old.items) ≡ true }
    ensures rows { OnOk result (rows.new.items ≡ rows.old.items) }
    ensures told { IsTrue (V.told visit.new) → IsTrue (V.told visit.old) }
    ensures ok { OnOk result (Grows (V.told visit.new) (V.list visit.old) (V.list visit.new) (walked checks.now (map S.pairs sides.now) rows.old.items)) }
    ensures err { OnErr result (GrowsByFront (V.told visit.new) (V.list visit.old) (V.list visit.new) (walked checks.now (map S.pairs sides.now) rows.old.items)) }
{
    if rows.len() >= sides.len() {
        visit.joined(Joined::of(rows.as_slice()))?;
        return Ok(());
    }
    let side = &sides[rows.len()];
    for place in 0..side.count() {
        walk_on(checks, sides, rows, side.lend(place), visit)?;
    }
    Ok(())
}

/// The same with one more row, where that joins with them.
#[cycle(walking)]
fn walk_on<'a, S: Candidates, V: Visit>(
    checks: &JoinChecks,
    sides: &'a [S],
    rows: &mut Rows<'a>,
    row: Lent<'a>,
    visit: &mut V,
) -> Result<(), NoMemory>
    requires few { length sides.now ≤ 16 }
    requires more { length rows.old.items < length sides.now }
    requires joins { joins checks.now (parts_on 0 rows.old.items) ≡ true }
    ensures rows { OnOk result (rows.new.items ≡ rows.old.items) }
    ensures told { IsTrue (V.told visit.new) → IsTrue (V.told visit.old) }
    ensures ok { OnOk result (Grows (V.told visit.new) (V.list visit.old) (V.list visit.new) (walked checks.now (map S.pairs sides.now) (rows.old.items ++ row.entry ∷ []))) }
    ensures err { OnErr result (GrowsByFront (V.told visit.new) (V.list visit.old) (V.list visit.new) (walked checks.now (map S.pairs sides.now) (rows.old.items ++ row.entry ∷ []))) }
{
    if !checks.fit(rows.as_slice(), row.row()) {
        return Ok(());
    }
    let count = rows.len();
    rows.push(row);
    walk(checks, sides, rows, visit)?;
    rows.truncate(count);
    Ok(())
}
