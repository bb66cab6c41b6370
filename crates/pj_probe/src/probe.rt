// A tuple on its way through the work of a join.
ghost use Rattle.std.specs.Prelude.{◌≡◌, ◌≤◌, length, IfOk, IsTrue, OnOk, OnErr};
ghost use Rattle.std.specs.Arc.{arc_value};
ghost use Rattle.pj_probe.specs.Walks.{combined, found_in, sides_at};
ghost use Rattle.pj_probe.specs.Visits.{Grows, GrowsByFront};

use crate::walk::walk_all;
use crate::{JoinChecks, Joined, Lent, Visit};
use pj_state::Shared;
use pj_value::{List, NoMemory, Row};
use std::alloc::Global;
use std::marker::Model;
use std::sync::Arc;

/// The results of a tuple: the number of its join, its ticket there, and the joined rows in the order of their tickets.
#[derive(Drop)]
pub struct Found {
    pub join: u32,
    pub ticket: u64,
    pub rows: List<Row>,
}

/// A tuple that was taken, with the candidates of each other input. It is seen as what its work finds.
#[derive(Drop)]
pub struct Probe {
    join: u32,
    ticket: u64,
    checks: Arc<JoinChecks, Global>,
    sides: List<List<(u64, Shared)>>,
}

impl Model for Probe {
    ghost use Rattle.std.specs.Prelude.{◌≤◌, length};
    ghost use Rattle.std.specs.Arc.{arc_value};
    ghost use Rattle.pj_probe.specs.declared.probe.Found.{Found};
    ghost use Rattle.pj_probe.specs.Walks.{found_in, sides_at};

    ghost Value = { Found };

    ghost view = { λ p. found_in p.join p.ticket (arc_value p.checks) (sides_at 0 p.sides) };

    ghost invariant = { λ p. length p.sides ≤ 16 };
}

impl Probe {
    /// The probe with this ticket at the join with this number and these checks, of at most 16 inputs. For each input in order the
    /// candidates with their tickets, in the order of these; for the probe's own its own row alone.
    pub fn new(
        join: u32,
        ticket: u64,
        checks: Arc<JoinChecks, Global>,
        sides: List<List<(u64, Shared)>>,
    ) -> Probe
        requires { length sides ≤ 16 }
        ensures { result ≡ found_in join ticket (arc_value checks) (sides_at 0 sides) }
    {
        Probe {
            join,
            ticket,
            checks,
            sides,
        }
    }

    /// The number of its join.
    pub fn join(&self) -> u32
        ensures { result ≡ self.now.join }
    {
        self.join
    }

    /// Its ticket there.
    pub fn ticket(&self) -> u64
        ensures { result ≡ self.now.ticket }
    {
        self.ticket
    }

    /// Shows the visitor each combination of one candidate of each input in which all classes agree, in lexicographic
    /// order of the candidates' places, those of the first input slowest. It copies no row. Where the visitor refuses one
    /// the walk ends there.
    pub fn each<V: Visit>(&self, visit: &mut V) -> Result<(), NoMemory>
        ensures told { IsTrue (V.told visit.new) → IsTrue (V.told visit.old) }
        ensures ok { OnOk result (Grows (V.told visit.new) (V.list visit.old) (V.list visit.new) self.now.rows) }
        ensures err { OnErr result (GrowsByFront (V.told visit.new) (V.list visit.old) (V.list visit.new) self.now.rows) }
    {
        walk_all(&self.checks, self.sides.as_slice(), visit)
    }

    /// Finds its results: the row of each combination of one candidate of each input in which all classes agree, in the
    /// same order as `each`; or `NoMemory`.
    pub fn work(&self, alloc: Global) -> Result<Found, NoMemory>
        ensures { IfOk result (λ found. found ≡ self.now) }
    {
        let mut rows = JoinedRows {
            alloc,
            rows: List::new(alloc),
        };
        self.each(&mut rows)?;
        Ok(Found {
            join: self.join,
            ticket: self.ticket,
            rows: rows.rows,
        })
    }
}

/// Shows the visitor each combination of one candidate of each of at most 16 inputs, whose rows are lent, in which all classes
/// agree, in the order of `Probe::each`. Where the visitor refuses one the walk ends there.
pub fn each_lent<V: Visit>(
    checks: &JoinChecks,
    sides: &[List<(u64, Lent<'_>)>],
    visit: &mut V,
) -> Result<(), NoMemory>
    requires { length sides.now ≤ 16 }
    ensures told { IsTrue (V.told visit.new) → IsTrue (V.told visit.old) }
    ensures ok { OnOk result (Grows (V.told visit.new) (V.list visit.old) (V.list visit.new) (combined checks.now (sides_at 0 sides.now))) }
    ensures err { OnErr result (GrowsByFront (V.told visit.new) (V.list visit.old) (V.list visit.new) (combined checks.now (sides_at 0 sides.now))) }
{
    walk_all(checks, sides, visit)
}

// Makes the joined rows.
#[derive(Drop)]
struct JoinedRows {
    alloc: Global,
    rows: List<Row>,
}

impl Visit for JoinedRows {
    ghost use Rattle.std.specs.Prelude.{true};

    ghost told = { λ _. true };

    ghost list = { λ v. v.rows };

    fn joined(&mut self, parts: Joined<'_>) -> Result<(), NoMemory> {
        let row = parts.to_row(self.alloc)?;
        self.rows.push(row)?;
        Ok(())
    }
}
