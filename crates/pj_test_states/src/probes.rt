// What no clause says: that the calls succeed with ample memory, and what the definitions mean on a join by hand.

use crate::lines::{are_rows, row};
use pj_probe::{JoinChecks, Joined, Lent, Probe, Visit, each_lent};
use pj_shape::ClassCol;
use pj_state::Shared;
use pj_value::{List, NoMemory, Value};
use std::alloc::Global;
use std::sync::Arc;

fn class(alloc: Global, a: (u32, u32), b: (u32, u32)) -> Result<List<ClassCol>, NoMemory> {
    let mut class = List::new(alloc);
    for (input, column) in [a, b] {
        class.push(ClassCol { input, column })?;
    }
    Ok(class)
}

// The checks of a join of three inputs: the first columns of 0 and 1 are equal, and the second ones of 1 and 2.
fn triple(alloc: Global) -> Result<Arc<JoinChecks, Global>, NoMemory> {
    let mut classes = List::new(alloc);
    classes.push(class(alloc, (0, 0), (1, 0))?)?;
    classes.push(class(alloc, (1, 1), (2, 1))?)?;
    JoinChecks::new(alloc, classes.as_slice())
}

// Rows with their tickets.
type Side = &'static [(u64, &'static str)];

fn side(alloc: Global, rows: Side) -> Result<List<(u64, Shared)>, NoMemory> {
    let mut side = List::new(alloc);
    for (ticket, cells) in rows {
        side.push((*ticket, Shared::new(alloc, row(alloc, cells)?)?))?;
    }
    Ok(side)
}

// Two candidates of each other input of which all join with the row of the second one, and a few that don't.
const SIDES: [Side; 3] = [
    &[(0, "1 10"), (1, "2 11"), (2, "1 12")],
    &[(9, "1 5")],
    &[(3, "20 5"), (4, "21 6"), (5, "22 5")],
];

fn sides(alloc: Global) -> Result<List<List<(u64, Shared)>>, NoMemory> {
    let mut sides = List::new(alloc);
    for rows in SIDES {
        sides.push(side(alloc, rows)?)?;
    }
    Ok(sides)
}

// The probe with ticket 9 of the join with number 7.
fn probe(alloc: Global) -> Result<Probe, NoMemory> {
    let sides = sides(alloc)?;
    if sides.len() > 16 {
        return Err(NoMemory);
    }
    Ok(Probe::new(7, 9, triple(alloc)?, sides))
}

fn lent(alloc: Global, side: &[(u64, Shared)]) -> Result<List<(u64, Lent<'_>)>, NoMemory> {
    let mut rows = List::new(alloc);
    for at in 0..side.len() {
        rows.push((side[at].0, Lent::of(side[at].1.row())))?;
    }
    Ok(rows)
}

fn lent_sides<'a>(
    alloc: Global,
    sides: &'a [List<(u64, Shared)>],
) -> Result<List<List<(u64, Lent<'a>)>>, NoMemory> {
    let mut all = List::new(alloc);
    for at in 0..sides.len() {
        all.push(lent(alloc, sides[at].as_slice())?)?;
    }
    Ok(all)
}

fn number(value: Option<&Value>) -> i64 {
    match value {
        Some(Value::Int(number)) => *number,
        Some(Value::Text(_)) => -2,
        None => -1,
    }
}

// The number in a column of the joined row.
fn number_at(parts: &Joined<'_>, column: u32) -> i64 {
    match parts.get(column) {
        None => -1,
        Some(_) => number(Some(parts.value(column))),
    }
}

// Notes some numbers of each combination, of so many at most.
#[derive(Drop)]
struct Notes {
    numbers: Vec<i64>,
    left: usize,
}

impl Visit for Notes {
    ghost use Rattle.std.specs.Prelude.{false, []};

    ghost told = { λ _. false };

    ghost list = { λ _. [] };

    fn joined(&mut self, parts: Joined<'_>) -> Result<(), NoMemory> {
        if self.left == 0 {
            return Err(NoMemory);
        }
        self.left -= 1;
        if parts.parts() == 3 {
            self.numbers.push(number(parts.part(2).get(0)))?;
            self.numbers.push(number(parts.part(0).get(1)))?;
        }
        self.numbers.push(number_at(&parts, 2))?;
        self.numbers.push(number_at(&parts, 6))?;
        Ok(())
    }
}

// Whether so many numbers at most are noted as these, and the walk then ends.
fn is_noted(alloc: Global, most: usize, expected: &[i64]) -> Result<bool, NoMemory> {
    let probe = probe(alloc)?;
    let mut notes = Notes {
        numbers: Vec::new(alloc),
        left: most,
    };
    let is_refused = probe.each(&mut notes).is_err();
    Ok(notes.numbers.as_slice() == expected && is_refused == (most < 4))
}

// The same of the same rows, lent.
fn is_noted_lent(alloc: Global, expected: &[i64]) -> Result<bool, NoMemory> {
    let checks = triple(alloc)?;
    let owned = sides(alloc)?;
    let sides = lent_sides(alloc, owned.as_slice())?;
    if sides.len() > 16 {
        return Ok(false);
    }
    let mut notes = Notes {
        numbers: Vec::new(alloc),
        left: 4,
    };
    each_lent(&checks, sides.as_slice(), &mut notes)?;
    Ok(notes.numbers.as_slice() == expected)
}

// Whether these rows are found.
fn is_found(alloc: Global, lines: &str) -> Result<bool, NoMemory> {
    let found = probe(alloc)?.work(alloc)?;
    if found.join != 7 || found.ticket != 9 {
        return Ok(false);
    }
    are_rows(alloc, found.rows.as_slice(), lines)
}

#[test]
fn finds_the_rows_in_order(rt: HostRuntime) {
    let lines = "t 1 10 1 5 20 5\nt 1 10 1 5 22 5\nt 1 12 1 5 20 5\nt 1 12 1 5 22 5\n";
    assert_eq!(rt; is_found(rt.alloc(), lines), Ok(true));
}

const NOTES: [i64; 16] = [20, 10, 1, -1, 22, 10, 1, -1, 20, 12, 1, -1, 22, 12, 1, -1];

#[test]
fn shows_parts_and_values(rt: HostRuntime) {
    assert_eq!(rt; is_noted(rt.alloc(), 4, &NOTES), Ok(true));
}

#[test]
fn shows_the_same_of_lent_rows(rt: HostRuntime) {
    assert_eq!(rt; is_noted_lent(rt.alloc(), &NOTES), Ok(true));
}

#[test]
fn ends_where_the_visitor_refuses(rt: HostRuntime) {
    assert_eq!(rt; is_noted(rt.alloc(), 1, &[20, 10, 1, -1]), Ok(true));
}
