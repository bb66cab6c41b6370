// The sweeps of a join beside those of a plain one, which keeps all in lists and judges each row at each sweep.
ghost use Rattle.std.specs.Prelude.{◌≡◌, ◌<◌};
ghost use Rattle.pj_test_joins.specs.Triples.{triple_join};

use crate::joins::{join_of, next_count, put};
use pj_join::{Join, JoinStop};
use pj_pattern::{Pattern, Punct};
use pj_value::{List, NoMemory, Value};
use std::alloc::Global;
use std::test::Fail;

// A row of two numbers.
#[derive(Clone, Copy)]
struct PlainRow {
    ticket: u64,
    input: u32,
    a: i64,
    b: i64,
}

// That no more rows of an input come with a number from one to another in this column.
#[derive(Clone, Copy)]
struct Said {
    ticket: u64,
    input: u32,
    column: u32,
    from: i64,
    to: i64,
}

#[derive(Drop)]
struct Plain {
    rows: List<PlainRow>,
    said: List<Said>,
}

// A number below this one, from one to the next.
fn draw(seed: &mut u64, below: u64) -> u64
    requires { 0 < below }
    ensures { result < below }
{
    *seed = seed
        .wrapping_mul(6364136223846793005)
        .wrapping_add(1442695040888963407);
    (*seed >> 33) % below
}

fn number(seed: &mut u64) -> i64 {
    draw(seed, 8) as i64
}

fn is_said(said: &[Said], input: u32, column: u32, number: i64) -> bool {
    said.iter().any(|s| s.input == input
        && s.column == column
        && s.from <= number
        && number <= s.to)
}

// Whether what a row of the first input asks for is said: for each row of the second one with its first number, too.
fn first_is_ripe(plain: &Plain, row: PlainRow) -> bool {
    let said = plain.said.as_slice();
    for other in plain.rows.as_slice() {
        if other.input == 1 && other.a == row.a && !is_said(said, 2, 1, other.b) {
            return false;
        }
    }
    is_said(said, 1, 0, row.a)
}

// The same of the second input: the second entry asks only where a row of the first one has its first number.
fn second_is_ripe(plain: &Plain, row: PlainRow) -> bool {
    let said = plain.said.as_slice();
    for other in plain.rows.as_slice() {
        if other.input == 0 && other.a == row.a && !is_said(said, 2, 1, row.b) {
            return false;
        }
    }
    is_said(said, 0, 0, row.a)
}

// The same of the third input.
fn third_is_ripe(plain: &Plain, row: PlainRow) -> bool {
    let said = plain.said.as_slice();
    for other in plain.rows.as_slice() {
        if other.input == 1 && other.b == row.b && !is_said(said, 0, 0, other.a) {
            return false;
        }
    }
    is_said(said, 1, 1, row.b)
}

fn is_ripe(plain: &Plain, row: PlainRow) -> bool {
    match row.input {
        0 => first_is_ripe(plain, row),
        1 => second_is_ripe(plain, row),
        _ => third_is_ripe(plain, row),
    }
}

// What came below a ticket.
fn older(alloc: Global, plain: &Plain, low: u64) -> Result<Plain, NoMemory> {
    Ok(Plain {
        rows: older_rows(alloc, plain.rows.as_slice(), low)?,
        said: older_said(alloc, plain.said.as_slice(), low)?,
    })
}

fn older_rows(alloc: Global, rows: &[PlainRow], low: u64) -> Result<List<PlainRow>, NoMemory> {
    let mut older = List::new(alloc);
    for row in rows {
        if row.ticket < low {
            older.push(*row)?;
        }
    }
    Ok(older)
}

fn older_said(alloc: Global, said: &[Said], low: u64) -> Result<List<Said>, NoMemory> {
    let mut older = List::new(alloc);
    for one in said {
        if one.ticket < low {
            older.push(*one)?;
        }
    }
    Ok(older)
}

// How many rows of the input go: those below the low-water ticket that are ripe by what came below it.
fn plain_sweep(alloc: Global, plain: &mut Plain, input: u32, low: u64) -> Result<u64, NoMemory> {
    let below = older(alloc, plain, low)?;
    let mut left = List::new(alloc);
    let mut count = 0_u64;
    for row in plain.rows.as_slice() {
        if row.input == input && row.ticket < low && is_ripe(&below, *row) {
            count = count.saturating_add(1);
        } else {
            left.push(*row)?;
        }
    }
    plain.rows = left;
    Ok(count)
}

// Gives the least tickets, until so many are left.
fn give_all_but(alloc: Global, join: &mut Join, held: u64) -> Result<(), NoMemory>
    requires { join.old.spec ≡ triple_join }
    ensures { join.new.spec ≡ triple_join }
{
    for _at in 0..join.pending().saturating_sub(held) {
        next_count(alloc, join)?;
    }
    Ok(())
}

// Some tuple comes, and all tickets but so many are given.
fn some_tuple(
    alloc: Global,
    join: &mut Join,
    plain: &mut Plain,
    seed: &mut u64,
    held: u64,
) -> Result<(), JoinStop>
    requires { join.old.spec ≡ triple_join }
    ensures { join.new.spec ≡ triple_join }
{
    let input = draw(seed, 3) as u32;
    let a = number(seed);
    let b = number(seed);
    let ticket = put(alloc, join, input, a, b)?;
    plain.rows.push(PlainRow {
        ticket,
        input,
        a,
        b,
    })?;
    give_all_but(alloc, join, held)?;
    Ok(())
}

// A range of numbers, all of which are at least 0.
fn between(from: i64, to: i64) -> Pattern {
    if from == 0 {
        return Pattern::range(None, Some(Value::Int(to)));
    }
    Pattern::range(Some(Value::Int(from)), Some(Value::Int(to)))
}

// Says so, and gives the ticket.
fn say(alloc: Global, join: &mut Join, said: Said) -> Result<u64, JoinStop>
    requires spec { join.old.spec ≡ triple_join }
    requires input { said.input < 3 }
    ensures { join.new.spec ≡ triple_join }
{
    let mut patterns = List::new(alloc);
    if said.column == 0 {
        patterns.push(between(said.from, said.to))?;
        patterns.push(Pattern::wild())?;
    } else {
        patterns.push(Pattern::wild())?;
        patterns.push(between(said.from, said.to))?;
    }
    let mut out = List::new(alloc);
    let ticket = join.punct(said.input, Punct::of(patterns), &mut out)?;
    Ok(ticket)
}

// Some punctuation comes: of the first input by its first column, of the third one by its second.
fn some_punct(
    alloc: Global,
    join: &mut Join,
    plain: &mut Plain,
    seed: &mut u64,
) -> Result<(), JoinStop>
    requires { join.old.spec ≡ triple_join }
    ensures { join.new.spec ≡ triple_join }
{
    let input = draw(seed, 3) as u32;
    let column = match input {
        0 => 0,
        1 => draw(seed, 2) as u32,
        _ => 1,
    };
    let from = number(seed);
    let mut said = Said {
        ticket: 0,
        input,
        column,
        from,
        to: from.saturating_add(draw(seed, 2) as i64),
    };
    said.ticket = say(alloc, join, said)?;
    plain.said.push(said)?;
    Ok(())
}

// Whether a sweep of some input removes as many rows of both.
fn some_sweep(
    alloc: Global,
    join: &mut Join,
    plain: &mut Plain,
    seed: &mut u64,
) -> Result<bool, JoinStop>
    requires { join.old.spec ≡ triple_join }
    ensures { join.new.spec ≡ triple_join }
{
    let input = draw(seed, 3) as u32;
    let mut removed = List::new(alloc);
    let mut out = List::new(alloc);
    let low = join.low();
    let count = join.sweep(input, &mut removed, &mut out)?;
    Ok(count == plain_sweep(alloc, plain, input, low)?)
}

fn some_step(
    alloc: Global,
    join: &mut Join,
    plain: &mut Plain,
    seed: &mut u64,
    held: u64,
) -> Result<bool, JoinStop>
    requires { join.old.spec ≡ triple_join }
    ensures { join.new.spec ≡ triple_join }
{
    let kind = draw(seed, 10);
    if kind == 0 {
        some_punct(alloc, join, plain, seed)?;
        return Ok(true);
    }
    if kind < 4 {
        return some_sweep(alloc, join, plain, seed);
    }
    some_tuple(alloc, join, plain, seed, held)?;
    Ok(true)
}

// How many of so many steps agree, where so many tickets are held, and how many rows the join and the plain one have at the end.
fn agreeing(
    alloc: Global,
    join: &mut Join,
    steps: u64,
    held: u64,
) -> Result<(u64, u64, usize), JoinStop>
    requires { join.old.spec ≡ triple_join }
{
    let mut plain = Plain {
        rows: List::new(alloc),
        said: List::new(alloc),
    };
    let mut seed = 7;
    let mut count = 0_u64;
    for _step in 0..steps {
        if some_step(alloc, join, &mut plain, &mut seed, held)? {
            count = count.saturating_add(1);
        }
    }
    Ok((count, join.stored(), plain.rows.len()))
}

#[test]
fn sweeps_are_those_of_a_plain_join(rt: HostRuntime) -> Result<(), Fail> {
    let alloc = rt.alloc();
    let mut join = join_of(alloc, 1_000_000)?;
    assert_eq!(rt; agreeing(alloc, &mut join, 600, 0)?, (600, 11, 11));
    Ok(())
}

#[test]
fn sweeps_under_open_tickets_are_those_of_a_plain_join(rt: HostRuntime) -> Result<(), Fail> {
    let alloc = rt.alloc();
    let mut join = join_of(alloc, 1_000_000)?;
    let (same, stored, left) = agreeing(alloc, &mut join, 600, 9)?;
    assert_eq!(rt; same, 600);
    assert_eq!(rt; stored, left as u64);
    Ok(())
}
