// What no clause says: that the calls succeed with ample memory, and what the definitions mean on runs by hand.
ghost use Rattle.std.specs.Prelude.{◌≡◌, ◌<◌, ◌≤◌, ◌^◌, ◌∷◌, [], if◌then◌else◌, length, IfOk};
ghost use Rattle.pj_events.specs.Join.{arity, inputs};
ghost use Rattle.pj_test_joins.specs.Triples.{at, by, double, double_certs, double_join, double_schemes, first_marked, named, number, pair, second_marked, triangle, triangle_certs, triangle_join, triangle_schemes, triple_certs, triple_join, triple_schemes};

use pj_events::Out;
use pj_join::{Found, Join, JoinStop};
use pj_pattern::{Pattern, Punct, Shape};
use pj_shape::{Cert, CertStep, ClassCol, Column, JoinSpec, Schema, Scheme, Schemes};
use pj_value::{Kind, List, NoMemory, Row, SharedText, Value};
use std::alloc::Global;
use std::test::Fail;

fn column(alloc: Global) -> Result<Column, NoMemory>
    ensures { IfOk result (λ c. c ≡ number) }
{
    Ok(Column {
        name: List::copy_of(alloc, b"n")?,
        kind: Kind::Int,
    })
}

fn schema(alloc: Global) -> Result<Schema, NoMemory>
    ensures { IfOk result (λ s. s ≡ pair) }
{
    let mut columns = List::new(alloc);
    columns.push(column(alloc)?)?;
    columns.push(column(alloc)?)?;
    Ok(Schema::of(columns))
}

fn class(alloc: Global, a: ClassCol, b: ClassCol) -> Result<List<ClassCol>, NoMemory>
    ensures { IfOk result (λ c. c ≡ a ∷ b ∷ []) }
{
    let mut class = List::new(alloc);
    class.push(a)?;
    class.push(b)?;
    Ok(class)
}

fn inputs(alloc: Global) -> Result<List<Schema>, NoMemory>
    ensures { IfOk result (λ i. i ≡ pair ∷ pair ∷ pair ∷ []) }
{
    let mut inputs = List::new(alloc);
    inputs.push(schema(alloc)?)?;
    inputs.push(schema(alloc)?)?;
    inputs.push(schema(alloc)?)?;
    Ok(inputs)
}

fn col(input: u32, column: u32) -> ClassCol
    ensures { result ≡ at input column }
{
    ClassCol { input, column }
}

fn classes(alloc: Global) -> Result<List<List<ClassCol>>, NoMemory>
    ensures { IfOk result (λ c. c ≡ (at 0 0 ∷ at 1 0 ∷ []) ∷ (at 1 1 ∷ at 2 1 ∷ []) ∷ []) }
{
    let mut classes = List::new(alloc);
    classes.push(class(alloc, col(0, 0), col(1, 0))?)?;
    classes.push(class(alloc, col(1, 1), col(2, 1))?)?;
    Ok(classes)
}

fn scheme(alloc: Global, first: bool) -> Result<Scheme, NoMemory>
    ensures { IfOk result (λ s. s ≡ (if first then first_marked else second_marked)) }
{
    if first {
        Ok(Scheme::of(List::copy_of(alloc, &[true, false])?))
    } else {
        Ok(Scheme::of(List::copy_of(alloc, &[false, true])?))
    }
}

fn one_scheme(alloc: Global, first: bool) -> Result<List<Scheme>, NoMemory>
    ensures { IfOk result (λ l. l ≡ (if first then first_marked else second_marked) ∷ []) }
{
    let mut list = List::new(alloc);
    list.push(scheme(alloc, first)?)?;
    Ok(list)
}

fn schemes(alloc: Global) -> Result<Schemes, NoMemory>
    ensures { IfOk result (λ s. s ≡ triple_schemes) }
{
    let mut middle = one_scheme(alloc, true)?;
    middle.push(scheme(alloc, false)?)?;
    let mut lists = List::new(alloc);
    lists.push(one_scheme(alloc, true)?)?;
    lists.push(middle)?;
    lists.push(one_scheme(alloc, false)?)?;
    Ok(Schemes::of(lists))
}

fn by(input: u32, scheme: u32) -> CertStep
    ensures { result ≡ by input scheme }
{
    CertStep { input, scheme }
}

fn cert(alloc: Global, steps: &[CertStep]) -> Result<Cert, NoMemory>
    ensures { IfOk result (λ c. c ≡ steps.now) }
{
    Ok(Cert::of(List::copy_of(alloc, steps)?))
}

fn certs(alloc: Global) -> Result<List<Cert>, NoMemory>
    ensures { IfOk result (λ c. c ≡ triple_certs) }
{
    let mut certs = List::new(alloc);
    certs.push(cert(alloc, &[by(1, 0), by(2, 0)])?)?;
    certs.push(cert(alloc, &[by(0, 0), by(2, 0)])?)?;
    certs.push(cert(alloc, &[by(1, 1), by(0, 0)])?)?;
    Ok(certs)
}

// A join of three inputs of two columns: the first columns of 0 and 1 are equal, and the second ones of 1 and 2.
#[tactic(auto, using(crate::proofs::Triples::triple_sound))]
pub fn join_of(alloc: Global, limit: u64) -> Result<Join, NoMemory>
    requires { (1 ≤ limit) × (limit ≤ 2 ^ 40) }
    ensures { IfOk result (λ join. join.spec ≡ triple_join) }
{
    let spec = JoinSpec {
        inputs: inputs(alloc)?,
        classes: classes(alloc)?,
    };
    Join::new(alloc, 7, spec, schemes(alloc)?, certs(alloc)?, limit)
}

fn row(alloc: Global, a: i64, b: i64) -> Result<Row, NoMemory>
    ensures { IfOk result (λ r. length r ≡ 2) }
{
    let mut values = List::new(alloc);
    values.push(Value::Int(a))?;
    values.push(Value::Int(b))?;
    Ok(Row::of(values))
}

pub fn put(alloc: Global, join: &mut Join, input: u32, a: i64, b: i64) -> Result<u64, JoinStop>
    requires spec { join.old.spec ≡ triple_join }
    requires input { input < 3 }
    ensures { join.new.spec ≡ join.old.spec }
{
    let row = row(alloc, a, b)?;
    join.tuple(input, row)
}

fn say(alloc: Global, join: &mut Join, input: u32, a: i64) -> Result<u64, JoinStop>
    requires spec { join.old.spec ≡ triple_join }
    requires input { input < 3 }
    ensures { join.new.spec ≡ join.old.spec }
{
    let mut patterns = List::new(alloc);
    patterns.push(Pattern::constant(Value::Int(a)))?;
    patterns.push(Pattern::wild())?;
    let mut out = List::new(alloc);
    join.punct(input, Punct::of(patterns), &mut out)
}

// Takes the next ticket, works on it and gives it.
fn next(alloc: Global, join: &mut Join) -> Result<Option<Found>, NoMemory>
    ensures { join.new.spec ≡ join.old.spec }
{
    match join.take()? {
        None => Ok(None),
        Some(probe) => {
            let found = probe.work(alloc)?;
            join.give(probe);
            Ok(Some(found))
        }
    }
}

fn put_all(alloc: Global, join: &mut Join, rows: &[(u32, i64, i64)]) -> Result<(), JoinStop>
    requires { join.old.spec ≡ triple_join }
    ensures { join.new.spec ≡ triple_join }
{
    for (input, a, b) in rows {
        put(alloc, join, *input % 3, *a, *b)?;
    }
    Ok(())
}

// Of each ticket that is pending 1000 more than it, and then all numbers of its rows.
fn found_in_all(alloc: Global, join: &mut Join) -> Result<Vec<i64>, NoMemory> {
    let mut all = Vec::new(alloc);
    for _ in 0..1000 {
        match next(alloc, join)? {
            None => return Ok(all),
            Some(found) => append_found(&found, &mut all)?,
        }
    }
    Ok(all)
}

fn append_found(found: &Found, all: &mut Vec<i64>) -> Result<(), NoMemory> {
    all.push((found.ticket % 1000) as i64 + 1000)?;
    for row in found.rows.as_slice() {
        append_numbers(row, all)?;
    }
    Ok(())
}

fn append_numbers(row: &Row, all: &mut Vec<i64>) -> Result<(), NoMemory> {
    for column in 0..row.len() {
        match row.at(column) {
            Value::Int(n) => all.push(*n)?,
            Value::Text(_) => {}
        }
    }
    Ok(())
}

// Some rows of all inputs, and more behind a punctuation.
fn put_both(alloc: Global, join: &mut Join) -> Result<(), JoinStop>
    requires { join.old.spec ≡ triple_join }
{
    let before = [(0, 1, 10), (2, 7, 5), (2, 8, 5), (0, 1, 11), (1, 1, 5)];
    put_all(alloc, join, &before)?;
    say(alloc, join, 0, 2)?;
    put_all(alloc, join, &[(0, 1, 12), (1, 2, 5)])
}

// The tickets of 4 and 6 find the older rows of the other inputs, in the order of their tickets.
#[test]
fn results_come_in_order_of_tickets(rt: HostRuntime) -> Result<(), Fail> {
    let alloc = rt.alloc();
    let mut join = join_of(alloc, 100)?;
    put_both(alloc, &mut join)?;
    let found = found_in_all(alloc, &mut join)?;
    let want = [
        1000, 1001, 1002, 1003, 1004, 1, 10, 1, 5, 7, 5, 1, 10, 1, 5, 8, 5, 1, 11, 1, 5, 7, 5, 1,
        11, 1, 5, 8, 5, 1006, 1, 12, 1, 5, 7, 5, 1, 12, 1, 5, 8, 5, 1007,
    ];
    assert_eq!(rt; found.as_slice(), want.as_slice());
    Ok(())
}

// All numbers of the rows that a call for each ticket hands out.
fn handed_in_all(alloc: Global, join: &mut Join) -> Result<Vec<i64>, NoMemory> {
    let mut outs = List::new(alloc);
    let mut all = Vec::new(alloc);
    for _ in 0..1000 {
        match join.probe_next(&mut outs)? {
            None => break,
            Some(_ticket) => {}
        }
    }
    for out in outs.as_slice() {
        append_out(out, &mut all)?;
    }
    Ok(all)
}

fn append_out(out: &Out, all: &mut Vec<i64>) -> Result<(), NoMemory> {
    match out {
        Out::Tuple(row) => append_numbers(row, all),
        Out::Punct(_) => Ok(()),
        Out::Purged { .. } => Ok(()),
    }
}

#[test]
fn one_call_a_ticket_hands_out_the_same_rows(rt: HostRuntime) -> Result<(), Fail> {
    let alloc = rt.alloc();
    let mut join = join_of(alloc, 100)?;
    put_both(alloc, &mut join)?;
    let handed = handed_in_all(alloc, &mut join)?;
    let want = [
        1, 10, 1, 5, 7, 5, 1, 10, 1, 5, 8, 5, 1, 11, 1, 5, 7, 5, 1, 11, 1, 5, 8, 5, 1, 12, 1, 5, 7,
        5, 1, 12, 1, 5, 8, 5,
    ];
    assert_eq!(rt; handed.as_slice(), want.as_slice());
    assert_eq!(rt; (join.pending(), join.taken()), (0, 0));
    Ok(())
}

#[test]
fn no_more_than_the_limit_come(rt: HostRuntime) -> Result<(), Fail> {
    let alloc = rt.alloc();
    let mut join = join_of(alloc, 1)?;
    let first = say(alloc, &mut join, 1, 1);
    let second = put(alloc, &mut join, 2, 1, 1);
    assert_eq!(rt; (first, second), (Ok(0), Err(JoinStop::Limit)));
    Ok(())
}

pub fn next_count(alloc: Global, join: &mut Join) -> Result<usize, NoMemory>
    ensures { join.new.spec ≡ join.old.spec }
{
    match next(alloc, join)? {
        None => Ok(0),
        Some(found) => Ok(found.rows.len()),
    }
}

// How many rows a run of so many tuples on two of the sides finds, where each has one partner.
fn matches(alloc: Global, join: &mut Join, count: i64) -> Result<usize, JoinStop>
    requires { join.old.spec ≡ triple_join }
{
    let mut rows = 0_usize;
    for n in 0..count {
        put(alloc, join, 0, n, 0)?;
        put(alloc, join, 1, n, 0)?;
        rows = rows.saturating_add(next_count(alloc, join)?);
        rows = rows.saturating_add(next_count(alloc, join)?);
    }
    Ok(rows)
}

// The same behind one tuple of the third side.
fn matches_in_all(alloc: Global, join: &mut Join) -> Result<usize, JoinStop>
    requires { join.old.spec ≡ triple_join }
{
    put(alloc, join, 2, 0, 0)?;
    next_count(alloc, join)?;
    matches(alloc, join, 2000)
}

#[test]
fn long_runs_are_fast(rt: HostRuntime) -> Result<(), Fail> {
    let alloc = rt.alloc();
    let mut join = join_of(alloc, 1_000_000)?;
    assert_eq!(rt; matches_in_all(alloc, &mut join)?, 2000);
    Ok(())
}

// A number and a word.
fn named(alloc: Global) -> Result<Schema, NoMemory>
    ensures { IfOk result (λ s. s ≡ named) }
{
    let mut columns = List::new(alloc);
    columns.push(column(alloc)?)?;
    columns.push(Column {
        name: List::copy_of(alloc, b"w")?,
        kind: Kind::Text,
    })?;
    Ok(Schema::of(columns))
}

fn double_spec(alloc: Global) -> Result<JoinSpec, NoMemory>
    ensures { IfOk result (λ s. s ≡ double) }
{
    let mut inputs = List::new(alloc);
    inputs.push(named(alloc)?)?;
    inputs.push(schema(alloc)?)?;
    let mut classes = List::new(alloc);
    classes.push(class(alloc, col(0, 0), col(1, 0))?)?;
    Ok(JoinSpec { inputs, classes })
}

fn double_schemes(alloc: Global) -> Result<Schemes, NoMemory>
    ensures { IfOk result (λ s. s ≡ double_schemes) }
{
    let mut lists = List::new(alloc);
    lists.push(one_scheme(alloc, true)?)?;
    lists.push(one_scheme(alloc, true)?)?;
    Ok(Schemes::of(lists))
}

fn double_certs(alloc: Global) -> Result<List<Cert>, NoMemory>
    ensures { IfOk result (λ c. c ≡ double_certs) }
{
    let mut certs = List::new(alloc);
    certs.push(cert(alloc, &[by(1, 0)])?)?;
    certs.push(cert(alloc, &[by(0, 0)])?)?;
    Ok(certs)
}

// Items and bids for them.
#[tactic(auto, using(crate::proofs::Triples::double_sound))]
fn double_join(alloc: Global) -> Result<Join, NoMemory>
    ensures { IfOk result (λ join. join.spec ≡ double_join) }
{
    let spec = double_spec(alloc)?;
    Join::new(
        alloc,
        3,
        spec,
        double_schemes(alloc)?,
        double_certs(alloc)?,
        100,
    )
}

// -2 for a wildcard, a constant number itself, and -3 for any other pattern.
fn pattern_number(pattern: &Pattern) -> i64 {
    match pattern.shape() {
        Shape::Wild => -2,
        Shape::Empty => -3,
        Shape::Constant(Value::Int(n)) => *n,
        Shape::Constant(Value::Text(_)) => -3,
        Shape::Range(_, _) => -3,
        Shape::Members(_) => -3,
    }
}

fn append_patterns(puncts: &List<Punct>, all: &mut Vec<i64>) -> Result<(), NoMemory> {
    for punct in puncts.as_slice() {
        append_pattern_numbers(punct, all)?;
    }
    Ok(())
}

fn append_pattern_numbers(punct: &Punct, all: &mut Vec<i64>) -> Result<(), NoMemory> {
    for pattern in punct.as_slice() {
        all.push(pattern_number(pattern))?;
    }
    Ok(())
}

// A number of two columns: -2 stands for a wildcard.
fn pattern(number: i64) -> Pattern {
    if number == -2 {
        Pattern::wild()
    } else {
        Pattern::constant(Value::Int(number))
    }
}

// A punctuation comes; what it hands up at once is put at the end.
pub fn hear(
    alloc: Global,
    join: &mut Join,
    input: u32,
    a: i64,
    b: i64,
    all: &mut Vec<i64>,
) -> Result<(), JoinStop>
    requires there { input < inputs join.old.spec }
    requires two { arity join.old.spec input ≡ 2 }
    ensures { join.new.spec ≡ join.old.spec }
{
    let mut patterns = List::new(alloc);
    patterns.push(pattern(a))?;
    patterns.push(pattern(b))?;
    let mut out = List::new(alloc);
    join.punct(input, Punct::of(patterns), &mut out)?;
    append_patterns(&out, all)?;
    Ok(())
}

// A sweep: how many rows it removes, their numbers, and what it hands up are put at the end.
fn sweep(alloc: Global, join: &mut Join, input: u32, all: &mut Vec<i64>) -> Result<(), NoMemory>
    requires { input < inputs join.old.spec }
    ensures { join.new.spec ≡ join.old.spec }
{
    let mut removed = List::new(alloc);
    let mut out = List::new(alloc);
    let count = join.sweep(input, &mut removed, &mut out)?;
    all.push((count % 1000) as i64)?;
    for row in removed.as_slice() {
        append_numbers(row, all)?;
    }
    append_patterns(&out, all)?;
    Ok(())
}

// Sweeps of both inputs.
fn sweep_both(alloc: Global, join: &mut Join, all: &mut Vec<i64>) -> Result<(), NoMemory>
    requires { join.old.spec ≡ double_join }
    ensures { join.new.spec ≡ double_join }
{
    sweep(alloc, join, 0, all)?;
    sweep(alloc, join, 1, all)?;
    Ok(())
}

fn item(alloc: Global) -> Result<Row, NoMemory>
    ensures { IfOk result (λ r. length r ≡ 2) }
{
    let mut values = List::new(alloc);
    values.push(Value::Int(1))?;
    values.push(Value::Text(SharedText::copy_of(alloc, b"ann")?))?;
    Ok(Row::of(values))
}

// An item, a bid for it, and that no more of either come.
fn item_and_bid(alloc: Global, join: &mut Join, all: &mut Vec<i64>) -> Result<(), JoinStop>
    requires { join.old.spec ≡ double_join }
    ensures { join.new.spec ≡ double_join }
{
    let item = item(alloc)?;
    join.tuple(0, item)?;
    let bid = row(alloc, 1, 50)?;
    join.tuple(1, bid)?;
    hear(alloc, join, 0, 1, -2, all)?;
    hear(alloc, join, 1, 1, -2, all)?;
    Ok(())
}

// Both are swept before any give, after the first, and after the second.
fn sweeps_of_both(alloc: Global, join: &mut Join) -> Result<Vec<i64>, JoinStop>
    requires { join.old.spec ≡ double_join }
{
    let mut all = Vec::new(alloc);
    item_and_bid(alloc, join, &mut all)?;
    sweep_both(alloc, join, &mut all)?;
    next_count(alloc, join)?;
    sweep_both(alloc, join, &mut all)?;
    next_count(alloc, join)?;
    sweep_both(alloc, join, &mut all)?;
    Ok(all)
}

#[test]
fn rows_are_removed_and_then_punctuations_go_up(rt: HostRuntime) -> Result<(), Fail> {
    let alloc = rt.alloc();
    let mut join = double_join(alloc)?;
    let swept = sweeps_of_both(alloc, &mut join)?;
    let want = [0, 0, 0, 0, 1, 1, 1, -2, -2, -2, 1, 1, 50, -2, -2, 1, -2];
    assert_eq!(rt; swept.as_slice(), want.as_slice());
    assert_eq!(rt; (join.stored(), join.waiting()), (0, 0));
    Ok(())
}

// The rows of a chain are given.
fn chain_rows(alloc: Global, join: &mut Join) -> Result<(), JoinStop>
    requires { join.old.spec ≡ triple_join }
    ensures { join.new.spec ≡ triple_join }
{
    put_all(alloc, join, &[(0, 1, 0), (1, 1, 10), (1, 1, 20)])?;
    next_count(alloc, join)?;
    next_count(alloc, join)?;
    next_count(alloc, join)?;
    Ok(())
}

// Then no more of the second input come, and one value after the other of the third is closed.
fn sweeps_of_chain(alloc: Global, join: &mut Join) -> Result<Vec<i64>, JoinStop>
    requires { join.old.spec ≡ triple_join }
{
    let mut all = Vec::new(alloc);
    chain_rows(alloc, join)?;
    hear(alloc, join, 1, 1, -2, &mut all)?;
    hear(alloc, join, 2, -2, 10, &mut all)?;
    sweep(alloc, join, 0, &mut all)?;
    hear(alloc, join, 2, -2, 20, &mut all)?;
    sweep(alloc, join, 0, &mut all)?;
    Ok(all)
}

#[test]
fn each_partner_of_a_row_is_asked_for(rt: HostRuntime) -> Result<(), Fail> {
    let alloc = rt.alloc();
    let mut join = join_of(alloc, 100)?;
    let swept = sweeps_of_chain(alloc, &mut join)?;
    let want = [-2, -2, -2, -2, -2, 10, 0, -2, -2, -2, -2, -2, 20, 1, 1, 0];
    assert_eq!(rt; swept.as_slice(), want.as_slice());
    assert_eq!(rt; (join.stored(), join.waiting()), (2, 1));
    Ok(())
}

// A bid for an item, which is given.
fn bid(alloc: Global, join: &mut Join, item: i64) -> Result<(), JoinStop>
    requires { join.old.spec ≡ double_join }
    ensures { join.new.spec ≡ double_join }
{
    let bid = row(alloc, item, 50)?;
    join.tuple(1, bid)?;
    next_count(alloc, join)?;
    Ok(())
}

// Bids for three items, which a sweep leaves.
fn judged_bids(alloc: Global, join: &mut Join, all: &mut Vec<i64>) -> Result<(), JoinStop>
    requires { join.old.spec ≡ double_join }
    ensures { join.new.spec ≡ double_join }
{
    bid(alloc, join, 1)?;
    bid(alloc, join, 2)?;
    bid(alloc, join, 5)?;
    sweep(alloc, join, 1, all)?;
    Ok(())
}

// No more items of these numbers come.
fn hear_range(alloc: Global, join: &mut Join, low: i64, high: i64) -> Result<(), JoinStop>
    requires { join.old.spec ≡ double_join }
    ensures { join.new.spec ≡ double_join }
{
    let low = Value::Int(low);
    let high = Value::Int(high);
    let mut patterns = List::new(alloc);
    patterns.push(Pattern::range(Some(low), Some(high)))?;
    patterns.push(Pattern::wild())?;
    let mut out = List::new(alloc);
    join.punct(0, Punct::of(patterns), &mut out)?;
    Ok(())
}

fn sweeps_behind_range(alloc: Global, join: &mut Join) -> Result<Vec<i64>, JoinStop>
    requires { join.old.spec ≡ double_join }
{
    let mut all = Vec::new(alloc);
    judged_bids(alloc, join, &mut all)?;
    hear_range(alloc, join, 1, 3)?;
    sweep(alloc, join, 1, &mut all)?;
    hear_range(alloc, join, 4, 6)?;
    sweep(alloc, join, 1, &mut all)?;
    Ok(all)
}

#[test]
fn a_range_removes_the_rows_that_it_matches(rt: HostRuntime) -> Result<(), Fail> {
    let alloc = rt.alloc();
    let mut join = double_join(alloc)?;
    let swept = sweeps_behind_range(alloc, &mut join)?;
    assert_eq!(rt; swept.as_slice(), [0, 2, 1, 50, 2, 50, 1, 5, 50].as_slice());
    Ok(())
}

// First no more of item 5 and one seller come, and then no more of it at all.
fn sweeps_behind_constants(alloc: Global, join: &mut Join) -> Result<Vec<i64>, JoinStop>
    requires { join.old.spec ≡ double_join }
{
    let mut all = Vec::new(alloc);
    judged_bids(alloc, join, &mut all)?;
    hear(alloc, join, 0, 5, 7, &mut all)?;
    sweep(alloc, join, 1, &mut all)?;
    hear(alloc, join, 0, 5, -2, &mut all)?;
    sweep(alloc, join, 1, &mut all)?;
    Ok(all)
}

#[test]
fn a_constant_in_another_column_removes_no_row(rt: HostRuntime) -> Result<(), Fail> {
    let alloc = rt.alloc();
    let mut join = double_join(alloc)?;
    let swept = sweeps_behind_constants(alloc, &mut join)?;
    let want = [0, 5, 7, -2, -2, 0, 5, -2, -2, -2, 1, 5, 50];
    assert_eq!(rt; swept.as_slice(), want.as_slice());
    Ok(())
}

fn triangle_spec(alloc: Global) -> Result<JoinSpec, NoMemory>
    ensures { IfOk result (λ s. s ≡ triangle) }
{
    let inputs = inputs(alloc)?;
    let mut classes = List::new(alloc);
    classes.push(class(alloc, col(0, 0), col(1, 0))?)?;
    classes.push(class(alloc, col(1, 1), col(2, 0))?)?;
    classes.push(class(alloc, col(0, 1), col(2, 1))?)?;
    Ok(JoinSpec { inputs, classes })
}

fn both_schemes(alloc: Global) -> Result<List<Scheme>, NoMemory>
    ensures { IfOk result (λ l. l ≡ first_marked ∷ second_marked ∷ []) }
{
    let mut list = one_scheme(alloc, true)?;
    list.push(scheme(alloc, false)?)?;
    Ok(list)
}

fn triangle_schemes(alloc: Global) -> Result<Schemes, NoMemory>
    ensures { IfOk result (λ s. s ≡ triangle_schemes) }
{
    let mut lists = List::new(alloc);
    lists.push(one_scheme(alloc, true)?)?;
    lists.push(both_schemes(alloc)?)?;
    lists.push(both_schemes(alloc)?)?;
    Ok(Schemes::of(lists))
}

fn triangle_certs(alloc: Global) -> Result<List<Cert>, NoMemory>
    ensures { IfOk result (λ c. c ≡ triangle_certs) }
{
    let mut certs = List::new(alloc);
    certs.push(cert(alloc, &[by(1, 0), by(2, 0)])?)?;
    certs.push(cert(alloc, &[by(0, 0), by(2, 1)])?)?;
    certs.push(cert(alloc, &[by(1, 1), by(0, 0)])?)?;
    Ok(certs)
}

// A join of three inputs of which each two share a column.
#[tactic(auto, using(crate::proofs::Triangles::triangle_sound))]
fn triangle_join(alloc: Global) -> Result<Join, NoMemory>
    ensures { IfOk result (λ join. join.spec ≡ triangle_join) }
{
    let spec = triangle_spec(alloc)?;
    Join::new(
        alloc,
        5,
        spec,
        triangle_schemes(alloc)?,
        triangle_certs(alloc)?,
        100,
    )
}

// A row comes and is given.
fn add(alloc: Global, join: &mut Join, input: u32, a: i64, b: i64) -> Result<(), JoinStop>
    requires spec { join.old.spec ≡ triangle_join }
    requires input { input < 3 }
    ensures { join.new.spec ≡ triangle_join }
{
    let row = row(alloc, a, b)?;
    join.tuple(input, row)?;
    next_count(alloc, join)?;
    Ok(())
}

// A row of the first input that waits by its second step, through a row of the second one.
fn waits_through(alloc: Global, join: &mut Join, all: &mut Vec<i64>) -> Result<(), JoinStop>
    requires { join.old.spec ≡ triangle_join }
    ensures { join.new.spec ≡ triangle_join }
{
    add(alloc, join, 0, 1, 7)?;
    add(alloc, join, 1, 1, 5)?;
    hear(alloc, join, 1, 1, -2, all)?;
    sweep(alloc, join, 0, all)?;
    Ok(())
}

// The row of the second input goes, and the one that waited through it behind it.
fn sweeps_of_triangle(alloc: Global, join: &mut Join) -> Result<Vec<i64>, JoinStop>
    requires { join.old.spec ≡ triangle_join }
{
    let mut all = Vec::new(alloc);
    waits_through(alloc, join, &mut all)?;
    hear(alloc, join, 0, 1, -2, &mut all)?;
    hear(alloc, join, 2, -2, 7, &mut all)?;
    sweep(alloc, join, 0, &mut all)?;
    sweep(alloc, join, 1, &mut all)?;
    sweep(alloc, join, 0, &mut all)?;
    Ok(all)
}

#[test]
fn a_row_that_goes_wakes_one_that_waits_through_it(rt: HostRuntime) -> Result<(), Fail> {
    let alloc = rt.alloc();
    let mut join = triangle_join(alloc)?;
    let swept = sweeps_of_triangle(alloc, &mut join)?;
    let want = [
        0, -2, -2, -2, -2, -2, 7, 0, 1, 1, 5, -2, -2, 1, -2, -2, -2, 1, 1, 7, 1, -2, -2, -2, -2, -2,
    ];
    assert_eq!(rt; swept.as_slice(), want.as_slice());
    assert_eq!(rt; (join.stored(), join.waiting()), (0, 0));
    Ok(())
}
