// What no clause says: that the calls succeed with ample memory, on worked punctuations.
ghost use Rattle.std.specs.Prelude.{◌≡◌, ◌<◌, ◌≤◌, ◌+◌, ◌∷◌, [], ℕ, map, true, false, not, length, slice_get, IfOk, OnOk};
ghost use Rattle.pj_puncts.specs.Givens.{marked};
ghost use Rattle.pj_puncts.specs.Stores.{IsAbove};
ghost use Rattle.pj_test_states.specs.Chain.{at, chain, chain_cert, chain_schemes, firsts, number, pair, pairs, seconds, two_rows};
ghost use Rattle.pj_value.specs.Options.{is_value};

use crate::lines::{punct, row};
use pj_cover::{StoredRows, Verdict, judge_row, purge_route, ripe};
use pj_pattern::{Pattern, Punct, Shape};
use pj_puncts::{Given, NumberedPunct, PunctStore};
use pj_shape::{Cert, CertStep, ClassCol, Column, JoinSpec, Schema, Scheme, Schemes};
use pj_value::{Kind, List, NoMemory, Row, Value};
use std::alloc::Global;

// Puts a punctuation behind the others, with a number not below this one.
fn add(
    alloc: Global,
    store: &mut PunctStore,
    arity: u32,
    next: u64,
    number: u64,
    cells: &str,
) -> Result<(), NoMemory>
    requires above { IsAbove next store.old.kept }
    requires arity { store.old.arity ≡ arity }
    ensures above { OnOk result (IsAbove (number + 1) store.new.kept) }
    ensures arity { store.new.arity ≡ arity }
{
    let punct = punct(alloc, cells)?;
    if punct.len() != arity as usize {
        return Err(NoMemory);
    }
    if number < next {
        return Err(NoMemory);
    }
    store.push(punct, number)?;
    Ok(())
}

// A store of punctuations with these numbers, which rise.
fn store_of(alloc: Global, arity: u32, lines: &[(u32, &str)]) -> Result<PunctStore, NoMemory>
    ensures { IfOk result (λ store. store.arity ≡ arity) }
{
    let mut store = PunctStore::new(alloc, arity)?;
    let mut next = 0;
    for (number, cells) in lines {
        let number = u64::from(*number);
        add(alloc, &mut store, arity, next, number, cells)?;
        next = number + 1;
    }
    Ok(store)
}

// What is asked of a store, and what it is to answer.
#[derive(Clone, Copy)]
enum Question<'a> {
    // The number of the first punctuation that a row matches.
    First(&'a str, Option<u64>),
    // The numbers of a constant in a column.
    Numbers(u32, i64, &'a [u64]),
    // Whether 5 in the first of two columns is covered below a number.
    CoversFive(u64, bool),
}

fn is_first(
    alloc: Global,
    store: &PunctStore,
    cells: &str,
    first: Option<u64>,
) -> Result<bool, NoMemory> {
    let row = row(alloc, cells)?;
    Ok(store.first_match(&row) == first)
}

fn two_marks(alloc: Global, one: bool, other: bool) -> Result<Scheme, NoMemory>
    ensures { IfOk result (λ marks. marks ≡ one ∷ other ∷ []) }
{
    let mut marks = List::new(alloc);
    marks.push(one)?;
    marks.push(other)?;
    Ok(Scheme::of(marks))
}

fn covers_five(alloc: Global, store: &PunctStore, below: u64) -> Result<bool, NoMemory>
    requires { store.now.arity ≡ 2 }
{
    let scheme = two_marks(alloc, true, false)?;
    let five = Value::Int(5);
    let mut given = Given::new();
    given.push(&five);
    Ok(store.covers(&scheme, &given, below))
}

fn answers(
    alloc: Global,
    store: &PunctStore,
    arity: u32,
    question: Question<'_>,
) -> Result<bool, NoMemory>
    requires { store.now.arity ≡ arity }
{
    match question {
        Question::First(cells, first) => is_first(alloc, store, cells, first),
        Question::Numbers(column, number, numbers) => {
            if column >= arity {
                return Ok(false);
            }
            Ok(store.constants(column, &Value::Int(number)) == numbers)
        }
        Question::CoversFive(below, covered) => {
            if arity != 2 {
                return Ok(false);
            }
            Ok(covers_five(alloc, store, below)? == covered)
        }
    }
}

// Whether a store of these punctuations answers so.
fn holds(
    alloc: Global,
    arity: u32,
    lines: &[(u32, &str)],
    question: Question<'_>,
) -> Result<bool, NoMemory> {
    let store = store_of(alloc, arity, lines)?;
    answers(alloc, &store, arity, question)
}

// Two punctuations close 5.
const CLOSED_TWICE: &[(u32, &str)] = &[(3, "5"), (8, "5")];

#[test]
fn the_first_match_is_named(rt: HostRuntime) {
    for (cells, first) in [("5", Some(3)), ("6", None)] {
        let question = Question::First(cells, first);
        assert_eq!(rt;
            holds(rt.alloc(), 1, CLOSED_TWICE, question),
            Ok(true),
            "at {cells}"
        );
    }
}

// A list covers its members.
#[test]
fn instances_are_covered(rt: HostRuntime) {
    for (cells, below, covered) in [
        ("5 *", 4, true),
        ("5 *", 3, false),
        ("6 *", 4, false),
        ("* *", 4, true),
        ("{} *", 4, false),
        ("[..9] *", 4, true),
        ("* [..9]", 4, false),
        ("{6|5} *", 4, true),
    ] {
        let question = Question::CoversFive(below, covered);
        let answered = holds(rt.alloc(), 2, &[(3, cells)], question);
        assert_eq!(rt; answered, Ok(true), "at {cells} below {below}");
    }
}

// 5 in the first column twice, in the second one once, and a range in the first one.
const FIVES: &[(u32, &str)] = &[(2, "[..9] *"), (3, "5 *"), (4, "* 5"), (5, "5 *")];

#[test]
fn the_numbers_of_a_constant_are_lent(rt: HostRuntime) {
    for (column, number, numbers) in [(0, 5, [3, 5].as_slice()), (1, 5, &[4]), (0, 9, &[])] {
        let question = Question::Numbers(column, number, numbers);
        assert_eq!(rt;
            holds(rt.alloc(), 2, FIVES, question),
            Ok(true),
            "at {column}, {number}"
        );
    }
}

// Each of six forms in the first column, with each of them in the second, twice.
#[rattlefmt::skip]
const ALL_FORMS: &[(u32, &str)] = &[
    (0, "{2|5} {3|6}"), (1, "[6..8] {9|12}"), (2, "[10..] {4|7}"), (3, "[..3] {10|13}"), (4, "7 {5|8}"), (5, "* {0|3}"),
    (6, "{4|7} [6..8]"), (7, "[8..10] [1..3]"), (8, "[1..] [7..9]"), (9, "[..5] [2..4]"), (10, "9 [8..10]"), (11, "* [3..5]"),
    (12, "{6|9} [9..]"), (13, "[10..12] [4..]"), (14, "[3..] [10..]"), (15, "[..7] [5..]"), (16, "0 [0..]"), (17, "* [6..]"),
    (18, "{8|11} [..1]"), (19, "[1..3] [..7]"), (20, "[5..] [..2]"), (21, "[..9] [..8]"), (22, "2 [..3]"), (23, "* [..9]"),
    (24, "{10|13} 4"), (25, "[3..5] 10"), (26, "[7..] 5"), (27, "[..0] 0"), (28, "4 6"), (29, "* 1"),
    (30, "{1|4} *"), (31, "[5..7] *"), (32, "[9..] *"), (33, "[..2] *"), (34, "6 *"), (35, "* *"),
    (36, "{3|6} {10|13}"), (37, "[7..9] {5|8}"), (38, "[0..] {0|3}"), (39, "[..4] {6|9}"), (40, "8 {1|4}"), (41, "* {7|10}"),
    (42, "{5|8} [2..4]"), (43, "[9..11] [8..10]"), (44, "[2..] [3..5]"), (45, "[..6] [9..11]"), (46, "10 [4..6]"), (47, "* [10..12]"),
    (48, "{7|10} [5..]"), (49, "[0..2] [0..]"), (50, "[4..] [6..]"), (51, "[..8] [1..]"), (52, "1 [7..]"), (53, "* [2..]"),
    (54, "{9|12} [..8]"), (55, "[2..4] [..3]"), (56, "[6..] [..9]"), (57, "[..10] [..4]"), (58, "3 [..10]"), (59, "* [..5]"),
    (60, "{0|3} 0"), (61, "[4..6] 6"), (62, "[8..] 1"), (63, "[..1] 7"), (64, "5 2"), (65, "* 8"),
    (66, "{2|5} *"), (67, "[6..8] *"), (68, "[10..] *"), (69, "[..3] *"), (70, "7 *"), (71, "* *"),
];

// The same punctuations in a plain list.
fn plain_of(alloc: Global, lines: &[(u32, &str)]) -> Result<List<NumberedPunct>, NoMemory> {
    let mut plain = List::new(alloc);
    for (number, cells) in lines {
        plain.push(NumberedPunct {
            punct: punct(alloc, cells)?,
            number: u64::from(*number),
        })?;
    }
    Ok(plain)
}

// A store of all of them, and the plain list.
#[derive(Drop)]
struct Forms {
    store: PunctStore,
    plain: List<NumberedPunct>,
}

fn all_forms(alloc: Global) -> Result<Forms, NoMemory>
    ensures { IfOk result (λ forms. forms.store.arity ≡ 2) }
{
    Ok(Forms {
        store: store_of(alloc, 2, ALL_FORMS)?,
        plain: plain_of(alloc, ALL_FORMS)?,
    })
}

fn pair_row(alloc: Global, one: i64, other: i64) -> Result<Row, NoMemory>
    ensures { IfOk result (λ row. length row ≡ 2) }
{
    let mut values = List::new(alloc);
    values.push(Value::Int(one))?;
    values.push(Value::Int(other))?;
    Ok(Row::of(values))
}

// The number of the first punctuation that the row matches, by a walk over all.
fn first_by_walk(kept: &[NumberedPunct], row: &Row) -> Option<u64> {
    for one in kept {
        if one.punct.matches(row) {
            return Some(one.number);
        }
    }
    None
}

fn agrees_on_row(alloc: Global, forms: &Forms, n: u64) -> Result<bool, NoMemory> {
    let row = pair_row(alloc, (n % 14) as i64, (n / 14) as i64)?;
    Ok(forms.store.first_match(&row) == first_by_walk(forms.plain.as_slice(), &row))
}

fn agree_on_rows(alloc: Global, forms: &Forms) -> Result<bool, NoMemory> {
    for n in 0..196 {
        if !agrees_on_row(alloc, forms, n)? {
            return Ok(false);
        }
    }
    Ok(true)
}

// The instances of a scheme of two columns with these constants, as plain data.
#[derive(Drop)]
struct Asked {
    marks: (bool, bool),
    one: Value,
    other: Value,
}

// Whether the pattern covers the instances' column: the constant where it is marked, every value where it is not.
fn covers_column(pattern: &Pattern, is_marked: bool, constant: &Value) -> bool {
    if is_marked {
        return pattern.matches(constant);
    }
    match pattern.shape() {
        Shape::Wild => true,
        Shape::Empty => false,
        Shape::Constant(_) => false,
        Shape::Range(_, _) => false,
        Shape::Members(_) => false,
    }
}

// Whether one with a number below the bound covers the instance, by a walk over all.
fn covered_by_walk(kept: &[NumberedPunct], asked: &Asked, below: u64) -> bool {
    for one in kept {
        if one.number < below && covers_both(one.punct.as_slice(), asked) {
            return true;
        }
    }
    false
}

fn covers_both(patterns: &[Pattern], asked: &Asked) -> bool {
    match patterns {
        [one, other] => {
            covers_column(one, asked.marks.0, &asked.one)
                && covers_column(other, asked.marks.1, &asked.other)
        }
        _ => false,
    }
}

// The constants of the marked ones of two columns.
fn given_for<'a>(marks: (bool, bool), one: &'a Value, other: &'a Value) -> Given<'a>
    ensures { length result ≡ marked (marks.0 ∷ marks.1 ∷ []) }
{
    let mut given = Given::new();
    match marks {
        (true, true) => {
            given.push(one);
            given.push(other);
            given
        }
        (true, false) => {
            given.push(one);
            given
        }
        (false, true) => {
            given.push(other);
            given
        }
        (false, false) => given,
    }
}

fn agrees_on_instance(
    alloc: Global,
    forms: &Forms,
    marks: (bool, bool),
    n: u64,
    below: u64,
) -> Result<bool, NoMemory>
    requires { forms.now.store.arity ≡ 2 }
{
    let scheme = two_marks(alloc, marks.0, marks.1)?;
    let (one, other) = (Value::Int((n % 14) as i64), Value::Int((n / 14) as i64));
    let asked = Asked { marks, one, other };
    let given = given_for(marks, &asked.one, &asked.other);
    let by_walk = covered_by_walk(forms.plain.as_slice(), &asked, below);
    Ok(forms.store.covers(&scheme, &given, below) == by_walk)
}

fn agree_on_instances(
    alloc: Global,
    forms: &Forms,
    marks: (bool, bool),
    below: u64,
) -> Result<bool, NoMemory>
    requires { forms.now.store.arity ≡ 2 }
{
    for n in 0..196 {
        if !agrees_on_instance(alloc, forms, marks, n, below)? {
            return Ok(false);
        }
    }
    Ok(true)
}

// Whether the store and the plain list agree: on the first match of all rows, or on the instances of a scheme below a number.
fn agree(alloc: Global, instances: Option<((bool, bool), u64)>) -> Result<bool, NoMemory> {
    let forms = all_forms(alloc)?;
    match instances {
        None => agree_on_rows(alloc, &forms),
        Some((marks, below)) => agree_on_instances(alloc, &forms, marks, below),
    }
}

#[test]
fn the_first_match_is_that_of_a_walk(rt: HostRuntime) {
    assert_eq!(rt; agree(rt.alloc(), None), Ok(true));
}

#[test]
fn cover_is_that_of_a_walk(rt: HostRuntime) {
    let table = [
        (true, true, 20),
        (true, false, 40),
        (false, true, 60),
        (false, false, 72),
        (true, true, 0),
        (true, false, 72),
    ];
    for (one, other, below) in table {
        let agreed = agree(rt.alloc(), Some(((one, other), below)));
        assert_eq!(rt; agreed, Ok(true), "at {one}, {other} below {below}");
    }
}

fn column(alloc: Global) -> Result<Column, NoMemory>
    ensures { IfOk result (λ c. c ≡ number) }
{
    Ok(Column {
        name: List::copy_of(alloc, b"n")?,
        kind: Kind::Int,
    })
}

fn schema(alloc: Global) -> Result<Schema, NoMemory>
    ensures { IfOk result (λ s. s ≡ pair) }
{
    let mut columns = List::new(alloc);
    columns.push(column(alloc)?)?;
    columns.push(column(alloc)?)?;
    Ok(Schema::of(columns))
}

fn inputs(alloc: Global) -> Result<List<Schema>, NoMemory>
    ensures { IfOk result (λ i. i ≡ pairs) }
{
    let mut inputs = List::new(alloc);
    inputs.push(schema(alloc)?)?;
    inputs.push(schema(alloc)?)?;
    inputs.push(schema(alloc)?)?;
    Ok(inputs)
}

// The columns of this number of two inputs.
fn class(alloc: Global, one: u32, other: u32, column: u32) -> Result<List<ClassCol>, NoMemory>
    ensures { IfOk result (λ c. c ≡ at one column ∷ at other column ∷ []) }
{
    let mut class = List::new(alloc);
    class.push(ClassCol { input: one, column })?;
    class.push(ClassCol {
        input: other,
        column,
    })?;
    Ok(class)
}

fn join(alloc: Global) -> Result<JoinSpec, NoMemory>
    ensures { IfOk result (λ spec. spec ≡ chain) }
{
    let inputs = inputs(alloc)?;
    let mut classes = List::new(alloc);
    classes.push(class(alloc, 0, 1, 0)?)?;
    classes.push(class(alloc, 1, 2, 1)?)?;
    Ok(JoinSpec { inputs, classes })
}

fn only(alloc: Global, is_first: bool) -> Result<List<Scheme>, NoMemory>
    ensures { IfOk result (λ list. list ≡ (is_first ∷ not is_first ∷ []) ∷ []) }
{
    let mut list = List::new(alloc);
    list.push(two_marks(alloc, is_first, !is_first)?)?;
    Ok(list)
}

fn schemes(alloc: Global) -> Result<Schemes, NoMemory>
    ensures { IfOk result (λ lists. lists ≡ chain_schemes) }
{
    let mut lists = List::new(alloc);
    lists.push(only(alloc, true)?)?;
    lists.push(only(alloc, true)?)?;
    lists.push(only(alloc, false)?)?;
    Ok(Schemes::of(lists))
}

fn cert(alloc: Global) -> Result<Cert, NoMemory>
    ensures { IfOk result (λ cert. cert ≡ chain_cert) }
{
    let steps = [
        CertStep {
            input: 1,
            scheme: 0,
        },
        CertStep {
            input: 2,
            scheme: 0,
        },
    ];
    Ok(Cert::of(List::copy_of(alloc, &steps)?))
}

// Stores of the three inputs, of which the second one and the third one have a punctuation.
fn stores(alloc: Global, first: &str, second: &str) -> Result<List<PunctStore>, NoMemory>
    ensures { IfOk result (λ stores. map (λ s. s.arity) stores ≡ 2 ∷ 2 ∷ 2 ∷ []) }
{
    let mut stores = List::new(alloc);
    stores.push(PunctStore::new(alloc, 2)?)?;
    stores.push(store_of(alloc, 2, &[(3, first)])?)?;
    stores.push(store_of(alloc, 2, &[(4, second)])?)?;
    Ok(stores)
}

// Two rows of the second input, with the tickets 1 and 2.
#[derive(Drop)]
struct TwoRows {
    one: Row,
    other: Row,
}

fn has_value(row: &Row, column: u32, value: &Value) -> bool
    ensures { result ≡ is_value value.now (slice_get row.now column) }
{
    match row.get(column as usize) {
        None => false,
        Some(there) => there.same(value),
    }
}

impl StoredRows for TwoRows {
    ghost rows = { λ s. two_rows s.one s.other };

    fn count(&self, input: u32) -> usize {
        if input == 1 { 2 } else { 0 }
    }

    fn nth(&self, _input: u32, at: usize) -> (u64, &Row) {
        if at == 0 {
            (1, &self.one)
        } else {
            (2, &self.other)
        }
    }

    fn tickets_with(&self, input: u32, column: u32, value: &Value) -> Option<&[u64]> {
        if input != 1 {
            return None;
        }
        if has_value(&self.one, column, value) {
            if has_value(&self.other, column, value) {
                return Some(&[1, 2]);
            }
            return Some(&[1]);
        }
        if has_value(&self.other, column, value) {
            return Some(&[2]);
        }
        Some(&[])
    }

    fn get(&self, input: u32, ticket: u64) -> Option<&Row> {
        if input == 1 && ticket == 1 {
            return Some(&self.one);
        }
        if input == 1 && ticket == 2 {
            return Some(&self.other);
        }
        None
    }
}

fn two_rows(alloc: Global) -> Result<TwoRows, NoMemory>
    ensures { IfOk result (λ rows. (length rows.one ≡ 2) × (length rows.other ≡ 2)) }
{
    let one = pair_row(alloc, 8, 5)?;
    let other = pair_row(alloc, 7, 6)?;
    Ok(TwoRows { one, other })
}

// What is said of a row of the first input, and whether it is ripe with the ticket 0.
#[tactic(auto, using(crate::proofs::ChainIs::chain_certified, crate::proofs::ChainIs::chain_parts))]
fn judged_by(
    spec: &JoinSpec,
    schemes: &Schemes,
    cert: &Cert,
    rows: &TwoRows,
    own: &Row,
    stores: &[PunctStore],
    low: u64,
) -> (Verdict, bool)
    requires spec { spec.now ≡ chain }
    requires schemes { schemes.now ≡ chain_schemes }
    requires cert { cert.now ≡ chain_cert }
    requires rows { (length rows.now.one ≡ 2) × (length rows.now.other ≡ 2) }
    requires own { length own.now ≡ 2 }
    requires stores { map (λ s. s.arity) stores.now ≡ 2 ∷ 2 ∷ 2 ∷ [] }
{
    let route = purge_route(spec, schemes, cert, 0);
    let said = judge_row(spec, schemes, &route, 0, own, rows, stores, low);
    let is_ripe = ripe(spec, schemes, cert, 0, 0, own, rows, stores, low);
    (said, is_ripe)
}

// The same of the row (7, 1).
fn judged(alloc: Global, stores: &[PunctStore], low: u64) -> Result<(Verdict, bool), NoMemory>
    requires { map (λ s. s.arity) stores.now ≡ 2 ∷ 2 ∷ 2 ∷ [] }
{
    let spec = join(alloc)?;
    let schemes = schemes(alloc)?;
    let cert = cert(alloc)?;
    let rows = two_rows(alloc)?;
    let own = pair_row(alloc, 7, 1)?;
    Ok(judged_by(&spec, &schemes, &cert, &rows, &own, stores, low))
}

fn judged_over(
    alloc: Global,
    first: &str,
    second: &str,
    low: u64,
) -> Result<(Verdict, bool), NoMemory> {
    let stores = stores(alloc, first, second)?;
    judged(alloc, stores.as_slice(), low)
}

#[test]
fn rows_are_judged_by_the_certificate(rt: HostRuntime) {
    for (first, second, low, verdict) in [
        ("0 *", "* 0", 9, Verdict::Open),
        ("7 *", "* 0", 3, Verdict::Lagging),
        ("7 *", "* 0", 9, Verdict::Open),
        ("7 *", "* 5", 9, Verdict::Open),
        ("7 *", "* 6", 4, Verdict::Lagging),
        ("7 *", "* 6", 9, Verdict::Ripe),
        ("7 *", "* 6", 0, Verdict::Lagging),
    ] {
        let said = (verdict, verdict == Verdict::Ripe);
        assert_eq!(rt;
            judged_over(rt.alloc(), first, second, low),
            Ok(said),
            "at {first}, {second} below {low}"
        );
    }
}
