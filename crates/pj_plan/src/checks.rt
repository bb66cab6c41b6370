// What the faults of a statement ask of its words.
ghost use Rattle.std.specs.Prelude.{◌≡◌, ◌<◌, ◌≤◌, ◌++◌, ◌||◌, not, map, length, filter, flat_map, nat_lt};
ghost use Rattle.std.specs.List.{list_any};
ghost use Rattle.pj_plan.specs.Words.{agg_columns};
ghost use Rattle.pj_plan.specs.Made.{schema_of as schema, column_kind as kind};
ghost use Rattle.pj_plan.specs.Faults.{is_unknown_name, has_column as named, has_no_column, are_alike as alike, is_unlike, are_unlike as unlike, misses_kind as misses, misses_its_kind, is_of as of_kind, has_two_kinds as two_kinds, names_text_sum, sums_text as text_sum, has_two_of as two_of, has_one_input_twice as input_twice, meets as meet, share_a_column as shared, is_marked as marked};

use crate::names::{column_kind, has_column, is_among, is_known, repeats, schema_of};
use crate::{AggWord, NamedAgg, PlanNode, Renamed, Test, TestWord};
use pj_shape::Column;
use pj_value::{Bytes, Kind, List};

/// Whether one of these is the name of no node.
pub(crate) fn any_unknown(nodes: &[PlanNode], names: &[Bytes]) -> bool
    ensures { result ≡ list_any (is_unknown_name nodes.now) names.now }
{
    names.iter().any(|name| !is_known(nodes, name.as_slice()))
}

/// Whether a test is of a column that is none of these.
pub(crate) fn tests_unknown(columns: &[Column], tests: &[TestWord]) -> bool
    ensures { result ≡ list_any (has_no_column columns.now) (map (λ test. test.column) tests.now) }
{
    for test in tests {
        if !has_column(columns, test.column.as_slice()) {
            return true;
        }
    }
    false
}

/// Whether an old column is none of these.
pub(crate) fn old_unknown(columns: &[Column], words: &[Renamed]) -> bool
    ensures { result ≡ list_any (has_no_column columns.now) (map (λ column. column.old) words.now) }
{
    for word in words {
        if !has_column(columns, word.old.as_slice()) {
            return true;
        }
    }
    false
}

/// Whether one of these names is of no column.
pub(crate) fn names_unknown(columns: &[Column], names: &[Bytes]) -> bool
    ensures { result ≡ list_any (has_no_column columns.now) names.now }
{
    names
        .iter()
        .any(|name| !has_column(columns, name.as_slice()))
}

/// Whether a class names a column that is none of these.
pub(crate) fn classes_unknown(columns: &[Column], classes: &[List<Bytes>]) -> bool
    ensures { result ≡ list_any (has_no_column columns.now) (flat_map (λ class. class) classes.now) }
{
    for class in classes {
        if names_unknown(columns, class.as_slice()) {
            return true;
        }
    }
    false
}

/// Whether an aggregate is of a column that is none of these.
pub(crate) fn aggs_unknown(columns: &[Column], aggs: &[NamedAgg]) -> bool
    ensures { result ≡ list_any (has_no_column columns.now) (flat_map (λ agg. agg_columns agg.agg) aggs.now) }
{
    for agg in aggs {
        if agg_unknown(columns, &agg.agg) {
            return true;
        }
    }
    false
}

fn agg_unknown(columns: &[Column], agg: &AggWord) -> bool
    ensures { result ≡ list_any (has_no_column columns.now) (agg_columns agg.now) }
{
    match agg {
        AggWord::Count => false,
        AggWord::Sum(column) => !has_column(columns, column.as_slice()),
        AggWord::Min(column) => !has_column(columns, column.as_slice()),
        AggWord::Max(column) => !has_column(columns, column.as_slice()),
    }
}

/// Whether a pattern is of another kind than its column, or of both.
pub(crate) fn tests_miss(columns: &[Column], tests: &[TestWord]) -> bool
    ensures { result ≡ list_any (misses_its_kind columns.now) tests.now }
{
    tests.iter().any(|test| misses_kind(column_kind(columns, test.column.as_slice()), &test.test))
}

fn misses_kind(kind: Kind, test: &Test) -> bool
    ensures { result ≡ misses kind test.now }
{
    match test {
        Test::One(pattern) => !pattern.fits(kind),
        Test::Mixed => true,
    }
}

/// Whether an input has another number of columns than the first, or other kinds.
pub(crate) fn are_unlike(nodes: &[PlanNode], inputs: &[Bytes]) -> bool
    ensures { result ≡ unlike nodes.now inputs.now }
{
    match inputs {
        [] => false,
        [first, ..] => any_unlike(nodes, schema_of(nodes, first.as_slice()), inputs),
    }
}

fn any_unlike(nodes: &[PlanNode], columns: &[Column], inputs: &[Bytes]) -> bool
    ensures { result ≡ list_any (is_unlike columns.now) (map (schema nodes.now) inputs.now) }
{
    for input in inputs {
        if !are_alike(columns, schema_of(nodes, input.as_slice())) {
            return true;
        }
    }
    false
}

#[tactic(auto, using(crate::proofs::Alike::alike_length))]
fn are_alike(columns: &[Column], others: &[Column]) -> bool
    ensures { result ≡ alike columns.now others.now }
{
    if columns.len() != others.len() {
        return false;
    }
    for at in 0..columns.len() {
        if columns[at].kind != others[at].kind {
            return false;
        }
    }
    true
}

/// Whether a class has two kinds.
pub(crate) fn any_of_two_kinds(columns: &[Column], classes: &[List<Bytes>]) -> bool
    ensures { result ≡ list_any (two_kinds columns.now) classes.now }
{
    classes
        .iter()
        .any(|class| has_two_kinds(columns, class.as_slice()))
}

fn has_two_kinds(columns: &[Column], class: &[Bytes]) -> bool
    ensures { result ≡ two_kinds columns.now class.now }
{
    any_of(Kind::Int, columns, class) && any_of(Kind::Text, columns, class)
}

fn any_of(kind: Kind, columns: &[Column], class: &[Bytes]) -> bool
    ensures { result ≡ list_any (of_kind kind columns.now) class.now }
{
    class
        .iter()
        .any(|name| is_of(kind, columns, name.as_slice()))
}

fn is_of(kind: Kind, columns: &[Column], name: &[u8]) -> bool
    ensures { result ≡ of_kind kind columns.now name.now }
{
    kind == column_kind(columns, name)
}

/// Whether the sum of a text column is asked for.
pub(crate) fn any_text_sum(columns: &[Column], aggs: &[NamedAgg]) -> bool
    ensures { result ≡ list_any (names_text_sum columns.now) aggs.now }
{
    aggs.iter().any(|agg| sums_text(columns, &agg.agg))
}

fn sums_text(columns: &[Column], agg: &AggWord) -> bool
    ensures { result ≡ text_sum columns.now agg.now }
{
    match agg {
        AggWord::Count => false,
        AggWord::Sum(column) => is_of(Kind::Text, columns, column.as_slice()),
        AggWord::Min(_) => false,
        AggWord::Max(_) => false,
    }
}

/// Whether a class has two columns of one input.
pub(crate) fn any_input_twice(nodes: &[PlanNode], inputs: &[Bytes], classes: &[List<Bytes>]) -> bool
    ensures { result ≡ list_any (input_twice (map (schema nodes.now) inputs.now)) classes.now }
{
    classes
        .iter()
        .any(|class| has_input_twice(nodes, inputs, class.as_slice()))
}

fn has_input_twice(nodes: &[PlanNode], inputs: &[Bytes], class: &[Bytes]) -> bool
    ensures { result ≡ input_twice (map (schema nodes.now) inputs.now) class.now }
{
    for input in inputs {
        if has_two_of(class, schema_of(nodes, input.as_slice())) {
            return true;
        }
    }
    false
}

fn has_two_of(class: &[Bytes], columns: &[Column]) -> bool
    ensures { result ≡ two_of class.now columns.now }
{
    let mut count = 0_usize;
    for name in class {
        if has_column(columns, name.as_slice()) {
            count += 1;
        }
    }
    count > 1
}

/// Whether a column stands in two classes, or twice in one.
pub(crate) fn share_a_column(classes: &[List<Bytes>]) -> bool
    ensures { result ≡ shared classes.now }
{
    let mut rest = classes;
    while let [class, behind @ ..] = rest {
        if repeats(class.as_slice()) || any_meets(class.as_slice(), behind) {
            return true;
        }
        rest = behind;
    }
    false
}

fn any_meets(class: &[Bytes], others: &[List<Bytes>]) -> bool
    ensures { result ≡ list_any (meet class.now) others.now }
{
    others.iter().any(|other| meets(class, other.as_slice()))
}

fn meets(class: &[Bytes], other: &[Bytes]) -> bool
    ensures { result ≡ meet class.now other.now }
{
    class.iter().any(|name| is_among(other, name.as_slice()))
}

/// Whether a column is marked.
pub(crate) fn any_marked(marks: &[bool]) -> bool
    ensures { result ≡ list_any marked marks.now }
{
    marks.iter().any(|mark| *mark)
}
