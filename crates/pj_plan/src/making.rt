// The operator that a statement declares.
ghost use Rattle.std.specs.Prelude.{◌≡◌, ◌<◌, ◌≤◌, ◌+◌, ◌++◌, ◌∷◌, [], List, false, true, All, IfOk, OnOk, map, length};
ghost use Rattle.std.specs.List.{list_any};
ghost use Rattle.pj_pattern.specs.Patterns.{is_of_kind};
ghost use Rattle.pj_pattern.specs.Meets.{meet_of};
ghost use Rattle.pj_plan.specs.Words.{used_names};
ghost use Rattle.pj_plan.specs.Made.{operator_of as declared, number_of as number, schema_of as schema, column_number as place, column_kind as kind, met_with, test_pattern, column_test as test_of_column, class_in, class_from, class_of as whole_class, join_of, agg_of as aggregate, named_agg, old_number};
ghost use Rattle.pj_plan.specs.Faults.{misses_its_kind, misses_kind, has_kinds_that_differ};
ghost use Rattle.pj_plan.specs.Small.{AreSmall};

use crate::names::{column_number, is_among, number_of, schema_of};
use crate::{AggWord, Draft, NamedAgg, Node, PlanNode, Renamed, Statement, Test, TestWord};
use pj_pattern::{Form, Pattern, Punct};
use pj_shape::{Agg, ClassCol, Column, GroupSpec, JoinSpec, Schema};
use pj_value::{Bytes, Kind, List, NoMemory, copy_items};
use std::alloc::Global;

/// The operator that the statement declares over what was declared before; a stream without schemes where it declares none.
#[tactic(auto, using(crate::proofs::NoFaults::tests_suit))]
pub(crate) fn operator_of(
    alloc: Global,
    draft: &Draft,
    statement: &Statement,
) -> Result<Node, NoMemory>
    requires small { AreSmall draft.now.nodes }
    requires few { length (used_names statement.now) ≤ 16 }
    requires kinds { has_kinds_that_differ draft.now statement.now ≡ false }
    ensures { IfOk result (λ node. node ≡ declared draft.now statement.now) }
{
    let nodes = draft.nodes.as_slice();
    match statement {
        Statement::Plan { .. } => Ok(stream(alloc)),
        Statement::Stream { .. } => Ok(stream(alloc)),
        Statement::Scheme { .. } => Ok(stream(alloc)),
        Statement::Select { input, tests, .. } => {
            let name = input.as_slice();
            Ok(Node::Select {
                input: number_of(nodes, name) as u32,
                test: Punct::of(column_tests(alloc, schema_of(nodes, name), tests.as_slice())?),
            })
        }
        Statement::Project { input, columns, .. } => {
            let name = input.as_slice();
            Ok(Node::Project {
                input: number_of(nodes, name) as u32,
                columns: old_numbers(alloc, schema_of(nodes, name), columns.as_slice())?,
            })
        }
        Statement::Union { inputs, .. } => Ok(Node::Union {
            inputs: numbers_of(alloc, nodes, inputs.as_slice())?,
        }),
        Statement::Join {
            inputs,
            classes,
            ..
        } => { join(alloc, nodes, inputs.as_slice(), classes.as_slice()) }
        Statement::Group {
            input,
            keys,
            aggs,
            ..
        } => {
            let name = input.as_slice();
            Ok(Node::Group {
                input: number_of(nodes, name) as u32,
                spec: group(
                    alloc,
                    schema_of(nodes, name),
                    keys.as_slice(),
                    aggs.as_slice(),
                )?,
            })
        }
        Statement::Output { .. } => Ok(stream(alloc)),
        Statement::Bad(_) => Ok(stream(alloc)),
    }
}

fn stream(alloc: Global) -> Node
    ensures { result ≡ Node.Stream [] }
{
    Node::Stream {
        schemes: List::new(alloc),
    }
}

fn column_tests(
    alloc: Global,
    columns: &[Column],
    tests: &[TestWord],
) -> Result<List<Pattern>, NoMemory>
    requires { list_any (misses_its_kind columns.now) tests.now ≡ false }
    ensures { IfOk result (λ patterns. patterns ≡ map (test_of_column tests.now) columns.now) }
{
    let mut patterns = List::with_room(alloc, columns.len())?;
    for column in columns {
        patterns.push(column_test(alloc, columns, tests, column.name.as_slice())?)?;
    }
    Ok(patterns)
}

// What all patterns that are stated for the column match.
fn column_test(
    alloc: Global,
    columns: &[Column],
    tests: &[TestWord],
    name: &[u8],
) -> Result<Pattern, NoMemory>
    requires { list_any (misses_its_kind columns.now) tests.now ≡ false }
    ensures { IfOk result (λ pattern. pattern ≡ met_with Form.Wild name.now tests.now) }
{
    let mut pattern = Pattern::wild();
    for test in tests {
        pattern = met_one(alloc, columns, pattern, name, test)?;
    }
    Ok(pattern)
}

// The pattern met with the test's, where it is of the column of this name.
#[tactic(auto, using(crate::proofs::TestKinds::tests_fit, crate::proofs::TestKinds::met_fits))]
fn met_one(
    alloc: Global,
    columns: &[Column],
    pattern: Pattern,
    name: &[u8],
    word: &TestWord,
) -> Result<Pattern, NoMemory>
    requires fits { is_of_kind (kind columns.now name.now) pattern ≡ true }
    requires word { misses_its_kind columns.now word.now ≡ false }
    ensures met { IfOk result (λ met. (words : List TestWord) → met_with pattern name.now (word.now ∷ words) ≡ met_with met name.now words) }
    ensures fits { IfOk result (λ met. is_of_kind (kind columns.now name.now) met ≡ true) }
{
    if name == word.column.as_slice() {
        met(alloc, &pattern, &word.test)
    } else {
        Ok(pattern)
    }
}

// What the pattern and the test both match.
fn met(alloc: Global, pattern: &Pattern, test: &Test) -> Result<Pattern, NoMemory>
    requires { (kind : Kind) × (is_of_kind kind pattern.now ≡ true) × (misses_kind kind test.now ≡ false) }
    ensures { IfOk result (λ met. met ≡ meet_of pattern.now (test_pattern test.now)) }
{
    match test {
        Test::One(other) => pattern.meet(alloc, other),
        Test::Mixed => pattern.meet(alloc, &Pattern::wild()),
    }
}

fn numbers_of(alloc: Global, nodes: &[PlanNode], names: &[Bytes]) -> Result<List<u32>, NoMemory>
    requires { length nodes.now ≤ 64 }
    ensures { IfOk result (λ numbers. numbers ≡ map (number nodes.now) names.now) }
{
    let mut numbers = List::with_room(alloc, names.len())?;
    for name in names {
        numbers.push(number_of(nodes, name.as_slice()) as u32)?;
    }
    Ok(numbers)
}

fn old_numbers(alloc: Global, columns: &[Column], words: &[Renamed]) -> Result<List<u32>, NoMemory>
    requires { length columns.now ≤ 120 }
    ensures { IfOk result (λ numbers. numbers ≡ map (old_number columns.now) words.now) }
{
    let mut numbers = List::with_room(alloc, words.len())?;
    for word in words {
        numbers.push(column_number(columns, word.old.as_slice()) as u32)?;
    }
    Ok(numbers)
}

fn join(
    alloc: Global,
    nodes: &[PlanNode],
    inputs: &[Bytes],
    classes: &[List<Bytes>],
) -> Result<Node, NoMemory>
    requires small { AreSmall nodes.now }
    requires few { length inputs.now ≤ 16 }
    ensures { IfOk result (λ node. node ≡ join_of nodes.now inputs.now classes.now) }
{
    let schemas = schemas_of(alloc, nodes, inputs)?;
    let classes = classes_of(alloc, schemas.as_slice(), classes)?;
    Ok(Node::Join {
        inputs: numbers_of(alloc, nodes, inputs)?,
        spec: JoinSpec {
            inputs: schemas,
            classes,
        },
    })
}

fn schemas_of(alloc: Global, nodes: &[PlanNode], names: &[Bytes]) -> Result<List<Schema>, NoMemory>
    requires { AreSmall nodes.now }
    ensures schemas { IfOk result (λ schemas. schemas ≡ map (schema nodes.now) names.now) }
    ensures narrow { IfOk result (λ schemas. All (λ columns. length columns ≤ 120) schemas) }
{
    let mut schemas = List::with_room(alloc, names.len())?;
    for name in names {
        let columns = copy_items(alloc, schema_of(nodes, name.as_slice()))?;
        schemas.push(Schema::of(columns))?;
    }
    Ok(schemas)
}

fn classes_of(
    alloc: Global,
    schemas: &[Schema],
    classes: &[List<Bytes>],
) -> Result<List<List<ClassCol>>, NoMemory>
    requires few { length schemas.now ≤ 16 }
    requires narrow { All (λ columns. length columns ≤ 120) schemas.now }
    ensures { IfOk result (λ made. made ≡ map (whole_class schemas.now) classes.now) }
{
    let mut made = List::with_room(alloc, classes.len())?;
    for class in classes {
        made.push(class_of(alloc, schemas, class.as_slice())?)?;
    }
    Ok(made)
}

fn class_of(alloc: Global, schemas: &[Schema], words: &[Bytes]) -> Result<List<ClassCol>, NoMemory>
    requires few { length schemas.now ≤ 16 }
    requires narrow { All (λ columns. length columns ≤ 120) schemas.now }
    ensures { IfOk result (λ class. class ≡ whole_class schemas.now words.now) }
{
    let mut class = List::with_room(alloc, words.len())?;
    for input in 0..schemas.len() {
        append_class(input as u32, schemas[input].columns(), words, &mut class)?;
    }
    Ok(class)
}

// The columns of an input that stand in the class.
fn append_class(
    input: u32,
    columns: &[Column],
    words: &[Bytes],
    out: &mut List<ClassCol>,
) -> Result<(), NoMemory>
    requires { length columns.now ≤ 120 }
    ensures { OnOk result (out.new ≡ out.old ++ class_in input 0 columns.now words.now) }
{
    for at in 0..columns.len() {
        if is_among(words, columns[at].name.as_slice()) {
            out.push(ClassCol {
                input,
                column: at as u32,
            })?;
        }
    }
    Ok(())
}

fn group(
    alloc: Global,
    columns: &[Column],
    keys: &[Bytes],
    aggs: &[NamedAgg],
) -> Result<GroupSpec, NoMemory>
    requires { length columns.now ≤ 120 }
    ensures { IfOk result (λ spec. spec ≡ record { keys = map (place columns.now) keys.now; aggs = map (named_agg columns.now) aggs.now }) }
{
    Ok(GroupSpec {
        keys: column_numbers(alloc, columns, keys)?,
        aggs: aggs_of(alloc, columns, aggs)?,
    })
}

fn column_numbers(alloc: Global, columns: &[Column], names: &[Bytes]) -> Result<List<u32>, NoMemory>
    requires { length columns.now ≤ 120 }
    ensures { IfOk result (λ numbers. numbers ≡ map (place columns.now) names.now) }
{
    let mut numbers = List::with_room(alloc, names.len())?;
    for name in names {
        numbers.push(column_number(columns, name.as_slice()) as u32)?;
    }
    Ok(numbers)
}

fn aggs_of(alloc: Global, columns: &[Column], words: &[NamedAgg]) -> Result<List<Agg>, NoMemory>
    requires { length columns.now ≤ 120 }
    ensures { IfOk result (λ aggs. aggs ≡ map (named_agg columns.now) words.now) }
{
    let mut aggs = List::with_room(alloc, words.len())?;
    for word in words {
        aggs.push(agg_of(columns, &word.agg))?;
    }
    Ok(aggs)
}

fn agg_of(columns: &[Column], word: &AggWord) -> Agg
    requires { length columns.now ≤ 120 }
    ensures { result ≡ aggregate columns.now word.now }
{
    match word {
        AggWord::Count => Agg::Count,
        AggWord::Sum(column) => Agg::Sum(column_number(columns, column.as_slice()) as u32),
        AggWord::Min(column) => Agg::Min(column_number(columns, column.as_slice()) as u32),
        AggWord::Max(column) => Agg::Max(column_number(columns, column.as_slice()) as u32),
    }
}
