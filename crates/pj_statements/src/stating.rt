// The canonical statements of a plan.
ghost use Rattle.std.specs.Prelude.{◌≡◌, ◌++◌, ◌∷◌, [], IfOk, OnOk, map, drop, flat_map, length};
ghost use Rattle.pj_plan.specs.declared.node.Node.TheVariants.{Group as GroupNode};
ghost use Rattle.pj_plan.specs.Canonical.{agg_word as word_of, aggs_of as aggs_under, class_word as word_at, class_words as words_of, column_name as name_at, column_word as whole_word, declaration as declared_by, first_test as test_of_first, last_name as name_of_last, node_name as name_of, node_schema as columns_of_node, node_statements, renamed_of as renamed_under, scheme_statements, statements_of as all_statements, tests_from as tests_behind, tests_of as all_tests};

use pj_pattern::Pattern;
use pj_plan::{
    AggWord, ColumnWord, NamedAgg, Node, Plan, PlanNode, Renamed, Statement, Test, TestWord,
};
use pj_shape::{Agg, ClassCol, Column, GroupSpec, Schema, Scheme};
use pj_value::{Bytes, List, NoMemory};
use std::alloc::Global;

/// The canonical statements of a plan, which make it again, or `NoMemory`: `plan`, the statement of each node in order of
/// declaration, each stream's followed by its schemes, and `output`.
pub fn statements(alloc: Global, plan: &Plan) -> Result<List<Statement>, NoMemory>
    ensures { IfOk result (λ statements. statements ≡ all_statements plan.now) }
{
    let plan = plan.outline();
    let nodes = plan.nodes.as_slice();
    let mut statements = List::new(alloc);
    statements.push(Statement::Plan {
        version: plan.version,
    })?;
    append_nodes(alloc, nodes, &mut statements)?;
    statements.push(Statement::Output {
        name: List::copy_of(alloc, last_name(nodes))?,
    })?;
    Ok(statements)
}

fn append_nodes(
    alloc: Global,
    nodes: &[PlanNode],
    out: &mut List<Statement>,
) -> Result<(), NoMemory>
    ensures { OnOk result (out.new ≡ out.old ++ flat_map (node_statements nodes.now) nodes.now) }
{
    for node in nodes {
        append_node(alloc, nodes, node, out)?;
    }
    Ok(())
}

// The statement of a node, and those of its schemes.
fn append_node(
    alloc: Global,
    nodes: &[PlanNode],
    node: &PlanNode,
    out: &mut List<Statement>,
) -> Result<(), NoMemory>
    ensures { OnOk result (out.new ≡ out.old ++ node_statements nodes.now node.now) }
{
    out.push(declaration(alloc, nodes, node)?)?;
    append_schemes(alloc, node.name.as_slice(), &node.node, out)?;
    Ok(())
}

fn append_schemes(
    alloc: Global,
    name: &[u8],
    node: &Node,
    out: &mut List<Statement>,
) -> Result<(), NoMemory>
    ensures { OnOk result (out.new ≡ out.old ++ scheme_statements name.now node.now) }
{
    match node {
        Node::Stream { schemes } => append_each_scheme(alloc, name, schemes.as_slice(), out),
        Node::Select { .. } => Ok(()),
        Node::Project { .. } => Ok(()),
        Node::Union { .. } => Ok(()),
        Node::Join { .. } => Ok(()),
        Node::Group { .. } => Ok(()),
    }
}

fn append_each_scheme(
    alloc: Global,
    name: &[u8],
    schemes: &[Scheme],
    out: &mut List<Statement>,
) -> Result<(), NoMemory>
    ensures { OnOk result (out.new ≡ out.old ++ map (Statement.Scheme name.now) schemes.now) }
{
    for scheme in schemes {
        out.push(Statement::Scheme {
            stream: List::copy_of(alloc, name)?,
            marks: marks_of(alloc, scheme)?,
        })?;
    }
    Ok(())
}

#[tactic(auto, using(crate::proofs::Walked::marks_more))]
fn marks_of(alloc: Global, scheme: &Scheme) -> Result<List<bool>, NoMemory>
    ensures { IfOk result (λ marks. marks ≡ scheme.now) }
{
    let mut marks = List::with_room(alloc, scheme.len())?;
    for at in 0..scheme.len() {
        marks.push(*scheme.at(at))?;
    }
    Ok(marks)
}

// The statement that declares a node of these.
fn declaration(alloc: Global, nodes: &[PlanNode], node: &PlanNode) -> Result<Statement, NoMemory>
    ensures { IfOk result (λ statement. statement ≡ declared_by nodes.now node.now node.now.node) }
{
    let name = List::copy_of(alloc, node.name.as_slice())?;
    let columns = node.schema.columns();
    match &node.node {
        Node::Stream { .. } => Ok(Statement::Stream {
            name,
            columns: column_words(alloc, columns)?,
        }),
        Node::Select { input, test } => Ok(Statement::Select {
            name,
            input: List::copy_of(alloc, node_name(nodes, *input))?,
            tests: tests_of(alloc, columns, test.as_slice())?,
        }),
        Node::Project {
            input,
            columns: numbers,
        } => {
            let from = node_columns(nodes, *input);
            Ok(Statement::Project {
                name,
                input: List::copy_of(alloc, node_name(nodes, *input))?,
                columns: renamed_of(alloc, columns, from, numbers.as_slice())?,
            })
        }
        Node::Union { inputs } => Ok(Statement::Union {
            name,
            inputs: node_names(alloc, nodes, inputs.as_slice())?,
        }),
        Node::Join { inputs, spec } => Ok(Statement::Join {
            name,
            inputs: node_names(alloc, nodes, inputs.as_slice())?,
            classes: classes_of(alloc, spec.inputs.as_slice(), spec.classes.as_slice())?,
        }),
        Node::Group { input, spec } => group(alloc, nodes, name, node, *input, spec),
    }
}

// The statement that declares a group of these, by its name.
fn group(
    alloc: Global,
    nodes: &[PlanNode],
    name: Bytes,
    node: &PlanNode,
    input: u32,
    spec: &GroupSpec,
) -> Result<Statement, NoMemory>
    requires { name ≡ node.now.name }
    ensures { IfOk result (λ statement. statement ≡ declared_by nodes.now node.now (GroupNode input spec.now)) }
{
    let columns = node.schema.columns();
    let from = node_columns(nodes, input);
    Ok(Statement::Group {
        name,
        input: List::copy_of(alloc, node_name(nodes, input))?,
        keys: column_names(alloc, from, spec.keys.as_slice())?,
        aggs: aggs_of(
            alloc,
            behind(columns, spec.keys.len()),
            from,
            spec.aggs.as_slice(),
        )?,
    })
}

// ---- words

fn column_words(alloc: Global, columns: &[Column]) -> Result<List<ColumnWord>, NoMemory>
    ensures { IfOk result (λ words. words ≡ map whole_word columns.now) }
{
    let mut words = List::with_room(alloc, columns.len())?;
    for column in columns {
        words.push(column_word(alloc, column)?)?;
    }
    Ok(words)
}

fn column_word(alloc: Global, column: &Column) -> Result<ColumnWord, NoMemory>
    ensures { IfOk result (λ word. word ≡ whole_word column.now) }
{
    Ok(ColumnWord {
        name: List::copy_of(alloc, column.name.as_slice())?,
        kind: column.kind,
    })
}

// A test for each pattern that is no wildcard; where there is none, one of the first column.
#[tactic(auto, using(crate::proofs::Walked::first_alone, crate::proofs::Walked::tests_alone))]
fn tests_of(
    alloc: Global,
    columns: &[Column],
    patterns: &[Pattern],
) -> Result<List<TestWord>, NoMemory>
    ensures { IfOk result (λ tests. tests ≡ all_tests columns.now patterns.now) }
{
    let tests = tests_from(alloc, columns, patterns)?;
    if tests.len() == 0 {
        first_test(alloc, columns, patterns)
    } else {
        Ok(tests)
    }
}

fn tests_from(
    alloc: Global,
    columns: &[Column],
    patterns: &[Pattern],
) -> Result<List<TestWord>, NoMemory>
    ensures { IfOk result (λ tests. tests ≡ tests_behind columns.now patterns.now) }
{
    let mut tests = List::new(alloc);
    for at in 0..columns.len().min(patterns.len()) {
        append_test(alloc, &columns[at], &patterns[at], &mut tests)?;
    }
    Ok(tests)
}

// The test of a column, where its pattern is no wildcard.
fn append_test(
    alloc: Global,
    column: &Column,
    pattern: &Pattern,
    out: &mut List<TestWord>,
) -> Result<(), NoMemory>
    ensures { OnOk result (out.new ≡ out.old ++ tests_behind (column.now ∷ []) (pattern.now ∷ [])) }
{
    if pattern.is_wild() {
        return Ok(());
    }
    out.push(test_word(alloc, column, pattern)?)?;
    Ok(())
}

fn first_test(
    alloc: Global,
    columns: &[Column],
    patterns: &[Pattern],
) -> Result<List<TestWord>, NoMemory>
    ensures { IfOk result (λ tests. tests ≡ test_of_first columns.now patterns.now) }
{
    let mut tests = List::new(alloc);
    match columns {
        [] => Ok(tests),
        [column, ..] => match patterns {
            [] => Ok(tests),
            [pattern, ..] => {
                tests.push(test_word(alloc, column, pattern)?)?;
                Ok(tests)
            }
        },
    }
}

fn test_word(alloc: Global, column: &Column, pattern: &Pattern) -> Result<TestWord, NoMemory>
    ensures { IfOk result (λ word. word ≡ record { column = column.now.name; test = Test.One pattern.now }) }
{
    Ok(TestWord {
        column: List::copy_of(alloc, column.name.as_slice())?,
        test: Test::One(pattern.copy(alloc)?),
    })
}

// The columns of these numbers, under new names.
fn renamed_of(
    alloc: Global,
    news: &[Column],
    columns: &[Column],
    numbers: &[u32],
) -> Result<List<Renamed>, NoMemory>
    ensures { IfOk result (λ words. words ≡ renamed_under news.now columns.now numbers.now) }
{
    let mut words = List::new(alloc);
    for at in 0..news.len().min(numbers.len()) {
        words.push(Renamed {
            new: List::copy_of(alloc, news[at].name.as_slice())?,
            old: List::copy_of(alloc, column_name(columns, numbers[at]))?,
        })?;
    }
    Ok(words)
}

fn classes_of(
    alloc: Global,
    schemas: &[Schema],
    classes: &[List<ClassCol>],
) -> Result<List<List<Bytes>>, NoMemory>
    ensures { IfOk result (λ words. words ≡ map (words_of schemas.now) classes.now) }
{
    let mut words = List::with_room(alloc, classes.len())?;
    for class in classes {
        words.push(class_words(alloc, schemas, class.as_slice())?)?;
    }
    Ok(words)
}

fn class_words(
    alloc: Global,
    schemas: &[Schema],
    class: &[ClassCol],
) -> Result<List<Bytes>, NoMemory>
    ensures { IfOk result (λ words. words ≡ words_of schemas.now class.now) }
{
    let mut words = List::with_room(alloc, class.len())?;
    for at in class {
        words.push(List::copy_of(alloc, class_word(schemas, *at))?)?;
    }
    Ok(words)
}

// The aggregates, under the names of these columns.
fn aggs_of(
    alloc: Global,
    news: &[Column],
    columns: &[Column],
    aggs: &[Agg],
) -> Result<List<NamedAgg>, NoMemory>
    ensures { IfOk result (λ named. named ≡ aggs_under news.now columns.now aggs.now) }
{
    let mut named = List::new(alloc);
    for at in 0..news.len().min(aggs.len()) {
        named.push(NamedAgg {
            name: List::copy_of(alloc, news[at].name.as_slice())?,
            agg: agg_word(alloc, columns, aggs[at])?,
        })?;
    }
    Ok(named)
}

fn agg_word(alloc: Global, columns: &[Column], agg: Agg) -> Result<AggWord, NoMemory>
    ensures { IfOk result (λ word. word ≡ word_of columns.now agg) }
{
    match agg {
        Agg::Count => Ok(AggWord::Count),
        Agg::Sum(column) => Ok(AggWord::Sum(List::copy_of(alloc, column_name(columns, column))?)),
        Agg::Min(column) => Ok(AggWord::Min(List::copy_of(alloc, column_name(columns, column))?)),
        Agg::Max(column) => Ok(AggWord::Max(List::copy_of(alloc, column_name(columns, column))?)),
    }
}

// ---- names by their numbers; where there is no such node or column the name is empty

fn node_names(alloc: Global, nodes: &[PlanNode], numbers: &[u32]) -> Result<List<Bytes>, NoMemory>
    ensures { IfOk result (λ names. names ≡ map (name_of nodes.now) numbers.now) }
{
    let mut names = List::with_room(alloc, numbers.len())?;
    for number in numbers {
        names.push(List::copy_of(alloc, node_name(nodes, *number))?)?;
    }
    Ok(names)
}

fn node_name(nodes: &[PlanNode], number: u32) -> &[u8]
    ensures { result.now ≡ name_of nodes.now number }
{
    match nodes.get(number as usize) {
        Some(node) => node.name.as_slice(),
        None => &[],
    }
}

fn node_columns(nodes: &[PlanNode], number: u32) -> &[Column]
    ensures { result.now ≡ columns_of_node nodes.now number }
{
    match nodes.get(number as usize) {
        Some(node) => node.schema.columns(),
        None => &[],
    }
}

fn last_name(nodes: &[PlanNode]) -> &[u8]
    ensures { result.now ≡ name_of_last nodes.now }
{
    match nodes.last() {
        Some(node) => node.name.as_slice(),
        None => &[],
    }
}

fn column_names(alloc: Global, columns: &[Column], numbers: &[u32]) -> Result<List<Bytes>, NoMemory>
    ensures { IfOk result (λ names. names ≡ map (name_at columns.now) numbers.now) }
{
    let mut names = List::with_room(alloc, numbers.len())?;
    for number in numbers {
        names.push(List::copy_of(alloc, column_name(columns, *number))?)?;
    }
    Ok(names)
}

fn column_name(columns: &[Column], number: u32) -> &[u8]
    ensures { result.now ≡ name_at columns.now number }
{
    match columns.get(number as usize) {
        Some(column) => column.name.as_slice(),
        None => &[],
    }
}

// The name of a column of an input.
fn class_word(schemas: &[Schema], at: ClassCol) -> &[u8]
    ensures { result.now ≡ word_at schemas.now at }
{
    match schemas.get(at.input as usize) {
        Some(schema) => column_name(schema.columns(), at.column),
        None => &[],
    }
}

// The columns behind so many.
fn behind(columns: &[Column], count: usize) -> &[Column]
    ensures { result.now ≡ drop count columns.now }
{
    if count < columns.len() {
        let (_front, behind) = columns.split_at(count);
        behind
    } else {
        &[]
    }
}
