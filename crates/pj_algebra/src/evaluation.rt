// The answer of a plan over complete lists.
ghost use Rattle.std.specs.Prelude.{◌≡◌, drop, IfOk};
ghost use Rattle.pj_algebra.specs.Answers.{answer_of, left_behind, node_rows, rows_by_node};

use crate::grouping::grouped;
use crate::joining::joined;
use crate::passing::{projected, rows_of, selected, united};
use pj_plan::{Node, Plan};
use pj_value::{List, NoMemory, Row, copy_items};
use std::alloc::Global;

/// The answer of a plan, where these rows came to its streams: a list for each stream, in order of declaration, of which one
/// that is missing counts as empty and one too many is not read. `NoMemory` comes only where memory could not be had.
///
/// Each node's rows are made once and all kept. A join takes nested loops over its inputs, and a group goes over its input
/// for each key: so it is slow, and meant for checks of what a run of the plan hands out.
#[tactic(auto, using(crate::proofs::NodesInOrder::last_node))]
pub fn eval(alloc: Global, plan: &Plan, rows: &[List<Row>]) -> Result<List<Row>, NoMemory>
    ensures { IfOk result (λ answer. answer ≡ answer_of plan.now.nodes rows.now) }
{
    let made = rows_by_node(alloc, plan, rows)?;
    Ok(copy_items(alloc, rows_of(made.as_slice(), plan.root() as usize))?)
}

// The rows of each node, in order.
fn rows_by_node(alloc: Global, plan: &Plan, rows: &[List<Row>]) -> Result<List<List<Row>>, NoMemory>
    ensures { IfOk result (λ made. made ≡ rows_by_node plan.now.nodes rows.now) }
{
    let mut made = List::new(alloc);
    let mut left = rows;
    for n in 0..plan.nodes() {
        let node = plan.node(n);
        let given = node_rows(alloc, made.as_slice(), rows_of(left, 0), node)?;
        made.push(given)?;
        left = left_behind(node, left);
    }
    Ok(made)
}

// The rows of a node, by those of the nodes before it; of a stream, those that arrived.
fn node_rows(
    alloc: Global,
    before: &[List<Row>],
    arrived: &[Row],
    node: &Node,
) -> Result<List<Row>, NoMemory>
    ensures { IfOk result (λ rows. rows ≡ node_rows before.now arrived.now node.now) }
{
    match node {
        Node::Stream { .. } => Ok(copy_items(alloc, arrived)?),
        Node::Select { input, test } => {
            Ok(selected(alloc, test, rows_of(before, *input as usize))?)
        }
        Node::Project { input, columns } => Ok(projected(
            alloc,
            columns.as_slice(),
            rows_of(before, *input as usize),
        )?),
        Node::Union { inputs } => Ok(united(alloc, before, inputs.as_slice())?),
        Node::Join { inputs, spec } => Ok(joined(
            alloc,
            spec.classes.as_slice(),
            before,
            inputs.as_slice(),
        )?),
        Node::Group { input, spec } => {
            Ok(grouped(alloc, spec, rows_of(before, *input as usize))?)
        }
    }
}

// The lists that are left for the streams behind this node.
fn left_behind<'a>(node: &Node, lists: &'a [List<Row>]) -> &'a [List<Row>]
    ensures { result.now ≡ left_behind node.now lists.now }
{
    match node {
        Node::Stream { .. } => all_but_first(lists),
        Node::Select { .. } => lists,
        Node::Project { .. } => lists,
        Node::Union { .. } => lists,
        Node::Join { .. } => lists,
        Node::Group { .. } => lists,
    }
}

fn all_but_first<'a>(lists: &'a [List<Row>]) -> &'a [List<Row>]
    ensures { result.now ≡ drop 1 lists.now }
{
    match lists.split_first() {
        None => lists,
        Some((_first, others)) => others,
    }
}
