// Where the nodes of a plan lead, and which are streams and joins.
ghost use Rattle.std.specs.Prelude.{ℕ, ◌≡◌, ◌<◌, ◌≤◌, ◌==◌, All, Some, IfOk, length, slice_get, slice_index};
ghost use Rattle.pj_plan.specs.Nodes.{inputs_of, is_join as join, input_from as place_from, parent_of as leads_to, numbers_from};
ghost use Rattle.pj_plan.specs.Sorts.{is_of as of_sort};

use crate::names::is_stream;
use crate::{Node, PlanNode};
use pj_value::{List, NoMemory};
use std::alloc::Global;

/// The nodes that are listed.
#[derive(Clone, Copy)]
pub(crate) enum Sort {
    Streams,
    Joins,
}

/// The numbers of the nodes of this sort.
pub(crate) fn numbers_of(
    alloc: Global,
    nodes: &[PlanNode],
    sort: Sort,
) -> Result<List<u32>, NoMemory>
    requires { length nodes.now ≤ 64 }
    ensures { IfOk result (λ numbers. numbers ≡ numbers_from (of_sort sort) 0 nodes.now) }
{
    let mut numbers = List::new(alloc);
    for number in 0..nodes.len() {
        if is_of(sort, &nodes[number].node) {
            numbers.push(number as u32)?;
        }
    }
    Ok(numbers)
}

fn is_of(sort: Sort, node: &Node) -> bool
    ensures { result ≡ of_sort sort node.now }
{
    match sort {
        Sort::Streams => is_stream(node),
        Sort::Joins => is_join(node),
    }
}

fn is_join(node: &Node) -> bool
    ensures { result ≡ join node.now }
{
    match node {
        Node::Stream { .. } => false,
        Node::Select { .. } => false,
        Node::Project { .. } => false,
        Node::Union { .. } => false,
        Node::Join { .. } => true,
        Node::Group { .. } => false,
    }
}

/// For each node the one that it feeds, and at which input.
pub(crate) fn parents_of(
    alloc: Global,
    nodes: &[PlanNode],
) -> Result<List<Option<(u32, u32)>>, NoMemory>
    requires few { length nodes.now ≤ 64 }
    requires inputs { All (λ node. length (inputs_of node.node) ≤ 16) nodes.now }
    ensures count { IfOk result (λ parents. length parents ≡ length nodes.now) }
    ensures each { IfOk result (λ parents. (n : ℕ) → n < length nodes.now → slice_get parents n ≡ Some (leads_to nodes.now n)) }
{
    let mut parents = List::with_room(alloc, nodes.len())?;
    for number in 0..nodes.len() {
        parents.push(parent_of(nodes, number))?;
    }
    Ok(parents)
}

fn parent_of(nodes: &[PlanNode], number: usize) -> Option<(u32, u32)>
    requires few { length nodes.now ≤ 64 }
    requires inputs { All (λ node. length (inputs_of node.node) ≤ 16) nodes.now }
    ensures { result ≡ leads_to nodes.now number }
{
    for at in 0..nodes.len() {
        match input_from(at as u32, &nodes[at].node, number) {
            Some(place) => return Some(place),
            None => {}
        }
    }
    None
}

// The place of the node of this number among a node's inputs, beside the node's own number.
fn input_from(at: u32, node: &Node, number: usize) -> Option<(u32, u32)>
    requires { length (inputs_of node.now) ≤ 16 }
    ensures { result ≡ place_from at 0 (inputs_of node.now) number }
{
    for place in 0..node.inputs() {
        if is_input(node, place, number) {
            return Some((at, place as u32));
        }
    }
    None
}

/// Whether the node of this number feeds the input at a place.
#[tactic(auto, using(crate::proofs::Views::input_is, crate::proofs::Views::input_there))]
pub(crate) fn is_input(node: &Node, place: usize, number: usize) -> bool
    requires { place < length (inputs_of node.now) }
    ensures { result ≡ (slice_index (inputs_of node.now) place == number) }
{
    match node.input(place) {
        None => false,
        Some(input) => input as usize == number,
    }
}
