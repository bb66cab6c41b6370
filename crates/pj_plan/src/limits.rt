// How often nodes are used, and how many there may be.
ghost use Rattle.std.specs.Prelude.{◌≡◌, ◌<◌, ◌≤◌, ◌∷◌, ◌++◌, [], ◌||◌, ◌&&◌, not, length, filter, flat_map, nat_le, nat_lt};
ghost use Rattle.std.specs.List.{list_any};
ghost use Rattle.std.specs.Option.{option_copied};
ghost use Rattle.pj_plan.specs.Made.{result_schema, number_of as number};
ghost use Rattle.pj_plan.specs.Nodes.{inputs_of as inputs, is_stream as stream};
ghost use Rattle.pj_plan.specs.Faults.{is_used_twice_or_never as twice_or_never, was_used as used, uses, has_unused as unused, leaves_some as leaves, stream_count as streams, schemes_of as schemes, scheme_count as schemes_named, is_full as full, is_too_many as too_many, output_use};
ghost use Rattle.pj_value.specs.Lists.{has as within};

use crate::links::is_input;
use crate::names::{is_stream, number_of, repeats};
use crate::{Draft, Node, PlanNode, Statement};
use pj_shape::Column;
use pj_value::Bytes;

/// Whether an input or output was used before or stands twice, or an output leaves another node unused.
pub(crate) fn is_used_twice_or_never(draft: &Draft, statement: &Statement) -> bool
    ensures { result ≡ twice_or_never draft.now statement.now }
{
    let parts = statement.parts();
    (any_used(draft, parts.uses) || repeats(parts.uses)) || leaves_some(draft, parts.output)
}

fn any_used(draft: &Draft, names: &[Bytes]) -> bool
    ensures { result ≡ list_any (used draft.now) names.now }
{
    names.iter().any(|name| is_used(draft, number_of(draft.nodes.as_slice(), name.as_slice())))
}

// Whether the node of this number was used.
fn is_used(draft: &Draft, number: usize) -> bool
    ensures { result ≡ within (uses draft.now) number }
{
    feeds(draft.nodes.as_slice(), number) || is_output(draft.output, number)
}

// Whether the node of this number is an input of one of these.
fn feeds(nodes: &[PlanNode], number: usize) -> bool
    ensures { result ≡ within (flat_map (λ node. inputs node.node) nodes.now) number }
{
    for node in nodes {
        if is_fed_by(&node.node, number) {
            return true;
        }
    }
    false
}

// Whether the node of this number feeds the node.
fn is_fed_by(node: &Node, number: usize) -> bool
    ensures { result ≡ within (inputs node.now) number }
{
    for at in 0..node.inputs() {
        if is_input(node, at, number) {
            return true;
        }
    }
    false
}

fn is_output(output: Option<u32>, number: usize) -> bool
    ensures { result ≡ within (output_use output) number }
{
    match output {
        None => false,
        Some(output) => output as usize == number,
    }
}

// Whether an output leaves another node unused.
fn leaves_some(draft: &Draft, output: Option<&Bytes>) -> bool
    ensures { result ≡ leaves draft.now (option_copied output.entry) }
{
    match output {
        None => false,
        Some(name) => has_unused(draft, number_of(draft.nodes.as_slice(), name.as_slice())),
    }
}

// Whether a node but the one of this number was never used.
fn has_unused(draft: &Draft, output: usize) -> bool
    ensures { result ≡ unused (output ∷ uses draft.now) 0 draft.now.nodes }
{
    for number in 0..draft.nodes.len() {
        if !is_needed(draft, output, number) {
            return true;
        }
    }
    false
}

fn is_needed(draft: &Draft, output: usize, number: usize) -> bool
    ensures { result ≡ within (output ∷ uses draft.now) number }
{
    output == number || is_used(draft, number)
}

/// Whether the statement goes beyond a limit: 16 streams, 16 inputs, 32 classes, 16 schemes of one stream, 64 nodes, 120 columns.
pub(crate) fn is_too_many(draft: &Draft, statement: &Statement, schema: &[Column]) -> bool
    requires { schema.now ≡ result_schema draft.now statement.now }
    ensures { result ≡ too_many draft.now statement.now }
{
    let nodes = draft.nodes.as_slice();
    let parts = statement.parts();
    (parts.source && stream_count(nodes) >= 16)
        || (parts.uses.len() > 16
            || (parts.classes.len() > 32
                || (is_full(nodes, parts.stream)
                    || (parts.declares.is_some() && (nodes.len() >= 64 || schema.len() > 120)))))
}

// Whether the stream has as many schemes as it may have.
fn is_full(nodes: &[PlanNode], stream: Option<&Bytes>) -> bool
    ensures { result ≡ full nodes.now (option_copied stream.entry) }
{
    match stream {
        None => false,
        Some(name) => scheme_count(nodes, name.as_slice()) >= 16,
    }
}

fn stream_count(nodes: &[PlanNode]) -> usize
    ensures { result ≡ streams nodes.now }
{
    let mut count = 0_usize;
    for node in nodes {
        if is_stream(&node.node) {
            count += 1;
        }
    }
    count
}

// The number of schemes of the node of this name.
fn scheme_count(nodes: &[PlanNode], name: &[u8]) -> usize
    ensures { result ≡ schemes_named nodes.now name.now }
{
    for node in nodes {
        if name == node.name.as_slice() {
            return schemes_of(&node.node);
        }
    }
    0
}

#[tactic(auto, using(crate::proofs::Views::schemes_counted, crate::proofs::Views::none_counted))]
fn schemes_of(node: &Node) -> usize
    ensures { result ≡ schemes node.now }
{
    match node.schemes() {
        None => 0,
        Some(schemes) => schemes.len(),
    }
}
