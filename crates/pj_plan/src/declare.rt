// What is declared after a statement.
ghost use Rattle.std.specs.Prelude.{◌≡◌, ◌≤◌, ◌++◌, ◌∷◌, [], None, false, Some, Option, IfOk, OnOk, length};
ghost use Rattle.std.specs.Option.{option_copied};
ghost use Rattle.pj_plan.specs.Words.{used_names};
ghost use Rattle.pj_plan.specs.Made.{after as after_it, declared, with_marks as marked, number_in as number_named, result_schema, more_schemes as more, with_scheme as with_one_more, number_of as number};
ghost use Rattle.pj_plan.specs.Faults.{fault_of, has_kinds_that_differ};
ghost use Rattle.pj_plan.specs.Small.{AreSmall};

use crate::making::operator_of;
use crate::names::number_of;
use crate::{Draft, Node, PlanNode, Statement};
use pj_shape::{Column, Schema, Scheme};
use pj_value::{Bytes, List, NoMemory};
use std::alloc::Global;

/// What is declared after the statement, which has no fault; `schema` are the columns of the node that it declares.
#[tactic(auto, using(crate::proofs::Faultless::few_used, crate::proofs::Faultless::kinds_fit))]
pub(crate) fn after(
    alloc: Global,
    draft: Draft,
    statement: &Statement,
    schema: List<Column>,
) -> Result<Draft, NoMemory>
    requires small { AreSmall draft.nodes }
    requires faultless { fault_of draft statement.now ≡ None }
    requires schema { schema ≡ result_schema draft statement.now }
    ensures { IfOk result (λ next. next ≡ after_it draft statement.now) }
{
    let parts = statement.parts();
    let version = parts.version.or(draft.version);
    let output = number_in(draft.nodes.as_slice(), parts.output).or(draft.output);
    let nodes = with_node(alloc, draft, parts.declares, statement, schema)?;
    Ok(Draft {
        version,
        nodes: with_marks(alloc, nodes, parts.stream, parts.marks)?,
        output,
    })
}

// The number of the node of this name, if there is a name.
fn number_in(nodes: &[PlanNode], name: Option<&Bytes>) -> Option<u32>
    requires { length nodes.now ≤ 64 }
    ensures { result ≡ number_named nodes.now (option_copied name.entry) }
{
    match name {
        None => None,
        Some(name) => Some(number_of(nodes, name.as_slice()) as u32),
    }
}

// The nodes, and the one of this name, if the statement declares one.
fn with_node(
    alloc: Global,
    draft: Draft,
    name: Option<&Bytes>,
    statement: &Statement,
    schema: List<Column>,
) -> Result<List<PlanNode>, NoMemory>
    requires small { AreSmall draft.nodes }
    requires few { length (used_names statement.now) ≤ 16 }
    requires kinds { has_kinds_that_differ draft statement.now ≡ false }
    requires schema { schema ≡ result_schema draft statement.now }
    ensures { IfOk result (λ nodes. nodes ≡ declared draft (option_copied name.entry) statement.now) }
{
    let name = match name {
        None => return Ok(draft.nodes),
        Some(name) => name,
    };
    let node = operator_of(alloc, &draft, statement)?;
    let mut nodes = draft.nodes;
    nodes.push(PlanNode {
        name: List::copy_of(alloc, name.as_slice())?,
        schema: Schema::of(schema),
        node,
    })?;
    Ok(nodes)
}

// The nodes, the stream with these marks, if there is one.
fn with_marks(
    alloc: Global,
    nodes: List<PlanNode>,
    stream: Option<&Bytes>,
    marks: &[bool],
) -> Result<List<PlanNode>, NoMemory>
    ensures { IfOk result (λ more. more ≡ marked (option_copied stream.entry) marks.now nodes) }
{
    match stream {
        None => Ok(nodes),
        Some(stream) => with_scheme(alloc, nodes, stream.as_slice(), marks),
    }
}

// The nodes, the stream of this name with one scheme more.
#[tactic(auto, using(crate::proofs::Schemes::scheme_none, crate::proofs::Schemes::scheme_at))]
fn with_scheme(
    alloc: Global,
    nodes: List<PlanNode>,
    name: &[u8],
    marks: &[bool],
) -> Result<List<PlanNode>, NoMemory>
    ensures { IfOk result (λ more. more ≡ with_one_more name.now marks.now nodes) }
{
    let at = number_of(nodes.as_slice(), name);
    if at == nodes.len() {
        return Ok(nodes);
    }
    let mut nodes = nodes.into_vec();
    let scheme = Scheme::of(List::copy_of(alloc, marks)?);
    add_scheme(&mut nodes[at].node, scheme)?;
    Ok(List::of(nodes))
}

fn add_scheme(node: &mut Node, scheme: Scheme) -> Result<(), NoMemory>
    ensures { OnOk result (node.new ≡ more node.old scheme) }
{
    match node {
        Node::Stream { schemes } => Ok(schemes.push(scheme)?),
        Node::Select { .. } => Ok(()),
        Node::Project { .. } => Ok(()),
        Node::Union { .. } => Ok(()),
        Node::Join { .. } => Ok(()),
        Node::Group { .. } => Ok(()),
    }
}
