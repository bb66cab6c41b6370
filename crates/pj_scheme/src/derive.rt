// The schemes of all nodes of a plan, and those of a join's inputs.
ghost use Rattle.std.specs.Prelude.{◌≡◌, ◌<◌, true, IfOk, length, slice_index};
ghost use Rattle.pj_plan.specs.Nodes.{inputs_of as inputs, is_join};
ghost use Rattle.pj_plan.specs.Canonical.{node_at};
ghost use Rattle.pj_scheme.specs.Derived.{schemes_of, schemes_at as schemes_of_node, inputs_schemes};
ghost use Rattle.pj_scheme.specs.Laws.{NodesFit, JoinsFit, SchemesAreFew};

use crate::operators::node_schemes;
use pj_plan::{Node, Plan};
use pj_shape::{Scheme, Schemes};
use pj_value::{List, NoMemory, TryClone};
use std::alloc::Global;

/// The schemes of each node, a list for each node in order, or `NoMemory`. A stream has those that it states, and an operator
/// those of its inputs that it hands on.
#[tactic(auto, using(crate::proofs::Plans::is_narrow, crate::proofs::Turns::derived_turn))]
pub fn derived(alloc: Global, plan: &Plan) -> Result<Schemes, NoMemory>
    ensures schemes { IfOk result (λ all. all ≡ schemes_of plan.now.nodes) }
    ensures count { IfOk result (λ all. length all ≡ length plan.now.nodes) }
{
    let mut done = List::new(alloc);
    for n in 0..plan.nodes() {
        let schemes = node_schemes(alloc, done.as_slice(), plan.node(n))?;
        done.push(schemes)?;
    }
    Ok(Schemes::of(done))
}

/// The schemes of a join's inputs, in their order, or `NoMemory`. The node is a join, and `all` has a list for each node.
#[tactic(auto, using(crate::proofs::Plans::input_there))]
pub fn join_schemes(
    alloc: Global,
    plan: &Plan,
    all: &Schemes,
    join: u32,
) -> Result<Schemes, NoMemory>
    requires there { join < length plan.now.nodes }
    requires is_join { is_join (node_at plan.now.nodes join) ≡ true }
    requires all { length all.now ≡ length plan.now.nodes }
    ensures { IfOk result (λ schemes. schemes ≡ inputs_schemes all.now (inputs (node_at plan.now.nodes join))) }
{
    // A sound plan has the nodes that feed its joins.
    let _count = plan.nodes();
    let node = plan.node(join);
    let mut schemes = List::with_room(alloc, node.inputs())?;
    for at in 0..node.inputs() {
        schemes.push(schemes_of_input(alloc, all, node, at)?)?;
    }
    Ok(Schemes::of(schemes))
}

// The schemes of the node of this number.
#[tactic(auto, using(crate::proofs::Turns::schemes_got))]
fn schemes_at(all: &Schemes, number: u32) -> &List<Scheme>
    requires { number < length all.now }
    ensures { result.now ≡ schemes_of_node all.now number }
{
    all.at(number as usize)
}

// The schemes of the node that feeds an input.
fn schemes_of_input(
    alloc: Global,
    all: &Schemes,
    node: &Node,
    at: usize,
) -> Result<List<Scheme>, NoMemory>
    requires there { at < length (inputs node.now) }
    requires known { slice_index (inputs node.now) at < length all.now }
    ensures { IfOk result (λ schemes. schemes ≡ schemes_of_node all.now (slice_index (inputs node.now) at)) }
{
    match node.input(at) {
        None => unreachable!(),
        Some(input) => schemes_at(all, input).try_clone(alloc),
    }
}

/// In a sound plan each derived scheme is as long as its node's schema, those of a join's inputs are as long as the inputs'
/// schemas, and a node has at most 256 schemes.
pub fn schemes_fit()
    ensures nodes { NodesFit }
    ensures inputs { JoinsFit }
    ensures few { SchemesAreFew }
{}
