// The nodes of a new core.
ghost use Rattle.std.specs.Prelude.{◌≡◌, ◌<◌, ◌≤◌, ◌^◌, IfOk, OnOk, length, map, true, if◌then◌else◌, slice_index_or, []};
ghost use Rattle.pj_laws.specs.HistoryLaws.{AllAreCertified};
ghost use Rattle.pj_plan.specs.Canonical.{node_at};
ghost use Rattle.pj_plan.specs.Sound.{IsSoundPlan};
ghost use Rattle.pj_plan.specs.declared.node.Node.TheVariants.{Union as UnionNode};
ghost use Rattle.pj_scheme.specs.Derived.{schemes_of};
ghost use Rattle.pj_core.specs.Plans.{nodes_of, run_plan};
ghost use Rattle.pj_core.specs.Parts.{frame_for, frames_of, plan_node};
ghost use Rattle.pj_core.specs.Fresh.{IsCertifiedKind, fresh_operator, fresh_state, joins_with};

use pj_flow::Union;
use pj_group::Group;
use pj_join::Join;
use pj_operator::{OperatorState, RunningOperator};
use pj_plan::{Node, Plan};
use pj_scheme::{derived, join_schemes};
use pj_shape::{Cert, Schemes};
use pj_value::{List, NoMemory, TryClone};
use std::alloc::Global;

/// The nodes of a plan, to which nothing has come. The joins have these certificates, in order.
pub fn new_operators(
    alloc: Global,
    plan: &Plan,
    certs: &[List<Cert>],
    limit: u64,
) -> Result<Vec<RunningOperator>, NoMemory>
    requires certified { AllAreCertified (nodes_of (run_plan plan.now.nodes certs.now true)) }
    requires limit { (1 ≤ limit) × (limit ≤ 2 ^ 40) }
    ensures sound { OnOk result (IsSoundPlan plan.now.nodes) }
    ensures made { IfOk result (λ operators. operators.items ≡ map fresh_operator (frames_of (run_plan plan.now.nodes certs.now true) limit)) }
{
    let all = derived(alloc, plan)?;
    let mut operators = Vec::with_capacity(alloc, plan.nodes() as usize)?;
    let mut joins = 0;
    for number in 0..plan.nodes() {
        let own = certs_at(alloc, certs, joins)?;
        operators.push(new_operator(alloc, plan, &all, own, limit, number)?)?;
        joins = joins_behind(plan.node(number), joins);
    }
    Ok(operators)
}

// A copy of the certificates at this place; none where there is none.
fn certs_at(alloc: Global, certs: &[List<Cert>], at: usize) -> Result<List<Cert>, NoMemory>
    ensures { IfOk result (λ own. own ≡ slice_index_or certs.now at []) }
{
    match certs.get(at) {
        Some(own) => own.try_clone(alloc),
        None => Ok(List::new(alloc)),
    }
}

// How many joins there are with this node, where so many stand before it: at most all lists of certificates.
fn joins_behind(node: &Node, joins: usize) -> usize
    requires { joins < 2 ^ 32 }
    ensures { result ≡ joins_with node.now joins }
{
    match node {
        Node::Join { inputs: _, spec: _ } => joins + 1,
        Node::Stream { schemes: _ } => joins,
        Node::Select { input: _, test: _ } => joins,
        Node::Project {
            input: _,
            columns: _,
        } => joins,
        Node::Union { inputs: _ } => joins,
        Node::Group { input: _, spec: _ } => joins,
    }
}

// A node of the plan to which nothing has come, with these certificates where it is a join.
fn new_operator(
    alloc: Global,
    plan: &Plan,
    all: &Schemes,
    certs: List<Cert>,
    limit: u64,
    number: u32,
) -> Result<RunningOperator, NoMemory>
    requires there { number < length plan.now.nodes }
    requires all { all.now ≡ schemes_of plan.now.nodes }
    requires count { length all.now ≡ length plan.now.nodes }
    requires certified { IsCertifiedKind (frame_for plan.now.nodes limit number certs (plan_node plan.now.nodes number)).kind }
    requires limit { (1 ≤ limit) × (limit ≤ 2 ^ 40) }
    ensures { IfOk result (λ operator. operator ≡ fresh_operator (frame_for plan.now.nodes limit number certs (plan_node plan.now.nodes number))) }
{
    let width = width_of(plan, number);
    let state = new_state(alloc, plan, all, certs, limit, number)?;
    Ok(RunningOperator {
        state,
        above: plan.parent(number),
        width,
        peak: 0,
    })
}

fn new_state(
    alloc: Global,
    plan: &Plan,
    all: &Schemes,
    certs: List<Cert>,
    limit: u64,
    number: u32,
) -> Result<OperatorState, NoMemory>
    requires there { number < length plan.now.nodes }
    requires all { all.now ≡ schemes_of plan.now.nodes }
    requires count { length all.now ≡ length plan.now.nodes }
    requires certified { IsCertifiedKind (frame_for plan.now.nodes limit number certs (plan_node plan.now.nodes number)).kind }
    requires limit { (1 ≤ limit) × (limit ≤ 2 ^ 40) }
    ensures { IfOk result (λ state. state ≡ fresh_state (frame_for plan.now.nodes limit number certs (plan_node plan.now.nodes number)).kind) }
{
    let _nodes = plan.nodes();
    match plan.node(number) {
        Node::Stream { schemes: _ } => Ok(OperatorState::Stream),
        Node::Select { input: _, test } => Ok(OperatorState::Select(test.copy(alloc)?)),
        Node::Project { input: _, columns } => {
            let kept = List::copy_of(alloc, columns.as_slice())?;
            Ok(OperatorState::Project(kept))
        }
        Node::Union { inputs } => {
            let count = count_of(plan, number, inputs.as_slice());
            Ok(OperatorState::Union(Union::new(alloc, count, width_of(plan, number))))
        }
        Node::Join { inputs: _, spec } => {
            let schemes = join_schemes(alloc, plan, all, number)?;
            let join = Join::new(alloc, number, spec.copy(alloc)?, schemes, certs, limit)?;
            Ok(OperatorState::Join(join))
        }
        Node::Group { input: _, spec } => {
            Ok(OperatorState::Group(Group::new(alloc, spec.copy(alloc)?, limit)?))
        }
    }
}

// How many columns the node has: at most 120.
fn width_of(plan: &Plan, number: u32) -> u32
    requires { number < length plan.now.nodes }
    ensures { result ≡ length (plan_node plan.now.nodes number).schema }
{
    let _nodes = plan.nodes();
    plan.schema(number).columns().len() as u32
}

// How many inputs a union of the plan has: at most 16.
fn count_of(plan: &Plan, number: u32, inputs: &[u32]) -> u32
    requires there { number < length plan.now.nodes }
    requires union { node_at plan.now.nodes number ≡ UnionNode inputs.now }
    ensures { result ≡ length inputs.now }
{
    let _nodes = plan.nodes();
    inputs.len() as u32
}
