// A node of a plan that is a join, with what is asked of it.
ghost use Rattle.std.specs.Prelude.{◌≡◌, ◌<◌, Some, IfOk, length, map, slice_index};
ghost use Rattle.pj_plan.specs.Nodes.{inputs_of, join_in};
ghost use Rattle.pj_plan.specs.Canonical.{node_at, node_name};
ghost use Rattle.pj_scheme.specs.Derived.{schemes_of};
ghost use Rattle.pj_graph.specs.Reaching.{IsReach};
ghost use Rattle.pj_graph.specs.Saturation.{reach_of};
ghost use Rattle.pj_judge.specs.Asked.{asked_of, IsAskable};

use pj_graph::{Reach, reach};
use pj_plan::{Node, Plan};
use pj_scheme::{join_schemes, schemes_fit};
use pj_shape::{JoinSpec, Schemes};
use pj_value::{Bytes, List, NoMemory};
use std::alloc::Global;
use std::marker::Model;

/// A join: its shape, the schemes of its inputs, its name and theirs. The shape is sound and the schemes fit it.
#[derive(Drop)]
pub(crate) struct Asked<'a> {
    pub(crate) spec: &'a JoinSpec,
    pub(crate) schemes: Schemes,
    pub(crate) name: &'a [u8],
    pub(crate) names: List<Bytes>,
}

impl<'a> Model for Asked<'a> {
    ghost use Rattle.pj_judge.specs.Asked.{Asked as TheAsked, IsAskable};

    ghost Value = { TheAsked };

    ghost view = { λ a. record { spec = a.spec.now; schemes = a.schemes; name = a.name.now; names = a.names } };

    ghost invariant = { λ a. IsAskable (record { spec = a.spec.now; schemes = a.schemes; name = a.name.now; names = a.names }) };
}

impl<'a> Asked<'a> {
    /// The join of this number and shape, where these are the schemes of all nodes.
    #[tactic(auto, using(pj_safety::proofs::Nodes::is_some_join))]
    pub(crate) fn of(
        alloc: Global,
        plan: &'a Plan,
        all: &Schemes,
        node: u32,
        spec: &'a JoinSpec,
    ) -> Result<Asked<'a>, NoMemory>
        requires there { node < length plan.now.nodes }
        requires spec { Some spec.now ≡ join_in (node_at plan.now.nodes node) }
        requires all { all.now ≡ schemes_of plan.now.nodes }
        ensures { IfOk result (λ asked. asked ≡ asked_of plan.now.nodes node) }
    {
        let _count = plan.nodes();
        schemes_fit();
        let schemes = join_schemes(alloc, plan, all, node)?;
        let names = names_of(alloc, plan, node)?;
        Ok(Asked {
            spec,
            schemes,
            name: plan.name(node),
            names,
        })
    }

    /// What an input reaches.
    pub(crate) fn reach(&self, alloc: Global, input: u32) -> Result<Reach, NoMemory>
        requires { input < length self.now.spec.inputs }
        ensures reached { IfOk result (λ found. IsReach self.now.spec self.now.schemes input found) }
        ensures told { IfOk result (λ found. found ≡ reach_of self.now.spec self.now.schemes input) }
    {
        reach(alloc, self.spec, &self.schemes, input)
    }

    /// How many inputs there are. The shape is sound, the schemes fit it, and the names are plain.
    pub(crate) fn inputs(&self) -> u32
        ensures count { result ≡ length self.now.spec.inputs }
        ensures askable { IsAskable self.now }
    {
        self.spec.inputs.len() as u32
    }
}

// The names of the nodes that feed a node.
#[tactic(auto, using(pj_scheme::proofs::Plans::input_there))]
fn names_of(alloc: Global, plan: &Plan, n: u32) -> Result<List<Bytes>, NoMemory>
    requires there { n < length plan.now.nodes }
    ensures { IfOk result (λ names. names ≡ map (node_name plan.now.nodes) (inputs_of (node_at plan.now.nodes n))) }
{
    // A sound plan has the nodes that feed its nodes.
    let _count = plan.nodes();
    let node = plan.node(n);
    let mut names = List::with_room(alloc, node.inputs())?;
    for at in 0..node.inputs() {
        names.push(List::copy_of(alloc, name_of_input(plan, node, at))?)?;
    }
    Ok(names)
}

// The name of the node that feeds an input.
fn name_of_input<'a>(plan: &'a Plan, node: &Node, at: usize) -> &'a [u8]
    requires there { at < length (inputs_of node.now) }
    requires known { slice_index (inputs_of node.now) at < length plan.now.nodes }
    ensures { result.now ≡ node_name plan.now.nodes (slice_index (inputs_of node.now) at) }
{
    match node.input(at) {
        None => unreachable!(),
        Some(input) => plan.name(input),
    }
}
