// What stands in a plan can be spelled and read again. The functions here only look, for the proof.
ghost use Rattle.pj_plan_text.specs.Kept.{AreKeptNodes, IsKeptNode};

use pj_element::see_patterns;
use pj_plan::{Node, Plan};

fn see_node(node: &Node)
    ensures { IsKeptNode node.now }
{
    match node {
        Node::Stream { schemes: _ } => {}
        Node::Select { input: _, test } => see_patterns(test.as_slice()),
        Node::Project {
            input: _,
            columns: _,
        } => {}
        Node::Union { inputs: _ } => {}
        Node::Join { inputs: _, spec: _ } => {}
        Node::Group { input: _, spec: _ } => {}
    }
}

/// The patterns of the plan's selects are in normal form, and their values are storable.
#[tactic(auto, using(crate::proofs::Stored::nodes_none, crate::proofs::Stored::nodes_more, crate::proofs::Stored::nodes_end))]
pub(crate) fn see_nodes(plan: &Plan)
    ensures { AreKeptNodes plan.now.nodes }
{
    for number in 0..plan.nodes() {
        see_node(plan.node(number));
    }
}
