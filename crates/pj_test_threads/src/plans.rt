// The auction that tests of threads run.
ghost use Rattle.std.specs.Prelude.{IsTrue};
ghost use Rattle.pj_test_threads.specs.Auctions.{HasJoin};

use pj_plan::{Node, Plan};

/// The plan of an auction: items, bids, and their join by the item's number.
pub const AUCTION: &[u8] =
    b"plan 1\nstream items item:int seller:text\nstream bids bitem:int price:int\nscheme items + _\nscheme bids + _\njoin j items bids on item=bitem\noutput j\n";

/// The join of the auction, which is its last node.
pub const JOIN: u32 = 2;

/// Whether the node is a join of two inputs.
pub fn has_join(plan: &Plan, node: u32) -> bool
    ensures { IsTrue result → HasJoin plan.now.nodes node }
{
    if node < plan.nodes() {
        match plan.node(node) {
            Node::Join { inputs, spec: _ } => inputs.len() == 2,
            Node::Stream { schemes: _ } => false,
            Node::Select { input: _, test: _ } => false,
            Node::Project {
                input: _,
                columns: _,
            } => false,
            Node::Union { inputs: _ } => false,
            Node::Group { input: _, spec: _ } => false,
        }
    } else {
        false
    }
}
