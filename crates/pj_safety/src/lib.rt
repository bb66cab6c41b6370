//! Which plans are safe, said node by node; what makes one unsafe, and the certificates of its joins.
#![tactic(auto)]

mod laws;
mod risk;

pub use laws::plans_are_judged_by_nodes;
pub use risk::PlanRisk;
