//! Plans: what their statements say, which fault of a plan comes first, and the nodes of a plan without fault.
#![tactic(auto)]

mod build;
mod checks;
mod declare;
mod fault;
mod faults;
mod limits;
mod links;
mod making;
mod names;
mod node;
mod parts;
mod plan;
mod schemas;
mod statement;

pub use fault::{PlanFault, PlanStop, PlanWhy};
pub use node::{Draft, Node, Outline, PlanNode};
pub use plan::Plan;
pub use statement::{AggWord, ColumnWord, NamedAgg, Renamed, Stated, Statement, Test, TestWord};
