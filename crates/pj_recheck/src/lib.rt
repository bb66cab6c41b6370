//! Which stored rows of a join may have become ripe, since a punctuation came or a row went, and which of them are.
#![tactic(auto)]

mod added;
mod compiling;
mod due_rechecks;
mod marks;
mod orders;
mod partners;
mod reaching;
mod routes;
mod stored;
mod sweeping;
mod waking;

pub use compiling::{Certified, routes_of};
pub use marks::{DueRechecks, SweepResult};
pub use orders::keep_orders;
pub use partners::mark_dependents;
pub use routes::InputRoutes;
pub use stored::Inputs;
pub use sweeping::Judge;
pub use waking::mark_added;
