//! The workers of a run side by side over one hub: feeders, probers and sweepers as one list of tasks, and the writer beside them.
#![tactic(auto)]

mod crew;
mod duties;
mod seating;
mod side;
mod tasks;
mod writer;

pub use crew::{Ended, run_crew};
pub use duties::Duty;
