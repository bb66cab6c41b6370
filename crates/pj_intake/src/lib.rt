//! The lines of a stream's source, judged one by one: which elements are accepted, and which lines are rejected.
#![tactic(auto)]

mod intake;
mod lines;
mod seen;
mod steps;

pub use intake::{Intake, IntakeStop, Step};
