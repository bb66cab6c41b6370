//! The run of a plan with workers over open feeds.
#![tactic(auto)]

mod closing;
mod run;
mod settling;

pub use run::{RanParallel, Settled, run_parallel};
