//! The call of a request with workers: runs a plan over its files with threads that share the join state.
#![tactic(auto)]

mod run;
mod together;

pub use together::run_together;
