//! What is done without threads: whether a plan is safe, and what is told of it.
#![tactic(auto)]

mod asked;
mod check;
mod safety;

pub use check::check_text;
pub use safety::{Judged, Unsafe, judge};
