//! The punctuation schemes of the nodes of a plan, derived from those that its streams state.
#![tactic(auto)]

mod derive;
mod marks;
mod operators;

pub use derive::{derived, join_schemes, schemes_fit};
