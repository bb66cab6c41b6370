//! A made input of an auction, as large as it is asked for: a plan and the files of its streams.
#![tactic(auto)]

mod draws;
mod laws;
mod made;

pub use laws::first_draws;
pub use made::{Made, make};
