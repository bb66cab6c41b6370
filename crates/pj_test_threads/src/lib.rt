//! Tests of what threads share: turns, and the hub over a core.
#![tactic(auto)]

mod plans;

pub use plans::{AUCTION, JOIN, has_join};

#[cfg(test)]
mod hubs;
#[cfg(test)]
mod turns;
