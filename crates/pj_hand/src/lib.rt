//! Replays by hand: steps on a core that are made one at a time, with any number of probes under way.
#![tactic(auto)]

mod hand;
mod held;
mod settling;

pub use hand::Hand;
