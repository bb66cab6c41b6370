//! Replays: the run of a plan over open feeds by a script.
#![tactic(auto)]

mod arriving;
mod replay;
mod script;
mod settling;
mod stepping;

pub use replay::{Replayed, replay_streams};
