//! How the workers of a run wait for one another: one of them at a time makes rounds, and the others rest.
#![tactic(auto)]

mod bell;
mod drains;
mod floor;
mod guests;
mod pausing;

pub use floor::Floor;
