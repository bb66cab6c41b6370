//! The punctuations that wait at a join, each under a stored row that holds it back, and those that go up, widened.
#![tactic(auto)]

mod held;
mod waiting;
mod widening;

pub use held::{ArrivingPunct, HeldPunct};
pub use waiting::{StillWaiting, Waiting};
pub use widening::{Swept, receive};
