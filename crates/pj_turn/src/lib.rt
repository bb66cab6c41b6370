//! Turns with seats: any number of threads share one state by turns, and there is one history of what they did.
#![tactic(auto)]

mod kept;
mod plays;
mod turn;
mod views;
mod waiting;

pub use kept::{Act, Kept};
pub use turn::{Turn, TurnSeat};
