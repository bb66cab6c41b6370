//! The operators of a plan as they run: what each does with an element that it receives, how what it emits goes as far as it
//! goes, and what the joins among them take, give and sweep.
#![tactic(auto)]

mod act;
mod emitting;
mod handed;
mod look;
mod operator;

pub use act::{Swept, give_found, probe_on, sweep_at, take_first};
pub use emitting::emit;
pub use look::{Sums, sums_of};
pub use operator::{Emitted, OperatorState, RunningOperator};
