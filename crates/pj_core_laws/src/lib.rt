//! Laws of cores: which steps may follow, what settling one comes to, and what a plan answers over the nodes that it is run by. It
//! has no code.
#![tactic(auto)]

mod laws;

pub use laws::{answers_are_plain, probes_under_way, settling, steps_are_allowed, work_settles};
