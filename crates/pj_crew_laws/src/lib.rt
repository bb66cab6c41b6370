//! Laws of crews: what the one history comes to that feeders, probers, sweepers and a writer made, each on a seat of its own. It has no
//! code.
#![tactic(auto)]

mod laws;

pub use laws::{crews_arrive, crews_drain, crews_end, crews_stop};
