//! A join of two and more inputs: what it stores under its tickets, the probes of its tuples, and sweeps that forget rows.
#![tactic(auto)]

mod join;
mod place;
mod settling;
mod starting;
mod stop;

pub use join::Join;
pub use pj_probe::{Found, Probe};
pub use stop::JoinStop;
