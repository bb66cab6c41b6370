//! The core of a run of a plan: it takes elements, lends the work of probes, sweeps what is needed no more, and hands out what
//! the plan's last node gives. Each call is one entry of the run's history.
#![tactic(auto)]

mod build;
mod running;
mod turns;

pub use pj_events::{Entry, Event, Look, Out, Stop};
pub use pj_join::{Found, Probe};
pub use running::Core;
