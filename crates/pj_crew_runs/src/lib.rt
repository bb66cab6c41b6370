//! Laws of crews that run a job over its files: what their one history comes to, and what it hands out. It has no code.
#![tactic(auto)]

mod laws;

pub use laws::{crews_limit, crews_run, crews_settle, crews_tell};
