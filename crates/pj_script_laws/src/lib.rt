//! Laws of scripts: what their histories come to. It has no code.
#![tactic(auto)]

mod laws;

pub use laws::scripted_histories;
