//! The top call: what the words of a command line ask for is done.
#![tactic(auto)]

mod laws;
mod top;

pub use laws::steady_calls_complete;
pub use pj_alone::{check_text, run_alone};
pub use pj_report::{LimitOf, Status};
pub use pj_safety::PlanRisk;
pub use pj_workers::{Gate, OpenGate, Role};
pub use top::run_words;
