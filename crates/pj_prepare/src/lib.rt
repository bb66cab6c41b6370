//! What a request asks for over a folder is had ready: the core of a plan that is to be run, or the plan itself, and a script's steps.
#![tactic(auto)]

mod calls;
mod plan_file;
mod script;
mod status;
mod stops;

pub use calls::{Options, Prepared, Ready, files_in, prepare, spelled_ready};
pub use script::read_steps;
pub use stops::{FileStop, PlanStop, StepsStop};
