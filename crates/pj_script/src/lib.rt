//! Scripts of replays: their steps, how they are read, and the history that they make.
#![tactic(auto)]

mod laws;
mod reader;
mod step;
mod words;

pub use laws::worked_scripts;
pub use reader::read_script;
pub use step::{ScriptStep, ScriptStop};
