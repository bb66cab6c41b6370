//! The run of a plan over its files, plainly or by a script: the files are opened, the plan is run over them, they are closed, and the
//! report is written.
#![tactic(auto)]

mod run;

pub use run::{Ran, run_files};
