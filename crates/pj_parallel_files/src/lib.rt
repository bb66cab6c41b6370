//! The run of a plan with workers over its files: they are opened, the plan is run over them, they are closed, and the report is written.
#![tactic(auto)]

mod run;

pub use run::run_parallel_files;
