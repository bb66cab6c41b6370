//! The call of a request on one thread: runs a plan over its files, where it may play a script first, checks it, or makes an input
//! and runs that. It waits for no other thread.
#![tactic(auto)]

mod alone;
mod made;
mod refusal;
mod run;
mod verdict;

pub use alone::run_alone;
pub use pj_judge::check_text;
pub use refusal::write_refusal;
pub use run::stop_name;
