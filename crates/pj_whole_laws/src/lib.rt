//! Laws of whole histories of a job: whatever made them, they hand out the plan's answer, and sorted they make the same lines. It has
//! no code.
#![tactic(auto)]

mod laws;

pub use laws::whole_histories;
