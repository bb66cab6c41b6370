//! Laws of made inputs: the plan is read and safe, the files are short, no list of their answer grows past a limit, and the total
//! of the answer is an exact sum. It has no code.
#![tactic(auto)]

mod laws;

pub use laws::made_inputs_fit;
