//! Cores over certificates: those of a plan that was judged safe, and any that are verified first.
#![tactic(auto)]

mod checks;
mod laws;
mod opening;
mod verifying;

pub use laws::certificates_of_safe_plans;
pub use opening::safe_core;
pub use verifying::verified_core;
