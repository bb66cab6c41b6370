//! Which inputs of a join an input reaches by the schemes of the punctuations that the inputs promise.
#![tactic(auto)]

mod answers;
mod known;
mod laws;
mod saturation;
mod search;

pub use answers::Reach;
pub use known::{is_among, touches};
pub use laws::{reaches_are_told, safe_where_certified, saturations_are_told};
pub use saturation::reach;
