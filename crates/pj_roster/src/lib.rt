//! The duties of a crew over the streams and joins of a plan: handed out before it runs, and taken back once it has ended.
#![tactic(auto)]

mod assigning;
mod causes;
mod dismissal;
mod laws;
mod places;

pub use assigning::assign;
pub use causes::Causes;
pub use dismissal::{Dismissed, dismiss};
pub use laws::{rosters_begin, rosters_feed, rosters_keep, rosters_tell};
