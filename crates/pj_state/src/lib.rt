//! The stored rows of an input of a join: in order of their tickets, with an index for each column that is asked for.
#![tactic(auto)]

mod cursor;
mod halving;
mod index;
mod matching;
mod numbers;
mod places;
mod remaining;
mod shared;
mod state;
mod store;
mod texts;
mod tickets;

pub use cursor::Cursor;
pub use matching::{Matching, Spot};
pub use remaining::Remaining;
pub use shared::{Shared, Stored};
pub use state::{NextNumber, Seek, State};
