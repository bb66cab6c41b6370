//! The stored rows of the inputs of a join: as tuples with their tickets, and as they are found by a value, by a range of
//! integers, or by a punctuation that they match.
#![tactic(auto)]

mod arrivals;
mod finding;
mod lookups;
mod ranges;
mod tickets;

pub use arrivals::Arrived;
pub use finding::{find, find_left};
pub use lookups::{Lookup, column_in};
pub use ranges::{Numbers, numbers_of, tickets_among};
pub use tickets::in_order;
