//! Groups: rows that agree in some columns, and what their aggregates come to. A punctuation closes the groups that it
//! matches, after P. A. Tucker, D. Maier, T. Sheard and L. Fegaras, Exploiting Punctuation Semantics in Continuous Data
//! Streams, IEEE Transactions on Knowledge and Data Engineering 15(3), 2003. One with constants in all key columns looks up
//! their group; one with a constant in some looks up the groups with that value, and one with a range of integers in some the
//! groups with an integer of it, each by an index of the column that is made when the first such punctuation comes; any other
//! goes through all groups.
#![tactic(auto)]

mod closing;
mod group;
mod handing;
mod indexes;
mod keys;
mod lent_key;
mod order_index;
mod places;
mod reach;
mod slots;
mod tally;
mod value_index;

pub use group::{Group, GroupStop};
pub use tally::Tally;
