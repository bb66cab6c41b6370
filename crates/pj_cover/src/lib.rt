//! Whether a stored row of a join is ripe: whether all that it asks for by the certificate of its input is covered.
#![tactic(auto)]

mod covering;
mod lent;
mod ripeness;
mod route;
mod rows;

pub use pj_puncts::{Given, NumberedPunct, PunctStore};
pub use ripeness::{Verdict, judge_row, ripe};
pub use route::{PurgeLink, PurgeRoute, PurgeStep, Source, first_class, purge_route};
pub use rows::StoredRows;
