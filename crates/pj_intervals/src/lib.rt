//! Which of some patterns of one column is the first that a value matches: an index over the ends of their intervals, whose
//! levels are merged by the logarithmic method of J. L. Bentley and J. B. Saxe, Decomposable searching problems I, Journal of
//! Algorithms 1(4), 1980.
#![tactic(auto)]

mod index;
mod intervals;
mod merging;
mod steps;

pub use index::FirstIndex;
