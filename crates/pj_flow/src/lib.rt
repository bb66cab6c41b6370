//! The operators that keep no rows: selects, projects and unions, and what they make of punctuations, after P. A. Tucker,
//! D. Maier, T. Sheard and L. Fegaras, Exploiting Punctuation Semantics in Continuous Data Streams, IEEE Transactions on
//! Knowledge and Data Engineering 15(3), 2003.
#![tactic(auto)]

mod columns;
mod heard;
mod sample;
mod select;
mod stores;
mod union;

pub use columns::{cell, project_punct, project_tuple};
pub use select::select_tuple;
pub use union::Union;
