//! Patterns, punctuations and the elements of streams, after P. A. Tucker, D. Maier, T. Sheard and L. Fegaras, Exploiting
//! Punctuation Semantics in Continuous Data Streams, IEEE Transactions on Knowledge and Data Engineering 15(3), 2003.
#![tactic(auto)]

mod element;
mod forms;
mod laws;
mod meets;
mod normal;
mod pattern;
mod punct;

pub use element::Element;
pub use laws::{covered_is_matched, lawful_lists, meets_match_both, normal_forms, widened_matches};
pub use pattern::{Form, Pattern, Shape};
pub use punct::{Punct, append_copies, append_wild};
