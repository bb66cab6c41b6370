//! A plan as data: its canonical statements.
#![tactic(auto)]

mod stating;

pub use stating::statements;
