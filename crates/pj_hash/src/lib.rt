//! Hashes of values, of which those that are equal have equal ones: numbers of 64 bits, by which indexes find them.
#![tactic(auto)]

mod hashes;

pub use hashes::{text_hash, with_value};
