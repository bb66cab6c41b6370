//! A store of the punctuations of a stream or an input: which of them a row breaks, and which instances of a scheme they cover.
#![tactic(auto)]

mod cells;
mod given;
mod hashes;
mod index;
mod number_list;
mod numbers;
mod one_cell;
mod store;

pub use cells::Cells;
pub use given::Given;
pub use index::only_filled;
pub use one_cell::{OneCell, only_mark};
pub use store::{NumberedPunct, PunctStore};
