//! The plan language: the plan that a text spells, or its first fault, and the canonical text of a plan.
#![tactic(auto)]

mod cell_texts;
mod cell_words;
mod cuts;
mod laws;
mod line_texts;
mod lists;
mod names;
mod reader;
mod statements;
mod storable;
mod word;
mod writer;

pub use laws::statements_are_read_again;
pub use reader::{is_passed, is_short, read_plan};
pub use writer::plan_text;
