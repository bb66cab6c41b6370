//! The elements that lines spell, their canonical lines, and which lines are accepted.
#![tactic(auto)]

mod acceptance;
mod canonical;
mod element;
mod forms;
mod items;
mod laws;
mod places;
mod reading;
mod spelled;
mod storable;
mod tally;
mod written;

pub use acceptance::{
    acceptance_goes_by_position, acceptance_goes_on, accepted_elements_are_lawful,
};
pub use element::{Read, Reject};
pub use forms::{Spelled, read_pattern};
pub use laws::{lines_are_read_again, lines_hold_no_feed, reading_is_exact};
pub use reading::{pattern_text, punct_text, read_element, row_text};
pub use spelled::{read_digits, read_value};
pub use storable::see_patterns;
pub use tally::Tally;
