//! Certificates of the inputs of a join, closed sets of its inputs, and rows that show why an input is stuck.
#![tactic(auto)]

mod blanks;
mod checks;
mod escaping;
mod fresh;
mod laws;
mod partners;
mod verdicts;
mod verified;

pub use blanks::{blank_instances, blank_row};
pub use checks::closed;
pub use escaping::escape;
pub use fresh::{fresh_number, fresh_text};
pub use laws::{escaping_is_lawful, fresh_values_are_new};
pub use partners::partners_text;
pub use verdicts::{reached_line, unreached_line, verdict_text};
pub use verified::verify;
