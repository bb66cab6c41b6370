//! The words of a command line, read to a request.
#![tactic(auto)]

mod commands;
mod laws;
mod lexer;
mod matches;
mod reader;
mod request;
mod tables;

pub use laws::words_are_read_exactly;
pub use request::{Request, WordStop, request_of};
