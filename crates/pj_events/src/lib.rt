//! The events of a run, what is handed out, and what histories of joins and of whole plans mean.
#![tactic(auto)]

mod events;

pub use events::{Entry, Event, Look, Out, Stop};
