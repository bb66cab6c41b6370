//! The workers of a run, over any hub: they feed streams, probe, sweep and write.
#![tactic(auto)]

mod ends;
mod feeding;
mod gate;
mod laws;
mod probing;
mod sweeping;
mod writing;

pub use ends::WorkEnd;
pub use feeding::{FeedEnd, feed};
pub use gate::{Gate, NoPause, OpenGate, Pause, Role};
pub use laws::fresh_feeds_stand;
pub use probing::probe;
pub use sweeping::sweep_all;
pub use writing::{WriteEnd, write_out};
