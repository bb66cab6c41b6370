//! Streams that are fed from their files: whose turn it is, and what a step of it brings; the files opened and closed.
#![tactic(auto)]

mod feeds;
mod files;
mod stops;

pub use feeds::{Arrival, Feed, Feeds};
pub use files::{close_feeds, open_feeds};
pub use stops::OpeningStop;
