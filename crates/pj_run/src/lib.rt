//! The run of a plan over open feeds, in rounds: one turn of a stream after the other, its results, and the report.
#![tactic(auto)]

mod checking;
mod feeding;
mod report;
mod rest;
mod run;
mod status;
mod stops;
mod turns;

pub use checking::AcceptedRows;
pub use feeding::next_of;
pub use rest::go_on;
pub use run::{Gathered, Writing, finish, run_streams};
pub use status::write_stop;
pub use stops::{FeedStop, FeedWhy, FilesStop, RunStop, TurnStop};
pub use turns::turn_end;
