//! A tuple on its way through the work of a join: for each other input the rows that may join with it, found by indexes, and the
//! combinations of its row with one of each that join, walked without copying a row.
#![tactic(auto)]

mod checks;
mod choosing;
mod handing;
mod joined;
mod lent;
mod making;
mod probe;
mod route;
mod visit;
mod walk;

pub use checks::{Check, JoinChecks};
pub use handing::hand_out_found;
pub use joined::Joined;
pub use lent::Lent;
pub use making::probe_of;
pub use probe::{Found, Probe, each_lent};
pub use route::{ProbeRoute, probe_routes, route_of};
pub use visit::Visit;
