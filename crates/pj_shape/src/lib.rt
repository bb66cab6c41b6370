//! The shapes of streams, joins and groups: columns, schemes, classes and certificates.
#![tactic(auto)]

mod cells;
mod columns;
mod groups;
mod joins;
mod laws;

pub use cells::{has_column, same_cell, same_cells};
pub use columns::{Column, Instance, Schema, Scheme, Schemes};
pub use groups::{Agg, GroupSpec};
pub use joins::{Cert, CertStep, ClassCol, JoinSpec};
pub use laws::joining_is_tested;
