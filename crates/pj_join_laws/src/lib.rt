//! The laws of one join.
#![tactic(auto)]

mod join_laws;

pub use join_laws::{
    completeness, forgetting_is_safe, lawfulness, ripeness, settling, standing, without_sweeps,
};
