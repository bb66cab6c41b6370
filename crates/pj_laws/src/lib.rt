//! The laws of histories of joins and plans.
#![tactic(auto)]

mod climb_laws;
mod history_laws;
mod limits_laws;
mod plan_laws;
mod seat_laws;
mod settling_laws;
mod worked;

pub use climb_laws::{climbs_of_histories, climbs_of_steps};
pub use history_laws::{
    finality, history_answers, history_lawfulness, history_punctuations, history_steps,
    joins_of_histories, never_retracted, one_thread, probing, turns,
};
pub use limits_laws::limits_tell;
pub use plan_laws::{complete_answers, plan_answers, plan_lawfulness};
pub use seat_laws::{
    drains_of_seats, quiet_events_go_beyond_nothing, seats_change_nothing, stops_are_listed,
    streams_of_seats, tickets_of_seats,
};
pub use settling_laws::histories_settle;
pub use worked::{worked_climbs, worked_runs};
