//! The answer of a plan over complete lists, and the punctuations that go with it: what a run of the plan has to hand out, said
//! by the plan's own nodes, without a run. [`eval`] works the answer out by nested loops: it shares no code with what runs, and
//! is meant for checks of a run. Of the punctuations there are definitions alone.
#![tactic(auto)]

mod aggregates;
mod evaluation;
mod grouping;
mod joining;
mod passing;
mod worked;

pub use evaluation::eval;
pub use worked::worked_answers;
