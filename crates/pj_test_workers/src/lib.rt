//! Tests of the workers of a run, over a core behind turns.
#![tactic(auto)]

#[cfg(test)]
mod auction;
#[cfg(test)]
mod desk;
#[cfg(test)]
mod runs;
