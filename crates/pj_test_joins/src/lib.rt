//! Tests over the public calls of joins.
#![tactic(auto)]

#[cfg(test)]
mod joins;
#[cfg(test)]
mod plain_sweeps;
