//! Tests over the public calls of scripts and of replays by hand.
#![tactic(auto)]

#[cfg(test)]
mod hands;
#[cfg(test)]
mod scripts;
