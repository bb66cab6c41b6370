//! Tests over made inputs and the sources that give them.
#![tactic(auto)]

#[cfg(test)]
mod inputs;
