//! Tests over the public calls of cores.
#![tactic(auto)]

#[cfg(test)]
mod answers;
#[cfg(test)]
mod by_hand;
#[cfg(test)]
mod cases;
#[cfg(test)]
mod cores;
#[cfg(test)]
mod held;
