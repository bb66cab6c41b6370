//! Tests over the public calls of stores of punctuations and rows, of probes and of operators.
#![tactic(auto)]

#[cfg(test)]
mod covers;
#[cfg(test)]
mod doors;
#[cfg(test)]
mod flows;
#[cfg(test)]
mod groups;
#[cfg(test)]
mod lines;
#[cfg(test)]
mod probes;
#[cfg(test)]
mod states;
