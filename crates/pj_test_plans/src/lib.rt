//! Tests over the public calls of plans, their texts, schemes, certificates and safety.
#![tactic(auto)]

#[cfg(test)]
mod cases;
#[cfg(test)]
mod certificates;
#[cfg(test)]
mod doors;
#[cfg(test)]
mod graphs;
#[cfg(test)]
mod joins;
#[cfg(test)]
mod plan_texts;
#[cfg(test)]
mod plans;
#[cfg(test)]
mod safety;
#[cfg(test)]
mod schemes;
