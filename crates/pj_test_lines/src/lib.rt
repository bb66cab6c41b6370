//! Tests over the public calls of values, files, patterns, lines, elements and intakes.
#![tactic(auto)]

#[cfg(test)]
mod doors;
#[cfg(test)]
mod elements;
#[cfg(test)]
mod files;
#[cfg(test)]
mod intakes;
#[cfg(test)]
mod lines;
#[cfg(test)]
mod patterns;
#[cfg(test)]
mod shapes;
#[cfg(test)]
mod texts;
#[cfg(test)]
mod values;
