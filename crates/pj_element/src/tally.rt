// The counts of a stream's lines.
use crate::element::Reject;
use pj_value::List;

/// How many tuples and punctuations of a stream were accepted, how many lines were rejected, and its first
/// rejects, each with the number of its line, counted from 1.
#[derive(Drop)]
pub struct Tally {
    pub tuples: u64,
    pub puncts: u64,
    pub rejected: u64,
    pub listed: List<(u64, Reject)>,
}
