// What is known of the stored rows of an input between its sweeps.
use pj_value::List;

/// Which stored rows of an input a sweep judges: those with tickets from `from` on, and those whose tickets are marked. Each
/// other one asks for an instance that no punctuation covers, and is passed over.
#[derive(Drop)]
pub struct DueRechecks {
    pub from: u64,
    pub marked: List<u64>,
}

/// What a sweep finds of the stored rows of an input: the tickets of those that go, and of those that are judged again.
#[derive(Drop)]
pub struct SweepResult {
    pub gone: List<u64>,
    pub marked: List<u64>,
}
