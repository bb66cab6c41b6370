// What a seat knows, and what the table of a turn is told when it is made.
use std::collections::LinkedList;
use std::snapshot::Snapshot;

/// What a seat knows. No value of this type is made; proofs alone speak of it.
///
/// `live` is false once the seat was joined into another, `waits` says that it holds a ticket, and `turn` that it is its
/// turn. `count` is, in the seat with the number 0, how many seats there are. `pairs` are the seats that were joined
/// into this one: the number of each, and what it had seen.
pub struct SeatView<F, E> {
    pub number: u64,
    pub live: bool,
    pub waits: bool,
    pub ticket: u64,
    pub turn: bool,
    pub count: u64,
    pub fixed: Option<F>,
    pub seen: LinkedList<E>,
    pub pairs: LinkedList<(u64, LinkedList<E>)>,
}

/// What the table is told when it is made: the first state, and how many seats there will be.
#[derive(Drop)]
pub struct Opening<T> {
    pub state: Snapshot<T>,
    pub seats: u32,
}
