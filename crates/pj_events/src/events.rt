// What happens to a plan that runs, and what it hands out.
use pj_pattern::{Element, Punct};
use pj_value::{NoMemory, Row};

/// What is handed out: an element of the root, or the note of a row that a sweep removed from an input of a join.
#[derive(Drop)]
pub enum Out {
    Tuple(Row),
    Punct(Punct),
    Purged { join: u32, input: u32, row: Row },
}

/// Why a run stopped: one element more than the limit reached a node, or memory could not be had.
#[derive(Clone, Copy, Debug, PartialEq, Eq)]
pub enum Stop {
    Limit { node: u32 },
    NoMemory,
}

impl From<NoMemory> for Stop {
    ghost use Rattle.std.specs.Prelude.{◌≡◌};
    ghost use Rattle.pj_events.specs.declared.events.Stop.TheVariants.{NoMemory as OutOfMemory};

    ghost from_gives = { λ _ stop. stop ≡ OutOfMemory };

    fn from(_: NoMemory) -> Stop {
        Stop::NoMemory
    }
}

/// An event. `stream` is a number among the streams; `join` and `node` are numbers of nodes.
/// `Look` is a look with the number of pending tuples that it answered. `Idle` is a call that found nothing to do.
#[derive(Drop)]
pub enum Event {
    Arrive { stream: u32, element: Element },
    Take { join: u32, ticket: u64 },
    Give { join: u32, ticket: u64 },
    Sweep { join: u32, input: u32 },
    Drain,
    Halt,
    Look { pending: u64 },
    Stopped { stop: Stop },
    Idle,
}

/// An event, the number of the seat that made it (0 where there are no seats), and 1 where it closes a stream, else 0.
#[derive(Drop)]
pub struct Entry {
    pub event: Event,
    pub seat: u32,
    pub closing: u32,
}

/// What a look answers: sums over all joins, numbers of streams, of outputs that are not drained, and why the run stopped.
#[derive(Clone, Copy, Debug, PartialEq, Eq)]
pub struct Look {
    pub pending: u64,
    pub taken: u64,
    pub streams: u32,
    pub ended: u32,
    pub stored: u64,
    pub waiting: u64,
    pub outputs: u64,
    pub halted: bool,
    pub stop: Option<Stop>,
}
