// What was counted against a run by its workers.
ghost use Rattle.std.specs.Prelude.{◌≡◌};
ghost use Rattle.pj_roster.specs.Dismissed.{no_causes, with_duty, with_feed_end, with_first, with_stop, with_work_end};

use pj_crew::Duty;
use pj_events::Stop;
use pj_io::Source;
use pj_workers::{FeedEnd, WorkEnd};

/// What was counted against a run by its workers: want of memory, the lowest stream of which a read failed, the node of a limit, the
/// lowest stream whose file is too large.
#[derive(Clone, Copy, Debug, PartialEq, Eq)]
pub struct Causes {
    pub memory: bool,
    pub read: Option<u32>,
    pub node: Option<u32>,
    pub file: Option<u32>,
}

/// Nothing is counted.
pub(crate) fn nothing() -> Causes
    ensures { result ≡ no_causes }
{
    Causes {
        memory: false,
        read: None,
        node: None,
        file: None,
    }
}

// The first number that was set, or this.
fn first_of(set: Option<u32>, number: u32) -> Option<u32>
    ensures { result ≡ with_first set number }
{
    match set {
        Some(first) => Some(first),
        None => Some(number),
    }
}

// One more: a stop that a worker was told.
fn count_stop(causes: Causes, stop: Stop) -> Causes
    ensures { result ≡ with_stop causes stop }
{
    match stop {
        Stop::NoMemory => Causes {
            memory: true,
            ..causes
        },
        Stop::Limit { node } => Causes {
            node: first_of(causes.node, node),
            ..causes
        },
    }
}

// One more: how the feeder of a stream ended.
fn count_feed(causes: Causes, stream: u32, end: FeedEnd) -> Causes
    ensures { result ≡ with_feed_end causes stream end }
{
    match end {
        FeedEnd::Ended => causes,
        FeedEnd::Halted => causes,
        FeedEnd::ReadFault => Causes {
            read: first_of(causes.read, stream),
            ..causes
        },
        FeedEnd::ByteLimit => Causes {
            file: first_of(causes.file, stream),
            ..causes
        },
        FeedEnd::NoMemory => Causes {
            memory: true,
            ..causes
        },
        FeedEnd::Stopped(stop) => count_stop(causes, stop),
    }
}

// One more: how a prober or a sweeper ended.
fn count_work(causes: Causes, end: WorkEnd) -> Causes
    ensures { result ≡ with_work_end causes end }
{
    match end {
        WorkEnd::Over => causes,
        WorkEnd::NoMemory => Causes {
            memory: true,
            ..causes
        },
        WorkEnd::Stopped(stop) => count_stop(causes, stop),
    }
}

/// One more: how the worker of a duty ended.
pub(crate) fn count_duty<S: Source>(causes: Causes, duty: &Duty<S>) -> Causes
    ensures { result ≡ with_duty causes duty.now }
{
    match duty {
        Duty::Feed { stream, end, .. } => count_feed(causes, *stream, *end),
        Duty::Probe { end, .. } => count_work(causes, *end),
        Duty::Sweep { end, .. } => count_work(causes, *end),
    }
}
