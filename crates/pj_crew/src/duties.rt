// What workers do beside the writer.
use pj_feed::Feed;
use pj_io::Source;
use pj_value::{List as Items, Row};
use pj_workers::{FeedEnd, WorkEnd};

/// What a worker does beside the writer, with what it does it, and, once it has done it, how it ended. Workers of a role are counted
/// from 0.
pub enum Duty<S: Source> {
    /// Feeds a stream, and keeps the rows that arrive where they are asked for.
    Feed {
        stream: u32,
        feed: Feed<S>,
        kept: Option<Items<Row>>,
        end: FeedEnd,
    },
    /// Probes.
    Probe {
        index: u32,
        end: WorkEnd,
    },
    /// Sweeps these places in order, each a join and one of its inputs.
    Sweep {
        index: u32,
        places: Items<(u32, u32)>,
        end: WorkEnd,
    },
}
