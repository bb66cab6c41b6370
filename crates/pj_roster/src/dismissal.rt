// Duties are taken back.
ghost use Rattle.std.specs.Prelude.{◌≡◌, ◌≤◌, ◌+◌, ◌++◌, [], length, vec_capacity};
ghost use Rattle.pj_roster.specs.Dismissed.{causes_in, feed_of_duty, feeds_in, rows_in, rows_of_duty};

use crate::causes::{Causes, count_duty, nothing};
use pj_crew::Duty;
use pj_feed::Feed;
use pj_io::Source;
use pj_value::{List as Items, Row};

/// What the duties of a crew that has ended held, and what is counted against the run.
pub struct Dismissed<S: Source> {
    pub feeds: Vec<Feed<S>>,
    pub rows: Vec<Items<Row>>,
    pub causes: Causes,
}

/// Takes back the duties of a crew that has ended: the feeds of the feeders, in order, and the rows that they kept, in these empty
/// lists, which have room for them; and what is counted against the run.
#[tactic(auto, using(crate::proofs::Taking::taking_begins, crate::proofs::Taking::taking_ends))]
pub fn dismiss<S: Source>(
    duties: Vec<Duty<S>>,
    mut feeds: Vec<Feed<S>>,
    mut rows: Vec<Items<Row>>,
) -> Dismissed<S>
    requires none { (feeds.items ≡ []) × (rows.items ≡ []) }
    requires room { (length (feeds_in duties.items) ≤ vec_capacity feeds) × (length (rows_in duties.items) ≤ vec_capacity rows) }
    ensures feeds { result.feeds.items ≡ feeds_in duties.items }
    ensures rows { result.rows.items ≡ rows_in duties.items }
    ensures causes { result.causes ≡ causes_in duties.items }
{
    let mut causes = nothing();
    let mut rest = duties.into_iter();
    while let Some(duty) = rest.next() {
        causes = count_duty(causes, &duty);
        take_back(duty, &mut feeds, &mut rows);
    }
    rest.destroy_empty();
    Dismissed {
        feeds,
        rows,
        causes,
    }
}

// Puts the feed of a feeder, and the rows that it kept, at the end.
fn take_back<S: Source>(duty: Duty<S>, feeds: &mut Vec<Feed<S>>, rows: &mut Vec<Items<Row>>)
    requires feeds { length feeds.old.items + length (feed_of_duty duty) ≤ vec_capacity feeds.old }
    requires rows { length rows.old.items + length (rows_of_duty duty) ≤ vec_capacity rows.old }
    ensures feeds { feeds.new.items ≡ feeds.old.items ++ feed_of_duty duty }
    ensures rows { rows.new.items ≡ rows.old.items ++ rows_of_duty duty }
    ensures room { (vec_capacity feeds.new ≡ vec_capacity feeds.old) × (vec_capacity rows.new ≡ vec_capacity rows.old) }
{
    match duty {
        Duty::Feed {
            stream: _,
            feed,
            kept,
            end: _,
        } => {
            feeds.push_reserved(feed);
            match kept {
                Some(kept) => rows.push_reserved(kept),
                None => {}
            }
        }
        Duty::Probe { index: _, end: _ } => {}
        Duty::Sweep {
            index: _,
            places: _,
            end: _,
        } => {}
    }
}
