// Duties are handed out.
ghost use Rattle.std.specs.Prelude.{◌≡◌, ◌≤◌, ◌+◌, ◌++◌, length, vec_capacity, IfErr, IfOk};
ghost use Rattle.pj_roster.specs.Assigned.{AreAssigned, crew_of, feeders, kept_at, probers, sweepers};

use crate::places::shares_of;
use pj_crew::Duty;
use pj_feed::Feed;
use pj_io::Source;
use pj_plan::Plan;
use pj_value::{List as Items, NoMemory, Row};
use pj_workers::{FeedEnd, WorkEnd};
use std::alloc::Global;

/// The duties of a crew over a plan's feeds: a feeder for each stream in order, so many probers (1 to 16), and as many sweepers as
/// the lesser of these and the number of joins, where the k-th join in order of declaration belongs to sweeper k modulo their number,
/// each with all inputs of its joins in order. Rows are kept where `keep` asks for them.
///
/// Where memory can't be had the feeds come back as they were.
pub fn assign<S: Source>(
    alloc: Global,
    plan: &Plan,
    feeds: Vec<Feed<S>>,
    workers: u32,
    keep: bool,
) -> Result<Vec<Duty<S>>, Vec<Feed<S>>>
    requires few { length feeds.items ≤ 16 }
    requires workers { (1 ≤ workers) × (workers ≤ 16) }
    ensures all { IfOk result (λ duties. duties.items ≡ crew_of plan.now.nodes keep feeds.items workers) }
    ensures assigned { IfOk result (λ duties. AreAssigned plan.now.nodes keep feeds.items duties.items) }
    ensures few { IfOk result (λ duties. length duties.items ≤ 63) }
    ensures refused { IfErr result (λ left. left.items ≡ feeds.items) }
{
    let shares = match shares_of(alloc, plan, workers) {
        Ok(shares) => shares,
        Err(NoMemory) => return Err(feeds),
    };
    let count = feeds.len() + workers as usize + shares.len();
    let mut duties = match Vec::with_capacity(alloc, count) {
        Ok(duties) => duties,
        Err(_) => return Err(feeds),
    };
    add_feeders(alloc, feeds, keep, &mut duties);
    add_probers(workers, &mut duties);
    add_sweepers(shares, &mut duties);
    Ok(duties)
}

// No rows yet, where they are asked for.
fn no_rows(alloc: Global, keep: bool) -> Option<Items<Row>>
    ensures { result ≡ kept_at keep }
{
    if keep { Some(Items::new(alloc)) } else { None }
}

// A feeder for each of these feeds, in order.
#[tactic(auto, using(crate::proofs::Handing::hand_begins, crate::proofs::Handing::hand_ends))]
fn add_feeders<S: Source>(alloc: Global, feeds: Vec<Feed<S>>, keep: bool, duties: &mut Vec<Duty<S>>)
    requires few { length feeds.items ≤ 16 }
    requires room { length duties.old.items + length feeds.items ≤ vec_capacity duties.old }
    ensures items { duties.new.items ≡ duties.old.items ++ feeders 0 keep feeds.items }
    ensures room { vec_capacity duties.new ≡ vec_capacity duties.old }
{
    let mut stream: u32 = 0;
    let mut rest = feeds.into_iter();
    while let Some(feed) = rest.next() {
        duties.push_reserved(Duty::Feed {
            stream,
            feed,
            kept: no_rows(alloc, keep),
            end: FeedEnd::Halted,
        });
        stream += 1;
    }
    rest.destroy_empty();
}

// So many probers.
#[tactic(auto, using(crate::proofs::Handing::prober_goes))]
fn add_probers<S: Source>(workers: u32, duties: &mut Vec<Duty<S>>)
    requires room { length duties.old.items + workers ≤ vec_capacity duties.old }
    ensures items { duties.new.items ≡ duties.old.items ++ probers 0 workers }
    ensures room { vec_capacity duties.new ≡ vec_capacity duties.old }
{
    for index in 0..workers {
        duties.push_reserved(Duty::Probe {
            index,
            end: WorkEnd::Over,
        });
    }
}

// A sweeper for each of these shares.
#[tactic(auto, using(crate::proofs::Handing::hand_begins, crate::proofs::Handing::hand_ends))]
fn add_sweepers<S: Source>(shares: Vec<Items<(u32, u32)>>, duties: &mut Vec<Duty<S>>)
    requires few { length shares.items ≤ 16 }
    requires room { length duties.old.items + length shares.items ≤ vec_capacity duties.old }
    ensures items { duties.new.items ≡ duties.old.items ++ sweepers 0 shares.items }
{
    let mut index: u32 = 0;
    let mut rest = shares.into_iter();
    while let Some(places) = rest.next() {
        duties.push_reserved(Duty::Sweep {
            index,
            places,
            end: WorkEnd::Over,
        });
        index += 1;
    }
    rest.destroy_empty();
}
