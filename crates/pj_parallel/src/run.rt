// The run of a plan with workers.
ghost use Rattle.std.specs.Prelude.{◌≡◌, ◌≤◌, [], None, Err, IsTrue, IfErr, IfOk, OnOk, length, vec_capacity};
ghost use Rattle.pj_plan.specs.Nodes.{streams_in};
ghost use Rattle.pj_feed.specs.Feeds.{AllTold, AreAllTaken, AreFeeds, AreNew, AreSameFeeds};
ghost use Rattle.pj_run.specs.Cuts.{run_cut};
ghost use Rattle.pj_run.specs.Runs.{IsNewCore, job_in};
ghost use Rattle.pj_run.specs.Whole.{HasTaken, WritesWhole};
ghost use Rattle.pj_roster.specs.Assigned.{AreAssigned};
ghost use Rattle.pj_roster.specs.Dismissed.{causes_in, feeds_in, rows_in};
ghost use Rattle.pj_parallel.specs.Causes.{OutputCause, StopCause};
ghost use Rattle.pj_parallel.specs.Parallel.{IsStopped};
ghost use Rattle.pj_parallel.specs.Closing.{IsOfCrew, first_of};
ghost use Rattle.pj_parallel.specs.Concluding.{Concludes, Gathers};
ghost use Rattle.pj_workers.specs.declared.writing.WriteEnd.TheVariants.{Over};

use crate::closing::close_run;
use pj_core::Core;
use pj_crew::{Duty, Ended, run_crew};
use pj_feed::Feed;
use pj_io::{Sink, Source};
use pj_plan::Plan;
use pj_report::ResultWriter;
use pj_roster::{Causes, Dismissed, assign, dismiss};
use pj_run::{AcceptedRows, Gathered, RunStop, Writing};
use pj_value::{List as Items, Row};
use pj_workers::{Gate, Pause};
use std::alloc::Global;
use std::sync::Wait;
use std::thread::Threads;

/// What a run with workers leaves: the feeds of its streams, and its core with what was gathered for the report, or why it stopped.
pub struct RanParallel<S: Source> {
    pub feeds: Vec<Feed<S>>,
    pub ended: Result<Settled, RunStop>,
}

/// A core that was settled, and what was gathered for the report.
#[derive(Drop)]
pub struct Settled {
    pub core: Core,
    pub gathered: Gathered,
}

/// Runs the plan of a new core with so many workers, 1 to 16, over open feeds of its streams: a feeder for each stream, so many probers,
/// as many sweepers as the lesser of that number and the number of joins, and a writer, side by side until each has ended; then the core is
/// settled. The lines of what is handed out are written as they come, or kept, as `writing` says. `text` is where lines are made.
///
/// Whatever the interleaving: where it was made to its end there is a whole history of the plan over exactly the accepted elements, and
/// it wrote the lines of that. Where it stopped there is a legal history of a front of each stream, of whose lines it wrote what the stop
/// leaves: the first that is there of want of memory, a failed read of the lowest stream, the limit of a node, a file that is too large,
/// and a failed write.
///
/// Where it was made to its end the core runs the same plan and has not stopped, all bytes of each file were taken, and the results are
/// those of some elements in the form that `writing` says. What was written are whole lines, unless a write failed. A stop has its cause:
/// the faults of the stream's file rose, that file has 2^40 bytes or more, more elements come to the node in all than may, or the faults
/// of `out` rose; memory may be wanting at any time.
pub fn run_parallel<S: Source + Send, K: Sink + Send, G: Gate, P: Pause, R: Threads + Wait + Sync>(
    rt: &R,
    alloc: Global,
    writing: Writing,
    core: Core,
    plan: &Plan,
    feeds: Vec<Feed<S>>,
    workers: u32,
    text: &mut Items<u8>,
    out: &mut K,
    gate: &G,
    pause: &P,
) -> RanParallel<S>
    requires fresh { IsNewCore core }
    requires plan { plan.now.nodes ≡ core.plan.nodes }
    requires feeds { AreFeeds 0 (streams_in core.plan.nodes) feeds.items }
    requires none { AreNew feeds.items }
    requires workers { (1 ≤ workers) × (workers ≤ 16) }
    ensures same { AreSameFeeds feeds.items result.feeds.items }
    ensures told { IsTrue (K.state out.new).told → IsTrue (K.state out.old).told }
    ensures done { AllTold feeds.items → IfOk result.ended (Gathers (job_in writing core) feeds.items result.feeds.items (K.state out.old) (K.state out.new)) }
    ensures stops { AllTold feeds.items → IfErr result.ended (λ stop. IsStopped (job_in writing core) feeds.items result.feeds.items stop (K.state out.old) (K.state out.new)) }
    ensures later { (K.state out.old).faults ≤ (K.state out.new).faults }
    ensures plan { IfOk result.ended (λ settled. settled.core.plan ≡ core.plan) }
    ensures on { IfOk result.ended (λ settled. settled.core.kept.stop ≡ None) }
    ensures has_taken { IfOk result.ended (λ settled. HasTaken writing.form settled.gathered.results) }
    ensures taken { OnOk result.ended (AreAllTaken result.feeds.items) }
    ensures whole { WritesWhole run_cut (K.state out.old) (K.state out.new) result.ended }
    ensures cause { IfErr result.ended (λ stop. StopCause stop (job_in writing core) feeds.items result.feeds.items (K.state out.old) (K.state out.new)) }
{
    match enroll(alloc, plan, feeds, workers, writing.check) {
        Ok(Roster { duties, room, rows }) => {
            let results = ResultWriter::new(alloc, writing.form);
            match run_crew(rt, alloc, core, plan, duties, results, out, gate, pause) {
                Ok(ended) => conclude(alloc, writing.check, ended, room, rows, text, out),
                Err(duties) => stopped(disband(duties, room, rows), RunStop::NoMemory),
            }
        }
        Err(feeds) => stopped(feeds, RunStop::NoMemory),
    }
}

// The duties of a crew, and room for what they hold once it has ended.
struct Roster<S: Source> {
    duties: Vec<Duty<S>>,
    room: Vec<Feed<S>>,
    rows: Vec<Items<Row>>,
}

fn enroll<S: Source>(
    alloc: Global,
    plan: &Plan,
    feeds: Vec<Feed<S>>,
    workers: u32,
    keep: bool,
) -> Result<Roster<S>, Vec<Feed<S>>>
    requires few { length feeds.items ≤ 16 }
    requires workers { (1 ≤ workers) × (workers ≤ 16) }
    ensures assigned { IfOk result (λ roster. AreAssigned plan.now.nodes keep feeds.items roster.duties.items) }
    ensures few { IfOk result (λ roster. length roster.duties.items ≤ 63) }
    ensures none { IfOk result (λ roster. (roster.room.items ≡ []) × (roster.rows.items ≡ [])) }
    ensures room { IfOk result (λ roster. (length feeds.items ≤ vec_capacity roster.room) × (length feeds.items ≤ vec_capacity roster.rows)) }
    ensures refused { IfErr result (λ left. left.items ≡ feeds.items) }
{
    let room = match Vec::with_capacity(alloc, feeds.len()) {
        Ok(room) => room,
        Err(_) => return Err(feeds),
    };
    let rows = match Vec::with_capacity(alloc, feeds.len()) {
        Ok(rows) => rows,
        Err(_) => {
            room.destroy_empty();
            return Err(feeds);
        }
    };
    match assign(alloc, plan, feeds, workers, keep) {
        Ok(duties) => Ok(Roster { duties, room, rows }),
        Err(feeds) => {
            room.destroy_empty();
            Err(feeds)
        }
    }
}

// The feeds of a crew that did not begin.
fn disband<S: Source>(
    duties: Vec<Duty<S>>,
    room: Vec<Feed<S>>,
    rows: Vec<Items<Row>>,
) -> Vec<Feed<S>>
    requires none { (room.items ≡ []) × (rows.items ≡ []) }
    requires feeds { length (feeds_in duties.items) ≤ vec_capacity room }
    requires rows { length (rows_in duties.items) ≤ vec_capacity rows }
    ensures { result.items ≡ feeds_in duties.items }
{
    let Dismissed {
        feeds,
        rows: _,
        causes: _,
    } = dismiss(duties, room, rows);
    feeds
}

// A run that stopped so.
fn stopped<S: Source>(feeds: Vec<Feed<S>>, stop: RunStop) -> RanParallel<S>
    ensures feeds { result.feeds.items ≡ feeds.items }
    ensures ended { result.ended ≡ Err stop }
{
    RanParallel {
        feeds,
        ended: Err(stop),
    }
}

// Takes back what a crew's duties held, and closes the run. There is room for the feeds and for the rows that were kept.
fn conclude<S: Source, K: Sink>(
    alloc: Global,
    check: bool,
    ended: Ended<S>,
    room: Vec<Feed<S>>,
    rows: Vec<Items<Row>>,
    text: &mut Items<u8>,
    out: &mut K,
) -> RanParallel<S>
    requires none { (room.items ≡ []) × (rows.items ≡ []) }
    requires feeds { length (feeds_in ended.duties.items) ≤ vec_capacity room }
    requires rows { length (rows_in ended.duties.items) ≤ vec_capacity rows }
    requires on { first_of (causes_in ended.duties.items) ≡ None → ended.end ≡ Over → ended.core.kept.stop ≡ None }
    ensures feeds { result.feeds.items ≡ feeds_in ended.duties.items }
    ensures told { IsTrue (K.state out.new).told → IsTrue (K.state out.old).told }
    ensures concludes { Concludes check ended (K.state out.old) (K.state out.new) result.ended }
    ensures later { (K.state out.old).faults ≤ (K.state out.new).faults }
    ensures fault { ended.end ≡ Over → IfErr result.ended (λ stop. OutputCause stop (K.state out.old) (K.state out.new)) }
{
    let Ended {
        core,
        duties,
        results,
        end,
    } = ended;
    let mut core = core;
    let mut results = results;
    let Dismissed {
        feeds,
        rows,
        causes,
    } = dismiss(duties, room, rows);
    let first = first_stop(causes);
    match close_run(alloc, &mut core, &mut results, first, end, text, out) {
        Ok(()) => {
            let accepted = AcceptedRows {
                asked: check,
                lists: rows,
            };
            let gathered = Gathered { results, accepted };
            RanParallel {
                feeds,
                ended: Ok(Settled { core, gathered }),
            }
        }
        Err(stop) => stopped(feeds, stop),
    }
}

// The first of the stops that workers tell.
fn first_stop(causes: Causes) -> Option<RunStop>
    ensures first { result ≡ first_of causes }
    ensures of_crew { IsOfCrew result }
{
    if causes.memory {
        return Some(RunStop::NoMemory);
    }
    match causes.read {
        Some(stream) => Some(RunStop::ReadFault { stream }),
        None => match causes.node {
            Some(node) => Some(RunStop::Limit { node }),
            None => match causes.file {
                Some(stream) => Some(RunStop::TooLarge { stream }),
                None => None,
            },
        },
    }
}
