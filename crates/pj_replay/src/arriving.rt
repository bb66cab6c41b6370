// The next turn of a stream arrives at a hand.
ghost use Rattle.std.specs.Prelude.{◌≡◌, ◌<◌, ◌≤◌, IsTrue, length, IfErr, IfOk, OnOk};
ghost use Rattle.pj_events.specs.OneThread.{arrival_of};
ghost use Rattle.pj_feed.specs.Feeds.{turn_in, AreSameFeeds};
ghost use Rattle.pj_hand.specs.Steps.{HandArrives, IsEventRefused};
ghost use Rattle.pj_plan.specs.Nodes.{streams_in};
ghost use Rattle.pj_report.specs.Written.{WritesNothing};
ghost use Rattle.pj_run.specs.Stops.{of_core, of_turn};
ghost use Rattle.pj_run.specs.Turning.{IsTurnOf};
ghost use Rattle.pj_script.specs.declared.step.ScriptStep.TheVariants.{Arrive};
ghost use Rattle.pj_replay.specs.Playing.{IsOpenAt, IsReady, NextAt, NoneAt, stage, PlaysStep, LeavesStep};

use pj_core::Stop;
use pj_feed::{Arrival, Feeds};
use pj_hand::Hand;
use pj_io::{Sink, Source};
use pj_run::{FeedStop, Gathered, RunStop, next_of};
use std::alloc::Global;

/// Makes the next turn of a stream, counted from 0, arrive at the hand, and keeps its row; `false` exactly where the stream has ended.
/// What the output holds back is handed on before a read.
pub(crate) fn arrive<S: Source, K: Sink>(
    alloc: Global,
    hand: &mut Hand,
    feeds: &mut Feeds<S>,
    gathered: &mut Gathered,
    stream: u32,
    out: &mut K,
) -> Result<bool, RunStop>
    requires ready { IsReady (stage hand.old feeds.old.feeds.items gathered.old (K.state out.old)) }
    requires there { stream < length (streams_in hand.old.core.plan.nodes) }
    ensures ok { PlaysStep (stage hand.old feeds.old.feeds.items gathered.old (K.state out.old)) (stage hand.new feeds.new.feeds.items gathered.new (K.state out.new)) (Arrive stream) result }
    ensures err { LeavesStep (stage hand.old feeds.old.feeds.items gathered.old (K.state out.old)) (stage hand.new feeds.new.feeds.items gathered.new (K.state out.new)) (Arrive stream) result }
    ensures at { feeds.new.at ≡ feeds.old.at }
    ensures same { AreSameFeeds feeds.old.feeds.items feeds.new.feeds.items }
    ensures told { IsTrue (K.state out.new).told → IsTrue (K.state out.old).told }
    ensures later { (K.state out.old).faults ≤ (K.state out.new).faults }
{
    if !feeds.feeds[stream as usize].is_open() {
        return Ok(false);
    }
    let next = next_at(feeds, stream, out)?;
    gathered.accepted.keep(alloc, &next)?;
    match enter(hand, next) {
        Ok(()) => Ok(true),
        Err(stop) => Err(run_stop(stop)),
    }
}

// The next turn of the stream at this place, whose closing is still to come.
fn next_at<S: Source, K: Sink>(
    feeds: &mut Feeds<S>,
    stream: u32,
    out: &mut K,
) -> Result<Arrival, FeedStop>
    requires open { IsOpenAt feeds.old.feeds.items stream }
    ensures ok { IfOk result (NextAt feeds.old.feeds.items feeds.new.feeds.items stream) }
    ensures err { IfErr result (NoneAt feeds.old.feeds.items feeds.new.feeds.items stream (K.state out.old) (K.state out.new)) }
    ensures written { WritesNothing (K.state out.old) (K.state out.new) }
    ensures at { feeds.new.at ≡ feeds.old.at }
{
    match next_of(&mut feeds.feeds[stream as usize], out) {
        Ok(next) => Ok(next),
        Err(why) => Err(FeedStop { stream, why }),
    }
}

// A turn arrives at a hand.
fn enter(hand: &mut Hand, next: Arrival) -> Result<(), Stop>
    requires { IsTurnOf (streams_in hand.old.core.plan.nodes) (turn_in (streams_in hand.old.core.plan.nodes) next) }
    ensures ok { OnOk result (HandArrives hand.old hand.new (arrival_of (turn_in (streams_in hand.old.core.plan.nodes) next))) }
    ensures err { IfErr result (IsEventRefused hand.old hand.new (arrival_of (turn_in (streams_in hand.old.core.plan.nodes) next)).event) }
{
    match next {
        Arrival::Brought { stream, element } => hand.arrive(stream, element),
        Arrival::Closing { stream } => hand.close_stream(stream),
    }
}

// The stop of a run in which the core stopped.
pub(crate) fn run_stop(stop: Stop) -> RunStop
    ensures { result ≡ of_turn (of_core stop) }
{
    match stop {
        Stop::Limit { node } => RunStop::Limit { node },
        Stop::NoMemory => RunStop::NoMemory,
    }
}
