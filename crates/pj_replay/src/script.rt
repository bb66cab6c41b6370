// The steps of a script, one by one, up to the first that is not enabled.
ghost use Rattle.std.specs.Prelude.{◌≡◌, ◌≤◌, IsTrue, IfErr, List, OnOk};
ghost use Rattle.pj_feed.specs.Feeds.{AreSameFeeds, FeedState};
ghost use Rattle.pj_script.specs.Reading.{AreStepsOf};
ghost use Rattle.pj_replay.specs.Playing.{IsReady, stage};
ghost use Rattle.pj_replay.specs.Plays.{EndsSteps, HasPlayed, HasStopped, StopsReplay, StopsSteps, failed_behind, is_over, left_of};
ghost use Rattle.pj_run.specs.Goes.{RunStart};

use crate::settling::drain;
use crate::stepping::make_step;
use pj_core::Stop;
use pj_feed::Feeds;
use pj_hand::Hand;
use pj_io::{Sink, Source};
use pj_report::WriteStop;
use pj_run::{Gathered, RunStop};
use pj_script::ScriptStep;
use pj_value::List as Items;
use std::alloc::Global;

/// Makes the steps of a script one by one, each with its line, up to the first that is not enabled. What the hand hands out at drains
/// is written, and handed on before a read.
///
/// At `Refused`, and where a stream's turn could not be made or an element went beyond a limit, exactly what was handed out until then
/// is written first; where memory was wanting in a step, as much of it as memory suffices for. Where the output fails then,
/// `CutRefused`, `CutRead`, `CutLarge` or `Cut` tells the stop that came before.
pub(crate) fn play<S: Source, K: Sink>(
    alloc: Global,
    hand: &mut Hand,
    feeds: &mut Feeds<S>,
    gathered: &mut Gathered,
    steps: &[(u64, ScriptStep)],
    text: &mut Items<u8>,
    out: &mut K,
) -> Result<(), RunStop>
    requires ready { IsReady (stage hand.old feeds.old.feeds.items gathered.old (K.state out.old)) }
    requires fits { AreStepsOf hand.old.core.plan.nodes steps.now }
    ensures plan { hand.new.core.plan ≡ hand.old.core.plan }
    ensures ok { OnOk result (HasPlayed (stage hand.old feeds.old.feeds.items gathered.old (K.state out.old)) (stage hand.new feeds.new.feeds.items gathered.new (K.state out.new)) steps.now) }
    ensures err { IfErr result (λ stop. EndsSteps stop (stage hand.old feeds.old.feeds.items gathered.old (K.state out.old)) feeds.new.feeds.items (K.state out.new) steps.now) }
    ensures at { feeds.new.at ≡ feeds.old.at }
    ensures same { AreSameFeeds feeds.old.feeds.items feeds.new.feeds.items }
    ensures told { IsTrue (K.state out.new).told → IsTrue (K.state out.old).told }
    ensures later { (K.state out.old).faults ≤ (K.state out.new).faults }
{
    match play_steps(alloc, hand, feeds, gathered, steps, text, out) {
        Ok(()) => Ok(()),
        Err(stop) => Err(leave(alloc, hand, gathered, stop, text, out)),
    }
}

// Writes what was handed out until a stop, unless that is a failed write.
fn leave<K: Sink>(
    alloc: Global,
    hand: &mut Hand,
    gathered: &mut Gathered,
    stop: RunStop,
    text: &mut Items<u8>,
    out: &mut K,
) -> RunStop
    ensures plan { hand.new.core.plan ≡ hand.old.core.plan }
    ensures stops { (run : RunStart) (feeds : List FeedState) → HasStopped stop run (stage hand.old feeds gathered.old (K.state out.old)) → StopsReplay result run feeds (K.state out.new) }
    ensures told { IsTrue (K.state out.new).told → IsTrue (K.state out.old).told }
    ensures later { (K.state out.old).faults ≤ (K.state out.new).faults }
{
    if is_over(stop) {
        return stop;
    }
    let written = drain(alloc, hand, &mut gathered.results, text, out);
    left_by(stop, written)
}

// Whether nothing more is to be written.
fn is_over(stop: RunStop) -> bool
    ensures { result ≡ is_over stop }
{
    match stop {
        RunStop::ReadFault { .. } => false,
        RunStop::TooLarge { .. } => false,
        RunStop::Limit { .. } => false,
        RunStop::Refused { .. } => false,
        RunStop::WriteFailed => true,
        RunStop::NoMemory => false,
        RunStop::Cut { .. } => true,
        RunStop::CutRead { .. } => true,
        RunStop::CutLarge { .. } => true,
        RunStop::CutRefused { .. } => true,
    }
}

// A stop behind which what was handed out until then was written or not.
fn left_by(stop: RunStop, written: Result<(), WriteStop>) -> RunStop
    ensures { result ≡ left_of stop written }
{
    match written {
        Ok(()) => stop,
        Err(WriteStop::NoMemory) => RunStop::NoMemory,
        Err(WriteStop::Failed) => failed_behind(stop),
    }
}

// The output failed behind a stop.
fn failed_behind(stop: RunStop) -> RunStop
    ensures { result ≡ failed_behind stop }
{
    match stop {
        RunStop::ReadFault { stream } => RunStop::CutRead { stream },
        RunStop::TooLarge { stream } => RunStop::CutLarge { stream },
        RunStop::Limit { node } => RunStop::Cut {
            stop: Stop::Limit { node },
        },
        RunStop::Refused { line } => RunStop::CutRefused { line },
        RunStop::WriteFailed => RunStop::WriteFailed,
        RunStop::NoMemory => RunStop::Cut {
            stop: Stop::NoMemory,
        },
        RunStop::Cut { .. } => RunStop::WriteFailed,
        RunStop::CutRead { .. } => RunStop::WriteFailed,
        RunStop::CutLarge { .. } => RunStop::WriteFailed,
        RunStop::CutRefused { .. } => RunStop::WriteFailed,
    }
}

// Makes these steps one by one. What is not drained stays so at a stop.
fn play_steps<S: Source, K: Sink>(
    alloc: Global,
    hand: &mut Hand,
    feeds: &mut Feeds<S>,
    gathered: &mut Gathered,
    steps: &[(u64, ScriptStep)],
    text: &mut Items<u8>,
    out: &mut K,
) -> Result<(), RunStop>
    requires ready { IsReady (stage hand.old feeds.old.feeds.items gathered.old (K.state out.old)) }
    requires fits { AreStepsOf hand.old.core.plan.nodes steps.now }
    ensures plan { hand.new.core.plan ≡ hand.old.core.plan }
    ensures ok { OnOk result (HasPlayed (stage hand.old feeds.old.feeds.items gathered.old (K.state out.old)) (stage hand.new feeds.new.feeds.items gathered.new (K.state out.new)) steps.now) }
    ensures err { StopsSteps (stage hand.old feeds.old.feeds.items gathered.old (K.state out.old)) (stage hand.new feeds.new.feeds.items gathered.new (K.state out.new)) steps.now result }
    ensures at { feeds.new.at ≡ feeds.old.at }
    ensures same { AreSameFeeds feeds.old.feeds.items feeds.new.feeds.items }
    ensures told { IsTrue (K.state out.new).told → IsTrue (K.state out.old).told }
    ensures later { (K.state out.old).faults ≤ (K.state out.new).faults }
{
    'steps: for item in steps {
        let (line, step) = *item;
        match make_step(alloc, hand, feeds, gathered, step, text, out) {
            Ok(true) => {}
            Ok(false) => return Err(RunStop::Refused { line }),
            Err(stop) => return Err(stop),
        }
    }
    Ok(())
}
