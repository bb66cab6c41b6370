// The steps of a script, one at a time.
ghost use Rattle.std.specs.Prelude.{◌≡◌, ◌≤◌, IsTrue};
ghost use Rattle.pj_script.specs.Reading.{IsStepOf};
ghost use Rattle.pj_replay.specs.Playing.{IsReady, stage, PlaysStep, EndsStep};
ghost use Rattle.pj_feed.specs.Feeds.{AreSameFeeds};

use crate::arriving::{arrive, run_stop};
use crate::settling::drain;
use pj_feed::Feeds;
use pj_hand::Hand;
use pj_io::{Sink, Source};
use pj_run::{Gathered, RunStop};
use pj_script::ScriptStep;
use pj_value::List as Items;
use std::alloc::Global;

/// Makes a step of a script; `false` exactly where it is not enabled.
pub(crate) fn make_step<S: Source, K: Sink>(
    alloc: Global,
    hand: &mut Hand,
    feeds: &mut Feeds<S>,
    gathered: &mut Gathered,
    step: ScriptStep,
    text: &mut Items<u8>,
    out: &mut K,
) -> Result<bool, RunStop>
    requires ready { IsReady (stage hand.old feeds.old.feeds.items gathered.old (K.state out.old)) }
    requires fits { IsStepOf hand.old.core.plan.nodes step }
    ensures ok { PlaysStep (stage hand.old feeds.old.feeds.items gathered.old (K.state out.old)) (stage hand.new feeds.new.feeds.items gathered.new (K.state out.new)) step result }
    ensures err { EndsStep (stage hand.old feeds.old.feeds.items gathered.old (K.state out.old)) (stage hand.new feeds.new.feeds.items gathered.new (K.state out.new)) step result }
    ensures at { feeds.new.at ≡ feeds.old.at }
    ensures same { AreSameFeeds feeds.old.feeds.items feeds.new.feeds.items }
    ensures told { IsTrue (K.state out.new).told → IsTrue (K.state out.old).told }
    ensures later { (K.state out.old).faults ≤ (K.state out.new).faults }
{
    match step {
        ScriptStep::Arrive(stream) => arrive(alloc, hand, feeds, gathered, stream, out),
        ScriptStep::Take => match hand.take() {
            Ok(made) => Ok(made),
            Err(stop) => Err(run_stop(stop)),
        },
        ScriptStep::Give { join, ticket } => match hand.give(join, ticket) {
            Ok(made) => Ok(made),
            Err(stop) => Err(run_stop(stop)),
        },
        ScriptStep::Sweep { join, input } => match hand.sweep(join, input) {
            Ok(()) => Ok(true),
            Err(stop) => Err(run_stop(stop)),
        },
        ScriptStep::Drain => match drain(alloc, hand, &mut gathered.results, text, out) {
            Ok(()) => Ok(true),
            Err(why) => Err(RunStop::from(why)),
        },
    }
}
