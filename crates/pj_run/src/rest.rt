// The turns that are left of a run that has begun.
ghost use Rattle.std.specs.Prelude.{◌≡◌, ◌≤◌, [], None, length, IsTrue, OnErr, OnOk};
ghost use Rattle.pj_report.specs.declared.writer.Form.{Form};
ghost use Rattle.pj_run.specs.Cuts.{run_cut};
ghost use Rattle.pj_run.specs.PlanNames.{HasShortNames};
ghost use Rattle.pj_run.specs.Refused.{RunLeaves};
ghost use Rattle.pj_run.specs.Whole.{HasTaken, WritesWhole};
ghost use Rattle.pj_feed.specs.Feeds.{AreAllTaken, AreFeeds, AreSameFeeds};
ghost use Rattle.pj_plan.specs.Nodes.{streams_in};
ghost use Rattle.pj_plan.specs.Sound.{IsSoundPlan};
ghost use Rattle.pj_run.specs.Goes.{EndsRun, HasLists, StopsRun, WhereGoing, WritesRun, CausesRun};

use crate::feeding::next_turn;
use crate::run::Gathered;
use crate::stops::RunStop;
use crate::turns::take_turn;
use pj_core::Core;
use pj_feed::Feeds;
use pj_io::{Sink, Source};
use pj_value::List as Items;
use std::alloc::Global;

/// Goes on with a run that has begun: in rounds each stream has a turn, as long as its closing is still to come, and the lines of
/// what each turn hands out are written, which are handed on before a read. The core has not stopped and was drained.
///
/// Whatever run this is, that has made a front of its history and of which these turns are the rest: it makes the whole. After a
/// refusal the core stands for a front of it, with its stop behind that, if it stopped, and the writer has taken the first of what that
/// front hands out.
pub fn go_on<S: Source, K: Sink>(
    alloc: Global,
    core: &mut Core,
    feeds: &mut Feeds<S>,
    gathered: &mut Gathered,
    text: &mut Items<u8>,
    out: &mut K,
) -> Result<(), RunStop>
    requires sound { IsSoundPlan core.old.plan.nodes }
    requires on { core.old.kept.stop ≡ None }
    requires drained { core.old.kept.undrained ≡ [] }
    requires feeds { AreFeeds 0 (streams_in core.old.plan.nodes) feeds.old.feeds.items }
    requires lists { HasLists (length (streams_in core.old.plan.nodes)) gathered.old.accepted }
    ensures plan { core.new.plan ≡ core.old.plan }
    ensures on { OnOk result (core.new.kept.stop ≡ None) }
    ensures same { AreSameFeeds feeds.old.feeds.items feeds.new.feeds.items }
    ensures told { IsTrue (K.state out.new).told → IsTrue (K.state out.old).told }
    ensures lines { WhereGoing core.old feeds.old.feeds.items feeds.old.at gathered.old (K.state out.old) (λ run. WritesRun run (K.state out.new) result) }
    ensures whole { HasShortNames core.old.plan.nodes → WritesWhole run_cut (K.state out.old) (K.state out.new) result }
    ensures ends { WhereGoing core.old feeds.old.feeds.items feeds.old.at gathered.old (K.state out.old) (λ run. StopsRun run feeds.new.feeds.items (K.state out.new) result) }
    ensures outcome { OnOk result (WhereGoing core.old feeds.old.feeds.items feeds.old.at gathered.old (K.state out.old) (λ run. EndsRun run core.new feeds.new.feeds.items gathered.new)) }
    ensures left { OnErr result (WhereGoing core.old feeds.old.feeds.items feeds.old.at gathered.old (K.state out.old) (λ run. RunLeaves run core.new gathered.new)) }
    ensures causes { WhereGoing core.old feeds.old.feeds.items feeds.old.at gathered.old (K.state out.old) (λ run. CausesRun run feeds.new.feeds.items (K.state out.new) result) }
    ensures taken { OnOk result (AreAllTaken feeds.new.feeds.items) }
    ensures has_taken { (form : Form) → HasTaken form gathered.old.results → OnOk result (HasTaken form gathered.new.results) }
    ensures later { (K.state out.old).faults ≤ (K.state out.new).faults }
{
    'turns: while let Some(next) = next_turn(feeds, out)? {
        gathered.accepted.keep(alloc, &next)?;
        take_turn(alloc, core, next, &mut gathered.results, text, out)?;
    }
    Ok(())
}
