// The run of a plan by a script.
ghost use Rattle.std.specs.Prelude.{◌≡◌, ◌≤◌, None, Some, IsTrue, IfErr, IfOk, OnOk};
ghost use Rattle.pj_core.specs.Cores.{StandsFor};
ghost use Rattle.pj_feed.specs.Feeds.{AllTold, AreAllTaken, AreFeeds, AreNew, AreSameFeeds, files_of};
ghost use Rattle.pj_plan.specs.Nodes.{streams_in};
ghost use Rattle.pj_report.specs.declared.writer.Form.{Form};
ghost use Rattle.pj_run.specs.Cuts.{run_cut};
ghost use Rattle.pj_run.specs.PlanNames.{HasShortNames};
ghost use Rattle.pj_run.specs.RunEnds.{StoppedTurns, TurnsCause, TurnsWrite};
ghost use Rattle.pj_run.specs.Runs.{IsEnabled, IsNewCore, history_of, job_by, StaysInLimit};
ghost use Rattle.pj_run.specs.Whole.{HasTaken, WritesWhole};
ghost use Rattle.pj_script.specs.Reading.{AreStepsOf};
ghost use Rattle.pj_run.specs.Goes.{StopsRun, WritesRun, whole_of, CausesRun};
ghost use Rattle.pj_replay.specs.Playing.{IsReady, stage};
ghost use Rattle.pj_replay.specs.Plays.{WherePlayed};
ghost use Rattle.pj_run.specs.Outcome.{TurnsGather};

use crate::script::play;
use crate::settling::settle;
use pj_core::Core;
use pj_feed::Feeds;
use pj_hand::Hand;
use pj_io::{Sink, Source};
use pj_report::ResultWriter;
use pj_run::{AcceptedRows, Gathered, RunStop, Writing, go_on};
use pj_script::ScriptStep;
use pj_value::{List as Items, NoMemory};
use std::alloc::Global;

/// How a replay ended, and its core as it is then.
#[derive(Drop)]
pub struct Replayed {
    pub core: Core,
    pub ended: Result<Gathered, RunStop>,
}

/// Runs the plan of a new core over open feeds by a script: the steps one by one as far as each is enabled; then what is under way is
/// given and the run is settled; and then the streams that have not ended take turns. The lines of what is handed out are written, and
/// handed on before a read.
///
/// `Refused` comes only where a step is not enabled, and names the line of the first: what was handed out until then is written, and
/// where the output fails then, `CutRefused` comes, with the same line. An `Ok` comes only where every step was enabled.
pub fn replay_streams<S: Source, K: Sink>(
    alloc: Global,
    writing: Writing,
    core: Core,
    feeds: &mut Feeds<S>,
    steps: &[(u64, ScriptStep)],
    text: &mut Items<u8>,
    out: &mut K,
) -> Replayed
    requires fresh { IsNewCore core }
    requires feeds { AreFeeds 0 (streams_in core.plan.nodes) feeds.old.feeds.items }
    requires none { AreNew feeds.old.feeds.items }
    requires first { feeds.old.at ≡ 0 }
    requires fit { AreStepsOf core.plan.nodes steps.now }
    ensures plan { result.core.plan ≡ core.plan }
    ensures on { OnOk result.ended (result.core.kept.stop ≡ None) }
    ensures same { AreSameFeeds feeds.old.feeds.items feeds.new.feeds.items }
    ensures told { IsTrue (K.state out.new).told → IsTrue (K.state out.old).told }
    ensures lines { TurnsWrite (job_by (Some steps.now) writing core) feeds.old.feeds.items (K.state out.old) (K.state out.new) result.ended }
    ensures whole { WritesWhole run_cut (K.state out.old) (K.state out.new) result.ended }
    ensures ends { StoppedTurns (job_by (Some steps.now) writing core) feeds.old.feeds.items feeds.new.feeds.items (K.state out.old) (K.state out.new) result.ended }
    ensures outcome { TurnsGather (job_by (Some steps.now) writing core) feeds.old.feeds.items feeds.new.feeds.items result.ended }
    ensures enabled { AllTold feeds.old.feeds.items → OnOk result.ended (IsEnabled (job_by (Some steps.now) writing core) (files_of feeds.old.feeds.items)) }
    ensures stands { AllTold feeds.old.feeds.items → OnOk result.ended (StandsFor result.core (history_of (job_by (Some steps.now) writing core) (files_of feeds.old.feeds.items))) }
    ensures within { AllTold feeds.old.feeds.items → OnOk result.ended (StaysInLimit (job_by (Some steps.now) writing core) (files_of feeds.old.feeds.items)) }
    ensures taken { OnOk result.ended (AreAllTaken feeds.new.feeds.items) }
    ensures has_taken { IfOk result.ended (λ gathered. HasTaken writing.form gathered.results) }
    ensures causes { IfErr result.ended (λ stop. TurnsCause stop (job_by (Some steps.now) writing core) feeds.old.feeds.items feeds.new.feeds.items (K.state out.old) (K.state out.new)) }
    ensures later { (K.state out.old).faults ≤ (K.state out.new).faults }
{
    let accepted = match AcceptedRows::new(alloc, writing.check, feeds.feeds.as_slice().len()) {
        Ok(accepted) => accepted,
        Err(NoMemory) => {
            return Replayed {
                core,
                ended: Err(RunStop::NoMemory),
            };
        }
    };
    let results = ResultWriter::new(alloc, writing.form);
    let mut gathered = Gathered { results, accepted };
    let mut hand = Hand::new(alloc, core);
    match play(alloc, &mut hand, feeds, &mut gathered, steps, text, out) {
        Ok(()) => finish_turns(alloc, hand, feeds, gathered, text, out),
        Err(stop) => Replayed {
            core: hand.into_core(),
            ended: Err(stop),
        },
    }
}

// Settles a hand on which all steps of a script were made, and goes on with the turns that are left.
fn finish_turns<S: Source, K: Sink>(
    alloc: Global,
    mut hand: Hand,
    feeds: &mut Feeds<S>,
    mut gathered: Gathered,
    text: &mut Items<u8>,
    out: &mut K,
) -> Replayed
    requires ready { IsReady (stage hand feeds.old.feeds.items gathered (K.state out.old)) }
    requires first { feeds.old.at ≡ 0 }
    ensures plan { result.core.plan ≡ hand.core.plan }
    ensures on { OnOk result.ended (result.core.kept.stop ≡ None) }
    ensures same { AreSameFeeds feeds.old.feeds.items feeds.new.feeds.items }
    ensures told { IsTrue (K.state out.new).told → IsTrue (K.state out.old).told }
    ensures lines { WherePlayed (stage hand feeds.old.feeds.items gathered (K.state out.old)) (λ run. WritesRun run (K.state out.new) result.ended) }
    ensures whole { HasShortNames hand.core.plan.nodes → WritesWhole run_cut (K.state out.old) (K.state out.new) result.ended }
    ensures ends { WherePlayed (stage hand feeds.old.feeds.items gathered (K.state out.old)) (λ run. StopsRun run feeds.new.feeds.items (K.state out.new) result.ended) }
    ensures outcome { WherePlayed (stage hand feeds.old.feeds.items gathered (K.state out.old)) (λ run. TurnsGather run.job run.feeds feeds.new.feeds.items result.ended) }
    ensures stands { WherePlayed (stage hand feeds.old.feeds.items gathered (K.state out.old)) (λ run. AllTold run.feeds → OnOk result.ended (StandsFor result.core (whole_of run))) }
    ensures within { WherePlayed (stage hand feeds.old.feeds.items gathered (K.state out.old)) (λ run. AllTold run.feeds → OnOk result.ended (StaysInLimit run.job (files_of run.feeds))) }
    ensures causes { WherePlayed (stage hand feeds.old.feeds.items gathered (K.state out.old)) (λ run. CausesRun run feeds.new.feeds.items (K.state out.new) result.ended) }
    ensures taken { OnOk result.ended (AreAllTaken feeds.new.feeds.items) }
    ensures has_taken { (form : Form) → HasTaken form gathered.results → IfOk result.ended (λ all. HasTaken form all.results) }
    ensures later { (K.state out.old).faults ≤ (K.state out.new).faults }
{
    match settle(alloc, &mut hand, &mut gathered.results, text, out) {
        Ok(()) => {
            let mut core = hand.into_core();
            match go_on(alloc, &mut core, feeds, &mut gathered, text, out) {
                Ok(()) => Replayed {
                    core,
                    ended: Ok(gathered),
                },
                Err(why) => Replayed {
                    core,
                    ended: Err(why),
                },
            }
        }
        Err(stop) => Replayed {
            core: hand.into_core(),
            ended: Err(RunStop::from(stop)),
        },
    }
}
