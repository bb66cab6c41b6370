// The run of a plan over open feeds, and its report.
ghost use Rattle.std.specs.Prelude.{◌≡◌, ◌≤◌, List, [], length, IsTrue, IfErr, IfOk, OnErr, OnOk, Err};
ghost use Rattle.pj_pattern.specs.declared.element.Element.{Element};
ghost use Rattle.pj_plan.specs.Nodes.{streams_in};
ghost use Rattle.pj_io.specs.Causes.{Rose};
ghost use Rattle.pj_core.specs.Cores.{StandsFor};
ghost use Rattle.pj_feed.specs.Feeds.{AreFeeds, AreNew, AreSameFeeds, AllTold, AreAllTaken, files_of};
ghost use Rattle.pj_report.specs.declared.writer.Form.{Form};
ghost use Rattle.pj_run.specs.Cuts.{run_cut};
ghost use Rattle.pj_run.specs.Outcome.{Finishes, TurnsGather};
ghost use Rattle.pj_run.specs.Refused.{OfFront, StandsUpTo};
ghost use Rattle.pj_run.specs.RunEnds.{StoppedTurns, TurnsCause, TurnsWrite};
ghost use Rattle.pj_run.specs.Runs.{IsNewCore, history_of, job_in, StaysInLimit};
ghost use Rattle.pj_run.specs.Whole.{HasTaken, ReportsWhole, WritesWhole};

use crate::checking::AcceptedRows;
use crate::report::write_report;
use crate::rest::go_on;
use crate::stops::RunStop;
use pj_core::Core;
use pj_element::Tally;
use pj_feed::Feeds;
use pj_io::{Sink, Source};
use pj_report::{Form, ResultWriter, WriteStop};
use pj_value::List as Items;
use std::alloc::Global;

/// What a run writes: the form of its results, and whether the report has the line of a check.
#[derive(Clone, Copy, Debug, PartialEq, Eq)]
pub struct Writing {
    pub form: Form,
    pub check: bool,
}

/// What a run has gathered for its end: the writer of its results, and the rows that are kept for a check.
#[derive(Drop)]
pub struct Gathered {
    pub results: ResultWriter,
    pub accepted: AcceptedRows,
}

/// Writes the results that were withheld and the report, and hands on what the sink holds back.
pub fn finish<K: Sink>(
    alloc: Global,
    core: &Core,
    tallies: &[Tally],
    gathered: &Gathered,
    text: &mut Items<u8>,
    out: &mut K,
) -> Result<(), WriteStop>
    requires on { core.now.kept.stop ≡ None }
    requires each { length tallies.now ≡ length (streams_in core.now.plan.nodes) }
    ensures told { IsTrue (K.state out.new).told → IsTrue (K.state out.old).told }
    ensures lines { (outputs : List Element) → Finishes outputs core.now tallies.now gathered.now (K.state out.old) (K.state out.new) result }
    ensures whole { (form : Form) → HasTaken form gathered.now.results → ReportsWhole core.now.plan.nodes (K.state out.old) (K.state out.new) result }
    ensures handed_on { OnOk result ((K.state out.new).held ≡ []) }
    ensures later { (K.state out.old).faults ≤ (K.state out.new).faults }
    ensures fault { result ≡ Err WriteStop.Failed → Rose (K.state out.old).faults (K.state out.new).faults }
{
    gathered.results.finish(alloc, out)?;
    write_report(alloc, core, tallies, gathered, text, out)?;
    out.flush()?;
    Ok(())
}

/// Runs the plan of a new core on one thread over open feeds of its streams, and writes the lines of its outputs, which are handed
/// on before a read. After a refusal the core stands for a front of the run's history, with its stop behind that, if it stopped. `text`
/// is where lines are made.
pub fn run_streams<S: Source, K: Sink>(
    alloc: Global,
    writing: Writing,
    core: &mut Core,
    feeds: &mut Feeds<S>,
    text: &mut Items<u8>,
    out: &mut K,
) -> Result<Gathered, RunStop>
    requires fresh { IsNewCore core.old }
    requires feeds { AreFeeds 0 (streams_in core.old.plan.nodes) feeds.old.feeds.items }
    requires none { AreNew feeds.old.feeds.items }
    requires first { feeds.old.at ≡ 0 }
    ensures plan { core.new.plan ≡ core.old.plan }
    ensures on { OnOk result (core.new.kept.stop ≡ None) }
    ensures same { AreSameFeeds feeds.old.feeds.items feeds.new.feeds.items }
    ensures told { IsTrue (K.state out.new).told → IsTrue (K.state out.old).told }
    ensures lines { TurnsWrite (job_in writing core.old) feeds.old.feeds.items (K.state out.old) (K.state out.new) result }
    ensures whole { WritesWhole run_cut (K.state out.old) (K.state out.new) result }
    ensures ends { StoppedTurns (job_in writing core.old) feeds.old.feeds.items feeds.new.feeds.items (K.state out.old) (K.state out.new) result }
    ensures outcome { TurnsGather (job_in writing core.old) feeds.old.feeds.items feeds.new.feeds.items result }
    ensures stands { AllTold feeds.old.feeds.items → OnOk result (StandsFor core.new (history_of (job_in writing core.old) (files_of feeds.old.feeds.items))) }
    ensures left { AllTold feeds.old.feeds.items → OnErr result (OfFront (history_of (job_in writing core.old) (files_of feeds.old.feeds.items)) (StandsUpTo core.new)) }
    ensures within { AllTold feeds.old.feeds.items → OnOk result (StaysInLimit (job_in writing core.old) (files_of feeds.old.feeds.items)) }
    ensures taken { OnOk result (AreAllTaken feeds.new.feeds.items) }
    ensures has_taken { IfOk result (λ gathered. HasTaken writing.form gathered.results) }
    ensures causes { IfErr result (λ stop. TurnsCause stop (job_in writing core.old) feeds.old.feeds.items feeds.new.feeds.items (K.state out.old) (K.state out.new)) }
    ensures later { (K.state out.old).faults ≤ (K.state out.new).faults }
{
    let results = ResultWriter::new(alloc, writing.form);
    let accepted = AcceptedRows::new(alloc, writing.check, feeds.feeds.as_slice().len())?;
    let mut gathered = Gathered { results, accepted };
    go_on(alloc, core, feeds, &mut gathered, text, out)?;
    Ok(gathered)
}
