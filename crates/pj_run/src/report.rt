// The report of a run.
ghost use Rattle.std.specs.Prelude.{◌≡◌, ◌≤◌, length, IsTrue, Err};
ghost use Rattle.pj_plan.specs.Nodes.{streams_in};
ghost use Rattle.pj_io.specs.Causes.{Rose};
ghost use Rattle.pj_run.specs.Outcome.{Reports, ReportsForm, ReportsPeaks, ReportsTotal, tally_lines};
ghost use Rattle.pj_run.specs.Whole.{ReportsWhole};
ghost use Rattle.pj_report.specs.Written.{WritesBy, write_cut};

use crate::checking::write_answer;
use crate::run::Gathered;
use pj_core::Core;
use pj_element::Tally;
use pj_io::Sink;
use pj_plan::Plan;
use pj_report::{Form, WriteStop, write_peak_line, write_results, write_stream, write_total};
use pj_value::List;
use std::alloc::Global;

/// Writes the report: the lines of each stream, the counts of results, the peak of each join after the history that the core
/// stands for, if results are not sorted, their total, if they are summed, and the check. `text` is where lines are made.
pub(crate) fn write_report<K: Sink>(
    alloc: Global,
    core: &Core,
    tallies: &[Tally],
    gathered: &Gathered,
    text: &mut List<u8>,
    out: &mut K,
) -> Result<(), WriteStop>
    requires on { core.now.kept.stop ≡ None }
    requires each { length tallies.now ≡ length (streams_in core.now.plan.nodes) }
    ensures told { IsTrue (K.state out.new).told → IsTrue (K.state out.old).told }
    ensures lines { Reports core.now tallies.now gathered.now (K.state out.old) (K.state out.new) result }
    ensures whole { ReportsWhole core.now.plan.nodes (K.state out.old) (K.state out.new) result }
    ensures later { (K.state out.old).faults ≤ (K.state out.new).faults }
    ensures fault { result ≡ Err WriteStop.Failed → Rose (K.state out.old).faults (K.state out.new).faults }
{
    write_streams(core.plan(), tallies, text, out)?;
    let counts = gathered.results.counts();
    write_results(counts.rows, counts.puncts, text, out)?;
    let total = gathered.results.total();
    write_form_report(gathered.results.form(), total, core, text, out)?;
    write_answer(alloc, core.plan(), &gathered.accepted, text, out)?;
    Ok(())
}

// Writes the lines of the streams, in order.
#[tactic(auto, using(pj_feed::proofs::StreamNodes::count_numbers))]
fn write_streams<K: Sink>(
    plan: &Plan,
    tallies: &[Tally],
    text: &mut List<u8>,
    out: &mut K,
) -> Result<(), WriteStop>
    requires { length tallies.now ≡ length (streams_in plan.now.nodes) }
    ensures told { IsTrue (K.state out.new).told → IsTrue (K.state out.old).told }
    ensures lines { IsTrue (K.state out.new).told → WritesBy write_cut (tally_lines (streams_in plan.now.nodes) tallies.now) (K.state out.old) (K.state out.new) result }
    ensures later { (K.state out.old).faults ≤ (K.state out.new).faults }
    ensures fault { result ≡ Err WriteStop.Failed → Rose (K.state out.old).faults (K.state out.new).faults }
{
    let streams = plan.streams();
    for i in 0..streams.len() {
        write_stream(plan.name(streams[i]), &tallies[i], text, out)?;
    }
    Ok(())
}

// Writes the lines that the report has where results have this form.
#[tactic(auto, using(crate::proofs::WholeLaws::none_wrote))]
fn write_form_report<K: Sink>(
    form: Form,
    total: i64,
    core: &Core,
    text: &mut List<u8>,
    out: &mut K,
) -> Result<(), WriteStop>
    requires { core.now.kept.stop ≡ None }
    ensures told { IsTrue (K.state out.new).told → IsTrue (K.state out.old).told }
    ensures lines { ReportsForm form total core.now (K.state out.old) (K.state out.new) result }
    ensures whole { ReportsWhole core.now.plan.nodes (K.state out.old) (K.state out.new) result }
    ensures later { (K.state out.old).faults ≤ (K.state out.new).faults }
    ensures fault { result ≡ Err WriteStop.Failed → Rose (K.state out.old).faults (K.state out.new).faults }
{
    match form {
        Form::AsTheyCome => write_peaks(core, text, out),
        Form::Sorted => Ok(()),
        Form::Summed => write_summary(total, core, text, out),
    }
}

// Writes the lines of the joins' peaks, and that of the total.
fn write_summary<K: Sink>(
    total: i64,
    core: &Core,
    text: &mut List<u8>,
    out: &mut K,
) -> Result<(), WriteStop>
    requires { core.now.kept.stop ≡ None }
    ensures told { IsTrue (K.state out.new).told → IsTrue (K.state out.old).told }
    ensures lines { ReportsTotal total core.now (K.state out.old) (K.state out.new) result }
    ensures whole { ReportsWhole core.now.plan.nodes (K.state out.old) (K.state out.new) result }
    ensures later { (K.state out.old).faults ≤ (K.state out.new).faults }
    ensures fault { result ≡ Err WriteStop.Failed → Rose (K.state out.old).faults (K.state out.new).faults }
{
    write_peaks(core, text, out)?;
    write_total(total, text, out)?;
    Ok(())
}

// Writes the lines of the joins' peaks, in order of declaration.
#[tactic(auto, using(crate::proofs::WholeLaws::none_wrote))]
fn write_peaks<K: Sink>(core: &Core, text: &mut List<u8>, out: &mut K) -> Result<(), WriteStop>
    requires { core.now.kept.stop ≡ None }
    ensures told { IsTrue (K.state out.new).told → IsTrue (K.state out.old).told }
    ensures lines { ReportsPeaks core.now (K.state out.old) (K.state out.new) result }
    ensures whole { ReportsWhole core.now.plan.nodes (K.state out.old) (K.state out.new) result }
    ensures later { (K.state out.old).faults ≤ (K.state out.new).faults }
    ensures fault { result ≡ Err WriteStop.Failed → Rose (K.state out.old).faults (K.state out.new).faults }
{
    for join in core.plan().joins() {
        write_peak_line(core.plan().name(*join), core.peak(*join), text, out)?;
    }
    Ok(())
}
