// What a crew leaves is written, once all of it has ended.
ghost use Rattle.std.specs.Prelude.{◌≡◌, ◌≤◌, None, Some, IsTrue, IfErr, Err};
ghost use Rattle.pj_io.specs.Causes.{Rose};
ghost use Rattle.pj_parallel.specs.Causes.{OutputCause};
ghost use Rattle.pj_parallel.specs.Closing.{Closes, IsOfCrew, WritesRest, cut_of, cut_where, run_state};
ghost use Rattle.pj_workers.specs.declared.writing.WriteEnd.TheVariants.{Over};

use crate::settling::settle;
use pj_core::{Core, Stop};
use pj_io::Sink;
use pj_report::{ResultWriter, WriteStop};
use pj_run::RunStop;
use pj_value::List as Items;
use pj_workers::WriteEnd;
use std::alloc::Global;

/// Writes what a crew left to be written. `first` is the first of the stops that its workers tell, and `end` how its writer ended.
///
/// Where none tells a stop the core is settled, and what it hands out is given to the writer. Else what was handed out and not drained
/// is, and the stop is answered; where the output fails, or failed before, it is a stop behind which it failed.
pub(crate) fn close_run<K: Sink>(
    alloc: Global,
    core: &mut Core,
    results: &mut ResultWriter,
    first: Option<RunStop>,
    end: WriteEnd,
    text: &mut Items<u8>,
    out: &mut K,
) -> Result<(), RunStop>
    requires on { first ≡ None → end ≡ Over → core.old.kept.stop ≡ None }
    requires of_crew { IsOfCrew first }
    ensures plan { core.new.plan ≡ core.old.plan }
    ensures told { IsTrue (K.state out.new).told → IsTrue (K.state out.old).told }
    ensures closes { Closes first end (run_state core.old results.old (K.state out.old)) (run_state core.new results.new (K.state out.new)) result }
    ensures form { results.new.form ≡ results.old.form }
    ensures later { (K.state out.old).faults ≤ (K.state out.new).faults }
    ensures fault { end ≡ Over → IfErr result (λ stop. OutputCause stop (K.state out.old) (K.state out.new)) }
{
    match end {
        WriteEnd::NoMemory => Err(RunStop::NoMemory),
        WriteEnd::WriteFault => Err(failed_behind(first)),
        WriteEnd::Over => match first {
            None => match settle(alloc, core, results, text, out) {
                Ok(()) => Ok(()),
                Err(stop) => Err(RunStop::from(stop)),
            },
            Some(stop) => Err(write_rest(alloc, core, results, stop, text, out)),
        },
    }
}

// The stop of a run whose writer failed, where its workers tell this.
fn failed_behind(first: Option<RunStop>) -> RunStop
    requires { IsOfCrew first }
    ensures { result ≡ cut_where first }
{
    match first {
        None => RunStop::WriteFailed,
        Some(stop) => cut(stop),
    }
}

// The stop of a run that stopped so and whose output failed then.
fn cut(stop: RunStop) -> RunStop
    requires { IsOfCrew (Some stop) }
    ensures { result ≡ cut_of stop }
{
    match stop {
        RunStop::ReadFault { stream } => RunStop::CutRead { stream },
        RunStop::TooLarge { stream } => RunStop::CutLarge { stream },
        RunStop::Limit { node } => RunStop::Cut {
            stop: Stop::Limit { node },
        },
        RunStop::NoMemory => RunStop::Cut {
            stop: Stop::NoMemory,
        },
        RunStop::Refused { .. } => stop,
        RunStop::WriteFailed => stop,
        RunStop::Cut { .. } => stop,
        RunStop::CutRead { .. } => stop,
        RunStop::CutLarge { .. } => stop,
        RunStop::CutRefused { .. } => stop,
    }
}

// Gives what was not drained to the writer, behind a stop.
fn write_rest<K: Sink>(
    alloc: Global,
    core: &mut Core,
    results: &mut ResultWriter,
    stop: RunStop,
    text: &mut Items<u8>,
    out: &mut K,
) -> RunStop
    requires of_crew { IsOfCrew (Some stop) }
    ensures plan { core.new.plan ≡ core.old.plan }
    ensures told { IsTrue (K.state out.new).told → IsTrue (K.state out.old).told }
    ensures rest { WritesRest stop results.old.form core.old (K.state out.old) (K.state out.new) result }
    ensures form { results.new.form ≡ results.old.form }
    ensures later { (K.state out.old).faults ≤ (K.state out.new).faults }
    ensures fault { OutputCause result (K.state out.old) (K.state out.new) }
{
    let outs = core.drain();
    match results.take(alloc, core.plan(), outs.as_slice(), text, out) {
        Ok(()) => stop,
        Err(WriteStop::Failed) => cut(stop),
        Err(WriteStop::NoMemory) => RunStop::NoMemory,
    }
}
