// A run over a made input, which is summed up.
ghost use Rattle.std.specs.Prelude.{◌≡◌, ◌≤◌, [], IsTrue, IfOk};
ghost use Rattle.pj_make.specs.Inputs.{plan_text};
ghost use Rattle.pj_report.specs.Written.{HandedOn};
ghost use Rattle.pj_run.specs.Runs.{run_lines};
ghost use Rattle.pj_words.specs.Request.{IsMake as IsMakeable};
ghost use Rattle.pj_prepare.specs.Calls.{make_options as options_of_make};
ghost use Rattle.pj_alone.specs.Made.{made_files, made_job, made_lines, IsMadeReady, IsMadeSource, IsMemory, LinesLeft, MadeRun};

use pj_files::{Ran, run_files};
use pj_io::{Sink, SteadyFolder};
use pj_make::{Made, make};
use pj_prepare::{Options, PlanStop, Prepared, spelled_ready};
use pj_report::{Form, Status, WriteStop, write_make, write_status};
use pj_run::write_stop;
use pj_value::{Bytes, List, NoMemory};
use std::alloc::Global;

const ITEMS: &[u8] = b"items";

const BIDS: &[u8] = b"bids";

// A read of a made file gives at most so many bytes.
const PIECE: usize = 65_536;

// A core of the made plan, and the files of its streams.
#[derive(Drop)]
pub(crate) struct MadeSource {
    pub(crate) ready: Prepared,
    pub(crate) names: List<Bytes>,
    pub(crate) folder: SteadyFolder,
}

/// Makes the input of so many items from the seed, runs it, and writes the line that tells what was made, and the report: the counts
/// of each stream and of the results, the peak of the join, and the total of the last column of the result rows. The results
/// themselves are not written. `Done` comes where all was written, `WriteFault` where a write failed, `NoMemory` where memory was
/// wanting; nothing else comes.
pub fn write_made<K: Sink>(alloc: Global, seed: u32, count: u32, out: &mut K) -> Status
    requires { IsMakeable seed count }
    ensures told { IsTrue (K.state out.new).told → IsTrue (K.state out.old).told }
    ensures left { LinesLeft result (made_lines seed count) (K.state out.old) (K.state out.new) }
    ensures runs { result ≡ Status.Done → MadeRun seed count (made_lines seed count) }
    ensures handed_on { HandedOn (K.state out.old) (K.state out.new) }
    ensures all_handed_on { result ≡ Status.Done → (K.state out.new).held ≡ [] }
    ensures later { (K.state out.old).faults ≤ (K.state out.new).faults }
{
    match made_source(alloc, seed, count) {
        Ok(made) => write_run(alloc, seed, count, made, out),
        Err(NoMemory) => {
            write_status(b"", Status::NoMemory, out);
            Status::NoMemory
        }
    }
}

// Writes the line that tells what was made, and then the summary of its run.
fn write_run<K: Sink>(alloc: Global, seed: u32, count: u32, made: MadeSource, out: &mut K) -> Status
    requires makeable { IsMakeable seed count }
    requires made { IsMadeSource seed count made }
    ensures told { IsTrue (K.state out.new).told → IsTrue (K.state out.old).told }
    ensures left { LinesLeft result (made_lines seed count) (K.state out.old) (K.state out.new) }
    ensures runs { result ≡ Status.Done → MadeRun seed count (made_lines seed count) }
    ensures handed_on { HandedOn (K.state out.old) (K.state out.new) }
    ensures all_handed_on { result ≡ Status.Done → (K.state out.new).held ≡ [] }
    ensures later { (K.state out.old).faults ≤ (K.state out.new).faults }
{
    let mut text = List::new(alloc);
    match write_make(seed, count, &mut text, out) {
        Ok(()) => run_made(alloc, seed, count, made, out),
        Err(WriteStop::Failed) => Status::WriteFault,
        Err(WriteStop::NoMemory) => {
            write_status(b"", Status::NoMemory, out);
            Status::NoMemory
        }
    }
}

// Runs a made input, and writes its summary.
fn run_made<K: Sink>(alloc: Global, seed: u32, count: u32, made: MadeSource, out: &mut K) -> Status
    requires makeable { IsMakeable seed count }
    requires made { IsMadeSource seed count made }
    ensures told { IsTrue (K.state out.new).told → IsTrue (K.state out.old).told }
    ensures left { LinesLeft result (run_lines made_job (made_files seed count)) (K.state out.old) (K.state out.new) }
    ensures runs { result ≡ Status.Done → MadeRun seed count (made_lines seed count) }
    ensures handed_on { HandedOn (K.state out.old) (K.state out.new) }
    ensures all_handed_on { result ≡ Status.Done → (K.state out.new).held ≡ [] }
    ensures later { (K.state out.old).faults ≤ (K.state out.new).faults }
{
    let MadeSource {
        ready,
        names,
        mut folder,
    } = made;
    let Prepared { core, writing } = ready;
    let files = names.as_slice();
    let Ran { core: _, ended } = run_files(alloc, writing, core, &None, files, &mut folder, out);
    match ended {
        Ok(()) => Status::Done,
        Err(stop) => {
            write_stop(b"", 2, stop, out);
            stop.status(2)
        }
    }
}

// What is run of a made input.
fn made_source(alloc: Global, seed: u32, count: u32) -> Result<MadeSource, NoMemory>
    requires { IsMakeable seed count }
    ensures { IfOk result (IsMadeSource seed count) }
{
    let Made { plan, items, bids } = make(alloc, seed, count)?;
    let ready = made_ready(alloc, plan.as_slice())?;
    let mut folder = SteadyFolder::new(alloc);
    folder.add(alloc, ITEMS, items, PIECE)?;
    folder.add(alloc, BIDS, bids, PIECE)?;
    let mut names = List::new(alloc);
    names.push(List::copy_of(alloc, ITEMS)?)?;
    names.push(List::copy_of(alloc, BIDS)?)?;
    Ok(MadeSource {
        ready,
        names,
        folder,
    })
}

// A core of the made plan, which has a stream for each file and is safe.
fn made_ready(alloc: Global, bytes: &[u8]) -> Result<Prepared, NoMemory>
    requires { bytes.now ≡ plan_text }
    ensures { IfOk result IsMadeReady }
{
    match spelled_ready(alloc, bytes, 2, make_options()) {
        Ok(ready) => Ok(ready),
        Err(stop) => Err(memory_of(stop)),
    }
}

fn make_options() -> Options
    ensures { result ≡ options_of_make }
{
    Options {
        trace: false,
        limit: 1_099_511_627_776,
        form: Form::Summed,
        check: false,
    }
}

// A made plan is refused only where memory could not be had.
fn memory_of(stop: PlanStop) -> NoMemory
    requires { IsMemory stop }
{
    match stop {
        PlanStop::File { .. } => unreachable!(),
        PlanStop::Refused { .. } => unreachable!(),
        PlanStop::FileCount { .. } => unreachable!(),
        PlanStop::Unsafe { .. } => unreachable!(),
        PlanStop::NoMemory => NoMemory,
    }
}
