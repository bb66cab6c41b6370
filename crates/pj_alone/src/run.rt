// A run of a plan over the files of a request, where a script may be played first.
ghost use Rattle.std.specs.Prelude.{◌≡◌};
ghost use Rattle.pj_io.specs.States.{FolderState};
ghost use Rattle.pj_plan.specs.Nodes.{streams_in};
ghost use Rattle.pj_prepare.specs.Calls.{call_for, file_names, Call};
ghost use Rattle.pj_alone.specs.Endings.{ending_of, stream_name as name_of_stream, stop_name as stop_name_of};
ghost use Rattle.pj_alone.specs.Promises.{KeepsAll};
ghost use Rattle.pj_prepare.specs.Scripts.{first_behind, IsPrepared, IsSetUp, WherePrepared, WhereSetUp};

use pj_files::{Ran, run_files};
use pj_io::{Folder, Sink};
use pj_plan::Plan;
use pj_prepare::{Prepared, files_in, read_steps};
use pj_report::{LimitOf, Status, write_status};
use pj_run::write_stop;
use pj_script::ScriptStep;
use pj_value::{Bytes, List};
use pj_words::Request;
use std::alloc::Global;

/// Runs the plan of a core, which was read for the request: plays the request's script first, if it has one, and writes what the run
/// hands out and its report, or the line of its status.
pub fn write_run<F: Folder, K: Sink>(
    alloc: Global,
    request: &Request,
    ready: Prepared,
    folder: &mut F,
    out: &mut K,
) -> Status
    requires { (first : FolderState) × IsPrepared ready (call_for request.now first) (F.state folder.old) }
    ensures { WherePrepared ready request.now (F.state folder.old) (λ call. KeepsAll (ending_of call result (F.state folder.new) (K.state out.old) (K.state out.new))) }
{
    match read_steps(alloc, request, ready.core.plan(), folder) {
        Ok(script) => write_files(alloc, ready, &script, files_in(request), folder, out),
        Err(stop) => {
            let status = stop.status();
            write_status(b"", status, out);
            status
        }
    }
}

// Runs the plan of a core over files, once a script was read, if there is one.
fn write_files<F: Folder, K: Sink>(
    alloc: Global,
    ready: Prepared,
    script: &Option<List<(u64, ScriptStep)>>,
    files: &[Bytes],
    folder: &mut F,
    out: &mut K,
) -> Status
    requires { (call : Call) × IsSetUp ready script.now call (F.state folder.old) × (files.now ≡ file_names call) }
    ensures { WhereSetUp ready script.now files.now (F.state folder.old) (λ call. KeepsAll (ending_of call result (F.state folder.new) (K.state out.old) (K.state out.new))) }
{
    let first = first_operand(script);
    let Prepared { core, writing } = ready;
    let Ran { core, ended } = run_files(alloc, writing, core, script, files, folder, out);
    match ended {
        Ok(()) => Status::Done,
        Err(stop) => {
            let status = stop.status(first);
            write_stop(stop_name(core.plan(), status), first, stop, out);
            status
        }
    }
}

// The number of the operand of the first stream's file, behind the plan and a script.
fn first_operand(script: &Option<List<(u64, ScriptStep)>>) -> u32
    ensures { result ≡ first_behind script.now }
{
    match script {
        None => 2,
        Some(_) => 3,
    }
}

/// The name that the line of the status has, if any: that of the node or stream whose limit was met.
pub fn stop_name(plan: &Plan, status: Status) -> &[u8]
    ensures { result.now ≡ stop_name_of plan.now.nodes status }
{
    match status {
        Status::Limit { what } => match what {
            LimitOf::Plan => b"",
            LimitOf::Script => b"",
            LimitOf::Node(node) => plan.name(node),
            LimitOf::File(stream) => stream_name(plan, stream),
        },
        Status::Done => b"",
        Status::Usage => b"",
        Status::PlanRefused { .. } => b"",
        Status::FileCount { .. } => b"",
        Status::Unsafe { .. } => b"",
        Status::ScriptRefused { .. } => b"",
        Status::OpenFault { .. } => b"",
        Status::ReadFault { .. } => b"",
        Status::WriteFault => b"",
        Status::NoMemory => b"",
    }
}

// The name of a stream, by its number.
#[tactic(auto, using(crate::proofs::RunLaws::named_stream, crate::proofs::RunLaws::unnamed_stream))]
fn stream_name(plan: &Plan, stream: u32) -> &[u8]
    ensures { result.now ≡ name_of_stream (streams_in plan.now.nodes) stream }
{
    match plan.streams().get(stream as usize) {
        Some(node) => plan.name(*node),
        None => b"",
    }
}
