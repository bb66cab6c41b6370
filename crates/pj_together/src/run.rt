// A run of a plan with workers over the files of a request.
ghost use Rattle.std.specs.Prelude.{◌≡◌, ◌≤◌, length};
ghost use Rattle.pj_io.specs.States.{FolderState};
ghost use Rattle.pj_plan.specs.Nodes.{streams_in};
ghost use Rattle.pj_prepare.specs.Calls.{Call, call_for, file_names};
ghost use Rattle.pj_prepare.specs.Scripts.{IsPrepared, WherePrepared};
ghost use Rattle.pj_words.specs.Request.{IsRequest};
ghost use Rattle.pj_alone.specs.Endings.{ending_of};
ghost use Rattle.pj_together.specs.Promises.{KeepsTogether};
ghost use Rattle.pj_together.specs.Requests.{workers_of};
ghost use Rattle.pj_together.specs.Runs.{IsOver, WhereOver};

use pj_alone::stop_name;
use pj_feed::OpeningStop;
use pj_floor::Floor;
use pj_io::{Folder, Sink};
use pj_parallel_files::run_parallel_files;
use pj_plan::Plan;
use pj_prepare::{Prepared, files_in};
use pj_report::Status;
use pj_run::{FilesStop, write_stop};
use pj_value::{Bytes, NoMemory};
use pj_words::Request;
use pj_workers::Gate;
use std::sync::Wait;
use std::thread::Threads;

// The number of the operand of the first stream's file, behind the plan's.
const FIRST: u32 = 2;

/// Runs the plan of a core, which was read for the request, with the request's workers: writes what the run hands out and its report, or
/// the line of its status.
pub fn write_run<R: AllocGlobal + Threads + Wait + Sync, F: Folder, K: Sink + Send, G: Gate>(
    rt: &R,
    request: &Request,
    ready: Prepared,
    folder: &mut F,
    out: &mut K,
    gate: &G,
) -> Status
where
    F::File: Send,
    requires request { IsRequest request.now }
    requires workers { 1 ≤ workers_of request.now }
    requires prepared { (first : FolderState) × IsPrepared ready (call_for request.now first) (F.state folder.old) }
    ensures { WherePrepared ready request.now (F.state folder.old) (λ call. KeepsTogether (ending_of call result (F.state folder.new) (K.state out.old) (K.state out.new))) }
{
    let workers = workers_in(request);
    match ready.core.plan().copy(rt.alloc()) {
        Ok(plan) => write_files(
            rt,
            ready,
            &plan,
            files_in(request),
            workers,
            folder,
            out,
            gate,
        ),
        Err(NoMemory) => {
            let stop = FilesStop::Opening {
                stop: OpeningStop::NoMemory,
            };
            write_stop(b"", FIRST, stop, out);
            Status::NoMemory
        }
    }
}

// Runs the plan over files.
fn write_files<R: AllocGlobal + Threads + Wait + Sync, F: Folder, K: Sink + Send, G: Gate>(
    rt: &R,
    ready: Prepared,
    plan: &Plan,
    files: &[Bytes],
    workers: u32,
    folder: &mut F,
    out: &mut K,
    gate: &G,
) -> Status
where
    F::File: Send,
    requires plan { plan.now.nodes ≡ ready.core.plan.nodes }
    requires workers { (1 ≤ workers) × (workers ≤ 16) }
    requires over { (call : Call) × IsOver ready call (F.state folder.old) × (files.now ≡ file_names call) }
    ensures { WhereOver ready files.now (F.state folder.old) (λ call. KeepsTogether (ending_of call result (F.state folder.new) (K.state out.old) (K.state out.new))) }
{
    let Prepared { core, writing } = ready;
    let pause = floor_for(plan, workers);
    match run_parallel_files(
        rt,
        rt.alloc(),
        writing,
        core,
        plan,
        files,
        workers,
        folder,
        out,
        gate,
        &pause,
    ) {
        Ok(()) => Status::Done,
        Err(stop) => {
            let status = stop.status(FIRST);
            write_stop(stop_name(plan, status), FIRST, stop, out);
            status
        }
    }
}

// Where so many workers of a plan wait for one another.
fn floor_for(plan: &Plan, workers: u32) -> Floor {
    let feeders = plan.streams().len().min(64) as u32;
    let joins = plan.joins().len().min(64) as u32;
    Floor::new(feeders, workers, joins.min(workers))
}

// How many workers the request asks for.
fn workers_in(request: &Request) -> u32
    ensures { result ≡ workers_of request.now }
{
    match request {
        Request::Run { workers, .. } => *workers,
        Request::Replay { .. } => 0,
        Request::Check { .. } => 0,
        Request::Make { .. } => 0,
    }
}
