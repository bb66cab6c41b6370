// The call of a request with workers.
ghost use Rattle.std.specs.Prelude.{◌≤◌};
ghost use Rattle.pj_words.specs.Request.{IsRequest};
ghost use Rattle.pj_prepare.specs.Calls.{call_for};
ghost use Rattle.pj_alone.specs.Endings.{ending_of};
ghost use Rattle.pj_together.specs.Promises.{KeepsTogether};
ghost use Rattle.pj_together.specs.Requests.{workers_of};

use crate::run::write_run;
use pj_alone::write_refusal;
use pj_io::{Folder, Sink};
use pj_prepare::{Ready, prepare};
use pj_report::Status;
use pj_words::Request;
use pj_workers::Gate;
use std::sync::Wait;
use std::thread::Threads;

/// Runs a plan over its files with workers: a thread that feeds each stream, those that do what comes to the joins, those that sweep
/// them, and one that writes, all on one join state behind turns. What is asked for, and when each status comes, is as in `run_alone`;
/// the results come in the order that the workers made, and where they are sorted, the bytes are those of the run on one thread.
///
/// Where a worker stopped, the first that is there of want of memory, a read fault of the lowest stream, a limit, that of a node first, and
/// a write fault is the status.
///
/// Each worker passes the gate before each of its steps. The call waits for its threads.
pub fn run_together<R: AllocGlobal + Threads + Wait + Sync, F: Folder, K: Sink + Send, G: Gate>(
    rt: &R,
    request: &Request,
    folder: &mut F,
    out: &mut K,
    gate: &G,
) -> Status
where
    F::File: Send,
    requires request { IsRequest request.now }
    requires workers { 1 ≤ workers_of request.now }
    ensures { KeepsTogether (ending_of (call_for request.now (F.state folder.old)) result (F.state folder.new) (K.state out.old) (K.state out.new)) }
{
    match prepare(rt.alloc(), request, folder) {
        Ok(Ready::Run { ready }) => write_run(rt, request, ready, folder, out, gate),
        Ok(Ready::Check { .. }) => unreachable!(),
        Ok(Ready::Make { .. }) => unreachable!(),
        Err(stop) => {
            write_refusal(&stop, out);
            stop.status()
        }
    }
}
