// The top call.
ghost use Rattle.std.specs.Prelude.{◌≡◌, ◌≤◌, false, IsTrue, None};
ghost use Rattle.pj_words.specs.Request.{IsRequest};
ghost use Rattle.pj_prepare.specs.Calls.{call_for};
ghost use Rattle.pj_alone.specs.Endings.{ending_of};
ghost use Rattle.pj_alone.specs.Promises.{Answers, AnswersRefusals, AnswersScripts, Ends, HandsOn, IsCompleted, IsRightCount, IsRightFault, IsRightFileLimit, IsRightLimit, IsRightOpenFault, IsRightPlanLimit, IsRightReadFault, IsRightRefusal, IsRightScriptLimit, IsRightUsage, IsRightWriteFault, IsRightlyDone, IsRightlyUnsafe, LeavesLines, Makes, Punctuates, ReadsToEnd, RetractsNothing, StaysLawful, Tallies, WritesOneThread};
ghost use Rattle.pj_together.specs.Promises.{AnswersBy, EndsSo, HasOneHistory, IsDoneRightly, IsLimitRight, PunctuatesBy, RetractsNone, SortsOneThread, StaysLawfulBy, TalliesBy};
ghost use Rattle.pj_together.specs.Requests.{workers_of};
ghost use Rattle.pj_engine.specs.Threads.{AsksNothing, KeepsOn, OnThreads};
ghost use Rattle.pj_engine.specs.Words.{asked_in, ended, workers_in, AsksSomething};

use pj_alone::run_alone;
use pj_io::{Folder, Sink};
use pj_report::{Status, write_status};
use pj_together::run_together;
use pj_words::{Request, WordStop, request_of};
use pj_workers::Gate;
use std::sync::Wait;
use std::thread::Threads;

/// Does what the words of a command line ask for, these being the words behind the program's name: a run with workers as
/// `run_together`, with its gate, and all else on one thread as `run_alone`. Words that make no request are answered with `Usage`.
///
/// A run with workers waits for its threads; nothing else waits.
pub fn run_words<R: AllocGlobal + Threads + Wait + Sync, F: Folder, K: Sink + Send, G: Gate>(
    rt: &R,
    words: &[String],
    folder: &mut F,
    out: &mut K,
    gate: &G,
) -> Status
where
    F::File: Send,
    // The run is done.
    ensures answer { OnThreads (workers_in words.now) Answers AnswersBy (ended words.now (F.state folder.old) result (F.state folder.new) (K.state out.old) (K.state out.new)) }
    ensures punctuations { OnThreads (workers_in words.now) Punctuates PunctuatesBy (ended words.now (F.state folder.old) result (F.state folder.new) (K.state out.old) (K.state out.new)) }
    ensures lawful { OnThreads (workers_in words.now) StaysLawful StaysLawfulBy (ended words.now (F.state folder.old) result (F.state folder.new) (K.state out.old) (K.state out.new)) }
    ensures one_history { OnThreads (workers_in words.now) AsksNothing HasOneHistory (ended words.now (F.state folder.old) result (F.state folder.new) (K.state out.old) (K.state out.new)) }
    ensures one_thread_bytes { OnThreads (workers_in words.now) WritesOneThread SortsOneThread (ended words.now (F.state folder.old) result (F.state folder.new) (K.state out.old) (K.state out.new)) }
    ensures tallies { OnThreads (workers_in words.now) Tallies TalliesBy (ended words.now (F.state folder.old) result (F.state folder.new) (K.state out.old) (K.state out.new)) }
    ensures made { Makes (ended words.now (F.state folder.old) result (F.state folder.new) (K.state out.old) (K.state out.new)) }
    ensures read_to_end { ReadsToEnd (ended words.now (F.state folder.old) result (F.state folder.new) (K.state out.old) (K.state out.new)) }

    // How far the call came, and what it left.
    ensures ending { OnThreads (workers_in words.now) Ends EndsSo (ended words.now (F.state folder.old) result (F.state folder.new) (K.state out.old) (K.state out.new)) }
    ensures never_retracted { OnThreads (workers_in words.now) RetractsNothing RetractsNone (ended words.now (F.state folder.old) result (F.state folder.new) (K.state out.old) (K.state out.new)) }
    ensures whole_lines { LeavesLines (ended words.now (F.state folder.old) result (F.state folder.new) (K.state out.old) (K.state out.new)) }
    ensures handed_on { HandsOn (ended words.now (F.state folder.old) result (F.state folder.new) (K.state out.old) (K.state out.new)) }

    // When each status comes.
    ensures cause_of_done { OnThreads (workers_in words.now) IsRightlyDone IsDoneRightly (ended words.now (F.state folder.old) result (F.state folder.new) (K.state out.old) (K.state out.new)) }
    ensures cause_of_usage { IsRightUsage (ended words.now (F.state folder.old) result (F.state folder.new) (K.state out.old) (K.state out.new)) }
    ensures usage { asked_in words.now ≡ None → result ≡ Status.Usage }
    ensures cause_of_no_memory { result ≡ Status.NoMemory → AsksSomething words.now }
    ensures cause_of_plan_limit { IsRightPlanLimit (ended words.now (F.state folder.old) result (F.state folder.new) (K.state out.old) (K.state out.new)) }
    ensures cause_of_plan_refused { IsRightFault (ended words.now (F.state folder.old) result (F.state folder.new) (K.state out.old) (K.state out.new)) }
    ensures cause_of_file_count { IsRightCount (ended words.now (F.state folder.old) result (F.state folder.new) (K.state out.old) (K.state out.new)) }
    ensures cause_of_unsafe { IsRightlyUnsafe (ended words.now (F.state folder.old) result (F.state folder.new) (K.state out.old) (K.state out.new)) }
    ensures refused { AnswersRefusals (ended words.now (F.state folder.old) result (F.state folder.new) (K.state out.old) (K.state out.new)) }
    ensures cause_of_script_limit { IsRightScriptLimit (ended words.now (F.state folder.old) result (F.state folder.new) (K.state out.old) (K.state out.new)) }
    ensures cause_of_script_refused { IsRightRefusal (ended words.now (F.state folder.old) result (F.state folder.new) (K.state out.old) (K.state out.new)) }
    ensures script_refused { AnswersScripts (ended words.now (F.state folder.old) result (F.state folder.new) (K.state out.old) (K.state out.new)) }
    ensures cause_of_open_fault { IsRightOpenFault (ended words.now (F.state folder.old) result (F.state folder.new) (K.state out.old) (K.state out.new)) }
    ensures cause_of_read_fault { IsRightReadFault (ended words.now (F.state folder.old) result (F.state folder.new) (K.state out.old) (K.state out.new)) }
    ensures cause_of_write_fault { IsRightWriteFault (ended words.now (F.state folder.old) result (F.state folder.new) (K.state out.old) (K.state out.new)) }
    ensures cause_of_limit { OnThreads (workers_in words.now) IsRightLimit IsLimitRight (ended words.now (F.state folder.old) result (F.state folder.new) (K.state out.old) (K.state out.new)) }
    ensures cause_of_file_limit { IsRightFileLimit (ended words.now (F.state folder.old) result (F.state folder.new) (K.state out.old) (K.state out.new)) }
    ensures completes { IsCompleted (ended words.now (F.state folder.old) result (F.state folder.new) (K.state out.old) (K.state out.new)) }
{
    answer(rt, words, folder, out, gate)
}

// Does what words ask for, by all promises at once.
fn answer<R: AllocGlobal + Threads + Wait + Sync, F: Folder, K: Sink + Send, G: Gate>(
    rt: &R,
    words: &[String],
    folder: &mut F,
    out: &mut K,
    gate: &G,
) -> Status
where
    F::File: Send,
    ensures keeps { KeepsOn (workers_in words.now) (ended words.now (F.state folder.old) result (F.state folder.new) (K.state out.old) (K.state out.new)) }
    ensures usage { asked_in words.now ≡ None → result ≡ Status.Usage }
    ensures cause_of_no_memory { result ≡ Status.NoMemory → AsksSomething words.now }
{
    match request_of(rt.alloc(), words) {
        Ok(request) => run_request(rt, &request, folder, out, gate),
        Err(WordStop::Usage) => {
            write_status(b"", Status::Usage, out);
            Status::Usage
        }
        Err(WordStop::NoMemory) => {
            write_status(b"", Status::NoMemory, out);
            Status::NoMemory
        }
    }
}

// Does what a request asks for.
fn run_request<R: AllocGlobal + Threads + Wait + Sync, F: Folder, K: Sink + Send, G: Gate>(
    rt: &R,
    request: &Request,
    folder: &mut F,
    out: &mut K,
    gate: &G,
) -> Status
where
    F::File: Send,
    requires { IsRequest request.now }
    ensures { KeepsOn (workers_of request.now) (ending_of (call_for request.now (F.state folder.old)) result (F.state folder.new) (K.state out.old) (K.state out.new)) }
{
    if has_workers(request) {
        run_together(rt, request, folder, out, gate)
    } else {
        run_alone(rt.alloc(), request, folder, out)
    }
}

// Whether the request asks for workers.
fn has_workers(request: &Request) -> bool
    ensures some { IsTrue result → 1 ≤ workers_of request.now }
    ensures none { result ≡ false → workers_of request.now ≡ 0 }
{
    match request {
        Request::Run { workers, .. } => 1 <= *workers,
        Request::Replay { .. } => false,
        Request::Check { .. } => false,
        Request::Make { .. } => false,
    }
}
