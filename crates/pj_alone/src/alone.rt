// The call of a request.
ghost use Rattle.pj_words.specs.Request.{IsRequest};
ghost use Rattle.pj_prepare.specs.Calls.{call_for};
ghost use Rattle.pj_alone.specs.Endings.{ending_of};
ghost use Rattle.pj_alone.specs.Promises.{Answers, AnswersRefusals, AnswersScripts, AnswersUsage, Ends, HandsOn, IsCompleted, IsRightCount, IsRightFault, IsRightFileLimit, IsRightLimit, IsRightlyDone, IsRightlyUnsafe, IsRightOpenFault, IsRightPlanLimit, IsRightReadFault, IsRightRefusal, IsRightScriptLimit, IsRightUsage, IsRightWriteFault, KeepsAll, LeavesLines, Makes, Punctuates, ReadsToEnd, RetractsNothing, StaysLawful, Tallies, WritesOneThread};

use crate::made::write_made;
use crate::refusal::write_refusal;
use crate::run::write_run;
use crate::verdict::write_verdict;
use pj_io::{Folder, Sink};
use pj_prepare::{Ready, prepare};
use pj_report::Status;
use pj_words::Request;
use std::alloc::Global;

/// Does on one thread what is asked for, and returns. A run reads a plan, and a file for each of its streams, and writes what the
/// plan's run hands out, and the report; with `trace` also a note for each row that a sweep removes, with `sorted` the results in
/// order of their lines once the run is done, rows first, and a report without peaks, and with `check` the number of rows of the
/// plan's answer, worked out again from the accepted rows. No more than `limit` elements may arrive at a join or a group. A plan of
/// which a node is not safe is refused with `Unsafe` before the script or a file of a stream is opened; every other plan without a
/// fault, with a stream for each file, is run.
///
/// A replay is a run that first plays a script: it makes the steps that the script lists, one by one as far as each is enabled; then it is
/// settled and goes on as a run does. `ScriptRefused` comes at the first line of the script that is no step; where all are steps, at
/// the first whose step is not enabled as the run comes to it, and what was handed out until then is written.
///
/// A check reads a plan, and writes what each input of each join reaches, behind the canonical plan with `print`: `Done` where the plan
/// is safe, else `Unsafe`.
///
/// A make makes an auction of so many items from its seed, runs it in memory, and writes its report and the total of the highest bids:
/// `Done`, unless a write failed or memory was wanting.
///
/// Sweeps keep each join finite: after each punctuation a run removes the stored rows whose need is covered, and the join hands
/// up each punctuation, widened, as soon as no stored row of its input matches it.
pub fn run_alone<F: Folder, K: Sink>(
    alloc: Global,
    request: &Request,
    folder: &mut F,
    out: &mut K,
) -> Status
    requires { IsRequest request.now }

    // The run is done.
    ensures answer { Answers (ending_of (call_for request.now (F.state folder.old)) result (F.state folder.new) (K.state out.old) (K.state out.new)) }
    ensures punctuations { Punctuates (ending_of (call_for request.now (F.state folder.old)) result (F.state folder.new) (K.state out.old) (K.state out.new)) }
    ensures lawful { StaysLawful (ending_of (call_for request.now (F.state folder.old)) result (F.state folder.new) (K.state out.old) (K.state out.new)) }
    ensures one_thread_bytes { WritesOneThread (ending_of (call_for request.now (F.state folder.old)) result (F.state folder.new) (K.state out.old) (K.state out.new)) }
    ensures tallies { Tallies (ending_of (call_for request.now (F.state folder.old)) result (F.state folder.new) (K.state out.old) (K.state out.new)) }
    ensures made { Makes (ending_of (call_for request.now (F.state folder.old)) result (F.state folder.new) (K.state out.old) (K.state out.new)) }
    ensures read_to_end { ReadsToEnd (ending_of (call_for request.now (F.state folder.old)) result (F.state folder.new) (K.state out.old) (K.state out.new)) }

    // How far the call came, and what it left.
    ensures ending { Ends (ending_of (call_for request.now (F.state folder.old)) result (F.state folder.new) (K.state out.old) (K.state out.new)) }
    ensures never_retracted { RetractsNothing (ending_of (call_for request.now (F.state folder.old)) result (F.state folder.new) (K.state out.old) (K.state out.new)) }
    ensures whole_lines { LeavesLines (ending_of (call_for request.now (F.state folder.old)) result (F.state folder.new) (K.state out.old) (K.state out.new)) }
    ensures handed_on { HandsOn (ending_of (call_for request.now (F.state folder.old)) result (F.state folder.new) (K.state out.old) (K.state out.new)) }

    // When each status comes.
    ensures cause_of_done { IsRightlyDone (ending_of (call_for request.now (F.state folder.old)) result (F.state folder.new) (K.state out.old) (K.state out.new)) }
    ensures cause_of_usage { IsRightUsage (ending_of (call_for request.now (F.state folder.old)) result (F.state folder.new) (K.state out.old) (K.state out.new)) }
    ensures usage { AnswersUsage (ending_of (call_for request.now (F.state folder.old)) result (F.state folder.new) (K.state out.old) (K.state out.new)) }
    ensures cause_of_plan_limit { IsRightPlanLimit (ending_of (call_for request.now (F.state folder.old)) result (F.state folder.new) (K.state out.old) (K.state out.new)) }
    ensures cause_of_plan_refused { IsRightFault (ending_of (call_for request.now (F.state folder.old)) result (F.state folder.new) (K.state out.old) (K.state out.new)) }
    ensures cause_of_file_count { IsRightCount (ending_of (call_for request.now (F.state folder.old)) result (F.state folder.new) (K.state out.old) (K.state out.new)) }
    ensures cause_of_unsafe { IsRightlyUnsafe (ending_of (call_for request.now (F.state folder.old)) result (F.state folder.new) (K.state out.old) (K.state out.new)) }
    ensures refused { AnswersRefusals (ending_of (call_for request.now (F.state folder.old)) result (F.state folder.new) (K.state out.old) (K.state out.new)) }
    ensures cause_of_script_limit { IsRightScriptLimit (ending_of (call_for request.now (F.state folder.old)) result (F.state folder.new) (K.state out.old) (K.state out.new)) }
    ensures cause_of_script_refused { IsRightRefusal (ending_of (call_for request.now (F.state folder.old)) result (F.state folder.new) (K.state out.old) (K.state out.new)) }
    ensures script_refused { AnswersScripts (ending_of (call_for request.now (F.state folder.old)) result (F.state folder.new) (K.state out.old) (K.state out.new)) }
    ensures cause_of_open_fault { IsRightOpenFault (ending_of (call_for request.now (F.state folder.old)) result (F.state folder.new) (K.state out.old) (K.state out.new)) }
    ensures cause_of_read_fault { IsRightReadFault (ending_of (call_for request.now (F.state folder.old)) result (F.state folder.new) (K.state out.old) (K.state out.new)) }
    ensures cause_of_write_fault { IsRightWriteFault (ending_of (call_for request.now (F.state folder.old)) result (F.state folder.new) (K.state out.old) (K.state out.new)) }
    ensures cause_of_limit { IsRightLimit (ending_of (call_for request.now (F.state folder.old)) result (F.state folder.new) (K.state out.old) (K.state out.new)) }
    ensures cause_of_file_limit { IsRightFileLimit (ending_of (call_for request.now (F.state folder.old)) result (F.state folder.new) (K.state out.old) (K.state out.new)) }
    ensures completes { IsCompleted (ending_of (call_for request.now (F.state folder.old)) result (F.state folder.new) (K.state out.old) (K.state out.new)) }
{
    answer(alloc, request, folder, out)
}

// Does what is asked for, by all promises at once.
fn answer<F: Folder, K: Sink>(
    alloc: Global,
    request: &Request,
    folder: &mut F,
    out: &mut K,
) -> Status
    requires { IsRequest request.now }
    ensures { KeepsAll (ending_of (call_for request.now (F.state folder.old)) result (F.state folder.new) (K.state out.old) (K.state out.new)) }
{
    match prepare(alloc, request, folder) {
        Ok(Ready::Run { ready }) => write_run(alloc, request, ready, folder, out),
        Ok(Ready::Check { plan, print }) => write_verdict(alloc, &plan, print, out),
        Ok(Ready::Make { seed, count }) => write_made(alloc, seed, count, out),
        Err(stop) => {
            write_refusal(&stop, out);
            stop.status()
        }
    }
}
