// The script of a request, if it has one.
ghost use Rattle.std.specs.Prelude.{◌≡◌, ◌∷◌, [], IfErr, IfOk, IsTrue, OnOk, Some};
ghost use Rattle.pj_io.specs.Folders.{NoneFalls};
ghost use Rattle.pj_prepare.specs.Calls.{wanted};
ghost use Rattle.pj_prepare.specs.Scripts.{HasNoSteps, HasSteps, ReadsScript, SpellsSteps, StepsCause};
ghost use Rattle.pj_feed.specs.Opened.{IsReadToEnd, OpensAtMost, OpensFirst, StayOutside};
ghost use Rattle.pj_script.specs.Reading.{AreStepsOf};

use crate::plan_file::read_file;
use crate::stops::StepsStop;
use pj_io::Folder;
use pj_plan::Plan;
use pj_script::{ScriptStep, ScriptStop, read_script};
use pj_value::List;
use pj_words::Request;
use std::alloc::Global;

/// The steps of the request's script over the plan, each with the number of its line, in order; none where the request has no script,
/// as only a replay has one.
///
/// The script's file is opened, read to its end and closed, and no other is. `File` comes where it was not read, with the cause;
/// `Refused` at the first line that is neither skipped nor a step over the plan; `NoMemory` where memory was wanting. After each of these
/// at most the script's file was opened, and it is closed; what the folder's files have is the same, no count of their faults fell, and
/// of other names nothing changed.
pub fn read_steps<F: Folder>(
    alloc: Global,
    request: &Request,
    plan: &Plan,
    folder: &mut F,
) -> Result<Option<List<(u64, ScriptStep)>>, StepsStop>
    ensures steps { IfOk result (HasSteps (wanted (Some request.now)).script plan.now.nodes (F.state folder.old)) }
    ensures told { (F.state folder.new).told ≡ (F.state folder.old).told }
    ensures contents { (F.state folder.new).contents ≡ (F.state folder.old).contents }
    ensures later { NoneFalls (F.state folder.old).faults (F.state folder.new).faults }
    ensures reads { OnOk result (ReadsScript (wanted (Some request.now)).script (F.state folder.old) (F.state folder.new)) }
    ensures none { IfErr result (λ stop. HasNoSteps stop (wanted (Some request.now)).script plan.now.nodes (F.state folder.old) (F.state folder.new)) }
{
    match request {
        Request::Replay { script, .. } => {
            let steps = read_steps_of(alloc, plan, script.as_slice(), folder)?;
            Ok(Some(steps))
        }
        Request::Run { .. } => Ok(None),
        Request::Check { .. } => Ok(None),
        Request::Make { .. } => Ok(None),
    }
}

// The steps of the script of this name.
fn read_steps_of<F: Folder>(
    alloc: Global,
    plan: &Plan,
    name: &[u8],
    folder: &mut F,
) -> Result<List<(u64, ScriptStep)>, StepsStop>
    ensures steps { IfOk result (AreStepsOf plan.now.nodes) }
    ensures read { IsTrue ((F.state folder.old).told name.now) → IfOk result (SpellsSteps ((F.state folder.old).contents name.now) plan.now.nodes) }
    ensures told { (F.state folder.new).told ≡ (F.state folder.old).told }
    ensures contents { (F.state folder.new).contents ≡ (F.state folder.old).contents }
    ensures later { NoneFalls (F.state folder.old).faults (F.state folder.new).faults }
    ensures opened { OpensAtMost 1 (name.now ∷ []) (F.state folder.old) (F.state folder.new) }
    ensures was_opened { OnOk result (OpensFirst 1 (name.now ∷ []) (F.state folder.old) (F.state folder.new)) }
    ensures others { StayOutside (name.now ∷ []) (F.state folder.old) (F.state folder.new) }
    ensures last { IsTrue ((F.state folder.old).told name.now) → OnOk result (IsReadToEnd name.now (F.state folder.old) (F.state folder.new)) }
    ensures cause { IfErr result (λ stop. StepsCause stop name.now plan.now.nodes (F.state folder.old) (F.state folder.new)) }
{
    let bytes = read_file(alloc, folder, name)?;
    match read_script(alloc, plan, bytes.as_slice()) {
        Ok(steps) => Ok(steps),
        Err(ScriptStop::Fault { line }) => Err(StepsStop::Refused { line }),
        Err(ScriptStop::NoMemory) => Err(StepsStop::NoMemory),
    }
}
