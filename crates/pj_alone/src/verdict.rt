// What is written where a plan is checked.
ghost use Rattle.std.specs.Prelude.{◌≡◌, ◌≤◌, ◌+◌, [], Bool, IsTrue};
ghost use Rattle.pj_report.specs.Written.{HandedOn};
ghost use Rattle.pj_alone.specs.Endings.{VerdictLeaves};
ghost use Rattle.pj_prepare.specs.Stops.{verdict_status as status_of_verdict};

use pj_io::{Failed, Sink};
use pj_judge::check_text;
use pj_plan::Plan;
use pj_report::{Status, write_status, write_text};
use pj_safety::PlanRisk;
use pj_value::List;
use std::alloc::Global;

/// Writes what is told of the plan, each line by a `write_all` of its own, behind the canonical plan where that is to be printed, and
/// hands on what the sink holds back. `Done` comes where the plan is safe and all was written, `Unsafe` where it is not safe,
/// `WriteFault` where it is safe and a write failed, `NoMemory` where memory was wanting before a line was written.
pub fn write_verdict<K: Sink>(alloc: Global, plan: &Plan, print: bool, out: &mut K) -> Status
    ensures told { IsTrue (K.state out.new).told → IsTrue (K.state out.old).told }
    ensures verdict { VerdictLeaves result print plan.now (K.state out.old) (K.state out.new) }
    ensures handed_on { HandedOn (K.state out.old) (K.state out.new) }
    ensures all_handed_on { result ≡ Status.Done → (K.state out.new).held ≡ [] }
    ensures later { (K.state out.old).faults ≤ (K.state out.new).faults }
{
    let mut text = List::new(alloc);
    match check_text(alloc, plan, print, &mut text) {
        Ok(found) => {
            let written = write_text(text.as_slice(), out);
            verdict_status(found, written)
        }
        Err(_) => {
            write_status(b"", Status::NoMemory, out);
            Status::NoMemory
        }
    }
}

// How the check of a plan ends: an unsafe plan is told as such, also where its lines could not be written.
fn verdict_status(found: Option<(u32, PlanRisk)>, written: Result<(), Failed>) -> Status
    ensures { result ≡ status_of_verdict found written }
{
    match found {
        Some((node, risk)) => Status::Unsafe { node, risk },
        None => match written {
            Ok(()) => Status::Done,
            Err(_) => Status::WriteFault,
        },
    }
}
