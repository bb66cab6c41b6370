// What is written where there is no plan to run.
ghost use Rattle.std.specs.Prelude.{◌≤◌, IsTrue};
ghost use Rattle.pj_report.specs.Written.{Delivered, HandedOn};
ghost use Rattle.pj_prepare.specs.Stops.{refusal_text};

use pj_io::Sink;
use pj_prepare::PlanStop;
use pj_report::{write_lines, write_status};

/// Writes the line of why there is no plan, or the two lines of an unsafe plan, each by one `write_all`, and hands on what
/// the sink holds back. Where that fails, the status stays what it was.
pub fn write_refusal<K: Sink>(stop: &PlanStop, out: &mut K)
    ensures told { IsTrue (K.state out.new).told → IsTrue (K.state out.old).told }
    ensures lines { Delivered (refusal_text stop.now) (K.state out.old) (K.state out.new) }
    ensures handed_on { HandedOn (K.state out.old) (K.state out.new) }
    ensures later { (K.state out.old).faults ≤ (K.state out.new).faults }
{
    match stop {
        PlanStop::Unsafe { found } => {
            write_lines(found.lines.as_slice(), out);
        }
        PlanStop::File { .. } => write_status(b"", stop.status(), out),
        PlanStop::Refused { .. } => write_status(b"", stop.status(), out),
        PlanStop::FileCount { .. } => write_status(b"", stop.status(), out),
        PlanStop::NoMemory => write_status(b"", stop.status(), out),
    }
}
