// The status of a run that ended.
ghost use Rattle.std.specs.Prelude.{◌≡◌, ◌≤◌, IsTrue, length};
ghost use Rattle.pj_report.specs.Written.{Delivered, HandedOn};
ghost use Rattle.pj_run.specs.Stops.{opening_status as status_of_opening, run_status as status_of_run, core_status as status_of_core, files_status, run_line, stop_line, IsOfFew, IsOpeningOfFew, IsRunOfFew, IsRunTold, IsStopTold};

use crate::stops::{FilesStop, RunStop};
use pj_events::Stop;
use pj_feed::OpeningStop;
use pj_io::Sink;
use pj_report::{LimitOf, Status, write_status};

impl FilesStop {
    /// How a call ends whose run ended so. The first stream's file is the operand of this number, and the others follow it.
    pub fn status(self, first: u32) -> Status
        requires few { IsOfFew self }
        requires first { first ≤ 3 }
        ensures { result ≡ files_status first self }
    {
        match self {
            FilesStop::Opening { stop } => opening_status(first, stop),
            FilesStop::Run { stop } => run_status(first, stop),
        }
    }
}

/// Writes the line of the stop's status, with this name, and hands on what the sink holds back; where the output had failed, it
/// writes nothing. The first stream's file is the operand of the number `first`.
pub fn write_stop<K: Sink>(name: &[u8], first: u32, stop: FilesStop, out: &mut K)
    requires few { IsOfFew stop }
    requires first { first ≤ 3 }
    requires short { length name.now ≤ 32 }
    ensures told { IsTrue (K.state out.new).told → IsTrue (K.state out.old).told }
    ensures line { Delivered (stop_line first stop name.now) (K.state out.old) (K.state out.new) }
    ensures handed_on { IsStopTold stop → HandedOn (K.state out.old) (K.state out.new) }
    ensures untold { (IsStopTold stop → ⊥) → out.new ≡ out.old }
    ensures later { (K.state out.old).faults ≤ (K.state out.new).faults }
{
    match stop {
        FilesStop::Opening { stop } => write_status(name, opening_status(first, stop), out),
        FilesStop::Run { stop } => write_run_stop(name, first, stop, out),
    }
}

fn write_run_stop<K: Sink>(name: &[u8], first: u32, stop: RunStop, out: &mut K)
    requires few { IsRunOfFew stop }
    requires first { first ≤ 3 }
    requires short { length name.now ≤ 32 }
    ensures told { IsTrue (K.state out.new).told → IsTrue (K.state out.old).told }
    ensures line { Delivered (run_line first stop name.now) (K.state out.old) (K.state out.new) }
    ensures handed_on { IsRunTold stop → HandedOn (K.state out.old) (K.state out.new) }
    ensures untold { (IsRunTold stop → ⊥) → out.new ≡ out.old }
    ensures later { (K.state out.old).faults ≤ (K.state out.new).faults }
{
    match stop {
        RunStop::ReadFault { .. } => write_status(name, run_status(first, stop), out),
        RunStop::TooLarge { .. } => write_status(name, run_status(first, stop), out),
        RunStop::Limit { .. } => write_status(name, run_status(first, stop), out),
        RunStop::Refused { .. } => write_status(name, run_status(first, stop), out),
        RunStop::WriteFailed => {}
        RunStop::NoMemory => write_status(name, run_status(first, stop), out),
        RunStop::Cut { .. } => {}
        RunStop::CutRead { .. } => {}
        RunStop::CutLarge { .. } => {}
        RunStop::CutRefused { .. } => {}
    }
}

fn opening_status(first: u32, stop: OpeningStop) -> Status
    requires few { IsOpeningOfFew stop }
    requires first { first ≤ 3 }
    ensures { result ≡ status_of_opening first stop }
{
    match stop {
        OpeningStop::Fault { stream } => Status::OpenFault {
            operand: first + stream,
        },
        OpeningStop::NoMemory => Status::NoMemory,
    }
}

fn run_status(first: u32, stop: RunStop) -> Status
    requires few { IsRunOfFew stop }
    requires first { first ≤ 3 }
    ensures { result ≡ status_of_run first stop }
{
    match stop {
        RunStop::ReadFault { stream } => Status::ReadFault {
            operand: first + stream,
        },
        RunStop::TooLarge { stream } => Status::Limit {
            what: LimitOf::File(stream),
        },
        RunStop::Limit { node } => Status::Limit {
            what: LimitOf::Node(node),
        },
        RunStop::Refused { line } => Status::ScriptRefused { line },
        RunStop::WriteFailed => Status::WriteFault,
        RunStop::NoMemory => Status::NoMemory,
        RunStop::Cut { stop } => core_status(stop),
        RunStop::CutRead { stream } => Status::ReadFault {
            operand: first + stream,
        },
        RunStop::CutLarge { stream } => Status::Limit {
            what: LimitOf::File(stream),
        },
        RunStop::CutRefused { line } => Status::ScriptRefused { line },
    }
}

fn core_status(stop: Stop) -> Status
    ensures { result ≡ status_of_core stop }
{
    match stop {
        Stop::Limit { node } => Status::Limit {
            what: LimitOf::Node(node),
        },
        Stop::NoMemory => Status::NoMemory,
    }
}
