// The status of a call that has no plan to run, or no script to play.
ghost use Rattle.std.specs.Prelude.{◌≡◌};
ghost use Rattle.pj_prepare.specs.Stops.{file_status as status_of_file, plan_status, steps_status};

use crate::stops::{FileStop, PlanStop, StepsStop};
use pj_report::{LimitOf, Status};

impl PlanStop {
    /// The status of a call that has no plan to run; the plan's file is operand 1.
    pub fn status(&self) -> Status
        ensures { result ≡ plan_status self.now }
    {
        match self {
            PlanStop::File { stop } => file_status(1, LimitOf::Plan, *stop),
            PlanStop::Refused { fault } => Status::PlanRefused {
                line: fault.line,
                why: fault.why,
            },
            PlanStop::FileCount { want, got } => Status::FileCount {
                want: *want,
                got: *got,
            },
            PlanStop::Unsafe { found } => Status::Unsafe {
                node: found.node,
                risk: found.risk,
            },
            PlanStop::NoMemory => Status::NoMemory,
        }
    }
}

impl StepsStop {
    /// The status of a call that has no script to play; the script's file is operand 2.
    pub fn status(self) -> Status
        ensures { result ≡ steps_status self }
    {
        match self {
            StepsStop::File { stop } => file_status(2, LimitOf::Script, stop),
            StepsStop::Refused { line } => Status::ScriptRefused { line },
            StepsStop::NoMemory => Status::NoMemory,
        }
    }
}

// The status of a call of which the file of this operand was not read, whose bytes have a limit.
fn file_status(operand: u32, what: LimitOf, stop: FileStop) -> Status
    ensures { result ≡ status_of_file operand what stop }
{
    match stop {
        FileStop::OpenFault => Status::OpenFault { operand },
        FileStop::ReadFault => Status::ReadFault { operand },
        FileStop::TooLong => Status::Limit { what },
        FileStop::NoMemory => Status::NoMemory,
    }
}
