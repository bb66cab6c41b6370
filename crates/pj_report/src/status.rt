// How a call ended.
ghost use Rattle.std.specs.Prelude.{◌≡◌};
ghost use Rattle.pj_report.specs.Report.{status_number};

use pj_plan::PlanWhy;
use pj_safety::PlanRisk;

/// How a call ended.
#[derive(Clone, Copy, Debug, PartialEq, Eq)]
pub enum Status {
    /// All files were read to their ends, and every line was written.
    Done,
    /// The words ask for nothing that there is.
    Usage,
    /// The plan has a fault: the first line that has one, counted from 1, and what is wrong with it.
    PlanRefused { line: u64, why: PlanWhy },
    /// The plan has `want` streams, and `got` files were named.
    FileCount { want: u32, got: u32 },
    /// A node of the plan is not safe: the first such node, counted from 0, and its risk.
    Unsafe { node: u32, risk: PlanRisk },
    /// A line of the script is no step, or its step is not enabled as the run comes to it: the first such line, counted from 1.
    ScriptRefused { line: u64 },
    /// A file could not be opened; operands are counted from 1, the plan being 1, and a script 2.
    OpenFault { operand: u32 },
    /// A file could not be read.
    ReadFault { operand: u32 },
    /// Not all could be written.
    WriteFault,
    /// Memory could not be had.
    NoMemory,
    /// More came than the limit of this.
    Limit { what: LimitOf },
}

/// What has a limit.
#[derive(Clone, Copy, Debug, PartialEq, Eq)]
pub enum LimitOf {
    /// The bytes of the plan.
    Plan,
    /// The bytes of the script.
    Script,
    /// The arrivals at a join or a group, by the number of its node.
    Node(u32),
    /// The bytes of a stream's file, by the number of the stream.
    File(u32),
}

impl Status {
    /// The exit status of the program.
    pub fn number(self) -> u8
        ensures { result ≡ status_number self }
    {
        match self {
            Status::Done => 0,
            Status::PlanRefused { .. } => 1,
            Status::Unsafe { .. } => 2,
            Status::OpenFault { .. } => 3,
            Status::ReadFault { .. } => 3,
            Status::WriteFault => 4,
            Status::NoMemory => 5,
            Status::Limit { .. } => 6,
            Status::ScriptRefused { .. } => 7,
            Status::FileCount { .. } => 8,
            Status::Usage => 64,
        }
    }
}
