// Why there is no plan to run, and no script to play.
ghost use Rattle.std.specs.Prelude.{◌≡◌};

use pj_judge::Unsafe;
use pj_plan::PlanFault;
use pj_value::NoMemory;

/// Why the plan's file, or the script's, was not read.
#[derive(Clone, Copy, Debug, PartialEq, Eq)]
pub enum FileStop {
    /// It could not be opened.
    OpenFault,
    /// It could not be read.
    ReadFault,
    /// It has more bytes than a plan or a script may have, 1,048,576.
    TooLong,
    /// Memory could not be had.
    NoMemory,
}

/// Why there is no plan to run.
#[derive(Drop)]
pub enum PlanStop {
    /// The plan's file was not read.
    File { stop: FileStop },
    /// The plan has this fault, its first.
    Refused { fault: PlanFault },
    /// The plan has `want` streams and the request another number of files, `got`, or 2^32 - 1 where they are more.
    FileCount { want: u32, got: u32 },
    /// A node of the plan is not safe: the first that is not, with its risk and the lines that tell it.
    Unsafe { found: Unsafe },
    /// Memory could not be had.
    NoMemory,
}

/// Why the steps of a script were not had.
#[derive(Clone, Copy, Debug, PartialEq, Eq)]
pub enum StepsStop {
    /// The script's file was not read.
    File { stop: FileStop },
    /// This line of the script, counted from 1, is no step, and none before it.
    Refused { line: u64 },
    /// Memory could not be had.
    NoMemory,
}

impl From<FileStop> for PlanStop {
    ghost use Rattle.pj_prepare.specs.declared.stops.PlanStop.TheVariants.{File as OfFile};

    ghost from_gives = { λ stop plan. plan ≡ OfFile stop };

    fn from(stop: FileStop) -> PlanStop {
        PlanStop::File { stop }
    }
}

impl From<NoMemory> for PlanStop {
    ghost use Rattle.pj_prepare.specs.declared.stops.PlanStop.TheVariants.{NoMemory as OutOfMemory};

    ghost from_gives = { λ _ stop. stop ≡ OutOfMemory };

    fn from(_: NoMemory) -> PlanStop {
        PlanStop::NoMemory
    }
}

impl From<FileStop> for StepsStop {
    ghost use Rattle.pj_prepare.specs.declared.stops.StepsStop.TheVariants.{File as OfFile};

    ghost from_gives = { λ stop steps. steps ≡ OfFile stop };

    fn from(stop: FileStop) -> StepsStop {
        StepsStop::File { stop }
    }
}
