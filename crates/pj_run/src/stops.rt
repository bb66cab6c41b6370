// Why a run, or a turn of it, ended before its end.
ghost use Rattle.std.specs.Prelude.{◌≡◌};

use pj_events::Stop;
use pj_feed::OpeningStop;
use pj_intake::IntakeStop;
use pj_io::Failed;
use pj_report::WriteStop;
use pj_value::NoMemory;

/// Why the next turn of a stream was not had.
#[derive(Clone, Copy, Debug, PartialEq, Eq)]
pub enum FeedWhy {
    /// Its intake stopped.
    Intake(IntakeStop),
    /// The output failed, as what it holds back was to be handed on before a read.
    WriteFailed,
}

/// Why the next turn of a stream, counted from 0, was not had.
#[derive(Clone, Copy, Debug, PartialEq, Eq)]
pub struct FeedStop {
    pub stream: u32,
    pub why: FeedWhy,
}

/// Why a turn was not made to its end, or its lines were not written.
#[derive(Clone, Copy, Debug, PartialEq, Eq)]
pub enum TurnStop {
    /// More elements came to this node than may.
    Limit { node: u32 },
    /// The output failed.
    WriteFailed,
    /// Memory could not be had.
    NoMemory,
    /// The core stopped so, and then the output failed, before all was written that was handed out until then.
    Cut { stop: Stop },
}

/// Why a run over files that were opened ended before its end.
#[derive(Clone, Copy, Debug, PartialEq, Eq)]
pub enum RunStop {
    /// A read of this stream's file failed.
    ReadFault { stream: u32 },
    /// The file of this stream is too large.
    TooLarge { stream: u32 },
    /// More elements came to this node than may.
    Limit { node: u32 },
    /// The step on this line of the script is not enabled.
    Refused { line: u64 },
    /// The output failed.
    WriteFailed,
    /// Memory could not be had.
    NoMemory,
    /// The core stopped so, or memory was wanting so in a step of a script, and then the output failed, before all was written that was
    /// handed out until then.
    Cut { stop: Stop },
    /// A read of this stream's file failed, and then the output failed, before all was written that was handed out until then.
    CutRead { stream: u32 },
    /// The file of this stream is too large, and then the output failed, before all was written that was handed out until then.
    CutLarge { stream: u32 },
    /// The step on this line of the script is not enabled, and then the output failed, before all was written that was handed out
    /// until then.
    CutRefused { line: u64 },
}

/// Why a run over the files of its operands ended before its end.
#[derive(Clone, Copy, Debug, PartialEq, Eq)]
pub enum FilesStop {
    /// Not all files were opened.
    Opening { stop: OpeningStop },
    /// All were, and the run ended.
    Run { stop: RunStop },
}

impl From<Failed> for FeedWhy {
    ghost use Rattle.pj_run.specs.declared.stops.FeedWhy.TheVariants.{WriteFailed as FlushFailed};

    ghost from_gives = { λ _ why. why ≡ FlushFailed };

    fn from(_: Failed) -> FeedWhy {
        FeedWhy::WriteFailed
    }
}

impl From<WriteStop> for TurnStop {
    ghost use Rattle.pj_run.specs.Stops.{of_write};

    ghost from_gives = { λ stop turn. turn ≡ of_write stop };

    fn from(stop: WriteStop) -> TurnStop {
        match stop {
            WriteStop::Failed => TurnStop::WriteFailed,
            WriteStop::NoMemory => TurnStop::NoMemory,
        }
    }
}

impl From<TurnStop> for RunStop {
    ghost use Rattle.pj_run.specs.Stops.{of_turn};

    ghost from_gives = { λ stop run. run ≡ of_turn stop };

    fn from(stop: TurnStop) -> RunStop {
        match stop {
            TurnStop::Limit { node } => RunStop::Limit { node },
            TurnStop::WriteFailed => RunStop::WriteFailed,
            TurnStop::NoMemory => RunStop::NoMemory,
            TurnStop::Cut { stop } => RunStop::Cut { stop },
        }
    }
}

impl From<FeedStop> for RunStop {
    ghost use Rattle.pj_run.specs.Stops.{of_feed};

    ghost from_gives = { λ stop run. run ≡ of_feed stop };

    fn from(stop: FeedStop) -> RunStop {
        let FeedStop { stream, why } = stop;
        match why {
            FeedWhy::Intake(IntakeStop::ReadFault) => RunStop::ReadFault { stream },
            FeedWhy::Intake(IntakeStop::ByteLimit) => RunStop::TooLarge { stream },
            FeedWhy::Intake(IntakeStop::NoMemory) => RunStop::NoMemory,
            FeedWhy::WriteFailed => RunStop::WriteFailed,
        }
    }
}

impl From<WriteStop> for RunStop {
    ghost use Rattle.pj_run.specs.Stops.{of_write, of_turn};

    ghost from_gives = { λ stop run. run ≡ of_turn (of_write stop) };

    fn from(stop: WriteStop) -> RunStop {
        match stop {
            WriteStop::Failed => RunStop::WriteFailed,
            WriteStop::NoMemory => RunStop::NoMemory,
        }
    }
}

impl From<NoMemory> for RunStop {
    ghost use Rattle.pj_run.specs.declared.stops.RunStop.TheVariants.{NoMemory as OutOfMemory};

    ghost from_gives = { λ _ stop. stop ≡ OutOfMemory };

    fn from(_: NoMemory) -> RunStop {
        RunStop::NoMemory
    }
}
