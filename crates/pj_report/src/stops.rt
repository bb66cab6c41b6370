// Why a line was not written.
ghost use Rattle.std.specs.Prelude.{◌≡◌};

use pj_io::Failed;
use pj_value::NoMemory;

/// Why a line was not written.
#[derive(Clone, Copy, Debug, PartialEq, Eq)]
pub enum WriteStop {
    /// The output failed.
    Failed,
    /// Memory could not be had.
    NoMemory,
}

impl From<NoMemory> for WriteStop {
    ghost use Rattle.pj_report.specs.declared.stops.WriteStop.TheVariants.{NoMemory as OutOfMemory};

    ghost from_gives = { λ _ stop. stop ≡ OutOfMemory };

    fn from(_: NoMemory) -> WriteStop {
        WriteStop::NoMemory
    }
}

impl From<Failed> for WriteStop {
    ghost use Rattle.pj_report.specs.declared.stops.WriteStop.TheVariants.{Failed as WriteFailed};

    ghost from_gives = { λ _ stop. stop ≡ WriteFailed };

    fn from(_: Failed) -> WriteStop {
        WriteStop::Failed
    }
}
