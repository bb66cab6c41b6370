// Why a stream's file was not opened.
ghost use Rattle.std.specs.Prelude.{◌≡◌};

use pj_value::NoMemory;

/// Why the files of the streams were not opened.
#[derive(Clone, Copy, Debug, PartialEq, Eq)]
pub enum OpeningStop {
    /// The file of this stream could not be opened.
    Fault { stream: u32 },
    /// Memory could not be had.
    NoMemory,
}

impl From<NoMemory> for OpeningStop {
    ghost use Rattle.pj_feed.specs.declared.stops.OpeningStop.TheVariants.{NoMemory as OutOfMemory};

    ghost from_gives = { λ _ stop. stop ≡ OutOfMemory };

    fn from(_: NoMemory) -> OpeningStop {
        OpeningStop::NoMemory
    }
}
