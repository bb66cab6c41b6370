// How workers end.
ghost use Rattle.std.specs.Prelude.{◌≡◌};
ghost use Rattle.pj_workers.specs.Ends.{ends_probing, ends_sweeping, work_end};

use pj_events::{Look, Stop};

/// How a prober or a sweeper ends.
#[derive(Clone, Copy, Debug, PartialEq, Eq)]
pub enum WorkEnd {
    /// A look showed that nothing is left to do.
    Over,
    /// Memory could not be had; the run is halted.
    NoMemory,
    /// The run has stopped.
    Stopped(Stop),
}

/// Why a part of a round was not made to its end.
#[derive(Clone, Copy, Debug, PartialEq, Eq)]
pub(crate) enum Broken {
    /// Memory could not be had; the run is halted.
    NoMemory,
    /// The run has stopped.
    Stopped(Stop),
}

/// How a prober ends whose round broke off.
pub(crate) fn work_end_of(broken: Broken) -> WorkEnd
    ensures { result ≡ work_end broken }
{
    match broken {
        Broken::NoMemory => WorkEnd::NoMemory,
        Broken::Stopped(stop) => WorkEnd::Stopped(stop),
    }
}

/// Whether a prober is over after this look.
pub(crate) fn probing_ends(look: &Look) -> bool
    ensures { result ≡ ends_probing look.now }
{
    look.halted
        || look.stop.is_some()
        || (look.ended == look.streams && look.pending == 0 && look.taken == 0)
}

/// Whether a sweeper or the writer is over after this look.
pub(crate) fn sweeping_ends(look: &Look) -> bool
    ensures { result ≡ ends_sweeping look.now }
{
    look.halted || look.stop.is_some() || look.ended == look.streams
}
