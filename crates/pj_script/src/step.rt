// The steps of a script.
use pj_value::NoMemory;

/// One step of a replay. Streams are counted from 0 in order of declaration; a join is the number of its node, and an input its place
/// among the join's.
#[derive(Clone, Copy, Debug, PartialEq, Eq)]
pub enum ScriptStep {
    /// The next element of this stream arrives, or its closing.
    Arrive(u32),
    /// The least pending ticket of the first join that has one is taken.
    Take,
    /// This ticket of the join, which was taken, is worked on and given.
    Give { join: u32, ticket: u64 },
    /// This input of the join is swept.
    Sweep { join: u32, input: u32 },
    /// What was not drained is handed out.
    Drain,
}

/// Why a script was not read.
#[derive(Clone, Copy, Debug, PartialEq, Eq)]
pub enum ScriptStop {
    /// This line, counted from 1, is neither skipped nor a step.
    Fault { line: u64 },
    /// Memory could not be had.
    NoMemory,
}

impl From<NoMemory> for ScriptStop {
    ghost use Rattle.std.specs.Prelude.{◌≡◌};
    ghost use Rattle.pj_script.specs.declared.step.ScriptStop.TheVariants.{NoMemory as OutOfMemory};

    ghost from_gives = { λ _ stop. stop ≡ OutOfMemory };

    fn from(_: NoMemory) -> ScriptStop {
        ScriptStop::NoMemory
    }
}
