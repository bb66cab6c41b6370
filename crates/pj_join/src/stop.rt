// Why a join takes no more.
ghost use Rattle.std.specs.Prelude.{◌≡◌};

use pj_value::NoMemory;

/// Why a join takes no element: as many have reached it as may, or memory could not be had.
#[derive(Clone, Copy, Debug, PartialEq, Eq)]
pub enum JoinStop {
    Limit,
    NoMemory,
}

impl From<NoMemory> for JoinStop {
    ghost use Rattle.pj_join.specs.declared.stop.JoinStop.TheVariants.{NoMemory as OutOfMemory};

    ghost from_gives = { λ _ stop. stop ≡ OutOfMemory };

    fn from(_: NoMemory) -> JoinStop {
        JoinStop::NoMemory
    }
}
