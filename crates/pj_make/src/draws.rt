// The numbers that are drawn for an input.
ghost use Rattle.std.specs.Prelude.{◌≡◌, ◌≤◌, ◌<◌};
ghost use Rattle.pj_make.specs.Draws.{drawn, next_state as state_behind};

// The state behind this one.
pub(crate) fn next_state(state: u64) -> u64
    requires { state < 2147483648 }
    ensures next { result ≡ state_behind state }
    ensures small { result < 2147483648 }
{
    (state * 1_103_515_245 + 12_345) % 2_147_483_648
}

// The number that is drawn with a state, from 1 to 1000.
pub(crate) fn price(state: u64) -> u64
    ensures drawn { result ≡ drawn state }
    ensures small { result ≤ 1000 }
{
    state / 65_536 % 1_000 + 1
}
