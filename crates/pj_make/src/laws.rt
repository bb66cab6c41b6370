// The first draws, computed.
ghost use Rattle.pj_make.specs.Worked.{FirstDraws, FirstStates};

/// From seed 7 on: the first two states, and the numbers that are drawn with them.
pub fn first_draws()
    ensures states { FirstStates }
    ensures draws { FirstDraws }
{}
