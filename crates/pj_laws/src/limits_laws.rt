// Laws of limits on the number of elements that reach a node.
ghost use Rattle.std.specs.Prelude.{◌<◌, List, [], length};
ghost use Rattle.pj_laws.specs.Climb.{IsTree};
ghost use Rattle.pj_laws.specs.HistoryLaws.{AllAreCertified};
ghost use Rattle.pj_events.specs.Plan.{ArePlanned, Node};
ghost use Rattle.pj_laws.specs.Reaching.{LimitsTell};

/// Where the run on one thread with sweeps goes beyond a limit, it does so at a join or a group, and more elements come to
/// that in all: the rows of its inputs' answers, and its inputs' punctuations.
pub fn limits_tell()
    ensures { (plan : List Node) → ArePlanned [] plan → IsTree plan → 0 < length plan → AllAreCertified plan → LimitsTell plan }
{}
