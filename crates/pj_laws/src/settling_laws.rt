// The law of the end of a history.
ghost use Rattle.std.specs.Prelude.{List, []};
ghost use Rattle.pj_events.specs.Plan.{ArePlanned, Node};
ghost use Rattle.pj_laws.specs.HistoryLaws.{AllAreCertified};
ghost use Rattle.pj_laws.specs.SettlingHistories.{NoneIsLeft, SettlingIsComplete};

/// Take a legal history without a stop in which every stream is closed, with sweeps at any places. Let all probes be done, and
/// then let each join in order be swept input by input, all probes being done after each sweep; entries that hand nothing up may
/// stand between. The history is then complete. All probes are done where no ticket is pending and every take has its give.
pub fn histories_settle()
    ensures done { (plan : List Node) → NoneIsLeft plan }
    ensures settles { (plan : List Node) → ArePlanned [] plan → AllAreCertified plan → SettlingIsComplete plan }
{}
