// Worked runs, computed through the definitions.
ghost use Rattle.pj_events.specs.Join.{AreCertified};
ghost use Rattle.pj_events.specs.Plan.{ArePlanned};
ghost use Rattle.std.specs.Prelude.{[]};
ghost use Rattle.pj_laws.specs.Worked.{BeyondLimit, DrainClimbsNowhere, EarlySweeps, GroupedRun, JoinedPuncts, LowBehindOpen, OtherRowEnds, OtherRowLeavesNothing, RootHasNoneAbove, SecondStreamClimbs, SelectedRowClimbs, SelectedRowLeaves, StackedPuncts, SweptPeak, SweptRun, UnitedRun, UnsweptRow, WithinLimit, auction, plan};

/// A run of an auction on one thread, a script with early sweeps, the limit, a group, a union, and the punctuations of plans.
pub fn worked_runs()
    ensures planned { ArePlanned [] plan }
    ensures certified { AreCertified auction }
    ensures swept { SweptRun }
    ensures peak { SweptPeak }
    ensures unswept { UnsweptRow }
    ensures low { LowBehindOpen }
    ensures early { EarlySweeps }
    ensures beyond { BeyondLimit }
    ensures within { WithinLimit }
    ensures grouped { GroupedRun }
    ensures united { UnitedRun }
    ensures joined { JoinedPuncts }
    ensures stacked { StackedPuncts }
{}

/// How elements climb through a plan of two streams, their union, a selection and a projection.
pub fn worked_climbs()
    ensures second { SecondStreamClimbs }
    ensures root { RootHasNoneAbove }
    ensures selected { SelectedRowClimbs }
    ensures leaves { SelectedRowLeaves }
    ensures ends { OtherRowEnds }
    ensures nothing { OtherRowLeavesNothing }
    ensures drained { DrainClimbsNowhere }
{}
