// Laws of crews that run a job.
ghost use Rattle.pj_crew_runs.specs.Limits.{LimitsHaveCause, SettlingLimitsHaveCause};
ghost use Rattle.pj_crew_runs.specs.Runs.{BringsFronts, HandsOutAll, LargeFilesTell, LimitsTell, OfCrewRuns, QuietAreWhole, ReadsTell, SettlesWhole};

/// What the history of a crew comes to, however its workers ended: it is legal and within the limit, and of each stream a front of
/// what is accepted of its file, and of its closing, arrived.
pub fn crews_run()
    ensures { OfCrewRuns BringsFronts }
{}

/// Where every feeder ended its stream, every other worker was over, and the core was settled then: the history is whole, and what the
/// writer drained and the settling handed out is all that it hands out.
pub fn crews_settle()
    ensures whole { OfCrewRuns SettlesWhole }
    ensures outputs { OfCrewRuns HandsOutAll }
{}

/// What the ends of workers tell of the history: what had arrived where a read failed or a file was too large, a limit that was met, and
/// that a crew of which none halted the run or was refused ended all streams.
pub fn crews_tell()
    ensures reads { OfCrewRuns ReadsTell }
    ensures large { OfCrewRuns LargeFilesTell }
    ensures limits { OfCrewRuns LimitsTell }
    ensures quiet { OfCrewRuns QuietAreWhole }
{}

/// Where a worker tells the limit of a node, or that limit is met as the core is settled behind a crew of which each worker has done
/// all of its duty, the node is a join or a group, and more elements come to it in all than may: of the accepted elements of the
/// files, and their closings.
pub fn crews_limit()
    ensures told { OfCrewRuns LimitsHaveCause }
    ensures settled { OfCrewRuns SettlingLimitsHaveCause }
{}
