// Laws of the one history of a crew.
ghost use Rattle.pj_crew_laws.specs.Crews.{FeedersBring, HaltsHaveCause, NoneStops, OfCrews, StopsAreTold, WholeCrewsEnd, WriterDrainsAll};

/// Why workers end: a feeder is halted only where a worker halted the run; and the run stopped exactly where a worker tells a stop,
/// with this stop.
pub fn crews_stop()
    ensures halts { OfCrews HaltsHaveCause }
    ensures told { OfCrews StopsAreTold }
    ensures none { OfCrews NoneStops }
{}

/// What arrived at each stream, over the history of all: a front of all that the file brings, and all of it where the feeder ended.
pub fn crews_arrive()
    ensures { OfCrews FeedersBring }
{}

/// Where every feeder ended its stream and every other worker was over, all streams are closed and every take has its give.
pub fn crews_end()
    ensures { OfCrews WholeCrewsEnd }
{}

/// What the drains of the one writer handed out, and behind it what is not drained yet, is all that was handed out.
pub fn crews_drain()
    ensures { OfCrews WriterDrainsAll }
{}
