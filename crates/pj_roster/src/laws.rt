// Laws of duties that are handed out and taken back.
ghost use Rattle.pj_roster.specs.Rosters.{RostersBegin, RostersFeed, RostersKeep, RostersTell};

use pj_io::Source;

/// Duties that are assigned over new feeds of a sound plan may begin.
pub fn rosters_begin<S: Source>()
    ensures { RostersBegin S }
{}

/// As many feeds come back as were handed out, in the same order, each as its feeder left it; and no worker beside the writer writes.
pub fn rosters_feed<S: Source>()
    ensures { RostersFeed S }
{}

/// Where files tell their bytes and each worker did all of its duty, the rows that come back are those that were accepted of each file,
/// where they were asked for, and else none.
pub fn rosters_keep<S: Source>()
    ensures { RostersKeep S }
{}

/// Where nothing is counted against a run, no worker beside the writer halted it, and none was told a stop.
pub fn rosters_tell<S: Source>()
    ensures { RostersTell S }
{}
