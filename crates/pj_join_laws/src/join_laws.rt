// Laws of one join, over its definitions alone.
ghost use Rattle.std.specs.Prelude.{◌<◌};
ghost use Rattle.pj_events.specs.Join.{AreCertified, JoinData, inputs};
ghost use Rattle.pj_join_laws.specs.Laws.{AllIsStored, HandsUpAllPuncts, HandsUpAllRows, HandsUpLawfully, IsNeverSwept, NeverNeeded, RipeWhenCovered, Settles, StaysRipe, StepsStand, StoredSuffice};

/// A row that a sweep removes is never needed again, and what is stored gives all results of a tuple that is not given.
pub fn forgetting_is_safe()
    ensures never_needed { (spec : JoinData) → AreCertified spec → NeverNeeded spec }
    ensures stored_suffice { (spec : JoinData) → StoredSuffice spec }
{}

/// A row that is ripe stays so until a sweep removes it, and a given row is ripe once all that it asks for is covered.
pub fn ripeness()
    ensures stays { (spec : JoinData) → AreCertified spec → StaysRipe spec }
    ensures when_covered { (spec : JoinData) → AreCertified spec → RipeWhenCovered spec }
{}

/// No result matches a punctuation that was handed up before it.
pub fn lawfulness()
    ensures { (spec : JoinData) → HandsUpLawfully spec }
{}

/// Whatever the order of takes and gives: once every tuple is given the join has handed up each combination once, and
/// once no punctuation waits each punctuation once.
pub fn completeness()
    ensures rows { (spec : JoinData) → HandsUpAllRows spec }
    ensures puncts { (spec : JoinData) → HandsUpAllPuncts spec }
{}

/// A join without certificates is never swept, and stores all that arrived.
pub fn without_sweeps()
    ensures never_swept { (spec : JoinData) → IsNeverSwept spec }
    ensures all_is_stored { (spec : JoinData) → AllIsStored spec }
{}

/// What the code keeps follows the steps.
pub fn standing()
    ensures { (spec : JoinData) → 0 < inputs spec → StepsStand spec }
{}

/// A join that nothing can reach any more settles by one sweep of each input.
pub fn settling()
    ensures { (spec : JoinData) → AreCertified spec → Settles spec }
{}
