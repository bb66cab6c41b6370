// Laws of histories that seats make.
ghost use Rattle.pj_laws.specs.SeatLaws.{ClosingsAreOwn, DrainsAdd, ElementsAreOwn, HaltsAreListed, HeldIsUnderWay, QuietEventsStayWithin, ResultsStay, SeatsChangeNothing, StopsAreListed, TakersHold, TakesStayWithin};

/// The number of the seat that made the last entry changes nothing of what a core keeps.
pub fn seats_change_nothing()
    ensures { SeatsChangeNothing }
{}

/// The results of a ticket that a seat took, over what it has seen, stay its results, whatever follows. The seat that takes a
/// ticket holds it, by its own entries, and what a seat holds so is under way.
pub fn tickets_of_seats()
    ensures stay { ResultsStay }
    ensures held { TakersHold }
    ensures under_way { HeldIsUnderWay }
{}

/// What arrived at a stream is what its seat made arrive, and it is closed where its seat closed it.
pub fn streams_of_seats()
    ensures elements { ElementsAreOwn }
    ensures closings { ClosingsAreOwn }
{}

/// A drain of a seat adds what was not drained to what its drains handed out before, and no other entry adds anything.
pub fn drains_of_seats()
    ensures { DrainsAdd }
{}

/// The stop that is kept after a history, and whether a halt came, are read off the list, whatever the plan is.
pub fn stops_are_listed()
    ensures stop { StopsAreListed }
    ensures halt { HaltsAreListed }
{}

/// An event at which the node where it begins hands up nothing goes beyond no limit, as a take.
pub fn quiet_events_go_beyond_nothing()
    ensures quiet { QuietEventsStayWithin }
    ensures takes { TakesStayWithin }
{}
