// Laws of whole histories of a plan.
ghost use Rattle.std.specs.Prelude.{◌<◌, ◌≡◌, true, false, List, [], length};
ghost use Rattle.pj_events.specs.Plan.{Node, ArePlanned};
ghost use Rattle.pj_pattern.specs.declared.element.Element.{Element};
ghost use Rattle.pj_events.specs.declared.events.Entry.{Entry};
ghost use Rattle.pj_events.specs.History.{nodes_from};
ghost use Rattle.pj_laws.specs.HistoryLaws.{AddsEntry, AllAreCertified, CompleteIsAnswer, CompleteIsPuncts, DrainsHandOutAll, FrontsAreLegal, GivenIsAnswer, GrowsLegally, HandsOutLawfully, HasNoGroup, AreAcceptedLists, IsWholeRun, JoinFollows, JoinRuns, NeverRetracts, NoneIsPending, OneThreadIsAnswer, ProbesGoOn, RoundsGoOn, StreamsHold, SweptIsComplete, SweptIsPuncts, TicketsCount, TraceAddsNotes, TurnsGoOn};
ghost use Rattle.pj_laws.specs.Finality.{AnswerGoesOn, EmptiedIsAnswer, IsAmongArrived, IsFinal, IsFinalWhereAccepted};

/// No row that a legal history hands out matches a punctuation that was handed out before it.
pub fn history_lawfulness()
    ensures { (plan : List Node) → ArePlanned [] plan → 0 < length plan → HandsOutLawfully plan }
{}

/// Once every tuple is given, the rows handed out are the plan's nested-loop answer over all that arrived, as a bag:
/// in a plan without groups whether or not sweeps were made, in any plan where its groups hold no row, and once the history
/// is complete.
pub fn history_answers()
    ensures given { (plan : List Node) → ArePlanned [] plan → 0 < length plan → HasNoGroup plan → GivenIsAnswer plan }
    ensures emptied { (plan : List Node) → ArePlanned [] plan → 0 < length plan → EmptiedIsAnswer plan }
    ensures complete { (plan : List Node) → ArePlanned [] plan → 0 < length plan → CompleteIsAnswer plan }
{}

/// The punctuations that a complete history hands out are those of the plan over all that arrived at its streams, as a bag,
/// and so are those of the run on one thread with sweeps over accepted elements.
pub fn history_punctuations()
    ensures complete { (plan : List Node) → ArePlanned [] plan → 0 < length plan → CompleteIsPuncts plan }
    ensures swept { (plan : List Node) → ArePlanned [] plan → 0 < length plan → AllAreCertified plan → SweptIsPuncts plan }
{}

/// What one more entry adds to a history and when it may come, what the drains of one seat hand out, and what a trace adds.
pub fn history_steps()
    ensures grows { (plan : List Node) → GrowsLegally plan }
    ensures fronts { (plan : List Node) → FrontsAreLegal plan }
    ensures trace { (plan : List Node) (history : List Entry) → TraceAddsNotes plan history }
    ensures adds { (plan : List Node) (history : List Entry) (entry : Entry) → AddsEntry plan history entry }
    ensures drains { (plan : List Node) → DrainsHandOutAll plan }
{}

/// In a plan without groups, at any moment the rows handed out are among those of the answer over all that the streams will
/// bring, as bags, whatever that is.
pub fn never_retracted()
    ensures { (plan : List Node) → ArePlanned [] plan → 0 < length plan → HasNoGroup plan → NeverRetracts plan }
{}

/// In any plan, at any moment, and however the streams go on lawfully: the rows handed out are among those of the answer over
/// the whole, as bags, so a group's row is final too. The rows still to come match no punctuation that was handed out.
pub fn finality()
    ensures rows { (plan : List Node) → ArePlanned [] plan → 0 < length plan → IsFinal plan }
    ensures goes_on { (plan : List Node) → ArePlanned [] plan → 0 < length plan → AnswerGoesOn plan }
    ensures accepted { (plan : List Node) → ArePlanned [] plan → 0 < length plan → IsFinalWhereAccepted plan }
    ensures arrived { (plan : List Node) → ArePlanned [] plan → 0 < length plan → IsAmongArrived plan }
{}

/// What an event makes of each join of a plan, what a history makes of it, and how its tickets count what has reached it.
pub fn joins_of_histories()
    ensures follow { (plan : List Node) → ArePlanned [] plan → (history : List Entry) → JoinFollows (nodes_from plan history) }
    ensures runs { (plan : List Node) → ArePlanned [] plan → JoinRuns plan }
    ensures tickets { (plan : List Node) → ArePlanned [] plan → TicketsCount plan }
{}

/// The history of a run on one thread over accepted elements, without sweeps, or with them where all joins have
/// certificates: it is legal and whole, and in a plan without groups its rows are the nested-loop answer, as a bag.
/// With sweeps, where all joins hand up punctuations too, it is complete, and in any plan its rows are that answer.
pub fn one_thread()
    ensures whole { (plan : List Node) → ArePlanned [] plan → (lists : List (List Element)) → AreAcceptedLists plan lists → IsWholeRun false plan lists }
    ensures answer { (plan : List Node) → ArePlanned [] plan → 0 < length plan → HasNoGroup plan → OneThreadIsAnswer false plan }
    ensures swept_whole { (plan : List Node) → ArePlanned [] plan → AllAreCertified plan → (lists : List (List Element)) → AreAcceptedLists plan lists → IsWholeRun true plan lists }
    ensures swept_answer { (plan : List Node) → ArePlanned [] plan → 0 < length plan → HasNoGroup plan → AllAreCertified plan → OneThreadIsAnswer true plan }
    ensures swept_complete { (plan : List Node) → ArePlanned [] plan → 0 < length plan → AllAreCertified plan → SweptIsComplete plan }
    ensures swept_groups { (plan : List Node) → ArePlanned [] plan → 0 < length plan → AllAreCertified plan → OneThreadIsAnswer true plan }
{}

/// At any moment all probes are the next one and then all probes, and there is a next one where a ticket is pending.
pub fn probing()
    ensures go_on { (plan : List Node) → ArePlanned [] plan → (history : List Entry) → ProbesGoOn (nodes_from plan history) }
    ensures pending { (nodes : List Node) → NoneIsPending nodes }
{}

/// A stream has been fed what arrived at it, and the run on one thread goes turn by turn and round by round.
pub fn turns()
    ensures streams { (plan : List Node) → ArePlanned [] plan → StreamsHold plan }
    ensures turn_by_turn { TurnsGoOn }
    ensures round_by_round { RoundsGoOn }
{}
