// Laws of a core's plan: of its answers, and of its histories.
ghost use Rattle.std.specs.Prelude.{List};
ghost use Rattle.pj_value.specs.declared.values.Value.{Value};
ghost use Rattle.pj_events.specs.Patterns.{Pattern};
ghost use Rattle.pj_plan.specs.Sound.{IsSoundPlan};
ghost use Rattle.pj_laws.specs.HistoryLaws.{AllAreCertified};
ghost use Rattle.pj_laws.specs.SettlingHistories.{NoneIsLeft, SettlingIsComplete};
ghost use Rattle.pj_core_laws.specs.Answers.{AnswersArePlain, CountedArePlain, CountsArePlain, PunctuationsArePlain};
ghost use Rattle.pj_core.specs.Calls.{FitWhatIsUnderWay, GivesMayFollow, OpensWhatIsUnderWay, SweepsMayFollow};
ghost use Rattle.pj_core.specs.Cores.{CoreState, nodes_in};
ghost use Rattle.pj_core.specs.Plans.{RunPlan, nodes_of};
ghost use Rattle.pj_core_laws.specs.Settling.{SettledIsComplete, WorkSettles};

/// What histories call a plan's answer, over the nodes that it is run by, is the answer over the plan's own nodes, whatever rows
/// came at its streams; so are its punctuations, the number of elements that come to a node in all, and which nodes count them.
/// Which certificates it is run with, and whether removed rows are noted, changes nothing.
pub fn answers_are_plain()
    ensures rows { (plan : RunPlan) (lists : List (List (List Value))) → AnswersArePlain plan lists }
    ensures punctuations { (plan : RunPlan) (lists : List (List (List Pattern))) → PunctuationsArePlain plan lists }
    ensures counts { (plan : RunPlan) (rows : List (List (List Value))) (puncts : List (List (List Pattern))) → CountsArePlain plan rows puncts }
    ensures counted { (plan : RunPlan) → CountedArePlain plan }
{}

/// Take a legal history without a stop in which every stream is closed, with sweeps at any places. Let all probes be done, so
/// that every tuple at every join is given, and then let each join in order be swept input by input, all probes being done after
/// each sweep. Drains, halts, looks and idle calls may stand between. The history is then complete. All probes are done where no
/// ticket is pending and every take has its give.
pub fn settling()
    ensures done { (plan : RunPlan) → NoneIsLeft (nodes_of plan) }
    ensures settles { (plan : RunPlan) → IsSoundPlan plan.nodes → AllAreCertified (nodes_of plan) → SettlingIsComplete (nodes_of plan) }
{}

/// What `Core::settle` makes settles the run. Let a core stand for a history in which every stream is closed and each take has
/// its give, in whatever order tickets were given, and whatever was swept, drained and looked at between. All probes and sweeps
/// that are made behind it are those that `settling` asks for; and once they are made, with the drain behind them, the history is
/// complete: every tuple at every join is given, no punctuation waits, and nothing stopped.
pub fn work_settles()
    ensures settles { (core : CoreState) → IsSoundPlan core.plan.nodes → WorkSettles core }
    ensures completes { (core : CoreState) → IsSoundPlan core.plan.nodes → AllAreCertified (nodes_in core) → SettledIsComplete core }
{}

/// A probe may be given to a core while its ticket was taken and not given by any history that the core stands for, whatever
/// arrived, was swept, taken and given meanwhile; and its results have as many columns as its join.
pub fn probes_under_way()
    ensures opens { OpensWhatIsUnderWay }
    ensures fits { FitWhatIsUnderWay }
{}

/// The sweeps and the gives of a core that goes on are allowed in any history that it stands for: a sweep of each input of a join
/// where the plan is certified, and a give of each ticket that is under way. So a limit that stops one of them stops a step that
/// was allowed.
pub fn steps_are_allowed()
    ensures sweeps { (core : CoreState) → IsSoundPlan core.plan.nodes → AllAreCertified (nodes_in core) → SweepsMayFollow core }
    ensures gives { (core : CoreState) → IsSoundPlan core.plan.nodes → GivesMayFollow core }
{}
