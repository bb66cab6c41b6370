// Laws of the history of a script.
ghost use Rattle.pj_plan.specs.Sound.{IsSoundPlan};
ghost use Rattle.pj_laws.specs.HistoryLaws.{AllAreCertified};
ghost use Rattle.pj_core.specs.Plans.{RunPlan, nodes_of};
ghost use Rattle.pj_script_laws.specs.Laws.{ScriptedIsAnswer, ScriptedIsComplete, ScriptedIsLawful, ScriptedIsLegal, ScriptedLimitsTell};

/// Let the plan be sound and its joins certified. Take the steps of a script that fits it, one by one as far as each is enabled,
/// over accepted elements of each stream; where all are, let what is under way be given and the run be settled, and let the streams
/// go on in rounds. The history is legal, stops nowhere, and hands out no row that matches a punctuation before it. Where every
/// step was enabled it is complete: every element and closing arrived, every ticket is given, and no punctuation waits. Its rows
/// and its punctuations are then the plan's, as bags, however the script ordered arrivals, takes, gives, sweeps and drains. Where
/// the history goes beyond a limit on the number of elements at a node, it is a join or a group, and more elements come to it in
/// all.
pub fn scripted_histories()
    ensures legal { (plan : RunPlan) → IsSoundPlan plan.nodes → AllAreCertified (nodes_of plan) → ScriptedIsLegal (nodes_of plan) }
    ensures complete { (plan : RunPlan) → IsSoundPlan plan.nodes → AllAreCertified (nodes_of plan) → ScriptedIsComplete (nodes_of plan) }
    ensures answer { (plan : RunPlan) → IsSoundPlan plan.nodes → AllAreCertified (nodes_of plan) → ScriptedIsAnswer (nodes_of plan) }
    ensures lawful { (plan : RunPlan) → IsSoundPlan plan.nodes → AllAreCertified (nodes_of plan) → ScriptedIsLawful (nodes_of plan) }
    ensures limits { (plan : RunPlan) → IsSoundPlan plan.nodes → AllAreCertified (nodes_of plan) → ScriptedLimitsTell (nodes_of plan) }
{}
