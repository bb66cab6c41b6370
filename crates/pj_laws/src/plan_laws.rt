// Laws of whole plans, over lists of their steps.
ghost use Rattle.std.specs.Prelude.{◌≡◌, ◌↔◌, List, []};
ghost use Rattle.pj_events.specs.Plan.{Node, ArePlanned, CompleteAnswers, PlanIsLawful, RowsAreAnswers};

/// No node of a well-made plan hands up a row that matches a punctuation that it handed up before.
pub fn plan_lawfulness()
    ensures { (nodes : List Node) → ArePlanned [] nodes → PlanIsLawful nodes }
{}

/// In a plan whose joins have given every tuple and whose groups hold no row, with or without sweeps, the rows that
/// each node has handed up are its nested-loop answer over all that arrived, as a bag.
pub fn plan_answers()
    ensures { (nodes : List Node) → ArePlanned [] nodes → RowsAreAnswers nodes }
{}

/// After a complete run, with sweeps at any places, the rows that each node has handed up are its nested-loop answer
/// over all that arrived, as a bag.
pub fn complete_answers()
    ensures { (nodes : List Node) → ArePlanned [] nodes → CompleteAnswers nodes }
{}
