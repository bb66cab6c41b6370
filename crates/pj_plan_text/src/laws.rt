// Laws of the plan language, as contracts of functions that do nothing.
ghost use Rattle.pj_plan_text.specs.Laws.{StatementsAreReadAgain};

/// A statement that is no bad one is read again from its canonical line, where that has at most 128 cells and 65,536 bytes.
#[tactic(auto, using(crate::proofs::LinesAgain::statement_again))]
pub fn statements_are_read_again()
    ensures { StatementsAreReadAgain }
{}
