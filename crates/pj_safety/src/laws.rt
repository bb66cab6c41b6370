// Laws of safe plans, as the contracts of a function that does nothing.
ghost use Rattle.pj_safety.specs.Laws.{JudgedByNodes, RiskIsAlone, RiskIsUnsafe};

/// All nodes of a plan are safe exactly where all its joins are, by the derived schemes of their inputs. A plan with a first node
/// that is at a risk is not safe, and no other node and no other risk is its first.
pub fn plans_are_judged_by_nodes()
    ensures joins { JudgedByNodes }
    ensures at_risk { RiskIsUnsafe }
    ensures alone { RiskIsAlone }
{}
