// Laws of plans that are trees: what a node hands up climbs.
ghost use Rattle.std.specs.Prelude.{ℕ, ◌≡◌, List, []};
ghost use Rattle.pj_events.specs.Join.{AreDistinct};
ghost use Rattle.pj_events.specs.Plan.{ArePlanned, Local, Node};
ghost use Rattle.pj_events.specs.declared.events.Entry.{Entry};
ghost use Rattle.pj_events.specs.declared.events.Event.{Event};
ghost use Rattle.pj_events.specs.History.{nodes_from};
ghost use Rattle.pj_laws.specs.Climb.{all_inputs, ClimbsOn, EventClimbs, HasOneTop, IsTree, LeavesNodes, StepsClimb};
ghost use Rattle.pj_laws.specs.ClimbLimits.{BeyondIsClimbed, LevelsClimb};
ghost use Rattle.pj_laws.specs.ClimbKept.{AddsClimb, JoinsClimb, StoresGrow};

/// A step at one node of a tree is that node's step and a climb of what it hands up: from node to node above, one element
/// after the other. Under a limit the levels above a node are those of the nodes after the climb.
pub fn climbs_of_steps()
    ensures steps { (nodes : List Node) → IsTree nodes → StepsClimb nodes }
    ensures leaves { (nodes : List Node) → IsTree nodes → (n : ℕ) (l : Local) → LeavesNodes nodes n l }
    ensures goes_on { (nodes : List Node) → IsTree nodes → ClimbsOn nodes }
    ensures levels { (nodes : List Node) → IsTree nodes → (reached : ℕ → ℕ) (limit : ℕ) → LevelsClimb nodes reached limit }
{}

/// A tree stays one, and one more entry behind a history of it adds its climb to what is kept, counted and handed out.
pub fn climbs_of_histories()
    ensures trees { (plan : List Node) → ArePlanned [] plan → AreDistinct (all_inputs plan) → IsTree plan }
    ensures stays { (plan : List Node) → IsTree plan → (history : List Entry) → IsTree (nodes_from plan history) }
    ensures tops { (plan : List Node) → HasOneTop plan → (history : List Entry) → HasOneTop (nodes_from plan history) }
    ensures events { (nodes : List Node) → IsTree nodes → (event : Event) → EventClimbs nodes event }
    ensures adds { (plan : List Node) → IsTree plan → (history : List Entry) (entry : Entry) → AddsClimb plan history entry }
    ensures joins { (plan : List Node) → ArePlanned [] plan → IsTree plan → JoinsClimb plan }
    ensures stores { (nodes : List Node) → StoresGrow nodes }
    ensures beyond { (limit : ℕ) (plan : List Node) → IsTree plan → (history : List Entry) (event : Event) → BeyondIsClimbed limit plan history event }
{}
