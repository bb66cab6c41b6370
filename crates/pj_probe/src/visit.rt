// Who is shown the combinations of a walk.
ghost use Rattle.std.specs.Prelude.{◌≡◌, Bool, List, [], ◌∷◌, IsTrue, OnOk, OnErr};
ghost use Rattle.pj_value.specs.declared.values.Value.{Value};
ghost use Rattle.pj_probe.specs.Walks.{end_to_end};
ghost use Rattle.pj_probe.specs.Visits.{Grows};

use crate::Joined;
use pj_value::NoMemory;

/// Is shown combinations of rows that join, one after the other. It is seen as the list of the joined rows that it has
/// taken, where it tells that. One that no longer tells its list never does again.
pub trait Visit {
    /// Whether it tells its list.
    ghost told: { Self → Bool };

    /// The joined rows that it has taken.
    ghost list: { Self → List (List Value) };

    /// Takes a combination. On a refusal its list is as it was, and the walk ends.
    fn joined(&mut self, parts: Joined<'_>) -> Result<(), NoMemory>
        ensures told { IsTrue (told self.new) → IsTrue (told self.old) }
        ensures ok { OnOk result (Grows (told self.new) (list self.old) (list self.new) (end_to_end parts.entry ∷ [])) }
        ensures err { OnErr result (Grows (told self.new) (list self.old) (list self.new) []) };
}
