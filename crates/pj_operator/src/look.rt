// Numbers of all nodes of a core.
ghost use Rattle.std.specs.Prelude.{◌≡◌, ◌+◌, []};
ghost use Rattle.pj_operator.specs.Operators.{kept_seen, pending_kept};
ghost use Rattle.pj_operator.specs.Looks.{AddsNode, AreAddable, AreFew, AreWith, opened_kept, waiting_kept};

use crate::operator::{OperatorState, RunningOperator};

/// Sums over all nodes: of tickets that are pending, of those that are taken and not given, of tuples that are stored, and of
/// punctuations that wait.
#[derive(Clone, Copy, Debug, PartialEq, Eq)]
pub struct Sums {
    pub pending: u64,
    pub taken: u64,
    pub stored: u64,
    pub waiting: u64,
}

impl OperatorState {
    // How many tickets are taken and not given.
    fn taken(&self) -> u64
        ensures { result + pending_kept (kept_seen self.now) ≡ opened_kept (kept_seen self.now) }
    {
        match self.as_join() {
            Some(join) => join.taken(),
            None => 0,
        }
    }

    // How many punctuations wait.
    fn waiting(&self) -> u64
        ensures { result ≡ waiting_kept (kept_seen self.now) }
    {
        match self.as_join() {
            Some(join) => join.waiting(),
            None => 0,
        }
    }
}

/// The sums of these nodes.
pub fn sums_of(operators: &[RunningOperator]) -> Sums
    requires { AreFew operators.now }
    ensures { AreWith result [] operators.now }
{
    let mut sums = Sums {
        pending: 0,
        taken: 0,
        stored: 0,
        waiting: 0,
    };
    for operator in operators {
        sums = sums.with(&operator.state);
    }
    sums
}

impl Sums {
    // With one node more.
    fn with(self, state: &OperatorState) -> Sums
        requires { AreAddable self state.now }
        ensures { AddsNode self result state.now }
    {
        Sums {
            pending: self.pending + state.pending(),
            taken: self.taken + state.taken(),
            stored: self.stored + state.stored(),
            waiting: self.waiting + state.waiting(),
        }
    }
}
