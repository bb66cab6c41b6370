// What a sweep of an input leaves.
ghost use Rattle.std.specs.Prelude.{◌≡◌, ◌≤◌, ◌++◌, ◌<◌, false, length, take, OnOk, OnErr, IfOk};
ghost use Rattle.pj_value.specs.Lists.{In};
ghost use Rattle.pj_state.specs.declared.shared.Stored.{Stored};
ghost use Rattle.pj_state.specs.Rising.{IsRising};
ghost use Rattle.pj_state.specs.States.{state_of};
ghost use Rattle.pj_waiting.specs.Holding.{AreFreed, AreHeldBy, KeepsLists, StayHeld, tickets_where, held_at};
ghost use Rattle.pj_waiting.specs.Letting.{letting_go, lets_go};
ghost use Rattle.pj_recheck.specs.Judging.{ripe_rows, ripe_tickets, rows_at};
ghost use Rattle.pj_join.specs.Sweeping.{rows_without};
ghost use Rattle.pj_recheck.specs.Watching.{AreLookedAt, NoneIsRipe};

use pj_pattern::Punct;
use pj_recheck::{DueRechecks, Judge, SweepResult};
use pj_state::State;
use pj_value::{List, NoMemory, Row};
use pj_waiting::{StillWaiting, Swept, Waiting};
use std::alloc::Global;

/// What a sweep leaves: the tickets of the tuples that go, and of those that are judged again, and what is left of the
/// punctuations that wait.
#[derive(Drop)]
pub struct Left {
    pub gone: List<u64>,
    pub marked: List<u64>,
    pub waiting: StillWaiting,
}

/// Judges the stored tuples of an input. The rows of those that go are put at the end of `removed`, and the punctuations
/// that are let go at the end of `out`. After a refusal both begin as before.
#[tactic(auto, using(crate::proofs::Spared::ripe_some))]
pub fn sweep(
    judge: &Judge<'_>,
    alloc: Global,
    due: &DueRechecks,
    waiting: &mut Waiting,
    removed: &mut List<Row>,
    out: &mut List<Punct>,
) -> Result<Left, NoMemory>
    requires passed { NoneIsRipe judge.now due.now }
    requires held { AreHeldBy (rows_at judge.now) judge.now.input waiting.old }
    ensures gone { IfOk result (λ left. left.gone ≡ ripe_tickets judge.now) }
    ensures left { IfOk result (λ left. AreLookedAt judge.now due.now left.marked) }
    ensures goes { IfOk result (λ left. left.waiting.goes ≡ tickets_where (lets_go (rows_at judge.now) left.gone judge.now.input) waiting.old.puncts) }
    ensures freed { IfOk result (λ left. AreFreed left.gone left.waiting.freed) }
    ensures held { IfOk result (λ left. StayHeld (rows_at judge.now) left.gone judge.now.input waiting.new) }
    ensures puncts { waiting.new.puncts ≡ waiting.old.puncts }
    ensures keeps { KeepsLists waiting.old waiting.new }
    ensures rising { OnOk result (IsRising held_at waiting.old.puncts) }
    ensures removed { OnOk result (removed.new ≡ removed.old ++ ripe_rows judge.now) }
    ensures out { IfOk result (λ left. out.new ≡ out.old ++ letting_go judge.now.spec.inputs (rows_at judge.now) left.gone judge.now.input waiting.old.puncts) }
    ensures err { OnErr result ((take (length removed.old) removed.new ≡ removed.old) × (take (length out.old) out.new ≡ out.old)) }
{
    let judged = judge.ripe_ones(alloc, due, removed)?;
    let SweepResult { gone, marked } = judged;
    let swept = Swept {
        schemas: judge.spec.inputs.as_slice(),
        input: judge.input,
        state: &judge.row_states[judge.input as usize],
        gone: gone.as_slice(),
    };
    let waiting = swept.let_go(alloc, waiting, out)?;
    Ok(Left {
        gone,
        marked,
        waiting,
    })
}

/// Whether there is a row from a ticket on.
pub fn has_young(state: &State, from: u64) -> bool
    ensures { result ≡ false → (s : Stored) → In s state.now.rows → s.ticket < from }
{
    let count = state.len();
    if count == 0 {
        return false;
    }
    let (last, _) = state.nth(count - 1);
    last >= from
}

/// Takes the rows with these tickets out.
pub fn remove_all(state: &mut State, gone: &[u64])
    ensures { state.new ≡ state_of state.old.columns (rows_without gone.now state.old.rows) }
{
    for ticket in gone {
        state.remove(*ticket);
    }
}
