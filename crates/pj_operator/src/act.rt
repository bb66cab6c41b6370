// What the joins of a core do of their own.
ghost use Rattle.std.specs.Prelude.{None, ◌≡◌, ◌<◌, ◌≤◌, length, map, take, IfOk, IfErr, IfSome, OnOk, OnErr};
ghost use Rattle.std.specs.Borrow.{sem};
ghost use Rattle.pj_events.specs.Join.{Give};
ghost use Rattle.pj_pattern.specs.declared.element.Element.TheVariants.{Tuple};
ghost use Rattle.pj_operator.specs.Operators.{AreLinked, IsOrderly, KeepsOpen, running_at, frame_of, frames_in, kept_seen, kind_of, stored_kept, IsTakenIn, pending_kept};
ghost use Rattle.pj_operator.specs.Emitting.{AreOrderly, MayEmit, StayOpen};
ghost use Rattle.pj_operator.specs.Looks.{HasNoNumbers};
ghost use Rattle.pj_operator.specs.Lent.{HasNoJoin, LendsJoin};
ghost use Rattle.pj_operator.specs.Acts.{OperatorSwept, HasGivenAt, HasGivenOn, HasJoinInput, HasSweptAt, IsGiveStop, IsProbeStop, IsSweepStop, JoinActs, JoinSwept, ProbesOn, TakesFirst, StateProbes, StateTakes, first_pending};

use crate::emitting::emit_each;
use crate::handed::hand_out_notes;
use crate::operator::{Emitted, OperatorState, RunningOperator};
use pj_events::{Out, Stop};
use pj_join::{Join, Probe};
use pj_pattern::Punct;
use pj_value::{List, NoMemory, Row};
use std::alloc::Global;

/// What a sweep did: how many tuples it removed, their rows, and the punctuations that go up.
#[derive(Drop)]
pub struct Swept {
    pub count: u64,
    pub removed: List<Row>,
    pub puncts: List<Punct>,
}

impl RunningOperator {
    /// Sweeps an input of the join that the node is, and raises its peak before.
    pub fn sweep(&mut self, alloc: Global, input: u32) -> Result<Swept, NoMemory>
        requires { HasJoinInput self.old.state input }
        ensures ok { IfOk result (λ swept. OperatorSwept self.old self.new input swept) }
        ensures open { OnOk result (KeepsOpen self.old.state self.new.state) }
        ensures frame { frame_of self.new ≡ frame_of self.old }
        ensures err { OnErr result (self.new.state ≡ self.old.state) }
    {
        let stored = self.state.stored();
        if self.peak < stored {
            self.peak = stored;
        }
        self.state.sweep(alloc, input)
    }
}

impl OperatorState {
    /// Takes the least ticket that is pending; `None` where none is. On a refusal all is as before.
    #[tactic(auto, using(crate::proofs::Joins::state_takes, crate::proofs::Joins::takes_none, crate::proofs::Joins::took_keeps, crate::proofs::Joins::keeps_same))]
    pub fn take(&mut self) -> Result<Option<Probe>, NoMemory>
        ensures ok { IfOk result (λ answer. StateTakes self.old self.new answer) }
        ensures open { OnOk result (KeepsOpen self.old self.new) }
        ensures kind { kind_of self.new ≡ kind_of self.old }
        ensures err { OnErr result (self.new ≡ self.old) }
    {
        match self.as_join_mut() {
            None => Ok(None),
            Some(join) => join.take(),
        }
    }

    /// Gives the ticket of a probe, which was taken here and is not given.
    #[tactic(auto, using(crate::proofs::Joins::gave_orderly, crate::proofs::Joins::gives_none))]
    pub fn give(&mut self, probe: Probe)
        requires { IsTakenIn (kept_seen self.old) probe.ticket }
        ensures acts { JoinActs self.old self.new (Give probe.ticket) }
        ensures orderly { IsOrderly self.old → IsOrderly self.new }
        ensures kind { kind_of self.new ≡ kind_of self.old }
    {
        match self.as_join_mut() {
            None => {},
            Some(join) => join.give(probe),
        }
    }

    /// Takes the least ticket that is pending, puts the rows that its work finds at the end of `rows`, and gives it; `None`
    /// where none is pending. On a refusal all is as before.
    #[tactic(auto, using(crate::proofs::Joins::state_probes, crate::proofs::Joins::probes_none, crate::proofs::Joins::probed_orderly))]
    pub fn probe(&mut self, rows: &mut List<Out>) -> Result<Option<u64>, NoMemory>
        ensures ok { IfOk result (λ answer. StateProbes self.old self.new rows.old rows.new answer) }
        ensures orderly { OnOk result (IsOrderly self.old → IsOrderly self.new) }
        ensures kind { kind_of self.new ≡ kind_of self.old }
        ensures err { OnErr result ((self.new ≡ self.old) × (rows.new ≡ rows.old)) }
    {
        match self.as_join_mut() {
            None => Ok(None),
            Some(join) => join.probe_next(rows),
        }
    }

    /// Sweeps an input of the join that it is. On a refusal all is as before.
    #[tactic(auto, using(crate::proofs::Joins::swept_keeps, crate::proofs::Joins::sweeps_none, crate::proofs::Joins::keeps_same))]
    pub fn sweep(&mut self, alloc: Global, input: u32) -> Result<Swept, NoMemory>
        requires { HasJoinInput self.old input }
        ensures ok { IfOk result (λ swept. JoinSwept self.old self.new input swept) }
        ensures open { OnOk result (KeepsOpen self.old self.new) }
        ensures kind { kind_of self.new ≡ kind_of self.old }
        ensures err { OnErr result (self.new ≡ self.old) }
    {
        let mut removed = List::new(alloc);
        let mut puncts = List::new(alloc);
        let count = match self.as_join_mut() {
            None => 0,
            Some(join) => join.sweep(input, &mut removed, &mut puncts)?,
        };
        Ok(Swept {
            count,
            removed,
            puncts,
        })
    }

    // The join that it is; `None` where it is none, and then it has no numbers of a join.
    pub(crate) fn as_join(&self) -> Option<&Join>
        ensures join { IfSome result (λ join. self.now ≡ OperatorState.Join join.now) }
        ensures none { result ≡ None → HasNoNumbers (kept_seen self.now) }
    {
        match self {
            OperatorState::Stream => None,
            OperatorState::Select(_test) => None,
            OperatorState::Project(_columns) => None,
            OperatorState::Union(_union) => None,
            OperatorState::Join(join) => Some(join),
            OperatorState::Group(_group) => None,
        }
    }

    // The same, lent for a change.
    fn as_join_mut(&mut self) -> Option<&mut Join>
        ensures* lends { sem 𝓛 (LendsJoin self.entry result) }
        ensures join { IfSome result (λ join. self.old ≡ OperatorState.Join join.now) }
        ensures none { result ≡ None → HasNoJoin self.old }
    {
        match self {
            OperatorState::Stream => None,
            OperatorState::Select(_test) => None,
            OperatorState::Project(_columns) => None,
            OperatorState::Union(_union) => None,
            OperatorState::Join(join) => Some(join),
            OperatorState::Group(_group) => None,
        }
    }

    /// How many tuples are stored.
    pub fn stored(&self) -> u64
        ensures { result ≡ stored_kept (kept_seen self.now) }
    {
        match self.as_join() {
            Some(join) => join.stored(),
            None => 0,
        }
    }

    /// How many tickets are pending.
    pub fn pending(&self) -> u64
        ensures { result ≡ pending_kept (kept_seen self.now) }
    {
        match self.as_join() {
            Some(join) => join.pending(),
            None => 0,
        }
    }
}

/// The first node at which a ticket is pending.
#[tactic(auto, using(crate::proofs::Firsts::found_here, crate::proofs::Firsts::found_later))]
pub fn next_pending(operators: &[RunningOperator]) -> Option<u32>
    requires { length operators.now ≤ 64 }
    ensures { result ≡ first_pending 0 operators.now }
{
    let mut number = 0;
    for operator in operators {
        if operator.state.pending() != 0 {
            return Some(number);
        }
        number += 1;
    }
    None
}

/// Takes the least ticket that is pending at the first node that has one; `None` where none is. On a refusal all is as before.
pub fn take_first(operators: &mut [RunningOperator]) -> Result<Option<Probe>, NoMemory>
    requires { length operators.old ≤ 64 }
    ensures ok { IfOk result (λ answer. TakesFirst operators.old operators.new answer) }
    ensures frames { frames_in operators.new ≡ frames_in operators.old }
    ensures opens { OnOk result (StayOpen operators.old operators.new) }
    ensures err { OnErr result (operators.new ≡ operators.old) }
{
    match next_pending(operators) {
        None => Ok(None),
        Some(place) => operators[place as usize].state.take(),
    }
}

/// Gives the ticket of a probe, which was taken at its join and is not given.
pub fn give_at(operators: &mut [RunningOperator], probe: Probe)
    requires there { probe.join < length operators.old }
    requires open { IsTakenIn (kept_seen (running_at operators.old probe.join).state) probe.ticket }
    ensures gives { HasGivenAt operators.old operators.new probe }
    ensures frames { frames_in operators.new ≡ frames_in operators.old }
    ensures orderly { AreOrderly operators.old → AreOrderly operators.new }
{
    let place = probe.join();
    operators[place as usize].state.give(probe);
}

/// Gives the ticket of a probe, which was taken at its join and is not given, and emits these rows, as far as they go. They have
/// as many columns as the join emits. On a refusal `outs` is as before.
pub fn give_found(
    alloc: Global,
    operators: &mut [RunningOperator],
    probe: Probe,
    rows: List<Row>,
    outs: &mut List<Out>,
) -> Result<(), Stop>
    requires there { probe.join < length operators.old }
    requires open { IsTakenIn (kept_seen (running_at operators.old probe.join).state) probe.ticket }
    requires may { MayEmit operators.old probe.join (map Tuple rows) }
    ensures ok { OnOk result (HasGivenOn (record { operators = operators.old; outs = outs.old }) (record { operators = operators.new; outs = outs.new }) probe rows) }
    ensures err { IfErr result (λ stop. IsGiveStop operators.old probe rows stop) }
    ensures frames { frames_in operators.new ≡ frames_in operators.old }
    ensures orderly { AreOrderly operators.old → AreOrderly operators.new }
    ensures refused { OnErr result (outs.new ≡ outs.old) }
{
    let before = outs.len();
    let from = probe.join();
    give_at(operators, probe);
    match emit_each(alloc, operators, from, Emitted::of_rows(rows), outs) {
        Ok(()) => Ok(()),
        Err(stop) => {
            outs.truncate(before);
            Err(stop)
        }
    }
}

/// Takes the least ticket that is pending at this node, emits what its work finds, as far as it goes, and gives it; `false`
/// where none is pending there. On a refusal `outs` is as before.
pub fn probe_on(
    alloc: Global,
    operators: &mut [RunningOperator],
    place: u32,
    outs: &mut List<Out>,
) -> Result<bool, Stop>
    requires linked { AreLinked (frames_in operators.old) }
    requires orderly { AreOrderly operators.old }
    ensures ok { IfOk result (λ more. ProbesOn more (record { operators = operators.old; outs = outs.old }) (record { operators = operators.new; outs = outs.new }) place) }
    ensures err { IfErr result (λ stop. IsProbeStop operators.old place stop) }
    ensures frames { frames_in operators.new ≡ frames_in operators.old }
    ensures orderly { AreOrderly operators.old → AreOrderly operators.new }
    ensures refused { OnErr result (outs.new ≡ outs.old) }
{
    let before = outs.len();
    match probe_in(alloc, operators, place, outs) {
        Ok(more) => Ok(more),
        Err(stop) => {
            outs.truncate(before);
            Err(stop)
        }
    }
}

fn probe_in(
    alloc: Global,
    operators: &mut [RunningOperator],
    place: u32,
    outs: &mut List<Out>,
) -> Result<bool, Stop>
    requires linked { AreLinked (frames_in operators.old) }
    requires orderly { AreOrderly operators.old }
    ensures ok { IfOk result (λ more. ProbesOn more (record { operators = operators.old; outs = outs.old }) (record { operators = operators.new; outs = outs.new }) place) }
    ensures err { IfErr result (λ stop. IsProbeStop operators.old place stop) }
    ensures frames { frames_in operators.new ≡ frames_in operators.old }
    ensures orderly { AreOrderly operators.old → AreOrderly operators.new }
    ensures front { take (length outs.old) outs.new ≡ outs.old }
{
    if place as usize >= operators.len() {
        return Ok(false);
    }
    if operators[place as usize].state.pending() == 0 {
        return Ok(false);
    }
    match operators[place as usize].above {
        None => probe_out(operators, place, outs),
        Some(_above) => probe_up(alloc, operators, place, outs),
    }
}

// A probe of the last node: what it finds is handed out.
fn probe_out(
    operators: &mut [RunningOperator],
    place: u32,
    outs: &mut List<Out>,
) -> Result<bool, Stop>
    requires there { place < length operators.old }
    requires top { (running_at operators.old place).above ≡ None }
    requires some { 0 < pending_kept (kept_seen (running_at operators.old place).state) }
    ensures ok { IfOk result (λ more. ProbesOn more (record { operators = operators.old; outs = outs.old }) (record { operators = operators.new; outs = outs.new }) place) }
    ensures err { IfErr result (λ stop. IsProbeStop operators.old place stop) }
    ensures frames { frames_in operators.new ≡ frames_in operators.old }
    ensures orderly { AreOrderly operators.old → AreOrderly operators.new }
    ensures front { take (length outs.old) outs.new ≡ outs.old }
{
    match operators[place as usize].state.probe(outs) {
        Ok(None) => Ok(false),
        Ok(Some(_ticket)) => Ok(true),
        Err(NoMemory) => Err(Stop::NoMemory),
    }
}

// A probe of any other node: it emits what it finds.
fn probe_up(
    alloc: Global,
    operators: &mut [RunningOperator],
    place: u32,
    outs: &mut List<Out>,
) -> Result<bool, Stop>
    requires there { place < length operators.old }
    requires linked { AreLinked (frames_in operators.old) }
    requires orderly { AreOrderly operators.old }
    requires some { 0 < pending_kept (kept_seen (running_at operators.old place).state) }
    ensures ok { IfOk result (λ more. ProbesOn more (record { operators = operators.old; outs = outs.old }) (record { operators = operators.new; outs = outs.new }) place) }
    ensures err { IfErr result (λ stop. IsProbeStop operators.old place stop) }
    ensures frames { frames_in operators.new ≡ frames_in operators.old }
    ensures orderly { AreOrderly operators.old → AreOrderly operators.new }
    ensures front { take (length outs.old) outs.new ≡ outs.old }
{
    let mut found = List::new(alloc);
    match operators[place as usize].state.probe(&mut found) {
        Ok(None) => Ok(false),
        Ok(Some(_ticket)) => match emit_each(
            alloc,
            operators,
            place,
            Emitted::of_found(found),
            outs,
        ) {
            Ok(()) => Ok(true),
            Err(stop) => Err(stop),
        },
        Err(NoMemory) => Err(Stop::NoMemory),
    }
}

/// Sweeps an input of the join at this place: with a trace the rows that it removes are noted, and the punctuations that it lets go are emitted. Answers
/// how many rows it removed.
pub fn sweep_at(
    alloc: Global,
    operators: &mut [RunningOperator],
    place: u32,
    input: u32,
    trace: bool,
    outs: &mut List<Out>,
) -> Result<u64, Stop>
    requires there { place < length operators.old }
    requires input { HasJoinInput (running_at operators.old place).state input }
    requires linked { AreLinked (frames_in operators.old) }
    requires orderly { AreOrderly operators.old }
    ensures ok { IfOk result (λ count. HasSweptAt trace (record { operators = operators.old; outs = outs.old }) (record { operators = operators.new; outs = outs.new }) place input count) }
    ensures err { IfErr result (λ stop. IsSweepStop trace (record { operators = operators.old; outs = outs.old }) place input stop) }
    ensures frames { frames_in operators.new ≡ frames_in operators.old }
    ensures opens { StayOpen operators.old operators.new }
    ensures refused { OnErr result (outs.new ≡ outs.old) }
{
    let before = outs.len();
    match sweep_on(alloc, operators, place, input, trace, outs) {
        Ok(count) => Ok(count),
        Err(stop) => {
            outs.truncate(before);
            Err(stop)
        }
    }
}

fn sweep_on(
    alloc: Global,
    operators: &mut [RunningOperator],
    place: u32,
    input: u32,
    trace: bool,
    outs: &mut List<Out>,
) -> Result<u64, Stop>
    requires there { place < length operators.old }
    requires input { HasJoinInput (running_at operators.old place).state input }
    requires linked { AreLinked (frames_in operators.old) }
    requires orderly { AreOrderly operators.old }
    ensures ok { IfOk result (λ count. HasSweptAt trace (record { operators = operators.old; outs = outs.old }) (record { operators = operators.new; outs = outs.new }) place input count) }
    ensures err { IfErr result (λ stop. IsSweepStop trace (record { operators = operators.old; outs = outs.old }) place input stop) }
    ensures frames { frames_in operators.new ≡ frames_in operators.old }
    ensures opens { StayOpen operators.old operators.new }
    ensures front { take (length outs.old) outs.new ≡ outs.old }
{
    match operators[place as usize].sweep(alloc, input) {
        Ok(
            Swept {
                count,
                removed,
                puncts,
            },
        ) => match hand_out_notes(outs, trace, place, input, removed) {
            Ok(()) => match emit_each(alloc, operators, place, Emitted::of_puncts(puncts), outs) {
                Ok(()) => Ok(count),
                Err(stop) => Err(stop),
            },
            Err(NoMemory) => Err(Stop::NoMemory),
        },
        Err(NoMemory) => Err(Stop::NoMemory),
    }
}
