// A join of two and more inputs: its calls.
ghost use Rattle.std.specs.Prelude.{true, ◌≡◌, ◌<◌, ◌≤◌, ◌+◌, ◌^◌, ◌↔◌, All, List, [], ◌∷◌, ◌++◌, length, OnOk, OnErr, IfOk, IsErrOf, IsTrue, Err, map, take, ◌==◌};
ghost use Rattle.pj_state.specs.Rising.{IsRising};
ghost use Rattle.pj_state.specs.States.{state_of, stored};
ghost use Rattle.pj_shape.specs.Sound.{IsSoundSpec};
ghost use Rattle.pj_events.specs.Join.{AreCertified, Step, TupleComes, PunctComes, Take, Give, Sweep, IsNew, start, run, low, inputs, arity};
ghost use Rattle.pj_events.specs.KeptState.{kept_of, kept_low, swept, without};
ghost use Rattle.std.specs.List.{position};
ghost use Rattle.pj_join.specs.Held.{AreHeld, AreHeldBehind};
ghost use Rattle.pj_waiting.specs.Holding.{KeepsLists, tickets_where, held_at};
ghost use Rattle.pj_join.specs.Handed.{JoinProbes, StandsProbed, rows_probed};
ghost use Rattle.pj_join.specs.Insides.{Rise, tickets};
ghost use Rattle.pj_join.specs.Sweeping.{is_let_go, waiting_on, GoesWhereCovered, HandsUp, HasBeenLawful, IsForgotten, StaysRipeUntil, puncts_let_go, puncts_up, rows_off, swept_off};
ghost use Rattle.pj_join.specs.Joins.{IsTaken, StandsFor, JoinTakes, StandsTaken, after, with_waiting};
ghost use Rattle.pj_recheck.specs.Judging.{join_data};
ghost use Rattle.pj_join.specs.Watched.{AreOpenBut};

use crate::JoinStop;
use crate::place::{Place, first_pending};
use crate::settling::{Left, has_young, remove_all, sweep};
use crate::starting::{empty_states, empty_stores, empty_watches, purge_routes};
use pj_cover::PurgeRoute;
use pj_events::Out;
use pj_join_laws::{forgetting_is_safe, lawfulness, ripeness, standing};
use pj_pattern::Punct;
use pj_probe::{Probe, ProbeRoute, hand_out_found, probe_of, probe_routes, route_of};
use pj_puncts::PunctStore;
use pj_recheck::{
    Certified, DueRechecks, InputRoutes, Judge, keep_orders, mark_added, mark_dependents, routes_of,
};
use pj_shape::{Cert, JoinSpec, Schemes};
use pj_state::{Remaining, Shared, State};
use pj_value::{List, NoMemory, Row};
use pj_waiting::{ArrivingPunct, Waiting, receive};
use std::alloc::Global;
use std::marker::Model;
use std::sync::Arc;

/// A join by equal columns. It stores each tuple that reaches it under its ticket, until a sweep removes it, and lends it to
/// probes. It keeps each punctuation, and hands it up widened once no stored tuple of its input matches it (Tucker et al.
/// 2003; Li et al. 2006). A contract sees its number, its shape with schemes and certificates, its limit and what it keeps.
#[derive(Drop)]
pub struct Join {
    alloc: Global,
    node: u32,
    spec: Arc<JoinSpec, Global>,
    schemes: Schemes,
    certs: List<Cert>,
    routes: List<ProbeRoute>,
    rechecks: Vec<InputRoutes>,
    purges: Vec<PurgeRoute>,
    limit: u64,
    next: u64,
    row_states: Vec<State>,
    punct_stores: Vec<PunctStore>,
    due: Vec<DueRechecks>,
    waiting: Waiting,
    pending: Remaining<Place>,
    done: usize,
    taken: Vec<u64>,
}

impl Model for Join {
    ghost use Rattle.std.specs.Arc.{arc_value};
    ghost use Rattle.pj_join.specs.Joins.{JoinView};
    ghost use Rattle.pj_recheck.specs.Judging.{join_data};
    ghost use Rattle.pj_join.specs.Insides.{IsJoin, inside, lowest, made_with, seen};
    ghost use Rattle.pj_join.specs.Sides.{log_of, puncts_of};
    ghost use Rattle.pj_join.specs.Held.{AreHeld};
    ghost use Rattle.pj_join.specs.Watched.{AreWatched};
    ghost use Rattle.pj_probe.specs.Routes.{AreProbeRoutes, columns_of};
    ghost use Rattle.pj_recheck.specs.Recheck.{AreRoutes};
    ghost use Rattle.pj_events.specs.Join.{inputs};
    ghost use Rattle.pj_join.specs.Purges.{ArePurgeRoutes};

    ghost Value = { JoinView };

    ghost view = { λ j. seen (made_with j.node (join_data (arc_value j.spec) j.schemes j.certs) j.limit) j.next j.done (log_of j.row_states.items) (puncts_of j.punct_stores.items) j.waiting.puncts j.taken.items };

    ghost invariant = { λ j. IsJoin (join_data (arc_value j.spec) j.schemes j.certs) j.limit (inside j.next j.done j.row_states.items j.punct_stores.items j.pending j.taken.items) × AreWatched (join_data (arc_value j.spec) j.schemes j.certs) j.next (lowest j.next j.done (log_of j.row_states.items) j.taken.items) (log_of j.row_states.items) (puncts_of j.punct_stores.items) j.due.items × AreHeld j.next (log_of j.row_states.items) j.waiting × AreProbeRoutes (arc_value j.spec).classes (columns_of j.row_states.items) j.routes × AreRoutes (join_data (arc_value j.spec) j.schemes j.certs) j.row_states.items (inputs (join_data (arc_value j.spec) j.schemes j.certs)) j.rechecks.items × ArePurgeRoutes (join_data (arc_value j.spec) j.schemes j.certs) (inputs (join_data (arc_value j.spec) j.schemes j.certs)) j.purges.items };
}

impl Join {
    /// A join with this number among the nodes that takes at most `limit` elements, from 1 to 2^40. `schemes` has a list of
    /// schemes for each input, and `certs` a certificate of each.
    pub fn new(
        alloc: Global,
        node: u32,
        spec: JoinSpec,
        schemes: Schemes,
        certs: List<Cert>,
        limit: u64,
    ) -> Result<Join, NoMemory>
        requires sound { IsSoundSpec spec }
        requires certified { AreCertified (join_data spec schemes certs) }
        requires limit { (1 ≤ limit) × (limit ≤ 2 ^ 40) }
        ensures { IfOk result (λ join. join ≡ record { node = node; spec = join_data spec schemes certs; limit = limit; kept = kept_of start }) }
    {
        let row_states = empty_states(alloc, &spec)?;
        let punct_stores = empty_stores(alloc, spec.inputs.as_slice())?;
        let due = empty_watches(alloc, spec.inputs.len())?;
        let routes = probe_routes(alloc, spec.classes.as_slice(), row_states.as_slice())?;
        let rechecks = routes_of(
            alloc,
            &Certified {
                spec: &spec,
                schemes: &schemes,
                certs: certs.as_slice(),
            },
            row_states.as_slice(),
        )?;
        let purges = purge_routes(alloc, &spec, &schemes, certs.as_slice())?;
        Ok(Join {
            alloc,
            node,
            spec: Arc::new(alloc, spec)?,
            schemes,
            certs,
            routes,
            rechecks,
            purges,
            limit,
            next: 0,
            row_states,
            punct_stores,
            due,
            waiting: Waiting::new(alloc),
            pending: Remaining::of(Vec::new(alloc)),
            done: 0,
            taken: Vec::new(alloc),
        })
    }

    /// Stores a tuple of an input under the next ticket and gives the ticket. On a refusal the join is as before.
    ///
    /// `Limit` comes exactly where as many elements have come as may.
    pub fn tuple(&mut self, input: u32, row: Row) -> Result<u64, JoinStop>
        requires fits { (input < inputs self.old.spec) × (length row ≡ arity self.old.spec input) }
        ensures ticket { IfOk result (λ ticket. ticket ≡ self.old.kept.next) }
        ensures keeps { OnOk result (self.new ≡ after self.old (TupleComes input row)) }
        ensures stands { OnOk result (IsNew self.old.kept.puncts input row → (steps : List Step) → StandsFor self.old steps → StandsFor self.new (steps ++ TupleComes input row ∷ [])) }
        ensures limit { IsErrOf result JoinStop.Limit ↔ (self.old.kept.next ≡ self.old.limit) }
        ensures refused { OnErr result (self.new ≡ self.old) }
    {
        standing();
        if is_full(self.next, self.limit) {
            return Err(JoinStop::Limit);
        }
        let ticket = self.next;
        let row = Shared::new(self.alloc, row)?;
        store(
            &mut self.pending,
            &mut self.row_states[input as usize],
            Place { ticket, input },
            row,
        )?;
        self.next = ticket + 1;
        Ok(ticket)
    }

    /// Keeps a punctuation of an input under the next ticket and gives the ticket. Where no stored tuple of the input matches
    /// it, it is put at the end of `out`, widened; else it waits for a sweep. On a refusal the join and `out` are as before.
    ///
    /// `Limit` comes exactly where as many elements have come as may.
    pub fn punct(
        &mut self,
        input: u32,
        punct: Punct,
        out: &mut List<Punct>,
    ) -> Result<u64, JoinStop>
        requires fits { (input < inputs self.old.spec) × (length punct ≡ arity self.old.spec input) }
        ensures ticket { IfOk result (λ ticket. ticket ≡ self.old.kept.next) }
        ensures keeps { OnOk result (self.new ≡ after self.old (PunctComes input punct)) }
        ensures stands { OnOk result ((steps : List Step) → StandsFor self.old steps → StandsFor self.new (steps ++ PunctComes input punct ∷ [])) }
        ensures out { OnOk result (out.new ≡ out.old ++ puncts_up self.old (PunctComes input punct)) }
        ensures hands { OnOk result ((steps : List Step) → StandsFor self.old steps → HandsUp self.old steps (PunctComes input punct)) }
        ensures limit { IsErrOf result JoinStop.Limit ↔ (self.old.kept.next ≡ self.old.limit) }
        ensures refused { OnErr result ((self.new ≡ self.old) × (out.new ≡ out.old)) }
    {
        keep_orders(
            &mut self.row_states,
            self.rechecks[input as usize].orders.as_slice(),
            &punct,
        );
        self.hear_punct(input, punct, out)
    }

    // The same, once orders are kept of the columns in which its ranges look for rows.
    fn hear_punct(
        &mut self,
        input: u32,
        punct: Punct,
        out: &mut List<Punct>,
    ) -> Result<u64, JoinStop>
        requires fits { (input < inputs self.old.spec) × (length punct ≡ arity self.old.spec input) }
        ensures ticket { IfOk result (λ ticket. ticket ≡ self.old.kept.next) }
        ensures keeps { OnOk result (self.new ≡ after self.old (PunctComes input punct)) }
        ensures stands { OnOk result ((steps : List Step) → StandsFor self.old steps → StandsFor self.new (steps ++ PunctComes input punct ∷ [])) }
        ensures out { OnOk result (out.new ≡ out.old ++ puncts_up self.old (PunctComes input punct)) }
        ensures hands { OnOk result ((steps : List Step) → StandsFor self.old steps → HandsUp self.old steps (PunctComes input punct)) }
        ensures limit { IsErrOf result JoinStop.Limit ↔ (self.old.kept.next ≡ self.old.limit) }
        ensures refused { OnErr result ((self.new ≡ self.old) × (out.new ≡ out.old)) }
    {
        standing();
        if is_full(self.next, self.limit) {
            return Err(JoinStop::Limit);
        }
        let ticket = self.next;
        mark_added(
            self.alloc,
            &mut self.due,
            self.rechecks[input as usize].recheck.as_slice(),
            self.row_states.as_slice(),
            &self.punct_stores[input as usize],
            &punct,
        )?;
        receive(
            self.alloc,
            self.spec.inputs.as_slice(),
            &self.row_states[input as usize],
            &mut self.punct_stores[input as usize],
            &mut self.waiting,
            ArrivingPunct {
                ticket,
                input,
                punct,
            },
            out,
        )?;
        self.next += 1;
        Ok(ticket)
    }

    /// Takes the least ticket that is pending; `None` exactly where none is. On a refusal the join is as before.
    pub fn take(&mut self) -> Result<Option<Probe>, NoMemory>
        ensures takes { IfOk result (λ answer. JoinTakes self.old self.new answer) }
        ensures stands { IfOk result (λ answer. (steps : List Step) → StandsFor self.old steps → StandsTaken self.new steps answer) }
        ensures refused { OnErr result (self.new ≡ self.old) }
    {
        standing();
        forgetting_is_safe();
        match first_pending(self.row_states.as_slice(), &self.pending) {
            None => Ok(None),
            Some(own) => {
                let probe = probe_of(
                    self.alloc,
                    self.node,
                    route_of(&self.routes, &own),
                    &own,
                    self.row_states.as_slice(),
                )?;
                self.taken.push(probe.ticket())?;
                self.pending.pop_first();
                self.done += 1;
                Ok(Some(probe))
            }
        }
    }

    /// Marks the probe's ticket, which was taken here and not given, as given. It takes no memory.
    pub fn give(&mut self, probe: Probe)
        requires { IsTaken self.old.kept probe.ticket }
        ensures gives { self.new ≡ after self.old (Give probe.ticket) }
        ensures stands { (steps : List Step) → StandsFor self.old steps → StandsFor self.new (steps ++ Give probe.ticket ∷ []) }
    {
        standing();
        forget(&mut self.taken, probe.ticket());
    }

    /// Takes the least ticket that is pending, puts the rows that its work finds at the end of `outs`, and gives it: a take, its
    /// work and its give in one call, which keeps nothing in between. Answers the ticket; `None` exactly where none is
    /// pending. On a refusal the join and `outs` are as before.
    pub fn probe_next(&mut self, outs: &mut List<Out>) -> Result<Option<u64>, NoMemory>
        ensures probes { IfOk result (λ answer. JoinProbes self.old self.new answer) }
        ensures hands { IfOk result (λ answer. outs.new ≡ outs.old ++ map Out.Tuple (rows_probed self.old answer)) }
        ensures stands { IfOk result (λ answer. (steps : List Step) → StandsFor self.old steps → StandsProbed self.old self.new steps answer) }
        ensures refused { OnErr result ((self.new ≡ self.old) × (outs.new ≡ outs.old)) }
    {
        standing();
        forgetting_is_safe();
        match first_pending(self.row_states.as_slice(), &self.pending) {
            None => Ok(None),
            Some(own) => {
                let ticket = own.ticket();
                hand_out_found(
                    self.alloc,
                    route_of(&self.routes, &own),
                    &own,
                    self.row_states.as_slice(),
                    outs,
                )?;
                self.pending.pop_first();
                self.done += 1;
                Ok(Some(ticket))
            }
        }
    }

    /// Judges each stored tuple of an input on the join as it is, and removes exactly the ripe ones: their rows are put at the
    /// end of `removed`. Then the waiting punctuations of the input that no stored tuple matches any more are put at the end
    /// of `out`, widened. Both are in order of tickets. Answers how many tuples were removed. On a refusal all is as before.
    ///
    /// A tuple is ripe where its ticket is below the low-water ticket, and each instance that it asks for by the certificate of
    /// its input, over the tuples that are stored below that ticket, is covered by one punctuation below it. Once it is ripe
    /// it stays so until a sweep of its input, which removes it.
    pub fn sweep(
        &mut self,
        input: u32,
        removed: &mut List<Row>,
        out: &mut List<Punct>,
    ) -> Result<u64, NoMemory>
        requires there { input < inputs self.old.spec }
        ensures sweeps { OnOk result (self.new ≡ after self.old (Sweep input)) }
        ensures count { IfOk result (λ count. count ≡ length (swept_off self.old input)) }
        ensures removed { OnOk result (removed.new ≡ removed.old ++ rows_off self.old input) }
        ensures out { OnOk result (out.new ≡ out.old ++ puncts_up self.old (Sweep input)) }
        ensures stands { OnOk result ((steps : List Step) → StandsFor self.old steps → StandsFor self.new (steps ++ Sweep input ∷ [])) }
        ensures hands { OnOk result ((steps : List Step) → StandsFor self.old steps → HandsUp self.old steps (Sweep input)) }
        ensures forgets { OnOk result ((steps : List Step) → StandsFor self.old steps → IsForgotten self.old steps input) }
        ensures covered { OnOk result ((steps : List Step) → StandsFor self.old steps → GoesWhereCovered self.old steps input) }
        ensures stays { OnOk result ((steps : List Step) → StandsFor self.old steps → StaysRipeUntil self.old steps input) }
        ensures lawful { OnOk result ((steps : List Step) → StandsFor self.new steps → HasBeenLawful self.new steps) }
        ensures refused { OnErr result ((self.new ≡ self.old) × (removed.new ≡ removed.old) × (out.new ≡ out.old)) }
    {
        standing();
        forgetting_is_safe();
        ripeness();
        lawfulness();
        if self.is_idle(input) {
            return Ok(0);
        }
        let mut waiting = std::mem::replace(&mut self.waiting, Waiting::new(self.alloc));
        let swept = self.sweep_rows(&mut waiting, input, removed, out);
        self.waiting = waiting;
        swept
    }

    // Whether a sweep of the input judges no row, so that it changes nothing.
    fn is_idle(&self, input: u32) -> bool
        requires there { input < inputs self.now.spec }
        ensures { result ≡ true → swept_off self.now input ≡ [] }
    {
        let due = &self.due[input as usize];
        due.marked.len() == 0 && !has_young(&self.row_states[input as usize], due.from)
    }

    // The same, where the punctuations that wait stand beside the join.
    fn sweep_rows(
        &mut self,
        waiting: &mut Waiting,
        input: u32,
        removed: &mut List<Row>,
        out: &mut List<Punct>,
    ) -> Result<u64, NoMemory>
        requires there { input < inputs self.old.spec }
        requires beside { self.old.kept.waiting ≡ [] }
        requires held { AreHeld self.old.kept.next self.old.kept.stored waiting.old }
        ensures certified { OnOk result (AreCertified self.old.spec) }
        ensures sweeps { OnOk result (self.new ≡ after self.old (Sweep input)) }
        ensures count { IfOk result (λ count. count ≡ length (swept_off self.old input)) }
        ensures removed { OnOk result (removed.new ≡ removed.old ++ rows_off self.old input) }
        ensures waiting { OnOk result (waiting.new.puncts ≡ waiting_on (swept self.old.spec self.old.kept input) input waiting.old.puncts) }
        ensures out { OnOk result (out.new ≡ out.old ++ puncts_let_go (with_waiting waiting.old.puncts self.old) input) }
        ensures held { AreHeld self.new.kept.next self.new.kept.stored waiting.new }
        ensures refused { OnErr result ((self.new ≡ self.old) × (waiting.new.puncts ≡ waiting.old.puncts) × (removed.new ≡ removed.old) × (out.new ≡ out.old)) }
    {
        let before = removed.len();
        let out_before = out.len();
        match self.judge(waiting, input, removed, out) {
            Ok(left) => {
                waiting.leave(&left.waiting);
                Ok(self.settle(input, left))
            }
            Err(stop) => {
                removed.truncate(before);
                out.truncate(out_before);
                Err(stop)
            }
        }
    }

    // What a sweep of the input leaves. The rows of the tuples that go are put at the end of `removed`, and the punctuations that
    // are let go at the end of `out`. After a refusal both begin as before.
    fn judge(
        &self,
        waiting: &mut Waiting,
        input: u32,
        removed: &mut List<Row>,
        out: &mut List<Punct>,
    ) -> Result<Left, NoMemory>
        requires there { input < inputs self.now.spec }
        requires held { AreHeld self.now.kept.next self.now.kept.stored waiting.old }
        ensures certified { OnOk result (AreCertified self.now.spec) }
        ensures gone { IfOk result (λ left. left.gone ≡ tickets (swept_off self.now input)) }
        ensures marked { IfOk result (λ left. AreOpenBut self.now input left.marked) }
        ensures goes { IfOk result (λ left. left.waiting.goes ≡ tickets_where (is_let_go (swept self.now.spec self.now.kept input) input) waiting.old.puncts) }
        ensures held { IfOk result (λ left. AreHeldBehind (swept self.now.spec self.now.kept input) left.waiting.goes left.waiting.freed waiting.new) }
        ensures puncts { waiting.new.puncts ≡ waiting.old.puncts }
        ensures keeps { KeepsLists waiting.old waiting.new }
        ensures rising { OnOk result (IsRising held_at waiting.old.puncts) }
        ensures removed { OnOk result (removed.new ≡ removed.old ++ rows_off self.now input) }
        ensures out { OnOk result (out.new ≡ out.old ++ puncts_let_go (with_waiting waiting.old.puncts self.now) input) }
        ensures err { OnErr result ((take (length removed.old) removed.new ≡ removed.old) × (take (length out.old) out.new ≡ out.old)) }
    {
        let low = self.low();
        let judge = Judge {
            spec: &self.spec,
            schemes: &self.schemes,
            route: &self.purges[input as usize],
            input,
            row_states: self.row_states.as_slice(),
            punct_stores: self.punct_stores.as_slice(),
            low,
        };
        let left = sweep(
            &judge,
            self.alloc,
            &self.due[input as usize],
            waiting,
            removed,
            out,
        )?;
        Ok(left)
    }

    // Takes over which tuples of the input go, and which are judged again, and answers how many go.
    fn settle(&mut self, input: u32, left: Left) -> u64
        requires there { input < inputs self.old.spec }
        requires beside { self.old.kept.waiting ≡ [] }
        requires gone { left.gone ≡ tickets (swept_off self.old input) }
        requires marked { AreOpenBut self.old input left.marked }
        ensures sweeps { self.new ≡ after self.old (Sweep input) }
        ensures count { result ≡ length (swept_off self.old input) }
    {
        let Left {
            gone,
            marked,
            waiting: _,
        } = left;
        let count = gone.len();
        let from = self.low();
        self.done -= count;
        self.due[input as usize] = DueRechecks { from, marked };
        mark_dependents(
            self.alloc,
            &mut self.due,
            self.rechecks[input as usize].back.as_slice(),
            self.row_states.as_slice(),
            gone.as_slice(),
        );
        remove_all(&mut self.row_states[input as usize], gone.as_slice());
        count as u64
    }

    /// The low-water ticket: the least that is not given, else the next.
    pub fn low(&self) -> u64
        ensures kept { result ≡ kept_low self.now.kept }
        ensures exact { (steps : List Step) → StandsFor self.now steps → result ≡ low (run self.now.spec start steps) }
    {
        match self.taken.first() {
            Some(ticket) => *ticket,
            None => match self.pending.as_slice().first() {
                Some(first) => first.ticket,
                None => self.next,
            },
        }
    }

    /// How many tuples are stored.
    pub fn stored(&self) -> u64
        ensures { result ≡ length self.now.kept.stored }
    {
        (self.done + self.pending.as_slice().len()) as u64
    }

    /// How many punctuations wait.
    pub fn waiting(&self) -> u64
        ensures { result ≡ length self.now.kept.waiting }
    {
        self.waiting.len() as u64
    }

    /// How many tickets are not taken.
    pub fn pending(&self) -> u64
        ensures { result ≡ length self.now.kept.pending }
    {
        self.pending.as_slice().len() as u64
    }

    /// How many tickets are taken and not given.
    pub fn taken(&self) -> u64
        ensures { result + length self.now.kept.pending ≡ length self.now.kept.opened }
    {
        self.taken.len() as u64
    }
}

fn is_full(next: u64, limit: u64) -> bool
    ensures { IsTrue result ↔ (next ≡ limit) }
{
    next == limit
}

/// Stores a row at a place of its input, and puts the place at the end of those that are pending; or neither.
fn store(
    pending: &mut Remaining<Place>,
    state: &mut State,
    place: Place,
    row: Shared,
) -> Result<(), NoMemory>
    requires later { All (λ s. s.ticket < place.ticket) state.old.rows }
    requires wide { All (λ column. column < length row) state.old.columns }
    ensures pending { OnOk result (pending.new ≡ pending.old ++ place ∷ []) }
    ensures state { OnOk result (state.new ≡ state_of state.old.columns (state.old.rows ++ stored place.ticket row ∷ [])) }
    ensures err { OnErr result ((pending.new ≡ pending.old) × (state.new ≡ state.old)) }
{
    pending.push(place)?;
    match state.insert(place.ticket, row) {
        Ok(()) => Ok(()),
        Err(stop) => {
            pending.pop_last();
            Err(stop)
        }
    }
}

/// Takes a ticket out of tickets that rise.
fn forget(taken: &mut Vec<u64>, ticket: u64)
    requires { Rise 0 taken.old.items (2 ^ 64) }
    ensures { taken.new.items ≡ without taken.old.items ticket }
{
    match place_of(taken.as_slice(), ticket) {
        Some(place) => {
            taken.remove(place);
        }
        None => {}
    }
}

fn place_of(tickets: &[u64], ticket: u64) -> Option<usize>
    ensures { result ≡ position (λ t. t == ticket) tickets.now }
{
    tickets.iter().position(|t| *t == ticket)
}
