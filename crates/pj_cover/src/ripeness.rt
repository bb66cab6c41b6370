// Whether a stored row is ripe: whether all that it asks for by the certificate of its input is covered.
ghost use Rattle.std.specs.Prelude.{◌≡◌, ◌<◌, ◌≤◌, ◌+◌, ◌^◌, ◌∷◌, [], ℕ, drop, length, slice_get, slice_index, slice_index_or, Some, IfSome};
ghost use Rattle.pj_value.specs.Lists.{In};
ghost use Rattle.pj_shape.specs.Sound.{FitSchemes, IsSoundSpec, arities_of};
ghost use Rattle.pj_shape.specs.Certificates.{IsCertificate};
ghost use Rattle.pj_events.specs.Join.{agree, demand, entry_of};
ghost use Rattle.pj_cover.specs.Rising.{AreRisingRows};
ghost use Rattle.pj_cover.specs.Asking.{AreParts, HaveLength, HavePartners, IsJudged, IsStep, IsStepJudged, TellsRipe, entries, is_ripe, known_of, says_ripe, tuple_of, tuples_at};
ghost use Rattle.pj_cover.specs.Routes.{IsPurgeRoute, steps_in};
ghost use Rattle.pj_cover.specs.Judges.{IsDecidedBy, IsDecidedUnder, IsJudgedAmong, IsJudgedAt, IsReadyAt, IsRouteAt, IsStepHere, IsWalkAt, MayJudge, TellsStep, known_by, steps_from};

use crate::StoredRows;
use crate::covering::{covering_all, covering_one};
use crate::lent::{Lent, key_of, match_all};
use crate::route::{PurgeRoute, PurgeStep, purge_route, scheme_of};
use arrayvec::ArrayVec;
use pj_puncts::PunctStore;
use pj_shape::{Cert, JoinSpec, Schemes};
use pj_value::Row;
use std::slice::from_ref;

/// What a judge says of a stored row by what it asks for over the stored rows below the low-water ticket: all of it is covered
/// by punctuations below that ticket; or no punctuation at all covers an instance of it, and so it stays until one comes that
/// does, or a row goes through which it asks; or punctuations from the low-water ticket on alone cover one, so that it may be
/// ripe once that ticket has risen.
#[derive(Clone, Copy, Debug, PartialEq, Eq)]
pub enum Verdict {
    Ripe,
    Open,
    Lagging,
}

impl Verdict {
    /// Whether all is covered.
    #[inline(always)]
    pub fn is_ripe(self) -> bool
        ensures { result ≡ says_ripe self }
    {
        match self {
            Verdict::Ripe => true,
            Verdict::Open => false,
            Verdict::Lagging => false,
        }
    }
}

// What a row is judged by: the join's shape and schemes, the route that follows the certificate of the row's input, the stored
// rows, the punctuations of each input, and the low-water ticket.
#[derive(Clone, Copy)]
struct Judge<'a, R> {
    spec: &'a JoinSpec,
    schemes: &'a Schemes,
    route: &'a PurgeRoute,
    rows: &'a R,
    punct_stores: &'a [PunctStore],
    low: u64,
}

impl<'a, R: StoredRows> Judge<'a, R> {
    // The number of a punctuation that covers the instance that a step asks for of these rows, one below the low-water ticket
    // where there is one; `None` exactly where none covers it.
    fn covering(&self, step: PurgeStep, parts: &[Lent<'_>]) -> Option<u64>
        requires step { IsStep self.now.schemes.now self.now.punct_stores.now step.step }
        requires ready { IsReadyAt self.now step parts.now }
        ensures { TellsStep self.now step parts.now result }
    {
        let scheme = scheme_of(self.schemes, step.step);
        let store = &self.punct_stores[step.step.input as usize];
        match step.single {
            None => covering_all(scheme, self.route.links_of(step), parts, store, self.low),
            Some(link) => covering_one(scheme.len(), link, parts, store, self.low),
        }
    }

    // What is said of that instance.
    #[inline(never)]
    fn judge_step(&self, step: PurgeStep, parts: &[Lent<'_>]) -> Verdict
        requires step { IsStep self.now.schemes.now self.now.punct_stores.now step.step }
        requires ready { IsReadyAt self.now step parts.now }
        ensures { IsStepJudged (known_by (R.rows self.now.rows.now) self.now) (demand self.now.spec.now.classes (entry_of self.now.schemes.now step.step) parts.now) result }
    {
        match self.covering(step, parts) {
            None => Verdict::Open,
            Some(number) => {
                if number < self.low {
                    Verdict::Ripe
                } else {
                    Verdict::Lagging
                }
            }
        }
    }

    // The tickets of stored rows of a step's input, among which are all that join with these rows, where an index tells.
    fn partners(&self, step: PurgeStep, parts: &[Lent<'_>]) -> Option<&'a [u64]>
        requires sound { IsSoundSpec self.now.spec.now }
        requires fit { HaveLength (slice_index (arities_of self.now.spec.now.inputs) step.step.input) (R.rows self.now.rows.now step.step.input) }
        requires links { IsStepHere self.now parts.now step }
        ensures all { IfSome result (λ tickets. HavePartners self.now.spec.now.classes parts.now (tuples_at (R.rows self.now.rows.now) step.step.input) tickets.now) }
        ensures rising { IfSome result (λ tickets. AreRisingRows (R.rows self.now.rows.now step.step.input)) }
    {
        match key_of(self.route.links_of(step), parts) {
            None => None,
            Some(key) => self
                .rows
                .tickets_with(step.step.input, key.column, key.value),
        }
    }

    // What is said of what these rows ask for, by the certificate's steps from a place on: of the first instance that is not
    // covered, where one is not.
    #[cycle(judging)]
    fn seek(&self, at: usize, parts: &mut ArrayVec<Lent<'a>, 16>) -> Verdict
        requires parts { MayJudge (R.rows self.now.rows.now) self.now }
        requires walk { IsWalkAt self.now at parts.old.items }
        requires route { IsRouteAt self.now at parts.old.items }
        ensures same { parts.new.items ≡ parts.old.items }
        ensures judged { IsJudged (known_by (R.rows self.now.rows.now) self.now) (steps_from self.now at) parts.old.items result }
    {
        if at >= self.route.len() {
            return Verdict::Ripe;
        }
        let step = self.route.at(at);
        let first = self.judge_step(step, parts.as_slice());
        if !first.is_ripe() {
            return first;
        }
        self.seek_through(at, step, parts)
    }

    // The same through each stored row that may stand for the step at the place, which itself is covered.
    #[cycle(judging)]
    fn seek_through(
        &self,
        at: usize,
        step: PurgeStep,
        parts: &mut ArrayVec<Lent<'a>, 16>,
    ) -> Verdict
        requires parts { MayJudge (R.rows self.now.rows.now) self.now }
        requires walk { IsWalkAt self.now at parts.old.items }
        requires route { IsRouteAt self.now at parts.old.items }
        requires step { slice_get self.now.route.now.steps at ≡ Some step }
        ensures same { parts.new.items ≡ parts.old.items }
        ensures judged { IsJudgedAt (R.rows self.now.rows.now) self.now at step.step.input parts.old.items result }
    {
        if self.route.len() <= at + 1 {
            return Verdict::Ripe;
        }
        match self.partners(step, parts.as_slice()) {
            None => self.seek_each(at, step, parts),
            Some(tickets) => self.seek_among(at, step, tickets, parts),
        }
    }

    // The same where each row of the step's input is looked at.
    #[cycle(judging)]
    fn seek_each(&self, at: usize, step: PurgeStep, parts: &mut ArrayVec<Lent<'a>, 16>) -> Verdict
        requires parts { MayJudge (R.rows self.now.rows.now) self.now }
        requires walk { IsWalkAt self.now at parts.old.items }
        requires route { IsRouteAt self.now at parts.old.items }
        requires step { slice_get self.now.route.now.steps at ≡ Some step }
        requires fits { at + 1 < 2 ^ 64 }
        ensures same { parts.new.items ≡ parts.old.items }
        ensures judged { IsJudgedAt (R.rows self.now.rows.now) self.now at step.step.input parts.old.items result }
    {
        for n in 0..self.rows.count(step.step.input) {
            let (ticket, row) = self.rows.nth(step.step.input, n);
            match self.seek_with(at, step, ticket, row, parts) {
                None => {}
                Some(through) => return through,
            }
        }
        Verdict::Ripe
    }

    // The same through each stored row of the step's input that has one of these tickets.
    #[cycle(judging)]
    fn seek_among(
        &self,
        at: usize,
        step: PurgeStep,
        tickets: &[u64],
        parts: &mut ArrayVec<Lent<'a>, 16>,
    ) -> Verdict
        requires parts { MayJudge (R.rows self.now.rows.now) self.now }
        requires walk { IsWalkAt self.now at parts.old.items }
        requires route { IsRouteAt self.now at parts.old.items }
        requires step { slice_get self.now.route.now.steps at ≡ Some step }
        requires fits { at + 1 < 2 ^ 64 }
        requires rising { AreRisingRows (R.rows self.now.rows.now step.step.input) }
        ensures same { parts.new.items ≡ parts.old.items }
        ensures judged { IsJudgedAmong (R.rows self.now.rows.now) self.now at step.step.input tickets.now parts.old.items result }
    {
        for ticket in tickets {
            match self.seek_under(at, step, *ticket, parts) {
                None => {}
                Some(through) => return through,
            }
        }
        Verdict::Ripe
    }

    // The same through the stored row with this ticket; `None` where the others are still to be gone through.
    #[cycle(judging)]
    fn seek_under(
        &self,
        at: usize,
        step: PurgeStep,
        ticket: u64,
        parts: &mut ArrayVec<Lent<'a>, 16>,
    ) -> Option<Verdict>
        requires parts { MayJudge (R.rows self.now.rows.now) self.now }
        requires walk { IsWalkAt self.now at parts.old.items }
        requires route { IsRouteAt self.now at parts.old.items }
        requires step { slice_get self.now.route.now.steps at ≡ Some step }
        requires fits { at + 1 < 2 ^ 64 }
        requires rising { AreRisingRows (R.rows self.now.rows.now step.step.input) }
        ensures same { parts.new.items ≡ parts.old.items }
        ensures judged { IsDecidedUnder (R.rows self.now.rows.now) self.now at step.step.input ticket parts.old.items result }
    {
        match self.rows.get(step.step.input, ticket) {
            None => None,
            Some(row) => self.seek_with(at, step, ticket, row, parts),
        }
    }

    // The same through this stored row; `None` where the others are still to be gone through.
    #[cycle(judging)]
    fn seek_with(
        &self,
        at: usize,
        step: PurgeStep,
        ticket: u64,
        row: &'a Row,
        parts: &mut ArrayVec<Lent<'a>, 16>,
    ) -> Option<Verdict>
        requires parts { MayJudge (R.rows self.now.rows.now) self.now }
        requires walk { IsWalkAt self.now at parts.old.items }
        requires route { IsRouteAt self.now at parts.old.items }
        requires step { slice_get self.now.route.now.steps at ≡ Some step }
        requires fits { at + 1 < 2 ^ 64 }
        requires stored { In (ticket, row.now) (R.rows self.now.rows.now step.step.input) }
        ensures same { parts.new.items ≡ parts.old.items }
        ensures judged { IsDecidedBy (R.rows self.now.rows.now) self.now at parts.old.items (tuple_of step.step.input (ticket, row.now)) result }
    {
        if ticket >= self.low {
            return None;
        }
        let next = Lent::of(ticket, step.step.input, row);
        if !match_all(self.route.links_of(step), parts.as_slice(), &next) {
            return None;
        }
        parts.insert(0, next);
        let through = self.seek(at + 1, parts);
        parts.remove(0);
        if !through.is_ripe() {
            return Some(through);
        }
        if step.is_determined {
            return Some(Verdict::Ripe);
        }
        None
    }

    // What is said of what a row asks for after the first step, which is covered.
    #[inline(never)]
    fn judge_through(&self, step: PurgeStep, own: Lent<'a>) -> Verdict
        requires parts { MayJudge (R.rows self.now.rows.now) self.now }
        requires walk { IsWalkAt self.now 0 (own ∷ []) }
        requires route { IsRouteAt self.now 0 (own ∷ []) }
        requires step { slice_get self.now.route.now.steps 0 ≡ Some step }
        ensures { IsJudgedAt (R.rows self.now.rows.now) self.now 0 step.step.input (own.entry ∷ []) result }
    {
        let mut parts = ArrayVec::new();
        parts.push(own);
        self.seek_through(0, step, &mut parts)
    }

    // What is said of a row.
    #[inline(always)]
    fn judge(&self, own: Lent<'a>) -> Verdict
        requires parts { MayJudge (R.rows self.now.rows.now) self.now }
        requires walk { IsWalkAt self.now 0 (own ∷ []) }
        requires route { IsRouteAt self.now 0 (own ∷ []) }
        ensures { IsJudged (known_by (R.rows self.now.rows.now) self.now) (steps_from self.now 0) (own.entry ∷ []) result }
    {
        if self.route.len() == 0 {
            return Verdict::Ripe;
        }
        let step = self.route.at(0);
        let first = self.judge_step(step, from_ref(&own));
        if !first.is_ripe() {
            return first;
        }
        if self.route.len() == 1 {
            return Verdict::Ripe;
        }
        self.judge_through(step, own)
    }
}

/// Judges a row of an input by what it asks for, by the input's certificate, over the stored rows below the low-water ticket: it
/// is ripe exactly where punctuations below that ticket cover all of it. The join is sound, the route follows a certificate of the
/// input, all rows fit it, and there is one store of punctuations for each input.
#[inline(always)]
pub fn judge_row<R: StoredRows>(
    spec: &JoinSpec,
    schemes: &Schemes,
    route: &PurgeRoute,
    input: u32,
    row: &Row,
    rows: &R,
    punct_stores: &[PunctStore],
    low: u64,
) -> Verdict
    requires parts { AreParts spec.now (R.rows rows.now) punct_stores.now }
    requires input { input < length spec.now.inputs }
    requires schemes { FitSchemes spec.now.inputs schemes.now }
    requires certified { IsCertificate spec.now schemes.now input (steps_in route.now) }
    requires route { IsPurgeRoute spec.now schemes.now (steps_in route.now) input route.now }
    requires fits { length row.now ≡ slice_index (arities_of spec.now.inputs) input }
    ensures ripe { TellsRipe (known_of spec.now (R.rows rows.now) punct_stores.now low) (entries schemes.now (steps_in route.now)) input row.now result }
    ensures asks { (ticket : ℕ) → IsJudged (known_of spec.now (R.rows rows.now) punct_stores.now low) (entries schemes.now (steps_in route.now)) (tuple_of input (ticket, row.now) ∷ []) result }
{
    let judge = Judge {
        spec,
        schemes,
        route,
        rows,
        punct_stores,
        low,
    };
    judge.judge(Lent::of(0, input, row))
}

/// Whether a row of an input is ripe: its ticket is below the low-water ticket, and each instance that it asks for, by the
/// input's certificate, over the stored rows below the low-water ticket, is covered by a punctuation below it. The join is
/// sound, the certificate is one of the input, all rows fit it, and there is one store of punctuations for each input.
pub fn ripe<R: StoredRows>(
    spec: &JoinSpec,
    schemes: &Schemes,
    cert: &Cert,
    input: u32,
    ticket: u64,
    row: &Row,
    rows: &R,
    punct_stores: &[PunctStore],
    low: u64,
) -> bool
    requires parts { AreParts spec.now (R.rows rows.now) punct_stores.now }
    requires input { input < length spec.now.inputs }
    requires schemes { FitSchemes spec.now.inputs schemes.now }
    requires certified { IsCertificate spec.now schemes.now input cert.now }
    requires fits { length row.now ≡ slice_index (arities_of spec.now.inputs) input }
    ensures { result ≡ is_ripe (known_of spec.now (R.rows rows.now) punct_stores.now low) (entries schemes.now cert.now) (tuple_of input (ticket, row.now)) }
{
    if low <= ticket {
        return false;
    }
    let route = purge_route(spec, schemes, cert, input);
    judge_row(spec, schemes, &route, input, row, rows, punct_stores, low).is_ripe()
}
