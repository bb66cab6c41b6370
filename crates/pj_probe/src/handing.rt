// What a join hands out.
ghost use Rattle.std.specs.Prelude.{◌≡◌, ◌<◌, ◌≤◌, ◌-◌, ◌++◌, ◌∷◌, [], true, map, length, take, OnOk, OnErr, IfOk, IfSome};
ghost use Rattle.std.specs.Arc.{arc_value};
ghost use Rattle.pj_events.specs.Join.{agree};
ghost use Rattle.pj_probe.specs.Partners.{AllAgree, ArePartners};
ghost use Rattle.pj_probe.specs.Results.{found_out, pair_of, pairs_out};
ghost use Rattle.pj_probe.specs.Routes.{IsProbeRoute, columns_of};
ghost use Rattle.pj_rows.specs.Tuples.{AreWide, tuple_in, tuples_in};

use crate::choosing::{choices, linked_to, narrowest};
use crate::route::ProbeRoute;
use crate::{JoinChecks, Joined, Visit, each_lent};
use pj_events::Out;
use pj_rows::Arrived;
use pj_state::{Matching, Spot, State};
use pj_value::{List, NoMemory, Row};
use std::alloc::Global;
use std::marker::Model;

// Room for so many candidates is made at once.
const FEW: usize = 64;

// Makes room for so many elements where none are there.
fn make_room(alloc: Global, outs: &mut List<Out>, count: usize) -> Result<(), NoMemory>
    ensures { outs.new ≡ outs.old }
{
    if outs.len() == 0 {
        *outs = List::with_room(alloc, count)?;
    }
    Ok(())
}

// The rows of the other one of two inputs among which all are that the tuple is joined with: those of the link that leads to the
// fewest. `None` where no link tells.
#[tactic(auto, using(crate::proofs::Narrowed::own_step_there, crate::proofs::Narrowed::own_step_indexed, crate::proofs::Narrowed::narrow_partners))]
fn partners<'a>(route: &ProbeRoute, own: &Arrived<'a>, sides: &'a [State]) -> Option<Matching<'a>>
    requires there { own.now.input < length sides.now }
    requires wide { AreWide sides.now }
    requires route { IsProbeRoute (arc_value route.now.checks) (columns_of sides.now) own.now.input route.now }
    ensures { IfSome result (ArePartners route.now own.now sides.now) }
{
    match narrowest(route, own, sides) {
        None => None,
        Some(step) => match step.link {
            None => None,
            Some(link) => linked_to(own, sides, step.input, link),
        },
    }
}

/// Puts the results of a tuple at the end, over the stored tuples of each input; on a refusal the list is as before.
pub fn hand_out_found(
    alloc: Global,
    route: &ProbeRoute,
    own: &Arrived<'_>,
    sides: &[State],
    outs: &mut List<Out>,
) -> Result<(), NoMemory>
    requires few { length sides.now ≤ 16 }
    requires there { own.now.input < length sides.now }
    requires wide { AreWide sides.now }
    requires route { IsProbeRoute (arc_value route.now.checks) (columns_of sides.now) own.now.input route.now }
    ensures ok { OnOk result (outs.new ≡ outs.old ++ found_out (arc_value route.now.checks) own.now (tuples_in 0 sides.now)) }
    ensures err { OnErr result (outs.new ≡ outs.old) }
{
    match partners(route, own, sides) {
        Some(among) => hand_out_pairs(alloc, route, own, &among, outs),
        None => hand_over(outs, found_among(alloc, route, own, sides)?),
    }
}

// The results of a tuple of any number of inputs.
fn found_among(
    alloc: Global,
    route: &ProbeRoute,
    own: &Arrived<'_>,
    sides: &[State],
) -> Result<List<Out>, NoMemory>
    requires few { length sides.now ≤ 16 }
    requires there { own.now.input < length sides.now }
    requires wide { AreWide sides.now }
    requires route { IsProbeRoute (arc_value route.now.checks) (columns_of sides.now) own.now.input route.now }
    ensures { IfOk result (λ outs. outs ≡ found_out (arc_value route.now.checks) own.now (tuples_in 0 sides.now)) }
{
    let lists = choices(alloc, route, own, sides)?;
    let mut results = Results::new(alloc);
    each_lent(&route.checks, lists.as_slice(), &mut results)?;
    Ok(results.into_outs())
}

// Results of a tuple as a join hands them out, seen as their rows.
#[derive(Drop)]
struct Results {
    alloc: Global,
    outs: List<Out>,
}

impl Model for Results {
    ghost use Rattle.std.specs.Prelude.{List};
    ghost use Rattle.pj_value.specs.declared.values.Value.{Value as AnyValue};
    ghost use Rattle.pj_probe.specs.Results.{AreTuples, rows_of};

    ghost Value = { List (List AnyValue) };

    ghost view = { λ r. rows_of r.outs };

    ghost invariant = { λ r. AreTuples r.outs };
}

impl Results {
    // None.
    fn new(alloc: Global) -> Results
        ensures { result ≡ [] }
    {
        Results {
            alloc,
            outs: List::new(alloc),
        }
    }

    // As they are handed out.
    fn into_outs(self) -> List<Out>
        ensures { result ≡ map Out.Tuple self }
    {
        let Results { alloc: _, outs } = self;
        outs
    }

    // Puts a row at the end.
    #[tactic(auto, using(crate::proofs::HandedOut::tuples_more, crate::proofs::HandedOut::rows_more))]
    fn push(&mut self, row: Row) -> Result<(), NoMemory>
        ensures ok { OnOk result (self.new ≡ self.old ++ row ∷ []) }
        ensures err { OnErr result (self.new ≡ self.old) }
    {
        self.outs.push(Out::Tuple(row))
    }
}

impl Visit for Results {
    ghost use Rattle.std.specs.Prelude.{true};

    ghost told = { λ _. true };

    ghost list = { λ results. results };

    fn joined(&mut self, parts: Joined<'_>) -> Result<(), NoMemory> {
        let row = parts.to_row(self.alloc)?;
        self.push(row)?;
        Ok(())
    }
}

// Puts more elements at the end; on a refusal the list is as before.
fn hand_over(outs: &mut List<Out>, more: List<Out>) -> Result<(), NoMemory>
    ensures ok { OnOk result (outs.new ≡ outs.old ++ more) }
    ensures err { OnErr result (outs.new ≡ outs.old) }
{
    let before = outs.len();
    if before == 0 {
        *outs = more;
        return Ok(());
    }
    match append_outs(outs, more) {
        Ok(()) => Ok(()),
        Err(stop) => {
            outs.truncate(before);
            Err(stop)
        }
    }
}

fn append_outs(outs: &mut List<Out>, more: List<Out>) -> Result<(), NoMemory>
    ensures ok { OnOk result (outs.new ≡ outs.old ++ more) }
    ensures err { OnErr result (take (length outs.old) outs.new ≡ outs.old) }
{
    for out in more.into_vec() {
        outs.push(out)?;
    }
    Ok(())
}

// Puts the row of the tuple with each of these at the end that is older and joins with it; on a refusal the list is as before.
#[tactic(auto, using(crate::proofs::HandedOut::pairs_none))]
fn hand_out_pairs<'a>(
    alloc: Global,
    route: &ProbeRoute,
    own: &Arrived<'a>,
    among: &Matching<'a>,
    outs: &mut List<Out>,
) -> Result<(), NoMemory>
    requires two { own.now.input < 2 }
    requires join { route.now.decides ≡ true → AllAgree (arc_value route.now.checks) own.now (1 - own.now.input) among.now }
    ensures ok { OnOk result (outs.new ≡ outs.old ++ pairs_out (arc_value route.now.checks) own.now (map (tuple_in (1 - own.now.input)) among.now)) }
    ensures err { OnErr result (outs.new ≡ outs.old) }
{
    if among.len() == 0 {
        return Ok(());
    }
    make_room(alloc, outs, among.len().min(FEW))?;
    let before = outs.len();
    match append_pairs(alloc, route, own, among, outs) {
        Ok(()) => Ok(()),
        Err(stop) => {
            outs.truncate(before);
            Err(stop)
        }
    }
}

fn append_pairs<'a>(
    alloc: Global,
    route: &ProbeRoute,
    own: &Arrived<'a>,
    among: &Matching<'a>,
    outs: &mut List<Out>,
) -> Result<(), NoMemory>
    requires two { own.now.input < 2 }
    requires join { route.now.decides ≡ true → AllAgree (arc_value route.now.checks) own.now (1 - own.now.input) among.now }
    ensures ok { OnOk result (outs.new ≡ outs.old ++ pairs_out (arc_value route.now.checks) own.now (map (tuple_in (1 - own.now.input)) among.now)) }
    ensures err { OnErr result (take (length outs.old) outs.new ≡ outs.old) }
{
    let input = 1u32.saturating_sub(own.input());
    let mut near = Spot::new();
    for at in 0..among.len() {
        let (ticket, row) = among.nth_near(at, &mut near);
        if ticket >= own.ticket() {
            return Ok(());
        }
        let other = Arrived::of(ticket, input, row);
        append_pair(alloc, route, own, &other, outs)?;
    }
    Ok(())
}

// Puts the row of the tuple with the other one at the end, where that joins with it.
fn append_pair<'a>(
    alloc: Global,
    route: &ProbeRoute,
    own: &Arrived<'a>,
    other: &Arrived<'a>,
    outs: &mut List<Out>,
) -> Result<(), NoMemory>
    requires two { (own.now.input < 2) × (other.now.input ≡ 1 - own.now.input) }
    requires joins { route.now.decides ≡ true → agree (arc_value route.now.checks) (own.now ∷ other.now ∷ []) ≡ true }
    requires older { other.now.ticket < own.now.ticket }
    ensures ok { OnOk result (outs.new ≡ outs.old ++ pairs_out (arc_value route.now.checks) own.now (other.now ∷ [])) }
    ensures err { OnErr result (outs.new ≡ outs.old) }
{
    if route.decides || agree(&route.checks, own, other) {
        let (first, second) = in_order(own, other);
        outs.push(Out::Tuple(Row::pair(alloc, first, second)?))?;
    }
    Ok(())
}

// Whether the tuples join, which are of the two inputs.
#[inline(never)]
#[tactic(auto, using(crate::proofs::Partners::first_before, crate::proofs::Partners::second_before))]
fn agree<'a>(checks: &JoinChecks, own: &Arrived<'a>, other: &Arrived<'a>) -> bool
    requires { (own.now.input < 2) × (other.now.input ≡ 1 - own.now.input) }
    ensures { result ≡ agree checks.now (own.now ∷ other.now ∷ []) }
{
    if own.input() == 0 {
        checks.both_fit(own.row(), other.row())
    } else {
        checks.both_fit(other.row(), own.row())
    }
}

// The rows of two tuples, that of the first input first.
#[inline(always)]
fn in_order<'a>(own: &Arrived<'a>, other: &Arrived<'a>) -> (&'a Row, &'a Row)
    ensures { result.0.now ++ result.1.now ≡ pair_of own.now other.now }
{
    if own.input() == 0 {
        (own.row(), other.row())
    } else {
        (other.row(), own.row())
    }
}
