// The rows that may stand in a combination with a tuple, for each input.
ghost use Rattle.std.specs.Prelude.{◌≡◌, ℕ, false, true, ◌+◌, ◌<◌, ◌++◌, ◌∷◌, [], length, map, slice_set, take, IfOk, IfSome, OnOk};
ghost use Rattle.pj_value.specs.Lists.{In};
ghost use Rattle.pj_events.specs.Join.{value_at};
ghost use Rattle.pj_state.specs.Rising.{IsRising};
ghost use Rattle.pj_state.specs.States.{pairs, rows_below, ticket_of};
ghost use Rattle.pj_probe.specs.Walks.{tuple_at};
ghost use Rattle.pj_probe.specs.Hops.{AreFound, AreLinked, AreMore, AreStepped, BeginsWith, FindAll, FindSame, HaveTickets, LacksAny, LacksPartner, all_under, older_under};
ghost use Rattle.pj_probe.specs.Partners.{AreLinkedTo};
ghost use Rattle.std.specs.Arc.{arc_value};
ghost use Rattle.pj_probe.specs.Routes.{IsOwnStep, IsProbeRoute, IsRoute, columns_of};
ghost use Rattle.pj_rows.specs.Tuples.{AreWide, IsWide, state_at};

use crate::Lent;
use crate::route::{ProbeLink, ProbeRoute, ProbeStep};
use pj_rows::{Arrived, in_order};
use pj_state::{Matching, Spot, State};
use pj_value::{List, NoMemory, Row};
use std::alloc::Global;
use std::mem;
use std::slice::from_ref;

/// Rows with their tickets, in order of these.
pub type Rows<'a> = List<(u64, Lent<'a>)>;

// The tuple's own row where it is asked for, and else none.
fn alone_if<'a>(alloc: Global, own: &Arrived<'a>, is_own: bool) -> Result<Rows<'a>, NoMemory>
    ensures own { IfOk result (λ list. is_own ≡ true → map (tuple_at own.now.input) list ≡ own.now ∷ []) }
    ensures other { IfOk result (λ list. is_own ≡ false → list ≡ []) }
{
    if !is_own {
        return Ok(List::new(alloc));
    }
    let mut list = List::with_room(alloc, 1)?;
    list.push((own.ticket(), Lent::of(own.row())))?;
    Ok(list)
}

// The tuple's own row, and none of another input.
fn begin<'a>(alloc: Global, own: &Arrived<'a>, count: usize) -> Result<Vec<Rows<'a>>, NoMemory>
    ensures { IfOk result (λ lists. BeginsWith own.now count lists.items) }
{
    let mut lists = Vec::with_capacity(alloc, count)?;
    for input in 0..count {
        lists.push(alone_if(alloc, own, input == own.input() as usize)?)?;
    }
    Ok(lists)
}

// Puts the tickets of the rows of a state at the end that have the row's value in a column; answers whether it has one.
fn append_tickets(
    state: &State,
    mine: u32,
    row: &Row,
    theirs: u32,
    tickets: &mut List<u64>,
) -> Result<bool, NoMemory>
    requires wide { IsWide state.now }
    requires indexed { In mine state.now.columns }
    ensures { IfOk result (λ told. told ≡ true → AreMore state.now.rows mine (value_at row.now theirs) tickets.old tickets.new) }
{
    match row.get(theirs as usize) {
        None => Ok(false),
        Some(value) => {
            tickets.append(state.tickets(mine, value))?;
            Ok(true)
        }
    }
}

// The tickets of the rows of a state that have the value of one of the others in these columns, and maybe more; `None` where
// one of the others has no such column.
fn tickets_for(
    alloc: Global,
    state: &State,
    mine: u32,
    others: &[(u64, Lent<'_>)],
    theirs: u32,
) -> Result<Option<List<u64>>, NoMemory>
    requires wide { IsWide state.now }
    requires indexed { In mine state.now.columns }
    ensures { IfOk result (λ told. IfSome told (HaveTickets state.now.rows mine theirs others.now)) }
{
    let mut tickets = List::new(alloc);
    for at in 0..others.len() {
        if !append_tickets(state, mine, others[at].1.row(), theirs, &mut tickets)? {
            return Ok(None);
        }
    }
    Ok(Some(tickets))
}

// Puts the row with a ticket at the end, where there is one and it is older.
fn append_under<'a>(
    state: &'a State,
    ticket: u64,
    below: u64,
    near: &mut Spot,
    found: &mut Rows<'a>,
) -> Result<(), NoMemory>
    ensures { OnOk result (found.new ≡ found.old ++ pairs (older_under below state.now.rows ticket)) }
{
    match state.get_near(ticket, near) {
        None => Ok(()),
        Some(row) => {
            if ticket < below {
                found.push((ticket, Lent::of(row)))?;
            }
            Ok(())
        }
    }
}

// The rows with these tickets that are older.
fn rows_under<'a>(
    alloc: Global,
    state: &'a State,
    tickets: &[u64],
    below: u64,
) -> Result<Rows<'a>, NoMemory>
    ensures rising { IsRising ticket_of state.now.rows }
    ensures found { IfOk result (λ found. found ≡ pairs (all_under below state.now.rows tickets.now)) }
{
    let mut found = List::with_room(alloc, tickets.len().min(state.len()))?;
    let mut near = Spot::new();
    for ticket in tickets {
        append_under(state, *ticket, below, &mut near, &mut found)?;
    }
    Ok(found)
}

// All older rows.
fn all_below<'a>(alloc: Global, state: &'a State, below: u64) -> Result<Rows<'a>, NoMemory>
    ensures { IfOk result (λ found. found ≡ pairs (rows_below below state.now.rows)) }
{
    let mut found = List::with_room(alloc, state.len())?;
    let mut rows = state.cursor();
    for at in 0..state.len() {
        let (ticket, row) = rows.nth(at);
        if ticket >= below {
            return Ok(found);
        }
        found.push((ticket, Lent::of(row)))?;
    }
    Ok(found)
}

// The rows of an input that are older than the tuple and have the value of this row in these columns.
fn linked_by_one<'a>(
    alloc: Global,
    state: &'a State,
    mine: u32,
    row: &Row,
    theirs: u32,
    below: u64,
) -> Result<Rows<'a>, NoMemory>
    requires wide { IsWide state.now }
    requires indexed { In mine state.now.columns }
    ensures { (ticket : ℕ) → IfOk result (AreLinked state.now mine theirs ((ticket, row.now) ∷ []) below) }
{
    match row.get(theirs as usize) {
        None => all_below(alloc, state, below),
        Some(value) => rows_under(alloc, state, state.tickets(mine, value), below),
    }
}

// The same for each of these rows.
fn linked_by_all<'a>(
    alloc: Global,
    state: &'a State,
    mine: u32,
    others: &[(u64, Lent<'_>)],
    theirs: u32,
    below: u64,
) -> Result<Rows<'a>, NoMemory>
    requires wide { IsWide state.now }
    requires indexed { In mine state.now.columns }
    ensures { IfOk result (AreLinked state.now mine theirs others.now below) }
{
    match tickets_for(alloc, state, mine, others, theirs)? {
        None => all_below(alloc, state, below),
        Some(tickets) => rows_under(alloc, state, in_order(tickets).as_slice(), below),
    }
}

// The rows of an input that are older than the tuple and may stand beside these, from which the link leads.
fn linked<'a>(
    alloc: Global,
    state: &'a State,
    link: ProbeLink,
    others: &[(u64, Lent<'_>)],
    below: u64,
) -> Result<Rows<'a>, NoMemory>
    requires wide { IsWide state.now }
    requires indexed { In link.index_column state.now.columns }
    ensures { IfOk result (AreLinked state.now link.index_column link.from_column others.now below) }
{
    let mine = link.index_column;
    match others {
        [(_, row)] => linked_by_one(alloc, state, mine, row.row(), link.from_column, below),
        _ => linked_by_all(alloc, state, mine, others, link.from_column, below),
    }
}

// The rows of a step's input that are older than the tuple and may stand in a combination beside those that were found.
fn take_step<'a>(
    alloc: Global,
    sides: &'a [State],
    step: ProbeStep,
    lists: &[Rows<'a>],
    below: u64,
) -> Result<Rows<'a>, NoMemory>
    requires there { step.input < length sides.now }
    requires wide { AreWide sides.now }
    requires link { IfSome step.link (λ link. (link.from_input < length lists.now) × In link.index_column (state_at sides.now step.input).columns) }
    ensures { IfOk result (AreStepped step.link (state_at sides.now step.input) below lists.now) }
{
    let state = &sides[step.input];
    match step.link {
        None => all_below(alloc, state, below),
        Some(link) => linked(alloc, state, link, lists[link.from_input].as_slice(), below),
    }
}

// Puts the rows of an input to its place.
fn put_rows<'a>(lists: &mut Vec<Rows<'a>>, input: usize, rows: Rows<'a>)
    requires { input < length lists.old.items }
    ensures { lists.new.items ≡ slice_set lists.old.items input rows.entry }
{
    let before = mem::replace(&mut lists[input], rows);
    drop(before);
}

// Goes one step of the route on, and answers whether it found no row, so that nothing joins.
fn follow<'a>(
    alloc: Global,
    steps: &[ProbeStep],
    at: usize,
    own: &Arrived<'a>,
    sides: &'a [State],
    lists: &mut Vec<Rows<'a>>,
) -> Result<bool, NoMemory>
    requires there { (own.now.input < length sides.now) × (at < length steps.now) }
    requires wide { AreWide sides.now }
    requires route { IsRoute (columns_of sides.now) own.now.input steps.now }
    requires found { AreFound own.now sides.now (take at steps.now) lists.old.items }
    ensures found { OnOk result (AreFound own.now sides.now (take (at + 1) steps.now) lists.new.items) }
    ensures none { IfOk result (λ none. none ≡ true → FindAll own.now sides.now steps.now lists.new.items) }
{
    let step = steps[at];
    let rows = take_step(alloc, sides, step, lists.as_slice(), own.ticket())?;
    let is_none = rows.len() == 0;
    put_rows(lists, step.input, rows);
    Ok(is_none)
}

/// The rows of an input to which the link leads from the tuple; `None` where that has no such column.
pub fn linked_to<'a>(
    own: &Arrived<'a>,
    sides: &'a [State],
    input: usize,
    link: ProbeLink,
) -> Option<Matching<'a>>
    requires there { input < length sides.now }
    requires indexed { In link.index_column (state_at sides.now input).columns }
    ensures { IfSome result (AreLinkedTo own.now link (state_at sides.now input).rows) }
{
    match own.row().get(link.from_column as usize) {
        None => None,
        Some(value) => Some(sides[input].matching(link.index_column, value)),
    }
}

// Whether no row of a step's input can stand beside the tuple: it has none, or the link leads from the tuple and none has its
// value.
fn lacks_partner(step: ProbeStep, own: &Arrived<'_>, sides: &[State]) -> bool
    requires there { step.input < length sides.now }
    requires indexed { IfSome step.link (λ link. In link.index_column (state_at sides.now step.input).columns) }
    ensures { result ≡ true → LacksPartner own.now sides.now step }
{
    if sides[step.input].len() == 0 {
        return true;
    }
    match step.link {
        None => false,
        Some(link) => {
            if link.from_input != own.input() as usize {
                return false;
            }
            match linked_to(own, sides, step.input, link) {
                None => false,
                Some(found) => found.len() == 0,
            }
        }
    }
}

// Whether a step lacks partners of the tuple, as is seen before any row is taken.
fn lacks_any(steps: &[ProbeStep], own: &Arrived<'_>, sides: &[State]) -> bool
    requires wide { AreWide sides.now }
    requires route { IsRoute (columns_of sides.now) own.now.input steps.now }
    ensures { result ≡ true → LacksAny own.now sides.now steps.now }
{
    for at in 0..steps.len() {
        if lacks_partner(steps[at], own, sides) {
            return true;
        }
    }
    false
}

// For each input rows that hold all which may stand in a combination with this tuple, as these steps find them. Where a step
// finds none, or of several steps one is seen to find none before they are gone, there are none of those behind it.
fn followed<'a>(
    alloc: Global,
    steps: &[ProbeStep],
    own: &Arrived<'a>,
    sides: &'a [State],
) -> Result<List<Rows<'a>>, NoMemory>
    requires there { own.now.input < length sides.now }
    requires wide { AreWide sides.now }
    requires route { IsRoute (columns_of sides.now) own.now.input steps.now }
    ensures same { IfOk result (FindAll own.now sides.now steps.now) }
    ensures count { IfOk result (λ found. length found ≡ length sides.now) }
{
    let mut lists = begin(alloc, own, sides.len())?;
    if steps.len() > 1 && lacks_any(steps, own, sides) {
        return Ok(List::of(lists));
    }
    for at in 0..steps.len() {
        if follow(alloc, steps, at, own, sides, &mut lists)? {
            return Ok(List::of(lists));
        }
    }
    Ok(List::of(lists))
}

/// The step from the own one of two inputs to the other by the link that leads to the fewest rows; `None` where there is no link,
/// or there are more inputs.
#[tactic(auto, using(crate::proofs::Narrowed::own_step))]
pub fn narrowest<'a>(route: &ProbeRoute, own: &Arrived<'a>, sides: &'a [State]) -> Option<ProbeStep>
    requires there { own.now.input < length sides.now }
    requires route { IsProbeRoute (arc_value route.now.checks) (columns_of sides.now) own.now.input route.now }
    ensures { IfSome result (IsOwnStep (length sides.now) own.now.input route.now) }
{
    if sides.len() != 2 {
        return None;
    }
    let input = 1u32.saturating_sub(own.input()) as usize;
    let links = route.links.as_slice();
    let mut best = None;
    let mut fewest = usize::MAX;
    for at in 0..links.len() {
        let step = ProbeStep {
            input,
            link: Some(links[at]),
        };
        if links.len() == 1 {
            return Some(step);
        }
        match linked_to(own, sides, input, links[at]) {
            None => {}
            Some(rows) => {
                if best.is_none() || rows.len() < fewest {
                    fewest = rows.len();
                    best = Some(step);
                }
            }
        }
    }
    best
}

/// For each input rows that hold all which may stand in a combination with this tuple: of its own input its own row alone,
/// of each other older ones, as the steps of the route find them; of the other one of two inputs by the link that leads to the
/// fewest.
#[tactic(auto, using(crate::proofs::Narrowed::own_step_route, crate::proofs::Narrowed::narrow_same, crate::proofs::Narrowed::route_same))]
pub fn choices<'a>(
    alloc: Global,
    route: &ProbeRoute,
    own: &Arrived<'a>,
    sides: &'a [State],
) -> Result<List<Rows<'a>>, NoMemory>
    requires there { own.now.input < length sides.now }
    requires wide { AreWide sides.now }
    requires route { IsProbeRoute (arc_value route.now.checks) (columns_of sides.now) own.now.input route.now }
    ensures same { IfOk result (FindSame (arc_value route.now.checks) own.now sides.now) }
    ensures count { IfOk result (λ found. length found ≡ length sides.now) }
{
    match narrowest(route, own, sides) {
        None => followed(alloc, route.steps.as_slice(), own, sides),
        Some(step) => followed(alloc, from_ref(&step), own, sides),
    }
}
