// Which stored rows a punctuation marks.
ghost use Rattle.std.specs.Prelude.{◌≡◌, ◌⊎◌, ◌<◌, ◌∷◌, [], length, slice_get, Some, IfOk, IfSome, OnOk};
ghost use Rattle.pj_value.specs.Lists.{In};
ghost use Rattle.pj_rows.specs.Tuples.{AreWide};
ghost use Rattle.pj_recheck.specs.Recheck.{AreKeyed, HasLimit, LeadsIn, LeavesOwner, RouteFinds, RouteFits, RouteLeaves, RoutesFit, RoutesLeave, RoutesLeaveBeside, StopFinds, StopFits, StopsFit, StopsFind};
ghost use Rattle.pj_recheck.specs.Watching.{AreFewer, IsFewer};

use crate::added::{Added, added_by};
use crate::due_rechecks::{Limit, is_wild_elsewhere, matching_tickets};
use crate::marks::DueRechecks;
use crate::reaching::{owners, rows_of};
use crate::routes::{Lead, RecheckRoute, Stop};
use pj_pattern::Punct;
use pj_puncts::PunctStore;
use pj_state::State;
use pj_value::{List, NoMemory};
use std::alloc::Global;

// The tickets of the rows that have the constant of the punctuation in the lead's column.
fn keyed_by<'a>(state: &'a State, lead: Lead, punct: &Punct) -> Option<&'a [u64]>
    requires { In lead.column state.now.columns }
    ensures { IfSome result (λ tickets. AreKeyed state.now (lead ∷ []) punct.now tickets.now) }
{
    if lead.asked as usize >= punct.len() {
        return None;
    }
    match punct.at(lead.asked as usize).as_constant() {
        None => None,
        Some(value) => Some(state.tickets(lead.column, value)),
    }
}

// Of two lists of tickets the shorter; the other one where one is missing.
fn shorter<'a>(first: Option<&'a [u64]>, second: Option<&'a [u64]>) -> Option<&'a [u64]>
    ensures { (result ≡ first.entry) ⊎ (result ≡ second.entry) }
{
    match first {
        None => second,
        Some(tickets) => match second {
            None => first,
            Some(others) => {
                if others.len() < tickets.len() {
                    return second;
                }
                first
            }
        },
    }
}

// The same as by one lead, of these leads by that which leads to the fewest rows.
fn fewest_keyed<'a>(state: &'a State, leads: &[Lead], punct: &Punct) -> Option<&'a [u64]>
    requires { LeadsIn state.now.columns leads.now }
    ensures { IfSome result (λ tickets. AreKeyed state.now leads.now punct.now tickets.now) }
{
    let mut found = None;
    for at in 0..leads.len() {
        found = shorter(found, keyed_by(state, leads[at], punct));
    }
    found
}

// The lead's column of rows, and the pattern of the punctuation that leads there, where that is no wildcard.
fn limit_by<'a>(lead: Lead, punct: &'a Punct) -> Option<Limit<'a>>
    ensures column { IfSome result (λ limit. limit.column ≡ lead.column) }
    ensures value { IfSome result (λ limit. slice_get punct.now lead.asked ≡ Some limit.pattern.now) }
{
    if lead.asked as usize >= punct.len() {
        return None;
    }
    let pattern = punct.at(lead.asked as usize);
    if pattern.is_wild() {
        return None;
    }
    Some(Limit {
        column: lead.column,
        pattern,
    })
}

// The same of the first lead for which there is one.
fn limit_of<'a>(leads: &[Lead], punct: &'a Punct) -> Option<Limit<'a>>
    ensures { IfSome result (λ limit. HasLimit leads.now punct.now limit.column limit.pattern.now) }
{
    for lead in leads {
        match limit_by(*lead, punct) {
            Some(limit) => return Some(limit),
            None => {}
        }
    }
    None
}

// The tickets of the rows that ask for what the punctuation covers, where a constant of it tells the value of the rows at the
// stop.
fn by_key(
    alloc: Global,
    row_states: &[State],
    stop: &Stop,
    punct: &Punct,
) -> Result<Option<List<u64>>, NoMemory>
    requires wide { AreWide row_states.now }
    requires fits { StopFits row_states.now stop.now }
    ensures { IfOk result (λ found. IfSome found (StopFinds row_states.now stop.now punct.now)) }
{
    match rows_of(row_states, stop.input) {
        None => Ok(None),
        Some(state) => match &stop.way {
            None => Ok(None),
            Some(way) => match fewest_keyed(state, stop.leads.as_slice(), punct) {
                None => Ok(None),
                Some(tickets) => {
                    let found = owners(alloc, row_states, way, tickets)?;
                    Ok(found)
                }
            },
        },
    }
}

// The same where a pattern of the punctuation limits the values.
fn by_limit(
    alloc: Global,
    row_states: &[State],
    stop: &Stop,
    punct: &Punct,
) -> Result<Option<List<u64>>, NoMemory>
    requires wide { AreWide row_states.now }
    requires fits { StopFits row_states.now stop.now }
    ensures { IfOk result (λ found. IfSome found (StopFinds row_states.now stop.now punct.now)) }
{
    match rows_of(row_states, stop.input) {
        None => Ok(None),
        Some(state) => match limit_of(stop.leads.as_slice(), punct) {
            None => Ok(None),
            Some(limit) => match &stop.way {
                None => Ok(None),
                Some(way) => {
                    let tickets = matching_tickets(alloc, state, limit.column, limit.pattern)?;
                    let found = owners(alloc, row_states, way, tickets.as_slice())?;
                    Ok(found)
                }
            },
        },
    }
}

// The tickets of the rows that ask for what the punctuation covers, where a constant of it tells their own value.
fn own_rows<'a>(row_states: &'a [State], route: &RecheckRoute, punct: &Punct) -> Option<&'a [u64]>
    requires wide { AreWide row_states.now }
    requires fits { RouteFits row_states.now route.now }
    ensures { IfSome result (λ found. RouteFinds row_states.now route.now punct.now found.now) }
{
    match rows_of(row_states, route.owner) {
        None => None,
        Some(state) => fewest_keyed(state, route.own.as_slice(), punct),
    }
}

// The same where a pattern of the punctuation limits their own values.
fn own_limited(
    alloc: Global,
    row_states: &[State],
    route: &RecheckRoute,
    punct: &Punct,
) -> Result<Option<List<u64>>, NoMemory>
    requires wide { AreWide row_states.now }
    requires fits { RouteFits row_states.now route.now }
    ensures { IfOk result (λ found. IfSome found (RouteFinds row_states.now route.now punct.now)) }
{
    match rows_of(row_states, route.owner) {
        None => Ok(None),
        Some(state) => match limit_of(route.own.as_slice(), punct) {
            None => Ok(None),
            Some(limit) => {
                let found = matching_tickets(alloc, state, limit.column, limit.pattern)?;
                Ok(Some(found))
            }
        },
    }
}

// The tickets of the rows that ask for what the punctuation covers, by the first of these stops where a constant tells.
fn behind_by_key(
    alloc: Global,
    row_states: &[State],
    stops: &[Stop],
    punct: &Punct,
) -> Result<Option<List<u64>>, NoMemory>
    requires wide { AreWide row_states.now }
    requires fit { StopsFit row_states.now stops.now }
    ensures { IfOk result (λ found. IfSome found (StopsFind row_states.now stops.now punct.now)) }
{
    for stop in stops {
        match by_key(alloc, row_states, stop, punct)? {
            None => {}
            Some(found) => return Ok(Some(found)),
        }
    }
    Ok(None)
}

// The same by the first where a pattern limits the values.
fn behind_by_limit(
    alloc: Global,
    row_states: &[State],
    stops: &[Stop],
    punct: &Punct,
) -> Result<Option<List<u64>>, NoMemory>
    requires wide { AreWide row_states.now }
    requires fit { StopsFit row_states.now stops.now }
    ensures { IfOk result (λ found. IfSome found (StopsFind row_states.now stops.now punct.now)) }
{
    for stop in stops {
        match by_limit(alloc, row_states, stop, punct)? {
            None => {}
            Some(found) => return Ok(Some(found)),
        }
    }
    Ok(None)
}

// The tickets of the rows that ask by the route for what the punctuation covers, where patterns limit them; `None` where none
// does.
fn limited(
    alloc: Global,
    row_states: &[State],
    route: &RecheckRoute,
    punct: &Punct,
) -> Result<Option<List<u64>>, NoMemory>
    requires wide { AreWide row_states.now }
    requires fits { RouteFits row_states.now route.now }
    ensures { IfOk result (λ found. IfSome found (RouteFinds row_states.now route.now punct.now)) }
{
    match own_limited(alloc, row_states, route, punct)? {
        Some(found) => Ok(Some(found)),
        None => {
            let found = behind_by_limit(alloc, row_states, route.behind.as_slice(), punct)?;
            Ok(found)
        }
    }
}

// The same by the rows at the first stop where a constant tells, or else by patterns.
fn asking(
    alloc: Global,
    row_states: &[State],
    route: &RecheckRoute,
    punct: &Punct,
) -> Result<Option<List<u64>>, NoMemory>
    requires wide { AreWide row_states.now }
    requires fits { RouteFits row_states.now route.now }
    ensures { IfOk result (λ found. IfSome found (RouteFinds row_states.now route.now punct.now)) }
{
    match behind_by_key(alloc, row_states, route.behind.as_slice(), punct)? {
        Some(found) => Ok(Some(found)),
        None => {
            let found = limited(alloc, row_states, route, punct)?;
            Ok(found)
        }
    }
}

// Marks the rows that ask by the route for what the punctuation covers; or all.
fn mark_by(
    alloc: Global,
    due: &mut DueRechecks,
    route: &RecheckRoute,
    row_states: &[State],
    punct: &Punct,
) -> Result<(), NoMemory>
    requires wide { AreWide row_states.now }
    requires fits { RouteFits row_states.now route.now }
    ensures fewer { IsFewer due.old due.new }
    ensures left { OnOk result (RouteLeaves row_states.now route.now punct.now due.new) }
{
    if !is_wild_elsewhere(&route.scheme, punct) {
        return Ok(());
    }
    match own_rows(row_states, route, punct) {
        Some(found) => due.mark(found),
        None => match asking(alloc, row_states, route, punct)? {
            None => {
                due.mark_all();
                Ok(())
            }
            Some(found) => due.mark(found.as_slice()),
        },
    }
}

// The same among those of the route's owner.
fn mark_owner(
    alloc: Global,
    due: &mut Vec<DueRechecks>,
    route: &RecheckRoute,
    row_states: &[State],
    punct: &Punct,
) -> Result<(), NoMemory>
    requires wide { AreWide row_states.now }
    requires fits { RouteFits row_states.now route.now }
    ensures fewer { AreFewer due.old.items due.new.items }
    ensures left { OnOk result (LeavesOwner row_states.now route.now punct.now due.new.items) }
{
    if route.owner as usize >= due.len() {
        return Ok(());
    }
    mark_by(
        alloc,
        &mut due[route.owner as usize],
        route,
        row_states,
        punct,
    )?;
    Ok(())
}

// Marks the rows of each input that ask for what a punctuation covers that comes where these routes begin. On a refusal some
// may be marked.
fn mark_covered(
    alloc: Global,
    due: &mut Vec<DueRechecks>,
    routes: &[RecheckRoute],
    row_states: &[State],
    punct: &Punct,
) -> Result<(), NoMemory>
    requires wide { AreWide row_states.now }
    requires fit { RoutesFit row_states.now routes.now }
    ensures fewer { AreFewer due.old.items due.new.items }
    ensures left { OnOk result (RoutesLeave row_states.now routes.now punct.now due.new.items) }
{
    for route in routes {
        mark_owner(alloc, due, route, row_states, punct)?;
    }
    Ok(())
}

/// Marks the rows of each input that ask for what a punctuation covers that comes where these routes begin, and that none of
/// those covers which came there: of a watermark, for what lies between it and the last. So where another stream lags, rows that
/// wait for it are not judged at each watermark. On a refusal some may be marked.
pub fn mark_added(
    alloc: Global,
    due: &mut Vec<DueRechecks>,
    routes: &[RecheckRoute],
    row_states: &[State],
    came: &PunctStore,
    punct: &Punct,
) -> Result<(), NoMemory>
    requires wide { AreWide row_states.now }
    requires fit { RoutesFit row_states.now routes.now }
    ensures fewer { AreFewer due.old.items due.new.items }
    ensures left { OnOk result (RoutesLeaveBeside row_states.now routes.now came.now.kept punct.now due.new.items) }
{
    match added_by(alloc, came, punct)? {
        Added::Nothing => Ok(()),
        Added::Part(rest) => {
            mark_covered(alloc, due, routes, row_states, &rest)?;
            Ok(())
        }
        Added::Whole => {
            mark_covered(alloc, due, routes, row_states, punct)?;
            Ok(())
        }
    }
}
