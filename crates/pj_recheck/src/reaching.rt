// Rows that ask through those of other inputs, from one input of a certificate back to those before it.
ghost use Rattle.std.specs.Prelude.{ℕ, ◌≡◌, ◌++◌, IfOk, IfSome, OnOk};
ghost use Rattle.pj_value.specs.Lists.{In};
ghost use Rattle.pj_state.specs.States.{rows_with, tickets_of};
ghost use Rattle.pj_rows.specs.Tuples.{AreWide, IsWide, state_at};
ghost use Rattle.pj_recheck.specs.Recheck.{HopFits, HopsFit, HopsLead, WayFits, WayLeads};
ghost use Rattle.pj_recheck.specs.Watching.{AreWhole, HavePartners};

use crate::routes::{Hop, Pair, Way};
use pj_rows::in_order;
use pj_state::{Spot, State};
use pj_value::{List, NoMemory, Value};
use std::alloc::Global;
use std::collections::BTreeSet;

// Puts the tickets of the rows with this value at the end of `found`, where the first of them was not seen. It is from then on.
fn append_once(
    state: &State,
    column: u32,
    value: &Value,
    seen: &mut BTreeSet<u64>,
    found: &mut List<u64>,
) -> Result<(), NoMemory>
    requires indexed { In column state.now.columns }
    requires wide { IsWide state.now }
    requires whole { AreWhole state.now.rows column seen.old found.old }
    ensures whole { OnOk result (AreWhole state.now.rows column seen.new found.new) }
    ensures all { OnOk result ((ticket : ℕ) → In ticket (found.old ++ tickets_of (rows_with column value.now state.now.rows)) → In ticket found.new) }
{
    let tickets = state.tickets(column, value);
    match tickets.first() {
        None => {}
        Some(first) => {
            if seen.insert(*first)? {
                found.append(tickets)?;
            }
        }
    }
    Ok(())
}

// The tickets of the rows that have one value in the pair's columns with one of those with these tickets, each once; `None`
// where one of these has no such column.
fn partners(
    alloc: Global,
    pair: Pair,
    state: &State,
    others: &State,
    tickets: &[u64],
) -> Result<Option<List<u64>>, NoMemory>
    requires indexed { In pair.mine state.now.columns }
    requires wide { IsWide state.now }
    ensures { IfOk result (λ found. IfSome found (HavePartners state.now.rows others.now.rows pair tickets.now)) }
{
    let mut found = List::new(alloc);
    if others.len() == 0 {
        return Ok(Some(found));
    }
    let mut seen = BTreeSet::new(alloc);
    let mut near = Spot::new();
    for ticket in tickets {
        match others.get_near(*ticket, &mut near) {
            None => {}
            Some(row) => match row.get(pair.theirs as usize) {
                None => return Ok(None),
                Some(value) => append_once(state, pair.mine, value, &mut seen, &mut found)?,
            },
        }
    }
    Ok(Some(List::of(in_order(found))))
}

/// The stored rows of an input.
pub fn rows_of(row_states: &[State], input: u32) -> Option<&State>
    ensures { IfSome result (λ state. state.now ≡ state_at row_states.now input) }
{
    row_states.get(input as usize)
}

// The tickets of the rows to which a step leads back from those with these tickets; `None` where that cannot be told.
fn hop_back(
    alloc: Global,
    row_states: &[State],
    hop: Hop,
    tickets: &[u64],
) -> Result<Option<List<u64>>, NoMemory>
    requires wide { AreWide row_states.now }
    requires fits { HopFits row_states.now hop }
    ensures { IfOk result (λ found. IfSome found (HavePartners (state_at row_states.now hop.input).rows (state_at row_states.now hop.other).rows hop.pair tickets.now)) }
{
    match rows_of(row_states, hop.input) {
        None => Ok(None),
        Some(state) => match rows_of(row_states, hop.other) {
            None => Ok(None),
            Some(others) => partners(alloc, hop.pair, state, others, tickets),
        },
    }
}

// The same along all of these steps.
fn hops_back(
    alloc: Global,
    row_states: &[State],
    hops: &[Hop],
    found: List<u64>,
) -> Result<Option<List<u64>>, NoMemory>
    requires wide { AreWide row_states.now }
    requires fit { HopsFit row_states.now hops.now }
    ensures { IfOk result (λ own. IfSome own (HopsLead row_states.now hops.now found)) }
{
    let mut found = found;
    for hop in hops {
        match hop_back(alloc, row_states, *hop, found.as_slice())? {
            None => return Ok(None),
            Some(next) => found = next,
        }
    }
    Ok(Some(found))
}

/// The tickets of the rows that ask through those with such tickets at the position from which the way leads back; `None`
/// where that cannot be told.
pub fn owners(
    alloc: Global,
    row_states: &[State],
    way: &Way,
    tickets: &[u64],
) -> Result<Option<List<u64>>, NoMemory>
    requires wide { AreWide row_states.now }
    requires fits { WayFits row_states.now way.now }
    ensures { IfOk result (λ own. IfSome own (WayLeads row_states.now way.now tickets.now)) }
{
    match hop_back(alloc, row_states, way.first, tickets)? {
        None => Ok(None),
        Some(next) => {
            let own = hops_back(alloc, row_states, way.rest.as_slice(), next)?;
            Ok(own)
        }
    }
}
