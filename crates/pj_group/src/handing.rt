// Rows of groups that are handed out.
ghost use Rattle.std.specs.Prelude.{◌≡◌, ◌≤◌, ◌+◌, ◌^◌, ◌∷◌, [], ◌++◌, All, IfSome, map, length, nat_eq, slice_get, OnOk, OnErr, IfOk};
ghost use Rattle.std.specs.List.{IsDistinct};
ghost use Rattle.std.specs.Map.{keys_of, lookup};
ghost use Rattle.indexmap.specs.IndexMap.{get};
ghost use Rattle.pj_value.specs.Texts.{IsFront};
ghost use Rattle.pj_value.specs.Values.{row_eq};
ghost use Rattle.pj_events.specs.Patterns.{all_wild};
ghost use Rattle.pj_group.specs.Indexes.{PassNone, Reaches, closed_over};
ghost use Rattle.pj_group.specs.Insides.{AllStates, AreStates, IsBounded};
ghost use Rattle.pj_group.specs.Slots.{open_groups, state_rows, states_in};
ghost use Rattle.pj_group.specs.Steps.{closed_at, closed_rows};
ghost use Rattle.pj_events.specs.Tables.{row_of, value_of};

use crate::indexes::{Indexes, places_of};
use crate::keys::Key;
use crate::reach::Reach;
use crate::slots::Slots;
use crate::tally::Tally;
use pj_pattern::{Element, Punct};
use pj_shape::GroupSpec;
use pj_value::{List, NoMemory, Row, Value};
use std::alloc::Global;

/// Puts the rows of the groups whose keys match at the end of `out`, and then the punctuation; on a refusal nothing. They are
/// looked for where `reach` says.
pub fn hand_out(
    alloc: Global,
    spec: &GroupSpec,
    slots: &Slots,
    indexes: &Indexes,
    kept: &Punct,
    reach: &Reach,
    out: &mut List<Element>,
) -> Result<(), NoMemory>
    requires few { length kept.now + length spec.now.aggs ≤ 120 }
    requires states { AllStates (2 ^ 40) spec.now slots.now.entries }
    requires reach { Reaches kept.now slots.now.entries (get nat_eq indexes.now) reach.now }
    requires apart { IsDistinct row_eq (keys_of slots.now.entries) }
    ensures ok { OnOk result (out.new ≡ out.old ++ (closed_rows kept.now (open_groups slots.now.entries) ++ Element.Punct (kept.now ++ all_wild (length spec.now.aggs)) ∷ [])) }
    ensures err { OnErr result (out.new ≡ out.old) }
{
    let count = out.len();
    match append_all(alloc, spec, slots, indexes, kept, reach, out) {
        Ok(()) => Ok(()),
        Err(stop) => {
            out.truncate(count);
            Err(stop)
        }
    }
}

fn append_all(
    alloc: Global,
    spec: &GroupSpec,
    slots: &Slots,
    indexes: &Indexes,
    kept: &Punct,
    reach: &Reach,
    out: &mut List<Element>,
) -> Result<(), NoMemory>
    requires few { length kept.now + length spec.now.aggs ≤ 120 }
    requires states { AllStates (2 ^ 40) spec.now slots.now.entries }
    requires reach { Reaches kept.now slots.now.entries (get nat_eq indexes.now) reach.now }
    requires apart { IsDistinct row_eq (keys_of slots.now.entries) }
    ensures ok { OnOk result (out.new ≡ out.old ++ (closed_rows kept.now (open_groups slots.now.entries) ++ Element.Punct (kept.now ++ all_wild (length spec.now.aggs)) ∷ [])) }
    ensures err { OnErr result (IsFront out.old out.new) }
{
    append_closed(alloc, spec, slots, indexes, kept, reach, out)?;
    let punct = kept.widen(alloc, 0, spec.aggs.len() as u32)?;
    out.push(Element::Punct(punct))
}

// The rows of the groups whose keys match: of one key, of those at places that are found in an index, or of all that do.
fn append_closed(
    alloc: Global,
    spec: &GroupSpec,
    slots: &Slots,
    indexes: &Indexes,
    kept: &Punct,
    reach: &Reach,
    out: &mut List<Element>,
) -> Result<(), NoMemory>
    requires states { AllStates (2 ^ 40) spec.now slots.now.entries }
    requires reach { Reaches kept.now slots.now.entries (get nat_eq indexes.now) reach.now }
    requires apart { IsDistinct row_eq (keys_of slots.now.entries) }
    ensures ok { OnOk result (out.new ≡ out.old ++ closed_rows kept.now (open_groups slots.now.entries)) }
    ensures err { OnErr result (IsFront out.old out.new) }
{
    match reach {
        Reach::All => {
            append_rows(alloc, spec, slots, kept, out)?;
            Ok(())
        }
        Reach::One(key) => {
            append_one(alloc, spec, slots, key, out)?;
            Ok(())
        }
        Reach::Column(column, value) => {
            let places = places_of(indexes, *column, value);
            append_found(alloc, spec, slots, places, kept, out)?;
            Ok(())
        }
        Reach::Several(_, places) => {
            append_found(alloc, spec, slots, places.as_slice(), kept, out)?;
            Ok(())
        }
    }
}

// The rows of the open groups whose keys match, which are all among these places.
fn append_found(
    alloc: Global,
    spec: &GroupSpec,
    slots: &Slots,
    places: &[usize],
    kept: &Punct,
    out: &mut List<Element>,
) -> Result<(), NoMemory>
    requires states { AllStates (2 ^ 40) spec.now slots.now.entries }
    requires found { PassNone kept.now 0 slots.now.entries places.now }
    ensures ok { OnOk result (out.new ≡ out.old ++ closed_rows kept.now (open_groups slots.now.entries)) }
    ensures err { OnErr result (IsFront out.old out.new) }
{
    append_places(alloc, spec, slots, places, kept, out)
}

// The rows of the groups at these places, where they are open and their keys match.
fn append_places(
    alloc: Global,
    spec: &GroupSpec,
    slots: &Slots,
    places: &[usize],
    kept: &Punct,
    out: &mut List<Element>,
) -> Result<(), NoMemory>
    requires { AllStates (2 ^ 40) spec.now slots.now.entries }
    ensures ok { OnOk result (out.new ≡ out.old ++ closed_over kept.now slots.now.entries places.now) }
    ensures err { OnErr result (IsFront out.old out.new) }
{
    for place in places {
        append_at(alloc, spec, slots, *place, kept, out)?;
    }
    Ok(())
}

// Puts the row of the group of a key at the end, where it is open.
fn append_one(
    alloc: Global,
    spec: &GroupSpec,
    slots: &Slots,
    key: &Key,
    out: &mut List<Element>,
) -> Result<(), NoMemory>
    requires { AllStates (2 ^ 40) spec.now slots.now.entries }
    ensures ok { OnOk result (out.new ≡ out.old ++ state_rows key.now (states_in (lookup (row_eq key.now) slots.now.entries))) }
    ensures err { OnErr result (out.new ≡ out.old) }
{
    match slots.get(key) {
        None => Ok(()),
        Some(states) => {
            append_states(alloc, spec, key, states, out)?;
            Ok(())
        }
    }
}

// Puts the row of a group at the end, where it is open.
fn append_states(
    alloc: Global,
    spec: &GroupSpec,
    key: &Key,
    states: &Option<List<Tally>>,
    out: &mut List<Element>,
) -> Result<(), NoMemory>
    requires { IfSome states.now (AreStates (2 ^ 40) (length spec.now.aggs)) }
    ensures ok { OnOk result (out.new ≡ out.old ++ state_rows key.now states.now) }
    ensures err { OnErr result (out.new ≡ out.old) }
{
    match states {
        None => Ok(()),
        Some(tallies) => out.push(Element::Tuple(group_row(alloc, key, tallies.as_slice())?)),
    }
}

fn append_rows(
    alloc: Global,
    spec: &GroupSpec,
    slots: &Slots,
    kept: &Punct,
    out: &mut List<Element>,
) -> Result<(), NoMemory>
    requires { AllStates (2 ^ 40) spec.now slots.now.entries }
    ensures ok { OnOk result (out.new ≡ out.old ++ closed_rows kept.now (open_groups slots.now.entries)) }
    ensures err { OnErr result (IsFront out.old out.new) }
{
    for at in 0..slots.len() {
        append_at(alloc, spec, slots, at, kept, out)?;
    }
    Ok(())
}

// Puts the row of the group at a place at the end, where there is one that is open and its key matches.
fn append_at(
    alloc: Global,
    spec: &GroupSpec,
    slots: &Slots,
    at: usize,
    kept: &Punct,
    out: &mut List<Element>,
) -> Result<(), NoMemory>
    requires { AllStates (2 ^ 40) spec.now slots.now.entries }
    ensures ok { OnOk result (out.new ≡ out.old ++ closed_at kept.now (slice_get slots.now.entries at)) }
    ensures err { OnErr result (out.new ≡ out.old) }
{
    match slots.get_index(at) {
        None => Ok(()),
        Some((key, states)) => {
            append_slot(alloc, spec, key, states, kept, out)?;
            Ok(())
        }
    }
}

// Puts the row of a group at the end, where it is open and its key matches.
fn append_slot(
    alloc: Global,
    spec: &GroupSpec,
    key: &Key,
    states: &Option<List<Tally>>,
    kept: &Punct,
    out: &mut List<Element>,
) -> Result<(), NoMemory>
    requires { IfSome states.now (AreStates (2 ^ 40) (length spec.now.aggs)) }
    ensures ok { OnOk result (out.new ≡ out.old ++ closed_rows kept.now (open_groups ((key.now, states.now) ∷ []))) }
    ensures err { OnErr result (out.new ≡ out.old) }
{
    if kept.matches(key.row()) {
        append_states(alloc, spec, key, states, out)
    } else {
        Ok(())
    }
}

fn group_row(alloc: Global, key: &Key, tallies: &[Tally]) -> Result<Row, NoMemory>
    requires { All (IsBounded (2 ^ 40)) tallies.now }
    ensures { IfOk result (λ row. row ≡ row_of (key.now, tallies.now)) }
{
    let mut values = List::with_room(alloc, key.row().len())?;
    append_cells(alloc, key.row(), &mut values)?;
    append_values(alloc, tallies, &mut values)?;
    Ok(Row::of(values))
}

fn append_cells(alloc: Global, row: &Row, values: &mut List<Value>) -> Result<(), NoMemory>
    ensures { OnOk result (values.new ≡ values.old ++ row.now) }
{
    for column in 0..row.len() {
        values.push(row.at(column).copy(alloc)?)?;
    }
    Ok(())
}

fn append_values(alloc: Global, tallies: &[Tally], values: &mut List<Value>) -> Result<(), NoMemory>
    requires { All (IsBounded (2 ^ 40)) tallies.now }
    ensures { OnOk result (values.new ≡ values.old ++ map value_of tallies.now) }
{
    for tally in tallies {
        values.push(tally.value(alloc)?)?;
    }
    Ok(())
}
