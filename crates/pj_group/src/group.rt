// Groups.
ghost use Rattle.std.specs.Prelude.{◌≡◌, ◌<◌, ◌≤◌, ◌+◌, ◌^◌, ◌↔◌, List, [], ◌∷◌, ◌++◌, All, None, is_some, length, map, nat_eq, OnOk, OnErr, IfOk, IsErrOf, IsTrue, IfSome};
ghost use Rattle.std.specs.Map.{lookup};
ghost use Rattle.std.specs.Option.{option_copied, option_map};
ghost use Rattle.pj_value.specs.declared.values.Value.{Value};
ghost use Rattle.pj_value.specs.Values.{row_eq};
ghost use Rattle.pj_events.specs.Operators.{group_after, group_hands, picked_cells};
ghost use Rattle.indexmap.specs.IndexMap.{get};
ghost use Rattle.pj_group.specs.Indexes.{AreIndexesOf};
ghost use Rattle.pj_group.specs.Insides.{AllStates, AreStates, IsBounded};
ghost use Rattle.pj_group.specs.Renewing.{Renews};
ghost use Rattle.pj_group.specs.Slots.{open_groups};
ghost use Rattle.pj_group.specs.Steps.{Fits, IsInRange, cell_of, next_tallies, first_tally};
ghost use Rattle.pj_group.specs.Tables.{StandsFor};
ghost use Rattle.pj_events.specs.Tables.{table_of};

use crate::closing::close;
use crate::indexes::Indexes;
use crate::lent_key::LentKey;
use crate::slots::{Slots, clear_all};
use crate::tally::Tally;
use indexmap::IndexMap;
use pj_flow::cell;
use pj_pattern::{Element, Punct};
use pj_shape::{Agg, GroupSpec};
use pj_value::{List, NoMemory, Row, Value};
use std::alloc::Global;
use std::marker::Model;
use std::mem;

/// Why a group takes no element: as many have reached it as may, or memory could not be had.
#[derive(Clone, Copy, Debug, PartialEq, Eq)]
pub enum GroupStop {
    Limit,
    NoMemory,
}

impl From<NoMemory> for GroupStop {
    ghost use Rattle.pj_group.specs.declared.group.GroupStop.TheVariants.{NoMemory as OutOfMemory};

    ghost from_gives = { λ _ stop. stop ≡ OutOfMemory };

    fn from(_: NoMemory) -> GroupStop {
        GroupStop::NoMemory
    }
}

/// Rows that agree in the key columns, and the states of their aggregates. No row is kept. A contract sees what it groups by,
/// its limit, how many elements came, and what is kept, in the order of the groups' first rows.
#[derive(Drop)]
pub struct Group {
    alloc: Global,
    spec: GroupSpec,
    limit: u64,
    count: u64,
    slots: Slots,
    // Of the key columns in which a punctuation had a constant, but not in all.
    indexes: Indexes,
    // How many places of closed groups punctuations came to since groups were cleared away.
    closings: usize,
    // Room in which the next states of a group are made.
    room: List<Tally>,
}

impl Model for Group {
    ghost use Rattle.pj_group.specs.Tables.{GroupView};
    ghost use Rattle.std.specs.Prelude.{nat_eq};
    ghost use Rattle.indexmap.specs.IndexMap.{get};
    ghost use Rattle.pj_group.specs.Insides.{IsHeld};
    ghost use Rattle.pj_group.specs.Slots.{open_groups};

    ghost Value = { GroupView };

    ghost view = { λ g. record { spec = g.spec; limit = g.limit; count = g.count; table = open_groups g.slots.entries } };

    ghost invariant = { λ g. IsHeld g.spec g.limit g.count g.slots.entries (get nat_eq g.indexes) };
}

impl Group {
    /// A group that takes at most `limit` elements, up to 2^40, and to which nothing has come.
    pub fn new(alloc: Global, spec: GroupSpec, limit: u64) -> Result<Group, NoMemory>
        requires { limit ≤ 2 ^ 40 }
        ensures { IfOk result (λ group. group ≡ record { spec = spec; limit = limit; count = 0; table = table_of spec [] }) }
    {
        Ok(Group {
            alloc,
            spec,
            limit,
            count: 0,
            slots: IndexMap::new(alloc),
            indexes: IndexMap::new(alloc),
            closings: 0,
            room: List::new(alloc),
        })
    }

    /// Takes a tuple. On a refusal the group is as before.
    ///
    /// `Limit` comes exactly where as many elements have come as may.
    pub fn tuple(&mut self, row: Row) -> Result<(), GroupStop>
        requires fits { Fits self.old.spec (length row) }
        ensures keeps { OnOk result ((rows : List (List Value)) → StandsFor self.old rows → StandsFor self.new (rows ++ row ∷ [])) }
        ensures counts { OnOk result (self.new ≡ record self.old { count = self.old.count + 1; table = self.new.table }) }
        ensures limit { IsErrOf result GroupStop.Limit ↔ (self.old.count ≡ self.old.limit) }
        ensures refused { OnErr result (self.new ≡ self.old) }
    {
        if is_full(self.count, self.limit) {
            return Err(GroupStop::Limit);
        }
        take_row(
            self.alloc,
            self.count,
            &self.spec,
            &mut self.slots,
            &mut self.indexes,
            &row,
            &mut self.room,
        )?;
        self.count += 1;
        Ok(())
    }

    /// Takes a punctuation. Where it is a wildcard in every column that is no key column, it puts at the end of `out` a row
    /// for each group whose key it matches, in the order of the groups' first rows, and then the punctuation, cut to the key
    /// columns and with a wildcard for each aggregate; these groups are dropped. On a refusal the group and `out` are as before.
    ///
    /// `Limit` comes exactly where as many elements have come as may.
    pub fn punct(&mut self, punct: Punct, out: &mut List<Element>) -> Result<(), GroupStop>
        requires fits { All (λ column. column < length punct) self.old.spec.keys }
        requires few { length self.old.spec.keys + length self.old.spec.aggs ≤ 120 }
        ensures keeps { OnOk result ((rows : List (List Value)) → StandsFor self.old rows → StandsFor self.new (group_after self.old.spec rows (Element.Punct punct))) }
        ensures hands { OnOk result ((rows : List (List Value)) → StandsFor self.old rows → out.new ≡ out.old ++ group_hands self.old.spec rows (Element.Punct punct)) }
        ensures counts { OnOk result (self.new ≡ record self.old { count = self.old.count + 1; table = self.new.table }) }
        ensures limit { IsErrOf result GroupStop.Limit ↔ (self.old.count ≡ self.old.limit) }
        ensures refused { OnErr result ((self.new ≡ self.old) × (out.new ≡ out.old)) }
    {
        if is_full(self.count, self.limit) {
            return Err(GroupStop::Limit);
        }
        close(
            self.alloc,
            self.count,
            &self.spec,
            &mut self.slots,
            &mut self.indexes,
            &mut self.closings,
            &punct,
            out,
        )?;
        self.count += 1;
        Ok(())
    }
}

fn is_full(count: u64, limit: u64) -> bool
    ensures { IsTrue result ↔ (count ≡ limit) }
{
    count == limit
}

// Takes a row; so many elements came before. Where its group is there and open it is looked up once, and no key is made; where
// it was closed, the groups that were closed are cleared away, so that it comes last.
fn take_row(
    alloc: Global,
    count: u64,
    spec: &GroupSpec,
    slots: &mut Slots,
    indexes: &mut Indexes,
    row: &Row,
    room: &mut List<Tally>,
) -> Result<(), NoMemory>
    requires few { count < 2 ^ 40 }
    requires fits { Fits spec.now (length row.now) }
    requires states { AllStates count spec.now slots.old.entries }
    requires indexed { AreIndexesOf slots.old.entries (get nat_eq indexes.old) }
    ensures keeps { OnOk result ((rows : List (List Value)) → open_groups slots.old.entries ≡ table_of spec.now rows → open_groups slots.new.entries ≡ table_of spec.now (rows ++ row.now ∷ [])) }
    ensures states { OnOk result (AllStates (count + 1) spec.now slots.new.entries) }
    ensures err { OnErr result (open_groups slots.new.entries ≡ open_groups slots.old.entries) }
    ensures left { OnErr result (AllStates count spec.now slots.new.entries) }
    ensures indexed { AreIndexesOf slots.new.entries (get nat_eq indexes.new) }
{
    let key = LentKey::of(spec.keys.as_slice(), row);
    match renew_at(alloc, count, spec, slots, &key, row, room)? {
        Found::Open => Ok(()),
        Found::Closed => {
            clear_all(slots, indexes);
            add(alloc, count, spec, slots, indexes, &key, row)?;
            Ok(())
        }
        Found::Missing => {
            add(alloc, count, spec, slots, indexes, &key, row)?;
            Ok(())
        }
    }
}

// Takes a row whose key is new; so many elements came before.
fn add(
    alloc: Global,
    count: u64,
    spec: &GroupSpec,
    slots: &mut Slots,
    indexes: &Indexes,
    key: &LentKey<'_>,
    row: &Row,
) -> Result<(), NoMemory>
    requires new { lookup (row_eq key.now) slots.old.entries ≡ None }
    requires is { key.now ≡ picked_cells spec.now.keys row.now }
    requires fits { All (IsInRange (length row.now)) spec.now.aggs }
    requires states { AllStates count spec.now slots.old.entries }
    requires indexed { AreIndexesOf slots.old.entries (get nat_eq indexes.now) }
    ensures keeps { OnOk result ((rows : List (List Value)) → open_groups slots.old.entries ≡ table_of spec.now rows → open_groups slots.new.entries ≡ table_of spec.now (rows ++ row.now ∷ [])) }
    ensures states { OnOk result (AllStates (count + 1) spec.now slots.new.entries) }
    ensures err { OnErr result (slots.new.entries ≡ slots.old.entries) }
    ensures indexed { AreIndexesOf slots.new.entries (get nat_eq indexes.now) }
{
    let made = key.key(alloc)?;
    let tallies = first_tallies(alloc, spec.aggs.as_slice(), row)?;
    slots.insert(made, Some(tallies))?;
    Ok(())
}

// What stands for a key: an open group, one that was closed, or nothing.
enum Found {
    Open,
    Closed,
    Missing,
}

// Takes a row of this key where its group is there and open; answers what stood there. Else, and on a refusal, the groups are
// as before.
fn renew_at(
    alloc: Global,
    count: u64,
    spec: &GroupSpec,
    slots: &mut Slots,
    key: &LentKey<'_>,
    row: &Row,
    room: &mut List<Tally>,
) -> Result<Found, NoMemory>
    requires few { count < 2 ^ 40 }
    requires fits { All (IsInRange (length row.now)) spec.now.aggs }
    requires states { AllStates count spec.now slots.old.entries }
    ensures is { IfOk result (Renews (next_tallies row.now spec.now.aggs) slots.old.entries key.now slots.new.entries) }
    ensures states { OnOk result (AllStates (count + 1) spec.now slots.new.entries) }
    ensures err { OnErr result (slots.new.entries ≡ slots.old.entries) }
{
    match slots.get_mut(key) {
        None => Ok(Found::Missing),
        Some(states) => {
            if renew(alloc, count, spec.aggs.as_slice(), states, row, room)? {
                Ok(Found::Open)
            } else {
                Ok(Found::Closed)
            }
        }
    }
}

// The states of a group after a row, where it is open; answers whether it is.
fn renew(
    alloc: Global,
    count: u64,
    aggs: &[Agg],
    states: &mut Option<List<Tally>>,
    row: &Row,
    room: &mut List<Tally>,
) -> Result<bool, NoMemory>
    requires few { count < 2 ^ 40 }
    requires fits { All (IsInRange (length row.now)) aggs.now }
    requires states { IfSome states.old (AreStates count (length aggs.now)) }
    ensures open { IfOk result (λ was_open. was_open ≡ is_some states.old) }
    ensures ok { OnOk result (states.new ≡ option_map (next_tallies row.now aggs.now) states.old) }
    ensures states { OnOk result (IfSome states.new (AreStates (count + 1) (length aggs.now))) }
    ensures err { OnErr result (states.new ≡ states.old) }
{
    match states {
        None => Ok(false),
        Some(tallies) => {
            next_tallies(alloc, count, aggs, tallies.as_slice(), row, room)?;
            mem::swap(tallies, room);
            Ok(true)
        }
    }
}

fn first_tallies(alloc: Global, aggs: &[Agg], row: &Row) -> Result<List<Tally>, NoMemory>
    requires { All (IsInRange (length row.now)) aggs.now }
    ensures is { IfOk result (λ tallies. tallies ≡ map (first_tally row.now) aggs.now) }
    ensures bounded { IfOk result (All (IsBounded 1)) }
{
    let mut made = List::with_room(alloc, aggs.len())?;
    for agg in aggs {
        made.push(Tally::first(alloc, *agg, row)?)?;
    }
    Ok(made)
}

// Makes the next states in this room.
fn next_tallies(
    alloc: Global,
    count: u64,
    aggs: &[Agg],
    tallies: &[Tally],
    row: &Row,
    made: &mut List<Tally>,
) -> Result<(), NoMemory>
    requires few { count < 2 ^ 40 }
    requires fits { All (IsInRange (length row.now)) aggs.now }
    requires states { AreStates count (length aggs.now) tallies.now }
    ensures is { OnOk result (made.new ≡ next_tallies row.now aggs.now tallies.now) }
    ensures states { OnOk result (AreStates (count + 1) (length aggs.now) made.new) }
{
    made.truncate(0);
    for at in 0..aggs.len() {
        made.push(tallies[at].next(alloc, count, read(aggs[at], row))?)?;
    }
    Ok(())
}

// The value that an aggregate reads of a row.
fn read(agg: Agg, row: &Row) -> Option<&Value>
    requires { IsInRange (length row.now) agg }
    ensures { option_copied result ≡ cell_of row.now agg }
{
    match agg {
        Agg::Count => None,
        Agg::Sum(column) => Some(cell(row, column)),
        Agg::Min(column) => Some(cell(row, column)),
        Agg::Max(column) => Some(cell(row, column)),
    }
}
