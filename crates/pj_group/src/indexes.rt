// Indexes of groups by a key column.
ghost use Rattle.std.specs.Prelude.{◌≡◌, ◌≤◌, length, nat_eq, IfOk, OnOk};
ghost use Rattle.std.specs.Map.{keys_of};
ghost use Rattle.indexmap.specs.IndexMap.{get};
ghost use Rattle.pj_group.specs.Indexes.{AreIndexesOf, IsColumnOf, IsWhole, StayWhole, told_by};
ghost use Rattle.pj_group.specs.Orders.{FindsAll, IsForward};

use crate::keys::ColumnValue;
use crate::order_index::{Integers, OrderIndex};
use crate::slots::Slots;
use crate::value_index::ValueIndex;
use indexmap::IndexMap;
use pj_value::NoMemory;
use std::alloc::Global;

/// The indexes of a column: by its values, for constants, and by its integers in order, for ranges. Each has the groups that
/// there were when it was last asked; the one by order need not have those that were closed.
#[derive(Drop)]
pub struct ColumnIndex {
    values: ValueIndex,
    order: OrderIndex,
}

/// The indexes that were asked for, by their columns. They stand until groups are cleared away.
pub type Indexes = IndexMap<usize, ColumnIndex>;

impl ColumnIndex {
    // Indexes of no groups.
    fn new(alloc: Global, column: usize, slots: &Slots) -> ColumnIndex
        ensures { IsColumnOf column slots.now.entries result }
    {
        ColumnIndex {
            values: ValueIndex::new(alloc),
            order: OrderIndex::new(alloc),
        }
    }

    // Brings the index by values up to date.
    fn catch_up(&mut self, alloc: Global, slots: &Slots, column: usize) -> Result<(), NoMemory>
        requires { IsColumnOf column slots.now.entries self.old }
        ensures same { IsColumnOf column slots.now.entries self.new }
        ensures ok { OnOk result (length (keys_of slots.now.entries) ≤ self.new.values.upto) }
    {
        self.values.catch_up(alloc, slots, column)
    }

    // Takes those of these groups that were closed out of the index by order.
    fn forget_closed(&mut self, slots: &Slots, column: usize, places: &[usize])
        requires { IsColumnOf column slots.now.entries self.old }
        ensures { IsColumnOf column slots.now.entries self.new }
    {
        self.order.forget_closed(slots, column, places);
    }

    // The places of the groups with an integer of a range; those that were closed may be missing. The index by order is brought
    // up to date.
    fn between(
        &mut self,
        alloc: Global,
        slots: &Slots,
        column: usize,
        range: Integers,
    ) -> Result<Vec<usize>, NoMemory>
        requires forward { IsForward range }
        requires same { IsColumnOf column slots.now.entries self.old }
        ensures same { IsColumnOf column slots.now.entries self.new }
        ensures values { self.new.values ≡ self.old.values }
        ensures ok { IfOk result (λ places. FindsAll column slots.now.entries range places.items) }
    {
        self.order.catch_up(slots, column)?;
        Ok(self.order.between(alloc, range)?)
    }
}

/// Brings the index of a column by values up to date; the first time it is made.
pub fn catch_up(
    alloc: Global,
    indexes: &mut Indexes,
    slots: &Slots,
    column: usize,
) -> Result<(), NoMemory>
    requires { AreIndexesOf slots.now.entries (get nat_eq indexes.old) }
    ensures same { AreIndexesOf slots.now.entries (get nat_eq indexes.new) }
    ensures ok { OnOk result (IsWhole column slots.now.entries (get nat_eq indexes.new column)) }
    ensures others { OnOk result (StayWhole slots.now.entries (get nat_eq indexes.old) (get nat_eq indexes.new)) }
{
    match indexes.get_mut(&column) {
        Some(index) => {
            index.catch_up(alloc, slots, column)?;
            Ok(())
        }
        None => {
            let mut index = ColumnIndex::new(alloc, column, slots);
            index.catch_up(alloc, slots, column)?;
            indexes.insert(column, index)?;
            Ok(())
        }
    }
}

/// The places of the groups with a value in a column, rising.
pub fn places_of<'a>(indexes: &'a Indexes, column: usize, value: &ColumnValue) -> &'a [usize]
    ensures { result.now ≡ told_by (get nat_eq indexes.now column) value.now }
{
    match indexes.get(&column) {
        None => &[],
        Some(index) => index.values.places(value),
    }
}

/// Takes those of these groups that were closed out of the index of a column by order, so that no range comes to them again.
pub fn forget_closed(indexes: &mut Indexes, slots: &Slots, column: usize, places: &[usize])
    requires { AreIndexesOf slots.now.entries (get nat_eq indexes.old) }
    ensures { AreIndexesOf slots.now.entries (get nat_eq indexes.new) }
{
    match indexes.get_mut(&column) {
        None => {}
        Some(index) => index.forget_closed(slots, column, places),
    }
}

/// The places of the groups with an integer of a range in a column; those that were closed may be missing. The index of the
/// column is brought up to date; the first time it is made.
pub fn places_between(
    alloc: Global,
    indexes: &mut Indexes,
    slots: &Slots,
    column: usize,
    range: Integers,
) -> Result<Vec<usize>, NoMemory>
    requires forward { IsForward range }
    requires indexed { AreIndexesOf slots.now.entries (get nat_eq indexes.old) }
    ensures same { AreIndexesOf slots.now.entries (get nat_eq indexes.new) }
    ensures ok { IfOk result (λ places. FindsAll column slots.now.entries range places.items) }
{
    match indexes.get_mut(&column) {
        Some(index) => Ok(index.between(alloc, slots, column, range)?),
        None => {
            let mut index = ColumnIndex::new(alloc, column, slots);
            let places = index.between(alloc, slots, column, range)?;
            indexes.insert(column, index)?;
            Ok(places)
        }
    }
}
