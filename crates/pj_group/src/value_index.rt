// Places of groups by their values in a key column.
ghost use Rattle.std.specs.Prelude.{◌≡◌, ◌<◌, ◌≤◌, ◌+◌, [], ◌^◌, length, OnOk, OnErr};
ghost use Rattle.std.specs.Map.{keys_of};
ghost use Rattle.pj_value.specs.declared.values.Value.{Value as AnyValue};
ghost use Rattle.pj_group.specs.Indexes.{HasOneMore, HasSame, IsIndexOf, TellsMore, TellsSame, told};

use crate::keys::{ColumnValue, Key};
use crate::slots::Slots;
use indexmap::IndexMap;
use pj_value::{List, NoMemory, Value};
use std::alloc::Global;

/// The places of the first so many groups, rising, by their values in a key column.
#[derive(Drop)]
pub struct ValueIndex {
    upto: usize,
    places: IndexMap<ColumnValue, List<usize>>,
}

impl ValueIndex {
    /// An index of no groups.
    pub fn new(alloc: Global) -> ValueIndex
        ensures upto { result.upto ≡ 0 }
        ensures none { (value : AnyValue) → told result value ≡ [] }
    {
        ValueIndex {
            upto: 0,
            places: IndexMap::new(alloc),
        }
    }

    /// The places of the groups with a value.
    pub fn places(&self, value: &ColumnValue) -> &[usize]
        ensures { result.now ≡ told self.now value.now }
    {
        match self.places.get(value) {
            None => &[],
            Some(places) => places.as_slice(),
        }
    }

    /// Takes in the groups that came since.
    pub fn catch_up(&mut self, alloc: Global, slots: &Slots, column: usize) -> Result<(), NoMemory>
        requires { IsIndexOf column (keys_of slots.now.entries) self.old }
        ensures same { IsIndexOf column (keys_of slots.now.entries) self.new }
        ensures ok { OnOk result (length (keys_of slots.now.entries) ≤ self.new.upto) }
    {
        for at in self.upto..slots.len() {
            self.take_at(alloc, slots, at, column)?;
        }
        Ok(())
    }

    // Takes in the group at a place, where there is one.
    fn take_at(
        &mut self,
        alloc: Global,
        slots: &Slots,
        at: usize,
        column: usize,
    ) -> Result<(), NoMemory>
        requires next { at ≡ self.old.upto }
        requires within { at < length slots.now.entries }
        requires few { at < 2 ^ 63 }
        requires same { IsIndexOf column (keys_of slots.now.entries) self.old }
        ensures same { IsIndexOf column (keys_of slots.now.entries) self.new }
        ensures ok { OnOk result (self.new.upto ≡ at + 1) }
    {
        match slots.get_index(at) {
            None => Ok(()),
            Some((key, _)) => {
                self.take_in(alloc, key, column)?;
                Ok(())
            }
        }
    }

    // Takes in the next group. On a refusal it has the same groups.
    fn take_in(&mut self, alloc: Global, key: &Key, column: usize) -> Result<(), NoMemory>
        requires few { self.old.upto < 2 ^ 63 }
        ensures ok { OnOk result (HasOneMore column key.now self.old self.new) }
        ensures err { OnErr result (HasSame self.old self.new) }
    {
        match key.row().get(column) {
            None => {
                self.upto += 1;
                Ok(())
            }
            Some(value) => {
                let at = self.upto;
                self.add(alloc, value, at)?;
                self.upto += 1;
                Ok(())
            }
        }
    }

    // One place more for a value. On a refusal each value has the places that it had.
    fn add(&mut self, alloc: Global, value: &Value, at: usize) -> Result<(), NoMemory>
        ensures upto { self.new.upto ≡ self.old.upto }
        ensures ok { OnOk result (TellsMore value.now at self.old self.new) }
        ensures err { OnErr result (TellsSame self.old self.new) }
    {
        let value = ColumnValue::of(alloc, value)?;
        match self.places.get_mut(&value) {
            Some(places) => {
                places.push(at)?;
                Ok(())
            }
            None => {
                let mut places = List::new(alloc);
                places.push(at)?;
                self.places.insert(value, places)?;
                Ok(())
            }
        }
    }
}
