// Places of groups by their integers in a key column, in order.
ghost use Rattle.std.specs.Prelude.{ℕ, ℤ, ◌≡◌, ◌<◌, ◌≤◌, ◌+◌, ◌^◌, true, length, map, IfOk, OnOk, OnErr};
ghost use Rattle.std.specs.BTreeMap.Range.{IsLeBy, IsLtBy};
ghost use Rattle.std.specs.BTreeSet.{IsUnchanged, Updates, keys_between};
ghost use Rattle.std.specs.Bound.{IsForward as AreForward};
ghost use Rattle.std.specs.List.{Contains};
ghost use Rattle.std.specs.List.Sorted.{IsStrictlyIncreasing};
ghost use Rattle.pj_group.specs.Orders.{HasIntegerMore, HasIntegers, HasOthers, IsForward, IsOrderOf, first_of, is_between, is_kept, last_of, place_cmp};

use crate::keys::Key;
use crate::slots::Slots;
use pj_value::{List, NoMemory, Value};
use std::alloc::Global;
use std::collections::BTreeSet;
use std::ops::Bound;

/// The integers from one to another, both among them; an end that is missing is no bound.
#[derive(Clone, Copy)]
pub struct Integers {
    pub low: Option<i64>,
    pub high: Option<i64>,
}

/// The integers that the first so many groups have in a key column, each with the place of its group, in order. Those of groups
/// that were closed may be missing.
#[derive(Drop)]
pub struct OrderIndex {
    upto: usize,
    places: BTreeSet<(i64, usize)>,
}

impl OrderIndex {
    /// An index of no groups.
    pub fn new(alloc: Global) -> OrderIndex
        ensures { result.upto ≡ 0 }
    {
        OrderIndex {
            upto: 0,
            places: BTreeSet::new(alloc),
        }
    }

    /// Takes in the groups that came since.
    pub fn catch_up(&mut self, slots: &Slots, column: usize) -> Result<(), NoMemory>
        requires { IsOrderOf column slots.now.entries self.old }
        ensures same { IsOrderOf column slots.now.entries self.new }
        ensures few { length slots.now.entries < 2 ^ 63 }
        ensures ok { OnOk result (length slots.now.entries ≤ self.new.upto) }
    {
        for at in self.upto..slots.len() {
            self.take_at(slots, at, column)?;
        }
        Ok(())
    }

    // Takes in the group at a place, where there is one.
    fn take_at(&mut self, slots: &Slots, at: usize, column: usize) -> Result<(), NoMemory>
        requires next { at ≡ self.old.upto }
        requires within { at < length slots.now.entries }
        requires few { at < 2 ^ 63 }
        requires same { IsOrderOf column slots.now.entries self.old }
        ensures same { IsOrderOf column slots.now.entries self.new }
        ensures ok { OnOk result (self.new.upto ≡ at + 1) }
    {
        match slots.get_index(at) {
            None => Ok(()),
            Some((key, _)) => {
                self.take_in(key, column)?;
                Ok(())
            }
        }
    }

    // Takes in the next group. On a refusal it has the same groups.
    fn take_in(&mut self, key: &Key, column: usize) -> Result<(), NoMemory>
        requires few { self.old.upto < 2 ^ 63 }
        ensures ok { OnOk result (HasIntegerMore column key.now self.old self.new) }
        ensures err { OnErr result (HasIntegers self.old self.new) }
    {
        match key.row().get(column) {
            None => {
                self.upto += 1;
                Ok(())
            }
            Some(Value::Text(_)) => {
                self.upto += 1;
                Ok(())
            }
            Some(Value::Int(number)) => {
                self.put(*number)?;
                self.upto += 1;
                Ok(())
            }
        }
    }

    // Takes in the integer of the next group. On a refusal it has the same ones.
    fn put(&mut self, number: i64) -> Result<(), NoMemory>
        ensures upto { self.new.upto ≡ self.old.upto }
        ensures ok { OnOk result (Updates place_cmp self.old.places self.new.places (number, self.old.upto) true) }
        ensures err { OnErr result (IsUnchanged self.old.places self.new.places) }
    {
        let at = self.upto;
        self.places.insert((number, at))?;
        Ok(())
    }

    /// Takes out the integers of those of these groups that were closed.
    pub fn forget_closed(&mut self, slots: &Slots, column: usize, places: &[usize])
        requires { IsOrderOf column slots.now.entries self.old }
        ensures { IsOrderOf column slots.now.entries self.new }
    {
        for place in places {
            self.forget_at(slots, column, *place);
        }
    }

    // Takes out the integer of the group at a place, where it was closed.
    fn forget_at(&mut self, slots: &Slots, column: usize, at: usize)
        requires { IsOrderOf column slots.now.entries self.old }
        ensures { IsOrderOf column slots.now.entries self.new }
    {
        match slots.get_index(at) {
            None => {}
            Some((key, states)) => match states {
                None => self.take_out(key, column, at),
                Some(_) => {}
            },
        }
    }

    // Takes out the integer that a key has, with this place.
    fn take_out(&mut self, key: &Key, column: usize, at: usize)
        ensures { HasOthers at self.old self.new }
    {
        match key.row().get(column) {
            None => {}
            Some(Value::Text(_)) => {}
            Some(Value::Int(number)) => self.remove(*number, at),
        }
    }

    fn remove(&mut self, number: i64, at: usize)
        ensures { HasOthers at self.old self.new }
    {
        self.places.remove(&(number, at));
    }

    /// The places of the groups with an integer of a range, in the order of the integers.
    pub fn between(&self, alloc: Global, range: Integers) -> Result<Vec<usize>, NoMemory>
        requires { IsForward range }
        ensures { IfOk result (λ places. (n : ℤ) (at : ℕ) → at < 2 ^ 63 → is_between range n ≡ true → is_kept self.now n at ≡ true → Contains places.items at) }
    {
        Ok(self.places_in(alloc, first_of(range.low), last_of(range.high))?)
    }

    // The places from the first to the last of these ends.
    fn places_in(
        &self,
        alloc: Global,
        first: Bound<(i64, usize)>,
        last: Bound<(i64, usize)>,
    ) -> Result<Vec<usize>, NoMemory>
        requires { AreForward (IsLeBy place_cmp) (IsLtBy place_cmp) first last }
        ensures { IfOk result (λ places. places.items ≡ map (λ place. place.1) (keys_between place_cmp first last self.now.places)) }
    {
        Ok(
            self.places
                .range((first, last))
                .map(|place| place.1)
                .collect(alloc)?,
        )
    }
}

// The first that an integer of a range may have in the index.
fn first_of(low: Option<i64>) -> Bound<(i64, usize)>
    ensures { result ≡ first_of low }
{
    match low {
        None => Bound::Unbounded,
        Some(number) => Bound::Included((number, 0)),
    }
}

fn last_of(high: Option<i64>) -> Bound<(i64, usize)>
    ensures { result ≡ last_of high }
{
    match high {
        None => Bound::Unbounded,
        Some(number) => Bound::Included((number, usize::MAX)),
    }
}

/// These places, rising, each once.
pub fn rising(places: Vec<usize>) -> List<usize>
    ensures rises { IsStrictlyIncreasing result }
    ensures keeps { (at : ℕ) → Contains places.items at → Contains result at }
{
    let mut places = places;
    places.sort_unstable();
    places.dedup();
    List::of(places)
}
