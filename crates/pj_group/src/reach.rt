// Where the groups that a punctuation matches are looked for.
ghost use Rattle.std.specs.Prelude.{◌<◌, length, IfOk, IfSome, Some, nat_eq};
ghost use Rattle.std.specs.Option.{option_copied};
ghost use Rattle.indexmap.specs.IndexMap.{get};
ghost use Rattle.pj_value.specs.declared.values.Value.TheVariants.{Int as AnInt};
ghost use Rattle.pj_group.specs.Indexes.{AreIndexesOf, IsSought, NeedsValue, Reaches};
ghost use Rattle.pj_group.specs.Orders.{AreEnds, IsRangeSought};

use crate::indexes::{Indexes, catch_up, places_between, places_of};
use crate::keys::{ColumnValue, Key};
use crate::order_index::{Integers, rising};
use crate::slots::Slots;
use pj_pattern::{Punct, Shape};
use pj_value::{List, NoMemory, Value};
use std::alloc::Global;

/// Where to look for groups: at one key, at the places of a value in a key column, at several places, which rise, that were
/// found by the order of a key column, or at all.
#[derive(Drop)]
pub enum Reach {
    One(Key),
    Column(usize, ColumnValue),
    Several(usize, List<usize>),
    All,
}

impl Reach {
    /// Where all open groups are found that the punctuation matches: by their key where it has constants alone, else by a column
    /// in which it has one, else by the first in which it has a range of integers, else by going through all. The indexes of
    /// these columns are brought up to date.
    #[tactic(auto, using(crate::proofs::FoundPlaces::found_pass))]
    pub fn of(
        alloc: Global,
        slots: &Slots,
        indexes: &mut Indexes,
        kept: &Punct,
    ) -> Result<Reach, NoMemory>
        requires { AreIndexesOf slots.now.entries (get nat_eq indexes.old) }
        ensures same { AreIndexesOf slots.now.entries (get nat_eq indexes.new) }
        ensures ok { IfOk result (Reaches kept.now slots.now.entries (get nat_eq indexes.new)) }
    {
        match Key::of_constants(alloc, kept)? {
            Some(key) => Ok(Reach::One(key)),
            None => match rarest(alloc, slots, indexes, kept)? {
                None => ranged(alloc, slots, indexes, kept),
                Some((column, value)) => Ok(Reach::Column(column, value)),
            },
        }
    }
}

// A column in which the punctuation has a constant, with it: of several the one with the fewest places.
fn rarest(
    alloc: Global,
    slots: &Slots,
    indexes: &mut Indexes,
    kept: &Punct,
) -> Result<Option<(usize, ColumnValue)>, NoMemory>
    requires { AreIndexesOf slots.now.entries (get nat_eq indexes.old) }
    ensures same { AreIndexesOf slots.now.entries (get nat_eq indexes.new) }
    ensures ok { IfOk result (λ best. IfSome best (IsSought kept.now slots.now.entries (get nat_eq indexes.new))) }
{
    let mut best = None;
    for column in 0..kept.len() {
        best = with_column(alloc, slots, indexes, kept, column, best)?;
    }
    Ok(best)
}

// The best so far, or this column with its constant, where it has one with fewer places.
fn with_column(
    alloc: Global,
    slots: &Slots,
    indexes: &mut Indexes,
    kept: &Punct,
    column: usize,
    best: Option<(usize, ColumnValue)>,
) -> Result<Option<(usize, ColumnValue)>, NoMemory>
    requires within { column < length kept.now }
    requires indexed { AreIndexesOf slots.now.entries (get nat_eq indexes.old) }
    requires best { IfSome best (IsSought kept.now slots.now.entries (get nat_eq indexes.old)) }
    ensures same { AreIndexesOf slots.now.entries (get nat_eq indexes.new) }
    ensures ok { IfOk result (λ best. IfSome best (IsSought kept.now slots.now.entries (get nat_eq indexes.new))) }
{
    match constant_in(alloc, kept, column)? {
        None => Ok(best),
        Some(value) => {
            catch_up(alloc, indexes, slots, column)?;
            if is_rarer(indexes, column, &value, best.as_ref()) {
                Ok(Some((column, value)))
            } else {
                Ok(best)
            }
        }
    }
}

// Whether fewer groups have this value than the best so far.
fn is_rarer(
    indexes: &Indexes,
    column: usize,
    value: &ColumnValue,
    best: Option<&(usize, ColumnValue)>,
) -> bool {
    match best {
        None => true,
        Some(one) => {
            places_of(indexes, column, value).len() < places_of(indexes, one.0, &one.1).len()
        }
    }
}

// The constant of the punctuation in a column, if that is one.
fn constant_in(alloc: Global, punct: &Punct, column: usize) -> Result<Option<ColumnValue>, NoMemory>
    requires { column < length punct.now }
    ensures { IfOk result (λ found. IfSome found (NeedsValue punct.now column)) }
{
    match punct.at(column).shape() {
        Shape::Constant(value) => Ok(Some(ColumnValue::of(alloc, value)?)),
        _ => Ok(None),
    }
}

// The places of the groups with an integer of the punctuation's first range of integers, those left out that a range closed
// before. All groups are gone through where it has none, or where these are more than half of the groups.
fn ranged(
    alloc: Global,
    slots: &Slots,
    indexes: &mut Indexes,
    kept: &Punct,
) -> Result<Reach, NoMemory>
    requires { AreIndexesOf slots.now.entries (get nat_eq indexes.old) }
    ensures same { AreIndexesOf slots.now.entries (get nat_eq indexes.new) }
    ensures ok { IfOk result (Reaches kept.now slots.now.entries (get nat_eq indexes.new)) }
{
    match first_range(kept) {
        None => Ok(Reach::All),
        Some((column, range)) => {
            let places = places_between(alloc, indexes, slots, column, range)?;
            if places.len() > slots.len() / 2 {
                Ok(Reach::All)
            } else {
                Ok(Reach::Several(column, rising(places)))
            }
        }
    }
}

// The first column in which the punctuation has a range of integers, with it.
fn first_range(kept: &Punct) -> Option<(usize, Integers)>
    ensures { IfSome result (IsRangeSought kept.now) }
{
    for column in 0..kept.len() {
        match range_in(kept, column) {
            None => {}
            Some(range) => {
                return Some((column, range));
            }
        }
    }
    None
}

// The range of the punctuation in a column, if that is one of integers.
fn range_in(punct: &Punct, column: usize) -> Option<Integers>
    requires { column < length punct.now }
    ensures { IfSome result (λ range. IsRangeSought punct.now (column, range)) }
{
    match punct.at(column).shape() {
        Shape::Range(low, high) => integers(low, high),
        _ => None,
    }
}

// The range with these ends, if it is one of integers, its low end not above its high one.
fn integers(low: Option<&Value>, high: Option<&Value>) -> Option<Integers>
    ensures { IfSome result (AreEnds (option_copied low.entry) (option_copied high.entry)) }
{
    match low {
        None => match high {
            None => None,
            Some(Value::Text(_)) => None,
            Some(Value::Int(last)) => Some(Integers {
                low: None,
                high: Some(*last),
            }),
        },
        Some(Value::Text(_)) => None,
        Some(Value::Int(first)) => up_from(*first, high),
    }
}

fn up_from(first: i64, high: Option<&Value>) -> Option<Integers>
    ensures { IfSome result (AreEnds (Some (AnInt first)) (option_copied high.entry)) }
{
    match high {
        None => Some(Integers {
            low: Some(first),
            high: None,
        }),
        Some(Value::Text(_)) => None,
        Some(Value::Int(last)) => {
            if first > *last {
                return None;
            }
            Some(Integers {
                low: Some(first),
                high: Some(*last),
            })
        }
    }
}
