// Groups that a punctuation closes.
ghost use Rattle.std.specs.Prelude.{ℕ, ◌≡◌, ◌<◌, ◌≤◌, ◌+◌, ◌^◌, ◌++◌, All, not, filter, length, nat_eq, OnOk, OnErr};
ghost use Rattle.std.specs.List.{IsDistinct};
ghost use Rattle.std.specs.Map.{keys_of};
ghost use Rattle.indexmap.specs.IndexMap.{get};
ghost use Rattle.pj_shape.specs.declared.groups.GroupSpec.{GroupSpec as AnySpec};
ghost use Rattle.pj_value.specs.Values.{row_eq};
ghost use Rattle.pj_events.specs.Patterns.{matches_row};
ghost use Rattle.pj_group.specs.Indexes.{AreIndexesOf, PassNone, Reaches};
ghost use Rattle.pj_group.specs.Insides.{AllStates};
ghost use Rattle.pj_group.specs.Slots.{OpensNone, open_groups};
ghost use Rattle.pj_group.specs.Steps.{table_after, table_hands};

use crate::handing::hand_out;
use crate::indexes::{Indexes, forget_closed, places_of};
use crate::places::close_places;
use crate::reach::Reach;
use crate::slots::{Slots, clear_all, close_one, drop_matched};
use pj_pattern::{Element, Punct};
use pj_shape::GroupSpec;
use pj_value::{List, NoMemory};
use std::alloc::Global;

/// Hands out the rows of the groups that the punctuation closes, and the punctuation, and drops these groups; so many elements
/// came before, and punctuations came to so many places of closed groups since groups were cleared away. On a refusal the
/// groups and `out` are as before.
pub fn close(
    alloc: Global,
    count: u64,
    spec: &GroupSpec,
    slots: &mut Slots,
    indexes: &mut Indexes,
    closings: &mut usize,
    punct: &Punct,
    out: &mut List<Element>,
) -> Result<(), NoMemory>
    requires fits { All (λ column. column < length punct.now) spec.now.keys }
    requires few { length spec.now.keys + length spec.now.aggs ≤ 120 }
    requires count { count < 2 ^ 40 }
    requires states { AllStates count spec.now slots.old.entries }
    requires indexed { AreIndexesOf slots.old.entries (get nat_eq indexes.old) }
    ensures states { OnOk result (AllStates (count + 1) spec.now slots.new.entries) }
    ensures indexed { AreIndexesOf slots.new.entries (get nat_eq indexes.new) }
    ensures keeps { OnOk result (open_groups slots.new.entries ≡ table_after spec.now (open_groups slots.old.entries) punct.now) }
    ensures hands { OnOk result (out.new ≡ out.old ++ table_hands spec.now (open_groups slots.old.entries) punct.now) }
    ensures slots { OnErr result (slots.new.entries ≡ slots.old.entries) }
    ensures out { OnErr result (out.new ≡ out.old) }
{
    match punct.keep(alloc, spec.keys.as_slice())? {
        None => Ok(()),
        Some(kept) => {
            let reach = Reach::of(alloc, slots, indexes, &kept)?;
            let places = slots.len();
            hand_out(alloc, spec, slots, indexes, &kept, &reach, out)?;
            drop_closed(slots, indexes, places, closings, &kept, &reach);
            Ok(())
        }
    }
}

// Drops the groups whose keys match. Those that are looked up keep their places without states until such punctuations came to
// more than half as many places of closed groups as there are places. Those that were found by the order of a column are taken
// out of it, so that no later range comes to their places.
fn drop_closed(
    slots: &mut Slots,
    indexes: &mut Indexes,
    places: usize,
    closings: &mut usize,
    kept: &Punct,
    reach: &Reach,
)
    requires reach { Reaches kept.now slots.old.entries (get nat_eq indexes.old) reach.now }
    requires apart { IsDistinct row_eq (keys_of slots.old.entries) }
    requires indexed { AreIndexesOf slots.old.entries (get nat_eq indexes.old) }
    ensures keeps { open_groups slots.new.entries ≡ filter (λ e. not (matches_row kept.now e.0)) (open_groups slots.old.entries) }
    ensures states { (count : ℕ) (spec : AnySpec) → AllStates count spec slots.old.entries → AllStates count spec slots.new.entries }
    ensures indexed { AreIndexesOf slots.new.entries (get nat_eq indexes.new) }
{
    match reach {
        Reach::All => {
            drop_matched(slots, kept);
            indexes.clear();
            *closings = 0;
        }
        Reach::One(key) => {
            close_one(slots, key);
            *closings = cleared(slots, indexes, places, closings.saturating_add(1));
        }
        Reach::Column(column, value) => {
            let closed = close_found(slots, places_of(indexes, *column, value), kept);
            *closings = cleared(slots, indexes, places, closings.saturating_add(closed));
        }
        Reach::Several(column, found) => {
            let closed = close_found(slots, found.as_slice(), kept);
            forget_closed(indexes, slots, *column, found.as_slice());
            *closings = cleared(slots, indexes, places, closings.saturating_add(closed));
        }
    }
}

// Closes the open groups whose keys match, which are all among these places; answers how many places have keys that match.
fn close_found(slots: &mut Slots, places: &[usize], kept: &Punct) -> usize
    requires found { PassNone kept.now 0 slots.old.entries places.now }
    ensures keeps { open_groups slots.new.entries ≡ filter (λ e. not (matches_row kept.now e.0)) (open_groups slots.old.entries) }
    ensures states { (count : ℕ) (spec : AnySpec) → AllStates count spec slots.old.entries → AllStates count spec slots.new.entries }
    ensures opens { OpensNone slots.old.entries slots.new.entries }
{
    close_places(slots, places, kept)
}

// Clears away the groups that were closed, and the indexes, where so many closings are more than half the places; answers how
// many are left.
fn cleared(slots: &mut Slots, indexes: &mut Indexes, places: usize, closings: usize) -> usize
    requires indexed { AreIndexesOf slots.old.entries (get nat_eq indexes.old) }
    ensures same { open_groups slots.new.entries ≡ open_groups slots.old.entries }
    ensures states { (count : ℕ) (spec : AnySpec) → AllStates count spec slots.old.entries → AllStates count spec slots.new.entries }
    ensures indexed { AreIndexesOf slots.new.entries (get nat_eq indexes.new) }
{
    if closings > places / 2 {
        clear_all(slots, indexes);
        0
    } else {
        closings
    }
}
