// Groups at places.
ghost use Rattle.std.specs.Prelude.{◌≡◌, None, slice_get};
ghost use Rattle.indexmap.specs.IndexMap.{set_value_at};
ghost use Rattle.pj_group.specs.Indexes.{matches_slot, shut_at, shut_over};

use crate::slots::Slots;
use pj_pattern::Punct;

/// Closes the groups at these places whose keys match; answers at how many places that is so.
pub fn close_places(slots: &mut Slots, places: &[usize], kept: &Punct) -> usize
    ensures { slots.new.entries ≡ shut_over kept.now slots.old.entries places.now }
{
    let mut closed: usize = 0;
    for place in places {
        if close_at(slots, *place, kept) {
            closed = closed.saturating_add(1);
        }
    }
    closed
}

// Closes the group at a place, where its key matches; answers whether that is so.
fn close_at(slots: &mut Slots, at: usize, kept: &Punct) -> bool
    ensures { slots.new.entries ≡ shut_at kept.now slots.old.entries at }
{
    let matches = matches_at(slots, at, kept);
    if matches {
        shut(slots, at);
    }
    matches
}

// Whether the key of the group at a place matches.
fn matches_at(slots: &Slots, at: usize, kept: &Punct) -> bool
    ensures { result ≡ matches_slot kept.now (slice_get slots.now.entries at) }
{
    match slots.get_index(at) {
        None => false,
        Some((key, _)) => kept.matches(key.row()),
    }
}

// Takes the states of the group at a place.
fn shut(slots: &mut Slots, at: usize)
    ensures { slots.new.entries ≡ set_value_at slots.old.entries at None }
{
    match slots.get_index_mut(at) {
        None => {}
        Some(states) => {
            *states = None;
        }
    }
}
