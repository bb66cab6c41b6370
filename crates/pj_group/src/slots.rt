// Groups in memory.
ghost use Rattle.std.specs.Prelude.{◌≡◌, ◌&&◌, not, None, filter, is_some, nat_eq};
ghost use Rattle.std.specs.Map.{set_value};
ghost use Rattle.indexmap.specs.IndexMap.{get};
ghost use Rattle.pj_value.specs.Values.{row_eq};
ghost use Rattle.pj_events.specs.Patterns.{matches_row};
ghost use Rattle.pj_group.specs.Indexes.{AreIndexesOf};
ghost use Rattle.pj_group.specs.Slots.{is_open};

use crate::indexes::Indexes;
use crate::keys::Key;
use crate::tally::Tally;
use indexmap::IndexMap;
use pj_pattern::Punct;
use pj_value::List;

/// The groups by their keys, in the order of their first rows. One that was closed has no states, and keeps its place until
/// all such are cleared away.
pub type Slots = IndexMap<Key, Option<List<Tally>>>;

/// Clears away the groups that were closed, and then the indexes.
pub fn clear_all(slots: &mut Slots, indexes: &mut Indexes)
    ensures slots { slots.new.entries ≡ filter is_open slots.old.entries }
    ensures indexed { AreIndexesOf slots.new.entries (get nat_eq indexes.new) }
{
    clear(slots);
    indexes.clear();
}

// Clears away the groups that were closed.
fn clear(slots: &mut Slots)
    ensures { slots.new.entries ≡ filter is_open slots.old.entries }
{
    slots.retain(
        |_key: &Key, states: &mut Option<List<Tally>>| -> bool
            ensures { (result ≡ is_some states.old) × (states.new ≡ states.old) }
        { states.is_some() },
    );
}

/// Drops the groups whose keys match, and those that were closed.
pub fn drop_matched(slots: &mut Slots, kept: &Punct)
    ensures { slots.new.entries ≡ filter (λ slot. is_open slot && not (matches_row kept.now slot.0)) slots.old.entries }
{
    slots.retain(
        |key: &Key, states: &mut Option<List<Tally>>| -> bool
            ensures { (result ≡ (is_some states.old && not (matches_row kept.entry.now key.now))) × (states.new ≡ states.old) }
        { states.is_some() && !kept.matches(key.row()) },
    );
}

/// Closes the group of a key, where there is one.
pub fn close_one(slots: &mut Slots, key: &Key)
    ensures { slots.new.entries ≡ set_value (row_eq key.now) slots.old.entries None }
{
    match slots.get_mut(key) {
        None => {}
        Some(states) => {
            *states = None;
        }
    }
}
