// An index: from the values of a column to the tickets of the rows that have them.
ghost use Rattle.std.specs.Prelude.{◌≡◌, [], OnOk, OnErr};
ghost use Rattle.std.specs.Option.{option_copied};
ghost use Rattle.std.specs.Ordering.{int_eq};
ghost use Rattle.pj_value.specs.declared.values.Value.{Value};
ghost use Rattle.pj_value.specs.declared.values.Value.TheVariants.{Int};
ghost use Rattle.pj_state.specs.Rising.{IsRising, itself};
ghost use Rattle.pj_state.specs.Keys.{same_text, text_key};
ghost use Rattle.pj_state.specs.Indexes.{HasFewer, HasMore, HasMoreAt, HasSame, HasSameAt, TakesAt, told, told_at};
ghost use Rattle.pj_state.specs.Least.{TellsNearest};
ghost use Rattle.pj_state.specs.Numbers.{has_tickets};

use crate::numbers::{Numbers, listed};
use crate::texts::{LentText, TextKey};
use crate::tickets::Tickets;
use crate::{NextNumber, Seek};
use indexmap::IndexMap;
use pj_value::{NoMemory, SharedText, Value};
use std::alloc::Global;

/// The tickets of each integer, and of each text.
#[derive(Drop)]
pub struct ValueIndex {
    numbers: Numbers,
    texts: IndexMap<TextKey, Tickets>,
}

impl ValueIndex {
    /// No tickets.
    pub fn new(alloc: Global) -> ValueIndex
        ensures { (v : Value) → told result v ≡ [] }
    {
        ValueIndex {
            numbers: Numbers::new(alloc),
            texts: IndexMap::new(alloc),
        }
    }

    /// The tickets of a value.
    pub fn tickets(&self, value: &Value) -> &[u64]
        ensures { result.now ≡ told self.now value.now }
    {
        match value {
            Value::Int(number) => self.numbers.tickets(*number),
            Value::Text(text) => listed(self.texts.get(LentText::of(text))),
        }
    }

    /// One more ticket for a value. On a refusal each value has the tickets that it had.
    pub fn add(&mut self, alloc: Global, value: &Value, ticket: u64) -> Result<(), NoMemory>
        ensures ok { OnOk result (HasMore (told self.new) (told self.old) value.now ticket) }
        ensures err { OnErr result (HasSame (told self.new) (told self.old)) }
    {
        match value {
            Value::Int(number) => {
                self.numbers.add(alloc, *number, ticket)?;
                Ok(())
            }
            Value::Text(text) => {
                add_to_text(&mut self.texts, alloc, text, ticket)?;
                Ok(())
            }
        }
    }

    /// Takes out a ticket of a value, where its tickets rise.
    pub fn take(&mut self, value: &Value, ticket: u64)
        ensures { IsRising itself (told self.old value.now) → HasFewer (told self.new) (told self.old) value.now ticket }
    {
        match value {
            Value::Int(number) => self.numbers.take(*number, ticket),
            Value::Text(text) => take_from_text(&mut self.texts, LentText::of(text), ticket),
        }
    }

    /// Keeps the integers that have tickets in order from now on, where there is memory for it.
    pub fn keep_order(&mut self, alloc: Global)
        ensures { self.new ≡ self.old }
    {
        self.numbers.keep_order(alloc);
    }

    /// The nearest integer that is sought and has tickets; untold where no order is kept.
    pub fn nearest_number(&self, seek: Seek) -> NextNumber
        ensures { TellsNearest (λ n. has_tickets (told self.now (Int n))) seek result }
    {
        self.numbers.nearest(seek)
    }
}

// One more ticket for a text.
fn add_to_text(
    texts: &mut IndexMap<TextKey, Tickets>,
    alloc: Global,
    text: &SharedText,
    ticket: u64,
) -> Result<(), NoMemory>
    ensures ok { OnOk result (HasMoreAt same_text (told_at same_text texts.new) (told_at same_text texts.old) (text_key text.now) ticket) }
    ensures err { OnErr result (HasSameAt (told_at same_text texts.new) (told_at same_text texts.old)) }
{
    match texts.get_mut(LentText::of(text)) {
        Some(tickets) => {
            tickets.push(alloc, ticket)?;
            Ok(())
        }
        None => {
            let key = TextKey::of(text.share()?);
            texts.insert(key, Tickets::one(ticket))?;
            Ok(())
        }
    }
}

// Takes out a ticket of a text, where its tickets rise.
fn take_from_text(texts: &mut IndexMap<TextKey, Tickets>, key: LentText<'_>, ticket: u64)
    ensures { TakesAt same_text (told_at same_text texts.new) (told_at same_text texts.old) (text_key key.entry.bytes.now) ticket }
{
    match texts.get_mut(key) {
        None => {}
        Some(tickets) => {
            tickets.take(ticket);
            if tickets.as_slice().len() == 0 {
                texts.swap_remove(key);
            }
        }
    }
}
