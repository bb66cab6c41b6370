// The tickets of each integer of a column, and where it was asked for, the integers in order.
ghost use Rattle.std.specs.Prelude.{◌≡◌, [], OnOk, OnErr, IfOk, Some, true, false, not};
ghost use Rattle.std.specs.BTreeSet.{contains};
ghost use Rattle.std.specs.Option.{option_copied};
ghost use Rattle.std.specs.Ordering.{int_cmp, int_eq};
ghost use Rattle.pj_state.specs.Indexes.{HasMoreAt, HasSameAt, TakesAt, told_at};
ghost use Rattle.pj_state.specs.Least.{TellsNearest};
ghost use Rattle.pj_state.specs.Numbers.{IsGone, IsOrder, IsPut, Passes, are_there, has_tickets, listed, number_tickets};

use crate::tickets::Tickets;
use crate::{NextNumber, Seek};
use indexmap::IndexMap;
use pj_value::NoMemory;
use std::alloc::Global;
use std::collections::BTreeSet;
use std::marker::Model;

/// The tickets of each integer, seen as a list of integers with their tickets. The order, where there is one, has the integers
/// that have tickets.
#[derive(Drop)]
pub struct Numbers {
    tickets: IndexMap<i64, Tickets>,
    order: Option<BTreeSet<i64>>,
}

impl Model for Numbers {
    ghost use Rattle.std.specs.Prelude.{ℕ, ℤ, List};
    ghost use Rattle.pj_state.specs.Numbers.{IsOrder, number_tickets};

    ghost Value = { List (ℤ × List ℕ) };

    ghost view = { λ n. n.tickets.entries };

    ghost invariant = { λ n. IsOrder (number_tickets n.tickets.entries) n.order };
}

impl Numbers {
    /// No tickets, and no order.
    pub fn new(alloc: Global) -> Numbers
        ensures { result ≡ [] }
    {
        Numbers {
            tickets: IndexMap::new(alloc),
            order: None,
        }
    }

    /// The tickets of an integer.
    pub fn tickets(&self, number: i64) -> &[u64]
        ensures { result.now ≡ number_tickets self.now number }
    {
        listed(self.tickets.get(&number))
    }

    /// One more ticket for an integer. On a refusal each integer has the tickets that it had.
    pub fn add(&mut self, alloc: Global, number: i64, ticket: u64) -> Result<(), NoMemory>
        ensures ok { OnOk result (HasMoreAt int_eq (number_tickets self.new) (number_tickets self.old) number ticket) }
        ensures err { OnErr result (HasSameAt (number_tickets self.new) (number_tickets self.old)) }
    {
        let is_new = add_to_number(&mut self.tickets, alloc, number, ticket)?;
        if is_new {
            put_in_order(&mut self.order, number);
        }
        Ok(())
    }

    /// Takes out a ticket of an integer, where its tickets rise.
    pub fn take(&mut self, number: i64, ticket: u64)
        ensures { TakesAt int_eq (number_tickets self.new) (number_tickets self.old) number ticket }
    {
        let is_gone = take_from_number(&mut self.tickets, number, ticket);
        if is_gone {
            take_from_order(&mut self.order, number);
        }
    }

    /// Keeps the integers that have tickets in order from now on, where there is memory for it.
    pub fn keep_order(&mut self, alloc: Global)
        ensures { self.new ≡ self.old }
    {
        if self.order.is_none() {
            match order_of(alloc, &self.tickets) {
                Err(_) => {}
                Ok(order) => self.order = Some(order),
            }
        }
    }

    /// The nearest integer that is sought and has tickets; untold where no order is kept.
    pub fn nearest(&self, seek: Seek) -> NextNumber
        ensures { TellsNearest (are_there (number_tickets self.now)) seek result }
    {
        match &self.order {
            None => NextNumber::Untold,
            Some(order) => nearest(order, seek),
        }
    }
}

/// The tickets that were found.
pub fn listed(found: Option<&Tickets>) -> &[u64]
    ensures { result.now ≡ listed (option_copied found.entry) }
{
    match found {
        None => &[],
        Some(tickets) => tickets.as_slice(),
    }
}

// One more ticket for an integer; tells whether it had none.
fn add_to_number(
    numbers: &mut IndexMap<i64, Tickets>,
    alloc: Global,
    number: i64,
    ticket: u64,
) -> Result<bool, NoMemory>
    ensures ok { OnOk result (HasMoreAt int_eq (told_at int_eq numbers.new) (told_at int_eq numbers.old) number ticket) }
    ensures added { IfOk result (λ added. added ≡ not (are_there (told_at int_eq numbers.old) number)) }
    ensures err { OnErr result (HasSameAt (told_at int_eq numbers.new) (told_at int_eq numbers.old)) }
{
    match numbers.get_mut(&number) {
        Some(tickets) => {
            let had_none = is_empty(tickets.as_slice());
            tickets.push(alloc, ticket)?;
            Ok(had_none)
        }
        None => {
            numbers.insert(number, Tickets::one(ticket))?;
            Ok(true)
        }
    }
}

// Takes out a ticket of an integer, where its tickets rise; tells whether it was the last one.
fn take_from_number(numbers: &mut IndexMap<i64, Tickets>, number: i64, ticket: u64) -> bool
    ensures takes { TakesAt int_eq (told_at int_eq numbers.new) (told_at int_eq numbers.old) number ticket }
    ensures gone { IsGone (told_at int_eq numbers.new) (told_at int_eq numbers.old) number result }
{
    match numbers.get_mut(&number) {
        None => false,
        Some(tickets) => {
            tickets.take(ticket);
            if is_empty(tickets.as_slice()) {
                numbers.swap_remove(&number);
                true
            } else {
                false
            }
        }
    }
}

// Whether there are no tickets.
#[inline(always)]
fn is_empty(tickets: &[u64]) -> bool
    ensures { result ≡ not (has_tickets tickets.now) }
{
    tickets.len() == 0
}

// Puts an integer into an order. Where there is no memory for it, there is no order from now on.
fn put_in_order(order: &mut Option<BTreeSet<i64>>, number: i64)
    ensures { IsPut order.old order.new number true }
{
    match order {
        None => {}
        Some(numbers) => match put(numbers, &number) {
            Ok(()) => {}
            Err(_) => *order = None,
        },
    }
}

// Puts an integer into an order.
fn put(order: &mut BTreeSet<i64>, number: &i64) -> Result<(), NoMemory>
    ensures { OnOk result (Passes (contains int_cmp order.new) (contains int_cmp order.old) number.now true) }
{
    order.insert(*number)?;
    Ok(())
}

// Takes an integer out of an order.
fn take_from_order(order: &mut Option<BTreeSet<i64>>, number: i64)
    ensures { IsPut order.old order.new number false }
{
    match order {
        None => {}
        Some(numbers) => {
            numbers.remove(&number);
        }
    }
}

// The integers that have tickets, in order.
fn order_of(alloc: Global, numbers: &IndexMap<i64, Tickets>) -> Result<BTreeSet<i64>, NoMemory>
    ensures { IfOk result (λ order. IsOrder (told_at int_eq numbers.now) (Some order)) }
{
    let mut order = BTreeSet::new(alloc);
    for at in 0..numbers.len() {
        match numbers.get_index(at) {
            None => {}
            Some((number, tickets)) => {
                if !is_empty(tickets.as_slice()) {
                    put(&mut order, number)?;
                }
            }
        }
    }
    Ok(order)
}

// The nearest integer of an order that is sought.
fn nearest(order: &BTreeSet<i64>, seek: Seek) -> NextNumber
    ensures { TellsNearest (contains int_cmp order.now) seek result }
{
    match seek {
        Seek::AtLeast(from) => match from {
            None => match order.first() {
                None => NextNumber::Nothing,
                Some(number) => NextNumber::At(*number),
            },
            Some(from) => match order.range(from..).next() {
                None => NextNumber::Nothing,
                Some(number) => NextNumber::At(*number),
            },
        },
        Seek::AtMost(to) => match to {
            None => match order.last() {
                None => NextNumber::Nothing,
                Some(number) => NextNumber::At(*number),
            },
            Some(to) => match order.range(..=to).next_back() {
                None => NextNumber::Nothing,
                Some(number) => NextNumber::At(*number),
            },
        },
    }
}
