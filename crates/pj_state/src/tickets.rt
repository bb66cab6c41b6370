// The tickets of the rows that have one value.
ghost use Rattle.std.specs.Prelude.{◌≡◌, [], ◌∷◌, ◌++◌, IfOk, OnOk, OnErr};
ghost use Rattle.pj_state.specs.Rising.{IsRising, itself, without};

use crate::halving::position;
use crate::remaining::Remaining;
use pj_value::NoMemory;
use std::alloc::Global;
use std::marker::Model;

/// Tickets in order, seen as their list. One alone takes no memory beside it.
#[derive(Drop)]
pub struct Tickets {
    held: Held,
}

#[derive(Drop)]
enum Held {
    Nothing,
    One([u64; 1]),
    Several(Box<Remaining<u64>>),
}

impl Model for Tickets {
    ghost use Rattle.std.specs.Prelude.{ℕ, List};
    ghost use Rattle.pj_state.specs.Tickets.{tickets_in};

    ghost Value = { List ℕ };

    ghost view = { λ t. tickets_in t.held };
}

impl Tickets {
    /// One ticket.
    pub fn one(ticket: u64) -> Tickets
        ensures { result ≡ ticket ∷ [] }
    {
        Tickets {
            held: Held::One([ticket]),
        }
    }

    /// All tickets.
    pub fn as_slice(&self) -> &[u64]
        ensures { result.now ≡ self.now }
    {
        match &self.held {
            Held::Nothing => &[],
            Held::One(ticket) => ticket.as_slice(),
            Held::Several(list) => list.as_slice(),
        }
    }

    /// One more ticket at the end. On a refusal all is as it was.
    pub fn push(&mut self, alloc: Global, ticket: u64) -> Result<(), NoMemory>
        ensures ok { OnOk result (self.new ≡ self.old ++ ticket ∷ []) }
        ensures err { OnErr result (self.new ≡ self.old) }
    {
        match &mut self.held {
            Held::Nothing => {
                self.held = Held::One([ticket]);
                Ok(())
            }
            Held::One(first) => {
                let list = two(alloc, first[0], ticket)?;
                self.held = Held::Several(Box::new(alloc, list)?);
                Ok(())
            }
            Held::Several(list) => {
                list.push(ticket)?;
                Ok(())
            }
        }
    }

    /// Takes out a ticket, where the tickets rise.
    pub fn take(&mut self, ticket: u64)
        ensures taken { IsRising itself self.old → self.new ≡ without itself ticket self.old }
        ensures none { self.old ≡ [] → self.new ≡ [] }
    {
        match &mut self.held {
            Held::Nothing => {}
            Held::One(own) => {
                if own[0] == ticket {
                    self.held = Held::Nothing;
                }
            }
            Held::Several(list) => take_from(list, ticket),
        }
    }
}

// Two tickets.
fn two(alloc: Global, first: u64, second: u64) -> Result<Remaining<u64>, NoMemory>
    ensures { IfOk result (λ t. t ≡ first ∷ second ∷ []) }
{
    let mut list = Vec::with_capacity(alloc, 2)?;
    list.push(first)?;
    list.push(second)?;
    Ok(Remaining::of(list))
}

// Takes out a ticket, where the tickets rise.
fn take_from(list: &mut Remaining<u64>, ticket: u64)
    ensures taken { IsRising itself list.old → list.new ≡ without itself ticket list.old }
    ensures none { list.old ≡ [] → list.new ≡ [] }
{
    match position(list.as_slice(), ticket) {
        None => {}
        Some(at) => {
            list.remove(at);
        }
    }
}
