// Punctuations that a join hands up, or that wait.
ghost use Rattle.std.specs.Prelude.{◌≡◌, ◌<◌, ◌++◌, ◌∷◌, [], ℕ, not, true, false, length, map, sum, take, OnOk, OnErr, IfOk, IfSome};
ghost use Rattle.pj_events.specs.Join.{In, PunctAt};
ghost use Rattle.pj_events.specs.Patterns.{all_wild};
ghost use Rattle.pj_shape.specs.Sound.{arities_of};
ghost use Rattle.pj_state.specs.Rising.{IsRising};
ghost use Rattle.pj_puncts.specs.Stores.{IsAbove};
ghost use Rattle.pj_waiting.specs.Holding.{AreFreed, AreHeldBy, IsLetGo, IsListedIf, KeepsLists, StayHeld, is_listed, tickets_where, arriving_punct, held_at, IsSwept, goes_up};
ghost use Rattle.pj_waiting.specs.Letting.{going_at_once, letting_go, waiting_with, widened_among};
ghost use Rattle.pj_rows.specs.Finding.{still_held};

use crate::held::{ArrivingPunct, HeldPunct};
use crate::waiting::{StillWaiting, Waiting};
use pj_pattern::{Pattern, Punct, append_copies, append_wild};
use pj_puncts::PunctStore;
use pj_rows::{find, find_left, in_order};
use pj_shape::Schema;
use pj_state::State;
use pj_value::{List, NoMemory};
use std::alloc::Global;

// A wildcard for each column of these inputs.
#[tactic(auto, using(crate::proofs::SortedOut::wilds_more))]
fn append_wilds(schemas: &[Schema], patterns: &mut List<Pattern>) -> Result<(), NoMemory>
    ensures { OnOk result (patterns.new ≡ patterns.old ++ all_wild (sum (arities_of schemas.now))) }
{
    for schema in schemas {
        append_wild(schema.len(), patterns)?;
    }
    Ok(())
}

// How many columns these inputs have together.
fn width_of(schemas: &[Schema]) -> usize {
    let mut width = 0_usize;
    for schema in schemas {
        width = width.saturating_add(schema.len());
    }
    width
}

// The patterns of a punctuation of an input with wildcards for the columns of the other inputs.
fn widened(
    alloc: Global,
    schemas: &[Schema],
    input: u32,
    own: &[Pattern],
) -> Result<Punct, NoMemory>
    requires { input < length schemas.now }
    ensures { IfOk result (λ p. (ticket : ℕ) → p ≡ widened_among schemas.now (record { ticket = ticket; input = input; patterns = own.now })) }
{
    let (before, from) = schemas.split_at(input as usize);
    let (_, behind) = from.split_at(1);
    let mut patterns = List::with_room(alloc, width_of(schemas))?;
    append_wilds(before, &mut patterns)?;
    append_copies(alloc, own, &mut patterns)?;
    append_wilds(behind, &mut patterns)?;
    Ok(Punct::of(patterns))
}

/// An input as a sweep leaves it: the columns of all inputs, its number, its rows, and the tickets of those that go, in order.
#[derive(Clone, Copy)]
pub struct Swept<'a> {
    pub schemas: &'a [Schema],
    pub input: u32,
    pub state: &'a State,
    pub gone: &'a [u64],
}

// The second of each of these.
fn punct_tickets(alloc: Global, listed: &[(u64, u64)]) -> Result<List<u64>, NoMemory>
    ensures { IfOk result (λ tickets. tickets ≡ map (λ q. q.1) listed.now) }
{
    let mut tickets = List::with_room(alloc, listed.len())?;
    for listing in listed {
        tickets.push(listing.1)?;
    }
    Ok(tickets)
}

impl<'a> Swept<'a> {
    // Puts the punctuation of the input with a ticket at the end of those that go up, widened, where no row that stays matches
    // it; else by_blocker it under one.
    fn let_one_go(
        &self,
        alloc: Global,
        ticket: u64,
        waiting: &mut Waiting,
        goes: &mut List<u64>,
        out: &mut List<Punct>,
    ) -> Result<(), NoMemory>
        requires swept { IsSwept self.now }
        requires rising { IsRising held_at waiting.old.puncts }
        ensures ok { OnOk result (IsLetGo self.now waiting.new ticket goes.old goes.new out.old out.new) }
        ensures err { OnErr result (out.new ≡ out.old) }
        ensures puncts { waiting.new.puncts ≡ waiting.old.puncts }
        ensures keeps { KeepsLists waiting.old waiting.new }
    {
        match waiting.get(ticket) {
            None => Ok(()),
            Some(punct) => {
                if punct.input() != self.input {
                    return Ok(());
                }
                match find_left(self.state, self.gone, punct.punct()) {
                    None => {
                        goes.push(ticket)?;
                        let own = punct.punct().as_slice();
                        out.push(widened(alloc, self.schemas, self.input, own)?)?;
                        Ok(())
                    }
                    Some(found) => {
                        waiting.list(found, ticket)?;
                        Ok(())
                    }
                }
            }
        }
    }

    /// Puts the waiting punctuations of the input that none of its rows but those that go matches at the end of `out`, widened,
    /// and answers what is left of those that wait. Looks at those alone that are listed under a row that goes, and by_blocker each
    /// that waits on under one that stays.
    pub fn let_go(
        &self,
        alloc: Global,
        waiting: &mut Waiting,
        out: &mut List<Punct>,
    ) -> Result<StillWaiting, NoMemory>
        requires swept { IsSwept self.now }
        requires held { AreHeldBy self.now.state.now.rows self.now.input waiting.old }
        ensures goes { IfOk result (λ left. left.goes ≡ tickets_where (goes_up self.now) waiting.old.puncts) }
        ensures freed { IfOk result (λ left. AreFreed self.now.gone.now left.freed) }
        ensures held { OnOk result (StayHeld self.now.state.now.rows self.now.gone.now self.now.input waiting.new) }
        ensures puncts { waiting.new.puncts ≡ waiting.old.puncts }
        ensures keeps { KeepsLists waiting.old waiting.new }
        ensures rising { OnOk result (IsRising held_at waiting.old.puncts) }
        ensures ok { let s = self.now in OnOk result (out.new ≡ out.old ++ letting_go s.schemas.now s.state.now.rows s.gone.now s.input waiting.old.puncts) }
        ensures err { OnErr result (take (length out.old) out.new ≡ out.old) }
    {
        if waiting.len() == 0 || self.gone.len() == 0 {
            return Ok(StillWaiting {
                goes: List::new(alloc),
                freed: List::new(alloc),
            });
        }
        let freed = waiting.blocked_by(alloc, self.gone)?;
        let tickets = in_order(punct_tickets(alloc, freed.as_slice())?);
        let mut goes = List::new(alloc);
        for ticket in tickets.as_slice() {
            self.let_one_go(alloc, *ticket, waiting, &mut goes, out)?;
        }
        Ok(StillWaiting { goes, freed })
    }
}

// Keeps a punctuation among all, and a copy among those that wait, listed under the tuple with this ticket; or neither.
fn keep_waiting(
    alloc: Global,
    store: &mut PunctStore,
    waiting: &mut Waiting,
    arriving: ArrivingPunct,
    blocker: u64,
) -> Result<(), NoMemory>
    requires fits { length arriving.punct ≡ store.old.arity }
    requires rises { IsAbove arriving.ticket store.old.kept }
    requires before { (p : PunctAt) → In p waiting.old.puncts → p.ticket < arriving.ticket }
    ensures arity { store.new.arity ≡ store.old.arity }
    ensures store { OnOk result (store.new.kept ≡ store.old.kept ++ record { punct = arriving.punct; number = arriving.ticket } ∷ []) }
    ensures waiting { OnOk result (waiting.new.puncts ≡ waiting.old.puncts ++ arriving_punct arriving ∷ []) }
    ensures listed { OnOk result (is_listed waiting.new (blocker, arriving.ticket) ≡ true) }
    ensures keeps { KeepsLists waiting.old waiting.new }
    ensures err { OnErr result ((store.new.kept ≡ store.old.kept) × (waiting.new.puncts ≡ waiting.old.puncts)) }
{
    let ArrivingPunct {
        ticket,
        input,
        punct,
    } = arriving;
    waiting.list(blocker, ticket)?;
    waiting.push(ticket, HeldPunct::new(alloc, input, &punct)?)?;
    match store.push(punct, ticket) {
        Ok(()) => Ok(()),
        Err(stop) => {
            waiting.remove(ticket);
            Err(stop)
        }
    }
}

// Keeps a punctuation among all, and puts it at the end of those that go up, widened; or neither.
fn hand_up(
    alloc: Global,
    schemas: &[Schema],
    store: &mut PunctStore,
    arriving: ArrivingPunct,
    out: &mut List<Punct>,
) -> Result<(), NoMemory>
    requires there { arriving.input < length schemas.now }
    requires fits { length arriving.punct ≡ store.old.arity }
    requires rises { IsAbove arriving.ticket store.old.kept }
    ensures arity { store.new.arity ≡ store.old.arity }
    ensures store { OnOk result (store.new.kept ≡ store.old.kept ++ record { punct = arriving.punct; number = arriving.ticket } ∷ []) }
    ensures out { OnOk result (out.new ≡ out.old ++ widened_among schemas.now (arriving_punct arriving) ∷ []) }
    ensures err { OnErr result ((store.new.kept ≡ store.old.kept) × (out.new ≡ out.old)) }
{
    let ArrivingPunct {
        ticket,
        input,
        punct,
    } = arriving;
    let count = out.len();
    out.push(widened(alloc, schemas, input, punct.as_slice())?)?;
    match store.push(punct, ticket) {
        Ok(()) => Ok(()),
        Err(stop) => {
            out.truncate(count);
            Err(stop)
        }
    }
}

/// Keeps a punctuation of an input with these rows: it waits where a row matches it, and is put at the end of `out` where none
/// does, widened. On a refusal all is as before, but for what is listed.
pub fn receive(
    alloc: Global,
    schemas: &[Schema],
    state: &State,
    store: &mut PunctStore,
    waiting: &mut Waiting,
    arriving: ArrivingPunct,
    out: &mut List<Punct>,
) -> Result<(), NoMemory>
    requires there { arriving.input < length schemas.now }
    requires fits { length arriving.punct ≡ store.old.arity }
    requires rises { IsAbove arriving.ticket store.old.kept }
    requires before { (p : PunctAt) → In p waiting.old.puncts → p.ticket < arriving.ticket }
    ensures arity { store.new.arity ≡ store.old.arity }
    ensures store { OnOk result (store.new.kept ≡ store.old.kept ++ record { punct = arriving.punct; number = arriving.ticket } ∷ []) }
    ensures waiting { let held = still_held state.now.rows [] arriving.punct in OnOk result (waiting.new.puncts ≡ waiting_with held waiting.old.puncts (arriving_punct arriving)) }
    ensures listed { OnOk result (IsListedIf (still_held state.now.rows [] arriving.punct) state.now.rows arriving.punct arriving.ticket waiting.new) }
    ensures keeps { KeepsLists waiting.old waiting.new }
    ensures out { let held = still_held state.now.rows [] arriving.punct in OnOk result (out.new ≡ out.old ++ going_at_once schemas.now held (arriving_punct arriving)) }
    ensures err { OnErr result ((store.new.kept ≡ store.old.kept) × (waiting.new.puncts ≡ waiting.old.puncts) × (out.new ≡ out.old)) }
{
    match find(state, &[], &arriving.punct) {
        Some(found) => keep_waiting(alloc, store, waiting, arriving, found),
        None => hand_up(alloc, schemas, store, arriving, out),
    }
}
