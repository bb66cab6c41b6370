// The punctuations that wait at a join.
ghost use Rattle.std.specs.Prelude.{ℕ, ◌≡◌, ◌<◌, ◌≤◌, ◌++◌, ◌∷◌, [], true, false, length, IfSome, IfNone, IfOk, OnOk, OnErr};
ghost use Rattle.pj_events.specs.Join.{In, PunctAt};
ghost use Rattle.pj_state.specs.Rising.{IsRising, itself};
ghost use Rattle.pj_waiting.specs.Holding.{AreFreed, KeepsLists, is_listed, waits_at, held_at};
ghost use Rattle.pj_waiting.specs.Leaving.{HasUnder, KeepsOthers, puncts_but, puncts_without};

use crate::held::HeldPunct;
use pj_value::{List, NoMemory};
use std::alloc::Global;
use std::collections::{BTreeMap, BTreeSet};
use std::marker::Model;
use std::ops::Bound;

/// The punctuations that wait, by their tickets. Each is listed under the ticket of a stored tuple that holds it back, so that
/// those are found which tuples that go held back.
#[derive(Drop)]
pub struct Waiting {
    puncts: BTreeMap<u64, HeldPunct>,
    by_blocker: BTreeSet<(u64, u64)>,
}

/// What a sweep leaves of the punctuations that wait: the tickets of those that go up, which rise, and what was listed under
/// the tuples that go, each time the tuple's ticket and the punctuation's.
#[derive(Drop)]
pub struct StillWaiting {
    pub goes: List<u64>,
    pub freed: List<(u64, u64)>,
}

impl Model for Waiting {
    ghost use Rattle.pj_waiting.specs.Holding.{WaitingView, waiting_in};

    ghost Value = { WaitingView };

    ghost view = { λ w. record { puncts = waiting_in w.puncts.entries; listed = w.by_blocker.keys } };
}

impl Waiting {
    /// None waits.
    pub fn new(alloc: Global) -> Waiting
        ensures { result.puncts ≡ [] }
    {
        Waiting {
            puncts: BTreeMap::new(alloc),
            by_blocker: BTreeSet::new(alloc),
        }
    }

    /// How many wait.
    pub fn len(&self) -> usize
        ensures len { result ≡ length self.now.puncts }
        ensures rising { IsRising held_at self.now.puncts }
    {
        self.puncts.len()
    }

    /// One more waits, which came last.
    pub fn push(&mut self, ticket: u64, punct: HeldPunct) -> Result<(), NoMemory>
        requires { (p : PunctAt) → In p self.old.puncts → p.ticket < ticket }
        ensures ok { OnOk result (self.new.puncts ≡ self.old.puncts ++ waits_at ticket punct ∷ []) }
        ensures err { OnErr result (self.new.puncts ≡ self.old.puncts) }
        ensures by_blocker { self.new.listed ≡ self.old.listed }
    {
        self.puncts.insert(ticket, punct)?;
        Ok(())
    }

    /// Lists a punctuation under a tuple.
    pub fn list(&mut self, blocker: u64, ticket: u64) -> Result<(), NoMemory>
        ensures ok { OnOk result (is_listed self.new (blocker, ticket) ≡ true) }
        ensures keeps { KeepsLists self.old self.new }
        ensures puncts { self.new.puncts ≡ self.old.puncts }
    {
        self.by_blocker.insert((blocker, ticket))?;
        Ok(())
    }

    /// What is listed under these tuples, whose tickets rise: each time the tuple's ticket and the punctuation's. Steps over
    /// the tuples that nothing is listed under.
    pub fn blocked_by(&self, alloc: Global, blockers: &[u64]) -> Result<List<(u64, u64)>, NoMemory>
        requires { IsRising itself blockers.now }
        ensures all { IfOk result (λ listed. (t n : ℕ) → In t blockers.now → is_listed self.now (t, n) ≡ true → In (t, n) listed) }
        ensures those { IfOk result (λ listed. AreFreed blockers.now listed) }
    {
        let mut listed = List::new(alloc);
        let mut next = 0;
        for blocker in blockers {
            if *blocker >= next {
                match self.append_under(*blocker, &mut listed)? {
                    None => return Ok(listed),
                    Some(first) => next = first,
                }
            }
        }
        Ok(listed)
    }

    // Puts what is listed under a tuple at the end of `listed`. Answers the next tuple behind it that something is listed under.
    fn append_under(
        &self,
        blocker: u64,
        listed: &mut List<(u64, u64)>,
    ) -> Result<Option<u64>, NoMemory>
        ensures found { OnOk result (HasUnder self.now blocker listed.old listed.new) }
        ensures none { IfOk result (λ next. IfNone next ((t n : ℕ) → blocker < t → is_listed self.now (t, n) ≡ false)) }
        ensures some { IfOk result (λ next. IfSome next (λ first. (t n : ℕ) → blocker < t → is_listed self.now (t, n) ≡ true → first ≤ t)) }
    {
        let from = Bound::Included((blocker, 0));
        for listing in self.by_blocker.range((from, Bound::Unbounded)) {
            if listing.0 != blocker {
                return Ok(Some(listing.0));
            }
            listed.push(*listing)?;
        }
        Ok(None)
    }

    /// The punctuation with a ticket; `None` exactly where none waits.
    pub fn get(&self, ticket: u64) -> Option<&HeldPunct>
        ensures found { IfSome result (λ punct. In (waits_at ticket punct.now) self.now.puncts) }
        ensures missing { IfNone result ((p : PunctAt) → In p self.now.puncts → p.ticket ≡ ticket → ⊥) }
    {
        self.puncts.get(&ticket)
    }

    /// Takes out the punctuation with a ticket, where one waits.
    pub fn remove(&mut self, ticket: u64)
        ensures puncts { self.new.puncts ≡ puncts_but ticket self.old.puncts }
        ensures by_blocker { self.new.listed ≡ self.old.listed }
    {
        self.puncts.remove(&ticket);
    }

    /// Takes over what a sweep leaves.
    pub fn leave(&mut self, left: &StillWaiting)
        ensures puncts { self.new.puncts ≡ puncts_without left.now.goes self.old.puncts }
        ensures by_blocker { KeepsOthers left.now.freed self.old self.new }
    {
        for ticket in left.goes.as_slice() {
            self.remove(*ticket);
        }
        for listing in left.freed.as_slice() {
            self.by_blocker.remove(listing);
        }
    }
}
