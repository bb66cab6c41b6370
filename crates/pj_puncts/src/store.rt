// A store of punctuations with numbers.
ghost use Rattle.std.specs.Prelude.{◌≡◌, ◌<◌, ◌+◌, [], ◌∷◌, ◌++◌, length, IfOk, IfSome, OnOk, OnErr};
ghost use Rattle.pj_puncts.specs.Givens.{marked};
ghost use Rattle.pj_puncts.specs.Indexed.{is_below};
ghost use Rattle.pj_puncts.specs.Numbers.{numbers_with};
ghost use Rattle.pj_puncts.specs.Stores.{TellsCover, covered_below, first_match_of, IsAbove, IsLeastMatch, IsOneOf};
ghost use Rattle.pj_shape.specs.Instances.{instance_of};

use crate::Given;
use crate::cells::{Cells, Instance};
use crate::index::{Index, least};
use crate::numbers::NumberLists;
use pj_pattern::Punct;
use pj_shape::Scheme;
use pj_value::{List, NoMemory, Row, Value};
use std::alloc::Global;
use std::marker::Model;

/// A punctuation and its number, as that of a line or a ticket.
#[derive(Drop)]
pub struct NumberedPunct {
    pub punct: Punct,
    pub number: u64,
}

/// The punctuations that have arrived (Tucker et al. 2003), all of one arity and with rising numbers, as those of the lines
/// of a file or the tickets of a join. A tuple that matches one of them breaks its promise. Of one with a constant in one
/// column and wildcards elsewhere the constant and the number are kept, of the others all patterns.
#[derive(Drop)]
pub struct PunctStore {
    alloc: Global,
    arity: u32,
    others: List<NumberedPunct>,
    index: Index,
    numbers: NumberLists,
}

impl Model for PunctStore {
    ghost use Rattle.pj_puncts.specs.Stores.{Store};
    ghost use Rattle.pj_puncts.specs.Alone.{IsStored, kept_of};

    ghost Value = { Store };

    ghost view = { λ s. record { arity = s.arity; kept = kept_of s.arity s.others s.numbers } };

    ghost invariant = { λ s. IsStored s.arity (kept_of s.arity s.others s.numbers) s.others s.index s.numbers };
}

impl PunctStore {
    /// An empty store for punctuations of so many columns, or `NoMemory`.
    pub fn new(alloc: Global, arity: u32) -> Result<PunctStore, NoMemory>
        ensures { IfOk result (λ store. (store.arity ≡ arity) × (store.kept ≡ [])) }
    {
        Ok(PunctStore {
            alloc,
            arity,
            others: List::new(alloc),
            index: Index::new(alloc),
            numbers: NumberLists::new(alloc),
        })
    }

    /// Puts a punctuation of this arity behind the others, with a number above all of theirs. On `NoMemory` the store is as
    /// it was.
    pub fn push(&mut self, punct: Punct, number: u64) -> Result<(), NoMemory>
        requires fits { length punct ≡ self.old.arity }
        requires rises { IsAbove number self.old.kept }
        ensures arity { self.new.arity ≡ self.old.arity }
        ensures ok { OnOk result (self.new.kept ≡ self.old.kept ++ record { punct = punct; number = number } ∷ []) }
        ensures err { OnErr result (self.new.kept ≡ self.old.kept) }
    {
        if self.numbers.file(self.alloc, punct.as_slice(), number)? {
            return Ok(());
        }
        let at = self.others.len();
        self.others.push(NumberedPunct { punct, number })?;
        match self.index.file(self.alloc, self.others.as_slice(), at) {
            Ok(()) => Ok(()),
            Err(stop) => {
                self.others.truncate(at);
                Err(stop)
            }
        }
    }

    /// The last watermark that came with the same constants, and bounds the same column at the same end; `None` where there is
    /// none, or the punctuation is no watermark: a range with one end in a column, and constants and wildcards elsewhere.
    pub fn last_like(&self, punct: &Punct) -> Option<&Punct>
        ensures { IfSome result (λ last. IsOneOf self.now.kept last.now) }
    {
        self.index
            .last_like(self.others.as_slice(), punct.as_slice())
    }

    /// The least number of a punctuation that the row matches; `None` exactly where there is none.
    pub fn first_match(&self, row: &Row) -> Option<u64>
        ensures first { result ≡ first_match_of self.now.kept row.now }
        ensures least { IsLeastMatch self.now.kept row.now result }
    {
        let alone = self.numbers.first(self.arity as usize, row);
        least(alone, self.index.first(self.others.as_slice(), row))
    }

    /// The numbers, rising, of the punctuations that have this constant in the column, counted from 0, and wildcards in all
    /// others.
    pub fn constants(&self, column: u32, value: &Value) -> &[u64]
        requires { column < self.now.arity }
        ensures { result.now ≡ numbers_with column value.now self.now.kept }
    {
        self.numbers.numbers(column as usize, value)
    }

    /// Whether a punctuation with a number below this one covers the instance of the scheme with these constants: it has a
    /// wildcard in each column that is not marked, and matches the constant in each marked one. There are as many constants
    /// as marks, and the scheme is as long as the arity.
    pub fn covers(&self, scheme: &Scheme, given: &Given<'_>, below: u64) -> bool
        requires fits { length scheme.now ≡ self.now.arity }
        requires constants { length given.now ≡ marked scheme.now }
        ensures { result ≡ covered_below self.now.kept below (instance_of scheme.now given.now) }
    {
        is_below(self.covering(scheme, given, below), below)
    }

    /// The number of a punctuation that covers the instance, one below the bound where there is one; `None` exactly where no
    /// punctuation covers it.
    pub fn covering(&self, scheme: &Scheme, given: &Given<'_>, below: u64) -> Option<u64>
        requires fits { length scheme.now ≡ self.now.arity }
        requires constants { length given.now ≡ marked scheme.now }
        ensures { TellsCover self.now.kept below (instance_of scheme.now given.now) result }
    {
        let instance = Instance { scheme, given };
        let exact = self
            .index
            .first_with(scheme, self.others.as_slice(), &instance);
        if is_below(exact, below) {
            return exact;
        }
        self.covering_cells(&instance, below)
    }

    /// The same of these cells.
    pub fn covering_cells<C: Cells>(&self, cells: &C, below: u64) -> Option<u64>
        ensures { TellsCover self.now.kept below (C.cells cells.now) result }
    {
        let alone = self.numbers.first(self.arity as usize, cells);
        if is_below(alone, below) {
            return alone;
        }
        least(alone, self.index.first(self.others.as_slice(), cells))
    }
}

// Whether a number is there and below the bound.
fn is_below(found: Option<u64>, below: u64) -> bool
    ensures { result ≡ is_below found below }
{
    match found {
        None => false,
        Some(number) => number < below,
    }
}
