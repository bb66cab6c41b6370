// The numbers of the punctuations with one constant.
ghost use Rattle.std.specs.Prelude.{◌≡◌, ◌<◌, ◌+◌, [], length, drop, IfOk, IfSome, IfNone, OnOk, OnErr};
ghost use Rattle.std.specs.Cmp.{on_equiv, partial_equiv_from_equiv};
ghost use Rattle.std.specs.Hash as fed;
ghost use Rattle.std.specs.Option.{option_copied};
ghost use Rattle.pj_value.specs.Lists.{In};
ghost use Rattle.pj_puncts.specs.Alone.{AreAmong, AreSame, IsAdded, IsOneMore, IsTaken, first_in_cell, first_told, least_in};
ghost use Rattle.pj_puncts.specs.Numbers.{AreTold, Changes, HasNone, IsOnly, are_wild, constant, constant_hash, first_filled, same_constant, told, with_last};
ghost use Rattle.pj_puncts.specs.Alike.{constant_hashes_agree, constants_equal};

use crate::cells::Cells;
use crate::index::least;
use crate::number_list::NumberList;
use indexmap::{Equivalent, IndexMap};
use pj_hash::with_value;
use pj_pattern::Pattern;
use pj_value::{List, NoMemory, Value};
use std::alloc::Global;
use std::hash::{Hash, Hasher};

/// A column with its only constant.
#[derive(Drop)]
pub struct Constant {
    column: usize,
    value: Value,
}

/// The same, lent.
#[derive(Clone, Copy)]
pub struct LentConstant<'a> {
    column: usize,
    value: &'a Value,
}

impl PartialEq for Constant {
    ghost eq = { same_constant };

    ghost laws = { partial_equiv_from_equiv constants_equal };

    fn eq(&self, other: &Constant) -> bool {
        self.column == other.column && self.value.same(&other.value)
    }
}

impl Eq for Constant {
    ghost laws = { constants_equal };
}

impl Hash for Constant {
    ghost hash_input = { λ key. fed.u64 (constant_hash key) };

    ghost respects_eq = { λ x y t. constant_hashes_agree x y t };

    fn hash<H: Hasher>(&self, state: &mut H) {
        state.write_u64(with_value(self.column as u64, &self.value));
    }
}

impl<'a> PartialEq for LentConstant<'a> {
    ghost eq = { λ x y. same_constant (constant x.column x.value.now) (constant y.column y.value.now) };

    ghost laws = { partial_equiv_from_equiv (on_equiv (λ x. constant x.column x.value.now) constants_equal) };

    fn eq(&self, other: &LentConstant<'a>) -> bool {
        self.column == other.column && self.value.same(other.value)
    }
}

impl<'a> Eq for LentConstant<'a> {
    ghost laws = { on_equiv (λ x. constant x.column x.value.now) constants_equal };
}

impl<'a> Hash for LentConstant<'a> {
    ghost hash_input = { λ key. fed.u64 (constant_hash (constant key.column key.value.now)) };

    ghost respects_eq = { λ x y t. constant_hashes_agree (constant x.column x.value.now) (constant y.column y.value.now) t };

    fn hash<H: Hasher>(&self, state: &mut H) {
        state.write_u64(with_value(self.column as u64, self.value));
    }
}

impl<'a> Equivalent<Constant> for LentConstant<'a> {
    ghost equivalent = { λ q. same_constant (constant q.column q.value.now) };

    ghost respects_hash = { λ q k t. constant_hashes_agree (constant q.column q.value.now) k t };

    ghost respects_eq = { λ q x y t. constants_equal.congr (constant q.column q.value.now) x y t };

    fn equivalent(&self, key: &Constant) -> bool {
        self.column == key.column && self.value.same(&key.value)
    }
}

/// The numbers of the punctuations of each constant in each column, in order, and the columns with constants.
#[derive(Drop)]
pub struct NumberLists {
    lists: IndexMap<Constant, NumberList>,
    columns: List<usize>,
}

impl NumberLists {
    /// The lists of no punctuations.
    pub fn new(alloc: Global) -> NumberLists
        ensures told { AreTold [] result }
        ensures none { result.lists.entries ≡ [] }
    {
        NumberLists {
            lists: IndexMap::new(alloc),
            columns: List::new(alloc),
        }
    }

    /// The numbers of a constant in a column.
    pub fn numbers(&self, column: usize, value: &Value) -> &[u64]
        ensures { result.now ≡ told self.now column value.now }
    {
        match self.lists.get(LentConstant { column, value }) {
            None => &[],
            Some(numbers) => numbers.as_slice(),
        }
    }

    /// The least number of a punctuation of one constant and so many columns that covers the cells.
    pub fn first<C: Cells>(&self, arity: usize, cells: &C) -> Option<u64>
        ensures { result ≡ first_told arity self.now (C.cells cells.now) }
    {
        if cells.count() != arity {
            return None;
        }
        self.least_in(cells)
    }

    fn least_in<C: Cells>(&self, cells: &C) -> Option<u64>
        ensures { result ≡ least_in (told self.now) (C.cells cells.now) None self.now.columns }
    {
        let mut best = None;
        for column in self.columns.as_slice() {
            best = least(best, self.first_in_cell(*column, cells.cell(*column)));
        }
        best
    }

    // The first number of the constant of a cell.
    fn first_in_cell(&self, column: usize, cell: Option<&Value>) -> Option<u64>
        ensures { result ≡ first_in_cell (told self.now) column (option_copied cell.entry) }
    {
        match cell {
            None => None,
            Some(value) => self.numbers(column, value).first().copied(),
        }
    }

    /// Takes in a punctuation with these patterns, where they have one constant and wildcards elsewhere; or not. On a refusal
    /// the lists tell the same.
    pub fn file(
        &mut self,
        alloc: Global,
        patterns: &[Pattern],
        number: u64,
    ) -> Result<bool, NoMemory>
        ensures ok { IfOk result (IsTaken patterns.now number self.old self.new) }
        ensures err { OnErr result (AreSame self.old self.new) }
    {
        match only_constant(patterns) {
            None => Ok(false),
            Some(key) => {
                self.add(alloc, key, number)?;
                Ok(true)
            }
        }
    }

    fn add(&mut self, alloc: Global, key: LentConstant<'_>, number: u64) -> Result<(), NoMemory>
        ensures ok { OnOk result (IsAdded (constant key.entry.column key.entry.value.now) number self.old self.new) }
        ensures err { OnErr result (AreSame self.old self.new) }
    {
        note(&mut self.columns, key.column)?;
        self.enter(alloc, key, number)?;
        Ok(())
    }

    fn enter(&mut self, alloc: Global, key: LentConstant<'_>, number: u64) -> Result<(), NoMemory>
        ensures tells { OnOk result (Changes (with_last number) (told self.old) (told self.new) (constant key.entry.column key.entry.value.now)) }
        ensures more { OnOk result (IsOneMore (constant key.entry.column key.entry.value.now) number self.old self.new) }
        ensures err { OnErr result (self.new.lists.entries ≡ self.old.lists.entries) }
        ensures columns { self.new.columns ≡ self.old.columns }
    {
        match self.lists.get_mut(key) {
            Some(numbers) => {
                numbers.push(alloc, number)?;
                Ok(())
            }
            None => {
                let value = key.value.copy(alloc)?;
                let column = key.column;
                self.lists
                    .insert(Constant { column, value }, NumberList::one(number))?;
                Ok(())
            }
        }
    }
}

// Notes a column, once.
fn note(columns: &mut List<usize>, column: usize) -> Result<(), NoMemory>
    ensures here { OnOk result (In column columns.new) }
    ensures others { AreAmong columns.old columns.new }
{
    if columns.as_slice().contains(&column) {
        return Ok(());
    }
    columns.push(column)?;
    Ok(())
}

// The only constant of the patterns, where they have wildcards elsewhere.
fn only_constant(patterns: &[Pattern]) -> Option<LentConstant<'_>>
    ensures some { IfSome result (λ key. IsOnly patterns.now (constant key.column key.value.now)) }
    ensures none { IfNone result (HasNone patterns.now) }
{
    let column = first_filled(patterns);
    if column >= patterns.len() {
        return None;
    }
    if !are_wild_from(patterns, column + 1) {
        return None;
    }
    match patterns[column].as_constant() {
        None => None,
        Some(value) => Some(LentConstant { column, value }),
    }
}

/// The first column without a wildcard, or the number of columns.
pub fn first_filled(patterns: &[Pattern]) -> usize
    ensures { result ≡ first_filled patterns.now }
{
    for column in 0..patterns.len() {
        if !patterns[column].is_wild() {
            return column;
        }
    }
    patterns.len()
}

/// Whether all patterns from a column on are wildcards.
pub fn are_wild_from(patterns: &[Pattern], from: usize) -> bool
    requires { from < length patterns.now + 1 }
    ensures { result ≡ are_wild (drop from patterns.now) }
{
    for column in from..patterns.len() {
        if !patterns[column].is_wild() {
            return false;
        }
    }
    true
}
