// A punctuation: a pattern for each column.
ghost use Rattle.std.specs.Prelude.{◌≡◌, ◌<◌, ◌≤◌, ◌+◌, ◌++◌, ◌||◌, All, IfOk, OnErr, OnOk, length, slice_get, take, Some};
ghost use Rattle.pj_value.specs.Lists.{has};
ghost use Rattle.pj_pattern.specs.Columns.{all_wild, covers_punct, keep_of, matches_row, others_wild, picked_patterns, widen_of};
ghost use Rattle.pj_pattern.specs.Patterns.{is_wild};

use crate::Pattern;
use pj_value::{List, NoMemory, Row, TryClone};
use std::alloc::Global;
use std::marker::Model;

/// A punctuation (Tucker et al. 2003): a pattern for each column, which promises that no later tuple of its stream matches
/// them all. A contract sees the list of the patterns.
#[derive(Drop)]
pub struct Punct {
    patterns: List<Pattern>,
}

impl Model for Punct {
    ghost use Rattle.std.specs.Prelude.{List};
    ghost use Rattle.pj_pattern.specs.declared.pattern.Form.{Form};

    ghost Value = { List Form };

    ghost view = { λ p. p.patterns };
}

impl Punct {
    /// The punctuation of these patterns.
    pub fn of(patterns: List<Pattern>) -> Punct
        ensures { result ≡ patterns }
    {
        Punct { patterns }
    }

    /// A punctuation with so many wildcards, or `NoMemory`. It closes a stream of that many columns.
    pub fn all_wild(alloc: Global, arity: u32) -> Result<Punct, NoMemory>
        ensures { IfOk result (λ p. p ≡ all_wild arity) }
    {
        let mut patterns = List::new(alloc);
        append_wild(arity as usize, &mut patterns)?;
        Ok(Punct { patterns })
    }

    /// How many patterns it has.
    pub fn len(&self) -> usize
        ensures { result ≡ length self.now }
    {
        self.patterns.len()
    }

    /// The pattern of a column, counted from 0 and below the length.
    pub fn at(&self, column: usize) -> &Pattern
        requires { column < length self.now }
        ensures { slice_get self.now column ≡ Some result.now }
    {
        &self.patterns.as_slice()[column]
    }

    /// All patterns in order.
    pub fn as_slice(&self) -> &[Pattern]
        ensures { result.now ≡ self.now }
    {
        self.patterns.as_slice()
    }

    /// Whether it has a pattern for each value of the row, and each matches its value.
    pub fn matches(&self, row: &Row) -> bool
        ensures { result ≡ matches_row self.now row.now }
    {
        all_match(self.patterns.as_slice(), row)
    }

    /// Whether both are of one length, and it covers the other in every column.
    pub fn covers(&self, other: &Punct) -> bool
        ensures { result ≡ covers_punct self.now other.now }
    {
        all_cover(self.patterns.as_slice(), other.patterns.as_slice())
    }

    /// The punctuation cut to these columns, in this order; a column may be named twice. `None` exactly where a column that
    /// is not named is no wildcard. `NoMemory` comes only where memory could not be had.
    pub fn keep(&self, alloc: Global, columns: &[u32]) -> Result<Option<Punct>, NoMemory>
        requires { All (λ column. column < length self.now) columns.now }
        ensures { IfOk result (λ kept. kept ≡ keep_of columns.now self.now) }
    {
        if !others_are_wild(self.patterns.as_slice(), columns) {
            return Ok(None);
        }
        Ok(Some(Punct {
            patterns: pick(alloc, self.patterns.as_slice(), columns)?,
        }))
    }

    /// The punctuation with so many wildcards in front and behind, or `NoMemory`. It has at most 120 patterns then.
    pub fn widen(&self, alloc: Global, before: u32, after: u32) -> Result<Punct, NoMemory>
        requires { before + length self.now + after ≤ 120 }
        ensures { IfOk result (λ p. p ≡ widen_of before after self.now) }
    {
        let mut patterns = List::new(alloc);
        append_wild(before as usize, &mut patterns)?;
        append_copies(alloc, self.patterns.as_slice(), &mut patterns)?;
        append_wild(after as usize, &mut patterns)?;
        Ok(Punct { patterns })
    }

    /// An equal punctuation, or `NoMemory`.
    pub fn copy(&self, alloc: Global) -> Result<Punct, NoMemory>
        ensures { IfOk result (λ p. p ≡ self.now) }
    {
        Ok(Punct {
            patterns: self.patterns.try_clone(alloc)?,
        })
    }
}

/// Appends so many wildcards, or `NoMemory`, and then what stood there stands in front of some of them.
#[tactic(auto, using(crate::proofs::Rows::front_of))]
pub fn append_wild(count: usize, patterns: &mut List<Pattern>) -> Result<(), NoMemory>
    ensures ok { OnOk result (patterns.new ≡ patterns.old ++ all_wild count) }
    ensures err { OnErr result (take (length patterns.old) patterns.new ≡ patterns.old) }
{
    for _column in 0..count {
        patterns.push(Pattern::wild())?;
    }
    Ok(())
}

/// Appends equal patterns, or `NoMemory`, and then what stood there stands in front of some of them.
#[tactic(auto, using(crate::proofs::Rows::front_of))]
pub fn append_copies(
    alloc: Global,
    patterns: &[Pattern],
    out: &mut List<Pattern>,
) -> Result<(), NoMemory>
    ensures ok { OnOk result (out.new ≡ out.old ++ patterns.now) }
    ensures err { OnErr result (take (length out.old) out.new ≡ out.old) }
{
    for pattern in patterns {
        out.push(pattern.copy(alloc)?)?;
    }
    Ok(())
}

#[tactic(auto, using(crate::proofs::Rows::matches_length))]
fn all_match(patterns: &[Pattern], row: &Row) -> bool
    ensures { result ≡ matches_row patterns.now row.now }
{
    if patterns.len() != row.len() {
        return false;
    }
    for i in 0..patterns.len() {
        if !patterns[i].matches(row.at(i)) {
            return false;
        }
    }
    true
}

#[tactic(auto, using(crate::proofs::Rows::covers_length))]
fn all_cover(patterns: &[Pattern], others: &[Pattern]) -> bool
    ensures { result ≡ covers_punct patterns.now others.now }
{
    if patterns.len() != others.len() {
        return false;
    }
    for i in 0..patterns.len() {
        if !patterns[i].covers(&others[i]) {
            return false;
        }
    }
    true
}

// Whether each pattern whose column is not one of these is a wildcard.
fn others_are_wild(patterns: &[Pattern], columns: &[u32]) -> bool
    ensures { result ≡ others_wild columns.now 0 patterns.now }
{
    for at in 0..patterns.len() {
        if !is_named_or_wild(columns, at, &patterns[at]) {
            return false;
        }
    }
    true
}

fn is_named_or_wild(columns: &[u32], at: usize, pattern: &Pattern) -> bool
    ensures { result ≡ (has columns.now at || is_wild pattern.now) }
{
    is_named(columns, at) || pattern.is_wild()
}

fn is_named(columns: &[u32], at: usize) -> bool
    ensures { result ≡ has columns.now at }
{
    columns.iter().any(|column| *column as usize == at)
}

// The patterns of these columns, in their order.
fn pick(alloc: Global, patterns: &[Pattern], columns: &[u32]) -> Result<List<Pattern>, NoMemory>
    requires { All (λ column. column < length patterns.now) columns.now }
    ensures { IfOk result (λ l. l ≡ picked_patterns columns.now patterns.now) }
{
    let mut chosen = List::new(alloc);
    for column in columns {
        chosen.push(patterns[*column as usize].copy(alloc)?)?;
    }
    Ok(chosen)
}
