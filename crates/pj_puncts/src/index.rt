// An index of punctuations by their forms.
ghost use Rattle.std.specs.Prelude.{◌≡◌, ◌<◌, ◌≤◌, ◌+◌, [], None, IfOk, IfSome, OnOk, OnErr, length, map, slice_get};
ghost use Rattle.pj_puncts.specs.Stores.{IsOneOf};
ghost use Rattle.pj_puncts.specs.Indexed.{AreChained, AreSetsChained, ChainTakes, ColumnsStay, ColumnsTake, FitsAt, IsChained, IsColumnFor, IsCovering, IsFiled, IsFilled, IsIndexed, IsLeastOfColumns, IsOfColumn, IsSetFor, IsUnfiled, SetStays, SetTakes, SetsStay, SetsTake, covered_in, covers_in, first_at, first_covering, fits_mark, fits_marks, is_constant, least, least_of_sets, number_at, slot};

use crate::cells::{Cells, constants_hash};
use crate::number_list::NumberList;
use crate::numbers::{are_wild_from, first_filled};
use crate::store::NumberedPunct;
use indexmap::IndexMap;
use pj_intervals::FirstIndex;
use pj_pattern::{Pattern, Punct, Shape};
use pj_shape::Scheme;
use pj_value::{List, NoMemory};
use std::alloc::Global;

/// The column of a range with one end, and whether that is the low one.
#[derive(Clone, Copy, Drop)]
pub struct Bound {
    column: usize,
    has_low: bool,
}

/// Punctuations of one shape: constants in the marked columns and wildcards elsewhere, but where a column has a bound. For each
/// hash of constants the places of some, in order, of which each covers all that the one before it covers, as watermarks of one
/// key do.
#[derive(Drop)]
pub struct ShapeSet {
    marks: List<bool>,
    bound: Option<Bound>,
    chains: IndexMap<u64, NumberList>,
}

/// Punctuations of so many columns with wildcards in all but this one, as ranges and lists of one column: the places by the
/// patterns there.
#[derive(Drop)]
pub struct ColumnIndex {
    arity: usize,
    column: usize,
    patterns: FirstIndex,
}

/// Where to look for a punctuation that covers some cells: which it can be, by their places.
#[derive(Drop)]
pub struct Index {
    sets: Vec<ShapeSet>,
    columns: Vec<ColumnIndex>,
    rest: List<usize>,
}

impl Index {
    /// The index of no punctuations.
    pub fn new(alloc: Global) -> Index
        ensures { IsIndexed [] result }
    {
        Index {
            sets: Vec::new(alloc),
            columns: Vec::new(alloc),
            rest: List::new(alloc),
        }
    }

    /// The number of the first of the punctuations that cover the cells.
    #[tactic(auto, using(crate::proofs::Lookups::index_first))]
    pub fn first<C: Cells>(&self, kept: &[NumberedPunct], cells: &C) -> Option<u64>
        requires { IsIndexed kept.now self.now }
        ensures { result ≡ first_covering kept.now (C.cells cells.now) }
    {
        let best = least_of_sets(self.sets.as_slice(), kept, cells);
        let best = least_of_columns(self.columns.as_slice(), kept, cells, best);
        least(best, first_at(self.rest.as_slice(), kept, cells))
    }

    /// The number of a punctuation that covers the cells, looked for among those with constants in exactly these columns and
    /// wildcards elsewhere.
    pub fn first_with<C: Cells>(
        &self,
        scheme: &Scheme,
        kept: &[NumberedPunct],
        cells: &C,
    ) -> Option<u64>
        requires { IsIndexed kept.now self.now }
        ensures { IfSome result (IsCovering kept.now (C.cells cells.now)) }
    {
        for set in &self.sets {
            if set.bound.is_none() && has_marks(set.marks.as_slice(), scheme) {
                return first_in_set(set, kept, cells);
            }
        }
        None
    }

    /// The last watermark that has this one's constants and bounds the same column at the same end; `None` where there is none,
    /// or this is no watermark.
    pub fn last_like<'a>(
        &self,
        kept: &'a [NumberedPunct],
        patterns: &[Pattern],
    ) -> Option<&'a Punct>
        ensures { IfSome result (λ last. IsOneOf kept.now last.now) }
    {
        match bound_of(patterns) {
            None => None,
            Some(None) => None,
            Some(bound) => match set_for(self.sets.as_slice(), patterns, bound) {
                None => None,
                Some(place) => match last_in_set(&self.sets[place], patterns) {
                    None => None,
                    Some(at) => match kept.get(at) {
                        None => None,
                        Some(one) => Some(&one.punct),
                    },
                },
            },
        }
    }

    /// Takes in the punctuation at the last place. On a refusal the index is still that of those before.
    pub fn file(&mut self, alloc: Global, kept: &[NumberedPunct], at: usize) -> Result<(), NoMemory>
        requires { at + 1 ≡ length kept.now }
        ensures ok { OnOk result (IsFiled kept.now self.old self.new) }
        ensures err { OnErr result (IsUnfiled self.old self.new) }
    {
        if file_in_sets(&mut self.sets, alloc, kept, at)? {
            return Ok(());
        }
        if file_in_columns(&mut self.columns, alloc, kept, at)? {
            return Ok(());
        }
        self.rest.push(at)?;
        Ok(())
    }
}

// ---- looking up

/// The lesser of two numbers that may be there.
pub fn least(one: Option<u64>, other: Option<u64>) -> Option<u64>
    ensures { result ≡ least one other }
{
    match one {
        None => other,
        Some(n) => match other {
            None => Some(n),
            Some(m) => { if m < n { Some(m) } else { Some(n) } }
        },
    }
}

// The number of the punctuation at a place, where it covers the cells.
fn number_at<C: Cells>(kept: &[NumberedPunct], at: usize, cells: &C) -> Option<u64>
    ensures { result ≡ number_at kept.now (C.cells cells.now) at }
{
    match kept.get(at) {
        None => None,
        Some(one) => {
            if cells.are_covered_by(&one.punct) {
                Some(one.number)
            } else {
                None
            }
        }
    }
}

// The first number of a set: that of the chain of the cells' constants.
fn first_in_set<C: Cells>(set: &ShapeSet, kept: &[NumberedPunct], cells: &C) -> Option<u64>
    requires { AreChained kept.now set.now }
    ensures { result ≡ first_at kept.now (C.cells cells.now) (slot (C.cells cells.now) set.now) }
{
    match set.chains.get(&cells.hash_value(set.marks.as_slice())) {
        None => None,
        Some(chain) => first_in_chain(chain.as_slice(), kept, cells),
    }
}

fn least_of_sets<C: Cells>(sets: &[ShapeSet], kept: &[NumberedPunct], cells: &C) -> Option<u64>
    requires { AreSetsChained kept.now sets.now }
    ensures { result ≡ least_of_sets kept.now (C.cells cells.now) None sets.now }
{
    let mut best = None;
    for set in sets {
        best = least(best, first_in_set(set, kept, cells));
    }
    best
}

// The place to look at next between these: in steps from the end that grow, then in the middle.
fn next_place(low: usize, high: usize, step: usize) -> usize
    requires { low < high }
    ensures from { low ≤ result }
    ensures below { result < high }
{
    let half = (high - low) / 2;
    if step < half {
        high - 1 - step
    } else {
        low + half
    }
}

// The first number of a chain. What is asked for is mostly covered by no place, or by one of the last alone.
fn first_in_chain<C: Cells>(places: &[u64], kept: &[NumberedPunct], cells: &C) -> Option<u64>
    requires { IsChained kept.now places.now }
    ensures { result ≡ first_at kept.now (C.cells cells.now) places.now }
{
    let mut low = 0;
    let mut high = places.len();
    let mut step = 0_usize;
    let mut found = None;
    while low < high {
        let middle = next_place(low, high, step);
        match number_at(kept, places[middle] as usize, cells) {
            None => low = middle + 1,
            Some(number) => {
                found = Some(number);
                high = middle;
                step = step.saturating_mul(2).saturating_add(1);
            }
        }
    }
    found
}

// The number of the first punctuation of a column that covers the cells.
fn number_in_column<C: Cells>(index: &ColumnIndex, kept: &[NumberedPunct], cells: &C) -> Option<u64>
    ensures { IsOfColumn kept.now (C.cells cells.now) index.now result }
{
    match cells.cell(index.column) {
        None => None,
        Some(value) => match index.patterns.first(value) {
            None => None,
            Some(at) => number_at(kept, at, cells),
        },
    }
}

fn least_of_columns<C: Cells>(
    columns: &[ColumnIndex],
    kept: &[NumberedPunct],
    cells: &C,
    best: Option<u64>,
) -> Option<u64>
    ensures { IsLeastOfColumns kept.now (C.cells cells.now) best columns.now result }
{
    let mut lesser = best;
    for column in columns {
        lesser = least(lesser, number_in_column(column, kept, cells));
    }
    lesser
}

// The number of the first punctuation at these places that covers the cells.
fn first_at<C: Cells>(places: &[usize], kept: &[NumberedPunct], cells: &C) -> Option<u64>
    ensures { result ≡ first_at kept.now (C.cells cells.now) places.now }
{
    for at in places {
        match number_at(kept, *at, cells) {
            None => {}
            Some(number) => return Some(number),
        }
    }
    None
}

// ---- taking in

// Whether these are the marks of the scheme.
fn has_marks(marks: &[bool], scheme: &Scheme) -> bool {
    if marks.len() != scheme.len() {
        return false;
    }
    for column in 0..marks.len() {
        if marks[column] != *scheme.at(column) {
            return false;
        }
    }
    true
}

// Whether the patterns are constants in exactly the marked columns.
fn fits_marks(marks: &[bool], patterns: &[Pattern]) -> bool
    ensures { result ≡ fits_marks marks.now patterns.now }
{
    if marks.len() != patterns.len() {
        return false;
    }
    for column in 0..marks.len() {
        if !fits_mark(marks[column], &patterns[column]) {
            return false;
        }
    }
    true
}

fn fits_mark(is_marked: bool, pattern: &Pattern) -> bool
    ensures { result ≡ fits_mark is_marked pattern.now }
{
    is_constant(pattern) == is_marked
}

fn is_constant(pattern: &Pattern) -> bool
    ensures { result ≡ is_constant pattern.now }
{
    match pattern.shape() {
        Shape::Wild => false,
        Shape::Empty => false,
        Shape::Constant(_) => true,
        Shape::Range(_, _) => false,
        Shape::Members(_) => false,
    }
}

// Which columns have constants.
fn marks_of(alloc: Global, patterns: &[Pattern]) -> Result<List<bool>, NoMemory>
    ensures { IfOk result (λ marks. marks ≡ map is_constant patterns.now) }
{
    let mut marks = List::with_room(alloc, patterns.len())?;
    for pattern in patterns {
        marks.push(is_constant(pattern))?;
    }
    Ok(marks)
}

// Whether both are the same bound.
fn same_bound(one: Option<Bound>, other: Option<Bound>) -> bool {
    match one {
        None => other.is_none(),
        Some(a) => match other {
            None => false,
            Some(b) => a.column == b.column && a.has_low == b.has_low,
        },
    }
}

// The place of the first set whose shape the patterns have.
fn set_for(sets: &[ShapeSet], patterns: &[Pattern], bound: Option<Bound>) -> Option<usize>
    ensures { IfSome result (IsSetFor sets.now patterns.now) }
{
    for at in 0..sets.len() {
        if same_bound(sets[at].bound, bound) && fits_marks(sets[at].marks.as_slice(), patterns) {
            return Some(at);
        }
    }
    None
}

// The column of the patterns with a bound, where one has; or none where there is another form than constants, wildcards and one
// bound.
fn bound_of(patterns: &[Pattern]) -> Option<Option<Bound>> {
    let mut found = None;
    for column in 0..patterns.len() {
        match patterns[column].shape() {
            Shape::Wild => {}
            Shape::Empty => return None,
            Shape::Constant(_) => {}
            Shape::Members(_) => return None,
            Shape::Range(low, high) => {
                if found.is_some() || low.is_some() == high.is_some() {
                    return None;
                }
                found = Some(Bound {
                    column,
                    has_low: low.is_some(),
                });
            }
        }
    }
    Some(found)
}

// The last place of the chain of these constants.
fn last_in_set(set: &ShapeSet, patterns: &[Pattern]) -> Option<usize> {
    match set
        .chains
        .get(&constants_hash(set.marks.as_slice(), patterns))
    {
        None => None,
        Some(chain) => match chain.as_slice().last() {
            None => None,
            Some(at) => Some(*at as usize),
        },
    }
}

// Whether the punctuation at a place covers the other.
fn covers_there(kept: &[NumberedPunct], place: usize, other: &Punct) -> bool
    ensures { result ≡ covers_in (slice_get kept.now place) other.now }
{
    match kept.get(place) {
        None => false,
        Some(one) => one.punct.covers(other),
    }
}

// Whether it is covered by the other.
fn is_covered_there(kept: &[NumberedPunct], place: usize, other: &Punct) -> bool
    ensures { result ≡ covered_in (slice_get kept.now place) other.now }
{
    match kept.get(place) {
        None => false,
        Some(one) => other.covers(&one.punct),
    }
}

// Takes the punctuation at the last place into a chain, where the last one there covers it or is covered by it; or not.
fn extend(
    chain: &mut NumberList,
    alloc: Global,
    kept: &[NumberedPunct],
    at: usize,
) -> Result<bool, NoMemory>
    requires { at + 1 ≡ length kept.now }
    ensures ok { IfOk result (ChainTakes kept.now at chain.old chain.new) }
    ensures err { OnErr result (chain.new ≡ chain.old) }
{
    let punct = &kept[at].punct;
    let count = chain.as_slice().len();
    if count > 0 {
        let last = chain.as_slice()[count - 1] as usize;
        if covers_there(kept, last, punct) {
            return Ok(true);
        }
        if !is_covered_there(kept, last, punct) {
            return Ok(false);
        }
    }
    chain.push(alloc, at as u64)?;
    Ok(true)
}

impl ShapeSet {
    // Takes in the punctuation at the last place, where its chain takes it; or not.
    fn file(&mut self, alloc: Global, kept: &[NumberedPunct], at: usize) -> Result<bool, NoMemory>
        requires last { at + 1 ≡ length kept.now }
        requires fits { FitsAt kept.now at self.old.marks }
        ensures ok { IfOk result (SetTakes kept.now at self.old self.new) }
        ensures err { OnErr result (SetStays self.old self.new) }
    {
        let hash_value = constants_hash(self.marks.as_slice(), kept[at].punct.as_slice());
        match self.chains.get_mut(&hash_value) {
            Some(chain) => extend(chain, alloc, kept, at),
            None => {
                self.chains.insert(hash_value, NumberList::one(at as u64))?;
                Ok(true)
            }
        }
    }
}

// Takes in the punctuation at the last place, where it has the shape of a set whose chain takes it; or not.
fn file_in_sets(
    sets: &mut Vec<ShapeSet>,
    alloc: Global,
    kept: &[NumberedPunct],
    at: usize,
) -> Result<bool, NoMemory>
    requires { at + 1 ≡ length kept.now }
    ensures ok { IfOk result (SetsTake kept.now at sets.old.items sets.new.items) }
    ensures err { OnErr result (SetsStay sets.old.items sets.new.items) }
{
    let patterns = kept[at].punct.as_slice();
    match bound_of(patterns) {
        None => Ok(false),
        Some(bound) => match set_for(sets.as_slice(), patterns, bound) {
            Some(place) => sets[place].file(alloc, kept, at),
            None => {
                let mut set = ShapeSet {
                    marks: marks_of(alloc, patterns)?,
                    bound,
                    chains: IndexMap::new(alloc),
                };
                let filed = set.file(alloc, kept, at)?;
                sets.push(set)?;
                Ok(filed)
            }
        },
    }
}

// Takes in the punctuation at the last place, where it has wildcards in all columns but one; or not.
fn file_in_columns(
    columns: &mut Vec<ColumnIndex>,
    alloc: Global,
    kept: &[NumberedPunct],
    at: usize,
) -> Result<bool, NoMemory>
    requires { at < length kept.now }
    ensures ok { IfOk result (ColumnsTake kept.now at columns.old.items columns.new.items) }
    ensures err { OnErr result (ColumnsStay columns.old.items columns.new.items) }
{
    let patterns = kept[at].punct.as_slice();
    match only_filled(patterns) {
        None => Ok(false),
        Some(column) => match column_for(columns.as_slice(), patterns.len(), column) {
            Some(place) => {
                columns[place].patterns.insert(&patterns[column], at)?;
                Ok(true)
            }
            None => {
                let mut index = FirstIndex::new(alloc);
                index.insert(&patterns[column], at)?;
                columns.push(ColumnIndex {
                    arity: patterns.len(),
                    column,
                    patterns: index,
                })?;
                Ok(true)
            }
        },
    }
}

/// The only column without a wildcard.
pub fn only_filled(patterns: &[Pattern]) -> Option<usize>
    ensures { IfSome result (IsFilled patterns.now) }
{
    let column = first_filled(patterns);
    if column >= patterns.len() {
        return None;
    }
    if !are_wild_from(patterns, column + 1) {
        return None;
    }
    Some(column)
}

fn column_for(columns: &[ColumnIndex], arity: usize, column: usize) -> Option<usize>
    ensures { IfSome result (IsColumnFor columns.now arity column) }
{
    for at in 0..columns.len() {
        if columns[at].column == column && columns[at].arity == arity {
            return Some(at);
        }
    }
    None
}
