// The marks of one scheme.
ghost use Rattle.std.specs.Prelude.{◌≡◌, ◌++◌, IfOk, OnOk};
ghost use Rattle.pj_scheme.specs.Derived.{mark_at, marks_among as among, are_kept as kept, cut as cut_to, widened as wider, unmarked};
ghost use Rattle.pj_value.specs.Lists.{has as one_of};

use pj_shape::Scheme;
use pj_value::{List, NoMemory};
use std::alloc::Global;

// Whether the column is marked; a column that is not there is not.
fn is_marked(scheme: &Scheme, column: usize) -> bool
    ensures { result ≡ mark_at scheme.now column }
{
    if column < scheme.len() {
        *scheme.at(column)
    } else {
        false
    }
}

/// Whether each column that is marked in the one is marked in the other.
#[tactic(auto, using(crate::proofs::Turns::each_turn))]
pub(crate) fn marks_among(scheme: &Scheme, other: &Scheme) -> bool
    ensures { result ≡ among scheme.now other.now }
{
    for column in 0..scheme.len() {
        if is_marked(scheme, column) && !is_marked(other, column) {
            return false;
        }
    }
    true
}

/// Whether each marked column is one of these.
#[tactic(auto, using(crate::proofs::Turns::each_turn))]
pub(crate) fn are_kept(columns: &[u32], scheme: &Scheme) -> bool
    ensures { result ≡ kept columns.now scheme.now }
{
    for column in 0..scheme.len() {
        if is_marked(scheme, column) && !is_in(columns, column) {
            return false;
        }
    }
    true
}

fn is_in(columns: &[u32], column: usize) -> bool
    ensures { result ≡ one_of columns.now column }
{
    columns.iter().any(|kept| *kept as usize == column)
}

/// The marks at these columns, in their order.
pub(crate) fn cut(alloc: Global, columns: &[u32], scheme: &Scheme) -> Result<Scheme, NoMemory>
    ensures { IfOk result (λ s. s ≡ cut_to columns.now scheme.now) }
{
    let mut marks = List::with_room(alloc, columns.len())?;
    for column in columns {
        marks.push(is_marked(scheme, *column as usize))?;
    }
    Ok(Scheme::of(marks))
}

/// The scheme with so many unmarked columns in front, and behind.
pub(crate) fn widened(
    alloc: Global,
    before: usize,
    after: usize,
    scheme: &Scheme,
) -> Result<Scheme, NoMemory>
    ensures { IfOk result (λ s. s ≡ wider before after scheme.now) }
{
    let mut marks = List::new(alloc);
    append_unmarked(before, &mut marks)?;
    append_marks(scheme, &mut marks)?;
    append_unmarked(after, &mut marks)?;
    Ok(Scheme::of(marks))
}

fn append_unmarked(count: usize, marks: &mut List<bool>) -> Result<(), NoMemory>
    ensures { OnOk result (marks.new ≡ marks.old ++ unmarked count) }
{
    for _ in 0..count {
        marks.push(false)?;
    }
    Ok(())
}

fn append_marks(scheme: &Scheme, marks: &mut List<bool>) -> Result<(), NoMemory>
    ensures { OnOk result (marks.new ≡ marks.old ++ scheme.now) }
{
    for column in 0..scheme.len() {
        marks.push(is_marked(scheme, column))?;
    }
    Ok(())
}
