// What is compared of a row and the rows before it in a combination, made once for a join.
ghost use Rattle.std.specs.Prelude.{◌≡◌, ◌<◌, ◌++◌, ◌∷◌, [], true, length, slice_index_or, IfOk, OnOk};
ghost use Rattle.std.specs.Arc.{arc_value};
ghost use Rattle.pj_events.specs.Join.{joins};
ghost use Rattle.pj_shape.specs.Joining.{parts_on};
ghost use Rattle.pj_probe.specs.Checks.{Decide, GrewByClass, IsBelow, IsSourceOf, all_hold, checks_from, holds, is_checked};

use crate::Lent;
use pj_shape::{ClassCol, same_cell};
use pj_value::{List, NoMemory, Row, copy_items};
use std::alloc::Global;
use std::marker::Model;
use std::slice::from_ref;
use std::sync::Arc;

/// A column of a row, and a column that must have the same value: of a row before it in a combination, or of the row itself.
#[derive(Clone, Copy)]
pub struct Check {
    pub column: u32,
    pub from_input: usize,
    pub from_column: u32,
}

/// For each input what is left to compare of its row where rows of the inputs before it join. Seen as the classes of columns
/// that must be equal, of which it was made.
#[derive(Drop)]
pub struct JoinChecks {
    classes: List<List<ClassCol>>,
    of_inputs: List<List<Check>>,
}

impl Model for JoinChecks {
    ghost use Rattle.std.specs.Prelude.{List};
    ghost use Rattle.pj_shape.specs.declared.joins.ClassCol.{ClassCol};
    ghost use Rattle.pj_probe.specs.Checks.{AreChecks};

    ghost Value = { List (List ClassCol) };

    ghost view = { λ c. c.classes };

    ghost invariant = { λ c. AreChecks c.classes 16 c.of_inputs };
}

impl JoinChecks {
    /// The checks of a join by these classes, of at most 16 inputs; or `NoMemory`.
    #[tactic(auto, using(crate::proofs::Checked::lists_none, crate::proofs::Checked::lists_more))]
    pub fn new(
        alloc: Global,
        classes: &[List<ClassCol>],
    ) -> Result<Arc<JoinChecks, Global>, NoMemory>
        ensures { IfOk result (λ checks. arc_value checks ≡ classes.now) }
    {
        let mut of_inputs = List::with_room(alloc, 16)?;
        for input in 0..16 {
            of_inputs.push(checks_of(alloc, classes, input)?)?;
        }
        let checks = JoinChecks {
            classes: copy_items(alloc, classes)?,
            of_inputs,
        };
        Ok(Arc::new(alloc, checks)?)
    }

    /// Whether a row joins with these rows of the first inputs, which join.
    #[inline]
    pub(crate) fn fit(&self, rows: &[Lent<'_>], row: &Row) -> bool
        requires few { length rows.now < 16 }
        requires before { joins self.now (parts_on 0 rows.now) ≡ true }
        ensures { result ≡ joins self.now (parts_on 0 (rows.now ++ row.now ∷ [])) }
    {
        all_hold(self.of_inputs.as_slice()[rows.len()].as_slice(), rows, row)
    }

    /// Whether a row of the first input and one of the second join.
    pub(crate) fn both_fit(&self, first: &Row, second: &Row) -> bool
        ensures { result ≡ joins self.now (parts_on 0 (first.now ∷ second.now ∷ [])) }
    {
        if !self.fit(&[], first) {
            return false;
        }
        self.fit(from_ref(&Lent::of(first)), second)
    }
}

/// A second handle of the same checks.
pub(crate) fn share_checks(
    checks: &Arc<JoinChecks, Global>,
) -> Result<Arc<JoinChecks, Global>, NoMemory>
    ensures { IfOk result (λ copy. arc_value copy ≡ arc_value checks.now) }
{
    Ok(Arc::try_clone(checks)?)
}

// The row before of this input; the row itself where none is.
#[inline(always)]
fn row_from<'a>(rows: &[Lent<'a>], row: &'a Row, input: usize) -> &'a Row
    ensures { result.now ≡ slice_index_or rows.now input row.now }
{
    if input < rows.len() {
        rows[input].row()
    } else {
        row
    }
}

#[inline(always)]
fn holds(check: &Check, rows: &[Lent<'_>], row: &Row) -> bool
    ensures { result ≡ holds rows.now row.now check.now }
{
    same_cell(
        row,
        check.column,
        row_from(rows, row, check.from_input),
        check.from_column,
    )
}

fn all_hold(checks: &[Check], rows: &[Lent<'_>], row: &Row) -> bool
    ensures { result ≡ all_hold rows.now row.now checks.now }
{
    checks.iter().all(|check| holds(check, rows, row))
}

// The checks of the rows of an input.
#[tactic(auto, using(crate::proofs::Checked::decide_none, crate::proofs::Checked::decide_more, crate::proofs::Checked::decide_all))]
fn checks_of(
    alloc: Global,
    classes: &[List<ClassCol>],
    input: usize,
) -> Result<List<Check>, NoMemory>
    requires { input < 16 }
    ensures { IfOk result (Decide classes.now input) }
{
    let mut checks = List::new(alloc);
    for class in classes {
        append_checks(class.as_slice(), input, &mut checks)?;
    }
    Ok(checks)
}

// Puts those of one class at the end.
#[tactic(auto, using(crate::proofs::Checked::class_without, crate::proofs::Checked::class_by_source))]
fn append_checks(class: &[ClassCol], input: usize, checks: &mut List<Check>) -> Result<(), NoMemory>
    requires { input < 16 }
    ensures { OnOk result (GrewByClass class.now input checks.old checks.new) }
{
    match source_of(class, input) {
        None => Ok(()),
        Some(from) => {
            append_from(class, input, from, checks)?;
            Ok(())
        }
    }
}

// Puts a check at the end for each column of the input but the source itself.
#[tactic(auto, using(crate::proofs::Checked::checks_begin, crate::proofs::Checked::checks_more, crate::proofs::Checked::checks_end))]
fn append_from(
    class: &[ClassCol],
    input: usize,
    from: ClassCol,
    checks: &mut List<Check>,
) -> Result<(), NoMemory>
    ensures { OnOk result (checks.new ≡ checks.old ++ checks_from input from class.now) }
{
    for at in class {
        append_check(*at, input, from, checks)?;
    }
    Ok(())
}

#[tactic(auto, using(crate::proofs::Checked::check_made, crate::proofs::Checked::check_left))]
fn append_check(
    at: ClassCol,
    input: usize,
    from: ClassCol,
    checks: &mut List<Check>,
) -> Result<(), NoMemory>
    ensures { OnOk result (checks.new ≡ checks.old ++ checks_from input from (at ∷ [])) }
{
    if is_checked(at, input, from) {
        checks.push(Check {
            column: at.column,
            from_input: from.input as usize,
            from_column: from.column,
        })?;
    }
    Ok(())
}

// Whether the column is of the input, and not the source itself.
fn is_checked(at: ClassCol, input: usize, from: ClassCol) -> bool
    ensures { result ≡ is_checked input from at }
{
    at.input as usize == input && !(at.input == from.input && at.column == from.column)
}

// The first column of the class of an input before; where it has none, the first of the input itself.
#[tactic(auto, using(crate::proofs::Checked::source_before, crate::proofs::Checked::source_itself))]
fn source_of(class: &[ClassCol], input: usize) -> Option<ClassCol>
    requires { input < 16 }
    ensures { IsSourceOf class.now input result }
{
    match first_below(class, input) {
        Some(from) => Some(from),
        None => first_below(class, input + 1),
    }
}

// The first column of the class of an input below this one.
#[tactic(auto, using(crate::proofs::Checked::below_more, crate::proofs::Checked::below_end, crate::proofs::Checked::below_found))]
fn first_below(class: &[ClassCol], limit: usize) -> Option<ClassCol>
    ensures { IsBelow class.now limit result }
{
    for at in class {
        if (at.input as usize) < limit {
            return Some(*at);
        }
    }
    None
}
