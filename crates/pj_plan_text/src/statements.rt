// What the cells of a line of a plan state.
ghost use Rattle.std.specs.Prelude.{◌≡◌, IfOk, codes};
ghost use Rattle.pj_plan_text.specs.Cuts.{cut_at};
ghost use Rattle.pj_plan_text.specs.CellWords.{class_of, column_name_of, column_of, mark_of, named_agg_of, renamed_of};
ghost use Rattle.pj_plan_text.specs.Statements.{group_in, group_stated as group_form, inputs_of, is_word, join_in, join_stated as join_form, misshapen as bad_shape, output_stated as output_form, some_pairs_of, plan_stated as plan_form, project_stated as project_form, scheme_stated as scheme_form, select_stated as select_form, some_of, stated_by as statement_by, statement_of, stream_stated as stream_form, union_stated as union_form, with_aggs, with_classes};

use crate::cell_words::read_column_names;
use crate::cuts::place_of;
use crate::lists::{
    read_aggs, read_classes, read_columns, read_inputs, read_marks, read_renamed_all, read_tests,
};
use crate::names::is_name;
use crate::word::Word;
use pj_plan::{ColumnWord, NamedAgg, PlanWhy, Renamed, Statement, TestWord};
use pj_value::{Bytes, List, NoMemory};
use std::alloc::Global;

/// What the cells of a line state.
pub(crate) fn read_statement(alloc: Global, cells: &[Word<'_>]) -> Result<Statement, NoMemory>
    ensures { IfOk result (λ statement. statement ≡ statement_of cells.now) }
{
    match cells {
        [] => Ok(Statement::Bad(PlanWhy::UnknownStatement)),
        [word, behind @ ..] => Ok(stated_by(alloc, word.bytes, behind)?),
    }
}

fn stated_by(alloc: Global, word: &[u8], cells: &[Word<'_>]) -> Result<Statement, NoMemory>
    ensures { IfOk result (λ statement. statement ≡ statement_by word.now cells.now) }
{
    if word == b"plan".as_slice() {
        return Ok(plan_stated(cells));
    }
    if word == b"stream".as_slice() {
        return Ok(stream_stated(alloc, cells)?);
    }
    if word == b"scheme".as_slice() {
        return Ok(scheme_stated(alloc, cells)?);
    }
    if word == b"select".as_slice() {
        return Ok(select_stated(alloc, cells)?);
    }
    if word == b"project".as_slice() {
        return Ok(project_stated(alloc, cells)?);
    }
    if word == b"union".as_slice() {
        return Ok(union_stated(alloc, cells)?);
    }
    if word == b"join".as_slice() {
        return Ok(join_stated(alloc, cells)?);
    }
    if word == b"group".as_slice() {
        return Ok(group_stated(alloc, cells)?);
    }
    if word == b"output".as_slice() {
        return Ok(output_stated(alloc, cells)?);
    }
    Ok(Statement::Bad(PlanWhy::UnknownStatement))
}

// The cells do not have the statement's form.
fn misshapen() -> Statement
    ensures { result ≡ bad_shape }
{
    Statement::Bad(PlanWhy::BadShape)
}

// `1`.
fn plan_stated(cells: &[Word<'_>]) -> Statement
    ensures { result ≡ plan_form cells.now }
{
    match cells {
        [] => Statement::Bad(PlanWhy::UnknownStatement),
        [version] => {
            if version.bytes == b"1".as_slice() {
                Statement::Plan { version: 1 }
            } else {
                Statement::Bad(PlanWhy::UnknownStatement)
            }
        }
        [_, _, ..] => Statement::Bad(PlanWhy::UnknownStatement),
    }
}

// `NAME COL:KIND ..`.
fn stream_stated(alloc: Global, cells: &[Word<'_>]) -> Result<Statement, NoMemory>
    ensures { IfOk result (λ statement. statement ≡ stream_form cells.now) }
{
    match cells {
        [] => Ok(misshapen()),
        [name, behind @ ..] => {
            if !is_name(name.bytes) {
                return Ok(misshapen());
            }
            match some_columns(alloc, behind)? {
                Some(columns) => Ok(Statement::Stream {
                    name: List::copy_of(alloc, name.bytes)?,
                    columns,
                }),
                None => Ok(misshapen()),
            }
        }
    }
}

fn some_columns(alloc: Global, cells: &[Word<'_>]) -> Result<Option<List<ColumnWord>>, NoMemory>
    ensures { IfOk result (λ columns. columns ≡ some_of column_of cells.now) }
{
    if cells.is_empty() {
        Ok(None)
    } else {
        Ok(read_columns(alloc, cells)?)
    }
}

// `STREAM MARK ..`.
fn scheme_stated(alloc: Global, cells: &[Word<'_>]) -> Result<Statement, NoMemory>
    ensures { IfOk result (λ statement. statement ≡ scheme_form cells.now) }
{
    match cells {
        [] => Ok(misshapen()),
        [stream, behind @ ..] => {
            if !is_name(stream.bytes) {
                return Ok(misshapen());
            }
            match some_marks(alloc, behind)? {
                Some(marks) => Ok(Statement::Scheme {
                    stream: List::copy_of(alloc, stream.bytes)?,
                    marks,
                }),
                None => Ok(misshapen()),
            }
        }
    }
}

fn some_marks(alloc: Global, cells: &[Word<'_>]) -> Result<Option<List<bool>>, NoMemory>
    ensures { IfOk result (λ marks. marks ≡ some_of mark_of cells.now) }
{
    if cells.is_empty() {
        Ok(None)
    } else {
        Ok(read_marks(alloc, cells)?)
    }
}

// `NAME INPUT where COL PATTERN ..`.
fn select_stated(alloc: Global, cells: &[Word<'_>]) -> Result<Statement, NoMemory>
    ensures { IfOk result (λ statement. statement ≡ select_form cells.now) }
{
    match cells {
        [name, input, word, behind @ ..] => {
            if !(is_name(name.bytes) && is_name(input.bytes) && word.bytes == b"where".as_slice()) {
                return Ok(misshapen());
            }
            match some_tests(alloc, behind)? {
                Some(tests) => Ok(Statement::Select {
                    name: List::copy_of(alloc, name.bytes)?,
                    input: List::copy_of(alloc, input.bytes)?,
                    tests,
                }),
                None => Ok(misshapen()),
            }
        }
        [] => Ok(misshapen()),
        [_] => Ok(misshapen()),
        [_, _] => Ok(misshapen()),
    }
}

fn some_tests(alloc: Global, cells: &[Word<'_>]) -> Result<Option<List<TestWord>>, NoMemory>
    ensures { IfOk result (λ tests. tests ≡ some_pairs_of cells.now) }
{
    if cells.is_empty() {
        Ok(None)
    } else {
        Ok(read_tests(alloc, cells)?)
    }
}

// `NAME INPUT COL ..`.
fn project_stated(alloc: Global, cells: &[Word<'_>]) -> Result<Statement, NoMemory>
    ensures { IfOk result (λ statement. statement ≡ project_form cells.now) }
{
    match cells {
        [name, input, behind @ ..] => {
            if !(is_name(name.bytes) && is_name(input.bytes)) {
                return Ok(misshapen());
            }
            match some_renamed(alloc, behind)? {
                Some(columns) => Ok(Statement::Project {
                    name: List::copy_of(alloc, name.bytes)?,
                    input: List::copy_of(alloc, input.bytes)?,
                    columns,
                }),
                None => Ok(misshapen()),
            }
        }
        [] => Ok(misshapen()),
        [_] => Ok(misshapen()),
    }
}

fn some_renamed(alloc: Global, cells: &[Word<'_>]) -> Result<Option<List<Renamed>>, NoMemory>
    ensures { IfOk result (λ columns. columns ≡ some_of renamed_of cells.now) }
{
    if cells.is_empty() {
        Ok(None)
    } else {
        Ok(read_renamed_all(alloc, cells)?)
    }
}

// `NAME INPUT INPUT ..`.
fn union_stated(alloc: Global, cells: &[Word<'_>]) -> Result<Statement, NoMemory>
    ensures { IfOk result (λ statement. statement ≡ union_form cells.now) }
{
    match cells {
        [] => Ok(misshapen()),
        [name, behind @ ..] => {
            if !is_name(name.bytes) {
                return Ok(misshapen());
            }
            match two_inputs(alloc, behind)? {
                Some(inputs) => Ok(Statement::Union {
                    name: List::copy_of(alloc, name.bytes)?,
                    inputs,
                }),
                None => Ok(misshapen()),
            }
        }
    }
}

// The names of two or more inputs.
fn two_inputs(alloc: Global, cells: &[Word<'_>]) -> Result<Option<List<Bytes>>, NoMemory>
    ensures { IfOk result (λ inputs. inputs ≡ inputs_of cells.now) }
{
    if 2 <= cells.len() {
        Ok(read_inputs(alloc, cells)?)
    } else {
        Ok(None)
    }
}

// `NAME`.
fn output_stated(alloc: Global, cells: &[Word<'_>]) -> Result<Statement, NoMemory>
    ensures { IfOk result (λ statement. statement ≡ output_form cells.now) }
{
    match cells {
        [] => Ok(misshapen()),
        [name] => {
            if !is_name(name.bytes) {
                return Ok(misshapen());
            }
            Ok(Statement::Output {
                name: List::copy_of(alloc, name.bytes)?,
            })
        }
        [_, _, ..] => Ok(misshapen()),
    }
}

// `NAME INPUT INPUT .. on CLASS ..`.
fn join_stated(alloc: Global, cells: &[Word<'_>]) -> Result<Statement, NoMemory>
    ensures { IfOk result (λ statement. statement ≡ join_form cells.now) }
{
    match cells {
        [] => Ok(misshapen()),
        [name, behind @ ..] => {
            if !is_name(name.bytes) {
                return Ok(misshapen());
            }
            Ok(join_behind(alloc, name.bytes, behind)?)
        }
    }
}

// The inputs and the classes, which are parted by the first `on`.
#[tactic(auto, using(crate::proofs::Parting::cut_around))]
fn join_behind(alloc: Global, name: &[u8], cells: &[Word<'_>]) -> Result<Statement, NoMemory>
    ensures { IfOk result (λ statement. statement ≡ join_in name.now (cut_at (is_word (codes "on")) cells.now)) }
{
    match place_of(b"on", cells) {
        Some(at) => {
            let (inputs, rest) = cells.split_at(at);
            let (_on, classes) = rest.split_at(1);
            Ok(join_of(alloc, name, inputs, classes)?)
        }
        None => Ok(misshapen()),
    }
}

fn join_of(
    alloc: Global,
    name: &[u8],
    inputs: &[Word<'_>],
    classes: &[Word<'_>],
) -> Result<Statement, NoMemory>
    ensures { IfOk result (λ statement. statement ≡ with_classes name.now (inputs_of inputs.now) (some_of class_of classes.now)) }
{
    match two_inputs(alloc, inputs)? {
        Some(inputs) => match some_classes(alloc, classes)? {
            Some(classes) => Ok(Statement::Join {
                name: List::copy_of(alloc, name)?,
                inputs,
                classes,
            }),
            None => Ok(misshapen()),
        },
        None => Ok(misshapen()),
    }
}

fn some_classes(alloc: Global, cells: &[Word<'_>]) -> Result<Option<List<List<Bytes>>>, NoMemory>
    ensures { IfOk result (λ classes. classes ≡ some_of class_of cells.now) }
{
    if cells.is_empty() {
        Ok(None)
    } else {
        Ok(read_classes(alloc, cells)?)
    }
}

// `NAME INPUT by COL .. of NEW=AGG ..`.
fn group_stated(alloc: Global, cells: &[Word<'_>]) -> Result<Statement, NoMemory>
    ensures { IfOk result (λ statement. statement ≡ group_form cells.now) }
{
    match cells {
        [name, input, word, behind @ ..] => {
            if !(is_name(name.bytes) && is_name(input.bytes) && word.bytes == b"by".as_slice()) {
                return Ok(misshapen());
            }
            Ok(group_behind(alloc, name.bytes, input.bytes, behind)?)
        }
        [] => Ok(misshapen()),
        [_] => Ok(misshapen()),
        [_, _] => Ok(misshapen()),
    }
}

// The columns and the aggregates, which are parted by the first `of`.
#[tactic(auto, using(crate::proofs::Parting::cut_around))]
fn group_behind(
    alloc: Global,
    name: &[u8],
    input: &[u8],
    cells: &[Word<'_>],
) -> Result<Statement, NoMemory>
    ensures { IfOk result (λ statement. statement ≡ group_in name.now input.now (cut_at (is_word (codes "of")) cells.now)) }
{
    match place_of(b"of", cells) {
        Some(at) => {
            let (keys, rest) = cells.split_at(at);
            let (_of, aggs) = rest.split_at(1);
            Ok(group_of(alloc, name, input, keys, aggs)?)
        }
        None => Ok(misshapen()),
    }
}

fn group_of(
    alloc: Global,
    name: &[u8],
    input: &[u8],
    keys: &[Word<'_>],
    aggs: &[Word<'_>],
) -> Result<Statement, NoMemory>
    ensures { IfOk result (λ statement.
        statement ≡ with_aggs name.now input.now (some_of column_name_of keys.now) (some_of named_agg_of aggs.now)) }
{
    match some_keys(alloc, keys)? {
        Some(keys) => match some_aggs(alloc, aggs)? {
            Some(aggs) => Ok(Statement::Group {
                name: List::copy_of(alloc, name)?,
                input: List::copy_of(alloc, input)?,
                keys,
                aggs,
            }),
            None => Ok(misshapen()),
        },
        None => Ok(misshapen()),
    }
}

fn some_keys(alloc: Global, cells: &[Word<'_>]) -> Result<Option<List<Bytes>>, NoMemory>
    ensures { IfOk result (λ keys. keys ≡ some_of column_name_of cells.now) }
{
    if cells.is_empty() {
        Ok(None)
    } else {
        Ok(read_column_names(alloc, cells)?)
    }
}

fn some_aggs(alloc: Global, cells: &[Word<'_>]) -> Result<Option<List<NamedAgg>>, NoMemory>
    ensures { IfOk result (λ aggs. aggs ≡ some_of named_agg_of cells.now) }
{
    if cells.is_empty() {
        Ok(None)
    } else {
        Ok(read_aggs(alloc, cells)?)
    }
}
