// The cells of canonical lines, each behind a space. On a refusal some of them may stand.
ghost use Rattle.std.specs.Prelude.{◌≡◌, ◌++◌, [], ◌∷◌, OnOk, map};
ghost use Rattle.pj_plan_text.specs.Spelling.{agg_cell, class_cell, column_cell, each_behind, kind_word, mark_cell, named_agg_cell, renamed_cell, test_cell, test_cells};

use pj_element::pattern_text;
use pj_plan::{AggWord, ColumnWord, NamedAgg, Renamed, Test, TestWord};
use pj_value::{Bytes, Kind, List, NoMemory};
use std::alloc::Global;

pub(crate) fn append_cell(cell: &[u8], out: &mut List<u8>) -> Result<(), NoMemory>
    ensures { OnOk result (out.new ≡ out.old ++ 32 ∷ cell.now) }
{
    out.push(b' ')?;
    out.append(cell)?;
    Ok(())
}

/// Names, each behind this byte.
pub(crate) fn append_names(mark: u8, names: &[Bytes], out: &mut List<u8>) -> Result<(), NoMemory>
    ensures { OnOk result (out.new ≡ out.old ++ each_behind mark names.now) }
{
    for name in names {
        append_name(mark, name.as_slice(), out)?;
    }
    Ok(())
}

fn append_name(mark: u8, name: &[u8], out: &mut List<u8>) -> Result<(), NoMemory>
    ensures { OnOk result (out.new ≡ out.old ++ mark ∷ name.now) }
{
    out.push(mark)?;
    out.append(name)?;
    Ok(())
}

/// `COL:KIND ..`
pub(crate) fn append_columns(columns: &[ColumnWord], out: &mut List<u8>) -> Result<(), NoMemory>
    ensures { OnOk result (out.new ≡ out.old ++ each_behind 32 (map column_cell columns.now)) }
{
    for column in columns {
        append_column(column, out)?;
    }
    Ok(())
}

fn append_column(column: &ColumnWord, out: &mut List<u8>) -> Result<(), NoMemory>
    ensures { OnOk result (out.new ≡ out.old ++ 32 ∷ column_cell column.now) }
{
    append_cell(column.name.as_slice(), out)?;
    out.push(b':')?;
    out.append(kind_text(column.kind))?;
    Ok(())
}

fn kind_text(kind: Kind) -> &'static [u8]
    ensures { result.now ≡ kind_word kind }
{
    match kind {
        Kind::Int => b"int",
        Kind::Text => b"text",
    }
}

/// `MARK ..`
pub(crate) fn append_marks(marks: &[bool], out: &mut List<u8>) -> Result<(), NoMemory>
    ensures { OnOk result (out.new ≡ out.old ++ each_behind 32 (map mark_cell marks.now)) }
{
    for mark in marks {
        append_cell(mark_text(*mark), out)?;
    }
    Ok(())
}

fn mark_text(mark: bool) -> &'static [u8]
    ensures { result.now ≡ mark_cell mark }
{
    if mark { b"+" } else { b"_" }
}

/// `CLASS ..`
pub(crate) fn append_classes(classes: &[List<Bytes>], out: &mut List<u8>) -> Result<(), NoMemory>
    ensures { OnOk result (out.new ≡ out.old ++ each_behind 32 (map class_cell classes.now)) }
{
    for class in classes {
        append_class(class.as_slice(), out)?;
    }
    Ok(())
}

fn append_class(names: &[Bytes], out: &mut List<u8>) -> Result<(), NoMemory>
    ensures { OnOk result (out.new ≡ out.old ++ 32 ∷ class_cell names.now) }
{
    out.push(b' ')?;
    match names {
        [] => Ok(()),
        [first, others @ ..] => {
            out.append(first.as_slice())?;
            append_names(b'=', others, out)?;
            Ok(())
        }
    }
}

/// `COL PATTERN ..`
pub(crate) fn append_tests(
    alloc: Global,
    tests: &[TestWord],
    out: &mut List<u8>,
) -> Result<(), NoMemory>
    ensures { OnOk result (out.new ≡ out.old ++ each_behind 32 (test_cells tests.now)) }
{
    for test in tests {
        append_pair(alloc, test, out)?;
    }
    Ok(())
}

fn append_pair(alloc: Global, word: &TestWord, out: &mut List<u8>) -> Result<(), NoMemory>
    ensures { OnOk result (out.new ≡ out.old ++ each_behind 32 (word.now.column ∷ test_cell word.now.test ∷ [])) }
{
    append_cell(word.column.as_slice(), out)?;
    out.push(b' ')?;
    append_test(alloc, &word.test, out)?;
    Ok(())
}

fn append_test(alloc: Global, test: &Test, out: &mut List<u8>) -> Result<(), NoMemory>
    ensures { OnOk result (out.new ≡ out.old ++ test_cell test.now) }
{
    match test {
        Test::One(pattern) => pattern_text(alloc, pattern, out),
        Test::Mixed => out.append(b"{0|\"\"}"),
    }
}

/// `COL ..` of a project.
pub(crate) fn append_renamed(columns: &[Renamed], out: &mut List<u8>) -> Result<(), NoMemory>
    ensures { OnOk result (out.new ≡ out.old ++ each_behind 32 (map renamed_cell columns.now)) }
{
    for column in columns {
        append_as(column.new.as_slice(), column.old.as_slice(), out)?;
    }
    Ok(())
}

// `OLD` where the name stays, else `NEW=OLD`.
fn append_as(new: &[u8], old: &[u8], out: &mut List<u8>) -> Result<(), NoMemory>
    ensures { OnOk result (out.new ≡ out.old ++ 32 ∷ renamed_cell (record { new = new.now; old = old.now })) }
{
    if new == old {
        append_cell(old, out)?;
        return Ok(());
    }
    append_cell(new, out)?;
    append_name(b'=', old, out)?;
    Ok(())
}

/// `NEW=AGG ..`
pub(crate) fn append_aggs(aggs: &[NamedAgg], out: &mut List<u8>) -> Result<(), NoMemory>
    ensures { OnOk result (out.new ≡ out.old ++ each_behind 32 (map named_agg_cell aggs.now)) }
{
    for word in aggs {
        append_named_agg(word, out)?;
    }
    Ok(())
}

fn append_named_agg(word: &NamedAgg, out: &mut List<u8>) -> Result<(), NoMemory>
    ensures { OnOk result (out.new ≡ out.old ++ 32 ∷ named_agg_cell word.now) }
{
    append_cell(word.name.as_slice(), out)?;
    out.push(b'=')?;
    append_agg(&word.agg, out)?;
    Ok(())
}

fn append_agg(agg: &AggWord, out: &mut List<u8>) -> Result<(), NoMemory>
    ensures { OnOk result (out.new ≡ out.old ++ agg_cell agg.now) }
{
    match agg {
        AggWord::Count => out.append(b"count"),
        AggWord::Sum(column) => append_over(b"sum:", column.as_slice(), out),
        AggWord::Min(column) => append_over(b"min:", column.as_slice(), out),
        AggWord::Max(column) => append_over(b"max:", column.as_slice(), out),
    }
}

fn append_over(word: &[u8], column: &[u8], out: &mut List<u8>) -> Result<(), NoMemory>
    ensures { OnOk result (out.new ≡ out.old ++ (word.now ++ column.now)) }
{
    out.append(word)?;
    out.append(column)?;
    Ok(())
}
