// The canonical lines of statements. On a refusal some of a line may stand.
ghost use Rattle.std.specs.Prelude.{◌≡◌, ◌++◌, ◌∷◌, OnOk, codes, map};
ghost use Rattle.pj_plan_text.specs.Spelling.{class_cell, each_behind, fed, named_agg_cell, spell};

use crate::cell_texts::{
    append_aggs, append_cell, append_classes, append_columns, append_marks, append_names,
    append_renamed, append_tests,
};
use pj_plan::{ColumnWord, NamedAgg, Renamed, Statement, TestWord};
use pj_value::{Bytes, List, NoMemory, Value, value_text};
use std::alloc::Global;

/// The line of a statement with its line feed; an empty line for a bad one.
pub(crate) fn append_line(
    alloc: Global,
    statement: &Statement,
    out: &mut List<u8>,
) -> Result<(), NoMemory>
    ensures { OnOk result (out.new ≡ out.old ++ fed statement.now) }
{
    append_statement(alloc, statement, out)?;
    out.push(b'\n')?;
    Ok(())
}

fn append_statement(
    alloc: Global,
    statement: &Statement,
    out: &mut List<u8>,
) -> Result<(), NoMemory>
    ensures { OnOk result (out.new ≡ out.old ++ spell statement.now) }
{
    match statement {
        Statement::Plan { version } => append_version(alloc, *version, out),
        Statement::Stream { name, columns } => append_stream(name, columns, out),
        Statement::Scheme { stream, marks } => append_scheme(stream, marks, out),
        Statement::Select { name, input, tests } => append_select(alloc, name, input, tests, out),
        Statement::Project {
            name,
            input,
            columns,
        } => append_project(name, input, columns, out),
        Statement::Union { name, inputs } => append_union(name, inputs, out),
        Statement::Join {
            name,
            inputs,
            classes,
        } => append_join(name, inputs, classes, out),
        Statement::Group {
            name,
            input,
            keys,
            aggs,
        } => append_group(name, input, keys, aggs, out),
        Statement::Output { name } => append_output(name, out),
        Statement::Bad(_) => Ok(()),
    }
}

fn append_version(alloc: Global, version: u32, out: &mut List<u8>) -> Result<(), NoMemory>
    ensures { OnOk result (out.new ≡ out.old ++ spell (Statement.Plan version)) }
{
    out.append(b"plan ")?;
    value_text(alloc, &Value::Int(i64::from(version)), out)?;
    Ok(())
}

fn append_stream(
    name: &Bytes,
    columns: &List<ColumnWord>,
    out: &mut List<u8>,
) -> Result<(), NoMemory>
    ensures { OnOk result (out.new ≡ out.old ++ spell (Statement.Stream name.now columns.now)) }
{
    out.append(b"stream")?;
    append_cell(name.as_slice(), out)?;
    append_columns(columns.as_slice(), out)?;
    Ok(())
}

fn append_scheme(stream: &Bytes, marks: &List<bool>, out: &mut List<u8>) -> Result<(), NoMemory>
    ensures { OnOk result (out.new ≡ out.old ++ spell (Statement.Scheme stream.now marks.now)) }
{
    out.append(b"scheme")?;
    append_cell(stream.as_slice(), out)?;
    append_marks(marks.as_slice(), out)?;
    Ok(())
}

fn append_select(
    alloc: Global,
    name: &Bytes,
    input: &Bytes,
    tests: &List<TestWord>,
    out: &mut List<u8>,
) -> Result<(), NoMemory>
    ensures { OnOk result (out.new ≡ out.old ++ spell (Statement.Select name.now input.now tests.now)) }
{
    out.append(b"select")?;
    append_cell(name.as_slice(), out)?;
    append_cell(input.as_slice(), out)?;
    out.append(b" where")?;
    append_tests(alloc, tests.as_slice(), out)?;
    Ok(())
}

fn append_project(
    name: &Bytes,
    input: &Bytes,
    columns: &List<Renamed>,
    out: &mut List<u8>,
) -> Result<(), NoMemory>
    ensures { OnOk result (out.new ≡ out.old ++ spell (Statement.Project name.now input.now columns.now)) }
{
    out.append(b"project")?;
    append_cell(name.as_slice(), out)?;
    append_cell(input.as_slice(), out)?;
    append_renamed(columns.as_slice(), out)?;
    Ok(())
}

fn append_union(name: &Bytes, inputs: &List<Bytes>, out: &mut List<u8>) -> Result<(), NoMemory>
    ensures { OnOk result (out.new ≡ out.old ++ spell (Statement.Union name.now inputs.now)) }
{
    out.append(b"union")?;
    append_cell(name.as_slice(), out)?;
    append_names(b' ', inputs.as_slice(), out)?;
    Ok(())
}

fn append_join(
    name: &Bytes,
    inputs: &List<Bytes>,
    classes: &List<List<Bytes>>,
    out: &mut List<u8>,
) -> Result<(), NoMemory>
    ensures { OnOk result (out.new ≡ out.old ++ spell (Statement.Join name.now inputs.now classes.now)) }
{
    out.append(b"join")?;
    append_cell(name.as_slice(), out)?;
    append_join_cells(inputs.as_slice(), classes.as_slice(), out)?;
    Ok(())
}

// `INPUT INPUT .. on CLASS ..`
#[tactic(auto, using(crate::proofs::CellTexts::word_between))]
fn append_join_cells(
    inputs: &[Bytes],
    classes: &[List<Bytes>],
    out: &mut List<u8>,
) -> Result<(), NoMemory>
    ensures { OnOk result (out.new ≡ out.old ++ each_behind 32 (inputs.now ++ codes "on" ∷ map class_cell classes.now)) }
{
    append_names(b' ', inputs, out)?;
    append_cell(b"on", out)?;
    append_classes(classes, out)?;
    Ok(())
}

fn append_group(
    name: &Bytes,
    input: &Bytes,
    keys: &List<Bytes>,
    aggs: &List<NamedAgg>,
    out: &mut List<u8>,
) -> Result<(), NoMemory>
    ensures { OnOk result (out.new ≡ out.old ++ spell (Statement.Group name.now input.now keys.now aggs.now)) }
{
    out.append(b"group")?;
    append_cell(name.as_slice(), out)?;
    append_cell(input.as_slice(), out)?;
    out.append(b" by")?;
    append_group_cells(keys.as_slice(), aggs.as_slice(), out)?;
    Ok(())
}

// `COL .. of NEW=AGG ..`
#[tactic(auto, using(crate::proofs::CellTexts::word_between))]
fn append_group_cells(keys: &[Bytes], aggs: &[NamedAgg], out: &mut List<u8>) -> Result<(), NoMemory>
    ensures { OnOk result (out.new ≡ out.old ++ each_behind 32 (keys.now ++ codes "of" ∷ map named_agg_cell aggs.now)) }
{
    append_names(b' ', keys, out)?;
    append_cell(b"of", out)?;
    append_aggs(aggs, out)?;
    Ok(())
}

fn append_output(name: &Bytes, out: &mut List<u8>) -> Result<(), NoMemory>
    ensures { OnOk result (out.new ≡ out.old ++ spell (Statement.Output name.now)) }
{
    out.append(b"output")?;
    append_cell(name.as_slice(), out)?;
    Ok(())
}
