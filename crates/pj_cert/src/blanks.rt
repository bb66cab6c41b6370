// What is asked of `escape` where nothing else is known: a row and instances of zeros and empty texts.
ghost use Rattle.std.specs.Prelude.{◌≡◌, ◌<◌, ◌≤◌, ◌^◌, ◌++◌, IfOk, OnOk, length, true};
ghost use Rattle.pj_shape.specs.Columns.{domains_of};
ghost use Rattle.pj_shape.specs.Sound.{IsSoundSpec, FitSchemes};
ghost use Rattle.pj_graph.specs.Reaching.{AreFewSchemes};
ghost use Rattle.pj_pattern.specs.Fitting.{row_fits};
ghost use Rattle.pj_cert.specs.Instances.{AreInstances, blanks, blank_instances_of, blank_input, blank_ones as ones_of, constants_of, marked};

use crate::escaping::blank;
use pj_graph::is_among;
use pj_shape::{Instance, JoinSpec, Schema, Scheme, Schemes};
use pj_value::{List, NoMemory, Row, Value};
use std::alloc::Global;

/// The row of 0 and the empty text, by the kinds of the columns.
#[tactic(auto, using(crate::proofs::BlankOnes::blanks_fit))]
pub fn blank_row(alloc: Global, schema: &Schema) -> Result<Row, NoMemory>
    ensures row { IfOk result (λ row. row ≡ blanks (domains_of schema.now)) }
    ensures fits { IfOk result (λ row. row_fits (domains_of schema.now) row ≡ true) }
{
    Ok(Row::of(blank_values(alloc, schema)?))
}

fn blank_values(alloc: Global, schema: &Schema) -> Result<List<Value>, NoMemory>
    ensures { IfOk result (λ values. values ≡ blanks (domains_of schema.now)) }
{
    let mut values = List::new(alloc);
    for column in schema.columns() {
        values.push(blank(alloc, column.kind)?)?;
    }
    Ok(values)
}

/// For each input that is not reached, in order, and each of its schemes in order, the instance whose constants are 0 and the
/// empty text, by the kinds of the marked columns.
#[tactic(auto, using(crate::proofs::BlankOnes::blank_given, crate::proofs::BlankOnes::blank_few))]
pub fn blank_instances(
    alloc: Global,
    spec: &JoinSpec,
    schemes: &Schemes,
    reached: &[u32],
) -> Result<List<Instance>, NoMemory>
    requires sound { IsSoundSpec spec.now }
    requires fitting { FitSchemes spec.now.inputs schemes.now }
    requires few { AreFewSchemes schemes.now }
    ensures instances { IfOk result (λ listed. listed ≡ blank_instances_of spec.now schemes.now reached.now) }
    ensures given { IfOk result (λ listed. AreInstances spec.now schemes.now listed) }
    ensures few { IfOk result (λ listed. length (constants_of listed) < 2 ^ 32) }
{
    let listed = instances_of(alloc, spec, schemes, reached)?;
    Ok(listed)
}

fn instances_of(
    alloc: Global,
    spec: &JoinSpec,
    schemes: &Schemes,
    reached: &[u32],
) -> Result<List<Instance>, NoMemory>
    requires sound { IsSoundSpec spec.now }
    requires fitting { FitSchemes spec.now.inputs schemes.now }
    requires few { AreFewSchemes schemes.now }
    ensures { IfOk result (λ listed. listed ≡ blank_instances_of spec.now schemes.now reached.now) }
{
    let mut listed = List::new(alloc);
    for (input, schema) in spec.inputs.as_slice().iter().enumerate() {
        let list = schemes.at(input).as_slice();
        append_input(alloc, reached, input as u32, schema, list, &mut listed)?;
    }
    Ok(listed)
}

// The same for one input.
fn append_input(
    alloc: Global,
    reached: &[u32],
    input: u32,
    schema: &Schema,
    list: &[Scheme],
    listed: &mut List<Instance>,
) -> Result<(), NoMemory>
    requires { length list.now ≤ 256 }
    ensures { OnOk result (listed.new ≡ listed.old ++ blank_input reached.now input (domains_of schema.now) list.now) }
{
    if is_among(reached, input) {
        return Ok(());
    }
    append_ones(alloc, input, schema, list, listed)?;
    Ok(())
}

// Appends the instance of each of these schemes of the input.
fn append_ones(
    alloc: Global,
    input: u32,
    schema: &Schema,
    list: &[Scheme],
    listed: &mut List<Instance>,
) -> Result<(), NoMemory>
    requires { length list.now ≤ 256 }
    ensures { OnOk result (listed.new ≡ listed.old ++ ones_of input (domains_of schema.now) 0 list.now) }
{
    for (n, scheme) in list.iter().enumerate() {
        let constants = blank_constants(alloc, schema, scheme)?;
        listed.push(Instance {
            input,
            scheme: n as u32,
            constants,
        })?;
    }
    Ok(())
}

fn blank_constants(alloc: Global, schema: &Schema, scheme: &Scheme) -> Result<List<Value>, NoMemory>
    ensures { IfOk result (λ constants. constants ≡ blanks (marked scheme.now (domains_of schema.now))) }
{
    let mut constants = List::new(alloc);
    for n in 0..scheme.len().min(schema.len()) {
        if *scheme.at(n) {
            constants.push(blank(alloc, schema.at(n).kind)?)?;
        }
    }
    Ok(constants)
}
