// The search for the input that can be added next.
ghost use Rattle.std.specs.Prelude.{◌≡◌, ◌<◌, ◌≤◌, IfOk, IfSome, length, map};
ghost use Rattle.pj_shape.specs.Sound.{IsSoundSpec};
ghost use Rattle.pj_shape.specs.Sets.{touches as touched};
ghost use Rattle.pj_graph.specs.Search.{class_numbers as numbers_from, column_numbers as numbers_in, is_marked as marked, is_met as met, all_marked as marks_hold, first_from, step_of as step_at, step_from};
ghost use Rattle.pj_graph.specs.Reaching.{AreFewSchemes};
ghost use Rattle.pj_value.specs.Lists.{has};

use crate::known::{is_among, touches};
use pj_shape::{CertStep, ClassCol, JoinSpec, Schema, Scheme, Schemes};
use pj_value::{List, NoMemory};
use std::alloc::Global;

/// For each input and each of its columns the number of the class that has it.
pub(crate) fn class_numbers(
    alloc: Global,
    spec: &JoinSpec,
) -> Result<List<List<Option<u32>>>, NoMemory>
    requires { IsSoundSpec spec.now }
    ensures { IfOk result (λ table. table ≡ numbers_from spec.now.classes 0 spec.now.inputs) }
{
    let mut table = List::new(alloc);
    for (input, schema) in spec.inputs.as_slice().iter().enumerate() {
        table.push(column_numbers(alloc, spec, input as u32, schema)?)?;
    }
    Ok(table)
}

fn column_numbers(
    alloc: Global,
    spec: &JoinSpec,
    input: u32,
    schema: &Schema,
) -> Result<List<Option<u32>>, NoMemory>
    requires sound { IsSoundSpec spec.now }
    requires few { length schema.now ≤ 120 }
    ensures { IfOk result (λ numbers. numbers ≡ numbers_in spec.now.classes input 0 schema.now) }
{
    let mut numbers = List::new(alloc);
    for (column, _) in schema.columns().iter().enumerate() {
        let column = column as u32;
        numbers.push(spec.class_of(ClassCol { input, column }))?;
    }
    Ok(numbers)
}

/// For each class whether it has a column of a known input.
pub(crate) fn touched_classes(
    alloc: Global,
    classes: &[List<ClassCol>],
    known: &[u32],
) -> Result<List<bool>, NoMemory>
    ensures { IfOk result (λ bound. bound ≡ map (touched (has known.now)) classes.now) }
{
    let mut bound = List::new(alloc);
    for class in classes {
        bound.push(touches(class.as_slice(), known))?;
    }
    Ok(bound)
}

/// The step that adds the least input that is not known and has a scheme whose marked columns all lie in marked classes,
/// by the first such scheme.
pub(crate) fn first_step(
    table: &[List<Option<u32>>],
    schemes: &Schemes,
    bound: &[bool],
    known: &[u32],
) -> Option<CertStep>
    requires all { length table.now ≡ length schemes.now }
    requires few { length table.now ≤ 16 }
    requires schemes { AreFewSchemes schemes.now }
    ensures { result ≡ step_from bound.now known.now 0 table.now schemes.now }
{
    for input in 0..table.len() {
        let list = schemes.at(input).as_slice();
        match step_of(table[input].as_slice(), list, bound, known, input as u32) {
            Some(step) => return Some(step),
            None => {}
        }
    }
    None
}

fn step_of(
    numbers: &[Option<u32>],
    list: &[Scheme],
    bound: &[bool],
    known: &[u32],
    input: u32,
) -> Option<CertStep>
    requires { length list.now ≤ 256 }
    ensures { result ≡ step_at bound.now known.now input numbers.now list.now }
{
    if is_among(known, input) {
        return None;
    }
    match first_usable(numbers, list, bound) {
        None => None,
        Some(scheme) => Some(CertStep {
            input,
            scheme: scheme as u32,
        }),
    }
}

fn first_usable(numbers: &[Option<u32>], list: &[Scheme], bound: &[bool]) -> Option<usize>
    ensures first { result ≡ first_from bound.now numbers.now 0 list.now }
    ensures there { IfSome result (λ n. n < length list.now) }
{
    for (n, scheme) in list.iter().enumerate() {
        if all_marked(numbers, scheme, bound) {
            return Some(n);
        }
    }
    None
}

fn all_marked(numbers: &[Option<u32>], scheme: &Scheme, bound: &[bool]) -> bool
    ensures { result ≡ marks_hold bound.now numbers.now scheme.now }
{
    let columns = numbers.len().min(scheme.len());
    for column in 0..columns {
        if !is_met(bound, numbers[column], *scheme.at(column)) {
            return false;
        }
    }
    true
}

fn is_met(bound: &[bool], number: Option<u32>, mark: bool) -> bool
    ensures { result ≡ met bound.now number mark }
{
    !mark || is_marked(bound, number)
}

fn is_marked(bound: &[bool], number: Option<u32>) -> bool
    ensures { result ≡ marked bound.now number }
{
    match number {
        None => false,
        Some(class) => match bound.get(class as usize) {
            None => false,
            Some(is_bound) => *is_bound,
        },
    }
}
