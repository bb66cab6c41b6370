// The inputs that an input reaches, added one by one.
ghost use Rattle.std.specs.Prelude.{◌≡◌, ◌<◌, ◌≤◌, IfOk, length, [], ◌∷◌};
ghost use Rattle.pj_shape.specs.Sound.{IsSoundSpec, FitSchemes};
ghost use Rattle.pj_graph.specs.Certificates.{IsSaturation};
ghost use Rattle.pj_graph.specs.Reaching.{AreFewSchemes, IsReach};
ghost use Rattle.pj_graph.specs.Saturation.{reach_of, sorted_below};
ghost use Rattle.pj_graph.specs.Search.{class_numbers as numbers_from, IsNext, IsMissing, IsAnswer};
ghost use Rattle.pj_shape.specs.Certificates.{inputs_of};

use crate::Reach;
use crate::known::is_among;
use crate::search::{class_numbers, first_step, touched_classes};
use pj_shape::{Cert, CertStep, JoinSpec, Schemes};
use pj_value::{List, NoMemory};
use std::alloc::Global;

// The steps so far, and the inputs that are known: the first one, and those of the steps.
#[derive(Drop)]
struct Saturation {
    known: List<u32>,
    steps: List<CertStep>,
}

/// Which inputs of a join an input reaches: those that every closed set of inputs with this one has, a set being closed
/// where no input outside it has a scheme all of whose marked columns lie in classes with a column of an input inside.
/// The answer is `All` exactly where that is every input, with the certificate that starts from the input alone and always
/// adds the least input that can be added, by its first scheme that allows it.
pub fn reach(
    alloc: Global,
    spec: &JoinSpec,
    schemes: &Schemes,
    input: u32,
) -> Result<Reach, NoMemory>
    requires sound { IsSoundSpec spec.now }
    requires fitting { FitSchemes spec.now.inputs schemes.now }
    requires few { AreFewSchemes schemes.now }
    requires input { input < length spec.now.inputs }
    ensures reached { IfOk result (λ found. IsReach spec.now schemes.now input found) }
    ensures told { IfOk result (λ found. found ≡ reach_of spec.now schemes.now input) }
{
    let found = saturate(alloc, spec, schemes, input)?;
    let told = answer(alloc, found, spec.inputs.len())?;
    Ok(told)
}

fn saturate(
    alloc: Global,
    spec: &JoinSpec,
    schemes: &Schemes,
    input: u32,
) -> Result<Saturation, NoMemory>
    requires sound { IsSoundSpec spec.now }
    requires fitting { FitSchemes spec.now.inputs schemes.now }
    requires few { AreFewSchemes schemes.now }
    ensures known { IfOk result (λ found. found.known ≡ input ∷ inputs_of found.steps) }
    ensures saturated { IfOk result (λ found. IsSaturation spec.now schemes.now (input ∷ []) found.steps) }
{
    let table = class_numbers(alloc, spec)?;
    let mut known = List::new(alloc);
    known.push(input)?;
    let mut steps = List::new(alloc);
    'adding: loop {
        match next_step(alloc, spec, schemes, table.as_slice(), known.as_slice())? {
            None => return Ok(Saturation { known, steps }),
            Some(step) => {
                steps.push(step)?;
                known.push(step.input)?;
            }
        }
    }
}

fn next_step(
    alloc: Global,
    spec: &JoinSpec,
    schemes: &Schemes,
    table: &[List<Option<u32>>],
    known: &[u32],
) -> Result<Option<CertStep>, NoMemory>
    requires sound { IsSoundSpec spec.now }
    requires fitting { FitSchemes spec.now.inputs schemes.now }
    requires few { AreFewSchemes schemes.now }
    requires table { table.now ≡ numbers_from spec.now.classes 0 spec.now.inputs }
    ensures { IfOk result (λ step. IsNext spec.now schemes.now known.now step) }
{
    let bound = touched_classes(alloc, spec.classes.as_slice(), known)?;
    let step = first_step(table, schemes, bound.as_slice(), known);
    Ok(step)
}

fn answer(alloc: Global, found: Saturation, count: usize) -> Result<Reach, NoMemory>
    requires { count ≤ 16 }
    ensures { IfOk result (λ told. IsAnswer found.steps found.known count told) }
{
    match first_missing(found.known.as_slice(), count) {
        None => Ok(Reach::All(Cert::of(found.steps))),
        Some(missing) => {
            let reached = sorted(alloc, found.known.as_slice(), count)?;
            Ok(Reach::Stuck { reached, missing })
        }
    }
}

fn first_missing(known: &[u32], count: usize) -> Option<u32>
    requires { count ≤ 16 }
    ensures { IsMissing known.now count result }
{
    for k in 0..count {
        if !is_among(known, k as u32) {
            return Some(k as u32);
        }
    }
    None
}

fn sorted(alloc: Global, known: &[u32], count: usize) -> Result<List<u32>, NoMemory>
    requires { count ≤ 16 }
    ensures { IfOk result (λ numbers. numbers ≡ sorted_below known.now count) }
{
    let mut numbers = List::new(alloc);
    for k in 0..count {
        if is_among(known, k as u32) {
            numbers.push(k as u32)?;
        }
    }
    Ok(numbers)
}
