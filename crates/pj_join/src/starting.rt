// A join with no rows and no punctuations.
ghost use Rattle.std.specs.Prelude.{◌≡◌, ◌<◌, ◌≤◌, ℕ, [], length, map, slice_index, slice_index_or, sum, All, IfOk, OnOk};
ghost use Rattle.pj_shape.specs.Sound.{IsSoundSpec, arities_of};
ghost use Rattle.pj_events.specs.Join.{AreCertified, inputs, of_input, upto_from};
ghost use Rattle.pj_recheck.specs.Judging.{join_data};
ghost use Rattle.pj_join.specs.Purges.{ArePurgeRoutes};
ghost use Rattle.pj_join.specs.Sides.{AreAllShaped, IsShaped, held_in, heard_of};
ghost use Rattle.pj_rows.specs.Tuples.{tuples_in};
ghost use Rattle.pj_recheck.specs.Watching.{watches_at};

use pj_cover::{PurgeRoute, purge_route};
use pj_puncts::PunctStore;
use pj_recheck::DueRechecks;
use pj_shape::{Cert, ClassCol, JoinSpec, Schema, Schemes};
use pj_state::State;
use pj_value::{List, NoMemory};
use std::alloc::Global;

// Puts the columns of the input in this class at the end that are below its arity.
fn append_columns(
    class: &[ClassCol],
    input: usize,
    arity: usize,
    columns: &mut List<u32>,
) -> Result<(), NoMemory>
    ensures { OnOk result (All (λ column. column < arity) columns.old → All (λ column. column < arity) columns.new) }
{
    for at in class {
        if at.input as usize == input && (at.column as usize) < arity {
            columns.push(at.column)?;
        }
    }
    Ok(())
}

// The columns of an input of so many columns that stand in classes: a tuple is looked up by them.
fn class_columns(
    alloc: Global,
    classes: &[List<ClassCol>],
    input: usize,
    arity: usize,
) -> Result<List<u32>, NoMemory>
    ensures { IfOk result (λ columns. All (λ column. column < arity) columns) }
{
    let mut columns = List::new(alloc);
    for class in classes {
        append_columns(class.as_slice(), input, arity, &mut columns)?;
    }
    Ok(columns)
}

// A state with no rows for an input of so many columns.
fn empty_state(
    alloc: Global,
    classes: &[List<ClassCol>],
    input: usize,
    arity: usize,
) -> Result<State, NoMemory>
    ensures rows { IfOk result (λ state. state.rows ≡ []) }
    ensures shaped { IfOk result (λ state. IsShaped arity state) }
{
    let columns = class_columns(alloc, classes, input, arity)?;
    State::new(alloc, columns.as_slice())
}

/// A state with no rows for each input.
pub fn empty_states(alloc: Global, spec: &JoinSpec) -> Result<Vec<State>, NoMemory>
    ensures rows { IfOk result (λ row_states. tuples_in 0 row_states.items ≡ map (λ k. of_input k []) (upto_from 0 (length spec.now.inputs))) }
    ensures shaped { IfOk result (λ row_states. AreAllShaped (arities_of spec.now.inputs) row_states.items) }
{
    let mut row_states = Vec::new(alloc);
    for input in 0..spec.inputs.len() {
        let arity = spec.inputs.as_slice()[input].len();
        row_states.push(empty_state(alloc, spec.classes.as_slice(), input, arity)?)?;
    }
    Ok(row_states)
}

/// A store with no punctuations for each input.
pub fn empty_stores(alloc: Global, schemas: &[Schema]) -> Result<Vec<PunctStore>, NoMemory>
    requires { sum (arities_of schemas.now) ≤ 120 }
    ensures heard { IfOk result (λ punct_stores. held_in 0 punct_stores.items ≡ map (λ k. heard_of k []) (upto_from 0 (length schemas.now))) }
    ensures arities { IfOk result (λ punct_stores. map (λ s. s.arity) punct_stores.items ≡ arities_of schemas.now) }
{
    let mut punct_stores = Vec::new(alloc);
    for schema in schemas {
        punct_stores.push(PunctStore::new(alloc, schema.len() as u32)?)?;
    }
    Ok(punct_stores)
}

/// For each of so many inputs that all its rows are judged.
pub fn empty_watches(alloc: Global, inputs: usize) -> Result<Vec<DueRechecks>, NoMemory>
    ensures count { IfOk result (λ due. length due.items ≡ inputs) }
    ensures none { IfOk result (λ due. (input : ℕ) → (watches_at due.items input).from ≡ 0) }
{
    let mut due = Vec::new(alloc);
    for _input in 0..inputs {
        due.push(DueRechecks::new(alloc))?;
    }
    Ok(due)
}

// The certificate of an input; none where it has none.
fn cert_of<'a>(certs: &'a [Cert], none: &'a Cert, input: u32) -> &'a Cert
    requires { none.now ≡ [] }
    ensures { result.now ≡ slice_index_or certs.now input [] }
{
    match certs.get(input as usize) {
        None => none,
        Some(cert) => cert,
    }
}

/// The route of each input by which its tuples are judged.
#[tactic(auto, using(crate::proofs::Purged::purge_given, crate::proofs::Purged::purges_none))]
pub fn purge_routes(
    alloc: Global,
    spec: &JoinSpec,
    schemes: &Schemes,
    certs: &[Cert],
) -> Result<Vec<PurgeRoute>, NoMemory>
    requires sound { IsSoundSpec spec.now }
    requires certified { AreCertified (join_data spec.now schemes.now certs.now) }
    ensures { IfOk result (λ routes. ArePurgeRoutes (join_data spec.now schemes.now certs.now) (inputs (join_data spec.now schemes.now certs.now)) routes.items) }
{
    let none = Cert::of(List::new(alloc));
    let mut routes = Vec::new(alloc);
    for input in 0..spec.inputs.len() {
        let cert = cert_of(certs, &none, input as u32);
        routes.push(purge_route(spec, schemes, cert, input as u32))?;
    }
    Ok(routes)
}
