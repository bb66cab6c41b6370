// The schemes of one node, by those of the nodes before it.
ghost use Rattle.std.specs.Prelude.{◌≡◌, ◌++◌, ◌+◌, ◌≤◌, IfOk, OnOk, length, map, filter, sum};
ghost use Rattle.pj_shape.specs.Sound.{arities_of};
ghost use Rattle.pj_scheme.specs.Derived.{schemes_at as schemes_of_node, inputs_schemes, projected as projected_by, has_among as one_among, others_have as others, united as union_of, joined as join_of, node_schemes as schemes_of, widened as wider};
ghost use Rattle.pj_scheme.specs.Fitting.{IsNarrow};

use crate::marks::{are_kept, cut, marks_among, widened};
use pj_plan::Node;
use pj_shape::{Schema, Scheme};
use pj_value::{List, NoMemory, TryClone, copy_items};
use std::alloc::Global;

/// The schemes of a node, by those of the nodes before it.
pub(crate) fn node_schemes(
    alloc: Global,
    done: &[List<Scheme>],
    node: &Node,
) -> Result<List<Scheme>, NoMemory>
    requires { IsNarrow node.now }
    ensures { IfOk result (λ schemes. schemes ≡ schemes_of done.now node.now) }
{
    match node {
        Node::Stream { schemes } => schemes.try_clone(alloc),
        Node::Select { input, .. } => copy_items(alloc, schemes_at(done, *input)),
        Node::Project { input, columns } => {
            projected(alloc, columns.as_slice(), schemes_at(done, *input))
        }
        Node::Union { inputs } => united(alloc, done, inputs.as_slice()),
        Node::Join { inputs, spec } => {
            joined(alloc, done, inputs.as_slice(), spec.inputs.as_slice())
        }
        Node::Group { input, spec } => grouped(
            alloc,
            spec.keys.as_slice(),
            spec.aggs.len(),
            schemes_at(done, *input),
        ),
    }
}

fn schemes_at(done: &[List<Scheme>], number: u32) -> &[Scheme]
    ensures { result.now ≡ schemes_of_node done.now number }
{
    match done.get(number as usize) {
        None => &[],
        Some(schemes) => schemes.as_slice(),
    }
}

fn projected(alloc: Global, columns: &[u32], schemes: &[Scheme]) -> Result<List<Scheme>, NoMemory>
    ensures { IfOk result (λ kept. kept ≡ projected_by columns.now schemes.now) }
{
    let mut kept = List::new(alloc);
    for scheme in schemes {
        if are_kept(columns, scheme) {
            kept.push(cut(alloc, columns, scheme)?)?;
        }
    }
    Ok(kept)
}

fn united(alloc: Global, done: &[List<Scheme>], inputs: &[u32]) -> Result<List<Scheme>, NoMemory>
    ensures { IfOk result (λ schemes. schemes ≡ union_of done.now inputs.now) }
{
    let mut schemes = List::new(alloc);
    for input in inputs {
        append_common(alloc, done, inputs, *input, &mut schemes)?;
    }
    Ok(schemes)
}

// Puts at the end those of an input's schemes for which every other input has one whose marks are among theirs.
fn append_common(
    alloc: Global,
    done: &[List<Scheme>],
    inputs: &[u32],
    input: u32,
    out: &mut List<Scheme>,
) -> Result<(), NoMemory>
    ensures { OnOk result (out.new ≡ out.old ++ filter (others done.now inputs.now input) (schemes_of_node done.now input)) }
{
    for scheme in schemes_at(done, input) {
        if others_have(done, inputs, input, scheme) {
            out.push(scheme.copy(alloc)?)?;
        }
    }
    Ok(())
}

fn others_have(done: &[List<Scheme>], inputs: &[u32], input: u32, scheme: &Scheme) -> bool
    ensures { result ≡ others done.now inputs.now input scheme.now }
{
    inputs.iter().all(|other| *other == input || has_among(schemes_at(done, *other), scheme))
}

fn has_among(schemes: &[Scheme], scheme: &Scheme) -> bool
    ensures { result ≡ one_among schemes.now scheme.now }
{
    schemes.iter().any(|theirs| marks_among(theirs, scheme))
}

fn joined(
    alloc: Global,
    done: &[List<Scheme>],
    inputs: &[u32],
    schemas: &[Schema],
) -> Result<List<Scheme>, NoMemory>
    requires { sum (arities_of schemas.now) ≤ 120 }
    ensures { IfOk result (λ schemes. schemes ≡ join_of 0 schemas.now (inputs_schemes done.now inputs.now)) }
{
    let all = column_count(schemas);
    let mut before = 0_usize;
    let mut schemes = List::new(alloc);
    for at in 0..inputs.len().min(schemas.len()) {
        let width = schemas[at].len();
        let after = all - before - width;
        let list = schemes_at(done, inputs[at]);
        append_widened(alloc, before, after, list, &mut schemes)?;
        before += width;
    }
    Ok(schemes)
}

// The number of columns of all inputs.
fn column_count(schemas: &[Schema]) -> usize
    requires { sum (arities_of schemas.now) ≤ 120 }
    ensures { result ≡ sum (arities_of schemas.now) }
{
    let mut count = 0_usize;
    for schema in schemas {
        count += schema.len();
    }
    count
}

fn grouped(
    alloc: Global,
    keys: &[u32],
    aggs: usize,
    schemes: &[Scheme],
) -> Result<List<Scheme>, NoMemory>
    ensures { IfOk result (λ made. made ≡ map (wider 0 aggs) (projected_by keys.now schemes.now)) }
{
    let kept = projected(alloc, keys, schemes)?;
    let mut made = List::with_room(alloc, kept.len())?;
    append_widened(alloc, 0, aggs, kept.as_slice(), &mut made)?;
    Ok(made)
}

// Puts these schemes at the end, each with so many unmarked columns in front, and behind.
fn append_widened(
    alloc: Global,
    before: usize,
    after: usize,
    schemes: &[Scheme],
    out: &mut List<Scheme>,
) -> Result<(), NoMemory>
    ensures { OnOk result (out.new ≡ out.old ++ map (wider before after) schemes.now) }
{
    for scheme in schemes {
        out.push(widened(alloc, before, after, scheme)?)?;
    }
    Ok(())
}
