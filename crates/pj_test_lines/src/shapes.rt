// Each public call that allocates, with ample memory.
use crate::texts::schema_of;
use pj_shape::{Agg, Cert, CertStep, ClassCol, Column, GroupSpec, JoinSpec, Scheme, Schemes};
use pj_value::{Kind, List, NoMemory};
use std::alloc::Global;
use std::test::Fail;

fn only<T: Drop>(alloc: Global, item: T) -> Result<List<T>, NoMemory> {
    let mut list = List::new(alloc);
    list.push(item)?;
    Ok(list)
}

fn spec(alloc: Global) -> Result<JoinSpec, NoMemory> {
    let (input, column) = (1, 2);
    let class = List::copy_of(alloc, &[ClassCol { input, column }])?;
    let classes = only(alloc, class)?;
    let inputs = only(alloc, schema_of(alloc, &[Kind::Text])?)?;
    Ok(JoinSpec { inputs, classes })
}

fn is_spec(spec: &JoinSpec) -> bool {
    match (spec.inputs.as_slice(), spec.classes.as_slice()) {
        ([input], [class]) => {
            are_columns(input.columns())
                && class.as_slice()
                    == [ClassCol {
                        input: 1,
                        column: 2,
                    }]
                    .as_slice()
        }
        _ => false,
    }
}

fn are_columns(columns: &[Column]) -> bool {
    match columns {
        [column] => column.name.as_slice() == b"word".as_slice() && column.kind == Kind::Text,
        _ => false,
    }
}

#[test]
fn joins_are_copied(rt: HostRuntime) -> Result<(), Fail> {
    let spec = spec(rt.alloc())?;
    assert!(rt; is_spec(&spec.copy(rt.alloc())?));
    Ok(())
}

fn are_schemes(schemes: &[Scheme]) -> bool {
    match schemes {
        [scheme] => scheme.len() == 2 && *scheme.at(0) && !*scheme.at(1),
        _ => false,
    }
}

#[test]
fn schemes_are_copied(rt: HostRuntime) -> Result<(), Fail> {
    let scheme = Scheme::of(List::copy_of(rt.alloc(), &[true, false])?);
    let schemes = Schemes::of(only(rt.alloc(), only(rt.alloc(), scheme)?)?);
    let copy = schemes.copy(rt.alloc())?;
    assert!(rt; copy.len() == 1 && are_schemes(copy.at(0).as_slice()));
    Ok(())
}

#[test]
fn certificates_are_copied(rt: HostRuntime) -> Result<(), Fail> {
    let (input, scheme) = (2, 3);
    let cert = Cert::of(List::copy_of(rt.alloc(), &[CertStep { input, scheme }])?);
    let copy = cert.copy(rt.alloc())?;
    assert!(rt; copy.len() == 1 && *copy.at(0) == CertStep { input, scheme });
    Ok(())
}

#[test]
fn groups_are_copied(rt: HostRuntime) -> Result<(), Fail> {
    let keys = List::copy_of(rt.alloc(), &[3, 1])?;
    let aggs = List::copy_of(rt.alloc(), &[Agg::Count, Agg::Sum(2)])?;
    let copy = GroupSpec { keys, aggs }.copy(rt.alloc())?;
    assert!(rt; copy.keys.as_slice() == [3, 1].as_slice());
    assert!(rt; copy.aggs.as_slice() == [Agg::Count, Agg::Sum(2)].as_slice());
    Ok(())
}
