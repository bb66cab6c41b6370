// What the pages of single crates show.
use crate::joins::{SAMPLE, join_of, step};
use pj_cert::verify;
use pj_plan::{PlanFault, PlanStop, PlanWhy};
use pj_plan_text::{plan_text, read_plan};
use pj_shape::{Cert, CertStep};
use pj_value::{List, NoMemory};
use std::alloc::Global;
use std::test::Fail;

#[test]
fn a_plan_is_read_and_written_again(rt: HostRuntime) -> Result<(), Fail> {
    let alloc = rt.alloc();
    let lines = b"plan 1\n# closed by item\nstream bids  item:int price:int\noutput bids";
    let plan = read_plan(alloc, lines)?;
    let mut text = List::new(alloc);
    plan_text(alloc, &plan, &mut text)?;
    let canonical = b"plan 1\nstream bids item:int price:int\noutput bids\n";
    assert_eq!(rt; text.as_slice(), canonical.as_slice());

    let refused = read_plan(alloc, b"plan 1\noutput s").err();
    let why = PlanWhy::UnknownName;
    let fault = PlanFault { line: 2, why };
    assert_eq!(rt; refused, Some(PlanStop::Fault(fault)));
    Ok(())
}

// Whether the steps are a certificate of an input of the sample; an input that it does not have counts as want of memory.
fn is_verified(alloc: Global, input: u32, steps: &[CertStep]) -> Result<bool, NoMemory> {
    let join = join_of(alloc, SAMPLE)?;
    if input as usize >= join.spec.inputs.len() {
        return Err(NoMemory);
    }
    let cert = Cert::of(List::copy_of(alloc, steps)?);
    Ok(verify(&join.spec, &join.schemes, input, &cert))
}

#[test]
fn certificates_are_told_from_other_lists(rt: HostRuntime) -> Result<(), Fail> {
    let alloc = rt.alloc();
    let join = join_of(alloc, SAMPLE)?;
    let steps = [step(2, 0), step(1, 0)];
    let cert = Cert::of(List::copy_of(alloc, &steps)?);
    assert!(rt; verify(&join.spec, &join.schemes, 0, &cert));
    let steps = [step(1, 0), step(2, 0)];
    let early = Cert::of(List::copy_of(alloc, &steps)?);
    assert!(rt; !verify(&join.spec, &join.schemes, 0, &early));

    for (input, steps) in [
        (0, [step(2, 0), step(2, 0), step(1, 0)].as_slice()),
        (0, &[step(2, 0)]),
        (1, &[step(0, 0), step(2, 0)]),
    ] {
        let verified = is_verified(alloc, input, steps);
        assert_eq!(rt; verified, Ok(false), "at {input} by {steps:?}");
    }
    Ok(())
}
