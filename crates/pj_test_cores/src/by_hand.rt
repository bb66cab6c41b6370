// Certificates that were made by hand, and a core that runs on them.
use crate::cases::{Certs, Step, core_over, first_wrong, plan_of};
use pj_judge::{Judged, judge};
use pj_shape::Cert;
use pj_value::NoMemory;
use std::alloc::Global;

// A ring of three streams: each has a column in common with either of the others, and a scheme for each of its columns.
const RING: &str =
    "plan 1\nstream a x:int z:int\nstream b bx:int by:int\nstream c cz:int cy:int\nscheme a + _\nscheme a _ +\nscheme b + _\nscheme b _ +\nscheme c + _\nscheme c _ +\njoin j a b c on x=bx by=cy z=cz\noutput j\n";

// Each goes round the ring from its input the other way than the checker does.
const BY_HAND: Certs = &[&[&[(2, 0), (1, 1)], &[(2, 1), (0, 1)], &[(1, 1), (0, 0)]]];

// Those that the checker finds: each begins with the least input that can be added, by its first scheme that allows it.
const FOUND: Certs = &[&[&[(1, 0), (2, 0)], &[(0, 0), (2, 0)], &[(0, 1), (1, 0)]]];

// The row of the first stream asks for the third stream's closed number alone, since no row of that has it. Then three rows join;
// the second closing frees the third stream's row, and the last one the other two with the punctuations that waited for them.
const THIRD_FREES: &[Step] = &[
    Step::Turn(0, "t 1 3", Ok("")),
    Step::Turn(2, "p 3 *", Ok("p * * * * 3 *\npurge 3 0 t 1 3\n")),
    Step::Look(0, 0, 0),
    Step::Turn(0, "t 1 4", Ok("")),
    Step::Turn(1, "t 1 2", Ok("")),
    Step::Turn(2, "t 4 2", Ok("t 1 4 1 2 4 2\n")),
    Step::Look(3, 0, 0),
    Step::Turn(0, "end", Ok("")),
    Step::Turn(1, "end", Ok("purge 3 2 t 4 2\n")),
    Step::Turn(
        2,
        "end",
        Ok("p * * * * * *\npurge 3 0 t 1 4\np * * * * * *\npurge 3 1 t 1 2\np * * * * * *\n"),
    ),
    Step::Look(0, 0, 3),
];

#[test]
fn certificates_made_by_hand_are_verified(rt: HostRuntime) {
    let wrong = first_wrong(rt.alloc(), RING, BY_HAND, 9, true, THIRD_FREES);
    assert_eq!(rt; wrong, Ok(None));
}

fn is_cert(cert: &Cert, steps: &[(u32, u32)]) -> bool {
    if cert.len() != steps.len() {
        return false;
    }
    for at in 0..steps.len() {
        let step = cert.at(at);
        if (step.input, step.scheme) != steps[at] {
            return false;
        }
    }
    true
}

fn are_certs(certs: &[Cert], inputs: &[&[(u32, u32)]]) -> bool {
    if certs.len() != inputs.len() {
        return false;
    }
    for at in 0..inputs.len() {
        if !is_cert(&certs[at], inputs[at]) {
            return false;
        }
    }
    true
}

// Whether the checker finds these certificates of the ring.
fn is_found(alloc: Global, certs: Certs) -> Result<bool, NoMemory> {
    let plan = plan_of(alloc, RING)?;
    match judge(alloc, &plan)? {
        Judged::Safe { certs: found } => match (found.as_slice(), certs) {
            ([found], [certs]) => Ok(are_certs(found.as_slice(), certs)),
            _ => Ok(false),
        },
        Judged::Unsafe { found: _ } => Ok(false),
    }
}

// With the checker's own certificates the same row stays until the second stream's number is closed.
const SECOND_FREES: &[Step] = &[
    Step::Turn(0, "t 1 3", Ok("")),
    Step::Turn(2, "p 3 *", Ok("p * * * * 3 *\n")),
    Step::Look(1, 0, 0),
    Step::Turn(1, "p 1 *", Ok("p * * 1 * * *\npurge 3 0 t 1 3\n")),
    Step::Look(0, 0, 0),
];

#[test]
fn the_checker_finds_other_certificates(rt: HostRuntime) {
    let alloc = rt.alloc();
    assert_eq!(rt; is_found(alloc, FOUND), Ok(true));
    assert_eq!(rt; is_found(alloc, BY_HAND), Ok(false));
    let wrong = first_wrong(alloc, RING, FOUND, 9, true, SECOND_FREES);
    assert_eq!(rt; wrong, Ok(None));
}

fn is_refused(alloc: Global, certs: Certs) -> Result<bool, NoMemory> {
    Ok(core_over(alloc, RING, certs, 9, true)?.is_none())
}

// A step that binds no marked column of its scheme by the input's own, a certificate that leaves out an input, an input without
// one, a list more than the plan has joins, and no list.
const REFUSED: [Certs; 5] = [
    &[&[&[(1, 1), (2, 0)], &[(2, 1), (0, 1)], &[(1, 1), (0, 0)]]],
    &[&[&[(2, 0), (1, 1)], &[(2, 1), (0, 1)], &[(1, 1)]]],
    &[&[&[(2, 0), (1, 1)], &[(2, 1), (0, 1)]]],
    &[
        &[&[(2, 0), (1, 1)], &[(2, 1), (0, 1)], &[(1, 1), (0, 0)]],
        &[],
    ],
    &[],
];

#[test]
fn lists_that_are_no_certificates_are_refused(rt: HostRuntime) {
    for (at, certs) in REFUSED.iter().enumerate() {
        assert_eq!(rt; is_refused(rt.alloc(), certs), Ok(true), "at {at}");
    }
    assert_eq!(rt; is_refused(rt.alloc(), BY_HAND), Ok(false));
}
