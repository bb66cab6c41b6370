// Whether the joins of a plan have these certificates.
ghost use Rattle.std.specs.Prelude.{◌≡◌, ◌<◌, ◌↔◌, true, length, IfOk, IsTrue};
ghost use Rattle.pj_plan.specs.Canonical.{node_at};
ghost use Rattle.pj_plan.specs.Nodes.{is_join};
ghost use Rattle.pj_scheme.specs.Derived.{schemes_of};
ghost use Rattle.pj_shape.specs.Sound.{FitSchemes, IsSoundSpec};
ghost use Rattle.pj_safe_core.specs.Verified.{AreCertificatesFor, AreVerified, AreVerifiedAt};

use pj_cert::verify;
use pj_plan::{Node, Plan};
use pj_scheme::{derived, join_schemes, schemes_fit};
use pj_shape::{Cert, JoinSpec, Schemes};
use pj_value::{List, NoMemory};
use std::alloc::Global;

// Whether there is a list for each join, in order, with a certificate of each of its inputs.
#[tactic(auto, using(crate::proofs::OneByOne::join_below, crate::proofs::OneByOne::join_is))]
pub(crate) fn are_verified(
    alloc: Global,
    plan: &Plan,
    certs: &[List<Cert>],
) -> Result<bool, NoMemory>
    ensures { IfOk result (λ answer. IsTrue answer ↔ AreVerified plan.now.nodes certs.now) }
{
    let joins = plan.joins();
    if certs.len() != joins.len() {
        return Ok(false);
    }
    let all = derived(alloc, plan)?;
    for place in 0..joins.len() {
        if !is_verified_at(alloc, plan, &all, joins[place], certs[place].as_slice())? {
            return Ok(false);
        }
    }
    Ok(true)
}

// Whether these are certificates of the inputs of the join of this number, one for each in order.
fn is_verified_at(
    alloc: Global,
    plan: &Plan,
    all: &Schemes,
    join: u32,
    certs: &[Cert],
) -> Result<bool, NoMemory>
    requires there { join < length plan.now.nodes }
    requires is_join { is_join (node_at plan.now.nodes join) ≡ true }
    requires all { all.now ≡ schemes_of plan.now.nodes }
    requires count { length all.now ≡ length plan.now.nodes }
    ensures { IfOk result (λ answer. IsTrue answer ↔ AreVerifiedAt plan.now.nodes join certs.now) }
{
    let _sound = plan.nodes();
    schemes_fit();
    match plan.node(join) {
        Node::Join { inputs: _, spec } => {
            let schemes = join_schemes(alloc, plan, all, join)?;
            Ok(are_certificates(spec, &schemes, certs))
        }
        Node::Stream { schemes: _ } => unreachable!(),
        Node::Select { input: _, test: _ } => unreachable!(),
        Node::Project {
            input: _,
            columns: _,
        } => unreachable!(),
        Node::Union { inputs: _ } => unreachable!(),
        Node::Group { input: _, spec: _ } => unreachable!(),
    }
}

// Whether these are certificates of the inputs of a join of this shape, one for each in order.
fn are_certificates(spec: &JoinSpec, schemes: &Schemes, certs: &[Cert]) -> bool
    requires sound { IsSoundSpec spec.now }
    requires fitting { FitSchemes spec.now.inputs schemes.now }
    ensures { IsTrue result ↔ AreCertificatesFor spec.now schemes.now certs.now }
{
    if certs.len() != spec.inputs.len() {
        return false;
    }
    for input in 0..certs.len() {
        if !verify(spec, schemes, input as u32, &certs[input]) {
            return false;
        }
    }
    true
}
