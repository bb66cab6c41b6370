// Whether a list of steps is a certificate.
ghost use Rattle.std.specs.Prelude.{◌≡◌, ◌<◌, ◌≤◌, ◌↔◌, ◌∷◌, [], All, IsTrue, length};
ghost use Rattle.pj_shape.specs.Sound.{IsSoundSpec, FitSchemes};
ghost use Rattle.pj_shape.specs.Certificates.{IsCertificate};
ghost use Rattle.pj_cert.specs.Tests.{all_known as knows_all, can_use as usable, step_holds as holds, steps_hold as all_hold};

use crate::checks::are_bound;
use arrayvec::ArrayVec;
use pj_graph::is_among;
use pj_shape::{Cert, CertStep, ClassCol, JoinSpec, Scheme, Schemes};
use pj_value::List;

/// Whether these steps are a certificate of the input: every other input stands in the list once, and each step's scheme is
/// one of its input, with its marked columns in classes with a column of this input or of that of an earlier step.
pub fn verify(spec: &JoinSpec, schemes: &Schemes, input: u32, cert: &Cert) -> bool
    requires sound { IsSoundSpec spec.now }
    requires fitting { FitSchemes spec.now.inputs schemes.now }
    requires input { input < length spec.now.inputs }
    ensures { IsTrue result ↔ IsCertificate spec.now schemes.now input cert.now }
{
    steps_hold(spec, schemes, input, cert)
}

fn steps_hold(spec: &JoinSpec, schemes: &Schemes, input: u32, cert: &Cert) -> bool
    requires sound { IsSoundSpec spec.now }
    requires fitting { FitSchemes spec.now.inputs schemes.now }
    requires input { input < length spec.now.inputs }
    ensures { result ≡ all_hold spec.now schemes.now (input ∷ []) cert.now }
{
    let mut known: ArrayVec<u32, 16> = ArrayVec::new();
    known.push(input);
    for n in 0..cert.len() {
        let step = *cert.at(n);
        if !step_holds(spec, schemes, known.as_slice(), step) {
            return false;
        }
        known.push(step.input);
    }
    all_known(known.as_slice(), spec.inputs.len())
}

fn step_holds(spec: &JoinSpec, schemes: &Schemes, known: &[u32], step: CertStep) -> bool
    requires sound { IsSoundSpec spec.now }
    requires fitting { FitSchemes spec.now.inputs schemes.now }
    ensures { result ≡ holds spec.now schemes.now known.now step }
{
    if is_among(known, step.input) || step.input as usize >= schemes.len() {
        return false;
    }
    let list = schemes.at(step.input as usize).as_slice();
    can_use(spec.classes.as_slice(), known, step, list)
}

fn can_use(classes: &[List<ClassCol>], known: &[u32], step: CertStep, list: &[Scheme]) -> bool
    requires { All (λ marks. length marks ≤ 120) list.now }
    ensures { result ≡ usable classes.now known.now step.input list.now step.scheme }
{
    let scheme = step.scheme as usize;
    if scheme >= list.len() {
        return false;
    }
    are_bound(classes, known, step.input, &list[scheme])
}

fn all_known(known: &[u32], count: usize) -> bool
    requires { count ≤ 16 }
    ensures { result ≡ knows_all known.now count }
{
    for k in 0..count {
        if !is_among(known, k as u32) {
            return false;
        }
    }
    true
}
