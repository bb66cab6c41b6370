// Whether a set of inputs of a join is closed.
ghost use Rattle.std.specs.Prelude.{◌≡◌, ◌<◌, ◌≤◌, ◌↔◌, IsTrue, All, length};
ghost use Rattle.pj_shape.specs.Sound.{IsSoundSpec, FitSchemes};
ghost use Rattle.pj_shape.specs.Sets.{IsClosed, is_bound as bound, are_bound as all_bound};
ghost use Rattle.pj_cert.specs.Tests.{is_met as met, any_usable as some_usable, closed_from, passes};
ghost use Rattle.pj_value.specs.Lists.{has};

use pj_graph::{is_among, touches};
use pj_shape::{ClassCol, JoinSpec, Scheme, Schemes, has_column};
use pj_value::List;

/// Whether these inputs are a closed set: no other input has a scheme all of whose marked columns lie in classes with a
/// column of one of these.
pub fn closed(spec: &JoinSpec, schemes: &Schemes, reached: &[u32]) -> bool
    requires sound { IsSoundSpec spec.now }
    requires fitting { FitSchemes spec.now.inputs schemes.now }
    ensures { IsTrue result ↔ IsClosed spec.now schemes.now (has reached.now) }
{
    none_escapes(spec, schemes, reached)
}

fn none_escapes(spec: &JoinSpec, schemes: &Schemes, reached: &[u32]) -> bool
    requires sound { IsSoundSpec spec.now }
    requires fitting { FitSchemes spec.now.inputs schemes.now }
    ensures { result ≡ closed_from spec.now.classes reached.now 0 schemes.now }
{
    for input in 0..schemes.len() {
        let list = schemes.at(input).as_slice();
        if !is_passed(spec.classes.as_slice(), reached, input as u32, list) {
            return false;
        }
    }
    true
}

fn is_passed(classes: &[List<ClassCol>], known: &[u32], input: u32, list: &[Scheme]) -> bool
    requires { All (λ marks. length marks ≤ 120) list.now }
    ensures { result ≡ passes classes.now known.now input list.now }
{
    is_among(known, input) || !any_usable(classes, known, input, list)
}

fn any_usable(classes: &[List<ClassCol>], known: &[u32], input: u32, list: &[Scheme]) -> bool
    requires { All (λ marks. length marks ≤ 120) list.now }
    ensures { result ≡ some_usable classes.now known.now input list.now }
{
    for scheme in list {
        if are_bound(classes, known, input, scheme) {
            return true;
        }
    }
    false
}

/// Whether each marked column of this scheme of the input lies in a class with a column of a known input.
pub(crate) fn are_bound(
    classes: &[List<ClassCol>],
    known: &[u32],
    input: u32,
    scheme: &Scheme,
) -> bool
    requires { length scheme.now ≤ 120 }
    ensures { result ≡ all_bound (has known.now) classes.now input 0 scheme.now }
{
    for column in 0..scheme.len() {
        let at = ClassCol {
            input,
            column: column as u32,
        };
        if !is_met(classes, known, at, *scheme.at(column)) {
            return false;
        }
    }
    true
}

fn is_met(classes: &[List<ClassCol>], known: &[u32], at: ClassCol, mark: bool) -> bool
    ensures { result ≡ met classes.now known.now at mark }
{
    !mark || is_bound(classes, known, at)
}

fn is_bound(classes: &[List<ClassCol>], known: &[u32], at: ClassCol) -> bool
    ensures { result ≡ bound (has known.now) classes.now at.input at.column }
{
    classes.iter().any(|class| has_column(class.as_slice(), at) && touches(class.as_slice(), known))
}
