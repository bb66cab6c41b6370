// The routes of purges: by which columns the rows of each step of a certificate join with those of the steps before it.
ghost use Rattle.std.specs.Prelude.{◌≡◌, ◌<◌, ◌≤◌, ◌+◌, [], IfSome, IsTrue, length, slice_get, slice_index_or, Some};
ghost use Rattle.pj_value.specs.Lists.{In};
ghost use Rattle.pj_shape.specs.Sound.{FitSchemes, IsSoundSpec};
ghost use Rattle.pj_shape.specs.Certificates.{IsCertificate};
ghost use Rattle.pj_events.specs.Join.{class_with};
ghost use Rattle.pj_cover.specs.Asking.{first_class, marks_of};
ghost use Rattle.pj_cover.specs.Routes.{AddsLinks, AreFixed, FindsPlace, FindsSource, IsFixed, IsPurgeRoute, IsSingle, links_of};
ghost use Rattle.pj_cover.specs.Making.{AddsLink, AreMarksKnown, FindsLink, IsStepMade, entry_with};

use arrayvec::ArrayVec;
use pj_puncts::only_mark;
use pj_shape::{Cert, CertStep, ClassCol, JoinSpec, Scheme, Schemes, has_column};
use pj_value::List;
use std::marker::Model;
use std::slice::from_ref;

/// A cell of an earlier row: the place of the row, counted from the latest one, and its column.
#[derive(Clone, Copy)]
pub struct Source {
    pub place: usize,
    pub column: u32,
}

/// A column of a step's input, whether the step's scheme marks it, and a cell with the value that its rows have there where
/// they join with the earlier ones.
#[derive(Clone, Copy)]
pub struct PurgeLink {
    pub column: u32,
    pub is_marked: bool,
    pub from: Source,
}

/// A step of a certificate, where its links begin and how many they are, that of the only marked column, where only one is, and
/// whether the rows before it determine what its own rows tell later steps: then all rows that join with those ask for the same.
#[derive(Clone, Copy)]
pub struct PurgeStep {
    pub step: CertStep,
    pub first: usize,
    pub count: usize,
    pub single: Option<PurgeLink>,
    pub is_determined: bool,
}

impl Default for PurgeLink {
    fn default() -> PurgeLink {
        PurgeLink {
            column: 0,
            is_marked: false,
            from: Source {
                place: 0,
                column: 0,
            },
        }
    }
}

impl Default for PurgeStep {
    fn default() -> PurgeStep {
        PurgeStep {
            step: CertStep {
                input: 0,
                scheme: 0,
            },
            first: 0,
            count: 0,
            single: None,
            is_determined: false,
        }
    }
}

/// How what a row of an input asks for is looked up: the steps of the input's certificate, each with its links. It is made once
/// from the plan, and takes no memory of its own.
#[derive(Drop)]
pub struct PurgeRoute {
    steps: ArrayVec<PurgeStep, 16>,
    links: ArrayVec<PurgeLink, 120>,
}

impl Model for PurgeRoute {
    ghost use Rattle.pj_cover.specs.Routes.{RouteView};

    ghost Value = { RouteView };

    ghost view = { λ r. record { steps = r.steps.items; links = r.links.items } };
}

impl PurgeRoute {
    /// The number of steps.
    pub fn len(&self) -> usize
        ensures { result ≡ length self.now.steps }
    {
        self.steps.len()
    }

    /// The step at a place below the length.
    pub fn at(&self, place: usize) -> PurgeStep
        requires { place < length self.now.steps }
        ensures { slice_get self.now.steps place ≡ Some result }
    {
        self.steps.as_slice()[place]
    }

    /// The links of a step.
    pub fn links_of(&self, step: PurgeStep) -> &[PurgeLink]
        requires { step.first + step.count ≤ length self.now.links }
        ensures is { result.now ≡ links_of self.now.links step }
        ensures few { length result.now ≤ 120 }
    {
        let (_, rest) = self.links.as_slice().split_at(step.first);
        let (links, _) = rest.split_at(step.count);
        links
    }
}

// ---- links

/// The columns of the first class that has this one; none where no class has it.
pub fn first_class<'a>(classes: &'a [List<ClassCol>], at: ClassCol) -> &'a [ClassCol]
    ensures { result.now ≡ first_class classes.now at }
{
    for class in classes {
        if has_column(class.as_slice(), at) {
            return class.as_slice();
        }
    }
    &[]
}

// The same by the number of the class.
#[tactic(auto, using(crate::proofs::Classes::first_class_is))]
fn class_with<'a>(classes: &'a [List<ClassCol>], at: ClassCol) -> &'a [ClassCol]
    ensures { result.now ≡ class_with classes.now at.input at.column }
{
    first_class(classes, at)
}

// The place of an input among the known ones.
fn place_of(known: &[u32], input: u32) -> Option<usize>
    ensures { FindsPlace known.now input result }
{
    for place in 0..known.len() {
        if known[place] == input {
            return Some(place);
        }
    }
    None
}

// The first column of the class that is of a known input.
fn source_in(class: &[ClassCol], known: &[u32]) -> Option<Source>
    ensures { FindsSource class.now known.now result }
{
    for at in class {
        match place_of(known, at.input) {
            None => {}
            Some(place) => {
                return Some(Source {
                    place,
                    column: at.column,
                });
            }
        }
    }
    None
}

// The link of a column, where its class has one of a known input.
fn link_at(
    classes: &[List<ClassCol>],
    at: ClassCol,
    is_marked: bool,
    known: &[u32],
) -> Option<PurgeLink>
    ensures { FindsLink classes.now at is_marked known.now result }
{
    match source_in(class_with(classes, at), known) {
        None => None,
        Some(from) => Some(PurgeLink {
            column: at.column,
            is_marked,
            from,
        }),
    }
}

// Puts it at the end.
fn add_link(
    classes: &[List<ClassCol>],
    at: ClassCol,
    is_marked: bool,
    known: &[u32],
    links: &mut ArrayVec<PurgeLink, 120>,
)
    requires { length links.old.items < 120 }
    ensures { AddsLink classes.now at is_marked known.now links.old.items links.new.items }
{
    match link_at(classes, at, is_marked, known) {
        None => {}
        Some(link) => links.push(link),
    }
}

// Puts the links of all columns at the end.
fn add_links(
    classes: &[List<ClassCol>],
    input: u32,
    scheme: &Scheme,
    known: &[u32],
    links: &mut ArrayVec<PurgeLink, 120>,
)
    requires room { length links.old.items + length scheme.now ≤ 120 }
    requires bound { AreMarksKnown classes.now (entry_with input scheme.now) known.now }
    ensures { AddsLinks classes.now known.now (entry_with input scheme.now) (length scheme.now) links.old.items links.new.items }
{
    for column in 0..scheme.len() {
        let at = ClassCol {
            input,
            column: column as u32,
        };
        add_link(classes, at, *scheme.at(column), known, links);
    }
}

// The link of a column.
fn link_of(links: &[PurgeLink], column: usize) -> Option<PurgeLink>
    ensures { IfSome result (λ link. In link links.now × (link.column ≡ column)) }
{
    for link in links {
        if link.column as usize == column {
            return Some(*link);
        }
    }
    None
}

// The link of the only marked column, where only one is.
fn single_of(links: &[PurgeLink], scheme: &Scheme) -> Option<PurgeLink>
    ensures { IfSome result (IsSingle links.now scheme.now) }
{
    match only_mark(scheme) {
        None => None,
        Some(column) => link_of(links, column),
    }
}

// Whether the class has a column of a known input, or none of this one.
fn is_fixed(class: &[ClassCol], input: u32, known: &[u32]) -> bool
    ensures { IsTrue result → IsFixed known.now input class.now }
{
    match source_in(class, known) {
        Some(_) => true,
        None => match source_in(class, from_ref(&input)) {
            Some(_) => false,
            None => true,
        },
    }
}

// Whether the rows of the known inputs tell the value of each column of this input that is in a class.
fn is_determined(classes: &[List<ClassCol>], input: u32, known: &[u32]) -> bool
    ensures { IsTrue result → AreFixed classes.now known.now input }
{
    for class in classes {
        if !is_fixed(class.as_slice(), input, known) {
            return false;
        }
    }
    true
}

// ---- steps

/// The scheme of a certificate's step.
#[tactic(auto, using(crate::proofs::Steps::listed_input))]
pub fn scheme_of(schemes: &Schemes, step: CertStep) -> &Scheme
    requires { step.scheme < length (slice_index_or schemes.now step.input []) }
    ensures { result.now ≡ marks_of schemes.now step }
{
    &schemes.at(step.input as usize).as_slice()[step.scheme as usize]
}

impl PurgeRoute {
    // Puts a step with this scheme at the end.
    fn add_step(
        &mut self,
        classes: &[List<ClassCol>],
        step: CertStep,
        scheme: &Scheme,
        known: &[u32],
    )
        requires few { length self.old.steps < 16 }
        requires room { length self.old.links + length scheme.now ≤ 120 }
        requires bound { AreMarksKnown classes.now (entry_with step.input scheme.now) known.now }
        ensures { IsStepMade classes.now (entry_with step.input scheme.now) step known.now self.old self.new }
    {
        let first = self.links.len();
        add_links(classes, step.input, scheme, known, &mut self.links);
        let mut made = PurgeStep {
            step,
            first,
            count: self.links.len() - first,
            single: None,
            is_determined: is_determined(classes, step.input, known),
        };
        made.single = single_of(self.links_of(made), scheme);
        self.steps.push(made);
    }
}

/// The route that follows the certificate of an input.
pub fn purge_route(spec: &JoinSpec, schemes: &Schemes, cert: &Cert, own: u32) -> PurgeRoute
    requires sound { IsSoundSpec spec.now }
    requires own { own < length spec.now.inputs }
    requires schemes { FitSchemes spec.now.inputs schemes.now }
    requires certified { IsCertificate spec.now schemes.now own cert.now }
    ensures { IsPurgeRoute spec.now schemes.now cert.now own result }
{
    let mut route = PurgeRoute {
        steps: ArrayVec::new(),
        links: ArrayVec::new(),
    };
    let mut known = ArrayVec::<u32, 16>::new();
    known.push(own);
    for at in 0..cert.len() {
        let step = *cert.at(at);
        let scheme = scheme_of(schemes, step);
        route.add_step(spec.classes.as_slice(), step, scheme, known.as_slice());
        known.insert(0, step.input);
    }
    route
}
