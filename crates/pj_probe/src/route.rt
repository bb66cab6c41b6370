// The routes of probes: in which order the other inputs are reached from a tuple, and where their rows are looked up.
ghost use Rattle.std.specs.Prelude.{◌≡◌, ◌+◌, ◌-◌, ◌<◌, ◌==◌, true, ◌∷◌, [], length, slice_get, slice_index_or, Some, IfOk, IfSome, OnOk};
ghost use Rattle.std.specs.Arc.{arc_value};
ghost use Rattle.std.specs.List.{list_any};
ghost use Rattle.pj_value.specs.Lists.{In};
ghost use Rattle.pj_probe.specs.Routes.{AreBegun, AreOwnLinks, AreProbeRoutes, AreReached, InOneClass, IsLinkOf, IsProbeRoute, LeadsTo, LinksDecide, TwoDecide, columns_of, is_reached};

use crate::checks::{JoinChecks, share_checks};
use pj_rows::{Arrived, column_in};
use pj_shape::ClassCol;
use pj_state::State;
use pj_value::{List, NoMemory};
use std::alloc::Global;
use std::sync::Arc;

/// Two columns that are equal wherever tuples join: one of which an index is kept, and one of an input that was reached before.
#[derive(Clone, Copy)]
pub struct ProbeLink {
    pub index_column: u32,
    pub from_input: usize,
    pub from_column: u32,
}

/// A step to another input. Without a link all its rows are looked at.
#[derive(Clone, Copy)]
pub struct ProbeStep {
    pub input: usize,
    pub link: Option<ProbeLink>,
}

/// How the tuples of an input reach the rows of all others, and what else is compared of rows that are found. Of two inputs the
/// links from the own one to the other, one for each class that has columns of both, and whether such a link decides alone which
/// tuples join.
#[derive(Drop)]
pub struct ProbeRoute {
    pub steps: List<ProbeStep>,
    pub links: List<ProbeLink>,
    pub decides: bool,
    pub checks: Arc<JoinChecks, Global>,
}

// What a route is made of: the classes, the states of the inputs, and the own input.
#[derive(Clone, Copy)]
struct Shape<'a> {
    classes: &'a [List<ClassCol>],
    row_states: &'a [State],
    own: usize,
}

/// The routes of the probes of each input.
#[tactic(auto, using(crate::proofs::Routed::routes_more, crate::proofs::Routed::routes_none))]
pub fn probe_routes(
    alloc: Global,
    classes: &[List<ClassCol>],
    row_states: &[State],
) -> Result<List<ProbeRoute>, NoMemory>
    ensures { IfOk result (AreProbeRoutes classes.now (columns_of row_states.now)) }
{
    let checks = JoinChecks::new(alloc, classes)?;
    let mut routes = List::with_room(alloc, row_states.len())?;
    for own in 0..row_states.len() {
        let shape = Shape {
            classes,
            row_states,
            own,
        };
        routes.push(shape.route(alloc, share_checks(&checks)?)?)?;
    }
    Ok(routes)
}

/// The route of a tuple's input.
pub fn route_of<'a>(routes: &'a List<ProbeRoute>, own: &Arrived<'_>) -> &'a ProbeRoute
    requires { own.now.input < length routes.now }
    ensures { slice_get routes.now own.now.input ≡ Some result.now }
{
    &routes.as_slice()[own.input() as usize]
}

impl<'a> Shape<'a> {
    // The route of the own input. An input that no class leads to is reached when all others are.
    #[tactic(auto, using(crate::proofs::Routed::route_made, crate::proofs::Routed::begun_none))]
    fn route(&self, alloc: Global, checks: Arc<JoinChecks, Global>) -> Result<ProbeRoute, NoMemory>
        requires { arc_value checks ≡ self.now.classes.now }
        ensures { IfOk result (IsProbeRoute self.now.classes.now (columns_of self.now.row_states.now) self.now.own) }
    {
        let mut steps = List::with_room(alloc, self.row_states.len())?;
        for _round in 0..self.row_states.len() {
            self.step_by_links(&mut steps)?;
        }
        self.step_to_rest(&mut steps)?;
        let links = self.own_links(alloc)?;
        let decides = self.links_decide(links.as_slice());
        Ok(ProbeRoute {
            steps,
            links,
            decides,
            checks,
        })
    }

    // Goes to each input in order that was not reached and to which a class leads from one that was.
    fn step_by_links(&self, steps: &mut List<ProbeStep>) -> Result<(), NoMemory>
        requires { AreBegun self.now.classes.now (columns_of self.now.row_states.now) self.now.own steps.old }
        ensures { OnOk result (AreBegun self.now.classes.now (columns_of self.now.row_states.now) self.now.own steps.new) }
    {
        for input in 0..self.row_states.len() {
            self.step_by_link(steps, input)?;
        }
        Ok(())
    }

    // The same of one input.
    #[tactic(auto, using(crate::proofs::Routed::begun_linked))]
    fn step_by_link(&self, steps: &mut List<ProbeStep>, input: usize) -> Result<(), NoMemory>
        requires there { input < length self.now.row_states.now }
        requires begun { AreBegun self.now.classes.now (columns_of self.now.row_states.now) self.now.own steps.old }
        ensures { OnOk result (AreBegun self.now.classes.now (columns_of self.now.row_states.now) self.now.own steps.new) }
    {
        if is_reached(self.own, steps.as_slice(), input) {
            return Ok(());
        }
        match self.indexed_link(steps.as_slice(), input) {
            None => Ok(()),
            Some(link) => {
                steps.push(ProbeStep {
                    input,
                    link: Some(link),
                })?;
                Ok(())
            }
        }
    }

    // Goes to each input that was not reached.
    fn step_to_rest(&self, steps: &mut List<ProbeStep>) -> Result<(), NoMemory>
        requires { AreBegun self.now.classes.now (columns_of self.now.row_states.now) self.now.own steps.old }
        ensures begun { OnOk result (AreBegun self.now.classes.now (columns_of self.now.row_states.now) self.now.own steps.new) }
        ensures all { OnOk result (AreReached (length self.now.row_states.now) self.now.own steps.new) }
    {
        for input in 0..self.row_states.len() {
            self.step_anyhow(steps, input)?;
        }
        Ok(())
    }

    // The same of one input, where those before it are reached.
    #[tactic(auto, using(crate::proofs::Routed::begun_plain, crate::proofs::Routed::reached_more, crate::proofs::Routed::reached_by_step))]
    fn step_anyhow(&self, steps: &mut List<ProbeStep>, input: usize) -> Result<(), NoMemory>
        requires there { input < length self.now.row_states.now }
        requires begun { AreBegun self.now.classes.now (columns_of self.now.row_states.now) self.now.own steps.old }
        requires before { AreReached input self.now.own steps.old }
        ensures begun { OnOk result (AreBegun self.now.classes.now (columns_of self.now.row_states.now) self.now.own steps.new) }
        ensures reached { OnOk result (AreReached (input + 1) self.now.own steps.new) }
    {
        if is_reached(self.own, steps.as_slice(), input) {
            return Ok(());
        }
        steps.push(ProbeStep { input, link: None })?;
        Ok(())
    }

    // A link to the input of which an index is kept, from one that was reached.
    fn indexed_link(&self, steps: &[ProbeStep], input: usize) -> Option<ProbeLink>
        requires { input < length self.now.row_states.now }
        ensures class { IfSome result (InOneClass self.now.classes.now input) }
        ensures leads { IfSome result (LeadsTo (slice_index_or (columns_of self.now.row_states.now) input []) self.now.own steps.now) }
    {
        match self.nearest_link(steps, input) {
            None => None,
            Some(link) => {
                if self.row_states[input].is_indexed(link.index_column) {
                    return Some(link);
                }
                None
            }
        }
    }

    // A link from the own input, whose tuple is one alone; from another one where no class has both.
    #[tactic(auto, using(crate::proofs::Routed::reached_from_own))]
    fn nearest_link(&self, steps: &[ProbeStep], input: usize) -> Option<ProbeLink>
        ensures class { IfSome result (InOneClass self.now.classes.now input) }
        ensures from { IfSome result (λ link. is_reached self.now.own steps.now link.from_input ≡ true) }
    {
        match find_link(self.classes, self.own, &[], input) {
            Some(link) => Some(link),
            None => find_link(self.classes, self.own, steps, input),
        }
    }

    // The links from the own one of two inputs to the other; none where there are more inputs.
    #[tactic(auto, using(crate::proofs::Routed::own_links_none, crate::proofs::Routed::class_there))]
    fn own_links(&self, alloc: Global) -> Result<List<ProbeLink>, NoMemory>
        ensures { IfOk result (AreOwnLinks self.now.classes.now (columns_of self.now.row_states.now) self.now.own) }
    {
        let mut links = List::new(alloc);
        if self.row_states.len() != 2 {
            return Ok(links);
        }
        for class in self.classes {
            self.add_own_link(class.as_slice(), &mut links)?;
        }
        Ok(links)
    }

    // Puts the link by a class at the end, where that has columns of both and an index is kept of the other's.
    fn add_own_link(&self, class: &[ClassCol], links: &mut List<ProbeLink>) -> Result<(), NoMemory>
        requires two { length self.now.row_states.now ≡ 2 }
        requires class { In class.now self.now.classes.now }
        requires before { AreOwnLinks self.now.classes.now (columns_of self.now.row_states.now) self.now.own links.old }
        ensures { OnOk result (AreOwnLinks self.now.classes.now (columns_of self.now.row_states.now) self.now.own links.new) }
    {
        let other = 1usize.saturating_sub(self.own);
        match link_in(class, self.own, &[], other) {
            None => Ok(()),
            Some(link) => {
                if self.row_states[other].is_indexed(link.index_column) {
                    links.push(link)?;
                }
                Ok(())
            }
        }
    }

    // Whether one of these links decides alone which tuples join.
    fn links_decide(&self, links: &[ProbeLink]) -> bool
        ensures { result ≡ true → LinksDecide self.now.classes.now self.now.own links.now }
    {
        let other = 1usize.saturating_sub(self.own);
        match links {
            [link] => two_decide(self.classes, self.own, other, *link),
            _ => false,
        }
    }
}

// Whether the input is that of a step, or the own one.
fn is_reached(own: usize, steps: &[ProbeStep], input: usize) -> bool
    ensures { result ≡ is_reached own steps.now input }
{
    has_step(steps, input) || own == input
}

fn has_step(steps: &[ProbeStep], input: usize) -> bool
    ensures { result ≡ list_any (λ step. step.input == input) steps.now }
{
    steps.iter().any(|step| step.input == input)
}

// The first column of this input in the class, and the first one of an input that was reached.
#[tactic(auto, using(crate::proofs::Routed::link_found))]
fn link_in(class: &[ClassCol], own: usize, steps: &[ProbeStep], input: usize) -> Option<ProbeLink>
    ensures { IfSome result (IsLinkOf class.now own steps.now input) }
{
    let index_column = column_in(class, input)?;
    for at in class {
        let from_input = at.input as usize;
        if is_reached(own, steps, from_input) {
            return Some(ProbeLink {
                index_column,
                from_input,
                from_column: at.column,
            });
        }
    }
    None
}

// The same of the first class that has both.
#[tactic(auto, using(crate::proofs::Routed::link_by_class))]
fn find_link(
    classes: &[List<ClassCol>],
    own: usize,
    steps: &[ProbeStep],
    input: usize,
) -> Option<ProbeLink>
    ensures class { IfSome result (InOneClass classes.now input) }
    ensures from { IfSome result (λ link. is_reached own steps.now link.from_input ≡ true) }
{
    for class in classes {
        match link_in(class.as_slice(), own, steps, input) {
            Some(link) => return Some(link),
            None => {}
        }
    }
    None
}

// Whether the columns of the link to this input decide which tuples join: the one class has no others.
fn two_decide(classes: &[List<ClassCol>], own: usize, input: usize, link: ProbeLink) -> bool
    ensures { result ≡ true → TwoDecide classes.now own input link.from_column link.index_column }
{
    match classes {
        [class] => class_decides(class.as_slice(), own, input, link),
        _ => false,
    }
}

// The same of the one class.
fn class_decides(class: &[ClassCol], own: usize, input: usize, link: ProbeLink) -> bool
    ensures { result ≡ true → TwoDecide (class.now ∷ []) own input link.from_column link.index_column }
{
    if own == input {
        return false;
    }
    match class {
        [a, b] => {
            if is_at(*a, own, link.from_column) {
                return is_at(*b, input, link.index_column);
            }
            if is_at(*b, own, link.from_column) {
                return is_at(*a, input, link.index_column);
            }
            false
        }
        _ => false,
    }
}

// Whether it is this column of this input.
fn is_at(at: ClassCol, input: usize, column: u32) -> bool
    ensures { result ≡ true → at ≡ record { input = input; column = column } }
{
    at.input as usize == input && at.column == column
}
