// Makes the routes of a join from its shape, schemes and certificates.
ghost use Rattle.std.specs.Prelude.{◌≡◌, ◌<◌, ◌+◌, ◌==◌, ◌^◌, true, length, slice_get, Some, IfOk, IfSome, OnOk};
ghost use Rattle.std.specs.List.{list_any};
ghost use Rattle.pj_value.specs.Lists.{In};
ghost use Rattle.pj_cover.specs.Asking.{entries, first_class, marks_of};
ghost use Rattle.pj_events.specs.Join.{inputs};
ghost use Rattle.pj_recheck.specs.Watching.{IsPair, asker, first_column, input_at, side_at};
ghost use Rattle.pj_recheck.specs.declared.routes.BackRoute.{BackRoute as BackRouteView};
ghost use Rattle.pj_recheck.specs.declared.routes.RecheckRoute.{RecheckRoute as RecheckRouteView};
ghost use Rattle.pj_recheck.specs.Recheck.{AreHops, AreLeads, AreRoutes, AreStops, BacksFit, HaveBacks, HaveRoutes, HopFits, HopsFit, IsHop, IsLead, IsRecheckRoute, IsStop, IsWay, KeepStops, LeadTo, LeadsFit, LeadsIn, RouteFits, RoutesFit, StopFits, StopsFit, WayFits, entry_with};

use crate::routes::{BackRoute, Hop, InputRoutes, Lead, OrderRoute, Pair, RecheckRoute, Stop, Way};
use pj_cover::first_class;
use pj_shape::{Cert, CertStep, ClassCol, JoinSpec, Scheme, Schemes};
use pj_state::State;
use pj_value::{List, NoMemory};
use std::alloc::Global;
use std::marker::Model;

/// The shape of a join, with the schemes and a certificate of each input, lent.
#[derive(Drop)]
pub struct Certified<'a> {
    pub spec: &'a JoinSpec,
    pub schemes: &'a Schemes,
    pub certs: &'a [Cert],
}

impl<'a> Model for Certified<'a> {
    ghost use Rattle.pj_events.specs.Join.{JoinData};
    ghost use Rattle.pj_recheck.specs.Judging.{join_data};

    ghost Value = { JoinData };

    ghost view = { λ c. join_data c.spec.now c.schemes.now c.certs.now };
}

// An input and its stored rows, lent.
#[derive(Drop)]
struct Side<'a> {
    input: u32,
    state: &'a State,
}

impl<'a> Model for Side<'a> {
    ghost use Rattle.pj_recheck.specs.Watching.{SideView};

    ghost Value = { SideView };

    ghost view = { λ s. record { input = s.input; state = s.state.now } };
}

// The rows of an input, and the certificate by which they ask for those of the others, lent. Its positions are the input's
// own, and then those of the certificate's steps.
#[derive(Drop)]
struct Path<'a> {
    classes: &'a [List<ClassCol>],
    schemes: &'a Schemes,
    cert: &'a Cert,
    input: u32,
    row_states: &'a [State],
}

impl<'a> Model for Path<'a> {
    ghost use Rattle.pj_cover.specs.Asking.{entries};
    ghost use Rattle.pj_recheck.specs.Watching.{PathView};

    ghost Value = { PathView };

    ghost view = { λ p. record { classes = p.classes.now; cert = entries p.schemes.now p.cert.now; input = p.input; row_states = p.row_states.now } };
}

// A step back to a position before.
#[derive(Clone, Copy)]
struct SharedColumn {
    before: usize,
    hop: Hop,
}

impl<'a> Certified<'a> {
    // The path of the rows of an input, by its certificate.
    fn path(&self, cert: &'a Cert, input: usize, row_states: &'a [State]) -> Path<'a>
        requires few { input < 2 ^ 32 }
        ensures { result ≡ record { classes = self.now.shape.classes; cert = entries self.now.schemes cert.now; input = input; row_states = row_states.now } }
    {
        Path {
            classes: self.spec.classes.as_slice(),
            schemes: self.schemes,
            cert,
            input: input as u32,
            row_states,
        }
    }
}

// ---- columns

// The first column of an input in a class.
fn first_column(class: &[ClassCol], input: u32) -> Option<u32>
    ensures { result ≡ first_column class.now input }
{
    for at in class {
        if at.input == input {
            return Some(at.column);
        }
    }
    None
}

// The first columns of both inputs in a class, where that of the side is indexed.
#[tactic(auto, using(pj_rows::proofs::Indexed::within))]
fn pair_in(class: &[ClassCol], side: &Side<'_>, other: u32) -> Option<Pair>
    ensures own { IfSome result (λ pair. first_column class.now side.now.input ≡ Some pair.mine) }
    ensures next { IfSome result (λ pair. first_column class.now other ≡ Some pair.theirs) }
    ensures indexed { IfSome result (λ pair. In pair.mine side.now.state.columns) }
{
    match first_column(class, side.input) {
        None => None,
        Some(mine) => match first_column(class, other) {
            None => None,
            Some(theirs) => {
                if side.state.is_indexed(mine) {
                    return Some(Pair { mine, theirs });
                }
                None
            }
        },
    }
}

// A column of the side's input, which is indexed, and one of the other input; `None` where no class has both.
fn pair_of(classes: &[List<ClassCol>], side: &Side<'_>, other: u32) -> Option<Pair>
    ensures joins { IfSome result (IsPair classes.now side.now.input other) }
    ensures indexed { IfSome result (λ pair. In pair.mine side.now.state.columns) }
{
    for class in classes {
        match pair_in(class.as_slice(), side, other) {
            Some(pair) => return Some(pair),
            None => {}
        }
    }
    None
}

// The column of the side's rows in the class of this one, where that is indexed.
fn own_column(classes: &[List<ClassCol>], side: &Side<'_>, at: ClassCol) -> Option<u32>
    ensures own { IfSome result (λ column. first_column (first_class classes.now at) side.now.input ≡ Some column) }
    ensures indexed { IfSome result (λ column. list_any (λ own. column == own) side.now.state.columns ≡ true) }
{
    match first_column(first_class(classes, at), side.input) {
        None => None,
        Some(column) => {
            if side.state.is_indexed(column) {
                return Some(column);
            }
            None
        }
    }
}

// How a column of a punctuation leads to the side's rows, where the scheme marks it.
fn lead_at(
    classes: &[List<ClassCol>],
    side: &Side<'_>,
    input: u32,
    scheme: &Scheme,
    column: usize,
) -> Option<Lead>
    requires within { column < length scheme.now }
    ensures leads { IfSome result (IsLead classes.now (entry_with input scheme.now) side.now.input) }
    ensures indexed { IfSome result (λ lead. In lead.column side.now.state.columns) }
{
    if !*scheme.at(column) || column > u32::MAX as usize {
        return None;
    }
    let at = ClassCol {
        input,
        column: column as u32,
    };
    match own_column(classes, side, at) {
        None => None,
        Some(own) => Some(Lead {
            asked: at.column,
            column: own,
        }),
    }
}

// Puts that at the end.
fn add_lead(
    classes: &[List<ClassCol>],
    side: &Side<'_>,
    input: u32,
    scheme: &Scheme,
    column: usize,
    leads: &mut List<Lead>,
) -> Result<(), NoMemory>
    requires within { column < length scheme.now }
    ensures leads { OnOk result (AreLeads classes.now (entry_with input scheme.now) side.now.input leads.old → AreLeads classes.now (entry_with input scheme.now) side.now.input leads.new) }
    ensures indexed { OnOk result (LeadsIn side.now.state.columns leads.old → LeadsIn side.now.state.columns leads.new) }
{
    match lead_at(classes, side, input, scheme, column) {
        None => Ok(()),
        Some(lead) => {
            leads.push(lead)?;
            Ok(())
        }
    }
}

// How the columns of a punctuation lead to the side's rows.
fn leads_of(
    alloc: Global,
    classes: &[List<ClassCol>],
    side: &Side<'_>,
    input: u32,
    scheme: &Scheme,
) -> Result<List<Lead>, NoMemory>
    ensures leads { IfOk result (AreLeads classes.now (entry_with input scheme.now) side.now.input) }
    ensures indexed { IfOk result (LeadsIn side.now.state.columns) }
{
    let mut leads = List::new(alloc);
    for column in 0..scheme.len() {
        add_lead(classes, side, input, scheme, column, &mut leads)?;
    }
    Ok(leads)
}

// The scheme of a certificate's step; without columns where it has none.
fn scheme_of(alloc: Global, schemes: &Schemes, step: CertStep) -> Result<Scheme, NoMemory>
    ensures { IfOk result (λ scheme. scheme ≡ marks_of schemes.now step) }
{
    if step.input as usize >= schemes.len() {
        return Ok(Scheme::of(List::new(alloc)));
    }
    match schemes.at(step.input as usize).get(step.scheme as usize) {
        None => Ok(Scheme::of(List::new(alloc))),
        Some(scheme) => {
            let copy = scheme.copy(alloc)?;
            Ok(copy)
        }
    }
}

// ---- positions

impl<'a> Path<'a> {
    // The input at a position.
    fn input_at(&self, at: usize) -> Option<u32>
        ensures { result ≡ input_at self.now at }
    {
        if at == 0 {
            return Some(self.input);
        }
        if at > self.cert.len() {
            return None;
        }
        Some(self.cert.at(at - 1).input)
    }

    // The rows of the input at a position.
    fn side(&self, at: usize) -> Option<Side<'a>>
        ensures input { IfSome result (λ side. input_at self.now at ≡ Some side.input) }
        ensures rows { IfSome result (λ side. side ≡ side_at self.now.row_states side.input) }
    {
        match self.input_at(at) {
            None => None,
            Some(input) => match self.row_states.get(input as usize) {
                None => None,
                Some(state) => Some(Side { input, state }),
            },
        }
    }

    // The step back to the first position before this one whose input shares a class with the one here, by an indexed column.
    fn link(&self, at: usize) -> Option<SharedColumn>
        ensures hop { IfSome result (λ link. IsHop (asker self.now) at link.before link.hop) }
        ensures fits { IfSome result (λ link. HopFits self.now.row_states link.hop) }
    {
        match self.input_at(at) {
            None => None,
            Some(other) => {
                for before in 0..at {
                    match self.link_to(before, other) {
                        None => {}
                        Some(hop) => return Some(SharedColumn { before, hop }),
                    }
                }
                None
            }
        }
    }

    // The step back from another input to a position, where both share a class, by an indexed column.
    fn link_to(&self, before: usize, other: u32) -> Option<Hop>
        ensures input { IfSome result (λ hop. input_at self.now before ≡ Some hop.input) }
        ensures other { IfSome result (λ hop. hop.other ≡ other) }
        ensures joins { IfSome result (λ hop. IsPair self.now.classes hop.input other hop.pair) }
        ensures fits { IfSome result (HopFits self.now.row_states) }
    {
        match self.side(before) {
            None => None,
            Some(side) => match pair_of(self.classes, &side, other) {
                None => None,
                Some(pair) => Some(Hop {
                    input: side.input,
                    other,
                    pair,
                }),
            },
        }
    }

    // The steps back from a position to the own one.
    fn hops(&self, alloc: Global, at: usize) -> Result<Option<List<Hop>>, NoMemory>
        ensures hops { IfOk result (λ told. IfSome told (AreHops (asker self.now) at)) }
        ensures fits { IfOk result (λ told. IfSome told (HopsFit self.now.row_states)) }
    {
        let mut hops = List::new(alloc);
        let mut at = at;
        while at > 0 {
            match self.link(at) {
                None => return Ok(None),
                Some(link) => {
                    hops.push(link.hop)?;
                    at = link.before;
                }
            }
        }
        Ok(Some(hops))
    }

    // The way back from a position behind the own one.
    fn way(&self, alloc: Global, at: usize) -> Result<Option<Way>, NoMemory>
        ensures way { IfOk result (λ told. IfSome told (IsWay (asker self.now) at)) }
        ensures fits { IfOk result (λ told. IfSome told (WayFits self.now.row_states)) }
    {
        match self.link(at) {
            None => Ok(None),
            Some(link) => match self.hops(alloc, link.before)? {
                None => Ok(None),
                Some(rest) => Ok(Some(Way {
                    first: link.hop,
                    rest,
                })),
            },
        }
    }

    // How the columns of a punctuation lead to the rows of the path's own input.
    fn own_leads(&self, alloc: Global, input: u32, scheme: &Scheme) -> Result<List<Lead>, NoMemory>
        ensures leads { IfOk result (AreLeads self.now.classes (entry_with input scheme.now) self.now.input) }
        ensures fits { IfOk result (LeadsFit self.now.row_states self.now.input) }
    {
        match self.side(0) {
            None => Ok(List::new(alloc)),
            Some(side) => {
                let leads = leads_of(alloc, self.classes, &side, input, scheme)?;
                Ok(leads)
            }
        }
    }

    // The rows at a position behind the own one, where there are some.
    fn stop(
        &self,
        alloc: Global,
        at: usize,
        input: u32,
        scheme: &Scheme,
    ) -> Result<Option<Stop>, NoMemory>
        ensures stop { IfOk result (λ told. IfSome told (IsStop (asker self.now) at (entry_with input scheme.now))) }
        ensures fits { IfOk result (λ told. IfSome told (StopFits self.now.row_states)) }
    {
        match self.side(at) {
            None => Ok(None),
            Some(side) => {
                let leads = leads_of(alloc, self.classes, &side, input, scheme)?;
                let way = self.way(alloc, at)?;
                Ok(Some(Stop {
                    input: side.input,
                    leads,
                    way,
                }))
            }
        }
    }

    // Puts these at the end.
    fn add_stop(
        &self,
        alloc: Global,
        at: usize,
        input: u32,
        scheme: &Scheme,
        stops: &mut List<Stop>,
    ) -> Result<(), NoMemory>
        ensures stops { OnOk result (KeepStops (asker self.now) at (entry_with input scheme.now) stops.old stops.new) }
        ensures fit { OnOk result (StopsFit self.now.row_states stops.old → StopsFit self.now.row_states stops.new) }
    {
        match self.stop(alloc, at, input, scheme)? {
            None => Ok(()),
            Some(stop) => {
                stops.push(stop)?;
                Ok(())
            }
        }
    }

    // The rows at the positions behind the own one, up to an entry.
    fn stops(
        &self,
        alloc: Global,
        entry: usize,
        input: u32,
        scheme: &Scheme,
    ) -> Result<List<Stop>, NoMemory>
        requires few { entry + 1 < 2 ^ 64 }
        ensures stops { IfOk result (AreStops (asker self.now) entry (entry_with input scheme.now)) }
        ensures fit { IfOk result (StopsFit self.now.row_states) }
    {
        let mut stops = List::new(alloc);
        for at in 1..entry + 1 {
            self.add_stop(alloc, at, input, scheme, &mut stops)?;
        }
        Ok(stops)
    }

    // The route of an entry of this input and scheme.
    fn route(
        &self,
        alloc: Global,
        entry: usize,
        input: u32,
        scheme: Scheme,
    ) -> Result<RecheckRoute, NoMemory>
        requires few { entry + 1 < 2 ^ 64 }
        ensures route { IfOk result (IsRecheckRoute (asker self.now) entry (entry_with input scheme)) }
        ensures fits { IfOk result (RouteFits self.now.row_states) }
    {
        let own = self.own_leads(alloc, input, &scheme)?;
        let behind = self.stops(alloc, entry, input, &scheme)?;
        Ok(RecheckRoute {
            owner: self.input,
            scheme,
            own,
            behind,
        })
    }

    // Puts the route of an entry at the end, where that is of this input.
    fn add_route(
        &self,
        alloc: Global,
        entry: usize,
        input: u32,
        routes: &mut List<RecheckRoute>,
    ) -> Result<(), NoMemory>
        requires within { entry < length self.now.cert }
        requires few { entry + 1 < 2 ^ 64 }
        ensures routes { OnOk result (HaveRoutes (asker self.now) entry input routes.old → HaveRoutes (asker self.now) (entry + 1) input routes.new) }
        ensures fit { OnOk result (RoutesFit self.now.row_states routes.old → RoutesFit self.now.row_states routes.new) }
        ensures keeps { OnOk result ((route : RecheckRouteView) → In route routes.old → In route routes.new) }
    {
        let step = *self.cert.at(entry);
        if step.input != input {
            return Ok(());
        }
        let scheme = scheme_of(alloc, self.schemes, step)?;
        routes.push(self.route(alloc, entry, input, scheme)?)?;
        Ok(())
    }

    // Puts the routes of all entries of this input at the end.
    fn add_routes(
        &self,
        alloc: Global,
        input: u32,
        routes: &mut List<RecheckRoute>,
    ) -> Result<(), NoMemory>
        ensures routes { OnOk result (HaveRoutes (asker self.now) (length self.now.cert) input routes.new) }
        ensures fit { OnOk result (RoutesFit self.now.row_states routes.old → RoutesFit self.now.row_states routes.new) }
        ensures keeps { OnOk result ((route : RecheckRouteView) → In route routes.old → In route routes.new) }
    {
        for entry in 0..self.cert.len() {
            self.add_route(alloc, entry, input, routes)?;
        }
        Ok(())
    }

    // Puts the route back from a position at the end, where that is of this input.
    fn add_back(
        &self,
        alloc: Global,
        at: usize,
        other: u32,
        backs: &mut List<BackRoute>,
    ) -> Result<(), NoMemory>
        requires within { (0 < at) × (at < length self.now.cert) }
        ensures backs { OnOk result (HaveBacks (asker self.now) at other backs.old → HaveBacks (asker self.now) (at + 1) other backs.new) }
        ensures fit { OnOk result (BacksFit self.now.row_states backs.old → BacksFit self.now.row_states backs.new) }
        ensures keeps { OnOk result ((back : BackRouteView) → In back backs.old → In back backs.new) }
    {
        if self.cert.at(at - 1).input != other {
            return Ok(());
        }
        let way = self.way(alloc, at)?;
        backs.push(BackRoute {
            owner: self.input,
            way,
        })?;
        Ok(())
    }

    // Puts the routes back from all positions but the last at the end that are of this input: nothing is asked for through rows
    // at the last.
    fn add_backs(
        &self,
        alloc: Global,
        other: u32,
        backs: &mut List<BackRoute>,
    ) -> Result<(), NoMemory>
        ensures backs { OnOk result (HaveBacks (asker self.now) (length self.now.cert) other backs.new) }
        ensures fit { OnOk result (BacksFit self.now.row_states backs.old → BacksFit self.now.row_states backs.new) }
        ensures keeps { OnOk result ((back : BackRouteView) → In back backs.old → In back backs.new) }
    {
        for at in 1..self.cert.len() {
            self.add_back(alloc, at, other, backs)?;
        }
        Ok(())
    }
}

// Puts the columns of a class at the end, each with this one.
fn add_orders(
    class: &[ClassCol],
    column: u32,
    orders: &mut List<OrderRoute>,
) -> Result<(), NoMemory> {
    for at in class {
        orders.push(OrderRoute { column, at: *at })?;
    }
    Ok(())
}

// The same with each column of an input that the class has.
fn add_class_orders(
    class: &[ClassCol],
    input: u32,
    orders: &mut List<OrderRoute>,
) -> Result<(), NoMemory> {
    for at in class {
        if at.input == input {
            add_orders(class, at.column, orders)?;
        }
    }
    Ok(())
}

// The columns of all classes, each with those of the input in its class.
fn orders_of(
    alloc: Global,
    classes: &[List<ClassCol>],
    input: u32,
) -> Result<List<OrderRoute>, NoMemory> {
    let mut orders = List::new(alloc);
    for class in classes {
        add_class_orders(class.as_slice(), input, &mut orders)?;
    }
    Ok(orders)
}

// ---- all inputs

// Puts the routes from an input to the rows of one with this number at the end.
fn add_owner(
    alloc: Global,
    join: &Certified<'_>,
    row_states: &[State],
    owner: usize,
    input: u32,
    routes: &mut InputRoutes,
) -> Result<(), NoMemory>
    requires few { owner < 2 ^ 32 }
    ensures { OnOk result (LeadTo join.now row_states.now input owner routes.old → LeadTo join.now row_states.now input (owner + 1) routes.new) }
{
    match join.certs.get(owner) {
        None => Ok(()),
        Some(cert) => {
            let path = join.path(cert, owner, row_states);
            path.add_routes(alloc, input, &mut routes.recheck)?;
            path.add_backs(alloc, input, &mut routes.back)?;
            Ok(())
        }
    }
}

// The routes from an input.
fn routes_from(
    alloc: Global,
    join: &Certified<'_>,
    row_states: &[State],
    count: usize,
    input: u32,
) -> Result<InputRoutes, NoMemory>
    requires few { count < 2 ^ 32 }
    ensures { IfOk result (LeadTo join.now row_states.now input count) }
{
    let mut routes = InputRoutes {
        recheck: List::new(alloc),
        back: List::new(alloc),
        orders: orders_of(alloc, join.spec.classes.as_slice(), input)?,
    };
    for owner in 0..count {
        add_owner(alloc, join, row_states, owner, input, &mut routes)?;
    }
    Ok(routes)
}

/// The routes from each input of a join whose rows stand in these states.
pub fn routes_of(
    alloc: Global,
    join: &Certified<'_>,
    row_states: &[State],
) -> Result<Vec<InputRoutes>, NoMemory>
    requires few { inputs join.now < 2 ^ 32 }
    ensures { IfOk result (λ routes. AreRoutes join.now row_states.now (inputs join.now) routes.items) }
{
    let count = join.spec.inputs.len();
    let mut routes = Vec::new(alloc);
    for input in 0..count {
        routes.push(routes_from(alloc, join, row_states, count, input as u32)?)?;
    }
    Ok(routes)
}
