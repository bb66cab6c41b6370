// An operator of a plan as it runs.
ghost use Rattle.std.specs.Prelude.{◌≡◌, ◌↔◌, ◌<◌, ◌+◌, ◌≤◌, List, All, IfOk, OnOk, OnErr, IsErrOf, length, map};
ghost use Rattle.std.specs.Iterator.{YieldsFirst, item_count};
ghost use Rattle.pj_events.specs.Join.{arity, inputs};
ghost use Rattle.pj_events.specs.Operators.{group_after, group_hands, project_hands, select_hands, union_after, union_hands};
ghost use Rattle.pj_events.specs.Outcomes.{elements_out};
ghost use Rattle.pj_events.specs.Plan.{Operator, join_step};
ghost use Rattle.pj_value.specs.declared.values.Value.{Value};
ghost use Rattle.pj_group.specs.Steps.{Fits};
ghost use Rattle.pj_group.specs.Tables.{StandsFor as HoldsGroup};
ghost use Rattle.pj_join.specs.Joins.{after};
ghost use Rattle.pj_join.specs.Sweeping.{puncts_up};
ghost use Rattle.pj_operator.specs.Operators.{AreWide, FitsKind, Follows, IsAs, IsFull, IsOrderly, KeepsOpen, count_in, count_seen, counted_by, elements_left, frame_of, emitted_list, kind_of, stop_of_group, width_of, width_up};

use pj_events::Out;
use pj_flow::{Union, project_punct, project_tuple, select_tuple};
use pj_group::{Group, GroupStop};
use pj_join::{Join, JoinStop};
use pj_pattern::{Element, Punct};
use pj_value::{List, NoMemory, Row};
use std::alloc::Global;
use std::vec::IntoIter;

/// What an operator is, with what it keeps. A stream, a select and a project keep nothing.
#[derive(Drop)]
pub enum OperatorState {
    Stream,
    Select(Punct),
    Project(List<u32>),
    Union(Union),
    Join(Join),
    Group(Group),
}

/// An operator that runs as a node of a plan: its state, the node and the input that it feeds, how many columns it emits, and, of
/// a join, the greatest number of tuples that was stored before any of its sweeps. Joins and groups count what they receive.
#[derive(Drop)]
pub struct RunningOperator {
    pub state: OperatorState,
    pub above: Option<(u32, u32)>,
    pub width: u32,
    pub peak: u64,
}

/// The elements that a node emits, one after the other: at most one, which is in no list, or those of a list.
#[derive(Drop)]
pub enum Emitted {
    AtMostOne(Option<Element>),
    Rows(IntoIter<Row, Global>),
    Puncts(IntoIter<Punct, Global>),
    All(IntoIter<Element, Global>),
    Found(IntoIter<Out, Global>),
}

impl Iterator for Emitted {
    type Item = Element;

    ghost next_gives = { YieldsFirst emitted_list };

    ghost remaining = { item_count emitted_list };

    fn next(&mut self) -> Option<Element> {
        match self {
            Emitted::AtMostOne(element) => element.take(),
            Emitted::Rows(rows) => match rows.next() {
                Some(row) => Some(Element::Tuple(row)),
                None => None,
            },
            Emitted::Puncts(puncts) => match puncts.next() {
                Some(punct) => Some(Element::Punct(punct)),
                None => None,
            },
            Emitted::All(elements) => elements.next(),
            Emitted::Found(found) => next_element(found),
        }
    }
}

// The next element among these; `None` where none is left.
fn next_element(found: &mut IntoIter<Out, Global>) -> Option<Element>
    ensures { YieldsFirst elements_left found.old result found.new }
{
    while let Some(out) = found.next() {
        match out {
            Out::Tuple(row) => return Some(Element::Tuple(row)),
            Out::Punct(punct) => return Some(Element::Punct(punct)),
            Out::Purged {
                join: _,
                input: _,
                row: _,
            } => {}
        }
    }
    None
}

impl Emitted {
    // These rows.
    pub(crate) fn of_rows(rows: List<Row>) -> Emitted
        ensures { emitted_list result ≡ map Element.Tuple rows }
    {
        Emitted::Rows(rows.into_vec().into_iter())
    }

    // These punctuations.
    pub(crate) fn of_puncts(puncts: List<Punct>) -> Emitted
        ensures { emitted_list result ≡ map Element.Punct puncts }
    {
        Emitted::Puncts(puncts.into_vec().into_iter())
    }

    // The elements among these.
    pub(crate) fn of_found(found: List<Out>) -> Emitted
        ensures { emitted_list result ≡ elements_out found }
    {
        Emitted::Found(found.into_vec().into_iter())
    }
}

impl RunningOperator {
    /// It receives an element from an input, and answers what it emits.
    ///
    /// `Limit` comes exactly where a join or a group has received as many elements as may.
    pub fn on_element(
        &mut self,
        alloc: Global,
        input: u32,
        element: Element,
    ) -> Result<Emitted, JoinStop>
        requires { FitsKind (kind_of self.old.state) input (width_of element) }
        ensures ok { IfOk result (λ up. (operator : Operator) → IsAs self.old.state operator → Follows self.new.state up operator input element) }
        ensures count { OnOk result (count_seen self.new ≡ count_seen self.old + counted_by (kind_of self.old.state) 1) }
        ensures room { OnOk result (¬ IsFull self.old.state) }
        ensures full { IsErrOf result JoinStop.Limit → IsFull self.old.state }
        ensures frame { frame_of self.new ≡ frame_of self.old }
        ensures peak { self.new.peak ≡ self.old.peak }
        ensures open { KeepsOpen self.old.state self.new.state }
        ensures wide { IfOk result (λ up. IsOrderly self.old.state → AreWide (width_up (kind_of self.old.state) (width_of element)) (emitted_list up)) }
    {
        self.state.on_element(alloc, input, element)
    }
}

impl OperatorState {
    // The same of the state alone.
    #[tactic(auto, using(crate::proofs::Nodes::stream_follows, crate::proofs::Nodes::select_follows, crate::proofs::Nodes::project_follows, crate::proofs::Nodes::union_follows, crate::proofs::Nodes::group_follows, crate::proofs::Nodes::join_follows, crate::proofs::Nodes::join_keeps, crate::proofs::Widths::union_keeps, crate::proofs::Widths::group_keeps, crate::proofs::Widths::none_wide, crate::proofs::Widths::select_wide, crate::proofs::Widths::project_wide, crate::proofs::Widths::union_wide, crate::proofs::Widths::join_wide, crate::proofs::Widths::group_wide))]
    fn on_element(
        &mut self,
        alloc: Global,
        input: u32,
        element: Element,
    ) -> Result<Emitted, JoinStop>
        requires { FitsKind (kind_of self.old) input (width_of element) }
        ensures ok { IfOk result (λ up. (operator : Operator) → IsAs self.old operator → Follows self.new up operator input element) }
        ensures count { OnOk result (count_in self.new ≡ count_in self.old + counted_by (kind_of self.old) 1) }
        ensures room { OnOk result (¬ IsFull self.old) }
        ensures full { IsErrOf result JoinStop.Limit → IsFull self.old }
        ensures kind { kind_of self.new ≡ kind_of self.old }
        ensures open { KeepsOpen self.old self.new }
        ensures wide { IfOk result (λ up. IsOrderly self.old → AreWide (width_up (kind_of self.old) (width_of element)) (emitted_list up)) }
    {
        match self {
            OperatorState::Stream => Ok(Emitted::AtMostOne(None)),
            OperatorState::Select(test) => Ok(selected(test, element)),
            OperatorState::Project(columns) => Ok(projected(alloc, columns.as_slice(), element)?),
            OperatorState::Union(union) => Ok(united(alloc, union, input, element)?),
            OperatorState::Join(join) => Ok(joined(alloc, join, input, element)?),
            OperatorState::Group(group) => Ok(grouped(alloc, group, element)?),
        }
    }
}

// What a select emits: a tuple that matches, itself, and every punctuation.
fn selected(test: &Punct, element: Element) -> Emitted
    ensures { emitted_list result ≡ select_hands test.now element }
{
    match element {
        Element::Tuple(row) => match select_tuple(test, row) {
            Some(row) => Emitted::AtMostOne(Some(Element::Tuple(row))),
            None => Emitted::AtMostOne(None),
        },
        Element::Punct(punct) => Emitted::AtMostOne(Some(Element::Punct(punct))),
    }
}

// What a project emits: the kept columns, of a punctuation where it is a wildcard in every other.
fn projected(alloc: Global, columns: &[u32], element: Element) -> Result<Emitted, NoMemory>
    requires { All (λ column. column < width_of element) columns.now }
    ensures { IfOk result (λ up. emitted_list up ≡ project_hands columns.now element) }
{
    match element {
        Element::Tuple(row) => {
            let kept = project_tuple(alloc, columns, &row)?;
            Ok(Emitted::AtMostOne(Some(Element::Tuple(kept))))
        }
        Element::Punct(punct) => match project_punct(alloc, columns, &punct)? {
            Some(kept) => Ok(Emitted::AtMostOne(Some(Element::Punct(kept)))),
            None => Ok(Emitted::AtMostOne(None)),
        },
    }
}

// A union receives an element, and emits a tuple itself, and the punctuations that no input holds back any more.
fn united(
    alloc: Global,
    union: &mut Union,
    input: u32,
    element: Element,
) -> Result<Emitted, NoMemory>
    requires { (input < union.old.inputs) × (width_of element ≡ union.old.arity) }
    ensures keeps { OnOk result (union.new ≡ record union.old { state = union_after union.old.inputs union.old.state input element }) }
    ensures hands { IfOk result (λ up. emitted_list up ≡ union_hands union.old.inputs union.old.state input element) }
    ensures refused { OnErr result (union.new ≡ union.old) }
{
    match element {
        Element::Tuple(row) => Ok(Emitted::AtMostOne(Some(Element::Tuple(row)))),
        Element::Punct(punct) => {
            let mut up = List::new(alloc);
            union.punct(input, punct, &mut up)?;
            Ok(Emitted::of_puncts(up))
        }
    }
}

// A join receives an element, and emits a punctuation that none of its stored tuples matches.
fn joined(alloc: Global, join: &mut Join, input: u32, element: Element) -> Result<Emitted, JoinStop>
    requires { (input < inputs join.old.spec) × (width_of element ≡ arity join.old.spec input) }
    ensures keeps { OnOk result (join.new ≡ after join.old (join_step input element)) }
    ensures hands { IfOk result (λ up. emitted_list up ≡ map Element.Punct (puncts_up join.old (join_step input element))) }
    ensures limit { IsErrOf result JoinStop.Limit ↔ (join.old.kept.next ≡ join.old.limit) }
    ensures refused { OnErr result (join.new ≡ join.old) }
{
    match element {
        Element::Tuple(row) => {
            join.tuple(input, row)?;
            Ok(Emitted::AtMostOne(None))
        }
        Element::Punct(punct) => {
            let mut up = List::new(alloc);
            join.punct(input, punct, &mut up)?;
            Ok(Emitted::of_puncts(up))
        }
    }
}

// A group receives an element, and emits the rows of the groups that a punctuation closes, and that punctuation.
fn grouped(alloc: Global, group: &mut Group, element: Element) -> Result<Emitted, JoinStop>
    requires fits { Fits group.old.spec (width_of element) }
    requires few { length group.old.spec.keys + length group.old.spec.aggs ≤ 120 }
    ensures keeps { OnOk result ((rows : List (List Value)) → HoldsGroup group.old rows → HoldsGroup group.new (group_after group.old.spec rows element)) }
    ensures hands { IfOk result (λ up. (rows : List (List Value)) → HoldsGroup group.old rows → emitted_list up ≡ group_hands group.old.spec rows element) }
    ensures counts { OnOk result (group.new ≡ record group.old { count = group.old.count + 1; table = group.new.table }) }
    ensures limit { IsErrOf result JoinStop.Limit ↔ (group.old.count ≡ group.old.limit) }
    ensures refused { OnErr result (group.new ≡ group.old) }
{
    match element {
        Element::Tuple(row) => match group.tuple(row) {
            Ok(()) => Ok(Emitted::AtMostOne(None)),
            Err(stop) => Err(as_join_stop(stop)),
        },
        Element::Punct(punct) => {
            let mut up = List::new(alloc);
            match group.punct(punct, &mut up) {
                Ok(()) => Ok(Emitted::All(up.into_vec().into_iter())),
                Err(stop) => Err(as_join_stop(stop)),
            }
        }
    }
}

fn as_join_stop(stop: GroupStop) -> JoinStop
    ensures { result ≡ stop_of_group stop }
{
    match stop {
        GroupStop::Limit => JoinStop::Limit,
        GroupStop::NoMemory => JoinStop::NoMemory,
    }
}
