// The core of a run.
ghost use Rattle.std.specs.Prelude.{true, ◌≡◌, ◌<◌, ◌≤◌, ◌^◌, [], ◌∷◌, ◌++◌, None, length, slice_index_or, IfErr, IfOk, IfSome, OnErr, OnOk};
ghost use Rattle.pj_events.specs.declared.events.Event.TheVariants.{Arrive as Arrives, Drain as Drains, Halt as Halts, Sweep as Sweeps};
ghost use Rattle.pj_laws.specs.HistoryLaws.{AllAreCertified};
ghost use Rattle.pj_events.specs.Patterns.{all_wild};
ghost use Rattle.pj_events.specs.Join.{has};
ghost use Rattle.pj_events.specs.OneThread.{arrival_of, plain};
ghost use Rattle.pj_pattern.specs.Fitting.{FitsDomains};
ghost use Rattle.pj_shape.specs.Columns.{domains_of};
ghost use Rattle.pj_plan.specs.Nodes.{streams_of, stream_columns, streams_in};
ghost use Rattle.pj_core.specs.Plans.{nodes_of, run_plan};
ghost use Rattle.pj_operator.specs.Emitting.{IsEmitStop, MayEmit, StaysAs};
ghost use Rattle.pj_core.specs.Cores.{Notes};
ghost use Rattle.pj_core.specs.Parts.{closing_in, StreamCloses};
ghost use Rattle.pj_core.specs.Turns.{MayProbeAt, ProbesAbove, StaysQuietBelow, StopsProbe, places_total};
ghost use Rattle.pj_plan.specs.Canonical.{node_at};
ghost use Rattle.pj_core.specs.Calls.{CoreTakes, FitNode, HasArrived, HasGiven, HasSwept, IsCause, IsFresh, IsGiveCause, IsJoinInput, IsJoinNode, IsLookAt, IsOpen, IsPeak, IsRefused, StaysStopped, StopsNow, arriving_of, closing_of};
ghost use Rattle.pj_events.specs.Outcomes.{ended_of};

use crate::build::new_operators;
use pj_events::{Look, Out, Stop};
use pj_join::{Found, Probe};
use pj_operator::{RunningOperator, emit, give_found, probe_on, sums_of, sweep_at, take_first};
use pj_pattern::{Element, Pattern, Punct};
use pj_plan::{Node, Plan};
use pj_shape::{Cert, Column};
use pj_value::{List, NoMemory};
use std::alloc::Global;
use std::marker::Model;

/// The core of a plan of streams, selects, projects, unions, groups and joins.
///
/// A contract sees its plan with the certificates of its joins, its limit, and what it keeps. It stands for a history of its
/// plan where that is what the history leaves, and each call takes it from a history to the same with the entry of the call
/// behind it.
#[derive(Drop)]
pub struct Core {
    alloc: Global,
    plan: Plan,
    certs: List<List<Cert>>,
    trace: bool,
    limit: u64,
    operators: Vec<RunningOperator>,
    closed: List<u32>,
    undrained: List<Out>,
    halted: bool,
    stop: Option<Stop>,
}

impl Model for Core {
    ghost use Rattle.std.specs.Prelude.{reverse};
    ghost use Rattle.pj_core.specs.Cores.{CoreState};

    ghost Value = { CoreState };

    ghost use Rattle.pj_core.specs.Plans.{run_plan};
    ghost use Rattle.pj_core.specs.Parts.{IsMadeOf, core_of};

    ghost view = { λ c. core_of (run_plan c.plan.nodes c.certs c.trace) c.limit c.operators.items (reverse c.closed) c.halted c.undrained c.stop };

    ghost invariant = { λ c. IsMadeOf (run_plan c.plan.nodes c.certs c.trace) c.limit c.operators.items };
}

impl Core {
    /// A core of this plan, at each of whose joins and groups at most `limit` elements may arrive, from 1 to 2^40. It stands for
    /// the empty history, and its plan is sound. `certs` has a list for each join, in order, with a certificate of each of its inputs for the schemes
    /// that are derived for them. With `trace` the rows that sweeps remove are noted among what is handed out.
    pub fn new(
        alloc: Global,
        plan: Plan,
        certs: List<List<Cert>>,
        limit: u64,
        trace: bool,
    ) -> Result<Core, NoMemory>
        requires certified { AllAreCertified (nodes_of (run_plan plan.nodes certs trace)) }
        requires limit { (1 ≤ limit) × (limit ≤ 2 ^ 40) }
        ensures { IfOk result (λ core. IsFresh core (run_plan plan.nodes certs trace) limit) }
    {
        let operators = new_operators(alloc, &plan, certs.as_slice(), limit)?;
        Ok(Core {
            alloc,
            plan,
            certs,
            trace,
            limit,
            operators,
            closed: List::new(alloc),
            undrained: List::new(alloc),
            halted: false,
            stop: None,
        })
    }

    /// An element arrives at a stream, counted from 0. It fits the stream's columns.
    ///
    /// `Limit` comes exactly where as many elements as may have arrived at a join or a group and this brings one more;
    /// `NoMemory` where memory could not be had. After a stop the core answers the same stop and changes nothing.
    #[inline(always)]
    pub fn arrive(&mut self, stream: u32, element: Element) -> Result<(), Stop>
        requires there { stream < length (streams_of self.old.plan.nodes) }
        requires fits { FitsDomains (domains_of (stream_columns (streams_in self.old.plan.nodes) stream)) element }
        ensures ok { OnOk result (HasArrived self.old self.new (arrival_of (arriving_of stream element))) }
        ensures err { IfErr result (λ stop. IsRefused self.old.kept.stop self.old self.new stop (IsCause self.old (Arrives stream element) stop)) }
    {
        match self.stop {
            Some(stop) => Err(stop),
            None => {
                let from = number_of(&self.plan, stream);
                match emit(
                    self.alloc,
                    self.operators.as_mut_slice(),
                    from,
                    element,
                    &mut self.undrained,
                ) {
                    Ok(()) => Ok(()),
                    Err(stop) => {
                        self.stop = Some(stop);
                        Err(stop)
                    }
                }
            }
        }
    }

    /// A stream, counted from 0, ends: a punctuation of wildcards alone arrives, and is marked as its closing.
    ///
    /// The stops are those of an arrival.
    pub fn close_stream(&mut self, stream: u32) -> Result<(), Stop>
        requires there { stream < length (streams_of self.old.plan.nodes) }
        ensures ok { OnOk result (HasArrived self.old self.new (arrival_of (closing_of self.old stream))) }
        ensures err { IfErr result (λ stop. IsRefused self.old.kept.stop self.old self.new stop (IsCause self.old (Arrives stream (closing_of self.old stream).element) stop)) }
    {
        match self.stop {
            Some(stop) => Err(stop),
            None => match close(
                self.alloc,
                &self.plan,
                stream,
                &mut self.closed,
                self.operators.as_mut_slice(),
                &mut self.undrained,
            ) {
                Ok(()) => Ok(()),
                Err(stop) => {
                    self.stop = Some(stop);
                    Err(stop)
                }
            },
        }
    }

    /// Takes a ticket: from the first join in order that has one pending, its least; `None` exactly where none is.
    ///
    /// `NoMemory` comes where memory could not be had, any other stop only where it was answered before.
    pub fn take(&mut self) -> Result<Option<Probe>, Stop>
        ensures on { OnOk result (self.old.kept.stop ≡ None) }
        ensures ok { IfOk result (λ answer. CoreTakes self.old self.new answer) }
        ensures err { IfErr result (λ stop. IsRefused self.old.kept.stop self.old self.new stop (stop ≡ Stop.NoMemory)) }
    {
        match self.stop {
            Some(stop) => Err(stop),
            None => match take_first(self.operators.as_mut_slice()) {
                Ok(answer) => Ok(answer),
                Err(NoMemory) => {
                    self.stop = Some(Stop::NoMemory);
                    Err(Stop::NoMemory)
                }
            },
        }
    }

    /// Hands up what the work of a probe found, as far as it goes, and gives its ticket. The probe was taken from this core and
    /// is not given yet, and `found` is of its join and ticket and has rows of as many columns as the join (`probes_under_way` tells
    /// both of any history).
    ///
    /// The stops are those of an arrival.
    pub fn give(&mut self, probe: Probe, found: Found) -> Result<(), Stop>
        requires open { self.old.kept.stop ≡ None → IsOpen self.old probe }
        requires same { (found.join ≡ probe.join) × (found.ticket ≡ probe.ticket) }
        requires fits { self.old.kept.stop ≡ None → FitNode self.old probe.join found.rows }
        ensures ok { OnOk result (HasGiven self.old self.new probe found) }
        ensures err { IfErr result (λ stop. IsRefused self.old.kept.stop self.old self.new stop (IsGiveCause self.old probe found stop)) }
    {
        match self.stop {
            Some(stop) => Err(stop),
            None => match give_found(
                self.alloc,
                self.operators.as_mut_slice(),
                probe,
                found.rows,
                &mut self.undrained,
            ) {
                Ok(()) => Ok(()),
                Err(stop) => {
                    self.stop = Some(stop);
                    Err(stop)
                }
            },
        }
    }

    /// Sweeps an input of a join: its ripe rows are removed, and the punctuations that none of those left matches go up. Answers
    /// how many rows were removed.
    ///
    /// The stops are those of an arrival.
    pub fn sweep(&mut self, join: u32, input: u32) -> Result<u64, Stop>
        requires there { IsJoinInput self.old join input }
        ensures ok { IfOk result (λ count. HasSwept self.old self.new join input count) }
        ensures err { IfErr result (λ stop. IsRefused self.old.kept.stop self.old self.new stop (IsCause self.old (Sweeps join input) stop)) }
    {
        match self.stop {
            Some(stop) => Err(stop),
            None => self.sweep_one(join, input),
        }
    }

    /// Hands out all that was not drained, in order. It takes no memory, and goes on after a stop.
    pub fn drain(&mut self) -> List<Out>
        ensures handed { result ≡ self.old.kept.undrained }
        ensures left { self.new ≡ record self.old { kept = record self.old.kept { undrained = [] } } }
        ensures notes { Notes self.old self.new (plain Drains) }
    {
        let empty = List::new(self.alloc);
        std::mem::replace(&mut self.undrained, empty)
    }

    /// Halts the run: a look tells it from now on, and nothing else changes. It takes no memory, and goes on after a stop.
    pub fn halt(&mut self)
        ensures left { self.new ≡ record self.old { kept = record self.old.kept { halted = true } } }
        ensures notes { Notes self.old self.new (plain Halts) }
    {
        self.halted = true;
    }

    // The stop that was answered before; where there is one, answering it again changes nothing.
    pub(crate) fn stopped(&self) -> Option<Stop>
        ensures is { result ≡ self.now.kept.stop }
        ensures again { IfSome result (λ stop. StaysStopped self.now self.now stop stop) }
    {
        self.stop
    }

    // One sweep of an input of a join.
    #[inline(always)]
    pub(crate) fn sweep_one(&mut self, join: u32, input: u32) -> Result<u64, Stop>
        requires on { self.old.kept.stop ≡ None }
        requires there { IsJoinInput self.old join input }
        ensures ok { IfOk result (λ count. HasSwept self.old self.new join input count) }
        ensures err { IfErr result (λ stop. StopsNow self.old self.new stop × IsCause self.old (Sweeps join input) stop) }
        ensures quiet { OnOk result (StaysQuietBelow self.old self.new join) }
    {
        match sweep_at(
            self.alloc,
            self.operators.as_mut_slice(),
            join,
            input,
            self.trace,
            &mut self.undrained,
        ) {
            Ok(count) => Ok(count),
            Err(stop) => {
                self.stop = Some(stop);
                Err(stop)
            }
        }
    }

    /// How the run stands. After a stop only the streams, the outputs that are not drained and the stop are told.
    pub fn look(&self) -> Look
        ensures { IsLookAt self.now result }
    {
        let streams = self.plan.streams().len() as u32;
        let sums = sums_of(self.operators.as_slice());
        Look {
            pending: sums.pending,
            taken: sums.taken,
            streams,
            ended: count_ended(self.closed.as_slice(), streams),
            stored: sums.stored,
            waiting: sums.waiting,
            outputs: self.undrained.len() as u64,
            halted: self.halted,
            stop: self.stop,
        }
    }

    /// Its plan.
    pub fn plan(&self) -> &Plan
        ensures { result.now.nodes ≡ self.now.plan.nodes }
    {
        &self.plan
    }

    /// The greatest number of tuples that was stored at the join, which is the node of this number, after any entry so far.
    /// After a stop nothing is said of it.
    pub fn peak(&self, join: u32) -> u64
        requires { IsJoinNode self.now join }
        ensures { IsPeak self.now join result }
    {
        let operator = &self.operators[join as usize];
        operator.peak.max(operator.state.stored())
    }

    // One probe of a join, where one is pending there: its least pending ticket is taken and given.
    pub(crate) fn probe_at(&mut self, join: u32) -> Result<bool, Stop>
        requires on { self.old.kept.stop ≡ None }
        ensures ok { IfOk result (λ more. MayProbeAt more self.old self.new join) }
        ensures err { IfErr result (λ stop. StopsProbe self.old self.new join stop) }
        ensures quiet { IfOk result (λ more. ProbesAbove more self.old self.new join) }
    {
        match probe_on(
            self.alloc,
            self.operators.as_mut_slice(),
            join,
            &mut self.undrained,
        ) {
            Ok(more) => Ok(more),
            Err(stop) => {
                self.stop = Some(stop);
                Err(stop)
            }
        }
    }

    // How many inputs a node has where it is a join, else none.
    pub(crate) fn places(&self, node: u32) -> u32
        ensures { result ≡ places_total (node_at self.now.plan.nodes node) }
    {
        places_at(&self.plan, node)
    }

    // How many nodes the plan has.
    pub(crate) fn nodes(&self) -> u32
        ensures { result ≡ length self.now.plan.nodes }
    {
        self.plan.nodes()
    }
}

// The node of a stream, by its number among the streams.
#[tactic(auto, using(crate::proofs::Streams::number_below))]
fn number_of(plan: &Plan, stream: u32) -> u32
    requires { stream < length (streams_of plan.now.nodes) }
    ensures is { result ≡ slice_index_or (streams_of plan.now.nodes) stream 0 }
    ensures there { result < length plan.now.nodes }
{
    plan.streams()[stream as usize]
}

// Marks the stream as closed, and lets a punctuation with a wildcard for each of its columns arrive. On a refusal the outputs are
// as before.
fn close(
    alloc: Global,
    plan: &Plan,
    stream: u32,
    closed: &mut List<u32>,
    operators: &mut [RunningOperator],
    outs: &mut List<Out>,
) -> Result<(), Stop>
    requires there { stream < length (streams_of plan.now.nodes) }
    requires long { length operators.old ≡ length plan.now.nodes }
    requires may { MayEmit operators.old (slice_index_or (streams_of plan.now.nodes) stream 0) (closing_in plan.now.nodes stream ∷ []) }
    ensures closed { OnOk result (closed.new ≡ closed.old ++ stream ∷ []) }
    ensures ok { OnOk result (StreamCloses plan.now.nodes stream (record { operators = operators.old; outs = outs.old }) (record { operators = operators.new; outs = outs.new })) }
    ensures err { IfErr result (λ stop. IsEmitStop operators.old (slice_index_or (streams_of plan.now.nodes) stream 0) (closing_in plan.now.nodes stream ∷ []) stop) }
    ensures stays { StaysAs operators.old operators.new }
    ensures refused { OnErr result (outs.new ≡ outs.old) }
{
    let from = number_of(plan, stream);
    match mark(alloc, plan.schema(from).columns(), closed, stream) {
        Ok(punct) => match emit(alloc, operators, from, Element::Punct(punct), outs) {
            Ok(()) => Ok(()),
            Err(stop) => Err(stop),
        },
        Err(NoMemory) => Err(Stop::NoMemory),
    }
}

// Marks the stream as closed, and gives a punctuation with a wildcard for each of its columns.
fn mark(
    alloc: Global,
    columns: &[Column],
    closed: &mut List<u32>,
    stream: u32,
) -> Result<Punct, NoMemory>
    ensures punct { IfOk result (λ punct. punct ≡ all_wild (length columns.now)) }
    ensures closed { OnOk result (closed.new ≡ closed.old ++ stream ∷ []) }
{
    let punct = wild_for(alloc, columns)?;
    closed.push(stream)?;
    Ok(punct)
}

// A punctuation with a wildcard for each of these columns.
fn wild_for(alloc: Global, columns: &[Column]) -> Result<Punct, NoMemory>
    ensures { IfOk result (λ punct. punct ≡ all_wild (length columns.now)) }
{
    let mut patterns = List::new(alloc);
    for _column in columns {
        patterns.push(Pattern::wild())?;
    }
    Ok(Punct::of(patterns))
}

// How many of so many streams are closed.
#[tactic(auto, using(crate::proofs::Ended::ended_more, crate::proofs::Ended::ended_same))]
fn count_ended(closed: &[u32], streams: u32) -> u32
    ensures { result ≡ ended_of streams closed.now }
{
    let mut ended = 0;
    for stream in 0..streams {
        if is_closed(closed, stream) {
            ended += 1;
        }
    }
    ended
}

fn is_closed(closed: &[u32], stream: u32) -> bool
    ensures { result ≡ has closed.now stream }
{
    closed.iter().any(|other| *other == stream)
}

// How many inputs a node has where it is a join, else none.
fn places_at(plan: &Plan, node: u32) -> u32
    ensures { result ≡ places_total (node_at plan.now.nodes node) }
{
    if node >= plan.nodes() {
        return 0;
    }
    match plan.node(node) {
        Node::Stream { schemes: _ } => 0,
        Node::Select { input: _, test: _ } => 0,
        Node::Project {
            input: _,
            columns: _,
        } => 0,
        Node::Union { inputs: _ } => 0,
        Node::Join { inputs, spec: _ } => inputs.len() as u32,
        Node::Group { input: _, spec: _ } => 0,
    }
}
