// A core whose steps are made one at a time.
ghost use Rattle.std.specs.Prelude.{ℕ, ◌≡◌, ◌⊎◌, ◌<◌, true, false, [], None, length, IfErr, IfNone, IfOk, IfSome, OnOk};
ghost use Rattle.pj_pattern.specs.Fitting.{FitsDomains};
ghost use Rattle.pj_shape.specs.Columns.{domains_of};
ghost use Rattle.pj_plan.specs.Nodes.{streams_of, stream_columns, streams_in};
ghost use Rattle.pj_plan.specs.Sound.{IsSoundPlan};
ghost use Rattle.pj_events.specs.declared.events.Event.TheVariants.{Arrive as Arrives, Drain as Drains, Sweep as Sweeps};
ghost use Rattle.pj_events.specs.OneThread.{arrival_of, plain};
ghost use Rattle.pj_core.specs.Calls.{IsFresh, IsJoinInput, arriving_of, closing_of};
ghost use Rattle.pj_core.specs.Plans.{RunPlan};
ghost use Rattle.pj_script.specs.declared.step.ScriptStep.TheVariants.{Give, Sweep, Take};
ghost use Rattle.pj_core.specs.Turns.{Finishes, StopsMaking, working};
ghost use Rattle.pj_hand.specs.Hands.{StandsForOne};
ghost use Rattle.pj_hand.specs.Steps.{AnswersStep, GivesFirst, GivesOne, HandArrives, HandNotes, IsEventRefused, IsGiveRefused, IsHandRefused, IsNewHand, LacksMemory, MakesStep, StopsGive, StopsGiveFirst};

use crate::held::HeldProbes;
use pj_core::{Core, Out, Stop};
use pj_pattern::Element;
use pj_value::{List, NoMemory};
use std::alloc::Global;
use std::marker::Model;

/// A core whose steps are made one at a time, and the probes that were taken from it and are not given.
///
/// It stands for a history where its core does, and while nothing stopped it holds the probes of the tickets that are under way
/// there. After a stop each call that can stop answers it again and changes nothing; a drain goes on.
#[derive(Drop)]
pub struct Hand {
    alloc: Global,
    core: Core,
    taken: HeldProbes,
    stop: Option<Stop>,
}

impl Model for Hand {
    ghost use Rattle.pj_hand.specs.Hands.{HandState, KnowsCore};

    ghost Value = { HandState };

    ghost view = { λ h. record { core = h.core; taken = h.taken.probes } };

    ghost invariant = { λ h. KnowsCore h.core h.stop };
}

impl Hand {
    /// A hand over a new core. No probe is under way.
    pub fn new(alloc: Global, core: Core) -> Hand
        requires { (plan : RunPlan) × (limit : ℕ) × IsFresh core plan limit }
        ensures { IsNewHand core result }
    {
        Hand {
            alloc,
            core,
            taken: HeldProbes::new(alloc),
            stop: None,
        }
    }

    /// Its core.
    pub fn core(&self) -> &Core
        ensures { result.now ≡ self.now.core }
    {
        &self.core
    }

    /// Its core, handed over. The probes that it holds are dropped.
    pub fn into_core(self) -> Core
        ensures { result ≡ self.core }
    {
        let Hand {
            alloc: _,
            core,
            taken,
            stop: _,
        } = self;
        drop(taken);
        core
    }

    /// An element arrives at a stream, counted from 0. It fits the stream's columns.
    ///
    /// `Limit` comes exactly where as many elements as may have arrived at a join or a group and this brings one more;
    /// `NoMemory` where memory could not be had.
    pub fn arrive(&mut self, stream: u32, element: Element) -> Result<(), Stop>
        requires there { stream < length (streams_of self.old.core.plan.nodes) }
        requires fits { FitsDomains (domains_of (stream_columns (streams_in self.old.core.plan.nodes) stream)) element }
        ensures ok { OnOk result (HandArrives self.old self.new (arrival_of (arriving_of stream element))) }
        ensures err { IfErr result (λ stop. IsEventRefused self.old self.new (Arrives stream element) stop) }
    {
        match self.core.arrive(stream, element) {
            Ok(()) => Ok(()),
            Err(stop) => {
                self.stop = Some(stop);
                Err(stop)
            }
        }
    }

    /// A stream, counted from 0, ends: a punctuation of wildcards alone arrives, and is marked as its closing.
    ///
    /// The stops are those of an arrival.
    pub fn close_stream(&mut self, stream: u32) -> Result<(), Stop>
        requires there { stream < length (streams_of self.old.core.plan.nodes) }
        ensures ok { OnOk result (HandArrives self.old self.new (arrival_of (closing_of self.old.core stream))) }
        ensures err { IfErr result (λ stop. IsEventRefused self.old self.new (Arrives stream (closing_of self.old.core stream).element) stop) }
    {
        match self.core.close_stream(stream) {
            Ok(()) => Ok(()),
            Err(stop) => {
                self.stop = Some(stop);
                Err(stop)
            }
        }
    }

    /// Takes a ticket, from the first join in order that has one pending its least, and holds its probe; `false` exactly where
    /// none is pending.
    ///
    /// `NoMemory` comes where memory could not be had, for the core, which then stops, or before the take for the place of the probe
    /// that was taken before; any other stop only where it was answered before.
    pub fn take(&mut self) -> Result<bool, Stop>
        ensures ok { IfOk result (λ made. AnswersStep made self.old self.new Take) }
        ensures err { IfErr result (λ stop. LacksMemory self.old self.new stop ⊎ IsHandRefused self.old.core.kept.stop self.old self.new stop (stop ≡ Stop.NoMemory)) }
    {
        match self.stop {
            Some(stop) => Err(stop),
            None => match self.taken.make_room() {
                Err(NoMemory) => Err(Stop::NoMemory),
                Ok(()) => match self.core.take() {
                    Ok(None) => Ok(false),
                    Ok(Some(probe)) => {
                        self.taken.hold(probe);
                        Ok(true)
                    }
                    Err(stop) => {
                        self.stop = Some(stop);
                        Err(stop)
                    }
                },
            },
        }
    }

    /// Gives a ticket of a join: where it is under way, its probe is worked on, what that finds goes up, and the probe is let go. It
    /// is `false` exactly where the ticket is not under way; nothing changes then. The hand stands for a history: what arrived might
    /// follow.
    ///
    /// The stops are those of an arrival. Where there is no memory for the work of the probe, or for the place of the probe that was
    /// taken last, nothing stops or changes, and the probe is still held.
    pub fn give(&mut self, join: u32, ticket: u64) -> Result<bool, Stop>
        requires { StandsForOne self.old }
        ensures ok { IfOk result (λ made. AnswersStep made self.old self.new (Give join ticket)) }
        ensures err { IfErr result (λ stop. IsGiveRefused self.old self.new join ticket stop) }
    {
        match self.stopped() {
            Some(stop) => Err(stop),
            None => match self.give_one(join, ticket) {
                Ok(made) => Ok(made),
                Err(stop) => Err(stop),
            },
        }
    }

    /// Sweeps an input of a join: its ripe rows are removed, and the punctuations that none of those left matches go up.
    ///
    /// The stops are those of an arrival.
    pub fn sweep(&mut self, join: u32, input: u32) -> Result<(), Stop>
        requires there { IsJoinInput self.old.core join input }
        ensures ok { OnOk result (MakesStep self.old self.new (Sweep join input)) }
        ensures err { IfErr result (λ stop. IsEventRefused self.old self.new (Sweeps join input) stop) }
    {
        match self.core.sweep(join, input) {
            Ok(_) => Ok(()),
            Err(stop) => {
                self.stop = Some(stop);
                Err(stop)
            }
        }
    }

    /// Hands out all that was not drained, in order. It takes no memory, and goes on after a stop.
    pub fn drain(&mut self) -> List<Out>
        ensures handed { result ≡ self.old.core.kept.undrained }
        ensures left { self.new ≡ record self.old { core = record self.old.core { kept = record self.old.core.kept { undrained = [] } } } }
        ensures notes { HandNotes self.old self.new (plain Drains) }
    {
        self.core.drain()
    }

    // Works on the probe of a ticket of a join, where it is held, and gives it.
    fn give_one(&mut self, join: u32, ticket: u64) -> Result<bool, Stop>
        requires on { self.old.core.kept.stop ≡ None }
        requires stands { StandsForOne self.old }
        ensures ok { IfOk result (λ made. GivesOne made self.old self.new join ticket) }
        ensures err { IfErr result (λ stop. LacksMemory self.old self.new stop ⊎ StopsGive self.old self.new join ticket stop) }
    {
        match self.taken.draw(self.alloc, join, ticket) {
            Err(NoMemory) => Err(Stop::NoMemory),
            Ok(None) => Ok(false),
            Ok(Some((probe, found))) => match self.core.give(probe, found) {
                Ok(()) => Ok(true),
                Err(stop) => {
                    self.stop = Some(stop);
                    Err(stop)
                }
            },
        }
    }

    // The stop that was answered before. The plan is sound.
    pub(crate) fn stopped(&self) -> Option<Stop>
        ensures is { result ≡ self.now.core.kept.stop }
        ensures sound { IsSoundPlan self.now.core.plan.nodes }
    {
        self.stop
    }

    // Gives the first of the probes that are held, where there is one.
    pub(crate) fn give_first(&mut self) -> Result<bool, Stop>
        requires on { self.old.core.kept.stop ≡ None }
        requires stands { StandsForOne self.old }
        ensures ok { IfOk result (λ more. GivesFirst more self.old self.new) }
        ensures err { IfErr result (λ stop. LacksMemory self.old self.new stop ⊎ StopsGiveFirst self.old self.new stop) }
    {
        match self.taken.first() {
            Err(NoMemory) => Err(Stop::NoMemory),
            Ok(None) => Ok(false),
            Ok(Some((join, ticket))) => match self.give_one(join, ticket) {
                Ok(more) => Ok(more),
                Err(stop) => Err(stop),
            },
        }
    }

    // Settles the core.
    pub(crate) fn settle_core(&mut self) -> Result<List<Out>, Stop>
        requires { self.old.core.kept.stop ≡ None }
        ensures ok { IfOk result (λ outs. Finishes true self.old.core self.new.core outs) }
        ensures err { IfErr result (λ stop. StopsMaking self.old.core self.new.core (working true self.old.core) stop) }
        ensures taken { self.new.taken ≡ self.old.taken }
    {
        match self.core.settle() {
            Ok(outs) => Ok(outs),
            Err(stop) => {
                self.stop = Some(stop);
                Err(stop)
            }
        }
    }
}
