// Turns of a core, and the lines of what they hand out.
ghost use Rattle.std.specs.Prelude.{◌≡◌, ◌≤◌, [], None, IsTrue, IfErr, IfOk, OnErr, OnOk, Err};
ghost use Rattle.pj_plan.specs.Nodes.{streams_in};
ghost use Rattle.pj_events.specs.declared.events.Stop.{Stop as CoreStop};
ghost use Rattle.pj_io.specs.Causes.{Rose};
ghost use Rattle.pj_core.specs.Calls.{IsTurnRefused, MakesTurn};
ghost use Rattle.pj_feed.specs.Feeds.{turn_in};
ghost use Rattle.pj_run.specs.Stops.{end_of, of_core};
ghost use Rattle.pj_run.specs.Cuts.{turn_cut};
ghost use Rattle.pj_run.specs.Refused.{HandsOver, TurnLeaves};
ghost use Rattle.pj_run.specs.PlanNames.{HasShortNames};
ghost use Rattle.pj_run.specs.Whole.{WritesWhole};
ghost use Rattle.pj_run.specs.Turning.{IsTurnOf, Turned, TurnDone, TurnStopsBehind, TurnWrites};

use crate::stops::TurnStop;
use pj_core::Core;
use pj_events::{Out, Stop};
use pj_feed::Arrival;
use pj_io::Sink;
use pj_report::{ResultWriter, WriteStop};
use pj_value::List as Items;
use std::alloc::Global;

/// Makes one turn of a core that has not stopped and that was drained, and gives what the turn hands out to the writer.
/// `text` is where lines are made.
///
/// `Limit` comes where the turn brings one element beyond the limit of a node; exactly what was handed out before that is
/// written first. Where that fails, `Cut` tells the stop that came before. After a refusal the core stands for the entries of the turn
/// that were made, with its stop behind them, if it stopped, and the writer has taken the first of what they hand out.
pub fn take_turn<K: Sink>(
    alloc: Global,
    core: &mut Core,
    next: Arrival,
    results: &mut ResultWriter,
    text: &mut Items<u8>,
    out: &mut K,
) -> Result<(), TurnStop>
    requires on { core.old.kept.stop ≡ None }
    requires drained { core.old.kept.undrained ≡ [] }
    requires of { IsTurnOf (streams_in core.old.plan.nodes) (turn_in (streams_in core.old.plan.nodes) next) }
    ensures plan { core.new.plan ≡ core.old.plan }
    ensures told { IsTrue (K.state out.new).told → IsTrue (K.state out.old).told }
    ensures lines { TurnWrites results.old.form core.old (turn_in (streams_in core.old.plan.nodes) next) (K.state out.old) (K.state out.new) result }
    ensures whole { HasShortNames core.old.plan.nodes → WritesWhole turn_cut (K.state out.old) (K.state out.new) result }
    ensures done { OnOk result (TurnDone core.old core.new (turn_in (streams_in core.old.plan.nodes) next) results.old results.new) }
    ensures left { OnErr result (TurnLeaves core.old core.new (turn_in (streams_in core.old.plan.nodes) next) results.old results.new) }
    ensures form { results.new.form ≡ results.old.form }
    ensures stops { IfErr result (λ stop. TurnStopsBehind stop results.old.form core.old (turn_in (streams_in core.old.plan.nodes) next) (K.state out.old) (K.state out.new)) }
    ensures later { (K.state out.old).faults ≤ (K.state out.new).faults }
    ensures fault { result ≡ Err TurnStop.WriteFailed → Rose (K.state out.old).faults (K.state out.new).faults }
    ensures cut { (stop : CoreStop) → result ≡ Err (TurnStop.Cut stop) → Rose (K.state out.old).faults (K.state out.new).faults }
{
    let handed = turn_core(core, next);
    let written = results.take(alloc, core.plan(), handed.outs.as_slice(), text, out);
    turn_end(written, handed.stop)
}

/// How a turn ends: a stop of the core stands before a failed write of what was handed out until then.
pub fn turn_end(written: Result<(), WriteStop>, stop: Option<Stop>) -> Result<(), TurnStop>
    ensures { result ≡ end_of written stop }
{
    match stop {
        None => match written {
            Ok(()) => Ok(()),
            Err(why) => Err(TurnStop::from(why)),
        },
        Some(stop) => match written {
            Ok(()) => Err(turn_stop(stop)),
            Err(WriteStop::Failed) => Err(TurnStop::Cut { stop }),
            Err(WriteStop::NoMemory) => Err(TurnStop::NoMemory),
        },
    }
}

// What a turn handed out, and why the core stopped in it, if it did.
#[derive(Drop)]
struct Handed {
    outs: Items<Out>,
    stop: Option<Stop>,
}

fn turn_core(core: &mut Core, next: Arrival) -> Handed
    requires on { core.old.kept.stop ≡ None }
    requires drained { core.old.kept.undrained ≡ [] }
    requires of { IsTurnOf (streams_in core.old.plan.nodes) (turn_in (streams_in core.old.plan.nodes) next) }
    ensures plan { core.new.plan ≡ core.old.plan }
    ensures turned { Turned core.old core.new (turn_in (streams_in core.old.plan.nodes) next) result.outs result.stop }
    ensures over { HandsOver core.old core.new (turn_in (streams_in core.old.plan.nodes) next) result.outs }
{
    match enter(core, next) {
        Ok(outs) => Handed { outs, stop: None },
        Err(stop) => Handed {
            outs: core.drain(),
            stop: Some(stop),
        },
    }
}

fn enter(core: &mut Core, next: Arrival) -> Result<Items<Out>, Stop>
    requires { IsTurnOf (streams_in core.old.plan.nodes) (turn_in (streams_in core.old.plan.nodes) next) }
    ensures plan { core.new.plan ≡ core.old.plan }
    ensures ok { IfOk result (λ outs. MakesTurn core.old core.new (turn_in (streams_in core.old.plan.nodes) next) outs) }
    ensures err { IfErr result (λ stop. IsTurnRefused core.old.kept.stop core.old core.new (turn_in (streams_in core.old.plan.nodes) next) stop) }
{
    match next {
        Arrival::Brought { stream, element } => core.turn(stream, element),
        Arrival::Closing { stream } => core.closing_turn(stream),
    }
}

// The stop of a turn in which the core stopped.
fn turn_stop(stop: Stop) -> TurnStop
    ensures { result ≡ of_core stop }
{
    match stop {
        Stop::Limit { node } => TurnStop::Limit { node },
        Stop::NoMemory => TurnStop::NoMemory,
    }
}
