// What a hand hands out, and the lines of it.
ghost use Rattle.std.specs.Prelude.{◌≡◌, ◌≤◌, [], None, IsTrue, IfErr, OnOk, Err};
ghost use Rattle.pj_events.specs.declared.events.Stop.{Stop as CoreStop};
ghost use Rattle.pj_events.specs.declared.events.Event.TheVariants.{Drain as Drains};
ghost use Rattle.pj_events.specs.OneThread.{plain};
ghost use Rattle.pj_events.specs.Outcomes.{elements_out};
ghost use Rattle.pj_hand.specs.Hands.{StandsForOne};
ghost use Rattle.pj_hand.specs.Steps.{HandNotes};
ghost use Rattle.pj_io.specs.Causes.{Rose};
ghost use Rattle.pj_report.specs.Forms.{TakesMore, shown};
ghost use Rattle.pj_report.specs.Written.{WritesBy, write_cut};
ghost use Rattle.pj_run.specs.Cuts.{turn_cut};
ghost use Rattle.pj_run.specs.PlanNames.{HasShortNames};
ghost use Rattle.pj_run.specs.Whole.{WritesWhole};
ghost use Rattle.pj_replay.specs.Settles.{Settled, SettlesInto, SettleStopsBehind, SettleWrites};

use pj_core::{Out, Stop};
use pj_hand::Hand;
use pj_io::Sink;
use pj_report::{ResultWriter, WriteStop};
use pj_run::{TurnStop, turn_end};
use pj_value::List as Items;
use std::alloc::Global;

/// Gives all that a hand has to hand out to the writer. `text` is where lines are made.
pub(crate) fn drain<K: Sink>(
    alloc: Global,
    hand: &mut Hand,
    results: &mut ResultWriter,
    text: &mut Items<u8>,
    out: &mut K,
) -> Result<(), WriteStop>
    ensures drained { hand.new ≡ record hand.old { core = record hand.old.core { kept = record hand.old.core.kept { undrained = [] } } } }
    ensures notes { HandNotes hand.old hand.new (plain Drains) }
    ensures told { IsTrue (K.state out.new).told → IsTrue (K.state out.old).told }
    ensures lines { IsTrue (K.state out.new).told → WritesBy write_cut (shown results.old.form hand.old.core.plan.nodes hand.old.core.kept.undrained) (K.state out.old) (K.state out.new) result }
    ensures taken { OnOk result (TakesMore results.old results.new (elements_out hand.old.core.kept.undrained)) }
    ensures form { results.new.form ≡ results.old.form }
    ensures later { (K.state out.old).faults ≤ (K.state out.new).faults }
    ensures fault { result ≡ Err WriteStop.Failed → Rose (K.state out.old).faults (K.state out.new).faults }
{
    let outs = hand.drain();
    let plan = hand.core().plan();
    results.take(alloc, plan, outs.as_slice(), text, out)
}

/// Settles a hand that has not stopped, and gives what it hands out to the writer. The hand stands for a history.
///
/// `Limit` comes where an entry on the way brings one element beyond the limit of a node; exactly what was handed out before that
/// is written first. Where that fails, `Cut` tells the stop that came before.
pub(crate) fn settle<K: Sink>(
    alloc: Global,
    hand: &mut Hand,
    results: &mut ResultWriter,
    text: &mut Items<u8>,
    out: &mut K,
) -> Result<(), TurnStop>
    requires on { hand.old.core.kept.stop ≡ None }
    requires stands { StandsForOne hand.old }
    ensures plan { hand.new.core.plan ≡ hand.old.core.plan }
    ensures told { IsTrue (K.state out.new).told → IsTrue (K.state out.old).told }
    ensures lines { SettleWrites results.old.form hand.old (K.state out.old) (K.state out.new) result }
    ensures whole { HasShortNames hand.old.core.plan.nodes → WritesWhole turn_cut (K.state out.old) (K.state out.new) result }
    ensures done { OnOk result (SettlesInto hand.old hand.new results.old results.new) }
    ensures form { results.new.form ≡ results.old.form }
    ensures stops { IfErr result (λ stop. SettleStopsBehind stop results.old.form hand.old (K.state out.old) (K.state out.new)) }
    ensures later { (K.state out.old).faults ≤ (K.state out.new).faults }
    ensures fault { result ≡ Err TurnStop.WriteFailed → Rose (K.state out.old).faults (K.state out.new).faults }
    ensures cut { (stop : CoreStop) → result ≡ Err (TurnStop.Cut stop) → Rose (K.state out.old).faults (K.state out.new).faults }
{
    let handed = settle_hand(hand);
    let plan = hand.core().plan();
    let written = results.take(alloc, plan, handed.outs.as_slice(), text, out);
    turn_end(written, handed.stop)
}

// What settling handed out, and why it stopped, if it did.
#[derive(Drop)]
struct Handed {
    outs: Items<Out>,
    stop: Option<Stop>,
}

fn settle_hand(hand: &mut Hand) -> Handed
    requires on { hand.old.core.kept.stop ≡ None }
    requires stands { StandsForOne hand.old }
    ensures plan { hand.new.core.plan ≡ hand.old.core.plan }
    ensures settled { Settled hand.old hand.new result.outs result.stop }
{
    match hand.settle() {
        Ok(outs) => Handed { outs, stop: None },
        Err(stop) => Handed {
            outs: hand.drain(),
            stop: Some(stop),
        },
    }
}
