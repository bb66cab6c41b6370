// The writer.
ghost use Rattle.std.specs.Prelude.{◌≡◌, ◌≤◌, [], IsTrue, OnOk, Err};
ghost use Rattle.pj_events.specs.Outcomes.{elements_out};
ghost use Rattle.pj_io.specs.Causes.{Rose};
ghost use Rattle.pj_report.specs.Forms.{TakesMore, shown};
ghost use Rattle.pj_report.specs.Written.{WritesBy, write_cut};
ghost use Rattle.pj_workers.specs.Writes.{HandsOn, IsWritten, Writes, write_end};

use crate::ends::sweeping_ends;
use crate::gate::{Gate, Pause, Role};
use pj_events::Out;
use pj_io::Sink;
use pj_plan::Plan;
use pj_report::{ResultWriter, WriteStop};
use pj_seats::Hub;
use pj_value::List;
use std::alloc::Global;
use std::sync::Wait;

/// How the writer ends.
#[derive(Clone, Copy, Debug, PartialEq, Eq)]
pub enum WriteEnd {
    /// A look showed that nothing is left to do.
    Over,
    /// The output failed; the run is halted.
    WriteFault,
    /// Memory could not be had; the run is halted.
    NoMemory,
}

fn write_end_of(stop: WriteStop) -> WriteEnd
    ensures { result ≡ write_end stop }
{
    match stop {
        WriteStop::Failed => WriteEnd::WriteFault,
        WriteStop::NoMemory => WriteEnd::NoMemory,
    }
}

// Gives what was drained to the results, which write or keep it, and hands on what was written.
fn hand_on<K: Sink>(
    alloc: Global,
    plan: &Plan,
    outs: &[Out],
    results: &mut ResultWriter,
    text: &mut List<u8>,
    out: &mut K,
) -> Result<(), WriteStop>
    ensures told { IsTrue (K.state out.new).told → IsTrue (K.state out.old).told }
    ensures lines { IsTrue (K.state out.new).told → WritesBy write_cut (shown results.old.form plan.now.nodes outs.now) (K.state out.old) (K.state out.new) result }
    ensures taken { OnOk result (TakesMore results.old results.new (elements_out outs.now)) }
    ensures form { results.new.form ≡ results.old.form }
    ensures handed_on { OnOk result ((K.state out.new).held ≡ []) }
    ensures later { (K.state out.old).faults ≤ (K.state out.new).faults }
    ensures fault { result ≡ Err WriteStop.Failed → Rose (K.state out.old).faults (K.state out.new).faults }
{
    results.take(alloc, plan, outs, text, out)?;
    out.flush()?;
    Ok(())
}

/// Drains in rounds, until a look shows that all streams ended: a look, then a drain, whose outputs the results take, and write
/// or keep, and what they wrote is handed on before the next round. `WriteFault` comes only where the sink's faults rose. What was taken or written stays so.
pub fn write_out<H: Hub, K: Sink, G: Gate, P: Pause, R: Wait>(
    rt: &R,
    alloc: Global,
    hub: &H,
    seat: &mut H::Seat,
    plan: &Plan,
    results: &mut ResultWriter,
    out: &mut K,
    gate: &G,
    pause: &P,
) -> WriteEnd
    requires name { H.seat_name seat.old ≡ H.name hub.now }
    ensures same { (H.seat_name seat.new ≡ H.seat_name seat.old) × (H.number seat.new ≡ H.number seat.old) }
    ensures made { Writes (H.plan hub.now) (H.number seat.old) (H.seen seat.old) (H.seen seat.new) result }
    ensures hands_on { HandsOn (H.plan hub.now) (H.number seat.old) (H.seen seat.old) (H.seen seat.new) (IsWritten result plan.now.nodes results.old results.new (K.state out.old) (K.state out.new)) }
    ensures form { results.new.form ≡ results.old.form }
    ensures handed_on { result ≡ WriteEnd.Over → (K.state out.old).held ≡ [] → (K.state out.new).held ≡ [] }
    ensures told { IsTrue (K.state out.new).told → IsTrue (K.state out.old).told }
    ensures later { (K.state out.old).faults ≤ (K.state out.new).faults }
{
    let mut text = List::new(alloc);
    let mut nth: u64 = 0;
    for _ in rt.forever() {
        let look = hub.look(rt, seat);
        if sweeping_ends(&look) {
            return WriteEnd::Over;
        }
        gate.pass(Role::Writer, 0, nth);
        nth = nth.saturating_add(1);
        let outs = hub.drain(rt, seat);
        match hand_on(alloc, plan, outs.as_slice(), results, &mut text, out) {
            Ok(()) => {}
            Err(stop) => {
                hub.halt(rt, seat);
                return write_end_of(stop);
            }
        }
        pause.pause(rt, Role::Writer, 0, &look);
    }
    unreachable!()
}
