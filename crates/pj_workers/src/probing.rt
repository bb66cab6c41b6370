// Probers.
ghost use Rattle.std.specs.Prelude.{◌≡◌, OnOk, IfErr};
ghost use Rattle.pj_workers.specs.Rounds.{Adds, IsProbed};
ghost use Rattle.pj_workers.specs.Ends.{Breaks, Probes};

use crate::ends::{Broken, WorkEnd, probing_ends, work_end_of};
use crate::gate::{Gate, Pause, Role};
use pj_seats::Hub;
use pj_value::NoMemory;
use std::alloc::Global;
use std::sync::Wait;

// Takes a ticket, does its work outside any turn, and gives it; or there is none. Where the work finds no memory the run is halted.
pub(crate) fn probe_once<H: Hub, R: Wait>(
    rt: &R,
    alloc: Global,
    hub: &H,
    seat: &mut H::Seat,
) -> Result<(), Broken>
    requires name { H.seat_name seat.old ≡ H.name hub.now }
    ensures same { (H.seat_name seat.new ≡ H.seat_name seat.old) × (H.number seat.new ≡ H.number seat.old) }
    ensures probed { OnOk result (Adds (H.number seat.old) (IsProbed (H.number seat.old)) (H.seen seat.old) (H.seen seat.new)) }
    ensures breaks { IfErr result (Breaks (H.plan hub.now) (H.number seat.old) (IsProbed (H.number seat.old)) (H.seen seat.old) (H.seen seat.new)) }
{
    match hub.take(rt, seat) {
        Ok(Some(probe)) => match probe.work(alloc) {
            Ok(found) => match hub.give(rt, seat, probe, found) {
                Ok(()) => Ok(()),
                Err(stop) => Err(Broken::Stopped(stop)),
            },
            Err(NoMemory) => {
                hub.halt(rt, seat);
                Err(Broken::NoMemory)
            }
        },
        Ok(None) => Ok(()),
        Err(stop) => Err(Broken::Stopped(stop)),
    }
}

/// Probes in rounds, until a look shows that nothing is left to probe: a look, then a ticket is taken and given, or nothing is to
/// do. `NoMemory` comes where the work of a probe finds none: then its ticket stays taken, and the run is halted.
pub fn probe<H: Hub, G: Gate, P: Pause, R: Wait>(
    rt: &R,
    alloc: Global,
    hub: &H,
    seat: &mut H::Seat,
    index: u32,
    gate: &G,
    pause: &P,
) -> WorkEnd
    requires name { H.seat_name seat.old ≡ H.name hub.now }
    ensures same { (H.seat_name seat.new ≡ H.seat_name seat.old) × (H.number seat.new ≡ H.number seat.old) }
    ensures works { Probes (H.plan hub.now) (H.number seat.old) (H.seen seat.old) (H.seen seat.new) result }
{
    let mut nth: u64 = 0;
    for _ in rt.forever() {
        let look = hub.look(rt, seat);
        if probing_ends(&look) {
            return WorkEnd::Over;
        }
        gate.pass(Role::Prober, index, nth);
        nth = nth.saturating_add(1);
        match probe_once(rt, alloc, hub, seat) {
            Ok(()) => {}
            Err(broken) => return work_end_of(broken),
        }
        pause.pause(rt, Role::Prober, index, &look);
    }
    unreachable!()
}
