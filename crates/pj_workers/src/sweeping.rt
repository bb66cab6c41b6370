// Sweepers.
ghost use Rattle.std.specs.Prelude.{◌≡◌, ◌≢◌};
ghost use Rattle.pj_workers.specs.Rounds.{AreInputs};
ghost use Rattle.pj_workers.specs.Ends.{Sweeps};

use crate::ends::{WorkEnd, sweeping_ends};
use crate::gate::{Gate, Pause, Role};
use pj_seats::Hub;
use std::sync::Wait;

/// Sweeps in rounds, until a look shows that all streams ended: a look, then one sweep of each place, a join and one of its
/// inputs, in order. It takes no memory of its own.
pub fn sweep_all<H: Hub, G: Gate, P: Pause, R: Wait>(
    rt: &R,
    hub: &H,
    seat: &mut H::Seat,
    index: u32,
    places: &[(u32, u32)],
    gate: &G,
    pause: &P,
) -> WorkEnd
    requires name { H.seat_name seat.old ≡ H.name hub.now }
    requires there { AreInputs (H.plan hub.now).nodes places.now }
    ensures same { (H.seat_name seat.new ≡ H.seat_name seat.old) × (H.number seat.new ≡ H.number seat.old) }
    ensures works { Sweeps (H.plan hub.now) (H.number seat.old) places.now (H.seen seat.old) (H.seen seat.new) result }
    ensures memory { result ≢ WorkEnd.NoMemory }
{
    let mut nth: u64 = 0;
    for _ in rt.forever() {
        let look = hub.look(rt, seat);
        if sweeping_ends(&look) {
            return WorkEnd::Over;
        }
        for &(join, input) in places {
            gate.pass(Role::Sweeper, index, nth);
            nth = nth.saturating_add(1);
            match hub.sweep(rt, seat, join, input) {
                Ok(_) => {}
                Err(stop) => return WorkEnd::Stopped(stop),
            }
        }
        pause.pause(rt, Role::Sweeper, index, &look);
    }
    unreachable!()
}
