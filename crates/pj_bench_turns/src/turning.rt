// Threads that look at a hub.
ghost use Rattle.std.specs.Prelude.{◌≡◌, ◌≤◌, ℕ, length, slice_get, Some};
ghost use Rattle.pj_hub.specs.Hubs.{shared_with};
ghost use Rattle.pj_hub.specs.Seated.{hub_name};
ghost use Rattle.pj_turn.specs.Seats.{IsSeat, seat_name, seat_number};

use pj_hub::{CoreHub, HubSeat};
use pj_seats::Hub;
use std::sync::Wait;
use std::thread::{Threads, for_each_mut};

/// Looks so often on each seat, each in a thread of its own.
pub fn look_on_all<R: Threads + Wait + Sync>(
    rt: &R,
    hub: &CoreHub,
    seats: &mut [HubSeat],
    looks: u32,
)
    requires some { 1 ≤ length seats.old }
    requires seats { (k : ℕ) (s : _) → slice_get seats.old k ≡ Some s → IsSeat shared_with hub.now.turn k s }
    ensures { (length seats.new ≡ length seats.old) × ((k : ℕ) (s : _) → slice_get seats.new k ≡ Some s → IsSeat shared_with hub.now.turn k s) }
{
    let threads = seats.len();
    for_each_mut(
        rt,
        seats,
        threads,
        &|place, seat: &mut HubSeat|
            requires seat { IsSeat shared_with hub.now.turn place seat.old }
            ensures { (seat_name seat.new ≡ seat_name seat.old) × (seat_number seat.new ≡ seat_number seat.old) }
        { look_often(rt, hub, seat, looks) },
    );
}

// Looks so often.
fn look_often<R: Wait>(rt: &R, hub: &CoreHub, seat: &mut HubSeat, looks: u32)
    requires { seat_name seat.old ≡ hub_name hub.now }
    ensures same { (seat_name seat.new ≡ seat_name seat.old) × (seat_number seat.new ≡ seat_number seat.old) }
{
    for _ in 0..looks {
        let _look = hub.look(rt, seat);
    }
}
