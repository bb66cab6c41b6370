// Duties are given seats, and give them back.
ghost use Rattle.std.specs.Prelude.{◌≡◌, ◌≤◌, [], length, reverse, vec_capacity};
ghost use Rattle.pj_crew.specs.Seats.{duties_of, seat_state, seat_states, seated, seats_of};

use crate::duties::Duty;
use crate::tasks::Task;
use pj_hub::HubSeat;
use pj_io::Source;

#[tactic(auto, using(crate::proofs::Places::seating_begins, crate::proofs::Places::seating_goes, crate::proofs::Places::seating_ends))]
/// Gives each duty the seat of its place. The tasks stand from the last to the first.
pub(crate) fn take_seats<S: Source>(
    seats: &mut Vec<HubSeat>,
    duties: &mut Vec<Duty<S>>,
    tasks: &mut Vec<Task<S>>,
)
    requires each { length seats.old.items ≡ length duties.old.items }
    requires none { tasks.old.items ≡ [] }
    requires room { length duties.old.items ≤ vec_capacity tasks.old }
    ensures tasks { tasks.new.items ≡ reverse (seated seat_state seats.old.items duties.old.items) }
    ensures seats { seats.new.items ≡ [] }
    ensures duties { duties.new.items ≡ [] }
    ensures room { (vec_capacity seats.new ≡ vec_capacity seats.old) × (vec_capacity duties.new ≡ vec_capacity duties.old) }
{
    while let Some(duty) = duties.pop() {
        match seats.pop() {
            Some(seat) => tasks.push_reserved(Task { seat, duty }),
            None => unreachable!(),
        }
    }
}

#[tactic(auto, using(crate::proofs::Places::leaving_begins, crate::proofs::Places::leaving_goes, crate::proofs::Places::leaving_ends))]
/// Takes seats and duties back, from the first to the last.
pub(crate) fn leave_seats<S: Source>(
    tasks: &mut Vec<Task<S>>,
    seats: &mut Vec<HubSeat>,
    duties: &mut Vec<Duty<S>>,
)
    requires none { (seats.old.items ≡ []) × (duties.old.items ≡ []) }
    requires room { (length tasks.old.items ≤ vec_capacity seats.old) × (length tasks.old.items ≤ vec_capacity duties.old) }
    ensures seats { seat_states seat_state seats.new.items ≡ seats_of (reverse tasks.old.items) }
    ensures none { tasks.new.items ≡ [] }
    ensures duties { duties.new.items ≡ duties_of (reverse tasks.old.items) }
    ensures room { vec_capacity seats.new ≡ vec_capacity seats.old }
{
    while let Some(task) = tasks.pop() {
        let Task { seat, duty } = task;
        seats.push_reserved(seat);
        duties.push_reserved(duty);
    }
}
