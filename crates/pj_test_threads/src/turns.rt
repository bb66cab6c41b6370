// A list of numbers behind turns: two threads append to it, eight do so many times, and two in answer to each other.
ghost use Rattle.std.specs.Prelude.{◌≡◌, ◌≤◌, ◌<◌, ℕ, length, Some, slice_get};
ghost use Rattle.pj_turn.specs.Seats.{turn_name, turn_fixed, seat_name, seat_number, IsSeat};

use pj_turn::{Act, Kept, Turn, TurnSeat};
use pj_value::{List, NoMemory};
use std::alloc::Global;
use std::sync::Wait;
use std::thread::{Threads, for_each_mut};

// Numbers below a limit, each beside the number of the seat that appended it.
#[derive(Drop)]
struct Numbers {
    limit: u64,
    items: List<(u32, u64)>,
}

impl Kept for Numbers {
    ghost use Rattle.std.specs.Prelude.{◌≡◌};
    ghost use Rattle.std.specs.List.{filter_map};

    type Entry = (u32, Option<(u32, u64)>);

    type Fixed = u64;

    ghost meaning = { record { number = λ e. e.0; stands = λ x log. x.items ≡ filter_map (λ e. e.1) log; keeps = λ log. Unit {0}; keeps_none = tt; fixed = λ x. x.limit } };
}

// Appends a number; there is none where memory ran out.
#[derive(Drop)]
struct Append {
    by: u32,
    value: u64,
}

impl Act<Numbers> for Append {
    ghost use Rattle.pj_test_threads.specs.Appends.{appends};

    type Answer = Option<(u32, u64)>;

    ghost meaning = { λ act. appends act.by act.value };

    fn act(self, state: &mut Numbers) -> Option<(u32, u64)> {
        let one = (self.by, self.value);
        match state.items.push(one) {
            Ok(()) => Some(one),
            Err(_) => None,
        }
    }
}

// Whether the last of these was appended on this seat.
fn ends_by(items: &[(u32, u64)], by: u32) -> bool {
    match items.last() {
        Some(&(seat, _)) => seat == by,
        None => false,
    }
}

// Appends a number where the last one is another seat's.
#[derive(Drop)]
struct Answer {
    by: u32,
    value: u64,
}

impl Act<Numbers> for Answer {
    ghost use Rattle.pj_test_threads.specs.Appends.{appends};

    type Answer = Option<(u32, u64)>;

    ghost meaning = { λ act. appends act.by act.value };

    fn act(self, state: &mut Numbers) -> Option<(u32, u64)> {
        if ends_by(state.items.as_slice(), self.by) {
            return None;
        }
        let one = (self.by, self.value);
        match state.items.push(one) {
            Ok(()) => Some(one),
            Err(_) => None,
        }
    }
}

// A seat that nobody answers gives up after so many turns.
const MOST_TURNS: u64 = 50_000_000;

// Appends the numbers below `turns`, each in answer to one of another seat.
fn answer_each<R: Wait>(
    rt: &R,
    turn: &Turn<Numbers>,
    seat: &mut TurnSeat<Numbers>,
    by: u32,
    turns: u64,
)
    requires name { seat_name seat.old ≡ turn_name (λ x. x.limit) turn.now }
    requires numbers { (by ≡ seat_number seat.old) × (turns ≤ turn_fixed (λ x. x.limit) turn.now) }
    ensures same { (seat_name seat.new ≡ seat_name seat.old) × (seat_number seat.new ≡ seat_number seat.old) }
{
    let mut value = 0;
    for _ in 0..MOST_TURNS {
        if value >= turns {
            return;
        }
        if turn.with(rt, seat, Answer { by, value }).is_some() {
            value += 1;
        }
    }
}

// Appends the numbers below `turns`, in so many turns.
fn append_each<R: Wait>(
    rt: &R,
    turn: &Turn<Numbers>,
    seat: &mut TurnSeat<Numbers>,
    by: u32,
    turns: u64,
)
    requires name { seat_name seat.old ≡ turn_name (λ x. x.limit) turn.now }
    requires numbers { (by ≡ seat_number seat.old) × (turns ≤ turn_fixed (λ x. x.limit) turn.now) }
    ensures same { (seat_name seat.new ≡ seat_name seat.old) × (seat_number seat.new ≡ seat_number seat.old) }
{
    for value in 0..turns {
        turn.with(rt, seat, Append { by, value });
    }
}

// Appends on each seat, each in a thread of its own, in answer to each other or not.
fn append_on_all<R: Threads + Wait + Sync>(
    rt: &R,
    turn: &Turn<Numbers>,
    seats: &mut [TurnSeat<Numbers>],
    turns: u64,
    answers: bool,
)
    requires seats { (1 ≤ length seats.old) × (length seats.old ≤ 64) × ((k : ℕ) (s : _) → slice_get seats.old k ≡ Some s → IsSeat (λ x. x.limit) turn.now k s) }
    requires turns { turns ≤ turn_fixed (λ x. x.limit) turn.now }
    ensures { (length seats.new ≡ length seats.old) × ((k : ℕ) (s : _) → slice_get seats.new k ≡ Some s → IsSeat (λ x. x.limit) turn.now k s) }
{
    let threads = seats.len();
    for_each_mut(
        rt,
        seats,
        threads,
        &|place, seat: &mut TurnSeat<Numbers>|
            requires seat { IsSeat (λ x. x.limit) turn.now place seat.old }
            requires turns { (place < 64) × (turns ≤ turn_fixed (λ x. x.limit) turn.now) }
            ensures { (seat_name seat.new ≡ seat_name seat.old) × (seat_number seat.new ≡ seat_number seat.old) }
        {
            if answers {
                answer_each(rt, turn, seat, place as u32, turns)
            } else {
                append_each(rt, turn, seat, place as u32, turns)
            }
        },
    );
}

// What is there after each of so many threads appended the numbers below `turns`.
fn appended<R: Threads + Wait + Sync>(
    rt: &R,
    alloc: Global,
    seats: u32,
    turns: u64,
    answers: bool,
) -> Result<List<(u32, u64)>, NoMemory>
    requires { (1 ≤ seats) × (seats ≤ 64) }
{
    let none = Numbers {
        limit: turns,
        items: List::new(alloc),
    };
    let (turn, seats) = Turn::new(alloc, none, seats)?;
    let mut seats = seats.into_vec();
    append_on_all(rt, &turn, seats.as_mut_slice(), turns, answers);
    let Numbers { limit: _, items } = turn.close(List::of(seats));
    Ok(items)
}

// Whether this seat's own entries are all there, in its order.
fn stand(items: &[(u32, u64)], by: u32, turns: u64) -> bool {
    let mut next = 0;
    for &(seat, value) in items {
        if seat == by {
            if next == turns {
                return false;
            }
            if value != next {
                return false;
            }
            next += 1;
        }
    }
    next == turns
}

// Whether these are the two, in this order.
fn are(items: &[(u32, u64)], first: (u32, u64), second: (u32, u64)) -> bool {
    items.len() == 2 && items[0] == first && items[1] == second
}

#[test]
fn two_threads_append(rt: HostRuntime) {
    let items = appended(&rt, rt.alloc(), 2, 1, false);
    assert!(rt; items.is_ok());
    if let Ok(items) = items {
        let items = items.as_slice();
        assert!(rt; are(items, (0, 0), (1, 0)) || are(items, (1, 0), (0, 0)));
        assert!(rt; stand(items, 0, 1) && stand(items, 1, 1));
    }
}

#[test]
fn eight_threads_take_many_turns(rt: HostRuntime) {
    let items = appended(&rt, rt.alloc(), 8, 500, false);
    assert!(rt; matches!(&items, Ok(items) if items.len() == 4000));
    for by in 0..8 {
        assert!(rt; matches!(&items, Ok(items) if stand(items.as_slice(), by, 500)));
    }
}

// One behind the other, the first would append one number and give up, and so would the second.
#[test]
fn two_threads_answer_each_other(rt: HostRuntime) {
    let items = appended(&rt, rt.alloc(), 2, 20, true);
    assert!(rt; matches!(&items, Ok(items) if items.len() == 40));
    assert!(rt; matches!(&items, Ok(items) if stand(items.as_slice(), 0, 20)));
    assert!(rt; matches!(&items, Ok(items) if stand(items.as_slice(), 1, 20)));
}
