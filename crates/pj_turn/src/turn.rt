// The turn and its seats.
ghost use Rattle.std.specs.Prelude.{◌≡◌, ◌≢◌, ℕ, true, false, List, [], ◌∷◌, ◌++◌, ◌+◌, ◌%◌, ◌^◌, ◌<◌, ◌≤◌, length, IfOk, Option, Some, None, slice_get};
ghost use mathlib.Core.Option.{some};
ghost use lib.ListN.{get_elem?};
ghost use Rattle.pj_turn.specs.History.{MayAct, Turned, Closed};
ghost use Rattle.pj_turn.specs.Rule.{now, all_pairs, entry_at, idle_view, SeatTakes};

use crate::kept::{Act, Kept};
use crate::plays::{Another, Draw, Gather, Look, Note, Noted, Order, Serve};
use crate::views::{Opening, SeatView};
use crate::waiting::{Patience, Waiting};
use atomic_table::{Refused, Seat, Table};
use pj_value::{List, NoMemory};
use std::alloc::Global;
use std::marker::Brand;
use std::snapshot::Snapshot;
use std::sync::Wait;

// The words of the table: the next ticket, the served one, and the number of entries.
const TICKET: usize = 0;

const SERVING: usize = 1;

const COUNT: usize = 2;

/// A state that threads share by turns, and the one history of what was done on it.
///
/// Whatever the threads do, what they did is one list of entries: each act was made on a state that stood for the list so
/// far, and its entry is the next.
#[derive(Drop)]
pub struct Turn<T: Kept + Drop> {
    table: Table<Option<T>, SeatView<T::Fixed, T::Entry>, Opening<T>, Order, Global>,
    seats: u32,
    waiting: Waiting,
    ghost sized: { (table.shared.table_id.words ≡ 3) × (table.shared.table_id.slots ≡ 1) × (table.shared.key.seats ≡ seats) × (1 ≤ seats) × (seats ≤ 64) },
}

/// A seat at a turn, for one thread at a time. Contracts see its number, the name that it shares with its turn, and what
/// it has seen: a beginning of the one history, in which all entries of its own stand.
#[derive(Drop)]
pub struct TurnSeat<T: Kept> {
    number: u32,
    seat: Seat<Option<T>, SeatView<T::Fixed, T::Entry>>,
    ghost idle: { (seat.me.0.live ≡ true) × (seat.me.0.waits ≡ false) × (seat.me.0.turn ≡ false) × (length seat.me.0.pairs ≡ 0) × (length seat.me.1 ≡ 0) × (seat.me.0.number ≡ number) },
}

impl<T: Kept + Drop> Turn<T> {
    ghost use Rattle.pj_turn.specs.Seats.{turn_name, turn_fixed, turn_seats, seat_name, seat_number, seat_seen, IsNewSeat, AreAllSeats, Saw};

    /// A turn over a state that stands for the empty list, and its seats, 1 to 64, numbered by their places. They have
    /// seen nothing. On a refusal the state is dropped.
    pub fn new(
        alloc: Global,
        state: T,
        seats: u32,
    ) -> Result<(Turn<T>, List<TurnSeat<T>>), NoMemory>
        requires seats { (1 ≤ seats) × (seats ≤ 64) }
        requires state { T.meaning.stands state [] }
        ensures turn { IfOk result (λ r. (turn_seats r.0 ≡ seats) × (turn_fixed T.meaning.fixed r.0 ≡ T.meaning.fixed state)) }
        ensures seats { IfOk result (λ r. (length r.1 ≡ seats) × ((k : ℕ) (s : _) → slice_get r.1 k ≡ Some s → IsNewSeat T.meaning.fixed r.0 k s)) }
    {
        let opening = Opening {
            state: Snapshot::of(&state),
            seats,
        };
        let mut slots = Vec::with_capacity(alloc, 1)?;
        slots.push_reserved(Some(state));
        let (table, first) = match Table::new(alloc, &[0, 0, 0], slots, &opening) {
            Ok(made) => made,
            Err(Refused { slots: _ }) => return Err(NoMemory),
        };
        let turn = Turn {
            table,
            seats,
            waiting: Waiting::new(),
        };
        let all = turn.deal(alloc, first)?;
        Ok((turn, List::of(all)))
    }

    // Splits the other seats off the first.
    fn deal(
        &self,
        alloc: Global,
        mut first: Seat<Option<T>, SeatView<T::Fixed, T::Entry>>,
    ) -> Result<Vec<TurnSeat<T>>, NoMemory>
        requires name { first.table_id ≡ self.now.table.shared.table_id }
        requires first { first.me ≡ (idle_view 0 1 (Some (turn_fixed T.meaning.fixed self.now)) [], []) }
        ensures { IfOk result (λ all. (length all.items ≡ turn_seats self.now) × ((k : ℕ) (s : _) → slice_get all.items k ≡ Some s → IsNewSeat T.meaning.fixed self.now k s)) }
    {
        let mut others = Vec::new(alloc);
        for number in 1..self.seats {
            let seat = self.table.shared.split_seat::<Another>(&mut first);
            others.push(TurnSeat { number, seat })?;
        }
        let mut all = Vec::new(alloc);
        all.push(TurnSeat {
            number: 0,
            seat: first,
        })?;
        all.append(&mut others)?;
        Ok(all)
    }

    /// The state, for which the seats are given back, all of them, in any order.
    ///
    /// It stands for the one history. What each seat has seen begins that history and has all of the seat's own entries in
    /// it, and each entry has the number of one of the seats.
    pub fn close(self, seats: List<TurnSeat<T>>) -> T
        requires { AreAllSeats T.meaning.fixed self seats }
        ensures { Closed T.meaning (turn_fixed T.meaning.fixed self) (turn_seats self) (Saw seats) result }
    {
        let mut seats = seats.into_vec();
        let place = place_of_first(&seats);
        let TurnSeat {
            number: _,
            seat: mut first,
        } = seats.remove(place);
        self.gather(&mut first, seats);
        self.end(first)
    }

    // Joins the other seats into the first.
    fn gather(
        &self,
        first: &mut Seat<Option<T>, SeatView<T::Fixed, T::Entry>>,
        mut others: Vec<TurnSeat<T>>,
    )
        requires name { first.old.table_id ≡ self.now.table.shared.table_id }
        requires first { (first.old.me.0.live ≡ true) × (first.old.me.0.waits ≡ false) × (first.old.me.0.turn ≡ false) × (first.old.me.0.number ≡ 0) × (length first.old.me.0.pairs ≡ 0) }
        requires others { (k : ℕ) (s : _) → slice_get others.items k ≡ Some s → s.seat.table_id ≡ self.now.table.shared.table_id }
        ensures name { first.new.table_id ≡ first.old.table_id }
        ensures first { (first.new.me.0.live ≡ true) × (first.new.me.0.turn ≡ false) × (first.new.me.0.number ≡ 0) }
        ensures own { get_elem? (all_pairs first.new.me.0) 0 ≡ some (0, first.old.me.0.seen) }
        ensures pairs { (k : ℕ) (s : _) → slice_get others.items k ≡ Some s → (i : ℕ) × (get_elem? (all_pairs first.new.me.0) i ≡ some (s.number, s.seat.me.0.seen)) }
    {
        while let Some(TurnSeat { number: _, seat }) = others.pop() {
            self.table.shared.join_seat::<Gather>(first, seat);
        }
    }

    // Every seat was joined into this one.
    fn end(self, first: Seat<Option<T>, SeatView<T::Fixed, T::Entry>>) -> T
        requires name { first.table_id ≡ self.table.shared.table_id }
        requires first { (first.me.0.live ≡ true) × (first.me.0.turn ≡ false) × (first.me.0.number ≡ 0) }
        requires pairs { (n : ℕ) → n < self.seats → (k : ℕ) × (seen : List T.Entry) × (get_elem? (all_pairs first.me.0) k ≡ some (n, seen)) }
        ensures { Closed T.meaning (turn_fixed T.meaning.fixed self) self.seats (λ n seen. (k : ℕ) × (get_elem? (all_pairs first.me.0) k ≡ some (n, seen))) result }
    {
        let Turn {
            table,
            seats: _,
            waiting: _,
        } = self;
        let mut closed = table.close_with(first);
        let state = closed.take(0);
        closed.free();
        state.unwrap()
    }

    /// One turn: waits for it, does the act on the state, and notes the act's entry.
    ///
    /// The state that it finds stands for a history that begins with all that the seat had seen, the answer is that of the
    /// act on this state, and afterwards the seat has seen that history with the act's entry at its end.
    pub fn with<A: Act<T>, R: Wait>(&self, rt: &R, seat: &mut TurnSeat<T>, act: A) -> A::Answer
        requires name { seat_name seat.old ≡ turn_name T.meaning.fixed self.now }
        requires may { MayAct T.meaning (A.meaning act) (turn_fixed T.meaning.fixed self.now) (seat_number seat.old) (seat_seen seat.old) }
        ensures same { (seat_name seat.new ≡ seat_name seat.old) × (seat_number seat.new ≡ seat_number seat.old) }
        ensures turned { Turned T.meaning (A.meaning act) result (turn_fixed T.meaning.fixed self.now) (seat_number seat.old) (seat_seen seat.old) (seat_seen seat.new) }
    {
        self.await_calm(rt);
        let ticket = self.draw(&mut seat.seat);
        self.await_turn(rt, &mut seat.seat, ticket);
        let mut state = self.lift(&mut seat.seat);
        let told = Snapshot::of(&act);
        let answer = act.act(&mut state);
        self.note::<Brand, A>(&mut seat.seat, &told, &answer);
        self.lay_back(&mut seat.seat, state);
        self.serve(&mut seat.seat);
        answer
    }

    // Draws a ticket.
    fn draw(&self, seat: &mut Seat<Option<T>, SeatView<T::Fixed, T::Entry>>) -> u64
        requires name { seat.old.table_id ≡ self.now.table.shared.table_id }
        requires idle { (seat.old.me.0.live ≡ true) × (seat.old.me.0.waits ≡ false) }
        ensures name { seat.new.table_id ≡ seat.old.table_id }
        ensures drew { (t : ℕ) × (result ≡ t % 2 ^ 64) × (seat.new.me ≡ (now seat.old.me.0 true t false seat.old.me.0.seen, seat.old.me.1)) }
    {
        self.table.shared.fetch_add::<Draw>(seat, TICKET, 1)
    }

    // Looks at the served number, and takes the slot where it is the seat's turn.
    fn look(&self, seat: &mut Seat<Option<T>, SeatView<T::Fixed, T::Entry>>) -> u64
        requires name { seat.old.table_id ≡ self.now.table.shared.table_id }
        requires waits { (seat.old.me.0.live ≡ true) × (seat.old.me.0.waits ≡ true) × (seat.old.me.0.turn ≡ false) }
        ensures name { seat.new.table_id ≡ seat.old.table_id }
        ensures takes { result ≡ seat.old.me.0.ticket % 2 ^ 64 → SeatTakes T.meaning seat.old.me seat.new.me }
        ensures misses { result ≢ seat.old.me.0.ticket % 2 ^ 64 → seat.new.me ≡ seat.old.me }
    {
        self.table.shared.load::<Look>(seat, SERVING)
    }

    // Looks until it is the seat's turn.
    fn await_turn<R: Wait>(
        &self,
        rt: &R,
        seat: &mut Seat<Option<T>, SeatView<T::Fixed, T::Entry>>,
        ticket: u64,
    )
        requires name { seat.old.table_id ≡ self.now.table.shared.table_id }
        requires waits { (seat.old.me.0.live ≡ true) × (seat.old.me.0.waits ≡ true) × (seat.old.me.0.turn ≡ false) × (ticket ≡ seat.old.me.0.ticket % 2 ^ 64) }
        ensures name { seat.new.table_id ≡ seat.old.table_id }
        ensures takes { SeatTakes T.meaning seat.old.me seat.new.me }
    {
        let mut patience = Patience::new();
        for _ in rt.forever() {
            let found = self.look(seat);
            if found == ticket {
                return;
            }
            if !patience.looks_on() {
                self.waiting.ticket_parks();
                self.table
                    .shared
                    .park(rt, SERVING, (found % (1 << 32)) as u32);
                self.waiting.ticket_wakes();
            }
        }
        unreachable!()
    }

    // Waits before a ticket is drawn, until nobody holds one: who has a ticket is served in its turn, though no processor may
    // have come to it yet.
    fn await_calm<R: Wait>(&self, rt: &R) {
        let mut patience = Patience::new();
        for _ in rt.forever() {
            let serving = self.table.shared.peek(SERVING);
            if self.table.shared.peek(TICKET) == serving {
                return;
            }
            if !patience.looks_on() {
                self.waiting.seat_rests();
                self.table.shared.park_timeout(
                    rt,
                    SERVING,
                    (serving % (1 << 32)) as u32,
                    self.waiting.rest(),
                );
                self.waiting.seat_rises();
            }
        }
        unreachable!()
    }

    // Moves the state out of its slot.
    fn lift(&self, seat: &mut Seat<Option<T>, SeatView<T::Fixed, T::Entry>>) -> T
        requires name { seat.old.table_id ≡ self.now.table.shared.table_id }
        requires holds { (x : T) × (seat.old.me.1 ≡ (0, Some x) ∷ []) }
        ensures name { seat.new.table_id ≡ seat.old.table_id }
        ensures holds { (seat.old.me.1 ≡ (0, Some result) ∷ []) × (seat.new.me ≡ (seat.old.me.0, (0, None) ∷ [])) }
    {
        self.table.shared.exchange(seat, 0, None).unwrap()
    }

    // Moves the state into its slot, which the seat still has.
    fn lay_back(&self, seat: &mut Seat<Option<T>, SeatView<T::Fixed, T::Entry>>, state: T)
        requires name { seat.old.table_id ≡ self.now.table.shared.table_id }
        requires holds { seat.old.me.1 ≡ (0, None) ∷ [] }
        ensures name { seat.new.table_id ≡ seat.old.table_id }
        ensures holds { seat.new.me ≡ (seat.old.me.0, (0, Some state) ∷ []) }
    {
        let _nothing = self.table.shared.exchange(seat, 0, Some(state));
    }

    // Notes the entry of an act that gave this answer.
    fn note<N: Noted<T::Entry>, A: Act<T>>(
        &self,
        seat: &mut Seat<Option<T>, SeatView<T::Fixed, T::Entry>>,
        _act: &Snapshot<A>,
        _answer: &A::Answer,
    )
        requires name { seat.old.table_id ≡ self.now.table.shared.table_id }
        requires turn { (seat.old.me.0.live ≡ true) × (seat.old.me.0.waits ≡ true) × (seat.old.me.0.turn ≡ true) × (length seat.old.me.0.pairs ≡ 0) }
        requires entries { N.entries ≡ entry_at (A.meaning _act.now.value) seat.old.me.0 _answer.now ∷ [] }
        requires by_seat { T.meaning.number (entry_at (A.meaning _act.now.value) seat.old.me.0 _answer.now) ≡ seat.old.me.0.number }
        requires keeps { T.meaning.keeps (seat.old.me.0.seen ++ entry_at (A.meaning _act.now.value) seat.old.me.0 _answer.now ∷ []) }
        ensures name { seat.new.table_id ≡ seat.old.table_id }
        ensures noted { let v = seat.old.me.0 in seat.new.me ≡ (now v true v.ticket true (v.seen ++ entry_at (A.meaning _act.now.value) v _answer.now ∷ []), seat.old.me.1) }
    {
        self.table.shared.fetch_add::<Note<N>>(seat, COUNT, 1);
    }

    // Serves the next, and gives the slot back.
    fn serve(&self, seat: &mut Seat<Option<T>, SeatView<T::Fixed, T::Entry>>)
        requires name { seat.old.table_id ≡ self.now.table.shared.table_id }
        requires turn { (seat.old.me.0.live ≡ true) × (seat.old.me.0.waits ≡ true) × (seat.old.me.0.turn ≡ true) }
        requires holds { (x : T) × (seat.old.me.1 ≡ (0, Some x) ∷ []) × T.meaning.stands x seat.old.me.0.seen × (seat.old.me.0.fixed ≡ Some (T.meaning.fixed x)) }
        ensures name { seat.new.table_id ≡ seat.old.table_id }
        ensures served { seat.new.me ≡ (now seat.old.me.0 false seat.old.me.0.ticket false seat.old.me.0.seen, []) }
    {
        self.table.shared.fetch_add::<Serve>(seat, SERVING, 1);
        self.wake();
    }

    // Wakes who waits for what was just served: all that have tickets, else one that has none.
    fn wake(&self) {
        if self.waiting.has_tickets() {
            self.table.shared.wake_all(SERVING);
        } else if self.waiting.has_seats() {
            self.table.shared.wake_one(SERVING);
        }
    }
}

// The place of the seat with the number 0, which is among these.
fn place_of_first<T: Kept>(seats: &Vec<TurnSeat<T>>) -> usize
    requires { (k : ℕ) × (s : _) × (slice_get seats.now.items k ≡ Some s) × (s.number ≡ 0) }
    ensures { (s : _) × (slice_get seats.now.items result ≡ Some s) × (s.number ≡ 0) }
{
    let mut place = 0;
    while seats[place].number != 0 {
        place += 1;
    }
    place
}
