// The rule of a turn's table, and the names of its steps.
ghost use Rattle.pj_turn.specs.Rule.{Orderly, first_view, drew, looked, noted, gave_back, left_of, right_of, joined, spent};

use crate::kept::Kept;
use crate::views::{Opening, SeatView};
use atomic_table::{Join, Play, Split, TableRule};
use std::marker::{Brand, PhantomData};

/// The rule that holds between any two steps.
pub struct Order;

impl<T: Kept> TableRule<Option<T>, SeatView<T::Fixed, T::Entry>, Opening<T>> for Order {
    ghost holds = { λ key. Orderly T.meaning (T.meaning.fixed key.state.value) key.seats };

    ghost first = { λ key. first_view (T.meaning.fixed key.state.value) };
}

/// Draws a ticket.
pub struct Draw;

impl<S, F, E> Play<Option<S>, SeatView<F, E>> for Draw {
    ghost then = { drew };
}

/// Looks at the served number, and takes the slot where it is the seat's turn.
pub struct Look;

impl<T: Kept> Play<Option<T>, SeatView<T::Fixed, T::Entry>> for Look {
    ghost then = { looked T.meaning };
}

/// The entry of one turn, alone in a list. Each call picks it.
pub trait Noted<E> {
    ghost use Rattle.std.specs.Prelude.{List};

    ghost entries: { List E };
}

impl<E> Noted<E> for Brand {
    ghost use Rattle.std.specs.Prelude.{[]};

    ghost entries = { [] };
}

/// Notes the entry.
pub struct Note<N>(PhantomData<N>);

impl<S, F, E, N: Noted<E>> Play<Option<S>, SeatView<F, E>> for Note<N> {
    ghost then = { noted N.entries };
}

/// Serves the next, and gives the slot back.
pub struct Serve;

impl<S, F, E> Play<Option<S>, SeatView<F, E>> for Serve {
    ghost then = { gave_back };
}

/// Splits a seat off the one with the number 0.
pub struct Another;

impl<F, E> Split<SeatView<F, E>> for Another {
    ghost left = { left_of };

    ghost right = { right_of };
}

/// Joins a seat into the one with the number 0.
pub struct Gather;

impl<F, E> Join<SeatView<F, E>> for Gather {
    ghost both = { joined };

    ghost spent = { spent };
}
