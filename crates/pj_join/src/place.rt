// Where a tuple stands among those that are stored.
ghost use Rattle.std.specs.Prelude.{◌≡◌};
ghost use Rattle.pj_join.specs.Sides.{arrived_at, first_of};

use pj_rows::Arrived;
use pj_state::{Remaining, State};

/// Where a stored tuple stands: under its ticket among those of its input.
#[derive(Clone, Copy)]
pub struct Place {
    pub ticket: u64,
    pub input: u32,
}

// The tuple that stands at a place; `None` exactly where none does.
fn arrived<'a>(row_states: &'a [State], place: Place) -> Option<Arrived<'a>>
    ensures { result ≡ arrived_at row_states.now place }
{
    match row_states.get(place.input as usize) {
        None => None,
        Some(state) => match state.get(place.ticket) {
            None => None,
            Some(row) => Some(Arrived::of(place.ticket, place.input, row)),
        },
    }
}

/// The tuple that stands at the first of these places.
pub fn first_pending<'a>(row_states: &'a [State], pending: &Remaining<Place>) -> Option<Arrived<'a>>
    ensures { result ≡ first_of row_states.now pending.now }
{
    match pending.as_slice().split_first() {
        None => None,
        Some((place, _)) => arrived(row_states, *place),
    }
}
