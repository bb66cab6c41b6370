// The cells of a line: blanks part them, and a quoted part may hold blanks.
ghost use Rattle.std.specs.Prelude.{◌≡◌, ◌<◌, [], length, slice_get, slice_index_or};
ghost use Rattle.pj_line.specs.Places.{cell_at, IsWithin};

use arrayvec::ArrayVec;
use std::marker::Model;

/// A cell of a line: its bytes, and their place in the line.
#[derive(Drop)]
pub struct Cell<'a> {
    pub bytes: &'a [u8],
    pub start: u32,
}

impl<'a> Model for Cell<'a> {
    ghost use Rattle.pj_line.specs.Spans.{Span};

    ghost Value = { Span };

    ghost view = { λ c. record { bytes = c.bytes.now; start = c.start } };
}

// Where a cell stands in its line: from its first byte up to the byte behind it.
#[derive(Clone, Copy, Default)]
pub(crate) struct Place {
    pub(crate) start: u32,
    pub(crate) end: u32,
}

/// The cells of a line, in order: at most 128.
#[derive(Drop)]
pub struct Cells<'a> {
    pub(crate) line: &'a [u8],
    pub(crate) places: ArrayVec<Place, 128>,
}

impl<'a> Model for Cells<'a> {
    ghost use Rattle.std.specs.Prelude.{List};
    ghost use Rattle.pj_line.specs.Spans.{Span};
    ghost use Rattle.pj_line.specs.Places.{cells_at, AreWithin};

    ghost Value = { List Span };

    ghost view = { λ c. cells_at c.line.now c.places.items };

    ghost invariant = { λ c. AreWithin c.line.now c.places.items };
}

impl<'a> Cells<'a> {
    /// The cells of an empty line: none.
    pub fn none() -> Cells<'a>
        ensures { result ≡ [] }
    {
        Cells {
            line: &[],
            places: ArrayVec::new(),
        }
    }

    /// How many cells there are.
    #[tactic(auto, using(crate::proofs::CellPlaces::cells_count))]
    pub fn len(&self) -> usize
        ensures { result ≡ length self.now }
    {
        self.places.len()
    }

    /// The cell at a place, counted from 0; `None` exactly where the place is not below the length.
    pub fn get(&self, at: usize) -> Option<Cell<'a>>
        ensures { result ≡ slice_get self.now at }
    {
        if at < self.len() {
            Some(self.cell(at))
        } else {
            None
        }
    }

    /// The cell at a place below the length, counted from 0.
    #[tactic(auto, using(crate::proofs::CellPlaces::cells_count))]
    pub fn cell(&self, at: usize) -> Cell<'a>
        requires { at < length self.now }
        ensures { result ≡ slice_index_or self.now at result }
    {
        cell_of(self.line, self.places[at])
    }
}

// The cell at this place of the line.
fn cell_of(line: &[u8], place: Place) -> Cell<'_>
    requires { IsWithin line.now place }
    ensures { result ≡ cell_at line.now place }
{
    let (front, _) = line.split_at(place.end as usize);
    let (_, bytes) = front.split_at(place.start as usize);
    Cell {
        bytes,
        start: place.start,
    }
}

/// Why a line is not cut into cells.
#[derive(Clone, Copy, Debug, PartialEq, Eq)]
pub enum CellFault {
    /// The line ends inside a quoted part, whose opening quote stands at this place.
    Unclosed { at: u32 },
    /// The line has more than 128 cells.
    TooMany,
}
