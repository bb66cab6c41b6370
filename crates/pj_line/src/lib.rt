//! Lines of a file and cells of a line, lent without copying.
#![tactic(auto)]

mod buffer;
mod cell;
mod cutting;
mod held;
mod laws;
mod lines;
mod pieces;
mod quote;
mod reading;
mod splitting;
mod window;

pub use buffer::{Line, LineBuf, LineStop};
pub use cell::{Cell, CellFault, Cells};
pub use cutting::{after, cells, cut_into, is_outside};
pub use laws::line_bytes;
pub use lines::{is_blank, is_skipped, line_of_piece};
pub use quote::Quote;
pub use splitting::first_piece;
