//! Values, rows and growable lists, how they are copied and ordered, and the canonical spelling of a value.
#![tactic(auto)]

mod copies;
mod joined;
mod laws;
mod lists;
mod pair;
mod parts;
mod rows;
mod shared_text;
mod spelling;
mod storable;
mod texts;
mod values;

pub use copies::{TryClone, copy_items, copy_values};
pub use joined::JoinedParts;
pub use laws::{bags_count_rows, spellings_are_printable, values_are_ordered};
pub use lists::{Bytes, List, NoMemory};
pub use rows::Row;
pub use shared_text::SharedText;
pub use spelling::Spelling;
pub use storable::{see_row, see_value, see_values};
pub use texts::{plain_len, value_text};
pub use values::{Kind, Value};
