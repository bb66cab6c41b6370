// Prints of cells.
ghost use Rattle.std.specs.Prelude.{◌≡◌};
ghost use Rattle.std.specs.Option.{option_copied};
ghost use Rattle.pj_puncts.specs.Hashes.{with_cell};

use pj_hash::with_value;
use pj_value::Value;

/// The hash with that of a cell more, where this is marked and has a value.
pub fn with_cell(hash_value: u64, is_marked: bool, cell: Option<&Value>) -> u64
    ensures { result ≡ with_cell hash_value is_marked (option_copied cell.entry) }
{
    if !is_marked {
        return hash_value;
    }
    match cell {
        None => hash_value,
        Some(value) => with_value(hash_value, value),
    }
}
