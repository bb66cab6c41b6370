// Values in memory are integers of 64 bits and texts of bytes, which can be spelled and read again. The functions here only look,
// for a proof.
ghost use Rattle.std.specs.Prelude.{◌<◌};
ghost use Rattle.std.specs.List.{AllByRecursion};
ghost use Rattle.pj_value.specs.Storable.{AreStorable, IsStorable};

use crate::rows::Row;
use crate::values::Value;

fn see_bytes(bytes: &[u8])
    ensures { AllByRecursion (λ b. b < 256) bytes.now }
{}

/// The value is storable.
pub fn see_value(value: &Value)
    ensures { IsStorable value.now }
{
    match value {
        Value::Int(number) => {
            let _number = *number;
        }
        Value::Text(text) => see_bytes(text.as_slice()),
    }
}

/// These values are storable.
#[tactic(auto, using(crate::proofs::StorableValues::storable_more, crate::proofs::StorableValues::storable_end))]
pub fn see_values(values: &[Value])
    ensures { AreStorable values.now }
{
    for value in values {
        see_value(value);
    }
}

// The same, one column after the other.
#[tactic(auto, using(crate::proofs::StorableValues::storable_at, crate::proofs::StorableValues::storable_end))]
fn see_columns(row: &Row)
    ensures { AreStorable row.now }
{
    for column in 0..row.len() {
        see_value(row.at(column));
    }
}

/// The values of a row are storable. A loop over slices that only looks is left out of the program.
#[tactic(auto, using(crate::proofs::StorableValues::storable_both))]
pub fn see_row(row: &Row)
    ensures { AreStorable row.now }
{
    match row.as_slices() {
        None => see_columns(row),
        Some((first, second)) => {
            see_values(first);
            see_values(second);
        }
    }
}
