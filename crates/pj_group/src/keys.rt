// Keys of groups, and values of their columns.
ghost use Rattle.std.specs.Prelude.{◌≡◌, ◌<◌, All, IfOk, IfSome, length};
ghost use Rattle.pj_value.specs.Values.{row_eq, value_eq};
ghost use Rattle.pj_events.specs.Operators.{picked_cells};
ghost use Rattle.pj_group.specs.Slots.{MatchesOnly};
ghost use Rattle.pj_hash.specs.Hashes.{with_value};
ghost use Rattle.pj_group.specs.Hashes.{hash_of};
ghost use Rattle.std.specs.Cmp.{decided, partial_equiv_from_equiv};
ghost use Rattle.std.proofs.Common.{ap};
ghost use Rattle.pj_value.proofs.Orders.{equal_if_same, row_equal_if_same, row_same_if_equal, same_if_equal};
ghost use Rattle.std.specs.Hash as fed;

use pj_flow::project_tuple;
use pj_hash::with_value;
use pj_pattern::{Punct, Shape};
use pj_value::{List, NoMemory, Row, Value};
use std::alloc::Global;
use std::hash::{Hash, Hasher};
use std::marker::Model;

/// The values of a row in the columns of a group.
#[derive(Drop)]
pub struct Key {
    row: Row,
}

impl Model for Key {
    ghost use Rattle.std.specs.Prelude.{List};
    ghost use Rattle.pj_value.specs.declared.values.Value.{Value as AnyValue};

    ghost Value = { List AnyValue };

    ghost view = { λ k. k.row };
}

impl Key {
    /// The key of a row in these columns. A text is shared and not copied.
    pub fn of(alloc: Global, columns: &[u32], row: &Row) -> Result<Key, NoMemory>
        requires { All (λ column. column < length row.now) columns.now }
        ensures { IfOk result (λ key. key ≡ picked_cells columns.now row.now) }
    {
        Ok(Key {
            row: project_tuple(alloc, columns, row)?,
        })
    }

    /// The key that a punctuation of constants matches; `None` where it has another pattern.
    pub fn of_constants(alloc: Global, punct: &Punct) -> Result<Option<Key>, NoMemory>
        ensures { IfOk result (λ key. IfSome key (MatchesOnly punct.now)) }
    {
        let mut values = List::new(alloc);
        for pattern in punct.as_slice() {
            match pattern.shape() {
                Shape::Constant(value) => values.push(value.copy(alloc)?)?,
                _ => return Ok(None),
            }
        }
        Ok(Some(Key {
            row: Row::of(values),
        }))
    }

    /// Its values.
    pub fn row(&self) -> &Row
        ensures { result.now ≡ self.now }
    {
        &self.row
    }
}

impl PartialEq for Key {
    ghost eq = { row_eq };

    ghost laws = { partial_equiv_from_equiv (decided row_eq (λ x y. (row_same_if_equal x y, row_equal_if_same x y))) };

    fn eq(&self, other: &Key) -> bool {
        self.row.same(&other.row)
    }
}

impl Eq for Key {
    ghost laws = { decided row_eq (λ x y. (row_same_if_equal x y, row_equal_if_same x y)) };
}

impl Hash for Key {
    ghost hash_input = { λ key. fed.u64 (hash_of key) };

    ghost respects_eq = { λ x y t. ap (λ key. fed.u64 (hash_of key)) (row_same_if_equal x y t) };

    fn hash<H: Hasher>(&self, state: &mut H) {
        state.write_u64(hash_value(&self.row));
    }
}

/// A value of a key column, by which groups are looked up.
#[derive(Drop)]
pub struct ColumnValue {
    value: Value,
}

impl Model for ColumnValue {
    ghost use Rattle.pj_value.specs.declared.values.Value.{Value as AnyValue};

    ghost Value = { AnyValue };

    ghost view = { λ v. v.value };
}

impl ColumnValue {
    /// The same value. A text is shared and not copied.
    pub fn of(alloc: Global, value: &Value) -> Result<ColumnValue, NoMemory>
        ensures { IfOk result (λ v. v ≡ value.now) }
    {
        Ok(ColumnValue {
            value: value.copy(alloc)?,
        })
    }
}

impl PartialEq for ColumnValue {
    ghost eq = { value_eq };

    ghost laws = { partial_equiv_from_equiv (decided value_eq (λ x y. (same_if_equal x y, equal_if_same x y))) };

    fn eq(&self, other: &ColumnValue) -> bool {
        self.value.same(&other.value)
    }
}

impl Eq for ColumnValue {
    ghost laws = { decided value_eq (λ x y. (same_if_equal x y, equal_if_same x y)) };
}

impl Hash for ColumnValue {
    ghost hash_input = { λ v. fed.u64 (with_value 0 v) };

    ghost respects_eq = { λ x y t. ap (λ v. fed.u64 (with_value 0 v)) (same_if_equal x y t) };

    fn hash<H: Hasher>(&self, state: &mut H) {
        state.write_u64(with_value(0, &self.value));
    }
}

fn hash_value(row: &Row) -> u64
    ensures { result ≡ hash_of row.now }
{
    let mut hash_value = 0;
    for column in 0..row.len() {
        hash_value = with_value(hash_value, row.at(column));
    }
    hash_value
}
