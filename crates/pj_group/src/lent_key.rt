// Keys of groups that are looked up without being made.
ghost use Rattle.std.specs.Prelude.{◌≡◌, ◌<◌, ◌↔◌, All, IfOk, IsTrue, Some, length, slice_get};
ghost use Rattle.std.proofs.Common.{ap};
ghost use Rattle.std.specs.Cmp.{decided, partial_equiv_from_equiv};
ghost use Rattle.std.specs.Hash as fed;
ghost use Rattle.pj_value.specs.Values.{row_eq};
ghost use Rattle.pj_value.proofs.Orders.{row_equal_where_same, row_same_if_equal};
ghost use Rattle.pj_events.specs.Operators.{picked_cells};
ghost use Rattle.pj_group.specs.Hashes.{hash_of};

use crate::keys::Key;
use indexmap::Equivalent;
use pj_flow::cell;
use pj_hash::with_value;
use pj_value::{NoMemory, Row, Value};
use std::alloc::Global;
use std::hash::{Hash, Hasher};
use std::marker::Model;

/// The key of a row, lent: the row's values in the columns of a group.
#[derive(Drop)]
pub struct LentKey<'a> {
    columns: &'a [u32],
    row: &'a Row,
}

impl<'a> Model for LentKey<'a> {
    ghost use Rattle.std.specs.Prelude.{◌<◌, All, List, length};
    ghost use Rattle.pj_value.specs.declared.values.Value.{Value as AnyValue};
    ghost use Rattle.pj_events.specs.Operators.{picked_cells};

    ghost Value = { List AnyValue };

    ghost view = { λ k. picked_cells k.columns.now k.row.now };

    ghost invariant = { λ k. All (λ column. column < length k.row.now) k.columns.now };
}

impl<'a> LentKey<'a> {
    /// The key of a row in these columns.
    pub fn of(columns: &'a [u32], row: &'a Row) -> LentKey<'a>
        requires { All (λ column. column < length row.now) columns.now }
        ensures { result ≡ picked_cells columns.now row.now }
    {
        LentKey { columns, row }
    }

    /// The key itself. A text is shared and not copied.
    pub fn key(&self, alloc: Global) -> Result<Key, NoMemory>
        ensures { IfOk result (λ key. key ≡ self.now) }
    {
        Key::of(alloc, self.columns, self.row)
    }

    fn len(&self) -> usize
        ensures { result ≡ length self.now }
    {
        self.columns.len()
    }

    fn at(&self, at: usize) -> &Value
        requires { at < length self.now }
        ensures { slice_get self.now at ≡ Some result.now }
    {
        cell(self.row, self.columns[at])
    }

    fn hash_value(&self) -> u64
        ensures { result ≡ hash_of self.now }
    {
        let mut hash_value = 0;
        for at in 0..self.len() {
            hash_value = with_value(hash_value, self.at(at));
        }
        hash_value
    }

    #[tactic(auto, using(pj_value::proofs::Slices::same_front))]
    fn same(&self, other: &LentKey<'a>) -> bool
        ensures { IsTrue result ↔ (self.now ≡ other.now) }
    {
        if self.len() != other.len() {
            return false;
        }
        for at in 0..self.len() {
            if !self.at(at).same(other.at(at)) {
                return false;
            }
        }
        true
    }

    #[tactic(auto, using(pj_value::proofs::Slices::same_front))]
    fn is(&self, key: &Row) -> bool
        ensures { IsTrue result ↔ (self.now ≡ key.now) }
    {
        if self.len() != key.len() {
            return false;
        }
        for at in 0..self.len() {
            if !self.at(at).same(key.at(at)) {
                return false;
            }
        }
        true
    }
}

impl<'a> PartialEq for LentKey<'a> {
    ghost eq = { row_eq };

    ghost laws = { partial_equiv_from_equiv (decided row_eq row_equal_where_same) };

    fn eq(&self, other: &LentKey<'a>) -> bool {
        self.same(other)
    }
}

impl<'a> Eq for LentKey<'a> {
    ghost laws = { decided row_eq row_equal_where_same };
}

impl<'a> Hash for LentKey<'a> {
    ghost hash_input = { λ key. fed.u64 (hash_of key) };

    ghost respects_eq = { λ x y t. ap (λ key. fed.u64 (hash_of key)) (row_same_if_equal x y t) };

    fn hash<H: Hasher>(&self, state: &mut H) {
        state.write_u64(self.hash_value());
    }
}

impl<'a> Equivalent<Key> for &LentKey<'a> {
    ghost equivalent = { λ q. row_eq q.now };

    ghost respects_hash = { λ q k t. ap (λ key. fed.u64 (hash_of key)) (row_same_if_equal q.now k t) };

    ghost respects_eq = { λ q. (decided row_eq row_equal_where_same).congr q.now };

    fn equivalent(&self, key: &Key) -> bool {
        self.is(key.row())
    }
}
