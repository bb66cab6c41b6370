// A value: an integer or a string of bytes.
ghost use Rattle.std.specs.Prelude.{◌≡◌, ◌↔◌, IfOk, IsTrue};
ghost use Rattle.pj_value.specs.Values.{is_kind, kind_of, value_cmp, value_eq};

use crate::{NoMemory, SharedText};
use std::alloc::Global;
use std::cmp::Ordering;

/// What a column holds.
#[derive(Clone, Copy, Debug, PartialEq, Eq)]
pub enum Kind {
    Int,
    Text,
}

/// A value of a column. A text has any bytes, fewer than 2^32: no encoding is asked for.
#[derive(Drop)]
pub enum Value {
    Int(i64),
    Text(SharedText),
}

impl Value {
    /// Whether it is an integer or a text.
    pub fn kind(&self) -> Kind
        ensures { result ≡ kind_of self.now }
    {
        match self {
            Value::Int(_) => Kind::Int,
            Value::Text(_) => Kind::Text,
        }
    }

    /// Whether it is of the kind.
    pub fn is_of(&self, kind: Kind) -> bool
        ensures { result ≡ is_kind kind self.now }
    {
        match (kind, self) {
            (Kind::Int, Value::Int(_)) => true,
            (Kind::Int, Value::Text(_)) => false,
            (Kind::Text, Value::Int(_)) => false,
            (Kind::Text, Value::Text(_)) => true,
        }
    }

    /// Integers by size, texts bytewise with a proper prefix first, every integer before every text.
    pub fn order(&self, other: &Value) -> Ordering
        ensures { result ≡ value_cmp self.now other.now }
    {
        match (self, other) {
            (Value::Int(a), Value::Int(b)) => a.cmp(b),
            (Value::Int(_), Value::Text(_)) => Ordering::Less,
            (Value::Text(_), Value::Int(_)) => Ordering::Greater,
            (Value::Text(a), Value::Text(b)) => a.as_slice().cmp(b.as_slice()),
        }
    }

    /// Whether both are one value.
    pub fn same(&self, other: &Value) -> bool
        ensures same { IsTrue result ↔ (self.now ≡ other.now) }
        ensures test { result ≡ value_eq self.now other.now }
    {
        match (self, other) {
            (Value::Int(a), Value::Int(b)) => *a == *b,
            (Value::Text(a), Value::Text(b)) => a.as_slice() == b.as_slice(),
            _ => false,
        }
    }

    /// An equal value: of a text a second handle.
    pub fn copy(&self, _alloc: Global) -> Result<Value, NoMemory>
        ensures { IfOk result (λ v. v ≡ self.now) }
    {
        match self {
            Value::Int(a) => Ok(Value::Int(*a)),
            Value::Text(a) => Ok(Value::Text(a.share()?)),
        }
    }
}
