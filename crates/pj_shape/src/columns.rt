// The columns of a stream, and the schemes of its punctuations.
ghost use Rattle.std.specs.Prelude.{◌≡◌, ◌<◌, Some, length, slice_get, IfOk};

use pj_value::{Bytes, Kind, List, NoMemory, TryClone, Value};
use std::alloc::Global;
use std::marker::Model;

/// A column: its name, and the kind of its values.
#[derive(Drop)]
pub struct Column {
    pub name: Bytes,
    pub kind: Kind,
}

/// The columns of a stream or of a node, in order, seen as their list.
#[derive(Drop)]
pub struct Schema {
    columns: List<Column>,
}

impl Model for Schema {
    ghost use Rattle.std.specs.Prelude.{List};
    ghost use Rattle.pj_shape.specs.declared.columns.Column.{Column};

    ghost Value = { List Column };

    ghost view = { λ s. s.columns };
}

/// A punctuation scheme: for each column whether it is marked, seen as the list of these truth values.
#[derive(Drop)]
pub struct Scheme {
    marks: List<bool>,
}

impl Model for Scheme {
    ghost use Rattle.std.specs.Prelude.{List, Bool};

    ghost Value = { List Bool };

    ghost view = { λ s. s.marks };
}

/// For each input the list of its schemes, seen as the list of these lists.
#[derive(Drop)]
pub struct Schemes {
    lists: List<List<Scheme>>,
}

impl Model for Schemes {
    ghost use Rattle.std.specs.Prelude.{List, Bool};

    ghost Value = { List (List (List Bool)) };

    ghost view = { λ s. s.lists };
}

/// An instance of a scheme of an input: its constants in order of the marked columns.
#[derive(Drop)]
pub struct Instance {
    pub input: u32,
    pub scheme: u32,
    pub constants: List<Value>,
}

impl Schema {
    /// The schema of these columns.
    pub fn of(items: List<Column>) -> Schema
        ensures { result ≡ items }
    {
        Schema { columns: items }
    }

    /// The number of columns.
    pub fn len(&self) -> usize
        ensures { result ≡ length self.now }
    {
        self.columns.len()
    }

    /// The column at a place below the length.
    pub fn at(&self, place: usize) -> &Column
        requires { place < length self.now }
        ensures { slice_get self.now place ≡ Some result.now }
    {
        &self.columns.as_slice()[place]
    }

    /// The columns as a slice.
    pub fn columns(&self) -> &[Column]
        ensures { result.now ≡ self.now }
    {
        self.columns.as_slice()
    }

    /// An equal schema.
    pub fn copy(&self, alloc: Global) -> Result<Schema, NoMemory>
        ensures { IfOk result (λ copy. copy ≡ self.now) }
    {
        Ok(Schema {
            columns: self.columns.try_clone(alloc)?,
        })
    }
}

impl Scheme {
    /// The scheme of these marks.
    pub fn of(items: List<bool>) -> Scheme
        ensures { result ≡ items }
    {
        Scheme { marks: items }
    }

    /// The number of columns, marked or not.
    pub fn len(&self) -> usize
        ensures { result ≡ length self.now }
    {
        self.marks.len()
    }

    /// Whether the column at a place below the length is marked.
    pub fn at(&self, place: usize) -> &bool
        requires { place < length self.now }
        ensures { slice_get self.now place ≡ Some result.now }
    {
        &self.marks.as_slice()[place]
    }

    /// An equal scheme.
    pub fn copy(&self, alloc: Global) -> Result<Scheme, NoMemory>
        ensures { IfOk result (λ copy. copy ≡ self.now) }
    {
        Ok(Scheme {
            marks: List::copy_of(alloc, self.marks.as_slice())?,
        })
    }
}

impl Schemes {
    /// The schemes of inputs that have these lists.
    pub fn of(items: List<List<Scheme>>) -> Schemes
        ensures { result ≡ items }
    {
        Schemes { lists: items }
    }

    /// The number of inputs.
    pub fn len(&self) -> usize
        ensures { result ≡ length self.now }
    {
        self.lists.len()
    }

    /// The schemes of the input at a place below the length.
    pub fn at(&self, place: usize) -> &List<Scheme>
        requires { place < length self.now }
        ensures { slice_get self.now place ≡ Some result.now }
    {
        &self.lists.as_slice()[place]
    }

    /// Equal schemes.
    pub fn copy(&self, alloc: Global) -> Result<Schemes, NoMemory>
        ensures { IfOk result (λ copy. copy ≡ self.now) }
    {
        Ok(Schemes {
            lists: self.lists.try_clone(alloc)?,
        })
    }
}

impl TryClone for Column {
    fn try_clone(&self, alloc: Global) -> Result<Column, NoMemory> {
        Ok(Column {
            name: List::copy_of(alloc, self.name.as_slice())?,
            kind: self.kind,
        })
    }
}

impl TryClone for Schema {
    fn try_clone(&self, alloc: Global) -> Result<Schema, NoMemory> {
        self.copy(alloc)
    }
}

impl TryClone for Scheme {
    fn try_clone(&self, alloc: Global) -> Result<Scheme, NoMemory> {
        self.copy(alloc)
    }
}
