// A row: a list of values.
ghost use Rattle.std.specs.Prelude.{◌≡◌, ◌<◌, ◌↔◌, ◌++◌, length, slice_get, IsTrue, IfOk, IfSome, OnOk, OnErr, Some};
ghost use Rattle.std.specs.Arc.{arc_value};
ghost use Rattle.std.specs.Option.{option_copied};
ghost use Rattle.pj_value.specs.Texts.{IsFront, values_spelling};

use crate::copies::copy_values;
use crate::joined::JoinedParts;
use crate::pair::Pair;
use crate::parts::Part;
use crate::texts::values_text;
use crate::{List, NoMemory, Spelling, Value};
use std::alloc::Global;
use std::marker::Model;
use std::sync::Arc;

/// A row of a stream or of a result. A joined row holds its inputs' values, and copies none.
#[derive(Drop)]
pub struct Row {
    parts: Parts,
}

// Where the values of a row stand: in a list of its own, in a part that others may share, in two of these, or in several, in
// order.
#[derive(Drop)]
enum Parts {
    Own(List<Value>),
    Shared(Arc<Part, Global>),
    Both(Pair),
    Joined(JoinedParts),
}

impl Model for Row {
    ghost use Rattle.std.specs.Prelude.{List};
    ghost use Rattle.pj_value.specs.declared.values.Value.{Value as AnyValue};
    ghost use Rattle.pj_value.specs.Rows.{values_in};

    ghost Value = { List AnyValue };

    ghost view = { λ r. values_in r.parts };
}

impl Row {
    /// The row of these values, which are handed over.
    pub fn of(values: List<Value>) -> Row
        ensures { result ≡ values }
    {
        Row {
            parts: Parts::Own(values),
        }
    }

    /// The row of these values, which are handed over with their canonical spelling, each behind a space. A copy of it is a
    /// second handle.
    pub fn spelled(alloc: Global, values: List<Value>, spelling: Spelling) -> Result<Row, NoMemory>
        requires { spelling ≡ Some (values_spelling values) }
        ensures { IfOk result (λ r. r ≡ values) }
    {
        let part = Arc::new(alloc, Part::spelled(values, spelling))?;
        Ok(Row {
            parts: Parts::Shared(part),
        })
    }

    /// How many columns there are.
    pub fn len(&self) -> usize
        ensures { result ≡ length self.now }
    {
        match &self.parts {
            Parts::Own(values) => values.len(),
            Parts::Shared(part) => part.as_slice().len(),
            Parts::Both(pair) => pair.len(),
            Parts::Joined(parts) => parts.len(),
        }
    }

    /// The value of a column, counted from 0; `None` exactly where the column is not below the length.
    pub fn get(&self, column: usize) -> Option<&Value>
        ensures { option_copied result ≡ slice_get self.now column }
    {
        match &self.parts {
            Parts::Own(values) => values.get(column),
            Parts::Shared(part) => part.as_slice().get(column),
            Parts::Both(pair) => pair.get(column),
            Parts::Joined(parts) => parts.get(column),
        }
    }

    /// The value of a column, counted from 0 and below the length.
    pub fn at(&self, column: usize) -> &Value
        requires { column < length self.now }
        ensures { slice_get self.now column ≡ Some result.now }
    {
        match &self.parts {
            Parts::Own(values) => &values.as_slice()[column],
            Parts::Shared(part) => &part.as_slice()[column],
            Parts::Both(pair) => pair.at(column),
            Parts::Joined(parts) => parts.at(column),
        }
    }

    // All values in two slices, one behind the other; `None` where they stand in more pieces.
    pub(crate) fn as_slices(&self) -> Option<(&[Value], &[Value])>
        ensures { IfSome result (λ slices. slices.0.now ++ slices.1.now ≡ self.now) }
    {
        match &self.parts {
            Parts::Own(values) => Some((values.as_slice(), &[])),
            Parts::Shared(part) => Some((part.as_slice(), &[])),
            Parts::Both(pair) => Some(pair.as_slices()),
            Parts::Joined(_) => None,
        }
    }

    /// Whether both rows have the same values in the same order.
    #[tactic(auto, using(crate::proofs::Slices::same_front))]
    pub fn same(&self, other: &Row) -> bool
        ensures { IsTrue result ↔ (self.now ≡ other.now) }
    {
        if self.len() != other.len() {
            return false;
        }
        for column in 0..self.len() {
            if !self.at(column).same(other.at(column)) {
                return false;
            }
        }
        true
    }

    /// An equal row. Of a row that shares its values it is a second handle.
    pub fn copy(&self, alloc: Global) -> Result<Row, NoMemory>
        ensures { IfOk result (λ r. r ≡ self.now) }
    {
        match &self.parts {
            Parts::Own(values) => Ok(Row::of(copy_values(alloc, values.as_slice())?)),
            Parts::Shared(part) => {
                let part = Arc::try_clone(part)?;
                Ok(Row {
                    parts: Parts::Shared(part),
                })
            }
            Parts::Both(pair) => {
                let pair = pair.share()?;
                Ok(Row {
                    parts: Parts::Both(pair),
                })
            }
            Parts::Joined(parts) => {
                let parts = parts.share(alloc)?;
                Ok(Row {
                    parts: Parts::Joined(parts),
                })
            }
        }
    }

    /// The same row, which shares its values from now on, so that a copy of it is a second handle.
    pub fn share(self, alloc: Global) -> Result<Row, NoMemory>
        ensures { IfOk result (λ r. r ≡ self) }
    {
        let Row { parts } = self;
        match parts {
            Parts::Own(values) => {
                let part = Arc::new(alloc, Part::of(values))?;
                Ok(Row {
                    parts: Parts::Shared(part),
                })
            }
            Parts::Shared(part) => Ok(Row {
                parts: Parts::Shared(part),
            }),
            Parts::Both(pair) => Ok(Row {
                parts: Parts::Both(pair),
            }),
            Parts::Joined(parts) => Ok(Row {
                parts: Parts::Joined(parts),
            }),
        }
    }

    /// Appends the canonical spelling of each value behind a space. On a refusal `out` is as it was.
    pub fn spell(&self, alloc: Global, out: &mut List<u8>) -> Result<(), NoMemory>
        ensures ok { OnOk result (out.new ≡ out.old ++ values_spelling self.now) }
        ensures err { OnErr result (out.new ≡ out.old) }
    {
        let start = out.len();
        match self.append_spelling(alloc, out) {
            Ok(()) => Ok(()),
            Err(stop) => {
                out.truncate(start);
                Err(stop)
            }
        }
    }

    fn append_spelling(&self, alloc: Global, out: &mut List<u8>) -> Result<(), NoMemory>
        ensures ok { OnOk result (out.new ≡ out.old ++ values_spelling self.now) }
        ensures err { OnErr result (IsFront out.old out.new) }
    {
        match &self.parts {
            Parts::Own(values) => values_text(alloc, values.as_slice(), out),
            Parts::Shared(part) => part.spell(alloc, out),
            Parts::Both(pair) => pair.spell(alloc, out),
            Parts::Joined(parts) => parts.spell(alloc, out),
        }
    }

    /// The row of these parts' values.
    pub fn joined(parts: JoinedParts) -> Row
        ensures { result ≡ parts }
    {
        Row {
            parts: Parts::Joined(parts),
        }
    }

    /// The row of one row's values and then another's. Where both share theirs in one part each, it takes no memory.
    pub fn pair(alloc: Global, one: &Row, other: &Row) -> Result<Row, NoMemory>
        ensures { IfOk result (λ row. row ≡ one.now ++ other.now) }
    {
        match one.shared_part() {
            None => joined_row(alloc, one, other),
            Some(first) => match other.shared_part() {
                None => joined_row(alloc, one, other),
                Some(second) => {
                    let pair = Pair::of(Arc::try_clone(first)?, Arc::try_clone(second)?)?;
                    Ok(Row {
                        parts: Parts::Both(pair),
                    })
                }
            },
        }
    }

    // The one part in which its values stand, where others may share it.
    fn shared_part(&self) -> Option<&Arc<Part, Global>>
        ensures { IfSome result (λ part. arc_value part.now ≡ self.now) }
    {
        match &self.parts {
            Parts::Own(_) => None,
            Parts::Shared(part) => Some(part),
            Parts::Both(_) => None,
            Parts::Joined(_) => None,
        }
    }

    /// Puts the row's values at the end of the parts: second handles, where the row shares them. On a refusal what was there
    /// is, and some of the row's values may stand behind it.
    pub fn join_to(&self, alloc: Global, parts: &mut JoinedParts) -> Result<(), NoMemory>
        ensures ok { OnOk result (parts.new ≡ parts.old ++ self.now) }
        ensures err { OnErr result (IsFront parts.old parts.new) }
    {
        match &self.parts {
            Parts::Own(values) => {
                let part = Part::of(copy_values(alloc, values.as_slice())?);
                parts.push(Arc::new(alloc, part)?)
            }
            Parts::Shared(part) => parts.push(Arc::try_clone(part)?),
            Parts::Both(pair) => pair.join_to(parts),
            Parts::Joined(more) => parts.append(more),
        }
    }
}

fn joined_row(alloc: Global, one: &Row, other: &Row) -> Result<Row, NoMemory>
    ensures { IfOk result (λ row. row ≡ one.now ++ other.now) }
{
    let mut parts = JoinedParts::with_room(alloc, 2)?;
    one.join_to(alloc, &mut parts)?;
    other.join_to(alloc, &mut parts)?;
    Ok(Row::joined(parts))
}
