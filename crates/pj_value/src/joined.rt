// The parts of a row that is joined of others.
ghost use Rattle.std.specs.Prelude.{◌≡◌, ◌<◌, ◌≤◌, ◌+◌, ◌++◌, [], length, drop, take, slice_get, Some, IfOk, OnOk, OnErr};
ghost use Rattle.std.specs.Arc.{arc_value};
ghost use Rattle.std.specs.Option.{option_copied};
ghost use Rattle.pj_value.specs.Parts.{flat_parts};
ghost use Rattle.pj_value.specs.Texts.{IsFront, values_spelling};

use crate::parts::Part;
use crate::{List, NoMemory, Value};
use std::alloc::Global;
use std::marker::Model;
use std::sync::Arc;

/// The parts of a row that is joined of other rows, seen as the values in them, in order. It shares the values of rows that
/// share them, and copies none of theirs.
#[derive(Drop)]
pub struct JoinedParts {
    parts: List<Arc<Part, Global>>,
    len: usize,
}

impl Model for JoinedParts {
    ghost use Rattle.std.specs.Prelude.{◌≡◌, List, length};
    ghost use Rattle.pj_value.specs.declared.values.Value.{Value as AnyValue};
    ghost use Rattle.pj_value.specs.Parts.{flat_parts};

    ghost Value = { List AnyValue };

    ghost view = { λ j. flat_parts j.parts };

    ghost invariant = { λ j. j.len ≡ length (flat_parts j.parts) };
}

impl JoinedParts {
    /// No values, with room for so many parts; or `NoMemory`.
    pub fn with_room(alloc: Global, count: usize) -> Result<JoinedParts, NoMemory>
        ensures { IfOk result (λ parts. parts ≡ []) }
    {
        Ok(JoinedParts {
            parts: List::with_room(alloc, count)?,
            len: 0,
        })
    }

    /// How many values there are.
    pub(crate) fn len(&self) -> usize
        ensures { result ≡ length self.now }
    {
        self.len
    }

    // Puts the values of a part at the end; on a refusal all is as it was.
    pub(crate) fn push(&mut self, part: Arc<Part, Global>) -> Result<(), NoMemory>
        ensures ok { OnOk result (self.new ≡ self.old ++ arc_value part) }
        ensures err { OnErr result (self.new ≡ self.old) }
    {
        match self.len.checked_add(part.as_slice().len()) {
            None => Err(NoMemory),
            Some(len) => {
                self.parts.push(part)?;
                self.len = len;
                Ok(())
            }
        }
    }

    // Puts the values of these parts at the end. On a refusal some of them may stand.
    pub(crate) fn append(&mut self, more: &JoinedParts) -> Result<(), NoMemory>
        ensures ok { OnOk result (self.new ≡ self.old ++ more.now) }
        ensures err { OnErr result (IsFront self.old self.new) }
    {
        for part in more.parts.as_slice() {
            self.push(Arc::try_clone(part)?)?;
        }
        Ok(())
    }

    // Second handles of the same values.
    pub(crate) fn share(&self, alloc: Global) -> Result<JoinedParts, NoMemory>
        ensures { IfOk result (λ parts. parts ≡ self.now) }
    {
        let mut copy = JoinedParts::with_room(alloc, self.parts.len())?;
        copy.append(self)?;
        Ok(copy)
    }

    // The value at a place, counted from 0; `None` exactly where the place is not below the length.
    pub(crate) fn get(&self, at: usize) -> Option<&Value>
        ensures { option_copied result ≡ slice_get self.now at }
    {
        let mut left = at;
        for part in self.parts.as_slice() {
            let values = part.as_slice();
            if left < values.len() {
                return Some(&values[left]);
            }
            left -= values.len();
        }
        None
    }

    // The value at a place, counted from 0 and below the length.
    pub(crate) fn at(&self, at: usize) -> &Value
        requires { at < length self.now }
        ensures { slice_get self.now at ≡ Some result.now }
    {
        let mut part = 0;
        let mut left = at;
        let parts = self.parts.as_slice();
        loop {
            let values = parts[part].as_slice();
            if left < values.len() {
                return &values[left];
            }
            left -= values.len();
            part += 1;
        }
    }

    // Appends the canonical spelling of each value behind a space. On a refusal some of it may stand.
    pub(crate) fn spell(&self, alloc: Global, out: &mut List<u8>) -> Result<(), NoMemory>
        ensures ok { OnOk result (out.new ≡ out.old ++ values_spelling self.now) }
        ensures err { OnErr result (IsFront out.old out.new) }
    {
        for part in self.parts.as_slice() {
            part.spell(alloc, out)?;
        }
        Ok(())
    }
}
