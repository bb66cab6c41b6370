// The two parts of a row that is joined of two.
ghost use Rattle.std.specs.Prelude.{◌≡◌, ◌<◌, ◌++◌, length, slice_get, Some, IfOk, OnOk, OnErr};
ghost use Rattle.std.specs.Arc.{arc_value};
ghost use Rattle.std.specs.Option.{option_copied};
ghost use Rattle.pj_value.specs.Texts.{IsFront, values_spelling};

use crate::joined::JoinedParts;
use crate::parts::Part;
use crate::{List, NoMemory, Value};
use std::alloc::Global;
use std::marker::Model;
use std::sync::Arc;

// Two shared parts, seen as their values in order. They take no memory beside them.
#[derive(Drop)]
pub struct Pair {
    first: Arc<Part, Global>,
    second: Arc<Part, Global>,
    len: usize,
}

impl Model for Pair {
    ghost use Rattle.std.specs.Prelude.{◌≡◌, ◌++◌, List, length};
    ghost use Rattle.std.specs.Arc.{arc_value};
    ghost use Rattle.pj_value.specs.declared.values.Value.{Value as AnyValue};

    ghost Value = { List AnyValue };

    ghost view = { λ p. arc_value p.first ++ arc_value p.second };

    ghost invariant = { λ p. p.len ≡ length (arc_value p.first ++ arc_value p.second) };
}

impl Pair {
    // The pair of these parts; or `NoMemory` where they have more values than can be counted.
    pub(crate) fn of(first: Arc<Part, Global>, second: Arc<Part, Global>) -> Result<Pair, NoMemory>
        ensures { IfOk result (λ pair. pair ≡ arc_value first ++ arc_value second) }
    {
        match first.as_slice().len().checked_add(second.as_slice().len()) {
            None => Err(NoMemory),
            Some(len) => Ok(Pair { first, second, len }),
        }
    }

    // How many values there are.
    pub(crate) fn len(&self) -> usize
        ensures { result ≡ length self.now }
    {
        self.len
    }

    // The value at a place, counted from 0; `None` exactly where the place is not below the length.
    #[tactic(auto, using(crate::proofs::Slices::get_front, crate::proofs::Slices::get_behind))]
    pub(crate) fn get(&self, at: usize) -> Option<&Value>
        ensures { option_copied result ≡ slice_get self.now at }
    {
        let values = self.first.as_slice();
        if at < values.len() {
            return values.get(at);
        }
        self.second.as_slice().get(at - values.len())
    }

    // The value at a place, counted from 0 and below the length.
    #[tactic(auto, using(crate::proofs::Slices::item_front, crate::proofs::Slices::item_second))]
    pub(crate) fn at(&self, at: usize) -> &Value
        requires { at < length self.now }
        ensures { slice_get self.now at ≡ Some result.now }
    {
        let values = self.first.as_slice();
        if at < values.len() {
            return &values[at];
        }
        &self.second.as_slice()[at - values.len()]
    }

    // The values of each part.
    pub(crate) fn as_slices(&self) -> (&[Value], &[Value])
        ensures { result.0.now ++ result.1.now ≡ self.now }
    {
        (self.first.as_slice(), self.second.as_slice())
    }

    // Second handles of the same values.
    pub(crate) fn share(&self) -> Result<Pair, NoMemory>
        ensures { IfOk result (λ pair. pair ≡ self.now) }
    {
        Ok(Pair {
            first: Arc::try_clone(&self.first)?,
            second: Arc::try_clone(&self.second)?,
            len: self.len,
        })
    }

    // Puts second handles of its parts at the end. On a refusal the first may stand.
    pub(crate) fn join_to(&self, parts: &mut JoinedParts) -> Result<(), NoMemory>
        ensures ok { OnOk result (parts.new ≡ parts.old ++ self.now) }
        ensures err { OnErr result (IsFront parts.old parts.new) }
    {
        parts.push(Arc::try_clone(&self.first)?)?;
        parts.push(Arc::try_clone(&self.second)?)
    }

    // Appends the canonical spelling of each value behind a space. On a refusal some of it may stand.
    #[tactic(auto, using(crate::proofs::Spellings::spelled_both, crate::proofs::Spellings::first_stays))]
    pub(crate) fn spell(&self, alloc: Global, out: &mut List<u8>) -> Result<(), NoMemory>
        ensures ok { OnOk result (out.new ≡ out.old ++ values_spelling self.now) }
        ensures err { OnErr result (IsFront out.old out.new) }
    {
        self.first.spell(alloc, out)?;
        self.second.spell(alloc, out)
    }
}
