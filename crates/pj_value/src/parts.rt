// Values that rows may share.
ghost use Rattle.std.specs.Prelude.{◌≡◌, ◌++◌, Some, OnOk, OnErr};
ghost use Rattle.pj_value.specs.Texts.{IsFront, values_spelling};

use crate::texts::values_text;
use crate::{List, NoMemory, Spelling, Value};
use std::alloc::Global;
use std::marker::Model;

// Values, and their canonical spelling where it is kept.
#[derive(Drop)]
pub struct Part {
    values: List<Value>,
    spelling: Spelling,
}

impl Model for Part {
    ghost use Rattle.std.specs.Prelude.{◌≡◌, List, IfSome};
    ghost use Rattle.pj_value.specs.declared.values.Value.{Value as AnyValue};
    ghost use Rattle.pj_value.specs.Texts.{values_spelling};

    ghost Value = { List AnyValue };

    ghost view = { λ p. p.values };

    ghost invariant = { λ p. IfSome p.spelling (λ text. text ≡ values_spelling p.values) };
}

impl Part {
    // These values, whose spelling is not kept.
    pub fn of(values: List<Value>) -> Part
        ensures { result ≡ values }
    {
        Part {
            values,
            spelling: Spelling::none(),
        }
    }

    // These values with their spelling.
    pub fn spelled(values: List<Value>, spelling: Spelling) -> Part
        requires { spelling ≡ Some (values_spelling values) }
        ensures { result ≡ values }
    {
        Part { values, spelling }
    }

    // All values.
    pub fn as_slice(&self) -> &[Value]
        ensures { result.now ≡ self.now }
    {
        self.values.as_slice()
    }

    // Appends the canonical spelling of each value behind a space. On a refusal some of it may stand.
    pub fn spell(&self, alloc: Global, out: &mut List<u8>) -> Result<(), NoMemory>
        ensures ok { OnOk result (out.new ≡ out.old ++ values_spelling self.now) }
        ensures err { OnErr result (IsFront out.old out.new) }
    {
        match self.spelling.bytes() {
            None => values_text(alloc, self.values.as_slice(), out),
            Some(bytes) => out.append(bytes),
        }
    }
}
