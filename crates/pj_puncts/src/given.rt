// A register of lent values.
ghost use Rattle.std.specs.Prelude.{◌≡◌, ◌<◌, [], ◌∷◌, ◌++◌, length, slice_get};
ghost use Rattle.std.specs.Option.{option_copied};

use arrayvec::ArrayVec;
use pj_value::Value;
use std::marker::Model;

// A place of a register: a value that is lent, or none where the place is not used.
#[derive(Drop)]
struct LentValue<'a> {
    value: Option<&'a Value>,
}

impl<'a> Model for LentValue<'a> {
    ghost use Rattle.std.specs.Prelude.{Option};
    ghost use Rattle.std.specs.Option.{option_copied};
    ghost use Rattle.pj_value.specs.declared.values.Value.{Value as AnyValue};

    ghost Value = { Option AnyValue };

    ghost view = { λ l. option_copied l.value };
}

impl<'a> Default for LentValue<'a> {
    fn default() -> LentValue<'a> {
        LentValue { value: None }
    }
}

/// At most 120 values, lent, seen as their list: the constants of an instance of a punctuation scheme, in order of columns.
#[derive(Drop)]
pub struct Given<'a> {
    values: ArrayVec<LentValue<'a>, 120>,
}

impl<'a> Model for Given<'a> {
    ghost use Rattle.std.specs.Prelude.{List};
    ghost use Rattle.pj_value.specs.declared.values.Value.{Value as AnyValue};
    ghost use Rattle.pj_puncts.specs.Givens.{lent, AreLent};

    ghost Value = { List AnyValue };

    ghost view = { λ g. lent g.values.items };

    ghost invariant = { λ g. AreLent g.values.items };
}

impl<'a> Given<'a> {
    /// No values.
    pub fn new() -> Given<'a>
        ensures { result ≡ [] }
    {
        Given {
            values: ArrayVec::new(),
        }
    }

    /// One more value at the end, where fewer than 120 are there.
    pub fn push(&mut self, value: &'a Value)
        requires { length self.old < 120 }
        ensures { self.new ≡ self.old ++ value.now ∷ [] }
    {
        self.values.push(LentValue { value: Some(value) });
    }

    /// How many values there are.
    pub fn len(&self) -> usize
        ensures { result ≡ length self.now }
    {
        self.values.len()
    }

    /// The value at a place, counted from 0; `None` exactly where the place is not below the length.
    pub fn get(&self, at: usize) -> Option<&Value>
        ensures { option_copied result ≡ slice_get self.now at }
    {
        if at >= self.values.len() {
            return None;
        }
        let place = &self.values.as_slice()[at];
        place.value
    }
}
