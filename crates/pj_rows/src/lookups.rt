// Where rows are looked up.
ghost use Rattle.std.specs.Prelude.{IfSome};
ghost use Rattle.pj_events.specs.Join.{In};

use pj_shape::ClassCol;
use pj_value::Value;

/// A column, and a value in it.
#[derive(Clone, Copy)]
pub struct Lookup<'a> {
    pub column: u32,
    pub value: &'a Value,
}

/// The first column of an input in a class.
pub fn column_in(class: &[ClassCol], input: usize) -> Option<u32>
    ensures { IfSome result (λ column. In (record { input = input; column = column }) class.now) }
{
    for at in class {
        if at.input as usize == input {
            return Some(at.column);
        }
    }
    None
}
