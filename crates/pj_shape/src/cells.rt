// Whether cells of rows have one value, and whether a class has a column.
ghost use Rattle.std.specs.Prelude.{◌≡◌, []};
ghost use Rattle.std.specs.Option.{option_copied};
ghost use Rattle.pj_value.specs.declared.values.Value.{Value as AnyValue};
ghost use Rattle.pj_value.specs.Values.{value_eq};
ghost use Rattle.pj_shape.specs.Joining.{cell_value, has_column, value_at};

use crate::ClassCol;
use pj_value::{Row, Value};

/// Whether the class has the column.
pub fn has_column(class: &[ClassCol], at: ClassCol) -> bool
    ensures { result ≡ has_column class.now at }
{
    class
        .iter()
        .any(|c| c.input == at.input && c.column == at.column)
}

/// Whether both cells have one value. A cell that is not there has the empty text.
#[inline(always)]
pub fn same_cells(a: Option<&Value>, b: Option<&Value>) -> bool
    ensures { result ≡ value_eq (cell_value (option_copied a.entry)) (cell_value (option_copied b.entry)) }
{
    match a {
        None => match b {
            None => true,
            Some(w) => is_empty(w),
        },
        Some(v) => match b {
            None => is_empty(v),
            Some(w) => same_value(v, w),
        },
    }
}

/// Whether both rows have one value in these columns. A column that is not there has the empty text.
#[inline(always)]
pub fn same_cell(a: &Row, i: u32, b: &Row, j: u32) -> bool
    ensures { result ≡ value_eq (value_at a.now i) (value_at b.now j) }
{
    same_cells(a.get(i as usize), b.get(j as usize))
}

// Whether both are one value. Integers are compared in place.
#[inline(always)]
fn same_value(v: &Value, w: &Value) -> bool
    ensures { result ≡ value_eq v.now w.now }
{
    match v {
        Value::Int(a) => match w {
            Value::Int(b) => *a == *b,
            Value::Text(_) => false,
        },
        Value::Text(_) => v.same(w),
    }
}

#[inline(always)]
fn is_empty(value: &Value) -> bool
    ensures { result ≡ value_eq value.now (AnyValue.Text []) }
{
    match value {
        Value::Int(_) => false,
        Value::Text(text) => text.len() == 0,
    }
}
