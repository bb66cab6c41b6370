// Rows that show why an input of a join is stuck.
ghost use Rattle.std.specs.Prelude.{◌≡◌, ◌<◌, ◌≤◌, ◌^◌, ◌∷◌, [], IfOk, length, true};
ghost use Rattle.pj_shape.specs.Columns.{domains_of};
ghost use Rattle.pj_shape.specs.Joining.{value_at};
ghost use Rattle.pj_shape.specs.Sound.{IsSoundSpec, FitSchemes};
ghost use Rattle.pj_pattern.specs.Fitting.{row_fits};
ghost use Rattle.pj_shape.specs.Sets.{IsClosed};
ghost use Rattle.pj_cert.specs.Instances.{AreInstances, blank as blank_of, constants_of};
ghost use Rattle.pj_cert.specs.Escaping.{Escapes, escape_rows, class_value as value_of_class, class_with as class_of, column_of as column_in, column_value as value_of_column};
ghost use Rattle.pj_cert.specs.Escaping.{fresh, other_value as value_of_other, row_of as row_for, rows_from, values_from};
ghost use Rattle.pj_cert.specs.Laws.{schema_of};
ghost use Rattle.pj_value.specs.Lists.{has};

use crate::fresh::{fresh_number, fresh_text};
use pj_graph::touches;
use pj_shape::{ClassCol, Instance, JoinSpec, Schema, Schemes, has_column};
use pj_value::{Kind, List, NoMemory, Row, SharedText, Value};
use std::alloc::Global;
use std::marker::Model;

/// Why an input of a join is stuck: one row for each input, this row at this input, that join, and of which none of an input
/// that is not reached matches a listed instance. So no list of instances of those inputs can end the need for the row.
///
/// A class with a column of the input has the row's value. Any other class with a column of a reached input, and any column
/// of a reached input outside all classes, has 0 or the empty text. All else has a fresh value: the least number from 0 on
/// that is no listed constant, or as many `a` as one more than the longest listed text has bytes.
pub fn escape(
    alloc: Global,
    spec: &JoinSpec,
    schemes: &Schemes,
    input: u32,
    reached: &[u32],
    row: &Row,
    listed: &[Instance],
) -> Result<List<Row>, NoMemory>
    requires sound { IsSoundSpec spec.now }
    requires fitting { FitSchemes spec.now.inputs schemes.now }
    requires closed { IsClosed spec.now schemes.now (has reached.now) }
    requires inside { has reached.now input ≡ true }
    requires input { input < length spec.now.inputs }
    requires row { row_fits (domains_of (schema_of spec.now input)) row.now ≡ true }
    requires listed { AreInstances spec.now schemes.now listed.now }
    requires few { length (constants_of listed.now) < 2 ^ 32 }
    ensures { IfOk result (λ rows. Escapes spec.now schemes.now input reached.now row.now listed.now rows) }
{
    let rows = chosen_rows(alloc, spec, input, reached, row, listed)?;
    Ok(rows)
}

fn chosen_rows(
    alloc: Global,
    spec: &JoinSpec,
    input: u32,
    reached: &[u32],
    row: &Row,
    listed: &[Instance],
) -> Result<List<Row>, NoMemory>
    requires sound { IsSoundSpec spec.now }
    requires few { length (constants_of listed.now) < 2 ^ 32 }
    ensures { IfOk result (λ rows. rows ≡ escape_rows spec.now input reached.now row.now listed.now) }
{
    let number = fresh_number(alloc, listed)?;
    let text = fresh_text(alloc, listed)?;
    let chooser = Chooser {
        classes: spec.classes.as_slice(),
        input,
        row,
        reached,
        number,
        text,
    };
    let rows = rows_of(alloc, &chooser, spec)?;
    Ok(rows)
}

// What decides the values of the rows.
#[derive(Drop)]
struct Chooser<'a> {
    classes: &'a [List<ClassCol>],
    input: u32,
    row: &'a Row,
    reached: &'a [u32],
    number: u32,
    text: SharedText,
}

impl<'a> Model for Chooser<'a> {
    ghost use Rattle.pj_cert.specs.Escaping.{Case};

    ghost Value = { Case };

    ghost view = { λ c. record { classes = c.classes.now; input = c.input; row = c.row.now; reached = c.reached.now; number = c.number; text = c.text } };
}

fn rows_of(alloc: Global, chooser: &Chooser<'_>, spec: &JoinSpec) -> Result<List<Row>, NoMemory>
    requires { IsSoundSpec spec.now }
    ensures { IfOk result (λ rows. rows ≡ rows_from chooser.now 0 spec.now.inputs) }
{
    let mut rows = List::new(alloc);
    for (input, schema) in spec.inputs.as_slice().iter().enumerate() {
        rows.push(chooser.row_of(alloc, input as u32, schema)?)?;
    }
    Ok(rows)
}

impl<'a> Chooser<'a> {
    fn row_of(&self, alloc: Global, input: u32, schema: &Schema) -> Result<Row, NoMemory>
        requires { length schema.now ≤ 120 }
        ensures { IfOk result (λ row. row ≡ row_for self.now input schema.now) }
    {
        if input == self.input {
            return self.row.copy(alloc);
        }
        Ok(Row::of(self.values_of(alloc, input, schema)?))
    }

    fn values_of(&self, alloc: Global, input: u32, schema: &Schema) -> Result<List<Value>, NoMemory>
        requires { length schema.now ≤ 120 }
        ensures { IfOk result (λ values. values ≡ values_from self.now input 0 schema.now) }
    {
        let mut values = List::new(alloc);
        for (n, column) in schema.columns().iter().enumerate() {
            let column_at = ClassCol {
                input,
                column: n as u32,
            };
            values.push(self.column_value(alloc, column_at, column.kind)?)?;
        }
        Ok(values)
    }

    fn column_value(&self, alloc: Global, at: ClassCol, kind: Kind) -> Result<Value, NoMemory>
        ensures { IfOk result (λ value. value ≡ value_of_column self.now at kind) }
    {
        let alone = [at];
        self.class_value(alloc, kind, class_with(self.classes, at, &alone))
    }

    fn class_value(&self, alloc: Global, kind: Kind, class: &[ClassCol]) -> Result<Value, NoMemory>
        ensures { IfOk result (λ value. value ≡ value_of_class self.now kind class.now) }
    {
        match column_of(class, self.input) {
            None => self.other_value(alloc, kind, class),
            Some(column) => own_value(alloc, self.row, column),
        }
    }

    fn other_value(&self, alloc: Global, kind: Kind, class: &[ClassCol]) -> Result<Value, NoMemory>
        ensures { IfOk result (λ value. value ≡ value_of_other self.now kind class.now) }
    {
        if touches(class, self.reached) {
            blank(alloc, kind)
        } else {
            self.fresh_value(kind)
        }
    }

    fn fresh_value(&self, kind: Kind) -> Result<Value, NoMemory>
        ensures { IfOk result (λ value. value ≡ fresh self.now kind) }
    {
        match kind {
            Kind::Int => Ok(Value::Int(i64::from(self.number))),
            Kind::Text => Ok(Value::Text(self.text.share()?)),
        }
    }
}

// The first class that has the column; where there is none the class of this column alone.
fn class_with<'a>(
    classes: &'a [List<ClassCol>],
    at: ClassCol,
    alone: &'a [ClassCol],
) -> &'a [ClassCol]
    requires { alone.now ≡ at ∷ [] }
    ensures { result.now ≡ class_of classes.now at }
{
    for class in classes {
        if has_column(class.as_slice(), at) {
            return class.as_slice();
        }
    }
    alone
}

fn column_of(class: &[ClassCol], input: u32) -> Option<u32>
    ensures { result ≡ column_in input class.now }
{
    for at in class {
        if at.input == input {
            return Some(at.column);
        }
    }
    None
}

fn own_value(alloc: Global, row: &Row, column: u32) -> Result<Value, NoMemory>
    ensures { IfOk result (λ value. value ≡ value_at row.now column) }
{
    match row.get(column as usize) {
        None => blank(alloc, Kind::Text),
        Some(value) => value.copy(alloc),
    }
}

/// 0 or the empty text.
pub(crate) fn blank(alloc: Global, kind: Kind) -> Result<Value, NoMemory>
    ensures { IfOk result (λ value. value ≡ blank_of kind) }
{
    match kind {
        Kind::Int => Ok(Value::Int(0)),
        Kind::Text => Ok(Value::Text(SharedText::of(alloc, List::new(alloc))?)),
    }
}
