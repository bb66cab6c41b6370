// Patterns as step functions.
ghost use Rattle.std.specs.Prelude.{◌≡◌, [], IfOk, reverse};
ghost use Rattle.std.specs.Option.{option_copied};
ghost use Rattle.pj_value.specs.declared.values.Value.{Value as AnyValue};
ghost use Rattle.pj_pattern.specs.Normal.{IsNormal};
ghost use Rattle.pj_pattern.specs.Patterns.{up_to};
ghost use Rattle.pj_intervals.specs.Steps.{one_step, rising_steps, steps_between, steps_from, steps_of, steps_of_range, steps_up_to, two_steps};

use crate::steps::{Cut, Step};
use pj_pattern::{Pattern, Shape};
use pj_value::{List, NoMemory, SharedText, Value};
use std::alloc::Global;

/// The place at the values that the pattern matches, or `NoMemory`.
pub(crate) fn steps_of(
    alloc: Global,
    pattern: &Pattern,
    place: usize,
) -> Result<List<Step>, NoMemory>
    ensures steps { IfOk result (λ steps. steps ≡ steps_of pattern.now place) }
    ensures normal { IsNormal pattern.now }
{
    match pattern.shape() {
        Shape::Wild => one_step(alloc, Cut::Start, place),
        Shape::Empty => Ok(List::new(alloc)),
        Shape::Constant(value) => {
            let low = Cut::Before(value.copy(alloc)?);
            two_steps(alloc, low, Cut::After(value.copy(alloc)?), place)
        }
        Shape::Range(low, high) => range_steps(alloc, low, high, place),
        Shape::Members(members) => member_steps(alloc, members, place),
    }
}

// A place from a cut on.
fn one_step(alloc: Global, from: Cut, place: usize) -> Result<List<Step>, NoMemory>
    ensures { IfOk result (λ steps. steps ≡ one_step from place) }
{
    let mut steps = List::new(alloc);
    steps.push(Step {
        from,
        place: Some(place),
    })?;
    Ok(steps)
}

// A place from one cut to another.
fn two_steps(alloc: Global, from: Cut, to: Cut, place: usize) -> Result<List<Step>, NoMemory>
    ensures { IfOk result (λ steps. steps ≡ two_steps from to place) }
{
    let mut steps = List::with_room(alloc, 2)?;
    steps.push(Step {
        from: to,
        place: None,
    })?;
    steps.push(Step {
        from,
        place: Some(place),
    })?;
    Ok(steps)
}

fn range_steps(
    alloc: Global,
    low: Option<&Value>,
    high: Option<&Value>,
    place: usize,
) -> Result<List<Step>, NoMemory>
    ensures { IfOk result (λ steps. steps ≡ steps_of_range (option_copied low.entry) (option_copied high.entry) place) }
{
    match (low, high) {
        (None, None) => one_step(alloc, Cut::Start, place),
        (None, Some(high)) => steps_up_to(alloc, high, place),
        (Some(low), None) => steps_from(alloc, low, place),
        (Some(low), Some(high)) => steps_between(alloc, low, high, place),
    }
}

// From the least value of its kind up to this one.
fn steps_up_to(alloc: Global, high: &Value, place: usize) -> Result<List<Step>, NoMemory>
    ensures { IfOk result (λ steps. steps ≡ steps_up_to high.now place) }
{
    let end = Cut::After(high.copy(alloc)?);
    match high {
        Value::Int(_) => two_steps(alloc, Cut::Start, end, place),
        Value::Text(_) => two_steps(alloc, before_texts(alloc)?, end, place),
    }
}

// From this value to the end of its kind.
fn steps_from(alloc: Global, low: &Value, place: usize) -> Result<List<Step>, NoMemory>
    ensures { IfOk result (λ steps. steps ≡ steps_from low.now place) }
{
    let start = Cut::Before(low.copy(alloc)?);
    match low {
        Value::Int(_) => two_steps(alloc, start, before_texts(alloc)?, place),
        Value::Text(_) => one_step(alloc, start, place),
    }
}

// From one value to another of its kind; there may be none.
fn steps_between(
    alloc: Global,
    low: &Value,
    high: &Value,
    place: usize,
) -> Result<List<Step>, NoMemory>
    ensures { IfOk result (λ steps. steps ≡ steps_between low.now high.now place) }
{
    if !is_up_to(low, high) {
        return Ok(List::new(alloc));
    }
    let start = Cut::Before(low.copy(alloc)?);
    two_steps(alloc, start, Cut::After(high.copy(alloc)?), place)
}

// Whether both are of one kind and the first is not above the second.
fn is_up_to(low: &Value, high: &Value) -> bool
    ensures { result ≡ up_to low.now high.now }
{
    match (low, high) {
        (Value::Int(_), Value::Int(_)) => !low.order(high).is_gt(),
        (Value::Int(_), Value::Text(_)) => false,
        (Value::Text(_), Value::Int(_)) => false,
        (Value::Text(_), Value::Text(_)) => !low.order(high).is_gt(),
    }
}

// The cut between the integers and the texts.
fn before_texts(alloc: Global) -> Result<Cut, NoMemory>
    ensures { IfOk result (λ cut. cut ≡ Cut.Before (AnyValue.Text [])) }
{
    Ok(Cut::Before(Value::Text(SharedText::of(alloc, List::new(alloc))?)))
}

// A place at each of these values.
fn member_steps(alloc: Global, members: &[Value], place: usize) -> Result<List<Step>, NoMemory>
    ensures { IfOk result (λ steps. steps ≡ reverse (rising_steps members.now place)) }
{
    let mut steps = Vec::new(alloc);
    for member in members {
        steps.push(Step {
            from: Cut::Before(member.copy(alloc)?),
            place: Some(place),
        })?;
        steps.push(Step {
            from: Cut::After(member.copy(alloc)?),
            place: None,
        })?;
    }
    steps.reverse();
    Ok(List::of(steps))
}
