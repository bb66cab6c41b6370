// What an operator emits goes up to the operators above it.
ghost use Rattle.std.specs.Prelude.{◌≡◌, ◌<◌, ◌++◌, [], ◌∷◌, IfOk, IfErr, OnOk, OnErr, length, take};
ghost use Rattle.pj_operator.specs.Operators.{FitsKind, frame_at, frames_in, emitted_list, width_of};
ghost use Rattle.pj_operator.specs.Emitting.{Emits, HasReceived, IsEmitStop, IsReceiveStop, MayEmit, StaysAs};

use crate::handed::hand_out;
use crate::operator::{Emitted, RunningOperator};
use pj_events::{Out, Stop};
use pj_join::JoinStop;
use pj_pattern::Element;
use pj_value::{List, NoMemory};
use std::alloc::Global;

// The node of number `from` emits an element, which goes up as far as it goes: the node above receives it, and what that one
// emits goes on from there. What the last node emits is put at the end of `outs`.
//
// `Limit` comes where a join or a group on the way has received as many elements as may.
#[cycle(emitting)]
fn emit_one(
    alloc: Global,
    operators: &mut [RunningOperator],
    from: u32,
    element: Element,
    outs: &mut List<Out>,
) -> Result<(), Stop>
    requires there { from < length operators.old }
    requires may { MayEmit operators.old from (element ∷ []) }
    ensures ok { OnOk result (Emits (record { operators = operators.old; outs = outs.old }) (record { operators = operators.new; outs = outs.new }) from (element ∷ [])) }
    ensures err { IfErr result (λ stop. IsEmitStop operators.old from (element ∷ []) stop) }
    ensures stays { StaysAs operators.old operators.new }
    ensures front { take (length outs.old) outs.new ≡ outs.old }
{
    match operators[from as usize].above {
        None => match hand_out(outs, element) {
            Ok(()) => Ok(()),
            Err(NoMemory) => Err(Stop::NoMemory),
        },
        Some((place, input)) => {
            let up = receive(alloc, operators, place, input, element)?;
            emit_each(alloc, operators, place, up, outs)?;
            Ok(())
        }
    }
}

/// The node of number `from` emits an element, which goes up as far as it goes: the node above receives it, and what that one
/// emits goes on from there. What the last node emits is put at the end of `outs`. On a refusal `outs` is as before.
///
/// `Limit` comes where a join or a group on the way has received as many elements as may.
pub fn emit(
    alloc: Global,
    operators: &mut [RunningOperator],
    from: u32,
    element: Element,
    outs: &mut List<Out>,
) -> Result<(), Stop>
    requires there { from < length operators.old }
    requires may { MayEmit operators.old from (element ∷ []) }
    ensures ok { OnOk result (Emits (record { operators = operators.old; outs = outs.old }) (record { operators = operators.new; outs = outs.new }) from (element ∷ [])) }
    ensures err { IfErr result (λ stop. IsEmitStop operators.old from (element ∷ []) stop) }
    ensures stays { StaysAs operators.old operators.new }
    ensures refused { OnErr result (outs.new ≡ outs.old) }
{
    let before = outs.len();
    match emit_one(alloc, operators, from, element, outs) {
        Ok(()) => Ok(()),
        Err(stop) => {
            outs.truncate(before);
            Err(stop)
        }
    }
}

// A node emits these, each of which goes as far as it goes before the next.
#[cycle(emitting)]
pub fn emit_each(
    alloc: Global,
    operators: &mut [RunningOperator],
    from: u32,
    elements: Emitted,
    outs: &mut List<Out>,
) -> Result<(), Stop>
    requires there { from < length operators.old }
    requires may { MayEmit operators.old from (emitted_list elements) }
    ensures ok { OnOk result (Emits (record { operators = operators.old; outs = outs.old }) (record { operators = operators.new; outs = outs.new }) from (emitted_list elements)) }
    ensures err { IfErr result (λ stop. IsEmitStop operators.old from (emitted_list elements) stop) }
    ensures stays { StaysAs operators.old operators.new }
    ensures front { take (length outs.old) outs.new ≡ outs.old }
{
    for element in elements {
        emit_one(alloc, operators, from, element, outs)?;
    }
    Ok(())
}

// The node of this number receives an element.
fn receive(
    alloc: Global,
    operators: &mut [RunningOperator],
    place: u32,
    input: u32,
    element: Element,
) -> Result<Emitted, Stop>
    requires there { place < length operators.old }
    requires fits { FitsKind (frame_at (frames_in operators.old) place).kind input (width_of element) }
    ensures ok { IfOk result (λ up. HasReceived operators.old operators.new place input element up) }
    ensures err { IfErr result (λ stop. IsReceiveStop operators.old place stop) }
    ensures stays { StaysAs operators.old operators.new }
{
    match operators[place as usize].on_element(alloc, input, element) {
        Ok(up) => Ok(up),
        Err(JoinStop::Limit) => Err(Stop::Limit { node: place }),
        Err(JoinStop::NoMemory) => Err(Stop::NoMemory),
    }
}
