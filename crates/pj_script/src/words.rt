// What the cells of a line of a script say.
ghost use Rattle.std.specs.Prelude.{◌≡◌, ◌<◌, ◌≤◌, length, position, IfSome};
ghost use Rattle.pj_line.specs.Cells.{bytes_in};
ghost use Rattle.pj_plan.specs.Nodes.{inputs_of as inputs_of_node};
ghost use Rattle.pj_plan.specs.Canonical.{node_at};
ghost use Rattle.pj_script.specs.Reading.{give_at, is_called, join_called as number_called, place_called as place_of_name, step_alone as alone, step_at_join as step_of_join, step_at_stream as step_of_stream, step_of as step_in_cells, sweep_at, ticket_of as ticket_in, IsJoin};

use crate::step::ScriptStep;
use pj_element::read_digits;
use pj_line::Cells;
use pj_plan::{Node, Plan};

/// The step that the cells of a line are, if they are one.
#[tactic(auto, using(crate::proofs::ScriptCells::one_cell, crate::proofs::ScriptCells::two_cells, crate::proofs::ScriptCells::three_cells, crate::proofs::ScriptCells::other_cells))]
pub(crate) fn step_of(plan: &Plan, cells: &Cells<'_>) -> Option<ScriptStep>
    ensures { result ≡ step_in_cells plan.now.nodes (bytes_in cells.now) }
{
    let count = cells.len();
    if count == 1 {
        let word = cells.cell(0);
        return step_alone(word.bytes);
    }
    if count == 2 {
        let word = cells.cell(0);
        let name = cells.cell(1);
        return step_at_stream(plan, word.bytes, name.bytes);
    }
    if count == 3 {
        let word = cells.cell(0);
        let name = cells.cell(1);
        let behind = cells.cell(2);
        return step_at_join(plan, word.bytes, name.bytes, behind.bytes);
    }
    None
}

// `take` and `drain`.
fn step_alone(word: &[u8]) -> Option<ScriptStep>
    ensures { result ≡ alone word.now }
{
    if word == b"take".as_slice() {
        return Some(ScriptStep::Take);
    }
    if word == b"drain".as_slice() {
        return Some(ScriptStep::Drain);
    }
    None
}

// `arrive STREAM`.
#[tactic(auto, using(crate::proofs::Numbers::few_of_sort))]
fn step_at_stream(plan: &Plan, word: &[u8], name: &[u8]) -> Option<ScriptStep>
    ensures { result ≡ step_of_stream plan.now.nodes word.now name.now }
{
    let _nodes = plan.nodes();
    if word != b"arrive".as_slice() {
        return None;
    }
    match place_called(plan, plan.streams(), name) {
        Some(stream) => Some(ScriptStep::Arrive(stream as u32)),
        None => None,
    }
}

// `give JOIN TICKET` and `sweep JOIN INPUT`.
fn step_at_join(plan: &Plan, word: &[u8], name: &[u8], cell: &[u8]) -> Option<ScriptStep>
    ensures { result ≡ step_of_join plan.now.nodes word.now (number_called plan.now.nodes name.now) cell.now }
{
    let join = join_called(plan, name)?;
    if word == b"give".as_slice() {
        return give(join, cell);
    }
    if word == b"sweep".as_slice() {
        return sweep(plan, join, cell);
    }
    None
}

fn give(join: u32, cell: &[u8]) -> Option<ScriptStep>
    ensures { result ≡ give_at join (ticket_in cell.now) }
{
    match ticket_of(cell) {
        Some(ticket) => Some(ScriptStep::Give { join, ticket }),
        None => None,
    }
}

fn sweep(plan: &Plan, join: u32, name: &[u8]) -> Option<ScriptStep>
    requires { IsJoin plan.now.nodes join }
    ensures { result ≡ sweep_at join (place_of_name plan.now.nodes (inputs_of_node (node_at plan.now.nodes join)) name.now) }
{
    match place_called(plan, inputs_of(plan, join), name) {
        Some(input) => Some(ScriptStep::Sweep {
            join,
            input: input as u32,
        }),
        None => None,
    }
}

// ---- names

// The place of the node of a name among the nodes of these numbers, if it is there.
fn place_called(plan: &Plan, numbers: &[u32], name: &[u8]) -> Option<usize>
    ensures place { result ≡ place_of_name plan.now.nodes numbers.now name.now }
    ensures within { IfSome result (λ place. place < length numbers.now) }
{
    numbers.iter().position(|number| plan.name(*number) == name)
}

// The number of the join of a name, if it is there.
fn join_called(plan: &Plan, name: &[u8]) -> Option<u32>
    ensures number { result ≡ number_called plan.now.nodes name.now }
    ensures join { IfSome result (λ join. IsJoin plan.now.nodes join) }
{
    let joins = plan.joins();
    match place_called(plan, joins, name) {
        Some(place) => Some(joins[place]),
        None => None,
    }
}

// The numbers of the nodes that feed a join.
#[tactic(auto, using(crate::proofs::Numbers::few_at))]
fn inputs_of(plan: &Plan, join: u32) -> &[u32]
    requires { IsJoin plan.now.nodes join }
    ensures inputs { result.now ≡ inputs_of_node (node_at plan.now.nodes join) }
    ensures few { length result.now ≤ 16 }
{
    let _nodes = plan.nodes();
    match plan.node(join) {
        Node::Stream { .. } => unreachable!(),
        Node::Select { .. } => unreachable!(),
        Node::Project { .. } => unreachable!(),
        Node::Union { .. } => unreachable!(),
        Node::Join { inputs, .. } => inputs.as_slice(),
        Node::Group { .. } => unreachable!(),
    }
}

// ---- tickets

// The number that 1 to 19 digits spell.
fn ticket_of(cell: &[u8]) -> Option<u64>
    ensures { result ≡ ticket_in cell.now }
{
    if cell.is_empty() || cell.len() > 19 {
        return None;
    }
    read_digits(cell)
}
