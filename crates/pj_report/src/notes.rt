// The note of a row that a sweep removed.
ghost use Rattle.std.specs.Prelude.{◌≡◌, OnOk};
ghost use Rattle.pj_report.specs.Results.{input_name as name_of_input, purge_line};

use pj_element::row_text;
use pj_plan::Plan;
use pj_value::{List, NoMemory, Row};
use std::alloc::Global;

// Makes the note's line of the text: the names of the join and of its input, and the row.
pub(crate) fn purge_text(
    alloc: Global,
    plan: &Plan,
    join: u32,
    input: u32,
    row: &Row,
    text: &mut List<u8>,
) -> Result<(), NoMemory>
    ensures { OnOk result (text.new ≡ purge_line plan.now.nodes join input row.now) }
{
    text.truncate(0);
    text.append(b"# purge ")?;
    text.append(plan.name(join))?;
    text.push(b' ')?;
    text.append(input_name(plan, join, input))?;
    text.push(b' ')?;
    row_text(alloc, row, text)?;
    text.push(b'\n')?;
    Ok(())
}

// The name of the node that feeds an input of a node; empty where there is none.
#[tactic(auto, using(crate::proofs::NodeNames::past_inputs))]
fn input_name(plan: &Plan, node: u32, input: u32) -> &[u8]
    ensures { result.now ≡ name_of_input plan.now.nodes node input }
{
    if node >= plan.nodes() {
        return b"";
    }
    match plan.node(node).input(input as usize) {
        Some(number) => plan.name(number),
        None => b"",
    }
}
