// From the bytes of a file to the steps of a script.
ghost use Rattle.std.specs.Prelude.{◌≡◌, ℕ, Err, Ok, IfOk};
ghost use Rattle.pj_script.specs.Reading.{script_read, step_on as step_on_piece, AreStepsOf};

use crate::step::{ScriptStep, ScriptStop};
use crate::words::step_of;
use pj_line::{cells, first_piece, line_of_piece};
use pj_plan::Plan;
use pj_plan_text::{is_passed, is_short};
use pj_value::List;
use std::alloc::Global;

/// The steps that the bytes of a script say over a plan, in order, each with the number of its line, counted from 1.
///
/// Lines are cut into cells as those of a plan's text are; one that is blank, or whose first byte that is no blank is `#`, is skipped, but counts. A step is
/// `arrive STREAM`, `take`, `give JOIN TICKET`, `sweep JOIN INPUT` or `drain`, with names of the plan's nodes; an input is named by
/// the node that feeds the join, and a ticket is 1 to 19 digits.
///
/// `Fault` names the first line that is neither skipped nor a step, and comes exactly where there is one: its words are no step's,
/// it has more cells or fewer, it names no stream, no join or no input of the join, its ticket is no such number, it is unclosed,
/// or it has more than 65,536 bytes. `NoMemory` comes only where memory could not be had.
#[tactic(auto, using(crate::proofs::ScriptLines::reading_starts, crate::proofs::ScriptLines::line_passed, crate::proofs::ScriptLines::line_read, crate::proofs::ScriptLines::line_bad, crate::proofs::ScriptLines::reading_ends))]
pub fn read_script(
    alloc: Global,
    plan: &Plan,
    bytes: &[u8],
) -> Result<List<(u64, ScriptStep)>, ScriptStop>
    ensures steps { IfOk result (λ steps. script_read plan.now.nodes bytes.now ≡ Ok steps) }
    ensures fits { IfOk result (λ steps. AreStepsOf plan.now.nodes steps) }
    ensures fault { (line : ℕ) → result ≡ Err (ScriptStop.Fault line) → script_read plan.now.nodes bytes.now ≡ Err line }
{
    let mut steps = List::new(alloc);
    let mut line = 1u64;
    let mut rest = bytes;
    while !rest.is_empty() {
        let (piece, behind) = first_piece(rest);
        if !is_passed(piece) {
            match step_on(plan, piece) {
                Some(step) => steps.push((line, step))?,
                None => return Err(ScriptStop::Fault { line }),
            }
        }
        line += 1;
        rest = behind;
    }
    Ok(steps)
}

// The step that the line of a piece is, if it is one.
#[tactic(auto, using(pj_plan_text::proofs::PlanLines::line_is_short, crate::proofs::ScriptCells::line_cut, crate::proofs::ScriptCells::line_uncut))]
fn step_on(plan: &Plan, piece: &[u8]) -> Option<ScriptStep>
    ensures { result ≡ step_on_piece plan.now.nodes piece.now }
{
    if !is_short(piece) {
        return None;
    }
    match cells(line_of_piece(piece)) {
        Ok(cells) => step_of(plan, &cells),
        Err(_) => None,
    }
}
