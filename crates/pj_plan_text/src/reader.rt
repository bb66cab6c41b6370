// From the bytes of a file to a plan.
ghost use Rattle.std.specs.Prelude.{◌≡◌, ◌+◌, Err, Ok, IfOk, length};
ghost use Rattle.pj_line.specs.Lines.{pieces};
ghost use Rattle.pj_plan_text.specs.PlanRead.{is_passed as passed, is_short as short, line_stated, plan_read, stated_from};

use crate::cuts::words_in;
use crate::statements::read_statement;
use pj_line::{cells, first_piece, is_skipped, line_of_piece};
use pj_plan::{Plan, PlanFault, PlanStop, PlanWhy, Stated, Statement};
use pj_value::{List, NoMemory};
use std::alloc::Global;

const LINE_LIMIT: usize = 65_536;

/// The plan that the bytes of a file spell. Lines that are blank or begin with `#` state nothing, but count.
///
/// `Fault` comes exactly where a line has a fault, or the plan lacks its first line or its `output`; of several faults the
/// first line's is named, and on one line the one that stands first in `PlanWhy`. `NoMemory` comes only where memory could
/// not be had.
#[tactic(auto, using(crate::proofs::SpelledLines::lines_spelled))]
pub fn read_plan(alloc: Global, bytes: &[u8]) -> Result<Plan, PlanStop>
    ensures plan { IfOk result (λ plan. plan_read bytes.now ≡ Ok plan) }
    ensures fault { (fault : PlanFault) → result ≡ Err (PlanStop.Fault fault) → plan_read bytes.now ≡ Err fault }
{
    match read_lines(alloc, bytes) {
        Ok(lines) => Plan::build(alloc, lines.statements.as_slice(), lines.end),
        Err(_) => Err(PlanStop::NoMemory),
    }
}

// What the lines of a file state, and their number and one more.
#[derive(Drop)]
struct Lines {
    statements: List<Stated>,
    end: u64,
}

#[tactic(auto, using(crate::proofs::PlanLines::line_passed, crate::proofs::PlanLines::line_read, crate::proofs::PlanLines::lines_end))]
fn read_lines(alloc: Global, bytes: &[u8]) -> Result<Lines, NoMemory>
    ensures stated { IfOk result (λ lines. lines.statements ≡ stated_from 1 (pieces bytes.now)) }
    ensures end { IfOk result (λ lines. lines.end ≡ length (pieces bytes.now) + 1) }
{
    let mut statements = List::new(alloc);
    let mut line = 1u64;
    let mut rest = bytes;
    while !rest.is_empty() {
        let (piece, behind) = first_piece(rest);
        if !is_passed(piece) {
            let what = read_line(alloc, piece)?;
            statements.push(Stated { line, what })?;
        }
        line += 1;
        rest = behind;
    }
    Ok(Lines {
        statements,
        end: line,
    })
}

/// Whether a piece of a text, a line with the line feed behind it, has at most 65,536 bytes: a longer one is no line.
pub fn is_short(piece: &[u8]) -> bool
    ensures { result ≡ short piece.now }
{
    piece.len() <= LINE_LIMIT
}

/// Whether the line of a piece of a text is skipped: it is short, and has no byte but blanks, or `#` is its first other byte.
pub fn is_passed(piece: &[u8]) -> bool
    ensures { result ≡ passed piece.now }
{
    is_short(piece) && is_skipped(line_of_piece(piece))
}

// What the line of a piece states.
#[tactic(auto, using(crate::proofs::PlanLines::line_is_short, crate::proofs::PlanLines::line_cut, crate::proofs::PlanLines::line_uncut))]
fn read_line(alloc: Global, piece: &[u8]) -> Result<Statement, NoMemory>
    ensures { IfOk result (λ statement. statement ≡ line_stated piece.now) }
{
    if !is_short(piece) {
        return Ok(Statement::Bad(PlanWhy::Unreadable));
    }
    match cells(line_of_piece(piece)) {
        Ok(cells) => {
            let words = words_in(alloc, &cells)?;
            Ok(read_statement(alloc, words.as_slice())?)
        }
        Err(_) => Ok(Statement::Bad(PlanWhy::Unreadable)),
    }
}
