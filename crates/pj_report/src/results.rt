// The lines of what a core hands out.
ghost use Rattle.std.specs.Prelude.{◌≡◌, ◌≤◌, ◌++◌, ◌∷◌, [], List, length, IsTrue, OnOk, OnErr, Err};
ghost use Rattle.pj_pattern.specs.declared.element.Element.{Element};
ghost use Rattle.pj_pattern.specs.Elements.{rows_of, puncts_of};
ghost use Rattle.pj_io.specs.Causes.{Rose};
ghost use Rattle.pj_events.specs.Outcomes.{elements_out};
ghost use Rattle.pj_report.specs.Firsts.{CountsMore, OfFirst};
ghost use Rattle.pj_report.specs.Results.{out_line, out_lines, counts_of};
ghost use Rattle.pj_report.specs.Written.{WritesBy, write_cut};

use crate::lines::write_piece;
use crate::notes::purge_text;
use crate::stops::WriteStop;
use pj_element::{punct_text, row_text};
use pj_events::Out;
use pj_io::Sink;
use pj_plan::Plan;
use pj_value::{List as Items, NoMemory};
use std::alloc::Global;

/// How many result rows and result punctuations there were. Each count stays at the greatest number once it is there.
#[derive(Clone, Copy, Debug, PartialEq, Eq)]
pub struct Counts {
    pub rows: u64,
    pub puncts: u64,
}

/// Writes the lines of what was handed out: of each element its canonical line, and of each row that a sweep removed a note
/// with the names that the plan gives the join and the node that feeds the input. Counts the elements; where it stops, those whose
/// lines were written before. `text` is where lines are made.
#[inline(always)]
pub fn write_outs<K: Sink>(
    alloc: Global,
    plan: &Plan,
    outs: &[Out],
    counts: &mut Counts,
    text: &mut Items<u8>,
    out: &mut K,
) -> Result<(), WriteStop>
    ensures told { IsTrue (K.state out.new).told → IsTrue (K.state out.old).told }
    ensures lines { IsTrue (K.state out.new).told → WritesBy write_cut (out_lines plan.now.nodes outs.now) (K.state out.old) (K.state out.new) result }
    ensures counted { OnOk result ((before : List Element) → counts.old ≡ counts_of before → counts.new ≡ counts_of (before ++ elements_out outs.now)) }
    ensures refused { OnErr result (OfFirst outs.now (CountsMore counts.old counts.new)) }
    ensures later { (K.state out.old).faults ≤ (K.state out.new).faults }
    ensures fault { result ≡ Err WriteStop.Failed → Rose (K.state out.old).faults (K.state out.new).faults }
{
    for handed in outs {
        out_text(alloc, plan, handed, text)?;
        write_piece(out, text.as_slice())?;
        count(handed, counts);
    }
    Ok(())
}

// Makes the line of one that was handed out.
#[inline(always)]
fn out_text(alloc: Global, plan: &Plan, handed: &Out, text: &mut Items<u8>) -> Result<(), NoMemory>
    ensures { OnOk result (text.new ≡ out_line plan.now.nodes handed.now) }
{
    match handed {
        Out::Tuple(row) => {
            text.truncate(0);
            row_text(alloc, row, text)?;
            text.push(b'\n')?;
        }
        Out::Punct(punct) => {
            text.truncate(0);
            punct_text(alloc, punct, text)?;
            text.push(b'\n')?;
        }
        Out::Purged { join, input, row } => purge_text(alloc, plan, *join, *input, row, text)?,
    }
    Ok(())
}

#[tactic(auto, using(crate::proofs::Counting::counted_more))]
pub(crate) fn count(handed: &Out, counts: &mut Counts)
    ensures { (before : List Element) → counts.old ≡ counts_of before → counts.new ≡ counts_of (before ++ elements_out (handed.now ∷ [])) }
{
    let (rows, puncts) = kinds(handed);
    counts.rows = counts.rows.saturating_add(rows);
    counts.puncts = counts.puncts.saturating_add(puncts);
}

// Whether it is a row, and whether it is a punctuation, as numbers.
fn kinds(handed: &Out) -> (u64, u64)
    ensures rows { result.0 ≡ length (rows_of (elements_out (handed.now ∷ []))) }
    ensures puncts { result.1 ≡ length (puncts_of (elements_out (handed.now ∷ []))) }
{
    match handed {
        Out::Tuple(_) => (1, 0),
        Out::Punct(_) => (0, 1),
        Out::Purged { .. } => (0, 0),
    }
}
