// The canonical text of a plan.
ghost use Rattle.std.specs.Prelude.{◌≡◌, ◌++◌, OnOk, OnErr};
ghost use Rattle.pj_plan_text.specs.Laws.{PlanIsReadAgain};
ghost use Rattle.pj_plan_text.specs.Spelling.{lines_of, plan_spelling};

use crate::line_texts::append_line;
use crate::storable::see_nodes;
use pj_plan::{Plan, Statement};
use pj_statements::statements;
use pj_value::{List, NoMemory};
use std::alloc::Global;

/// Appends the canonical text of a plan, each of its statements on a line with a line feed: `plan 1`, the statement of each
/// node in order of declaration, each stream's followed by its schemes, and `output`. Cells are parted by one space; a select
/// writes a pair for each column whose pattern is no wildcard, or `*` for the first column where there is none; a project
/// writes `OLD` where the name stays, else `NEW=OLD`; patterns and values are in their canonical spelling. Where each line has
/// at most 65,536 bytes, the text is read as an equal plan. On `NoMemory` the bytes are as they were.
#[tactic(auto, using(crate::proofs::PlansAgain::plan_again))]
pub fn plan_text(alloc: Global, plan: &Plan, out: &mut List<u8>) -> Result<(), NoMemory>
    ensures ok { OnOk result (out.new ≡ out.old ++ plan_spelling plan.now) }
    ensures again { OnOk result (PlanIsReadAgain plan.now) }
    ensures err { OnErr result (out.new ≡ out.old) }
{
    let mut text = List::new(alloc);
    append_plan(alloc, plan, &mut text)?;
    let _nodes = plan.nodes();
    see_nodes(plan);
    out.append(text.as_slice())?;
    Ok(())
}

fn append_plan(alloc: Global, plan: &Plan, out: &mut List<u8>) -> Result<(), NoMemory>
    ensures { OnOk result (out.new ≡ out.old ++ plan_spelling plan.now) }
{
    let statements = statements(alloc, plan)?;
    append_lines(alloc, statements.as_slice(), out)?;
    Ok(())
}

// A line for each statement.
fn append_lines(alloc: Global, statements: &[Statement], out: &mut List<u8>) -> Result<(), NoMemory>
    ensures { OnOk result (out.new ≡ out.old ++ lines_of statements.now) }
{
    for statement in statements {
        append_line(alloc, statement, out)?;
    }
    Ok(())
}
