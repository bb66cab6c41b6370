// The answer of a plan over complete lists, with ample memory.
ghost use Rattle.std.specs.Prelude.{◌<◌};

use crate::cases::{element_of, plan_of};
use pj_algebra::eval;
use pj_element::row_text;
use pj_pattern::Element;
use pj_plan::Plan;
use pj_value::{List, NoMemory, Row};
use std::alloc::Global;

// Two streams united, cut, joined with a third by a key, and grouped.
const PLAN: &str =
    "plan 1\nstream a x:int v:int\nstream b y:int w:int\nstream c z:int\nunion u a b\nselect s u where v [2..]\nproject p s k=x v\njoin j p c on k=z\ngroup g j by k of n=count t=sum:v least=min:v most=max:v\noutput g\n";

// The rows of its streams.
const ROWS: [&[&str]; 3] = [
    &["t 1 1", "t 1 5", "t 2 7"],
    &["t 2 2", "t 1 9", "t 3 4"],
    &["t 2", "t 1", "t 1"],
];

fn rows_of(alloc: Global, plan: &Plan, stream: usize) -> Result<List<Row>, NoMemory>
    requires { stream < 3 }
{
    let mut rows = List::new(alloc);
    for line in ROWS[stream] {
        match element_of(alloc, plan, stream as u32, line)? {
            Element::Tuple(row) => rows.push(row)?,
            Element::Punct(_) => return Err(NoMemory),
        }
    }
    Ok(rows)
}

fn answer(alloc: Global) -> Result<List<Row>, NoMemory> {
    let plan = plan_of(alloc, PLAN)?;
    let mut streams = List::new(alloc);
    for stream in 0..3 {
        streams.push(rows_of(alloc, &plan, stream)?)?;
    }
    eval(alloc, &plan, streams.as_slice())
}

// Whether the answer has these lines.
fn is_answer(alloc: Global, lines: &str) -> Result<bool, NoMemory> {
    let rows = answer(alloc)?;
    let mut text = List::new(alloc);
    for row in rows.as_slice() {
        row_text(alloc, row, &mut text)?;
        text.push(b'\n')?;
    }
    Ok(text.as_slice() == lines.as_bytes())
}

#[test]
fn an_answer_is_worked_out(rt: HostRuntime) {
    assert_eq!(rt;
        is_answer(rt.alloc(), "t 1 4 28 5 9\nt 2 2 9 2 7\n"),
        Ok(true)
    );
}
