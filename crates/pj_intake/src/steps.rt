// The next step of a stream: its lines are judged until one of them is not skipped.
ghost use Rattle.std.specs.Prelude.{◌≡◌, ◌<◌, [], ℕ, List, None, Some, Ok, true, IfOk, IfSome, IsTrue};
ghost use Rattle.pj_line.specs.Buffers.{KnowsEnd};
ghost use Rattle.pj_intake.specs.Taking.{IsOpen};
ghost use Rattle.pj_intake.specs.Steps.{FitsStep, step_answered, stop_answered};
ghost use Rattle.pj_intake.specs.declared.intake.Step.TheVariants.{End};
ghost use Rattle.pj_intake.specs.Judged.{JudgesOn, running, step_judged, to_judge};

use crate::intake::{IntakeStop, Step};
use crate::lines::read_next;
use crate::seen::{Seen, judge};
use pj_io::Source;
use pj_line::LineBuf;
use pj_shape::Schema;
use std::alloc::Global;

// Judges the next line: its step, or `End` where there is none; `None` where the line is skipped.
#[tactic(auto, using(crate::proofs::Judging::line_judges, crate::proofs::Judging::line_ends, crate::proofs::Judging::line_starves))]
fn judge_next<S: Source>(
    alloc: Global,
    schema: &Schema,
    lines: &mut LineBuf,
    source: &mut S,
    seen: &mut Seen,
) -> Result<Option<Step>, IntakeStop>
    requires judged { (judged : List ℕ) × IsOpen (running schema.now lines.old seen.old) judged }
    requires at_end { KnowsEnd lines.old (S.state source.old) }
    ensures judges { JudgesOn (running schema.now lines.old seen.old) (running schema.now lines.new seen.new) (S.state source.old) (S.state source.new) (step_judged result) (stop_answered result) }
    ensures shorter { IfOk result (λ step. step ≡ None → to_judge lines.new < to_judge lines.old) }
    ensures fits { IfOk result (λ step. IfSome step (FitsStep schema.now)) }
    ensures spent { lines.old.ended ≡ true → lines.old.held ≡ [] → result ≡ Ok (Some End) }
{
    match read_next(alloc, schema, lines, source)? {
        None => Ok(Some(Step::End)),
        Some(read) => Ok(judge(alloc, read, seen)?),
    }
}

// The step of the next line that is not skipped, `End` where there is none, or the stop.
pub(crate) fn next_step<S: Source>(
    alloc: Global,
    schema: &Schema,
    lines: &mut LineBuf,
    source: &mut S,
    seen: &mut Seen,
) -> Result<Step, IntakeStop>
    requires judged { (judged : List ℕ) × IsOpen (running schema.now lines.old seen.old) judged }
    requires at_end { KnowsEnd lines.old (S.state source.old) }
    ensures judges { JudgesOn (running schema.now lines.old seen.old) (running schema.now lines.new seen.new) (S.state source.old) (S.state source.new) (step_answered result) (stop_answered result) }
    ensures fits { IfOk result (FitsStep schema.now) }
    ensures spent { lines.old.ended ≡ true → lines.old.held ≡ [] → result ≡ Ok End }
{
    loop {
        match judge_next(alloc, schema, lines, source, seen)? {
            Some(step) => return Ok(step),
            None => {}
        }
    }
}
