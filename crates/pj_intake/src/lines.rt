// The next line of a source, and what it says.
ghost use Rattle.std.specs.Prelude.{◌≡◌, ◌≤◌, ◌^◌, [], true, None, Ok, IsTrue, IfOk, IfSome};
ghost use Rattle.pj_element.specs.Elements.{width};
ghost use Rattle.pj_element.specs.Fitting.{FitsRead, HasArity};
ghost use Rattle.pj_line.specs.Buffers.{KnowsEnd};
ghost use Rattle.pj_intake.specs.Reads.{ReadsNext};

use crate::intake::IntakeStop;
use pj_element::{Read, Reject, read_element};
use pj_io::Source;
use pj_line::{Line, LineBuf, LineStop};
use pj_shape::Schema;
use std::alloc::Global;

// What the next piece of the source says, or `None` where the source has ended and no piece is left.
#[tactic(auto, using(pj_element::proofs::Fitting::line_fits, pj_element::proofs::Fitting::line_has_arity))]
pub(crate) fn read_next<S: Source>(
    alloc: Global,
    schema: &Schema,
    lines: &mut LineBuf,
    source: &mut S,
) -> Result<Option<Read>, IntakeStop>
    requires size { lines.old.size ≡ 65536 }
    requires running { lines.old.stopped ≡ None }
    requires at_end { KnowsEnd lines.old (S.state source.old) }
    ensures reads { ReadsNext schema.now lines.old lines.new (S.state source.old) (S.state source.new) result }
    ensures fits { IfOk result (λ read. IfSome read (FitsRead schema.now)) }
    ensures arity { IfOk result (λ read. IfSome read (HasArity (width schema.now))) }
    ensures spent { lines.old.ended ≡ true → lines.old.held ≡ [] → result ≡ Ok None }
    ensures told { (S.state source.new).told ≡ (S.state source.old).told }
    ensures name { (S.state source.new).name ≡ (S.state source.old).name }
    ensures later { (S.state source.old).faults ≤ (S.state source.new).faults }
{
    match lines.next_line(source) {
        Ok(Line::Whole(line)) => Ok(Some(read_element(alloc, schema, line)?)),
        Ok(Line::TooLong) => Ok(Some(Read::Bad(Reject::TooLong))),
        Ok(Line::End) => Ok(None),
        Err(LineStop::Fault) => Err(IntakeStop::ReadFault),
        Err(LineStop::ByteLimit) => Err(IntakeStop::ByteLimit),
    }
}
