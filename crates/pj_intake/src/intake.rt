// The intake of a stream.
ghost use Rattle.std.specs.Prelude.{◌≡◌, ◌≤◌, [], ◌++◌, ℕ, List, None, Some, Ok, Err, true, false, IfOk, IfErr, IsTrue};
ghost use Rattle.pj_io.specs.Pieces.{Consumes};
ghost use Rattle.pj_line.specs.Buffers.{KnowsEnd};
ghost use Rattle.pj_element.specs.Accepted.{fates_of, tally_of};
ghost use Rattle.pj_intake.specs.declared.intake.Step.TheVariants.{End};
ghost use Rattle.pj_intake.specs.Taking.{waits_for_read, HasJudged, IsOpen};
ghost use Rattle.pj_intake.specs.Steps.{FitsStep, GoesOn, stop_answered};

use crate::seen::{Seen, none_seen};
use crate::steps::next_step;
use pj_element::{Reject, Tally};
use pj_io::Source;
use pj_line::LineBuf;
use pj_pattern::Punct;
use pj_shape::Schema;
use pj_value::{NoMemory, Row};
use std::alloc::Global;
use std::marker::Model;

/// What becomes of the next line that is not skipped.
#[derive(Drop)]
pub enum Step {
    /// A tuple that is accepted.
    Tuple(Row),
    /// A punctuation, which is accepted.
    Punct(Punct),
    /// A line with this number, counted from 1, that is rejected.
    Rejected(u64, Reject),
    /// All lines were judged.
    End,
}

/// Why no further line is judged.
#[derive(Clone, Copy, Debug, PartialEq, Eq)]
pub enum IntakeStop {
    /// A read of the source failed.
    ReadFault,
    /// The source gave as many bytes as may be and had not ended.
    ByteLimit,
    /// Memory could not be had.
    NoMemory,
}

impl From<NoMemory> for IntakeStop {
    ghost use Rattle.std.specs.Prelude.{◌≡◌};
    ghost use Rattle.pj_intake.specs.declared.intake.IntakeStop.TheVariants.{NoMemory as OutOfMemory};

    ghost from_gives = { λ _ stop. stop ≡ OutOfMemory };

    fn from(_: NoMemory) -> IntakeStop {
        IntakeStop::NoMemory
    }
}

// The longest line, in bytes, without its line feed and with a carriage return.
const LINE_BYTES: u32 = 65_536;

/// Judges the lines of a stream's source one by one, as they are read. A punctuation that is spelled well is accepted; a tuple
/// is accepted where it matches no punctuation of an earlier line (Tucker et al. 2003).
#[derive(Drop)]
pub struct Intake<S> {
    alloc: Global,
    schema: Schema,
    source: S,
    lines: LineBuf,
    seen: Seen,
    stopped: Option<IntakeStop>,
}

impl<S> Model for Intake<S> {
    ghost use Rattle.pj_intake.specs.Taking.{Stands, Taking};

    ghost Value = { Taking S };

    ghost view = { λ i. record { source = i.source; state = record { columns = i.schema; buffer = i.lines; seen = i.seen; stopped = i.stopped } } };

    ghost invariant = { λ i. Stands (record { columns = i.schema; buffer = i.lines; seen = i.seen; stopped = i.stopped }) };
}

impl<S: Source> Intake<S> {
    /// An intake that has judged no line, for a stream with these columns; it takes at most `limit` bytes, at least 1. Where the
    /// source tells what was taken, that is nothing yet. On `NoMemory` the source is handed back.
    #[tactic(auto, using(crate::proofs::Calls::starts))]
    pub fn new(
        alloc: Global,
        schema: Schema,
        source: S,
        limit: u64,
    ) -> Result<Intake<S>, (S, NoMemory)>
        requires limit { 1 ≤ limit }
        requires fresh { IsTrue (S.state source).told → (S.state source).taken ≡ [] }
        ensures columns { IfOk result (λ intake. intake.state.columns ≡ schema) }
        ensures source { IfOk result (λ intake. intake.source ≡ source) }
        ensures stopped { IfOk result (λ intake. intake.state.stopped ≡ None) }
        ensures limit { IfOk result (λ intake. intake.state.buffer.limit ≡ limit) }
        ensures held { IfOk result (λ intake. intake.state.buffer.held ≡ []) }
        ensures ended { IfOk result (λ intake. intake.state.buffer.ended ≡ false) }
        ensures judged { IfOk result (λ intake. IsOpen intake.state []) }
        ensures back { IfErr result (λ back. back.0 ≡ source) }
    {
        let arity = schema.len().min(u32::MAX as usize) as u32;
        let seen = match none_seen(alloc, arity) {
            Ok(seen) => seen,
            Err(stop) => return Err((source, stop)),
        };
        let lines = match LineBuf::new(alloc, LINE_BYTES, limit) {
            Ok(lines) => lines,
            Err(stop) => return Err((source, stop)),
        };
        Ok(Intake {
            alloc,
            schema,
            source,
            lines,
            seen,
            stopped: None,
        })
    }

    /// Whether the next call of `next` may wait for its source: it has not stopped, the end was not read, and no line that is not
    /// skipped is held up to its line feed.
    pub fn waits(&self) -> bool
        ensures { result ≡ waits_for_read self.now.state }
    {
        self.stopped.is_none() && !self.lines.holds_line()
    }

    /// What becomes of the next line that is not skipped: the steps up to any moment are those of the lines so far. `ReadFault`
    /// comes only where the source's faults rose, and then no line feed was taken behind the lines that were judged; `ByteLimit`
    /// exactly where `limit` bytes were taken without the end having been read and no line feed is left; `NoMemory` leaves out
    /// the line for which memory could not be had, and nothing before it. `End` comes exactly where every line was judged, and
    /// again at every later call. After a stop every call gives the same stop, and what was judged stays.
    #[inline(always)]
    pub fn next(&mut self) -> Result<Step, IntakeStop>
        requires at_end { KnowsEnd self.old.state.buffer (S.state self.old.source) }
        ensures columns { self.new.state.columns ≡ self.old.state.columns }
        ensures limit { self.new.state.buffer.limit ≡ self.old.state.buffer.limit }
        ensures told { (S.state self.new.source).told ≡ (S.state self.old.source).told }
        ensures name { (S.state self.new.source).name ≡ (S.state self.old.source).name }
        ensures later { (S.state self.old.source).faults ≤ (S.state self.new.source).faults }
        ensures stopped { (stop : IntakeStop) → self.old.state.stopped ≡ Some stop → (result ≡ Err stop) × (self.new ≡ self.old) }
        ensures next { self.old.state.stopped ≡ None → GoesOn self.old.state self.new.state (S.state self.old.source) (S.state self.new.source) result }
        ensures stops { self.old.state.stopped ≡ None → self.new.state.stopped ≡ stop_answered result }
        ensures took { IsTrue (S.state self.old.source).told → (bytes : List ℕ) × Consumes (S.state self.old.source) (S.state self.new.source) bytes }
        ensures at_end { KnowsEnd self.new.state.buffer (S.state self.new.source) }
        ensures spent { self.old.state.stopped ≡ None → self.old.state.buffer.ended ≡ true → self.old.state.buffer.held ≡ [] → result ≡ Ok End }
        ensures fits { IfOk result (FitsStep self.old.state.columns) }
    {
        match self.stopped {
            Some(stop) => Err(stop),
            None => {
                let result = next_step(
                    self.alloc,
                    &self.schema,
                    &mut self.lines,
                    &mut self.source,
                    &mut self.seen,
                );
                self.stopped = stop_of(&result);
                result
            }
        }
    }

    /// The source, and the counts of the lines that were judged, whether all were or an earlier call stopped.
    pub fn close(self) -> (S, Tally)
        ensures parts { result ≡ (self.source, self.state.seen.tally) }
        ensures judged { (judged : List ℕ) → HasJudged self.state judged → result.1 ≡ tally_of (fates_of self.state.columns judged) }
    {
        let Intake { source, seen, .. } = self;
        let Seen { tally, .. } = seen;
        (source, tally)
    }
}

// The stop that was answered.
fn stop_of(answer: &Result<Step, IntakeStop>) -> Option<IntakeStop>
    ensures { result ≡ stop_answered answer.now }
{
    match answer {
        Ok(_) => None,
        Err(stop) => Some(*stop),
    }
}
