// What becomes of what a run hands out.
ghost use Rattle.std.specs.Prelude.{◌≡◌, ◌≤◌, [], IsTrue, OnOk, OnErr, Err};
ghost use Rattle.pj_io.specs.Causes.{Rose};
ghost use Rattle.pj_events.specs.Outcomes.{elements_out};
ghost use Rattle.pj_report.specs.Firsts.{OfFirst};
ghost use Rattle.pj_report.specs.Forms.{shown, taken_so_far, TakesMore, WritesWithheld};
ghost use Rattle.pj_report.specs.Written.{WritesBy, write_cut};

use crate::kept::KeptLines;
use crate::results::{Counts, write_outs};
use crate::stops::WriteStop;
use crate::sums::sum_outs;
use pj_events::Out;
use pj_io::Sink;
use pj_plan::Plan;
use pj_value::List as Items;
use std::alloc::Global;

/// The form in which results are written.
#[derive(Clone, Copy, Debug, PartialEq, Eq)]
pub enum Form {
    /// Each line as soon as its element is handed out.
    AsTheyCome,
    /// Once all were handed out: the lines of the rows in order of their bytes, and then those of the punctuations.
    Sorted,
    /// None of them: the last column of the rows is summed, and the sum stops at the least and the greatest number of 64 bits.
    Summed,
}

/// Writes what a run hands out, or keeps it to be written at the end, and counts it.
#[derive(Drop)]
pub struct ResultWriter {
    form: Form,
    counts: Counts,
    kept: KeptLines,
    total: i64,
}

impl ResultWriter {
    /// A writer that has taken nothing, which takes no memory.
    pub fn new(alloc: Global, form: Form) -> ResultWriter
        ensures { result ≡ taken_so_far form [] }
    {
        ResultWriter {
            form,
            counts: Counts { rows: 0, puncts: 0 },
            kept: KeptLines::new(alloc),
            total: 0,
        }
    }

    /// The form in which it writes.
    pub fn form(&self) -> Form
        ensures { result ≡ self.now.form }
    {
        self.form
    }

    /// How many rows and how many punctuations it has taken.
    pub fn counts(&self) -> Counts
        ensures { result ≡ self.now.counts }
    {
        self.counts
    }

    /// The sum of the last column of the rows that it has taken; 0 in a form that sums nothing.
    pub fn total(&self) -> i64
        ensures { result ≡ self.now.total }
    {
        self.total
    }

    /// Takes what was handed out, and writes the lines of it that are written as they come, each by a `write_all` of its own.
    /// On a refusal it has taken the first of it, and no other. `text` is where lines are made.
    #[inline(always)]
    pub fn take<K: Sink>(
        &mut self,
        alloc: Global,
        plan: &Plan,
        outs: &[Out],
        text: &mut Items<u8>,
        out: &mut K,
    ) -> Result<(), WriteStop>
        ensures told { IsTrue (K.state out.new).told → IsTrue (K.state out.old).told }
        ensures lines { IsTrue (K.state out.new).told → WritesBy write_cut (shown self.old.form plan.now.nodes outs.now) (K.state out.old) (K.state out.new) result }
        ensures taken { OnOk result (TakesMore self.old self.new (elements_out outs.now)) }
        ensures refused { OnErr result (OfFirst outs.now (TakesMore self.old self.new)) }
        ensures form { self.new.form ≡ self.old.form }
        ensures later { (K.state out.old).faults ≤ (K.state out.new).faults }
        ensures fault { result ≡ Err WriteStop.Failed → Rose (K.state out.old).faults (K.state out.new).faults }
    {
        match self.form {
            Form::AsTheyCome => write_outs(alloc, plan, outs, &mut self.counts, text, out)?,
            Form::Sorted => self.kept.keep(alloc, outs, &mut self.counts)?,
            Form::Summed => sum_outs(outs, &mut self.counts, &mut self.total),
        }
        Ok(())
    }

    /// Writes the lines that are written once all was taken, each by a `write_all` of its own.
    pub fn finish<K: Sink>(&self, alloc: Global, out: &mut K) -> Result<(), WriteStop>
        ensures told { IsTrue (K.state out.new).told → IsTrue (K.state out.old).told }
        ensures lines { WritesWithheld self.now (K.state out.old) (K.state out.new) result }
        ensures later { (K.state out.old).faults ≤ (K.state out.new).faults }
        ensures fault { result ≡ Err WriteStop.Failed → Rose (K.state out.old).faults (K.state out.new).faults }
    {
        self.kept.write_sorted(alloc, out)
    }
}
