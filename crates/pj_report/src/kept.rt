// Lines that are kept until a run's end.
ghost use Rattle.std.specs.Prelude.{◌≡◌, ◌≤◌, ◌++◌, ◌∷◌, [], List, IsTrue, OnOk, OnErr, Err};
ghost use Rattle.pj_pattern.specs.declared.element.Element.{Element};
ghost use Rattle.pj_io.specs.Causes.{Rose};
ghost use Rattle.pj_events.specs.Outcomes.{elements_out};
ghost use Rattle.pj_report.specs.Firsts.{CountsMore, KeepsMore, OfFirst};
ghost use Rattle.pj_report.specs.Results.{counts_of};
ghost use Rattle.pj_report.specs.Sorted.{row_lines, punct_lines, sorted_lines};
ghost use Rattle.pj_report.specs.Written.{WritesBy, write_cut};

use crate::line_list::LineList;
use crate::results::{Counts, count};
use crate::stops::WriteStop;
use pj_events::Out;
use pj_io::Sink;
use pj_value::NoMemory;
use std::alloc::Global;

/// The lines of rows and those of punctuations that a run has handed out, each with its line feed, in order of arrival: kept to
/// be written in order of their bytes once the run is done.
#[derive(Drop)]
pub struct KeptLines {
    rows: LineList,
    puncts: LineList,
}

impl KeptLines {
    /// No lines, which take no memory.
    pub fn new(alloc: Global) -> KeptLines
        ensures rows { result.rows ≡ [] }
        ensures puncts { result.puncts ≡ [] }
    {
        KeptLines {
            rows: LineList::new(alloc),
            puncts: LineList::new(alloc),
        }
    }

    /// Keeps the canonical line of each element that was handed out, and counts the elements as `write_outs` does. The notes of
    /// rows that were removed are not kept. After `NoMemory` the first of those handed out are kept and counted, and no other.
    pub fn keep(&mut self, alloc: Global, outs: &[Out], counts: &mut Counts) -> Result<(), NoMemory>
        ensures rows { OnOk result (self.new.rows ≡ self.old.rows ++ row_lines (elements_out outs.now)) }
        ensures puncts { OnOk result (self.new.puncts ≡ self.old.puncts ++ punct_lines (elements_out outs.now)) }
        ensures counted { OnOk result ((before : List Element) → counts.old ≡ counts_of before → counts.new ≡ counts_of (before ++ elements_out outs.now)) }
        ensures refused { OnErr result (OfFirst outs.now (λ es. KeepsMore self.old self.new es × CountsMore counts.old counts.new es)) }
    {
        for handed in outs {
            self.keep_one(alloc, handed)?;
            count(handed, counts);
        }
        Ok(())
    }

    fn keep_one(&mut self, alloc: Global, handed: &Out) -> Result<(), NoMemory>
        ensures rows { OnOk result (self.new.rows ≡ self.old.rows ++ row_lines (elements_out (handed.now ∷ []))) }
        ensures puncts { OnOk result (self.new.puncts ≡ self.old.puncts ++ punct_lines (elements_out (handed.now ∷ []))) }
        ensures refused { OnErr result (self.new ≡ self.old) }
    {
        match handed {
            Out::Tuple(row) => self.rows.push_row(alloc, row)?,
            Out::Punct(punct) => self.puncts.push_punct(alloc, punct)?,
            Out::Purged { .. } => {}
        }
        Ok(())
    }

    /// Writes the lines of the rows in order of their bytes, and then those of the punctuations, each by a `write_all` of its
    /// own. `NoMemory` may come before the first line and before the first punctuation.
    pub fn write_sorted<K: Sink>(&self, alloc: Global, out: &mut K) -> Result<(), WriteStop>
        ensures told { IsTrue (K.state out.new).told → IsTrue (K.state out.old).told }
        ensures lines { IsTrue (K.state out.new).told → WritesBy write_cut (sorted_lines self.now.rows ++ sorted_lines self.now.puncts) (K.state out.old) (K.state out.new) result }
        ensures later { (K.state out.old).faults ≤ (K.state out.new).faults }
        ensures fault { result ≡ Err WriteStop.Failed → Rose (K.state out.old).faults (K.state out.new).faults }
    {
        self.rows.write_sorted(alloc, out)?;
        self.puncts.write_sorted(alloc, out)?;
        Ok(())
    }
}
