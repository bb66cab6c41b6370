// The rows that are kept for a check, and its line.
ghost use Rattle.std.specs.Prelude.{◌≡◌, ◌≤◌, ◌<◌, true, length, if◌then◌else◌, IsTrue, IfOk, OnErr, OnOk, Err};
ghost use Rattle.pj_io.specs.Causes.{Rose};
ghost use Rattle.pj_report.specs.Written.{WritesBy, write_cut};
ghost use Rattle.pj_run.specs.Checking.{HoldsNone, IsThere, with_arrival, with_element};
ghost use Rattle.pj_run.specs.Runs.{check_in};

use pj_algebra::eval;
use pj_feed::Arrival;
use pj_io::Sink;
use pj_pattern::Element;
use pj_plan::Plan;
use pj_report::{WriteStop, write_check};
use pj_value::{List, NoMemory, Row};
use std::alloc::Global;

/// The rows that were accepted of each stream, where a check asks for them; else no lists.
#[derive(Drop)]
pub struct AcceptedRows {
    pub asked: bool,
    pub lists: Vec<List<Row>>,
}

impl AcceptedRows {
    /// No rows of so many streams, for each of which there is a list where rows are asked for.
    #[tactic(auto, using(crate::proofs::Keeping::none_more))]
    pub fn new(alloc: Global, asked: bool, streams: usize) -> Result<AcceptedRows, NoMemory>
        ensures asked { IfOk result (λ rows. rows.asked ≡ asked) }
        ensures none { IfOk result (λ rows. HoldsNone (if asked then streams else 0) rows.lists.items) }
    {
        let count = if asked { streams } else { 0 };
        let mut lists = Vec::with_capacity(alloc, count)?;
        for _ in 0..count {
            lists.push(List::new(alloc))?;
        }
        Ok(AcceptedRows { asked, lists })
    }

    /// Keeps the row that a turn brings, if it brings one and rows are asked for. On a refusal the rows are as they were.
    pub fn keep(&mut self, alloc: Global, next: &Arrival) -> Result<(), NoMemory>
        requires there { self.old.asked ≡ true → IsThere next.now self.old.lists.items }
        ensures asked { self.new.asked ≡ self.old.asked }
        ensures many { length self.new.lists.items ≡ length self.old.lists.items }
        ensures kept { OnOk result (self.old.asked ≡ true → self.new.lists.items ≡ with_arrival next.now self.old.lists.items) }
        ensures refused { OnErr result (self.new.lists.items ≡ self.old.lists.items) }
    {
        if !self.asked {
            return Ok(());
        }
        match next {
            Arrival::Brought { stream, element } => { self.keep_element(alloc, *stream, element) }
            Arrival::Closing { .. } => Ok(()),
        }
    }

    fn keep_element(
        &mut self,
        alloc: Global,
        stream: u32,
        element: &Element,
    ) -> Result<(), NoMemory>
        requires there { stream < length self.old.lists.items }
        ensures asked { self.new.asked ≡ self.old.asked }
        ensures many { length self.new.lists.items ≡ length self.old.lists.items }
        ensures kept { OnOk result (self.new.lists.items ≡ with_element stream element.now self.old.lists.items) }
        ensures refused { OnErr result (self.new.lists.items ≡ self.old.lists.items) }
    {
        match element {
            Element::Tuple(row) => {
                let row = row.copy(alloc)?;
                self.lists[stream as usize].push(row)?;
            }
            Element::Punct(_) => {}
        }
        Ok(())
    }
}

/// Writes the line of the check, where rows were kept for it: the number of rows of the plan's answer over them.
pub(crate) fn write_answer<K: Sink>(
    alloc: Global,
    plan: &Plan,
    accepted: &AcceptedRows,
    text: &mut List<u8>,
    out: &mut K,
) -> Result<(), WriteStop>
    ensures told { IsTrue (K.state out.new).told → IsTrue (K.state out.old).told }
    ensures lines { IsTrue (K.state out.new).told → WritesBy write_cut (check_in accepted.now.asked plan.now.nodes accepted.now.lists.items) (K.state out.old) (K.state out.new) result }
    ensures later { (K.state out.old).faults ≤ (K.state out.new).faults }
    ensures fault { result ≡ Err WriteStop.Failed → Rose (K.state out.old).faults (K.state out.new).faults }
{
    if !accepted.asked {
        return Ok(());
    }
    let answer = eval(alloc, plan, accepted.lists.as_slice())?;
    write_check(answer.len() as u64, text, out)?;
    Ok(())
}
