// Which stored tuples of an input are ripe.
ghost use Rattle.std.specs.Prelude.{◌≡◌, ◌++◌, length, map, nat_lt, slice_get, take, Some, OnOk, OnErr, IfOk};
ghost use Rattle.pj_state.specs.Rising.{IsRising, itself};
ghost use Rattle.pj_state.specs.States.{stored, ticket_of};
ghost use Rattle.pj_recheck.specs.Judging.{BothMore, one_if, ripe_rows, ripe_tickets, row_in, rows_at};
ghost use Rattle.pj_recheck.specs.Watching.{AreJudged, AreLookedAt, HaveBetween, HaveDue, IsOneJudged, IsVerdict, NoneIsRipe, all_picked, marked_by, picked};

use crate::marks::{DueRechecks, SweepResult};
use crate::stored::Inputs;
use pj_cover::{PurgeRoute, Verdict, judge_row};
use pj_puncts::PunctStore;
use pj_rows::in_order;
use pj_shape::{JoinSpec, Schemes};
use pj_state::{Spot, State};
use pj_value::{List, NoMemory, Row};
use std::alloc::Global;
use std::marker::Model;

/// What the stored rows of an input are judged by: the join's shape and schemes, the route that follows the input's certificate,
/// the rows and the punctuations of all inputs, and the low-water ticket.
#[derive(Drop)]
pub struct Judge<'a> {
    pub spec: &'a JoinSpec,
    pub schemes: &'a Schemes,
    pub route: &'a PurgeRoute,
    pub input: u32,
    pub row_states: &'a [State],
    pub punct_stores: &'a [PunctStore],
    pub low: u64,
}

impl<'a> Model for Judge<'a> {
    ghost use Rattle.pj_cover.specs.Routes.{steps_in};
    ghost use Rattle.pj_recheck.specs.Judging.{JudgeView, MayJudge};

    ghost Value = { JudgeView };

    ghost view = { λ j. record { spec = j.spec.now; schemes = j.schemes.now; cert = steps_in j.route.now; input = j.input; row_states = j.row_states.now; punct_stores = j.punct_stores.now; low = j.low } };

    ghost invariant = { λ j. MayJudge j.spec.now j.schemes.now j.route.now j.input j.row_states.now j.punct_stores.now };
}

// Puts the row at the end of those that go, and its ticket to theirs, where it is ripe; or neither.
fn sort_out(
    alloc: Global,
    goes: bool,
    ticket: u64,
    row: &Row,
    gone: &mut List<u64>,
    removed: &mut List<Row>,
) -> Result<(), NoMemory>
    ensures ok { OnOk result (BothMore gone.old gone.new (one_if goes ticket) removed.old removed.new (one_if goes row.now)) }
    ensures err { OnErr result (removed.new ≡ removed.old) }
{
    if goes {
        gone.push(ticket)?;
        removed.push(row.copy(alloc)?)?;
    }
    Ok(())
}

// Puts the ticket at the end of those that are marked where the row is judged again: where punctuations from the low-water
// ticket on alone cover what it asks for. Where none does, it is passed over until one comes.
fn keep_marked(verdict: Verdict, ticket: u64, marked: &mut List<u64>) -> Result<(), NoMemory>
    ensures { OnOk result (marked.new ≡ marked.old ++ one_if (marked_by verdict) ticket) }
{
    match verdict {
        Verdict::Ripe => Ok(()),
        Verdict::Open => Ok(()),
        Verdict::Lagging => marked.push(ticket),
    }
}

// Puts the ticket at the end where it is below the low-water ticket.
fn push_below(ticket: u64, low: u64, list: &mut List<u64>) -> Result<(), NoMemory>
    ensures { OnOk result (list.new ≡ list.old ++ one_if (nat_lt ticket low) ticket) }
{
    if ticket < low {
        list.push(ticket)?;
    }
    Ok(())
}

// The tickets of the rows from a ticket on and below the low-water ticket.
fn young(alloc: Global, state: &State, from: u64, low: u64) -> Result<List<u64>, NoMemory>
    ensures order { IsRising ticket_of state.now.rows }
    ensures young { IfOk result (HaveBetween state.now.rows from low) }
{
    let mut list = List::new(alloc);
    let count = state.len();
    if low <= from {
        return Ok(list);
    }
    let mut rows = state.cursor();
    for back in 0..count {
        let (ticket, _) = rows.nth(count - 1 - back);
        if ticket < from {
            return Ok(list);
        }
        push_below(ticket, low, &mut list)?;
    }
    Ok(list)
}

// The tickets of the rows that are judged, and maybe others, in order. A row whose ticket is not below the low-water ticket is
// not ripe: it is judged once that has risen.
fn to_judge(alloc: Global, due: &DueRechecks, state: &State, low: u64) -> Result<Vec<u64>, NoMemory>
    ensures order { IsRising ticket_of state.now.rows }
    ensures rising { IfOk result (λ tickets. IsRising itself tickets.items) }
    ensures all { IfOk result (λ tickets. HaveDue state.now.rows due.now low tickets.items) }
{
    let mut list = young(alloc, state, due.from, low)?;
    if due.marked.len() > 0 {
        list.append(due.marked.as_slice())?;
    }
    Ok(in_order(list))
}

impl<'a> Judge<'a> {
    // What is said of a row that is stored.
    fn verdict(&self, ticket: u64, row: &Row) -> Verdict
        requires { (at : _) × (slice_get (rows_at self.now) at ≡ Some (stored ticket row.now)) }
        ensures { IsVerdict self.now (stored ticket row.now) result }
    {
        if self.low <= ticket {
            return Verdict::Open;
        }
        let rows = Inputs {
            row_states: self.row_states,
        };
        judge_row(
            self.spec,
            self.schemes,
            self.route,
            self.input,
            row,
            &rows,
            self.punct_stores,
            self.low,
        )
    }

    // Judges the row with a ticket, where there is one. It goes where it is ripe, or is marked where it is judged again.
    fn judge_one(
        &self,
        alloc: Global,
        ticket: u64,
        near: &mut Spot,
        judged: &mut SweepResult,
        removed: &mut List<Row>,
    ) -> Result<(), NoMemory>
        ensures ok { OnOk result (IsOneJudged self.now ticket judged.old judged.new) }
        ensures removed { OnOk result (removed.new ≡ removed.old ++ map row_in (picked self.now ticket)) }
        ensures err { OnErr result (removed.new ≡ removed.old) }
    {
        match self.row_states[self.input as usize].get_near(ticket, near) {
            None => Ok(()),
            Some(row) => {
                let verdict = self.verdict(ticket, row);
                keep_marked(verdict, ticket, &mut judged.marked)?;
                sort_out(
                    alloc,
                    verdict.is_ripe(),
                    ticket,
                    row,
                    &mut judged.gone,
                    removed,
                )?;
                Ok(())
            }
        }
    }

    // Judges the rows with these tickets.
    fn judge_all(
        &self,
        alloc: Global,
        tickets: &[u64],
        removed: &mut List<Row>,
    ) -> Result<SweepResult, NoMemory>
        ensures judged { IfOk result (λ judged. AreJudged self.now tickets.now judged) }
        ensures removed { OnOk result (removed.new ≡ removed.old ++ map row_in (all_picked self.now tickets.now)) }
        ensures err { OnErr result (take (length removed.old) removed.new ≡ removed.old) }
    {
        let mut judged = SweepResult {
            gone: List::new(alloc),
            marked: List::new(alloc),
        };
        let mut near = Spot::new();
        for ticket in tickets {
            self.judge_one(alloc, *ticket, &mut near, &mut judged, removed)?;
        }
        Ok(judged)
    }

    /// Puts the rows that are ripe at the end of `removed`, and answers their tickets, and which others are marked now. Those
    /// that are passed over are not looked at. After a refusal `removed` begins as before.
    pub fn ripe_ones(
        &self,
        alloc: Global,
        due: &DueRechecks,
        removed: &mut List<Row>,
    ) -> Result<SweepResult, NoMemory>
        requires passed { NoneIsRipe self.now due.now }
        ensures gone { IfOk result (λ judged. judged.gone ≡ ripe_tickets self.now) }
        ensures rising { IfOk result (λ judged. IsRising itself judged.gone) }
        ensures left { IfOk result (λ judged. AreLookedAt self.now due.now judged.marked) }
        ensures removed { OnOk result (removed.new ≡ removed.old ++ ripe_rows self.now) }
        ensures err { OnErr result (take (length removed.old) removed.new ≡ removed.old) }
    {
        let tickets = to_judge(alloc, due, &self.row_states[self.input as usize], self.low)?;
        let judged = self.judge_all(alloc, tickets.as_slice(), removed)?;
        Ok(judged)
    }
}
