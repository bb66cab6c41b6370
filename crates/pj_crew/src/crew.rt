// The run of a crew.
ghost use Rattle.std.specs.Prelude.{◌≡◌, ◌≤◌, ◌+◌, ℕ, [], length, vec_capacity, IfErr, IfOk};
ghost use Rattle.pj_core.specs.Calls.{IsFresh};
ghost use Rattle.pj_core.specs.Plans.{RunPlan};
ghost use Rattle.pj_hub.specs.Hubs.{hub_with, made_with, plan_of};
ghost use Rattle.pj_hub.specs.Seated.{AreNewSeats, hub_made, hub_seats};
ghost use Rattle.pj_crew.specs.Duties.{MayBeginFrom};
ghost use Rattle.pj_crew.specs.Crews.{HasRun};

use crate::duties::Duty;
use crate::seating::{leave_seats, take_seats};
use crate::side::run_side_by_side;
use crate::tasks::Task;
use crate::writer::Writer;
use pj_core::Core;
use pj_hub::{CoreHub, HubSeat};
use pj_io::{Sink, Source};
use pj_plan::Plan;
use pj_report::ResultWriter;
use pj_value::{List, NoMemory};
use pj_workers::{Gate, Pause, WriteEnd};
use std::alloc::Global;
use std::sync::Wait;
use std::thread::Threads;

/// What a crew leaves: the core with the one history, each duty with how it ended, the results, and how the writer ended.
pub struct Ended<S: Source> {
    pub core: Core,
    pub duties: Vec<Duty<S>>,
    pub results: ResultWriter,
    pub end: WriteEnd,
}

/// Runs a crew over a new core: each of these duties, at most 63, on the seat of its place, and the writer on the last one, side by
/// side until all have ended. A stream is fed on the seat of its number.
///
/// What they did is one history, for which the core stands. Where memory can't be had nothing is done, and the duties come back.
pub fn run_crew<S: Source + Send, K: Sink + Send, G: Gate, P: Pause, R: Threads + Wait + Sync>(
    rt: &R,
    alloc: Global,
    core: Core,
    plan: &Plan,
    duties: Vec<Duty<S>>,
    results: ResultWriter,
    out: &mut K,
    gate: &G,
    pause: &P,
) -> Result<Ended<S>, Vec<Duty<S>>>
    requires fresh { (of : RunPlan) × (limit : ℕ) × IsFresh core of limit }
    requires few { length duties.items ≤ 63 }
    requires may { MayBeginFrom (plan_of core) 0 duties.items }
    ensures refused { IfErr result (λ left. (left.items ≡ duties.items) × (K.state out.new ≡ K.state out.old)) }
    ensures run { IfOk result (HasRun (record { made = made_with core; nodes = plan.now.nodes; duties = duties.items; results = results }) (K.state out.old) (K.state out.new)) }
{
    let workers = duties.len();
    let tasks = match Vec::with_capacity(alloc, workers) {
        Ok(tasks) => tasks,
        Err(_) => return Err(duties),
    };
    match CoreHub::new(alloc, core, workers as u32 + 1) {
        Ok((hub, seats)) => Ok(run_seated(
            rt,
            alloc,
            hub,
            plan,
            seats.into_vec(),
            tasks,
            duties,
            results,
            out,
            gate,
            pause,
        )),
        Err(NoMemory) => {
            tasks.destroy_empty();
            Err(duties)
        }
    }
}

// Runs a crew at a new hub, whose seats these are: one for each duty, and one for the writer. There is room for the tasks.
fn run_seated<S: Source + Send, K: Sink + Send, G: Gate, P: Pause, R: Threads + Wait + Sync>(
    rt: &R,
    alloc: Global,
    hub: CoreHub,
    plan: &Plan,
    mut seats: Vec<HubSeat>,
    mut tasks: Vec<Task<S>>,
    mut duties: Vec<Duty<S>>,
    results: ResultWriter,
    out: &mut K,
    gate: &G,
    pause: &P,
) -> Ended<S>
    requires hub { hub_seats hub ≡ length duties.items + 1 }
    requires seats { (length seats.items ≡ length duties.items + 1) × AreNewSeats hub seats.items }
    requires room { (tasks.items ≡ []) × (length duties.items ≤ vec_capacity tasks) }
    requires may { MayBeginFrom (hub_with (hub_made hub)) 0 duties.items }
    ensures { HasRun (record { made = hub_made hub; nodes = plan.now.nodes; duties = duties.items; results = results }) (K.state out.old) (K.state out.new) result }
{
    let seat = match seats.pop() {
        Some(seat) => seat,
        None => unreachable!(),
    };
    let mut writer = Writer {
        seat,
        results,
        end: WriteEnd::Over,
    };
    take_seats(&mut seats, &mut duties, &mut tasks);
    run_side_by_side(
        rt,
        alloc,
        &hub,
        plan,
        gate,
        pause,
        &mut writer,
        out,
        tasks.as_mut_slice(),
    );
    leave_seats(&mut tasks, &mut seats, &mut duties);
    tasks.destroy_empty();
    let Writer { seat, results, end } = writer;
    seats.push_reserved(seat);
    let core = hub.close(List::of(seats));
    Ended {
        core,
        duties,
        results,
        end,
    }
}
