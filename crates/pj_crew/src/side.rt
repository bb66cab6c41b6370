// All workers of a crew side by side.
ghost use Rattle.std.specs.Prelude.{◌≡◌, All};
ghost use Rattle.std.specs.List.{AllZip};
ghost use Rattle.pj_hub.specs.Hubs.{hub_with};
ghost use Rattle.pj_hub.specs.Seated.{hub_made, hub_name};
ghost use Rattle.pj_crew.specs.Tasks.{HasWorked, HasWritten, IsFreshSeat, IsReady};

use crate::tasks::{Task, work_all};
use crate::writer::{Writer, write_all};
use pj_hub::CoreHub;
use pj_io::{Sink, Source};
use pj_plan::Plan;
use pj_workers::{Gate, Pause};
use std::alloc::Global;
use std::sync::Wait;
use std::thread::{Threads, join_mut};

/// Does all duties and writes, side by side. Where no thread can be had, the duties go first, and of them those that stand last.
pub(crate) fn run_side_by_side<
    S: Source + Send,
    K: Sink + Send,
    G: Gate,
    P: Pause,
    R: Threads + Wait + Sync,
>(
    rt: &R,
    alloc: Global,
    hub: &CoreHub,
    plan: &Plan,
    gate: &G,
    pause: &P,
    writer: &mut Writer,
    out: &mut K,
    tasks: &mut [Task<S>],
)
    requires tasks { All (IsReady (hub_name hub.now) (hub_with (hub_made hub.now))) tasks.old }
    requires writer { IsFreshSeat (hub_name hub.now) writer.old.seat }
    ensures worked { AllZip (HasWorked (hub_with (hub_made hub.now))) tasks.old tasks.new }
    ensures written { HasWritten (hub_with (hub_made hub.now)) plan.now.nodes writer.old writer.new (K.state out.old) (K.state out.new) }
{
    let mut write = ||
        requires { IsFreshSeat (hub_name hub.now) writer.now.seat }
        ensures { HasWritten (hub_with (hub_made hub.entry.now)) plan.entry.now.nodes writer.entry.now writer.exit.now (K.state out.entry.now) (K.state out.exit.now) }
    { write_all(rt, alloc, hub, plan, writer, out, gate, pause) };
    let mut work = ||
        requires { All (IsReady (hub_name hub.now) (hub_with (hub_made hub.now))) tasks.now }
        ensures { AllZip (HasWorked (hub_with (hub_made hub.entry.now))) tasks.entry.now tasks.exit.now }
    { work_all(rt, alloc, hub, tasks, gate, pause) };
    join_mut(rt, &mut write, &mut work);
}
