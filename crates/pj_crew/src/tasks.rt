// Workers beside the writer, each on its seat.
ghost use Rattle.std.specs.Prelude.{◌≡◌, ◌<◌, [], All, length};
ghost use Rattle.std.specs.List.{AllZip};
ghost use Rattle.pj_hub.specs.Hubs.{hub_with};
ghost use Rattle.pj_hub.specs.Seated.{hub_made, hub_name};
ghost use Rattle.pj_crew.specs.Tasks.{HasWorked, IsReady};

use crate::duties::Duty;
use pj_hub::{CoreHub, HubSeat};
use pj_io::Source;
use pj_workers::{Gate, Pause, Role, feed as feed_stream, probe as probe_all, sweep_all};
use std::alloc::Global;
use std::marker::Model;
use std::sync::Wait;
use std::thread;
use std::thread::Threads;

/// A worker beside the writer, on its seat.
pub(crate) struct Task<S: Source> {
    pub seat: HubSeat,
    pub duty: Duty<S>,
}

impl<S: Source> Model for Task<S> {
    ghost use Rattle.pj_crew.specs.Tasks.{TaskState};
    ghost use Rattle.pj_crew.specs.Seats.{seat_state};

    ghost Value = { TaskState S };

    ghost view = { λ t. record { seat = seat_state t.seat; duty = t.duty } };
}

// Does the duty on its seat.
fn work<S: Source, G: Gate, P: Pause, R: Wait>(
    rt: &R,
    alloc: Global,
    hub: &CoreHub,
    task: &mut Task<S>,
    gate: &G,
    pause: &P,
)
    requires { IsReady (hub_name hub.now) (hub_with (hub_made hub.now)) task.old }
    ensures { HasWorked (hub_with (hub_made hub.now)) task.old task.new }
{
    match &mut task.duty {
        Duty::Feed {
            stream,
            feed,
            kept,
            end,
        } => {
            let index = *stream;
            pause.begin(rt, Role::Feeder, index);
            *end = feed_stream(
                rt,
                alloc,
                hub,
                &mut task.seat,
                feed,
                index,
                kept,
                gate,
                pause,
            );
            pause.end(rt, Role::Feeder, index);
        }
        Duty::Probe { index, end } => {
            pause.begin(rt, Role::Prober, *index);
            *end = probe_all(rt, alloc, hub, &mut task.seat, *index, gate, pause);
            pause.end(rt, Role::Prober, *index);
        }
        Duty::Sweep { index, places, end } => {
            pause.begin(rt, Role::Sweeper, *index);
            *end = sweep_all(
                rt,
                hub,
                &mut task.seat,
                *index,
                places.as_slice(),
                gate,
                pause,
            );
            pause.end(rt, Role::Sweeper, *index);
        }
    }
}

/// Does all duties side by side, each in a thread of its own where one can be had. Where none can, those that stand last go first.
pub(crate) fn work_all<S: Source + Send, G: Gate, P: Pause, R: Threads + Wait + Sync>(
    rt: &R,
    alloc: Global,
    hub: &CoreHub,
    tasks: &mut [Task<S>],
    gate: &G,
    pause: &P,
)
    requires { All (IsReady (hub_name hub.now) (hub_with (hub_made hub.now))) tasks.old }
    ensures { AllZip (HasWorked (hub_with (hub_made hub.now))) tasks.old tasks.new }
{
    let threads = tasks.len();
    if threads == 0 {
        return;
    }
    let each = |_: usize, task: &mut Task<S>|
        requires { IsReady (hub_name hub.now) (hub_with (hub_made hub.now)) task.old }
        ensures { HasWorked (hub_with (hub_made hub.entry.now)) task.old task.new }
    { work(rt, alloc, hub, task, gate, pause) };
    thread::for_each_mut(rt, tasks, threads, &each);
}
