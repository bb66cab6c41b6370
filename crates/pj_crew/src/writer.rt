// The writer on its seat.
ghost use Rattle.std.specs.Prelude.{◌≡◌, ◌≤◌, [], IsTrue};
ghost use Rattle.pj_hub.specs.Hubs.{hub_with};
ghost use Rattle.pj_hub.specs.Seated.{hub_made, hub_name};
ghost use Rattle.pj_crew.specs.Seats.{seat_state};
ghost use Rattle.pj_crew.specs.Tasks.{HasWritten, IsFreshSeat};

use pj_hub::{CoreHub, HubSeat};
use pj_io::Sink;
use pj_plan::Plan;
use pj_report::ResultWriter;
use pj_workers::{Gate, Pause, Role, WriteEnd, write_out};
use std::alloc::Global;
use std::marker::Model;
use std::sync::Wait;

/// The writer on its seat, with the results that it writes or keeps, and, once it has, how it ended.
pub(crate) struct Writer {
    pub seat: HubSeat,
    pub results: ResultWriter,
    pub end: WriteEnd,
}

impl Model for Writer {
    ghost use Rattle.pj_crew.specs.Tasks.{WriterState};
    ghost use Rattle.pj_crew.specs.Seats.{seat_state};

    ghost Value = { WriterState };

    ghost view = { λ w. record { seat = seat_state w.seat; results = w.results; end = w.end } };
}

/// Writes what is handed out until all streams ended.
pub(crate) fn write_all<K: Sink, G: Gate, P: Pause, R: Wait>(
    rt: &R,
    alloc: Global,
    hub: &CoreHub,
    plan: &Plan,
    writer: &mut Writer,
    out: &mut K,
    gate: &G,
    pause: &P,
)
    requires { IsFreshSeat (hub_name hub.now) writer.old.seat }
    ensures written { HasWritten (hub_with (hub_made hub.now)) plan.now.nodes writer.old writer.new (K.state out.old) (K.state out.new) }
{
    pause.begin(rt, Role::Writer, 0);
    writer.end = write_out(
        rt,
        alloc,
        hub,
        &mut writer.seat,
        plan,
        &mut writer.results,
        out,
        gate,
        pause,
    );
    pause.end(rt, Role::Writer, 0);
}
