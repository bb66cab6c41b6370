// A core that a crew leaves is settled.
ghost use Rattle.std.specs.Prelude.{◌≡◌, ◌≤◌, None, IsTrue, IfErr, OnOk, Err};
ghost use Rattle.pj_events.specs.declared.events.Stop.{Stop as CoreStop};
ghost use Rattle.pj_io.specs.Causes.{Rose};
ghost use Rattle.pj_parallel.specs.Settling.{Settled, SettlesInto, SettleStops};

use pj_core::{Core, Out, Stop};
use pj_io::Sink;
use pj_report::ResultWriter;
use pj_run::{TurnStop, turn_end};
use pj_value::List as Items;
use std::alloc::Global;

/// Settles a core that has not stopped, and gives what it hands out to the writer. `text` is where lines are made.
///
/// `Limit` comes where an entry on the way brings one element beyond the limit of a node; exactly what was handed out before that is
/// written first. Where that fails, `Cut` tells the stop that came before.
pub(crate) fn settle<K: Sink>(
    alloc: Global,
    core: &mut Core,
    results: &mut ResultWriter,
    text: &mut Items<u8>,
    out: &mut K,
) -> Result<(), TurnStop>
    requires on { core.old.kept.stop ≡ None }
    ensures plan { core.new.plan ≡ core.old.plan }
    ensures told { IsTrue (K.state out.new).told → IsTrue (K.state out.old).told }
    ensures done { OnOk result (SettlesInto core.old core.new results.old results.new (K.state out.old) (K.state out.new)) }
    ensures stops { IfErr result (SettleStops results.old.form core.old core.new (K.state out.old) (K.state out.new)) }
    ensures form { results.new.form ≡ results.old.form }
    ensures later { (K.state out.old).faults ≤ (K.state out.new).faults }
    ensures fault { result ≡ Err TurnStop.WriteFailed → Rose (K.state out.old).faults (K.state out.new).faults }
    ensures cut { (stop : CoreStop) → result ≡ Err (TurnStop.Cut stop) → Rose (K.state out.old).faults (K.state out.new).faults }
{
    let handed = settle_core(core);
    let written = results.take(alloc, core.plan(), handed.outs.as_slice(), text, out);
    turn_end(written, handed.stop)
}

// What settling handed out, and why the core stopped in it, if it did.
#[derive(Drop)]
struct Handed {
    outs: Items<Out>,
    stop: Option<Stop>,
}

fn settle_core(core: &mut Core) -> Handed
    requires on { core.old.kept.stop ≡ None }
    ensures plan { core.new.plan ≡ core.old.plan }
    ensures settled { Settled core.old core.new result.outs result.stop }
{
    match core.settle() {
        Ok(outs) => Handed { outs, stop: None },
        Err(stop) => Handed {
            outs: core.drain(),
            stop: Some(stop),
        },
    }
}
