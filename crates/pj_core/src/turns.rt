// Whole turns of a run on one thread.
ghost use Rattle.std.specs.Prelude.{true, ◌+◌, ◌≡◌, ◌<◌, ◌≤◌, None, length, IfErr, IfOk, OnOk};
ghost use Rattle.pj_pattern.specs.Fitting.{FitsDomains};
ghost use Rattle.pj_shape.specs.Columns.{domains_of};
ghost use Rattle.pj_plan.specs.Nodes.{streams_of, stream_columns, streams_in};
ghost use Rattle.pj_events.specs.OneThread.{is_punct as brings_punct};
ghost use Rattle.pj_core.specs.Calls.{IsJoinInput, IsTurnRefused, MakesTurn, arriving_of, closing_of};
ghost use Rattle.pj_core.specs.Settling.{IsSettlingRefused};
ghost use Rattle.pj_core.specs.Turns.{Finishes, IsQuiet, IsQuietBelow, IsSoundCore, Makes, StopsMaking, probing, probing_at, sweeping, sweeping_all, sweeping_at, swept_where, working};

use crate::Core;
use pj_events::{Out, Stop};
use pj_pattern::Element;
use pj_value::List;

impl Core {
    /// A whole turn: an element arrives, and every pending ticket is taken, worked on and given, in order. Where the element
    /// is a punctuation, each join is then swept, input by input, and all that is pending after each sweep is done. At the end
    /// all that was not drained is handed out.
    ///
    /// `Limit` comes exactly where an entry of the turn brings one element more to a join or a group than may reach it; `NoMemory`
    /// where memory could not be had. What the turn gained before stays to be drained. After a stop the core answers the same
    /// stop and changes nothing.
    pub fn turn(&mut self, stream: u32, element: Element) -> Result<List<Out>, Stop>
        requires there { stream < length (streams_of self.old.plan.nodes) }
        requires fits { FitsDomains (domains_of (stream_columns (streams_in self.old.plan.nodes) stream)) element }
        ensures ok { IfOk result (λ outs. MakesTurn self.old self.new (arriving_of stream element) outs) }
        ensures err { IfErr result (λ stop. IsTurnRefused self.old.kept.stop self.old self.new (arriving_of stream element) stop) }
    {
        let sweeps = is_punct(&element);
        self.arrive(stream, element)?;
        let outs = self.finish_turn(sweeps)?;
        Ok(outs)
    }

    /// The turn that closes a stream, in the same way.
    pub fn closing_turn(&mut self, stream: u32) -> Result<List<Out>, Stop>
        requires there { stream < length (streams_of self.old.plan.nodes) }
        ensures ok { IfOk result (λ outs. MakesTurn self.old self.new (closing_of self.old stream) outs) }
        ensures err { IfErr result (λ stop. IsTurnRefused self.old.kept.stop self.old self.new (closing_of self.old stream) stop) }
    {
        self.close_stream(stream)?;
        let outs = self.finish_turn(true)?;
        Ok(outs)
    }

    /// Settles the run: every pending ticket is taken, worked on and given, in order; each join is then swept, input by input, and
    /// all that is pending after each sweep is done; and all that was not drained is handed out. Where every stream is closed and
    /// no probe is under way, the history is then complete (`work_settles`).
    ///
    /// The stops are those of a turn.
    pub fn settle(&mut self) -> Result<List<Out>, Stop>
        ensures on { OnOk result (self.old.kept.stop ≡ None) }
        ensures ok { IfOk result (λ outs. Finishes true self.old self.new outs) }
        ensures err { IfErr result (λ stop. IsSettlingRefused self.old.kept.stop self.old self.new stop) }
    {
        match self.stopped() {
            Some(stop) => Err(stop),
            None => match self.finish_turn(true) {
                Ok(outs) => Ok(outs),
                Err(stop) => Err(stop),
            },
        }
    }

    // All probes, where `sweeps` a sweep of each input of each join with all probes after each, and a drain.
    fn finish_turn(&mut self, sweeps: bool) -> Result<List<Out>, Stop>
        requires { self.old.kept.stop ≡ None }
        ensures ok { IfOk result (λ outs. Finishes sweeps self.old self.new outs) }
        ensures err { IfErr result (λ stop. StopsMaking self.old self.new (working sweeps self.old) stop) }
    {
        self.work(sweeps)?;
        Ok(self.drain())
    }

    // All probes, and where `sweeps` a sweep of each input of each join with all probes after each.
    fn work(&mut self, sweeps: bool) -> Result<(), Stop>
        requires { self.old.kept.stop ≡ None }
        ensures ok { OnOk result (Makes self.old self.new (working sweeps self.old)) }
        ensures err { IfErr result (λ stop. StopsMaking self.old self.new (working sweeps self.old) stop) }
    {
        self.probe_from(0)?;
        self.sweep_where(sweeps)?;
        Ok(())
    }

    fn sweep_where(&mut self, sweeps: bool) -> Result<(), Stop>
        requires on { self.old.kept.stop ≡ None }
        requires quiet { IsQuiet self.old }
        ensures ok { OnOk result (Makes self.old self.new (swept_where sweeps self.old)) }
        ensures err { IfErr result (λ stop. StopsMaking self.old self.new (swept_where sweeps self.old) stop) }
    {
        if sweeps {
            match self.sweep_all() {
                Ok(()) => Ok(()),
                Err(stop) => Err(stop),
            }
        } else {
            Ok(())
        }
    }

    // A sweep of each input of each join in order, and all probes after each.
    fn sweep_all(&mut self) -> Result<(), Stop>
        requires on { self.old.kept.stop ≡ None }
        requires quiet { IsQuiet self.old }
        ensures ok { OnOk result (Makes self.old self.new (sweeping_all self.old)) }
        ensures err { IfErr result (λ stop. StopsMaking self.old self.new (sweeping_all self.old) stop) }
    {
        let nodes = self.node_count();
        for node in 0..nodes {
            self.sweep_node(node)?;
        }
        Ok(())
    }

    // Where the node is a join, a sweep of each of its inputs in order, and all probes after each.
    fn sweep_node(&mut self, node: u32) -> Result<(), Stop>
        requires on { self.old.kept.stop ≡ None }
        requires quiet { IsQuiet self.old }
        requires there { node < length self.old.plan.nodes }
        ensures ok { OnOk result (Makes self.old self.new (sweeping_at self.old node)) }
        ensures err { IfErr result (λ stop. StopsMaking self.old self.new (sweeping_at self.old node) stop) }
        ensures quiet { OnOk result (IsQuiet self.new) }
    {
        let inputs = self.places(node);
        for input in 0..inputs {
            self.sweep_and_probe(node, input)?;
        }
        Ok(())
    }

    // A sweep of an input of a join, and all probes: only from that join on can there be new ones.
    fn sweep_and_probe(&mut self, join: u32, input: u32) -> Result<(), Stop>
        requires on { self.old.kept.stop ≡ None }
        requires quiet { IsQuiet self.old }
        requires there { IsJoinInput self.old join input }
        ensures ok { OnOk result (Makes self.old self.new (sweeping self.old join input)) }
        ensures err { IfErr result (λ stop. StopsMaking self.old self.new (sweeping self.old join input) stop) }
        ensures quiet { OnOk result (IsQuiet self.new) }
    {
        let _count = self.sweep_one(join, input)?;
        self.probe_from(join)?;
        Ok(())
    }

    // Takes and gives every pending ticket, node by node; below the first of these nodes none is pending.
    fn probe_from(&mut self, first: u32) -> Result<(), Stop>
        requires on { self.old.kept.stop ≡ None }
        requires there { first ≤ length self.old.plan.nodes }
        requires quiet { IsQuietBelow self.old first }
        ensures ok { OnOk result (Makes self.old self.new (probing self.old)) }
        ensures err { IfErr result (λ stop. StopsMaking self.old self.new (probing self.old) stop) }
        ensures quiet { OnOk result (IsQuiet self.new) }
    {
        let nodes = self.node_count();
        for node in first..nodes {
            self.probe_node(node)?;
        }
        Ok(())
    }

    // Takes and gives every ticket that is pending at a node, in order.
    fn probe_node(&mut self, node: u32) -> Result<(), Stop>
        requires on { self.old.kept.stop ≡ None }
        requires sound { IsSoundCore self.old }
        ensures ok { OnOk result (Makes self.old self.new (probing_at self.old node)) }
        ensures err { IfErr result (λ stop. StopsMaking self.old self.new (probing_at self.old node) stop) }
        ensures quiet { OnOk result (IsQuietBelow self.old node → IsQuietBelow self.new (node + 1)) }
    {
        'probing: loop {
            match self.probe_at(node) {
                Ok(true) => {}
                Ok(false) => return Ok(()),
                Err(stop) => return Err(stop),
            }
        }
    }

    // The number of nodes of the plan, which is sound.
    fn node_count(&self) -> u32
        ensures count { result ≡ length self.now.plan.nodes }
        ensures sound { IsSoundCore self.now }
    {
        self.plan().nodes()
    }
}

// Whether the element is a punctuation.
fn is_punct(element: &Element) -> bool
    ensures { result ≡ brings_punct element.now }
{
    match element {
        Element::Tuple(_) => false,
        Element::Punct(_) => true,
    }
}
