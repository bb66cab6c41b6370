// Three probes of one join under way at once.
ghost use Rattle.std.specs.Prelude.{◌<◌, [], ◌∷◌, IfSome, IsTrue, OnOk};
ghost use Rattle.pj_test_cores.specs.Holding.{HasClosed, HasCome, HoldsStill, HoldsToo, IsFed, IsHolding, LetsGo};

use crate::cases::{are, core_over, element_of, has_input};
use crate::cores::{PAIR, PAIR_CERTS};
use pj_core::{Core, Probe};
use pj_pattern::Element;
use pj_value::NoMemory;
use std::alloc::Global;

// The node of the pair's join.
const JOIN: u32 = 2;

// ---- what comes

fn come(alloc: Global, core: &mut Core, stream: u32, line: &str) -> Result<(), NoMemory>
    ensures { OnOk result (HasCome core.old core.new stream) }
{
    match element_of(alloc, core.plan(), stream, line)? {
        Element::Tuple(row) => match core.arrive(stream, Element::Tuple(row)) {
            Ok(()) => Ok(()),
            Err(_) => Err(NoMemory),
        },
        Element::Punct(_) => Err(NoMemory),
    }
}

#[tactic(auto, using(crate::proofs::Holding::fed_more))]
fn come_all(alloc: Global, core: &mut Core, rows: &[(u32, &str)]) -> Result<(), NoMemory>
    requires { IsFed core.old }
    ensures { OnOk result (IsFed core.new) }
{
    for (stream, line) in rows {
        come(alloc, core, *stream, line)?;
    }
    Ok(())
}

// Whether a stream was closed.
fn end(core: &mut Core, stream: u32) -> bool
    ensures { IsTrue result → HasClosed core.old core.new stream }
{
    if (stream as usize) < core.plan().streams().len() {
        return core.close_stream(stream).is_ok();
    }
    false
}

// Both streams end.
fn end_both(core: &mut Core) -> bool
    requires { IsFed core.old }
    ensures { IsTrue result → IsHolding core.new [] }
{
    if !end(core, 0) {
        return false;
    }
    end(core, 1)
}

// ---- probes

fn take_one(core: &mut Core) -> Option<Probe>
    ensures { IfSome result (λ probe. HoldsToo core.old core.new probe) }
{
    match core.take() {
        Ok(Some(probe)) => Some(probe),
        Ok(None) => None,
        Err(_) => None,
    }
}

// How many rows the sweep of an input of the join removes.
fn swept(core: &mut Core, input: u32) -> Option<u64>
    ensures { IfSome result (λ count. HoldsStill core.old core.new) }
{
    if has_input(core.plan(), JOIN, input) {
        match core.sweep(JOIN, input) {
            Ok(count) => Some(count),
            Err(_) => None,
        }
    } else {
        None
    }
}

// Works on a probe and gives it.
fn give_one(alloc: Global, core: &mut Core, probe: Probe) -> bool
    requires { IsHolding core.old (probe ∷ []) }
    ensures { IsTrue result → LetsGo core.old core.new probe }
{
    match probe.work(alloc) {
        Ok(found) => match core.give(probe, found) {
            Ok(()) => true,
            Err(_) => false,
        },
        Err(NoMemory) => false,
    }
}

// Gives the third, the second and the first, with a sweep before each. Answers how many rows the sweeps removed.
fn give_three(
    alloc: Global,
    core: &mut Core,
    first: Probe,
    second: Probe,
    third: Probe,
) -> Option<(u64, u64, u64)>
    requires held { IsHolding core.old (third ∷ second ∷ first ∷ []) }
    requires rise { (first.ticket < second.ticket) × (second.ticket < third.ticket) }
{
    let early = swept(core, 0)?;
    if !give_one(alloc, core, third) {
        return None;
    }
    let between = swept(core, 1)?;
    if !give_one(alloc, core, second) {
        return None;
    }
    let late = swept(core, 0)?;
    if !give_one(alloc, core, first) {
        return None;
    }
    Some((early, between, late))
}

// Takes three tickets, and gives them the other way round.
fn hold_three(alloc: Global, core: &mut Core) -> Option<(u64, u64, u64)>
    requires { IsHolding core.old [] }
{
    let first = take_one(core)?;
    let second = take_one(core)?;
    let third = take_one(core)?;
    if first.ticket() < second.ticket() {
        if second.ticket() < third.ticket() {
            return give_three(alloc, core, first, second, third);
        }
    }
    None
}

// An item and two bids on it.
const ROWS: &[(u32, &str)] = &[(0, "t 1 7"), (1, "t 1 50"), (1, "t 1 60")];

// A core of the pair to which they came, and whose streams ended.
fn ended(alloc: Global) -> Option<Core>
    ensures { IfSome result (λ core. IsHolding core []) }
{
    match core_over(alloc, PAIR, PAIR_CERTS, 9, false) {
        Ok(Some(mut core)) => {
            if come_all(alloc, &mut core, ROWS).is_err() {
                return None;
            }
            if end_both(&mut core) {
                return Some(core);
            }
            None
        }
        _ => None,
    }
}

// How many rows the sweeps between removed, whether these lines are handed out once the run settles, and how many rows are stored
// and punctuations wait then.
fn held(alloc: Global, lines: &str) -> Option<((u64, u64, u64), bool, [u64; 2])> {
    let mut core = ended(alloc)?;
    let removed = hold_three(alloc, &mut core)?;
    match core.settle() {
        Ok(outs) => {
            let handed = are(alloc, outs.as_slice(), lines) == Ok(true);
            let look = core.look();
            Some((removed, handed, [look.stored, look.waiting]))
        }
        Err(_) => None,
    }
}

// Though both streams have ended, no row goes while the first ticket is under way. The rows are handed out in the order in which
// their tickets were given, and once the run settles the end of both streams behind them; nothing is stored then.
#[test]
fn three_probes_are_given_the_other_way_round(rt: HostRuntime) {
    let lines = "t 1 7 1 60\nt 1 7 1 50\np * * * *\np * * * *\n";
    assert_eq!(rt; held(rt.alloc(), lines), Some(((0, 0, 0), true, [0, 0])));
}
