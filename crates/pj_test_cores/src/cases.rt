// Cores of plans by their text, and steps on them. A text that can't be read counts as want of memory, which no test expects.
ghost use Rattle.std.specs.Prelude.{◌≡◌, ◌<◌, ◌≤◌, ◌^◌, None, true, length, IfOk, IfSome, IsTrue};
ghost use Rattle.pj_shape.specs.Columns.{domains_of};
ghost use Rattle.pj_pattern.specs.Fitting.{FitsDomains};
ghost use Rattle.pj_plan.specs.Canonical.{node_at};
ghost use Rattle.pj_plan.specs.Nodes.{inputs_of, is_join, streams_of, stream_columns, streams_in};
ghost use Rattle.pj_core.specs.Calls.{FitNode, IsOpen};
ghost use Rattle.pj_test_cores.specs.Holding.{IsFed};

use pj_core::{Core, Out, Probe, Stop};
use pj_element::{Read, punct_text, read_element, row_text};
use pj_pattern::Element;
use pj_plan::{Node, Plan};
use pj_plan_text::read_plan;
use pj_safe_core::verified_core;
use pj_shape::{Cert, CertStep, Schema};
use pj_value::{List, NoMemory};
use std::alloc::Global;

// For each join, and each of its inputs, the steps of a certificate: inputs with the places of their schemes.
pub(crate) type Certs = &'static [&'static [&'static [(u32, u32)]]];

// A step on a core, and what it answers.
#[derive(Clone, Copy)]
pub(crate) enum Step {
    // A turn that brings the element of this line to a stream, or that closes it where the line is `end`: it hands out these lines,
    // or stops.
    Turn(u32, &'static str, Result<&'static str, Stop>),
    // The element of this line arrives at a stream.
    Arrive(u32, &'static str),
    // The next ticket is taken and given, and then these lines are handed out.
    Give(&'static str),
    // A sweep of an input of a join removes so many rows.
    Sweep(u32, u32, u64),
    // All that is left is handed out: these lines.
    Drain(&'static str),
    // So many rows are stored, punctuations wait, and streams have ended.
    Look(u64, u64, u32),
    // The run has stopped so.
    Stopped(Stop),
    // The run is halted, which it was not.
    Halt,
}

pub(crate) fn plan_of(alloc: Global, text: &str) -> Result<Plan, NoMemory> {
    match read_plan(alloc, text.as_bytes()) {
        Ok(plan) => Ok(plan),
        Err(_) => Err(NoMemory),
    }
}

fn cert_of(alloc: Global, steps: &[(u32, u32)]) -> Result<Cert, NoMemory> {
    let mut list = List::new(alloc);
    for (input, scheme) in steps {
        list.push(CertStep {
            input: *input,
            scheme: *scheme,
        })?;
    }
    Ok(Cert::of(list))
}

fn join_certs(alloc: Global, inputs: &[&[(u32, u32)]]) -> Result<List<Cert>, NoMemory> {
    let mut list = List::new(alloc);
    for steps in inputs {
        list.push(cert_of(alloc, steps)?)?;
    }
    Ok(list)
}

// The core of a plan over these certificates; none where they are refused.
#[tactic(auto, using(crate::proofs::Holding::fed_new))]
pub(crate) fn core_over(
    alloc: Global,
    plan: &str,
    certs: Certs,
    limit: u64,
    trace: bool,
) -> Result<Option<Core>, NoMemory>
    requires { (1 ≤ limit) × (limit ≤ 2 ^ 40) }
    ensures { IfOk result (λ answer. IfSome answer IsFed) }
{
    let plan = plan_of(alloc, plan)?;
    let mut list = List::new(alloc);
    for inputs in certs {
        list.push(join_certs(alloc, inputs)?)?;
    }
    match verified_core(alloc, plan, list, limit, trace)? {
        Some(core) => Ok(Some(core)),
        None => Ok(None),
    }
}

// The columns of a stream, by its number among the streams.
#[tactic(auto, using(pj_core::proofs::Streams::number_below, pj_core::proofs::Streams::columns_there))]
fn schema_at(plan: &Plan, stream: u32) -> &Schema
    requires { stream < length (streams_of plan.now.nodes) }
    ensures { result.now ≡ stream_columns (streams_in plan.now.nodes) stream }
{
    plan.schema(plan.streams()[stream as usize])
}

// The element of a line of a stream.
pub(crate) fn element_of(
    alloc: Global,
    plan: &Plan,
    stream: u32,
    line: &str,
) -> Result<Element, NoMemory>
    ensures there { IfOk result (λ _. stream < length (streams_of plan.now.nodes)) }
    ensures fits { IfOk result (FitsDomains (domains_of (stream_columns (streams_in plan.now.nodes) stream))) }
{
    if stream as usize >= plan.streams().len() || line.len() > 100 {
        return Err(NoMemory);
    }
    match read_element(alloc, schema_at(plan, stream), line.as_bytes())? {
        Read::Tuple(row) => Ok(Element::Tuple(row)),
        Read::Punct(punct) => Ok(Element::Punct(punct)),
        Read::Skip => Err(NoMemory),
        Read::Bad(_) => Err(NoMemory),
    }
}

fn turn(
    alloc: Global,
    core: &mut Core,
    stream: u32,
    line: &str,
) -> Result<Result<List<Out>, Stop>, NoMemory> {
    if line == "end" {
        if stream as usize >= core.plan().streams().len() {
            return Err(NoMemory);
        }
        return Ok(core.closing_turn(stream));
    }
    let element = element_of(alloc, core.plan(), stream, line)?;
    Ok(core.turn(stream, element))
}

fn arrives(alloc: Global, core: &mut Core, stream: u32, line: &str) -> Result<bool, NoMemory> {
    let element = element_of(alloc, core.plan(), stream, line)?;
    Ok(core.arrive(stream, element).is_ok())
}

// Works on the probe and gives it, and takes what is then handed out.
fn give(alloc: Global, core: &mut Core, probe: Probe) -> Result<List<Out>, NoMemory>
    requires open { core.old.kept.stop ≡ None → IsOpen core.old probe }
    requires fits { core.old.kept.stop ≡ None → FitNode core.old probe.join probe.rows }
{
    match probe.work(alloc) {
        Ok(found) => match core.give(probe, found) {
            Ok(()) => Ok(core.drain()),
            Err(_) => Err(NoMemory),
        },
        Err(NoMemory) => Err(NoMemory),
    }
}

fn give_next(alloc: Global, core: &mut Core) -> Result<List<Out>, NoMemory> {
    match core.take() {
        Ok(Some(probe)) => give(alloc, core, probe),
        Ok(None) => Err(NoMemory),
        Err(_) => Err(NoMemory),
    }
}

pub(crate) fn has_input(plan: &Plan, join: u32, input: u32) -> bool
    ensures there { IsTrue result → join < length plan.now.nodes }
    ensures join { IsTrue result → is_join (node_at plan.now.nodes join) ≡ true }
    ensures input { IsTrue result → input < length (inputs_of (node_at plan.now.nodes join)) }
{
    if join >= plan.nodes() {
        return false;
    }
    match plan.node(join) {
        Node::Join { inputs, spec: _ } => (input as usize) < inputs.len(),
        _ => false,
    }
}

// Whether the sweep of an input removes so many rows.
fn removes(core: &mut Core, join: u32, input: u32, count: u64) -> bool {
    if has_input(core.plan(), join, input) {
        return core.sweep(join, input) == Ok(count);
    }
    false
}

// A row and a punctuation as they are written, and a row that was removed behind its join and input.
fn append_out(alloc: Global, out: &Out, text: &mut List<u8>) -> Result<(), NoMemory> {
    match out {
        Out::Tuple(row) => row_text(alloc, row, text)?,
        Out::Punct(punct) => punct_text(alloc, punct, text)?,
        Out::Purged { join, input, row } => {
            let (join, input) = (b'0' + (*join % 10) as u8, b'0' + (*input % 10) as u8);
            text.append(&[b'p', b'u', b'r', b'g', b'e', b' ', join, b' ', input, b' '])?;
            row_text(alloc, row, text)?;
        }
    }
    text.push(b'\n')
}

// Whether these lines are handed out, in order.
pub(crate) fn are(alloc: Global, outs: &[Out], lines: &str) -> Result<bool, NoMemory> {
    let mut text = List::new(alloc);
    for out in outs {
        append_out(alloc, out, &mut text)?;
    }
    Ok(text.as_slice() == lines.as_bytes())
}

fn ends_so(
    alloc: Global,
    ended: Result<List<Out>, Stop>,
    want: Result<&str, Stop>,
) -> Result<bool, NoMemory> {
    match ended {
        Ok(outs) => match want {
            Ok(lines) => are(alloc, outs.as_slice(), lines),
            Err(_) => Ok(false),
        },
        Err(stop) => Ok(want == Err(stop)),
    }
}

// Whether the step answers so.
fn answers(alloc: Global, core: &mut Core, step: Step) -> Result<bool, NoMemory> {
    match step {
        Step::Turn(stream, line, want) => {
            let ended = turn(alloc, core, stream, line)?;
            ends_so(alloc, ended, want)
        }
        Step::Arrive(stream, line) => arrives(alloc, core, stream, line),
        Step::Give(lines) => are(alloc, give_next(alloc, core)?.as_slice(), lines),
        Step::Sweep(join, input, count) => Ok(removes(core, join, input, count)),
        Step::Drain(lines) => are(alloc, core.drain().as_slice(), lines),
        Step::Look(stored, waiting, ended) => {
            let look = core.look();
            Ok((look.stored, look.waiting, look.ended) == (stored, waiting, ended))
        }
        Step::Stopped(stop) => Ok(core.look().stop == Some(stop)),
        Step::Halt => {
            let before = core.look().halted;
            core.halt();
            Ok(!before && core.look().halted)
        }
    }
}

// The place of the first of these steps on a core that answers otherwise.
pub(crate) fn first_wrong(
    alloc: Global,
    plan: &str,
    certs: Certs,
    limit: u64,
    trace: bool,
    steps: &[Step],
) -> Result<Option<usize>, NoMemory>
    requires { (1 ≤ limit) × (limit ≤ 2 ^ 40) }
{
    match core_over(alloc, plan, certs, limit, trace)? {
        Some(mut core) => {
            for at in 0..steps.len() {
                if !answers(alloc, &mut core, steps[at])? {
                    return Ok(Some(at));
                }
            }
            Ok(None)
        }
        None => Err(NoMemory),
    }
}
