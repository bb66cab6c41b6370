// The text that tells what each input of each join of a plan reaches.
ghost use Rattle.std.specs.Prelude.{◌≡◌, ◌<◌, ◌++◌, true, IfOk, OnOk, OnErr, length};
ghost use Rattle.std.specs.List.{concat};
ghost use Rattle.pj_value.specs.Lists.{has};
ghost use Rattle.pj_scheme.specs.Derived.{schemes_of};
ghost use Rattle.pj_shape.specs.Sets.{IsClosed};
ghost use Rattle.pj_graph.specs.Reaching.{IsReach};
ghost use Rattle.pj_cert.specs.Partners.{partners_of};
ghost use Rattle.pj_judge.specs.Asked.{IsRiskAt, IsRiskOf, or_risk as first_risk, or_stuck as first_stuck};
ghost use Rattle.pj_judge.specs.Checks.{IsAnswer, asked_lines, check_lines, node_lines, partner_lines, partner_rows, printed, told_of};

use crate::asked::Asked;
use pj_cert::{blank_instances, blank_row, escape, partners_text, verdict_text};
use pj_graph::Reach;
use pj_plan::Plan;
use pj_plan_text::plan_text;
use pj_safety::PlanRisk;
use pj_scheme::derived;
use pj_shape::Schemes;
use pj_value::{List, NoMemory};
use std::alloc::Global;

/// Appends what is told of a plan: the canonical plan, where it is to be printed, and then, for each node that is a join, in order
/// of declaration, and each of its inputs in order, the line of an input that reaches all, or the two lines of a stuck one and a
/// line `# partner K t ..` for each other input. Those show a row of 0 and empty texts of the stuck input with rows that join
/// it and that no instances of 0 and empty texts of the inputs that it does not reach rule out.
///
/// The answer is `None` exactly where the plan is safe; else the first node that is not, and its risk: the first stuck input of a
/// join, and the least input that this one does not reach. Nodes and inputs are counted from 0. On a refusal `out` is as it was.
#[tactic(auto, using(crate::proofs::Plans::no_first, crate::proofs::Texts::no_nodes))]
pub fn check_text(
    alloc: Global,
    plan: &Plan,
    print: bool,
    out: &mut List<u8>,
) -> Result<Option<(u32, PlanRisk)>, NoMemory>
    ensures answer { IfOk result (λ found. IsAnswer plan.now.nodes found) }
    ensures text { OnOk result (out.new ≡ out.old ++ concat (check_lines print plan.now)) }
    ensures err { OnErr result (out.new ≡ out.old) }
{
    let all = derived(alloc, plan)?;
    let mut text = List::new(alloc);
    append_plan(alloc, plan, print, &mut text)?;
    let mut first = None;
    for node in 0..plan.nodes() {
        let risk = append_node(alloc, plan, &all, node, &mut text)?;
        first = or_risk(first, node, risk);
    }
    out.append(text.as_slice())?;
    Ok(first)
}

fn append_plan(alloc: Global, plan: &Plan, print: bool, text: &mut List<u8>) -> Result<(), NoMemory>
    ensures { OnOk result (text.new ≡ text.old ++ printed print plan.now) }
{
    if print {
        plan_text(alloc, plan, text)?;
    }
    Ok(())
}

// Appends what is told of a node; the answer is its risk, if it is at one.
#[tactic(auto, using(crate::proofs::Plans::other_safe_at, crate::proofs::Plans::risk_at, crate::proofs::Texts::other_put, crate::proofs::Texts::join_put))]
fn append_node(
    alloc: Global,
    plan: &Plan,
    all: &Schemes,
    node: u32,
    text: &mut List<u8>,
) -> Result<Option<PlanRisk>, NoMemory>
    requires there { node < length plan.now.nodes }
    requires all { all.now ≡ schemes_of plan.now.nodes }
    ensures answer { IfOk result (λ found. IsRiskAt plan.now.nodes node found) }
    ensures text { OnOk result (text.new ≡ text.old ++ concat (node_lines plan.now.nodes node)) }
{
    match plan.node(node).join() {
        None => Ok(None),
        Some(spec) => {
            let asked = Asked::of(alloc, plan, all, node, spec)?;
            let found = append_inputs(alloc, &asked, text)?;
            Ok(found)
        }
    }
}

#[tactic(auto, using(crate::proofs::Texts::no_inputs))]
fn append_inputs(
    alloc: Global,
    asked: &Asked<'_>,
    text: &mut List<u8>,
) -> Result<Option<PlanRisk>, NoMemory>
    ensures answer { IfOk result (λ found. IsRiskOf asked.now found) }
    ensures text { OnOk result (text.new ≡ text.old ++ concat (asked_lines asked.now)) }
{
    let mut first = None;
    for input in 0..asked.inputs() {
        let found = asked.reach(alloc, input)?;
        append_input(alloc, asked, input, &found, text)?;
        first = or_stuck(first, input, &found);
    }
    Ok(first)
}

fn append_input(
    alloc: Global,
    asked: &Asked<'_>,
    input: u32,
    found: &Reach,
    text: &mut List<u8>,
) -> Result<(), NoMemory>
    requires input { input < length asked.now.spec.inputs }
    requires found { IsReach asked.now.spec asked.now.schemes input found.now }
    ensures { OnOk result (text.new ≡ text.old ++ told_of asked.now input found.now) }
{
    let names = asked.names.as_slice();
    verdict_text(
        alloc,
        asked.spec,
        &asked.schemes,
        asked.name,
        names,
        input,
        found,
        text,
    )?;
    append_partners(alloc, asked, input, found, text)?;
    Ok(())
}

fn append_partners(
    alloc: Global,
    asked: &Asked<'_>,
    input: u32,
    found: &Reach,
    text: &mut List<u8>,
) -> Result<(), NoMemory>
    requires input { input < length asked.now.spec.inputs }
    requires found { IsReach asked.now.spec asked.now.schemes input found.now }
    ensures { OnOk result (text.new ≡ text.old ++ concat (partner_lines asked.now input found.now)) }
{
    match found {
        Reach::All(_) => {}
        Reach::Stuck { reached, .. } => {
            append_stuck(alloc, asked, input, reached.as_slice(), text)?;
        }
    }
    Ok(())
}

// Appends a line for each other input than this one, which reaches these.
fn append_stuck(
    alloc: Global,
    asked: &Asked<'_>,
    input: u32,
    reached: &[u32],
    text: &mut List<u8>,
) -> Result<(), NoMemory>
    requires closed { IsClosed asked.now.spec asked.now.schemes (has reached.now) }
    requires inside { has reached.now input ≡ true }
    requires input { input < length asked.now.spec.inputs }
    ensures { OnOk result (text.new ≡ text.old ++ concat (partners_of asked.now.names input (partner_rows asked.now input reached.now))) }
{
    let spec = asked.spec;
    let row = blank_row(alloc, &spec.inputs.as_slice()[input as usize])?;
    let listed = blank_instances(alloc, spec, &asked.schemes, reached)?;
    let rows = escape(
        alloc,
        spec,
        &asked.schemes,
        input,
        reached,
        &row,
        listed.as_slice(),
    )?;
    partners_text(alloc, asked.names.as_slice(), input, rows.as_slice(), text)?;
    Ok(())
}

fn or_stuck(first: Option<PlanRisk>, input: u32, found: &Reach) -> Option<PlanRisk>
    ensures { result ≡ first_stuck first input found.now }
{
    match first {
        Some(risk) => Some(risk),
        None => match found {
            Reach::All(_) => None,
            Reach::Stuck { missing, .. } => Some(PlanRisk::Stuck {
                input,
                missing: *missing,
            }),
        },
    }
}

fn or_risk(
    first: Option<(u32, PlanRisk)>,
    node: u32,
    found: Option<PlanRisk>,
) -> Option<(u32, PlanRisk)>
    ensures { result ≡ first_risk first node found }
{
    match first {
        Some(first) => Some(first),
        None => match found {
            None => None,
            Some(risk) => Some((node, risk)),
        },
    }
}
