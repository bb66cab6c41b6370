// Whether a plan is safe.
ghost use Rattle.std.specs.Prelude.{ℕ, ◌≡◌, ◌<◌, List, IfOk, length};
ghost use Rattle.pj_value.specs.Lists.{In};
ghost use Rattle.pj_scheme.specs.Derived.{schemes_of};
ghost use Rattle.pj_judge.specs.Judgments.{AreLinesNotes, IsJudgment, IsNote};
ghost use Rattle.pj_judge.specs.Asked.{IsAskable, IsJoinJudged, IsNodeJudged, stuck_lines as lines_of_stuck};

use crate::asked::Asked;
use pj_cert::{reached_line, unreached_line};
use pj_graph::{Reach, saturations_are_told};
use pj_plan::Plan;
use pj_safety::PlanRisk;
use pj_scheme::derived;
use pj_shape::{Cert, Schemes};
use pj_value::{Bytes, List, NoMemory};
use std::alloc::Global;

/// Why a plan is unsafe: its first node that is, at which risk it is, and the lines that tell it. Nodes are counted from 0.
#[derive(Drop)]
pub struct Unsafe {
    pub node: u32,
    pub risk: PlanRisk,
    pub lines: List<Bytes>,
}

/// What is found of a plan.
#[derive(Drop)]
pub enum Judged {
    /// It is safe. For each join, in order of declaration, the certificate of each of its inputs, in order.
    Safe { certs: List<List<Cert>> },
    /// It is unsafe, and why.
    Unsafe { found: Unsafe },
}

// What is found of a node: nothing where it is no join; the certificate of each input of a join, or why the plan is unsafe.
#[derive(Drop)]
enum Verdict {
    Free,
    Certified(List<Cert>),
    Refused(Unsafe),
}

/// Whether the plan is safe. The certificate of an input starts from the input alone and always adds the least input that can
/// be added, by its first scheme that allows it.
#[tactic(auto, using(crate::proofs::Plans::judged_notes, crate::proofs::Plans::none_yet))]
pub fn judge(alloc: Global, plan: &Plan) -> Result<Judged, NoMemory>
    ensures judged { IfOk result (λ judged. IsJudgment plan.now.nodes judged) }
    ensures lines { IfOk result AreLinesNotes }
{
    let all = derived(alloc, plan)?;
    let mut certs = List::new(alloc);
    for node in 0..plan.nodes() {
        match judge_node(alloc, plan, &all, node)? {
            Verdict::Free => {}
            Verdict::Certified(list) => certs.push(list)?,
            Verdict::Refused(found) => return Ok(Judged::Unsafe { found }),
        }
    }
    Ok(Judged::Safe { certs })
}

#[tactic(auto, using(pj_safety::proofs::Nodes::is_no_join, crate::proofs::Plans::judged_at))]
fn judge_node(alloc: Global, plan: &Plan, all: &Schemes, node: u32) -> Result<Verdict, NoMemory>
    requires there { node < length plan.now.nodes }
    requires all { all.now ≡ schemes_of plan.now.nodes }
    ensures { IfOk result (λ verdict. IsNodeJudged plan.now.nodes node verdict) }
{
    match plan.node(node).join() {
        None => Ok(Verdict::Free),
        Some(spec) => {
            let asked = Asked::of(alloc, plan, all, node, spec)?;
            let verdict = judge_inputs(alloc, &asked, node)?;
            Ok(verdict)
        }
    }
}

#[tactic(auto, using(crate::proofs::Inputs::judged))]
fn judge_inputs(alloc: Global, asked: &Asked<'_>, node: u32) -> Result<Verdict, NoMemory>
    ensures { IfOk result (λ verdict. IsJoinJudged asked.now node verdict) }
{
    saturations_are_told();
    let mut certs = List::new(alloc);
    for input in 0..asked.inputs() {
        match asked.reach(alloc, input)? {
            Reach::All(cert) => certs.push(cert)?,
            Reach::Stuck { reached, missing } => {
                let lines = stuck_lines(alloc, asked, input, missing, reached.as_slice())?;
                let risk = PlanRisk::Stuck { input, missing };
                return Ok(Verdict::Refused(Unsafe { node, risk, lines }));
            }
        }
    }
    Ok(Verdict::Certified(certs))
}

// What the input does not reach, and what it reaches.
fn stuck_lines(
    alloc: Global,
    asked: &Asked<'_>,
    input: u32,
    missing: u32,
    reached: &[u32],
) -> Result<List<Bytes>, NoMemory>
    requires { IsAskable asked.now }
    ensures lines { IfOk result (λ lines. lines ≡ lines_of_stuck asked.now input missing reached.now) }
    ensures notes { IfOk result (λ lines. (line : List ℕ) → In line lines → IsNote line) }
{
    let names = asked.names.as_slice();
    let mut lines = List::new(alloc);
    lines.push(unreached_line(alloc, asked.name, names, input, missing)?)?;
    lines.push(reached_line(alloc, names, reached)?)?;
    Ok(lines)
}
