// The join of a plan, and what is asked of it.
ghost use Rattle.std.specs.Prelude.{◌≡◌, ◌<◌, Some, IfOk, length};
ghost use Rattle.pj_plan.specs.Canonical.{node_at};
ghost use Rattle.pj_plan.specs.Nodes.{join_in as join_of_node};
ghost use Rattle.pj_test_plans.specs.Joins.{IsAskable};

use crate::cases::{append_cert, plan_of};
use pj_graph::{Reach, reach};
use pj_plan::Plan;
use pj_scheme::{derived, join_schemes, schemes_fit};
use pj_shape::{CertStep, JoinSpec, Schemes};
use pj_value::{List, NoMemory};
use std::alloc::Global;

// Three inputs, equal in their first columns, and the last two in their second columns. The first one has a scheme of no use and one
// of its first column, the second one a scheme of both columns, and the third one of its first column.
pub(crate) const SAMPLE: &str = concat!(
    "plan 1;stream a a0:int a1:int;scheme a _ +;scheme a + _;stream b b0:int b1:int;scheme b + +;",
    "stream c c0:int c1:int;scheme c + _;join j a b c on a0=b0=c0 b1=c1;output j",
);

// The same, with a scheme of the second column for the third one.
pub(crate) const STUCK: &str = concat!(
    "plan 1;stream a a0:int a1:int;scheme a _ +;scheme a + _;stream b b0:int b1:int;scheme b + +;",
    "stream c c0:int c1:int;scheme c _ +;join j a b c on a0=b0=c0 b1=c1;output j",
);

// A join, and the schemes of its inputs.
#[derive(Drop)]
pub(crate) struct Join {
    pub(crate) spec: JoinSpec,
    pub(crate) schemes: Schemes,
}

#[tactic(auto, using(pj_safety::proofs::Nodes::is_some_join))]
fn join_at(alloc: Global, plan: &Plan, node: u32, spec: &JoinSpec) -> Result<Join, NoMemory>
    requires there { node < length plan.now.nodes }
    requires spec { Some spec.now ≡ join_of_node (node_at plan.now.nodes node) }
    ensures { IfOk result (λ join. IsAskable join.spec join.schemes) }
{
    let _count = plan.nodes();
    schemes_fit();
    let all = derived(alloc, plan)?;
    let schemes = join_schemes(alloc, plan, &all, node)?;
    let spec = spec.copy(alloc)?;
    Ok(Join { spec, schemes })
}

// The first join of a plan; one that has none counts as want of memory.
pub(crate) fn join_in(alloc: Global, plan: &Plan) -> Result<Join, NoMemory>
    ensures { IfOk result (λ join. IsAskable join.spec join.schemes) }
{
    for node in 0..plan.nodes() {
        match plan.node(node).join() {
            None => {}
            Some(spec) => {
                let join = join_at(alloc, plan, node, spec)?;
                return Ok(join);
            }
        }
    }
    Err(NoMemory)
}

// The first join of the plan of these lines.
pub(crate) fn join_of(alloc: Global, text: &str) -> Result<Join, NoMemory>
    ensures { IfOk result (λ join. IsAskable join.spec join.schemes) }
{
    let plan = plan_of(alloc, text)?;
    let join = join_in(alloc, &plan)?;
    Ok(join)
}

pub(crate) fn step(input: u32, scheme: u32) -> CertStep {
    CertStep { input, scheme }
}

// The certificate, or what is reached and the least that is not, on a line.
fn append_reach(alloc: Global, found: &Reach, out: &mut List<u8>) -> Result<(), NoMemory> {
    match found {
        Reach::All(cert) => append_cert(alloc, cert, out),
        Reach::Stuck { reached, missing } => {
            let numbers = reached.as_slice();
            let told = format!(in alloc; "{numbers:?} without {missing}\n")?;
            out.append(told.as_bytes())
        }
    }
}

// What each input of the join reaches.
pub(crate) fn append_reaches(alloc: Global, join: &Join, out: &mut List<u8>) -> Result<(), NoMemory>
    requires { IsAskable join.now.spec join.now.schemes }
{
    for input in 0..join.spec.inputs.len() {
        let found = reach(alloc, &join.spec, &join.schemes, input as u32)?;
        append_reach(alloc, &found, out)?;
    }
    Ok(())
}
