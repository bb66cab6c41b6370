// The plan that statements make.
ghost use Rattle.std.specs.Prelude.{ℕ, ◌≡◌, None, Some, Err, Ok, IfOk, map};
ghost use Rattle.pj_plan.specs.declared.node.Outline.{Outline as Made};
ghost use Rattle.pj_plan.specs.Built.{built, ended};
ghost use Rattle.pj_plan.specs.Made.{after as after_it, result_schema};
ghost use Rattle.pj_plan.specs.Faults.{fault_of as lowest};
ghost use Rattle.pj_plan.specs.Names.{AreSpelled};
ghost use Rattle.pj_plan.specs.Small.{AreSmall};

use crate::declare::after;
use crate::faults::fault_of;
use crate::schemas::{joined_schema, result_schema};
use crate::{Draft, Outline, Plan, PlanFault, PlanStop, PlanWhy, Stated, Statement};
use pj_value::List;
use std::alloc::Global;

impl Plan {
    /// The plan that these statements make; `end` is the number of lines and one more. Each statement is a bad one or one
    /// that a line can spell. `Fault` comes exactly where a statement has a fault, or the plan lacks one, and is the fault
    /// of the first such line: of several on one line the one that stands first among the faults. `NoMemory` comes only
    /// where memory could not be had.
    #[tactic(auto, using(crate::proofs::SoundPlans::plan_is_sound, crate::proofs::Remade::made_again))]
    pub fn build(alloc: Global, statements: &[Stated], end: u64) -> Result<Plan, PlanStop>
        requires spelled { AreSpelled (map (λ stated. stated.what) statements.now) }
        ensures plan { IfOk result (λ plan. built statements.now end ≡ Ok plan) }
        ensures fault { (fault : PlanFault) → result ≡ Err (PlanStop.Fault fault) → built statements.now end ≡ Err fault }
    {
        let draft = draft_of(alloc, statements)?;
        let outline = outline_of(draft, end)?;
        Ok(Plan::of(alloc, outline)?)
    }
}

// What the statements declare, where none has a fault.
fn draft_of(alloc: Global, statements: &[Stated]) -> Result<Draft, PlanStop>
    requires spelled { AreSpelled (map (λ stated. stated.what) statements.now) }
    ensures draft { IfOk result (λ draft. (end : ℕ) → built statements.now end ≡ ended draft.version draft end) }
    ensures fault { (fault : PlanFault) → result ≡ Err (PlanStop.Fault fault) → (end : ℕ) → built statements.now end ≡ Err fault }
{
    let mut draft = Draft {
        version: None,
        nodes: List::new(alloc),
        output: None,
    };
    for stated in statements {
        draft = stated_behind(alloc, draft, stated)?;
    }
    Ok(draft)
}

// What is declared behind a statement, where it has no fault.
fn stated_behind(alloc: Global, draft: Draft, stated: &Stated) -> Result<Draft, PlanStop>
    requires small { AreSmall draft.nodes }
    ensures next { IfOk result (λ next. next ≡ after_it draft stated.now.what) }
    ensures faultless { IfOk result (λ next. lowest draft stated.now.what ≡ None) }
    ensures fault { (fault : PlanFault) → result ≡ Err (PlanStop.Fault fault) → (lowest draft stated.now.what ≡ Some fault.why) × (fault.line ≡ stated.now.line) }
{
    let statement = &stated.what;
    let scope = joined_schema(alloc, draft.nodes.as_slice(), statement.parts().scope)?;
    let schema = result_schema(alloc, &draft, statement)?;
    match fault_of(&draft, statement, scope.as_slice(), schema.as_slice()) {
        Some(why) => Err(PlanStop::Fault(PlanFault {
            line: stated.line,
            why,
        })),
        None => Ok(after(alloc, draft, statement, schema)?),
    }
}

// The plan that is declared, or what it lacks, at the line after the last.
fn outline_of(draft: Draft, end: u64) -> Result<Outline, PlanFault>
    ensures { result ≡ ended draft.version draft end }
{
    match draft.version {
        None => Err(PlanFault {
            line: end,
            why: PlanWhy::NotAPlan,
        }),
        Some(version) => match draft.output {
            None => Err(PlanFault {
                line: end,
                why: PlanWhy::Output,
            }),
            Some(_) => Ok(Outline {
                version,
                nodes: draft.nodes,
            }),
        },
    }
}
