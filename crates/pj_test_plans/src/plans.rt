// What no clause says: that plans are built and copied with ample memory.
ghost use Rattle.std.specs.Prelude.{◌≡◌, true, IfOk};
ghost use Rattle.pj_plan.specs.Names.{is_spelled};

use pj_plan::{ColumnWord, Plan, PlanFault, PlanStop, PlanWhy, Stated, Statement};
use pj_value::{Kind, List, NoMemory};
use std::alloc::Global;

// `stream a x:int`
fn stream(alloc: Global) -> Result<Statement, NoMemory>
    ensures { IfOk result (λ statement. is_spelled statement ≡ true) }
{
    let mut columns = List::new(alloc);
    columns.push(ColumnWord {
        name: List::copy_of(alloc, b"x")?,
        kind: Kind::Int,
    })?;
    Ok(Statement::Stream {
        name: List::copy_of(alloc, b"a")?,
        columns,
    })
}

// The same again, or `output a`.
fn last(alloc: Global, is_twice: bool) -> Result<Statement, NoMemory>
    ensures { IfOk result (λ statement. is_spelled statement ≡ true) }
{
    if is_twice {
        let again = stream(alloc)?;
        return Ok(again);
    }
    Ok(Statement::Output {
        name: List::copy_of(alloc, b"a")?,
    })
}

// A plan of a stream, or one that states it twice.
fn built(alloc: Global, is_twice: bool) -> Result<Plan, PlanStop> {
    let mut statements = List::new(alloc);
    statements.push(Stated {
        line: 1,
        what: Statement::Plan { version: 1 },
    })?;
    statements.push(Stated {
        line: 2,
        what: stream(alloc)?,
    })?;
    statements.push(Stated {
        line: 5,
        what: last(alloc, is_twice)?,
    })?;
    Plan::build(alloc, statements.as_slice(), 6)
}

fn is_alone(plan: &Plan) -> bool {
    plan.version() == 1
        && plan.nodes() == 1
        && plan.root() == 0
        && plan.streams().len() == 1
        && plan.joins().is_empty()
}

fn copied(alloc: Global) -> Result<bool, PlanStop> {
    let plan = built(alloc, false)?;
    Ok(is_alone(&plan) && is_alone(&plan.copy(alloc)?))
}

#[test]
fn a_plan_is_built_and_copied(rt: HostRuntime) {
    assert_eq!(rt; copied(rt.alloc()), Ok(true));
}

#[test]
fn the_first_fault_is_named(rt: HostRuntime) {
    let fault = PlanFault {
        line: 5,
        why: PlanWhy::NameTwice,
    };
    assert_eq!(rt; built(rt.alloc(), true).err(), Some(PlanStop::Fault(fault)));
}
