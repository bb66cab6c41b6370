// Which inputs of joins each sweeper sweeps.
ghost use Rattle.std.specs.Prelude.{◌≡◌, ◌<◌, ◌++◌, OnOk, IfOk};
ghost use Rattle.pj_script.specs.Reading.{IsJoin};
ghost use Rattle.pj_roster.specs.Assigned.{places_of, places_where, share_at, shares_among, sweeper_count};

use pj_plan::Plan;
use pj_value::{List as Items, NoMemory};
use std::alloc::Global;

/// The places of each sweeper, of whom there are as many as the lesser of these workers and the number of joins.
#[tactic(auto, using(crate::proofs::Shares::share_more))]
pub(crate) fn shares_of(
    alloc: Global,
    plan: &Plan,
    workers: u32,
) -> Result<Vec<Items<(u32, u32)>>, NoMemory>
    ensures { IfOk result (λ shares. shares.items ≡ shares_among plan.now.nodes (sweeper_count plan.now.nodes workers)) }
{
    let sweepers = count_of(plan, workers);
    let mut shares = Vec::with_capacity(alloc, sweepers)?;
    for sweeper in 0..sweepers {
        let share = share_of(alloc, plan, sweeper, sweepers)?;
        shares.push_reserved(share);
    }
    Ok(shares)
}

// How many sweepers there are.
fn count_of(plan: &Plan, workers: u32) -> usize
    ensures { result ≡ sweeper_count plan.now.nodes workers }
{
    let joins = plan.joins().len();
    if joins < workers as usize {
        joins
    } else {
        workers as usize
    }
}

// What one of so many sweepers sweeps: all inputs of each join whose place among the joins is its number modulo theirs.
fn share_of(
    alloc: Global,
    plan: &Plan,
    sweeper: usize,
    sweepers: usize,
) -> Result<Items<(u32, u32)>, NoMemory>
    requires { sweeper < sweepers }
    ensures { IfOk result (λ share. share ≡ share_at plan.now.nodes sweepers sweeper) }
{
    let joins = plan.joins();
    let mut share = Items::new(alloc);
    for k in 0..joins.len() {
        add_where(k % sweepers == sweeper, plan, joins[k], &mut share)?;
    }
    Ok(share)
}

// Puts all inputs of a join at the end, in order, where it is its turn.
fn add_where(
    due: bool,
    plan: &Plan,
    join: u32,
    share: &mut Items<(u32, u32)>,
) -> Result<(), NoMemory>
    requires { IsJoin plan.now.nodes join }
    ensures { OnOk result (share.new ≡ share.old ++ places_where due plan.now.nodes join) }
{
    if due {
        add_inputs(plan, join, share)?;
    }
    Ok(())
}

// Puts all inputs of a join at the end, in order.
#[tactic(auto, using(pj_script::proofs::Numbers::few_at, crate::proofs::Shares::input_more))]
fn add_inputs(plan: &Plan, join: u32, share: &mut Items<(u32, u32)>) -> Result<(), NoMemory>
    requires { IsJoin plan.now.nodes join }
    ensures { OnOk result (share.new ≡ share.old ++ places_of plan.now.nodes join) }
{
    let _nodes = plan.nodes();
    for input in 0..plan.node(join).inputs() {
        share.push((join, input as u32))?;
    }
    Ok(())
}
