// A core of a plan over certificates that are verified first.
ghost use Rattle.std.specs.Prelude.{◌≤◌, ◌^◌, ◌↔◌, IfOk, IfSome, IsSome};
ghost use Rattle.pj_core.specs.Calls.{IsFresh};
ghost use Rattle.pj_core.specs.Plans.{run_plan};
ghost use Rattle.pj_safe_core.specs.Verified.{AreVerified};

use crate::checks::are_verified;
use pj_core::Core;
use pj_plan::Plan;
use pj_shape::Cert;
use pj_value::{List, NoMemory};
use std::alloc::Global;

/// A core of this plan over these certificates, whoever made them; at each join and group at most `limit` elements may arrive,
/// from 1 to 2^40. `certs` is to have a list for each join, in order of declaration, and the list a certificate of each input of
/// the join, in order, for the schemes that are derived for the inputs.
///
/// It verifies them: where one is no certificate, or a list is missing or too long, the answer is `None`, and else the core. Any
/// certificates will do, and not those alone that the checker finds. With `trace` the rows that sweeps remove are noted among
/// what is handed out. `NoMemory` comes only where memory could not be had.
pub fn verified_core(
    alloc: Global,
    plan: Plan,
    certs: List<List<Cert>>,
    limit: u64,
    trace: bool,
) -> Result<Option<Core>, NoMemory>
    requires limit { (1 ≤ limit) × (limit ≤ 2 ^ 40) }
    ensures fresh { IfOk result (λ answer. IfSome answer (λ core. IsFresh core (run_plan plan.nodes certs trace) limit)) }
    ensures exact { IfOk result (λ answer. IsSome answer ↔ AreVerified plan.nodes certs) }
{
    let _sound = plan.nodes();
    if are_verified(alloc, &plan, certs.as_slice())? {
        let core = Core::new(alloc, plan, certs, limit, trace)?;
        Ok(Some(core))
    } else {
        Ok(None)
    }
}
