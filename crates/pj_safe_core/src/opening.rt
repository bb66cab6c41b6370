// A core of a plan that was judged.
ghost use Rattle.std.specs.Prelude.{◌≡◌, ◌≤◌, ◌^◌, IfOk};
ghost use Rattle.pj_safety.specs.Certificates.{AreCertificates, certificates_of};
ghost use Rattle.pj_core.specs.Calls.{IsFresh};
ghost use Rattle.pj_core.specs.Plans.{run_plan};

use pj_core::Core;
use pj_plan::Plan;
use pj_shape::Cert;
use pj_value::{List, NoMemory};
use std::alloc::Global;

/// A core of this plan with the certificates of its joins, which the checker found (`judge`, where it answers `Safe`); at each
/// join and group at most `limit` elements may arrive. With `trace` the rows that sweeps remove are noted among what is handed
/// out. `NoMemory` comes only where memory could not be had.
pub fn safe_core(
    alloc: Global,
    plan: Plan,
    certs: List<List<Cert>>,
    limit: u64,
    trace: bool,
) -> Result<Core, NoMemory>
    requires certs { certs ≡ certificates_of plan.nodes }
    requires certified { AreCertificates plan.nodes }
    requires limit { (1 ≤ limit) × (limit ≤ 2 ^ 40) }
    ensures { IfOk result (λ core. IsFresh core (run_plan plan.nodes certs trace) limit) }
{
    let _sound = plan.nodes();
    Core::new(alloc, plan, certs, limit, trace)
}
