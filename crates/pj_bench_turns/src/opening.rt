// A hub over a plan of one stream.
ghost use Rattle.std.specs.Prelude.{◌≡◌, ◌≤◌, length, IfOk, IfSome};
ghost use Rattle.pj_safety.specs.Certificates.{AreCertificates, certificates_of};
ghost use Rattle.pj_hub.specs.Seated.{AreNewSeats, hub_seats};

use pj_hub::{CoreHub, HubSeat};
use pj_judge::{Judged, judge};
use pj_plan::Plan;
use pj_plan_text::read_plan;
use pj_safe_core::safe_core;
use pj_shape::Cert;
use pj_value::{List, NoMemory};
use std::alloc::Global;

const PLAN: &[u8] = b"plan 1\nstream s v:int\noutput s\n";

/// A hub over the plan's core, and its seats, numbered by their places.
pub fn opened(alloc: Global, seats: u32) -> Option<(CoreHub, List<HubSeat>)>
    requires { (1 ≤ seats) × (seats ≤ 64) }
    ensures { IfSome result (λ r. (hub_seats r.0 ≡ seats) × (length r.1 ≡ seats) × AreNewSeats r.0 r.1) }
{
    match read_plan(alloc, PLAN) {
        Ok(plan) => match judge(alloc, &plan) {
            Ok(Judged::Safe { certs }) => hub_of(alloc, plan, certs, seats).ok(),
            Ok(Judged::Unsafe { found: _ }) => None,
            Err(NoMemory) => None,
        },
        Err(_) => None,
    }
}

// A hub over a core with the certificates that the checker found.
fn hub_of(
    alloc: Global,
    plan: Plan,
    certs: List<List<Cert>>,
    seats: u32,
) -> Result<(CoreHub, List<HubSeat>), NoMemory>
    requires certs { (certs ≡ certificates_of plan.nodes) × AreCertificates plan.nodes }
    requires seats { (1 ≤ seats) × (seats ≤ 64) }
    ensures { IfOk result (λ r. (hub_seats r.0 ≡ seats) × (length r.1 ≡ seats) × AreNewSeats r.0 r.1) }
{
    let core = safe_core(alloc, plan, certs, 1 << 40, false)?;
    CoreHub::new(alloc, core, seats)
}
