// The auction's plan, a hub of it with five seats, and feeds of its streams.
ghost use Rattle.std.specs.Prelude.{◌≡◌, ◌<◌, ◌≤◌, ◌^◌, length, IfOk, IfSome, IsTrue};
ghost use Rattle.pj_plan.specs.Nodes.{streams_of, stream_columns, streams_in};
ghost use Rattle.pj_safety.specs.Certificates.{AreCertificates, certificates_of};
ghost use Rattle.pj_hub.specs.Hubs.{hub_with};
ghost use Rattle.pj_hub.specs.Seated.{AreNewSeats, hub_made, hub_seats};
ghost use Rattle.pj_test_workers.specs.Auctions.{IsAuction, IsAuctionPlan, IsNewFeed};

use pj_feed::Feed;
use pj_hub::{CoreHub, HubSeat};
use pj_intake::Intake;
use pj_io::MemSource;
use pj_judge::{Judged, judge};
use pj_plan::Plan;
use pj_plan_text::read_plan;
use pj_safe_core::safe_core;
use pj_shape::{Cert, Schema};
use pj_test_threads::{AUCTION, JOIN, has_join};
use pj_value::{List, NoMemory};
use std::alloc::Global;

// So many bytes come at a read: the first line of the items.
const READ: usize = 10;

// ---- the plan

fn is_auction(plan: &Plan) -> bool
    ensures { IsTrue result → IsAuctionPlan plan.now.nodes }
{
    if plan.streams().len() == 2 {
        has_join(plan, JOIN)
    } else {
        false
    }
}

pub(crate) fn auction(alloc: Global) -> Option<Plan>
    ensures { IfSome result (λ plan. IsAuctionPlan plan.nodes) }
{
    match read_plan(alloc, AUCTION) {
        Ok(plan) => { if is_auction(&plan) { Some(plan) } else { None } }
        Err(_) => None,
    }
}

// ---- the hub

// A hub of a copy of this plan, where these are the certificates of a safe one, and so many elements may come to its join.
fn hub_of(
    alloc: Global,
    plan: &Plan,
    certs: List<List<Cert>>,
    limit: u64,
) -> Result<(CoreHub, List<HubSeat>), NoMemory>
    requires certs { (certs ≡ certificates_of plan.now.nodes) × AreCertificates plan.now.nodes }
    requires auction { IsAuctionPlan plan.now.nodes }
    requires limit { (1 ≤ limit) × (limit ≤ 2 ^ 40) }
    ensures auction { IfOk result (λ r. IsAuction plan.now.nodes (hub_with (hub_made r.0))) }
    ensures seats { IfOk result (λ r. (hub_seats r.0 ≡ 5) × (length r.1 ≡ 5) × AreNewSeats r.0 r.1) }
{
    let copy = plan.copy(alloc)?;
    let core = safe_core(alloc, copy, certs, limit, false)?;
    CoreHub::new(alloc, core, 5)
}

pub(crate) fn opened(alloc: Global, plan: &Plan, limit: u64) -> Option<(CoreHub, List<HubSeat>)>
    requires auction { IsAuctionPlan plan.now.nodes }
    requires limit { (1 ≤ limit) × (limit ≤ 2 ^ 40) }
    ensures auction { IfSome result (λ r. IsAuction plan.now.nodes (hub_with (hub_made r.0))) }
    ensures seats { IfSome result (λ r. (hub_seats r.0 ≡ 5) × (length r.1 ≡ 5) × AreNewSeats r.0 r.1) }
{
    match judge(alloc, plan) {
        Ok(Judged::Safe { certs }) => hub_of(alloc, plan, certs, limit).ok(),
        Ok(Judged::Unsafe { found: _ }) => None,
        Err(NoMemory) => None,
    }
}

// ---- feeds

// The columns of a stream, by its number among the streams.
#[tactic(auto, using(pj_core::proofs::Streams::number_below, pj_core::proofs::Streams::columns_there))]
fn schema_at(alloc: Global, plan: &Plan, stream: u32) -> Result<Schema, NoMemory>
    requires { stream < length (streams_of plan.now.nodes) }
    ensures { IfOk result (λ columns. columns ≡ stream_columns (streams_in plan.now.nodes) stream) }
{
    let node = plan.streams()[stream as usize];
    plan.schema(node).copy(alloc)
}

// A feed of a stream of which nothing was read. Of its file these reads fail, counted from 0.
pub(crate) fn feed_of(
    alloc: Global,
    plan: &Plan,
    stream: u32,
    file: &[u8],
    fails: &[u64],
) -> Result<Feed<MemSource>, NoMemory>
    requires { stream < length (streams_of plan.now.nodes) }
    ensures { IfOk result (IsNewFeed stream (stream_columns (streams_in plan.now.nodes) stream)) }
{
    let schema = schema_at(alloc, plan, stream)?;
    let source = MemSource::new(alloc, file, READ, fails)?;
    match Intake::new(alloc, schema, source, 1 << 40) {
        Ok(intake) => Ok(Feed::new(stream, intake)),
        Err((_, stop)) => Err(stop),
    }
}
