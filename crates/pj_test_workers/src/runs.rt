// The five workers of an auction, one after the other on one thread or side by side: how each ends, and what they leave behind.
ghost use Rattle.std.specs.Prelude.{◌≡◌, ◌<◌, ◌≤◌, ◌^◌, ℕ, length, slice_get, Some};
ghost use Rattle.pj_hub.specs.Hubs.{hub_with, shared_with};
ghost use Rattle.pj_hub.specs.Seated.{hub_made};
ghost use Rattle.pj_turn.specs.Seats.{IsNewSeat, IsSeat, seat_name, seat_number};
ghost use Rattle.pj_test_workers.specs.Auctions.{IsAuction};

use crate::auction::{auction, feed_of, opened};
use crate::desk::{Desk, Ends};
use pj_core::{Core, Stop};
use pj_element::row_text;
use pj_hub::{CoreHub, HubSeat};
use pj_io::MemSink;
use pj_plan::Plan;
use pj_report::{Counts, Form, ResultWriter};
use pj_seats::Hub;
use pj_test_threads::JOIN;
use pj_value::{List, NoMemory, Row};
use pj_workers::{
    FeedEnd, WorkEnd, WriteEnd, feed, fresh_feeds_stand, probe, sweep_all, write_out,
};
use std::alloc::Global;
use std::sync::Wait;
use std::sync::atomic::Ordering;
use std::thread::{Threads, for_each_mut};

const ITEMS: &[u8] = b"t 1 \"ann\"\nt 2 \"bob\"\np 1 *\n";

const BIDS: &[u8] = b"t 1 50\nt 2 60\nt 1 70\n";

// ---- workers

// Feeds a stream from a file, of which these reads fail, or halts the run.
fn feed_file<R: Wait>(
    rt: &R,
    alloc: Global,
    hub: &CoreHub,
    seat: &mut HubSeat,
    plan: &Plan,
    stream: u32,
    file: &[u8],
    fails: &[u64],
    kept: &mut Option<List<Row>>,
    desk: &Desk,
) -> Option<FeedEnd>
    requires new { IsNewSeat shared_with hub.now.turn stream seat.old }
    requires auction { IsAuction plan.now.nodes (hub_with (hub_made hub.now)) }
    requires few { stream ≤ 1 }
    ensures same { (seat_name seat.new ≡ seat_name seat.old) × (seat_number seat.new ≡ seat_number seat.old) }
{
    match feed_of(alloc, plan, stream, file, fails) {
        Ok(mut from) => {
            fresh_feeds_stand();
            let end = feed(rt, alloc, hub, seat, &mut from, stream, kept, desk, desk);
            let (_file, _tally) = from.close();
            Some(end)
        }
        Err(NoMemory) => {
            hub.halt(rt, seat);
            None
        }
    }
}

// The lines of the rows.
fn lines_of(alloc: Global, rows: &[Row]) -> Result<List<u8>, NoMemory> {
    let mut lines = List::new(alloc);
    for row in rows {
        row_text(alloc, row, &mut lines)?;
        lines.push(b'\n')?;
    }
    Ok(lines)
}

fn feed_items<R: Wait>(
    rt: &R,
    alloc: Global,
    hub: &CoreHub,
    seat: &mut HubSeat,
    plan: &Plan,
    fails: &[u64],
    desk: &Desk,
)
    requires new { IsNewSeat shared_with hub.now.turn 0 seat.old }
    requires auction { IsAuction plan.now.nodes (hub_with (hub_made hub.now)) }
    ensures same { (seat_name seat.new ≡ seat_name seat.old) × (seat_number seat.new ≡ seat_number seat.old) }
{
    let mut kept = Some(List::new(alloc));
    let end = feed_file(rt, alloc, hub, seat, plan, 0, ITEMS, fails, &mut kept, desk);
    desk.ends.lock(rt).items = end;
    if let Some(rows) = kept {
        if let Ok(lines) = lines_of(alloc, rows.as_slice()) {
            *desk.kept.lock(rt) = lines;
        }
    }
}

fn feed_bids<R: Wait>(
    rt: &R,
    alloc: Global,
    hub: &CoreHub,
    seat: &mut HubSeat,
    plan: &Plan,
    desk: &Desk,
)
    requires new { IsNewSeat shared_with hub.now.turn 1 seat.old }
    requires auction { IsAuction plan.now.nodes (hub_with (hub_made hub.now)) }
    ensures same { (seat_name seat.new ≡ seat_name seat.old) × (seat_number seat.new ≡ seat_number seat.old) }
{
    let mut kept = None;
    let end = feed_file(rt, alloc, hub, seat, plan, 1, BIDS, &[], &mut kept, desk);
    desk.ends.lock(rt).bids = end;
}

fn sweep_join<R: Wait>(rt: &R, hub: &CoreHub, seat: &mut HubSeat, plan: &Plan, desk: &Desk)
    requires new { IsNewSeat shared_with hub.now.turn 3 seat.old }
    requires auction { IsAuction plan.now.nodes (hub_with (hub_made hub.now)) }
    ensures same { (seat_name seat.new ≡ seat_name seat.old) × (seat_number seat.new ≡ seat_number seat.old) }
{
    let places = [(JOIN, 0), (JOIN, 1)];
    let end = sweep_all(rt, hub, seat, 0, &places, desk, desk);
    desk.ends.lock(rt).sweeper = Some(end);
}

fn write_results<R: Wait>(
    rt: &R,
    alloc: Global,
    hub: &CoreHub,
    seat: &mut HubSeat,
    plan: &Plan,
    desk: &Desk,
)
    requires new { IsNewSeat shared_with hub.now.turn 4 seat.old }
    ensures same { (seat_name seat.new ≡ seat_name seat.old) × (seat_number seat.new ≡ seat_number seat.old) }
{
    let mut results = desk.results.lock(rt);
    let mut out = desk.out.lock(rt);
    let end = write_out(
        rt,
        alloc,
        hub,
        seat,
        plan,
        &mut *results,
        &mut *out,
        desk,
        desk,
    );
    desk.ends.lock(rt).writer = Some(end);
}

// The work of the seat at a place: two feeders, a prober, a sweeper and the writer.
fn work<R: Wait>(
    rt: &R,
    alloc: Global,
    hub: &CoreHub,
    seat: &mut HubSeat,
    place: usize,
    plan: &Plan,
    fails: &[u64],
    desk: &Desk,
)
    requires new { IsNewSeat shared_with hub.now.turn place seat.old }
    requires auction { IsAuction plan.now.nodes (hub_with (hub_made hub.now)) }
    ensures same { (seat_name seat.new ≡ seat_name seat.old) × (seat_number seat.new ≡ seat_number seat.old) }
{
    if place == 0 {
        feed_items(rt, alloc, hub, seat, plan, fails, desk);
    } else if place == 1 {
        feed_bids(rt, alloc, hub, seat, plan, desk);
    } else if place == 2 {
        let end = probe(rt, alloc, hub, seat, 0, desk, desk);
        desk.ends.lock(rt).prober = Some(end);
    } else if place == 3 {
        sweep_join(rt, hub, seat, plan, desk);
    } else if place == 4 {
        write_results(rt, alloc, hub, seat, plan, desk);
    }
}

// All seats, in so many threads: in one, each when the one before has ended.
fn work_on_all<R: Threads + Wait + Sync>(
    rt: &R,
    alloc: Global,
    hub: &CoreHub,
    seats: &mut [HubSeat],
    threads: usize,
    plan: &Plan,
    fails: &[u64],
    desk: &Desk,
)
    requires threads { 0 < threads }
    requires seats { (k : ℕ) (s : _) → slice_get seats.old k ≡ Some s → IsNewSeat shared_with hub.now.turn k s }
    requires auction { IsAuction plan.now.nodes (hub_with (hub_made hub.now)) }
    ensures { (length seats.new ≡ length seats.old) × ((k : ℕ) (s : _) → slice_get seats.new k ≡ Some s → IsSeat shared_with hub.now.turn k s) }
{
    for_each_mut(
        rt,
        seats,
        threads,
        &|place, seat: &mut HubSeat|
            requires seat { IsNewSeat shared_with hub.now.turn place seat.old }
            requires auction { IsAuction plan.now.nodes (hub_with (hub_made hub.now)) }
            ensures { (seat_name seat.new ≡ seat_name seat.old) × (seat_number seat.new ≡ seat_number seat.old) }
        { work(rt, alloc, hub, seat, place, plan, fails, desk) },
    );
}

// ---- runs

// Writes the rest of what the core hands out; nothing where it has stopped.
fn write_rest(
    alloc: Global,
    core: &mut Core,
    plan: &Plan,
    results: &mut ResultWriter,
    out: &mut MemSink,
) -> Option<()> {
    let outs = core.settle().ok()?;
    let mut text = List::new(alloc);
    results
        .take(alloc, plan, outs.as_slice(), &mut text, out)
        .ok()?;
    results.finish(alloc, out).ok()
}

// Runs the workers where so many elements may come to the join, and answers what the writer had taken when all had ended. Then the
// rest is written.
fn run<R: Threads + Wait + Sync>(
    rt: &R,
    alloc: Global,
    threads: usize,
    limit: u64,
    fails: &[u64],
    desk: &Desk,
) -> Option<Counts>
    requires threads { 0 < threads }
    requires limit { (1 ≤ limit) × (limit ≤ 2 ^ 40) }
{
    let plan = auction(alloc)?;
    let (hub, seats) = opened(alloc, &plan, limit)?;
    let mut seats = seats.into_vec();
    work_on_all(
        rt,
        alloc,
        &hub,
        seats.as_mut_slice(),
        threads,
        &plan,
        fails,
        desk,
    );
    let mut core = hub.close(List::of(seats));
    let mut results = desk.results.lock(rt);
    let mut out = desk.out.lock(rt);
    let taken = results.counts();
    let _written = write_rest(alloc, &mut core, &plan, &mut *results, &mut *out);
    Some(taken)
}

// ---- tests

const ALL_OVER: Ends = Ends {
    items: Some(FeedEnd::Ended),
    bids: Some(FeedEnd::Ended),
    prober: Some(WorkEnd::Over),
    sweeper: Some(WorkEnd::Over),
    writer: Some(WriteEnd::Over),
};

// The lines of the items' rows, whose first the first read gives.
const ROWS: &[u8] = b"t 1 \"ann\"\nt 2 \"bob\"\n";

const FIRST_ROW: &[u8] = b"t 1 \"ann\"\n";

const FAULT: Ends = Ends {
    items: Some(FeedEnd::ReadFault),
    bids: Some(FeedEnd::Halted),
    prober: Some(WorkEnd::Over),
    sweeper: Some(WorkEnd::Over),
    writer: Some(WriteEnd::Over),
};

// The stop of the join, which is the node of this number.
const STOP: Stop = Stop::Limit { node: JOIN };

const STOPPED: Ends = Ends {
    items: Some(FeedEnd::Stopped(STOP)),
    bids: Some(FeedEnd::Stopped(STOP)),
    prober: Some(WorkEnd::Over),
    sweeper: Some(WorkEnd::Over),
    writer: Some(WriteEnd::Over),
};

// Each bid joins the item of its number, in the order of the bids, whose tickets are given in order. Behind them the sweeps of
// the items let their punctuations go, and those of the bids theirs.
const IN_TURN: &[u8] =
    b"t 1 \"ann\" 1 50\nt 2 \"bob\" 2 60\nt 1 \"ann\" 1 70\np 1 * * *\np * * * *\np * * * *\n";

// The same lines sorted, rows first.
const SORTED: &[u8] =
    b"t 1 \"ann\" 1 50\nt 1 \"ann\" 1 70\nt 2 \"bob\" 2 60\np * * * *\np * * * *\np 1 * * *\n";

// Whether the feeders passed four times, and in each round the prober and the writer once, and the sweeper once for each place.
fn is_each_round_passed(passes: [u64; 5], rounds: [u64; 5]) -> bool {
    let [items, bids, taken, swept, drained] = passes;
    let [_, _, probing, sweeping, writing] = rounds;
    [items, bids, taken, swept, drained] == [4, 4, probing, sweeping.saturating_mul(2), writing]
}

// Four arrivals of each feeder, its closing among them, and one take for each of the five rows. The first looks of the sweeper and
// of the writer show that all streams ended: they leave the rest to whoever closes the hub.
#[test]
fn workers_end_in_turn(rt: HostRuntime) {
    let alloc = rt.alloc();
    match Desk::new(alloc, Form::AsTheyCome, false) {
        Ok(desk) => {
            let taken = run(&rt, alloc, 1, 1 << 40, &[], &desk);
            assert_eq!(rt; taken, Some(Counts { rows: 0, puncts: 0 }));
            assert_eq!(rt; *desk.ends.lock(&rt), ALL_OVER);
            assert_eq!(rt; desk.passes.all(), [4, 4, 5, 0, 0]);
            assert_eq!(rt; desk.rounds.all(), [3, 3, 5, 0, 0]);
            assert_eq!(rt; desk.strays.load(Ordering::SeqCst), 0);
            assert!(rt; desk.kept.lock(&rt).as_slice() == ROWS);
            assert!(rt; desk.out.lock(&rt).bytes() == IN_TURN);
        }
        Err(NoMemory) => assert!(rt; false),
    }
}

// The feeder of the bids rests before its stream ends until the writer has all rows, whatever the schedule.
#[test]
fn workers_end_side_by_side(rt: HostRuntime) {
    let alloc = rt.alloc();
    match Desk::new(alloc, Form::Sorted, true) {
        Ok(desk) => {
            let taken = run(&rt, alloc, 5, 1 << 40, &[], &desk);
            assert_eq!(rt; taken.map(|counts| counts.rows), Some(3));
            assert_eq!(rt; *desk.ends.lock(&rt), ALL_OVER);
            assert_eq!(rt; desk.strays.load(Ordering::SeqCst), 0);
            assert!(rt; is_each_round_passed(desk.passes.all(), desk.rounds.all()));
            assert!(rt; desk.kept.lock(&rt).as_slice() == ROWS);
            assert!(rt; desk.out.lock(&rt).bytes() == SORTED);
        }
        Err(NoMemory) => assert!(rt; false),
    }
}

// The second read of the items fails: the first item has come, and the run is halted.
#[test]
fn a_read_fault_ends_all(rt: HostRuntime) {
    let alloc = rt.alloc();
    match Desk::new(alloc, Form::AsTheyCome, false) {
        Ok(desk) => {
            let taken = run(&rt, alloc, 1, 1 << 40, &[1], &desk);
            assert_eq!(rt; taken, Some(Counts { rows: 0, puncts: 0 }));
            assert_eq!(rt; *desk.ends.lock(&rt), FAULT);
            assert_eq!(rt; desk.passes.all(), [2, 0, 0, 0, 0]);
            assert_eq!(rt; desk.strays.load(Ordering::SeqCst), 0);
            assert!(rt; desk.kept.lock(&rt).as_slice() == FIRST_ROW);
            assert!(rt; desk.out.lock(&rt).bytes().is_empty());
        }
        Err(NoMemory) => assert!(rt; false),
    }
}

// Three elements may come to the join, and the closing of the items would be the fourth.
#[test]
fn a_limit_ends_all(rt: HostRuntime) {
    let alloc = rt.alloc();
    match Desk::new(alloc, Form::AsTheyCome, false) {
        Ok(desk) => {
            let taken = run(&rt, alloc, 1, 3, &[], &desk);
            assert_eq!(rt; taken, Some(Counts { rows: 0, puncts: 0 }));
            assert_eq!(rt; *desk.ends.lock(&rt), STOPPED);
            assert_eq!(rt; desk.passes.all(), [4, 1, 0, 0, 0]);
            assert!(rt; desk.kept.lock(&rt).as_slice() == ROWS);
            assert!(rt; desk.out.lock(&rt).bytes().is_empty());
        }
        Err(NoMemory) => assert!(rt; false),
    }
}
