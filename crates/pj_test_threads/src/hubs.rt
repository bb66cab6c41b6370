// The auction through a hub: two threads feed it, each on a seat of its own, and probes of two seats are under way at once.
ghost use Rattle.std.specs.Prelude.{◌≡◌, ◌<◌, ◌≤◌, ℕ, [], ◌∷◌, length, slice_get, Some, IfOk, IfSome, IsTrue};
ghost use Rattle.pj_shape.specs.Columns.{domains_of};
ghost use Rattle.pj_pattern.specs.Fitting.{FitsDomains};
ghost use Rattle.pj_plan.specs.Nodes.{streams_of, stream_columns, streams_in};
ghost use Rattle.pj_safety.specs.Certificates.{AreCertificates, certificates_of};
ghost use Rattle.pj_events.specs.History.{streams_of as history_streams};
ghost use Rattle.pj_laws.specs.Seats.{MayFeedAll, made_by};
ghost use Rattle.pj_hub.specs.Hubs.{hub_with, shared_with};
ghost use Rattle.pj_hub.specs.Seated.{AreNewSeats, hub_made, hub_seats};
ghost use Rattle.pj_turn.specs.Seats.{IsNewSeat, IsSeat, seat_name, seat_number};
ghost use Rattle.pj_test_threads.specs.Auctions.{HasJoin, IsAuction, IsAuctionPlan, IsHeld, IsPair, bid_domains, item_domains};

use crate::plans::{AUCTION, JOIN, has_join};
use pj_core::{Out, Probe, Stop};
use pj_element::{punct_text, row_text};
use pj_hub::{CoreHub, HubSeat};
use pj_judge::{Judged, judge};
use pj_pattern::{Element, Pattern, Punct};
use pj_plan::Plan;
use pj_plan_text::read_plan;
use pj_safe_core::safe_core;
use pj_seats::Hub;
use pj_shape::{Cert, Column};
use pj_value::{Kind, List, NoMemory, Row, SharedText, Value};
use std::alloc::Global;
use std::sync::Wait;
use std::thread::{Threads, for_each_mut};

// ---- elements

fn item(alloc: Global, number: i64) -> Result<Row, NoMemory>
    ensures { IfOk result (λ row. FitsDomains item_domains (Element.Tuple row)) }
{
    let seller = SharedText::copy_of(alloc, b"ann")?;
    let mut values = List::new(alloc);
    values.push(Value::Int(number))?;
    values.push(Value::Text(seller))?;
    Ok(Row::of(values))
}

fn bid(alloc: Global, number: i64, price: i64) -> Result<Row, NoMemory>
    ensures { IfOk result (λ row. FitsDomains bid_domains (Element.Tuple row)) }
{
    let mut values = List::new(alloc);
    values.push(Value::Int(number))?;
    values.push(Value::Int(price))?;
    Ok(Row::of(values))
}

// No further tuple of this number.
fn closing(alloc: Global, number: i64) -> Result<Punct, NoMemory>
    ensures items { IfOk result (λ punct. FitsDomains item_domains (Element.Punct punct)) }
    ensures bids { IfOk result (λ punct. FitsDomains bid_domains (Element.Punct punct)) }
{
    let mut patterns = List::new(alloc);
    patterns.push(Pattern::constant(Value::Int(number)))?;
    patterns.push(Pattern::wild())?;
    Ok(Punct::of(patterns))
}

fn pair(alloc: Global, row: Row, punct: Punct) -> Result<Vec<Element>, NoMemory>
    ensures { IfOk result (λ es. es.items ≡ Element.Tuple row ∷ Element.Punct punct ∷ []) }
{
    let mut both = Vec::new(alloc);
    both.push(Element::Tuple(row))?;
    both.push(Element::Punct(punct))?;
    Ok(both)
}

// The item, and that no other of its number comes.
fn items(alloc: Global) -> Result<Vec<Element>, NoMemory>
    ensures { IfOk result (λ es. IsPair item_domains es.items) }
{
    let row = item(alloc, 1)?;
    let punct = closing(alloc, 1)?;
    pair(alloc, row, punct)
}

// A bid for it, and that no other comes.
fn bids(alloc: Global) -> Result<Vec<Element>, NoMemory>
    ensures { IfOk result (λ es. IsPair bid_domains es.items) }
{
    let row = bid(alloc, 1, 50)?;
    let punct = closing(alloc, 1)?;
    pair(alloc, row, punct)
}

// ---- the plan

fn are_items(columns: &[Column]) -> bool
    ensures { IsTrue result → domains_of columns.now ≡ item_domains }
{
    columns.len() == 2 && columns[0].kind == Kind::Int && columns[1].kind == Kind::Text
}

fn are_bids(columns: &[Column]) -> bool
    ensures { IsTrue result → domains_of columns.now ≡ bid_domains }
{
    columns.len() == 2 && columns[0].kind == Kind::Int && columns[1].kind == Kind::Int
}

// The columns of a stream, by its number among the streams.
#[tactic(auto, using(pj_core::proofs::Streams::number_below, pj_core::proofs::Streams::columns_there))]
fn columns_at(plan: &Plan, stream: u32) -> &[Column]
    requires { stream < length (streams_of plan.now.nodes) }
    ensures { result.now ≡ stream_columns (streams_in plan.now.nodes) stream }
{
    let node = plan.streams()[stream as usize];
    plan.schema(node).columns()
}

fn is_auction(plan: &Plan) -> bool
    ensures { IsTrue result → IsAuctionPlan plan.now.nodes }
{
    if plan.streams().len() == 2 {
        are_items(columns_at(plan, 0)) && are_bids(columns_at(plan, 1)) && has_join(plan, JOIN)
    } else {
        false
    }
}

// A hub of this plan, where that is the auction's and safe.
fn hub_of(
    alloc: Global,
    plan: Plan,
    certs: List<List<Cert>>,
    seats: u32,
) -> Result<(CoreHub, List<HubSeat>), NoMemory>
    requires certs { (certs ≡ certificates_of plan.nodes) × AreCertificates plan.nodes }
    requires seats { (1 ≤ seats) × (seats ≤ 64) }
    requires auction { IsAuctionPlan plan.nodes }
    ensures auction { IfOk result (λ r. IsAuction (hub_with (hub_made r.0))) }
    ensures seats { IfOk result (λ r. (hub_seats r.0 ≡ seats) × (length r.1 ≡ seats) × AreNewSeats r.0 r.1) }
{
    let core = safe_core(alloc, plan, certs, 1 << 40, false)?;
    CoreHub::new(alloc, core, seats)
}

fn opened(alloc: Global, seats: u32) -> Option<(CoreHub, List<HubSeat>)>
    requires seats { (1 ≤ seats) × (seats ≤ 64) }
    ensures auction { IfSome result (λ r. IsAuction (hub_with (hub_made r.0))) }
    ensures seats { IfSome result (λ r. (hub_seats r.0 ≡ seats) × (length r.1 ≡ seats) × AreNewSeats r.0 r.1) }
{
    match read_plan(alloc, AUCTION) {
        Ok(plan) => {
            if !is_auction(&plan) {
                return None;
            }
            match judge(alloc, &plan) {
                Ok(Judged::Safe { certs }) => hub_of(alloc, plan, certs, seats).ok(),
                Ok(Judged::Unsafe { found: _ }) => None,
                Err(NoMemory) => None,
            }
        }
        Err(_) => None,
    }
}

// ---- steps of workers

// These elements arrive, one after the other, and the stream ends.
fn feed_all<H: Hub, R: Wait>(
    rt: &R,
    hub: &H,
    seat: &mut H::Seat,
    stream: u32,
    elements: Vec<Element>,
) -> Result<(), Stop>
    requires name { H.seat_name seat.old ≡ H.name hub.now }
    requires stream { (stream ≡ H.number seat.old) × (stream < length (history_streams (H.plan hub.now).nodes)) }
    requires may { MayFeedAll (H.plan hub.now).nodes stream (made_by (H.number seat.old) (H.seen seat.old)) elements.items }
    ensures same { (H.seat_name seat.new ≡ H.seat_name seat.old) × (H.number seat.new ≡ H.number seat.old) }
{
    for element in elements {
        hub.arrive(rt, seat, stream, element)?;
    }
    hub.close_stream(rt, seat, stream)
}

// Works on the probe that the seat holds, and gives it.
fn give_back<H: Hub, R: Wait>(
    rt: &R,
    alloc: Global,
    hub: &H,
    seat: &mut H::Seat,
    probe: Probe,
) -> Result<(), Stop>
    requires name { H.seat_name seat.old ≡ H.name hub.now }
    requires held { IsHeld (H.plan hub.now) (H.number seat.old) (H.seen seat.old) probe }
    ensures same { (H.seat_name seat.new ≡ H.seat_name seat.old) × (H.number seat.new ≡ H.number seat.old) }
{
    match probe.work(alloc) {
        Ok(found) => hub.give(rt, seat, probe, found),
        Err(NoMemory) => Err(Stop::NoMemory),
    }
}

// Takes a ticket and gives it. Tells whether there was one.
fn probe_once<H: Hub, R: Wait>(
    rt: &R,
    alloc: Global,
    hub: &H,
    seat: &mut H::Seat,
) -> Result<bool, Stop>
    requires name { H.seat_name seat.old ≡ H.name hub.now }
    ensures same { (H.seat_name seat.new ≡ H.seat_name seat.old) × (H.number seat.new ≡ H.number seat.old) }
{
    match hub.take(rt, seat)? {
        Some(probe) => {
            give_back(rt, alloc, hub, seat, probe)?;
            Ok(true)
        }
        None => Ok(false),
    }
}

// All probes that are pending.
fn probe_all<H: Hub, R: Wait>(
    rt: &R,
    alloc: Global,
    hub: &H,
    seat: &mut H::Seat,
) -> Result<(), Stop>
    requires name { H.seat_name seat.old ≡ H.name hub.now }
    ensures same { (H.seat_name seat.new ≡ H.seat_name seat.old) × (H.number seat.new ≡ H.number seat.old) }
{
    for _ in rt.forever() {
        if !probe_once(rt, alloc, hub, seat)? {
            return Ok(());
        }
    }
    unreachable!()
}

// All probes, and a sweep of each input of the join, with all probes behind each.
fn settle<H: Hub, R: Wait>(rt: &R, alloc: Global, hub: &H, seat: &mut H::Seat) -> Result<(), Stop>
    requires name { H.seat_name seat.old ≡ H.name hub.now }
    requires auction { IsAuction (H.plan hub.now) }
    ensures same { (H.seat_name seat.new ≡ H.seat_name seat.old) × (H.number seat.new ≡ H.number seat.old) }
{
    probe_all(rt, alloc, hub, seat)?;
    hub.sweep(rt, seat, JOIN, 0)?;
    probe_all(rt, alloc, hub, seat)?;
    hub.sweep(rt, seat, JOIN, 1)?;
    probe_all(rt, alloc, hub, seat)
}

// Waits until both streams ended, or one gave up.
fn await_ends<H: Hub, R: Wait>(rt: &R, hub: &H, seat: &mut H::Seat)
    requires name { H.seat_name seat.old ≡ H.name hub.now }
    ensures same { (H.seat_name seat.new ≡ H.seat_name seat.old) × (H.number seat.new ≡ H.number seat.old) }
{
    for _ in rt.forever() {
        let look = hub.look(rt, seat);
        if look.ended == look.streams || look.halted {
            return;
        }
    }
    unreachable!()
}

// ---- three threads

// Feeds the elements to the stream of the seat's number, or halts the run.
fn feed<R: Wait>(
    rt: &R,
    hub: &CoreHub,
    seat: &mut HubSeat,
    stream: u32,
    elements: Result<Vec<Element>, NoMemory>,
)
    requires new { IsNewSeat shared_with hub.now.turn stream seat.old }
    requires auction { IsAuction (hub_with (hub_made hub.now)) }
    requires few { stream ≤ 1 }
    requires items { stream ≡ 0 → IfOk elements (λ es. IsPair item_domains es.items) }
    requires bids { stream ≡ 1 → IfOk elements (λ es. IsPair bid_domains es.items) }
    ensures same { (seat_name seat.new ≡ seat_name seat.old) × (seat_number seat.new ≡ seat_number seat.old) }
{
    match elements {
        Ok(elements) => {
            if feed_all(rt, hub, seat, stream, elements).is_err() {
                hub.halt(rt, seat);
            }
        }
        Err(NoMemory) => hub.halt(rt, seat),
    }
}

// Two seats feed their streams, and the third waits for their ends and settles the run.
fn work<R: Wait>(rt: &R, alloc: Global, hub: &CoreHub, seat: &mut HubSeat, place: usize)
    requires new { IsNewSeat shared_with hub.now.turn place seat.old }
    requires auction { IsAuction (hub_with (hub_made hub.now)) }
    ensures same { (seat_name seat.new ≡ seat_name seat.old) × (seat_number seat.new ≡ seat_number seat.old) }
{
    if place == 0 {
        feed(rt, hub, seat, 0, items(alloc));
    } else if place == 1 {
        feed(rt, hub, seat, 1, bids(alloc));
    } else {
        await_ends(rt, hub, seat);
        let _ended = settle(rt, alloc, hub, seat);
    }
}

fn work_on_all<R: Threads + Wait + Sync>(
    rt: &R,
    alloc: Global,
    hub: &CoreHub,
    seats: &mut [HubSeat],
)
    requires seats { (1 ≤ length seats.old) × ((k : ℕ) (s : _) → slice_get seats.old k ≡ Some s → IsNewSeat shared_with hub.now.turn k s) }
    requires auction { IsAuction (hub_with (hub_made hub.now)) }
    ensures { (length seats.new ≡ length seats.old) × ((k : ℕ) (s : _) → slice_get seats.new k ≡ Some s → IsSeat shared_with hub.now.turn k s) }
{
    let threads = seats.len();
    for_each_mut(
        rt,
        seats,
        threads,
        &|place, seat: &mut HubSeat|
            requires seat { IsNewSeat shared_with hub.now.turn place seat.old }
            requires auction { IsAuction (hub_with (hub_made hub.now)) }
            ensures { (seat_name seat.new ≡ seat_name seat.old) × (seat_number seat.new ≡ seat_number seat.old) }
        { work(rt, alloc, hub, seat, place) },
    );
}

// What the core hands out once each seat is given back.
fn auctioned<R: Threads + Wait + Sync>(rt: &R, alloc: Global) -> Option<List<Out>> {
    let (hub, seats) = opened(alloc, 3)?;
    let mut seats = seats.into_vec();
    work_on_all(rt, alloc, &hub, seats.as_mut_slice());
    let mut core = hub.close(List::of(seats));
    Some(core.drain())
}

// ---- two probes under way

// The second probe is given before the first, with a sweep on a third seat before each. Answers how many rows the sweeps removed.
fn give_both<H: Hub, R: Wait>(
    rt: &R,
    alloc: Global,
    hub: &H,
    one: &mut H::Seat,
    other: &mut H::Seat,
    third: &mut H::Seat,
    first: Probe,
    second: Probe,
) -> Result<(u64, u64), Stop>
    requires names { (H.seat_name one.old ≡ H.name hub.now) × (H.seat_name other.old ≡ H.name hub.now) × (H.seat_name third.old ≡ H.name hub.now) }
    requires auction { IsAuction (H.plan hub.now) }
    requires first { IsHeld (H.plan hub.now) (H.number one.old) (H.seen one.old) first }
    requires second { IsHeld (H.plan hub.now) (H.number other.old) (H.seen other.old) second }
    ensures names { (H.seat_name one.new ≡ H.seat_name one.old) × (H.seat_name other.new ≡ H.seat_name other.old) × (H.seat_name third.new ≡ H.seat_name third.old) }
{
    let early = hub.sweep(rt, third, JOIN, 0)?;
    give_back(rt, alloc, hub, other, second)?;
    let late = hub.sweep(rt, third, JOIN, 1)?;
    give_back(rt, alloc, hub, one, first)?;
    Ok((early, late))
}

// The auction's items and bids come, and their streams end; each of two seats takes a ticket, and the later one is given first;
// then the run is settled. Answers how many rows the sweeps removed while a probe was under way, and all that is handed out.
fn held<H: Hub, R: Wait>(
    rt: &R,
    alloc: Global,
    hub: &H,
    one: &mut H::Seat,
    other: &mut H::Seat,
    third: &mut H::Seat,
    items: Vec<Element>,
    bids: Vec<Element>,
) -> Result<((u64, u64), List<Out>), Stop>
    requires names { (H.seat_name one.old ≡ H.name hub.now) × (H.seat_name other.old ≡ H.name hub.now) × (H.seat_name third.old ≡ H.name hub.now) }
    requires numbers { (H.number one.old ≡ 0) × (H.number other.old ≡ 1) }
    requires seen { (H.seen one.old ≡ []) × (H.seen other.old ≡ []) }
    requires auction { IsAuction (H.plan hub.now) }
    requires fits { IsPair item_domains items.items × IsPair bid_domains bids.items }
{
    feed_all(rt, hub, one, 0, items)?;
    feed_all(rt, hub, other, 1, bids)?;
    let removed = match hub.take(rt, one)? {
        Some(first) => match hub.take(rt, other)? {
            Some(second) => give_both(rt, alloc, hub, one, other, third, first, second)?,
            None => (91, 91),
        },
        None => (90, 90),
    };
    settle(rt, alloc, hub, third)?;
    Ok((removed, hub.drain(rt, third)))
}

// The three seats.
fn three(mut seats: Vec<HubSeat>) -> Option<(HubSeat, HubSeat, HubSeat)>
    ensures { IfSome result (λ r. seats.items ≡ r.0 ∷ r.1 ∷ r.2 ∷ []) }
{
    let third = seats.pop()?;
    let other = seats.pop()?;
    let one = seats.pop()?;
    if seats.is_empty() {
        Some((one, other, third))
    } else {
        None
    }
}

fn held_run<R: Wait>(rt: &R, alloc: Global) -> Option<((u64, u64), List<Out>)> {
    let (hub, seats) = opened(alloc, 3)?;
    let (mut one, mut other, mut third) = three(seats.into_vec())?;
    let items = items(alloc).ok()?;
    let bids = bids(alloc).ok()?;
    held(
        rt, alloc, &hub, &mut one, &mut other, &mut third, items, bids,
    )
    .ok()
}

// ---- what is handed out

// Whether the output is written so.
fn is_line(alloc: Global, out: &Out, line: &[u8]) -> bool {
    let mut text = List::new(alloc);
    let spelled = match out {
        Out::Tuple(row) => row_text(alloc, row, &mut text),
        Out::Punct(punct) => punct_text(alloc, punct, &mut text),
        Out::Purged {
            join: _,
            input: _,
            row: _,
        } => Err(NoMemory),
    };
    spelled.is_ok() && text.as_slice() == line
}

// How many outputs are written so.
fn count(alloc: Global, outs: &List<Out>, line: &[u8]) -> usize {
    outs.as_slice()
        .iter()
        .filter(|out| is_line(alloc, out, line))
        .count()
}

// How many there are, and how many of the row, of the punctuations of the streams, and of their ends.
fn counts(alloc: Global, outs: &List<Out>) -> [usize; 5] {
    [
        outs.len(),
        count(alloc, outs, b"t 1 \"ann\" 1 50"),
        count(alloc, outs, b"p 1 * * *"),
        count(alloc, outs, b"p * * 1 *"),
        count(alloc, outs, b"p * * * *"),
    ]
}

#[test]
fn two_threads_feed_an_auction(rt: HostRuntime) {
    let alloc = rt.alloc();
    match auctioned(&rt, alloc) {
        Some(outs) => assert_eq!(rt; counts(alloc, &outs), [5, 1, 1, 1, 2]),
        None => assert!(rt; false),
    }
}

// While the first ticket is under way no row goes, though what all rows ask for has come; in the end all is as if nobody had held
// a probe.
#[test]
fn two_seats_hold_probes(rt: HostRuntime) {
    let alloc = rt.alloc();
    match held_run(&rt, alloc) {
        Some((removed, outs)) => {
            assert_eq!(rt; removed, (0, 0));
            assert_eq!(rt; counts(alloc, &outs), [5, 1, 1, 1, 2]);
        }
        None => assert!(rt; false),
    }
}
