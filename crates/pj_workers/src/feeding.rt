// Feeders.
ghost use Rattle.std.specs.Prelude.{◌≡◌, ◌<◌, [], ◌∷◌, ℕ, List, true, nat_lt, length, Some, IfErr, IfNone, IfOk, IfSome, OnOk};
ghost use Rattle.pj_pattern.specs.declared.element.Element.{Element as AnElement};
ghost use Rattle.pj_pattern.specs.Elements.{rows_of};
ghost use Rattle.pj_events.specs.History.{streams_of};
ghost use Rattle.pj_events.specs.Outcomes.{elements_of};
ghost use Rattle.pj_feed.specs.Feeds.{AcceptsNone, BringsOf, ComesBehind, FeedStops, HasAccepted, IsFed, IsSameFeed, work_of};
ghost use Rattle.pj_laws.specs.Seats.{made_by};
ghost use Rattle.pj_workers.specs.Rounds.{Adds, IsRelief};
ghost use Rattle.pj_workers.specs.Ends.{Breaks};
ghost use Rattle.pj_workers.specs.Feeds.{Brings, BringsNone, FaultAt, Feeds, HasFed, IsFeeding, OnEnded, fault_end, feed_end, with_rows};
ghost use Rattle.pj_workers.specs.declared.feeding.FeedEnd.TheVariants.{Ended};

use crate::ends::Broken;
use crate::gate::{Gate, Pause, Role};
use crate::probing::probe_once;
use pj_events::Stop;
use pj_feed::{Arrival, Feed};
use pj_intake::IntakeStop;
use pj_io::Source;
use pj_pattern::Element;
use pj_seats::Hub;
use pj_value::{List as Items, NoMemory, Row};
use std::alloc::Global;
use std::sync::Wait;

// A feeder that is told more pending tickets than these does one itself.
const MOST_PENDING: u64 = 1024;

/// How a feeder ends.
#[derive(Clone, Copy, Debug, PartialEq, Eq)]
pub enum FeedEnd {
    /// All elements arrived, and the stream is closed.
    Ended,
    /// A look showed a halt.
    Halted,
    /// A read of the file failed; the run is halted.
    ReadFault,
    /// The file gave as many bytes as may be and had not ended; the run is halted.
    ByteLimit,
    /// Memory could not be had; the run is halted.
    NoMemory,
    /// The run has stopped.
    Stopped(Stop),
}

fn feed_end_of(broken: Broken) -> FeedEnd
    ensures { result ≡ feed_end broken }
{
    match broken {
        Broken::NoMemory => FeedEnd::NoMemory,
        Broken::Stopped(stop) => FeedEnd::Stopped(stop),
    }
}

fn fault_end_of(stop: IntakeStop) -> FeedEnd
    ensures { result ≡ fault_end stop }
{
    match stop {
        IntakeStop::ReadFault => FeedEnd::ReadFault,
        IntakeStop::ByteLimit => FeedEnd::ByteLimit,
        IntakeStop::NoMemory => FeedEnd::NoMemory,
    }
}

// Does one ticket, where more than so many are pending.
fn relieve<H: Hub, R: Wait>(
    rt: &R,
    alloc: Global,
    hub: &H,
    seat: &mut H::Seat,
    pending: u64,
) -> Result<(), Broken>
    requires name { H.seat_name seat.old ≡ H.name hub.now }
    ensures same { (H.seat_name seat.new ≡ H.seat_name seat.old) × (H.number seat.new ≡ H.number seat.old) }
    ensures probed { OnOk result (Adds (H.number seat.old) (IsRelief pending (H.number seat.old)) (H.seen seat.old) (H.seen seat.new)) }
    ensures breaks { IfErr result (Breaks (H.plan hub.now) (H.number seat.old) (IsRelief pending (H.number seat.old)) (H.seen seat.old) (H.seen seat.new)) }
{
    if MOST_PENDING < pending {
        probe_once(rt, alloc, hub, seat)
    } else {
        Ok(())
    }
}

// The next that a stream brings, an element or its closing.
fn next_arrival<S: Source, P: Pause, R: Wait>(
    rt: &R,
    feed: &mut Feed<S>,
    stream: u32,
    pause: &P,
) -> Result<Arrival, IntakeStop>
    requires fed { IsFed feed.old }
    requires open { feed.old.is_open ≡ true }
    ensures same { IsSameFeed feed.old feed.new }
    ensures brings { IfOk result (BringsOf feed.old) }
    ensures comes { IfOk result (ComesBehind feed.old feed.new) }
    ensures stops { IfErr result (λ stop. (es : List AnElement) → HasAccepted feed.old es → FaultAt feed.old feed.new stop es) }
{
    loop {
        match next_step(rt, feed, stream, pause) {
            Ok(Some(next)) => return Ok(next),
            Ok(None) => {}
            Err(stop) => return Err(stop),
        }
    }
}

// One step of a stream, around which others go on where it may wait.
fn next_step<S: Source, P: Pause, R: Wait>(
    rt: &R,
    feed: &mut Feed<S>,
    stream: u32,
    pause: &P,
) -> Result<Option<Arrival>, IntakeStop>
    requires fed { IsFed feed.old }
    requires open { feed.old.is_open ≡ true }
    ensures fed { OnOk result (IsFed feed.new) }
    ensures same { IsSameFeed feed.old feed.new }
    ensures works { OnOk result (work_of feed.new < work_of feed.old) }
    ensures brings { IfOk result (λ next. IfSome next (BringsOf feed.old)) }
    ensures comes { IfOk result (λ next. IfSome next (ComesBehind feed.old feed.new)) }
    ensures accepts { IfOk result (λ next. IfNone next (AcceptsNone feed.old feed.new)) }
    ensures stops { IfErr result (λ stop. FeedStops feed.old feed.new stop) }
{
    if feed.waits() {
        pause.before_read(rt, stream);
        let next = feed.step();
        pause.after_read(rt, stream);
        next
    } else {
        feed.step()
    }
}

// Keeps the row of an element, if it is one and rows are asked for.
fn keep_row(alloc: Global, kept: &mut Option<Items<Row>>, element: &Element) -> Result<(), NoMemory>
    ensures { OnOk result (kept.new ≡ with_rows kept.old (rows_of (element.now ∷ []))) }
{
    match kept {
        Some(rows) => match element {
            Element::Tuple(row) => {
                let row = row.copy(alloc)?;
                rows.push(row)?;
                Ok(())
            }
            Element::Punct(_) => Ok(()),
        },
        None => Ok(()),
    }
}

// Makes the next element of the stream arrive, and keeps its row; or closes the stream, which ends the feeder. Where the feed stops,
// or memory is wanting, the run is halted.
fn bring<H: Hub, S: Source, P: Pause, R: Wait>(
    rt: &R,
    alloc: Global,
    hub: &H,
    seat: &mut H::Seat,
    from: &mut Feed<S>,
    stream: u32,
    kept: &mut Option<Items<Row>>,
    pause: &P,
) -> Option<FeedEnd>
    requires name { H.seat_name seat.old ≡ H.name hub.now }
    requires there { H.number seat.old < length (streams_of (H.plan hub.now).nodes) }
    requires feeding { IsFeeding (H.plan hub.now) (H.number seat.old) (made_by (H.number seat.old) (H.seen seat.old)) from.old }
    ensures same { (H.seat_name seat.new ≡ H.seat_name seat.old) × (H.number seat.new ≡ H.number seat.old) }
    ensures same_feed { IsSameFeed from.old from.new }
    ensures brings { IfNone result (Brings (H.plan hub.now) (H.number seat.old) (H.seen seat.old) (H.seen seat.new) from.new kept.old kept.new) }
    ensures ends { IfSome result (BringsNone (H.plan hub.now) (H.number seat.old) (H.seen seat.old) (H.seen seat.new) from.old from.new) }
    ensures kept { IfSome result (λ end. OnEnded end (kept.new ≡ kept.old)) }
{
    match next_arrival(rt, from, stream, pause) {
        Ok(Arrival::Brought { stream, element }) => {
            match keep_row(alloc, kept, &element) {
                Ok(()) => {}
                Err(NoMemory) => {
                    hub.halt(rt, seat);
                    return Some(FeedEnd::NoMemory);
                }
            }
            match hub.arrive(rt, seat, stream, element) {
                Ok(()) => None,
                Err(stop) => Some(FeedEnd::Stopped(stop)),
            }
        }
        Ok(Arrival::Closing { stream }) => match hub.close_stream(rt, seat, stream) {
            Ok(()) => Some(FeedEnd::Ended),
            Err(stop) => Some(FeedEnd::Stopped(stop)),
        },
        Err(stop) => {
            hub.halt(rt, seat);
            Some(fault_end_of(stop))
        }
    }
}

/// Feeds a stream in rounds: a look; where it told more than 1,024 pending tickets, one of them is done; then the next element
/// that is accepted arrives, or the stream is closed, which is the end. `kept` gains the rows that arrived, where it is asked for.
///
/// `ReadFault` and `ByteLimit` come only as the feed says. It never waits for a prober.
pub fn feed<H: Hub, S: Source, G: Gate, P: Pause, R: Wait>(
    rt: &R,
    alloc: Global,
    hub: &H,
    seat: &mut H::Seat,
    from: &mut Feed<S>,
    stream: u32,
    kept: &mut Option<Items<Row>>,
    gate: &G,
    pause: &P,
) -> FeedEnd
    requires name { H.seat_name seat.old ≡ H.name hub.now }
    requires stream { (stream ≡ H.number seat.old) × (stream < length (streams_of (H.plan hub.now).nodes)) }
    requires feeding { IsFeeding (H.plan hub.now) (H.number seat.old) (made_by (H.number seat.old) (H.seen seat.old)) from.old }
    requires none { elements_of (H.number seat.old) (made_by (H.number seat.old) (H.seen seat.old)) ≡ [] }
    ensures same { (H.seat_name seat.new ≡ H.seat_name seat.old) × (H.number seat.new ≡ H.number seat.old) }
    ensures same_feed { IsSameFeed from.old from.new }
    ensures made { Feeds (H.plan hub.now) (H.number seat.old) from.new (H.seen seat.old) (H.seen seat.new) result }
    ensures fed { HasFed (H.plan hub.now) (H.number seat.old) (made_by (H.number seat.old) (H.seen seat.new)) from.old from.new result }
    ensures kept { OnEnded result (kept.new ≡ with_rows kept.old (rows_of (elements_of (H.number seat.old) (made_by (H.number seat.old) (H.seen seat.new))))) }
{
    let mut nth: u64 = 0;
    for _ in rt.forever() {
        let look = hub.look(rt, seat);
        if look.halted {
            return FeedEnd::Halted;
        }
        match relieve(rt, alloc, hub, seat, look.pending) {
            Ok(()) => {}
            Err(broken) => return feed_end_of(broken),
        }
        gate.pass(Role::Feeder, stream, nth);
        nth = nth.saturating_add(1);
        match bring(rt, alloc, hub, seat, from, stream, kept, pause) {
            None => {}
            Some(end) => return end,
        }
        pause.pause(rt, Role::Feeder, stream, &look);
    }
    unreachable!()
}
