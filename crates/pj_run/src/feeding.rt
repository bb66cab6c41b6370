// The next turn of a run, before whose reads the output hands on what it holds back.
ghost use Rattle.std.specs.Prelude.{◌≡◌, ◌<◌, ◌≤◌, [], List, length, true, IfErr, IfNone, IfOk, OnErr, OnOk};
ghost use Rattle.pj_io.specs.Causes.{Rose};
ghost use Rattle.pj_plan.specs.declared.node.PlanNode.{PlanNode};
ghost use Rattle.pj_intake.specs.Taking.{waits_for_read};
ghost use Rattle.pj_feed.specs.Feeds.{work_of, AllTold, AreFeeds, AreSameFeeds, BringsIn, BringsOf, ComesBehind, GivesInRounds, GivesTurn, IsFed, IsSameFeed, WorksOn};
ghost use Rattle.pj_report.specs.Written.{WritesNothing};
ghost use Rattle.pj_run.specs.Feeding.{FeedEnds, StopsIn};

use crate::stops::{FeedStop, FeedWhy};
use pj_feed::{Arrival, Feed, Feeds};
use pj_io::{Failed, Sink, Source};

/// The next turn: in rounds each stream has one, as long as its closing is still to come. `None`
/// exactly where no stream has. What the output holds back is handed on before a read. After an `Err`
/// no further turn can be made.
pub fn next_turn<S: Source, K: Sink>(
    feeds: &mut Feeds<S>,
    out: &mut K,
) -> Result<Option<Arrival>, FeedStop>
    requires fed { (streams : List PlanNode) × AreFeeds 0 streams feeds.old.feeds.items }
    requires few { length feeds.old.feeds.items ≤ 128 }
    ensures fed { (streams : List PlanNode) → AreFeeds 0 streams feeds.old.feeds.items → OnOk result (AreFeeds 0 streams feeds.new.feeds.items) }
    ensures same { AreSameFeeds feeds.old.feeds.items feeds.new.feeds.items }
    ensures gives { AllTold feeds.old.feeds.items → IfOk result (λ next. GivesInRounds feeds.old.feeds.items feeds.old.at feeds.new.feeds.items feeds.new.at next) }
    ensures works { IfOk result (λ next. WorksOn feeds.old.feeds.items feeds.new.feeds.items next) }
    ensures brings { IfOk result (λ next. BringsIn feeds.old.feeds.items next) }
    ensures nothing { IfOk result (λ next. IfNone next (feeds.new.feeds.items ≡ feeds.old.feeds.items)) }
    ensures written { WritesNothing (K.state out.old) (K.state out.new) }
    ensures stops { IfErr result (λ stop. StopsIn feeds.old.feeds.items feeds.new.feeds.items feeds.old.at (K.state out.old) (K.state out.new) stop) }
{
    match feeds.place() {
        None => Ok(None),
        Some(place) => {
            feeds.at = place + 1;
            match next_of(&mut feeds.feeds[place], out) {
                Ok(next) => Ok(Some(next)),
                Err(why) => Err(FeedStop {
                    stream: place as u32,
                    why,
                }),
            }
        }
    }
}

/// The next turn of a stream whose closing is still to come: its next accepted element, or its closing, which follows what was
/// accepted before, whatever its source tells. What the output holds back is handed on before a read. After an `Err` no further turn
/// can be made.
#[inline(always)]
pub fn next_of<S: Source, K: Sink>(feed: &mut Feed<S>, out: &mut K) -> Result<Arrival, FeedWhy>
    requires fed { IsFed feed.old }
    requires open { feed.old.is_open ≡ true }
    ensures fed { OnOk result (IsFed feed.new) }
    ensures same { IsSameFeed feed.old feed.new }
    ensures gives { IfOk result (GivesTurn feed.old feed.new) }
    ensures comes { IfOk result (ComesBehind feed.old feed.new) }
    ensures works { OnOk result (work_of feed.new < work_of feed.old) }
    ensures brings { IfOk result (BringsOf feed.old) }
    ensures written { WritesNothing (K.state out.old) (K.state out.new) }
    ensures handed_on { OnOk result (waits_for_read feed.old.intake ≡ true → (K.state out.new).held ≡ []) }
    ensures stops { IfErr result (λ why. FeedEnds feed.old feed.new (K.state out.old) (K.state out.new) why) }
{
    'lines: loop {
        hand_on(feed, out)?;
        match feed.step() {
            Ok(Some(next)) => return Ok(next),
            Ok(None) => {}
            Err(stop) => return Err(FeedWhy::Intake(stop)),
        }
    }
}

// Hands on what the output holds back, where the stream waits for its file.
#[inline(always)]
fn hand_on<S: Source, K: Sink>(feed: &Feed<S>, out: &mut K) -> Result<(), Failed>
    ensures written { WritesNothing (K.state out.old) (K.state out.new) }
    ensures handed_on { OnOk result (waits_for_read feed.now.intake ≡ true → (K.state out.new).held ≡ []) }
    ensures none { OnOk result ((K.state out.old).held ≡ [] → (K.state out.new).held ≡ []) }
    ensures fault { OnErr result (Rose (K.state out.old).faults (K.state out.new).faults) }
{
    if feed.waits() {
        out.flush()?;
    }
    Ok(())
}
