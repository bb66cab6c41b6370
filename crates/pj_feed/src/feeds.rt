// The elements of all streams, step by step, as their files are read.
ghost use Rattle.std.specs.Prelude.{◌≡◌, ◌<◌, true, IfOk, OnOk, IfErr, IfNone, IfSome};
ghost use Rattle.pj_intake.specs.Taking.{waits_for_read};
ghost use Rattle.pj_feed.specs.Feeds.{feed_of, work_of, IsFed, IsSameFeed, GivesTurn, AcceptsNone, ComesBehind, HasPassed, BringsOf, FeedStops, IsFirstOpen, HasTurn};

use pj_element::Tally;
use pj_intake::{Intake, IntakeStop, Step};
use pj_io::Source;
use pj_pattern::Element;
use std::marker::Model;

/// What a turn brings: an element of a stream, or its closing. Streams are counted from 0.
#[derive(Drop)]
pub enum Arrival {
    Brought { stream: u32, element: Element },
    Closing { stream: u32 },
}

/// A stream that is fed from its file, and whether its closing is still to come.
pub struct Feed<S: Source> {
    stream: u32,
    intake: Intake<S>,
    is_open: bool,
}

impl<S: Source> Model for Feed<S> {
    ghost use Rattle.pj_feed.specs.Feeds.{FeedState, feed_of};

    ghost Value = { FeedState };

    ghost view = { λ f. feed_of S.state f.stream f.is_open f.intake };
}

impl<S: Source> Feed<S> {
    /// A stream whose intake has judged no line yet.
    pub fn new(stream: u32, intake: Intake<S>) -> Feed<S>
        ensures { result ≡ feed_of S.state stream true intake }
    {
        Feed {
            stream,
            intake,
            is_open: true,
        }
    }

    /// Whether its closing is still to come.
    pub fn is_open(&self) -> bool
        ensures { result ≡ self.now.is_open }
    {
        self.is_open
    }

    /// Whether its next step may wait for its file.
    pub fn waits(&self) -> bool
        ensures { result ≡ waits_for_read self.now.intake }
    {
        self.intake.waits()
    }

    /// One step of a stream whose closing is still to come: judges the next line of its file that is
    /// not skipped. `Some` is its turn, with the element that was accepted, or with its closing where
    /// all lines were judged; `None` is a line that was rejected. `ReadFault` comes only where the
    /// file's faults rose, `ByteLimit` only where it has 2^40 bytes or more. After an `Err` no further
    /// step can be made.
    #[inline(always)]
    pub fn step(&mut self) -> Result<Option<Arrival>, IntakeStop>
        requires fed { IsFed self.old }
        requires open { self.old.is_open ≡ true }
        ensures fed { OnOk result (IsFed self.new) }
        ensures same { IsSameFeed self.old self.new }
        ensures gives { IfOk result (λ next. IfSome next (GivesTurn self.old self.new)) }
        ensures passed { IfOk result (λ next. IfNone next (HasPassed self.old self.new)) }
        ensures works { OnOk result (work_of self.new < work_of self.old) }
        ensures brings { IfOk result (λ next. IfSome next (BringsOf self.old)) }
        ensures comes { IfOk result (λ next. IfSome next (ComesBehind self.old self.new)) }
        ensures accepts { IfOk result (λ next. IfNone next (AcceptsNone self.old self.new)) }
        ensures stops { IfErr result (λ stop. FeedStops self.old self.new stop) }
    {
        let stream = self.stream;
        match self.intake.next() {
            Ok(Step::Tuple(row)) => Ok(Some(Arrival::Brought {
                stream,
                element: Element::Tuple(row),
            })),
            Ok(Step::Punct(punct)) => Ok(Some(Arrival::Brought {
                stream,
                element: Element::Punct(punct),
            })),
            Ok(Step::Rejected(_, _)) => Ok(None),
            Ok(Step::End) => {
                self.is_open = false;
                Ok(Some(Arrival::Closing { stream }))
            }
            Err(stop) => Err(stop),
        }
    }

    /// Its file, and the counts of its lines.
    pub fn close(self) -> (S, Tally)
        ensures tally { result.1 ≡ self.intake.seen.tally }
        ensures source { S.state result.0 ≡ self.source }
    {
        let Feed {
            stream: _,
            intake,
            is_open: _,
        } = self;
        intake.close()
    }
}

/// All streams, and the place of the one whose turn comes next.
pub struct Feeds<S: Source> {
    pub feeds: Vec<Feed<S>>,
    pub at: usize,
}

impl<S: Source> Feeds<S> {
    /// The place of the stream that has the next turn: in rounds each stream has one, as long as its
    /// closing is still to come. `None` exactly where no stream has.
    pub fn place(&self) -> Option<usize>
        ensures { HasTurn self.now.feeds.items self.now.at result }
    {
        match first_open(self.feeds.as_slice(), self.at) {
            Some(place) => Some(place),
            None => first_open(self.feeds.as_slice(), 0),
        }
    }
}

// The first stream from this place on whose closing is still to come.
fn first_open<S: Source>(feeds: &[Feed<S>], from: usize) -> Option<usize>
    ensures { IsFirstOpen feeds.now from result }
{
    for place in from..feeds.len() {
        if feeds[place].is_open() {
            return Some(place);
        }
    }
    None
}
