// The run of a plan over its files.
ghost use Rattle.std.specs.Prelude.{◌≡◌, ◌≤◌, [], length, IsTrue, IfErr, IfOk, OnOk, Err, None};
ghost use Rattle.pj_plan.specs.Nodes.{streams_in};
ghost use Rattle.pj_io.specs.Folders.{NoneFalls, SameEverywhere};
ghost use Rattle.pj_core.specs.Cores.{StandsFor};
ghost use Rattle.pj_feed.specs.Feeds.{AreFeeds, AreNew, AreSameFeeds, AllTold, AreAllTaken, files_of};
ghost use Rattle.pj_feed.specs.Named.{AreTold, files_named};
ghost use Rattle.pj_feed.specs.Opened.{AreOpened, AreReadToEnd, StayOutside, StayReadToEnd, names_in};
ghost use Rattle.pj_run.specs.Cuts.{files_cut, run_cut};
ghost use Rattle.pj_run.specs.RunEnds.{AreRead, FeedsCause, FeedsWrite, FilesCause, FilesOpened, FilesWrite, StoppedFeeds, StoppedFiles, StoppedTurns, TurnsCause, TurnsWrite};
ghost use Rattle.pj_run.specs.Runs.{IsEnabled, IsNewCore, IsScriptOf, due_lines, history_of, job_by, StaysInLimit};
ghost use Rattle.pj_run.specs.Whole.{HasTaken, WritesWhole};
ghost use Rattle.pj_run.specs.Outcome.{TurnsGather};

use pj_core::Core;
use pj_feed::{Feed, Feeds, OpeningStop, close_feeds, open_feeds};
use pj_io::{Folder, Sink, Source};
use pj_replay::{Replayed, replay_streams};
use pj_run::{FilesStop, RunStop, Writing, finish, run_streams};
use pj_script::ScriptStep;
use pj_value::{Bytes, List as Items, NoMemory};
use std::alloc::Global;

/// What a run over files leaves: its core, and how it ended.
#[derive(Drop)]
pub struct Ran {
    pub core: Core,
    pub ended: Result<(), FilesStop>,
}

// The same of a run over files that were opened.
#[derive(Drop)]
struct RanFeeds {
    core: Core,
    ended: Result<(), RunStop>,
}

/// Runs the plan of a new core over the files of these names, one for each stream, which are read as the run goes on: writes the
/// outputs of the run, and then the report, each line by a `write_all` of its own, and hands on what the sink holds back. The files
/// are opened in order, and each that was opened is closed.
///
/// Without a script the streams take turns, and it is the run on one thread. With one its steps, each with its line, are made one by
/// one as far as they are enabled; then what is under way is given and the run is settled, and the streams that have not ended take
/// turns. `Refused` comes only where a step of a script is not enabled, and names the line of the first: what was handed out until
/// then is written. `Ok` comes only where every step was made; where one is not enabled no report is written, whatever stop is told.
pub fn run_files<F: Folder, K: Sink>(
    alloc: Global,
    writing: Writing,
    core: Core,
    script: &Option<Items<(u64, ScriptStep)>>,
    names: &[Bytes],
    folder: &mut F,
    out: &mut K,
) -> Ran
    requires fresh { IsNewCore core }
    requires script { IsScriptOf core.plan.nodes script.now }
    requires each { length names.now ≡ length (streams_in core.plan.nodes) }
    ensures plan { result.core.plan ≡ core.plan }
    ensures told { IsTrue (K.state out.new).told → IsTrue (K.state out.old).told }
    ensures lines { FilesWrite (job_by script.now writing core) names.now (F.state folder.old) (K.state out.old) (K.state out.new) result.ended }
    ensures whole { WritesWhole files_cut (K.state out.old) (K.state out.new) result.ended }
    ensures ends { StoppedFiles (job_by script.now writing core) names.now (F.state folder.old) (F.state folder.new) (K.state out.old) (K.state out.new) result.ended }
    ensures enabled { AreTold names.now (F.state folder.old) → OnOk result.ended (IsEnabled (job_by script.now writing core) (files_named names.now (F.state folder.old))) }
    ensures within { AreTold names.now (F.state folder.old) → OnOk result.ended (StaysInLimit (job_by script.now writing core) (files_named names.now (F.state folder.old))) }
    ensures unopened { (stop : OpeningStop) → result.ended ≡ Err (FilesStop.Opening stop) → out.new ≡ out.old }
    ensures last { OnOk result.ended (AreReadToEnd names.now (F.state folder.old) (F.state folder.new)) }
    ensures keeps { StayReadToEnd (F.state folder.old) (F.state folder.new) result.ended }
    ensures handed_on { OnOk result.ended ((K.state out.new).held ≡ []) }
    ensures opened { FilesOpened result.ended names.now (F.state folder.old) (F.state folder.new) }
    ensures others { StayOutside names.now (F.state folder.old) (F.state folder.new) }
    ensures causes { IfErr result.ended (λ stop. FilesCause stop (job_by script.now writing core) names.now (F.state folder.old) (F.state folder.new) (K.state out.old) (K.state out.new)) }
    ensures folder_later { NoneFalls (F.state folder.old).faults (F.state folder.new).faults }
    ensures later { (K.state out.old).faults ≤ (K.state out.new).faults }
{
    let Ok(mut feeds) = Vec::with_capacity(alloc, names.len()) else {
        return Ran {
            core,
            ended: Err(FilesStop::Opening {
                stop: OpeningStop::NoMemory,
            }),
        };
    };
    match open_feeds(alloc, folder, core.plan(), names, &mut feeds) {
        Ok(()) => {
            let RanFeeds { core, ended } = run_feeds(
                alloc, writing, core, script, feeds, folder, out,
            );
            match ended {
                Ok(()) => Ran {
                    core,
                    ended: Ok(()),
                },
                Err(stop) => Ran {
                    core,
                    ended: Err(FilesStop::Run { stop }),
                },
            }
        }
        Err(stop) => {
            let _ = close_feeds(alloc, folder, feeds);
            Ran {
                core,
                ended: Err(FilesStop::Opening { stop }),
            }
        }
    }
}

// Runs the plan over files that were opened, and closes them before the report.
fn run_feeds<F: Folder, K: Sink>(
    alloc: Global,
    writing: Writing,
    core: Core,
    script: &Option<Items<(u64, ScriptStep)>>,
    feeds: Vec<Feed<F::File>>,
    folder: &mut F,
    out: &mut K,
) -> RanFeeds
    requires fresh { IsNewCore core }
    requires script { IsScriptOf core.plan.nodes script.now }
    requires feeds { AreFeeds 0 (streams_in core.plan.nodes) feeds.items }
    requires none { AreNew feeds.items }
    requires opened { AreOpened (F.state folder.old).opened feeds.items }
    ensures plan { result.core.plan ≡ core.plan }
    ensures told { IsTrue (K.state out.new).told → IsTrue (K.state out.old).told }
    ensures lines { FeedsWrite feeds.items (due_lines (job_by script.now writing core) (files_of feeds.items)) (K.state out.old) (K.state out.new) result.ended }
    ensures whole { WritesWhole run_cut (K.state out.old) (K.state out.new) result.ended }
    ensures ends { StoppedFeeds (job_by script.now writing core) feeds.items (F.state folder.old) (F.state folder.new) (K.state out.old) (K.state out.new) result.ended }
    ensures enabled { AllTold feeds.items → OnOk result.ended (IsEnabled (job_by script.now writing core) (files_of feeds.items)) }
    ensures within { AllTold feeds.items → OnOk result.ended (StaysInLimit (job_by script.now writing core) (files_of feeds.items)) }
    ensures handed_on { OnOk result.ended ((K.state out.new).held ≡ []) }
    ensures last { OnOk result.ended (AreRead feeds.items (F.state folder.old) (F.state folder.new)) }
    ensures causes { IfErr result.ended (λ stop. FeedsCause stop (job_by script.now writing core) feeds.items (F.state folder.old) (F.state folder.new) (K.state out.old) (K.state out.new)) }
    ensures still_opened { SameEverywhere (F.state folder.old).opened (F.state folder.new).opened }
    ensures others { StayOutside (names_in feeds.items) (F.state folder.old) (F.state folder.new) }
    ensures folder_later { NoneFalls (F.state folder.old).faults (F.state folder.new).faults }
    ensures later { (K.state out.old).faults ≤ (K.state out.new).faults }
{
    let mut text = Items::new(alloc);
    let mut feeds = Feeds { feeds, at: 0 };
    let Replayed { core, ended } = make_turns(
        alloc, writing, core, script, &mut feeds, &mut text, out,
    );
    let Feeds { feeds, at: _ } = feeds;
    let closed = close_feeds(alloc, folder, feeds);
    let gathered = match ended {
        Ok(gathered) => gathered,
        Err(stop) => {
            return RanFeeds {
                core,
                ended: Err(stop),
            };
        }
    };
    let tallies = match closed {
        Ok(tallies) => tallies,
        Err(NoMemory) => {
            return RanFeeds {
                core,
                ended: Err(RunStop::NoMemory),
            };
        }
    };
    match finish(alloc, &core, tallies.as_slice(), &gathered, &mut text, out) {
        Ok(()) => RanFeeds {
            core,
            ended: Ok(()),
        },
        Err(stop) => RanFeeds {
            core,
            ended: Err(RunStop::from(stop)),
        },
    }
}

// Runs the plan over its streams: on one thread, or by a script.
fn make_turns<S: Source, K: Sink>(
    alloc: Global,
    writing: Writing,
    core: Core,
    script: &Option<Items<(u64, ScriptStep)>>,
    feeds: &mut Feeds<S>,
    text: &mut Items<u8>,
    out: &mut K,
) -> Replayed
    requires fresh { IsNewCore core }
    requires script { IsScriptOf core.plan.nodes script.now }
    requires feeds { AreFeeds 0 (streams_in core.plan.nodes) feeds.old.feeds.items }
    requires none { AreNew feeds.old.feeds.items }
    requires first { feeds.old.at ≡ 0 }
    ensures plan { result.core.plan ≡ core.plan }
    ensures on { OnOk result.ended (result.core.kept.stop ≡ None) }
    ensures same { AreSameFeeds feeds.old.feeds.items feeds.new.feeds.items }
    ensures told { IsTrue (K.state out.new).told → IsTrue (K.state out.old).told }
    ensures lines { TurnsWrite (job_by script.now writing core) feeds.old.feeds.items (K.state out.old) (K.state out.new) result.ended }
    ensures whole { WritesWhole run_cut (K.state out.old) (K.state out.new) result.ended }
    ensures ends { StoppedTurns (job_by script.now writing core) feeds.old.feeds.items feeds.new.feeds.items (K.state out.old) (K.state out.new) result.ended }
    ensures outcome { TurnsGather (job_by script.now writing core) feeds.old.feeds.items feeds.new.feeds.items result.ended }
    ensures enabled { AllTold feeds.old.feeds.items → OnOk result.ended (IsEnabled (job_by script.now writing core) (files_of feeds.old.feeds.items)) }
    ensures within { AllTold feeds.old.feeds.items → OnOk result.ended (StaysInLimit (job_by script.now writing core) (files_of feeds.old.feeds.items)) }
    ensures stands { AllTold feeds.old.feeds.items → OnOk result.ended (StandsFor result.core (history_of (job_by script.now writing core) (files_of feeds.old.feeds.items))) }
    ensures taken { OnOk result.ended (AreAllTaken feeds.new.feeds.items) }
    ensures has_taken { IfOk result.ended (λ gathered. HasTaken writing.form gathered.results) }
    ensures causes { IfErr result.ended (λ stop. TurnsCause stop (job_by script.now writing core) feeds.old.feeds.items feeds.new.feeds.items (K.state out.old) (K.state out.new)) }
    ensures later { (K.state out.old).faults ≤ (K.state out.new).faults }
{
    match script {
        None => {
            let mut core = core;
            let ended = run_streams(alloc, writing, &mut core, feeds, text, out);
            Replayed { core, ended }
        }
        Some(steps) => replay_streams(alloc, writing, core, feeds, steps.as_slice(), text, out),
    }
}
