// The run of a plan with workers over its files.
ghost use Rattle.std.specs.Prelude.{◌≡◌, ◌≤◌, [], length, IsTrue, IfErr, OnOk, Err};
ghost use Rattle.pj_plan.specs.Nodes.{streams_in};
ghost use Rattle.pj_io.specs.Folders.{NoneFalls, SameEverywhere};
ghost use Rattle.pj_feed.specs.Feeds.{AllTold, AreFeeds, AreNew, files_of};
ghost use Rattle.pj_feed.specs.Named.{AreTold, files_named};
ghost use Rattle.pj_feed.specs.Opened.{AreOpened, AreReadToEnd, StayOutside, StayReadToEnd, names_in};
ghost use Rattle.pj_run.specs.Cuts.{files_cut, run_cut};
ghost use Rattle.pj_run.specs.RunEnds.{AreRead, FilesOpened};
ghost use Rattle.pj_run.specs.Runs.{IsNewCore, job_in};
ghost use Rattle.pj_run.specs.Whole.{WritesWhole};
ghost use Rattle.pj_parallel_files.specs.Causes.{WorkersCause};
ghost use Rattle.pj_parallel_files.specs.Feeds.{FeedsFail, FeedsLeave};
ghost use Rattle.pj_parallel_files.specs.Histories.{LeavesByStop, MadeWhole};

use pj_core::Core;
use pj_feed::{Feed, OpeningStop, close_feeds, open_feeds};
use pj_io::{Folder, Sink};
use pj_parallel::{RanParallel, Settled, run_parallel};
use pj_plan::Plan;
use pj_run::{FilesStop, RunStop, Writing, finish};
use pj_value::{Bytes, List as Items, NoMemory};
use pj_workers::{Gate, Pause};
use std::alloc::Global;
use std::sync::Wait;
use std::thread::Threads;

/// Runs the plan of a new core with so many workers, 1 to 16, over the files of these names, one for each stream, which are read as the
/// run goes on: writes the outputs of the run, and then the report, each line by a `write_all` of its own, and hands on what the sink
/// holds back. The files are opened in order, and each that was opened is closed.
///
/// Whatever the interleaving: where it was made to its end there is a whole history of the plan over exactly the accepted elements, and
/// it wrote the lines of that. Where it stopped there is a legal history of a front of each stream, of whose lines it wrote what the stop
/// leaves; where the report was not written to its end, of the lines of a whole one. `Refused` never comes: there is no script.
pub fn run_parallel_files<F: Folder, K: Sink + Send, G: Gate, P: Pause, R: Threads + Wait + Sync>(
    rt: &R,
    alloc: Global,
    writing: Writing,
    core: Core,
    plan: &Plan,
    names: &[Bytes],
    workers: u32,
    folder: &mut F,
    out: &mut K,
    gate: &G,
    pause: &P,
) -> Result<(), FilesStop>
where
    F::File: Send,
    requires fresh { IsNewCore core }
    requires plan { plan.now.nodes ≡ core.plan.nodes }
    requires each { length names.now ≡ length (streams_in core.plan.nodes) }
    requires workers { (1 ≤ workers) × (workers ≤ 16) }
    ensures told { IsTrue (K.state out.new).told → IsTrue (K.state out.old).told }
    ensures done { AreTold names.now (F.state folder.old) → OnOk result (MadeWhole (job_in writing core) (files_named names.now (F.state folder.old)) (K.state out.old) (K.state out.new)) }
    ensures stops { LeavesByStop result (job_in writing core) names.now (F.state folder.old) (F.state folder.new) (K.state out.old) (K.state out.new) }
    ensures whole { WritesWhole files_cut (K.state out.old) (K.state out.new) result }
    ensures unopened { (stop : OpeningStop) → result ≡ Err (FilesStop.Opening stop) → out.new ≡ out.old }
    ensures last { OnOk result (AreReadToEnd names.now (F.state folder.old) (F.state folder.new)) }
    ensures keeps { StayReadToEnd (F.state folder.old) (F.state folder.new) result }
    ensures handed_on { OnOk result ((K.state out.new).held ≡ []) }
    ensures opened { FilesOpened result names.now (F.state folder.old) (F.state folder.new) }
    ensures others { StayOutside names.now (F.state folder.old) (F.state folder.new) }
    ensures causes { IfErr result (λ stop. WorkersCause stop (job_in writing core) names.now (F.state folder.old) (F.state folder.new) (K.state out.old) (K.state out.new)) }
    ensures folder_later { NoneFalls (F.state folder.old).faults (F.state folder.new).faults }
    ensures later { (K.state out.old).faults ≤ (K.state out.new).faults }
{
    let Ok(mut feeds) = Vec::with_capacity(alloc, names.len()) else {
        return Err(FilesStop::Opening {
            stop: OpeningStop::NoMemory,
        });
    };
    match open_feeds(alloc, folder, plan, names, &mut feeds) {
        Ok(()) => {
            let ended = run_feeds(
                rt, alloc, writing, core, plan, feeds, workers, folder, out, gate, pause,
            );
            match ended {
                Ok(()) => Ok(()),
                Err(stop) => Err(FilesStop::Run { stop }),
            }
        }
        Err(stop) => {
            let _ = close_feeds(alloc, folder, feeds);
            Err(FilesStop::Opening { stop })
        }
    }
}

// Runs the plan over files that were opened, and closes them before the report.
fn run_feeds<F: Folder, K: Sink + Send, G: Gate, P: Pause, R: Threads + Wait + Sync>(
    rt: &R,
    alloc: Global,
    writing: Writing,
    core: Core,
    plan: &Plan,
    feeds: Vec<Feed<F::File>>,
    workers: u32,
    folder: &mut F,
    out: &mut K,
    gate: &G,
    pause: &P,
) -> Result<(), RunStop>
where
    F::File: Send,
    requires fresh { IsNewCore core }
    requires plan { plan.now.nodes ≡ core.plan.nodes }
    requires feeds { AreFeeds 0 (streams_in core.plan.nodes) feeds.items }
    requires none { AreNew feeds.items }
    requires opened { AreOpened (F.state folder.old).opened feeds.items }
    requires workers { (1 ≤ workers) × (workers ≤ 16) }
    ensures told { IsTrue (K.state out.new).told → IsTrue (K.state out.old).told }
    ensures done { AllTold feeds.items → OnOk result (MadeWhole (job_in writing core) (files_of feeds.items) (K.state out.old) (K.state out.new)) }
    ensures stops { AllTold feeds.items → IfErr result (λ stop. FeedsLeave stop (job_in writing core) feeds.items (F.state folder.old) (F.state folder.new) (K.state out.old) (K.state out.new)) }
    ensures whole { WritesWhole run_cut (K.state out.old) (K.state out.new) result }
    ensures last { OnOk result (AreRead feeds.items (F.state folder.old) (F.state folder.new)) }
    ensures handed_on { OnOk result ((K.state out.new).held ≡ []) }
    ensures causes { IfErr result (λ stop. FeedsFail stop (job_in writing core) feeds.items (F.state folder.old) (F.state folder.new) (K.state out.old) (K.state out.new)) }
    ensures still_opened { SameEverywhere (F.state folder.old).opened (F.state folder.new).opened }
    ensures others { StayOutside (names_in feeds.items) (F.state folder.old) (F.state folder.new) }
    ensures folder_later { NoneFalls (F.state folder.old).faults (F.state folder.new).faults }
    ensures later { (K.state out.old).faults ≤ (K.state out.new).faults }
{
    let mut text = Items::new(alloc);
    let RanParallel { feeds, ended } = run_parallel(
        rt, alloc, writing, core, plan, feeds, workers, &mut text, out, gate, pause,
    );
    let closed = close_feeds(alloc, folder, feeds);
    let Settled { core, gathered } = match ended {
        Ok(settled) => settled,
        Err(stop) => return Err(stop),
    };
    let tallies = match closed {
        Ok(tallies) => tallies,
        Err(NoMemory) => return Err(RunStop::NoMemory),
    };
    match finish(alloc, &core, tallies.as_slice(), &gathered, &mut text, out) {
        Ok(()) => Ok(()),
        Err(stop) => Err(RunStop::from(stop)),
    }
}
