// A law of the top call.
ghost use Rattle.pj_io.specs.Steady.{steady_folder_of, steady_sink};
ghost use Rattle.pj_engine.specs.Completing.{CompletesSteadily};
ghost use Rattle.pj_engine.specs.Threads.{KeepsOn};
ghost use Rattle.pj_engine.specs.Words.{call_of, ended, workers_in};

use crate::top::run_words;
use pj_io::{SteadyFolder, SteadySink};
use pj_report::Status;
use pj_workers::Gate;
use std::sync::Wait;
use std::thread::Threads;

/// The top call over files and an output that never fail. Whatever is asked for, in a run with any number of workers, a replay, a check
/// or a made input: where it is fit, its script can be played and no limit is gone beyond, it is done, or memory was wanting. It keeps
/// all that `run_words` promises.
pub fn steady_calls_complete<R: AllocGlobal + Threads + Wait + Sync, G: Gate>(
    rt: &R,
    words: &[String],
    folder: &mut SteadyFolder,
    out: &mut SteadySink,
    gate: &G,
) -> Status
    ensures completes { CompletesSteadily result (call_of words.now (steady_folder_of folder.old)) }
    ensures keeps { KeepsOn (workers_in words.now) (ended words.now (steady_folder_of folder.old) result (steady_folder_of folder.new) (steady_sink out.old) (steady_sink out.new)) }
{
    run_words(rt, words, folder, out, gate)
}
