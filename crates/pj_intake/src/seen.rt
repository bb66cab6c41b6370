// What is kept of the lines of a stream that were judged, and the judgement of one line more.
ghost use Rattle.std.specs.Prelude.{◌≡◌, ◌≤◌, ◌<◌, ◌+◌, ◌^◌, ◌-◌, ◌++◌, [], IfOk, OnOk, OnErr};
ghost use Rattle.pj_puncts.specs.Stores.{IsAbove};
ghost use Rattle.pj_element.specs.Fitting.{HasArity};
ghost use Rattle.pj_intake.specs.SeenLines.{IsSeen, HasRoom, with_kept, with_fate, with_reject, fate_by};
ghost use Rattle.pj_intake.specs.Steps.{step_in};

use crate::intake::Step;
use pj_element::{Read, Reject, Tally};
use pj_puncts::PunctStore;
use pj_value::{List, NoMemory};
use std::alloc::Global;

// So many rejects are listed.
const LISTED: usize = 1000;

/// The punctuations with their lines, the number of lines, and the counts of them.
#[derive(Drop)]
pub struct Seen {
    pub store: PunctStore,
    pub line: u64,
    pub tally: Tally,
}

// No line was judged of a stream with so many columns.
pub(crate) fn none_seen(alloc: Global, arity: u32) -> Result<Seen, NoMemory>
    ensures seen { IfOk result (λ seen. IsSeen [] seen.line seen.store.kept seen.tally) }
    ensures arity { IfOk result (λ seen. seen.store.arity ≡ arity) }
{
    Ok(Seen {
        store: PunctStore::new(alloc, arity)?,
        line: 0,
        tally: Tally {
            tuples: 0,
            puncts: 0,
            rejected: 0,
            listed: List::new(alloc),
        },
    })
}

// Judges one line more, which has the next number. It gives no step where the line is skipped. On a refusal nothing of the
// line is kept.
#[inline(always)]
pub(crate) fn judge(alloc: Global, read: Read, seen: &mut Seen) -> Result<Option<Step>, NoMemory>
    requires room { HasRoom seen.old.line seen.old.tally }
    requires rises { IsAbove (seen.old.line + 1) seen.old.store.kept }
    requires fits { HasArity seen.old.store.arity read }
    ensures line { OnOk result (seen.new.line ≡ seen.old.line + 1) }
    ensures arity { OnOk result (seen.new.store.arity ≡ seen.old.store.arity) }
    ensures kept { OnOk result (seen.new.store.kept ≡ seen.old.store.kept ++ with_kept (seen.old.line + 1) read []) }
    ensures tally { OnOk result (seen.new.tally ≡ with_fate (seen.old.line + 1) (fate_by seen.old.store.kept read) seen.old.tally) }
    ensures err { OnErr result (seen.new ≡ seen.old) }
    ensures step { IfOk result (λ step. step ≡ step_in (seen.old.line + 1) (fate_by seen.old.store.kept read)) }
{
    let line = seen.line + 1;
    let step = match read {
        Read::Skip => None,
        Read::Tuple(row) => match seen.store.first_match(&row) {
            None => {
                seen.tally.tuples += 1;
                Some(Step::Tuple(row))
            }
            Some(earlier) => {
                let why = Reject::Closed { line: earlier };
                note_reject(&mut seen.tally, line, why)?;
                Some(Step::Rejected(line, why))
            }
        },
        Read::Punct(punct) => {
            seen.store.push(punct.copy(alloc)?, line)?;
            seen.tally.puncts += 1;
            Some(Step::Punct(punct))
        }
        Read::Bad(why) => {
            note_reject(&mut seen.tally, line, why)?;
            Some(Step::Rejected(line, why))
        }
    };
    seen.line = line;
    Ok(step)
}

// One reject more, of the line with this number.
fn note_reject(tally: &mut Tally, line: u64, why: Reject) -> Result<(), NoMemory>
    requires { tally.old.rejected < 2 ^ 64 - 1 }
    ensures ok { OnOk result (tally.new ≡ with_reject line why tally.old) }
    ensures err { OnErr result (tally.new ≡ tally.old) }
{
    if tally.listed.len() < LISTED {
        tally.listed.push((line, why))?;
    }
    tally.rejected += 1;
    Ok(())
}
