// The plan's file and the script's, which are read whole.
ghost use Rattle.std.specs.Prelude.{◌≡◌, ◌≤◌, ◌<◌, ◌∷◌, [], IsTrue, IfOk, IfErr, OnOk, Err, length};
ghost use Rattle.pj_io.specs.Folders.{NoneFalls, SameElsewhere};
ghost use Rattle.pj_feed.specs.Opened.{OpensFirst, OpensAtMost};
ghost use Rattle.pj_prepare.specs.Refusals.{FileCause, FileOpens};

use crate::stops::FileStop;
use pj_io::{Folder, OpenStop, WholeStop, read_whole};
use pj_value::Bytes;
use std::alloc::Global;

// The most bytes of a plan's file, and of a script's.
const MOST: u64 = 1_048_576;

/// Opens the file of a name, reads it to its end and closes it.
pub fn read_file<F: Folder>(alloc: Global, folder: &mut F, name: &[u8]) -> Result<Bytes, FileStop>
    ensures told { (F.state folder.new).told ≡ (F.state folder.old).told }
    ensures contents { (F.state folder.new).contents ≡ (F.state folder.old).contents }
    ensures bytes { IsTrue ((F.state folder.old).told name.now) → IfOk result (λ bytes. bytes ≡ (F.state folder.old).contents name.now) }
    ensures last { IsTrue ((F.state folder.old).told name.now) → IfOk result (λ bytes. (F.state folder.new).last name.now ≡ length bytes) }
    ensures other_last { SameElsewhere name.now (F.state folder.old).last (F.state folder.new).last }
    ensures other_faults { SameElsewhere name.now (F.state folder.old).faults (F.state folder.new).faults }
    ensures later { NoneFalls (F.state folder.old).faults (F.state folder.new).faults }
    ensures opened { OpensAtMost 1 (name.now ∷ []) (F.state folder.old) (F.state folder.new) }
    ensures was_opened { OnOk result (OpensFirst 1 (name.now ∷ []) (F.state folder.old) (F.state folder.new)) }
    ensures cause { IfErr result (λ stop. FileCause stop name.now (F.state folder.old) (F.state folder.new)) }
    ensures opens { IfErr result (λ stop. FileOpens stop name.now (F.state folder.old) (F.state folder.new)) }
    ensures short { IfOk result (λ bytes. length bytes ≤ 1048576) }
{
    let mut file = match folder.open_file(alloc, name) {
        Ok(file) => file,
        Err(OpenStop::Failed) => return Err(FileStop::OpenFault),
        Err(OpenStop::NoMemory) => return Err(FileStop::NoMemory),
    };
    let whole = read_whole(alloc, &mut file, MOST);
    folder.close_file(file);
    match whole {
        Ok(bytes) => Ok(bytes),
        Err(WholeStop::Fault) => Err(FileStop::ReadFault),
        Err(WholeStop::TooLong) => Err(FileStop::TooLong),
        Err(WholeStop::NoMemory) => Err(FileStop::NoMemory),
    }
}
