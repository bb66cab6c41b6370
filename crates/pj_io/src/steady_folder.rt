// A folder in memory that never fails.
ghost use Rattle.std.specs.Prelude.{◌≡◌, ◌<◌, [], IsTrue, None, Some, length, IfOk, OnOk, OnErr, IsErrOf};
ghost use Rattle.pj_io.specs.Causes.{counted};
ghost use Rattle.pj_io.specs.Folders.{IsFresh, IsNew, KeepsNames, NoneFalls, RoseAt, SameElsewhere, SameEverywhere};
ghost use Rattle.pj_io.specs.MemoryFolders.{added_of};
ghost use Rattle.pj_io.specs.Plans.{fresh_plan};
ghost use Rattle.pj_io.specs.Steady.{cut_of, steady, steady_folder_of};

use crate::book::{Note, enter, note_last, note_opened};
use crate::finding::find_file;
use crate::memory_file::MemFile;
use crate::steady_source::SteadySource;
use crate::{Folder, OpenStop};
use pj_value::{Bytes, List, NoMemory};
use std::alloc::Global;
use std::marker::Model;

/// Files in memory, of which no opening and no read fails: the counts of faults are 0. Each name has a file, which is empty where
/// nothing was added under the name.
#[derive(Drop)]
pub struct SteadyFolder {
    notes: Vec<Note>,
    files: Vec<MemFile>,
}

impl Model for SteadyFolder {
    ghost use Rattle.pj_io.specs.Steady.{SteadyFolderState};

    ghost Value = { SteadyFolderState };

    ghost view = { λ f. record { files = f.files.items; notes = f.notes.items } };
}

impl SteadyFolder {
    /// A folder of empty files, which takes no memory.
    pub fn new(alloc: Global) -> SteadyFolder
        ensures { result ≡ record { files = []; notes = [] } }
    {
        SteadyFolder {
            notes: Vec::new(alloc),
            files: Vec::new(alloc),
        }
    }

    /// Adds a file under a new name: its bytes, and the most that a read of it gives, at least 1. On a refusal nothing is added.
    #[tactic(auto, using(crate::proofs::Added::added_push, crate::proofs::Added::added_push_other))]
    pub fn add(
        &mut self,
        alloc: Global,
        name: &[u8],
        bytes: Bytes,
        cut: usize,
    ) -> Result<(), NoMemory>
        requires cut { 0 < cut }
        requires new { added_of self.old.files name.now ≡ None }
        ensures added { OnOk result (added_of self.new.files name.now ≡ Some (record { bytes = bytes; plan = fresh_plan [] cut })) }
        ensures others { SameElsewhere name.now (added_of self.old.files) (added_of self.new.files) }
        ensures err { OnErr result (self.new ≡ self.old) }
        ensures notes { self.new.notes ≡ self.old.notes }
    {
        let file = MemFile {
            name: List::copy_of(alloc, name)?,
            bytes,
            cut,
            fails: List::new(alloc),
        };
        self.files.push(file)?;
        Ok(())
    }
}

impl Folder for SteadyFolder {
    type File = SteadySource;

    ghost state = { steady_folder_of };

    /// Gives what was added under the name, or an empty file.
    fn open_file(&mut self, alloc: Global, name: &[u8]) -> Result<SteadySource, OpenStop>
        ensures new { IfOk result (λ file. IsNew name.now (steady file.source)) }
        ensures fresh { IfOk result (λ file. IsFresh ((steady_folder_of self.old).contents name.now) (steady file.source)) }
        ensures opened { OnOk result (IsTrue ((steady_folder_of self.new).opened name.now)) }
        ensures keeps { KeepsNames (steady_folder_of self.old).opened (steady_folder_of self.new).opened }
        ensures other_opened { SameElsewhere name.now (steady_folder_of self.old).opened (steady_folder_of self.new).opened }
        ensures not_opened { OnErr result (SameEverywhere (steady_folder_of self.old).opened (steady_folder_of self.new).opened) }
        ensures told { (steady_folder_of self.new).told ≡ (steady_folder_of self.old).told }
        ensures contents { (steady_folder_of self.new).contents ≡ (steady_folder_of self.old).contents }
        ensures last { SameEverywhere (steady_folder_of self.old).last (steady_folder_of self.new).last }
        ensures later { NoneFalls (steady_folder_of self.old).faults (steady_folder_of self.new).faults }
        ensures cause { IsErrOf result OpenStop.Failed → RoseAt name.now (steady_folder_of self.old).faults (steady_folder_of self.new).faults }
        ensures other_faults { SameElsewhere name.now (steady_folder_of self.old).faults (steady_folder_of self.new).faults }
        ensures cut { IfOk result (λ file. file.cut ≡ cut_of (added_of self.old.files name.now)) }
        ensures never_fails { IsErrOf result OpenStop.Failed → ⊥ }
        ensures files { self.new.files ≡ self.old.files }
    {
        enter(alloc, &mut self.notes, name)?;
        let source = match find_file(self.files.as_slice(), name) {
            Some(file) => SteadySource::opened(alloc, name, file.bytes.as_slice(), file.cut)?,
            None => SteadySource::opened(alloc, name, &[], 1)?,
        };
        note_opened(&mut self.notes, name);
        Ok(source)
    }

    #[tactic(auto, using(crate::proofs::Notes::opened_has))]
    fn close_file(&mut self, file: SteadySource)
        requires { IsTrue ((steady_folder_of self.old).opened (steady file.source).name) }
        ensures opened { SameEverywhere (steady_folder_of self.old).opened (steady_folder_of self.new).opened }
        ensures told { (steady_folder_of self.new).told ≡ (steady_folder_of self.old).told }
        ensures contents { (steady_folder_of self.new).contents ≡ (steady_folder_of self.old).contents }
        ensures later { NoneFalls (steady_folder_of self.old).faults (steady_folder_of self.new).faults }
        ensures faults { (steady_folder_of self.new).faults (steady file.source).name ≡ counted ((steady_folder_of self.old).faults (steady file.source).name) 0 }
        ensures last { (steady_folder_of self.new).last (steady file.source).name ≡ length (steady file.source).taken }
        ensures other_faults { SameElsewhere (steady file.source).name (steady_folder_of self.old).faults (steady_folder_of self.new).faults }
        ensures other_last { SameElsewhere (steady file.source).name (steady_folder_of self.old).last (steady_folder_of self.new).last }
        ensures files { self.new.files ≡ self.old.files }
    {
        let (name, taken) = file.closed();
        note_last(&mut self.notes, name.as_slice(), taken);
    }
}
