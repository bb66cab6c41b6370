// A folder in memory, whose openings fail at planned calls.
ghost use Rattle.std.specs.Prelude.{◌≡◌, ◌<◌, ◌||◌, ℕ, List, [], false, IsTrue, None, Some, is_none, length, IfOk, OnOk, OnErr, IsErrOf};
ghost use Rattle.pj_io.specs.Causes.{counted};
ghost use Rattle.pj_io.specs.Folders.{IsFresh, IsNew, KeepsNames, NoneFalls, RoseAt, SameElsewhere, SameEverywhere};
ghost use Rattle.pj_io.specs.MemoryFolders.{added_of, folder_of};
ghost use Rattle.pj_io.specs.Plans.{fresh_plan, is_planned};

use crate::book::{Note, count_faults, enter, note_last, note_opened};
use crate::finding::find_file;
use crate::memory_file::MemFile;
use crate::memory_source::MemSource;
use crate::{Folder, OpenStop};
use pj_value::{List, NoMemory};
use std::alloc::Global;
use std::marker::Model;

/// Files in memory, each with its plan; the openings whose numbers are in `open_fails` fail.
#[derive(Drop)]
pub struct MemFolder {
    notes: Vec<Note>,
    files: Vec<MemFile>,
    open_fails: List<u64>,
    opens: u64,
}

impl Model for MemFolder {
    ghost use Rattle.pj_io.specs.MemoryFolders.{MemFolderState};

    ghost Value = { MemFolderState };

    ghost view = { λ f. record { files = f.files.items; notes = f.notes.items; open_fails = f.open_fails; opens = f.opens } };
}

impl MemFolder {
    /// A folder without files. Openings are counted from 0.
    pub fn new(alloc: Global, open_fails: &[u64]) -> Result<MemFolder, NoMemory>
        ensures { IfOk result (λ f. f ≡ record { files = []; notes = []; open_fails = open_fails.now; opens = 0 }) }
    {
        Ok(MemFolder {
            notes: Vec::new(alloc),
            files: Vec::new(alloc),
            open_fails: List::copy_of(alloc, open_fails)?,
            opens: 0,
        })
    }

    /// Adds a file under a new name: its bytes, the most that a read of it gives, at least 1, and the numbers of the
    /// reads of it that fail, counted from 0. On a refusal nothing is added.
    #[tactic(auto, using(crate::proofs::Added::added_push, crate::proofs::Added::added_push_other))]
    pub fn add(
        &mut self,
        alloc: Global,
        name: &[u8],
        bytes: &[u8],
        cut: usize,
        fails: &[u64],
    ) -> Result<(), NoMemory>
        requires cut { 0 < cut }
        requires new { added_of self.old.files name.now ≡ None }
        ensures added { OnOk result (added_of self.new.files name.now ≡ Some (record { bytes = bytes.now; plan = fresh_plan fails.now cut })) }
        ensures others { SameElsewhere name.now (added_of self.old.files) (added_of self.new.files) }
        ensures err { OnErr result (self.new ≡ self.old) }
        ensures notes { self.new.notes ≡ self.old.notes }
        ensures open_fails { self.new.open_fails ≡ self.old.open_fails }
        ensures opens { self.new.opens ≡ self.old.opens }
    {
        let file = MemFile {
            name: List::copy_of(alloc, name)?,
            bytes: List::copy_of(alloc, bytes)?,
            cut,
            fails: List::copy_of(alloc, fails)?,
        };
        self.files.push(file)?;
        Ok(())
    }
}

impl Folder for MemFolder {
    type File = MemSource;

    ghost state = { folder_of };

    /// Fails exactly where the opening is planned to fail or nothing was added under the name, and otherwise gives what
    /// was added under it. Memory may be wanting before either.
    fn open_file(&mut self, alloc: Global, name: &[u8]) -> Result<MemSource, OpenStop>
        ensures new { IfOk result (λ file. IsNew name.now file.source) }
        ensures fresh { IsTrue ((folder_of self.old).told name.now) → IfOk result (λ file. IsFresh ((folder_of self.old).contents name.now) file.source) }
        ensures opened { OnOk result (IsTrue ((folder_of self.new).opened name.now)) }
        ensures keeps { KeepsNames (folder_of self.old).opened (folder_of self.new).opened }
        ensures other_opened { SameElsewhere name.now (folder_of self.old).opened (folder_of self.new).opened }
        ensures not_opened { OnErr result (SameEverywhere (folder_of self.old).opened (folder_of self.new).opened) }
        ensures told { (folder_of self.new).told ≡ (folder_of self.old).told }
        ensures contents { (folder_of self.new).contents ≡ (folder_of self.old).contents }
        ensures last { SameEverywhere (folder_of self.old).last (folder_of self.new).last }
        ensures later { NoneFalls (folder_of self.old).faults (folder_of self.new).faults }
        ensures cause { IsErrOf result OpenStop.Failed → RoseAt name.now (folder_of self.old).faults (folder_of self.new).faults }
        ensures other_faults { SameElsewhere name.now (folder_of self.old).faults (folder_of self.new).faults }
        ensures gives { IfOk result (λ file. added_of self.old.files name.now ≡ Some (record { bytes = file.source.left; plan = file.plan })) }
        ensures not_planned { OnOk result (is_planned self.old.open_fails self.old.opens ≡ false) }
        ensures failed { IsErrOf result OpenStop.Failed → IsTrue (is_planned self.old.open_fails self.old.opens || is_none (added_of self.old.files name.now)) }
        ensures counts { IsErrOf result OpenStop.Failed → (folder_of self.new).faults name.now ≡ counted ((folder_of self.old).faults name.now) 1 }
        ensures no_fault { OnOk result (SameEverywhere (folder_of self.old).faults (folder_of self.new).faults) }
        ensures no_memory { IsErrOf result OpenStop.NoMemory → SameEverywhere (folder_of self.old).faults (folder_of self.new).faults }
        ensures files { self.new.files ≡ self.old.files }
        ensures open_fails { self.new.open_fails ≡ self.old.open_fails }
        ensures opens { self.new.opens ≡ counted self.old.opens 1 }
    {
        let call = self.opens;
        self.opens = call.saturating_add(1);
        enter(alloc, &mut self.notes, name)?;
        if self.open_fails.as_slice().contains(&call) {
            count_faults(&mut self.notes, name, 1);
            return Err(OpenStop::Failed);
        }
        match find_file(self.files.as_slice(), name) {
            Some(file) => {
                let source = MemSource::opened(
                    alloc,
                    name,
                    file.bytes.as_slice(),
                    file.cut,
                    file.fails.as_slice(),
                )?;
                note_opened(&mut self.notes, name);
                Ok(source)
            }
            None => {
                count_faults(&mut self.notes, name, 1);
                Err(OpenStop::Failed)
            }
        }
    }

    #[tactic(auto, using(crate::proofs::Notes::opened_has))]
    fn close_file(&mut self, file: MemSource)
        requires { IsTrue ((folder_of self.old).opened file.source.name) }
        ensures opened { SameEverywhere (folder_of self.old).opened (folder_of self.new).opened }
        ensures told { (folder_of self.new).told ≡ (folder_of self.old).told }
        ensures contents { (folder_of self.new).contents ≡ (folder_of self.old).contents }
        ensures later { NoneFalls (folder_of self.old).faults (folder_of self.new).faults }
        ensures faults { (folder_of self.new).faults file.source.name ≡ counted ((folder_of self.old).faults file.source.name) file.source.faults }
        ensures last { (folder_of self.new).last file.source.name ≡ length file.source.taken }
        ensures other_faults { SameElsewhere file.source.name (folder_of self.old).faults (folder_of self.new).faults }
        ensures other_last { SameElsewhere file.source.name (folder_of self.old).last (folder_of self.new).last }
        ensures files { self.new.files ≡ self.old.files }
        ensures open_fails { self.new.open_fails ≡ self.old.open_fails }
        ensures opens { self.new.opens ≡ self.old.opens }
    {
        let (name, faults, taken) = file.closed();
        count_faults(&mut self.notes, name.as_slice(), faults);
        note_last(&mut self.notes, name.as_slice(), taken);
    }
}
