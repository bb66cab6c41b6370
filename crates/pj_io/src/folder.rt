// Where files are found by name.
ghost use Rattle.std.specs.Prelude.{◌≡◌, IsTrue, length, IfOk, OnOk, OnErr, IsErrOf};
ghost use Rattle.pj_io.specs.Causes.{counted};
ghost use Rattle.pj_io.specs.Folders.{IsFresh, IsNew, KeepsNames, NoneFalls, RoseAt, SameElsewhere, SameEverywhere};
ghost use Rattle.pj_io.specs.States.{FolderState};

use crate::Source;
use pj_value::NoMemory;
use std::alloc::Global;

/// Why a file was not opened.
#[derive(Clone, Copy, Debug, PartialEq, Eq)]
pub enum OpenStop {
    /// It could not be opened, and the fault was counted at its name.
    Failed,
    /// Memory could not be had.
    NoMemory,
}

impl From<NoMemory> for OpenStop {
    ghost use Rattle.pj_io.specs.declared.folder.OpenStop.TheVariants.{NoMemory as OutOfMemory};

    ghost from_gives = { λ _ e. e ≡ OutOfMemory };

    fn from(_: NoMemory) -> OpenStop {
        OpenStop::NoMemory
    }
}

/// Where files are opened by name, with the faults counted at each name.
pub trait Folder {
    type File: Source;

    /// What it tells of itself.
    ghost state: { Self → FolderState };

    /// Opens the file of a name, from its first byte on. The room that `close_file` needs is made here.
    fn open_file(&mut self, alloc: Global, name: &[u8]) -> Result<Self::File, OpenStop>
        ensures new { IfOk result (λ file. IsNew name.now (Self.File.state file)) }
        ensures fresh { IsTrue ((state self.old).told name.now) → IfOk result (λ file. IsFresh ((state self.old).contents name.now) (Self.File.state file)) }
        ensures opened { OnOk result (IsTrue ((state self.new).opened name.now)) }
        ensures keeps { KeepsNames (state self.old).opened (state self.new).opened }
        ensures other_opened { SameElsewhere name.now (state self.old).opened (state self.new).opened }
        ensures not_opened { OnErr result (SameEverywhere (state self.old).opened (state self.new).opened) }
        ensures told { (state self.new).told ≡ (state self.old).told }
        ensures contents { (state self.new).contents ≡ (state self.old).contents }
        ensures last { SameEverywhere (state self.old).last (state self.new).last }
        ensures later { NoneFalls (state self.old).faults (state self.new).faults }
        ensures cause { IsErrOf result OpenStop.Failed → RoseAt name.now (state self.old).faults (state self.new).faults }
        ensures other_faults { SameElsewhere name.now (state self.old).faults (state self.new).faults };

    /// Takes a file back: its faults are added to those of its name, and how much was taken from it is noted.
    fn close_file(&mut self, file: Self::File)
        requires { IsTrue ((state self.old).opened (Self.File.state file).name) }
        ensures opened { SameEverywhere (state self.old).opened (state self.new).opened }
        ensures told { (state self.new).told ≡ (state self.old).told }
        ensures contents { (state self.new).contents ≡ (state self.old).contents }
        ensures later { NoneFalls (state self.old).faults (state self.new).faults }
        ensures faults { (state self.new).faults (Self.File.state file).name ≡ counted ((state self.old).faults (Self.File.state file).name) (Self.File.state file).faults }
        ensures last { IsTrue (Self.File.state file).told → (state self.new).last (Self.File.state file).name ≡ length (Self.File.state file).taken }
        ensures other_faults { SameElsewhere (Self.File.state file).name (state self.old).faults (state self.new).faults }
        ensures other_last { SameElsewhere (Self.File.state file).name (state self.old).last (state self.new).last };
}
