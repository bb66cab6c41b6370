// Files on disk: the edge of what is proved. They tell no contents.
ghost use Rattle.std.specs.Prelude.{◌≡◌, ◌≤◌, List, ℕ, [], false, IsTrue, length, IfOk};
ghost use Rattle.pj_io.specs.Books.{faults_of, last_of, opened_in};
ghost use Rattle.pj_io.specs.Causes.{HasCause, CountsErrors};
ghost use Rattle.pj_io.specs.Pieces.{Reads};

use crate::book::{Note, count_faults, enter, note_opened};
use crate::held::INTERRUPTIONS;
use crate::{Failed, Folder, OpenStop, Source};
use pj_value::{Bytes, List};
use std::alloc::Global;
use std::fs;
use std::io::{ErrorKind, Read};
use std::marker::Model;
use std::rt::Files;

/// An open file, with its faults counted. Each read asks the system once, so read it in large pieces.
#[derive(Drop)]
pub struct FileSource<R> {
    inner: R,
    name: Bytes,
    faults: u64,
}

impl<R> Model for FileSource<R> {
    ghost use Rattle.std.specs.Prelude.{false, []};
    ghost use Rattle.pj_io.specs.States.{SourceState};

    ghost Value = { SourceState };

    ghost view = { λ s. record { told = false; taken = []; left = []; faults = s.faults; name = s.name } };
}

impl<R: Read> Source for FileSource<R> {
    ghost state = { λ s. s };

    /// Reads once from the system, again where a signal interrupts that, and counts each error.
    fn read(&mut self, buf: &mut [u8]) -> Result<usize, Failed>
        ensures bound { IfOk result (λ n. n ≤ length buf.new) }
        ensures bytes { IsTrue self.old.told → Reads self.old self.new buf.new result }
        ensures told { self.new.told ≡ self.old.told }
        ensures name { self.new.name ≡ self.old.name }
        ensures cause { HasCause self.old.faults self.new.faults result }
        ensures counts { CountsErrors self.old.faults self.new.faults result }
    {
        match read_some(&mut self.inner, buf) {
            Ok(count) => Ok(count),
            Err(Failed) => {
                self.faults = self.faults.saturating_add(1);
                Err(Failed)
            }
        }
    }
}

// Reads once from the system; again where a signal interrupts that.
fn read_some<R: Read>(inner: &mut R, buf: &mut [u8]) -> Result<usize, Failed>
    ensures { IfOk result (λ n. n ≤ length buf.new) }
{
    for _ in 0..INTERRUPTIONS {
        match inner.read(buf) {
            Ok(count) => return Ok(count),
            Err(error) => {
                if error.kind() != ErrorKind::Interrupted {
                    return Err(Failed);
                }
            }
        }
    }
    Err(Failed)
}

/// The files on disk, with the faults counted at each name. A name that is not UTF-8 is a counted fault.
pub struct DiskFolder<'a, R> {
    rt: &'a R,
    notes: Vec<Note>,
}

impl<'a, R> Drop for DiskFolder<'a, R> {
    fn drop(self) {
        let DiskFolder { rt: _, notes: _ } = self;
    }
}

impl<'a, R: Files> DiskFolder<'a, R> {
    /// The files that the runtime reaches, of which none was opened. It takes no memory.
    pub fn new(alloc: Global, rt: &'a R) -> DiskFolder<'a, R>
        ensures opened { (name : List ℕ) → (⟦<DiskFolder<'a, R> as Folder>⟧.state result).opened name ≡ false }
        ensures faults { (name : List ℕ) → (⟦<DiskFolder<'a, R> as Folder>⟧.state result).faults name ≡ 0 }
    {
        DiskFolder {
            rt,
            notes: Vec::new(alloc),
        }
    }
}

impl<'a, R: Files> Folder for DiskFolder<'a, R> {
    type File = FileSource<R::File>;

    ghost state = { λ f. record {
      told = λ name. false;
      contents = λ name. [];
      opened = opened_in f.notes.items;
      last = last_of f.notes.items;
      faults = faults_of f.notes.items;
    } };

    fn open_file(&mut self, alloc: Global, name: &[u8]) -> Result<FileSource<R::File>, OpenStop> {
        enter(alloc, &mut self.notes, name)?;
        let copy = List::copy_of(alloc, name)?;
        let Ok(path) = str::from_utf8(name) else {
            count_faults(&mut self.notes, name, 1);
            return Err(OpenStop::Failed);
        };
        match fs::open(self.rt, path) {
            Ok(inner) => {
                note_opened(&mut self.notes, name);
                Ok(FileSource {
                    inner,
                    name: copy,
                    faults: 0,
                })
            }
            Err(_) => {
                count_faults(&mut self.notes, name, 1);
                Err(OpenStop::Failed)
            }
        }
    }

    #[tactic(auto, using(crate::proofs::Notes::opened_has))]
    fn close_file(&mut self, file: FileSource<R::File>) {
        count_faults(&mut self.notes, file.name.as_slice(), file.faults);
    }
}
