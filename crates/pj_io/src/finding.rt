// A file of a folder in memory.
ghost use Rattle.std.specs.Prelude.{◌≡◌, None, Some, MatchOption};
ghost use Rattle.pj_io.specs.MemoryFolders.{added_of};
ghost use Rattle.pj_io.specs.Plans.{fresh_plan};

use crate::memory_file::MemFile;

/// The file of a name, if one was added.
pub(crate) fn find_file<'a>(files: &'a [MemFile], name: &[u8]) -> Option<&'a MemFile>
    ensures { MatchOption result (added_of files.now name.now ≡ None)
        (λ file. added_of files.now name.now ≡ Some (record { bytes = file.now.bytes; plan = fresh_plan file.now.fails file.now.cut })) }
{
    for file in files {
        if name == file.name.as_slice() {
            return Some(file);
        }
    }
    None
}
