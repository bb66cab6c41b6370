// A file of a folder in memory, with its plan.
ghost use Rattle.std.specs.Prelude.{◌<◌};

use pj_value::{Bytes, List};

#[derive(Drop)]
pub struct MemFile {
    pub name: Bytes,
    pub bytes: Bytes,
    pub cut: usize,
    pub fails: List<u64>,
    ghost cuts: { 0 < cut },
}
