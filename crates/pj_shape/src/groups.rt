// What a group is.
ghost use Rattle.std.specs.Prelude.{◌≡◌, IfOk};

use pj_value::{List, NoMemory};
use std::alloc::Global;

/// An aggregate of the rows of a group: their number, or the sum, the least or the greatest value of a column.
#[derive(Clone, Copy, Debug, PartialEq, Eq)]
pub enum Agg {
    Count,
    Sum(u32),
    Min(u32),
    Max(u32),
}

/// The columns that make a group, and its aggregates.
#[derive(Drop)]
pub struct GroupSpec {
    pub keys: List<u32>,
    pub aggs: List<Agg>,
}

impl GroupSpec {
    /// An equal group.
    pub fn copy(&self, alloc: Global) -> Result<GroupSpec, NoMemory>
        ensures { IfOk result (λ copy. copy ≡ self.now) }
    {
        Ok(GroupSpec {
            keys: List::copy_of(alloc, self.keys.as_slice())?,
            aggs: List::copy_of(alloc, self.aggs.as_slice())?,
        })
    }
}
