// Rows that have several holders.
ghost use Rattle.std.specs.Prelude.{◌≡◌, IfOk};

use pj_value::{NoMemory, Row};
use std::alloc::Global;
use std::marker::Model;

/// A row that has several holders, seen as the row; a second handle copies no value.
#[derive(Drop)]
pub struct Shared {
    row: Row,
}

/// A row with its ticket.
#[derive(Drop)]
pub struct Stored {
    pub ticket: u64,
    pub row: Shared,
}

impl Model for Shared {
    ghost use Rattle.std.specs.Prelude.{List};
    ghost use Rattle.pj_value.specs.declared.values.Value.{Value as AnyValue};

    ghost Value = { List AnyValue };

    ghost view = { λ s. s.row };
}

impl Shared {
    /// The row, which shares its values from now on.
    pub fn new(alloc: Global, row: Row) -> Result<Shared, NoMemory>
        ensures { IfOk result (λ s. s ≡ row) }
    {
        Ok(Shared {
            row: row.share(alloc)?,
        })
    }

    /// The row itself.
    #[inline(always)]
    pub fn row(&self) -> &Row
        ensures { result.now ≡ self.now }
    {
        &self.row
    }

    /// A second handle of the same row.
    pub fn share(&self, alloc: Global) -> Result<Shared, NoMemory>
        ensures { IfOk result (λ s. s ≡ self.now) }
    {
        Ok(Shared {
            row: self.row.copy(alloc)?,
        })
    }
}
