// A cell, lent from its line.
ghost use Rattle.std.specs.Prelude.{◌≡◌};

use std::marker::Model;

/// A cell of a line or a part of one, seen as its bytes.
#[derive(Drop)]
pub(crate) struct Word<'a> {
    pub(crate) bytes: &'a [u8],
}

impl<'a> Model for Word<'a> {
    ghost use Rattle.std.specs.Prelude.{List, ℕ};

    ghost Value = { List ℕ };

    ghost view = { λ w. w.bytes.now };
}
