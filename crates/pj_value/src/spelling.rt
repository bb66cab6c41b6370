// Spellings that are kept.
ghost use Rattle.std.specs.Prelude.{◌≡◌, None, Some, IfOk, IfSome, IfNone};

use crate::{Bytes, List, NoMemory, SharedText};
use arrayvec::ArrayVec;
use std::alloc::Global;
use std::marker::Model;

/// A spelling that is kept, or none. One of at most 16 bytes takes no memory beside it.
#[derive(Drop)]
pub struct Spelling {
    kept: Kept,
}

#[derive(Drop)]
enum Kept {
    Nothing,
    Short(ArrayVec<u8, 16>),
    Long(Bytes),
    Shared(SharedText),
}

impl Model for Spelling {
    ghost use Rattle.std.specs.Prelude.{ℕ, List, Option};
    ghost use Rattle.pj_value.specs.Spellings.{spelling_in};

    ghost Value = { Option (List ℕ) };

    ghost view = { λ s. spelling_in s.kept };
}

impl Spelling {
    /// None.
    pub fn none() -> Spelling
        ensures { result ≡ None }
    {
        Spelling {
            kept: Kept::Nothing,
        }
    }

    /// These bytes, which share their memory with others.
    pub fn shared(text: SharedText) -> Spelling
        ensures { result ≡ Some text }
    {
        Spelling {
            kept: Kept::Shared(text),
        }
    }

    /// A copy of these bytes.
    pub fn copy_of(alloc: Global, bytes: &[u8]) -> Result<Spelling, NoMemory>
        ensures { IfOk result (λ spelling. spelling ≡ Some bytes.now) }
    {
        let mut short = ArrayVec::new();
        match short.try_extend_from_slice(bytes) {
            Ok(()) => Ok(Spelling {
                kept: Kept::Short(short),
            }),
            Err(_) => Ok(Spelling {
                kept: Kept::Long(List::copy_of(alloc, bytes)?),
            }),
        }
    }

    /// The bytes, where they are kept.
    pub fn bytes(&self) -> Option<&[u8]>
        ensures some { IfSome result (λ bytes. self.now ≡ Some bytes.now) }
        ensures none { IfNone result (self.now ≡ None) }
    {
        match &self.kept {
            Kept::Nothing => None,
            Kept::Short(bytes) => Some(bytes.as_slice()),
            Kept::Long(bytes) => Some(bytes.as_slice()),
            Kept::Shared(text) => Some(text.as_slice()),
        }
    }
}
