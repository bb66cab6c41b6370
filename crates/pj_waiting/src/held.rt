// Punctuations that have reached a join.
ghost use Rattle.std.specs.Prelude.{◌≡◌, IfOk};

use pj_pattern::Punct;
use pj_value::NoMemory;
use std::alloc::Global;
use std::marker::Model;

/// A punctuation that comes, with its ticket and its input.
#[derive(Drop)]
pub struct ArrivingPunct {
    pub ticket: u64,
    pub input: u32,
    pub punct: Punct,
}

/// A punctuation that waits, with its input.
#[derive(Drop)]
pub struct HeldPunct {
    input: u32,
    punct: Punct,
}

impl Model for HeldPunct {
    ghost use Rattle.pj_waiting.specs.Holding.{HeldPunctView};

    ghost Value = { HeldPunctView };

    ghost view = { λ p. record { input = p.input; patterns = p.punct } };
}

impl HeldPunct {
    /// A copy of a punctuation with its input.
    pub fn new(alloc: Global, input: u32, punct: &Punct) -> Result<HeldPunct, NoMemory>
        ensures { IfOk result (λ p. p ≡ record { input = input; patterns = punct.now }) }
    {
        Ok(HeldPunct {
            input,
            punct: punct.copy(alloc)?,
        })
    }

    /// The input at which it came.
    pub fn input(&self) -> u32
        ensures { result ≡ self.now.input }
    {
        self.input
    }

    /// Its patterns.
    pub fn punct(&self) -> &Punct
        ensures { result.now ≡ self.now.patterns }
    {
        &self.punct
    }
}
