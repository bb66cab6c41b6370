// Punctuations that have come to a union.
ghost use Rattle.std.specs.Prelude.{◌≡◌, ◌&&◌, ◌==◌, not};
ghost use Rattle.pj_events.specs.Patterns.{covers_punct};
ghost use Rattle.pj_flow.specs.Unions.{bears_on};

use pj_pattern::Punct;
use std::marker::Model;

/// A punctuation that has come, with its input.
#[derive(Drop)]
pub struct Heard {
    input: u32,
    punct: Punct,
}

impl Model for Heard {
    ghost use Rattle.pj_events.specs.Operators.{Sent};

    ghost Value = { Sent };

    ghost view = { λ h. record { input = h.input; patterns = h.punct } };
}

impl Heard {
    /// A punctuation with its input.
    pub fn new(input: u32, punct: Punct) -> Heard
        ensures { result ≡ record { input = input; patterns = punct } }
    {
        Heard { input, punct }
    }

    /// The input at which it came.
    pub fn input(&self) -> u32
        ensures { result ≡ self.now.input }
    {
        self.input
    }

    /// The punctuation.
    pub fn punct(&self) -> &Punct
        ensures { result.now ≡ self.now.patterns }
    {
        &self.punct
    }

    /// Whether it came at another input and covers the other.
    pub fn bears_on(&self, other: &Heard) -> bool
        ensures { result ≡ bears_on self.now other.now }
    {
        self.input != other.input && self.punct.covers(&other.punct)
    }

    /// Whether it came at this input and covers the other.
    pub fn lets_go(&self, input: u32, other: &Heard) -> bool
        ensures { result ≡ (self.now.input == input && covers_punct self.now.patterns other.now.patterns) }
    {
        self.input == input && self.punct.covers(&other.punct)
    }
}
