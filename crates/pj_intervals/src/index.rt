// The index of patterns.
ghost use Rattle.std.specs.Prelude.{◌≡◌, [], ◌∷◌, ◌++◌, List, OnOk, OnErr};
ghost use Rattle.pj_intervals.specs.Intervals.{Answers, AreSorted, Entry, first_in, first_place};

use crate::intervals::steps_of;
use crate::merging::settle;
use crate::steps::{Step, place_at};
use pj_pattern::Pattern;
use pj_value::{List, NoMemory, Value};
use std::alloc::Global;

/// Which of some patterns of one column is the first that a value matches, found by the ends of their intervals.
#[derive(Drop)]
pub struct FirstIndex {
    alloc: Global,
    levels: Vec<List<Step>>,
}

impl FirstIndex {
    /// The index of no patterns.
    pub fn new(alloc: Global) -> FirstIndex
        ensures { Answers result [] }
    {
        FirstIndex {
            alloc,
            levels: Vec::new(alloc),
        }
    }

    /// Takes in a pattern with a place that stands behind all others. On `NoMemory` the index answers as before.
    pub fn insert(&mut self, pattern: &Pattern, place: usize) -> Result<(), NoMemory>
        ensures ok { (kept : List Entry) → Answers self.old kept → OnOk result (Answers self.new (kept ++ (record { pattern = pattern.now; place = place }) ∷ [])) }
        ensures err { (kept : List Entry) → Answers self.old kept → OnErr result (Answers self.new kept) }
    {
        let steps = steps_of(self.alloc, pattern, place)?;
        if steps.len() == 0 {
            return Ok(());
        }
        self.levels.push(steps)?;
        settle(self.alloc, &mut self.levels);
        Ok(())
    }

    /// The place of the first pattern that the value matches.
    pub fn first(&self, value: &Value) -> Option<usize>
        ensures { (kept : List Entry) → Answers self.now kept → result ≡ first_place value.now kept }
    {
        first_in(self.levels.as_slice(), value)
    }
}

// What the first step function has that has anything for the value.
fn first_in(levels: &[List<Step>], value: &Value) -> Option<usize>
    ensures { AreSorted levels.now → result ≡ first_in levels.now value.now }
{
    for level in levels {
        match place_at(level.as_slice(), value) {
            Some(place) => return Some(place),
            None => {}
        }
    }
    None
}
