// A few numbers in order.
ghost use Rattle.std.specs.Prelude.{◌≡◌, ◌∷◌, [], ◌++◌, IfOk, OnOk, OnErr};

use pj_value::{List, NoMemory};
use std::alloc::Global;
use std::marker::Model;

/// Numbers in order, seen as their list. One alone takes no memory beside it.
#[derive(Drop)]
pub struct NumberList {
    held: Held,
}

#[derive(Drop)]
enum Held {
    One([u64; 1]),
    Several(Box<List<u64>>),
}

impl Model for NumberList {
    ghost use Rattle.std.specs.Prelude.{ℕ, List};
    ghost use Rattle.pj_puncts.specs.Held.{held_in};

    ghost Value = { List ℕ };

    ghost view = { λ n. held_in n.held };
}

impl NumberList {
    /// One number.
    pub fn one(number: u64) -> NumberList
        ensures { result ≡ number ∷ [] }
    {
        NumberList {
            held: Held::One([number]),
        }
    }

    /// All numbers.
    pub fn as_slice(&self) -> &[u64]
        ensures { result.now ≡ self.now }
    {
        match &self.held {
            Held::One(number) => number.as_slice(),
            Held::Several(list) => list.as_slice(),
        }
    }

    /// One more number at the end. On a refusal all is as it was.
    pub fn push(&mut self, alloc: Global, number: u64) -> Result<(), NoMemory>
        ensures ok { OnOk result (self.new ≡ self.old ++ number ∷ []) }
        ensures err { OnErr result (self.new ≡ self.old) }
    {
        match &mut self.held {
            Held::One(first) => {
                let list = two(alloc, first[0], number)?;
                self.held = Held::Several(Box::new(alloc, list)?);
                Ok(())
            }
            Held::Several(list) => {
                list.push(number)?;
                Ok(())
            }
        }
    }
}

fn two(alloc: Global, first: u64, second: u64) -> Result<List<u64>, NoMemory>
    ensures { IfOk result (λ l. l ≡ first ∷ second ∷ []) }
{
    let mut list = List::with_room(alloc, 2)?;
    list.push(first)?;
    list.push(second)?;
    Ok(list)
}
