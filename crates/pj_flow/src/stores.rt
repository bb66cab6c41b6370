// The punctuations that came to a union, by inputs.
ghost use Rattle.std.specs.Prelude.{◌≡◌, ◌++◌, ◌∷◌, [], length, IfSome, OnOk, OnErr};
ghost use Rattle.pj_flow.specs.Insides.{has_covering};
ghost use Rattle.pj_flow.specs.Stored.{AreStored, IsSampleOf};

use crate::heard::Heard;
use crate::sample::Sample;
use pj_puncts::PunctStore;
use pj_value::NoMemory;
use std::alloc::Global;

/// Makes a store for each input, before anything has come. On a refusal there may be fewer of them.
pub fn fill(
    alloc: Global,
    arity: u32,
    inputs: u32,
    came: &[Heard],
    stores: &mut Vec<PunctStore>,
) -> Result<(), NoMemory>
    requires { AreStored arity came.now 0 stores.old.items }
    ensures ok { OnOk result (AreStored arity came.now 0 stores.new.items) }
    ensures err { OnErr result (AreStored arity came.now 0 stores.new.items) }
{
    if came.len() > 0 {
        return Ok(());
    }
    for _input in stores.len()..inputs as usize {
        stores.push(PunctStore::new(alloc, arity)?)?;
    }
    Ok(())
}

/// Puts the newest punctuation into the store of its input, with the number of those that came before it.
pub fn file(
    alloc: Global,
    arity: u32,
    older: &[Heard],
    newest: &Heard,
    stores: &mut Vec<PunctStore>,
) -> Result<(), NoMemory>
    requires fits { length newest.now.patterns ≡ arity }
    requires stored { AreStored arity older.now 0 stores.old.items }
    ensures ok { OnOk result (AreStored arity (older.now ++ newest.now ∷ []) 0 stores.new.items) }
    ensures err { OnErr result (AreStored arity older.now 0 stores.new.items) }
{
    let input = newest.input() as usize;
    if input >= stores.len() {
        return Ok(());
    }
    stores[input].push(newest.punct().copy(alloc)?, older.len() as u64)?;
    Ok(())
}

/// Whether an input has sent one of these that covers the one that waits, of which this is a sample; `None` where the stores
/// don't tell.
pub fn looked_up(
    arity: u32,
    input: u32,
    stores: &[PunctStore],
    older: &[Heard],
    waits: &Heard,
    sample: &Sample<'_>,
) -> Option<bool>
    requires stored { AreStored arity older.now 0 stores.now }
    requires fits { IsSampleOf arity waits.now.patterns sample.now }
    ensures { IfSome result (λ told. told ≡ has_covering older.now waits.now input) }
{
    match stores.get(input as usize) {
        None => None,
        Some(store) => match store.covering(&sample.scheme, &sample.values, u64::MAX) {
            None => Some(false),
            Some(place) => found_at(place, input, older, waits),
        },
    }
}

// Whether the one at this place is of the input and covers the other, or it is not told.
fn found_at(place: u64, input: u32, older: &[Heard], waits: &Heard) -> Option<bool>
    ensures { IfSome result (λ told. told ≡ has_covering older.now waits.now input) }
{
    match older.get(place as usize) {
        None => None,
        Some(heard) => {
            if heard.lets_go(input, waits) {
                Some(true)
            } else {
                None
            }
        }
    }
}
