// Copies that may find no memory, part by part.
ghost use Rattle.std.specs.Prelude.{◌≡◌, IfOk};

use crate::{List, NoMemory, Row, Value};
use std::alloc::Global;

/// What can be copied where there is memory for it.
pub trait TryClone: Sized {
    /// An equal value of its own, or `NoMemory`.
    fn try_clone(&self, alloc: Global) -> Result<Self, NoMemory>
        ensures { IfOk result (λ copy. copy ≡ self.now) };
}

impl<T: TryClone + Drop> TryClone for List<T> {
    fn try_clone(&self, alloc: Global) -> Result<List<T>, NoMemory> {
        copy_items(alloc, self.as_slice())
    }
}

impl TryClone for Value {
    fn try_clone(&self, alloc: Global) -> Result<Value, NoMemory> {
        self.copy(alloc)
    }
}

impl TryClone for Row {
    fn try_clone(&self, alloc: Global) -> Result<Row, NoMemory> {
        self.copy(alloc)
    }
}

/// A list of equal items of their own, or `NoMemory`.
pub fn copy_items<T: TryClone + Drop>(alloc: Global, items: &[T]) -> Result<List<T>, NoMemory>
    ensures { IfOk result (λ copy. copy ≡ items.now) }
{
    let mut copy = List::with_room(alloc, items.len())?;
    for item in items {
        copy.push(item.try_clone(alloc)?)?;
    }
    Ok(copy)
}

/// Equal values of their own, or `NoMemory`.
pub fn copy_values(alloc: Global, values: &[Value]) -> Result<List<Value>, NoMemory>
    ensures { IfOk result (λ copy. copy ≡ values.now) }
{
    copy_items(alloc, values)
}
