// A list whose first items are taken out by passing over them.
ghost use Rattle.std.specs.Prelude.{◌≡◌, ◌<◌, ◌∷◌, [], ◌++◌, drop, length, remove, slice_get, Some, OnOk, OnErr};

use pj_value::NoMemory;
use std::marker::Model;

/// A list, seen as what is left of it behind the items that were passed over.
#[derive(Drop)]
pub struct Remaining<T> {
    list: Vec<T>,
    start: usize,
}

impl<T> Model for Remaining<T> {
    ghost use Rattle.std.specs.Prelude.{◌≤◌, List, drop, length};

    ghost Value = { List T };

    ghost view = { λ r. drop r.start r.list.items };

    ghost invariant = { λ r. r.start ≤ length r.list.items };
}

impl<T> Remaining<T> {
    /// The items of a vector, handed over.
    pub fn of(list: Vec<T>) -> Remaining<T>
        ensures { result ≡ list.items }
    {
        Remaining { list, start: 0 }
    }

    /// How many items are left.
    #[inline(always)]
    pub fn len(&self) -> usize
        ensures { result ≡ length self.now }
    {
        self.list.len() - self.start
    }

    /// The item at a position, counted from 0.
    #[inline(always)]
    pub fn at(&self, at: usize) -> &T
        requires { at < length self.now }
        ensures { slice_get self.now at ≡ Some result.now }
    {
        &self.as_slice()[at]
    }

    /// All that are left.
    #[inline(always)]
    pub fn as_slice(&self) -> &[T]
        ensures { result.now ≡ self.now }
    {
        self.list.as_slice().split_at(self.start).1
    }
}

impl<T: Drop> Remaining<T> {
    /// One more item at the end. On a refusal the item is dropped and the list is as it was.
    pub fn push(&mut self, item: T) -> Result<(), NoMemory>
        ensures ok { OnOk result (self.new ≡ self.old ++ item ∷ []) }
        ensures err { OnErr result (self.new ≡ self.old) }
    {
        self.list.push(item)?;
        Ok(())
    }

    /// Takes the last item out, where there is one.
    pub fn pop_last(&mut self)
        ensures { (front : _) (last : T) → self.old ≡ front ++ last ∷ [] → self.new ≡ front }
    {
        let len = self.list.len();
        if self.start < len {
            self.list.truncate(len - 1);
        }
    }
}

impl<T: Copy> Remaining<T> {
    /// Takes out the item at a position, counted from 0.
    pub fn remove(&mut self, at: usize) -> T
        requires { at < length self.old }
        ensures taken { slice_get self.old at ≡ Some result }
        ensures left { self.new ≡ remove self.old at }
    {
        if at > 0 {
            self.list.remove(self.start + at)
        } else {
            self.pass()
        }
    }

    /// Takes the first item out, where there is one.
    pub fn pop_first(&mut self)
        ensures { self.new ≡ drop 1 self.old }
    {
        if self.len() > 0 {
            self.pass();
        }
    }

    // Passes over the first item.
    fn pass(&mut self) -> T
        requires { 0 < length self.old }
        ensures taken { slice_get self.old 0 ≡ Some result }
        ensures left { self.new ≡ remove self.old 0 }
    {
        let first = self.list[self.start];
        self.start += 1;
        self.pack();
        first
    }

    // Moves the items to the front of their list once half of it was passed over.
    fn pack(&mut self)
        ensures { self.new ≡ self.old }
    {
        let len = self.list.len();
        if self.start > len / 2 {
            self.list.copy_within(self.start..len, 0);
            self.list.truncate(len - self.start);
            self.start = 0;
        }
    }
}
