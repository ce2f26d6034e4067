//! A growing list that contracts see as its items, and want of memory.

ghost use Rattle.std.specs.Prelude.{◌≡◌, ◌==◌, [], ◌∷◌, ◌++◌, ◌<◌, ◌↔◌, length, slice_get, IsSome, IfOk, OnOk, OnErr, OnSome};
ghost use Rattle.std.specs.Option.{option_copied, option_to_list};

use std::alloc::{AllocError, AllocFailed, Global};
use std::marker::Model;

/// A growth that was refused.
#[derive(Clone, Copy, Debug, PartialEq, Eq)]
pub struct Memory;

impl From<AllocError> for Memory {
    ghost from_gives = { λ _ _. Unit {0} };

    fn from(_e: AllocError) -> Memory {
        Memory
    }
}

impl<T: Drop> From<AllocFailed<T>> for Memory {
    ghost from_gives = { λ _ _. Unit {0} };

    fn from(_e: AllocFailed<T>) -> Memory {
        Memory
    }
}

/// A growing list. It keeps the allocator that it was made with.
#[derive(Debug, Drop)]
pub struct List<T> {
    inner: Vec<T>,
}

/// A growing list of bytes.
pub type Bytes = List<u8>;

impl<T> Model for List<T> {
    ghost use Rattle.std.specs.Prelude as prelude;
    ghost use Rattle.std.specs.Coded.{coded_list};

    ghost Value = { prelude.List T };

    ghost coded = { coded_list T.code };

    ghost view = { λ it. it.inner.items };
}

impl<T> List<T> {
    /// The empty list. It takes no memory until it grows.
    pub fn new(alloc: Global) -> List<T>
        ensures { result ≡ [] }
    {
        List {
            inner: Vec::new(alloc),
        }
    }

    /// How many items there are.
    pub fn len(&self) -> usize
        ensures { result ≡ length self.now }
    {
        self.inner.len()
    }

    /// Whether there is no item.
    pub fn is_empty(&self) -> bool
        ensures { result ≡ (length self.now == 0) }
    {
        self.inner.is_empty()
    }

    /// All items in order.
    pub fn as_slice(&self) -> &[T]
        ensures { result.now ≡ self.now }
    {
        self.inner.as_slice()
    }

    /// The item at `i`, counted from 0, and `None` from the length on.
    pub fn get(&self, i: usize) -> Option<&T>
        ensures value { option_copied result ≡ slice_get self.now i }
        ensures within { OnSome result (i < length self.now) }
    {
        self.inner.get(i)
    }
}

impl<T: Drop> List<T> {
    /// Adds the item at the end. After an error the list is as before, and the item is dropped.
    pub fn push(&mut self, item: T) -> Result<(), Memory>
        ensures ok { OnOk result (self.new ≡ self.old ++ item ∷ []) }
        ensures err { OnErr result (self.new ≡ self.old) }
    {
        self.inner.push(item)?;
        Ok(())
    }

    /// Takes the last item away, and gives it. `None` where there is no item. It takes no memory.
    pub fn pop(&mut self) -> Option<T>
        ensures some { IsSome result ↔ (0 < length self.old) }
        ensures items { self.old ≡ self.new ++ option_to_list result }
    {
        self.inner.pop()
    }
}

impl List<u8> {
    /// Adds the bytes at the end. After an error the list is as before.
    pub fn extend(&mut self, piece: &[u8]) -> Result<(), Memory>
        ensures ok { OnOk result (self.new ≡ self.old ++ piece.now) }
        ensures err { OnErr result (self.new ≡ self.old) }
    {
        self.inner.extend_from_slice(piece)?;
        Ok(())
    }

    /// A list of these bytes. The error is want of memory, and then there is no list.
    pub fn from_slice(alloc: Global, piece: &[u8]) -> Result<List<u8>, Memory>
        ensures { IfOk result (λ bytes. bytes ≡ piece.now) }
    {
        let inner = Vec::from_slice(alloc, piece)?;
        Ok(List { inner })
    }
}
