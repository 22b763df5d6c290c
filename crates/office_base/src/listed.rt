// A list of values that contracts see as a list, and not as a vector with its room.
ghost use Rattle.std.specs.Prelude.{◌≡◌, ◌<◌, ◌∷◌, [], ◌++◌, ℕ, length, OnOk, OnErr, IfOk, List, IsTrue, take, ◌↔◌};

use crate::{OutOfMemory, Pair, Person};
use std::alloc::Global;
use std::marker::Model;

/// A growing list on the heap.
#[derive(Drop)]
pub struct Listed<T> {
    items: Vec<T>,
}

/// Persons, in the order in which they are listed.
pub type People = Listed<Person>;

/// The pairs of a certificate.
pub type Pairs = Listed<Pair>;

/// Bytes of a text.
pub type Text = Listed<u8>;

impl<T> Model for Listed<T> {
    ghost Value = { List T };

    ghost view = { λ a. a.items.items };
}

impl<T> Listed<T> {
    /// Returns the empty list. It allocates nothing; `push` allocates from `alloc`.
    pub fn new(alloc: Global) -> Listed<T>
        ensures { result ≡ [] }
    {
        Listed {
            items: Vec::new(alloc),
        }
    }

    /// Returns the empty list, with room for this many values.
    pub fn with_capacity(alloc: Global, room: usize) -> Result<Listed<T>, OutOfMemory>
        ensures { IfOk result (λ list. list ≡ []) }
    {
        Ok(Listed {
            items: Vec::with_capacity(alloc, room)?,
        })
    }

    /// Returns the values of a vector, in their order. It allocates nothing.
    pub fn from_vec(items: Vec<T>) -> Listed<T>
        ensures { result ≡ items.items }
    {
        Listed { items }
    }

    pub fn len(&self) -> usize
        ensures { result ≡ length self.now }
    {
        self.items.len()
    }

    pub fn is_empty(&self) -> bool
        ensures { IsTrue result ↔ (self.now ≡ []) }
    {
        self.items.is_empty()
    }

    pub fn as_slice(&self) -> &[T]
        ensures { result.now ≡ self.now }
    {
        self.items.as_slice()
    }
}

impl<T: Drop> Listed<T> {
    /// Puts a value at the end. If memory runs out, the list is unchanged and the value is dropped.
    pub fn push(&mut self, value: T) -> Result<(), OutOfMemory>
        ensures ok { OnOk result (self.new ≡ self.old ++ value ∷ []) }
        ensures err { OnErr result (self.new ≡ self.old) }
    {
        self.items.push(value)?;
        Ok(())
    }

    /// Returns unused room to the allocator, if the allocator takes it. The values stay. It allocates nothing.
    pub fn shrink_to_fit(&mut self)
        ensures { self.new ≡ self.old }
    {
        self.items.shrink_to_fit();
    }

    /// Keeps the first `len` values, or all if there are no more, and drops the others. It allocates nothing.
    pub fn truncate(&mut self, len: usize)
        ensures { self.new ≡ take len self.old }
    {
        self.items.truncate(len);
    }
}

impl<T: Copy> Listed<T> {
    /// Returns a copy of the list with the same values.
    pub fn copy(&self, alloc: Global) -> Result<Listed<T>, OutOfMemory>
        ensures { IfOk result (λ list. list ≡ self.now) }
    {
        Ok(Listed {
            items: Vec::from_slice(alloc, self.items.as_slice())?,
        })
    }

    /// Puts copies of these values at the end, all or none. If memory runs out, the list is unchanged.
    pub fn extend_from_slice(&mut self, more: &[T]) -> Result<(), OutOfMemory>
        ensures ok { OnOk result (self.new ≡ self.old ++ more.now) }
        ensures err { OnErr result (self.new ≡ self.old) }
    {
        self.items.extend_from_slice(more)?;
        Ok(())
    }
}
