// Lists one behind another in one vector.
ghost use Rattle.std.specs.Prelude.{◌≡◌, ◌<◌, ◌++◌, ◌∷◌, [], length, Some, slice_get, slice_set, replicate, IfOk, OnOk};

use office_base::OutOfMemory;
use std::alloc::Global;
use std::marker::Model;

/// Many lists in one vector, with the range of each. What was a list's before it was set stays behind until all are dropped.
#[derive(Drop)]
pub struct FlatLists<T> {
    items: Vec<T>,
    ranges: Vec<(usize, usize)>,
}

impl<T> Model for FlatLists<T> {
    ghost use Rattle.std.specs.Prelude.{List};
    ghost use Rattle.choice_lists.specs.Flat.{lists_of, AreWithin};

    ghost Value = { List (List T) };

    ghost view = { λ a. lists_of a.items.items a.ranges.items };

    ghost invariant = { λ a. AreWithin a.items.items a.ranges.items };
}

impl<T> FlatLists<T> {
    /// Makes an empty list of lists. Allocates nothing.
    pub fn new(alloc: Global) -> FlatLists<T>
        ensures { result ≡ [] }
    {
        FlatLists {
            items: Vec::new(alloc),
            ranges: Vec::new(alloc),
        }
    }

    /// How many lists there are.
    pub fn len(&self) -> usize
        ensures { result ≡ length self.now }
    {
        self.ranges.len()
    }

    /// Returns the list of this number, from 0. Allocates nothing.
    pub fn at(&self, number: usize) -> &[T]
        requires { number < length self.now }
        ensures { slice_get self.now number ≡ Some result.now }
    {
        let (start, end) = self.ranges[number];
        &self.items.as_slice()[start..end]
    }
}

impl<T: Copy> FlatLists<T> {
    /// This many empty lists.
    pub fn empty_lists(alloc: Global, count: usize) -> Result<FlatLists<T>, OutOfMemory>
        ensures { IfOk result (λ lists. lists ≡ replicate count []) }
    {
        let ranges = vec![in alloc; (0, 0); count]?;
        Ok(FlatLists {
            items: Vec::new(alloc),
            ranges,
        })
    }

    /// Puts a list in place of the one of this number, from 0. Where there is no memory, the lists are of no use any more.
    pub fn set(&mut self, number: usize, list: &[T]) -> Result<(), OutOfMemory>
        requires { number < length self.old }
        ensures { OnOk result (self.new ≡ slice_set self.old number list.now) }
    {
        let start = self.items.as_slice().len();
        self.items.extend_from_slice(list)?;
        self.ranges[number] = (start, self.items.as_slice().len());
        Ok(())
    }

    /// Puts one more list at the end. Where there is no memory, the lists are of no use any more.
    pub fn push(&mut self, list: &[T]) -> Result<(), OutOfMemory>
        ensures { OnOk result (self.new ≡ self.old ++ list.now ∷ []) }
    {
        let start = self.items.as_slice().len();
        self.items.extend_from_slice(list)?;
        self.ranges.push((start, self.items.as_slice().len()))?;
        Ok(())
    }
}
