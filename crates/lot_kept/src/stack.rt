//! Stacks of fixed capacity.
ghost use Rattle.std.specs.Prelude.{◌≡◌, ◌+◌, ◌<◌, ◌≤◌, ◌==◌, ◌++◌, ◌∷◌, [], IfOk, IfNone, length, slice_index_or};
ghost use Rattle.std.specs.Borrow.{sem};
ghost use Rattle.std.specs.Option.{option_to_list};

use std::alloc::{AllocError, Global};
use std::marker::Model;
use std::ops::{DerefSlice, DerefSliceMut, Index, IndexMut};

/// A stack of elements in a block of memory of fixed capacity.
///
/// Contracts see the elements, the last one on top, and the capacity.
#[derive(Debug, Drop)]
pub struct Stack<T> {
    places: Vec<T>,
}

impl<T> Model for Stack<T> {
    ghost use Rattle.std.specs.Prelude.{vec_capacity};
    ghost use Rattle.lot_kept.specs.Table.{Stacked, stacked_code};

    ghost Value = { Stacked T };

    ghost coded = { stacked_code T.code };

    ghost view = { λ s. record { items = s.places.items; room = vec_capacity s.places } };
}

impl<T> Stack<T> {
    ghost use Rattle.lot_kept.specs.Lending.{lends_stacked_slice};

    /// An empty stack with capacity for `room` elements. It fails only if out of memory.
    pub fn new(alloc: Global, room: usize) -> Result<Self, AllocError>
        ensures empty { IfOk result (λ made. made.items ≡ []) }
        ensures room { IfOk result (λ made. made.room ≡ room) }
    {
        Ok(Stack {
            places: Vec::with_capacity(alloc, room)?,
        })
    }

    /// The capacity, in elements.
    pub fn room(&self) -> usize
        ensures value { result ≡ self.now.room }
        ensures enough { length self.now.items ≤ result }
    {
        self.places.capacity()
    }

    /// Pushes an element. The stack must not be full.
    pub fn push(&mut self, value: T)
        requires { length self.old.items < self.old.room }
        ensures items { self.new.items ≡ self.old.items ++ value ∷ [] }
        ensures len { length self.new.items ≡ length self.old.items + 1 }
        ensures room { self.new.room ≡ self.old.room }
    {
        self.places.push_reserved(value);
    }

    /// Pops the top element, or returns `None` if the stack is empty.
    pub fn pop(&mut self) -> Option<T>
        ensures items { self.old.items ≡ self.new.items ++ option_to_list result }
        ensures none { IfNone result (self.old.items ≡ []) }
        ensures room { self.new.room ≡ self.old.room }
    {
        self.places.pop()
    }

    /// Removes all elements.
    pub fn clear(&mut self)
    where
        T: Drop,
        ensures items { self.new.items ≡ [] }
        ensures room { self.new.room ≡ self.old.room }
    {
        self.places.clear();
    }

    /// The number of elements.
    pub fn len(&self) -> usize
        ensures value { result ≡ length self.now.items }
        ensures within { result ≤ self.now.room }
    {
        self.places.len()
    }

    /// Whether there is no element.
    pub fn is_empty(&self) -> bool
        ensures { result ≡ (length self.now.items == 0) }
    {
        self.places.is_empty()
    }

    /// The elements.
    pub fn as_slice(&self) -> &[T]
        ensures value { result.now ≡ self.now.items }
        ensures len { length result.now ≡ length self.now.items }
    {
        self.places.as_slice()
    }

    /// The elements, mutable.
    pub fn as_mut_slice(&mut self) -> &mut [T]
        ensures* writes_back { sem 𝓛 (lends_stacked_slice T.row self.entry result) }
        ensures value { result.now ≡ self.old.items }
        ensures len { length result.now ≡ length self.old.items }
    {
        self.places.as_mut_slice()
    }
}

impl<T> Index<usize> for Stack<T> {
    type Output = T;

    ghost can_index = { λ s i. i < length s.items };

    ghost index_gives = { λ s i value. value ≡ slice_index_or s.items i value };

    fn index(&self, index: usize) -> &T {
        &self.places[index]
    }
}

impl<T> IndexMut<usize> for Stack<T> {
    ghost use Rattle.lot_kept.specs.Lending.{lends_stacked_item};

    fn index_mut(&mut self, index: usize) -> &mut T
        requires { index < length self.old.items }
        ensures* writes_back { sem 𝓛 (lends_stacked_item T.row self.entry index result) }
        ensures value { result.now ≡ slice_index_or self.old.items index result.now }
    {
        &mut self.places[index]
    }
}

impl<T> DerefSlice for Stack<T> {
    type Elem = T;

    ghost deref_gives = { λ s xs. (xs ≡ s.items) × (length xs ≡ length s.items) };

    fn deref(&self) -> &[T]
        ensures value { result.now ≡ self.now.items }
        ensures len { length result.now ≡ length self.now.items }
    {
        self.as_slice()
    }
}

impl<T> DerefSliceMut for Stack<T> {
    ghost use Rattle.lot_kept.specs.Lending.{lends_stacked_slice};

    fn deref_mut(&mut self) -> &mut [T]
        ensures* writes_back { sem 𝓛 (lends_stacked_slice T.row self.entry result) }
        ensures value { result.now ≡ self.old.items }
        ensures len { length result.now ≡ length self.old.items }
    {
        self.as_mut_slice()
    }
}
