//! Tables with a fixed number of elements.
ghost use Rattle.std.specs.Prelude.{◌≡◌, ◌^◌, ◌<◌, IfOk, length, replicate, slice_index_or};
ghost use Rattle.std.specs.Borrow.{sem};
ghost use Rattle.std.specs.List.{range_with_len};

use std::alloc::{AllocError, Global};
use std::marker::Model;
use std::ops::{DerefSlice, DerefSliceMut, Index, IndexMut};

/// A fixed number of elements, in a block of memory of that size.
///
/// Contracts see the elements, in order.
#[derive(Debug, Drop)]
pub struct Kept<T> {
    places: Vec<T>,
}

impl<T> Model for Kept<T> {
    ghost use Rattle.std.specs.Prelude.{◌≡◌, vec_capacity, vec_len};
    ghost use Rattle.lot_kept.specs.Table.{Full, full_code};

    ghost Value = { Full T };

    ghost coded = { full_code T.code };

    ghost view = { λ k. record { items = k.places.items } };

    ghost invariant = { λ k. vec_capacity k.places ≡ vec_len k.places };
}

impl Kept<u32> {
    /// The numbers below `count`, in order. It fails only if out of memory.
    pub fn counted(alloc: Global, count: u32) -> Result<Self, AllocError>
        ensures { IfOk result (λ made. made.items ≡ range_with_len 0 count) }
    {
        let mut places = Vec::with_capacity(alloc, count as usize)?;
        for number in 0..count {
            places.push_reserved(number);
        }
        Ok(Kept { places })
    }
}

impl<T> Kept<T> {
    ghost use Rattle.lot_kept.specs.Lending.{lends_slice};

    /// This value `count` times. It fails only if out of memory.
    pub fn filled(alloc: Global, value: T, count: usize) -> Result<Self, AllocError>
    where
        T: Copy + Drop,
        ensures { IfOk result (λ made. made.items ≡ replicate count value) }
    {
        let mut places = Vec::with_capacity(alloc, count)?;
        for _ in 0..count {
            places.push_reserved(value);
        }
        Ok(Kept { places })
    }

    /// The capacity, which is the number of elements.
    pub fn room(&self) -> usize
        ensures { result ≡ length self.now.items }
    {
        self.places.capacity()
    }

    /// The number of elements.
    pub fn len(&self) -> usize
        ensures value { result ≡ length self.now.items }
        ensures few { result < 2 ^ 63 }
    {
        self.places.len()
    }

    /// The elements.
    pub fn as_slice(&self) -> &[T]
        ensures value { result.now ≡ self.now.items }
        ensures len { length result.now ≡ length self.now.items }
    {
        self.places.as_slice()
    }

    /// The elements, mutable.
    pub fn as_mut_slice(&mut self) -> &mut [T]
        ensures* writes_back { sem 𝓛 (lends_slice T.row self.entry result) }
        ensures value { result.now ≡ self.old.items }
        ensures len { length result.now ≡ length self.old.items }
    {
        self.places.as_mut_slice()
    }
}

impl<T> Index<usize> for Kept<T> {
    type Output = T;

    ghost can_index = { λ k i. i < length k.items };

    ghost index_gives = { λ k i value. value ≡ slice_index_or k.items i value };

    fn index(&self, index: usize) -> &T {
        &self.places[index]
    }
}

impl<T> IndexMut<usize> for Kept<T> {
    ghost use Rattle.lot_kept.specs.Lending.{lends_item};

    fn index_mut(&mut self, index: usize) -> &mut T
        requires { index < length self.old.items }
        ensures* writes_back { sem 𝓛 (lends_item T.row self.entry index result) }
        ensures value { result.now ≡ slice_index_or self.old.items index result.now }
    {
        &mut self.places[index]
    }
}

impl<T> DerefSlice for Kept<T> {
    type Elem = T;

    ghost deref_gives = { λ k xs. (xs ≡ k.items) × (length xs ≡ length k.items) };

    fn deref(&self) -> &[T]
        ensures value { result.now ≡ self.now.items }
        ensures len { length result.now ≡ length self.now.items }
    {
        self.as_slice()
    }
}

impl<T> DerefSliceMut for Kept<T> {
    ghost use Rattle.lot_kept.specs.Lending.{lends_slice};

    fn deref_mut(&mut self) -> &mut [T]
        ensures* writes_back { sem 𝓛 (lends_slice T.row self.entry result) }
        ensures value { result.now ≡ self.old.items }
        ensures len { length result.now ≡ length self.old.items }
    {
        self.as_mut_slice()
    }
}
