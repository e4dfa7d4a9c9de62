//! A slab that allocates only when it is made.
ghost use Rattle.std.specs.Prelude.{◌≡◌, ◌+◌, [], IfOk, None, Some, option_copied};
ghost use Rattle.std.specs.Borrow.{sem};
ghost use Rattle.slab.specs.Slab.{ContainsKey, HasRoomFor, Updates, get, slab_len};

use slab::Slab;
use std::alloc::{AllocError, Global};
use std::marker::Model;
use std::ops::{Index, IndexMut};

/// A slab of fixed capacity. It lends out its values alone, so no caller reaches a method of the slab that allocates or
/// frees.
#[derive(Drop)]
pub(crate) struct Slots<T> {
    slab: Slab<T>,
}

impl<T> Model for Slots<T> {
    ghost use Rattle.slab.specs.Slab.{Slab, slab_code};

    ghost Value = { Slab T };

    ghost coded = { slab_code T.code };

    ghost view = { λ s. s.slab };
}

impl<T: Drop> Slots<T> {
    /// An empty slab with capacity for exactly `room` values. It fails only if out of memory.
    pub(crate) fn new(alloc: Global, room: usize) -> Result<Self, AllocError>
        ensures empty { IfOk result (λ made. made.slots ≡ []) }
        ensures room { IfOk result (λ made. made.capacity ≡ room) }
    {
        let slab = Slab::with_capacity(alloc, room)?;
        // The capacity is exact, but none of the slab's clauses says so.
        if slab.capacity() != room {
            return Err(AllocError);
        }
        Ok(Slots { slab })
    }
}

impl<T> Slots<T> {
    /// The capacity, in values.
    pub(crate) fn room(&self) -> usize
        ensures { result ≡ self.now.capacity }
    {
        self.slab.capacity()
    }

    /// Adds a value under the key that it returns. The slab must not be full.
    pub(crate) fn insert(&mut self, value: T) -> usize
        requires { HasRoomFor self.old 1 }
        ensures was_vacant { get self.old result ≡ None }
        ensures updates { Updates self.old self.new result (Some value) }
        ensures len { slab_len self.new ≡ slab_len self.old + 1 }
        ensures room { self.new.capacity ≡ self.old.capacity }
    {
        self.slab.insert_reserved(value)
    }

    /// The value under a key, if there is one.
    pub(crate) fn get(&self, key: usize) -> Option<&T>
        ensures { option_copied result ≡ get self.now key }
    {
        self.slab.get(key)
    }
}

impl<T> Index<usize> for Slots<T> {
    type Output = T;

    ghost can_index = { ContainsKey };

    ghost index_gives = { λ s key value. get s key ≡ Some value };

    fn index(&self, key: usize) -> &T {
        &self.slab[key]
    }
}

impl<T> IndexMut<usize> for Slots<T> {
    ghost use Rattle.lot_graph.specs.Lending.{lends_value};

    fn index_mut(&mut self, key: usize) -> &mut T
        requires { ContainsKey self.old key }
        ensures* writes_back { sem 𝓛 (lends_value T.row self.entry key result) }
        ensures value { get self.old key ≡ Some result.now }
    {
        &mut self.slab[key]
    }
}
