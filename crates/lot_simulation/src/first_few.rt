//! The first few items of a kind.
ghost use Rattle.std.specs.Prelude.{◌≡◌, ◌-◌, ◌≤◌, IfOk, length, nat_lt, slice_set};
ghost use Rattle.lot_simulation.specs.Kept.{kept_with, none_kept, one_more};

use std::alloc::{AllocError, Global};
use std::marker::Model;

/// The largest number of items listed one by one.
const LISTED: usize = 8;

/// The first few items of a kind, and the number of all.
#[derive(Debug, Drop)]
pub struct FirstFew<T: Drop> {
    first: Vec<T>,
    count: usize,
}

impl<T: Drop> Model for FirstFew<T> {
    ghost use Rattle.std.specs.Prelude.{◌≤◌, vec_len, vec_capacity};
    ghost use Rattle.lot_simulation.specs.Kept.{Kept};

    ghost Value = { Kept T };

    ghost view = { λ f. record { first = f.first.items; count = f.count } };

    ghost invariant = { λ f. record {
      room : 8 ≤ vec_capacity f.first;
      few : vec_len f.first ≤ 8;
    } };
}

impl<T: Drop> FirstFew<T> {
    /// No items, with room for eight. It allocates all the memory that it will ever use, and fails only if out of
    /// memory.
    pub fn none(alloc: Global) -> Result<Self, AllocError>
        ensures { IfOk result (λ few. few ≡ none_kept) }
    {
        Ok(FirstFew {
            first: Vec::with_capacity(alloc, LISTED)?,
            count: 0,
        })
    }

    /// Counts one more item, and lists it if there is room.
    pub fn add(&mut self, one: T)
        ensures { self.new ≡ kept_with self.old one }
    {
        if self.first.len() < LISTED {
            self.first.push_reserved(one);
        }
        self.count = self.count.saturating_add(1);
    }

    /// Whether the next item will be listed.
    pub fn has_room(&self) -> bool
        ensures { result ≡ nat_lt (length self.now.first) 8 }
    {
        self.first.len() < LISTED
    }

    /// Counts one more item without listing it.
    pub fn add_unlisted(&mut self)
        ensures { self.new ≡ record self.old { count = one_more self.old.count } }
    {
        self.count = self.count.saturating_add(1);
    }

    /// Replaces the listed item with this index, if there is one.
    pub fn replace(&mut self, place: usize, one: T)
        ensures { self.new ≡ record self.old { first = slice_set self.old.first place one } }
    {
        if place < self.first.len() {
            self.first[place] = one;
        }
    }

    /// The listed items, in order.
    pub fn first(&self) -> &[T]
        ensures items { result.now ≡ self.now.first }
        ensures few { length result.now ≤ 8 }
    {
        self.first.as_slice()
    }

    /// The allocator of the list.
    pub fn allocator(&self) -> Global {
        *self.first.allocator()
    }

    /// The number of items after the listed ones.
    pub fn others(&self) -> usize
        ensures { result ≡ self.now.count - length self.now.first }
    {
        self.count.saturating_sub(self.first.len())
    }
}
