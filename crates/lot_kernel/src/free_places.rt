//! The free places of one table, for `reuse`.
ghost use Rattle.std.specs.Prelude.{◌≡◌, ◌<◌, ◌≤◌, ◌∷◌, [], true, IfNone, IfOk, length, drop, slice_get, if◌then◌else◌};
ghost use Rattle.lot_machine.specs.Places.{is_none_free};

use lot_kept::Stack;
use std::alloc::{AllocError, Global};
use std::marker::Model;

/// A stack of the free places of one table.
#[derive(Drop)]
pub(crate) struct FreePlaces {
    places: Stack<u32>,
}

impl Model for FreePlaces {
    ghost use Rattle.std.specs.Prelude.{reverse};
    ghost use Rattle.lot_kernel.specs.FreeStacks.{FreeStack};

    ghost Value = { FreeStack };

    ghost view = { λ s. record { places = reverse s.places.items; room = s.places.room } };
}

impl FreePlaces {
    /// No free place, with capacity for `room`.
    pub(crate) fn new(alloc: Global, room: u32) -> Result<Self, AllocError>
        ensures empty { IfOk result (λ made. made.places ≡ []) }
        ensures room { IfOk result (λ made. made.room ≡ room) }
    {
        Ok(FreePlaces {
            places: Stack::new(alloc, room as usize)?,
        })
    }

    /// The capacity, in places.
    pub(crate) fn room(&self) -> usize
        ensures { result ≡ self.now.room }
    {
        self.places.room()
    }

    /// Whether no place is free.
    pub(crate) fn is_empty(&self) -> bool
        ensures { result ≡ is_none_free self.now.places }
    {
        self.places.is_empty()
    }

    /// Frees a place. The next `pop` returns it.
    fn push(&mut self, place: u32)
        requires room { length self.old.places < self.old.room }
        ensures { self.new ≡ record self.old { places = place ∷ self.old.places } }
    {
        self.places.push(place);
    }

    /// Frees a place if `reuse` is set, and otherwise does nothing.
    pub(crate) fn leave(&mut self, place: u32, reuse: bool)
        requires room { reuse ≡ true → length self.old.places < self.old.room }
        ensures { self.new ≡ record self.old {
          places = if reuse then place ∷ self.old.places else self.old.places;
        } }
    {
        if reuse {
            self.push(place);
        }
    }

    /// Takes the place that was freed last, or returns `None` if none is free.
    pub(crate) fn pop(&mut self) -> Option<u32>
        ensures first { result ≡ slice_get self.old.places 0 }
        ensures rest { self.new ≡ record self.old { places = drop 1 self.old.places } }
        ensures unchanged { IfNone result (self.new ≡ self.old) }
    {
        self.places.pop()
    }
}
