//! The free places of the tables. With `reuse` the next tickets, currencies and threads get them.
ghost use Rattle.std.specs.Prelude.{◌≡◌, ◌≤◌, ◌<◌, ◌+◌, ◌*◌, ◌^◌, IfOk, if◌then◌else◌};
ghost use Rattle.lot_machine.specs.State.{sizes_of};
ghost use Rattle.lot_kernel.specs.FreePlaces.{none_free, freed_in, HasRoomFor};

use crate::free_places::FreePlaces;
use lot_machine::Limits;
use std::alloc::{AllocError, Global};
use std::mem::size_of;

// The bytes of one place.
const PLACE_BYTES: u64 = size_of::<u32>() as u64;

/// The free places of tickets, currencies and threads.
pub(crate) struct Freed {
    pub(crate) tickets: FreePlaces,
    pub(crate) currencies: FreePlaces,
    pub(crate) threads: FreePlaces,
}

impl Drop for Freed {
    // An explicit drop: code that drops a `Freed` is then proved without unfolding its parts.
    fn drop(self) {
        let Self {
            tickets: _,
            currencies: _,
            threads: _,
        } = self;
    }
}

impl Freed {
    /// No free place. With `reuse` it has capacity for each place within the limits, otherwise for none.
    pub(crate) fn new(alloc: Global, limits: &Limits) -> Result<Self, AllocError>
        ensures none { IfOk result (λ made. freed_in made ≡ none_free) }
        ensures room { IfOk result (HasRoomFor (sizes_of limits.now)) }
    {
        Ok(Freed {
            tickets: FreePlaces::new(alloc, room_for(limits, limits.tickets))?,
            currencies: FreePlaces::new(alloc, room_for(limits, limits.currencies + 1))?,
            threads: FreePlaces::new(alloc, room_for(limits, limits.threads))?,
        })
    }

    /// The number of bytes that `new` requests from the allocator.
    pub(crate) fn bytes(limits: &Limits) -> u64
        ensures bytes { result ≡ (if limits.now.reuse
            then 4 * (limits.now.tickets + limits.now.currencies + limits.now.threads) + 4 else 0) }
        ensures few { result ≤ 4 * (limits.now.tickets + limits.now.currencies + limits.now.threads) + 4 }
    {
        if !limits.reuse {
            return 0;
        }
        PLACE_BYTES * (limits.tickets as u64 + limits.currencies as u64 + limits.threads as u64 + 1)
    }

    /// The capacity in bytes: always exactly what `new` requested.
    pub(crate) fn held(&self) -> u64
        requires few { self.now.tickets.room + self.now.currencies.room + self.now.threads.room < 2 ^ 40 }
        ensures { result ≡ 4 * (self.now.tickets.room + self.now.currencies.room + self.now.threads.room) }
    {
        PLACE_BYTES
            * (self.tickets.room() as u64
                + self.currencies.room() as u64
                + self.threads.room() as u64)
    }
}

/// The capacity for this many places: all of them with `reuse`, otherwise none.
fn room_for(limits: &Limits, places: u32) -> u32
    ensures { result ≡ (if limits.now.reuse then places else 0) }
{
    if limits.reuse { places } else { 0 }
}
