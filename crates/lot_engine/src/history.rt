//! The actors of a system's turns.
ghost use Rattle.std.specs.Prelude.{◌≡◌, ◌+◌, ◌<◌, ◌≤◌, [], ◌∷◌, ◌++◌, IfOk, IsTrue, length, map, min};
ghost use Rattle.lot_engine.specs.Histories.{HasOpened, woken_in};

use lot_kept::Stack;
use std::alloc::{AllocError, Global};
use std::marker::Model;

/// The actors of the turns so far, in a byte each.
#[derive(Drop)]
pub(crate) struct History {
    processors: u32,
    // The actor of each turn. The timer is the number after the processors.
    actors: Stack<u8>,
    // The threads woken by the timer's turns, in the order of these turns.
    woken: Stack<u16>,
}

impl Model for History {
    ghost use Rattle.lot_engine.specs.Histories.{KeptHistory, actors_from, IsKept};

    ghost Value = { KeptHistory };

    ghost view = { λ h. record {
      items = actors_from h.processors h.actors.items h.woken.items;
      size = record { processors = h.processors; turns = h.actors.room; wakes = h.woken.room };
    } };

    ghost invariant = { λ h. IsKept h.processors h.actors.items h.woken.items };
}

impl History {
    /// No turns, with capacity for `room`. With a timer each of them may be the timer's.
    pub(crate) fn new(
        alloc: Global,
        processors: u32,
        room: u32,
        has_timer: bool,
    ) -> Result<History, AllocError>
        requires { processors < 255 }
        ensures { IfOk result (HasOpened processors room has_timer) }
    {
        let wakes = if has_timer { room } else { 0 };
        Ok(History {
            processors,
            actors: Stack::new(alloc, room as usize)?,
            woken: Stack::new(alloc, wakes as usize)?,
        })
    }

    /// Adds a turn of the console or of a processor.
    #[inline(always)]
    pub(crate) fn push(&mut self, actor: u32)
        requires actor { actor ≤ self.old.size.processors }
        requires room { length self.old.items < self.old.size.turns }
        ensures items { self.new.items ≡ self.old.items ++ actor ∷ [] }
        ensures size { self.new.size ≡ self.old.size }
    {
        self.actors.push(actor as u8);
    }

    /// Adds a turn of the timer in which it woke this thread.
    pub(crate) fn push_wake(&mut self, thread: u32)
        requires some { 0 < thread }
        requires small { thread < 65536 }
        requires room { length self.old.items < self.old.size.turns }
        requires wakes { length self.old.items < self.old.size.wakes }
        ensures items { self.new.items ≡ self.old.items ++ (self.old.size.processors + thread) ∷ [] }
        ensures size { self.new.size ≡ self.old.size }
    {
        self.actors.push((self.processors + 1) as u8);
        self.woken.push(thread as u16);
    }

    /// The number of turns.
    #[inline(always)]
    pub(crate) fn len(&self) -> usize
        ensures { result ≡ length self.now.items }
    {
        self.actors.len()
    }

    /// The actors of the turns. The timer is the number after the processors.
    pub(crate) fn actors(&self) -> &[u8]
        ensures { result.now ≡ map (λ actor. min actor (self.now.size.processors + 1)) self.now.items }
    {
        &self.actors
    }

    /// The threads woken by the timer's turns, in the order of these turns.
    pub(crate) fn woken(&self) -> &[u16]
        ensures { result.now ≡ woken_in self.now.size.processors self.now.items }
    {
        &self.woken
    }
}
