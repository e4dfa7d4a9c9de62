//! The lottery over the values of the waiters for a mutex (6.1).
ghost use Rattle.std.specs.Prelude.{◌≡◌, ◌≢◌, ◌*◌, ◌<◌, ◌≤◌, ◌^◌, ◌↔◌, [], All, IfOk, IfSome, IsTrue, length, map};
ghost use Rattle.std.specs.Prelude.{option_map, slice_index, unwrap_or};
ghost use Rattle.lot_machine.specs.declared.record.Status.TheVariants as status;
ghost use Rattle.lot_machine.specs.Lottery as lottery;
ghost use Rattle.lot_machine.specs.Mutexes.{mutex_at};
ghost use Rattle.lot_machine.specs.Order.{IsQueue};
ghost use Rattle.lot_graph.specs.Graphs.{IsMutex};
ghost use Rattle.lot_queues.specs.QueueLists.{IsThere};
ghost use Rattle.lot_threads.specs.Threaded.{IsThreadOf, funding_in, worth_in};

use lot_draw::winner;
use lot_kept::Stack;
use lot_machine::{Drawn, Node, ThreadNumber};
use lot_queues::Queues;
use lot_threads::Threads;
use std::alloc::{AllocError, Global};
use std::marker::Model;
use std::mem::size_of;

// The bytes of one waiter's number and value.
const WAITER_BYTES: u64 = size_of::<u32>() as u64 + size_of::<u128>() as u64;

/// Scratch memory for the lottery of a mutex: its waiters and their values.
pub struct Lottery {
    /// The capacity, in waiters.
    room: u32,
    waiters: Stack<u32>,
    worths: Stack<u128>,
}

impl Drop for Lottery {
    // An explicit drop: code that drops a `Lottery` is then proved without unfolding its fields.
    fn drop(self) {
        let Self {
            room: _,
            waiters: _,
            worths: _,
        } = self;
    }
}

impl Model for Lottery {
    ghost use Rattle.std.specs.Prelude.{◌≡◌, ◌≤◌, length};
    ghost use Rattle.lot_mutex.specs.Listed.{Listed};

    ghost Value = { Listed };

    ghost view = { λ l. record { room = l.room; waiters = l.waiters.items } };

    ghost invariant = { λ l. record {
      waiters_room : l.waiters.room ≡ l.room;
      worths_room : l.worths.room ≡ l.room;
      few : length l.waiters.items ≤ l.room;
    } };
}

impl Lottery {
    /// No waiters, with capacity for `threads`. It allocates all the memory that a lottery needs, and fails only if out
    /// of memory.
    pub fn new(alloc: Global, threads: u32) -> Result<Lottery, AllocError>
        ensures { IfOk result (λ made. made ≡ record { room = threads; waiters = [] }) }
    {
        Ok(Lottery {
            room: threads,
            waiters: Stack::new(alloc, threads as usize)?,
            worths: Stack::new(alloc, threads as usize)?,
        })
    }

    /// The number of bytes that `new` requests from the allocator: 20 for each thread.
    pub fn bytes(threads: u32) -> u64
        ensures { result ≡ 20 * threads }
    {
        WAITER_BYTES * threads as u64
    }

    /// The capacity in bytes: always exactly what `new` requested.
    pub fn held(&self) -> u64
        ensures { result ≡ 20 * self.now.room }
    {
        // The capacity fits 32 bits, so the sum fits.
        let _room = self.room;
        size_of::<u32>() as u64 * self.waiters.room() as u64
            + size_of::<u128>() as u64 * self.worths.room() as u64
    }

    /// The capacity, in waiters.
    pub fn room(&self) -> u32
        ensures { result ≡ self.now.room }
    {
        self.room
    }

    /// Lists the waiters for a mutex.
    pub(crate) fn list(&mut self, queues: &Queues, mutex: u32)
        requires mutex { IsThere queues.now.mutexes mutex }
        requires room { queues.now.room ≡ self.old.room }
        ensures { self.new ≡ record self.old { waiters = (mutex_at queues.now.mutexes mutex).waiters } }
    {
        queues.list_waiters(mutex, &mut self.waiters);
    }

    pub(crate) fn is_empty(&self) -> bool
        ensures { IsTrue result ↔ (self.now.waiters ≡ []) }
    {
        self.waiters.is_empty()
    }

    /// The next owner: the lottery's winner, or the first waiter if nobody wins.
    pub(crate) fn picked(&self, drawn: Option<Drawn>) -> u32
        requires some { self.now.waiters ≢ [] }
        requires within { IfSome drawn (λ w. w.place < length self.now.waiters) }
        ensures { result ≡ slice_index self.now.waiters (unwrap_or (option_map (λ w. w.place) drawn) 0) }
    {
        match drawn {
            Some(won) => self.waiters[won.place],
            None => self.waiters[0],
        }
    }

    /// Holds a lottery with the number `d` over the values of the listed waiters for the mutex. Returns `None` if they
    /// sum to 0. No value may be stale.
    pub(crate) fn hold(&mut self, threads: &Threads, mutex: u32, d: u128) -> Option<Drawn>
        requires settled { threads.now.stale ≡ [] }
        requires mutex { IsMutex (funding_in threads.now) mutex }
        requires waiters { IsQueue threads.now.records (status.Waiting mutex) self.old.waiters }
        ensures drawn { result ≡ lottery.winner (map (worth_in threads.now) self.old.waiters) d }
        ensures within { IfSome result (λ w. w.place < length self.old.waiters) }
        ensures fits { IfSome result (λ w. (w.number < 2 ^ 64) × (w.total < 2 ^ 64)) }
        ensures same { self.new ≡ self.old }
    {
        if threads.value_of(Node::Mutex(mutex)) == 0 {
            return None;
        }
        list_worths(threads, &self.waiters, &mut self.worths);
        winner(&self.worths, d)
    }
}

/// Lists the values of these threads, none of which is stale.
fn list_worths(threads: &Threads, waiters: &[u32], worths: &mut Stack<u128>)
    requires settled { threads.now.stale ≡ [] }
    requires there { All (IsThreadOf threads.now) waiters.now }
    requires room { length waiters.now ≤ worths.old.room }
    ensures worths { worths.new.items ≡ map (worth_in threads.now) waiters.now }
    ensures room { worths.new.room ≡ worths.old.room }
{
    worths.clear();
    for thread in waiters {
        let worth = threads.worth_of(ThreadNumber { number: *thread });
        worths.push(u128::from(worth));
    }
}
