//! The kernel's tables, which hold the machine's state.
ghost use Rattle.std.specs.Prelude.{◌≡◌, ◌<◌, ◌≤◌, ◌+◌, ◌^◌, ◌∷◌, [], IfNone, IfOk, IfSome, MatchOption, None, Some};
ghost use Rattle.std.specs.Prelude.{codes, length};
ghost use Rattle.lot_machine.specs.Funding.{ticket_in};
ghost use Rattle.lot_machine.specs.Order.{IsInOrder};
ghost use Rattle.lot_machine.specs.State.{funding_of, holders, live_of, opening, sizes_of};
ghost use Rattle.lot_machine.specs.Step.{step};
ghost use Rattle.lot_machine.specs.Value.{ticket_value};
ghost use Rattle.lot_queues.specs.QueueLists.{empty_queues};
ghost use Rattle.lot_value.specs.Caches.{HasNoneTwice};
ghost use Rattle.lot_kernel.specs.Counted.{Counts, settled, with_ticket_read};
ghost use Rattle.lot_kernel.specs.Memory.{bytes_of};
ghost use Rattle.lot_kernel.specs.Names.{IsIndexOf};
ghost use Rattle.lot_kernel.specs.Snapshots.{MakesStale, starting, threads_of};

mod checks;
mod commands;
mod cycles;
mod processors;
mod references;
mod servers;
mod stops;
mod traps;

use crate::freed::Freed;
use crate::names::{Hashed, NameIndex};
use lot_kept::Stack;
use lot_machine::{Event, Limits, Name, Processor, Reply, ThreadNumber, Ticket, TicketNumber};
use lot_mutex::Lottery;
use lot_queues::Queues;
use lot_threads::Threads;
use std::alloc::{AllocError, Global};
use std::marker::Model;
use std::mem::size_of;

// The bytes of one currency's name.
const NAME_BYTES: u64 = size_of::<Option<Name>>() as u64;

/// The names of currencies, the threads with their values and the meter, the queues, and an index of the names.
/// Contracts see the state that they hold.
///
/// Each event also requires that the state is in order, which the kernel preserves.
#[derive(Drop)]
pub(crate) struct Tables {
    pub(crate) limits: Limits,
    /// The name of each currency, base first; `None` for a removed one.
    pub(crate) currencies: Stack<Option<Name>>,
    /// The free places, with `reuse`.
    freed: Freed,
    pub(crate) threads: Threads,
    pub(crate) queues: Queues,
    currency_index: NameIndex,
    thread_index: NameIndex,
    /// Scratch memory for the lottery of a mutex.
    lottery: Lottery,
}

impl Model for Tables {
    ghost use Rattle.std.specs.Prelude.{◌≡◌, ◌+◌, ◌≤◌, false, length};
    ghost use Rattle.lot_machine.specs.State.{sizes_of};
    ghost use Rattle.lot_kernel.specs.FreePlaces.{none_free, freed_in, HasRoomFor};
    ghost use Rattle.lot_kernel.specs.Names.{IsIndexOf, names_of};
    ghost use Rattle.lot_kernel.specs.Snapshots.{Snapshot, HasHolders, held, threads_of};

    ghost Value = { Snapshot };

    ghost view = { λ k. record {
      state = held (sizes_of k.limits) (freed_in k.freed) k.currencies.items k.threads k.queues;
      stale = k.threads.stale;
      meter = k.threads.meter;
    } };

    ghost invariant = { λ k. record {
      threads : k.threads
          ≡ threads_of (held (sizes_of k.limits) (freed_in k.freed) k.currencies.items k.threads k.queues)
          k.threads.stale k.threads.meter;
      count : length k.threads.threads ≡ length k.threads.records;
      few : length k.threads.records ≤ k.limits.threads;
      clients : length k.queues.clients ≡ length k.threads.records;
      currencies : length k.currencies.items ≤ k.limits.currencies + 1;
      currency_room : k.currencies.room ≡ k.limits.currencies + 1;
      currency_index : IsIndexOf k.currency_index k.currencies.items;
      currency_places : k.currency_index.nodes ≡ k.limits.currencies + 1;
      thread_index : IsIndexOf k.thread_index (names_of k.threads.threads);
      thread_places : k.thread_index.nodes ≡ k.limits.threads;
      queue_room : k.queues.room ≡ k.limits.threads;
      lottery_room : k.lottery.room ≡ k.limits.threads;
      freed_room : HasRoomFor (sizes_of k.limits) k.freed;
      none_freed : k.limits.reuse ≡ false → freed_in k.freed ≡ none_free;
      holders : HasHolders (sizes_of k.limits) k.queues;
    } };
}

impl Tables {
    /// The opening state: base alone, empty ports and free mutexes. It allocates all the memory that the tables will
    /// ever use.
    pub(crate) fn new(alloc: Global, limits: Limits) -> Result<Tables, AllocError>
        ensures { IfOk result (λ k. k ≡ starting (sizes_of limits)) }
    {
        let (currencies, currency_index) = opening_currencies(alloc, limits.currencies + 1)?;
        let (threads, thread_index) = opening_threads(alloc, &limits)?;
        let freed = Freed::new(alloc, &limits)?;
        let (queues, lottery) = opening_queues(alloc, &limits)?;
        Ok(Tables {
            limits,
            currencies,
            threads,
            queues,
            currency_index,
            thread_index,
            lottery,
            freed,
        })
    }

    /// The number of bytes that `new` requests from the allocator.
    pub(crate) fn bytes(limits: &Limits) -> u64
        ensures bytes { result ≡ bytes_of (sizes_of limits.now) }
        ensures few { result < 2 ^ 32 }
    {
        NAME_BYTES * (limits.currencies as u64 + 1)
            + Threads::bytes(limits)
            + Queues::bytes(limits.ports, limits.holders(), limits.threads)
            + NameIndex::bytes(limits.currencies + 1)
            + NameIndex::bytes(limits.threads)
            + Lottery::bytes(limits.threads)
            + Freed::bytes(limits)
    }

    /// The capacity of the tables in bytes: always exactly what `new` requested.
    pub(crate) fn held(&self) -> u64
        ensures { result ≡ bytes_of self.now.state.limits }
    {
        NAME_BYTES * self.currencies.room() as u64
            + self.threads.held()
            + self.queues.held()
            + self.currency_index.held()
            + self.thread_index.held()
            + self.lottery.held()
            + self.freed.held()
    }

    /// Recomputes all stale values, which the meter counts.
    pub(crate) fn settle(&mut self)
        ensures settled { self.new ≡ settled self.old }
        ensures once { HasNoneTwice self.old.stale }
    {
        self.threads.settle();
    }

    /// The ticket with this number and its value, or `None` if and only if it doesn't exist. Settles; the meter counts
    /// one more read of the ticket if it funds something.
    pub(crate) fn read_ticket(&mut self, ticket: TicketNumber) -> Option<(Ticket, u64)>
        ensures found { MatchOption result (ticket_in self.old.state.tickets ticket.number ≡ None)
            (λ r. ticket_in self.old.state.tickets ticket.number ≡ Some r.0) }
        ensures value { IfSome result (λ r. r.1 ≡ ticket_value self.old.state.limits.unit (funding_of self.old.state)
            (live_of self.old.state) r.0) }
        ensures settled { IfSome result (λ r. self.new
            ≡ record (settled self.old) { meter = with_ticket_read (settled self.old).meter r.0 }) }
        ensures once { IfSome result (λ r. HasNoneTwice self.old.stale) }
        ensures unchanged { IfNone result (self.new ≡ self.old) }
    {
        let found = self.threads.graph().ticket(ticket.number)?;
        self.threads.settle();
        let value = self.threads.ticket_value(ticket);
        Some((found, value))
    }

    /// Makes one event and stores its reply in `reply`.
    #[inline(always)]
    pub(crate) fn event(&mut self, event: &Event, reply: &mut Reply)
        requires { IsInOrder self.old.state }
        ensures reply { reply.new ≡ (step self.old.state event.now).reply }
        ensures state { self.new.state ≡ (step self.old.state event.now).state }
        ensures stale { MakesStale self.old self.new }
        ensures counts { Counts event.now reply.new self.old self.new }
    {
        match event {
            Event::Command(command) => self.command(command, reply),
            Event::Draw(number, d) => self.draw(Processor { number: *number }, *d, reply),
            Event::Expire(number) => self.expire(Processor { number: *number }, reply),
            Event::Trap(number, ran, action) => {
                self.trap(Processor { number: *number }, *ran, action, reply);
            }
            Event::Preempt { processor, ticks } => {
                self.preempt(Processor { number: *processor }, *ticks, reply);
            }
            Event::Overrun { processor, ticks } => {
                self.overrun(Processor { number: *processor }, *ticks, reply);
            }
            Event::Wake { thread } => self.wake(ThreadNumber { number: *thread }, reply),
        }
    }
}

/// The names of the currencies at the start, base alone, with their index, and capacity for `room` names.
fn opening_currencies(
    alloc: Global,
    room: u32,
) -> Result<(Stack<Option<Name>>, NameIndex), AllocError>
    requires { 0 < room }
    ensures names { IfOk result (λ made. made.0.items ≡ Some (codes "base") ∷ []) }
    ensures few { IfOk result (λ made. length made.0.items ≤ room) }
    ensures room { IfOk result (λ made. made.0.room ≡ room) }
    ensures index { IfOk result (λ made. IsIndexOf made.1 made.0.items) }
    ensures places { IfOk result (λ made. made.1.nodes ≡ room) }
{
    let mut names = Stack::new(alloc, room as usize)?;
    let mut index = NameIndex::new(alloc, room)?;
    let Some(base) = Name::new("base") else {
        unreachable!()
    };
    index.add(0, &Hashed::new(&base));
    names.push(Some(base));
    Ok((names, index))
}

/// No thread, and the empty index of their names.
fn opening_threads(alloc: Global, limits: &Limits) -> Result<(Threads, NameIndex), AllocError>
    ensures threads { IfOk result (λ made. made.0
        ≡ threads_of (opening (sizes_of limits.now)) [] (starting (sizes_of limits.now)).meter) }
    ensures index { IfOk result (λ made. IsIndexOf made.1 []) }
    ensures places { IfOk result (λ made. made.1.nodes ≡ limits.now.threads) }
{
    let index = NameIndex::new(alloc, limits.threads)?;
    Ok((Threads::new(alloc, limits)?, index))
}

/// Empty ports and free mutexes, and memory for the lotteries of the mutexes.
fn opening_queues(alloc: Global, limits: &Limits) -> Result<(Queues, Lottery), AllocError>
    ensures queues { IfOk result (λ made. made.0
        ≡ empty_queues limits.now.ports (holders (sizes_of limits.now)) limits.now.threads) }
    ensures room { IfOk result (λ made. made.1.room ≡ limits.now.threads) }
{
    let lottery = Lottery::new(alloc, limits.threads)?;
    let queues = Queues::new(alloc, limits.ports, limits.holders(), limits.threads)?;
    Ok((queues, lottery))
}
