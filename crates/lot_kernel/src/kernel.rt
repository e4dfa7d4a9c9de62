//! The kernel and its events.
ghost use Rattle.std.specs.Prelude.{◌≡◌, ◌<◌, ◌≤◌, ◌+◌, ◌^◌, All, None, Some, IfNone, IfOk, IfSome, MatchOption};
ghost use Rattle.std.specs.Prelude.{false, length, option_and_then, option_map, true, if◌then◌else◌};
ghost use Rattle.std.specs.Borrow.{sem};
ghost use Rattle.lot_machine.specs.Bounds.{IsBetween};
ghost use Rattle.lot_machine.specs.Mutexes.{mutex_at};
ghost use Rattle.lot_machine.specs.Lends.{is_live};
ghost use Rattle.lot_machine.specs.State.{funding_of, live_of, sizes_of, status_of, thread_at, thread_on, used_by};
ghost use Rattle.lot_machine.specs.State.{value_of};
ghost use Rattle.lot_machine.specs.Step.{replies, state_after, step};
ghost use Rattle.lot_machine.specs.Facts.{IsSound, base_value};
ghost use Rattle.lot_machine.specs.Rows as rows;
ghost use Rattle.lot_machine.specs.declared.ticket.Ticket.{Ticket as ATicket};
ghost use Rattle.lot_machine.specs.Funding.{ticket_in};
ghost use Rattle.lot_machine.specs.Value.{currency_value};
ghost use Rattle.lot_machine.specs.Numbered.{at_number};
ghost use Rattle.lot_value.specs.Caches.{HasNoneTwice};
ghost use Rattle.lot_kernel.specs.Counted.{AreDone, Counts, settled, with_ticket_read};
ghost use Rattle.lot_kernel.specs.Memory.{bytes_of};
ghost use Rattle.lot_kernel.specs.Lending.{EndsSettled};
ghost use Rattle.lot_kernel.specs.Searching.{HasLayoutOf, IsAboveThread};
ghost use Rattle.lot_kernel.specs.Snapshots.{MakesStale, starting};

use crate::settled::Settled;
use crate::tables::Tables;
use lot_graph::Above;
use lot_kept::Stack;
use lot_machine::{
    CurrencyNumber, CurrencyRow, Event, Limits, MutexNumber, Name, Node, Processor, Reply, Status,
    Target, ThreadNumber, ThreadRow, TicketNumber, TicketRow, index_of,
};
use lot_threads::Runner;
use lot_value::Meter;
use std::alloc::{AllocError, Global};
use std::marker::Model;

/// A lottery-scheduled kernel. Contracts see it as the `State` of the machine's definitions, with the stale nodes,
/// whose values it recomputes before it uses them, and the counts.
///
/// `new` allocates all its memory; no event allocates.
pub struct Kernel {
    pub(crate) tables: Tables,
}

impl Drop for Kernel {
    // An explicit drop: code that drops a `Kernel` is then proved without unfolding its parts.
    fn drop(self) {
        let Self { tables: _ } = self;
    }
}

impl Model for Kernel {
    ghost use Rattle.lot_machine.specs.Order.{IsInOrder};
    ghost use Rattle.lot_kernel.specs.Snapshots.{Snapshot};

    ghost Value = { Snapshot };

    ghost view = { λ k. k.tables };

    ghost invariant = { λ k. IsInOrder k.tables.state };
}

impl Kernel {
    /// A kernel in the opening state: base alone, empty ports and free mutexes. It allocates all the memory that the
    /// kernel will ever use, and fails only if out of memory.
    pub fn new(alloc: Global, limits: Limits) -> Result<Kernel, AllocError>
        ensures opening { IfOk result (λ k. k ≡ starting (sizes_of limits)) }
        ensures sound { IfOk result (λ k. IsSound k.state) }
    {
        Ok(Kernel {
            tables: Tables::new(alloc, limits)?,
        })
    }

    /// The number of bytes that `new` requests from the allocator, for a host that gives the kernel a fixed region of
    /// memory. Tests compare it with the bytes that `new` requests.
    pub fn bytes(limits: &Limits) -> u64
        ensures bytes { result ≡ bytes_of (sizes_of limits.now) }
        ensures few { result < 2 ^ 32 }
    {
        Tables::bytes(limits)
    }

    /// The capacity of the kernel's tables, in bytes. After each event it is exactly what `new` requested.
    pub fn held(&self) -> u64
        ensures { result ≡ bytes_of self.now.state.limits }
    {
        self.tables.held()
    }

    /// The limits that the kernel was made with.
    pub fn limits(&self) -> Limits
        ensures { sizes_of result ≡ self.now.state.limits }
    {
        self.tables.limits
    }

    /// The unit, 1 or 256: an active base ticket is worth its amount times the unit (4.4).
    pub fn unit(&self) -> u32
        ensures { result ≡ self.now.state.limits.unit }
    {
        self.tables.limits.unit
    }

    /// The meter: the tickets, lends and owners read to compute values, and the places visited in the tree of weights.
    pub fn meter(&self) -> Meter
        ensures { result ≡ self.now.meter }
    {
        self.tables.threads.meter()
    }

    /// The count of ticket numbers given so far, those of removed tickets included. They run from 1 to this.
    pub fn ticket_count(&self) -> u32
        ensures { result ≡ length self.now.state.tickets }
    {
        self.tables.threads.graph().ticket_count()
    }

    /// The count of currency numbers given so far, those of base and of removed currencies included. They run from 0 to
    /// one below this.
    pub fn currency_count(&self) -> u32
        ensures count { result ≡ length self.now.state.currencies }
        ensures within { result ≤ self.now.state.limits.currencies + 1 }
    {
        self.tables.currencies.len() as u32
    }

    /// The count of thread numbers given so far, those of removed threads included. They run from 1 to this.
    pub fn thread_count(&self) -> u32
        ensures { result ≡ length self.now.state.records }
    {
        self.tables.threads.records().len() as u32
    }

    /// Makes one event and returns its reply. It allocates nothing. A refused event changes nothing; a trap whose
    /// outcome is a refusal costs its ticks. Two events compute values: a draw that the kernel doesn't refuse, and an
    /// unlock that passes its mutex on.
    #[inline(always)]
    pub fn event(&mut self, event: &Event) -> Reply
        ensures reply { result ≡ (step self.old.state event.now).reply }
        ensures state { self.new.state ≡ (step self.old.state event.now).state }
        ensures sound { IsSound self.new.state }
        ensures stale { MakesStale self.old self.new }
        ensures counts { Counts event.now result self.old self.new }
    {
        let mut reply = Reply::Idle;
        self.answer(event, &mut reply);
        reply
    }

    /// Makes one event, like `event`, and stores the reply in `reply`: a returned reply would be copied once more.
    #[inline(always)]
    pub fn answer(&mut self, event: &Event, reply: &mut Reply)
        ensures reply { reply.new ≡ (step self.old.state event.now).reply }
        ensures state { self.new.state ≡ (step self.old.state event.now).state }
        ensures sound { IsSound self.new.state }
        ensures stale { MakesStale self.old self.new }
        ensures counts { Counts event.now reply.new self.old self.new }
    {
        self.tables.event(event, reply);
    }

    /// Makes the events in order and stores each reply at its index in `out`. It allocates nothing.
    pub fn run(&mut self, events: &[Event], out: &mut [Reply])
        requires { length events.now ≡ length out.old }
        ensures replies { out.new ≡ replies self.old.state events.now }
        ensures state { self.new.state ≡ state_after self.old.state events.now }
        ensures sound { IsSound self.new.state }
        ensures done { AreDone events.now out.new self.old self.new }
    {
        // Brings the invariant of every kernel into the proof: its state is sound.
        let _ = &self.tables;
        for i in 0..events.len() {
            out[i] = self.event(&events[i]);
        }
    }

    /// The row of the ticket with this number, or `None` if and only if it doesn't exist. Recomputes the stale values;
    /// the meter counts that, and one read of the ticket if it funds something. Changes nothing else, and allocates
    /// nothing.
    pub fn ticket_row(&mut self, ticket: TicketNumber) -> Option<TicketRow>
        ensures row { result ≡ rows.ticket_row self.old.state ticket.number }
        ensures state { self.new.state ≡ self.old.state }
        ensures settled { (t : ATicket) → ticket_in self.old.state.tickets ticket.number ≡ Some t
            → self.new ≡ record (settled self.old) { meter = with_ticket_read (settled self.old).meter t } }
        ensures once { IfSome result (λ r. HasNoneTwice self.old.stale) }
        ensures unchanged { IfNone result (self.new ≡ self.old) }
    {
        let (found, value) = self.tables.read_ticket(ticket)?;
        Settled { kernel: self }.row_of_ticket(ticket, found, value)
    }

    /// The row of the currency with this number, or `None` if and only if it doesn't exist; base is worth its active
    /// amount. Recomputes the stale values, which the meter counts. Changes nothing else, and allocates nothing.
    pub fn currency_row(&mut self, currency: CurrencyNumber) -> Option<CurrencyRow>
        ensures row { result ≡ rows.currency_row self.old.state currency.number }
        ensures state { self.new.state ≡ self.old.state }
        ensures settled { IfSome result (λ r. self.new ≡ settled self.old) }
        ensures once { IfSome result (λ r. HasNoneTwice self.old.stale) }
        ensures unchanged { IfNone result (self.new ≡ self.old) }
    {
        let name = self.currency_name(currency)?;
        Some(self.settle().row_of_currency(currency, name))
    }

    /// The row of the thread with this number, or `None` if and only if it doesn't exist. Recomputes the stale values,
    /// which the meter counts. Changes nothing else, and allocates nothing.
    pub fn thread_row(&mut self, thread: ThreadNumber) -> Option<ThreadRow>
        ensures row { result ≡ rows.thread_row self.old.state thread.number }
        ensures state { self.new.state ≡ self.old.state }
        ensures settled { IfSome result (λ r. self.new ≡ settled self.old) }
        ensures once { IfSome result (λ r. HasNoneTwice self.old.stale) }
        ensures unchanged { IfNone result (self.new ≡ self.old) }
    {
        let found = self.tables.threads.record(thread)?;
        let name = self.thread_name(thread)?;
        Some(self.settle().row_of_thread(thread, found, name))
    }

    /// Recomputes all stale values, which the meter counts. Callers read rows from the result, or until the next event
    /// from `Settled::of`. Changes nothing else, and allocates nothing.
    pub fn settle(&mut self) -> Settled<'_>
        ensures settled { result.kernel.now ≡ settled self.old }
        ensures once { HasNoneTwice self.old.stale }
        ensures* ends { sem 𝓛 (EndsSettled self.entry) }
    {
        self.tables.settle();
        Settled { kernel: self }
    }

    /// The thread that runs on the processor with the ticks of its quantum used, or `None` if and only if no thread
    /// runs there.
    pub fn runner(&self, processor: Processor) -> Option<Runner>
        ensures thread { MatchOption result (thread_on self.now.state.records processor.number ≡ None)
            (λ r. thread_on self.now.state.records processor.number ≡ Some r.thread.number) }
        ensures used { IfSome result (λ r. used_by self.now.state.records processor.number r.thread.number
            ≡ Some r.used) }
        ensures there { IfSome result (λ r. (0 < r.thread.number) × (r.thread.number ≤ length self.now.state.records)) }
        ensures below { IfSome result (λ r. r.used < self.now.state.limits.quantum) }
    {
        self.tables.threads.runner(processor)
    }

    /// The number of the thread's script, fixed when it was made, or `None` if and only if there is no such thread.
    pub fn script_of(&self, thread: ThreadNumber) -> Option<u32>
        ensures { result ≡ option_map (λ t. t.script) (thread_at self.now.state.threads thread.number) }
    {
        if thread.number == 0 {
            return None;
        }
        match self.tables.threads.threads().get(index_of(thread.number))? {
            Some(found) => Some(found.script),
            None => None,
        }
    }

    /// Stores in `out` the threads that wait for the mutex, the longest wait first; none if there is no such mutex. It
    /// allocates nothing, since `out` has room for all threads.
    pub fn list_waiters(&self, mutex: MutexNumber, out: &mut Stack<u32>)
        requires { self.now.state.limits.threads ≤ out.old.room }
        ensures waiters { out.new.items ≡ (mutex_at self.now.state.mutexes mutex.number).waiters }
        ensures there { All (IsBetween 1 (length self.now.state.records)) out.new.items }
        ensures few { length out.new.items ≤ self.now.state.limits.threads }
        ensures room { out.new.room ≡ out.old.room }
    {
        out.clear();
        if mutex.number == 0 || self.tables.queues.mutexes() < mutex.number {
            return;
        }
        self.tables.queues.list_waiters(mutex.number, out);
    }

    /// The number of the thread that owns the mutex, or `None` if it is free or doesn't exist. If queued calls lend,
    /// the number of mutexes and a port's number together stand for the port, whose owner is its server.
    pub fn owner(&self, mutex: MutexNumber) -> Option<u32>
        ensures { result ≡ (mutex_at self.now.state.mutexes mutex.number).owner }
    {
        if 0 < mutex.number && mutex.number <= self.tables.queues.mutexes() {
            self.tables.queues.owner(mutex.number)
        } else {
            None
        }
    }

    /// The thread's status, or `None` if no thread has ever had the number. A removed thread is dead.
    pub fn status(&self, thread: ThreadNumber) -> Option<Status>
        ensures { result ≡ status_of self.now.state.records thread.number }
    {
        Some(self.tables.threads.record(thread)?.status)
    }

    /// The thread's value, in base units, if it is live (Ready or Running), and otherwise 0. For a live thread it
    /// recomputes all stale values, which the meter counts.
    pub fn live_value(&mut self, thread: ThreadNumber) -> u64
        ensures value { result ≡ (if is_live (live_of self.old.state) thread.number
            then value_of self.old.state thread.number else 0) }
        ensures state { self.new.state ≡ self.old.state }
        ensures settled { is_live (live_of self.old.state) thread.number ≡ true → self.new ≡ settled self.old }
        ensures once { is_live (live_of self.old.state) thread.number ≡ true → HasNoneTwice self.old.stale }
        ensures unchanged { is_live (live_of self.old.state) thread.number ≡ false → self.new ≡ self.old }
    {
        if self.is_live(thread) {
            self.settle().worth_of(thread)
        } else {
            0
        }
    }

    /// Whether the thread is live: Ready or Running.
    pub(crate) fn is_live(&self, thread: ThreadNumber) -> bool
        ensures live { result ≡ is_live (live_of self.now.state) thread.number }
        ensures there { result ≡ true → IsBetween 1 (length self.now.state.records) thread.number }
    {
        match self.tables.threads.record(thread) {
            Some(found) => matches!(found.status, Status::Ready | Status::Running { .. }),
            None => false,
        }
    }

    /// The name of the currency with this number, or `None` if and only if it doesn't exist.
    pub fn currency_name(&self, currency: CurrencyNumber) -> Option<Name>
        ensures { result ≡ rows.currency_name self.now.state currency.number }
    {
        match self.tables.currencies.get(currency.number as usize)? {
            Some(name) => Some(name.copied()),
            None => None,
        }
    }

    /// The name of a ticket's target.
    pub(crate) fn target_name(&self, target: Target) -> Option<Name>
        ensures { result ≡ rows.target_name self.now.state target }
    {
        match target {
            Target::Unfunded => None,
            Target::Currency(currency) => self.currency_name(CurrencyNumber { number: currency }),
            Target::Thread(thread) => self.thread_name(ThreadNumber { number: thread }),
        }
    }

    pub(crate) fn thread_name(&self, thread: ThreadNumber) -> Option<Name>
        ensures { result ≡ rows.thread_name self.now.state thread.number }
    {
        if thread.number == 0 {
            return None;
        }
        match self.tables.threads.threads().get(index_of(thread.number))? {
            Some(found) => Some(found.name.copied()),
            None => None,
        }
    }

    /// The value, in base units, of a currency other than base, whose number must have been given, or 0 if it was
    /// removed. It recomputes all stale values, which the meter counts.
    pub fn currency_value(&mut self, currency: CurrencyNumber) -> u64
        requires user { 0 < currency.number }
        requires there { currency.number < length self.old.state.currencies }
        ensures value { result ≡ currency_value self.old.state.limits.unit (funding_of self.old.state)
            (live_of self.old.state) currency.number }
        ensures state { self.new.state ≡ self.old.state }
        ensures settled { self.new ≡ settled self.old }
        ensures once { HasNoneTwice self.old.stale }
    {
        self.settle().currency_value(currency)
    }

    /// The total value of base's active tickets, in base units. It recomputes nothing.
    pub fn base_value(&self) -> u128
        ensures value { result ≡ base_value self.now.state }
        ensures small { result < 2 ^ 96 }
    {
        let active = self
            .tables
            .threads
            .active_amount(CurrencyNumber { number: 0 });
        u128::from(active) * u128::from(self.tables.limits.unit)
    }

    /// A search for the currencies above a thread, with room for any state of this kernel. It allocates all the memory
    /// that the search will ever use, and fails only if out of memory.
    pub fn above(&self, alloc: Global) -> Result<Above, AllocError>
        ensures { IfOk result (HasLayoutOf self.now.state) }
    {
        Above::new(alloc, self.tables.threads.graph().layout())
    }

    /// Finds the currencies above a thread: those from which a path of edges, of tickets, lends and owners of mutexes,
    /// leads to it (4.4, 4.6, 6.1). It allocates nothing.
    pub fn find_above(&self, thread: ThreadNumber, above: &mut Above)
        requires layout { HasLayoutOf self.now.state above.old }
        requires thread { IsBetween 1 self.now.state.limits.threads thread.number }
        ensures layout { above.new.layout ≡ above.old.layout }
        ensures above { IsAboveThread self.now.state thread.number above.new }
    {
        above.find(self.tables.threads.graph(), Node::Thread(thread.number));
    }

    /// The thread's compensation: the ticks used of its last quantum, fewer than a quantum if it gave the rest up, and
    /// more if the quantum ended late (3.4, 4.5). `None` if it has none.
    pub fn compensation(&self, thread: ThreadNumber) -> Option<u32>
        ensures { result ≡ option_and_then (λ r. r.compensation) (at_number self.now.state.records thread.number) }
    {
        self.tables.threads.record(thread)?.compensation
    }
}
