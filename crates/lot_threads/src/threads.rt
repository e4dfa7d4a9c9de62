//! The threads, and everything that follows from their records.
ghost use Rattle.std.specs.Prelude.{◌≡◌, ◌+◌, ◌<◌, ◌≤◌, ◌++◌, ◌∷◌, ◌≢◌, true, false, [], Some, None, IfOk, IfSome};
ghost use Rattle.std.specs.Prelude.{◌*◌, ◌^◌, ◌↔◌, IsTrue, MatchOption, length, replicate};
ghost use Rattle.lot_machine.specs.declared.funding.Node.{Node as ANode};
ghost use Rattle.lot_machine.specs.declared.funding.Node.TheVariants.{Currency as CurrencyNode, Thread as ThreadNode};
ghost use Rattle.lot_machine.specs.declared.record.Status.TheVariants.{Ready};
ghost use Rattle.lot_machine.specs.declared.ticket.Ticket.{Ticket as ATicket};
ghost use Rattle.lot_machine.specs.declared.ticket.Target.TheVariants.{Unfunded};
ghost use Rattle.lot_machine.specs.Numbered.{at_number, set_number};
ghost use Rattle.lot_machine.specs.Funding.{ticket_at, target_of};
ghost use Rattle.lot_machine.specs.Activity.{IsActive, active_amount};
ghost use Rattle.lot_machine.specs.Equations.{HasEquation, Reaches};
ghost use Rattle.lot_machine.specs.State.{holders, sizes_of, live_in, status_of, thread_on, used_by};
ghost use Rattle.lot_machine.specs.Value.{node_value, ticket_value};
ghost use Rattle.lot_graph.specs.Graphs.{IsNodeOf, IsTarget, IsCycle, IsFunding};
ghost use Rattle.lot_tree.specs.Visits.{CountsReads};
ghost use Rattle.lot_value.specs.Counts.{counted_up};
ghost use Rattle.lot_value.specs.Caches.{HasNoneTwice, edges_into_all};
ghost use Rattle.lot_value.specs.Changing.{CanApply};
ghost use Rattle.lot_threads.specs.Threaded.{LeavesThreads, StaleByIn, applied_in};
ghost use Rattle.lot_threads.specs.Threaded.{IsLiveIn, IsThreadOf, IsStaleIn, CanRun, CanChange, MakesStaleIn};
ghost use Rattle.lot_machine.specs.Commands.{newborn};
ghost use Rattle.lot_threads.specs.Threaded.{drawn_in, funding_in, limited_in, settled_in, with_records};
ghost use Rattle.lot_threads.specs.Threaded.{worth_in};
ghost use Rattle.lot_threads.specs.Timely.{IsTimely};

use crate::following::{
    can_lend, competitor_of, follow_status, is_live, is_thread, is_timely, lend_of,
};
use crate::runners::{Runner, move_runner, runner_on};
use lot_draw::{RunQueue, Winner};
use lot_graph::Graph;
use lot_kept::{Kept, Stack};
use lot_machine::{
    CurrencyNumber, Limits, Node, Processor, Record, Status, Target, Thread, ThreadNumber,
    TicketNumber, index_of,
};
use lot_value::{GraphChange, Meter, ValuedGraph};
use std::alloc::{AllocError, Global};
use std::marker::Model;
use std::mem::size_of;

// The bytes of a thread's name and record, and of a processor's running thread.
const THREAD_BYTES: u64 = size_of::<Option<Thread>>() as u64 + size_of::<Record>() as u64;

const RUNNER_BYTES: u64 = size_of::<Option<u32>>() as u64;

/// A thread that was just made.
const NEWBORN: Record = Record {
    status: Status::Ready,
    compensation: None,
    delivered: None,
    quanta: 0,
    ticks: 0,
};

/// The threads by number, with their funding graph, the queue of competitors, and the thread on each processor.
pub struct Threads {
    graph: ValuedGraph,
    queue: RunQueue,
    /// `None` for a removed thread.
    threads: Stack<Option<Thread>>,
    records: Stack<Record>,
    /// By processor, processor 1 first.
    runners: Kept<Option<u32>>,
    /// The sizes that decide to whom blocked threads lend.
    lending: Limits,
}

impl Drop for Threads {
    // An explicit drop: code that drops a `Threads` is then proved without unfolding its parts.
    fn drop(self) {
        let Self {
            graph: _,
            queue: _,
            threads: _,
            records: _,
            runners: _,
            lending: _,
        } = self;
    }
}

impl Model for Threads {
    ghost use Rattle.std.specs.Prelude.{◌≡◌, length};
    ghost use Rattle.lot_machine.specs.State.{sizes_of};
    ghost use Rattle.lot_threads.specs.Threaded.{Threaded, AreOf};

    ghost Value = { Threaded };

    ghost view = { λ s. record {
      currencies = s.graph.now.funding.currencies;
      tickets = s.graph.now.funding.tickets;
      owners = s.graph.now.funding.owners;
      ticket_limit = s.graph.now.ticket_limit;
      currency_limit = s.graph.now.currency_limit;
      thread_limit = s.graph.now.thread_limit;
      unit = s.graph.known.unit;
      quantum = s.queue.quantum;
      processors = length s.runners.items;
      lending = sizes_of s.lending;
      threads = s.threads.items;
      records = s.records.items;
      stale = s.graph.known.stale;
      meter = record { ticket_reads = s.graph.known.reads; tree_visits = s.queue.visits };
    } };

    ghost invariant = { λ s. record {
      together : AreOf (sizes_of s.lending) s.graph s.queue s.threads.items s.records.items s.runners.items;
      thread_room : s.threads.room ≡ s.graph.now.thread_limit;
      record_room : s.records.room ≡ s.graph.now.thread_limit;
    } };
}

impl Threads {
    /// No thread, base alone, free mutexes, and counts of 0. It fails only if out of memory.
    pub fn new(alloc: Global, limits: &Limits) -> Result<Threads, AllocError>
        ensures opening { IfOk result (λ made. made ≡ record {
          currencies = true ∷ [];
          tickets = [];
          owners = replicate (holders (sizes_of limits.now)) None;
          ticket_limit = limits.now.tickets;
          currency_limit = limits.now.currencies;
          thread_limit = limits.now.threads;
          unit = limits.now.unit;
          quantum = limits.now.quantum;
          processors = limits.now.processors;
          lending = sizes_of limits.now;
          threads = [];
          records = [];
          stale = [];
          meter = record { ticket_reads = 0; tree_visits = 0 };
        }) }
    {
        let graph = ValuedGraph::new(alloc, limits)?;
        let queue = RunQueue::new(alloc, limits)?;
        let (threads, records, runners) = opening_tables(
            alloc,
            limits.threads as usize,
            limits.processors as usize,
        )?;
        Ok(Threads {
            graph,
            queue,
            threads,
            records,
            runners,
            lending: *limits,
        })
    }

    /// The number of bytes that `new` requests from the allocator.
    pub fn bytes(limits: &Limits) -> u64
        ensures { result ≡ 40 * limits.now.tickets + 70 * limits.now.currencies + 225 * limits.now.threads
            + 81 * holders (sizes_of limits.now) + 8 * limits.now.processors + 118 }
    {
        ValuedGraph::bytes(limits)
            + RunQueue::bytes(limits)
            + THREAD_BYTES * limits.threads as u64
            + RUNNER_BYTES * limits.processors as u64
    }

    /// The capacity in bytes: always exactly what `new` requested.
    pub fn held(&self) -> u64
        requires few { self.now.processors < 2 ^ 32 }
        ensures { result ≡ 40 * self.now.ticket_limit + 70 * self.now.currency_limit + 225 * self.now.thread_limit
            + 81 * length self.now.owners + 8 * self.now.processors + 118 }
    {
        // Its numbers are below 2^32, so the sum fits.
        let _layout = self.graph.graph().layout();
        self.graph.held()
            + self.queue.held()
            + size_of::<Option<Thread>>() as u64 * self.threads.room() as u64
            + size_of::<Record>() as u64 * self.records.room() as u64
            + RUNNER_BYTES * self.runners.room() as u64
    }

    /// Makes a thread, which is Ready and has no compensation, and returns its number, one more than the last.
    /// Computes no value.
    pub fn add_thread(&mut self, thread: Thread) -> ThreadNumber
        requires room { length self.old.records < self.old.thread_limit }
        ensures number { result.number ≡ length self.old.records + 1 }
        ensures added { self.new ≡ record (with_records self.old
            (self.old.records ++ newborn ∷ []) self.new.stale) { threads = self.old.threads ++ Some thread ∷ [] } }
        ensures kept { (node : ANode) → IsStaleIn self.old node → IsStaleIn self.new node }
        ensures stale { MakesStaleIn self.old self.new }
    {
        self.graph.add_thread();
        let number = self.graph.graph().threads();
        self.graph.set_live(number, true);
        self.queue.set_competitor(number, competitor_of(NEWBORN));
        self.threads.push(Some(thread));
        self.records.push(NEWBORN);
        ThreadNumber { number }
    }

    /// Makes a thread with the number of a removed one. It is Ready, and has won and used nothing. Computes no value.
    pub fn reuse_thread(&mut self, number: ThreadNumber, thread: Thread)
        requires there { IsThreadOf self.old number.number }
        ensures made { self.new ≡ record (with_records self.old
            (set_number self.old.records number.number newborn) self.new.stale) {
              threads = set_number self.old.threads number.number (Some thread);
            } }
        ensures kept { (node : ANode) → IsStaleIn self.old node → IsStaleIn self.new node }
        ensures stale { MakesStaleIn self.old self.new }
    {
        self.change(number, NEWBORN);
        self.threads[index_of(number.number)] = Some(thread);
    }

    /// Removes a thread's name and script, and leaves its record.
    pub fn remove_thread(&mut self, thread: ThreadNumber)
        requires thread { IsThreadOf self.old thread.number }
        ensures { self.new ≡ record self.old { threads = set_number self.old.threads thread.number None } }
    {
        self.threads[index_of(thread.number)] = None;
    }

    /// Makes one change of tickets, currencies or owners, and makes stale the nodes that depend on it. Computes no
    /// value.
    #[inline(always)]
    pub fn apply(&mut self, change: GraphChange)
        requires allowed { CanApply (limited_in self.old) (live_in self.old.records) change }
        requires others { LeavesThreads change }
        ensures applied { self.new ≡ applied_in self.old change self.new.stale }
        ensures stale { StaleByIn change self.old self.new }
    {
        self.graph.apply(change);
    }

    /// Sets a thread's record and updates everything that follows from it: whether the thread is live, its lend, its
    /// part in draws, and its processor. Computes no value.
    #[inline(always)]
    pub fn change(&mut self, thread: ThreadNumber, next: Record)
        requires { CanChange self.old thread.number next }
        ensures changed { self.new ≡ with_records self.old (set_number self.old.records thread.number next)
            self.new.stale }
        ensures kept { (node : ANode) → IsStaleIn self.old node → IsStaleIn self.new node }
        ensures stale { MakesStaleIn self.old self.new }
    {
        let thread = thread.number;
        let place = index_of(thread);
        let before = self.records[place].status;
        let now = next.status;
        follow_status(&mut self.graph, &self.lending, thread, before, now);
        self.queue.set_competitor(thread, competitor_of(next));
        move_runner(&mut self.runners, thread, before, now);
        self.records[place] = next;
    }

    /// Whether a thread may have this record, as `change` requires. It changes nothing.
    pub fn can_change(&mut self, thread: ThreadNumber, next: Record) -> bool
        ensures can { IsTrue result ↔ CanChange self.old thread.number next }
        ensures unchanged { self.new ≡ self.old }
    {
        if !self.can_stand(thread.number, next) {
            return false;
        }
        let lend = lend_of(&self.lending, next.status);
        can_lend(&mut self.graph, thread.number, lend)
    }

    /// Whether a thread may have this record, apart from its lend.
    fn can_stand(&self, thread: u32, next: Record) -> bool
        ensures can { IsTrue result ↔ (IsThreadOf self.now thread × IsTimely self.now.quantum next
            × CanRun self.now thread next.status) }
        ensures within { IsTrue result → thread ≤ self.now.thread_limit }
    {
        is_thread(&self.graph, thread)
            && is_timely(next, self.queue.quantum())
            && self.can_run(thread, next.status)
    }

    /// Whether the thread may have this status: if it runs, the processor exists and no other thread runs there.
    fn can_run(&self, thread: u32, status: Status) -> bool
        ensures { IsTrue result ↔ CanRun self.now thread status }
    {
        let Status::Running { processor, .. } = status else {
            return true;
        };
        if processor == 0 || processor as usize > self.runners.len() {
            return false;
        }
        match runner_on(&self.runners, processor) {
            Some(runner) => runner == thread,
            None => true,
        }
    }

    /// Whether the ticket would make a cycle by funding the target (4.4).
    pub fn would_cycle(&mut self, ticket: TicketNumber, target: Target) -> bool
        requires unfunded { target_of (funding_in self.old) ticket.number ≡ Some Unfunded }
        requires target { IsTarget (funding_in self.old) target }
        ensures cycle { IsTrue result ↔ IsCycle (funding_in self.old) ticket.number target }
        ensures unchanged { self.new ≡ self.old }
    {
        self.graph.would_cycle(ticket.number, target)
    }

    /// Holds a draw with the number `d` among the Ready threads (2, 4.2). Returns `None` if their weights sum to 0.
    /// Settles stale nodes, and visits the tree of weights once.
    pub fn draw(&mut self, d: u128) -> Option<Winner>
        ensures winner { result ≡ drawn_in self.old d }
        ensures settled { self.new ≡ record self.old { stale = []; meter = self.new.meter } }
        ensures ready { IfSome result (λ w. status_of self.old.records w.thread ≡ Some Ready) }
        ensures once { HasNoneTwice self.old.stale }
        ensures reads { self.new.meter.ticket_reads
            ≡ counted_up self.old.meter.ticket_reads (edges_into_all (funding_in self.old) self.old.stale) }
        ensures visits { MatchOption result (self.new.meter.tree_visits ≡ self.old.meter.tree_visits)
            (λ w. CountsReads self.old.thread_limit self.old.meter.tree_visits self.new.meter.tree_visits) }
    {
        self.queue.draw(&mut self.graph, d)
    }

    /// Recomputes the values of all stale nodes. Counts each edge into a stale node once.
    pub fn settle(&mut self)
        ensures settled { self.new ≡ settled_in self.old }
        ensures once { HasNoneTwice self.old.stale }
    {
        self.queue.settle(&mut self.graph);
    }

    /// The meter: the tickets, lends and owners read to compute values, and the places visited in the tree of weights.
    pub fn meter(&self) -> Meter
        ensures { result ≡ self.now.meter }
    {
        Meter {
            ticket_reads: self.graph.reads(),
            tree_visits: self.queue.visits(),
        }
    }

    /// The tickets, lends and owners, read-only.
    pub fn graph(&self) -> &Graph
        ensures { result.now ≡ limited_in self.now }
    {
        self.graph.graph()
    }

    /// Whether a ticket is active (4.4): its target is backed.
    pub fn is_active(&self, ticket: TicketNumber) -> bool
        ensures { IsTrue result ↔ IsActive (funding_in self.now) (live_in self.now.records) ticket.number }
    {
        self.graph.is_active(ticket.number)
    }

    /// The sum of the amounts of the active tickets of a currency (4.4), in tickets of the currency.
    pub fn active_amount(&self, currency: CurrencyNumber) -> u64
        requires currency { currency.number ≤ self.now.currency_limit }
        ensures { result ≡ active_amount (funding_in self.now) (live_in self.now.records) currency.number }
    {
        self.graph.active_amount(currency.number)
    }

    /// A node's value (4.4), if it isn't stale.
    pub fn value_of(&self, node: Node) -> u64
        requires node { IsNodeOf (limited_in self.now) node }
        ensures worth { ¬ IsStaleIn self.now node → HasEquation (funding_in self.now) node
            → result ≡ node_value self.now.unit (funding_in self.now) (live_in self.now.records) node }
    {
        self.graph.value_of(node)
    }

    /// A thread's value (4.4, 4.6, 6.1), in base units, if it isn't stale.
    pub fn worth_of(&self, thread: ThreadNumber) -> u64
        requires thread { IsThreadOf self.now thread.number }
        requires fresh { ¬ IsStaleIn self.now (ThreadNode thread.number) }
        ensures { result ≡ worth_in self.now thread.number }
    {
        self.graph.value_of(Node::Thread(thread.number))
    }

    /// A ticket's value (4.4), in base units, if its issuer isn't stale. It counts one read of a ticket that funds
    /// something. A ticket that funds nothing is worth 0.
    pub fn ticket_value(&mut self, ticket: TicketNumber) -> u64
        requires fresh { (t : ATicket) → ticket_at (funding_in self.old) ticket.number ≡ Some t
            → ¬ IsStaleIn self.old (CurrencyNode t.issuer) }
        ensures worth { (t : ATicket) → ticket_at (funding_in self.old) ticket.number ≡ Some t
            → result ≡ ticket_value self.old.unit (funding_in self.old) (live_in self.old.records) t }
        ensures counted { IsFunding (funding_in self.old) ticket.number
            → self.new ≡ record self.old {
              meter = record self.old.meter {
                ticket_reads = counted_up self.old.meter.ticket_reads 1;
              };
            } }
        ensures uncounted { ¬ IsFunding (funding_in self.old) ticket.number → self.new ≡ self.old }
    {
        self.graph.ticket_value(ticket.number)
    }

    /// A ticket's value (4.4), in base units, if nothing is stale. A ticket that funds nothing is worth 0. It counts no
    /// read.
    pub fn settled_ticket_value(&self, ticket: TicketNumber) -> u64
        requires settled { self.now.stale ≡ [] }
        ensures { (t : ATicket) → ticket_at (funding_in self.now) ticket.number ≡ Some t
            → result ≡ ticket_value self.now.unit (funding_in self.now) (live_in self.now.records) t }
    {
        self.graph.settled_ticket_value(ticket.number)
    }

    /// Whether no node is stale.
    pub fn is_settled(&self) -> bool
        ensures { IsTrue result ↔ (self.now.stale ≡ []) }
    {
        self.graph.is_settled()
    }

    /// Whether a node is stale: its cached value must be recomputed before use.
    pub fn is_stale(&self, node: Node) -> bool
        requires node { IsNodeOf (limited_in self.now) node }
        ensures { IsTrue result ↔ IsStaleIn self.now node }
    {
        self.graph.is_stale(node)
    }

    /// Whether a path of edges, perhaps empty, leads from one node to another.
    pub fn reaches(&mut self, from: Node, to: Node) -> bool
        requires from { IsNodeOf (limited_in self.old) from }
        requires to { IsNodeOf (limited_in self.old) to }
        ensures reaches { IsTrue result ↔ Reaches (funding_in self.old) from to }
        ensures unchanged { self.new ≡ self.old }
    {
        self.graph.reaches(from, to)
    }

    /// Each thread's name and script, thread 1 first; `None` for a removed thread.
    pub fn threads(&self) -> &[Option<Thread>]
        ensures { result.now ≡ self.now.threads }
    {
        &self.threads
    }

    /// Each thread's record, thread 1 first.
    pub fn records(&self) -> &[Record]
        ensures { result.now ≡ self.now.records }
    {
        &self.records
    }

    /// A thread's record, or `None` if and only if there is no such thread.
    pub fn record(&self, thread: ThreadNumber) -> Option<Record>
        ensures record { result ≡ at_number self.now.records thread.number }
        ensures timely { IfSome result (IsTimely self.now.quantum) }
    {
        if thread.number == 0 {
            return None;
        }
        self.records.get(index_of(thread.number)).copied()
    }

    /// Whether a thread is live: Ready or Running.
    pub fn is_live(&self, thread: ThreadNumber) -> bool
        ensures { IsTrue result ↔ IsLiveIn self.now thread.number }
    {
        match self.record(thread) {
            Some(found) => is_live(found.status),
            None => false,
        }
    }

    /// The thread that runs on the processor with the ticks of its quantum used, or `None` if and only if no thread
    /// runs there.
    pub fn runner(&self, processor: Processor) -> Option<Runner>
        ensures thread { MatchOption result (thread_on self.now.records processor.number ≡ None)
            (λ r. thread_on self.now.records processor.number ≡ Some r.thread.number) }
        ensures used { IfSome result (λ r. used_by self.now.records processor.number r.thread.number ≡ Some r.used) }
        ensures there { IfSome result (λ r. IsThreadOf self.now r.thread.number) }
        ensures below { IfSome result (λ r. r.used < self.now.quantum) }
    {
        let Some(number) = runner_on(&self.runners, processor.number) else {
            return None;
        };
        let status = self.records[index_of(number)].status;
        let Status::Running { used, .. } = status else {
            unreachable!()
        };
        Some(Runner {
            thread: ThreadNumber { number },
            used,
        })
    }
}

/// The tables at the start: no threads, no records, and idle processors, with capacity for the largest number of
/// threads.
fn opening_tables(
    alloc: Global,
    threads: usize,
    processors: usize,
) -> Result<(Stack<Option<Thread>>, Stack<Record>, Kept<Option<u32>>), AllocError>
    ensures no_threads { IfOk result (λ made. made.0.items ≡ []) }
    ensures thread_room { IfOk result (λ made. made.0.room ≡ threads) }
    ensures no_records { IfOk result (λ made. made.1.items ≡ []) }
    ensures record_room { IfOk result (λ made. made.1.room ≡ threads) }
    ensures free { IfOk result (λ made. made.2.items ≡ replicate processors None) }
{
    let names = Stack::new(alloc, threads)?;
    let records = Stack::new(alloc, threads)?;
    let runners = Kept::filled(alloc, None, processors)?;
    Ok((names, records, runners))
}
