//! Waits for a mutex that would close a cycle of lends (4.6, 6.1).
ghost use Rattle.std.specs.Prelude.{◌≡◌, ◌≢◌, ℕ, ◌+◌, ◌-◌, ◌<◌, ◌≤◌, Some, None, [], length};
ghost use Rattle.std.specs.List.{range_with_len};
ghost use Rattle.lot_machine.specs.declared.funding.Node.{Node as ANode};
ghost use Rattle.lot_machine.specs.Facts.{HasNoCycle};
ghost use Rattle.lot_machine.specs.Funding.{owner_of};
ghost use Rattle.lot_machine.specs.Lends as lends;
ghost use Rattle.lot_machine.specs.Mutexes.{mutex_at};
ghost use Rattle.lot_machine.specs.Order.{IsInOrder};
ghost use Rattle.lot_machine.specs.Servers.{before_lock, port_holders, unserved, without_servers};
ghost use Rattle.lot_machine.specs.State.{funding_of};
ghost use Rattle.lot_queues.specs.QueueLists.{IsThere};
ghost use Rattle.lot_mutex.specs.Listed.{owners_of};
ghost use Rattle.lot_threads.specs.Threaded.{IsStaleIn, IsThreadOf, MakesStaleIn, funding_in};
ghost use Rattle.lot_kernel.specs.Counted.{KeepsStale};
ghost use Rattle.lot_kernel.specs.Snapshots.{MakesStale};
ghost use Rattle.lot_kernel.specs.Trapped.{IsRunning};

use crate::leads::{does_lead, lends_lead};
use crate::tables::Tables;
use lot_machine::{Lend, MutexNumber, ThreadNumber};
use lot_queues::Queues;
use lot_threads::Threads;
use lot_value::GraphChange;

impl Tables {
    /// Whether a chain of one lend or more that passes no port leads from the owner of a mutex to a running thread. It
    /// changes nothing.
    pub(super) fn is_lock_cycle(&mut self, owner: ThreadNumber, thread: ThreadNumber) -> bool
        requires order { IsInOrder self.old.state }
        requires runs { IsRunning self.old.state.records thread.number }
        requires other { owner.number ≢ thread.number }
        ensures leads { result ≡ lends.lends_on_to (without_servers self.old.state) owner.number thread.number }
        ensures unchanged { self.new ≡ self.old }
    {
        if !lends_lead(&mut self.threads, owner, thread) {
            return false;
        }
        !self.limits.queued_lend || self.leads_past_ports(owner, thread)
    }

    /// Whether a chain of lends, perhaps empty, leads from the lender to the thread and passes no port.
    fn leads_past_ports(&self, lender: ThreadNumber, thread: ThreadNumber) -> bool
        ensures { result ≡ lends.lends_lead (without_servers self.now.state) lender.number thread.number }
    {
        let mut current = lender.number;
        for _ in 0..self.threads.graph().threads() {
            if current == thread.number {
                return true;
            }
            let Some(next) = self.borrower_past_ports(current) else {
                return false;
            };
            current = next;
        }
        current == thread.number
    }

    /// The thread to which a thread lends, or `None` if it lends to nobody or to a port.
    fn borrower_past_ports(&self, lender: u32) -> Option<u32>
        ensures { result ≡ lends.borrower_of (without_servers self.now.state) lender }
    {
        match self.threads.graph().lend_of(lender)? {
            Lend::Nobody => None,
            Lend::ToThread(server) => Some(server),
            Lend::ToMutex(mutex) => self.owner_past_ports(mutex),
        }
    }

    /// The owner of a mutex; `None` if it is free, doesn't exist, or is the holder of a port's server.
    fn owner_past_ports(&self, mutex: u32) -> Option<u32>
        ensures { result ≡ owner_of (without_servers self.now.state) mutex }
    {
        if mutex > self.limits.mutexes {
            return None;
        }
        self.threads.graph().owner(mutex)
    }

    /// Prepares the lock of a running thread: if its wait would close a cycle of lends, each port from whose server
    /// lends lead to the thread loses that server. It does nothing without `queued_lend`.
    pub(super) fn cut_before_lock(&mut self, thread: ThreadNumber, mutex: MutexNumber)
        requires order { IsInOrder self.old.state }
        requires runs { IsRunning self.old.state.records thread.number }
        requires there { IsThere self.old.state.mutexes mutex.number }
        requires other { (mutex_at self.old.state.mutexes mutex.number).owner ≢ Some thread.number }
        ensures state { self.new.state ≡ record self.old.state {
          mutexes = before_lock self.old.state thread.number mutex.number;
        } }
        ensures stale { MakesStale self.old self.new }
        ensures kept { KeepsStale self.old self.new }
        ensures meter { self.new.meter ≡ self.old.meter }
    {
        if !self.limits.queued_lend {
            return;
        }
        let owner = self.queues.owner(mutex.number);
        if does_lead(&mut self.threads, owner, thread) {
            self.cut_servers(thread);
        }
    }

    /// Clears the server of each port from whose server lends lead to the thread.
    fn cut_servers(&mut self, thread: ThreadNumber)
        requires thread { IsThere self.old.state.records thread.number }
        requires no_cycle { HasNoCycle (funding_of self.old.state) }
        ensures state { self.new.state ≡ record self.old.state {
          mutexes = unserved (λ t. lends.lends_lead (funding_of self.old.state) t thread.number)
              self.old.state.mutexes (port_holders self.old.state.limits);
        } }
        ensures stale { MakesStale self.old self.new }
        ensures kept { KeepsStale self.old self.new }
        ensures meter { self.new.meter ≡ self.old.meter }
    {
        free_leading(
            &mut self.threads,
            &mut self.queues,
            self.limits.mutexes,
            thread,
        );
        follow_owners(&mut self.threads, &self.queues);
    }
}

/// Frees, in the queues alone, each holder above number `first` from whose owner lends lead to the thread. `threads`
/// keeps the owners meanwhile: each may be a link in the chain of another.
fn free_leading(threads: &mut Threads, queues: &mut Queues, first: u32, thread: ThreadNumber)
    requires thread { IsThreadOf threads.old thread.number }
    requires few { length threads.old.records ≤ threads.old.thread_limit }
    requires no_cycle { HasNoCycle (funding_in threads.old) }
    requires unwaited { (m : ℕ) → first < m → (mutex_at queues.old.mutexes m).waiters ≡ [] }
    ensures queues { queues.new ≡ record queues.old {
      mutexes = unserved (λ t. lends.lends_lead (funding_in threads.old) t thread.number)
          queues.old.mutexes (range_with_len (first + 1) (length queues.old.mutexes - first));
    } }
    ensures threads { threads.new ≡ threads.old }
{
    for place in first..queues.mutexes() {
        let owner = queues.owner(place + 1);
        if does_lead(threads, owner, thread) {
            queues.set_owner(place + 1, None);
        }
    }
}

/// Frees in `threads` each mutex that is free in the queues. Any other has the same owner in both.
fn follow_owners(threads: &mut Threads, queues: &Queues)
    requires count { length threads.old.owners ≡ length queues.now.mutexes }
    requires left { (m : ℕ) → (mutex_at queues.now.mutexes m).owner ≢ None
        → owner_of (funding_in threads.old) m ≡ (mutex_at queues.now.mutexes m).owner }
    ensures threads { threads.new ≡ record threads.old {
      owners = owners_of queues.now.mutexes;
      stale = threads.new.stale;
    } }
    ensures kept { (node : ANode) → IsStaleIn threads.old node → IsStaleIn threads.new node }
    ensures stale { MakesStaleIn threads.old threads.new }
{
    for place in 0..queues.mutexes() {
        if queues.owner(place + 1).is_none() {
            threads.apply(GraphChange::PutOwner(place + 1, None));
        }
    }
}
