//! The server of a port, in a kernel whose queued calls lend (4.6).
ghost use Rattle.std.specs.Prelude.{◌≡◌, ◌≢◌, ◌<◌, ◌==◌, IfSome, true};
ghost use Rattle.lot_machine.specs.declared.funding.Node.{Node as ANode};
ghost use Rattle.lot_machine.specs.declared.reply.Outcome.TheVariants as outcomes;
ghost use Rattle.lot_machine.specs.Facts.{HasNoCycle};
ghost use Rattle.lot_machine.specs.Funding.{owner_of};
ghost use Rattle.lot_machine.specs.Lends.{IsLive};
ghost use Rattle.lot_machine.specs.Numbered.{set_number};
ghost use Rattle.lot_machine.specs.Servers.{held_by, left_by, served_at, unserved_at};
ghost use Rattle.lot_machine.specs.State.{funding_of, live_of};
ghost use Rattle.lot_graph.specs.Graphs.{IsMutex};
ghost use Rattle.lot_queues.specs.QueueLists.{IsThere};
ghost use Rattle.lot_threads.specs.Threaded.{IsLiveIn, IsStaleIn, MakesStaleIn, funding_in};
ghost use Rattle.lot_kernel.specs.Counted.{KeepsStale};
ghost use Rattle.lot_kernel.specs.Snapshots.{MakesStale};
ghost use Rattle.lot_kernel.specs.Trapped.{taker};

use crate::leads::does_lead;
use crate::tables::Tables;
use lot_machine::{Outcome, PortNumber, ThreadNumber};
use lot_threads::Threads;
use lot_value::GraphChange;

impl Tables {
    /// Records the port's server after a thread's trap there with this outcome: the thread that took the call. A port
    /// loses its server if a queued call would lend to its own caller. It does nothing without `queued_lend`.
    #[inline(always)]
    pub(super) fn note_server(&mut self, thread: ThreadNumber, port: PortNumber, outcome: Outcome)
        requires port { IsThere self.old.state.ports port.number }
        requires thread { IsThere self.old.state.records thread.number }
        requires live { IfSome (taker thread.number outcome) (IsLive (live_of self.old.state)) }
        requires no_cycle { outcome ≡ outcomes.Queued → HasNoCycle (funding_of self.old.state) }
        ensures state { self.new.state ≡ record self.old.state {
          mutexes = served_at self.old.state thread.number port.number outcome;
        } }
        ensures stale { MakesStale self.old self.new }
        ensures kept { KeepsStale self.old self.new }
        ensures meter { self.new.meter ≡ self.old.meter }
    {
        if !self.limits.queued_lend {
            return;
        }
        self.move_server(thread, port, outcome);
    }

    /// Records the port's server, with `queued_lend`.
    fn move_server(&mut self, thread: ThreadNumber, port: PortNumber, outcome: Outcome)
        requires lends { self.old.state.limits.queued_lend ≡ true }
        requires port { IsThere self.old.state.ports port.number }
        requires thread { IsThere self.old.state.records thread.number }
        requires live { IfSome (taker thread.number outcome) (IsLive (live_of self.old.state)) }
        requires no_cycle { outcome ≡ outcomes.Queued → HasNoCycle (funding_of self.old.state) }
        ensures state { self.new.state ≡ record self.old.state {
          mutexes = served_at self.old.state thread.number port.number outcome;
        } }
        ensures stale { MakesStale self.old self.new }
        ensures kept { KeepsStale self.old self.new }
        ensures meter { self.new.meter ≡ self.old.meter }
    {
        let holder = self.limits.mutexes + port.number;
        match outcome {
            Outcome::ServedBy(server) => self.set_server(holder, Some(server)),
            Outcome::Received { .. } | Outcome::RepliedThenReceived { .. } => {
                self.set_server(holder, Some(thread.number));
            }
            Outcome::Queued => {
                let server = self.queues.owner(holder);
                if does_lead(&mut self.threads, server, thread) {
                    self.set_server(holder, None);
                }
            }
            _ => {}
        }
    }

    /// Clears the server of each port that the thread serves. It does nothing without `queued_lend`.
    pub(super) fn leave_ports(&mut self, thread: ThreadNumber)
        ensures state { self.new.state ≡ record self.old.state { mutexes = left_by self.old.state thread.number } }
        ensures stale { MakesStale self.old self.new }
        ensures kept { KeepsStale self.old self.new }
        ensures meter { self.new.meter ≡ self.old.meter }
    {
        for place in self.limits.mutexes..self.queues.mutexes() {
            self.leave_port(place + 1, thread);
        }
    }

    /// Clears the server of the port with this holder, if the thread is its server.
    fn leave_port(&mut self, holder: u32, thread: ThreadNumber)
        requires holder { self.old.state.limits.mutexes < holder }
        requires there { IsThere self.old.state.mutexes holder }
        ensures state { self.new.state ≡ record self.old.state {
          mutexes = unserved_at (λ server. server == thread.number) self.old.state.mutexes holder;
        } }
        ensures stale { MakesStale self.old self.new }
        ensures kept { KeepsStale self.old self.new }
        ensures meter { self.new.meter ≡ self.old.meter }
    {
        if self.queues.owner(holder) == Some(thread.number) {
            self.set_server(holder, None);
        }
    }

    /// Sets the server of the port with this holder to a live thread, or clears it.
    fn set_server(&mut self, holder: u32, server: Option<u32>)
        requires holder { self.old.state.limits.mutexes < holder }
        requires there { IsThere self.old.state.mutexes holder }
        requires live { IfSome server (IsLive (live_of self.old.state)) }
        ensures state { self.new.state ≡ record self.old.state {
          mutexes = set_number self.old.state.mutexes holder (held_by server);
        } }
        ensures stale { MakesStale self.old self.new }
        ensures kept { KeepsStale self.old self.new }
        ensures meter { self.new.meter ≡ self.old.meter }
    {
        if self.queues.owner(holder) == server {
            return;
        }
        self.queues.set_owner(holder, server);
        replace_owner(&mut self.threads, holder, server);
    }
}

/// Sets the owner of a mutex to a live thread, or frees the mutex.
fn replace_owner(threads: &mut Threads, mutex: u32, owner: Option<u32>)
    requires mutex { IsMutex (funding_in threads.old) mutex }
    requires other { owner_of (funding_in threads.old) mutex ≢ owner }
    requires live { IfSome owner (IsLiveIn threads.old) }
    ensures threads { threads.new ≡ record threads.old {
      owners = set_number threads.old.owners mutex owner;
      stale = threads.new.stale;
    } }
    ensures kept { (node : ANode) → IsStaleIn threads.old node → IsStaleIn threads.new node }
    ensures stale { MakesStaleIn threads.old threads.new }
{
    threads.apply(GraphChange::PutOwner(mutex, None));
    let Some(next) = owner else {
        return;
    };
    threads.apply(GraphChange::PutOwner(mutex, Some(next)));
}
