//! The effects of traps: yields, calls, receives, replies, serves, locks, unlocks, sleeps and exits (3.4, 4.5, 4.6,
//! 6.1).
ghost use Rattle.std.specs.Prelude.{◌≡◌, ◌≤◌, is_none, not, true};
ghost use Rattle.lot_machine.specs.declared.trap.Trap.TheVariants as action;
ghost use Rattle.lot_machine.specs.declared.after.After.TheVariants.{GoesOn};
ghost use Rattle.lot_machine.specs.declared.reply.Outcome.TheVariants.{Refused};
ghost use Rattle.lot_machine.specs.Numbered.{at_number};
ghost use Rattle.lot_machine.specs.Order.{IsInOrder};
ghost use Rattle.lot_machine.specs.Step.{is_no_mutex, trap_refusal};
ghost use Rattle.lot_queues.specs.QueueLists.{IsThere};
ghost use Rattle.lot_kernel.specs.Counted.{CountsTrap, KeepsStale};
ghost use Rattle.lot_kernel.specs.Snapshots.{MakesStale};
ghost use Rattle.lot_kernel.specs.Trapped.{IsRunning, effect_of};

use crate::tables::Tables;
use lot_machine::{
    Action, After, MutexNumber, Outcome, PortNumber, Status, ThreadNumber, TrapRefusal,
};
use lot_threads::TrapEffect;

impl Tables {
    /// Does the work of a running thread's trap and returns its effect. A refused trap does nothing.
    pub(super) fn act(&mut self, thread: ThreadNumber, action: &Action) -> TrapEffect
        requires order { IsInOrder self.old.state }
        requires runs { IsRunning self.old.state.records thread.number }
        ensures outcome { result.outcome ≡ (effect_of self.old.state thread.number action.now).outcome }
        ensures after { result.after ≡ (effect_of self.old.state thread.number action.now).after }
        ensures state { self.new.state ≡ (effect_of self.old.state thread.number action.now).state }
        ensures stale { MakesStale self.old self.new }
        ensures counts { CountsTrap action.now result.outcome self.old self.new }
    {
        match *action {
            Action::Yield => TrapEffect {
                outcome: Outcome::Yielded,
                after: After::Leaves(Status::Ready),
            },
            Action::Call(port, sent) => self.call(thread, PortNumber { number: port }, sent),
            Action::Receive(port) => self.receive(thread, PortNumber { number: port }),
            Action::Reply(number) => self.reply(thread, number),
            Action::Serve(port, sent) => self.serve(thread, PortNumber { number: port }, sent),
            Action::Lock(mutex) => self.lock(thread, MutexNumber { number: mutex }),
            Action::Unlock(mutex, d) => self.unlock(thread, MutexNumber { number: mutex }, d),
            Action::Sleep(_) => TrapEffect {
                outcome: Outcome::Slept,
                after: After::Leaves(Status::Asleep),
            },
            Action::Exit => {
                self.leave_ports(thread);
                TrapEffect {
                    outcome: Outcome::Exited,
                    after: After::Ends,
                }
            }
        }
    }

    fn call(&mut self, thread: ThreadNumber, port: PortNumber, number: u32) -> TrapEffect
        requires order { IsInOrder self.old.state }
        requires runs { IsRunning self.old.state.records thread.number }
        ensures outcome { result.outcome
            ≡ (effect_of self.old.state thread.number (action.Call port.number number)).outcome }
        ensures after { result.after ≡ (effect_of self.old.state thread.number (action.Call port.number number)).after }
        ensures state { self.new.state
            ≡ (effect_of self.old.state thread.number (action.Call port.number number)).state }
        ensures stale { MakesStale self.old self.new }
        ensures kept { KeepsStale self.old self.new }
        ensures meter { self.new.meter ≡ self.old.meter }
    {
        if !self.has_port(port) {
            return refused(TrapRefusal::NoPort);
        }
        let effect = lot_ports::call(&mut self.threads, &mut self.queues, thread, port, number);
        self.note_server(thread, port, effect.outcome);
        effect
    }

    fn receive(&mut self, thread: ThreadNumber, port: PortNumber) -> TrapEffect
        requires order { IsInOrder self.old.state }
        requires runs { IsRunning self.old.state.records thread.number }
        ensures outcome { result.outcome
            ≡ (effect_of self.old.state thread.number (action.Receive port.number)).outcome }
        ensures after { result.after ≡ (effect_of self.old.state thread.number (action.Receive port.number)).after }
        ensures state { self.new.state ≡ (effect_of self.old.state thread.number (action.Receive port.number)).state }
        ensures stale { MakesStale self.old self.new }
        ensures kept { KeepsStale self.old self.new }
        ensures meter { self.new.meter ≡ self.old.meter }
    {
        if !self.has_port(port) {
            return refused(TrapRefusal::NoPort);
        }
        let effect = lot_ports::receive(&mut self.threads, &mut self.queues, thread, port);
        self.note_server(thread, port, effect.outcome);
        effect
    }

    fn reply(&mut self, thread: ThreadNumber, number: u32) -> TrapEffect
        requires runs { IsRunning self.old.state.records thread.number }
        ensures outcome { result.outcome ≡ (effect_of self.old.state thread.number (action.Reply number)).outcome }
        ensures after { result.after ≡ (effect_of self.old.state thread.number (action.Reply number)).after }
        ensures state { self.new.state ≡ (effect_of self.old.state thread.number (action.Reply number)).state }
        ensures stale { MakesStale self.old self.new }
        ensures kept { KeepsStale self.old self.new }
        ensures meter { self.new.meter ≡ self.old.meter }
    {
        let Some(client) = self.queues.first_client(thread.number) else {
            return refused(TrapRefusal::NothingToReply);
        };
        let client = ThreadNumber { number: client };
        lot_ports::reply(&mut self.threads, &mut self.queues, thread, client, number)
    }

    fn serve(&mut self, thread: ThreadNumber, port: PortNumber, number: u32) -> TrapEffect
        requires order { IsInOrder self.old.state }
        requires runs { IsRunning self.old.state.records thread.number }
        ensures outcome { result.outcome
            ≡ (effect_of self.old.state thread.number (action.Serve port.number number)).outcome }
        ensures after { result.after
            ≡ (effect_of self.old.state thread.number (action.Serve port.number number)).after }
        ensures state { self.new.state
            ≡ (effect_of self.old.state thread.number (action.Serve port.number number)).state }
        ensures stale { MakesStale self.old self.new }
        ensures kept { KeepsStale self.old self.new }
        ensures meter { self.new.meter ≡ self.old.meter }
    {
        if !self.has_port(port) {
            return refused(TrapRefusal::NoPort);
        }
        let Some(client) = self.queues.first_client(thread.number) else {
            return refused(TrapRefusal::NothingToReply);
        };
        let effect = lot_ports::serve(
            &mut self.threads,
            &mut self.queues,
            thread,
            ThreadNumber { number: client },
            port,
            number,
        );
        self.note_server(thread, port, effect.outcome);
        effect
    }

    fn lock(&mut self, thread: ThreadNumber, mutex: MutexNumber) -> TrapEffect
        requires order { IsInOrder self.old.state }
        requires runs { IsRunning self.old.state.records thread.number }
        ensures outcome { result.outcome ≡ (effect_of self.old.state thread.number (action.Lock mutex.number)).outcome }
        ensures after { result.after ≡ (effect_of self.old.state thread.number (action.Lock mutex.number)).after }
        ensures state { self.new.state ≡ (effect_of self.old.state thread.number (action.Lock mutex.number)).state }
        ensures stale { MakesStale self.old self.new }
        ensures kept { KeepsStale self.old self.new }
        ensures meter { self.new.meter ≡ self.old.meter }
    {
        if let Some(refusal) = self.lock_refusal(thread, mutex) {
            return refused(refusal);
        }
        self.cut_before_lock(thread, mutex);
        lot_mutex::lock(&mut self.threads, &mut self.queues, thread, mutex)
    }

    /// The reason why a thread can't lock a mutex, if there is one. It changes nothing.
    fn lock_refusal(&mut self, thread: ThreadNumber, mutex: MutexNumber) -> Option<TrapRefusal>
        requires order { IsInOrder self.old.state }
        requires runs { IsRunning self.old.state.records thread.number }
        ensures refusal { result ≡ trap_refusal self.old.state thread.number (action.Lock mutex.number) }
        ensures unchanged { self.new ≡ self.old }
    {
        if !self.has_mutex(mutex) {
            return Some(TrapRefusal::NoMutex);
        }
        let owner = self.queues.owner(mutex.number)?;
        if owner == thread.number {
            return Some(TrapRefusal::AlreadyOwner);
        }
        if self.is_lock_cycle(ThreadNumber { number: owner }, thread) {
            return Some(TrapRefusal::LockCycle);
        }
        None
    }

    fn unlock(&mut self, thread: ThreadNumber, mutex: MutexNumber, d: u128) -> TrapEffect
        requires order { IsInOrder self.old.state }
        requires runs { IsRunning self.old.state.records thread.number }
        ensures outcome { result.outcome
            ≡ (effect_of self.old.state thread.number (action.Unlock mutex.number d)).outcome }
        ensures after { result.after ≡ (effect_of self.old.state thread.number (action.Unlock mutex.number d)).after }
        ensures state { self.new.state ≡ (effect_of self.old.state thread.number (action.Unlock mutex.number d)).state }
        ensures stale { MakesStale self.old self.new }
        ensures counts { CountsTrap (action.Unlock mutex.number d) result.outcome self.old self.new }
    {
        if !self.has_mutex(mutex) {
            return refused(TrapRefusal::NoMutex);
        }
        if self.queues.owner(mutex.number) != Some(thread.number) {
            return refused(TrapRefusal::NotOwner);
        }
        lot_mutex::unlock(
            &mut self.threads,
            &mut self.queues,
            &mut self.lottery,
            thread,
            mutex,
            d,
        )
    }

    fn has_port(&self, port: PortNumber) -> bool
        ensures missing { is_none (at_number self.now.state.ports port.number) ≡ not result }
        ensures there { result ≡ true → IsThere self.now.state.ports port.number }
    {
        0 < port.number && port.number <= self.queues.ports()
    }

    fn has_mutex(&self, mutex: MutexNumber) -> bool
        ensures missing { is_no_mutex self.now.state mutex.number ≡ not result }
        ensures there { result ≡ true → IsThere self.now.state.mutexes mutex.number }
        ensures within { result ≡ true → mutex.number ≤ self.now.state.limits.mutexes }
    {
        0 < mutex.number && mutex.number <= self.limits.mutexes
    }
}

/// The effect of a refused trap: nothing happens, and its thread goes on.
fn refused(refusal: TrapRefusal) -> TrapEffect
    ensures outcome { result.outcome ≡ Refused refusal }
    ensures after { result.after ≡ GoesOn }
{
    TrapEffect {
        outcome: Outcome::Refused(refusal),
        after: After::GoesOn,
    }
}
