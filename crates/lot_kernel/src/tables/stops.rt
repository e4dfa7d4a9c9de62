//! Events that end a thread's run without a trap, ends of killed threads, and wakes of sleepers (3.4, 4.2, 4.4).
ghost use Rattle.std.specs.Prelude.{◌≡◌, ◌<◌, ◌≤◌, IfSome, length};
ghost use Rattle.lot_machine.specs.declared.event.Event.TheVariants as event;
ghost use Rattle.lot_machine.specs.Kill.{killed};
ghost use Rattle.lot_machine.specs.Numbered.{option_any};
ghost use Rattle.lot_machine.specs.Order.{IsInOrder};
ghost use Rattle.lot_machine.specs.State as states;
ghost use Rattle.lot_machine.specs.Step.{step, stopped};
ghost use Rattle.lot_kernel.specs.Counted.{KeepsStale};
ghost use Rattle.lot_kernel.specs.Snapshots.{MakesStale};

use crate::ending::compensation_for;
use crate::tables::Tables;
use lot_machine::{Processor, Refusal, Reply, Status, ThreadNumber};

impl Tables {
    /// Ends the quantum on a processor.
    pub(super) fn expire(&mut self, processor: Processor, reply: &mut Reply)
        ensures reply { reply.new ≡ (step self.old.state (event.Expire processor.number)).reply }
        ensures state { self.new.state ≡ (step self.old.state (event.Expire processor.number)).state }
        ensures stale { MakesStale self.old self.new }
        ensures kept { KeepsStale self.old self.new }
        ensures meter { self.new.meter ≡ self.old.meter }
    {
        if self.is_bad_processor(processor) {
            *reply = Reply::Refused(Refusal::BadProcessor);
            return;
        }
        let Some(runner) = self.threads.runner(processor) else {
            *reply = Reply::Refused(Refusal::NotRunning);
            return;
        };
        let ticks = self.limits.quantum - runner.used;
        self.stop(runner.thread, ticks, None, reply);
    }

    /// Preempts a processor's thread after `ticks` further ticks, which fit its quantum.
    pub(super) fn preempt(&mut self, processor: Processor, ticks: u32, reply: &mut Reply)
        ensures reply { reply.new ≡ (step self.old.state (event.Preempt processor.number ticks)).reply }
        ensures state { self.new.state ≡ (step self.old.state (event.Preempt processor.number ticks)).state }
        ensures stale { MakesStale self.old self.new }
        ensures kept { KeepsStale self.old self.new }
        ensures meter { self.new.meter ≡ self.old.meter }
    {
        if self.is_bad_processor(processor) {
            *reply = Reply::Refused(Refusal::BadProcessor);
            return;
        }
        let Some(runner) = self.threads.runner(processor) else {
            *reply = Reply::Refused(Refusal::NotRunning);
            return;
        };
        if u64::from(runner.used) + u64::from(ticks) > u64::from(self.limits.quantum) {
            *reply = Reply::Refused(Refusal::BadTicks);
            return;
        }
        self.stop(runner.thread, ticks, None, reply);
    }

    /// Ends the quantum on a processor `late` ticks late. The thread's compensation is the ticks used.
    pub(super) fn overrun(&mut self, processor: Processor, late: u32, reply: &mut Reply)
        ensures reply { reply.new ≡ (step self.old.state (event.Overrun processor.number late)).reply }
        ensures state { self.new.state ≡ (step self.old.state (event.Overrun processor.number late)).state }
        ensures stale { MakesStale self.old self.new }
        ensures kept { KeepsStale self.old self.new }
        ensures meter { self.new.meter ≡ self.old.meter }
    {
        if self.is_bad_processor(processor) {
            *reply = Reply::Refused(Refusal::BadProcessor);
            return;
        }
        let Some(runner) = self.threads.runner(processor) else {
            *reply = Reply::Refused(Refusal::NotRunning);
            return;
        };
        let Some(used) = self.limits.quantum.checked_add(late) else {
            *reply = Reply::Refused(Refusal::BadTicks);
            return;
        };
        let compensation = compensation_for(&self.limits, used);
        self.stop(runner.thread, used - runner.used, compensation, reply);
    }

    /// Makes a running thread Ready with this compensation, after `ticks` further ticks.
    #[inline(always)]
    fn stop(
        &mut self,
        thread: ThreadNumber,
        ticks: u32,
        compensation: Option<u32>,
        reply: &mut Reply,
    )
        requires there { (0 < thread.number) × (thread.number ≤ length self.old.state.records) }
        requires some { IfSome compensation (λ used. 0 < used) }
        ensures reply { reply.new ≡ (stopped self.old.state thread.number ticks compensation).reply }
        ensures state { self.new.state ≡ (stopped self.old.state thread.number ticks compensation).state }
        ensures stale { MakesStale self.old self.new }
        ensures kept { KeepsStale self.old self.new }
        ensures meter { self.new.meter ≡ self.old.meter }
    {
        self.threads.stop(thread, ticks, compensation);
        *reply = Reply::Expired {
            thread: thread.number,
            ticks,
        };
    }

    /// Ends a thread in any status. Its clients' waits end, and each of its mutexes passes to the thread that has
    /// waited longest.
    pub(super) fn end(&mut self, thread: ThreadNumber)
        requires order { IsInOrder self.old.state }
        requires there { (0 < thread.number) × (thread.number ≤ length self.old.state.threads) }
        ensures state { self.new.state ≡ killed self.old.state thread.number }
        ensures stale { MakesStale self.old self.new }
        ensures kept { KeepsStale self.old self.new }
        ensures meter { self.new.meter ≡ self.old.meter }
    {
        self.queues.take_out(thread.number);
        lot_ports::release_clients(&mut self.threads, &mut self.queues, thread);
        lot_mutex::pass_all_on(&mut self.threads, &mut self.queues, thread);
        self.threads.end(thread);
    }

    /// Makes a sleeping thread Ready.
    pub(super) fn wake(&mut self, thread: ThreadNumber, reply: &mut Reply)
        ensures reply { reply.new ≡ (step self.old.state (event.Wake thread.number)).reply }
        ensures state { self.new.state ≡ (step self.old.state (event.Wake thread.number)).state }
        ensures stale { MakesStale self.old self.new }
        ensures kept { KeepsStale self.old self.new }
        ensures meter { self.new.meter ≡ self.old.meter }
    {
        if self.thread_numbered(thread.number).is_none() {
            *reply = Reply::Refused(Refusal::NoThread);
            return;
        }
        if !self.is_asleep(thread) {
            *reply = Reply::Refused(Refusal::NotAsleep);
            return;
        }
        self.threads.set_status(thread, Status::Ready);
        *reply = Reply::Done;
    }

    fn is_asleep(&self, thread: ThreadNumber) -> bool
        ensures { result ≡ option_any states.is_asleep (states.status_of self.now.state.records thread.number) }
    {
        match self.threads.record(thread) {
            Some(found) => matches!(found.status, Status::Asleep),
            None => false,
        }
    }
}
