//! Events of a processor: draws and traps.
ghost use Rattle.std.specs.Prelude.{◌≡◌, ◌<◌, ◌≤◌, ℕ, Some};
ghost use Rattle.lot_machine.specs.declared.event.Event.TheVariants as event;
ghost use Rattle.lot_machine.specs.declared.after.After.TheVariants.{Leaves};
ghost use Rattle.lot_machine.specs.declared.record.Status.{Status as AStatus};
ghost use Rattle.lot_machine.specs.Bounds.{IsBetween};
ghost use Rattle.lot_machine.specs.Order.{IsInOrder};
ghost use Rattle.lot_machine.specs.State.{change_record, funding_of, lend_of};
ghost use Rattle.lot_machine.specs.Step as steps;
ghost use Rattle.lot_machine.specs.Step.{step};
ghost use Rattle.lot_machine.specs.Traps.{after_trap, with_ticks};
ghost use Rattle.lot_machine.proofs.RecordsKept.{RunsAlone, StopsIfLeaves};
ghost use Rattle.lot_value.specs.Changing.{CanLend};
ghost use Rattle.lot_kernel.specs.Counted.{Counts, KeepsStale};
ghost use Rattle.lot_kernel.specs.Snapshots.{MakesStale};
ghost use Rattle.lot_kernel.specs.Trapped.{RunsOn, trapped};

use crate::ending::{Trap, ends_quantum, record_after};
use crate::tables::Tables;
use lot_machine::{Action, After, Processor, Refusal, Reply, ThreadNumber};

impl Tables {
    /// Makes a draw by a processor.
    pub(super) fn draw(&mut self, processor: Processor, d: u128, reply: &mut Reply)
        ensures reply { reply.new ≡ (step self.old.state (event.Draw processor.number d)).reply }
        ensures state { self.new.state ≡ (step self.old.state (event.Draw processor.number d)).state }
        ensures stale { MakesStale self.old self.new }
        ensures counts { Counts (event.Draw processor.number d) reply.new self.old self.new }
    {
        if self.is_bad_processor(processor) {
            *reply = Reply::Refused(Refusal::BadProcessor);
            return;
        }
        if self.threads.runner(processor).is_some() {
            *reply = Reply::Refused(Refusal::Busy);
            return;
        }
        let Some(winner) = self.threads.draw(d) else {
            *reply = Reply::Idle;
            return;
        };
        let thread = ThreadNumber {
            number: winner.thread,
        };
        let delivered = self.threads.start(thread, processor);
        *reply = Reply::Winner {
            thread: winner.thread,
            number: winner.number,
            total: winner.total,
            delivered,
        };
    }

    /// Makes a trap on a processor, after `ran` ticks of work.
    pub(super) fn trap(
        &mut self,
        processor: Processor,
        ran: u32,
        action: &Action,
        reply: &mut Reply,
    )
        requires { IsInOrder self.old.state }
        ensures reply { reply.new ≡ (step self.old.state (event.Trap processor.number ran action.now)).reply }
        ensures state { self.new.state ≡ (step self.old.state (event.Trap processor.number ran action.now)).state }
        ensures stale { MakesStale self.old self.new }
        ensures counts { Counts (event.Trap processor.number ran action.now) reply.new self.old self.new }
    {
        if self.is_bad_processor(processor) {
            *reply = Reply::Refused(Refusal::BadProcessor);
            return;
        }
        let Some(runner) = self.threads.runner(processor) else {
            *reply = Reply::Refused(Refusal::NotRunning);
            return;
        };
        if u64::from(runner.used) + u64::from(ran) + 1 > u64::from(self.limits.quantum) {
            *reply = Reply::Refused(Refusal::BadTicks);
            return;
        }
        self.make_trap(
            Trap {
                processor,
                thread: runner.thread,
                ticks: ran + 1,
                used: runner.used + ran + 1,
            },
            action,
            reply,
        );
    }

    /// Makes a trap that costs no more than the rest of its thread's quantum.
    fn make_trap(&mut self, trap: Trap, action: &Action, reply: &mut Reply)
        requires order { IsInOrder self.old.state }
        requires processor { IsBetween 1 self.old.state.limits.processors trap.processor.number }
        requires runs { RunsOn self.old.state.records trap.thread.number trap.processor.number }
        requires ticks { (0 < trap.ticks) × (trap.ticks ≤ trap.used) }
        ensures reply { reply.new ≡ (trapped self.old.state trap action.now).reply }
        ensures state { self.new.state ≡ (trapped self.old.state trap action.now).state }
        ensures stale { MakesStale self.old self.new }
        ensures counts { (ran : ℕ)
            → Counts (event.Trap trap.processor.number ran action.now) reply.new self.old self.new }
    {
        let quantum = self.limits.quantum;
        let effect = self.act(trap.thread, action);
        self.finish(trap, effect.after);
        *reply = Reply::Trapped {
            thread: trap.thread.number,
            ticks: trap.ticks,
            outcome: effect.outcome,
            ends: ends_quantum(trap, effect.after, quantum),
        };
    }

    /// Lets the thread that made a trap stay on its processor, or leave it with a status other than Running.
    fn finish(&mut self, trap: Trap, after: After)
        requires ticks { (0 < trap.ticks) × (trap.ticks ≤ trap.used) }
        requires processor { IsBetween 1 self.old.state.limits.processors trap.processor.number }
        requires runs { RunsOn self.old.state.records trap.thread.number trap.processor.number }
        requires alone { RunsAlone self.old.state.records trap.processor.number trap.thread.number }
        requires stops { StopsIfLeaves after }
        requires lend { (status : AStatus) → after ≡ Leaves status
            → CanLend (funding_of self.old.state) trap.thread.number
            (lend_of self.old.state.limits status) }
        ensures state { self.new.state
            ≡ record self.old.state {
              records = change_record
                  (λ r. with_ticks trap.ticks
                  (after_trap after trap.processor.number trap.used self.old.state.limits r))
                  self.old.state.records trap.thread.number;
            } }
        ensures stale { MakesStale self.old self.new }
        ensures kept { KeepsStale self.old self.new }
        ensures meter { self.new.meter ≡ self.old.meter }
    {
        let Some(before) = self.threads.record(trap.thread) else {
            unreachable!()
        };
        let next = record_after(before, trap, after, &self.limits);
        self.threads.change(trap.thread, next);
    }

    pub(super) fn is_bad_processor(&self, processor: Processor) -> bool
        ensures { result ≡ steps.is_bad_processor self.now.state processor.number }
    {
        processor.number == 0 || processor.number > self.limits.processors
    }
}
