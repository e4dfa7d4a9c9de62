//! Starting, stopping and ending threads, and delivering numbers to them.
ghost use Rattle.std.specs.Prelude.{◌≡◌, ◌<◌, None, Some, IfSome, option_and_then};
ghost use Rattle.lot_machine.specs.declared.funding.Node.{Node as ANode};
ghost use Rattle.lot_machine.specs.declared.record.Status.TheVariants as status;
ghost use Rattle.lot_machine.specs.Bounds.{IsBetween};
ghost use Rattle.lot_machine.specs.Numbered.{at_number};
ghost use Rattle.lot_machine.specs.State as states;
ghost use Rattle.lot_machine.specs.State.{change_record, thread_on};
ghost use Rattle.lot_machine.specs.Kill.{ended};
ghost use Rattle.lot_machine.specs.Step.{started};
ghost use Rattle.lot_machine.specs.Traps.{with_ticks};
ghost use Rattle.lot_value.specs.Changing.{CanLend};
ghost use Rattle.lot_threads.specs.Threaded.{IsThreadOf, IsStaleIn, CanRun, MakesStaleIn, funding_in};
ghost use Rattle.lot_threads.specs.Threaded.{with_records};
ghost use Rattle.lot_threads.specs.Timely.{IsBelowQuantum};

use crate::Threads;
use lot_machine::{Processor, Record, Status, ThreadNumber};

impl Threads {
    /// Starts a draw's winner on an idle processor, and returns the number delivered to it, if any (3.4, 4.2).
    pub fn start(&mut self, thread: ThreadNumber, processor: Processor) -> Option<u32>
        requires thread { IsThreadOf self.old thread.number }
        requires processor { IsBetween 1 self.old.processors processor.number }
        requires free { thread_on self.old.records processor.number ≡ None }
        requires quantum { 0 < self.old.quantum }
        ensures delivered { result ≡ option_and_then (λ r. r.delivered) (at_number self.old.records thread.number) }
        ensures started { self.new ≡ with_records self.old (change_record
            (started processor.number) self.old.records thread.number) self.new.stale }
        ensures kept { (node : ANode) → IsStaleIn self.old node → IsStaleIn self.new node }
        ensures stale { MakesStaleIn self.old self.new }
    {
        let Some(before) = self.record(thread) else {
            unreachable!()
        };
        let next = Record {
            status: Status::Running {
                processor: processor.number,
                used: 0,
            },
            compensation: None,
            delivered: None,
            quanta: before.quanta.saturating_add(1),
            ..before
        };
        self.change(thread, next);
        before.delivered
    }

    /// Takes a thread off its processor after `ticks` further ticks: it is Ready with this compensation (3.4, 4.2).
    #[inline(always)]
    pub fn stop(&mut self, thread: ThreadNumber, ticks: u32, compensation: Option<u32>)
        requires thread { IsThreadOf self.old thread.number }
        requires some { IfSome compensation (λ used. 0 < used) }
        ensures stopped { self.new ≡ with_records self.old (change_record
            (λ r. with_ticks ticks (record r {
              status = status.Ready;
              compensation = compensation;
            })) self.old.records thread.number) self.new.stale }
        ensures kept { (node : ANode) → IsStaleIn self.old node → IsStaleIn self.new node }
        ensures stale { MakesStaleIn self.old self.new }
    {
        let Some(before) = self.record(thread) else {
            unreachable!()
        };
        let next = Record {
            status: Status::Ready,
            compensation,
            ticks: before.ticks.saturating_add(u64::from(ticks)),
            ..before
        };
        self.change(thread, next);
    }

    /// Sets a thread's status, and leaves the rest of its record.
    pub fn set_status(&mut self, thread: ThreadNumber, status: Status)
        requires thread { IsThreadOf self.old thread.number }
        requires below { IsBelowQuantum self.old.quantum status }
        requires lend { CanLend (funding_in self.old) thread.number (states.lend_of self.old.lending status) }
        requires run { CanRun self.old thread.number status }
        ensures set { self.new ≡ with_records self.old (change_record
            (λ r. record r { status = status }) self.old.records thread.number) self.new.stale }
        ensures kept { (node : ANode) → IsStaleIn self.old node → IsStaleIn self.new node }
        ensures stale { MakesStaleIn self.old self.new }
    {
        let Some(before) = self.record(thread) else {
            unreachable!()
        };
        self.change(thread, Record { status, ..before });
    }

    /// Ends a thread in any status: it is Dead, without compensation (4.5).
    pub fn end(&mut self, thread: ThreadNumber)
        requires thread { IsThreadOf self.old thread.number }
        ensures ended { self.new ≡ with_records self.old (change_record ended self.old.records thread.number)
            self.new.stale }
        ensures kept { (node : ANode) → IsStaleIn self.old node → IsStaleIn self.new node }
        ensures stale { MakesStaleIn self.old self.new }
    {
        let Some(before) = self.record(thread) else {
            unreachable!()
        };
        let next = Record {
            status: Status::Dead,
            compensation: None,
            ..before
        };
        self.change(thread, next);
    }

    /// Makes a thread Ready again, and delivers a number to it: the thread gets the number when it next runs (4.6).
    pub fn deliver(&mut self, thread: ThreadNumber, number: u32)
        requires thread { IsThreadOf self.old thread.number }
        ensures delivered { self.new
            ≡ with_records self.old (change_record (λ r. record r {
              status = status.Ready;
              delivered = Some number;
            }) self.old.records thread.number) self.new.stale }
        ensures kept { (node : ANode) → IsStaleIn self.old node → IsStaleIn self.new node }
        ensures stale { MakesStaleIn self.old self.new }
    {
        let Some(before) = self.record(thread) else {
            unreachable!()
        };
        let next = Record {
            status: Status::Ready,
            delivered: Some(number),
            ..before
        };
        self.change(thread, next);
    }
}
