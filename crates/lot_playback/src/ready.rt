//! Threads' waits to run: the spans in which they are Ready.
ghost use Rattle.std.specs.Prelude.{◌≡◌, ℕ, ◌+◌, ◌<◌, ◌^◌, length, slice_index_or, vec_len, ◌≤◌};
ghost use Rattle.lot_machine.specs.State.{State, status_of};
ghost use Rattle.lot_machine.specs.declared.event.Event.{Event as EventRecord};
ghost use Rattle.lot_simulation.specs.World.TurnAnswer.{Answered};
ghost use Rattle.lot_simulation.specs.declared.timed.Spans.{Spans as SpansRecord};
ghost use Rattle.lot_engine.specs.Seen.{world_of};
ghost use Rattle.lot_simulation.specs.TimedReport as dues;
ghost use Rattle.lot_playback.specs.InTime.{AreFew};
ghost use Rattle.lot_playback.specs.Owed as owed;
ghost use Rattle.lot_playback.specs.Owed.{Answers, AreWaiting, HasFew, HaveQueued, HaveQueuedOne, NoneWaitsBeyond};
ghost use Rattle.lot_playback.specs.Owed.{waits_before};

use crate::SpanTable;
use crate::dues::is_dispatch;
use crate::sharers::new_thread;
use crate::spans::span_ended;
use lot_engine::System;
use lot_machine::{Event, Reply, Status};
use lot_simulation::Spans;

impl SpanTable {
    /// Records a turn at this time, with this event and reply, which led to this system, in a table of waits to run.
    pub(crate) fn queue(&mut self, system: &System, time: u32, event: &Event, reply: Reply)
        requires count { vec_len self.old.threads ≤ 4096 }
        requires few { AreFew self.old.threads.items }
        requires answers { (s : State) × Answers s event.now reply (world_of system.now).state
            × AreWaiting s self.old.threads.items }
        ensures queued { HaveQueued time (Answered event.now reply) (world_of system.now).state
            self.old.threads.items self.new.threads.items }
    {
        if is_dispatch(event) {
            if let Some(thread) = moved_thread(reply) {
                self.queue_thread(system, time, thread);
            }
            return;
        }
        self.forget_new(reply);
        self.queue_all(system, time);
    }

    /// Resets the waits of a new thread, if the reply says that the turn made one.
    fn forget_new(&mut self, reply: Reply)
        ensures count { length self.new.threads.items ≡ length self.old.threads.items }
        ensures forgets { (e : EventRecord) (place : ℕ) (d : SpansRecord) → place < length self.old.threads.items
            → slice_index_or self.new.threads.items place d
            ≡ waits_before (Answered e reply) (place + 1) (slice_index_or self.old.threads.items place d) }
    {
        if let Some(thread) = new_thread(reply) {
            self.forget(thread);
        }
    }

    /// Records the statuses of all threads after a turn at this time. Entries beyond the system's threads stay
    /// unchanged.
    fn queue_all(&mut self, system: &System, time: u32)
        requires count { vec_len self.old.threads ≤ 4096 }
        requires few { AreFew self.old.threads.items }
        requires beyond { NoneWaitsBeyond (length (world_of system.now).state.records) self.old.threads.items }
        ensures count { length self.new.threads.items ≡ length self.old.threads.items }
        ensures queued { (place : ℕ) (d : SpansRecord) → place < length self.old.threads.items
            → slice_index_or self.new.threads.items place d ≡ dues.queued time
            (slice_index_or self.old.threads.items place d)
            (status_of (world_of system.now).state.records (place + 1)) }
    {
        let count = self.threads.len().min(system.thread_count() as usize);
        for place in 0..count {
            self.queue_thread(system, time, place as u32 + 1);
        }
    }

    /// Records the status of the thread after a turn at this time. It ignores a nonexistent thread.
    fn queue_thread(&mut self, system: &System, time: u32, thread: u32)
        requires { HasFew self.old.threads.items thread }
        ensures queued { HaveQueuedOne time (world_of system.now).state thread
            self.old.threads.items self.new.threads.items }
    {
        if thread == 0 || self.threads.len() < thread as usize {
            return;
        }
        let place = thread as usize - 1;
        self.threads[place] = queued(self.threads[place], time, system.status(thread));
    }
}

/// A thread's waits to run, with this status after a turn at this time.
fn queued(waits: Spans, time: u32, status: Option<Status>) -> Spans
    requires { (waits.count < 2 ^ 31) × (waits.total < 2 ^ 63) }
    ensures { result ≡ dues.queued time waits status }
{
    match status {
        Some(Status::Ready) => Spans {
            since: Some(waits.since.unwrap_or(time)),
            ..waits
        },
        Some(Status::Running { .. }) => span_ended(waits, time),
        _ => Spans {
            since: None,
            ..waits
        },
    }
}

/// The thread that began to run, or whose quantum ended, with this reply.
fn moved_thread(reply: Reply) -> Option<u32>
    ensures { result ≡ owed.moved_thread reply }
{
    match reply {
        Reply::Winner { thread, .. } | Reply::Expired { thread, .. } => Some(thread),
        _ => None,
    }
}
