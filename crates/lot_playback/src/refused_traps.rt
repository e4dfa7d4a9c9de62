//! Threads' refused traps.
ghost use Rattle.std.specs.Prelude.{◌≡◌, ◌<◌, ◌+◌, ◌^◌, [], All, Bool, ℕ, List, IfOk, vec_len};
ghost use Rattle.lot_machine.specs.Bounds.{IsBetween};
ghost use Rattle.lot_machine.specs.declared.event.Event.{Event as EventRecord};
ghost use Rattle.lot_machine.specs.declared.reply.Reply.TheVariants as replies;
ghost use Rattle.lot_simulation.specs.Timed.{TimedTurn};
ghost use Rattle.lot_simulation.specs.TimedReport as timed;
ghost use Rattle.lot_simulation.specs.World.TurnAnswer.{Answered};
ghost use Rattle.lot_playback.specs.InTime.{AreRefusedTraps, HaveChanged, HaveCounted};

use lot_machine::{Outcome, Reply};
use std::alloc::{AllocError, Global};

/// The number of refused traps of each thread.
#[derive(Debug, Drop)]
pub struct RefusedTraps {
    /// The counts, from thread 1.
    pub threads: Vec<u32>,
}

impl RefusedTraps {
    /// The counts of `threads` threads, all 0.
    pub(crate) fn open(alloc: Global, threads: u32) -> Result<RefusedTraps, AllocError>
        ensures none { IfOk result (λ traps. AreRefusedTraps [] 0 traps.threads.items) }
        ensures count { IfOk result (λ traps. vec_len traps.threads ≡ threads) }
    {
        Ok(RefusedTraps {
            threads: vec![in alloc; 0u32; threads as usize]?,
        })
    }

    /// The number of refused traps of the thread with this number.
    pub fn of(&self, thread: u32) -> u32
        requires { IsBetween 1 (vec_len self.now.threads) thread }
        ensures { (done : List TimedTurn) (n : ℕ) → AreRefusedTraps done n self.now.threads.items
            → result ≡ timed.refused_traps_in done thread }
    {
        self.threads[thread as usize - 1]
    }

    /// Records a turn's reply: it counts a refused trap, and resets the count of a new thread. It ignores a thread
    /// outside the table.
    pub(crate) fn follow(&mut self, reply: Reply)
        requires few { All (λ count. count < 2 ^ 31) self.old.threads.items }
        ensures counted { (e : EventRecord)
            → HaveCounted (Answered e reply) self.old.threads.items self.new.threads.items }
    {
        match reply {
            Reply::Thread(thread) | Reply::Funded { thread, .. } => self.forget(thread),
            Reply::Trapped {
                thread,
                outcome,
                ..
            } => self.follow_trap(thread, outcome),
            _ => (),
        }
    }

    /// Resets the count of the thread with this number.
    fn forget(&mut self, thread: u32)
        ensures { HaveChanged (λ count. 0) thread self.old.threads.items self.new.threads.items }
    {
        if thread == 0 || self.threads.len() < thread as usize {
            return;
        }
        self.threads[thread as usize - 1] = 0;
    }

    /// Records the outcome of the thread's trap.
    fn follow_trap(&mut self, thread: u32, outcome: Outcome)
        requires few { All (λ count. count < 2 ^ 31) self.old.threads.items }
        ensures counted { (e : EventRecord) (ticks : ℕ) (ends : Bool)
            → HaveCounted (Answered e (replies.Trapped thread ticks outcome ends)) self.old.threads.items
            self.new.threads.items }
    {
        if let Outcome::Refused(_) = outcome {
            self.count(thread);
        }
    }

    /// Counts one more refused trap of the thread.
    fn count(&mut self, thread: u32)
        requires few { All (λ count. count < 2 ^ 31) self.old.threads.items }
        ensures { HaveChanged (λ count. count + 1) thread self.old.threads.items self.new.threads.items }
    {
        if thread == 0 || self.threads.len() < thread as usize {
            return;
        }
        self.threads[thread as usize - 1] += 1;
    }
}
