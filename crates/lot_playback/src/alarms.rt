//! The threads that sleep, and the timer's next turn.
ghost use Rattle.std.specs.Prelude.{◌≡◌, ◌<◌, ◌≤◌, ◌^◌, None, IfOk, length, replicate, vec_len};
ghost use Rattle.std.specs.List.{flat_map, range_with_len};
ghost use Rattle.lot_machine.specs.Bounds.{IsBetween};
ghost use Rattle.lot_simulation.specs.Timed as timed;
ghost use Rattle.lot_simulation.specs.Timed.{Moment, alarms_after, set_alarm};
ghost use Rattle.lot_simulation.specs.World.{sleeper_on};
ghost use Rattle.lot_playback.specs.InTime.{AreAlarms, CanFollow, alarm_at, alarms_in};

use crate::clocks::sooner_of;
use lot_simulation::{Due, Sleeper};
use std::alloc::{AllocError, Global};

/// The wake times of sleeping threads, and the timer's next turn. The table has an entry for each thread; a turn
/// without a sleep or a wake reads none of them.
#[derive(Debug, Drop)]
pub struct Alarms {
    /// The time at which each thread wakes, if it sleeps, from thread 1.
    pub threads: Vec<Option<u64>>,
    /// No thread with a number above this sleeps.
    pub highest: u32,
    /// The timer's next turn, if a thread sleeps.
    pub next: Option<Due>,
}

impl Alarms {
    /// The alarms at the start of a system with `threads` threads, none of which sleeps.
    pub(crate) fn open(alloc: Global, threads: u32) -> Result<Alarms, AllocError>
        ensures none { IfOk result (λ a. a.threads.items ≡ replicate threads None) }
        ensures highest { IfOk result (λ a. a.highest ≡ 0) }
        ensures next { IfOk result (λ a. a.next ≡ None) }
    {
        let nobody: Option<u64> = None;
        Ok(Alarms {
            threads: vec![in alloc; nobody; threads as usize]?,
            highest: 0,
            next: None,
        })
    }

    /// Records an actor's turn at this time. The thread that goes to sleep in it, if any, gets an alarm; a turn of the
    /// timer ends its thread's.
    pub(crate) fn follow(
        &mut self,
        time: u32,
        actor: u32,
        processors: u32,
        sleeper: Option<Sleeper>,
    )
        requires processors { processors ≤ 64 }
        requires are { AreAlarms processors self.old }
        requires can { CanFollow actor processors (length self.old.threads.items) sleeper }
        ensures after { (m : Moment) → m.alarms ≡ alarms_in self.old.threads.items → length m.clocks ≡ processors
            → (0 < actor → actor ≤ processors → sleeper ≡ sleeper_on m.world actor)
            → alarms_in self.new.threads.items ≡ alarms_after m time actor }
        ensures are { AreAlarms processors self.new }
        ensures count { vec_len self.new.threads ≡ vec_len self.old.threads }
    {
        if actor == 0 {
            return;
        }
        if actor > processors {
            self.set(processors, actor - processors, None);
            return;
        }
        if let Some(sleeper) = sleeper {
            let wakes = u64::from(time) + u64::from(sleeper.ticks);
            self.set(processors, sleeper.thread, Some(wakes));
        }
    }

    /// Sets or ends the thread's alarm, and finds the timer's next turn.
    fn set(&mut self, processors: u32, thread: u32, time: Option<u64>)
        requires there { IsBetween 1 (vec_len self.old.threads) thread }
        requires few { (processors ≤ 64) × (vec_len self.old.threads ≤ 4096) }
        requires are { AreAlarms processors self.old }
        ensures alarms { alarms_in self.new.threads.items ≡ set_alarm (alarms_in self.old.threads.items) thread time }
        ensures are { AreAlarms processors self.new }
        ensures count { vec_len self.new.threads ≡ vec_len self.old.threads }
    {
        self.threads[thread as usize - 1] = time;
        self.highest = self.highest.max(thread);
        self.next = self.earliest(processors);
    }

    /// The timer's next turn: that of the thread that wakes first, the lowest number if several do.
    fn earliest(&self, processors: u32) -> Option<Due>
        requires highest { self.now.highest ≤ vec_len self.now.threads }
        requires few { (processors ≤ 64) × (vec_len self.now.threads ≤ 4096) }
        ensures { result ≡ timed.earliest (flat_map (alarm_at processors (alarms_in self.now.threads.items))
            (range_with_len 1 self.now.highest)) }
    {
        let mut first = None;
        for place in 0..self.highest {
            let due = self.due(processors, place + 1);
            first = sooner_of(first, due);
        }
        first
    }

    /// The timer's turn for the thread, if the thread sleeps.
    fn due(&self, processors: u32, thread: u32) -> Option<Due>
        requires there { IsBetween 1 (vec_len self.now.threads) thread }
        requires few { (processors ≤ 64) × (thread ≤ 4096) }
        ensures { result ≡ timed.earliest (alarm_at processors (alarms_in self.now.threads.items) thread) }
    {
        let time = self.threads[thread as usize - 1]?;
        Some(Due {
            time,
            actor: processors + thread,
        })
    }
}
