//! The turn that follows in time order.
ghost use Rattle.std.specs.Prelude.{◌≡◌, ℕ, ◌<◌, ◌≤◌, ◌+◌, ◌^◌, ◌||◌, List, Option, false, map, replicate, is_none};
ghost use Rattle.std.specs.Prelude.{IfOk, IfSome, vec_len, if◌then◌else◌};
ghost use Rattle.lot_machine.specs.Bounds.{IsBetween};
ghost use Rattle.lot_machine.specs.State.{thread_on};
ghost use Rattle.lot_machine.specs.declared.event.Event.{Event as EventRecord};
ghost use Rattle.lot_simulation.specs.Timed as timed;
ghost use Rattle.lot_simulation.specs.Timed.{all_due, clock_of, clocks_after, clocks_after_console, is_idle_draw};
ghost use Rattle.lot_simulation.specs.TimedReport as reports;
ghost use Rattle.lot_simulation.specs.World.{processor_event};
ghost use Rattle.lot_simulation.specs.World.TurnAnswer.{Answered};
ghost use Rattle.lot_simulation.specs.declared.timed.Clock.{Clock as ClockRecord};
ghost use Rattle.lot_engine.specs.Seen.{world_of};
ghost use Rattle.lot_playback.specs.InTime as in_time;
ghost use Rattle.lot_playback.specs.InTime.{HaveIdled, IsNextAlarm, alarms_in, moment_of};

use crate::alarms::Alarms;
use lot_engine::{System, slice_in};
use lot_machine::Reply;
use lot_program::Program;
use lot_script::Slice;
use lot_simulation::{Clock, Due};
use std::alloc::{AllocError, Global};

/// The processors' clocks.
#[derive(Debug, Drop)]
pub struct Clocks {
    /// The time of the last turn.
    pub time: u32,
    /// Each processor's clock, from processor 1.
    pub processors: Vec<Clock>,
}

impl Clocks {
    /// The clocks at the start, all at 0.
    pub(crate) fn open(alloc: Global, processors: u32) -> Result<Clocks, AllocError>
        ensures clocks { IfOk result (λ t. t.processors.items
            ≡ replicate processors (record { time = 0; waits = false; idle = 0 })) }
        ensures time { IfOk result (λ t. t.time ≡ 0) }
    {
        let clock = Clock {
            time: 0,
            waits: false,
            idle: 0,
        };
        Ok(Clocks {
            time: 0,
            processors: vec![in alloc; clock; processors as usize]?,
        })
    }

    /// The turn that follows, given the alarms. There is none if all processors wait, no thread sleeps and no command
    /// remains, or if it would come after the end.
    pub fn following(&self, program: &Program, system: &System, alarms: &Alarms) -> Option<Due>
        requires program { system.now.setting.program ≡ program.now }
        requires clocks { vec_len self.now.processors ≡ program.now.limits.processors }
        requires alarms { IsNextAlarm program.now system.now alarms.now }
        ensures due { result
            ≡ timed.following program.now (moment_of system.now self.now.time self.now.processors.items
            (alarms_in alarms.now.threads.items)) }
        ensures within { IfSome result (λ due. due.time < 2 ^ 32) }
    {
        let due = self.earliest(program, system, alarms)?;
        if u64::from(program.duration().unwrap_or(0)) < due.time {
            return None;
        }
        Some(due)
    }

    /// The earliest turn; among turns at one time the console's, then the timer's, then that of the lowest processor.
    fn earliest(&self, program: &Program, system: &System, alarms: &Alarms) -> Option<Due>
        requires program { system.now.setting.program ≡ program.now }
        requires clocks { vec_len self.now.processors ≡ program.now.limits.processors }
        requires alarms { IsNextAlarm program.now system.now alarms.now }
        ensures { result ≡ timed.earliest (all_due program.now
            (moment_of system.now self.now.time self.now.processors.items (alarms_in alarms.now.threads.items))) }
    {
        let mut first = sooner_of(console_due(program, system), alarms.next);
        for place in 0..program.limits().processors {
            let due = self.processor_due(program, system, place + 1);
            first = sooner_of(first, due);
        }
        first
    }

    /// The processor's turn, unless it waits.
    fn processor_due(&self, program: &Program, system: &System, processor: u32) -> Option<Due>
        requires program { system.now.setting.program ≡ program.now }
        requires there { IsBetween 1 (vec_len self.now.processors) processor }
        ensures { (alarms : ℕ → Option ℕ) → result ≡ timed.earliest (timed.processor_due
            (moment_of system.now self.now.time self.now.processors.items alarms) processor) }
    {
        let clock = self.clock(processor);
        if clock.waits {
            return None;
        }
        Some(due_after(clock.time, cost(program, system, processor), processor))
    }

    fn clock(&self, processor: u32) -> Clock
        requires { IsBetween 1 (vec_len self.now.processors) processor }
        ensures { result ≡ clock_of self.now.processors.items processor }
    {
        self.processors[processor as usize - 1]
    }

    /// Records this actor's turn at this time, with this reply, which led to this system: it sets the actor's clock,
    /// and ends other processors' waits. The console and the timer have no clock.
    pub(crate) fn follow(&mut self, system: &System, time: u32, actor: u32, reply: Reply)
        requires few { vec_len self.old.processors ≤ 64 }
        requires idled { (turns : ℕ) × (turns < 2 ^ 31) × HaveIdled turns self.old.processors.items }
        ensures time { self.new.time ≡ time }
        ensures clocks { (e : EventRecord)
            → self.new.processors.items ≡ clocks_after (world_of system.now).state self.old.processors.items
            (record { time = time; actor = actor }) (is_idle_draw (Answered e reply)) }
        ensures idled { (turns : ℕ) → HaveIdled turns self.old.processors.items
            → HaveIdled (turns + 1) self.new.processors.items }
        ensures count { vec_len self.new.processors ≡ vec_len self.old.processors }
    {
        self.time = time;
        if actor == 0 {
            self.follow_console(system, time);
            return;
        }
        let waits = matches!(reply, Reply::Idle);
        if actor as usize > self.processors.len() {
            if !waits {
                self.wake(time);
            }
            return;
        }
        let idle = self.clock(actor).idle;
        if !waits {
            self.wake(time);
        }
        self.processors[actor as usize - 1] = Clock { time, waits, idle };
    }

    /// Records the console's turn at this time, which led to this system: it ends the waits of all processors, and the
    /// slices of killed threads.
    fn follow_console(&mut self, system: &System, time: u32)
        requires few { vec_len self.old.processors ≤ 64 }
        requires idled { (turns : ℕ) × (turns < 2 ^ 31) × HaveIdled turns self.old.processors.items }
        ensures time { self.new.time ≡ self.old.time }
        ensures clocks { self.new.processors.items
            ≡ clocks_after_console (world_of system.now).state time self.old.processors.items }
        ensures idled { (turns : ℕ) → HaveIdled turns self.old.processors.items
            → HaveIdled (turns + 1) self.new.processors.items }
        ensures count { vec_len self.new.processors ≡ vec_len self.old.processors }
    {
        for place in 0..self.processors.len() {
            let is_idle = is_idle(system, place as u32 + 1);
            self.processors[place] = after_console(self.processors[place], is_idle, time);
        }
    }

    /// Ends the waits of all processors at this time.
    fn wake(&mut self, time: u32)
        requires idled { (turns : ℕ) × (turns < 2 ^ 31) × HaveIdled turns self.old.processors.items }
        ensures time { self.new.time ≡ self.old.time }
        ensures clocks { self.new.processors.items ≡ map (timed.woken time) self.old.processors.items }
        ensures idled { (turns : ℕ) → HaveIdled turns self.old.processors.items
            → HaveIdled (turns + 1) self.new.processors.items }
        ensures count { vec_len self.new.processors ≡ vec_len self.old.processors }
    {
        for place in 0..self.processors.len() {
            self.processors[place] = woken(self.processors[place], time);
        }
    }

    /// The ticks that the processor was idle, up to this time.
    pub fn idle_until(&self, end: u32, processor: u32) -> u64
        requires there { IsBetween 1 (vec_len self.now.processors) processor }
        requires idled { (turns : ℕ) × (turns < 2 ^ 31) × HaveIdled turns self.now.processors.items }
        ensures { result ≡ reports.idle_until end (clock_of self.now.processors.items processor) }
    {
        woken(self.clock(processor), end).idle
    }
}

/// The console's turn, if a command remains.
fn console_due(program: &Program, system: &System) -> Option<Due>
    requires { system.now.setting.program ≡ program.now }
    ensures { (now : ℕ) (clocks : List ClockRecord) (alarms : ℕ → Option ℕ)
        → result ≡ timed.earliest (timed.console_due (moment_of system.now now clocks alarms)) }
{
    let time = program.times().get(system.commands_made())?;
    Some(Due {
        time: u64::from(*time),
        actor: 0,
    })
}

/// The turn of an actor this many ticks after this time.
fn due_after(time: u32, cost: u32, actor: u32) -> Due
    ensures { result ≡ record { time = time + cost; actor = actor } }
{
    Due {
        time: u64::from(time) + u64::from(cost),
        actor,
    }
}

/// The cost of the processor's next turn: nothing for a draw, the rest of the quantum for an expiry, and the work and
/// one more tick for a trap.
fn cost(program: &Program, system: &System, processor: u32) -> u32
    requires program { system.now.setting.program ≡ program.now }
    requires there { 0 < processor }
    ensures { result ≡ timed.cost_of (world_of system.now) (processor_event (world_of system.now) processor) }
{
    match slice_in(system, program, processor) {
        Some(slice) => cost_of_slice(&slice),
        None => 0,
    }
}

/// The cost of the slice: its work and one tick for its trap, or all of its budget if the quantum ends with it.
fn cost_of_slice(slice: &Slice) -> u32
    ensures { result ≡ in_time.cost_of_slice slice.now }
{
    match slice.trap() {
        Some(_) => slice.ticks() + 1,
        None => slice.budget(),
    }
}

/// Whether no thread runs on the processor.
fn is_idle(system: &System, processor: u32) -> bool
    requires { 0 < processor }
    ensures { result ≡ is_none (thread_on (world_of system.now).state.records processor) }
{
    system.work(processor).is_none()
}

/// The clock of a processor whose wait, if any, ends at this time.
fn woken(clock: Clock, time: u32) -> Clock
    requires { clock.idle < 2 ^ 63 }
    ensures { result ≡ timed.woken time clock }
{
    if clock.waits {
        idle_to(clock, time)
    } else {
        clock
    }
}

/// The clock of a processor after a turn of the console at this time, in which the processor is idle or not.
fn after_console(clock: Clock, is_idle: bool, time: u32) -> Clock
    requires { clock.idle < 2 ^ 63 }
    ensures { result ≡ (if clock.waits || is_idle then timed.idle_to time clock else clock) }
{
    if clock.waits || is_idle {
        idle_to(clock, time)
    } else {
        clock
    }
}

/// The clock of a processor that has been idle since its last turn, and is due for a draw at this time.
fn idle_to(clock: Clock, time: u32) -> Clock
    requires { clock.idle < 2 ^ 63 }
    ensures { result ≡ timed.idle_to time clock }
{
    Clock {
        time,
        waits: false,
        idle: clock.idle + u64::from(time.saturating_sub(clock.time)),
    }
}

/// The earlier of two turns, or the first if both have one time; `None` if there is neither.
pub(crate) fn sooner_of(first: Option<Due>, second: Option<Due>) -> Option<Due>
    ensures { result ≡ in_time.sooner_of first second }
{
    match (first, second) {
        (None, other) => other,
        (Some(due), None) => Some(due),
        (Some(due), Some(other)) => {
            if due.time <= other.time {
                Some(due)
            } else {
                Some(other)
            }
        }
    }
}
