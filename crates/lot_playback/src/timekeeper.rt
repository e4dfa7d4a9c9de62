//! The records that a timed play keeps for its report, in addition to the system.
ghost use Rattle.std.specs.Prelude.{◌≡◌, ◌<◌, ◌≤◌, ◌^◌, [], None, false, IfOk, IfSome, replicate, vec_len};
ghost use Rattle.lot_machine.specs.Bounds.{IsWithinBounds};
ghost use Rattle.lot_machine.specs.State.{opening};
ghost use Rattle.lot_machine.specs.declared.sizes.Sizes.{Sizes};
ghost use Rattle.lot_simulation.specs.TimedReport as reports;
ghost use Rattle.lot_simulation.specs.Timed as timed;
ghost use Rattle.lot_simulation.specs.World.TurnAnswer.{Answered};
ghost use Rattle.lot_engine.specs.Searching.{HasLayoutFor};
ghost use Rattle.lot_engine.specs.Seen.{Seen};
ghost use Rattle.lot_playback.specs.declared.sharers.Sharers.TheVariants.{Threads};
ghost use Rattle.lot_playback.specs.Following.{CanFollowTurn, FollowsTurn, IsOpened};
ghost use Rattle.lot_playback.specs.InTime.{AreRefusedTraps, IsFollowed, moment_in};
ghost use Rattle.lot_playback.specs.Owed.{AreDue};
ghost use Rattle.lot_playback.specs.TicksBelow.{AreCurrencies};
ghost use Rattle.lot_program.specs.Programs.{IsProgram};

use crate::alarms::Alarms;
use crate::clocks::Clocks;
use crate::currencies::CurrencyTable;
use crate::dues::DueTable;
use crate::refused_traps::RefusedTraps;
use crate::sharers::Sharers;
use crate::spans::{SpanTable, life, mutex_wait, open_two, reply_wait};
use lot_engine::System;
use lot_machine::{Event, Outcome, Reply};
use lot_program::Program;
use lot_simulation::{Due, Sleeper};
use std::alloc::{AllocError, Global};

/// The limit on the turns of a timed program.
pub const MOST_TURNS: u32 = 16000000;

/// The records that a timed play keeps from turn to turn, in addition to the system.
pub struct Timekeeper {
    /// The processors' clocks.
    pub clocks: Clocks,
    /// The wake times of sleeping threads.
    pub alarms: Alarms,
    /// Each thread's waits for mutexes.
    pub mutexes: SpanTable,
    /// Each thread's waits for replies.
    pub replies: SpanTable,
    /// The lives of the threads that have had each number.
    pub lives: SpanTable,
    /// Each thread's waits to run.
    pub ready: SpanTable,
    /// The parts due to each thread.
    pub dues: DueTable,
    /// The ticks of the threads below each currency, and the parts due to each currency.
    pub currencies: CurrencyTable,
    /// Each thread's refused traps.
    pub refused_traps: RefusedTraps,
    /// The number of refused commands and wakes.
    pub refused: u64,
    /// Whether a command or a trap was refused.
    pub has_refused: bool,
}

impl Drop for Timekeeper {
    // An explicit drop: code that drops a `Timekeeper` is then proved without unfolding its fields.
    fn drop(self) {
        let Self {
            clocks: _,
            alarms: _,
            mutexes: _,
            replies: _,
            lives: _,
            ready: _,
            dues: _,
            currencies: _,
            refused_traps: _,
            refused: _,
            has_refused: _,
        } = self;
    }
}

impl Timekeeper {
    /// The records of a system before the program's first turn. It allocates all the memory that they will ever use,
    /// and fails only if out of memory.
    pub fn open(alloc: Global, program: &Program, system: &System) -> Result<Timekeeper, AllocError>
        ensures opened { IfOk result (IsOpened program.now system.now) }
        ensures legal { IsProgram program.now }
    {
        let limits = program.limits();
        // Allocated in groups: the proof of each `?` then has few values to drop.
        let (clocks, alarms) = open_times(alloc, limits.processors, limits.threads)?;
        let (mutexes, replies) = open_two(alloc, limits.threads)?;
        let (lives, ready) = open_two(alloc, limits.threads)?;
        let (dues, currencies, refused_traps) = open_shares(
            alloc,
            system,
            limits.threads,
            limits.currencies,
        )?;
        Ok(Timekeeper {
            clocks,
            alarms,
            mutexes,
            replies,
            lives,
            ready,
            dues,
            currencies,
            refused_traps,
            refused: 0,
            has_refused: false,
        })
    }

    /// The next turn, if there is one: the turn that follows, unless a refusal has ended the play.
    pub fn next_due(&self, program: &Program, system: &System) -> Option<Due>
        requires program { system.now.setting.program ≡ program.now }
        requires followed { IsFollowed system.now.setting.program system.now self.now }
        ensures due { result ≡ timed.next_due program.now (moment_in system.now self.now) }
        ensures within { IfSome result (λ due. due.time < 2 ^ 32) }
    {
        if self.is_stopped(program) {
            return None;
        }
        self.following(program, system)
    }

    /// The turn that would follow if no refusal ended the play, if there is one.
    pub fn following(&self, program: &Program, system: &System) -> Option<Due>
        requires program { system.now.setting.program ≡ program.now }
        requires followed { IsFollowed system.now.setting.program system.now self.now }
        ensures due { result ≡ timed.following program.now (moment_in system.now self.now) }
        ensures within { IfSome result (λ due. due.time < 2 ^ 32) }
    {
        self.clocks.following(program, system, &self.alarms)
    }

    /// Whether a refusal has ended the play, as one does in a strict program.
    pub fn is_stopped(&self, program: &Program) -> bool
        ensures { (seen : Seen) → result ≡ timed.is_stopped program.now (moment_in seen self.now) }
    {
        program.options().strict && self.has_refused
    }

    /// Records this actor's turn at this time, with its event and reply, which led to this system, and the thread that
    /// goes to sleep in it, if one does.
    pub(crate) fn follow(
        &mut self,
        system: &mut System,
        time: u32,
        actor: u32,
        event: &Event,
        reply: Reply,
        sleeper: Option<Sleeper>,
    )
        requires can { CanFollowTurn (record {
          seen = system.old;
          time = time;
          actor = actor;
          event = event.now;
          reply = reply;
          sleeper = sleeper;
        }) self.old }
        ensures follows { FollowsTurn (record {
          seen = system.old;
          time = time;
          actor = actor;
          event = event.now;
          reply = reply;
          sleeper = sleeper;
        }) self.old self.new }
        ensures same { system.new ≡ system.old }
    {
        self.ready.queue(system, time, event, reply);
        self.dues.follow(system, time, event, reply);
        self.currencies.follow(system, time, event, reply);
        let processors = self.clocks.processors.len() as u32;
        self.clocks.follow(system, time, actor, reply);
        self.alarms.follow(time, actor, processors, sleeper);
        self.mutexes.follow(time, mutex_wait(event, reply));
        self.replies.follow(time, reply_wait(reply));
        self.lives.follow(time, life(reply));
        self.refused_traps.follow(reply);
        self.refused += refusals_in(reply);
        self.has_refused |= is_refusal(event, reply);
    }
}

/// Clocks at 0, and the alarms of `threads` threads, none of which sleeps.
fn open_times(alloc: Global, processors: u32, threads: u32) -> Result<(Clocks, Alarms), AllocError>
    ensures opened { IfOk result (λ opened. (opened.0.time ≡ 0) × (opened.0.processors.items
        ≡ replicate processors (record { time = 0; waits = false; idle = 0 }))
        × (opened.1.threads.items ≡ replicate threads None) × (opened.1.highest ≡ 0) × (opened.1.next ≡ None)) }
{
    let clocks = Clocks::open(alloc, processors)?;
    let alarms = Alarms::open(alloc, threads)?;
    Ok((clocks, alarms))
}

/// The parts due to threads and currencies, and threads' refused traps, before the first turn.
fn open_shares(
    alloc: Global,
    system: &System,
    threads: u32,
    currencies: u32,
) -> Result<(DueTable, CurrencyTable, RefusedTraps), AllocError>
    ensures none { (sizes : Sizes) → IsWithinBounds sizes
        → IfOk result (λ opened. AreDue Threads (opening sizes) [] 0 (opening sizes) opened.0
        × AreCurrencies (opening sizes) [] 0 (opening sizes) opened.1
        × AreRefusedTraps [] 0 opened.2.threads.items) }
    ensures count { IfOk result (λ opened. (vec_len opened.0.places ≡ threads)
        × (vec_len opened.1.ticks ≡ currencies) × (vec_len opened.1.dues.places ≡ currencies)
        × HasLayoutFor system.now.setting.program opened.1.above × (vec_len opened.2.threads ≡ threads)) }
{
    let dues = DueTable::open(alloc, Sharers::Threads, threads)?;
    let refused_traps = RefusedTraps::open(alloc, threads)?;
    // Last, since it owns the most: no error drops it.
    let table = CurrencyTable::open(alloc, system, currencies)?;
    Ok((dues, table, refused_traps))
}

/// Whether the kernel refused a command or a trap.
fn is_refusal(event: &Event, reply: Reply) -> bool
    ensures { result ≡ timed.is_refusal (Answered event.now reply) }
{
    match reply {
        Reply::Refused(_) => matches!(event, Event::Command(_)),
        Reply::Trapped {
            outcome: Outcome::Refused(_),
            ..
        } => true,
        _ => false,
    }
}

/// 1 if the kernel refused a command or a wake, and 0 otherwise.
fn refusals_in(reply: Reply) -> u64
    ensures refusals { result ≡ reports.refusals_in reply }
    ensures few { result ≤ 1 }
{
    match reply {
        Reply::Refused(_) => 1,
        _ => 0,
    }
}
