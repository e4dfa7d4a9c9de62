//! The system.
ghost use Rattle.std.specs.Prelude.{◌≡◌, ◌↔◌, ◌<◌, ◌≤◌, ◌+◌, ◌*◌, ◌^◌, [], ◌∷◌, ◌++◌, All, IfOk, IfErr, IsFalse};
ghost use Rattle.std.specs.Prelude.{IsTrue, Some, None, false, true, length, option_and_then, if◌then◌else◌};
ghost use Rattle.std.specs.Borrow.{sem};
ghost use Rattle.lot_machine.specs.Bounds.{IsBetween};
ghost use Rattle.lot_machine.specs.Facts.{base_value};
ghost use Rattle.lot_machine.specs.Lends.{is_live};
ghost use Rattle.lot_machine.specs.Mutexes.{mutex_at};
ghost use Rattle.lot_machine.specs.Numbered.{at_number};
ghost use Rattle.lot_machine.specs.Rows as rows;
ghost use Rattle.lot_machine.specs.State.{live_of, sizes_of, status_of, value_of};
ghost use Rattle.lot_simulation.specs.Formats.{unit_of};
ghost use Rattle.lot_simulation.specs.Below.{worth_of};
ghost use Rattle.lot_simulation.specs.World.TurnAnswer.{Answered};
ghost use Rattle.lot_simulation.specs.World.{IsLegal, next_name, sleeper_on, system_turn};
ghost use Rattle.lot_simulation.specs.Report.{ticks_in, total_of, turns_made, turns_of};
ghost use Rattle.lot_engine.specs.Counted.{counted};
ghost use Rattle.lot_engine.specs.Histories.{woken_in};
ghost use Rattle.lot_engine.specs.Playing.{IsPlayed, turn_in};
ghost use Rattle.lot_engine.specs.Lending.{EndsSame};
ghost use Rattle.lot_engine.specs.Searching.{HasLayoutFor, HasThoseAbove};
ghost use Rattle.lot_engine.specs.Seen.{HasRow, after_turn, commands_made, shown_history, timer_for, world_of};
ghost use Rattle.lot_script.specs.Places.{Place as PlaceRecord};
ghost use Rattle.lot_engine.specs.Turns.{Answers, Faults, Goes, IfStale, IsEnded, IsFresh, IsWorkOf, Prevents};
ghost use Rattle.lot_engine.specs.Turns.{work_at};

use crate::TurnFault;
use crate::counts::{Counts, count_turn};
use crate::generators::next_event;
use crate::history::History;
use crate::known::known;
use crate::opening::{programmed, recorded};
use crate::places::{follow_command, follow_turn, pass_slice, receive};
use crate::slices::script_numbered;
use crate::tickets::NamedTickets;
use crate::turn::{
    Answer, KeptWork, Running, TurnFaultKind, Work, done_in, matches_work, sleeper_by,
};
use lot_draw::ParkMiller;
use lot_kept::{Kept, Stack};
use lot_kernel::{Above, Kernel, Settled};
use lot_machine::{
    CurrencyNumber, Event, Limits, MutexNumber, Name, Processor, Reply, Status, ThreadNumber,
    ThreadRow, index_of,
};
use lot_program::Program;
use lot_script::{Place, Slice};
use lot_simulation::{Format, Sleeper};
use std::alloc::{AllocError, Global};
use std::marker::Model;

/// A kernel with a console and processors that take turns. Actor 0 is the console, and the others are the processors.
///
/// Contracts see its program, its room and its history; everything else follows from the program's run with this
/// history. `open` allocates all its memory, and no turn allocates.
pub struct System {
    kernel: Kernel,
    program: Program,
    /// The number of commands made.
    spent: usize,
    tickets: NamedTickets,
    /// Each processor's generator.
    generators: Stack<ParkMiller>,
    /// Whether the generators give wide numbers, which the program's format decides. Cached, since each draw needs it.
    is_wide: bool,
    /// Each thread's place in its script.
    places: Stack<Place>,
    history: History,
    /// The counters of each actor, the console first.
    counts: Kept<Counts>,
    /// The counters over all actors.
    total: Counts,
    room: u32,
    /// Whether a timer takes part.
    has_timer: bool,
}

impl Drop for System {
    // An explicit drop: code that drops a `System` is then proved without unfolding its fields.
    fn drop(self) {
        let Self {
            kernel: _,
            program: _,
            spent: _,
            tickets: _,
            generators: _,
            is_wide: _,
            places: _,
            history: _,
            counts: _,
            total: _,
            room: _,
            has_timer: _,
        } = self;
    }
}

impl Model for System {
    ghost use Rattle.std.specs.Prelude.{◌≡◌, ◌==◌, ◌+◌, ◌≤◌, false, true, All, count_by, is_some, length};
    ghost use Rattle.lot_simulation.specs.Report.{turns_made};
    ghost use Rattle.lot_simulation.specs.World.{IsLegal, IsLegalInTime, system_run};
    ghost use Rattle.lot_program.specs.Programs.{IsProgram};
    ghost use Rattle.lot_engine.specs.Seen.{Seen};
    ghost use Rattle.lot_engine.specs.Counted.{AreCounts, IsCount};
    ghost use Rattle.lot_engine.specs.Held.{IsHeld};

    ghost Value = { Seen };

    ghost view = { λ s. record {
      setting = record { program = s.program; room = s.room; timer = s.has_timer };
      history = s.history.items;
    } };

    ghost invariant = { λ s. record {
      program : IsProgram s.program;
      legal : s.has_timer ≡ false → IsLegal s.program s.room s.history.items;
      in_time : IsLegalInTime s.program s.room s.history.items;
      held : IsHeld s.program
          (system_run s.program s.history.items) s.kernel.state s.places.items s.generators.items s.tickets s.spent;
      generators : length s.generators.items ≡ s.program.limits.processors;
      wide : s.is_wide ≡ is_some s.program.duration;
      past : (system_run s.program s.history.items).history ≡ s.history.items;
      spent : s.spent ≡ count_by (λ actor. actor == 0) s.history.items;
      counts : length s.counts.items ≡ s.program.limits.processors + 1;
      each_counted : AreCounts (turns_made s.program s.history.items) (length s.history.items) s.counts.items;
      total_counted : IsCount (turns_made s.program s.history.items) (length s.history.items) s.total;
      threads : s.program.limits.threads ≤ s.places.room;
      wakes : s.has_timer ≡ true → s.room ≤ s.history.size.wakes;
      processors : s.history.size.processors ≡ s.program.limits.processors;
      room : s.room ≤ s.history.size.turns;
    } };
}

impl System {
    /// A system of this program with room for `room` turns, without a timer. It allocates all the memory that the
    /// system will ever use, and fails only if out of memory.
    pub fn open(alloc: Global, program: &Program, room: u32) -> Result<System, AllocError>
        ensures { IfOk result (λ s. s
            ≡ record { setting = record { program = program.now; room = room; timer = false }; history = [] }) }
    {
        System::open_with(alloc, program, room, false)
    }

    /// Like `open`, with a timer, which wakes threads, for a timed play. It fails only if out of memory.
    pub fn open_timed(alloc: Global, program: &Program, room: u32) -> Result<System, AllocError>
        ensures { IfOk result (λ s. s
            ≡ record { setting = record { program = program.now; room = room; timer = true }; history = [] }) }
    {
        System::open_with(alloc, program, room, true)
    }

    /// A system of this program with room for `room` turns, with or without a timer.
    fn open_with(
        alloc: Global,
        program: &Program,
        room: u32,
        has_timer: bool,
    ) -> Result<System, AllocError>
        ensures { IfOk result (λ s. s
            ≡ record { setting = record { program = program.now; room = room; timer = has_timer }; history = [] }) }
    {
        let kernel = Kernel::new(alloc, program.limits())?;
        let (copy, tickets, generators) = programmed(alloc, program)?;
        let (places, history, counts) = recorded(alloc, program, room, has_timer)?;
        Ok(System {
            kernel,
            program: copy,
            spent: 0,
            tickets,
            generators,
            is_wide: program.format().draws_wide_numbers(),
            places,
            history,
            counts,
            total: Counts::NONE,
            room,
            has_timer,
        })
    }

    /// The number of processors.
    pub fn processors(&self) -> u32
        ensures program { result ≡ self.now.setting.program.limits.processors }
        ensures world { result ≡ (world_of self.now).state.limits.processors }
    {
        self.program.limits().processors
    }

    /// The actors of the turns so far. The timer is P + 1, with P processors.
    pub fn history(&self) -> &[u8]
        ensures shown { result.now ≡ shown_history self.now }
        ensures items { self.now.setting.timer ≡ false → result.now ≡ self.now.history }
        ensures legal { self.now.setting.timer ≡ false
            → IsLegal self.now.setting.program self.now.setting.room self.now.history }
        ensures room { self.now.setting.room < 2 ^ 32 }
    {
        known(self.room);
        self.history.actors()
    }

    /// The threads woken by the timer's turns, in the order of these turns.
    pub fn woken(&self) -> &[u16]
        ensures { result.now ≡ woken_in self.now.setting.program.limits.processors self.now.history }
    {
        self.history.woken()
    }

    /// The next work of the thread on the processor, if one runs there. The console has none.
    #[inline(always)]
    pub fn work(&self, actor: u32) -> Option<Work>
        ensures work { IsWorkOf self.now actor result }
        ensures legal { self.now.setting.timer ≡ false
            → IsLegal self.now.setting.program self.now.setting.room self.now.history }
    {
        known(self.spent);
        Some(self.kept_work(actor)?.copied())
    }

    /// The next work of the thread on the processor, if one runs there, with a reference to its place in the system's
    /// table.
    #[inline(always)]
    pub(crate) fn kept_work(&self, actor: u32) -> Option<KeptWork<'_>>
        ensures { IsWorkOf self.now actor result }
    {
        if actor == 0 {
            return None;
        }
        let runner = self.kernel.runner(Processor { number: actor })?;
        let script = self.kernel.script_of(runner.thread).unwrap();
        known(script_numbered(&self.program, script));
        Some(KeptWork {
            thread: runner.thread.number,
            script,
            place: &self.places[index_of(runner.thread.number)],
            budget: self.kernel.limits().quantum - runner.used,
        })
    }

    /// Makes one turn of an actor: the console's next command, a draw of an idle processor, or the slice of the thread
    /// on a processor. Fails with `Stale` if the slice isn't that of the actor's work, with `Ended` if the actor is the
    /// console and no command remains, and with `HistoryFull` if there is no room for one more turn. A fault changes
    /// nothing. It allocates nothing.
    #[inline(always)]
    pub fn turn(&mut self, actor: u32, slice: Option<Slice>) -> Result<Answer, TurnFault>
        requires { actor ≤ self.old.setting.program.limits.processors }
        ensures ok { IfOk result (λ answer. Goes self.old actor slice.entry × (self.new ≡ after_turn self.old actor)
            × Answers self.old actor answer) }
        ensures err { IfErr result (λ fault. Faults self.old actor slice.entry fault × (self.new ≡ self.old)) }
        ensures stale { IfErr result (λ fault. IfStale fault (¬ IsFresh self.old actor slice.entry)) }
        ensures legal { self.old.setting.timer ≡ false
            → IsLegal self.new.setting.program self.new.setting.room self.new.history }
    {
        let mut event = Event::Expire(actor);
        match self.try_turn(actor, &slice, &mut event) {
            Ok(reply) => Ok(Answer {
                event,
                reply,
                next: self.work(actor),
            }),
            Err(TurnFaultKind::Stale) => Err(TurnFault::Stale(self.work(actor))),
            Err(TurnFaultKind::Ended) => Err(TurnFault::Ended),
            Err(TurnFaultKind::HistoryFull) => Err(TurnFault::HistoryFull),
        }
    }

    /// Makes a turn, like `turn`, for callers that need neither the actor's next work nor the work in a `Stale` fault.
    /// It stores the event in `event`: a returned event would be copied at each return.
    #[inline(always)]
    pub(crate) fn try_turn(
        &mut self,
        actor: u32,
        slice: &Option<Slice>,
        event: &mut Event,
    ) -> Result<Reply, TurnFaultKind>
        requires { actor ≤ self.old.setting.program.limits.processors }
        ensures ok { IfOk result (λ reply. Goes self.old actor slice.now × (self.new ≡ after_turn self.old actor)
            × ((system_turn self.old.setting.program (world_of self.old) actor).answer ≡ Answered event.new reply)) }
        ensures err { IfErr result (λ why. Prevents self.old actor slice.now why × (self.new ≡ self.old)) }
        ensures legal { self.old.setting.timer ≡ false
            → IsLegal self.new.setting.program self.new.setting.room self.new.history }
    {
        let work = self.kept_work(actor);
        if !matches_work(&self.program, &work, slice) {
            return Err(TurnFaultKind::Stale);
        }
        if self.is_ended(actor) {
            return Err(TurnFaultKind::Ended);
        }
        if self.is_full() {
            return Err(TurnFaultKind::HistoryFull);
        }
        let mut reply = Reply::Idle;
        self.make_turn(actor, slice, event, &mut reply);
        Ok(reply)
    }

    /// Makes the actor's next turn with the slice of its own work, while the history has room, and stores its event and
    /// the kernel's reply in `event` and `reply`: returned ones would be copied at each return. It stores in `sleeper`
    /// the thread that goes to sleep in a processor's turn, if one does. Returns whether it made a turn: it makes none,
    /// and changes nothing, if the actor is the console and no command remains. It allocates nothing.
    #[inline(always)]
    pub fn next_turn(
        &mut self,
        actor: u32,
        event: &mut Event,
        reply: &mut Reply,
        sleeper: &mut Option<Sleeper>,
    ) -> bool
        requires there { actor ≤ self.old.setting.program.limits.processors }
        requires room { length self.old.history < self.old.setting.room }
        ensures made { IsTrue result → (self.new ≡ after_turn self.old actor)
            × ((turn_in self.old actor).answer ≡ Answered event.new reply.new) }
        ensures ended { IsFalse result → IsEnded self.old actor × (self.new ≡ self.old) }
        ensures played { IsPlayed self.old actor self.new }
        ensures sleeper { IsTrue result → 0 < actor → sleeper.new ≡ sleeper_on (world_of self.old) actor }
    {
        if self.is_ended(actor) {
            return false;
        }
        let Some(work) = self.kept_work(actor) else {
            *sleeper = None;
            self.make_turn(actor, &None, event, reply);
            return true;
        };
        let running = work.running();
        self.run_turn(actor, running, event, reply, sleeper);
        true
    }

    /// Makes the turn of the timer that wakes this thread, while the history has room, and stores its event and the
    /// kernel's reply in `event` and `reply`. It allocates nothing.
    pub fn wake(&mut self, thread: u32, event: &mut Event, reply: &mut Reply)
        requires timer { self.old.setting.timer ≡ true }
        requires there { IsBetween 1 self.old.setting.program.limits.threads thread }
        requires room { length self.old.history < self.old.setting.room }
        ensures seen { self.new ≡ after_turn self.old (timer_for self.old.setting thread) }
        ensures answer { (turn_in self.old (timer_for self.old.setting thread)).answer
            ≡ Answered event.new reply.new }
        ensures played { IsPlayed self.old (timer_for self.old.setting thread) self.new }
    {
        *event = Event::Wake { thread };
        self.kernel.answer(event, reply);
        let told = *reply;
        self.total.add_turn(told);
        self.history.push_wake(thread);
    }

    /// Whether the actor is the console and no command remains.
    #[inline(always)]
    pub(crate) fn is_ended(&self, actor: u32) -> bool
        ensures { IsTrue result ↔ IsEnded self.now actor }
    {
        actor == 0 && self.spent >= self.program.commands().len()
    }

    /// Whether the history is full.
    #[inline(always)]
    pub fn is_full(&self) -> bool
        ensures { IsTrue result ↔ (self.now.setting.room ≤ length self.now.history) }
    {
        self.history.len() >= self.room as usize
    }

    /// Makes a turn: the console's next command, a processor's draw, or the slice of the thread that runs there. It
    /// stores the event and the kernel's reply in `event` and `reply`.
    #[inline(always)]
    pub(crate) fn make_turn(
        &mut self,
        actor: u32,
        slice: &Option<Slice>,
        event: &mut Event,
        reply: &mut Reply,
    )
        requires actor { actor ≤ self.old.setting.program.limits.processors }
        requires goes { Goes self.old actor slice.now }
        ensures seen { self.new ≡ after_turn self.old actor }
        ensures answer { (system_turn self.old.setting.program (world_of self.old) actor).answer
            ≡ Answered event.new reply.new }
    {
        if actor == 0 {
            self.console_turn(event, reply);
            return;
        }
        let done = done_in(slice);
        next_event(&mut self.generators, actor, self.is_wide, done, event);
        self.kernel.answer(event, reply);
        let told = *reply;
        follow_turn(&mut self.places, slice, told);
        count_turn(&mut self.counts, &mut self.total, actor, told);
        self.history.push(actor);
    }

    /// Makes the console's next command, with the number of its named ticket, if it has one. It stores the event and
    /// the kernel's reply in `event` and `reply`.
    fn console_turn(&mut self, event: &mut Event, reply: &mut Reply)
        requires left { ¬ IsEnded self.old 0 }
        requires room { length self.old.history < self.old.setting.room }
        ensures seen { self.new ≡ after_turn self.old 0 }
        ensures answer { (system_turn self.old.setting.program (world_of self.old) 0).answer
            ≡ Answered event.new reply.new }
    {
        let name = self.next_name();
        let command = self.program.commands().at(self.spent);
        *event = Event::Command(self.tickets.resolve(name, command));
        self.kernel.answer(event, reply);
        let told = *reply;
        self.spent += 1;
        self.tickets.follow(name, event, told);
        follow_command(&mut self.places, &self.program, &self.kernel, told);
        count_turn(&mut self.counts, &mut self.total, 0, told);
        self.history.push(0);
    }

    /// The name that the console's next command has for its ticket, if it has one.
    #[inline(always)]
    fn next_name(&self) -> Option<u16>
        ensures { result ≡ next_name (world_of self.now) }
    {
        self.program.names().get(self.spent).copied().flatten()
    }

    /// Makes the slice of the thread that runs on the processor, and advances the thread's place in the system's table.
    #[inline(always)]
    fn run_turn(
        &mut self,
        actor: u32,
        running: Running,
        event: &mut Event,
        reply: &mut Reply,
        sleeper: &mut Option<Sleeper>,
    )
        requires actor { IsBetween 1 self.old.setting.program.limits.processors actor }
        requires runs { (place : PlaceRecord) × IsWorkOf self.old actor (Some (work_at running place)) }
        requires room { length self.old.history < self.old.setting.room }
        ensures seen { self.new ≡ after_turn self.old actor }
        ensures answer { (system_turn self.old.setting.program (world_of self.old) actor).answer
            ≡ Answered event.new reply.new }
        ensures sleeper { sleeper.new ≡ sleeper_on (world_of self.old) actor }
    {
        let script = script_numbered(&self.program, running.script);
        let done = pass_slice(&mut self.places, script, running.thread, running.budget);
        *sleeper = sleeper_by(running.thread, done.trap);
        next_event(&mut self.generators, actor, self.is_wide, Some(done), event);
        self.kernel.answer(event, reply);
        let told = *reply;
        receive(&mut self.places, told);
        count_turn(&mut self.counts, &mut self.total, actor, told);
        self.history.push(actor);
    }

    /// The limits of the program.
    pub fn limits(&self) -> Limits
        ensures { sizes_of result ≡ (world_of self.now).state.limits }
    {
        self.kernel.limits()
    }

    /// The settled kernel, to read its rows. The system's contracts don't see that it recomputes values.
    pub fn settle(&mut self) -> Settled<'_>
        ensures state { result.kernel.now.state ≡ (world_of self.old).state }
        ensures* ends { sem 𝓛 (EndsSame self.entry) }
    {
        self.kernel.settle()
    }

    /// The count of currency numbers given so far, those of base and of removed currencies included. They run from 0 to
    /// one below this.
    pub fn currency_count(&self) -> u32
        ensures count { result ≡ length (world_of self.now).state.currencies }
        ensures within { result ≤ self.now.setting.program.limits.currencies + 1 }
    {
        self.kernel.currency_count()
    }

    /// The name of the currency with this number, if it exists.
    pub fn currency_name(&self, currency: u32) -> Option<Name>
        ensures { result ≡ rows.currency_name (world_of self.now).state currency }
    {
        self.kernel
            .currency_name(CurrencyNumber { number: currency })
    }

    /// The value, in base units, of a currency other than base, whose number must have been given, or 0 if it was
    /// removed. No currency is worth more than base's active tickets.
    pub fn currency_value(&mut self, currency: u32) -> u64
        requires user { 0 < currency }
        requires there { currency < length (world_of self.old).state.currencies }
        ensures value { result ≡ worth_of (world_of self.old).state currency }
        ensures within { result ≤ base_value (world_of self.old).state }
        ensures small { result < 2 ^ 56 }
        ensures state { self.new ≡ self.old }
    {
        self.kernel
            .currency_value(CurrencyNumber { number: currency })
    }

    /// The total value of base's active tickets, in base units.
    pub fn base_value(&self) -> u128
        ensures value { result ≡ base_value (world_of self.now).state }
        ensures small { result < 2 ^ 96 }
    {
        self.kernel.base_value()
    }

    /// A search for the currencies above a thread, with room for any state of this system. It allocates all the memory
    /// that the search will ever use, and fails only if out of memory.
    pub fn above(&self, alloc: Global) -> Result<Above, AllocError>
        ensures { IfOk result (HasLayoutFor self.now.setting.program) }
    {
        self.kernel.above(alloc)
    }

    /// Finds the currencies that the thread stands below: those from which a chain of tickets leads to it, or to a
    /// thread whose lends lead to it. It allocates nothing.
    pub fn find_above(&self, thread: u32, above: &mut Above)
        requires layout { HasLayoutFor self.now.setting.program above.old }
        requires thread { IsBetween 1 (length (world_of self.now).state.records) thread }
        ensures layout { HasLayoutFor self.now.setting.program above.new }
        ensures above { HasThoseAbove (world_of self.now).state thread above.new }
    {
        self.kernel
            .find_above(ThreadNumber { number: thread }, above);
    }

    /// The kernel's row of the thread with this number, if it exists. A thread without a row isn't live.
    pub fn thread_row(&mut self, thread: u32) -> Option<ThreadRow>
        ensures row { result ≡ rows.thread_row (world_of self.old).state thread }
        ensures gone { result ≡ None → is_live (live_of (world_of self.old).state) thread ≡ false }
        ensures state { self.new ≡ self.old }
    {
        self.kernel.thread_row(ThreadNumber { number: thread })
    }

    /// The thread's status, or `None` if no thread has ever had the number. A removed thread is dead.
    pub fn status(&self, thread: u32) -> Option<Status>
        ensures { result ≡ status_of (world_of self.now).state.records thread }
    {
        self.kernel.status(ThreadNumber { number: thread })
    }

    /// The thread's value, in base units, if it is live (Ready or Running), and otherwise 0.
    pub fn live_value(&mut self, thread: u32) -> u64
        ensures value { result ≡ (if is_live (live_of (world_of self.old).state) thread
            then value_of (world_of self.old).state thread else 0) }
        ensures state { self.new ≡ self.old }
    {
        self.kernel.live_value(ThreadNumber { number: thread })
    }

    /// Stores in `out` the threads that wait for the mutex, the longest wait first; none if there is no such mutex.
    /// Each has a row, since a waiting thread can't be removed. It allocates nothing, since `out` has room for all
    /// threads.
    pub fn list_waiters(&self, mutex: u32, out: &mut Stack<u32>)
        requires { self.now.setting.program.limits.threads ≤ out.old.room }
        ensures waiters { out.new.items ≡ (mutex_at (world_of self.now).state.mutexes mutex).waiters }
        ensures there { All (IsBetween 1 (length (world_of self.now).state.records)) out.new.items }
        ensures shown { All (HasRow (world_of self.now).state) out.new.items }
        ensures few { length out.new.items ≤ self.now.setting.program.limits.threads }
        ensures room { out.new.room ≡ out.old.room }
    {
        self.kernel.list_waiters(MutexNumber { number: mutex }, out);
    }

    /// The thread that owns the mutex, or `None` if it is free or doesn't exist.
    pub fn owner(&self, mutex: u32) -> Option<u32>
        ensures { result ≡ (mutex_at (world_of self.now).state.mutexes mutex).owner }
    {
        self.kernel.owner(MutexNumber { number: mutex })
    }

    /// The thread's compensation: the ticks used of its last quantum, fewer than a quantum if it gave the rest up, and
    /// more if the quantum ended late (3.4, 4.5). `None` if it has none.
    pub fn compensation(&self, thread: u32) -> Option<u32>
        ensures { result ≡ option_and_then (λ r. r.compensation) (at_number (world_of self.now).state.records thread) }
    {
        self.kernel.compensation(ThreadNumber { number: thread })
    }

    /// The format of the program.
    pub fn format(&self) -> Format
        ensures { unit_of result ≡ self.now.setting.program.limits.unit }
    {
        self.program.format()
    }

    /// The unit of the program.
    pub fn unit(&self) -> u32
        ensures program { result ≡ self.now.setting.program.limits.unit }
        ensures world { result ≡ (world_of self.now).state.limits.unit }
        ensures some { 0 < result }
    {
        self.program.limits().unit
    }

    /// The number of commands made.
    pub fn commands_made(&self) -> usize
        ensures { result ≡ commands_made self.now }
    {
        self.spent
    }

    /// The number of commands not yet made.
    pub fn commands_left(&self) -> usize
        ensures { result ≡ length (world_of self.now).commands }
    {
        let all = self.program.commands().len();
        all.saturating_sub(self.spent)
    }

    /// The count of thread numbers given so far, those of removed threads included. They run from 1 to this.
    pub fn thread_count(&self) -> u32
        ensures count { result ≡ length (world_of self.now).state.records }
        ensures within { result ≤ self.now.setting.program.limits.threads }
    {
        self.places.len() as u32
    }

    /// The number of turns made.
    pub fn turn_count(&self) -> u64
        ensures turns { result ≡ length self.now.history }
        ensures world { result ≡ length (world_of self.now).history }
        ensures legal { self.now.setting.timer ≡ false
            → IsLegal self.now.setting.program self.now.setting.room self.now.history }
    {
        self.history.len() as u64
    }

    /// The counters of the actor's turns so far.
    pub fn counts(&self, actor: u32) -> Counts
        requires { actor ≤ self.now.setting.program.limits.processors }
        ensures { result ≡ counted (turns_of actor (turns_made self.now.setting.program self.now.history)) }
    {
        self.counts[actor as usize]
    }

    /// The actor's own time: the ticks of its turns so far.
    pub fn clock(&self, actor: u32) -> u64
        requires { actor ≤ self.now.setting.program.limits.processors }
        ensures ticks { result ≡ total_of ticks_in (turns_of actor
            (turns_made self.now.setting.program self.now.history)) }
        ensures small { result ≤ length self.now.history * 2 ^ 32 }
    {
        self.counts[actor as usize].ticks
    }

    /// The counters of all turns so far.
    pub fn total(&self) -> Counts
        ensures { result ≡ counted (turns_made self.now.setting.program self.now.history) }
    {
        self.total
    }
}
