//! An actor's work, and the result of its turn.
ghost use Rattle.std.specs.Prelude.{◌≡◌, ◌↔◌, IfSome, IsTrue, Some, length, option_map};
ghost use Rattle.lot_machine.specs.Bounds.{IsBetween};
ghost use Rattle.lot_simulation.specs.World as world;
ghost use Rattle.lot_script.specs.Slices.{IsSlice};
ghost use Rattle.lot_engine.specs.Steps as steps;
ghost use Rattle.lot_engine.specs.Turns.{IsSliceOf, Matches, work_at};

use crate::slices::script_numbered;
use lot_machine::{Event, Reply, ScriptTrap};
use lot_program::Program;
use lot_script::{Place, Slice};
use lot_simulation::Sleeper;
use std::marker::Model;

/// The next work of the thread on a processor.
#[derive(Debug, PartialEq, Eq, Drop)]
pub struct Work {
    pub thread: u32,
    /// The number of its script.
    pub script: u32,
    /// Its place in its script.
    pub place: Place,
    /// The ticks left in its quantum.
    pub budget: u32,
}

impl Work {
    /// A copy of the work. It allocates nothing.
    pub fn copied(&self) -> Work
        ensures { result ≡ self.now }
    {
        Work {
            place: self.place.copied(),
            ..*self
        }
    }
}

/// The next work of the thread on a processor, with a reference to its place in the system's table.
#[derive(Drop)]
pub(crate) struct KeptWork<'a> {
    pub(crate) thread: u32,
    pub(crate) script: u32,
    pub(crate) place: &'a Place,
    pub(crate) budget: u32,
}

/// The next work of the thread on a processor, without its place.
#[derive(Clone, Copy, Debug)]
pub(crate) struct Running {
    pub(crate) thread: u32,
    pub(crate) script: u32,
    pub(crate) budget: u32,
}

impl<'a> Model for KeptWork<'a> {
    ghost use Rattle.lot_engine.specs.declared.turn.Work.{Work};

    ghost Value = { Work };

    ghost view = { λ w. record { thread = w.thread; script = w.script; place = w.place.now; budget = w.budget } };
}

impl KeptWork<'_> {
    /// The work without its place.
    #[inline(always)]
    pub(crate) fn running(&self) -> Running
        ensures { work_at result self.now.place ≡ self.now }
    {
        Running {
            thread: self.thread,
            script: self.script,
            budget: self.budget,
        }
    }

    /// A copy of the work. It allocates nothing.
    #[inline(always)]
    pub(crate) fn copied(&self) -> Work
        ensures { result ≡ self.now }
    {
        Work {
            thread: self.thread,
            script: self.script,
            place: self.place.copied(),
            budget: self.budget,
        }
    }
}

/// The result of a turn: its event, the kernel's reply, and the actor's next work.
#[derive(Debug, PartialEq, Eq, Drop)]
pub struct Answer {
    pub event: Event,
    pub reply: Reply,
    pub next: Option<Work>,
}

/// The reason why the system doesn't make a turn, like `TurnFault`, but without the work.
#[derive(Clone, Copy, Debug)]
pub(crate) enum TurnFaultKind {
    Stale,
    Ended,
    HistoryFull,
}

/// Whether the slice is that of the work: there is neither, or its script has the same lines, it starts at the work's
/// place, and it has the work's budget.
#[inline(always)]
pub(crate) fn matches_work(
    program: &Program,
    work: &Option<KeptWork<'_>>,
    slice: &Option<Slice>,
) -> bool
    requires { IfSome work.now (λ w. IsBetween 1 (length program.now.scripts) w.script) }
    ensures { IsTrue result ↔ Matches program.now work.now slice.now }
{
    match (work, slice) {
        (None, None) => true,
        (Some(work), Some(slice)) => is_slice_of(program, work, slice),
        _ => false,
    }
}

/// Whether the slice is of the work's script, from the work's place, with the work's budget.
#[inline(always)]
fn is_slice_of(program: &Program, work: &KeptWork<'_>, slice: &Slice) -> bool
    requires { IsBetween 1 (length program.now.scripts) work.now.script }
    ensures { IsTrue result ↔ IsSliceOf program.now work.now slice.now }
{
    script_numbered(program, work.script).is_same(slice.script())
        && slice.start().is_same(work.place)
        && slice.budget() == work.budget
}

/// The result of a slice, as its turn's event reports it.
#[derive(Clone, Copy, Debug)]
pub(crate) struct Done {
    pub(crate) ticks: u32,
    pub(crate) trap: Option<ScriptTrap>,
    /// The accumulator at its end.
    pub(crate) accumulator: u32,
}

/// The result of the slice, if there is one.
#[inline(always)]
pub(crate) fn done_in(slice: &Option<Slice>) -> Option<Done>
    ensures done { result ≡ option_map steps.did slice.now }
    ensures exact { IfSome slice.now IsSlice }
{
    match slice {
        None => None,
        Some(slice) => Some(Done {
            ticks: slice.ticks(),
            trap: slice.trap(),
            accumulator: slice.end().accumulator(),
        }),
    }
}

/// Stores in `event` the event of a processor's turn with this slice's result, or a draw without one, given the
/// processor's next number. A returned event would be copied.
#[inline(always)]
pub(crate) fn put_event(actor: u32, done: Option<Done>, drawn: u128, event: &mut Event)
    ensures { event.new ≡ steps.event_done actor drawn done }
{
    match done {
        None => *event = Event::Draw(actor, drawn),
        Some(done) => put_slice_event(actor, done, drawn, event),
    }
}

/// Stores a slice's result as an event: an expiry, or a trap after its ticks. Each arm stores its own event, so that
/// the compiler knows the event's kind in the kernel.
#[inline(always)]
fn put_slice_event(actor: u32, done: Done, drawn: u128, event: &mut Event)
    ensures { event.new ≡ steps.event_done actor drawn (Some done) }
{
    match done.trap {
        None => *event = Event::Expire(actor),
        Some(trap) => {
            let action = trap.with(trap.object(), done.accumulator, drawn, ());
            *event = Event::Trap(actor, done.ticks, action);
        }
    }
}

/// The thread as one that goes to sleep, if this is its trap and a sleep.
#[inline(always)]
pub(crate) fn sleeper_by(thread: u32, trap: Option<ScriptTrap>) -> Option<Sleeper>
    ensures { result ≡ world.sleeper_by thread trap }
{
    match trap {
        Some(ScriptTrap::Sleep(ticks)) => Some(Sleeper { thread, ticks }),
        _ => None,
    }
}

/// Whether a turn with this slice's result consumes a drawn number, as a draw and an unlock do.
#[inline(always)]
pub(crate) fn needs_number(done: Option<Done>) -> bool
    ensures { result ≡ steps.needs_number done }
{
    match done {
        None => true,
        Some(done) => unlocks(done.trap),
    }
}

/// Whether a slice that ends with this trap unlocks a mutex.
#[inline(always)]
fn unlocks(trap: Option<ScriptTrap>) -> bool
    ensures { result ≡ steps.unlocks trap }
{
    matches!(trap, Some(ScriptTrap::Unlock(..)))
}
