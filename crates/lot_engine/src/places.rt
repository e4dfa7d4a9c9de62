//! The threads' places in their scripts.
ghost use Rattle.std.specs.Prelude.{◌≡◌, ◌+◌, ◌≤◌, ℕ, List, [], Some, None, IfOk, length};
ghost use Rattle.lot_machine.specs.declared.record.Thread.{Thread};
ghost use Rattle.lot_machine.specs.Bounds.{IsBetween};
ghost use Rattle.lot_machine.specs.Named as named;
ghost use Rattle.lot_machine.specs.Numbered.{set_number};
ghost use Rattle.lot_script.specs.Places.{Fits};
ghost use Rattle.lot_script.specs.Slices.{IsSlice};
ghost use Rattle.lot_simulation.specs.Script.{Context, start};
ghost use Rattle.lot_machine.specs.State.{State};
ghost use Rattle.lot_machine.specs.Places.{placed};
ghost use Rattle.lot_simulation.specs.World.{number_delivered as number_delivered_in};
ghost use Rattle.lot_engine.specs.Held.{AreAt, IsAt, script_lines};
ghost use Rattle.lot_engine.specs.Steps.{IsNext, MakesThread, OfDraw, OfRun, OfGiven, contexts_with};
ghost use Rattle.lot_engine.specs.Steps.{delivered_to_place, place_of};
ghost use Rattle.lot_engine.specs.Steps.{places_after, places_received, slice_between};

use crate::turn::Done;
use lot_kept::Stack;
use lot_kernel::Kernel;
use lot_machine::{Outcome, Reply, ThreadNumber};
use lot_program::Program;
use lot_script::{Place, Script, Slice};
use std::alloc::{AllocError, Global};

/// Memory for the places of this many threads.
pub(crate) fn places_for(alloc: Global, threads: u32) -> Result<Stack<Place>, AllocError>
    ensures none { IfOk result (λ places. places.items ≡ []) }
    ensures room { IfOk result (λ places. threads ≤ places.room) }
{
    Stack::new(alloc, threads as usize)
}

/// Updates the places after a command: a new thread begins its script.
pub(crate) fn follow_command(
    places: &mut Stack<Place>,
    program: &Program,
    kernel: &Kernel,
    reply: Reply,
)
    requires made { (s : State) × (before : List Context) × MakesThread s kernel.now.state reply
        × AreAt program.now s.threads places.old.items before × (s.limits.scripts ≡ length program.now.scripts)
        × (length s.threads ≤ s.limits.threads) }
    requires room { kernel.now.state.limits.threads ≤ places.old.room }
    ensures at { (s : State) (before : List Context) → MakesThread s kernel.now.state reply
        → AreAt program.now s.threads places.old.items before
        → AreAt program.now kernel.now.state.threads places.new.items
        (contexts_with program.now s kernel.now.state before (named.thread_given reply)) }
    ensures room { places.new.room ≡ places.old.room }
{
    if let Some(thread) = thread_given(reply) {
        let script = kernel.script_of(ThreadNumber { number: thread }).unwrap();
        put_place(places, thread, begin(program, script));
    }
}

/// Puts a new thread's place where its number says: at the end, or over a removed thread's place.
fn put_place(places: &mut Stack<Place>, thread: u32, place: Place)
    requires next { IsBetween 1 (length places.old.items + 1) thread }
    requires room { thread ≤ places.old.room }
    ensures put { (free : List ℕ) → IsNext places.old.items free thread
        → places.new.items ≡ placed places.old.items free place }
    ensures room { places.new.room ≡ places.old.room }
{
    let index = thread as usize - 1;
    if index < places.len() {
        places[index] = place;
    } else {
        places.push(place);
    }
}

/// The thread to which the reply gives a number, if there is one.
fn thread_given(reply: Reply) -> Option<u32>
    ensures { result ≡ named.thread_given reply }
{
    match reply {
        Reply::Thread(thread) | Reply::Funded { thread, .. } => Some(thread),
        _ => None,
    }
}

/// The place at which a thread of this script begins.
fn begin(program: &Program, script: u32) -> Place
    requires { IsBetween 1 (length program.now.scripts) script }
    ensures { (t : Thread) → t.script ≡ script → IsAt program.now t result (start (script_lines program.now script)) }
{
    program.scripts()[script as usize - 1].start()
}

/// Updates the places after a processor's turn: a winner gets the number delivered to it, and the thread that ran goes
/// to its slice's end, with the number that it received.
#[inline(always)]
pub(crate) fn follow_turn(places: &mut Stack<Place>, slice: &Option<Slice>, reply: Reply)
    requires { (t : ℕ) × OfGiven (length places.old.items) t slice.now reply }
    ensures follows { places.new.items ≡ places_after places.old.items slice.now reply }
    ensures room { places.new.room ≡ places.old.room }
{
    match slice {
        None => follow_draw(places, reply),
        Some(slice) => follow_slice(places, slice, reply),
    }
}

/// Gives a winner the number delivered to it.
#[inline(always)]
fn follow_draw(places: &mut Stack<Place>, reply: Reply)
    requires { OfDraw (length places.old.items) reply }
    ensures follows { places.new.items ≡ places_after places.old.items None reply }
    ensures room { places.new.room ≡ places.old.room }
{
    if let Reply::Winner {
        thread,
        delivered,
        ..
    } = reply
    {
        deliver(places, thread, delivered);
    }
}

/// Moves the thread that ran to its slice's end, and gives it the number that it received.
#[inline(always)]
fn follow_slice(places: &mut Stack<Place>, slice: &Slice, reply: Reply)
    requires { (t : ℕ) × (IsBetween 1 (length places.old.items) t × OfRun t reply) }
    ensures follows { places.new.items ≡ places_after places.old.items (Some slice.now) reply }
    ensures room { places.new.room ≡ places.old.room }
{
    match reply {
        Reply::Expired { thread, .. } => places[thread as usize - 1] = slice.end().copied(),
        Reply::Trapped {
            thread,
            outcome,
            ..
        } => {
            places[thread as usize - 1] = slice.end().copied();
            deliver(places, thread, number_delivered(outcome));
        }
        _ => {}
    }
}

/// Advances the thread's place, in the system's own table, by a slice of its script with this budget. Returns the
/// slice's result.
#[inline(always)]
pub(crate) fn pass_slice(
    places: &mut Stack<Place>,
    script: &Script,
    thread: u32,
    budget: u32,
) -> Done
    requires there { IsBetween 1 (length places.old.items) thread }
    requires fits { Fits script.now (place_of places.old.items thread) }
    requires budget { IsBetween 1 1000 budget }
    ensures slice { IsSlice (slice_between script.now (place_of places.old.items thread) budget result
        (place_of places.new.items thread)) }
    ensures places { places.new.items ≡ set_number places.old.items thread (place_of places.new.items thread) }
    ensures accumulator { result.accumulator ≡ (place_of places.new.items thread).accumulator }
    ensures room { places.new.room ≡ places.old.room }
{
    let place = &mut places[thread as usize - 1];
    let done = script.pass_slice(place, budget);
    Done {
        ticks: done.ticks,
        trap: done.trap,
        accumulator: place.accumulator(),
    }
}

/// Gives the thread that ran the number that it received. The thread is at its slice's end.
#[inline(always)]
pub(crate) fn receive(places: &mut Stack<Place>, reply: Reply)
    requires { (t : ℕ) × (IsBetween 1 (length places.old.items) t × OfRun t reply) }
    ensures received { places.new.items ≡ places_received places.old.items reply }
    ensures room { places.new.room ≡ places.old.room }
{
    if let Reply::Trapped {
        thread,
        outcome,
        ..
    } = reply
    {
        deliver(places, thread, number_delivered(outcome));
    }
}

/// The number received with a call.
#[inline(always)]
fn number_delivered(outcome: Outcome) -> Option<u32>
    ensures { result ≡ number_delivered_in outcome }
{
    match outcome {
        Outcome::Received { number, .. } => Some(number),
        Outcome::RepliedThenReceived { number, .. } => Some(number),
        _ => None,
    }
}

/// Sets the thread's accumulator to the delivered number, if there is one.
#[inline(always)]
fn deliver(places: &mut Stack<Place>, thread: u32, number: Option<u32>)
    requires { IsBetween 1 (length places.old.items) thread }
    ensures delivered { places.new.items
        ≡ set_number places.old.items thread (delivered_to_place number (place_of places.old.items thread)) }
    ensures room { places.new.room ≡ places.old.room }
{
    if let Some(number) = number {
        places[thread as usize - 1].set_accumulator(number);
    }
}
