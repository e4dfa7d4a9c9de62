//! Gates at which one worker waits for others, and the turn numbers passed to them.

ghost use Rattle.std.specs.Prelude.{All};
ghost use Rattle.lot_station.specs.BatonSeats.{IsSeatOf};

use crate::tests::same::{check_same, check_same_at};
use crate::tests::stations::full::is_stopped;
use crate::tests::stations::turnstile::Turnstile;
use crate::tests::stations::{TWO_PROCESSORS, opened, parsed};
use lot_engine::System;
use lot_processors::{Gate, RunFault, free_run, run_all_baton};
use lot_program::Program;
use lot_station::{BatonSeat, BatonStation};
use std::alloc::Global;
use std::process::Abort;
use std::sync::Wait;
use std::sync::atomic::{AtomicBool, AtomicU64, Ordering};
use std::test::*;
use std::thread::Threads;

/// Three processors with two turns each, and one thread.
const THREE_PROCESSORS: &str =
    "lottery 1\nprocessors 3\nturns 2\nscript spin\ncompute 150\nendscript\nfundx 10 base a spin\n";

fn first_processor(history: &[u8]) -> Option<u8> {
    history.iter().copied().find(|actor| *actor != 0)
}

/// The observations of a run: whether a held worker gave up, whether it was the first processor to have a turn, and
/// the number of turns.
type Seen = (bool, bool, usize);

/// The observations of a run with this gate.
fn seen_of(gate: &Turnstile, history: &[u8]) -> Seen {
    let is_held_first = first_processor(history).map(u32::from) == Some(gate.held);
    (gate.gave_up(), is_held_first, history.len())
}

/// The system after a free run of the program with this gate.
pub(super) fn freed<G: Gate + Sync, R: Threads + Wait + Abort + Sync>(
    rt: &R,
    alloc: Global,
    text: &str,
    gate: &G,
) -> System {
    let program = parsed(rt, alloc, text);
    free_run(rt, alloc, &program, gate).expect(rt, "a free run")
}

/// A free run of the program, in which this processor's worker is held until the others have passed this often.
fn held_in_free_run<R: Threads + Wait + Abort + Sync>(
    rt: &R,
    alloc: Global,
    text: &str,
    held: u32,
    wanted: u64,
) -> Seen {
    let gate = Turnstile::new(held, wanted);
    let system = freed(rt, alloc, text, &gate);
    seen_of(&gate, system.history())
}

/// Programs, the processor whose worker is held, how often the others pass before, and the turns of a run.
const HELD: &[(&str, u32, u64, u32)] = &[
    (TWO_PROCESSORS, 1, 2, 5),
    (TWO_PROCESSORS, 2, 2, 5),
    (THREE_PROCESSORS, 1, 4, 7),
    (THREE_PROCESSORS, 2, 4, 7),
    (THREE_PROCESSORS, 3, 4, 7),
];

// A worker waits at its gate until the others have made their turns, whichever of them is held. So they run at once, no
// lock is held meanwhile, and each passes with its own number, since the held one doesn't come first.
#[test]
fn workers_run_at_once(rt: HostRuntime) {
    for (text, held, wanted, turns) in HELD {
        let seen = held_in_free_run(&rt, rt.alloc(), text, *held, *wanted);
        check_same_at(&rt, &(text, held), &seen, &(false, false, *turns as usize));
    }
}

/// `run_all_baton` over the seats of a vector.
pub(super) fn run_seats<G: Gate + Sync, R: Threads + Wait + Sync>(
    rt: &R,
    station: &BatonStation,
    program: &Program,
    gate: &G,
    seats: &mut Vec<BatonSeat>,
) -> Result<(), RunFault>
    requires { All (IsSeatOf station.now) seats.old.items }
    ensures { All (IsSeatOf station.now) seats.new.items }
{
    run_all_baton(rt, station, program, gate, seats.as_mut_slice())
}

/// Makes the turns of the program through the seats of a baton station with this much room, and returns the system,
/// and whether a full history stopped the workers.
fn baton_run<G: Gate + Sync, R: Threads + Wait + Abort + Sync>(
    rt: &R,
    alloc: Global,
    program: &Program,
    gate: &G,
    room: u32,
) -> (bool, System) {
    let system = opened(rt, alloc, program, room);
    let (station, mut seats) = BatonStation::open(alloc, system).expect(rt, "memory");
    let is_full = is_stopped(run_seats(rt, &station, program, gate, &mut seats));
    match station.close(rt, seats) {
        Ok(system) => (is_full, system),
        Err(_) => rt.panic("the station isn't closed"),
    }
}

/// `baton_run` with the program of this text.
pub(super) fn baton_freed<G: Gate + Sync, R: Threads + Wait + Abort + Sync>(
    rt: &R,
    alloc: Global,
    text: &str,
    gate: &G,
    room: u32,
) -> (bool, System) {
    let program = parsed(rt, alloc, text);
    baton_run(rt, alloc, &program, gate, room)
}

/// A run of the program over a baton station, in which this processor's worker is held until the others have passed
/// this often; and whether a full history stopped it.
fn held_in_baton_run<R: Threads + Wait + Abort + Sync>(
    rt: &R,
    alloc: Global,
    text: &str,
    held: u32,
    wanted: u64,
    room: u32,
) -> (bool, Seen) {
    let gate = Turnstile::new(held, wanted);
    let (is_full, system) = baton_freed(rt, alloc, text, &gate, room);
    (is_full, seen_of(&gate, system.history()))
}

// Workers over a baton station run at once too.
#[test]
fn baton_workers_run_at_once(rt: HostRuntime) {
    for (text, held, wanted, turns) in HELD {
        let found = held_in_baton_run(&rt, rt.alloc(), text, *held, *wanted, *turns);
        check_same_at(
            &rt,
            &(text, held),
            &found,
            &(false, (false, false, *turns as usize)),
        );
    }
}

/// The processors whose worker is held, and the room for turns.
const HELD_AND_ROOM: &[(u32, u32)] = &[(1, 2), (2, 2), (0, 3)];

// Also if there is no room for all turns, and if no worker is held.
#[test]
fn baton_workers_stop_where_the_history_is_full(rt: HostRuntime) {
    for (held, room) in HELD_AND_ROOM {
        let (is_full, seen) = held_in_baton_run(&rt, rt.alloc(), TWO_PROCESSORS, *held, 2, *room);
        let found = (is_full, seen.0, seen.2);
        check_same_at(&rt, held, &found, &(true, false, *room as usize));
    }
}

/// Counts the passes of two processors, and records whether one had a wrong turn number.
#[derive(Drop)]
struct Counting {
    first: AtomicU64,
    second: AtomicU64,
    is_wrong: AtomicBool,
}

impl Counting {
    fn new() -> Counting {
        Counting {
            first: AtomicU64::new(0),
            second: AtomicU64::new(0),
            is_wrong: AtomicBool::new(false),
        }
    }

    /// The passes of both processors, and whether one was wrong.
    fn passes(&self) -> (u64, u64, bool) {
        (
            self.first.load(Ordering::SeqCst),
            self.second.load(Ordering::SeqCst),
            self.is_wrong.load(Ordering::SeqCst),
        )
    }
}

impl Gate for Counting {
    fn pass(&self, processor: u32, turn: u32) {
        let passed = match processor {
            1 => self.first.fetch_add(1, Ordering::SeqCst),
            2 => self.second.fetch_add(1, Ordering::SeqCst),
            _ => u64::MAX,
        };
        if u64::from(turn).checked_sub(1) != Some(passed) {
            self.is_wrong.store(true, Ordering::SeqCst);
        }
    }
}

// Each processor's worker passes with its number and the turns 1 and 2, in order; the console's passes no gate.
#[test]
fn gates_are_passed_in_order(rt: HostRuntime) {
    let alloc = rt.alloc();
    let free = Counting::new();
    let _ = freed(&rt, alloc, TWO_PROCESSORS, &free);
    check_same(&rt, &free.passes(), &(2, 2, false));
    let baton = Counting::new();
    let _ = baton_freed(&rt, alloc, TWO_PROCESSORS, &baton, 5);
    check_same(&rt, &baton.passes(), &(2, 2, false));
}
