//! A kill that changes the work with which a worker waits at its gate.
ghost use Rattle.std.specs.Prelude.{◌≡◌, ◌+◌, All, IfSome, false};
ghost use Rattle.lot_station.specs.BatonSeats.{IsSeatOf};

use crate::tests::same::check_same;
use crate::tests::stations::gates::run_seats;
use crate::tests::stations::turnstile::TRIES;
use lot_engine::System;
use lot_processors::{Gate, run_all};
use lot_program::Program;
use lot_station::{BatonSeat, BatonStation, Seat, Station, TurnLedger};
use lot_text::parse;
use std::alloc::Global;
use std::marker::Brand;
use std::process::Abort;
use std::sync::Wait;
use std::sync::atomic::{AtomicBool, Ordering};
use std::sync::ledger::{Blank, Ledger};
use std::test::*;
use std::thread;
use std::thread::Threads;

/// One processor with three turns, and a thread that the second command kills.
const KILLED: &str =
    "lottery 3\nfor 1000\nprocessors 1\nturns 3\nscript spin\ncompute 150\nendscript\nfundx 10 base a spin\n\
    kill a\n";

/// Holds a processor's worker before its second turn, while the thread of its first draw runs, until the thread has
/// been killed.
#[derive(Drop)]
struct Killing {
    is_here: AtomicBool,
    has_killed: AtomicBool,
}

impl Killing {
    fn new() -> Killing {
        Killing {
            is_here: AtomicBool::new(false),
            has_killed: AtomicBool::new(false),
        }
    }
}

impl Gate for Killing {
    fn pass(&self, _processor: u32, turn: u32) {
        if turn == 2 {
            self.is_here.store(true, Ordering::SeqCst);
            let _ = has_come(&self.has_killed);
        }
    }
}

/// Whether the flag is set before the last check.
fn has_come(flag: &AtomicBool) -> bool {
    for _try in 0..TRIES {
        if flag.load(Ordering::SeqCst) {
            return true;
        }
        thread::yield_now();
    }
    false
}

/// A system of the program, without time, for the turns of both actors.
fn opened(rt: &impl Abort, alloc: Global) -> (Program, System)
    ensures { result.1.setting.timer ≡ false }
{
    let timed = parse(alloc, KILLED.as_bytes()).expect(rt, "a program");
    let program = timed.without_time(alloc).expect(rt, "memory");
    let system = System::open(alloc, &program, 5).expect(rt, "memory for a system");
    (program, system)
}

/// Makes a turn of the console, whose seat comes first. Returns whether it was made.
fn command<T: TurnLedger, Q: Ledger, K: Ledger>(
    rt: &impl Wait,
    station: &Station<T, Q, K>,
    seats: &mut [Seat<T, Q, K>],
) -> bool {
    match seats.first_mut() {
        Some(console) => station.turn(rt, console, None).is_ok(),
        None => false,
    }
}

/// Makes a turn of the console once the worker is held, and lets the worker go on. Returns whether the turn was made.
fn kill<T: TurnLedger, Q: Ledger, K: Ledger>(
    rt: &impl Wait,
    station: &Station<T, Q, K>,
    gate: &Killing,
    console: &mut [Seat<T, Q, K>],
) -> bool {
    let is_made = has_come(&gate.is_here) && command(rt, station, console);
    gate.has_killed.store(true, Ordering::SeqCst);
    is_made
}

/// Whether the thread was killed while the worker was held, and the worker made all its turns.
fn outdated_in<
    T: TurnLedger + Send + Sync,
    Q: Ledger + Send + Sync,
    K: Ledger + Send + Sync,
    R: Threads + Wait + Abort + Sync,
>(
    rt: &R,
    alloc: Global,
    program: &Program,
    system: System,
    turns: Blank,
    quanta: Blank,
    ticks: Blank,
) -> (bool, bool)
    requires setting { system.setting ≡ T.setting }
    requires timer { system.setting.timer ≡ false }
    requires turns { (turns.name ≡ T.name) × (turns.parts ≡ T.parts)
        × (T.parts ≡ system.setting.program.limits.processors + 1) }
    requires quanta { (quanta.name ≡ Q.name) × (quanta.parts ≡ Q.parts)
        × (Q.parts ≡ system.setting.program.limits.processors + 1) }
    requires ticks { (ticks.name ≡ K.name) × (ticks.parts ≡ K.parts)
        × (K.parts ≡ system.setting.program.limits.processors + 1) }
{
    let opened = Station::<T, Q, K>::open(alloc, system, turns, quanta, ticks);
    let (station, mut seats) = opened.expect(rt, "memory");
    let is_funded = command(rt, &station, &mut seats);
    let Some((console, workers)) = seats.as_mut_slice().split_at_mut_checked(1) else {
        return (false, false);
    };
    let gate = Killing::new();
    let (is_killed, has_run) = thread::join(
        rt,
        || kill(rt, &station, &gate, console),
        || run_all(rt, &station, program, &gate, workers).is_ok(),
    );
    (is_funded && is_killed, has_run)
}

/// `outdated_in` over a station with ledgers of its own.
fn outdated<R: Threads + Wait + Abort + Sync>(rt: &R, alloc: Global) -> (bool, bool) {
    let (program, system) = opened(rt, alloc);
    let parts = u64::from(system.processors()) + 1;
    outdated_in::<Brand, Brand, Brand, R>(
        rt,
        alloc,
        &program,
        system,
        Blank::new(parts),
        Blank::new(parts),
        Blank::new(parts),
    )
}

// The worker has the slice of a thread that the console then kills. It makes its turn with its later work.
#[test]
fn a_kill_outdates_a_work(rt: HostRuntime) {
    check_same(&rt, &outdated(&rt, rt.alloc()), &(true, true));
}

/// The console's seat, and those of the processors.
fn parted(_station: &BatonStation, mut seats: Vec<BatonSeat>) -> Option<(BatonSeat, Vec<BatonSeat>)>
    requires { All (IsSeatOf _station.now) seats.items }
    ensures { IfSome result (λ r. IsSeatOf _station.now r.0 × All (IsSeatOf _station.now) r.1.items) }
{
    if seats.is_empty() {
        return None;
    }
    let console = seats.remove(0);
    Some((console, seats))
}

/// Makes a turn of the console once the worker is held, and lets the worker go on. Returns whether the turn was made.
fn baton_kill(
    rt: &impl Wait,
    station: &BatonStation,
    gate: &Killing,
    console: &mut BatonSeat,
) -> bool
    requires { console.old.station ≡ station.now.id }
{
    let is_made = has_come(&gate.is_here) && station.turn(rt, console, None).is_ok();
    gate.has_killed.store(true, Ordering::SeqCst);
    is_made
}

/// Whether the thread was killed while the worker was held, and the worker made all its turns.
fn baton_race<R: Threads + Wait + Sync>(
    rt: &R,
    station: &BatonStation,
    program: &Program,
    console: &mut BatonSeat,
    workers: &mut Vec<BatonSeat>,
) -> (bool, bool)
    requires console { console.old.station ≡ station.now.id }
    requires workers { All (IsSeatOf station.now) workers.old.items }
{
    let gate = Killing::new();
    thread::join(
        rt,
        ||
            requires { console.now.station ≡ station.now.id }
        { baton_kill(rt, station, &gate, console) },
        ||
            requires { All (IsSeatOf station.now) workers.now.items }
        { run_seats(rt, station, program, &gate, workers).is_ok() },
    )
}

/// Like `outdated`, over a baton station.
fn baton_outdated<R: Threads + Wait + Abort + Sync>(rt: &R, alloc: Global) -> (bool, bool) {
    let (program, system) = opened(rt, alloc);
    let (station, seats) = BatonStation::open(alloc, system).expect(rt, "memory");
    let (mut console, mut workers) = parted(&station, seats).expect(rt, "a seat");
    let is_funded = station.turn(rt, &mut console, None).is_ok();
    let (is_killed, has_run) = baton_race(rt, &station, &program, &mut console, &mut workers);
    (is_funded && is_killed, has_run)
}

#[test]
fn a_kill_outdates_a_work_of_the_baton(rt: HostRuntime) {
    check_same(&rt, &baton_outdated(&rt, rt.alloc()), &(true, true));
}
