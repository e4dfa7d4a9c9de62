//! A history that gets full before all turns are made.
ghost use Rattle.std.specs.Prelude.{◌≡◌, ◌+◌, false};

use crate::tests::same::{check_same, check_same_at};
use crate::tests::stations::turnstile::Turnstile;
use crate::tests::stations::{TWO_PROCESSORS, opened, parsed};
use lot_engine::{System, TurnFault};
use lot_processors::{Gate, OpenGate, RunFault, run_all};
use lot_program::Program;
use lot_station::{Seat, Station, TurnLedger};
use std::alloc::Global;
use std::marker::Brand;
use std::process::Abort;
use std::sync::Wait;
use std::sync::ledger::{Blank, Ledger};
use std::test::*;
use std::thread::Threads;

/// Whether a full history stopped the run.
pub(super) fn is_stopped(run: Result<(), RunFault>) -> bool {
    matches!(run, Err(RunFault::Turn(TurnFault::HistoryFull)))
}

fn turns_of<T: TurnLedger, Q: Ledger, K: Ledger>(seats: &[Seat<T, Q, K>]) -> u64 {
    let mut turns: u64 = 0;
    for seat in seats {
        turns = turns.saturating_add(seat.turns());
    }
    turns
}

/// The turns of the program in a station of the system: whether a full history stopped them, the turns of all seats,
/// and the system that `close` returned.
fn work<
    T: TurnLedger + Send + Sync,
    Q: Ledger + Send + Sync,
    K: Ledger + Send + Sync,
    G: Gate + Sync,
    R: Threads + Wait + Abort + Sync,
>(
    rt: &R,
    alloc: Global,
    program: &Program,
    gate: &G,
    system: System,
    turns: Blank,
    quanta: Blank,
    ticks: Blank,
) -> (bool, u64, System)
    requires setting { system.setting ≡ T.setting }
    requires timer { system.setting.timer ≡ false }
    requires turns { (turns.name ≡ T.name) × (turns.parts ≡ T.parts)
        × (T.parts ≡ system.setting.program.limits.processors + 1) }
    requires quanta { (quanta.name ≡ Q.name) × (quanta.parts ≡ Q.parts)
        × (Q.parts ≡ system.setting.program.limits.processors + 1) }
    requires ticks { (ticks.name ≡ K.name) × (ticks.parts ≡ K.parts)
        × (K.parts ≡ system.setting.program.limits.processors + 1) }
{
    let opened = Station::<T, Q, K>::open(alloc, system, turns, quanta, ticks);
    let (station, mut seats) = opened.expect(rt, "memory");
    let is_full = is_stopped(run_all(rt, &station, program, gate, &mut seats));
    let turns = turns_of(&seats);
    match station.close(seats) {
        Ok(closed) => (is_full, turns, closed),
        Err(_) => rt.panic("the station isn't closed"),
    }
}

/// The turns of the program in a station with room for this many, with ledgers of its own.
fn worked<G: Gate + Sync, R: Threads + Wait + Abort + Sync>(
    rt: &R,
    alloc: Global,
    program: &Program,
    gate: &G,
    room: u32,
) -> (bool, u64, System) {
    let system = opened(rt, alloc, program, room);
    let parts = u64::from(system.processors()) + 1;
    work::<Brand, Brand, Brand, G, R>(
        rt,
        alloc,
        program,
        gate,
        system,
        Blank::new(parts),
        Blank::new(parts),
        Blank::new(parts),
    )
}

/// Checks a run in a history with room for three turns.
fn check_full<R: Threads + Wait + Abort + Sync>(rt: &R, alloc: Global, program: &Program) {
    let (is_full, turns, closed) = worked(rt, alloc, program, &OpenGate, 3);
    let found = (is_full, turns, closed.history().len());
    check_same(rt, &found, &(true, 3, 3));
}

// A run in a history with room for three turns tells why it stopped, and the seats have the turns of the history.
#[test]
fn stops_where_the_history_is_full(rt: HostRuntime) {
    let alloc = rt.alloc();
    let program = parsed(&rt, alloc, TWO_PROCESSORS);
    check_full(&rt, alloc, &program)
}

/// Checks that the workers stop while this processor's is held until the others have passed twice.
fn check_held<R: Threads + Wait + Abort + Sync>(
    rt: &R,
    alloc: Global,
    program: &Program,
    held: u32,
) {
    let gate = Turnstile::new(held, 2);
    let (is_full, turns, _) = worked(rt, alloc, program, &gate, 2);
    let found = (gate.gave_up(), is_full, turns);
    check_same_at(rt, &held, &found, &(false, true, 2));
}

// A worker that stops lets the others stop too, even one that waits at its gate: this processor's worker is held until
// the others have passed twice, in a history with room for two turns, and doesn't give up.
#[test]
fn stops_after_gates(rt: HostRuntime) {
    let alloc = rt.alloc();
    let program = parsed(&rt, alloc, TWO_PROCESSORS);
    for held in 1..3u32 {
        check_held(&rt, alloc, &program, held);
    }
}
