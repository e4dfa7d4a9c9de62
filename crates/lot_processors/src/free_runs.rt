//! Free runs: workers make the turns of a program's own system.
ghost use Rattle.std.specs.Prelude.{◌≡◌, ◌+◌, [], IfErr, IfOk, OnOk, length};
ghost use Rattle.lot_processors.specs.Workers as workers;
ghost use Rattle.lot_processors.specs.Workers.{AllMade, FirstStops, IsFaultOf, IsFreeRun, fault_in, free_setting};

use crate::{Gate, RunFault, run_all};
use lot_engine::System;
use lot_program::Program;
use lot_station::{Seat, Station, TurnLedger};
use std::alloc::Global;
use std::marker::Brand;
use std::sync::Wait;
use std::sync::ledger::{Blank, Ledger};
use std::thread::Threads;
use thiserror::Error;

/// The reason why a free run returns no system.
#[derive(Debug, Drop, Error)]
pub enum FreeRunFault {
    /// Out of memory, before any turn.
    #[error("out of memory")]
    Memory,
    /// A worker stopped early, with this fault of the first stopped seat.
    #[error("{0}")]
    Run(RunFault),
    /// All workers made all their turns, but the history has others.
    #[error("what the seats count isn't what the history has")]
    CountsDiffer,
}

/// Opens a system of the program, lets workers make all its commands and all its processors' turns, and returns the
/// system. It may block. Fails with `Memory` if out of memory before any turn, with `Run` if a worker stopped early,
/// and with `CountsDiffer` if the history has other turns than the workers made.
///
/// The turns have no time, and nothing wakes a sleeping thread: pass the program without time
/// (`Program::without_time`).
pub fn free_run<G: Gate + Sync, R: Threads + Wait + Sync>(
    rt: &R,
    alloc: Global,
    program: &Program,
    gate: &G,
) -> Result<System, FreeRunFault>
    ensures setting { IfOk result (λ system. system.setting ≡ free_setting program.now) }
    ensures history { IfOk result (λ system. IsFreeRun program.now system.history) }
    ensures fault { IfErr result (IsFaultOf program.now) }
{
    let Ok(system) = System::open(alloc, program, turns_in_all(program)) else {
        return Err(FreeRunFault::Memory);
    };
    let parts = u64::from(system.processors()) + 1;
    run_system::<Brand, Brand, Brand, G, R>(
        rt,
        alloc,
        program,
        gate,
        system,
        Blank::new(parts),
        Blank::new(parts),
        Blank::new(parts),
    )
}

/// The number of turns in a free run of the program: one for each command, and for each processor the program's
/// number of turns.
fn turns_in_all(program: &Program) -> u32
    ensures { result ≡ workers.turns_in_all program.now }
{
    program.commands().len() as u32 + program.limits().processors * program.turns()
}

/// Lets workers make the turns of the program in this new system, and returns it.
fn run_system<
    T: TurnLedger + Send + Sync,
    Q: Ledger + Send + Sync,
    K: Ledger + Send + Sync,
    G: Gate + Sync,
    R: Threads + Wait + Sync,
>(
    rt: &R,
    alloc: Global,
    program: &Program,
    gate: &G,
    system: System,
    turns: Blank,
    quanta: Blank,
    ticks: Blank,
) -> Result<System, FreeRunFault>
    requires empty { system.history ≡ [] }
    requires setting { system.setting ≡ free_setting program.now }
    requires turns { (turns.name ≡ T.name) × (turns.parts ≡ T.parts) × (T.parts ≡ program.now.limits.processors + 1) }
    requires quanta { (quanta.name ≡ Q.name) × (quanta.parts ≡ Q.parts)
        × (Q.parts ≡ program.now.limits.processors + 1) }
    requires ticks { (ticks.name ≡ K.name) × (ticks.parts ≡ K.parts) × (K.parts ≡ program.now.limits.processors + 1) }
    requires ledger { T.setting ≡ system.setting }
    ensures setting { IfOk result (λ closed. closed.setting ≡ system.setting) }
    ensures history { IfOk result (λ closed. IsFreeRun program.now closed.history) }
    ensures fault { IfErr result (IsFaultOf program.now) }
{
    let Ok((station, mut seats)) = Station::<T, Q, K>::open(alloc, system, turns, quanta, ticks)
    else {
        return Err(FreeRunFault::Memory);
    };
    if let Err(fault) = run_all_of(rt, &station, program, gate, &mut seats) {
        return Err(FreeRunFault::Run(fault));
    }
    match station.close(seats) {
        Ok(system) => Ok(system),
        Err(_) => Err(FreeRunFault::CountsDiffer),
    }
}

/// `run_all` over the seats of a vector.
fn run_all_of<
    T: TurnLedger + Send + Sync,
    Q: Ledger + Send + Sync,
    K: Ledger + Send + Sync,
    G: Gate + Sync,
    R: Threads + Wait + Sync,
>(
    rt: &R,
    station: &Station<T, Q, K>,
    program: &Program,
    gate: &G,
    seats: &mut Vec<Seat<T, Q, K>>,
) -> Result<(), RunFault>
    ensures count { length seats.new.items ≡ length seats.old.items }
    ensures ok { OnOk result (AllMade station.now program.now seats.old.items seats.new.items) }
    ensures err { IfErr result (λ e. FirstStops station.now program.now (fault_in e) seats.old.items seats.new.items) }
{
    run_all(rt, station, program, gate, seats.as_mut_slice())
}
