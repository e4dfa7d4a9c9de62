//! One worker for each seat.
ghost use Rattle.std.specs.Prelude.{◌≡◌, All, IfErr, IfOk, IfSome, OnOk, None, length};
ghost use Rattle.lot_engine.specs.Turns.{IsWorkOf};
ghost use Rattle.lot_station.specs.Settings.{AtSome};
ghost use Rattle.lot_processors.specs.Workers.{AllMade, FirstStops, HasMade, HasStopped, HasWorked, IsFirstFault};
ghost use Rattle.lot_processors.specs.Workers.{StopsTurn, fault_in, turns_for};

use crate::later::{copy_of, later_work};
use crate::{Gate, RunFault};
use lot_engine::{TurnFault, Work, slice_for};
use lot_program::Program;
use lot_station::{Seat, Station, TurnLedger};
use std::sync::Wait;
use std::sync::ledger::Ledger;
use std::thread;
use std::thread::Threads;

/// Makes the program's turns through the seats, which must be all of the station's, in order: the console's seat makes
/// one for each command, and each processor's seat the program's number of turns. Each seat has a worker, on a thread
/// of its own if one can be started; it stops at its first fault. All workers have stopped when this returns. It may
/// block.
///
/// Returns the fault of the first seat that a fault stopped, and removes it from that seat. A later stopped seat keeps
/// its own fault, until `Seat::take_fault` removes it or the next run begins.
pub fn run_all<
    T: TurnLedger + Send + Sync,
    Q: Ledger + Send + Sync,
    K: Ledger + Send + Sync,
    G: Gate + Sync,
    R: Threads + Wait + Sync,
>(
    rt: &R,
    station: &Station<T, Q, K>,
    program: &Program,
    gate: &G,
    seats: &mut [Seat<T, Q, K>],
) -> Result<(), RunFault>
    ensures ok { OnOk result (AllMade station.now program.now seats.old seats.new) }
    ensures err { IfErr result (λ e. FirstStops station.now program.now (fault_in e) seats.old seats.new) }
{
    let work = |_place: usize, seat: &mut Seat<T, Q, K>|
        ensures { HasWorked station.entry.now program.entry.now seat.entry.now seat.exit.now }
    { work_for(rt, station, program, gate, seat) };
    thread::for_each_mut(rt, seats, seats.len() + 1, &work);
    match first_fault(seats) {
        None => Ok(()),
        Some(fault) => Err(RunFault::Turn(fault)),
    }
}

/// The fault of the first seat that has one, which it removes from the seat.
fn first_fault<T: TurnLedger, Q: Ledger, K: Ledger>(
    seats: &mut [Seat<T, Q, K>],
) -> Option<TurnFault>
    ensures none { result ≡ None → (seats.new ≡ seats.old) × All (λ seat. seat.stopped ≡ None) seats.old }
    ensures some { IfSome result (λ fault. IsFirstFault fault seats.old seats.new) }
{
    for place in 0..seats.len() {
        let fault = seats[place].take_fault();
        if fault.is_some() {
            return fault;
        }
    }
    None
}

/// Makes the turns of the seat's actor until one fails. The seat stores the fault.
fn work_for<T: TurnLedger, Q: Ledger, K: Ledger>(
    rt: &impl Wait,
    station: &Station<T, Q, K>,
    program: &Program,
    gate: &impl Gate,
    seat: &mut Seat<T, Q, K>,
)
    ensures { HasWorked station.now program.now seat.old seat.new }
{
    let _ = seat.take_fault();
    match actor_turns(rt, station, program, gate, seat) {
        Ok(()) => {}
        Err(fault) => seat.stop(fault),
    }
}

/// Makes the turns of the seat's actor, until one fails.
fn actor_turns<T: TurnLedger, Q: Ledger, K: Ledger>(
    rt: &impl Wait,
    station: &Station<T, Q, K>,
    program: &Program,
    gate: &impl Gate,
    seat: &mut Seat<T, Q, K>,
) -> Result<(), TurnFault>
    ensures kept { seat.new.stopped ≡ seat.old.stopped }
    ensures ok { OnOk result (HasMade station.now (turns_for program.now seat.old.actor) seat.old seat.new) }
    ensures err { IfErr result (λ fault. HasStopped station.now program.now
        (turns_for program.now seat.old.actor) fault seat.old seat.new) }
{
    if seat.actor() == 0 {
        command_turns(rt, station, program, seat)
    } else {
        processor_turns(rt, station, program, gate, seat)
    }
}

/// Makes a turn of the console for each command.
fn command_turns<T: TurnLedger, Q: Ledger, K: Ledger>(
    rt: &impl Wait,
    station: &Station<T, Q, K>,
    program: &Program,
    seat: &mut Seat<T, Q, K>,
) -> Result<(), TurnFault>
    requires { seat.old.actor ≡ 0 }
    ensures kept { seat.new.stopped ≡ seat.old.stopped }
    ensures ok { OnOk result (HasMade station.now (length program.now.commands) seat.old seat.new) }
    ensures err { IfErr result (λ fault. HasStopped station.now program.now
        (length program.now.commands) fault seat.old seat.new) }
{
    let commands = program.commands().len();
    for _turn in 0..commands {
        station.turn(rt, seat, None)?;
    }
    Ok(())
}

/// Makes the turns of a processor, each after passing the gate.
fn processor_turns<T: TurnLedger, Q: Ledger, K: Ledger>(
    rt: &impl Wait,
    station: &Station<T, Q, K>,
    program: &Program,
    gate: &impl Gate,
    seat: &mut Seat<T, Q, K>,
) -> Result<(), TurnFault>
    ensures kept { seat.new.stopped ≡ seat.old.stopped }
    ensures ok { OnOk result (HasMade station.now program.now.turns seat.old seat.new) }
    ensures err { IfErr result (λ fault. HasStopped station.now program.now program.now.turns fault seat.old seat.new) }
{
    let mut work = station.work(rt, seat);
    for made in 0..program.turns() {
        gate.pass(seat.actor(), made + 1);
        work = turn_with(rt, station, program, seat, work)?;
    }
    Ok(())
}

/// Makes a turn with the slice of this work. If another actor has changed the work meanwhile, as a kill of the running
/// thread does, it tries the later work. Returns the next work.
fn turn_with<T: TurnLedger, Q: Ledger, K: Ledger>(
    rt: &impl Wait,
    station: &Station<T, Q, K>,
    program: &Program,
    seat: &mut Seat<T, Q, K>,
    work: Option<Work>,
) -> Result<Option<Work>, TurnFault>
    requires { AtSome station.now (λ x. IsWorkOf x seat.old.actor work) }
    ensures kept { seat.new.stopped ≡ seat.old.stopped }
    ensures made { OnOk result (HasMade station.now 1 seat.old seat.new) }
    ensures next { IfOk result (λ next. AtSome station.now (λ x. IsWorkOf x seat.old.actor next)) }
    ensures err { IfErr result (λ fault. (seat.new ≡ seat.old)
        × StopsTurn station.now program.now seat.old.actor fault) }
{
    let mut work = work;
    for _ in rt.forever() {
        let slice = slice_for(program, copy_of(&work))?;
        match station.turn(rt, seat, slice) {
            Ok(answer) => return Ok(answer.next),
            Err(fault) => work = later_work(fault, &work)?,
        }
    }
    unreachable!()
}
