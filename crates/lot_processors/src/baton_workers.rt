//! One worker for each seat of a system that its seats pass around as a baton.
ghost use Rattle.std.specs.Prelude.{◌≡◌, All, IfErr, IfOk, IfSome, OnOk, None, length};
ghost use Rattle.lot_engine.specs.Turns.{IsWorkOf};
ghost use Rattle.lot_station.specs.BatonSeats.{IsSeatOf};
ghost use Rattle.lot_station.specs.Settings.{IsLegalIn};
ghost use Rattle.lot_processors.specs.BatonWorkers.{AllMade, FirstStops, HasMade, HasStopped, HasWorked, IsFirstFault};
ghost use Rattle.lot_processors.specs.BatonWorkers.{StopsTurn};
ghost use Rattle.lot_processors.specs.Workers.{fault_in, turns_for};

use crate::later::{copy_of, later_work};
use crate::{Gate, RunFault};
use lot_engine::{TurnFault, Work, slice_for};
use lot_program::Program;
use lot_station::{BatonSeat, BatonStation};
use std::sync::Wait;
use std::thread;
use std::thread::Threads;

/// Makes the program's turns through the seats, which must be all of the station's, in order, like `run_all`: the
/// console's seat makes one for each command, and each processor's seat the program's number of turns. Each seat has a
/// worker, on a thread of its own if one can be started; it stops at its first fault. All workers have stopped when
/// this returns. It may block.
///
/// Returns the fault of the first seat that a fault stopped, and removes it from that seat. A later stopped seat keeps
/// its own fault, until `BatonSeat::take_fault` removes it or the next run begins.
pub fn run_all_baton<G: Gate + Sync, R: Threads + Wait + Sync>(
    rt: &R,
    station: &BatonStation,
    program: &Program,
    gate: &G,
    seats: &mut [BatonSeat],
) -> Result<(), RunFault>
    requires { All (IsSeatOf station.now) seats.old }
    ensures own { All (IsSeatOf station.now) seats.new }
    ensures ok { OnOk result (AllMade program.now seats.old seats.new) }
    ensures err { IfErr result (λ e. FirstStops program.now (fault_in e) seats.old seats.new) }
{
    let work = |_place: usize, seat: &mut BatonSeat|
        requires { seat.now.station ≡ station.now.id }
        ensures { HasWorked program.entry.now seat.entry.now seat.exit.now }
    { work_for(rt, station, program, gate, seat) };
    thread::for_each_mut(rt, seats, seats.len() + 1, &work);
    match first_fault(seats) {
        None => Ok(()),
        Some(fault) => Err(RunFault::Turn(fault)),
    }
}

/// The fault of the first seat that has one, which it removes from the seat.
fn first_fault(seats: &mut [BatonSeat]) -> Option<TurnFault>
    ensures none { result ≡ None → (seats.new ≡ seats.old) × All (λ seat. seat.stopped ≡ None) seats.old }
    ensures some { IfSome result (λ fault. IsFirstFault fault seats.old seats.new) }
{
    for place in 0..seats.len() {
        let fault = seats[place].take_fault();
        if fault.is_some() {
            return fault;
        }
    }
    None
}

/// Makes the turns of the seat's actor until one fails. The seat stores the fault.
fn work_for(
    rt: &impl Wait,
    station: &BatonStation,
    program: &Program,
    gate: &impl Gate,
    seat: &mut BatonSeat,
)
    requires { seat.old.station ≡ station.now.id }
    ensures { HasWorked program.now seat.old seat.new }
{
    let _ = seat.take_fault();
    match actor_turns(rt, station, program, gate, seat) {
        Ok(()) => {}
        Err(fault) => seat.stop(fault),
    }
}

/// Makes the turns of the seat's actor, until one fails.
fn actor_turns(
    rt: &impl Wait,
    station: &BatonStation,
    program: &Program,
    gate: &impl Gate,
    seat: &mut BatonSeat,
) -> Result<(), TurnFault>
    requires { seat.old.station ≡ station.now.id }
    ensures kept { seat.new.stopped ≡ seat.old.stopped }
    ensures ok { OnOk result (HasMade (turns_for program.now seat.old.actor) seat.old seat.new) }
    ensures err { IfErr result (λ fault. HasStopped program.now
        (turns_for program.now seat.old.actor) fault seat.old seat.new) }
{
    if seat.actor() == 0 {
        command_turns(rt, station, program, seat)
    } else {
        processor_turns(rt, station, program, gate, seat)
    }
}

/// Makes a turn of the console for each command.
fn command_turns(
    rt: &impl Wait,
    station: &BatonStation,
    program: &Program,
    seat: &mut BatonSeat,
) -> Result<(), TurnFault>
    requires station { seat.old.station ≡ station.now.id }
    requires console { seat.old.actor ≡ 0 }
    ensures kept { seat.new.stopped ≡ seat.old.stopped }
    ensures ok { OnOk result (HasMade (length program.now.commands) seat.old seat.new) }
    ensures err { IfErr result (λ fault. HasStopped program.now (length program.now.commands) fault seat.old seat.new) }
{
    let commands = program.commands().len();
    for _turn in 0..commands {
        station.turn(rt, seat, None)?;
    }
    Ok(())
}

/// Makes the turns of a processor, each after passing the gate.
fn processor_turns(
    rt: &impl Wait,
    station: &BatonStation,
    program: &Program,
    gate: &impl Gate,
    seat: &mut BatonSeat,
) -> Result<(), TurnFault>
    requires { seat.old.station ≡ station.now.id }
    ensures kept { seat.new.stopped ≡ seat.old.stopped }
    ensures ok { OnOk result (HasMade program.now.turns seat.old seat.new) }
    ensures err { IfErr result (λ fault. HasStopped program.now program.now.turns fault seat.old seat.new) }
{
    let mut work = station.work(rt, seat);
    for made in 0..program.turns() {
        gate.pass(seat.actor(), made + 1);
        work = turn_with(rt, station, program, seat, work)?;
    }
    Ok(())
}

/// Makes a turn with the slice of this work. If another actor has changed the work meanwhile, as a kill of the running
/// thread does, it tries the later work. Returns the next work.
fn turn_with(
    rt: &impl Wait,
    station: &BatonStation,
    program: &Program,
    seat: &mut BatonSeat,
    work: Option<Work>,
) -> Result<Option<Work>, TurnFault>
    requires station { seat.old.station ≡ station.now.id }
    requires legal { IsLegalIn seat.old.seen }
    requires work { IsWorkOf seat.old.seen seat.old.actor work }
    ensures kept { seat.new.stopped ≡ seat.old.stopped }
    ensures made { OnOk result (HasMade 1 seat.old seat.new) }
    ensures next { IfOk result (λ next. IsLegalIn seat.new.seen × IsWorkOf seat.new.seen seat.new.actor next) }
    ensures err { IfErr result (λ fault. HasMade 0 seat.old seat.new × StopsTurn program.now seat.new fault) }
{
    let mut work = work;
    for _ in rt.forever() {
        let slice = slice_for(program, copy_of(&work))?;
        match station.turn(rt, seat, slice) {
            Ok(answer) => return Ok(answer.next),
            Err(fault) => work = later_work(fault, &work)?,
        }
    }
    unreachable!()
}
