//! Closing with other seats than one for each actor, in order.
ghost use Rattle.std.specs.Prelude.{◌≡◌, ◌+◌, false};

use crate::tests::same::check_same;
use crate::tests::stations::{TWO_PROCESSORS, opened, parsed};
use lot_engine::System;
use lot_station::{CloseFault, Seat, Station, TurnLedger};
use std::alloc::Global;
use std::marker::Brand;
use std::process::Abort;
use std::sync::Wait;
use std::sync::ledger::{Blank, Ledger};
use std::test::*;

/// Checks that a turn without a slice of the seat at this place is made.
fn turn_at<T: TurnLedger, Q: Ledger, K: Ledger, R: Wait + Abort>(
    rt: &R,
    station: &Station<T, Q, K>,
    seats: &mut [Seat<T, Q, K>],
    place: usize,
) {
    let seat = seats.get_mut(place).expect(rt, "a seat");
    let is_made = station.turn(rt, seat, None).is_ok();
    assert!(rt; is_made);
}

/// The station and the seats that `close` returned, since a seat is missing or out of order.
fn handed_back<T: TurnLedger, Q: Ledger, K: Ledger>(
    rt: &impl Abort,
    station: Station<T, Q, K>,
    seats: Vec<Seat<T, Q, K>>,
) -> (Station<T, Q, K>, Vec<Seat<T, Q, K>>)
    requires { (T.parts ≡ station.program.limits.processors + 1) × (Q.parts ≡ station.program.limits.processors + 1)
        × (K.parts ≡ station.program.limits.processors + 1) }
    ensures { result.0 ≡ station }
{
    match station.close(seats) {
        Err(CloseFault::SeatMissing(station, seats)) => (station, seats),
        _ => rt.panic("no seat is missing"),
    }
}

/// Opens a station of the system, and closes it without its last seat, then with its seats in reverse order, and then
/// correctly, with a turn of the console before and a draw after.
fn misplace<T: TurnLedger, Q: Ledger, K: Ledger, R: Wait + Abort>(
    rt: &R,
    alloc: Global,
    system: System,
    turns: Blank,
    quanta: Blank,
    ticks: Blank,
) -> System
    requires setting { system.setting ≡ T.setting }
    requires timer { system.setting.timer ≡ false }
    requires turns { (turns.name ≡ T.name) × (turns.parts ≡ T.parts)
        × (T.parts ≡ system.setting.program.limits.processors + 1) }
    requires quanta { (quanta.name ≡ Q.name) × (quanta.parts ≡ Q.parts)
        × (Q.parts ≡ system.setting.program.limits.processors + 1) }
    requires ticks { (ticks.name ≡ K.name) × (ticks.parts ≡ K.parts)
        × (K.parts ≡ system.setting.program.limits.processors + 1) }
{
    let opened = Station::<T, Q, K>::open(alloc, system, turns, quanta, ticks);
    let (station, mut seats) = opened.expect(rt, "memory");
    turn_at(rt, &station, &mut seats, 0);
    let last = seats.pop().expect(rt, "a seat");
    let (station, mut seats) = handed_back(rt, station, seats);
    check_same(rt, &seats.len(), &2);
    seats.push(last).expect(rt, "memory");
    seats.reverse();
    let (station, mut seats) = handed_back(rt, station, seats);
    check_same(rt, &seats.len(), &3);
    seats.reverse();
    turn_at(rt, &station, &mut seats, 1);
    station.close(seats).ok().expect(rt, "a closed station")
}

/// Opens a station with ledgers of its own, and closes it by `misplace`.
fn misplaced<R: Wait + Abort>(rt: &R, alloc: Global, system: System) -> System
    requires { system.setting.timer ≡ false }
{
    let parts = u64::from(system.processors()) + 1;
    misplace::<Brand, Brand, Brand, R>(
        rt,
        alloc,
        system,
        Blank::new(parts),
        Blank::new(parts),
        Blank::new(parts),
    )
}

// A failed close returns the station with its seats, which can go on and close later; the history has both turns.
#[test]
fn seats_are_handed_back(rt: HostRuntime) {
    let alloc = rt.alloc();
    let program = parsed(&rt, alloc, TWO_PROCESSORS);
    let system = opened(&rt, alloc, &program, 6);
    let closed = misplaced(&rt, alloc, system);
    check_same(&rt, &closed.history(), &[0, 1].as_slice());
}
