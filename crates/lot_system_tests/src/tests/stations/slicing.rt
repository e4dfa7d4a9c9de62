//! A slice used twice.

use crate::tests::same::check_same;
use crate::tests::stations::scene::{Scene, played_in};
use crate::tests::stations::seats::shares_of;
use crate::tests::stations::{opened, parsed};
use lot_engine::{TurnFault, Work, slice_for};
use lot_machine::{Outcome, Reply};
use lot_program::Program;
use lot_script::Place;
use lot_station::{Seat, Station, TurnLedger};
use std::alloc::Global;
use std::process::Abort;
use std::sync::Wait;
use std::sync::ledger::Ledger;
use std::test::*;

/// A thread that locks and then computes.
const LOCKER: &str =
    "lottery 1\nmutex m\nscript s\nlock m\ncompute 5\nendscript\nfundx 1 base a s\n";

const LOCKED: Reply = Reply::Trapped {
    thread: 1,
    ticks: 1,
    outcome: Outcome::Locked,
    ends: false,
};

/// A copy of the work.
fn copied(work: &Work) -> Work {
    Work {
        thread: work.thread,
        script: work.script,
        place: work.place.copied(),
        budget: work.budget,
    }
}

/// A draw, and then the slice of the winner, which locks. Returns its end, and its work.
fn lock<T: TurnLedger, Q: Ledger, K: Ledger, R: Wait + Abort>(
    rt: &R,
    program: &Program,
    station: &Station<T, Q, K>,
    seat: &mut Seat<T, Q, K>,
) -> (Place, Work) {
    check_made(rt, station.turn(rt, seat, None).is_ok());
    let work = station.work(rt, seat).expect(rt, "work");
    let slice = slice_for(program, Some(copied(&work))).expect(rt, "a script");
    let slice = slice.expect(rt, "a slice");
    let end = slice.end().copied();
    let answer = station.turn(rt, seat, Some(slice)).expect(rt, "a turn");
    check_same(rt, &answer.reply, &LOCKED);
    (end, work)
}

/// Checks that a turn was made.
fn check_made(rt: &impl Abort, is_made: bool) {
    assert!(rt; is_made);
}

/// The work in the `Stale` fault of the slice of this work.
fn refused<T: TurnLedger, Q: Ledger, K: Ledger, R: Wait + Abort>(
    rt: &R,
    program: &Program,
    station: &Station<T, Q, K>,
    seat: &mut Seat<T, Q, K>,
    work: Work,
) -> Work {
    let again = slice_for(program, Some(work)).expect(rt, "a script");
    match station.turn(rt, seat, again) {
        Err(TurnFault::Stale(Some(stale))) => stale,
        _ => rt.panic("the slice isn't stale"),
    }
}

/// Whether the slice of this work fails with a full history.
fn finds_full<T: TurnLedger, Q: Ledger, K: Ledger, R: Wait + Abort>(
    rt: &R,
    program: &Program,
    station: &Station<T, Q, K>,
    seat: &mut Seat<T, Q, K>,
    work: Work,
) -> bool {
    let right = slice_for(program, Some(work)).expect(rt, "a script");
    let turn = station.turn(rt, seat, right);
    matches!(turn, Err(TurnFault::HistoryFull))
}

/// A draw, and then the slice of the winner, twice. The second use fails with the work after it, and changes no shares.
/// The right slice then finds the history full.
fn use_twice<T: TurnLedger, Q: Ledger, K: Ledger, R: Wait + Abort>(
    rt: &R,
    program: &Program,
    station: &Station<T, Q, K>,
    seat: &mut Seat<T, Q, K>,
) {
    let (end, work) = lock(rt, program, station, seat);
    check_same(rt, &shares_of(seat), &(2, 1, 1));
    let stale = refused(rt, program, station, seat, work);
    check_same(rt, &shares_of(seat), &(2, 1, 1));
    check_same(rt, &(stale.thread, stale.budget), &(1, 99));
    check_same(rt, &stale.place, &end);
    assert!(rt; finds_full(rt, program, station, seat, stale));
}

/// A command, and then one slice twice.
#[derive(Drop)]
struct OneSliceTwice;

impl Scene for OneSliceTwice {
    type Seen = ();

    fn play<T: TurnLedger, Q: Ledger, K: Ledger, R: Wait + Abort>(
        &self,
        rt: &R,
        _alloc: Global,
        program: &Program,
        station: &Station<T, Q, K>,
        seats: &mut Vec<Seat<T, Q, K>>,
    ) {
        let console = seats.get_mut(0).expect(rt, "a console");
        check_made(rt, station.turn(rt, console, None).is_ok());
        let processor = seats.get_mut(1).expect(rt, "a processor");
        use_twice(rt, program, station, processor);
    }
}

/// Plays the scene, and checks the history.
fn check_twice<R: Wait + Abort>(rt: &R, alloc: Global, program: &Program) {
    let system = opened(rt, alloc, program, 3);
    let (_, closed) = played_in(rt, alloc, program, system, &OneSliceTwice).expect(rt, "memory");
    check_same(rt, &closed.history(), &[0, 1, 1].as_slice());
}

// A used slice is stale: the work is after its trap, and neither history nor shares change. The system has room for
// three turns, and its history is the three turns made.
#[test]
fn a_slice_twice(rt: HostRuntime) {
    let alloc = rt.alloc();
    let program = parsed(&rt, alloc, LOCKER);
    check_twice(&rt, alloc, &program)
}
