//! Seats on threads of their own.
ghost use Rattle.std.specs.Prelude.{◌≡◌, ◌+◌, false};

use crate::tests::stations::replaying::{check_replay, unanswered, unlocked};
use crate::tests::stations::seats::answer_of;
use crate::tests::stations::{TWO_PROCESSORS, opened, parsed};
use lot_engine::{Answer, System};
use lot_program::Program;
use lot_station::{Seat, Station, TurnLedger};
use std::alloc::Global;
use std::marker::Brand;
use std::process::Abort;
use std::sync::Wait;
use std::sync::ledger::{Blank, Ledger};
use std::test::*;
use std::thread;
use std::thread::Threads;

/// The turns that each seat makes.
static TURNS: [u32; 3] = [1, 2, 2];

/// Makes the seat's turns, each with the slice of its work, until one fails or memory runs out.
fn play_turns<T: TurnLedger, Q: Ledger, K: Ledger>(
    rt: &impl Wait,
    program: &Program,
    station: &Station<T, Q, K>,
    seat: &mut Seat<T, Q, K>,
    answers: &mut Vec<Answer>,
) {
    let turns = TURNS.get(seat.actor() as usize).copied().unwrap_or(0);
    for _turn in 0..turns {
        let Some(answer) = answer_of(rt, program, station, seat) else {
            return;
        };
        if answers.push(answer).is_err() {
            return;
        }
    }
}

/// The turns of all seats of a station, in threads, and the results of each seat's.
fn race<
    T: TurnLedger + Send + Sync,
    Q: Ledger + Send + Sync,
    K: Ledger + Send + Sync,
    R: Threads + Wait + Abort + Sync,
>(
    rt: &R,
    alloc: Global,
    program: &Program,
    station: &Station<T, Q, K>,
    seats: &mut [Seat<T, Q, K>],
) -> Vec<Vec<Answer>> {
    let answers = unanswered(rt, alloc, seats.len());
    thread::for_each_mut(
        rt,
        seats,
        3,
        &|k, seat| {
            if let Some(answers) = answers.get(k) {
                play_turns(rt, program, station, seat, &mut answers.lock(rt));
            }
        },
    );
    unlocked(rt, alloc, answers)
}

/// A race in a station of the system, and the system that `close` returned.
fn race_in<
    T: TurnLedger + Send + Sync,
    Q: Ledger + Send + Sync,
    K: Ledger + Send + Sync,
    R: Threads + Wait + Abort + Sync,
>(
    rt: &R,
    alloc: Global,
    program: &Program,
    system: System,
    turns: Blank,
    quanta: Blank,
    ticks: Blank,
) -> (Vec<Vec<Answer>>, System)
    requires setting { system.setting ≡ T.setting }
    requires timer { system.setting.timer ≡ false }
    requires turns { (turns.name ≡ T.name) × (turns.parts ≡ T.parts)
        × (T.parts ≡ system.setting.program.limits.processors + 1) }
    requires quanta { (quanta.name ≡ Q.name) × (quanta.parts ≡ Q.parts)
        × (Q.parts ≡ system.setting.program.limits.processors + 1) }
    requires ticks { (ticks.name ≡ K.name) × (ticks.parts ≡ K.parts)
        × (K.parts ≡ system.setting.program.limits.processors + 1) }
{
    let opened = Station::<T, Q, K>::open(alloc, system, turns, quanta, ticks);
    let (station, mut seats) = opened.expect(rt, "memory");
    let answers = race(rt, alloc, program, &station, &mut seats);
    match station.close(seats) {
        Ok(closed) => (answers, closed),
        Err(_) => rt.panic("the station isn't closed"),
    }
}

/// A race in a new system of the program, in a station with ledgers of its own.
fn raced<R: Threads + Wait + Abort + Sync>(
    rt: &R,
    alloc: Global,
    program: &Program,
) -> (Vec<Vec<Answer>>, System) {
    let system = opened(rt, alloc, program, 5);
    let parts = u64::from(system.processors()) + 1;
    race_in::<Brand, Brand, Brand, R>(
        rt,
        alloc,
        program,
        system,
        Blank::new(parts),
        Blank::new(parts),
        Blank::new(parts),
    )
}

/// Checks that each result of a race is the one of the closed history.
fn check_race<R: Threads + Wait + Abort + Sync>(rt: &R, alloc: Global, program: &Program) {
    let (answers, closed) = raced(rt, alloc, program);
    check_replay(rt, alloc, program, 5, closed, &answers)
}

// Whatever the order in which three threads got the lock, each result is the one of the closed history.
#[test]
fn answers_replay(rt: HostRuntime) {
    let alloc = rt.alloc();
    let program = parsed(&rt, alloc, TWO_PROCESSORS);
    for _round in 0..100 {
        check_race(&rt, alloc, &program);
    }
}
