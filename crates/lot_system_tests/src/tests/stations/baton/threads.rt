//! A station whose seats take turns in threads of their own, and one thread that makes the same turns again.
ghost use Rattle.std.specs.Prelude.{All};
ghost use Rattle.lot_station.specs.BatonSeats.{IsSeatOf};

use crate::tests::stations::replaying::{Answers, check_replay, unanswered, unlocked};
use crate::tests::stations::seats::make_turn;
use crate::tests::stations::{opened, parsed};
use lot_engine::{Answer, System};
use lot_program::Program;
use lot_station::{BatonSeat, BatonStation};
use std::alloc::Global;
use std::process::Abort;
use std::sync::Wait;
use std::test::*;
use std::thread;
use std::thread::Threads;

/// Eight processors and six threads that share a mutex.
const BUSY: &str = "lottery 1\nprocessors 8\nmutex m\n\
    script busy\nloop 65535\ncompute 30\nyield\nlock m\ncompute 5\nunlock m\nend\nendscript\n\
    fundx 10 base a busy\nfundx 20 base b busy\nfundx 30 base c busy\nfundx 40 base d busy\nfundx 50 base e busy\n\
    fundx 60 base f busy\n";

/// The most turns that an actor makes.
const TURNS: usize = 1000;

/// Room for the turns of eight processors and the console's six commands.
const ROOM: u32 = 8006;

/// Makes this many turns of the seat, or fewer and then a fault, which the seat stores.
fn play<R: Wait>(
    rt: &R,
    station: &BatonStation,
    program: &Program,
    seat: &mut BatonSeat,
    answers: &mut Vec<Answer>,
)
    requires { IsSeatOf station.now seat.old }
    ensures { IsSeatOf station.now seat.new }
{
    for _k in 0..TURNS {
        match make_turn(rt, station, program, seat) {
            Ok(answer) => {
                if answers.push(answer).is_err() {
                    return;
                }
            }
            Err(fault) => {
                seat.stop(fault);
                return;
            }
        }
    }
}

/// The turns of all seats, each in a thread of its own if one can be started.
fn play_all<R: Threads + Wait + Sync>(
    rt: &R,
    station: &BatonStation,
    program: &Program,
    seats: &mut [BatonSeat],
    answers: &[Answers],
)
    requires { All (IsSeatOf station.now) seats.old }
    ensures { All (IsSeatOf station.now) seats.new }
{
    let work = |k: usize, seat: &mut BatonSeat|
        requires { IsSeatOf station.now seat.now }
        ensures { IsSeatOf station.entry.now seat.exit.now }
    {
        if let Some(answers) = answers.get(k) {
            play(rt, station, program, seat, &mut answers.lock(rt));
        }
    };
    thread::for_each_mut(rt, seats, seats.len() + 1, &work);
}

/// A system of the program after all turns of all seats, and their results.
fn played<R: Threads + Wait + Abort + Sync>(
    rt: &R,
    alloc: Global,
    program: &Program,
) -> (System, Vec<Vec<Answer>>) {
    let system = opened(rt, alloc, program, ROOM);
    let (station, mut seats) = BatonStation::open(alloc, system).expect(rt, "memory");
    let answers = unanswered(rt, alloc, seats.len());
    play_all(rt, &station, program, &mut seats, &answers);
    let answers = unlocked(rt, alloc, answers);
    match station.close(rt, seats) {
        Ok(system) => (system, answers),
        Err(_) => rt.panic("the station isn't closed"),
    }
}

// All turns of all seats, compared with those by one thread.
#[test]
fn turns_in_threads(rt: HostRuntime) {
    let alloc = rt.alloc();
    let program = parsed(&rt, alloc, BUSY);
    let (system, answers) = played(&rt, alloc, &program);
    check_replay(&rt, alloc, &program, ROOM, system, &answers);
}
