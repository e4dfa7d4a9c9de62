//! Seats of a baton station that take turns on one thread and on many.
ghost use Rattle.std.specs.Prelude.{◌≡◌, All, IfSome};
ghost use Rattle.lot_station.specs.BatonSeats.{IsSameSeat, IsSeatOf};

use crate::tests::same::check_same;
use crate::tests::stations::seats::{baton_shares_of, make_turn};
use crate::tests::stations::{
    ENDED, EXPIRED, FIRST_DRAW, FUNDED, IDLE, SECOND_DRAW, TWO_PROCESSORS, check_end, opened,
    parsed,
};
use lot_engine::{System, TurnFault};
use lot_machine::Reply;
use lot_program::Program;
use lot_station::{BatonSeat, BatonStation, SeatMissing};
use std::alloc::Global;
use std::process::Abort;
use std::sync::Wait;
use std::test::*;

mod threads;

/// The reply to the turn, if it was made.
fn reply_of<R: Wait>(
    rt: &R,
    station: &BatonStation,
    program: &Program,
    seat: &mut BatonSeat,
) -> Option<Reply>
    requires { IsSeatOf station.now seat.old }
    ensures { IsSameSeat seat.old seat.new }
{
    let answer = make_turn(rt, station, program, seat).ok()?;
    Some(answer.reply)
}

/// Three seats of the station, one by one.
fn three(
    _station: &BatonStation,
    mut seats: Vec<BatonSeat>,
) -> Option<(BatonSeat, BatonSeat, BatonSeat)>
    requires { All (IsSeatOf _station.now) seats.items }
    ensures { IfSome result (λ r. IsSeatOf _station.now r.0 × IsSeatOf _station.now r.1 × IsSeatOf _station.now r.2) }
{
    if seats.len() != 3 {
        return None;
    }
    let zero = seats.remove(0);
    let one = seats.remove(0);
    let two = seats.remove(0);
    Some((zero, one, two))
}

/// A station of the program with room for ten turns, and its three seats.
fn dealt(
    rt: &impl Abort,
    alloc: Global,
    program: &Program,
) -> (BatonStation, BatonSeat, BatonSeat, BatonSeat)
    ensures { IsSeatOf result.0 result.1 × IsSeatOf result.0 result.2 × IsSeatOf result.0 result.3 }
{
    let system = opened(rt, alloc, program, 10);
    let (station, seats) = BatonStation::open(alloc, system).expect(rt, "memory");
    let (zero, one, two) = three(&station, seats).expect(rt, "three seats");
    (station, zero, one, two)
}

/// The reply to the draw of the second processor, if it comes before the first's.
const OTHER_DRAW: Option<Reply> = Some(Reply::Winner {
    thread: 1,
    number: 5,
    total: 10,
    delivered: None,
});

/// Turns of the seats 0, 2 and 1, each of which has met the one before.
fn met<R: Wait>(
    rt: &R,
    station: &BatonStation,
    program: &Program,
    zero: &mut BatonSeat,
    one: &mut BatonSeat,
    two: &mut BatonSeat,
) -> [Option<Reply>; 3]
    requires { IsSeatOf station.now zero.old × IsSeatOf station.now one.old × IsSeatOf station.now two.old }
    ensures { IsSameSeat zero.old zero.new × IsSameSeat one.old one.new × IsSameSeat two.old two.new }
{
    let first = reply_of(rt, station, program, zero);
    station.meet(rt, zero, two);
    let second = reply_of(rt, station, program, two);
    station.meet(rt, two, one);
    [first, second, reply_of(rt, station, program, one)]
}

/// The error of closing a station with these seats.
fn unclosed<R: Wait + Abort>(rt: &R, station: BatonStation, seats: Vec<BatonSeat>) -> SeatMissing
    requires { All (IsSeatOf station) seats.items }
    ensures seats { All (IsSeatOf result.station) result.seats.items }
    ensures station { result.station ≡ station }
{
    match station.close(rt, seats) {
        Ok(_) => rt.panic("the station is closed"),
        Err(back) => back,
    }
}

/// The error of closing a station with the seats that it returned, and then this one, or `None` if out of memory.
fn unclosed_with<R: Wait + Abort>(
    rt: &R,
    mut back: SeatMissing,
    one: BatonSeat,
) -> Option<SeatMissing>
    requires { IsSeatOf back.station one × All (IsSeatOf back.station) back.seats.items }
    ensures { IfSome result (λ again. All (IsSeatOf again.station) again.seats.items) }
{
    back.seats.push(one).ok()?;
    Some(unclosed(rt, back.station, back.seats))
}

/// The station with its three seats, the last two exchanged, after it returned them twice: once for a missing seat, and
/// once for the wrong order.
fn handed_back<R: Wait + Abort>(
    rt: &R,
    alloc: Global,
    station: BatonStation,
    zero: BatonSeat,
    one: BatonSeat,
    two: BatonSeat,
) -> SeatMissing
    requires { IsSeatOf station zero × IsSeatOf station one × IsSeatOf station two }
    ensures { All (IsSeatOf result.station) result.seats.items }
{
    let seats = vec![in alloc; zero, two].expect(rt, "memory");
    let back = unclosed(rt, station, seats);
    unclosed_with(rt, back, one).expect(rt, "memory")
}

/// The closed station, after one failure for a missing seat and one for the wrong order.
fn closed<R: Wait + Abort>(
    rt: &R,
    alloc: Global,
    station: BatonStation,
    zero: BatonSeat,
    one: BatonSeat,
    two: BatonSeat,
) -> System
    requires { IsSeatOf station zero × IsSeatOf station one × IsSeatOf station two }
{
    let SeatMissing { station, seats } = handed_back(rt, alloc, station, zero, one, two);
    let (zero, two, one) = three(&station, seats).expect(rt, "three seats");
    let seats = vec![in alloc; zero, one, two].expect(rt, "memory");
    match station.close(rt, seats) {
        Ok(system) => system,
        Err(_) => rt.panic("the station isn't closed"),
    }
}

/// Makes turns after meetings, and checks their replies and the history.
fn check_meetings<R: Wait + Abort>(rt: &R, alloc: Global, program: &Program) {
    let (station, mut zero, mut one, mut two) = dealt(rt, alloc, program);
    let replies = met(rt, &station, program, &mut zero, &mut one, &mut two);
    check_same(rt, &replies, &[FUNDED, OTHER_DRAW, IDLE]);
    let system = closed(rt, alloc, station, zero, one, two);
    check_same(rt, &system.history(), &[0, 2, 1].as_slice());
}

// The turns after meetings get these replies: of a command, of a draw of 5 of 10, and of a draw without a winner.
#[test]
fn turns_after_meetings(rt: HostRuntime) {
    let alloc = rt.alloc();
    let program = parsed(&rt, alloc, TWO_PROCESSORS);
    check_meetings(&rt, alloc, &program)
}

/// The turns of the actors 0, 1, 2, 1 and 2.
fn scheduled<R: Wait>(
    rt: &R,
    station: &BatonStation,
    program: &Program,
    zero: &mut BatonSeat,
    one: &mut BatonSeat,
    two: &mut BatonSeat,
) -> [Option<Reply>; 5]
    requires { IsSeatOf station.now zero.old × IsSeatOf station.now one.old × IsSeatOf station.now two.old }
    ensures { IsSeatOf station.now zero.new × IsSeatOf station.now one.new × IsSeatOf station.now two.new }
{
    [
        reply_of(rt, station, program, zero),
        reply_of(rt, station, program, one),
        reply_of(rt, station, program, two),
        reply_of(rt, station, program, one),
        reply_of(rt, station, program, two),
    ]
}

/// Whether the seat's turn fails with `Ended`, the console having no command left, and the seat stores that fault until
/// it is taken.
fn is_ended<R: Wait>(
    rt: &R,
    station: &BatonStation,
    program: &Program,
    seat: &mut BatonSeat,
) -> bool
    requires { IsSeatOf station.now seat.old }
    ensures { IsSeatOf station.now seat.new }
{
    match make_turn(rt, station, program, seat) {
        Err(fault) => seat.stop(fault),
        Ok(_) => return false,
    }
    matches!(seat.take_fault(), Some(TurnFault::Ended)) && seat.take_fault().is_none()
}

/// Compares the seats' shares.
fn check_shares(rt: &impl Abort, zero: &BatonSeat, one: &BatonSeat, two: &BatonSeat) {
    check_same(rt, &baton_shares_of(zero), &ENDED[0]);
    check_same(rt, &baton_shares_of(one), &ENDED[1]);
    check_same(rt, &baton_shares_of(two), &ENDED[2]);
}

/// The replies to these turns.
const REPLIES: [Option<Reply>; 5] = [FUNDED, FIRST_DRAW, IDLE, EXPIRED, SECOND_DRAW];

/// Makes all turns, and checks their replies, the seats and the end.
fn check_scheduled<R: Wait + Abort>(rt: &R, alloc: Global, program: &Program) {
    let (station, mut zero, mut one, mut two) = dealt(rt, alloc, program);
    let replies = scheduled(rt, &station, program, &mut zero, &mut one, &mut two);
    check_same(rt, &replies, &REPLIES);
    check_same(rt, &is_ended(rt, &station, program, &mut zero), &true);
    check_shares(rt, &zero, &one, &two);
    check_end(rt, alloc, closed(rt, alloc, station, zero, one, two))
}

// The same row as for the station under a lock: the same replies, a fault of the console's next turn, the same numbers
// of the seats, and the same end.
#[test]
fn write_then_read(rt: HostRuntime) {
    let alloc = rt.alloc();
    let program = parsed(&rt, alloc, TWO_PROCESSORS);
    check_scheduled(&rt, alloc, &program)
}
