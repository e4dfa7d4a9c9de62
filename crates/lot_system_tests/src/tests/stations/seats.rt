//! Turns of seats, and the shares of a seat. They are among the tests, since the crate would prove them a second time
//! as a library.
ghost use Rattle.std.specs.Prelude.{◌≡◌};
ghost use Rattle.lot_station.specs.BatonSeats.{IsSameSeat, seat_counts};

use lot_engine::{Answer, TurnFault, slice_for};
use lot_program::Program;
use lot_station::{BatonSeat, BatonStation, Seat, Station, TurnLedger};
use std::sync::Wait;
use std::sync::ledger::Ledger;

/// A seat's turns, quanta and ticks.
pub(crate) type Shares = (u64, u64, u64);

pub(crate) fn shares_of<T: TurnLedger, Q: Ledger, K: Ledger>(seat: &Seat<T, Q, K>) -> Shares
    ensures { (result.0 ≡ seat.now.turns) × (result.1 ≡ seat.now.quanta) × (result.2 ≡ seat.now.ticks) }
{
    (seat.turns(), seat.quanta(), seat.ticks())
}

/// The result of the next turn of the seat, with the slice of its work, if it is made.
pub(crate) fn answer_of<T: TurnLedger, Q: Ledger, K: Ledger>(
    rt: &impl Wait,
    program: &Program,
    station: &Station<T, Q, K>,
    seat: &mut Seat<T, Q, K>,
) -> Option<Answer> {
    let slice = slice_for(program, station.work(rt, seat)).ok()?;
    station.turn(rt, seat, slice).ok()
}

/// A turn of the seat of a baton station, with the slice of its work in this program if it has any.
pub(crate) fn make_turn<R: Wait>(
    rt: &R,
    station: &BatonStation,
    program: &Program,
    seat: &mut BatonSeat,
) -> Result<Answer, TurnFault>
    requires { seat.old.station ≡ station.now.id }
    ensures { IsSameSeat seat.old seat.new }
{
    let work = station.work(rt, seat);
    let slice = slice_for(program, work)?;
    station.turn(rt, seat, slice)
}

/// The counters of the seat of a baton station.
pub(crate) fn baton_shares_of(seat: &BatonSeat) -> Shares
    ensures { (result.0 ≡ (seat_counts seat.now).turns) × (result.1 ≡ (seat_counts seat.now).quanta)
        × (result.2 ≡ (seat_counts seat.now).ticks) }
{
    (seat.turns(), seat.quanta(), seat.ticks())
}
