//! Closing a station.
ghost use Rattle.std.specs.Prelude.{◌≡◌, ◌⊎◌, ◌+◌, ◌<◌, ◌≤◌, length, sum_by, IfOk, IfErr, MatchBool};
ghost use Rattle.lot_engine.specs.Seen.{Seen};
ghost use Rattle.lot_station.specs.declared.station.CloseFault.TheVariants.{SeatMissing, CountsDiffer};
ghost use Rattle.lot_station.specs.Holders.{AddUp, CountsAgree, InOrder};
ghost use Rattle.lot_station.specs.Settings.{IsLegalIn, times_in};

use crate::desk::Desk;
use crate::{CloseFault, Seat, Station, TurnLedger};
use lot_engine::System;
use std::sync::ledger::{Ledger, Share};

impl<T: TurnLedger, Q: Ledger, K: Ledger> Station<T, Q, K> {
    /// Takes the seats, and returns the system. Its history has as many turns of each actor as its seat made, and as
    /// many turns, quanta and ticks as all seats' shares together.
    ///
    /// Fails with `SeatMissing` unless the seats are one for each actor, in order, and otherwise with `CountsDiffer` if
    /// a share of turns isn't its actor's count in the history.
    pub fn close(self, seats: Vec<Seat<T, Q, K>>) -> Result<System, CloseFault<T, Q, K>>
        requires { (T.parts ≡ self.program.limits.processors + 1) × (Q.parts ≡ self.program.limits.processors + 1)
            × (K.parts ≡ self.program.limits.processors + 1) }
        ensures setting { IfOk result (λ x. x.setting ≡ self) }
        ensures legal { IfOk result IsLegalIn }
        ensures order { IfOk result (λ x. InOrder self.program.limits.processors seats.items) }
        ensures counts { IfOk result (λ x. CountsAgree x seats.items) }
        ensures sums { IfOk result (λ x. AddUp x seats.items) }
        ensures err { IfErr result (λ f. ((f ≡ SeatMissing self seats)
            × (¬ InOrder self.program.limits.processors seats.items))
            ⊎ ((x : Seen) × (f ≡ CountsDiffer x seats) × (x.setting ≡ self) × IsLegalIn x
            × InOrder self.program.limits.processors seats.items × (¬ CountsAgree x seats.items))) }
    {
        if !in_order(self.processors, seats.as_slice()) {
            return Err(CloseFault::SeatMissing(self, seats));
        }
        let Station {
            desk,
            processors: _,
        } = self;
        let Desk {
            system,
            mut turns,
            mut quanta,
            mut ticks,
        } = desk.into_inner();
        if !counts_agree(&system, seats.as_slice()) {
            return Err(CloseFault::CountsDiffer(system, seats));
        }
        let (mut all_turns, mut all_quanta, mut all_ticks) = merged(seats);
        turns.audit(&mut all_turns);
        quanta.audit(&mut all_quanta);
        ticks.audit(&mut all_ticks);
        Ok(system)
    }
}

/// Whether there is one seat for each actor, in order.
fn in_order<T: TurnLedger, Q: Ledger, K: Ledger>(processors: u32, seats: &[Seat<T, Q, K>]) -> bool
    ensures { MatchBool result (InOrder processors seats.now) (¬ InOrder processors seats.now) }
{
    if seats.len() != processors as usize + 1 {
        return false;
    }
    for (k, seat) in seats.iter().enumerate() {
        if seat.actor() as usize != k {
            return false;
        }
    }
    true
}

/// The number of the actor's turns in the system's history.
fn times(system: &System, actor: u32) -> u64
    requires { actor ≤ system.now.setting.program.limits.processors }
    ensures { result ≡ times_in system.now actor }
{
    system.counts(actor).turns
}

/// Whether each seat's share of turns is its actor's count in the history.
fn counts_agree<T: TurnLedger, Q: Ledger, K: Ledger>(
    system: &System,
    seats: &[Seat<T, Q, K>],
) -> bool
    requires { system.now.setting ≡ T.setting }
    ensures { MatchBool result (CountsAgree system.now seats.now) (¬ CountsAgree system.now seats.now) }
{
    for seat in seats {
        if seat.turns() != times(system, seat.actor) {
            return false;
        }
    }
    true
}

/// All shares, joined into three.
fn merged<T: TurnLedger, Q: Ledger, K: Ledger>(
    mut seats: Vec<Seat<T, Q, K>>,
) -> (Share<T>, Share<Q>, Share<K>)
    requires { 0 < length seats.items }
    ensures parts { (result.0.parts ≡ length seats.items) × (result.1.parts ≡ length seats.items)
        × (result.2.parts ≡ length seats.items) }
    ensures amounts { (result.0.amount ≡ sum_by (λ s. s.turns) seats.items)
        × (result.1.amount ≡ sum_by (λ s. s.quanta) seats.items)
        × (result.2.amount ≡ sum_by (λ s. s.ticks) seats.items) }
{
    let Seat {
        actor: _,
        turns,
        quanta,
        ticks,
        stopped: _,
    } = seats.remove(0);
    let mut all_turns = turns.into_share();
    let mut all_quanta = quanta.into_share();
    let mut all_ticks = ticks.into_share();
    for seat in seats {
        let Seat {
            actor: _,
            turns,
            quanta,
            ticks,
            stopped: _,
        } = seat;
        all_turns.merge(turns.into_share());
        all_quanta.merge(quanta.into_share());
        all_ticks.merge(ticks.into_share());
    }
    (all_turns, all_quanta, all_ticks)
}
