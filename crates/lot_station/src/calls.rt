//! The calls of a seat.
ghost use Rattle.std.specs.Prelude.{◌≡◌, IfOk, IfErr, OnErr};
ghost use Rattle.lot_engine.specs.Turns.{Answers, Faults, Goes, IsWorkOf};
ghost use Rattle.lot_station.specs.Holders.{with_turn};
ghost use Rattle.lot_station.specs.Settings.{AtSome};

use crate::{Seat, Station, TurnLedger};
use lot_engine::{Answer, TurnFault, Work};
use lot_script::Slice;
use std::sync::Wait;
use std::sync::ledger::Ledger;

impl<T: TurnLedger, Q: Ledger, K: Ledger> Station<T, Q, K> {
    /// Makes the turn of the seat's actor, like `System::turn`. The seat's shares grow by one turn, by one quantum if a
    /// thread won a draw, and by the turn's ticks; a fault leaves the seat unchanged. It may block.
    ///
    /// The result, the next work in it and the fault are those of the system's program after some legal history.
    pub fn turn(
        &self,
        rt: &impl Wait,
        seat: &mut Seat<T, Q, K>,
        slice: Option<Slice>,
    ) -> Result<Answer, TurnFault>
        ensures ok { IfOk result (λ answer. seat.new ≡ with_turn seat.old answer.reply) }
        ensures err { OnErr result (seat.new ≡ seat.old) }
        ensures answer { IfOk result (λ answer. AtSome self.now
            (λ x. Goes x seat.old.actor slice.entry × Answers x seat.old.actor answer)) }
        ensures next { IfOk result (λ answer. AtSome self.now (λ x. IsWorkOf x seat.old.actor answer.next)) }
        ensures fault { IfErr result (λ fault. AtSome self.now (λ x. Faults x seat.old.actor slice.entry fault)) }
    {
        self.desk.lock(rt).turn(seat, slice)
    }

    /// The next work of the seat's actor, like `System::work`. It may block.
    ///
    /// It is the work in the system's program after some legal history.
    pub fn work(&self, rt: &impl Wait, seat: &Seat<T, Q, K>) -> Option<Work>
        ensures { AtSome self.now (λ x. IsWorkOf x seat.now.actor result) }
    {
        self.desk.lock(rt).system.work(seat.actor)
    }
}
