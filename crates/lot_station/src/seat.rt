//! The seats of a station.
ghost use Rattle.std.specs.Prelude.{◌≡◌, Some, None};

use crate::TurnLedger;
use crate::holding::Holding;
use lot_engine::TurnFault;
use std::marker::Model;
use std::sync::ledger::Ledger;

/// The right of one actor to make turns, with its shares of the totals of all turns, and storage for the fault that
/// stopped its worker.
#[derive(Drop)]
pub struct Seat<T: TurnLedger, Q: Ledger, K: Ledger> {
    pub(crate) actor: u32,
    pub(crate) turns: Holding<T>,
    pub(crate) quanta: Holding<Q>,
    pub(crate) ticks: Holding<K>,
    pub(crate) stopped: Option<TurnFault>,
}

impl<T: TurnLedger, Q: Ledger, K: Ledger> Model for Seat<T, Q, K> {
    ghost use Rattle.std.specs.Prelude.{◌≤◌};
    ghost use Rattle.lot_station.specs.Holders.{Holder};

    ghost Value = { Holder };

    ghost view = { λ s. record {
      actor = s.actor;
      turns = s.turns;
      quanta = s.quanta;
      ticks = s.ticks;
      stopped = s.stopped;
    } };

    ghost invariant = { λ s. s.actor ≤ T.setting.program.limits.processors };
}

impl<T: TurnLedger, Q: Ledger, K: Ledger> Seat<T, Q, K> {
    /// The actor: 0 for the console, otherwise the processor's number.
    pub fn actor(&self) -> u32
        ensures { result ≡ self.now.actor }
    {
        self.actor
    }

    /// The share of the turns: the number that the seat has made.
    pub fn turns(&self) -> u64
        ensures { result ≡ self.now.turns }
    {
        self.turns.amount()
    }

    /// The share of the quanta: the won draws among the seat's turns.
    pub fn quanta(&self) -> u64
        ensures { result ≡ self.now.quanta }
    {
        self.quanta.amount()
    }

    /// The share of the ticks: those of the expiries and traps among the seat's turns.
    pub fn ticks(&self) -> u64
        ensures { result ≡ self.now.ticks }
    {
        self.ticks.amount()
    }

    /// Stores the fault that stopped the seat's worker, in place of any earlier one.
    pub fn stop(&mut self, fault: TurnFault)
        ensures { self.new ≡ record self.old { stopped = Some fault } }
    {
        self.stopped = Some(fault);
    }

    /// Takes out the stored fault, if there is one.
    pub fn take_fault(&mut self) -> Option<TurnFault>
        ensures fault { result ≡ self.old.stopped }
        ensures taken { self.new ≡ record self.old { stopped = None } }
    {
        self.stopped.take()
    }
}
