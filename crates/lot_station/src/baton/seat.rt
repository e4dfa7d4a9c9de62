//! The right of an actor to make turns.
ghost use Rattle.std.specs.Prelude.{◌≡◌, Some, None};
ghost use Rattle.lot_station.specs.BatonSeats.{seat_counts};

use crate::baton::view::View;
use crossbeam_queue::Pass;
use lot_engine::{Counts, System, TurnFault};
use std::marker::Model;

/// A seat's pass of the queue.
pub(super) type Token = Pass<System, View>;

/// The right of one actor to make turns, with the history that it has seen, and storage for the fault that stopped its
/// worker.
///
/// A station deals one for each actor, and nothing can copy it. The history that a seat has seen is ghost state:
/// contracts refer to it, and each call of the station extends it or leaves it unchanged.
#[derive(Drop)]
pub struct BatonSeat {
    pub(super) pass: Token,
    pub(super) actor: u32,
    /// The counters of the actor's turns in the history that the seat has seen.
    pub(super) counts: Counts,
    pub(super) stopped: Option<TurnFault>,
}

impl Model for BatonSeat {
    ghost use Rattle.std.specs.Prelude.{◌≡◌, ◌+◌, ◌≤◌, false, [], ◌∷◌};
    ghost use Rattle.crossbeam_queue.specs.Passes.{view as pass_view};
    ghost use Rattle.lot_station.specs.BatonViews.{claim, resting};
    ghost use Rattle.lot_station.specs.BatonSeats.{Seat, seat, seen_in};
    ghost use Rattle.lot_station.specs.Settings.{counts_in};

    ghost Value = { Seat };

    ghost view = { λ s. seat s.pass.table_id s.actor (seen_in (pass_view s.pass).claims) s.stopped };

    ghost invariant = { λ s.
        (s.pass.me.1 ≡ [])
        × (pass_view s.pass ≡ resting (claim s.actor (s.actor + 1) (seen_in (pass_view s.pass).claims) ∷ []))
        × (s.actor ≤ (seen_in (pass_view s.pass).claims).setting.program.limits.processors)
        × (s.counts ≡ counts_in (seen_in (pass_view s.pass).claims) s.actor)
        × ((seen_in (pass_view s.pass).claims).setting.timer ≡ false) };
}

impl BatonSeat {
    /// The actor: 0 for the console, otherwise the processor's number.
    pub fn actor(&self) -> u32
        ensures { result ≡ self.now.actor }
    {
        self.actor
    }

    /// The number of turns that the seat has made.
    pub fn turns(&self) -> u64
        ensures { result ≡ (seat_counts self.now).turns }
    {
        self.counts.turns
    }

    /// The quanta: the won draws among the seat's turns.
    pub fn quanta(&self) -> u64
        ensures { result ≡ (seat_counts self.now).quanta }
    {
        self.counts.quanta
    }

    /// The ticks: those of the expiries and traps among the seat's turns.
    pub fn ticks(&self) -> u64
        ensures { result ≡ (seat_counts self.now).ticks }
    {
        self.counts.ticks
    }

    /// Stores the fault that stopped the seat's worker, in place of any earlier one.
    pub fn stop(&mut self, fault: TurnFault)
        ensures { self.new ≡ record self.old { stopped = Some fault } }
    {
        self.stopped = Some(fault);
    }

    /// Takes out the stored fault, if there is one.
    pub fn take_fault(&mut self) -> Option<TurnFault>
        ensures fault { result ≡ self.old.stopped }
        ensures seat { self.new ≡ record self.old { stopped = None } }
    {
        self.stopped.take()
    }
}
