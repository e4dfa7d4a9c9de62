//! The station.

use crate::desk::Desk;
use crate::{Seat, TurnLedger};
use lot_engine::System;
use std::marker::Model;
use std::sync::Mutex;
use std::sync::ledger::Ledger;

/// A system under one lock, whose seats make its turns. The turns, the quanta and the ticks of its history are totals
/// of three ledgers, of which each seat has a share.
///
/// Contracts see it as its system's program and room.
#[derive(Drop)]
pub struct Station<T: TurnLedger, Q: Ledger, K: Ledger> {
    pub(crate) desk: Mutex<Desk<T, Q, K>>,
    pub(crate) processors: u32,
}

impl<T: TurnLedger, Q: Ledger, K: Ledger> Model for Station<T, Q, K> {
    ghost use Rattle.std.specs.Prelude.{◌≡◌};
    ghost use Rattle.lot_engine.specs.Seen.{Setting};

    ghost Value = { Setting };

    ghost view = { λ s. T.setting };

    ghost invariant = { λ s. s.processors ≡ T.setting.program.limits.processors };
}

/// The reason why `close` failed, with the parts of its arguments that it returns.
#[derive(Drop)]
pub enum CloseFault<T: TurnLedger, Q: Ledger, K: Ledger> {
    /// The seats aren't one for each actor, in order. Station and seats are unchanged.
    SeatMissing(Station<T, Q, K>, Vec<Seat<T, Q, K>>),
    /// A seat's share of turns isn't its actor's count in the history. The seats are unchanged.
    CountsDiffer(System, Vec<Seat<T, Q, K>>),
}
