//! The system and its books under the lock.
ghost use Rattle.std.specs.Prelude.{◌≡◌, false, length, IfOk, IfErr, OnErr};
ghost use Rattle.lot_simulation.specs.Report as report;
ghost use Rattle.lot_simulation.specs.Report.{total_of};
ghost use Rattle.lot_engine.specs.Seen.{Setting};
ghost use Rattle.lot_engine.specs.Turns.{Answers, Faults, Goes, IsWorkOf};
ghost use Rattle.lot_station.specs.Holders.{with_turn};
ghost use Rattle.lot_station.specs.Settings.{AtSome, IsLegalIn, no_setting, turns_in};

use crate::Seat;
use lot_engine::{Answer, System, TurnFault};
use lot_machine::Reply;
use lot_script::Slice;
use std::marker::Brand;
use std::sync::ledger::{Book, Ledger};

/// The ledger of turns, tied to the program and the room of the system whose turns it counts.
pub trait TurnLedger: Ledger {
    ghost setting: { Setting };
}

impl TurnLedger for Brand {
    ghost setting = { no_setting };
}

/// A system, and the books of its history.
#[derive(Drop)]
pub(crate) struct Desk<T: TurnLedger, Q: Ledger, K: Ledger> {
    pub(crate) system: System,
    pub(crate) turns: Book<T>,
    pub(crate) quanta: Book<Q>,
    pub(crate) ticks: Book<K>,
    ghost setting: { system.setting ≡ T.setting },
    ghost timer: { system.setting.timer ≡ false },
    ghost legal: { IsLegalIn system },
    ghost all_turns: { turns.total ≡ length system.history },
    ghost all_quanta: { quanta.total ≡ total_of report.quanta_in (turns_in system) },
    ghost all_ticks: { ticks.total ≡ total_of report.ticks_in (turns_in system) },
}

impl<T: TurnLedger, Q: Ledger, K: Ledger> Desk<T, Q, K> {
    /// Makes the turn of the seat's actor, and enters it in the books and in the seat. A fault changes nothing.
    pub(crate) fn turn(
        &mut self,
        seat: &mut Seat<T, Q, K>,
        slice: Option<Slice>,
    ) -> Result<Answer, TurnFault>
        ensures ok { IfOk result (λ answer. seat.new ≡ with_turn seat.old answer.reply) }
        ensures err { OnErr result (seat.new ≡ seat.old) }
        ensures answer { IfOk result (λ answer. AtSome T.setting
            (λ x. Goes x seat.old.actor slice.entry × Answers x seat.old.actor answer)) }
        ensures next { IfOk result (λ answer. AtSome T.setting (λ x. IsWorkOf x seat.old.actor answer.next)) }
        ensures fault { IfErr result (λ fault. AtSome T.setting (λ x. Faults x seat.old.actor slice.entry fault)) }
    {
        let Desk {
            system,
            turns,
            quanta,
            ticks,
        } = self;
        let answer = system.turn(seat.actor(), slice)?;
        let total = system.total();
        seat.turns.add(turns, 1, system.turn_count());
        seat.quanta
            .add(quanta, quanta_in(answer.reply), total.quanta);
        seat.ticks.add(ticks, ticks_in(answer.reply), total.ticks);
        Ok(answer)
    }
}

/// 1 for a won draw.
fn quanta_in(reply: Reply) -> u64
    ensures { result ≡ report.quanta_in reply }
{
    match reply {
        Reply::Winner { .. } => 1,
        _ => 0,
    }
}

/// The ticks of an expiry or a trap.
fn ticks_in(reply: Reply) -> u64
    ensures { result ≡ report.ticks_in reply }
{
    match reply {
        Reply::Expired { ticks, .. } | Reply::Trapped { ticks, .. } => u64::from(ticks),
        _ => 0,
    }
}
