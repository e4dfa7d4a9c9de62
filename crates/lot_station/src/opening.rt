//! Opening a station.
ghost use Rattle.std.specs.Prelude.{◌≡◌, ◌+◌, ◌<◌, false, length, IfOk};
ghost use Rattle.lot_simulation.specs.Report.{quanta_in, ticks_in, total_of};
ghost use Rattle.lot_simulation.specs.World.{IsLegal};
ghost use Rattle.lot_station.specs.Holders.{AreDealt};
ghost use Rattle.lot_station.specs.Settings.{turns_in};

use crate::desk::Desk;
use crate::holding::{Holding, opened};
use crate::{Seat, Station, TurnLedger};
use lot_engine::System;
use std::alloc::{AllocError, Global};
use std::sync::Mutex;
use std::sync::ledger::{Blank, Ledger, Share};

impl<T: TurnLedger, Q: Ledger, K: Ledger> Station<T, Q, K> {
    /// Puts the system under a lock, and deals a seat for each actor, in order, with that actor's shares of the
    /// system's history. The blanks become the ledgers of turns, quanta and ticks, with one part for each seat. It
    /// fails only if out of memory, and then drops the system.
    ///
    /// The system has no timer: a station's turns have no time, so nothing would wake a sleeping thread, and no seat
    /// has a share of a timer's turns. To run a program that sleeps, open a system of it without time
    /// (`Program::without_time`).
    pub fn open(
        alloc: Global,
        system: System,
        turns: Blank,
        quanta: Blank,
        ticks: Blank,
    ) -> Result<(Station<T, Q, K>, Vec<Seat<T, Q, K>>), AllocError>
        requires setting { system.setting ≡ T.setting }
        requires timer { system.setting.timer ≡ false }
        requires turns { (turns.name ≡ T.name) × (turns.parts ≡ T.parts)
            × (T.parts ≡ system.setting.program.limits.processors + 1) }
        requires quanta { (quanta.name ≡ Q.name) × (quanta.parts ≡ Q.parts)
            × (Q.parts ≡ system.setting.program.limits.processors + 1) }
        requires ticks { (ticks.name ≡ K.name) × (ticks.parts ≡ K.parts)
            × (K.parts ≡ system.setting.program.limits.processors + 1) }
        ensures station { IfOk result (λ r. r.0 ≡ system.setting) }
        ensures seats { IfOk result (λ r. AreDealt system r.1.items) }
    {
        let total = system.total();
        let (turns, all_turns) = opened::<T>(turns, system.turn_count());
        let (quanta, all_quanta) = opened::<Q>(quanta, total.quanta);
        let (ticks, all_ticks) = opened::<K>(ticks, total.ticks);
        let seats = deal(alloc, &system, all_turns, all_quanta, all_ticks)?;
        let processors = system.processors();
        let desk = Mutex::new(Desk {
            system,
            turns,
            quanta,
            ticks,
        });
        Ok((Station { desk, processors }, seats))
    }
}

/// A seat for each actor, in order, with that actor's shares of the system's history.
fn deal<T: TurnLedger, Q: Ledger, K: Ledger>(
    alloc: Global,
    system: &System,
    mut turns: Share<T>,
    mut quanta: Share<Q>,
    mut ticks: Share<K>,
) -> Result<Vec<Seat<T, Q, K>>, AllocError>
    requires setting { system.now.setting ≡ T.setting }
    requires legal { IsLegal system.now.setting.program system.now.setting.room system.now.history }
    requires turns { (turns.parts ≡ system.now.setting.program.limits.processors + 1)
        × (turns.amount ≡ length system.now.history) }
    requires quanta { (quanta.parts ≡ system.now.setting.program.limits.processors + 1)
        × (quanta.amount ≡ total_of quanta_in (turns_in system.now)) }
    requires ticks { (ticks.parts ≡ system.now.setting.program.limits.processors + 1)
        × (ticks.amount ≡ total_of ticks_in (turns_in system.now)) }
    ensures { IfOk result (λ seats. AreDealt system.now seats.items) }
{
    let count = system.processors() as usize + 1;
    let mut seats = Vec::with_capacity(alloc, count)?;
    for k in 0..count {
        let actor = k as u32;
        let had = system.counts(actor);
        seats.push_reserved(Seat {
            actor,
            turns: Holding::split_off(&mut turns, had.turns),
            quanta: Holding::split_off(&mut quanta, had.quanta),
            ticks: Holding::split_off(&mut ticks, had.ticks),
            stopped: None,
        });
    }
    Ok(seats)
}
