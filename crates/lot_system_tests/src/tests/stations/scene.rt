//! A test's use of the seats of a station.
ghost use Rattle.std.specs.Prelude.{◌≡◌, ◌+◌, false, IfOk};

use lot_engine::System;
use lot_program::Program;
use lot_station::{Seat, Station, TurnLedger};
use std::alloc::{AllocError, Global};
use std::marker::Brand;
use std::process::Abort;
use std::sync::Wait;
use std::sync::ledger::{Blank, Ledger};

/// A test's use of the seats of an open station.
pub(super) trait Scene {
    /// The observations of the test.
    type Seen;

    /// Makes turns of the seats, which are all of the station's, in order.
    fn play<T: TurnLedger, Q: Ledger, K: Ledger, R: Wait + Abort>(
        &self,
        rt: &R,
        alloc: Global,
        program: &Program,
        station: &Station<T, Q, K>,
        seats: &mut Vec<Seat<T, Q, K>>,
    ) -> Self::Seen;
}

/// The scene in a station of the system, and the system that `close` returned.
fn play_in<T: TurnLedger, Q: Ledger, K: Ledger, S: Scene, R: Wait + Abort>(
    rt: &R,
    alloc: Global,
    program: &Program,
    system: System,
    turns: Blank,
    quanta: Blank,
    ticks: Blank,
    scene: &S,
) -> Result<(S::Seen, System), AllocError>
    requires setting { system.setting ≡ T.setting }
    requires timer { (system.setting.timer ≡ false) × (T.setting.timer ≡ false) }
    requires turns { (turns.name ≡ T.name) × (turns.parts ≡ T.parts)
        × (T.parts ≡ system.setting.program.limits.processors + 1) }
    requires quanta { (quanta.name ≡ Q.name) × (quanta.parts ≡ Q.parts)
        × (Q.parts ≡ system.setting.program.limits.processors + 1) }
    requires ticks { (ticks.name ≡ K.name) × (ticks.parts ≡ K.parts)
        × (K.parts ≡ system.setting.program.limits.processors + 1) }
    ensures { IfOk result (λ r. r.1.setting.timer ≡ false) }
{
    let (station, mut seats) = Station::<T, Q, K>::open(alloc, system, turns, quanta, ticks)?;
    let seen = scene.play(rt, alloc, program, &station, &mut seats);
    match station.close(seats) {
        Ok(closed) => Ok((seen, closed)),
        Err(_) => rt.panic("the station isn't closed"),
    }
}

/// The scene in a station of the system with ledgers of its own, and the system that `close` returned. It fails only
/// if out of memory for the station.
pub(super) fn played_in<S: Scene, R: Wait + Abort>(
    rt: &R,
    alloc: Global,
    program: &Program,
    system: System,
    scene: &S,
) -> Result<(S::Seen, System), AllocError>
    requires { system.setting.timer ≡ false }
    ensures { IfOk result (λ r. r.1.setting.timer ≡ false) }
{
    let parts = u64::from(system.processors()) + 1;
    play_in::<Brand, Brand, Brand, S, R>(
        rt,
        alloc,
        program,
        system,
        Blank::new(parts),
        Blank::new(parts),
        Blank::new(parts),
        scene,
    )
}
