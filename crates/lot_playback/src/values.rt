//! The values of live threads.
ghost use Rattle.std.specs.Prelude.{◌≡◌, ◌<◌, ◌^◌};
ghost use Rattle.lot_machine.specs.Facts as facts;
ghost use Rattle.lot_engine.specs.Seen.{world_of};

use lot_engine::System;

/// The total value of all live threads.
pub fn live_value(system: &mut System) -> u128
    ensures value { result ≡ facts.live_value (world_of system.old).state }
    ensures small { result < 2 ^ 96 }
    ensures same { system.new ≡ system.old }
{
    let mut sum = 0u128;
    for place in 0..system.thread_count() {
        sum += u128::from(system.live_value(place + 1));
    }
    sum
}
