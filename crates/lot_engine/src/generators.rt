//! The processors' generators.
ghost use Rattle.std.specs.Prelude.{◌≡◌, IfOk, length, unwrap_or, if◌then◌else◌};
ghost use Rattle.lot_machine.specs.Bounds.{IsBetween};
ghost use Rattle.lot_machine.specs.Numbered.{at_number, set_number};
ghost use Rattle.lot_simulation.specs.World as world;
ghost use Rattle.lot_simulation.specs.World.{number_from, seed_from};
ghost use Rattle.lot_engine.specs.Steps.{event_done};

use crate::turn::{Done, needs_number, put_event};
use lot_draw::ParkMiller;
use lot_kept::Stack;
use lot_machine::Event;
use lot_program::Program;
use std::alloc::{AllocError, Global};

/// A generator for each processor.
pub(crate) fn generators_of(
    alloc: Global,
    program: &Program,
) -> Result<Stack<ParkMiller>, AllocError>
    ensures seeds { IfOk result (λ generators. generators.items ≡ program.now.seeds) }
    ensures count { IfOk result (λ generators. length generators.items ≡ program.now.limits.processors) }
{
    let seeds = program.seeds();
    let mut generators = Stack::new(alloc, seeds.len())?;
    for seed in seeds {
        generators.push(ParkMiller::new(*seed).unwrap());
    }
    Ok(generators)
}

/// A processor's next number, and its generator after it.
#[derive(Clone, Copy, Debug)]
struct NextNumber {
    number: u128,
    after: ParkMiller,
}

/// A processor's next number, wide or not, and its generator after it. It doesn't advance the generator.
#[inline(always)]
fn next_number(generators: &[ParkMiller], processor: u32, is_wide: bool) -> NextNumber
    requires { IsBetween 1 (length generators.now) processor }
    ensures number { result.number ≡ number_from is_wide (unwrap_or (at_number generators.now processor) 0) }
    ensures after { result.after ≡ seed_from is_wide (unwrap_or (at_number generators.now processor) 0) }
{
    let mut after = generators[processor as usize - 1];
    let number = if is_wide {
        after.wide_number()
    } else {
        u128::from(after.number())
    };
    NextNumber { number, after }
}

/// Stores in `event` the event of a processor's turn: of this slice's result, or a draw without one. The processor's
/// generator advances only if the turn consumes a number.
#[inline(always)]
pub(crate) fn next_event(
    generators: &mut Stack<ParkMiller>,
    processor: u32,
    is_wide: bool,
    done: Option<Done>,
    event: &mut Event,
)
    requires processor { IsBetween 1 (length generators.old.items) processor }
    ensures event { event.new ≡ event_done processor (number_from is_wide
        (unwrap_or (at_number generators.old.items processor) 0)) done }
    ensures values { generators.new.items
        ≡ (if world.takes_number event.new
        then set_number generators.old.items processor (seed_from is_wide
        (unwrap_or (at_number generators.old.items processor) 0)) else generators.old.items) }
    ensures count { length generators.new.items ≡ length generators.old.items }
{
    if !needs_number(done) {
        put_event(processor, done, 0, event);
        return;
    }
    let next = next_number(generators, processor, is_wide);
    // The generator first: as far as the compiler knows, a store to it might change the event.
    generators[processor as usize - 1] = next.after;
    put_event(processor, done, next.number, event);
}
