//! Seeds given beside an input.
ghost use Rattle.std.specs.Prelude.{◌≡◌, IfNone, IfSome};
ghost use Rattle.lot_program.specs.Programs.{IsSeed};

use lot_simulation::ranges;
use std::marker::Model;

/// A seed of a generator, 1 to 2147483646.
#[derive(Clone, Copy, Debug, PartialEq, Eq)]
pub struct Seed {
    number: u32,
}

impl Model for Seed {
    ghost use Rattle.std.specs.Prelude.{ℕ};
    ghost use Rattle.lot_program.specs.Programs.{IsSeed};

    ghost Value = { ℕ };

    ghost view = { λ seed. seed.number };

    ghost inverse = { λ number. record { number = number } };

    ghost invariant = { λ seed. IsSeed seed.number };
}

impl Seed {
    /// The seed with this number, or `None` if the number is not from 1 to 2147483646.
    pub fn new(number: u32) -> Option<Seed>
        ensures seed { IfSome result (λ seed. seed ≡ number) }
        ensures none { IfNone result (IsSeed number → ⊥) }
    {
        if number < ranges::SEED.first || ranges::SEED.last < number {
            return None;
        }
        Some(Seed { number })
    }

    /// The seed as a number, 1 to 2147483646.
    pub fn number(self) -> u32
        ensures is { result ≡ self }
        ensures legal { IsSeed result }
    {
        self.number
    }
}
