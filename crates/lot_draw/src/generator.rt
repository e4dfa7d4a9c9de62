//! The generator of drawn numbers.
ghost use Rattle.std.specs.Prelude.{◌≡◌, ◌↔◌, ◌<◌, ◌≤◌, ◌^◌, IsSome, IfSome};
ghost use Rattle.lot_machine.specs.Bounds.{IsBetween};
ghost use Rattle.lot_machine.specs.Lottery.{next_seed, drawn_number, seed_after_number, wide_number};
ghost use Rattle.lot_machine.specs.Lottery.{seed_after_wide_number};
ghost use Rattle.lot_machine.specs.Lottery as lottery;

use std::marker::Model;

/// The modulus of the generator, a prime.
const MODULUS: u32 = 2147483647;
/// The count of numbers that two values make.
const NUMBERS: u128 = 4611686009837453316;

/// The multiplicative generator of Park and Miller (4.1): each value is 16807 times the one before, modulo 2147483647.
/// Its values are 1 to 2147483646.
#[derive(Clone, Copy, Debug, PartialEq, Eq)]
pub struct ParkMiller {
    value: u32,
}

impl Model for ParkMiller {
    ghost use Rattle.std.specs.Prelude.{ℕ, ◌<◌};

    ghost Value = { ℕ };

    ghost view = { λ g. g.value };

    ghost invariant = { λ g. (0 < g.value) × (g.value < 2147483647) };

    ghost inverse = { λ n. record { value = n } };
}

impl ParkMiller {
    /// The generator with this seed as its value, or `None` if the seed is 0 or above 2147483646.
    pub fn new(seed: u32) -> Option<Self>
        ensures some { IsSome result ↔ IsBetween 1 2147483646 seed }
        ensures value { IfSome result (λ g. g ≡ seed) }
    {
        if seed == 0 || seed >= MODULUS {
            return None;
        }
        Some(ParkMiller { value: seed })
    }

    /// Advances to the next value and returns it: 1 to 2147483646.
    #[inline(always)]
    pub fn next(&mut self) -> u32
        ensures value { result ≡ next_seed self.old }
        ensures after { self.new ≡ result }
        ensures range { IsBetween 1 2147483646 result }
    {
        self.value = (u64::from(self.value) * 16807 % u64::from(MODULUS)) as u32;
        self.value
    }

    /// The number drawn from the next two values: 0 to 4611686009837453315.
    #[inline(always)]
    pub fn number(&mut self) -> u64
        ensures number { result ≡ drawn_number self.old }
        ensures after { self.new ≡ seed_after_number self.old }
        ensures range { result < 2 ^ 62 }
    {
        let high = u64::from(self.next() - 1);
        let low = u64::from(self.next() - 1);
        high * 2147483646 + low
    }

    /// The wide number drawn from the next four values: below 2^124.
    #[inline(always)]
    pub fn wide_number(&mut self) -> u128
        ensures number { result ≡ wide_number self.old }
        ensures after { self.new ≡ seed_after_wide_number self.old }
        ensures range { result < 2 ^ 124 }
    {
        let high = u128::from(self.number());
        let low = u128::from(self.number());
        high * NUMBERS + low
    }
}

/// A distinct seed for each processor, so that processors don't draw in lock step (4.1): the value of a generator with
/// multiplier 48271, which starts at 1, after as many steps as the processor's number.
pub fn mixed_seed(processor: u32) -> u32
    ensures seed { result ≡ lottery.mixed_seed processor }
    ensures range { IsBetween 1 2147483646 result }
{
    let mut seed = 1;
    for _ in 0..processor {
        seed = (u64::from(seed) * 48271 % u64::from(MODULUS)) as u32;
    }
    seed
}
