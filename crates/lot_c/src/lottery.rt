//! The lottery by itself: weights, winners, and the generator of drawn numbers.
ghost use Rattle.std.specs.Prelude.{◌≡◌, ◌⊎◌, ◌<◌, ◌≤◌, ◌^◌, IfErr, IfOk, IfSome, MatchOption, Some};
ghost use Rattle.std.specs.Prelude.{length, map, sum};
ghost use Rattle.lot_machine.specs.Bounds.{IsBetween};
ghost use Rattle.lot_machine.specs.Lottery as lottery;
ghost use Rattle.lot_machine.specs.Lottery.{next_seed, drawn_number, seed_after_number, wide_number};
ghost use Rattle.lot_machine.specs.Lottery.{running_sums, seed_after_wide_number};
ghost use Rattle.lot_machine.specs.declared.drawn.Drawn.{Drawn as ADrawn};
ghost use Rattle.lot_c.specs.declared.status.Status.TheVariants.{BadSeed, Done, NoWinner, TooLarge};
ghost use Rattle.lot_c.specs.Lotteries.{compensation_meant, plain_drawn};
ghost use Rattle.lot_c.specs.Numbers.{code};
ghost use Rattle.lot_c.specs.Wides.{plain_wide, wide_meant};

use crate::status::Status;
use crate::wide::Wide;
use lot_draw::ParkMiller;
use lot_machine::Drawn;

/// Stores the weight of a value in a draw (3.4, 4.5). The compensation and the quantum are in ticks; a compensation of
/// 0 means none.
#[unsafe(no_mangle)]
pub extern "C" fn lot_weight(value: u64, compensation: u32, quantum: u32, weight: &mut Wide)
    ensures weight { weight.new ≡ plain_wide (lottery.weight value (compensation_meant compensation) quantum) }
    ensures small { wide_meant weight.new < 2 ^ 96 }
{
    *weight = Wide::of(lot_draw::weight(value, compensation_of(compensation), quantum));
}

/// The compensation for these ticks, or none for 0.
fn compensation_of(ticks: u32) -> Option<u32>
    ensures meant { result ≡ compensation_meant ticks }
    ensures used { IfSome result (λ used. 0 < used) }
{
    if ticks == 0 { None } else { Some(ticks) }
}

/// The winner of a lottery, in plain fields.
#[repr(C)]
#[derive(Clone, Copy)]
pub struct PlainDrawn {
    /// The drawn number, below the total.
    pub number: Wide,
    /// The sum of the weights.
    pub total: Wide,
    /// The winner's index in the list of weights, from 0.
    pub place: u64,
}

impl PlainDrawn {
    /// The winner of a lottery, in plain fields.
    fn of(drawn: Drawn) -> PlainDrawn
        ensures { result ≡ plain_drawn drawn }
    {
        PlainDrawn {
            number: Wide::of(drawn.number),
            total: Wide::of(drawn.total),
            place: drawn.place as u64,
        }
    }
}

/// A generator of drawn numbers, in plain fields.
#[repr(C)]
#[derive(Clone, Copy)]
pub struct PlainGenerator {
    /// 1 to 2147483646, unless C wrote it otherwise.
    pub value: u32,
}

/// Makes a generator with this seed. Returns `BadSeed` for a seed of 0 or above 2147483646.
#[unsafe(no_mangle)]
pub extern "C" fn lot_generator_new(seed: u32, generator: &mut PlainGenerator) -> u32
    ensures good { IsBetween 1 2147483646 seed → (result ≡ code Done) × (generator.new.value ≡ seed) }
    ensures bad { ¬ IsBetween 1 2147483646 seed → (result ≡ code BadSeed) × (generator.new ≡ generator.old) }
{
    if ParkMiller::new(seed).is_none() {
        return Status::BadSeed.code();
    }
    generator.value = seed;
    Status::Done.code()
}

/// Advances to the generator's next value and stores it. Returns `BadSeed` for a generator out of its range.
#[unsafe(no_mangle)]
pub extern "C" fn lot_generator_next(generator: &mut PlainGenerator, value: &mut u32) -> u32
    ensures good { IsBetween 1 2147483646 generator.old.value
        → (result ≡ code Done) × (value.new ≡ next_seed generator.old.value)
        × (generator.new.value ≡ next_seed generator.old.value) }
    ensures range { IsBetween 1 2147483646 generator.old.value → IsBetween 1 2147483646 value.new }
    ensures bad { ¬ IsBetween 1 2147483646 generator.old.value
        → (result ≡ code BadSeed) × (value.new ≡ value.old) × (generator.new ≡ generator.old) }
{
    let Some(mut there) = ParkMiller::new(generator.value) else {
        return Status::BadSeed.code();
    };
    *value = there.next();
    generator.value = *value;
    Status::Done.code()
}

/// Stores the number drawn from the generator's next two values, and advances to the second. Returns `BadSeed` for a
/// generator out of its range.
#[unsafe(no_mangle)]
pub extern "C" fn lot_generator_number(generator: &mut PlainGenerator, number: &mut u64) -> u32
    ensures good { IsBetween 1 2147483646 generator.old.value
        → (result ≡ code Done) × (number.new ≡ drawn_number generator.old.value)
        × (generator.new.value ≡ seed_after_number generator.old.value) }
    ensures bad { ¬ IsBetween 1 2147483646 generator.old.value
        → (result ≡ code BadSeed) × (number.new ≡ number.old) × (generator.new ≡ generator.old) }
{
    let Some(mut there) = ParkMiller::new(generator.value) else {
        return Status::BadSeed.code();
    };
    let mut ahead = there;
    *number = there.number();
    ahead.next();
    generator.value = ahead.next();
    Status::Done.code()
}

/// Stores the wide number drawn from the generator's next four values, and advances to the fourth. Returns `BadSeed`
/// for a generator out of its range.
#[unsafe(no_mangle)]
pub extern "C" fn lot_generator_wide_number(
    generator: &mut PlainGenerator,
    number: &mut Wide,
) -> u32
    ensures good { IsBetween 1 2147483646 generator.old.value
        → (result ≡ code Done) × (number.new ≡ plain_wide (wide_number generator.old.value))
        × (generator.new.value ≡ seed_after_wide_number generator.old.value) }
    ensures bad { ¬ IsBetween 1 2147483646 generator.old.value
        → (result ≡ code BadSeed) × (number.new ≡ number.old) × (generator.new ≡ generator.old) }
{
    let Some(mut there) = ParkMiller::new(generator.value) else {
        return Status::BadSeed.code();
    };
    let mut ahead = there;
    *number = Wide::of(there.wide_number());
    let _ = ahead.number();
    ahead.next();
    generator.value = ahead.next();
    Status::Done.code()
}

/// Holds a lottery with this number over the weights, which it reads in place. Returns `NoWinner` if the weights sum to
/// 0, and `TooLarge` if they sum to 2 ^ 128 or more.
#[unsafe(no_mangle)]
pub extern "C" fn lot_winner(weights: &[Wide], number: &Wide, drawn: &mut PlainDrawn) -> u32
    ensures won { (d : ADrawn) → sum (map wide_meant weights.now) < 2 ^ 128
        → lottery.winner (map wide_meant weights.now) (wide_meant number.now) ≡ Some d
        → (result ≡ code Done) × (drawn.new ≡ plain_drawn d) }
    ensures within { result ≡ code Done → drawn.new.place < length weights.now }
    ensures nobody { sum (map wide_meant weights.now) ≡ 0 → (result ≡ code NoWinner) × (drawn.new ≡ drawn.old) }
    ensures large { 2 ^ 128 ≤ sum (map wide_meant weights.now) → (result ≡ code TooLarge) × (drawn.new ≡ drawn.old) }
{
    match winner(weights, number.number()) {
        Err(why) => why.code(),
        Ok(found) => {
            *drawn = PlainDrawn::of(found);
            Status::Done.code()
        }
    }
}

/// The winner of a lottery with the number `d`, or `NoWinner` or `TooLarge`.
fn winner(weights: &[Wide], d: u128) -> Result<Drawn, Status>
    ensures won { IfOk result (λ w. lottery.winner (map wide_meant weights.now) d ≡ Some w) }
    ensures within { IfOk result (λ w. w.place < length weights.now) }
    ensures small { IfOk result (λ _. sum (map wide_meant weights.now) < 2 ^ 128) }
    ensures fault { IfErr result (λ why. ((why ≡ NoWinner) × (sum (map wide_meant weights.now) ≡ 0))
        ⊎ ((why ≡ TooLarge) × (2 ^ 128 ≤ sum (map wide_meant weights.now)))) }
{
    let Some(total) = total_of(weights) else {
        return Err(Status::TooLarge);
    };
    if total == 0 {
        return Err(Status::NoWinner);
    }
    let number = d % total;
    Ok(Drawn {
        place: first_above(weights, number),
        number,
        total,
    })
}

/// The sum of the weights, or `None` if it is 2 ^ 128 or more.
fn total_of(weights: &[Wide]) -> Option<u128>
    ensures { MatchOption result (2 ^ 128 ≤ sum (map wide_meant weights.now))
        (λ total. total ≡ sum (map wide_meant weights.now)) }
{
    let mut total: u128 = 0;
    for weight in weights {
        total = total.checked_add(weight.number())?;
    }
    Some(total)
}

/// The first index whose running sum is strictly greater than `number`, or the number of weights if there is none.
fn first_above(weights: &[Wide], number: u128) -> usize
    requires { sum (map wide_meant weights.now) < 2 ^ 128 }
    ensures place { result ≡ lottery.first_above number (running_sums 0 (map wide_meant weights.now)) }
    ensures within { number < sum (map wide_meant weights.now) → result < length weights.now }
{
    let mut running: u128 = 0;
    for (place, weight) in weights.iter().enumerate() {
        running += weight.number();
        if running > number {
            return place;
        }
    }
    weights.len()
}
