//! Weights, and the lottery over them.
ghost use Rattle.std.specs.Prelude.{◌≡◌, ◌*◌, ◌/◌, ◌%◌, ◌^◌, ◌<◌, length, sum, IfSome};
ghost use Rattle.lot_machine.specs.Lottery as lottery;
ghost use Rattle.lot_machine.specs.Lottery.{running_sums};

use lot_machine::Drawn;

/// The weight of a value in a processor's draw. A compensation is the number of ticks that a thread had used when it
/// yielded or blocked, or when its quantum ended late. It scales the value as if the thread used a whole quantum (3.4,
/// 4.5). A value above 0 weighs at least 1.
///
/// `value` is in base units, `compensation` and `quantum` are in ticks.
pub fn weight(value: u64, compensation: Option<u32>, quantum: u32) -> u128
    requires { IfSome compensation (λ used. 0 < used) }
    ensures weight { result ≡ lottery.weight value compensation quantum }
    ensures small { result < 2 ^ 96 }
{
    match compensation {
        None => u128::from(value),
        Some(used) => compensated(value, quantum, used).max(u128::from(value.min(1))),
    }
}

/// A value scaled as if the thread used a whole quantum. Nearly all products fit 64 bits, which divide faster.
fn compensated(value: u64, quantum: u32, used: u32) -> u128
    requires { 0 < used }
    ensures compensated { result ≡ value * quantum / used }
    ensures small { result < 2 ^ 96 }
{
    match value.checked_mul(u64::from(quantum)) {
        Some(whole) => u128::from(whole / u64::from(used)),
        None => u128::from(value) * u128::from(quantum) / u128::from(used),
    }
}

/// Holds a lottery with the number `d` (2, 4.2). Returns `None` if the weights sum to 0, and otherwise the first index
/// whose running sum is strictly greater than `d` modulo the sum.
pub fn winner(weights: &[u128], d: u128) -> Option<Drawn>
    requires { sum weights.now < 2 ^ 128 }
    ensures drawn { result ≡ lottery.winner weights.now d }
    ensures within { IfSome result (λ w. w.place < length weights.now) }
{
    let total: u128 = weights.iter().sum();
    if total == 0 {
        return None;
    }
    let number = reduced(d, total);
    Some(Drawn {
        place: first_above(weights, number),
        number,
        total,
    })
}

/// The number modulo the total. Most numbers and totals fit 64 bits, which divide faster. A number below the total
/// needs no division.
pub(crate) fn reduced(d: u128, total: u128) -> u128
    requires { 0 < total }
    ensures { result ≡ d % total }
{
    if d < total {
        return d;
    }
    match (u64::try_from(d), u64::try_from(total)) {
        (Ok(number), Ok(small)) => u128::from(number % small),
        _ => d % total,
    }
}

/// The first index whose running sum is strictly greater than `number`, or the number of weights if there is none.
fn first_above(weights: &[u128], number: u128) -> usize
    requires { sum weights.now < 2 ^ 128 }
    ensures place { result ≡ lottery.first_above number (running_sums 0 weights.now) }
    ensures within { number < sum weights.now → result < length weights.now }
{
    let mut running: u128 = 0;
    for (place, weight) in weights.iter().enumerate() {
        running += weight;
        if running > number {
            return place;
        }
    }
    weights.len()
}
