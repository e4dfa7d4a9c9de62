//! The marks of axes.
ghost use Rattle.std.specs.Prelude.{◌≡◌, ◌≤◌, ◌<◌, ◌^◌, ◌*◌};
ghost use Rattle.lot_chart.specs.Axes as definitions;

/// The possible distances between marks.
static STEPS: [u32; 28] = [
    1, 2, 5, 10, 20, 50, 100, 200, 500, 1000, 2000, 5000, 10000, 20000, 50000, 100000, 200000,
    500000, 1000000, 2000000, 5000000, 10000000, 20000000, 50000000, 100000000, 200000000,
    500000000, 1000000000,
];

/// The distance between the marks of an axis that ends at this value, which gives at most five marks after 0.
pub(crate) fn axis_step(most: u64) -> u64
    ensures exact { result ≡ definitions.axis_step most }
    ensures positive { 0 < result }
    ensures small { result < 2 ^ 32 }
{
    for step in &STEPS {
        let step = u64::from(*step);
        if most < 6 * step {
            return step;
        }
    }
    2000000000
}

/// The number of marks after 0.
pub(crate) fn mark_count(most: u64) -> u64
    ensures exact { result ≡ definitions.mark_count most }
    ensures few { result ≤ 5 }
{
    (most / axis_step(most).max(1)).min(5)
}

/// The distance from the origin to the first multiple of the step at or after it.
pub(crate) fn lead(step: u64, origin: u64) -> u64
    requires { 0 < step }
    ensures exact { result ≡ definitions.lead step origin }
    ensures short { result ≤ step }
{
    (step - origin % step) % step
}

/// The number of marks after the first on a time axis from the origin to this last tick, which counts from the origin.
pub(crate) fn time_mark_count(origin: u64, last: u64) -> u64
    ensures exact { result ≡ definitions.time_mark_count origin last }
    ensures few { result ≤ 5 }
{
    let step = axis_step(last);
    (last.saturating_sub(lead(step, origin)) / step).min(5)
}
