//! Shares of a whole in percent.
ghost use Rattle.std.specs.Prelude.{◌≡◌};
ghost use Rattle.lot_chart.specs.Shares as definitions;

use lot_curves::{Curves, Measure};

/// A part of the whole, in tenths of a percent.
pub(crate) fn share_of(whole: u64, part: u64) -> u32
    ensures { result ≡ definitions.share_of whole part }
{
    let share = (1000 * u128::from(part) + u128::from(whole / 2)) / u128::from(whole.max(1));
    share.min(1000) as u32
}

/// With a window, the ticks or draws of all threads in the window that ends at this tick.
pub(crate) fn whole_at(curves: &Curves, measure: Measure, tick: u64) -> Option<u64>
    ensures { result ≡ definitions.whole_at measure curves.now tick }
{
    curves.window()?;
    Some(curves.total_at(measure, tick))
}
