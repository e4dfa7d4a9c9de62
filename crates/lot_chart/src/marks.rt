//! Marks at the times of commands.
ghost use Rattle.std.specs.Prelude.{◌≡◌, ℕ, ◌<◌, ◌≤◌, None, IfOk, length, slice_index_or};
ghost use Rattle.lot_chart.specs.Marks as definitions;
ghost use Rattle.lot_chart.specs.Marks.{first_of, stands_in};

use crate::lines::scaled;
use lot_curves::Curves;
use std::alloc::{AllocError, Global};

/// The number of columns of the plot, each one unit wide, from its left edge to its right one.
const COLUMNS: usize = 671;

/// The last column.
const LAST: u32 = 670;

/// The first command in each column of the plot, if there is one.
pub(crate) fn marked(alloc: Global, curves: &Curves) -> Result<Vec<Option<u32>>, AllocError>
    ensures { IfOk result (λ marks. marks.items ≡ definitions.marked curves.now) }
{
    let mut marks = vec![in alloc; None; COLUMNS]?;
    for time in curves.commands() {
        mark_time(curves, marks.as_mut_slice(), *time);
    }
    Ok(marks)
}

/// Marks the column of this time, if the time is in the picture and no earlier command is in the column.
fn mark_time(curves: &Curves, marks: &mut [Option<u32>], time: u32)
    requires { length marks.old ≡ 671 }
    ensures { (k : ℕ) → k < length marks.old → slice_index_or marks.new k None
        ≡ first_of (slice_index_or marks.old k None) (stands_in curves.now k time) time }
{
    if !is_within(curves, time) {
        return;
    }
    let column = column_of(curves, time) as usize;
    if marks[column].is_none() {
        marks[column] = Some(time);
    }
}

/// Whether the time is in the picture: after the left edge of the plot, and not after the right one.
fn is_within(curves: &Curves, time: u32) -> bool
    ensures { result ≡ definitions.is_within curves.now time }
{
    let time = u64::from(time);
    let origin = curves.origin();
    origin < time && time <= origin + curves.last()
}

fn column_of(curves: &Curves, time: u32) -> u32
    ensures exact { result ≡ definitions.column_of curves.now time }
    ensures within { result ≤ 670 }
{
    let tick = u64::from(time).saturating_sub(curves.origin());
    scaled(tick, curves.last(), LAST)
}
