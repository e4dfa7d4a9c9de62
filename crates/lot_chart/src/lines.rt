//! The ends of lines, and the positions of their names.
ghost use Rattle.std.specs.Prelude.{◌≡◌, ◌<◌, ◌≤◌, ◌^◌, IfOk, length};
ghost use Rattle.lot_chart.specs.Lines as definitions;

use crate::Standing;
use std::alloc::{AllocError, Global};

/// The height of a line at 0 ticks. All lengths of a picture are in tenths of a unit, and heights from its top.
const BOTTOM: u32 = 4600;

/// The height of the plot.
const HEIGHT: u32 = 4000;

/// The height of the plot's top edge.
const TOP: u32 = 600;

/// The smallest distance between two lines' names.
const APART: u32 = 160;

/// A line of the picture.
#[derive(Clone, Copy, Debug, PartialEq, Eq)]
pub struct PlotLine {
    /// The number of its thread or currency, or 0 for the others together.
    pub thread: u32,
    /// The ticks at its end.
    pub ticks: u64,
    /// Its colour and dash pattern.
    pub style: u32,
    /// The height of its end.
    pub height: u32,
    /// The height of its name.
    pub place: u32,
}

/// The lines of these standings, which are in descending order of ticks, given the ticks at the top of the plot.
pub(crate) fn lines_of(
    alloc: Global,
    most: u64,
    shown: &[Standing],
) -> Result<Vec<PlotLine>, AllocError>
    requires { length shown.now ≤ 12 }
    ensures { IfOk result (λ v. v.items ≡ definitions.lines_of most shown.now) }
{
    let mut lines = Vec::with_capacity(alloc, shown.len())?;
    let mut least = TOP;
    for (style, standing) in shown.iter().enumerate() {
        let height = height_of(most, standing.ticks);
        let place = place_of(least, height, (shown.len() - style - 1) as u32);
        lines.push(PlotLine {
            thread: standing.thread,
            ticks: standing.ticks,
            style: style as u32,
            height,
            place,
        })?;
        least = place + APART;
    }
    Ok(lines)
}

/// The ticks of the first standing, which are the most.
pub(crate) fn most_in(shown: &[Standing]) -> u64
    ensures { result ≡ definitions.most_in shown.now }
{
    match shown {
        [] => 0,
        [first, ..] => first.ticks,
    }
}

/// The height of this many ticks, given the ticks at the top of the plot.
pub(crate) fn height_of(most: u64, ticks: u64) -> u32
    ensures exact { result ≡ definitions.height_of most ticks }
    ensures within { result ≤ 4600 }
{
    fine_height_of(u128::from(most), u128::from(ticks))
}

/// Like `height_of`, with both in parts of a tick.
pub(crate) fn fine_height_of(most: u128, parts: u128) -> u32
    requires { parts < 2 ^ 96 }
    ensures exact { result ≡ definitions.height_of most parts }
    ensures within { result ≤ 4600 }
{
    BOTTOM - fine_scaled(parts, most, HEIGHT)
}

/// The height of a name: at its line's end, with room for the names below it, and at least `least` from the top.
fn place_of(least: u32, height: u32, more: u32) -> u32
    requires { more ≤ 12 }
    ensures exact { result ≡ definitions.place_of least height more }
{
    height.min(BOTTOM - APART * more).max(least)
}

/// The position of this value along a length whose end is at `most`.
pub(crate) fn scaled(value: u64, most: u64, length: u32) -> u32
    ensures exact { result ≡ definitions.scaled value most length }
    ensures within { result ≤ length }
{
    fine_scaled(u128::from(value), u128::from(most), length)
}

/// Like `scaled`, for wider numbers.
fn fine_scaled(value: u128, most: u128, length: u32) -> u32
    requires { value < 2 ^ 96 }
    ensures exact { result ≡ definitions.scaled value most length }
    ensures within { result ≤ length }
{
    let at = value * u128::from(length) / most.max(1);
    at.min(u128::from(length)) as u32
}
