//! The dues of a picture's lines, as thin lines behind them.
ghost use Rattle.std.specs.Prelude.{◌≡◌, ◌+◌, ◌*◌, ◌≤◌, ◌^◌, ◌++◌, List, Option, Some, IfOk, OnOk, length, map};
ghost use Rattle.std.specs.Int.{div_ceil};
ghost use Rattle.std.specs.List.{flat_map};
ghost use Rattle.lot_curves.specs.declared.stretch.Measure.TheVariants.{Ticks};
ghost use Rattle.lot_curves.specs.Curves.{sample_count, sample_ticks, total_at};
ghost use Rattle.lot_curves.specs.Stretches.{last_end};
ghost use Rattle.lot_chart.specs.declared.standings.Standing.{Standing as StandingRecord};
ghost use Rattle.lot_chart.specs.Charts.{due_curve, due_curves, due_points};
ghost use Rattle.lot_chart.specs.Dues as due_definitions;
ghost use Rattle.lot_chart.specs.Dues.{Dues as DuesRecord};
ghost use Rattle.lot_chart.specs.Gauges.{AreDues, AreLinesOf, HaveDues, IsLineOf};
ghost use Rattle.lot_chart.specs.Lines as definitions;

use crate::charts::{push_point_at, push_stroke};
use crate::lines::fine_height_of;
use crate::metering::{BILLION, LineDues};
use crate::text::Text;
use crate::{PlotLine, Standing};
use lot_curves::{Curves, Measure};
use std::alloc::{AllocError, Global};

/// The start of the thin lines.
const THIN: &str =
    "<g fill='none' stroke-width='1' stroke-opacity='0.5' stroke-linejoin='round'>\n";

/// Adds a thin line for the due of each line, if the program is timed.
pub(crate) fn push_due_curves(
    alloc: Global,
    text: &mut Text,
    curves: &Curves,
    dues: &Option<LineDues>,
    tops: &[u64],
    lines: &[PlotLine],
) -> Result<(), AllocError>
    requires tops { length tops.now ≡ sample_count (last_end curves.now.stretches) + 1 }
    requires due { (due : Option DuesRecord) × (shown : List StandingRecord)
        × HaveDues curves.now due shown dues.now × AreLinesOf shown lines.now }
    ensures { OnOk result ((due : Option DuesRecord) (shown : List StandingRecord)
        → HaveDues curves.now due shown dues.now → AreLinesOf shown lines.now
        → text.new ≡ text.old ++ due_curves curves.now due shown tops.now lines.now) }
{
    match dues {
        None => Ok(()),
        Some(dues) => {
            push_thin_lines(alloc, text, curves, dues, tops, lines)?;
            Ok(())
        }
    }
}

/// Adds a thin line for the due of each line.
fn push_thin_lines(
    alloc: Global,
    text: &mut Text,
    curves: &Curves,
    dues: &LineDues,
    tops: &[u64],
    lines: &[PlotLine],
) -> Result<(), AllocError>
    requires tops { length tops.now ≡ sample_count (last_end curves.now.stretches) + 1 }
    requires due { (due : DuesRecord) × (shown : List StandingRecord)
        × AreDues curves.now due shown dues.now × AreLinesOf shown lines.now }
    ensures { OnOk result ((due : DuesRecord) (shown : List StandingRecord)
        → AreDues curves.now due shown dues.now → AreLinesOf shown lines.now
        → text.new ≡ text.old ++ due_curves curves.now (Some due) shown tops.now lines.now) }
{
    let ran = ran_of(alloc, curves)?;
    text.push(THIN)?;
    push_lines(text, curves, dues, tops, ran.as_slice(), lines)?;
    text.push("</g>\n")
}

/// The most ticks due to one of these lines at the last sample; 0 if the program isn't timed.
pub(crate) fn most_due(curves: &Curves, dues: &Option<LineDues>, shown: &[Standing]) -> u64
    requires { (due : Option DuesRecord) × HaveDues curves.now due shown.now dues.now }
    ensures { (due : Option DuesRecord) → HaveDues curves.now due shown.now dues.now
        → result ≡ due_definitions.most_due curves.now due shown.now }
{
    match dues {
        None => 0,
        Some(dues) => most_due_of(curves, dues, shown),
    }
}

/// The most ticks due to one of these lines at the last sample.
fn most_due_of(curves: &Curves, dues: &LineDues, shown: &[Standing]) -> u64
    requires { (due : DuesRecord) × AreDues curves.now due shown.now dues.now }
    ensures { (due : DuesRecord) → AreDues curves.now due shown.now dues.now
        → result ≡ due_definitions.most_due curves.now (Some due) shown.now }
{
    let last = curves.sample_count();
    let ran = curves.total_at(Measure::Ticks, curves.sample_tick(last));
    let mut most = 0;
    for place in 0..shown.len() {
        let share = dues.share(shown[place].thread, place, last as usize);
        most = due_ticks(ran, share).max(most);
    }
    most
}

/// The ticks of a share in billionths of the ticks that were run, rounded up.
fn due_ticks(ran: u64, share: u64) -> u64
    requires { share ≤ 10 ^ 9 }
    ensures { result ≡ div_ceil (ran * share) (10 ^ 9) }
{
    let parts = u128::from(ran) * u128::from(share);
    parts.div_ceil(u128::from(BILLION)) as u64
}

/// The ticks that all threads have run at each sample.
fn ran_of(alloc: Global, curves: &Curves) -> Result<Vec<u64>, AllocError>
    ensures { IfOk result (λ ran. ran.items
        ≡ map (total_at Ticks curves.now) (sample_ticks (last_end curves.now.stretches))) }
{
    let mut ran = Vec::new(alloc);
    for sample in 0..curves.sample_count() + 1 {
        ran.push(curves.total_at(Measure::Ticks, curves.sample_tick(sample)))?;
    }
    Ok(ran)
}

/// Adds the thin lines.
fn push_lines(
    text: &mut Text,
    curves: &Curves,
    dues: &LineDues,
    tops: &[u64],
    ran: &[u64],
    lines: &[PlotLine],
) -> Result<(), AllocError>
    requires tops { length tops.now ≡ sample_count (last_end curves.now.stretches) + 1 }
    requires ran { ran.now ≡ map (total_at Ticks curves.now) (sample_ticks (last_end curves.now.stretches)) }
    requires due { (due : DuesRecord) × (shown : List StandingRecord)
        × AreDues curves.now due shown dues.now × AreLinesOf shown lines.now }
    ensures { OnOk result ((due : DuesRecord) (shown : List StandingRecord)
        → AreDues curves.now due shown dues.now → AreLinesOf shown lines.now
        → text.new ≡ text.old ++ flat_map (due_curve curves.now due shown tops.now) lines.now) }
{
    for place in 0..lines.len() {
        push_due_curve(text, curves, dues, tops, ran, lines[place], place)?;
    }
    Ok(())
}

/// Adds the thin line for the line at this index.
fn push_due_curve(
    text: &mut Text,
    curves: &Curves,
    dues: &LineDues,
    tops: &[u64],
    ran: &[u64],
    line: PlotLine,
    place: usize,
) -> Result<(), AllocError>
    requires tops { length tops.now ≡ sample_count (last_end curves.now.stretches) + 1 }
    requires ran { ran.now ≡ map (total_at Ticks curves.now) (sample_ticks (last_end curves.now.stretches)) }
    requires due { (due : DuesRecord) × (shown : List StandingRecord)
        × AreDues curves.now due shown dues.now × IsLineOf shown place line.thread }
    ensures { OnOk result ((due : DuesRecord) (shown : List StandingRecord)
        → AreDues curves.now due shown dues.now → IsLineOf shown place line.thread
        → text.new ≡ text.old ++ due_curve curves.now due shown tops.now line) }
{
    text.push("<polyline points='")?;
    push_due_points(text, curves, dues, tops, ran, line.thread, place)?;
    push_stroke(text, line.style)
}

/// Adds a point for each sample.
fn push_due_points(
    text: &mut Text,
    curves: &Curves,
    dues: &LineDues,
    tops: &[u64],
    ran: &[u64],
    thread: u32,
    place: usize,
) -> Result<(), AllocError>
    requires tops { length tops.now ≡ sample_count (last_end curves.now.stretches) + 1 }
    requires ran { ran.now ≡ map (total_at Ticks curves.now) (sample_ticks (last_end curves.now.stretches)) }
    requires due { (due : DuesRecord) × (shown : List StandingRecord)
        × AreDues curves.now due shown dues.now × IsLineOf shown place thread }
    ensures { OnOk result ((due : DuesRecord) (shown : List StandingRecord)
        → AreDues curves.now due shown dues.now → IsLineOf shown place thread
        → text.new ≡ text.old ++ due_points curves.now due shown tops.now thread) }
{
    for sample in 0..curves.sample_count() + 1 {
        let share = dues.share(thread, place, sample as usize);
        let height = due_height(tops[sample as usize], ran[sample as usize], share);
        push_point_at(text, curves, curves.sample_tick(sample), height)?;
    }
    Ok(())
}

/// The height of a share in billionths of the ticks that were run, given the ticks at the top of the plot.
fn due_height(top: u64, ran: u64, share: u64) -> u32
    requires { share ≤ 10 ^ 9 }
    ensures { result ≡ definitions.height_of (top * 10 ^ 9) (ran * share) }
{
    fine_height_of(
        u128::from(top) * u128::from(BILLION),
        u128::from(ran) * u128::from(share),
    )
}
