//! Curves as a table with comma-separated fields.
ghost use Rattle.std.specs.Prelude.{◌≡◌, ◌++◌, IfOk, OnOk, length, map};
ghost use Rattle.std.specs.List.{flat_map};
ghost use Rattle.lot_curves.specs.Curves.{sample_ticks};
ghost use Rattle.lot_curves.specs.Stretches.{last_end};
ghost use Rattle.lot_chart.specs.Shares.{figure_text};
ghost use Rattle.lot_chart.specs.Tables as tables;
ghost use Rattle.lot_chart.specs.Tables.{header_line, row_line, sampled_line};

use crate::shares::{share_of, whole_at};
use crate::text::Text;
use lot_curves::{Curves, Measure};
use lot_machine::Name;
use std::alloc::{AllocError, Global};

/// The table of the curves: a line with the columns' names, and one for each sample with each column's ticks or draws
/// up to its tick, or with a window its share of all threads' in percent. There is a column for each number of a
/// thread. Fails only if out of memory.
pub fn table(alloc: Global, curves: &Curves, measure: Measure) -> Result<Vec<u8>, AllocError>
    ensures { IfOk result (λ text. text.items ≡ tables.table measure curves.now) }
{
    let mut text = Text::new(alloc);
    push_header(&mut text, curves.names())?;
    let mut row = vec![in alloc; 0u64; curves.names().len()]?;
    push_rows(&mut text, curves, measure, row.as_mut_slice())?;
    Ok(text.into_bytes())
}

/// Adds the first line.
fn push_header(text: &mut Text, names: &[Name]) -> Result<(), AllocError>
    ensures { OnOk result (text.new ≡ text.old ++ header_line names.now) }
{
    text.push("tick")?;
    for name in names {
        text.push(",")?;
        text.push_bytes(name.as_bytes())?;
    }
    text.push("\n")
}

/// Adds the lines of all samples. The row has an element for each column.
fn push_rows(
    text: &mut Text,
    curves: &Curves,
    measure: Measure,
    row: &mut [u64],
) -> Result<(), AllocError>
    requires { length row.old ≡ length curves.now.names }
    ensures { OnOk result (text.new ≡ text.old
        ++ flat_map (sampled_line measure curves.now) (sample_ticks (last_end curves.now.stretches))) }
{
    for sample in 0..curves.sample_count() + 1 {
        let tick = curves.sample_tick(sample);
        curves.fill_row(measure, tick, row);
        let whole = whole_at(curves, measure, tick);
        push_row(text, whole, curves.origin() + tick, row)?;
    }
    Ok(())
}

/// Adds the line of one sample, with each column's figure or its share of the whole.
fn push_row(text: &mut Text, whole: Option<u64>, tick: u64, row: &[u64]) -> Result<(), AllocError>
    ensures { OnOk result (text.new ≡ text.old ++ row_line whole tick row.now) }
{
    text.push_number(tick)?;
    for figure in row {
        text.push(",")?;
        push_figure(text, whole, *figure)?;
    }
    text.push("\n")
}

/// Adds a figure, or its share of the whole.
fn push_figure(text: &mut Text, whole: Option<u64>, figure: u64) -> Result<(), AllocError>
    ensures { OnOk result (text.new ≡ text.old ++ figure_text whole figure) }
{
    match whole {
        None => text.push_number(figure),
        Some(whole) => text.push_tenths(share_of(whole, figure)),
    }
}
