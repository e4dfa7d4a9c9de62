//! The report.
ghost use Rattle.std.specs.Prelude.{◌≡◌, ◌≤◌, [], false, length};
ghost use Rattle.std.specs.List.{flat_map, range_with_len};
ghost use Rattle.std.specs.Option.{option_map_or};
ghost use Rattle.lot_machine.specs.Numbered.{numbers};
ghost use Rattle.lot_simulation.specs.Report as reports;
ghost use Rattle.lot_simulation.specs.Report.{turns_made};
ghost use Rattle.lot_machine.specs.Rows.{thread_row};
ghost use Rattle.lot_simulation.specs.Texts.{lines_for};
ghost use Rattle.lot_engine.specs.Seen.{world_of};
ghost use Rattle.lot_io.specs.Writing.{Writes};
ghost use Rattle.lot_system.specs.ReportTable.{thread_text};

use crate::cells::number as cell;
use crate::told::no_name;
use lot_engine::{Settled, System};
use lot_io::{IoFault, Watched};
use lot_machine::ThreadNumber;
use lot_print::{write_report_line, write_told};
use lot_simulation::{Layout, Subject};
use std::io::Write;

/// Writes each thread's line or row.
pub(crate) fn write_threads<W: Write>(
    settled: Settled<'_>,
    layout: Layout,
    writer: &mut Watched<W>,
) -> Result<(), IoFault>
    requires { writer.old.failed ≡ false }
    ensures { Writes W.contents writer.old writer.new result
        (lines_for (thread_text layout) (thread_row settled.entry.kernel.now.state)
        (numbers settled.entry.kernel.now.state.records)) }
{
    for place in 0..settled.kernel.thread_count() {
        write_thread(settled, layout, place + 1, writer)?;
    }
    Ok(())
}

/// Writes the line or the row of the thread with this number, if it exists.
fn write_thread<W: Write>(
    settled: Settled<'_>,
    layout: Layout,
    number: u32,
    writer: &mut Watched<W>,
) -> Result<(), IoFault>
    requires { writer.old.failed ≡ false }
    ensures { Writes W.contents writer.old writer.new result
        (option_map_or (thread_text layout number) (thread_row settled.entry.kernel.now.state number) []) }
{
    let Some(row) = settled.thread_row(ThreadNumber { number }) else {
        return Ok(());
    };
    let cells = [cell(row.quanta), cell(row.ticks)];
    write_told(writer, layout, Subject::Thread, number, &row.name, &cells)
}

/// Writes each processor's line.
fn write_processors<W: Write>(system: &System, writer: &mut Watched<W>) -> Result<(), IoFault>
    requires { writer.old.failed ≡ false }
    ensures { Writes W.contents writer.old writer.new result
        (flat_map (reports.processor_total (turns_made system.now.setting.program system.now.history))
        (range_with_len 1 (world_of system.now).state.limits.processors)) }
{
    for place in 0..system.processors() {
        write_processor(system, place + 1, writer)?;
    }
    Ok(())
}

/// Writes the processor's line.
fn write_processor<W: Write>(
    system: &System,
    processor: u32,
    writer: &mut Watched<W>,
) -> Result<(), IoFault>
    requires working { writer.old.failed ≡ false }
    requires there { processor ≤ system.now.setting.program.limits.processors }
    ensures { Writes W.contents writer.old writer.new result
        (reports.processor_total (turns_made system.now.setting.program system.now.history) processor) }
{
    let counts = system.counts(processor);
    let cells = [cell(counts.quanta), cell(counts.idles), cell(counts.ticks)];
    write_told(
        writer,
        Layout::InLine,
        Subject::Processor,
        processor,
        &no_name(),
        &cells,
    )
}

/// Writes the totals of all actors.
fn write_total<W: Write>(system: &System, writer: &mut Watched<W>) -> Result<(), IoFault>
    requires { writer.old.failed ≡ false }
    ensures { Writes W.contents writer.old writer.new result
        (reports.whole_total (length (world_of system.now).history)
        (turns_made system.now.setting.program system.now.history)) }
{
    let counts = system.total();
    let cells = [
        cell(system.turn_count()),
        cell(counts.quanta),
        cell(counts.ticks),
    ];
    write_told(
        writer,
        Layout::InLine,
        Subject::Total,
        1,
        &no_name(),
        &cells,
    )
}

/// Writes the report: a line for each thread, a line for each processor, and the totals. Fails with `Write` if the
/// writer fails.
pub fn write_report<W: Write>(system: &mut System, writer: &mut Watched<W>) -> Result<(), IoFault>
    requires { writer.old.failed ≡ false }
    ensures same { system.new ≡ system.old }
    ensures text { Writes W.contents writer.old writer.new result
        (reports.report system.old.setting.program system.old.history) }
{
    write_report_line(writer)?;
    write_threads(system.settle(), Layout::InLine, writer)?;
    write_processors(system, writer)?;
    write_total(system, writer)
}
