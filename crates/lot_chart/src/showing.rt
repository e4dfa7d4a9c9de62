//! Writing curves.
ghost use Rattle.std.specs.Prelude.{◌≡◌, ◌||◌, false, true, MatchResult, OnOk};
ghost use Rattle.lot_simulation.specs.Grammar.{program_in};
ghost use Rattle.lot_system.specs.Leaving.{ends_refused};
ghost use Rattle.lot_system.specs.Played.{Plays, came_of};
ghost use Rattle.lot_io.specs.Writing.{Writes};
ghost use Rattle.lot_curves.specs.Curves.{curves_by, curves_of, windowed};
ghost use Rattle.lot_curves.specs.Intervals.{curves_within};
ghost use Rattle.lot_system.specs.declared.inputs.Played.TheVariants.{Done};
ghost use Rattle.lot_chart.specs.Charts as charts;
ghost use Rattle.lot_chart.specs.Dues.{dues_by};
ghost use Rattle.lot_chart.specs.Shown.{Shows, chart_output, shares_output};
ghost use Rattle.lot_chart.specs.Tables as tables;

use crate::{gather, program_chart, table};
use lot_curves::{By, Interval, Measure};
use lot_io::{IoFault, Watched, flush, write_bytes};
use lot_program::Program;
use lot_simulation::Warnings;
use lot_system::{Played, refuse};
use lot_text::{ParseFault, parse};
use std::alloc::{AllocError, Global};
use std::io::Write;

/// Makes the turns of the input in `bytes`, and writes a table of each thread's ticks or draws over time; or one line
/// for a refused input. It stores the run's warnings in `warnings`, and whether a refusal ended the run. Fails with
/// `Memory` before it has written anything, and with `Write` if the writer fails.
pub fn shares_bytes<W: Write>(
    alloc: Global,
    measure: Measure,
    bytes: &[u8],
    warnings: &mut Warnings,
    writer: &mut Watched<W>,
) -> Result<Played, IoFault>
    requires { writer.old.failed ≡ false }
    ensures flushed { OnOk result (writer.new.flushed ≡ true) }
    ensures shown { Plays W.contents writer.old writer.new result (came_of (program_in bytes.now))
        (shares_output measure bytes.now) }
    ensures stopped { OnOk result (MatchResult (program_in bytes.now)
        (λ program. warnings.new.stopped ≡ (warnings.old.stopped || ends_refused program))
        (λ fault. warnings.new.stopped ≡ warnings.old.stopped)) }
{
    match parse(alloc, bytes) {
        Ok(program) => shares_program(alloc, measure, None, None, &program, warnings, writer),
        Err(ParseFault::Memory) => Err(IoFault::Memory),
        Err(ParseFault::Input(fault)) => refuse(fault, writer),
    }
}

/// Makes the turns of the input in `bytes`, and writes a picture with this title of each thread's ticks over time, with
/// dues if the program is timed; or one line for a refused input. It stores the run's warnings in `warnings`, and
/// whether a refusal ended the run. Fails with `Memory` before it has written anything, and with `Write` if the writer
/// fails.
pub fn chart_bytes<W: Write>(
    alloc: Global,
    title: &str,
    bytes: &[u8],
    warnings: &mut Warnings,
    writer: &mut Watched<W>,
) -> Result<Played, IoFault>
    requires { writer.old.failed ≡ false }
    ensures flushed { OnOk result (writer.new.flushed ≡ true) }
    ensures shown { Plays W.contents writer.old writer.new result (came_of (program_in bytes.now))
        (chart_output title.now bytes.now) }
    ensures stopped { OnOk result (MatchResult (program_in bytes.now)
        (λ program. warnings.new.stopped ≡ (warnings.old.stopped || ends_refused program))
        (λ fault. warnings.new.stopped ≡ warnings.old.stopped)) }
{
    match parse(alloc, bytes) {
        Ok(program) => chart_program(
            alloc,
            By::Thread,
            title,
            None,
            None,
            &program,
            warnings,
            writer,
        ),
        Err(ParseFault::Memory) => Err(IoFault::Memory),
        Err(ParseFault::Input(fault)) => refuse(fault, writer),
    }
}

/// Makes the program's turns, and writes a table of each thread's ticks or draws over time, or over this interval; with
/// a window, the shares of the last ticks. It stores the run's warnings in `warnings`, and whether a refusal ended the
/// run. Fails with `Memory` before it has written anything, and with `Write` if the writer fails.
pub fn shares_program<W: Write>(
    alloc: Global,
    measure: Measure,
    interval: Option<Interval>,
    window: Option<u32>,
    program: &Program,
    warnings: &mut Warnings,
    writer: &mut Watched<W>,
) -> Result<Played, IoFault>
    requires { writer.old.failed ≡ false }
    ensures flushed { OnOk result (writer.new.flushed ≡ true) }
    ensures shown { Plays W.contents writer.old writer.new result Done
        (tables.table measure (windowed window (curves_within interval (curves_of program.now)))) }
    ensures stopped { OnOk result (warnings.new.stopped ≡ (warnings.old.stopped || ends_refused program.now)) }
{
    match gather(alloc, By::Thread, program, warnings) {
        Ok(curves) => {
            let curves = curves.within(interval).with_window(window);
            write_text(table(alloc, &curves, measure), writer)
        }
        Err(_) => Err(IoFault::Memory),
    }
}

/// Makes the program's turns, and writes a picture with this title of each thread's ticks over time, or over this
/// interval; with a window, of the shares of the last ticks. A picture of a timed program also shows dues, for which it
/// makes the turns a second time. By currency the picture of a timed program shows the ticks of the threads below each
/// currency, and the currency's due; another program's is by thread. It stores the run's warnings in `warnings`, and
/// whether a refusal ended the run. Fails with `Memory` before it has written anything, and with `Write` if the writer
/// fails.
pub fn chart_program<W: Write>(
    alloc: Global,
    by: By,
    title: &str,
    interval: Option<Interval>,
    window: Option<u32>,
    program: &Program,
    warnings: &mut Warnings,
    writer: &mut Watched<W>,
) -> Result<Played, IoFault>
    requires { writer.old.failed ≡ false }
    ensures flushed { OnOk result (writer.new.flushed ≡ true) }
    ensures shown { Plays W.contents writer.old writer.new result Done
        (charts.chart title.now (dues_by by program.now)
        (windowed window (curves_within interval (curves_by by program.now)))) }
    ensures stopped { OnOk result (warnings.new.stopped ≡ (warnings.old.stopped || ends_refused program.now)) }
{
    match gather(alloc, by, program, warnings) {
        Ok(curves) => {
            let curves = curves.within(interval).with_window(window);
            write_text(program_chart(alloc, program, &curves, title), writer)
        }
        Err(_) => Err(IoFault::Memory),
    }
}

/// Writes the text, or fails with `Memory` if there is none.
fn write_text<W: Write>(
    text: Result<Vec<u8>, AllocError>,
    writer: &mut Watched<W>,
) -> Result<Played, IoFault>
    requires { writer.old.failed ≡ false }
    ensures flushed { OnOk result (writer.new.flushed ≡ true) }
    ensures shown { Shows W.contents writer.old writer.new text (λ bytes. bytes.items) result }
{
    let Ok(text) = text else {
        return Err(IoFault::Memory);
    };
    write_flushed(text.as_slice(), writer)?;
    Ok(Played::Done)
}

/// Writes the bytes, and flushes.
fn write_flushed<W: Write>(bytes: &[u8], writer: &mut Watched<W>) -> Result<(), IoFault>
    requires { writer.old.failed ≡ false }
    ensures flushed { OnOk result (writer.new.flushed ≡ true) }
    ensures text { Writes W.contents writer.old writer.new result bytes.now }
{
    write_bytes(writer, bytes)?;
    flush(writer)
}
