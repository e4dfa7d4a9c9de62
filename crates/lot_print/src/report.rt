//! The first and the last line of a report.
ghost use Rattle.std.specs.Prelude.{◌≡◌, codes, false};
ghost use Rattle.lot_simulation.specs.TimedReport as reports;
ghost use Rattle.lot_io.specs.Writing.{Writes};

use crate::line::RowLine;
use lot_io::{IoFault, Watched, write_bytes};
use lot_simulation::EarlyEnd;
use std::io::Write;

/// Writes the first line of the report. Fails with `Write` if the writer fails.
pub fn write_report_line<W: Write>(writer: &mut Watched<W>) -> Result<(), IoFault>
    requires { writer.old.failed ≡ false }
    ensures { Writes W.contents writer.old writer.new result (codes "report\n") }
{
    write_bytes(writer, b"report\n")
}

/// Writes the line of an early end. Fails with `Write` if the writer fails.
pub fn write_early_end<W: Write>(writer: &mut Watched<W>, early: EarlyEnd) -> Result<(), IoFault>
    requires { writer.old.failed ≡ false }
    ensures { Writes W.contents writer.old writer.new result (reports.early_line early) }
{
    early_line(early).write_to(writer)
}

fn early_line(early: EarlyEnd) -> RowLine
    ensures { result ≡ reports.early_line early }
{
    let mut line = RowLine::new();
    line.push_field("ended at ", early.time);
    line.push_field(" of ", early.end);
    line.push_field(": ", early.turns);
    line.push_text(" turns made\n");
    line
}
