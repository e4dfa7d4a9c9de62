//! The lines of histories.
ghost use Rattle.std.specs.Prelude.{◌≡◌, ◌≤◌, false, length};
ghost use Rattle.lot_simulation.specs.Formats.{unit_of};
ghost use Rattle.lot_simulation.specs.Report as reports;
ghost use Rattle.lot_io.specs.Writing.{Writes};

use crate::lengths::{ACTORS, SCHEDULE_LINE};
use crate::line::Line;
use crate::runs::write_runs;
use lot_io::{IoFault, Watched};
use lot_simulation::{Format, SCHEDULE_WORD};
use std::io::Write;

/// Writes the history of a run as input lines that reproduce it: `schedule` lines in `lottery 1`, otherwise `runs`
/// lines. Fails with `Write` if the writer fails.
pub fn write_history<W: Write>(
    writer: &mut Watched<W>,
    format: Format,
    history: &[u8],
) -> Result<(), IoFault>
    requires { writer.old.failed ≡ false }
    ensures { Writes W.contents writer.old writer.new result (reports.history_lines (unit_of format) history.now) }
{
    match format {
        Format::V1 => write_schedule(writer, history),
        Format::V2 | Format::V3 => write_runs(writer, history),
    }
}

/// Writes the history in `schedule` lines of 64 actors each; the last line may be shorter.
fn write_schedule<W: Write>(writer: &mut Watched<W>, history: &[u8]) -> Result<(), IoFault>
    requires { writer.old.failed ≡ false }
    ensures { Writes W.contents writer.old writer.new result (reports.schedule_lines history.now) }
{
    let mut rest = history;
    while !rest.is_empty() {
        let len = rest.len().min(ACTORS);
        write_schedule_line(writer, &rest[..len])?;
        rest = &rest[len..];
    }
    Ok(())
}

/// Writes a line of these actors.
fn write_schedule_line<W: Write>(writer: &mut Watched<W>, actors: &[u8]) -> Result<(), IoFault>
    requires working { writer.old.failed ≡ false }
    requires few { length actors.now ≤ 64 }
    ensures { Writes W.contents writer.old writer.new result (reports.schedule_line actors.now) }
{
    let mut line = Line::<SCHEDULE_LINE>::new();
    line.push_bytes(SCHEDULE_WORD);
    for actor in actors {
        line.push_field(" ", *actor);
    }
    line.push_text("\n");
    line.write_to(writer)
}
