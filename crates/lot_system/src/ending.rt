//! The end of a free run's output: the report, and the history as input lines that reproduce it.
ghost use Rattle.std.specs.Prelude.{◌≡◌, false, true, OnOk};
ghost use Rattle.lot_simulation.specs.Output.{end_text};
ghost use Rattle.lot_system.specs.Endings.{shown_end};
ghost use Rattle.lot_io.specs.Writing.{Writes};

use crate::report::write_report;
use lot_engine::System;
use lot_io::{IoFault, Watched, flush};
use lot_print::write_history;
use std::io::Write;

/// Writes the report, then the history as lines of an input with this unit, and flushes. Fails with `Write` if the
/// writer fails.
pub fn write_end<W: Write>(system: &mut System, writer: &mut Watched<W>) -> Result<(), IoFault>
    requires { writer.old.failed ≡ false }
    ensures same { system.new ≡ system.old }
    ensures flushed { OnOk result (writer.new.flushed ≡ true) }
    ensures text { system.old.setting.timer ≡ false → Writes W.contents writer.old writer.new result
        (end_text system.old.setting.program system.old.history) }
    ensures shown { Writes W.contents writer.old writer.new result (shown_end system.old) }
{
    write_texts(system, writer)?;
    flush(writer)
}

/// Writes the report, and then the history.
fn write_texts<W: Write>(system: &mut System, writer: &mut Watched<W>) -> Result<(), IoFault>
    requires { writer.old.failed ≡ false }
    ensures same { system.new ≡ system.old }
    ensures text { system.old.setting.timer ≡ false → Writes W.contents writer.old writer.new result
        (end_text system.old.setting.program system.old.history) }
    ensures shown { Writes W.contents writer.old writer.new result (shown_end system.old) }
{
    write_report(system, writer)?;
    write_history(writer, system.format(), system.history())
}
