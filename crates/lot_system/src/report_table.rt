//! The report as a table.
ghost use Rattle.std.specs.Prelude.{◌≡◌, ◌||◌, [], false, true, OnOk};
ghost use Rattle.lot_simulation.specs.Timed as timed;
ghost use Rattle.lot_simulation.specs.Timed.{timed_turns};
ghost use Rattle.lot_engine.specs.Seen.{world_of};
ghost use Rattle.lot_io.specs.Writing.{Writes};
ghost use Rattle.lot_playback.specs.InTime.{IsAtEnd, moment_in};
ghost use Rattle.lot_playback.specs.Orders.{IsInOrder, made_in};
ghost use Rattle.lot_playback.specs.Stages.{HasMade, turns_left};
ghost use Rattle.lot_playback.specs.Turns.{program_turns};
ghost use Rattle.lot_system.specs.Leaving.{ends_refused};
ghost use Rattle.lot_system.specs.ReportTable as tables;
ghost use Rattle.lot_system.specs.ReportTable.{last_table, scheduled_table, timed_table};

use crate::reports::note_ended;
use crate::told::ending_of;
use crate::{ReportForm, report, timed_report};
use lot_engine::System;
use lot_io::{IoFault, Watched, flush};
use lot_playback::{Order, Playback, Timekeeper};
use lot_print::write_header;
use lot_program::Program;
use lot_simulation::{Layout, Table, Warnings};
use std::io::Write;

/// Ends a play whose turns are all made: writes the table, flushes, and records the end of the system in the warnings,
/// even if the writer failed.
pub(crate) fn end_with_table<W: Write>(
    program: &Program,
    playback: Playback,
    form: ReportForm,
    warnings: &mut Warnings,
    writer: &mut Watched<W>,
) -> Result<(), IoFault>
    requires made { HasMade program.now (program_turns program.now) playback.seen }
    requires ended { turns_left playback ≡ [] }
    requires working { writer.old.failed ≡ false }
    ensures flushed { OnOk result (writer.new.flushed ≡ true) }
    ensures text { Writes W.contents writer.old writer.new result (last_table form program.now program.now.duration) }
    ensures stopped { OnOk result (warnings.new.stopped ≡ (warnings.old.stopped || ends_refused program.now)) }
{
    let (mut system, order) = playback.into_parts();
    let written = write_flushed(program, &mut system, &order, form, writer);
    note_ended(program, system, order, warnings);
    written
}

/// Writes the table of a system that has made all of its program's turns, and flushes.
fn write_flushed<W: Write>(
    program: &Program,
    system: &mut System,
    order: &Order,
    form: ReportForm,
    writer: &mut Watched<W>,
) -> Result<(), IoFault>
    requires made { HasMade program.now (program_turns program.now) system.old }
    requires order { IsInOrder system.old order.now }
    requires ended { turns_left (record { seen = system.old; made = made_in system.old order.now }) ≡ [] }
    requires working { writer.old.failed ≡ false }
    ensures same { system.new ≡ system.old }
    ensures flushed { OnOk result (writer.new.flushed ≡ true) }
    ensures text { Writes W.contents writer.old writer.new result (last_table form program.now program.now.duration) }
{
    write_table(program, system, order, form, writer)?;
    flush(writer)
}

/// Writes the table of a system that has made all of its program's turns.
fn write_table<W: Write>(
    program: &Program,
    system: &mut System,
    order: &Order,
    form: ReportForm,
    writer: &mut Watched<W>,
) -> Result<(), IoFault>
    requires made { HasMade program.now (program_turns program.now) system.old }
    requires order { IsInOrder system.old order.now }
    requires ended { turns_left (record { seen = system.old; made = made_in system.old order.now }) ≡ [] }
    requires working { writer.old.failed ≡ false }
    ensures same { system.new ≡ system.old }
    ensures text { Writes W.contents writer.old writer.new result (last_table form program.now program.now.duration) }
{
    match order {
        Order::Scheduled(_) => write_scheduled(system, writer),
        Order::InTime(timekeeper) => {
            write_timed(program, system, timekeeper, table_in(form), writer)
        }
    }
}

/// The table in this form of a timed program.
fn table_in(form: ReportForm) -> Table
    ensures { result ≡ tables.table_in form }
{
    match form {
        ReportForm::Lines | ReportForm::Table => Table::Timed,
        ReportForm::CurrencyTable => Table::Currencies,
    }
}

/// Writes the table of a schedule: the columns' names, and each thread's row.
fn write_scheduled<W: Write>(system: &mut System, writer: &mut Watched<W>) -> Result<(), IoFault>
    requires { writer.old.failed ≡ false }
    ensures same { system.new ≡ system.old }
    ensures text { Writes W.contents writer.old writer.new result
        (scheduled_table (world_of system.old).state) }
{
    write_header(writer, Table::Schedule, false)?;
    report::write_threads(system.settle(), Layout::InTable, writer)
}

/// Writes this table of a timed program: the columns' names, and the row of each of its subjects.
fn write_timed<W: Write>(
    program: &Program,
    system: &mut System,
    timekeeper: &Timekeeper,
    table: Table,
    writer: &mut Watched<W>,
) -> Result<(), IoFault>
    requires program { system.old.setting.program ≡ program.now }
    requires end { IsAtEnd system.old timekeeper.now }
    requires working { writer.old.failed ≡ false }
    ensures same { system.new ≡ system.old }
    ensures text { Writes W.contents writer.old writer.new result
        (timed_table table (moment_in system.old timekeeper.now)
        (timed.ended_at program.now (moment_in system.old timekeeper.now))
        (timed_turns system.old.setting.program)) }
{
    write_header(writer, table, false)?;
    let ending = ending_of(program, system, timekeeper);
    let subject = table.subject();
    timed_report::write_subjects(system, timekeeper, ending, Layout::InTable, subject, writer)
}
