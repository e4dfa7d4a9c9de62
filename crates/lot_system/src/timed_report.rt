//! The report of a timed program.
ghost use Rattle.std.specs.Prelude.{◌≡◌, ◌≤◌, false, flat_map, length};
ghost use Rattle.lot_machine.specs.Bounds.{IsBetween};
ghost use Rattle.lot_machine.specs.Facts as facts;
ghost use Rattle.lot_simulation.specs.Columns.{all_subjects};
ghost use Rattle.lot_simulation.specs.Timed as timed;
ghost use Rattle.lot_simulation.specs.Timed.{timed_turns};
ghost use Rattle.lot_simulation.specs.TimedReport as reports;
ghost use Rattle.lot_simulation.specs.TimedReport.{subject_text, subjects_text};
ghost use Rattle.lot_simulation.specs.declared.columns.Layout.TheVariants.{InLine};
ghost use Rattle.lot_playback.specs.InTime.{IsAtEnd, IsFollowed, moment_in};
ghost use Rattle.lot_engine.specs.Seen.{world_of};
ghost use Rattle.lot_io.specs.Writing.{Writes};
ghost use Rattle.lot_system.specs.ReportTable.{most_of};

use crate::told::{Ending, ending_of, told_of};
use lot_engine::System;
use lot_io::{IoFault, Watched};
use lot_playback::Timekeeper;
use lot_print::{write_early_end, write_report_line, write_told};
use lot_program::Program;
use lot_simulation::{EarlyEnd, Layout, Subject};
use std::io::Write;

/// Writes the report of a system that has made all of its timed program's turns: a line for each thread, each currency
/// and each processor, the totals, and after an early end the line that says so. Fails with `Write` if the writer
/// fails.
pub fn write_timed_report<W: Write>(
    program: &Program,
    system: &mut System,
    timekeeper: &Timekeeper,
    writer: &mut Watched<W>,
) -> Result<(), IoFault>
    requires program { system.old.setting.program ≡ program.now }
    requires end { IsAtEnd system.old timekeeper.now }
    requires working { writer.old.failed ≡ false }
    ensures same { system.new ≡ system.old }
    ensures text { Writes W.contents writer.old writer.new result (reports.timed_report program.now) }
{
    write_lines(program, system, timekeeper, writer)?;
    write_early(early_end(program, system, timekeeper), writer)
}

/// The early end of the play, if it has one: another turn would follow, but the limit on turns is reached, or a refusal
/// ended the play.
pub(crate) fn early_end(
    program: &Program,
    system: &System,
    timekeeper: &Timekeeper,
) -> Option<EarlyEnd>
    requires program { system.now.setting.program ≡ program.now }
    requires followed { IsFollowed system.now.setting.program system.now timekeeper.now }
    ensures { result
        ≡ reports.early_end program.now (moment_in system.now timekeeper.now) (length system.now.history) }
{
    timekeeper.following(program, system)?;
    Some(EarlyEnd {
        time: timekeeper.clocks.time,
        end: program.duration().unwrap_or(0),
        turns: system.turn_count(),
    })
}

/// Writes the line of an early end, if there was one.
fn write_early<W: Write>(early: Option<EarlyEnd>, writer: &mut Watched<W>) -> Result<(), IoFault>
    requires { writer.old.failed ≡ false }
    ensures { Writes W.contents writer.old writer.new result (reports.early_text early) }
{
    match early {
        Some(early) => write_early_end(writer, early),
        None => Ok(()),
    }
}

/// Writes the lines that each report of a timed program has.
fn write_lines<W: Write>(
    program: &Program,
    system: &mut System,
    timekeeper: &Timekeeper,
    writer: &mut Watched<W>,
) -> Result<(), IoFault>
    requires program { system.old.setting.program ≡ program.now }
    requires end { IsAtEnd system.old timekeeper.now }
    requires working { writer.old.failed ≡ false }
    ensures same { system.new ≡ system.old }
    ensures text { Writes W.contents writer.old writer.new result
        (reports.timed_report_of program.now (moment_in system.old timekeeper.now)
        (timed.ended_at program.now (moment_in system.old timekeeper.now)) (timed_turns system.old.setting.program)) }
{
    write_report_line(writer)?;
    let ending = ending_of(program, system, timekeeper);
    write_all(system, timekeeper, ending, writer)
}

/// Writes the lines of all subjects.
fn write_all<W: Write>(
    system: &mut System,
    timekeeper: &Timekeeper,
    ending: Ending,
    writer: &mut Watched<W>,
) -> Result<(), IoFault>
    requires end { IsAtEnd system.old timekeeper.now }
    requires values { ending.all_values ≡ facts.live_value (world_of system.old).state }
    requires working { writer.old.failed ≡ false }
    ensures same { system.new ≡ system.old }
    ensures text { Writes W.contents writer.old writer.new result
        (flat_map (subjects_text InLine (moment_in system.old timekeeper.now) ending.time
        (timed_turns system.old.setting.program)) all_subjects) }
{
    let mut rest: &[Subject] = &Subject::ALL;
    while let [subject, others @ ..] = rest {
        write_subjects(system, timekeeper, ending, Layout::InLine, *subject, writer)?;
        rest = others;
    }
    Ok(())
}

/// Writes the lines or rows of all subjects of this kind.
pub(crate) fn write_subjects<W: Write>(
    system: &mut System,
    timekeeper: &Timekeeper,
    ending: Ending,
    layout: Layout,
    subject: Subject,
    writer: &mut Watched<W>,
) -> Result<(), IoFault>
    requires end { IsAtEnd system.old timekeeper.now }
    requires values { ending.all_values ≡ facts.live_value (world_of system.old).state }
    requires working { writer.old.failed ≡ false }
    ensures same { system.new ≡ system.old }
    ensures text { Writes W.contents writer.old writer.new result
        (subjects_text layout (moment_in system.old timekeeper.now) ending.time
        (timed_turns system.old.setting.program) subject) }
{
    for place in 0..count_of(system, subject) {
        write_subject(
            system,
            timekeeper,
            ending,
            layout,
            subject,
            place + 1,
            writer,
        )?;
    }
    Ok(())
}

/// The number of subjects of this kind, those that don't exist any more included.
fn count_of(system: &System, subject: Subject) -> u32
    ensures count { result ≡ reports.count_of (world_of system.now).state subject }
    ensures within { result ≤ most_of subject system.now.setting.program }
{
    match subject {
        Subject::Thread => system.thread_count(),
        Subject::Currency => system.currency_count().saturating_sub(1),
        Subject::Processor => system.processors(),
        Subject::Total => 1,
    }
}

/// Writes the line or the row of the subject with this number, if it exists.
fn write_subject<W: Write>(
    system: &mut System,
    timekeeper: &Timekeeper,
    ending: Ending,
    layout: Layout,
    subject: Subject,
    number: u32,
    writer: &mut Watched<W>,
) -> Result<(), IoFault>
    requires end { IsAtEnd system.old timekeeper.now }
    requires there { IsBetween 1 (most_of subject system.old.setting.program) number }
    requires values { ending.all_values ≡ facts.live_value (world_of system.old).state }
    requires working { writer.old.failed ≡ false }
    ensures same { system.new ≡ system.old }
    ensures text { Writes W.contents writer.old writer.new result
        (subject_text layout (moment_in system.old timekeeper.now) ending.time
        (timed_turns system.old.setting.program) subject number) }
{
    let Some(told) = told_of(system, timekeeper, ending, subject, number) else {
        return Ok(());
    };
    write_told(
        writer,
        layout,
        subject,
        number,
        &told.name,
        told.cells.as_slice(),
    )
}
