//! The end of a play's output: the report after all turns, with a schedule or timed.
ghost use Rattle.std.specs.Prelude.{◌≡◌, ◌||◌, [], false, true, OnOk, length};
ghost use Rattle.lot_engine.specs.Seen.{world_of};
ghost use Rattle.lot_io.specs.Writing.{Writes};
ghost use Rattle.lot_playback.specs.Orders.{IsAtPlace, IsAtTime, IsInOrder, made_in};
ghost use Rattle.lot_playback.specs.Stages.{turns_left};
ghost use Rattle.lot_system.specs.Leaving.{early_in, ends_refused, stopped_in};
ghost use Rattle.lot_system.specs.Texts.{last_report};

use crate::note_end;
use crate::report::write_report;
use crate::timed_report::{early_end, write_timed_report};
use lot_engine::System;
use lot_io::{IoFault, Watched, flush};
use lot_playback::{Order, Playback, Timekeeper};
use lot_program::Program;
use lot_simulation::{EarlyEnd, Warnings};
use std::io::Write;

/// Ends a play whose turns are all made: writes the report, flushes, and records the end of the system in the warnings,
/// even if the writer failed. Fails with `Write` if the writer fails.
pub fn end_play<W: Write>(
    program: &Program,
    playback: Playback,
    warnings: &mut Warnings,
    writer: &mut Watched<W>,
) -> Result<(), IoFault>
    requires program { playback.seen.setting.program ≡ program.now }
    requires ended { turns_left playback ≡ [] }
    requires working { writer.old.failed ≡ false }
    ensures flushed { OnOk result (writer.new.flushed ≡ true) }
    ensures text { Writes W.contents writer.old writer.new result (last_report program.now program.now.duration) }
    ensures stopped { OnOk result (warnings.new.stopped ≡ (warnings.old.stopped || ends_refused program.now)) }
{
    let (mut system, order) = playback.into_parts();
    let written = write_flushed(program, &mut system, &order, writer);
    note_ended(program, system, order, warnings);
    written
}

/// Writes the report of a system that has made all of its program's turns, and flushes.
fn write_flushed<W: Write>(
    program: &Program,
    system: &mut System,
    order: &Order,
    writer: &mut Watched<W>,
) -> Result<(), IoFault>
    requires program { system.old.setting.program ≡ program.now }
    requires order { IsInOrder system.old order.now }
    requires ended { turns_left (record { seen = system.old; made = made_in system.old order.now }) ≡ [] }
    requires working { writer.old.failed ≡ false }
    ensures same { system.new ≡ system.old }
    ensures flushed { OnOk result (writer.new.flushed ≡ true) }
    ensures text { Writes W.contents writer.old writer.new result (last_report program.now program.now.duration) }
{
    write_last_report(program, system, order, writer)?;
    flush(writer)
}

/// Records the end of a play in its warnings, like `note_last`, and frees the play.
pub(crate) fn note_ended(
    program: &Program,
    mut system: System,
    order: Order,
    warnings: &mut Warnings,
)
    requires program { system.setting.program ≡ program.now }
    requires order { IsInOrder system order }
    ensures { warnings.new.stopped ≡ (warnings.old.stopped || stopped_in program.now system order) }
{
    note_last(program, &mut system, &order, warnings);
}

/// Records the end of a play in its warnings: the state of its system, its early end, if it is timed and has one, and
/// whether a refusal ended it. It allocates nothing.
pub fn note_last(program: &Program, system: &mut System, order: &Order, warnings: &mut Warnings)
    requires program { system.old.setting.program ≡ program.now }
    requires order { IsInOrder system.old order.now }
    ensures same { system.new ≡ system.old }
    ensures kept { (warnings.new.made ≡ warnings.old.made) × (warnings.new.refused ≡ warnings.old.refused)
        × (warnings.new.refused_traps ≡ warnings.old.refused_traps) }
    ensures unmade { warnings.new.unmade ≡ length (world_of system.old).commands }
    ensures early { warnings.new.early ≡ early_in program.now system.old order.now }
    ensures stopped { warnings.new.stopped
        ≡ (warnings.old.stopped || stopped_in program.now system.old order.now) }
{
    note_end(warnings, system);
    warnings.early = early_end_of(program, system, order);
    warnings.stopped |= is_stopped(program, system, order);
}

/// The early end of the play, if it is timed and has one.
fn early_end_of(program: &Program, system: &System, order: &Order) -> Option<EarlyEnd>
    requires program { system.now.setting.program ≡ program.now }
    requires order { IsInOrder system.now order.now }
    ensures { result ≡ early_in program.now system.now order.now }
{
    match order {
        Order::Scheduled(_) => None,
        Order::InTime(timekeeper) => early_end(program, system, timekeeper),
    }
}

/// Whether a refusal ended the play, as one does in a strict program.
fn is_stopped(program: &Program, system: &System, order: &Order) -> bool
    ensures { result ≡ stopped_in program.now system.now order.now }
{
    match order {
        Order::Scheduled(_) => false,
        Order::InTime(timekeeper) => timekeeper.is_stopped(program),
    }
}

/// Writes the report of a system that has made all of its program's turns.
fn write_last_report<W: Write>(
    program: &Program,
    system: &mut System,
    order: &Order,
    writer: &mut Watched<W>,
) -> Result<(), IoFault>
    requires program { system.old.setting.program ≡ program.now }
    requires order { IsInOrder system.old order.now }
    requires ended { turns_left (record { seen = system.old; made = made_in system.old order.now }) ≡ [] }
    requires working { writer.old.failed ≡ false }
    ensures same { system.new ≡ system.old }
    ensures text { Writes W.contents writer.old writer.new result (last_report program.now program.now.duration) }
{
    match order {
        Order::Scheduled(place) => report_scheduled(program, system, *place, writer),
        Order::InTime(timekeeper) => report_in_time(program, system, timekeeper, writer),
    }
}

/// Writes the report of a schedule.
fn report_scheduled<W: Write>(
    program: &Program,
    system: &mut System,
    place: usize,
    writer: &mut Watched<W>,
) -> Result<(), IoFault>
    requires program { system.old.setting.program ≡ program.now }
    requires there { IsAtPlace system.old place }
    requires ended { turns_left (record { seen = system.old; made = place }) ≡ [] }
    requires working { writer.old.failed ≡ false }
    ensures same { system.new ≡ system.old }
    ensures text { Writes W.contents writer.old writer.new result (last_report program.now program.now.duration) }
{
    write_report(system, writer)
}

/// Writes the report of a timed program.
fn report_in_time<W: Write>(
    program: &Program,
    system: &mut System,
    timekeeper: &Timekeeper,
    writer: &mut Watched<W>,
) -> Result<(), IoFault>
    requires program { system.old.setting.program ≡ program.now }
    requires there { IsAtTime system.old timekeeper.now }
    requires ended { turns_left (record { seen = system.old; made = length system.old.history }) ≡ [] }
    requires working { writer.old.failed ≡ false }
    ensures same { system.new ≡ system.old }
    ensures text { Writes W.contents writer.old writer.new result (last_report program.now program.now.duration) }
{
    write_timed_report(program, system, timekeeper, writer)
}
