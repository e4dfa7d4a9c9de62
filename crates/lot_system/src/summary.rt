//! A play that writes its report alone.
ghost use Rattle.std.specs.Prelude.{◌≡◌, ◌||◌, [], false, true, OnOk};
ghost use Rattle.lot_io.specs.Writing.{Writes};
ghost use Rattle.lot_system.specs.Leaving.{ends_refused};
ghost use Rattle.lot_system.specs.Played.{Plays};
ghost use Rattle.lot_system.specs.ReportTable.{report_text};
ghost use Rattle.lot_system.specs.declared.inputs.Played.TheVariants.{Done};
ghost use Rattle.lot_playback.specs.Stages.{HasMade, turns_left};
ghost use Rattle.lot_playback.specs.Turns.{program_turns};

use crate::report_table::end_with_table;
use crate::{Played, ReportForm, end_play, note_turn, play_through};
use lot_engine::System;
use lot_io::{IoFault, Watched};
use lot_playback::{Observer, Playback, Turn};
use lot_program::Program;
use lot_simulation::Warnings;
use std::alloc::Global;
use std::io::Write;

/// Records the warnings of turns.
#[derive(Drop)]
struct Noting<'a> {
    warnings: &'a mut Warnings,
}

impl<'a> Observer for Noting<'a> {
    type Fault = IoFault;

    ghost observed = { λ program turns first now. (now.warnings.ghost_name ≡ first.warnings.ghost_name)
        × (now.warnings.now.stopped ≡ first.warnings.now.stopped) };

    ghost awaits = { λ program turns world actor first now. (now.warnings.ghost_name ≡ first.warnings.ghost_name)
        × (now.warnings.now.stopped ≡ first.warnings.now.stopped) };

    // it never stops
    ghost stopped = { λ program turns first now fault. ⊥ };

    #[inline(always)]
    fn before(&mut self, program: &Program, system: &mut System, actor: u32) {}

    #[inline(always)]
    fn after(
        &mut self,
        program: &Program,
        system: &mut System,
        turn: &Turn,
    ) -> Result<(), IoFault> {
        if !turn.has_ended {
            note_turn(self.warnings, system, turn);
        }
        Ok(())
    }
}

/// Makes all turns of a program, from its first, and records their warnings.
pub(crate) fn note_turns(program: &Program, playback: &mut Playback, warnings: &mut Warnings)
    requires none { playback.old.made ≡ 0 }
    requires made { HasMade program.now [] playback.old.seen }
    ensures setting { playback.new.seen.setting ≡ playback.old.seen.setting }
    ensures ended { turns_left playback.new ≡ [] }
    ensures made { HasMade program.now (program_turns program.now) playback.new.seen }
    ensures stopped { warnings.new.stopped ≡ warnings.old.stopped }
{
    let mut noting = Noting { warnings };
    match play_through(program, playback, &mut noting) {
        Ok(()) => (),
        Err(_) => unreachable!(),
    }
}

/// Makes the program's turns in a system of its own, and writes the report alone, in this form. It stores the run's
/// warnings in `warnings`. It allocates all its memory before the first turn. Fails with `Memory` before it has written
/// anything, and with `Write` if the writer fails.
pub fn report_program<W: Write>(
    alloc: Global,
    program: &Program,
    form: ReportForm,
    warnings: &mut Warnings,
    writer: &mut Watched<W>,
) -> Result<Played, IoFault>
    requires { writer.old.failed ≡ false }
    ensures flushed { OnOk result (writer.new.flushed ≡ true) }
    ensures reported { Plays W.contents writer.old writer.new result Done (report_text form program.now) }
    ensures stopped { OnOk result (warnings.new.stopped ≡ (warnings.old.stopped || ends_refused program.now)) }
{
    let Ok(mut playback) = Playback::open(alloc, program) else {
        return Err(IoFault::Memory);
    };
    note_turns(program, &mut playback, warnings);
    end_in_form(program, playback, form, warnings, writer)?;
    Ok(Played::Done)
}

/// Ends a play whose turns are all made: writes the report in this form, flushes, and records the end of the system in
/// the warnings.
fn end_in_form<W: Write>(
    program: &Program,
    playback: Playback,
    form: ReportForm,
    warnings: &mut Warnings,
    writer: &mut Watched<W>,
) -> Result<(), IoFault>
    requires made { HasMade program.now (program_turns program.now) playback.seen }
    requires ended { turns_left playback ≡ [] }
    requires working { writer.old.failed ≡ false }
    ensures flushed { OnOk result (writer.new.flushed ≡ true) }
    ensures text { Writes W.contents writer.old writer.new result (report_text form program.now) }
    ensures stopped { OnOk result (warnings.new.stopped ≡ (warnings.old.stopped || ends_refused program.now)) }
{
    match form {
        ReportForm::Lines => end_play(program, playback, warnings, writer),
        ReportForm::Table | ReportForm::CurrencyTable => {
            end_with_table(program, playback, form, warnings, writer)
        }
    }
}
