//! The lines of turns.
ghost use Rattle.std.specs.Prelude.{◌≡◌, ◌||◌, [], false, true, OnOk};
ghost use Rattle.lot_io.specs.Writing.{Begins, IsPut, Puts, Writes};
ghost use Rattle.lot_io.specs.declared.fault.IoFault.TheVariants as faults;
ghost use Rattle.lot_simulation.specs.Output.{played_output};
ghost use Rattle.lot_system.specs.Leaving.{ends_refused};
ghost use Rattle.lot_system.specs.Played.{Plays};
ghost use Rattle.lot_engine.specs.Seen.{world_of};
ghost use Rattle.lot_system.specs.declared.inputs.Played.TheVariants.{Done};
ghost use Rattle.lot_playback.specs.Stages.{HasMade, Reports, turns_left};
ghost use Rattle.lot_system.specs.Texts.{made_text, made_texts};
ghost use Rattle.lot_playback.specs.Turns.{MadeTurn, program_turns};

use crate::{
    Played, end_play, heading, note_turn, play_through, printed_actor, put_answer, style_of,
};
use lot_engine::System;
use lot_io::{IoFault, Watched};
use lot_playback::{Observer, Playback, Turn};
use lot_print::{Page, write_ended};
use lot_program::Program;
use lot_simulation::Warnings;
use std::alloc::Global;
use std::io::Write;

/// Writes a line for each turn, page by page, and records the warnings.
#[derive(Drop)]
struct Lines<'a, W> {
    page: Page,
    warnings: &'a mut Warnings,
    writer: &'a mut Watched<W>,
}

impl<'a, W: Write> Observer for Lines<'a, W> {
    type Fault = IoFault;

    ghost observed = { λ program turns first now. (now.writer.ghost_name ≡ first.writer.ghost_name)
        × (now.writer.now.failed ≡ false)
        × IsPut (W.contents first.writer.now.inner) (W.contents now.writer.now.inner) [] now.page (made_texts turns)
        × (now.warnings.ghost_name ≡ first.warnings.ghost_name)
        × (now.warnings.now.stopped ≡ first.warnings.now.stopped) };

    ghost awaits = { λ program turns world actor first now. (now.writer.ghost_name ≡ first.writer.ghost_name)
        × (now.writer.now.failed ≡ false)
        × IsPut (W.contents first.writer.now.inner) (W.contents now.writer.now.inner) [] now.page (made_texts turns)
        × (now.warnings.ghost_name ≡ first.warnings.ghost_name)
        × (now.warnings.now.stopped ≡ first.warnings.now.stopped) };

    ghost stopped = { λ program turns first now fault. (now.writer.ghost_name ≡ first.writer.ghost_name)
        × (fault ≡ faults.Write) × (now.writer.now.failed ≡ true)
        × Begins (W.contents first.writer.now.inner) (W.contents now.writer.now.inner) (made_texts turns) };

    #[inline(always)]
    fn before(&mut self, program: &Program, system: &mut System, actor: u32) {}

    #[inline(always)]
    fn after(
        &mut self,
        program: &Program,
        system: &mut System,
        turn: &Turn,
    ) -> Result<(), IoFault> {
        put_made(system, turn, self.warnings, self.writer, &mut self.page)
    }
}

impl<'a, W: Write> Lines<'a, W> {
    /// Writes the pending lines.
    fn write_out(&mut self) -> Result<(), IoFault>
        requires { self.old.writer.now.failed ≡ false }
        ensures same { self.new.writer.ghost_name ≡ self.old.writer.ghost_name }
        ensures warnings { (self.new.warnings.ghost_name ≡ self.old.warnings.ghost_name)
            × (self.new.warnings.now ≡ self.old.warnings.now) }
        ensures text { Writes W.contents self.old.writer.now self.new.writer.now result self.old.page }
    {
        self.page.write_out(self.writer)
    }
}

/// Puts the lines of a turn on the page, and records its warning. It writes a listing at once.
#[inline(always)]
fn put_made<W: Write>(
    system: &mut System,
    turn: &Turn,
    warnings: &mut Warnings,
    writer: &mut Watched<W>,
    page: &mut Page,
) -> Result<(), IoFault>
    requires { writer.old.failed ≡ false }
    ensures same { system.new ≡ system.old }
    ensures text { (made : MadeTurn) → Reports turn.now made → world_of system.old ≡ made.turn.world
        → Puts W.contents writer.old writer.new page.old page.new result (made_text made) }
    ensures stopped { warnings.new.stopped ≡ warnings.old.stopped }
{
    let style = style_of(turn);
    let actor = printed_actor(system, turn.actor);
    if turn.has_ended {
        return write_ended(writer, page, heading(system, style, actor));
    }
    note_turn(warnings, system, turn);
    put_answer(system, style, actor, &turn.event, &turn.reply, writer, page)
}

/// Makes the program's turns, and writes their lines.
fn write_turns<W: Write>(
    program: &Program,
    playback: &mut Playback,
    warnings: &mut Warnings,
    writer: &mut Watched<W>,
) -> Result<(), IoFault>
    requires none { playback.old.made ≡ 0 }
    requires made { HasMade program.now [] playback.old.seen }
    requires working { writer.old.failed ≡ false }
    ensures setting { playback.new.seen.setting ≡ playback.old.seen.setting }
    ensures ended { OnOk result (turns_left playback.new ≡ []) }
    ensures text { Writes W.contents writer.old writer.new result (made_texts (program_turns program.now)) }
    ensures stopped { OnOk result (warnings.new.stopped ≡ warnings.old.stopped) }
{
    let mut lines = Lines {
        page: Page::new(),
        warnings,
        writer,
    };
    play_through(program, playback, &mut lines)?;
    lines.write_out()
}

/// Makes the program's turns, writes their lines, and ends the play.
fn write_play<W: Write>(
    program: &Program,
    mut playback: Playback,
    warnings: &mut Warnings,
    writer: &mut Watched<W>,
) -> Result<(), IoFault>
    requires none { playback.made ≡ 0 }
    requires made { HasMade program.now [] playback.seen }
    requires working { writer.old.failed ≡ false }
    ensures flushed { OnOk result (writer.new.flushed ≡ true) }
    ensures text { Writes W.contents writer.old writer.new result
        (played_output program.now program.now.duration) }
    ensures stopped { OnOk result (warnings.new.stopped ≡ (warnings.old.stopped || ends_refused program.now)) }
{
    write_turns(program, &mut playback, warnings, writer)?;
    end_play(program, playback, warnings, writer)
}

/// Plays the program in a system of its own: writes a line for each turn, and then the report. It stores the run's
/// warnings in `warnings`, and whether a refusal ended the run. It allocates all its memory before the first turn.
/// Fails with `Memory` before it has written anything, and with `Write` if the writer fails.
pub fn play_program<W: Write>(
    alloc: Global,
    program: &Program,
    warnings: &mut Warnings,
    writer: &mut Watched<W>,
) -> Result<Played, IoFault>
    requires { writer.old.failed ≡ false }
    ensures flushed { OnOk result (writer.new.flushed ≡ true) }
    ensures played { Plays W.contents writer.old writer.new result Done
        (played_output program.now program.now.duration) }
    ensures stopped { OnOk result (warnings.new.stopped ≡ (warnings.old.stopped || ends_refused program.now)) }
{
    let Ok(playback) = Playback::open(alloc, program) else {
        return Err(IoFault::Memory);
    };
    write_play(program, playback, warnings, writer)?;
    Ok(Played::Done)
}
