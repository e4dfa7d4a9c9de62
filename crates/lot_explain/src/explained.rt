//! The lines of turns, with their explanations.
ghost use Rattle.std.specs.Prelude.{◌≡◌, ◌<◌, ◌++◌, [], codes, false, true, IfSome, OnOk};
ghost use Rattle.std.specs.Fmt.{decimal};
ghost use Rattle.lot_io.specs.Writing.{Begins, IsPut, Puts, Writes};
ghost use Rattle.lot_io.specs.declared.fault.IoFault.TheVariants as faults;
ghost use Rattle.lot_simulation.specs.Texts.{front, reply_text};
ghost use Rattle.lot_engine.specs.Seen.{world_of};
ghost use Rattle.lot_playback.specs.Stages.{HasMade, turns_left};
ghost use Rattle.lot_playback.specs.Turns.{MadeTurn, program_turns};
ghost use Rattle.lot_explain.specs.Funding.{funding_in};
ghost use Rattle.lot_explain.specs.Lots.{total_of, won_in, won_lines};
ghost use Rattle.lot_explain.specs.MadeTurns.{HasLots, IsExplained, explained_made, explained_turns};

use crate::detail::Detail;
use crate::funding::put_funding;
use crate::gathering::Lots;
use crate::lines::put_lots;
use lot_engine::System;
use lot_io::{IoFault, Watched};
use lot_machine::{Event, Reply};
use lot_playback::{Observer, Playback, Turn};
use lot_print::{Heading, Page, write_ended};
use lot_program::Program;
use lot_simulation::Warnings;
use lot_system::{heading, note_turn, play_through, printed_actor, put_answer, style_of};
use std::io::Write;

/// Writes the lots of each won lottery and the loans at it, then a line for each turn, page by page, and records the
/// warnings.
#[derive(Drop)]
struct Explained<'a, W> {
    detail: Detail,
    /// The lots of the lottery that the next turn may hold, and the loans at it.
    lots: &'a mut Lots,
    page: Page,
    warnings: &'a mut Warnings,
    writer: &'a mut Watched<W>,
}

impl<'a, W: Write> Observer for Explained<'a, W> {
    type Fault = IoFault;

    ghost observed = { λ program turns first now. (now.writer.ghost_name ≡ first.writer.ghost_name)
        × (now.lots.now.room ≡ program.limits.threads)
        × (now.writer.now.failed ≡ false)
        × IsPut (W.contents first.writer.now.inner) (W.contents now.writer.now.inner) [] now.page
        (explained_turns first.detail turns)
        × (now.detail ≡ first.detail)
        × (now.warnings.ghost_name ≡ first.warnings.ghost_name)
        × (now.warnings.now.stopped ≡ first.warnings.now.stopped) };

    ghost awaits = { λ program turns world actor first now. (now.writer.ghost_name ≡ first.writer.ghost_name)
        × (now.lots.now.room ≡ program.limits.threads)
        × (now.writer.now.failed ≡ false)
        × IsPut (W.contents first.writer.now.inner) (W.contents now.writer.now.inner) [] now.page
        (explained_turns first.detail turns)
        × HasLots program world actor now.lots.now
        × (now.detail ≡ first.detail)
        × (now.warnings.ghost_name ≡ first.warnings.ghost_name)
        × (now.warnings.now.stopped ≡ first.warnings.now.stopped) };

    ghost stopped = { λ program turns first now fault. (now.writer.ghost_name ≡ first.writer.ghost_name)
        × (fault ≡ faults.Write) × (now.writer.now.failed ≡ true)
        × Begins (W.contents first.writer.now.inner) (W.contents now.writer.now.inner)
        (explained_turns first.detail turns) };

    #[inline(always)]
    fn before(&mut self, program: &Program, system: &mut System, actor: u32) {
        self.lots.gather(program, system, actor);
    }

    #[inline(always)]
    fn after(
        &mut self,
        program: &Program,
        system: &mut System,
        turn: &Turn,
    ) -> Result<(), IoFault> {
        put_explained(
            system,
            self.detail,
            turn,
            self.lots,
            self.warnings,
            self.writer,
            &mut self.page,
        )
    }
}

impl<'a, W: Write> Explained<'a, W> {
    /// Writes the pending lines.
    fn write_out(&mut self) -> Result<(), IoFault>
        requires { self.old.writer.now.failed ≡ false }
        ensures same { self.new.writer.ghost_name ≡ self.old.writer.ghost_name }
        ensures warnings { (self.new.warnings.ghost_name ≡ self.old.warnings.ghost_name)
            × (self.new.warnings.now ≡ self.old.warnings.now) }
        ensures text { Writes W.contents self.old.writer.now self.new.writer.now result self.old.page }
    {
        self.page.write_out(self.writer)
    }
}

/// Makes the program's turns, and writes their lines with their explanations.
pub(crate) fn explain_turns<W: Write>(
    program: &Program,
    detail: Detail,
    playback: &mut Playback,
    lots: &mut Lots,
    warnings: &mut Warnings,
    writer: &mut Watched<W>,
) -> Result<(), IoFault>
    requires none { playback.old.made ≡ 0 }
    requires made { HasMade program.now [] playback.old.seen }
    requires room { lots.old.room ≡ program.now.limits.threads }
    requires working { writer.old.failed ≡ false }
    ensures setting { playback.new.seen.setting ≡ playback.old.seen.setting }
    ensures ended { OnOk result (turns_left playback.new ≡ []) }
    ensures text { Writes W.contents writer.old writer.new result (explained_turns detail (program_turns program.now)) }
    ensures stopped { OnOk result (warnings.new.stopped ≡ warnings.old.stopped) }
{
    let mut explained = Explained {
        detail,
        lots,
        page: Page::new(),
        warnings,
        writer,
    };
    play_through(program, playback, &mut explained)?;
    explained.write_out()
}

/// Puts the lines of a turn on the page, after the lots and the loans of its lottery, if a thread won it, and records
/// its warning.
fn put_explained<W: Write>(
    system: &mut System,
    detail: Detail,
    turn: &Turn,
    lots: &Lots,
    warnings: &mut Warnings,
    writer: &mut Watched<W>,
    page: &mut Page,
) -> Result<(), IoFault>
    requires made { (made : MadeTurn) × IsExplained system.old turn.now lots.now made }
    requires working { writer.old.failed ≡ false }
    ensures same { system.new ≡ system.old }
    ensures text { (made : MadeTurn) → IsExplained system.old turn.now lots.now made
        → Puts W.contents writer.old writer.new page.old page.new result (explained_made detail made) }
    ensures stopped { warnings.new.stopped ≡ warnings.old.stopped }
{
    let actor = printed_actor(system, turn.actor);
    let heading = heading(system, style_of(turn), actor);
    if turn.has_ended {
        return write_ended(writer, page, heading);
    }
    note_turn(warnings, system, turn);
    put_turn(
        system,
        detail,
        heading,
        &turn.event,
        turn.reply,
        lots,
        writer,
        page,
    )
}

/// Puts the lines of a turn on the page, after the funding, the lots and the loans of its lottery, if a thread won it.
fn put_turn<W: Write>(
    system: &mut System,
    detail: Detail,
    heading: Heading,
    event: &Event,
    reply: Reply,
    lots: &Lots,
    writer: &mut Watched<W>,
    page: &mut Page,
) -> Result<(), IoFault>
    requires working { writer.old.failed ≡ false }
    requires unit { 0 < heading.unit }
    requires total { IfSome (won_in event.now reply) (λ won. won.total ≡ total_of lots.now.lots) }
    ensures same { system.new ≡ system.old }
    ensures text { Puts W.contents writer.old writer.new page.old page.new result
        (funding_in detail (won_in event.now reply) heading.style heading.unit heading.actor
        (world_of system.old).state
        ++ (won_lines heading.style heading.unit heading.actor lots.now.lots lots.now.loans (won_in event.now reply)
        ++ (front heading.style ++ (decimal heading.actor
        ++ (codes " " ++ reply_text heading.style (world_of system.old).state event.now reply))))) }
{
    put_funding(system, detail, heading, event, reply, writer, page)?;
    put_lots_and_answer(system, heading, event, reply, lots, writer, page)
}

/// Puts the lines of a turn on the page, after the lots and the loans of its lottery, if a thread won it.
fn put_lots_and_answer<W: Write>(
    system: &mut System,
    heading: Heading,
    event: &Event,
    reply: Reply,
    lots: &Lots,
    writer: &mut Watched<W>,
    page: &mut Page,
) -> Result<(), IoFault>
    requires working { writer.old.failed ≡ false }
    requires unit { 0 < heading.unit }
    requires total { IfSome (won_in event.now reply) (λ won. won.total ≡ total_of lots.now.lots) }
    ensures same { system.new ≡ system.old }
    ensures text { Puts W.contents writer.old writer.new page.old page.new result
        (won_lines heading.style heading.unit heading.actor lots.now.lots lots.now.loans (won_in event.now reply)
        ++ (front heading.style ++ (decimal heading.actor
        ++ (codes " " ++ reply_text heading.style (world_of system.old).state event.now reply)))) }
{
    put_lots(heading, event, reply, lots, writer, page)?;
    put_answer(
        system,
        heading.style,
        heading.actor,
        event,
        &reply,
        writer,
        page,
    )
}
