//! The lines of a turn.
ghost use Rattle.std.specs.Prelude.{◌≡◌, ◌<◌, ◌++◌, codes, false};
ghost use Rattle.std.specs.Fmt.{decimal};
ghost use Rattle.lot_simulation.specs.Output as output;
ghost use Rattle.lot_simulation.specs.Texts.{front, reply_text};
ghost use Rattle.lot_engine.specs.Seen.{world_of};
ghost use Rattle.lot_io.specs.Writing.{Puts};
ghost use Rattle.lot_system.specs.Texts.{style_at};

use crate::listing::write_listing;
use lot_engine::System;
use lot_io::{IoFault, Watched};
use lot_machine::{Event, Reply};
use lot_playback::Turn;
use lot_print::{Heading, Page, write_reply};
use lot_simulation::LineStyle;
use std::io::Write;

/// Puts the lines of a turn on the page. It writes a listing at once. Fails with `Write` if the writer fails.
#[inline(always)]
pub fn put_answer<W: Write>(
    system: &mut System,
    style: LineStyle,
    actor: u32,
    event: &Event,
    reply: &Reply,
    writer: &mut Watched<W>,
    page: &mut Page,
) -> Result<(), IoFault>
    requires { writer.old.failed ≡ false }
    ensures same { system.new ≡ system.old }
    ensures text { Puts W.contents writer.old writer.new page.old page.new result
        (front style ++ (decimal actor
        ++ (codes " " ++ reply_text style (world_of system.old).state event.now reply.now))) }
{
    match *reply {
        Reply::List(kind) => {
            page.write_out(writer)?;
            write_listing(system.settle(), style, actor, kind, writer)
        }
        _ => write_reply(writer, page, heading(system, style, actor), event, reply),
    }
}

/// The facts that the line of the actor's turn needs in addition to its event and reply.
#[inline(always)]
pub fn heading(system: &System, style: LineStyle, actor: u32) -> Heading
    ensures style { result.style ≡ style }
    ensures actor { result.actor ≡ actor }
    ensures unit { result.unit ≡ (world_of system.now).state.limits.unit }
    ensures some { 0 < result.unit }
{
    Heading {
        style,
        unit: system.unit(),
        actor,
    }
}

/// The actor in print: the timer is the actor after the processors, whichever thread it wakes.
#[inline(always)]
pub fn printed_actor(system: &System, actor: u32) -> u32
    ensures { result ≡ output.printed_actor (world_of system.now).state actor }
{
    let processors = system.processors();
    if actor <= processors {
        actor
    } else {
        processors + 1
    }
}

/// The style of a turn's lines: with its time, if it has one.
#[inline(always)]
pub fn style_of(turn: &Turn) -> LineStyle
    ensures { result ≡ style_at turn.now.time }
{
    match turn.time {
        Some(time) => LineStyle::Timed(time),
        None => LineStyle::Whole,
    }
}
