//! The warnings of a run, in words.

use crate::lines::{InputCommand, Location};
use crate::message::{Message, Part};
use crate::reason::reason_message;
use crate::stuck::stuck_message;
use crate::traps::write_traps;
use crate::unmade::write_unmade;
use lot_simulation::{EarlyEnd, FirstFew, RefusedTrap, StuckThread, Warnings};
use std::io;
use std::io::Write;

/// Writes the warnings of a run, a line for each: an early end, commands refused or never made, refused traps, and
/// threads that can never run again. Messages name the input by this file's name, or as standard input. It was
/// accepted; this reads it again only for line numbers and names. It fails if the writer does.
pub fn write_warnings<W: Write>(
    writer: &mut W,
    warnings: &Warnings,
    input: &[u8],
    file: Option<&str>,
) -> io::Result<()> {
    write_endings(writer, warnings, file)?;
    write_refused(writer, warnings, input, file)?;
    write_unmade(writer, warnings, input, file)?;
    write_refused_traps(writer, &warnings.refused_traps, input, file)?;
    let (weightless, waiting) = (&warnings.weightless, &warnings.waiting);
    write_stuck(
        writer,
        weightless,
        "threads that are ready and weigh nothing",
        input,
        file,
    )?;
    write_stuck(writer, waiting, "threads that wait for good", input, file)
}

/// Whether a refusal ended the play whose warnings these are. Of several plays it is the first; a refusal may have
/// ended another.
pub(crate) fn is_ended_by_refusal(warnings: &Warnings) -> bool {
    let has_refused = !warnings.refused.first().is_empty();
    let has_trapped = !warnings.refused_traps.first().is_empty();
    warnings.stopped && (has_refused || has_trapped)
}

/// Writes how plays ended before their time, if any did.
fn write_endings<W: Write>(
    writer: &mut W,
    warnings: &Warnings,
    file: Option<&str>,
) -> io::Result<()> {
    let by_refusal = is_ended_by_refusal(warnings);
    if let Some(early) = warnings.early {
        early_message(early, by_refusal).write(writer, file, None)?;
    }
    if !warnings.stopped || by_refusal {
        return Ok(());
    }
    let text = "a refusal ended a play with another seed than the first: the input is strict";
    Message::new(text, &[]).write(writer, file, None)
}

/// The warning about the early end of a timed run. A refusal ends a run whose input is strict.
fn early_message(early: EarlyEnd, by_refusal: bool) -> Message<'static> {
    let EarlyEnd { time, end, turns } = early;
    let text = if by_refusal {
        "the run ended at tick {} of {}: the input is strict, and turn {} was refused"
    } else {
        "the run was cut at tick {} of {}: it made {} turns, and a run makes no more"
    };
    let (time, end) = (u64::from(time), u64::from(end));
    Message::new(
        text,
        &[Part::Number(time), Part::Number(end), Part::Number(turns)],
    )
}

/// Writes the refused commands, and the reasons.
fn write_refused<W: Write>(
    writer: &mut W,
    warnings: &Warnings,
    input: &[u8],
    file: Option<&str>,
) -> io::Result<()> {
    let alloc = warnings.allocator();
    let all = warnings.refused.first();
    for refused in all {
        // The input was played, so it has each command of the run.
        if let Some(command) = InputCommand::at(input, refused.place) {
            let reason = reason_message(alloc, input, command, refused.refusal, all);
            let line = Some(command.number);
            writeln!(
                writer,
                "{}the command was refused: {reason}",
                Location { file, line }
            )?;
        }
    }
    write_others(
        writer,
        &warnings.refused,
        "commands that were refused",
        file,
    )
}

/// Writes the refused traps, and the reasons.
fn write_refused_traps<W: Write>(
    writer: &mut W,
    refused: &FirstFew<RefusedTrap>,
    input: &[u8],
    file: Option<&str>,
) -> io::Result<()> {
    for traps in refused.first() {
        write_traps(writer, traps, input, file)?;
    }
    write_others(writer, refused, "traps that were refused", file)
}

/// Writes these threads, which weigh nothing or wait for good.
fn write_stuck<W: Write>(
    writer: &mut W,
    threads: &FirstFew<StuckThread>,
    what: &str,
    input: &[u8],
    file: Option<&str>,
) -> io::Result<()> {
    for thread in threads.first() {
        stuck_message(thread, input).write(writer, file, None)?;
    }
    write_others(writer, threads, what, file)
}

/// Writes the number of items not listed, if there are any.
fn write_others<W: Write, T: Drop>(
    writer: &mut W,
    few: &FirstFew<T>,
    what: &str,
    file: Option<&str>,
) -> io::Result<()> {
    match few.others() {
        0 => Ok(()),
        count => {
            let parts = [Part::Number(count as u64), Part::Text(what)];
            Message::new("and {} more {}", &parts).write(writer, file, None)
        }
    }
}
