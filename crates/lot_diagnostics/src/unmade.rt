//! Commands that a run never made.

use crate::lines::{InputCommand, Location, header_number};
use crate::message::{Message, Part};
use crate::warnings::is_ended_by_refusal;
use lot_simulation::{HeaderWord, Warnings};
use std::io;
use std::io::Write;

/// Writes the number of commands never made, and why, if there are any: first those due up to the end of the run, then
/// those due after it.
pub(crate) fn write_unmade<W: Write>(
    writer: &mut W,
    warnings: &Warnings,
    input: &[u8],
    file: Option<&str>,
) -> io::Result<()> {
    let made = warnings.made;
    let late = late_command(input);
    let in_time = match late {
        Some((command, _)) => warnings.unmade.min(command.place.saturating_sub(made)),
        None => warnings.unmade,
    };
    let first = InputCommand::at(input, made);
    write_group(writer, first, in_time, cause_of(warnings), file)?;
    let Some((command, end)) = late else {
        return Ok(());
    };
    let first = InputCommand::at(input, command.place.max(made)).unwrap_or(command);
    let (time, end) = (u64::from(first.time), u64::from(end));
    let cause = Message::new(
        "tick {} is after the end of the run at {}",
        &[Part::Number(time), Part::Number(end)],
    );
    let count = warnings.unmade.saturating_sub(in_time);
    write_group(writer, Some(first), count, cause, file)
}

/// The first command of the input whose time is after the end of its run, and this end.
fn late_command(input: &[u8]) -> Option<(InputCommand<'_>, u32)> {
    let end = header_number(input, HeaderWord::For, "TICKS")?;
    Some((InputCommand::after(input, end)?, end))
}

/// The reason why the run never made commands due up to its end.
fn cause_of(warnings: &Warnings) -> Message<'static> {
    let text = if is_ended_by_refusal(warnings) {
        "the refusal ended the run"
    } else if warnings.early.is_some() {
        "the run was cut before"
    } else {
        "each 0 in a schedule makes one"
    };
    Message::new(text, &[])
}

/// Writes that `count` commands, this one the first, were never made, and why.
fn write_group<W: Write>(
    writer: &mut W,
    first: Option<InputCommand<'_>>,
    count: usize,
    cause: Message<'_>,
    file: Option<&str>,
) -> io::Result<()> {
    let line = match first {
        Some(command) => Some(command.number),
        None => None,
    };
    let place = Location { file, line };
    match count {
        0 => Ok(()),
        1 => writeln!(writer, "{place}this command was never made: {cause}"),
        _ => writeln!(
            writer,
            "{place}this command and those after it, {count} in all, were never made: {cause}"
        ),
    }
}
