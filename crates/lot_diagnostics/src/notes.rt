//! Reasons why a run of a timed input shows less than its author may expect.

use crate::lines::{InputCommand, has_header_line, header_number, is_timed};
use crate::message::{Message, Part};
use lot_machine::Verb;
use lot_simulation::{BodyWord, HeaderWord};
use std::io;
use std::io::Write;

/// The default length of a quantum, in ticks.
const QUANTUM: u32 = 100;

/// The request for an accepted input.
#[derive(Clone, Copy)]
pub enum Asked {
    /// A play, with the time of its early end, if it has one, and the time from which its view begins.
    Play {
        ended: Option<u32>,
        from: Option<u64>,
    },
    /// A run by threads.
    Run,
}

/// Writes the reasons why a run of the input shows less than its author may expect, if there are any: it has no turns,
/// it is shorter than a quantum, or the view begins after its end. Messages name the input by this file's name, or as
/// standard input. It fails if the writer does.
pub fn write_notes<W: Write>(
    writer: &mut W,
    asked: Asked,
    input: &[u8],
    file: Option<&str>,
) -> io::Result<()> {
    if !is_timed(input) {
        return Ok(());
    }
    match asked {
        Asked::Run => write_no_turns(writer, input, file),
        Asked::Play { ended, from } => {
            let duration = header_number(input, HeaderWord::For, "TICKS").unwrap_or(0);
            write_short(writer, duration, input, file)?;
            write_beginning(writer, ended.unwrap_or(duration), from, file)
        }
    }
}

/// Writes that the input has no thread, if it is timed and has none. It fails if the writer does.
pub fn write_no_thread<W: Write>(
    writer: &mut W,
    input: &[u8],
    file: Option<&str>,
) -> io::Result<()> {
    if !is_timed(input) || has_thread(input) {
        return Ok(());
    }
    let text = "nothing runs: no line makes a thread, as 'fundx AMOUNT CURRENCY NAME SCRIPT' does";
    Message::new(text, &[]).write(writer, file, None)
}

/// Whether the input has a command that makes a thread.
fn has_thread(input: &[u8]) -> bool {
    InputCommand::count(input, usize::MAX, BodyWord::Command(Verb::MakeThread)) > 0
        || InputCommand::count(input, usize::MAX, BodyWord::Command(Verb::MakeFunded)) > 0
}

/// Writes that the processors make no turns in a free run, if the input gives no number of turns.
fn write_no_turns<W: Write>(writer: &mut W, input: &[u8], file: Option<&str>) -> io::Result<()> {
    if has_header_line(input, HeaderWord::Turns) {
        return Ok(());
    }
    let text =
        "the processors make no turns: the header has no 'turns T', how many each makes in a run";
    Message::new(text, &[]).write(writer, file, None)
}

/// Writes that a run of this many ticks is shorter than the input's quantum, if it is.
fn write_short<W: Write>(
    writer: &mut W,
    duration: u32,
    input: &[u8],
    file: Option<&str>,
) -> io::Result<()> {
    let quantum = header_number(input, HeaderWord::Quantum, "Q").unwrap_or(QUANTUM);
    if quantum <= duration {
        return Ok(());
    }
    let parts = [
        Part::Number(u64::from(duration)),
        Part::Number(u64::from(quantum)),
    ];
    let text =
        "the run of {} ticks is shorter than a quantum of {}, whose ticks count when it is over";
    Message::new(text, &parts).write(writer, file, None)
}

/// Writes that the view begins at the end of the run or after it, if it does.
fn write_beginning<W: Write>(
    writer: &mut W,
    end: u32,
    from: Option<u64>,
    file: Option<&str>,
) -> io::Result<()> {
    let end = u64::from(end);
    match from {
        Some(from) if end <= from => {
            let text = "nothing is left to show: '--from {}' isn't before the end of the run at {}";
            Message::new(text, &[Part::Number(from), Part::Number(end)]).write(writer, file, None)
        }
        _ => Ok(()),
    }
}
