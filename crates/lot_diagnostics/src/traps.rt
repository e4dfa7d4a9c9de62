//! Traps that the kernel refused.

use crate::lines::{
    Location, Named, OpenScript, after_line, argument_given, ends_line, name_given, name_numbered,
    script_word, spelling_of, words_of,
};
use crate::message::{Message, Part};
use crate::stuck::thread_called;
use lot_machine::{ScriptTrap, TrapRefusal, Verb};
use lot_simulation::{Argument, BodyWord, RefusedTrap, ScriptWord};
use std::io::Write;
use std::{io, str};

/// A word of a script that makes a trap, and the name of its port or mutex, if it has one.
#[derive(Clone, Copy)]
struct TrapWords<'a> {
    word: ScriptWord,
    name: Option<&'a str>,
}

impl<'a> TrapWords<'a> {
    /// The words of the input that make this trap.
    fn of(input: &'a [u8], trap: ScriptTrap) -> TrapWords<'a> {
        let word = ScriptWord::Trap(trap.with((), (), (), ()));
        let name = match kind_named(word) {
            Some(kind) => name_numbered(input, Named::ByWord(kind), trap.object()),
            None => None,
        };
        TrapWords { word, name }
    }

    fn message(self) -> Message<'a> {
        let word = Part::Text(spelling_of(ScriptWord::table(), self.word));
        match self.name {
            Some(name) => Message::new("{} {}", &[word, Part::Text(name)]),
            None => Message::new("{}", &[word]),
        }
    }

    /// Whether this line of a script has these words.
    fn are_in(self, line: &[u8]) -> bool {
        let mut unfinished: Option<ScriptWord> = None;
        for word in words_of(line) {
            if word.starts_with('#') {
                return false;
            }
            if let Some(before) = unfinished.take() {
                if before == self.word && self.name == Some(word) {
                    return true;
                }
            } else if let Some(keyword) = script_word(word) {
                if !keyword.stands_alone() {
                    unfinished = Some(keyword);
                } else if keyword == self.word {
                    return true;
                }
            }
        }
        false
    }
}

/// What the argument of this word names, if it names something.
fn kind_named(word: ScriptWord) -> Option<BodyWord> {
    match word.form().argument(0)? {
        (_, Argument::KnownName(kind)) => Some(kind),
        _ => None,
    }
}

/// The lines of a script with the words of a trap.
#[derive(Clone, Copy)]
struct TrapLines<'a> {
    /// The script's name.
    script: &'a str,
    /// The first line, from 1.
    first: u32,
    /// The number of lines after the first.
    others: u32,
}

impl<'a> TrapLines<'a> {
    /// The lines of this script with these words, if there are any.
    fn of(input: &[u8], script: &'a str, words: TrapWords<'_>) -> Option<TrapLines<'a>> {
        let mut lines: Option<TrapLines> = None;
        let mut open: Option<OpenScript> = None;
        let mut number = 0u32;
        for line in input.split(ends_line) {
            number = number.saturating_add(1);
            if let Some(before) = open {
                if words.are_in(line) {
                    lines = Some(TrapLines::with(lines, script, number));
                }
                open = after_line(before, line);
            } else if name_given(&[BodyWord::Script], line) == Some(script) {
                open = Some(OpenScript::opened(number));
            }
        }
        lines
    }

    /// The lines of `lines` and this one.
    fn with(lines: Option<TrapLines<'a>>, script: &'a str, number: u32) -> TrapLines<'a> {
        match lines {
            Some(lines) => TrapLines {
                others: lines.others.saturating_add(1),
                ..lines
            },
            None => TrapLines {
                script,
                first: number,
                others: 0,
            },
        }
    }
}

/// The script of the threads with this name, if each command that makes such a thread names the same one.
fn script_of<'a>(input: &'a [u8], thread: &str) -> Option<&'a str> {
    let makers = makers();
    let mut script: Option<&str> = None;
    for line in input.split(ends_line) {
        if name_given(makers, line) == Some(thread) {
            let given = argument_given(makers, line, "SCRIPT");
            if script.is_some() && script != given {
                return None;
            }
            script = given;
        }
    }
    script
}

/// The words of the commands that make a thread.
fn makers() -> &'static [BodyWord] {
    &[
        BodyWord::Command(Verb::MakeThread),
        BodyWord::Command(Verb::MakeFunded),
    ]
}

/// Writes the words of these refused traps of a thread, their lines if the input tells them, and the reason. The input
/// was played. It fails if the writer does.
pub(crate) fn write_traps<W: Write>(
    writer: &mut W,
    traps: &RefusedTrap,
    input: &[u8],
    file: Option<&str>,
) -> io::Result<()> {
    let words = TrapWords::of(input, traps.trap);
    let lines = lines_of(input, traps, words);
    let line = match lines {
        Some(lines) => Some(lines.first),
        None => None,
    };
    let place = Location { file, line };
    write!(
        writer,
        "{place}'{}'{}",
        words.message(),
        lines_message(lines)
    )?;
    let thread = thread_called(traps.name.as_ref(), traps.thread);
    let reason = reason_of(traps.refusal);
    writeln!(
        writer,
        " was refused to {thread} {}: {reason}",
        times_message(traps.times)
    )
}

/// The lines with the words of these traps, if the input tells the thread's script.
fn lines_of<'a>(
    input: &'a [u8],
    traps: &RefusedTrap,
    words: TrapWords<'_>,
) -> Option<TrapLines<'a>> {
    let script = script_of(input, thread_name(traps)?)?;
    TrapLines::of(input, script, words)
}

/// The name of the thread of these traps, if it has one.
fn thread_name(traps: &RefusedTrap) -> Option<&str> {
    match &traps.name {
        Some(name) => str::from_utf8(name.as_bytes()).ok(),
        None => None,
    }
}

/// The lines after the first, in words.
fn lines_message(lines: Option<TrapLines<'_>>) -> Message<'_> {
    let Some(TrapLines { script, others, .. }) = lines else {
        return Message::new("", &[]);
    };
    let text = match others {
        0 => " in script '{}'",
        1 => " in script '{}' (here or in 1 more line)",
        _ => " in script '{}' (here or in {} more lines)",
    };
    Message::new(text, &[Part::Text(script), Part::Number(u64::from(others))])
}

/// A number of times, in words.
fn times_message(times: u64) -> Message<'static> {
    let text = if times == 1 { "once" } else { "{} times" };
    Message::new(text, &[Part::Number(times)])
}

/// The reason in words.
fn reason_of(refusal: TrapRefusal) -> &'static str {
    match refusal {
        TrapRefusal::NoPort => "no port has the number",
        TrapRefusal::NothingToReply => "the thread serves no client",
        TrapRefusal::NoMutex => "no mutex has the number",
        TrapRefusal::NotOwner => "the thread doesn't own the mutex",
        TrapRefusal::AlreadyOwner => "the thread owns the mutex already",
        TrapRefusal::LockCycle => {
            "waiting would deadlock, since the mutex's owner waits for this thread, directly or through others"
        }
    }
}
