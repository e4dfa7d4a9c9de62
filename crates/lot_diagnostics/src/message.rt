//! Messages: fixed words, and parts that depend on the input or its run.

use crate::lines::{Location, Nearest, Shape, write_list};
use lot_simulation::{BodyWord, Format, InputRefusal, ScriptWord};
use std::io::Write;
use std::{fmt, io};

/// A message.
#[derive(Clone, Copy)]
pub(crate) struct Message<'a> {
    /// The words, in which each `{}` stands for the next part.
    text: &'static str,
    first: Part<'a>,
    second: Part<'a>,
    third: Part<'a>,
}

/// A part of a message.
#[derive(Clone, Copy)]
pub(crate) enum Part<'a> {
    Nothing,
    Text(&'a str),
    Number(u64),
    /// A thing of this kind, with its name.
    Named(&'static str, &'a str),
    /// A thing of this kind, with its number, since it has no name.
    Numbered(&'static str, u32),
    Shape(Shape<'a>),
    Nearest(Nearest<'a>),
    /// The words that begin lines of the body in this format.
    BodyWords(Format),
    /// The words of scripts in this format.
    ScriptWords(Format),
    Refusal(InputRefusal),
}

impl<'a> Message<'a> {
    /// The message with these words and parts, at most three.
    pub(crate) fn new(text: &'static str, parts: &[Part<'a>]) -> Message<'a> {
        let first = part_at(parts, 0);
        let second = part_at(parts, 1);
        let third = part_at(parts, 2);
        Message {
            text,
            first,
            second,
            third,
        }
    }

    /// Writes the message as a line about this location. It fails if the writer does.
    pub(crate) fn write<W: Write>(
        self,
        writer: &mut W,
        file: Option<&str>,
        line: Option<u32>,
    ) -> io::Result<()> {
        writeln!(writer, "{}{self}", Location { file, line })
    }
}

/// The part with this index, from 0.
fn part_at<'a>(parts: &[Part<'a>], place: usize) -> Part<'a> {
    match parts.get(place) {
        Some(part) => *part,
        None => Part::Nothing,
    }
}

impl fmt::Display for Message<'_> {
    fn fmt<W: fmt::Write>(&self, f: &mut fmt::Formatter<W>) -> fmt::Result {
        let mut texts = self.text.split("{}");
        f.write_str(texts.next().unwrap_or(""))?;
        for part in [self.first, self.second, self.third] {
            let Some(text) = texts.next() else {
                return Ok(());
            };
            write!(f, "{part}{text}")?;
        }
        Ok(())
    }
}

impl fmt::Display for Part<'_> {
    fn fmt<W: fmt::Write>(&self, f: &mut fmt::Formatter<W>) -> fmt::Result {
        match self {
            Part::Nothing => Ok(()),
            Part::Text(text) => f.write_str(*text),
            Part::Number(number) => write!(f, "{number}"),
            Part::Named(kind, name) => write!(f, "{kind} '{name}'"),
            Part::Numbered(kind, number) => write!(f, "{kind} {number}"),
            Part::Shape(shape) => write!(f, "{shape}"),
            Part::Nearest(nearest) => write!(f, "{nearest}"),
            Part::BodyWords(format) => write_list(f, BodyWord::table(), *format),
            Part::ScriptWords(format) => write_list(f, ScriptWord::table(), *format),
            Part::Refusal(refusal) => write!(f, "{refusal:?}"),
        }
    }
}
