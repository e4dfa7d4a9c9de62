//! The lines of a header.

use crate::lines::forms::argument_named;
use crate::lines::keywords::{body_word, header_word};
use crate::lines::line::{ends_line, first_word};
use lot_simulation::{Format, HeaderWord};

/// Whether the line begins with this word.
fn begins_with(line: &[u8], word: HeaderWord) -> bool {
    header_word(first_word(line)) == Some(word)
}

/// Whether one of these lines is the header line that begins with this word.
pub fn has_header_line(lines: &[u8], word: HeaderWord) -> bool {
    let mut lines = lines.split(ends_line);
    lines.find(|line| begins_with(*line, word)).is_some()
}

/// The header line of an accepted input that begins with this word, if it has one. It stands before the body, so no
/// line of that is looked at but the first.
fn header_line(input: &[u8], word: HeaderWord) -> Option<&[u8]> {
    let mut lines = input.split(ends_line);
    let line = lines.find(|line| begins_with(*line, word) || begins_body(*line))?;
    if begins_with(line, word) {
        Some(line)
    } else {
        None
    }
}

/// Whether the line begins with a word of the body.
fn begins_body(line: &[u8]) -> bool {
    body_word(first_word(line)).is_some()
}

/// The argument with this name of the header line that begins with this word, if the accepted input has such a line.
fn header_argument<'a>(input: &'a [u8], word: HeaderWord, name: &str) -> Option<&'a str> {
    let line = header_line(input, word)?;
    argument_named(word.form(), line, name)
}

/// The argument with this name, as a number, of the header line that begins with this word, if the accepted input has
/// such a line.
pub fn header_number(input: &[u8], word: HeaderWord, name: &str) -> Option<u32> {
    header_argument(input, word, name)?.parse::<u32>().ok()
}

/// Whether the accepted input is timed.
pub fn is_timed(input: &[u8]) -> bool {
    let version = header_argument(input, HeaderWord::Lottery, "VERSION").unwrap_or("");
    match Format::of_word(version.as_bytes()) {
        Some(format) => format.is_timed(),
        None => false,
    }
}
