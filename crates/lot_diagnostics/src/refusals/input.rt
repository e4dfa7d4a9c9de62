//! The refused line, and the content of the lines before it.

use crate::lines::{
    OpenScript, after_line, body_word, ends_line, first_word, header_word, word_at,
};
use lot_simulation::{BodyWord, Format, HeaderWord, Separators};

/// The refused line, and the content of the lines before it.
#[derive(Clone, Copy)]
pub(crate) struct Refused<'a> {
    /// The lines before the refused one.
    pub(crate) before: &'a [u8],
    /// The line, without the byte that ends it.
    pub(crate) line: &'a [u8],
    /// The number of bytes of the input up to the line's end, the byte that ends it included.
    pub(crate) end: usize,
    /// Whether one of the lines before it isn't ignored.
    pub(crate) has_start: bool,
    /// The format, given by the first of these lines, or the first format if there is none.
    pub(crate) format: Format,
    /// Whether one of the lines before it is in the body.
    pub(crate) in_body: bool,
    /// The last time given by an `at` line.
    pub(crate) now: u32,
    pub(crate) processors: u32,
    pub(crate) script: Option<OpenScript>,
}

impl<'a> Refused<'a> {
    /// The line with this number, from 1. All lines before it have been accepted.
    pub(crate) fn of(input: &'a [u8], number: u32) -> Refused<'a> {
        let mut refused = Refused {
            before: input,
            line: &[],
            end: input.len(),
            has_start: false,
            format: Format::V1,
            in_body: false,
            now: 0,
            processors: 1,
            script: None,
        };
        let mut begin = 0usize;
        let mut at = 1u32;
        for line in input.split(ends_line) {
            let end = begin.saturating_add(line.len()).saturating_add(1);
            if at >= number {
                refused.before = &input[..begin.min(input.len())];
                refused.line = line;
                refused.end = end.min(input.len());
                return refused;
            }
            refused.pass(at, line);
            begin = end;
            at = at.saturating_add(1);
        }
        refused
    }

    /// The bytes that separate tokens in the line. A refused first line has only spaces.
    pub(crate) fn separators(&self) -> Separators {
        self.format.separators()
    }

    /// Whether the input is timed.
    pub(crate) fn is_timed(&self) -> bool {
        self.format.is_timed()
    }

    /// Records the content of the line with this number.
    fn pass(&mut self, number: u32, line: &[u8]) {
        let word = first_word(line);
        if word.is_empty() || word.starts_with('#') {
            return;
        }
        match self.script {
            Some(script) => self.script = after_line(script, line),
            None => self.pass_outside(number, word, word_at(line, 1).unwrap_or("")),
        }
        self.has_start = true;
    }

    /// Records the content of a line outside scripts that begins with these two words.
    fn pass_outside(&mut self, number: u32, word: &str, next: &str) {
        match header_word(word) {
            Some(header) => self.pass_header(header, next),
            None => self.pass_body(number, word, next),
        }
    }

    /// Records the content of a line of the header.
    fn pass_header(&mut self, word: HeaderWord, next: &str) {
        match word {
            HeaderWord::Lottery => {
                self.format = Format::of_word(next.as_bytes()).unwrap_or(Format::V1);
            }
            HeaderWord::Processors => self.processors = next.parse::<u32>().unwrap_or(1),
            _ => {}
        }
    }

    /// Records the content of a line of the body.
    fn pass_body(&mut self, number: u32, word: &str, next: &str) {
        self.in_body = true;
        match body_word(word) {
            Some(BodyWord::At) => self.now = next.parse::<u32>().unwrap_or(0),
            Some(BodyWord::Script) => self.script = Some(OpenScript::opened(number)),
            _ => {}
        }
    }
}
