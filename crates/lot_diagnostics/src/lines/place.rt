//! The location of a message.

use std::fmt;

/// The location at the start of a message, as in compilers' messages: a file, and a line.
#[derive(Clone, Copy)]
pub struct Location<'a> {
    /// The name of the file, or `None` for standard input.
    pub file: Option<&'a str>,
    /// The line, from 1, or `None` for the whole input.
    pub line: Option<u32>,
}

impl fmt::Display for Location<'_> {
    fn fmt<W: fmt::Write>(&self, f: &mut fmt::Formatter<W>) -> fmt::Result {
        match (self.file, self.line) {
            (Some(file), Some(line)) => write!(f, "{file}:{line}: "),
            (Some(file), None) => write!(f, "{file}: "),
            (None, Some(line)) => write!(f, "line {line}: "),
            (None, None) => Ok(()),
        }
    }
}
