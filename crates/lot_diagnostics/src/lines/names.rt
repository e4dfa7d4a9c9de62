//! The names that an input declares.

use crate::lines::forms::{argument_named, form_outside, words_at_end};
use crate::lines::keywords::{body_word, spelling_of};
use crate::lines::line::{ends_line, first_word};
use lot_simulation::{AS_WORD, BodyWord};

/// A kind of named things.
#[derive(Clone, Copy)]
pub enum Named {
    /// Things whose lines begin with this word.
    ByWord(BodyWord),
    /// Tickets, which get their names by `as`.
    Ticket,
}

impl Named {
    /// The name that the line gives to a thing of this kind, if it gives one.
    pub fn given_by<'a>(self, line: &'a [u8]) -> Option<&'a str> {
        match self {
            Named::ByWord(word) => name_given(&[word], line),
            Named::Ticket => ticket_name_given(line),
        }
    }

    /// The kind in words.
    pub fn text(self) -> &'static str {
        match self {
            Named::ByWord(word) => spelling_of(BodyWord::table(), word),
            Named::Ticket => "ticket",
        }
    }
}

/// The name that the line gives, if it begins with one of these words, all of which begin lines that give a name.
pub fn name_given<'a>(keywords: &[BodyWord], line: &'a [u8]) -> Option<&'a str> {
    argument_given(keywords, line, "NAME")
}

/// The argument with this name that the line gives, if it begins with one of these words.
pub fn argument_given<'a>(keywords: &[BodyWord], line: &'a [u8], name: &str) -> Option<&'a str> {
    let word = first_word(line);
    if is_one_of(keywords, word) {
        argument_named(form_outside(word)?, line, name)
    } else {
        None
    }
}

/// Whether this is one of these words.
fn is_one_of(keywords: &[BodyWord], word: &str) -> bool {
    match body_word(word) {
        Some(word) => keywords.contains(&word),
        None => false,
    }
}

/// The name that the line gives to the ticket that it makes, if it gives one.
fn ticket_name_given(line: &[u8]) -> Option<&str> {
    let form = form_outside(first_word(line))?;
    let (before, name) = words_at_end(form, line)?;
    if before.as_bytes() == AS_WORD {
        Some(name)
    } else {
        None
    }
}

/// Whether one of these lines gives this name to a thing of this kind.
pub fn is_given(lines: &[u8], kind: Named, name: &str) -> bool {
    for line in lines.split(ends_line) {
        if kind.given_by(line) == Some(name) {
            return true;
        }
    }
    false
}

/// The name with this number, from 1, among those that these lines give to things of this kind, if they give so many.
pub fn name_numbered(lines: &[u8], kind: Named, number: u32) -> Option<&str> {
    let mut before = 0u32;
    for line in lines.split(ends_line) {
        let name = kind.given_by(line);
        if name.is_some() {
            before = before.saturating_add(1);
        }
        if before == number {
            return name;
        }
    }
    None
}
