//! Suggestions for misspelt words.
ghost use Rattle.std.specs.Prelude.{◌≡◌, ◌≢◌, ◌<◌};

use crate::lines::keywords::text_of;
use crate::lines::line::ends_line;
use crate::lines::names::Named;
use lot_simulation::WordRow;
use std::alloc::{AllocError, Global};
use std::fmt;
use strsim::osa_distance;

/// The largest number of wrong, missing or extra letters in a near text. Two swapped neighbours count as one, and a
/// capital as none.
const MOST_EDITS: usize = 2;

/// The text nearest to a misspelt word, if one is near. There is no suggestion if a text is the same.
#[derive(Clone, Copy)]
pub struct Nearest<'a> {
    text: Option<&'a str>,
    /// The distance, 0 for the same text.
    distance: usize,
}

/// A distance above that of any near text.
const FAR: usize = 2 * MOST_EDITS + 3;

impl<'a> Nearest<'a> {
    /// No text so far.
    pub const NONE: Nearest<'static> = Nearest {
        text: None,
        distance: FAR,
    };

    /// The nearer of both texts to the misspelt word. If out of memory, it suggests neither this text nor a later one.
    pub fn or(self, alloc: Global, misspelt: &str, text: &'a str) -> Nearest<'a> {
        match edits_between(alloc, misspelt, text) {
            Ok(edits) => self.or_at(distance_of(misspelt, text, edits), edits, text),
            Err(_) => Nearest {
                text: None,
                distance: 0,
            },
        }
    }

    /// The nearer of both texts, given the other's distance and number of edits. A text whose letters are all wrong
    /// isn't near.
    fn or_at(self, distance: usize, edits: usize, text: &'a str) -> Nearest<'a> {
        if distance < self.distance && edits < text.len() {
            Nearest {
                text: Some(text),
                distance,
            }
        } else {
            self
        }
    }

    /// The nearest of this text and the words of this table. It looks at words of timed inputs last, and only for such
    /// an input.
    pub fn or_word<W: Copy>(
        self,
        alloc: Global,
        table: &'static [WordRow<W>],
        is_timed: bool,
        misspelt: &str,
    ) -> Nearest<'a> {
        let nearest = self.or_word_of(alloc, table, false, misspelt);
        if is_timed {
            nearest.or_word_of(alloc, table, true, misspelt)
        } else {
            nearest
        }
    }

    /// Like `or_word`, with only those words of the table that are for timed inputs alone, or only the others.
    fn or_word_of<W: Copy>(
        self,
        alloc: Global,
        table: &'static [WordRow<W>],
        is_timed: bool,
        misspelt: &str,
    ) -> Nearest<'a> {
        let mut nearest = self;
        for (spelling, _, is_only_timed) in table {
            if *is_only_timed == is_timed {
                nearest = nearest.or(alloc, misspelt, text_of(*spelling));
            }
        }
        nearest
    }

    /// The text, empty if none is near, or `None` if out of memory.
    pub fn text(self) -> Option<&'a str> {
        match self.text {
            Some(text) => Some(text),
            None if self.distance == FAR => Some(""),
            None => None,
        }
    }
}

/// The number of edits between two texts. Capitals count as none.
fn edits_between(alloc: Global, misspelt: &str, text: &str) -> Result<usize, AllocError> {
    let misspelt = misspelt.to_ascii_lowercase(alloc)?;
    osa_distance(alloc, misspelt.as_str(), text)
}

/// The distance of a text from a misspelt word, given the number of edits: among equals a text of the same length is
/// nearer.
fn distance_of(misspelt: &str, text: &str, edits: usize) -> usize
    ensures same { misspelt.now ≡ text.now → result ≡ 0 }
    ensures other { misspelt.now ≢ text.now → 0 < result }
{
    if misspelt == text {
        return 0;
    }
    let other_length = usize::from(misspelt.len() != text.len());
    edits
        .saturating_mul(2)
        .saturating_add(other_length)
        .saturating_add(1)
}

impl fmt::Display for Nearest<'_> {
    fn fmt<W: fmt::Write>(&self, f: &mut fmt::Formatter<W>) -> fmt::Result {
        match self.text {
            Some(text) if self.distance > 0 => write!(f, "; did you mean '{text}'?"),
            // The same text is no misspelling.
            _ => Ok(()),
        }
    }
}

/// The name nearest to this one, among those that one of these lines gives to things of these kinds.
pub fn nearest_name<'a>(
    alloc: Global,
    lines: &'a [u8],
    kinds: &[Named],
    misspelt: &str,
) -> Nearest<'a> {
    let mut nearest = Nearest::NONE;
    for line in lines.split(ends_line) {
        if let Some(name) = name_of_kinds(kinds, line) {
            nearest = nearest.or(alloc, misspelt, name);
        }
    }
    nearest
}

/// The name of one of these kinds that the line gives, if it gives one.
fn name_of_kinds<'a>(kinds: &[Named], line: &'a [u8]) -> Option<&'a str> {
    for kind in kinds {
        let name = kind.given_by(line);
        if name.is_some() {
            return name;
        }
    }
    None
}
