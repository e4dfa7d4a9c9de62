//! The words of a line.

use std::str;
use std::str::SplitAsciiWhitespace;

/// The words of a line. A line that isn't UTF-8 has none.
pub fn words_of(line: &[u8]) -> SplitAsciiWhitespace<'_> {
    str::from_utf8(line).unwrap_or("").split_ascii_whitespace()
}

/// The first word of a line, or no text if it has none.
pub fn first_word(line: &[u8]) -> &str {
    word_at(line, 0).unwrap_or("")
}

/// The word of a line with this index, from 0, if it has one.
pub fn word_at(line: &[u8], place: usize) -> Option<&str> {
    words_of(line).nth(place)
}

/// The number of the words of a line.
pub fn count_words(line: &[u8]) -> usize {
    let mut words = words_of(line);
    words.count()
}

/// Whether this byte ends a line.
pub fn ends_line(byte: &u8) -> bool {
    *byte == b'\n'
}
