//! The words of all formats. The input's format decides where a word may stand.

use lot_simulation::{BodyWord, Format, HeaderWord, ScriptWord, WordRow};
use std::str;

/// The word of the header with this spelling, if there is one.
pub fn header_word(word: &str) -> Option<HeaderWord> {
    HeaderWord::of_token(Format::V3, word.as_bytes())
}

/// The word of the body with this spelling, if there is one.
pub fn body_word(word: &str) -> Option<BodyWord> {
    BodyWord::of_token(Format::V3, word.as_bytes())
}

/// The word of a script with this spelling, if there is one.
pub fn script_word(word: &str) -> Option<ScriptWord> {
    ScriptWord::of_token(Format::V3, word.as_bytes())
}

/// Whether inputs of this format have the word, in the header, in the body or in a script.
pub fn is_read(format: Format, word: &str) -> bool {
    let word = word.as_bytes();
    HeaderWord::of_token(format, word).is_some()
        || BodyWord::of_token(format, word).is_some()
        || ScriptWord::of_token(format, word).is_some()
}

/// The spelling of a word, which stands in this table.
pub fn spelling_of<W: Copy + PartialEq>(table: &'static [WordRow<W>], word: W) -> &'static str {
    for (spelling, other, _) in table {
        if *other == word {
            return text_of(*spelling);
        }
    }
    ""
}

/// A spelling as text.
pub fn text_of(spelling: &'static [u8]) -> &'static str {
    str::from_utf8(spelling).unwrap_or("")
}
