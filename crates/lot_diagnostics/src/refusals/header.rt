//! The problems that the header causes for a line.

use crate::lines::{first_word, has_header_line, header_word, word_at};
use crate::refusals::input::Refused;
use lot_simulation::{FIRST_WORD, Format, HeaderWord};

/// The message on a line that begins with this word and is refused for the header. Its part, if any, is the word.
pub(crate) fn header_text(refused: &Refused<'_>, word: &str) -> &'static str {
    if !refused.has_start {
        start_text(refused.line)
    } else if refused.is_timed() {
        timed_header_text(refused, word)
    } else {
        "'{}' comes too late: the header has 'lottery', 'processors', 'quantum', 'turns', 'seed' and 'limits', \
        each at most once, in this order and before all else"
    }
}

/// The message if a timed input, or a first line of one, lacks its duration.
const NO_DURATION: &str =
    "the header doesn't say how long the input runs: 'for TICKS' comes before the first body line";

/// The message on a refused first line.
fn start_text(line: &[u8]) -> &'static str {
    let word = first_word(line).as_bytes();
    if is_timed_start(line) {
        NO_DURATION
    } else if word != FIRST_WORD && word.eq_ignore_ascii_case(FIRST_WORD) {
        "an input begins with 'lottery 1', 'lottery 2' or 'lottery 3', in lower case"
    } else {
        "an input begins with 'lottery 1', 'lottery 2' or 'lottery 3'"
    }
}

/// Whether the line is the first of a timed input. If that line is refused, it is also the last one.
fn is_timed_start(line: &[u8]) -> bool {
    let is_start = first_word(line).as_bytes() == FIRST_WORD && word_at(line, 2).is_none();
    match Format::of_word(word_at(line, 1).unwrap_or("").as_bytes()) {
        Some(format) => is_start && format.is_timed(),
        None => false,
    }
}

/// Like `header_text`, in a timed input. A header line that isn't late is refused only if the input ends with it.
fn timed_header_text(refused: &Refused<'_>, word: &str) -> &'static str {
    let Some(header) = header_word(word) else {
        return NO_DURATION;
    };
    if refused.in_body {
        return "'{}' stands after a body line: header lines come before all else";
    }
    if has_header_line(refused.before, header) {
        return "'{}' begins an earlier line: each header line comes at most once";
    }
    if header == HeaderWord::Processors && has_header_line(refused.before, HeaderWord::Seed) {
        return "'processors' comes before 'seed', which has a number for each processor";
    }
    NO_DURATION
}
