//! Numbers.

use crate::message::Part;
use crate::refusals::problem::Problem;
use lot_simulation::Range;

/// The problem with a word that is no number in this range.
pub(crate) fn no_number<'a>(word: &'a str, range: Range) -> Problem<'a> {
    let is_misspelt = !is_plain(word) && word.bytes().any(|byte| byte.is_ascii_digit());
    let text = if is_misspelt {
        "'{}' is no number from {} to {}: a number has digits alone, no sign, no fraction and no 0 before others"
    } else {
        "'{}' is no number from {} to {}"
    };
    let (first, last) = (u64::from(range.first), u64::from(range.last));
    let parts = [Part::Text(word), Part::Number(first), Part::Number(last)];
    Problem::of_line(text, &parts)
}

/// Whether the word is a number: digits, without a leading 0.
fn is_plain(word: &str) -> bool {
    word.bytes().all(|byte| byte.is_ascii_digit()) && (word.len() == 1 || !word.starts_with('0'))
}

/// The word as a 64-bit number.
pub(crate) fn number_of(word: &str) -> Option<u64> {
    if is_plain(word) {
        word.parse::<u64>().ok()
    } else {
        None
    }
}
