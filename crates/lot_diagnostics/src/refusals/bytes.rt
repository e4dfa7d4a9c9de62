//! The problems with the bytes of a line.

use crate::lines::first_word;
use crate::message::Part;
use crate::refusals::input::Refused;
use crate::refusals::problem::{Cause, Problem};

/// The byte order mark of UTF-8.
const MARK: &[u8] = b"\xef\xbb\xbf";

/// The byte order mark of UTF-16, low byte first.
const LITTLE_MARK: &[u8] = b"\xff\xfe";

/// The byte order mark of UTF-16, high byte first.
const BIG_MARK: &[u8] = b"\xfe\xff";

/// The problem with the line's bytes: a byte order mark, too many, or the first that is neither a separator nor
/// printable ASCII.
pub(crate) fn byte_problem(refused: &Refused<'_>) -> Option<Problem<'static>> {
    let line = refused.line;
    if let Some(text) = mark_text(refused) {
        return Some(Problem::of_line(text, &[]));
    }
    if 4096 < line.len() {
        let length = Part::Number(line.len() as u64);
        return Some(Problem::new(Cause::LongLine, "{} bytes, at most 4096", &[length]));
    }
    let separators = refused.separators();
    let place = line.iter().position(|byte| {
        !separators.contains(*byte) && (*byte < 33 || 126 < *byte)
    })?;
    let text = byte_text(refused, line[place]);
    let column = (place as u64).saturating_add(1);
    let parts = [Part::Number(u64::from(line[place])), Part::Number(column)];
    Some(Problem::of_line(text, &parts))
}

/// The message on a byte order mark at the beginning of the input, if there is one.
fn mark_text(refused: &Refused<'_>) -> Option<&'static str> {
    let line = refused.line;
    if !refused.before.is_empty() {
        None
    } else if line.starts_with(MARK) {
        Some(
            "the file begins with a byte order mark: save it as ASCII, or as UTF-8 without a byte order mark",
        )
    } else if line.starts_with(LITTLE_MARK) || line.starts_with(BIG_MARK) {
        Some("the file is in UTF-16: save it as ASCII, or as UTF-8 without a byte order mark")
    } else {
        None
    }
}

/// The message on this byte of the line. Its parts, if it has some, are the byte and its column.
fn byte_text(refused: &Refused<'_>, byte: u8) -> &'static str {
    match byte {
        b'\t' => "a tab: put spaces between words",
        b'\r' if !refused.has_start && first_word(refused.line).is_empty() => {
            "a carriage return before the line 'lottery 3': put that line first, \
            or save the file with line feeds alone as line ends"
        }
        b'\r' => "a carriage return: save the file with line feeds alone as line ends",
        _ => "byte {} in column {}: outside comments only ASCII is read",
    }
}
