//! Lists of words.

use crate::lines::keywords::text_of;
use lot_simulation::{Format, RUNS_WORD, SCHEDULE_WORD, WordRow};
use std::fmt;

/// Writes the words of this table that inputs of this format have, with commas between them.
pub fn write_list<K: Copy, W: fmt::Write>(
    f: &mut fmt::Formatter<W>,
    table: &'static [WordRow<K>],
    format: Format,
) -> fmt::Result {
    let mut before = " ";
    for (spelling, _, is_only_timed) in table {
        if is_told(format, *spelling, *is_only_timed) {
            f.write_str(before)?;
            f.write_str(text_of(*spelling))?;
            before = ", ";
        }
    }
    Ok(())
}

/// Whether to list the word with this spelling, which only timed inputs have or all: inputs of this format have it, and
/// it doesn't begin a schedule line that they lack.
fn is_told(format: Format, spelling: &[u8], is_only_timed: bool) -> bool {
    let is_refused = spelling == RUNS_WORD && !format.has_runs()
        || spelling == SCHEDULE_WORD && format.is_timed();
    (format.is_timed() || !is_only_timed) && !is_refused
}
