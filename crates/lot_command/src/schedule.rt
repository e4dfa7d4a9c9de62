//! The lines of an input's schedule.
ghost use Rattle.std.specs.Prelude.{◌<◌, IfSome, length};

use lot_simulation::{RUNS_WORD, SCHEDULE_WORD};
use memchr::memrchr;

/// The input without the lines of the schedule at its end.
pub(crate) fn without_schedule(input: &[u8]) -> &[u8] {
    let mut rest = input;
    while let Some(before) = before_schedule_line(rest) {
        rest = before;
    }
    rest
}

/// The input before its last line, if that line is a schedule line.
fn before_schedule_line(input: &[u8]) -> Option<&[u8]>
    ensures shorter { IfSome result (λ before. length before.now < length input.now) }
{
    // The last byte ends the last line, or is a line of its own.
    let last = input.len().checked_sub(1)?;
    let start = match memrchr(b'\n', &input[..last]) {
        Some(end) => end + 1,
        None => 0,
    };
    if is_schedule_line(&input[start..]) {
        Some(&input[..start])
    } else {
        None
    }
}

/// Whether a line begins with a word of the schedule. No other line does.
fn is_schedule_line(line: &[u8]) -> bool {
    line.starts_with(SCHEDULE_WORD) || line.starts_with(RUNS_WORD)
}
