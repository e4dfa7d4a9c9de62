//! The reasons why inputs are refused, in words for their authors: the line, the word in question and the expectation.
//!
//! For a refused input the output is one line for programs, with the line's number and a refusal. These words go to
//! standard error. Contracts say of some problems that a caller never skips their lines. Otherwise the proofs show only
//! safety and termination; the tests of `lot_system_tests` check the text.
mod bytes;
mod explain;
mod header;
mod input;
mod number;
mod phrases;
mod problem;
mod skip;
mod word;

use crate::refusals::explain::problem_of;
use crate::refusals::input::Refused;
use crate::refusals::skip::can_be_skipped;
use lot_simulation::InputFault;
use std::alloc::Global;
use std::io;
use std::io::Write;

/// Writes the reason why this input is refused with this fault, as one line. The message names the input by this file's
/// name, or as standard input. It fails if the writer does. If out of memory, it leaves out the suggestion of a nearby
/// word.
pub fn write_words<W: Write>(
    alloc: Global,
    writer: &mut W,
    input: &[u8],
    file: Option<&str>,
    fault: InputFault,
) -> io::Result<()> {
    let refused = Refused::of(input, fault.line);
    let problem = problem_of(alloc, &refused, fault.refusal);
    problem.message.write(writer, file, Some(fault.line))
}

/// The index in the input of the first byte of the line refused with this fault, if the line can be skipped: its fault
/// has no consequences for other lines, so each fault that the input has without the line is another one. To skip the
/// line, a caller replaces this byte by `#`, which turns the line into a comment, and reads the input again.
///
/// These can't be skipped, since other lines would be refused for the same reason:
///
/// - a line of the header, or a header that lacks something;
/// - a line that begins with `script`, `port` or `mutex`, and a line of a script with one of these words or with
///   `loop`, `end` or `endscript`; a misspelt word counts as the nearest one;
/// - a script that isn't closed, a word of the header or the body inside a script, or a word of a script outside one;
/// - a line of `lottery 3` that begins with `mktkt` or `fundx`, if it has `as` or more words than without a name;
/// - a word of another format;
/// - a line that is too long, the first line above a limit, or the line at which an input gets too long.
///
/// If out of memory for finding the nearest word, the line can't be skipped either.
pub fn line_to_skip(alloc: Global, input: &[u8], fault: InputFault) -> Option<usize> {
    let refused = Refused::of(input, fault.line);
    let problem = problem_of(alloc, &refused, fault.refusal);
    if can_be_skipped(alloc, &refused, problem.cause) {
        Some(refused.before.len())
    } else {
        None
    }
}
