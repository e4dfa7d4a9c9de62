//! Diagnostics in words on standard error.
ghost use Rattle.std.specs.Prelude.{◌≡◌, IfOk, false};

use crate::run::InputRunFault;
use crate::schedule::without_schedule;
use lot_diagnostics::{
    Asked, Location, line_to_skip, write_no_thread, write_notes, write_warnings, write_words,
};
use lot_io::{IoFault, Watched};
use lot_simulation::{InputFault, Warnings};
use lot_text::{ParseFault, parse};
use std::alloc::{AllocError, Global};
use std::io::{ErrorKind, Write};
use std::{fmt, io};

/// The largest number of faults that the program reports of an input.
const MOST_FAULTS: u32 = 10;

/// The message after them, if the input has more.
const MORE_FAULTS: &str = "there are more faults";

/// The message if there is no memory for another.
const NO_MEMORY: &str = "out of memory\n";

/// The diagnostics for standard error. The output doesn't depend on them. The status depends only on whether a refusal
/// ended a strict play.
#[derive(Drop)]
pub(crate) struct Diagnostics {
    /// The input, whose lines the diagnostics name; after a play without the schedule lines at its end.
    pub(crate) input: Vec<u8>,
    /// The warnings of its run.
    pub(crate) warnings: Warnings,
}

impl Diagnostics {
    /// No diagnostics. It allocates the memory for the warnings of a run.
    pub(crate) fn nothing(alloc: Global) -> Result<Self, AllocError>
        ensures { IfOk result (λ diagnostics. diagnostics.warnings.stopped ≡ false) }
    {
        Ok(Diagnostics {
            input: Vec::new(alloc),
            warnings: Warnings::none(alloc)?,
        })
    }

    /// Stores an input before its play. The diagnostics name lines of its turns only, and none of these is a schedule
    /// line, so it frees the schedule lines at the end.
    pub(crate) fn keep_played(&mut self, input: Vec<u8>)
        ensures { self.new.warnings ≡ self.old.warnings }
    {
        let kept = without_schedule(input.as_slice()).len();
        self.input = input;
        self.input.truncate(kept);
        self.input.shrink_to_fit();
    }

    /// Writes the faults of the refused input, a line for each: the first, and up to nine others that aren't its
    /// consequences. Messages name the input by this file's name, or as standard input. It turns the faulty lines into
    /// comments. If out of memory, or if the errors fail, it reports no more faults.
    pub(crate) fn say_why<E: Write>(
        &mut self,
        alloc: Global,
        file: Option<&str>,
        errors: &mut Watched<E>,
    ) {
        for _ in 0..MOST_FAULTS {
            let Some(fault) = self.fault(alloc) else {
                return;
            };
            if self.say_fault(alloc, file, fault, errors).is_err() || !self.skip(alloc, fault) {
                return;
            }
        }
        if self.fault(alloc).is_some() {
            let place = Location { file, line: None };
            let mut words = Vec::new(alloc);
            let made = writeln!(words, "{place}{MORE_FAULTS}");
            say(errors, made, &words);
        }
    }

    /// The first fault of the input, or `None` if it has none, or if out of memory.
    fn fault(&self, alloc: Global) -> Option<InputFault> {
        match parse(alloc, self.input.as_slice()) {
            Err(ParseFault::Input(fault)) => Some(fault),
            _ => None,
        }
    }

    /// Writes the words of this fault in one write. It fails if out of memory, or if the errors fail.
    fn say_fault<E: Write>(
        &self,
        alloc: Global,
        file: Option<&str>,
        fault: InputFault,
        errors: &mut Watched<E>,
    ) -> io::Result<()> {
        let mut words = Vec::new(alloc);
        write_words(alloc, &mut words, self.input.as_slice(), file, fault)?;
        errors.write_all(words.as_slice())
    }

    /// Turns the line with this fault into a comment and returns true, or returns false if the line can't be skipped.
    fn skip(&mut self, alloc: Global, fault: InputFault) -> bool {
        let Some(place) = line_to_skip(alloc, self.input.as_slice(), fault) else {
            return false;
        };
        match self.input.get_mut(place) {
            Some(byte) => {
                *byte = b'#';
                true
            }
            None => false,
        }
    }

    /// Writes the warnings of the run, and why it may show little. If out of memory, or if the errors fail, it reports
    /// nothing.
    pub(crate) fn say_warnings<E: Write>(
        &self,
        alloc: Global,
        asked: Asked,
        file: Option<&str>,
        errors: &mut Watched<E>,
    ) {
        let mut words = Vec::new(alloc);
        let made = self.write_warnings(&mut words, asked, file);
        say(errors, made, &words);
    }

    /// Writes the warnings of the run, and why it may show little: that it has no thread if there is no warning.
    fn write_warnings(
        &self,
        words: &mut Vec<u8>,
        asked: Asked,
        file: Option<&str>,
    ) -> io::Result<()> {
        let input = self.input.as_slice();
        write_warnings(words, &self.warnings, input, file)?;
        if words.is_empty() {
            write_no_thread(words, input, file)?;
        }
        write_notes(words, asked, input, file)
    }
}

/// Writes why a request on the file with this name, or on standard input, has failed, with this reason from the reader
/// or the writer, if one gave it. A closed pipe is no failure to report, since its reader wants no more. If the errors
/// fail, it reports nothing.
pub(crate) fn say_failure<E: Write>(
    alloc: Global,
    file: Option<&str>,
    fault: &InputRunFault,
    reason: Option<io::Error>,
    errors: &mut Watched<E>,
) {
    if is_closed_pipe(reason) {
        return;
    }
    let mut words = Vec::new(alloc);
    match write_failure(
        &mut words,
        Location { file, line: None },
        fault,
        Because(reason),
    ) {
        Ok(()) => say(errors, Ok(()), &words),
        Err(_) => say_no_memory(errors),
    }
}

/// Writes that there is no memory, without memory. If the errors fail, it reports nothing.
pub(crate) fn say_no_memory<E: Write>(errors: &mut Watched<E>) {
    let _ = errors.write_all(NO_MEMORY.as_bytes());
}

/// Whether a write failed for this reason since its reader has closed the pipe.
fn is_closed_pipe(reason: Option<io::Error>) -> bool {
    match reason {
        Some(error) => error.kind() == ErrorKind::BrokenPipe,
        None => false,
    }
}

/// Writes why a request has failed.
fn write_failure<W: Write>(
    words: &mut W,
    place: Location<'_>,
    fault: &InputRunFault,
    because: Because,
) -> io::Result<()> {
    match fault {
        InputRunFault::Play(IoFault::Memory) => writeln!(words, "{place}out of memory"),
        InputRunFault::Play(IoFault::Read) => {
            writeln!(words, "{place}cannot read the input{because}")
        }
        InputRunFault::Play(IoFault::Write) => {
            writeln!(words, "{place}cannot write the output{because}")
        }
        InputRunFault::Workers(fault) => writeln!(words, "{place}the run failed: {fault}"),
    }
}

/// The reason for a failure, if it is known.
#[derive(Clone, Copy)]
struct Because(Option<io::Error>);

impl fmt::Display for Because {
    fn fmt<W: fmt::Write>(&self, f: &mut fmt::Formatter<W>) -> fmt::Result {
        match &self.0 {
            Some(reason) => write!(f, ": {reason}"),
            None => Ok(()),
        }
    }
}

/// Writes these words to the errors in one write, unless out of memory.
fn say<E: Write>(errors: &mut Watched<E>, made: io::Result<()>, words: &Vec<u8>) {
    if made.is_ok() && !words.is_empty() {
        let _ = errors.write_all(words.as_slice());
    }
}
