//! The exit status for the words, the input and the outputs.
ghost use Rattle.std.specs.Prelude.{◌≡◌, ◌≢◌, ◌≤◌, false, IfOk};
ghost use Rattle.std.specs.Result.{result_ok};
ghost use Rattle.lot_command.specs.Statuses as statuses;
ghost use Rattle.lot_command.specs.Statuses.{HasCome, IsStatusFor};
ghost use Rattle.lot_command.specs.declared.command_line.request.Showing.{Showing};

use crate::command_line::{CommandLine, Request, View, command_line_of};
use crate::diagnostics::{Diagnostics, say_failure, say_no_memory};
use crate::run::{InputRunFault, run};
use crate::source::{Inputs, Recorded};
use crate::view::shown;
use clap::Error;
use clap::error::ErrorKind;
use lot_diagnostics::Asked;
use lot_io::{IoFault, Watched};
use lot_system::Played;
use std::alloc::Global;
use std::convert::AsStr;
use std::io;
use std::io::{BufWriter, Read, Write};
use std::sync::Wait;
use std::thread::Threads;

/// The text for a command line that isn't UTF-8.
const NOT_UTF8: &str = "error: invalid UTF-8 was detected in one or more arguments\n";

/// The number of output bytes in one write.
const BUFFER: usize = 65536;

#[derive(Clone, Copy)]
enum ExitStatus {
    /// Success, or help was requested.
    Done,
    /// The input was refused, or a refused command or trap ended a strict play.
    Refused,
    /// The command line was refused.
    CommandLine,
    /// Out of memory, the input can't be opened, a read or a write failed, or workers stopped early.
    Failed,
}

impl ExitStatus {
    /// Its number.
    fn code(self) -> u8
        ensures code { result ≡ statuses.code_of self }
        ensures few { result ≤ 3 }
    {
        match self {
            ExitStatus::Done => 0,
            ExitStatus::Refused => 1,
            ExitStatus::CommandLine => 2,
            ExitStatus::Failed => 3,
        }
    }
}

/// Runs the program with these words, the first of which is its own name, and returns its exit status:
///
/// - 0 on success, or if help was requested;
/// - 1 if the input was refused, or if a refused command or trap ended the play of a strict one;
/// - 2 if the command line was refused;
/// - 3 if out of memory, if the input can't be opened or read, if `output` failed, or if workers stopped early.
///
/// It takes its input of `inputs`: the file that the words name, or standard input. It writes the requested output to
/// `output`, and diagnostics to `errors`, whose failure counts only for a refused command line: then the status is 3.
/// It writes nothing more to an output after its first error. It may block.
pub fn status<H: Threads + Wait + Sync, S: AsStr, I: Inputs, W: Write + Drop, E: Write + Drop>(
    rt: &H,
    alloc: Global,
    words: &[S],
    inputs: I,
    output: W,
    errors: E,
) -> u8
    ensures { result ≤ 3 }
{
    // A buffer retries a failed write, even when dropped. The watched writer between it and the output stops the
    // retries.
    let output = Watched::new(output);
    let errors = Watched::new(errors);
    let status = match command_line_of(alloc, words) {
        Ok(line) => line_status(rt, alloc, &line, inputs, output, errors),
        Err(error) => say_error(alloc, &error, output, errors),
    };
    status.code()
}

/// The exit status if the words can't be read. A word that isn't UTF-8 is a refused command line: status 2, with a
/// text on `errors`, or 3 if that fails. Out of memory is 3, with a text too.
pub fn unread_status<E: Write + Drop>(error: &io::Error, errors: E) -> u8 {
    let mut errors = Watched::new(errors);
    if error.kind() == io::ErrorKind::OutOfMemory {
        say_no_memory(&mut errors);
        return ExitStatus::Failed.code();
    }
    if errors.write_all(NOT_UTF8.as_bytes()).is_err() || errors.flush().is_err() {
        return ExitStatus::Failed.code();
    }
    ExitStatus::CommandLine.code()
}

/// The exit status of the command line. It opens the input.
fn line_status<H: Threads + Wait + Sync, I: Inputs, W: Write + Drop, E: Write + Drop>(
    rt: &H,
    alloc: Global,
    line: &CommandLine<'_>,
    inputs: I,
    output: Watched<W>,
    mut errors: Watched<E>,
) -> ExitStatus
    ensures { result ≢ ExitStatus.CommandLine }
{
    let Some(name) = line.file else {
        return request_status(rt, alloc, line, inputs.standard(), output, errors);
    };
    match inputs.open(name) {
        Ok(file) => request_status(rt, alloc, line, file, output, errors),
        Err(reason) => {
            let fault = InputRunFault::Play(IoFault::Read);
            say_failure(alloc, line.file, &fault, Some(reason), &mut errors);
            ExitStatus::Failed
        }
    }
}

/// The exit status of the command line, given the reader of its input.
fn request_status<H: Threads + Wait + Sync, R: Read + Drop, W: Write + Drop, E: Write + Drop>(
    rt: &H,
    alloc: Global,
    line: &CommandLine<'_>,
    reader: R,
    output: Watched<W>,
    mut errors: Watched<E>,
) -> ExitStatus
    ensures request { result ≢ ExitStatus.CommandLine }
    ensures shown { (showing : Showing) → line.now.request ≡ Request.Show showing
        → IsStatusFor showing.view showing.seed (R.remaining reader) result }
{
    let Ok(buffered) = BufWriter::with_capacity(alloc, BUFFER, output) else {
        say_no_memory(&mut errors);
        return ExitStatus::Failed;
    };
    let source = Recorded::new(reader);
    let sink = Recorded::new(buffered);
    let mut reader = Watched::new(source);
    let mut writer = Watched::new(sink);
    let Ok(mut diagnostics) = Diagnostics::nothing(alloc) else {
        say_no_memory(&mut errors);
        return ExitStatus::Failed;
    };
    let came = answer(
        rt,
        alloc,
        &line.request,
        line.title,
        &mut diagnostics,
        &mut reader,
        &mut writer,
    );
    let status = status_of(&came, diagnostics.warnings.stopped);
    let unread = reader.into_inner().into_failure();
    let reason = unread.or(writer.into_inner().into_failure());
    say_outcome(alloc, line, came, reason, &mut diagnostics, &mut errors);
    status
}

/// Writes the output of the request on the input of this reader, with this title for a picture. It returns the outcome
/// of the input, or why the request failed, and stores diagnostics in `diagnostics`.
fn answer<H: Threads + Wait + Sync, R: Read, W: Write>(
    rt: &H,
    alloc: Global,
    request: &Request,
    title: &str,
    diagnostics: &mut Diagnostics,
    reader: &mut Watched<R>,
    writer: &mut Watched<W>,
) -> Result<Played, InputRunFault>
    requires { (reader.old.failed ≡ false) × (writer.old.failed ≡ false) }
    ensures { (showing : Showing) → request.now ≡ Request.Show showing
        → IfOk result (HasCome showing.view showing.seed
        (R.remaining reader.old.inner) (R.remaining reader.new.inner)
        diagnostics.old.warnings.stopped diagnostics.new.warnings.stopped) }
{
    match request {
        Request::Show(showing) => shown(alloc, showing, title, diagnostics, reader, writer),
        Request::Run => run(rt, alloc, diagnostics, reader, writer),
    }
}

/// The exit status after a request, given the outcome of its input, if the request didn't fail, and whether a refusal
/// ended its play.
fn status_of(came: &Result<Played, InputRunFault>, stopped: bool) -> ExitStatus
    ensures status { result ≡ statuses.status_of (result_ok came.now) stopped }
    ensures request { result ≢ ExitStatus.CommandLine }
{
    match came {
        Ok(Played::Done) => {
            if stopped {
                ExitStatus::Refused
            } else {
                ExitStatus::Done
            }
        }
        Ok(Played::Refused) => ExitStatus::Refused,
        Err(_) => ExitStatus::Failed,
    }
}

/// Writes the diagnostics of a request: the warnings of a run, why an input was refused, or why the request failed,
/// with the reason from the reader or the writer, if one gave it.
fn say_outcome<E: Write>(
    alloc: Global,
    line: &CommandLine<'_>,
    came: Result<Played, InputRunFault>,
    reason: Option<io::Error>,
    diagnostics: &mut Diagnostics,
    errors: &mut Watched<E>,
) {
    match came {
        Ok(Played::Done) => {
            let asked = asked_of(&line.request, diagnostics);
            diagnostics.say_warnings(alloc, asked, line.file, errors);
        }
        Ok(Played::Refused) => diagnostics.say_why(alloc, line.file, errors),
        Err(fault) => say_failure(alloc, line.file, &fault, reason, errors),
    }
}

/// The request on an accepted input, for the diagnostics that its run has left.
fn asked_of(request: &Request, diagnostics: &Diagnostics) -> Asked {
    match request {
        Request::Run => Asked::Run,
        Request::Show(showing) => Asked::Play {
            ended: match diagnostics.warnings.early {
                Some(early) => Some(early.time),
                None => None,
            },
            from: beginning_of(&showing.view),
        },
    }
}

/// The time from which the view shows a play, if it doesn't show all of it.
fn beginning_of(view: &View) -> Option<u64> {
    match view {
        View::Shares {
            interval: Some(interval),
            ..
        }
        | View::Chart {
            interval: Some(interval),
            ..
        } => Some(interval.from),
        _ => None,
    }
}

/// Writes the text of a refused command line to the errors, or the requested help to the output.
fn say_error<W: Write + Drop, E: Write + Drop>(
    alloc: Global,
    error: &Error,
    output: Watched<W>,
    mut errors: Watched<E>,
) -> ExitStatus {
    if error.kind() == ErrorKind::OutOfMemory {
        say_no_memory(&mut errors);
        return ExitStatus::Failed;
    }
    if error.use_stderr() {
        return match write_text(error, &mut errors) {
            Ok(()) => ExitStatus::CommandLine,
            Err(_) => ExitStatus::Failed,
        };
    }
    let mut output = Watched::new(Recorded::new(output.into_inner()));
    match write_text(error, &mut output) {
        Ok(()) => ExitStatus::Done,
        Err(_) => {
            let fault = InputRunFault::Play(IoFault::Write);
            let reason = output.into_inner().into_failure();
            say_failure(alloc, None, &fault, reason, &mut errors);
            ExitStatus::Failed
        }
    }
}

/// Writes the text, and flushes.
fn write_text<W: Write>(text: &Error, to: &mut W) -> io::Result<()> {
    write!(to, "{text}")?;
    to.flush()
}
