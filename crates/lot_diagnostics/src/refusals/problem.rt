//! Problems of lines.
ghost use Rattle.std.specs.Prelude.{◌≡◌};

use crate::message::{Message, Part};

/// What causes a problem.
#[derive(Clone, Copy)]
pub(crate) enum Cause {
    /// The line alone.
    Line,
    /// The length of the line.
    LongLine,
    /// The header.
    Header,
    /// A word that belongs elsewhere, or to another format.
    Place,
    /// A script that isn't closed.
    OpenScript,
    /// A limit.
    Limit,
    /// None that is known.
    Unknown,
}

/// The problem with a line, and the expectation.
#[derive(Clone, Copy)]
pub(crate) struct Problem<'a> {
    pub(crate) cause: Cause,
    pub(crate) message: Message<'a>,
}

impl<'a> Problem<'a> {
    /// The problem with this cause, in these words with these parts.
    pub(crate) fn new(cause: Cause, text: &'static str, parts: &[Part<'a>]) -> Problem<'a>
        ensures { result.cause ≡ cause }
    {
        let message = Message::new(text, parts);
        Problem { cause, message }
    }

    /// The problem that the line alone causes, in these words with these parts.
    pub(crate) fn of_line(text: &'static str, parts: &[Part<'a>]) -> Problem<'a>
        ensures { result.cause ≡ Cause.Line }
    {
        Problem::new(Cause::Line, text, parts)
    }
}
