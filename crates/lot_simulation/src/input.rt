//! The words of an input, what those of its header choose, and the reasons for refusing one.
ghost use Rattle.std.specs.Prelude.{◌≡◌};
ghost use Rattle.lot_simulation.specs.Words.{options_with};

use lot_machine::{TrapWord, Verb};

/// A word that begins a line of the header, after the first line.
#[derive(Clone, Copy, Debug, PartialEq, Eq)]
pub enum HeaderWord {
    Lottery,
    Processors,
    Quantum,
    Turns,
    For,
    Seed,
    Limits,
    Reuse,
    Without,
    Strict,
}

/// What the words of a header choose, each in a timed input alone.
#[derive(Clone, Copy, Debug, PartialEq, Eq)]
pub struct Options {
    /// Whether numbers are given again.
    pub reuse: bool,
    /// Whether no thread is compensated.
    pub without_compensation: bool,
    /// Whether a blocked thread lends to nobody.
    pub without_lending: bool,
    /// Whether a refused command or trap ends the play.
    pub strict: bool,
}

impl Options {
    /// The options of a header that chooses nothing.
    pub const NONE: Options = Options {
        reuse: false,
        without_compensation: false,
        without_lending: false,
        strict: false,
    };

    /// The options with the one that a line of this word alone chooses, or `None` if it chooses none.
    pub fn with_word(self, word: HeaderWord) -> Option<Options>
        ensures { result ≡ options_with self word }
    {
        match word {
            HeaderWord::Reuse => Some(Options {
                reuse: true,
                ..self
            }),
            HeaderWord::Strict => Some(Options {
                strict: true,
                ..self
            }),
            _ => None,
        }
    }
}

/// A word that begins a line of the body.
#[derive(Clone, Copy, Debug, PartialEq, Eq)]
pub enum BodyWord {
    Port,
    Mutex,
    Script,
    /// A command of the console.
    Command(Verb),
    Schedule,
    Runs,
    At,
}

/// A word that begins a line of a script, or the line that closes it.
#[derive(Clone, Copy, Debug, PartialEq, Eq)]
pub enum ScriptWord {
    Compute,
    Set,
    Add,
    Loop,
    End,
    Trap(TrapWord),
    EndScript,
}

/// The reason why an input is refused.
#[derive(Clone, Copy, Debug, PartialEq, Eq)]
pub enum InputRefusal {
    BadHeader,
    BadLine,
    BadNumber,
    UnknownName,
    OpenScript,
    TooDeep,
    TooLong,
    BadActor,
}

/// The line on which an input is refused, from 1, and the reason.
#[derive(Clone, Copy, Debug, PartialEq, Eq)]
pub struct InputFault {
    pub line: u32,
    pub refusal: InputRefusal,
}
