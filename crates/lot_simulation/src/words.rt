//! The words of an input, each with its spelling and its arguments. This file is the only source: the parser looks up
//! tokens and ranges here, and messages about refused lines take the names of words and arguments from here. The
//! arguments of a command are those of its verb.
//! `docs/check` compares these words with `docs/FORMATS.md`.
ghost use Rattle.std.specs.Prelude.{◌≡◌, map};
ghost use Rattle.lot_simulation.specs.Formats.{is_timed};
ghost use Rattle.lot_simulation.specs.Grammar as grammar;
ghost use Rattle.lot_simulation.specs.Words as words;
ghost use Rattle.lot_simulation.specs.Words.{word_in, words_for};

use crate::format::Format;
use crate::forms::Argument::{Actor, KnownName, Mechanism, NewName, Number, Time, Version};
use crate::forms::Form::{Command, Naming, Once, PerProcessor, Repeated};
use crate::forms::{Argument, Form};
use crate::input::{BodyWord, HeaderWord, ScriptWord};
use crate::ranges;
use lot_machine::Kind::{Currencies, Threads, Tickets};
use lot_machine::{Trap, Verb};

/// A word, its spelling, and whether only a timed input has it.
pub type WordRow<W> = (&'static [u8], W, bool);

/// In a row: only a timed input has the word.
const TIMED: bool = true;

/// In a row: each input has the word.
const ANY: bool = false;

/// The word that begins the first line.
pub const FIRST_WORD: &[u8] = b"lottery";

/// After `without`: no thread is compensated.
pub const COMPENSATION_WORD: &[u8] = b"compensation";

/// After `without`: a blocked thread lends to nobody.
pub const LENDING_WORD: &[u8] = b"lending";

/// Before the name of a new ticket.
pub const AS_WORD: &[u8] = b"as";

/// The first word of a line of a schedule, which lists actors.
pub const SCHEDULE_WORD: &[u8] = b"schedule";

/// The first word of a line of a schedule that lists runs, several turns of one actor in a row.
pub const RUNS_WORD: &[u8] = b"runs";

/// The words of the header.
pub const HEADER_WORDS: [WordRow<HeaderWord>; 10] = [
    (b"for", HeaderWord::For, TIMED),
    (b"reuse", HeaderWord::Reuse, TIMED),
    (b"without", HeaderWord::Without, TIMED),
    (b"strict", HeaderWord::Strict, TIMED),
    (FIRST_WORD, HeaderWord::Lottery, ANY),
    (b"processors", HeaderWord::Processors, ANY),
    (b"quantum", HeaderWord::Quantum, ANY),
    (b"turns", HeaderWord::Turns, ANY),
    (b"seed", HeaderWord::Seed, ANY),
    (b"limits", HeaderWord::Limits, ANY),
];

/// The words of the body.
pub const BODY_WORDS: [WordRow<BodyWord>; 20] = [
    (b"at", BodyWord::At, TIMED),
    (b"settkt", BodyWord::Command(Verb::SetTicket), TIMED),
    (b"rmthr", BodyWord::Command(Verb::RemoveThread), TIMED),
    (b"kill", BodyWord::Command(Verb::Kill), TIMED),
    (b"port", BodyWord::Port, ANY),
    (b"mutex", BodyWord::Mutex, ANY),
    (b"script", BodyWord::Script, ANY),
    (b"mktkt", BodyWord::Command(Verb::MakeTicket), ANY),
    (b"rmtkt", BodyWord::Command(Verb::RemoveTicket), ANY),
    (b"mkcur", BodyWord::Command(Verb::MakeCurrency), ANY),
    (b"rmcur", BodyWord::Command(Verb::RemoveCurrency), ANY),
    (b"fund", BodyWord::Command(Verb::Fund), ANY),
    (b"unfund", BodyWord::Command(Verb::Unfund), ANY),
    (b"mkthr", BodyWord::Command(Verb::MakeThread), ANY),
    (b"fundx", BodyWord::Command(Verb::MakeFunded), ANY),
    (b"lstkt", BodyWord::Command(Verb::List(Tickets)), ANY),
    (b"lscur", BodyWord::Command(Verb::List(Currencies)), ANY),
    (b"lsthr", BodyWord::Command(Verb::List(Threads)), ANY),
    (SCHEDULE_WORD, BodyWord::Schedule, ANY),
    (RUNS_WORD, BodyWord::Runs, ANY),
];

/// The words of a script.
pub const SCRIPT_WORDS: [WordRow<ScriptWord>; 14] = [
    (b"sleep", ScriptWord::Trap(Trap::Sleep(())), TIMED),
    (b"serve", ScriptWord::Trap(Trap::Serve((), ())), TIMED),
    (b"compute", ScriptWord::Compute, ANY),
    (b"set", ScriptWord::Set, ANY),
    (b"add", ScriptWord::Add, ANY),
    (b"loop", ScriptWord::Loop, ANY),
    (b"end", ScriptWord::End, ANY),
    (b"yield", ScriptWord::Trap(Trap::Yield), ANY),
    (b"reply", ScriptWord::Trap(Trap::Reply(())), ANY),
    (b"call", ScriptWord::Trap(Trap::Call((), ())), ANY),
    (b"receive", ScriptWord::Trap(Trap::Receive(())), ANY),
    (b"lock", ScriptWord::Trap(Trap::Lock(())), ANY),
    (b"unlock", ScriptWord::Trap(Trap::Unlock((), ())), ANY),
    (b"endscript", ScriptWord::EndScript, ANY),
];

// The tables above as static data: a constant would be built anew at each call.
static HEADER_TABLE: [WordRow<HeaderWord>; 10] = HEADER_WORDS;

static BODY_TABLE: [WordRow<BodyWord>; 20] = BODY_WORDS;

static SCRIPT_TABLE: [WordRow<ScriptWord>; 14] = SCRIPT_WORDS;

impl HeaderWord {
    /// The rows of the words of all formats.
    pub fn table() -> &'static [WordRow<HeaderWord>]
        ensures { map (λ row. (row.0.now, row.1, row.2)) result.now ≡ words.header_table }
    {
        &HEADER_TABLE
    }

    /// The word of the header with this spelling in an input of this format, if there is one.
    pub fn of_token(format: Format, token: &[u8]) -> Option<HeaderWord>
        ensures { result ≡ word_in (words_for (is_timed format) words.header_table) token.now }
    {
        word_spelled(&HEADER_TABLE, format.is_timed(), token)
    }

    /// The form of a line that the word begins.
    pub fn form(self) -> Form {
        match self {
            HeaderWord::Lottery => Once(&[("VERSION", Version)]),
            HeaderWord::Processors => Once(&[("P", Number(ranges::PROCESSORS))]),
            HeaderWord::Quantum => Once(&[("Q", Number(ranges::QUANTUM))]),
            HeaderWord::Turns => Once(&[("T", Number(ranges::TURNS))]),
            HeaderWord::For => Once(&[("TICKS", Number(ranges::DURATION))]),
            HeaderWord::Seed => PerProcessor(&[("S", Number(ranges::SEED))]),
            HeaderWord::Limits => Once(&[
                ("TICKETS", Number(ranges::TICKETS)),
                ("CURRENCIES", Number(ranges::CURRENCIES)),
                ("THREADS", Number(ranges::THREADS)),
            ]),
            HeaderWord::Without => Once(&[("MECHANISM", Mechanism)]),
            HeaderWord::Reuse | HeaderWord::Strict => Once(&[]),
        }
    }

    /// The place of the word's line in the header, from 0.
    pub fn place(self) -> u32
        ensures { result ≡ words.header_place self }
    {
        self as u32
    }
}

impl BodyWord {
    /// The rows of the words of all formats.
    pub fn table() -> &'static [WordRow<BodyWord>]
        ensures { map (λ row. (row.0.now, row.1, row.2)) result.now ≡ words.body_table }
    {
        &BODY_TABLE
    }

    /// The word of the body with this spelling in an input of this format, if there is one.
    pub fn of_token(format: Format, token: &[u8]) -> Option<BodyWord>
        ensures { result ≡ word_in (words_for (is_timed format) words.body_table) token.now }
    {
        word_spelled(&BODY_TABLE, format.is_timed(), token)
    }

    /// The form of a line that the word begins.
    pub fn form(self) -> Form {
        match self {
            BodyWord::Port => Once(&[("NAME", NewName(BodyWord::Port))]),
            BodyWord::Mutex => Once(&[("NAME", NewName(BodyWord::Mutex))]),
            BodyWord::Script => Once(&[("NAME", NewName(BodyWord::Script))]),
            BodyWord::Command(verb) if makes_ticket(verb) => Naming(verb),
            BodyWord::Command(verb) => Command(verb),
            BodyWord::Schedule => Repeated(&[("ACTOR", Actor)]),
            BodyWord::Runs => Repeated(&[("ACTOR", Actor), ("TURNS", Number(ranges::RUN))]),
            BodyWord::At => Once(&[("TICK", Time(ranges::TICK))]),
        }
    }
}

impl ScriptWord {
    /// The rows of the words of all formats.
    pub fn table() -> &'static [WordRow<ScriptWord>]
        ensures { map (λ row. (row.0.now, row.1, row.2)) result.now ≡ words.script_table }
    {
        &SCRIPT_TABLE
    }

    /// The word of a script with this spelling in an input of this format, if there is one.
    pub fn of_token(format: Format, token: &[u8]) -> Option<ScriptWord>
        ensures { result ≡ word_in (words_for (is_timed format) words.script_table) token.now }
    {
        word_spelled(&SCRIPT_TABLE, format.is_timed(), token)
    }

    /// The argument that the word takes, if it takes one, with its name. No number fits an exit, which isn't written.
    pub fn arguments(self) -> &'static [(&'static str, Argument)]
        ensures { map (λ argument. argument.1) result.now ≡ words.arguments_of self }
    {
        match self {
            ScriptWord::Compute => &[("TICKS", Number(ranges::WORK))],
            ScriptWord::Set | ScriptWord::Add => &[("NUMBER", Number(ranges::NUMBER))],
            ScriptWord::Loop => &[("TIMES", Number(ranges::TIMES))],
            ScriptWord::Trap(Trap::Call(..) | Trap::Receive(_) | Trap::Serve(..)) => {
                &[("PORT", KnownName(BodyWord::Port))]
            }
            ScriptWord::Trap(Trap::Lock(_) | Trap::Unlock(..)) => {
                &[("MUTEX", KnownName(BodyWord::Mutex))]
            }
            ScriptWord::Trap(Trap::Sleep(_)) => &[("TICKS", Number(ranges::SLEEP))],
            ScriptWord::Trap(Trap::Exit) => &[("NUMBER", Number(ranges::NONE))],
            _ => &[],
        }
    }

    /// Whether the word takes no argument.
    pub fn stands_alone(self) -> bool
        ensures { result ≡ grammar.stands_alone self }
    {
        self.arguments().is_empty()
    }

    /// The form of a line, or of a part of one, that the word begins.
    pub fn form(self) -> Form {
        Once(self.arguments())
    }
}

/// Whether the command makes a ticket, which can have a name.
pub fn makes_ticket(verb: Verb) -> bool
    ensures { result ≡ grammar.makes_ticket verb }
{
    match verb {
        Verb::MakeTicket | Verb::MakeFunded => true,
        _ => false,
    }
}

/// The first word of the table with this spelling that an input has, which is timed or isn't, if there is one.
fn word_spelled<W: Copy>(mut table: &[WordRow<W>], is_timed: bool, token: &[u8]) -> Option<W>
    ensures { result
        ≡ word_in (words_for is_timed (map (λ row. (row.0.now, row.1, row.2)) table.entry.now)) token.now }
{
    while let [row, rest @ ..] = table {
        if row.0 == token && (is_timed || !row.2) {
            return Some(row.1);
        }
        table = rest;
    }
    None
}
