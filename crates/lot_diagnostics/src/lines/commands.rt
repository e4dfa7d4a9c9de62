//! The lines of an input's commands.
ghost use Rattle.std.specs.Prelude.{◌≡◌};

use crate::lines::forms::{argument_named, is_command};
use crate::lines::keywords::body_word;
use crate::lines::line::{ends_line, first_word};
use crate::lines::script::{OpenScript, after_line};
use lot_simulation::{BodyWord, Form};

/// A command of an accepted input.
#[derive(Clone, Copy)]
pub struct InputCommand<'a> {
    /// The number of its line, from 1.
    pub number: u32,
    /// The number of commands before it.
    pub place: usize,
    /// The time that an `at` line gives it.
    pub time: u32,
    /// Its first word.
    pub word: BodyWord,
    line: &'a [u8],
    form: Form,
}

impl<'a> InputCommand<'a> {
    /// The command with this index, from 0, if there is one.
    ///
    /// It reads the input up to there, and allocates nothing. So nothing needs to be stored of an input until a
    /// diagnostic names one of its commands.
    pub fn at(input: &'a [u8], place: usize) -> Option<InputCommand<'a>> {
        let mut reading = Reading::BEGUN;
        for line in input.split(ends_line) {
            match reading.pass(line) {
                Some(command) if command.place == place => return Some(command),
                _ => {}
            }
        }
        None
    }

    /// The first command that comes after this time, if there is one.
    pub fn after(input: &'a [u8], time: u32) -> Option<InputCommand<'a>> {
        let mut reading = Reading::BEGUN;
        for line in input.split(ends_line) {
            match reading.pass(line) {
                Some(command) if command.time > time => return Some(command),
                _ => {}
            }
        }
        None
    }

    /// The number of commands with this word before the one with this index.
    pub fn count(input: &[u8], place: usize, word: BodyWord) -> u32 {
        let mut reading = Reading::BEGUN;
        let mut count = 0u32;
        for line in input.split(ends_line) {
            match reading.pass(line) {
                Some(command) if command.place >= place => return count,
                Some(command) if command.word == word => count = count.saturating_add(1),
                _ => {}
            }
        }
        count
    }

    /// The word of the command that is the argument with this name, if it has one.
    pub fn argument(&self, name: &str) -> Option<&'a str> {
        argument_named(self.form, self.line, name)
    }
}

/// The progress of reading the lines of an input.
#[derive(Clone, Copy)]
struct Reading {
    script: Option<OpenScript>,
    /// The number of lines.
    number: u32,
    /// The number of commands.
    commands: usize,
    /// The time of the last `at` line.
    time: u32,
}

impl Reading {
    /// Before the first line.
    const BEGUN: Reading = Reading {
        script: None,
        number: 0,
        commands: 0,
        time: 0,
    };

    /// Reads the next line, and returns its command, if it has one.
    fn pass<'a>(&mut self, line: &'a [u8]) -> Option<InputCommand<'a>> {
        self.number = self.number.saturating_add(1);
        if let Some(open) = self.script {
            self.script = after_line(open, line);
            return None;
        }
        let word = body_word(first_word(line))?;
        let form = word.form();
        match word {
            BodyWord::Script => self.script = Some(OpenScript::opened(self.number)),
            BodyWord::At => self.time = time_given(form, line),
            _ => {}
        }
        if is_command(form) {
            Some(self.pass_command(word, form, line))
        } else {
            None
        }
    }

    /// Counts the command of this line, and returns it.
    fn pass_command<'a>(&mut self, word: BodyWord, form: Form, line: &'a [u8]) -> InputCommand<'a>
        ensures place { result.place ≡ self.old.commands }
        ensures time { result.time ≡ self.old.time }
        ensures number { result.number ≡ self.old.number }
    {
        let place = self.commands;
        self.commands = place.saturating_add(1);
        InputCommand {
            number: self.number,
            place,
            time: self.time,
            word,
            line,
            form,
        }
    }
}

/// The time of an `at` line, which has this form.
fn time_given(form: Form, line: &[u8]) -> u32 {
    let given = argument_named(form, line, "TICK").unwrap_or("");
    given.parse::<u32>().unwrap_or(0)
}

/// The number of the line, from 1, of the command with this index, from 0, in an accepted input, if there is one. It
/// allocates nothing.
pub fn line_of_command(input: &[u8], place: usize) -> Option<u32> {
    Some(InputCommand::at(input, place)?.number)
}
