//! The forms of lines, and the words at their arguments' places.
ghost use Rattle.std.specs.Prelude.{◌≡◌, ◌≢◌, IsTrue, IsFalse};

use crate::lines::keywords::{body_word, header_word};
use crate::lines::line::word_at;
use lot_simulation::{Argument, Form, HeaderWord};
use std::fmt;

/// A whole line: its first word, and placeholders for the others.
#[derive(Clone, Copy)]
pub struct Shape<'a> {
    /// The first word.
    pub word: &'a str,
    /// The form of the line.
    pub form: Form,
}

impl fmt::Display for Shape<'_> {
    fn fmt<W: fmt::Write>(&self, f: &mut fmt::Formatter<W>) -> fmt::Result {
        f.write_str(self.word)?;
        for place in 0..self.form.len() {
            let Some((name, _)) = self.form.argument(place) else {
                return Ok(());
            };
            match self.form {
                Form::PerProcessor(_) => {
                    write!(f, " {name}1 .. {name}P, with a number for each processor")?
                }
                _ => write!(f, " {name}")?,
            }
        }
        match self.form {
            Form::Repeated(_) => f.write_str(" .."),
            Form::Naming(_) => f.write_str(" [as NAME]"),
            _ => Ok(()),
        }
    }
}

/// The argument at this index after the first word, from 0, if the line has one. The name of a new ticket has none.
pub fn argument_at(form: Form, place: usize) -> Option<Argument> {
    let (_, argument) = match (form, form.len()) {
        (_, 0) => None,
        (Form::Naming(_), _) => form.argument(place),
        (_, len) => form.argument(place % len),
    }?;
    Some(argument)
}

/// The form in an input that is timed or isn't. Only a timed one has names of tickets.
pub fn form_in(is_timed: bool, form: Form) -> Form
    ensures timed { IsTrue is_timed → result ≡ form }
    ensures other { ((verb : _) → form ≢ Form.Naming verb) → result ≡ form }
    ensures untimed { (verb : _) → IsFalse is_timed → form ≡ Form.Naming verb → result ≡ Form.Command verb }
{
    match form {
        Form::Naming(verb) if !is_timed => Form::Command(verb),
        _ => form,
    }
}

/// Whether a line may have this many words after the first.
pub fn has_room_for(form: Form, count: usize, processors: u32) -> bool {
    let len = form.len();
    match form {
        Form::Once(_) | Form::Command(_) => count == len,
        // With `as` and a name.
        Form::Naming(_) => count == len || count == len.saturating_add(2),
        Form::PerProcessor(_) => count == processors as usize,
        Form::Repeated(_) => count > 0 && len > 0 && count % len == 0,
    }
}

/// The two words after the arguments of a line of this form, if it can name a ticket and has both: `as` and the name.
pub fn words_at_end(form: Form, line: &[u8]) -> Option<(&str, &str)> {
    let Form::Naming(_) = form else {
        return None;
    };
    let place = form.len().saturating_add(1);
    let name = word_at(line, place.saturating_add(1))?;
    Some((word_at(line, place)?, name))
}

/// Whether a line of this form is a command.
pub(crate) fn is_command(form: Form) -> bool {
    match form {
        Form::Command(_) | Form::Naming(_) => true,
        _ => false,
    }
}

/// The index in a line of this form of the argument with this name, where the first word has index 0.
fn place_of(form: Form, name: &str) -> Option<usize> {
    for place in 0..form.len() {
        match form.argument(place) {
            Some((argument, _)) if argument == name => return Some(place.saturating_add(1)),
            _ => {}
        }
    }
    None
}

/// The argument with this name of a line of this form, if the line has that many words.
pub(crate) fn argument_named<'a>(form: Form, line: &'a [u8], name: &str) -> Option<&'a str> {
    word_at(line, place_of(form, name)?)
}

/// The form of a line outside scripts that begins with this word, if lines do.
pub fn form_outside(word: &str) -> Option<Form> {
    match header_word(word) {
        Some(HeaderWord::Lottery) => None,
        Some(word) => Some(word.form()),
        None => Some(body_word(word)?.form()),
    }
}
