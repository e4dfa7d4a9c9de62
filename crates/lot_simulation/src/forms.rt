//! The forms of an input's lines: the arguments after each line's first word.

use crate::input::BodyWord;
use lot_machine::{Slot, Verb, form_of};

/// The numbers from the first to the last, both included.
#[derive(Clone, Copy, Debug)]
pub struct Range {
    pub first: u32,
    pub last: u32,
}

/// The meaning and range of an argument.
#[derive(Clone, Copy, Debug)]
pub enum Argument {
    Number(Range),
    /// An argument of a command, which only the kernel checks further: an amount, a ticket or a name. A ticket is its
    /// number, or in a timed input the name that an earlier line gave it.
    OfCommand(Slot),
    /// A good name, new among the lines that begin with this word.
    NewName(BodyWord),
    /// A name given by an earlier line that begins with this word.
    KnownName(BodyWord),
    /// The console or a processor.
    Actor,
    /// A time in the range, not before that of an earlier line.
    Time(Range),
    /// The version of the format.
    Version,
    /// What the kernel goes without: `compensation` or `lending`.
    Mechanism,
}

/// The form of a line: the arguments after its first word, each with its name.
#[derive(Clone, Copy, Debug)]
pub enum Form {
    /// Each argument comes once.
    Once(&'static [(&'static str, Argument)]),
    /// A command of the console with this verb: each of its arguments comes once.
    Command(Verb),
    /// A command of the console that makes a ticket: each argument of this verb comes once. In a timed input `as` and
    /// the ticket's name may follow, a good name and new among those of tickets.
    Naming(Verb),
    /// The arguments come once or more, as a group.
    Repeated(&'static [(&'static str, Argument)]),
    /// The arguments come once for each processor.
    PerProcessor(&'static [(&'static str, Argument)]),
}

impl Form {
    /// The number of arguments after the first word, without repetitions.
    pub fn len(self) -> usize {
        match self {
            Form::Command(verb) | Form::Naming(verb) => form_of(verb).len(),
            Form::Once(arguments) | Form::Repeated(arguments) | Form::PerProcessor(arguments) => {
                arguments.len()
            }
        }
    }

    /// The argument at this index after the first word, from 0, with its name, if there are that many without
    /// repetitions.
    pub fn argument(self, place: usize) -> Option<(&'static str, Argument)> {
        match self {
            Form::Command(verb) | Form::Naming(verb) => {
                let (name, slot) = form_of(verb).get(place)?;
                Some((*name, Argument::OfCommand(*slot)))
            }
            Form::Once(arguments) | Form::Repeated(arguments) | Form::PerProcessor(arguments) => {
                let (name, argument) = arguments.get(place)?;
                Some((*name, *argument))
            }
        }
    }
}
