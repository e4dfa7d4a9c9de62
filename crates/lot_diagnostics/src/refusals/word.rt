//! The problem with one word of a line.

use crate::lines::{Named, Shape, is_given, nearest_name};
use crate::message::Part;
use crate::refusals::input::Refused;
use crate::refusals::number::{no_number, number_of};
use crate::refusals::problem::Problem;
use lot_machine::{Slot, is_good_name};
use lot_simulation::{Argument, COMPENSATION_WORD, LENDING_WORD, Range, ranges};
use std::alloc::Global;

/// The amounts that the kernel takes.
const AMOUNTS: Range = Range {
    first: 1,
    last: u32::MAX,
};

/// The problem with a word of the refused line that must be this argument. The line must have this shape.
pub(crate) fn word_problem<'a>(
    alloc: Global,
    refused: &Refused<'a>,
    shape: Shape<'a>,
    argument: Argument,
    word: &'a str,
) -> Option<Problem<'a>> {
    match argument {
        Argument::OfCommand(Slot::Amount) => number_problem(shape, word, AMOUNTS),
        Argument::OfCommand(Slot::Ticket) => ticket_problem(alloc, refused, shape, word),
        Argument::OfCommand(_) => long_name(word),
        Argument::Number(range) => range_problem(word, range),
        Argument::NewName(keyword) => new_problem(refused, word, Named::ByWord(keyword)),
        Argument::KnownName(keyword) => {
            known_problem(alloc, refused, shape, word, Named::ByWord(keyword))
        }
        Argument::Actor => actor_problem(refused, shape, word),
        Argument::Time(range) => range_problem(word, range).or(early_problem(refused, word)),
        Argument::Mechanism => mechanism_problem(word),
        Argument::Version => None,
    }
}

/// The problem with a word that must be a number, which only the kernel checks further: it takes those in this range. A
/// name in its place suggests that the arguments are in a wrong order.
fn number_problem<'a>(shape: Shape<'a>, word: &'a str, range: Range) -> Option<Problem<'a>> {
    if number_of(word).is_some() {
        None
    } else if is_good_name(word.as_bytes()) {
        let text = "'{}' is no number; this line is written '{}'";
        Some(Problem::of_line(text, &[Part::Text(word), Part::Shape(shape)]))
    } else {
        Some(no_number(word, range))
    }
}

fn range_problem(word: &str, range: Range) -> Option<Problem<'_>> {
    match number_of(word) {
        Some(number) if u64::from(range.first) <= number && number <= u64::from(range.last) => None,
        _ => Some(no_number(word, range)),
    }
}

/// The problem with a time earlier than that of an earlier line.
fn early_problem<'a>(refused: &Refused<'a>, word: &'a str) -> Option<Problem<'a>> {
    let before = u64::from(refused.now);
    if before <= number_of(word)? {
        return None;
    }
    let text = "'{}' comes after {}, the time of an earlier 'at': times never fall";
    Some(Problem::of_line(text, &[Part::Text(word), Part::Number(before)]))
}

fn actor_problem<'a>(
    refused: &Refused<'a>,
    shape: Shape<'a>,
    word: &'a str,
) -> Option<Problem<'a>> {
    let last = refused.processors;
    match number_of(word) {
        Some(number) if u64::from(last) < number => {
            let text = "'{}': the last processor is {}, and 0 is the console";
            let last = Part::Number(u64::from(last));
            Some(Problem::of_line(text, &[Part::Text(word), last]))
        }
        _ => number_problem(shape, word, Range { first: 0, last }),
    }
}

fn mechanism_problem(word: &str) -> Option<Problem<'_>> {
    if word.as_bytes() == COMPENSATION_WORD || word.as_bytes() == LENDING_WORD {
        return None;
    }
    let text =
        "'{}' is no mechanism that can be left out: write 'compensation' or 'lending', and a line for each";
    Some(Problem::of_line(text, &[Part::Text(word)]))
}

fn long_name(word: &str) -> Option<Problem<'_>> {
    if word.len() <= 16 {
        return None;
    }
    let text = "'{}' has {} bytes, and a name at most 16";
    let count = Part::Number(word.len() as u64);
    Some(Problem::of_line(text, &[Part::Text(word), count]))
}

/// The problem with a word that must be a ticket: its number, or in a timed input a name that an earlier line gave.
fn ticket_problem<'a>(
    alloc: Global,
    refused: &Refused<'a>,
    shape: Shape<'a>,
    word: &'a str,
) -> Option<Problem<'a>> {
    if !refused.is_timed() || begins_with_digit(word) {
        return number_problem(shape, word, ranges::TICKETS);
    }
    if !is_good_name(word.as_bytes()) {
        let text = "'{}' is no ticket: it has a number, or a name that 'as' gave it";
        return Some(Problem::of_line(text, &[Part::Text(word)]));
    }
    known_problem(alloc, refused, shape, word, Named::Ticket)
}

fn begins_with_digit(word: &str) -> bool {
    match word.as_bytes().first() {
        Some(byte) => byte.is_ascii_digit(),
        None => false,
    }
}

/// The problem with a word that must be a new name of this kind.
pub(crate) fn new_problem<'a>(
    refused: &Refused<'a>,
    word: &'a str,
    kind: Named,
) -> Option<Problem<'a>> {
    let problem = long_name(word);
    if problem.is_some() {
        return problem;
    }
    let text = if !is_good_name(word.as_bytes()) {
        "'{}' is no name: a letter a to z, and then letters a to z, digits, '_' or '-'"
    } else if is_given(refused.before, kind, word) {
        "'{}' is the name of an earlier {}"
    } else {
        return None;
    };
    Some(Problem::of_line(text, &[Part::Text(word), Part::Text(kind.text())]))
}

/// The problem with a word that must be a name of this kind on an earlier line. An unknown name in place of a ticket
/// suggests that the arguments are in a wrong order.
fn known_problem<'a>(
    alloc: Global,
    refused: &Refused<'a>,
    shape: Shape<'a>,
    word: &'a str,
    kind: Named,
) -> Option<Problem<'a>> {
    let problem = long_name(word);
    if problem.is_some() || is_given(refused.before, kind, word) {
        return problem;
    }
    let nearest = nearest_name(alloc, refused.before, &[kind], word);
    let (text, end) = match kind {
        Named::Ticket if nearest.text().unwrap_or("").is_empty() => (
            "'{}' is no {} of an earlier line; this line is written '{}'",
            Part::Shape(shape),
        ),
        _ => ("'{}' is no {} of an earlier line{}", Part::Nearest(nearest)),
    };
    let parts = [Part::Text(word), Part::Text(kind.text()), end];
    Some(Problem::of_line(text, &parts))
}
