//! The problem with the refused line, in the order in which the parser finds it: first its bytes, then its first word,
//! then its number of words, then each of them, and then a limit.

use crate::lines::{
    Named, Nearest, OpenScript, Shape, argument_at, body_word, count_words, first_word, form_in,
    form_outside, has_room_for, header_word, is_read, name_numbered, script_word, words_at_end,
    words_of,
};
use crate::message::Part;
use crate::refusals::bytes::byte_problem;
use crate::refusals::header::header_text;
use crate::refusals::input::Refused;
use crate::refusals::phrases::phrases_problem;
use crate::refusals::problem::{Cause, Problem};
use crate::refusals::word::{new_problem, word_problem};
use lot_simulation::{AS_WORD, BodyWord, Format, InputRefusal, ScriptWord};
use std::alloc::Global;

/// The problem with a line that was refused for this reason.
pub(crate) fn problem_of<'a>(
    alloc: Global,
    refused: &Refused<'a>,
    refusal: InputRefusal,
) -> Problem<'a> {
    let word = first_word(refused.line);
    match refusal {
        InputRefusal::OpenScript => {
            let text = "this script isn't closed: 'endscript' closes it";
            Problem::new(Cause::OpenScript, text, &[])
        }
        InputRefusal::TooDeep => {
            Problem::new(Cause::Limit, "a ninth loop is open here, at most 8", &[])
        }
        InputRefusal::BadHeader => {
            Problem::new(
                Cause::Header,
                header_text(refused, word),
                &[Part::Text(word)],
            )
        }
        InputRefusal::TooLong if is_long_input(refused) => {
            Problem::new(Cause::Limit, "the input has more than 16777216 bytes", &[])
        }
        _ => line_problem(alloc, refused, word).unwrap_or(too_many(refused, word, refusal)),
    }
}

/// Whether the input is too long, but not the line. Such a line may be an ignored one.
fn is_long_input(refused: &Refused<'_>) -> bool {
    refused.line.len() <= 4096 && 16777216 < refused.end
}

/// The problem with the bytes or words of a line beginning with this word, if there is one.
fn line_problem<'a>(alloc: Global, refused: &Refused<'a>, word: &'a str) -> Option<Problem<'a>> {
    let problem = byte_problem(refused);
    if problem.is_some() {
        return problem;
    }
    match refused.script {
        Some(script) if refused.is_timed() => phrases_problem(alloc, refused, script),
        Some(script) => script_problem(alloc, refused, script, word),
        None => body_problem(alloc, refused, word),
    }
}

/// The problem with the line of a script, if there is one. The line has one word, since the input isn't timed.
fn script_problem<'a>(
    alloc: Global,
    refused: &Refused<'a>,
    script: OpenScript,
    word: &'a str,
) -> Option<Problem<'a>> {
    let Some(keyword) = script_word(word) else {
        return Some(no_script_word(alloc, refused, script, word));
    };
    if !is_read(refused.format, word) {
        return Some(Problem::new(Cause::Place, ONLY_TIMED, &[Part::Text(word)]));
    }
    let form = keyword.form();
    form_problem(alloc, refused, Shape { word, form }).or(loop_problem(script, keyword))
}

/// The message on a word of timed inputs in another.
const ONLY_TIMED: &str = "'{}' is for 'lottery 3', whose turns come in the order of time";

/// The problem with the end of a loop or of the script, if the word is one of these.
pub(crate) fn loop_problem(script: OpenScript, word: ScriptWord) -> Option<Problem<'static>> {
    let text = match word {
        ScriptWord::End if script.loops == 0 => "'end' closes a loop, and none is open",
        ScriptWord::EndScript if script.loops > 0 => {
            "'endscript' stands inside a loop: 'end' closes it"
        }
        _ => return None,
    };
    Some(Problem::of_line(text, &[]))
}

/// The problem with a word inside a script that isn't a word of scripts.
pub(crate) fn no_script_word<'a>(
    alloc: Global,
    refused: &Refused<'a>,
    script: OpenScript,
    word: &'a str,
) -> Problem<'a> {
    if header_word(word).is_some() || body_word(word).is_some() {
        return Problem::new(
            Cause::Place,
            "'{}' stands outside scripts, and the one that line {} opens isn't closed: 'endscript' closes it",
            &[Part::Text(word), Part::Number(u64::from(script.line))],
        );
    }
    let nearest = Nearest::NONE.or_word(alloc, ScriptWord::table(), refused.is_timed(), word);
    let (text, end) = if needs_list(nearest, word) {
        (
            "'{}' is no word of a script; its words are{}",
            Part::ScriptWords(refused.format),
        )
    } else {
        ("'{}' is no word of a script{}", Part::Nearest(nearest))
    };
    Problem::of_line(text, &[Part::Text(word), end])
}

/// The problem with a line outside scripts.
fn body_problem<'a>(alloc: Global, refused: &Refused<'a>, word: &'a str) -> Option<Problem<'a>> {
    let Some(form) = form_outside(word) else {
        return Some(no_body_word(alloc, refused, word));
    };
    if let Some(text) = format_text(refused.format, word) {
        return Some(Problem::new(Cause::Place, text, &[Part::Text(word)]));
    }
    if !refused.is_timed() && Named::Ticket.given_by(refused.line).is_some() {
        return Some(Problem::new(Cause::Place, ONLY_TIMED, &[Part::Text("as")]));
    }
    let form = form_in(refused.is_timed(), form);
    form_problem(alloc, refused, Shape { word, form })
}

/// The message on a line that begins with this word of the header or the body, if no input of this format has such a
/// line.
fn format_text(format: Format, word: &str) -> Option<&'static str> {
    match body_word(word) {
        Some(BodyWord::Runs) if format == Format::V1 => {
            Some("'runs' is for 'lottery 2': in 'lottery 1' write 'schedule ACTOR ..'")
        }
        Some(BodyWord::Runs | BodyWord::Schedule) if format.is_timed() => Some(
            "'{}' is not for 'lottery 3', whose turns come in the order of time: \
            'at TICK' says when commands are made",
        ),
        _ if is_read(format, word) => None,
        _ => Some(ONLY_TIMED),
    }
}

/// The problem with a line outside scripts whose first word isn't one of the header or the body.
fn no_body_word<'a>(alloc: Global, refused: &Refused<'a>, word: &'a str) -> Problem<'a> {
    if script_word(word).is_some() {
        return Problem::new(
            Cause::Place,
            "'{}' is a word of a script, and no script is open: 'script NAME' opens one",
            &[Part::Text(word)],
        );
    }
    let nearest = Nearest::NONE.or_word(alloc, BodyWord::table(), refused.is_timed(), word);
    let (text, end) = if needs_list(nearest, word) {
        (
            "'{}' is no body line; these begin with{}",
            Part::BodyWords(refused.format),
        )
    } else {
        ("'{}' is no body line{}", Part::Nearest(nearest))
    };
    Problem::of_line(text, &[Part::Text(word), end])
}

/// Whether to list all words in place of this one: none is near, and it begins with a letter, as words do.
fn needs_list(nearest: Nearest<'_>, word: &str) -> bool {
    match (nearest.text(), word.as_bytes().first()) {
        (Some(""), Some(byte)) => byte.is_ascii_alphabetic(),
        _ => false,
    }
}

/// The problem with a line that must have this shape.
fn form_problem<'a>(alloc: Global, refused: &Refused<'a>, shape: Shape<'a>) -> Option<Problem<'a>> {
    let problem = shape_problem(refused, shape).or(argument_problem(alloc, refused, shape));
    if problem.is_some() {
        return problem;
    }
    let (_, name) = words_at_end(shape.form, refused.line)?;
    new_problem(refused, name, Named::Ticket)
}

/// The problem with the number of words of a line that must have this shape, if there is one.
fn shape_problem<'a>(refused: &Refused<'a>, shape: Shape<'a>) -> Option<Problem<'a>> {
    let count = count_words(refused.line).saturating_sub(1);
    if !has_room_for(shape.form, count, refused.processors) {
        return Some(count_problem(refused, shape, count));
    }
    let (word, _) = words_at_end(shape.form, refused.line)?;
    if word.as_bytes() == AS_WORD {
        None
    } else if has_comment(refused.line) {
        Some(comment_problem(shape))
    } else {
        let text = "'{}' stands in the place of 'as': this line is written '{}'";
        Some(Problem::of_line(text, &[Part::Text(word), Part::Shape(shape)]))
    }
}

/// The problem with one of the arguments of a line that has this shape, if there is one.
fn argument_problem<'a>(
    alloc: Global,
    refused: &Refused<'a>,
    shape: Shape<'a>,
) -> Option<Problem<'a>> {
    let mut arguments = words_of(refused.line);
    let _ = arguments.next();
    let mut place = 0usize;
    for word in arguments {
        let argument = argument_at(shape.form, place)?;
        let problem = word_problem(alloc, refused, shape, argument, word);
        if problem.is_some() {
            return problem;
        }
        place = place.saturating_add(1);
    }
    None
}

/// The problem with a line that must have this shape and has this many words after the first.
fn count_problem<'a>(refused: &Refused<'a>, shape: Shape<'a>, count: usize) -> Problem<'a> {
    if has_comment(refused.line) {
        return comment_problem(shape);
    }
    let text = match (count, body_word(shape.word)) {
        (0, _) => "this line is written '{}', and here is 1 word",
        (_, Some(BodyWord::Script)) => {
            "this line is written '{}', and here are {} words: the words of the script begin on the next line"
        }
        _ => "this line is written '{}', and here are {} words",
    };
    let words = (count as u64).saturating_add(1);
    Problem::of_line(text, &[Part::Shape(shape), Part::Number(words)])
}

/// The problem with a comment at the end of a line that must have this shape.
fn comment_problem<'a>(shape: Shape<'a>) -> Problem<'a> {
    let text = "a comment has a line of its own; '{}' has no room for one";
    Problem::of_line(text, &[Part::Shape(shape)])
}

/// Whether one of the line's words begins like a comment.
fn has_comment(line: &[u8]) -> bool {
    words_of(line).any(|word| word.starts_with('#'))
}

/// The limit that a line beginning with this word exceeds, if it has no other problem.
fn too_many<'a>(refused: &Refused<'a>, word: &str, refusal: InputRefusal) -> Problem<'a> {
    if refusal != InputRefusal::TooLong {
        return Problem::new(Cause::Unknown, "{}", &[Part::Refusal(refusal)]);
    }
    let (what, most) = match body_word(word) {
        _ if refused.script.is_some() => ("word of a script", 1024),
        Some(BodyWord::Port) => ("port", 256),
        Some(BodyWord::Mutex) => ("mutex", 256),
        Some(BodyWord::Script) => ("script", 256),
        Some(BodyWord::Schedule | BodyWord::Runs) => ("turn of the schedule", 1000000),
        Some(_) if lacks_room_for_name(refused) => ("name of a ticket", 4096),
        _ => ("command", 100000),
    };
    let parts = [Part::Text(what), Part::Number(most)];
    Problem::new(Cause::Limit, "one {} too many, at most {}", &parts)
}

/// Whether the line names a ticket, and no more tickets can have names.
fn lacks_room_for_name(refused: &Refused<'_>) -> bool {
    Named::Ticket.given_by(refused.line).is_some()
        && name_numbered(refused.before, Named::Ticket, 4096).is_some()
}
