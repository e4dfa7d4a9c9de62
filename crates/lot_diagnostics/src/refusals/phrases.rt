//! The words of a line inside a script, one or several, each with its argument.

use crate::lines::{OpenScript, Shape, argument_at, script_word, words_of};
use crate::message::Part;
use crate::refusals::explain::{loop_problem, no_script_word};
use crate::refusals::input::Refused;
use crate::refusals::problem::Problem;
use crate::refusals::word::word_problem;
use std::alloc::Global;

/// The state before the next word of a line.
#[derive(Clone, Copy)]
struct Before<'a> {
    script: Option<OpenScript>,
    /// The shape of the last word, if its argument is still missing.
    unfinished: Option<Shape<'a>>,
}

/// The problem with a refused line inside this script, if there is one.
pub(crate) fn phrases_problem<'a>(
    alloc: Global,
    refused: &Refused<'a>,
    script: OpenScript,
) -> Option<Problem<'a>> {
    let mut before = Before {
        script: Some(script),
        unfinished: None,
    };
    for word in words_of(refused.line) {
        let problem = before.pass(alloc, refused, word);
        if problem.is_some() {
            return problem;
        }
    }
    let shape = Part::Shape(before.unfinished?);
    Some(Problem::of_line("a word is missing at the end: '{}'", &[shape]))
}

impl<'a> Before<'a> {
    /// Takes the next word, and returns the problem with it, if there is one.
    fn pass(&mut self, alloc: Global, refused: &Refused<'a>, word: &'a str) -> Option<Problem<'a>> {
        if let Some(shape) = self.unfinished.take() {
            return argument_problem(alloc, refused, word, shape);
        }
        let Some(script) = self.script else {
            let text = "'{}' stands behind 'endscript', which ends its line";
            return Some(Problem::of_line(text, &[Part::Text(word)]));
        };
        if word.starts_with('#') {
            return Some(Problem::of_line("a comment has a line of its own", &[]));
        }
        let Some(keyword) = script_word(word) else {
            return Some(no_script_word(alloc, refused, script, word));
        };
        self.script = script.after(keyword);
        if !keyword.stands_alone() {
            let form = keyword.form();
            self.unfinished = Some(Shape { word, form });
        }
        loop_problem(script, keyword)
    }
}

/// The problem with a word that must be the argument of the one before it, which has this shape. A word of a script in
/// its place means that the argument is missing.
fn argument_problem<'a>(
    alloc: Global,
    refused: &Refused<'a>,
    word: &'a str,
    shape: Shape<'a>,
) -> Option<Problem<'a>> {
    let problem = word_problem(alloc, refused, shape, argument_at(shape.form, 0)?, word)?;
    if script_word(word).is_none() {
        return Some(problem);
    }
    let text = "a word is missing before '{}': '{}'";
    Some(Problem::of_line(text, &[Part::Text(word), Part::Shape(shape)]))
}
