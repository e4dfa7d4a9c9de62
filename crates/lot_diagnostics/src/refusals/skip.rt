//! Whether a caller can skip a refused line, since its fault has no consequences for other lines.
ghost use Rattle.std.specs.Prelude.{◌≢◌, IsFalse};

use crate::lines::{
    Nearest, body_word, count_words, first_word, form_outside, header_word, script_word, words_of,
};
use crate::refusals::input::Refused;
use crate::refusals::problem::Cause;
use lot_machine::form_of;
use lot_simulation::{AS_WORD, BodyWord, Form, HeaderWord, ScriptWord};
use std::alloc::Global;
use std::str;

/// Whether a caller can skip the refused line, given the cause of its problem: only one that the line alone causes.
pub(crate) fn can_be_skipped(alloc: Global, refused: &Refused<'_>, cause: Cause) -> bool
    ensures start { IsFalse refused.entry.now.has_start → IsFalse result }
    ensures others { cause ≢ Cause.Line → IsFalse result }
{
    // The words of a line that isn't UTF-8 are unknown.
    let is_text = str::from_utf8(refused.line).is_ok();
    match (cause, refused.script) {
        (Cause::Line, Some(_)) if refused.has_start && is_text => can_skip_steps(alloc, refused),
        (Cause::Line, None) if refused.has_start && is_text => can_skip_body_line(alloc, refused),
        _ => false,
    }
}

/// Whether a caller can skip a line outside scripts, by its first word.
fn can_skip_body_line(alloc: Global, refused: &Refused<'_>) -> bool {
    let word = first_word(refused.line);
    let is_timed = refused.is_timed();
    let nearest = Nearest::NONE
        .or_word(alloc, BodyWord::table(), is_timed, word)
        .or_word(alloc, HeaderWord::table(), is_timed, word)
        .or_word(alloc, ScriptWord::table(), is_timed, word);
    match nearest.text() {
        Some(meant) => {
            let is_elsewhere = header_word(meant).is_some() || script_word(meant).is_some();
            let is_needed = others_depend_on(meant) || may_name_ticket(refused, meant);
            is_plain(word) && !is_elsewhere && !is_needed
        }
        None => false,
    }
}

/// Whether a caller can skip a line inside a script, by its words up to a comment.
fn can_skip_steps(alloc: Global, refused: &Refused<'_>) -> bool {
    let mut is_argument = false;
    for word in words_of(refused.line) {
        if word.starts_with('#') {
            return true;
        }
        if is_argument {
            if others_depend_on(word) {
                return false;
            }
            is_argument = false;
        } else {
            let Some(is_followed) = has_argument(alloc, refused.is_timed(), word) else {
                return false;
            };
            is_argument = is_followed;
        }
    }
    true
}

/// Whether this word of a script, or the word that it misspells, takes an argument. `None` if the word prevents
/// skipping the line, or if out of memory.
fn has_argument(alloc: Global, is_timed: bool, word: &str) -> Option<bool> {
    let nearest = Nearest::NONE
        .or_word(alloc, ScriptWord::table(), is_timed, word)
        .or_word(alloc, BodyWord::table(), is_timed, word);
    match nearest.text() {
        Some(meant) if is_plain(word) && !others_depend_on(meant) => Some(takes_argument(meant)),
        _ => None,
    }
}

/// Whether the line, meant to begin with this word, may name a ticket. Lines after it may use the name.
fn may_name_ticket(refused: &Refused<'_>, meant: &str) -> bool {
    let Some(Form::Naming(verb)) = form_outside(meant) else {
        return false;
    };
    let has_as = words_of(refused.line).any(|word| word.as_bytes() == AS_WORD);
    let is_longer = count_words(refused.line) > form_of(verb).len().saturating_add(1);
    refused.is_timed() && (has_as || is_longer)
}

/// Whether an input may have each byte of the word. Otherwise it may be several words, separated by a space that isn't
/// ASCII.
fn is_plain(word: &str) -> bool {
    word.bytes().all(|byte| byte.is_ascii_graphic())
}

/// Whether this word of a script takes an argument.
fn takes_argument(word: &str) -> bool {
    match script_word(word) {
        Some(keyword) => !keyword.stands_alone(),
        None => false,
    }
}

/// Whether other lines depend on one with this word, since it opens or closes a script or a loop, or declares a name.
fn others_depend_on(word: &str) -> bool {
    match (script_word(word), body_word(word)) {
        (Some(ScriptWord::Loop | ScriptWord::End | ScriptWord::EndScript), _) => true,
        (_, Some(BodyWord::Script | BodyWord::Port | BodyWord::Mutex)) => true,
        _ => false,
    }
}
