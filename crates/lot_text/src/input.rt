//! Reading an input from its bytes.
ghost use Rattle.std.specs.Prelude.{◌≡◌, ◌<◌, ◌≤◌, ◌∷◌, drop, false, length, OnOk, IfErr, IfOk, Ok};
ghost use Rattle.lot_simulation.specs.Grammar.{program_in, header_words_of, body_words_of, phrases_of};
ghost use Rattle.lot_simulation.specs.Grammar.{begins_timed as begins_timed_read, fitting_line as fitting_line_read};
ghost use Rattle.lot_simulation.specs.Grammar.{later_line as later_line_read, line_inside as line_inside_read};
ghost use Rattle.lot_simulation.specs.Grammar.{line_outside as line_outside_read, phrase_inside as phrase_inside_read};
ghost use Rattle.lot_simulation.specs.Grammar.{phrases_inside as phrases_inside_read, read_line as read_line_read};
ghost use Rattle.lot_simulation.specs.Grammar.{separators_of as separators_read};
ghost use Rattle.lot_simulation.specs.Lines as lines;
ghost use Rattle.lot_simulation.specs.Seeded.{seeded};
ghost use Rattle.lot_simulation.specs.Words.{word_in, script_words};
ghost use Rattle.lot_text.specs.Faults.{Gives, IsFaultOf};
ghost use Rattle.lot_text.specs.Readings.{argument_count, phrase_at, within_script};

use crate::ParseFault;
use crate::body::body_line;
use crate::fault::LineFault;
use crate::header::{first_line, header_line};
use crate::reading::{OpenScript, Reading};
use crate::script_lines::script_line;
use crate::tokens::{Tokens, begins_comment, is_ignored, line_len};
use lot_program::{Program, Seed};
use lot_simulation::{
    BodyWord, FIRST_WORD, Format, HeaderWord, InputFault, InputRefusal, ScriptWord, Separators,
};
use std::alloc::Global;

/// The program in the bytes of an input. Fails with the first faulty line and its first fault, or with `Memory` if out
/// of memory.
pub fn parse(alloc: Global, bytes: &[u8]) -> Result<Program, ParseFault>
    ensures program { IfOk result (λ program. program_in bytes.now ≡ Ok program) }
    ensures fault { IfErr result (IsFaultOf (program_in bytes.now)) }
{
    let mut reading = None;
    let mut rest = bytes;
    let mut number = 0u32;
    let mut end = 0;
    while !rest.is_empty() {
        let len = line_len(rest);
        let whole = (len + 1).min(rest.len());
        end += whole;
        number += 1;
        match read_line(alloc, &mut reading, number, end, &rest[..len]) {
            Ok(()) => rest = &rest[whole..],
            Err(fault) => return Err(fault.on_line(number)),
        }
    }
    match reading {
        Some(reading) => reading.into_program(alloc, number.max(1)),
        None => Err(ParseFault::Input(InputFault {
            line: number.max(1),
            refusal: InputRefusal::BadHeader,
        })),
    }
}

/// Like `parse`, but with the seeds computed from `seed`, if one is given, in place of the input's own. It fails like
/// `parse`.
pub fn parse_seeded(alloc: Global, seed: Option<Seed>, bytes: &[u8]) -> Result<Program, ParseFault>
    ensures program { IfOk result (λ program. seeded seed (program_in bytes.now) ≡ Ok program) }
    ensures fault { IfErr result (IsFaultOf (seeded seed (program_in bytes.now))) }
{
    let program = parse(alloc, bytes)?;
    match program.with_seed(alloc, seed) {
        Ok(program) => Ok(program),
        Err(_) => Err(ParseFault::Memory),
    }
}

/// Reads the line with this number. The input has `end` bytes up to the line's end.
fn read_line(
    alloc: Global,
    reading: &mut Option<Reading>,
    number: u32,
    end: usize,
    line: &[u8],
) -> Result<(), LineFault>
    ensures within { OnOk result (end ≤ 16777216) }
    ensures read { Gives reading.new result (read_line_read number end reading.old line.now) }
{
    if 4096 < line.len() || 16777216 < end {
        return Err(LineFault::Refused(InputRefusal::TooLong));
    }
    let separators = separators_of(reading, line);
    fitting_line(alloc, reading, number, separators, line)
}

/// The separators in the line, which are those of its input.
fn separators_of(reading: &Option<Reading>, line: &[u8]) -> Separators
    ensures { result ≡ separators_read reading.now line.now }
{
    match reading {
        Some(reading) => reading.format.separators(),
        None if begins_timed(line) => Separators::Blanks,
        None => Separators::Spaces,
    }
}

/// Whether the line, which isn't ignored, begins a timed input.
fn begins_timed(line: &[u8]) -> bool
    ensures { result ≡ begins_timed_read line.now }
{
    let Some(mut tokens) = Tokens::of_line(Separators::Blanks, line) else {
        return false;
    };
    let Some(word) = tokens.next_token() else {
        return false;
    };
    match tokens.only() {
        Ok(b"3") => word == FIRST_WORD,
        _ => false,
    }
}

/// Reads the line with this number, which isn't too long. These bytes separate its tokens.
fn fitting_line(
    alloc: Global,
    reading: &mut Option<Reading>,
    number: u32,
    separators: Separators,
    line: &[u8],
) -> Result<(), LineFault>
    ensures { Gives reading.new result (fitting_line_read number reading.old separators line.now
        (lines.is_ignored (lines.tokens_of separators line.now))) }
{
    let Some(mut tokens) = Tokens::of_line(separators, line) else {
        if is_ignored(separators, line) {
            return Ok(());
        }
        return Err(LineFault::Refused(InputRefusal::BadLine));
    };
    let Some(word) = tokens.next_token() else {
        return Ok(());
    };
    if begins_comment(word) {
        return Ok(());
    }
    match reading {
        None => *reading = Some(first_line(alloc, word, tokens)?),
        Some(reading) => later_line(alloc, number, reading, word, tokens)?,
    }
    Ok(())
}

/// A line after the first, by its first token.
fn later_line(
    alloc: Global,
    number: u32,
    reading: &mut Reading,
    word: &[u8],
    tokens: Tokens<'_>,
) -> Result<(), LineFault>
    ensures { Gives reading.new result (later_line_read number reading.old reading.old.unclosed word.now tokens.entry) }
{
    if reading.format.is_timed() && reading.unclosed.is_some() {
        return phrases_inside(reading, word, tokens);
    }
    match reading.unclosed.take() {
        Some(script) => line_inside(reading, script, word, tokens),
        None => line_outside(alloc, number, reading, word, tokens),
    }
}

/// A line inside a script that has one word with its arguments.
fn line_inside(
    reading: &mut Reading,
    script: OpenScript,
    word: &[u8],
    tokens: Tokens<'_>,
) -> Result<(), LineFault>
    requires room { length reading.old.scripts < 256 }
    requires untimed { reading.old.is_timed ≡ false }
    ensures { Gives reading.new result (line_inside_read (within_script reading.old script) script
        (word_in script_words word.now) tokens.entry) }
{
    match ScriptWord::of_token(reading.format, word) {
        Some(word) => script_line(reading, script, word, tokens),
        None => Err(LineFault::Refused(InputRefusal::BadLine)),
    }
}

/// Reads the words of a line inside a script, from left to right, each with its argument, if it takes one.
fn phrases_inside(
    reading: &mut Reading,
    first: &[u8],
    mut tokens: Tokens<'_>,
) -> Result<(), LineFault>
    ensures { Gives reading.new result (phrases_inside_read reading.old (phrases_of (first.now ∷ tokens.entry))) }
{
    let mut word = first;
    loop {
        phrase_inside(reading, word, &mut tokens)?;
        match tokens.next_token() {
            Some(next) => word = next,
            None => return Ok(()),
        }
    }
}

/// A word of a line inside a script, with its argument, if it takes one.
fn phrase_inside(
    reading: &mut Reading,
    word: &[u8],
    tokens: &mut Tokens<'_>,
) -> Result<(), LineFault>
    ensures read { Gives reading.new result (phrase_inside_read reading.old reading.old.unclosed
        (phrase_at word.now tokens.old)) }
    ensures left { OnOk result (tokens.new ≡ drop (argument_count word.now) tokens.old) }
{
    let Some(script) = reading.unclosed.take() else {
        return Err(LineFault::Refused(InputRefusal::BadLine));
    };
    let Some(word) = ScriptWord::of_token(Format::V3, word) else {
        return Err(LineFault::Refused(InputRefusal::BadLine));
    };
    if word.stands_alone() {
        return script_line(reading, script, word, Tokens::empty());
    }
    script_line(reading, script, word, tokens.next_alone())
}

/// A line outside scripts.
fn line_outside(
    alloc: Global,
    number: u32,
    reading: &mut Reading,
    word: &[u8],
    tokens: Tokens<'_>,
) -> Result<(), LineFault>
    ensures { Gives reading.new result (line_outside_read number reading.old
        (word_in (header_words_of reading.old) word.now) (word_in (body_words_of reading.old) word.now) tokens.entry) }
{
    // No word begins a line of both, and most lines are of the body.
    match BodyWord::of_token(reading.format, word) {
        Some(_) if reading.lacks_duration() => Err(LineFault::Refused(InputRefusal::BadHeader)),
        Some(word) => body_line(alloc, number, reading, word, tokens),
        None => match HeaderWord::of_token(reading.format, word) {
            Some(word) => header_line(alloc, reading, word, tokens),
            None => Err(LineFault::Refused(InputRefusal::BadLine)),
        },
    }
}
