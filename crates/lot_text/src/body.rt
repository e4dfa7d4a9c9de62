//! Lines of the body.
ghost use Rattle.std.specs.Prelude.{◌≡◌, ℕ, ◌≤◌, All, IfOk, MatchResult, Ok};
ghost use Rattle.lot_simulation.specs.Grammar.{body_after_header, script_names};
ghost use Rattle.lot_simulation.specs.Reading.{actor_below as actor_read, each, new_name as new_name_read};
ghost use Rattle.lot_text.specs.Faults.{Fails, Gives};
ghost use Rattle.lot_text.specs.Readings.{after_header, pairs_added};

use crate::commands::command_line;
use crate::fault::LineFault;
use crate::name::{any_name, only_new_name};
use crate::number::{actor_below, number_in};
use crate::reading::{BODY, MOST_ENTRIES, OpenScript, Reading};
use crate::runs::read_runs;
use crate::tokens::Tokens;
use lot_machine::{Name, Sizes, is_good_name};
use lot_script::ScriptBuilder;
use lot_simulation::{BodyWord, InputRefusal, Range, ranges};
use std::alloc::Global;

/// A line of the body, which ends the header.
pub(crate) fn body_line(
    alloc: Global,
    number: u32,
    reading: &mut Reading,
    word: BodyWord,
    tokens: Tokens<'_>,
) -> Result<(), LineFault>
    ensures { Gives reading.new result (body_after_header number reading.old word tokens.entry) }
{
    match word {
        BodyWord::Port => port(reading, tokens),
        BodyWord::Mutex => mutex(reading, tokens),
        BodyWord::Script => open_script(alloc, number, reading, tokens),
        BodyWord::Command(verb) => command_line(reading, verb, tokens),
        BodyWord::Schedule => schedule(alloc, reading, tokens),
        BodyWord::Runs => runs(alloc, reading, tokens),
        BodyWord::At => at(reading, tokens),
    }
}

/// `port NAME`
fn port(reading: &mut Reading, tokens: Tokens<'_>) -> Result<(), LineFault>
    ensures { (n : ℕ) → Gives reading.new result (body_after_header n reading.old BodyWord.Port tokens.entry) }
{
    let most = Sizes::LARGEST.ports as usize;
    let name = only_new_name(reading.ports.as_slice(), most, tokens)?;
    reading.ports.push(name)?;
    reading.place = BODY;
    Ok(())
}

/// `mutex NAME`
fn mutex(reading: &mut Reading, tokens: Tokens<'_>) -> Result<(), LineFault>
    ensures { (n : ℕ) → Gives reading.new result (body_after_header n reading.old BodyWord.Mutex tokens.entry) }
{
    let most = Sizes::LARGEST.mutexes as usize;
    let name = only_new_name(reading.mutexes.as_slice(), most, tokens)?;
    reading.mutexes.push(name)?;
    reading.place = BODY;
    Ok(())
}

/// `script NAME`
fn open_script(
    alloc: Global,
    number: u32,
    reading: &mut Reading,
    tokens: Tokens<'_>,
) -> Result<(), LineFault>
    ensures { Gives reading.new result (body_after_header number reading.old BodyWord.Script tokens.entry) }
{
    let token = tokens.only()?;
    let name = new_script_name(reading, token)?;
    if Sizes::LARGEST.scripts as usize <= reading.scripts.len() {
        return Err(LineFault::Refused(InputRefusal::TooLong));
    }
    reading.unclosed = Some(OpenScript {
        name,
        begins: number,
        builder: ScriptBuilder::new(alloc),
    });
    reading.place = BODY;
    Ok(())
}

/// The name of a new script: a good one that no other has.
fn new_script_name(reading: &Reading, token: &[u8]) -> Result<Name, InputRefusal>
    ensures { result ≡ new_name_read (script_names reading.now) token.now }
{
    let name = any_name(token)?;
    if !is_good_name(token) || reading.script_number(token) != 0 {
        return Err(InputRefusal::BadLine);
    }
    Ok(name)
}

/// `at TICK`: the time of the commands after it
fn at(reading: &mut Reading, tokens: Tokens<'_>) -> Result<(), LineFault>
    ensures { (n : ℕ) → Gives reading.new result (body_after_header n reading.old BodyWord.At tokens.entry) }
{
    let tick = tokens.only()?;
    let later = Range {
        first: reading.time,
        last: ranges::TICK.last,
    };
    reading.time = number_in(later, tick)?;
    reading.place = BODY;
    Ok(())
}

/// `schedule ACTOR ..`
fn schedule(alloc: Global, reading: &mut Reading, tokens: Tokens<'_>) -> Result<(), LineFault>
    ensures { (n : ℕ) → Gives reading.new result (body_after_header n reading.old BodyWord.Schedule tokens.entry) }
{
    if tokens.has_len(0) || reading.format.is_timed() {
        return Err(LineFault::Refused(InputRefusal::BadLine));
    }
    let actors = read_actors(alloc, reading.processors, tokens)?;
    if MOST_ENTRIES - reading.schedule.len() < actors.len() {
        return Err(LineFault::Refused(InputRefusal::TooLong));
    }
    reading.schedule.extend_from_slice(actors.as_slice())?;
    reading.place = BODY;
    Ok(())
}

/// Each token as an actor, from left to right.
fn read_actors(alloc: Global, processors: u32, mut tokens: Tokens<'_>) -> Result<Vec<u8>, LineFault>
    requires { processors ≤ 64 }
    ensures actors { IfOk result (λ actors. All (λ actor. actor ≤ processors) actors.items) }
    ensures read { MatchResult result (λ actors. each (actor_read processors) tokens.entry ≡ Ok actors.items)
        (λ fault. Fails fault (each (actor_read processors) tokens.entry)) }
{
    let mut actors = Vec::with_capacity(alloc, tokens.most())?;
    while let Some(token) = tokens.next_token() {
        actors.push(actor_below(processors, token)?)?;
    }
    Ok(actors)
}

/// `runs ACTOR TURNS ..`, in an input of `lottery 2`
fn runs(alloc: Global, reading: &mut Reading, tokens: Tokens<'_>) -> Result<(), LineFault>
    ensures { (n : ℕ) → Gives reading.new result (body_after_header n reading.old BodyWord.Runs tokens.entry) }
{
    if tokens.has_len(0) || !reading.format.has_runs() || !tokens.are_pairs() {
        return Err(LineFault::Refused(InputRefusal::BadLine));
    }
    add_pairs(alloc, reading, tokens)
}

/// Adds each pair of tokens to the schedule as a run.
fn add_pairs(alloc: Global, reading: &mut Reading, tokens: Tokens<'_>) -> Result<(), LineFault>
    ensures { Gives reading.new result (after_header (pairs_added reading.old tokens.entry)) }
{
    let runs = read_runs(alloc, reading.processors, tokens)?;
    reading.add_runs(alloc, runs.as_slice())
}
