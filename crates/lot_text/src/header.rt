//! Lines of the header.
ghost use Rattle.std.specs.Prelude.{◌≡◌, ◌<◌, ◌∷◌, false, length, IfOk, MatchResult, None, Ok};
ghost use Rattle.lot_simulation.specs.Grammar.{first_line as first_line_read, header_in_order, is_late};
ghost use Rattle.lot_simulation.specs.Grammar.{header_line as header_line_read, option_line};
ghost use Rattle.lot_simulation.specs.Reading.{each, number_between as number_read};
ghost use Rattle.lot_text.specs.Faults.{Fails, Gives};
ghost use Rattle.lot_program.specs.Parts.{AreSeeds};

use crate::fault::LineFault;
use crate::number::{number_in, only_number};
use crate::reading::Reading;
use crate::tokens::Tokens;
use lot_simulation::{
    COMPENSATION_WORD, FIRST_WORD, Format, HeaderWord, InputRefusal, LENDING_WORD, Options, ranges,
};
use std::alloc::Global;

/// The first line that isn't ignored, which gives the format: `lottery 1`, `lottery 2` or `lottery 3`.
pub(crate) fn first_line(
    alloc: Global,
    word: &[u8],
    tokens: Tokens<'_>,
) -> Result<Reading, LineFault>
    ensures { MatchResult result (λ reading. first_line_read (word.now ∷ tokens.entry) ≡ Ok reading)
        (λ fault. Fails fault (first_line_read (word.now ∷ tokens.entry))) }
{
    let Ok(version) = tokens.only() else {
        return Err(LineFault::Refused(InputRefusal::BadHeader));
    };
    match Format::of_word(version) {
        Some(format) if word == FIRST_WORD => Ok(Reading::new(alloc, format)),
        _ => Err(LineFault::Refused(InputRefusal::BadHeader)),
    }
}

/// A later line of the header, whose word mustn't come too late.
pub(crate) fn header_line(
    alloc: Global,
    reading: &mut Reading,
    word: HeaderWord,
    tokens: Tokens<'_>,
) -> Result<(), LineFault>
    ensures { Gives reading.new result (header_in_order reading.old word tokens.entry) }
{
    if reading.is_late(word) {
        return Err(LineFault::Refused(InputRefusal::BadHeader));
    }
    header_arguments(alloc, reading, word, tokens)?;
    reading.add_header_word(word)?;
    Ok(())
}

/// The arguments of a header line that doesn't come too late.
fn header_arguments(
    alloc: Global,
    reading: &mut Reading,
    word: HeaderWord,
    tokens: Tokens<'_>,
) -> Result<(), LineFault>
    requires { is_late reading.old word ≡ false }
    ensures { Gives reading.new result (header_line_read reading.old word tokens.entry) }
{
    match word {
        HeaderWord::Processors => read_processors(reading, tokens),
        HeaderWord::Quantum => read_quantum(reading, tokens),
        HeaderWord::Turns => read_turns(reading, tokens),
        HeaderWord::For => read_duration(reading, tokens),
        HeaderWord::Seed => read_seed(alloc, reading, tokens),
        HeaderWord::Limits => read_limits(reading, tokens),
        HeaderWord::Without => read_without(reading, tokens),
        _ => {
            let chosen = reading.options.with_word(word);
            read_option(reading, chosen, tokens)
        }
    }
}

/// `processors P`, before the seeds and the schedule
fn read_processors(reading: &mut Reading, tokens: Tokens<'_>) -> Result<(), LineFault>
    requires unseeded { reading.old.seeds ≡ None }
    requires early { reading.old.place < 1 }
    ensures { Gives reading.new result (header_line_read reading.old HeaderWord.Processors tokens.entry) }
{
    reading.processors = only_number(ranges::PROCESSORS, tokens)?;
    Ok(())
}

/// `quantum Q`
fn read_quantum(reading: &mut Reading, tokens: Tokens<'_>) -> Result<(), LineFault>
    ensures { Gives reading.new result (header_line_read reading.old HeaderWord.Quantum tokens.entry) }
{
    reading.quantum = only_number(ranges::QUANTUM, tokens)?;
    Ok(())
}

/// `turns T`
fn read_turns(reading: &mut Reading, tokens: Tokens<'_>) -> Result<(), LineFault>
    ensures { Gives reading.new result (header_line_read reading.old HeaderWord.Turns tokens.entry) }
{
    reading.turns = only_number(ranges::TURNS, tokens)?;
    Ok(())
}

/// `for TICKS`, in a timed input
fn read_duration(reading: &mut Reading, tokens: Tokens<'_>) -> Result<(), LineFault>
    ensures { Gives reading.new result (header_line_read reading.old HeaderWord.For tokens.entry) }
{
    let duration = tokens.only()?;
    if !reading.format.is_timed() {
        return Err(LineFault::Refused(InputRefusal::BadLine));
    }
    reading.duration = Some(number_in(ranges::DURATION, duration)?);
    Ok(())
}

/// `seed S1 .. SP`, one for each processor
fn read_seed(alloc: Global, reading: &mut Reading, tokens: Tokens<'_>) -> Result<(), LineFault>
    ensures { Gives reading.new result (header_line_read reading.old HeaderWord.Seed tokens.entry) }
{
    if !tokens.has_len(reading.processors as usize) {
        return Err(LineFault::Refused(InputRefusal::BadLine));
    }
    reading.seeds = Some(read_seeds(alloc, tokens)?);
    Ok(())
}

/// Each token as a seed, from left to right.
fn read_seeds(alloc: Global, mut tokens: Tokens<'_>) -> Result<Vec<u32>, LineFault>
    ensures seeds { IfOk result (λ seeds. AreSeeds (length tokens.entry) seeds.items) }
    ensures read { MatchResult result (λ seeds. each (number_read 1 2147483646) tokens.entry ≡ Ok seeds.items)
        (λ fault. Fails fault (each (number_read 1 2147483646) tokens.entry)) }
{
    let mut seeds = Vec::new(alloc);
    while let Some(token) = tokens.next_token() {
        seeds.push(number_in(ranges::SEED, token)?)?;
    }
    Ok(seeds)
}

/// `limits TICKETS CURRENCIES THREADS`
fn read_limits(reading: &mut Reading, mut tokens: Tokens<'_>) -> Result<(), LineFault>
    ensures { Gives reading.new result (header_line_read reading.old HeaderWord.Limits tokens.entry) }
{
    let tickets = tokens.expected()?;
    let currencies = tokens.expected()?;
    let threads = tokens.only()?;
    let tickets = number_in(ranges::TICKETS, tickets)?;
    let currencies = number_in(ranges::CURRENCIES, currencies)?;
    let threads = number_in(ranges::THREADS, threads)?;
    reading.tickets = tickets;
    reading.currencies = currencies;
    reading.threads = threads;
    Ok(())
}

/// A word alone that chooses these options, if it chooses any, in a timed input.
fn read_option(
    reading: &mut Reading,
    chosen: Option<Options>,
    tokens: Tokens<'_>,
) -> Result<(), LineFault>
    ensures { Gives reading.new result (option_line reading.old tokens.entry chosen) }
{
    tokens.none()?;
    let Some(options) = chosen else {
        return Err(LineFault::Refused(InputRefusal::BadLine));
    };
    if !reading.format.is_timed() {
        return Err(LineFault::Refused(InputRefusal::BadLine));
    }
    reading.options = options;
    Ok(())
}

/// `without compensation` or `without lending`, each at most once, in a timed input
fn read_without(reading: &mut Reading, tokens: Tokens<'_>) -> Result<(), LineFault>
    ensures { Gives reading.new result (header_line_read reading.old HeaderWord.Without tokens.entry) }
{
    let mechanism = tokens.only()?;
    if !reading.format.is_timed() {
        return Err(LineFault::Refused(InputRefusal::BadLine));
    }
    if mechanism == COMPENSATION_WORD {
        if reading.options.without_compensation {
            return Err(LineFault::Refused(InputRefusal::BadHeader));
        }
        reading.options.without_compensation = true;
        return Ok(());
    }
    if mechanism == LENDING_WORD {
        if reading.options.without_lending {
            return Err(LineFault::Refused(InputRefusal::BadHeader));
        }
        reading.options.without_lending = true;
        return Ok(());
    }
    Err(LineFault::Refused(InputRefusal::BadLine))
}
