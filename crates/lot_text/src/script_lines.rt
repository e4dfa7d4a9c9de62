//! Lines of scripts.
ghost use Rattle.std.specs.Prelude.{◌≡◌, ◌<◌, [], ◌∷◌, length, map, IfOk};
ghost use Rattle.lot_simulation.specs.Grammar.{argument_number as argument_number_read, numbered_line};
ghost use Rattle.lot_simulation.specs.Grammar.{only_argument as only_argument_read, script_line as script_line_read};
ghost use Rattle.lot_simulation.specs.Words.{arguments_of};
ghost use Rattle.lot_script.specs.Drafts.{CanNest, IsLine};
ghost use Rattle.lot_text.specs.Faults.{Gives};
ghost use Rattle.lot_text.specs.LineArguments.{Fits};
ghost use Rattle.lot_text.specs.Readings.{line_added, within_script};

use crate::fault::LineFault;
use crate::name::known_name;
use crate::number::number_in;
use crate::reading::{NamedScript, OpenScript, Reading};
use crate::tokens::Tokens;
use lot_machine::TrapWord;
use lot_script::ScriptBuilder;
use lot_simulation::{Argument, BodyWord, InputRefusal, ScriptLine, ScriptWord};

/// A line of this script, which stays open until `endscript`.
pub(crate) fn script_line(
    reading: &mut Reading,
    script: OpenScript,
    word: ScriptWord,
    tokens: Tokens<'_>,
) -> Result<(), LineFault>
    requires { length reading.old.scripts < 256 }
    ensures { Gives reading.new result (script_line_read (within_script reading.old script) script word tokens.entry) }
{
    let number = only_argument(reading, word.arguments(), tokens)?;
    numbered(reading, script, word, number)
}

/// A line with this word and the number that its argument gives.
fn numbered(
    reading: &mut Reading,
    script: OpenScript,
    word: ScriptWord,
    number: u32,
) -> Result<(), LineFault>
    requires room { length reading.old.scripts < 256 }
    requires fits { Fits (arguments_of word) number }
    ensures { Gives reading.new result (numbered_line (within_script reading.old script) script word number) }
{
    match word {
        ScriptWord::Compute => add_line(reading, script, ScriptLine::Compute(number)),
        ScriptWord::Set => add_line(reading, script, ScriptLine::Set(number)),
        ScriptWord::Add => add_line(reading, script, ScriptLine::Add(number)),
        ScriptWord::Loop => begin_loop(reading, script, number),
        ScriptWord::End => end_loop(reading, script),
        ScriptWord::Trap(word) => trap(reading, script, word, number),
        ScriptWord::EndScript => end_script(reading, script),
    }
}

/// The number that the tokens give a word of a script with these arguments, or that of the port or mutex that they
/// name; 0 if it takes none.
fn only_argument(
    reading: &Reading,
    arguments: &[(&str, Argument)],
    tokens: Tokens<'_>,
) -> Result<u32, InputRefusal>
    ensures fits { IfOk result (Fits (map (λ argument. argument.1) arguments.now)) }
    ensures read { result ≡ only_argument_read reading.now.ports reading.now.mutexes
        (map (λ argument. argument.1) arguments.now) tokens.entry }
{
    match arguments {
        [] => {
            tokens.none()?;
            Ok(0)
        }
        [(_, argument)] => argument_number(reading, *argument, tokens.only()?),
        _ => Err(InputRefusal::BadLine),
    }
}

/// The number that this argument means, or that of the port or mutex that it names.
fn argument_number(reading: &Reading, argument: Argument, token: &[u8]) -> Result<u32, InputRefusal>
    ensures fits { IfOk result (Fits (argument ∷ [])) }
    ensures read { result
        ≡ argument_number_read reading.now.ports reading.now.mutexes argument token.now }
{
    match argument {
        Argument::Number(range) => number_in(range, token),
        Argument::KnownName(BodyWord::Port) => known_name(reading.ports.as_slice(), token),
        Argument::KnownName(BodyWord::Mutex) => known_name(reading.mutexes.as_slice(), token),
        _ => Err(InputRefusal::BadLine),
    }
}

/// `loop TIMES`
fn begin_loop(reading: &mut Reading, script: OpenScript, times: u32) -> Result<(), LineFault>
    requires room { length reading.old.scripts < 256 }
    requires times { IsLine (ScriptLine.Loop times) }
    ensures { Gives reading.new result
        (numbered_line (within_script reading.old script) script ScriptWord.Loop times) }
{
    if 8 <= script.builder.open_loops() {
        return Err(LineFault::Refused(InputRefusal::TooDeep));
    }
    add_line(reading, script, ScriptLine::Loop(times))
}

/// `end`
fn end_loop(reading: &mut Reading, script: OpenScript) -> Result<(), LineFault>
    requires { length reading.old.scripts < 256 }
    ensures { Gives reading.new result
        (numbered_line (within_script reading.old script) script ScriptWord.End 0) }
{
    if script.builder.open_loops() == 0 {
        return Err(LineFault::Refused(InputRefusal::BadLine));
    }
    add_line(reading, script, ScriptLine::End)
}

/// A trap, at the port, on the mutex or for the ticks with this number.
fn trap(
    reading: &mut Reading,
    script: OpenScript,
    word: TrapWord,
    number: u32,
) -> Result<(), LineFault>
    requires room { length reading.old.scripts < 256 }
    requires number { Fits (arguments_of (ScriptWord.Trap word)) number }
    ensures { Gives reading.new result
        (numbered_line (within_script reading.old script) script (ScriptWord.Trap word) number) }
{
    add_line(
        reading,
        script,
        ScriptLine::Trap(word.with(number, (), (), number)),
    )
}

/// `endscript`
fn end_script(reading: &mut Reading, script: OpenScript) -> Result<(), LineFault>
    requires { length reading.old.scripts < 256 }
    ensures { Gives reading.new result
        (numbered_line (within_script reading.old script) script ScriptWord.EndScript 0) }
{
    if 0 < script.builder.open_loops() {
        return Err(LineFault::Refused(InputRefusal::BadLine));
    }
    let OpenScript {
        name,
        begins: _,
        builder,
    } = script;
    let script = builder.finish();
    reading.scripts.push(NamedScript { name, script })?;
    reading.unclosed = None;
    Ok(())
}

/// Adds this line to the script, unless the script is full.
fn add_line(
    reading: &mut Reading,
    mut script: OpenScript,
    line: ScriptLine,
) -> Result<(), LineFault>
    requires room { length reading.old.scripts < 256 }
    requires number { IsLine line }
    requires nesting { CanNest script.loops line }
    ensures { Gives reading.new result (line_added reading.old script line) }
{
    if ScriptBuilder::MOST_LINES <= script.builder.len() {
        return Err(LineFault::Refused(InputRefusal::TooLong));
    }
    script.builder.push(line)?;
    reading.unclosed = Some(script);
    Ok(())
}
