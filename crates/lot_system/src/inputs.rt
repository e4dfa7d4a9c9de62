//! Playing an input.
ghost use Rattle.std.specs.Prelude.{◌≡◌, false, true, OnOk};
ghost use Rattle.lot_simulation.specs.Grammar.{program_in};
ghost use Rattle.lot_simulation.specs.Output.{output, played_output};
ghost use Rattle.lot_simulation.specs.Texts.{fault_line};
ghost use Rattle.lot_system.specs.Played.{Plays, PlaysInput, came_of};
ghost use Rattle.lot_system.specs.declared.inputs.Played.TheVariants.{Done, Refused};

use crate::play_program;
use lot_io::{IoFault, Watched, flush, read_input};
use lot_print::write_fault;
use lot_program::Program;
use lot_simulation::{InputFault, Warnings};
use lot_text::{ParseFault, parse};
use std::alloc::Global;
use std::io::{Read, Write};

/// The outcome of playing an input.
#[derive(Clone, Copy, Debug, PartialEq, Eq)]
pub enum Played {
    /// The play ended, by its schedule, its duration or a refusal of a strict program.
    Done,
    /// The input was refused, and one line with the refusal was written.
    Refused,
}

/// Reads an input, makes its turns, and writes a line for each turn and then the report; or one line for a refused
/// input. Fails with `Read` if the reader fails, with `Write` if the writer fails, after a beginning of the output, and
/// with `Memory` if out of memory. Only with `Write` has it written anything.
pub fn play<R: Read, W: Write>(
    alloc: Global,
    reader: &mut Watched<R>,
    writer: &mut Watched<W>,
) -> Result<Played, IoFault>
    requires { (reader.old.failed ≡ false) × (writer.old.failed ≡ false) }
    ensures plays { PlaysInput output R.remaining reader.old reader.new W.contents writer.old writer.new result }
{
    let bytes = read_input(alloc, reader)?;
    play_unwarned(alloc, bytes.as_slice(), writer)
}

/// Plays the input in `bytes`, or writes its refusal, and drops its warnings.
fn play_unwarned<W: Write>(
    alloc: Global,
    bytes: &[u8],
    writer: &mut Watched<W>,
) -> Result<Played, IoFault>
    requires { writer.old.failed ≡ false }
    ensures flushed { OnOk result (writer.new.flushed ≡ true) }
    ensures played { Plays W.contents writer.old writer.new result (came_of (program_in bytes.now))
        (output bytes.now) }
{
    let Ok(mut warnings) = Warnings::none(alloc) else {
        return Err(IoFault::Memory);
    };
    play_bytes(alloc, bytes, &mut warnings, writer)
}

/// Plays the input in `bytes`, or writes its refusal, like `play`, and stores the run's warnings in `warnings`. It
/// allocates all its memory before the first turn. Fails with `Memory` before it has written anything, and with `Write`
/// if the writer fails.
pub fn play_bytes<W: Write>(
    alloc: Global,
    bytes: &[u8],
    warnings: &mut Warnings,
    writer: &mut Watched<W>,
) -> Result<Played, IoFault>
    requires { writer.old.failed ≡ false }
    ensures flushed { OnOk result (writer.new.flushed ≡ true) }
    ensures played { Plays W.contents writer.old writer.new result (came_of (program_in bytes.now))
        (output bytes.now) }
{
    match parse(alloc, bytes) {
        Ok(program) => play_parsed(alloc, program, warnings, writer),
        Err(ParseFault::Memory) => Err(IoFault::Memory),
        Err(ParseFault::Input(fault)) => refuse(fault, writer),
    }
}

/// Plays the program of an input, and frees it.
fn play_parsed<W: Write>(
    alloc: Global,
    program: Program,
    warnings: &mut Warnings,
    writer: &mut Watched<W>,
) -> Result<Played, IoFault>
    requires { writer.old.failed ≡ false }
    ensures flushed { OnOk result (writer.new.flushed ≡ true) }
    ensures played { Plays W.contents writer.old writer.new result Done (played_output program program.duration) }
{
    play_program(alloc, &program, warnings, writer)
}

/// Writes the one line for a refused input, like `play`. Fails with `Write` if the writer fails.
pub fn refuse<W: Write>(fault: InputFault, writer: &mut Watched<W>) -> Result<Played, IoFault>
    requires { writer.old.failed ≡ false }
    ensures flushed { OnOk result (writer.new.flushed ≡ true) }
    ensures played { Plays W.contents writer.old writer.new result Refused (fault_line fault) }
{
    write_fault(writer, fault)?;
    flush(writer)?;
    Ok(Played::Refused)
}
