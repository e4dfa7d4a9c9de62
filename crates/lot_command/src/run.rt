//! A free run: the turns of an input's program, made by workers.
ghost use Rattle.std.specs.Prelude.{◌≡◌, ℕ, List, false, true, IfErr, IfOk, OnOk};
ghost use Rattle.lot_simulation.specs.Grammar.{program_in};
ghost use Rattle.lot_io.specs.Reading.{Reads};
ghost use Rattle.lot_system.specs.declared.inputs.Played.TheVariants.{Done};
ghost use Rattle.lot_command.specs.Running.{HasRun, IsStopOf, RunLeaves, Runs, timeless};

use crate::diagnostics::Diagnostics;
use lot_io::{IoFault, Watched, read_input};
use lot_processors::{FreeRunFault, OpenGate, free_run};
use lot_program::Program;
use lot_simulation::Warnings;
use lot_system::{Played, System, note_end, refuse, write_end};
use lot_text::{ParseFault, parse};
use std::alloc::Global;
use std::io::{Read, Write};
use std::sync::Wait;
use std::thread::Threads;
use thiserror::Error;

/// The reason why a free run of an input stops early. Only a failed writer may have written something.
#[derive(Debug, Drop, Error)]
pub enum InputRunFault {
    /// Out of memory, or the reader or the writer failed.
    #[error("{0}")]
    Play(IoFault),
    /// The workers stopped early, or there was no memory for them.
    #[error("{0}")]
    Workers(FreeRunFault),
}

/// Reads an input, lets workers make its commands and its processors' turns, and writes the report and the history; or
/// one line for a refused input. It ignores the schedule. It stores diagnostics in `diagnostics`. It may block.
pub(crate) fn run<R: Read, W: Write, H: Threads + Wait + Sync>(
    rt: &H,
    alloc: Global,
    diagnostics: &mut Diagnostics,
    reader: &mut Watched<R>,
    writer: &mut Watched<W>,
) -> Result<Played, InputRunFault>
    requires { (reader.old.failed ≡ false) × (writer.old.failed ≡ false) }
    ensures ok { OnOk result ((reader.new.failed ≡ false) × (writer.new.failed ≡ false)) }
    ensures flushed { OnOk result (writer.new.flushed ≡ true) }
    ensures stop { IfErr result (λ stop. IsStopOf stop reader.new.failed writer.new.failed) }
    ensures output { IfOk result (λ played. (bytes : List ℕ) × Reads R.remaining reader.old reader.new bytes
        × HasRun (timeless (program_in bytes)) (W.contents writer.old.inner) (W.contents writer.new.inner) played) }
    ensures fault { IfErr result
        (λ stop. RunLeaves R.remaining reader.old reader.new W.contents writer.old writer.new stop) }
{
    match read_input(alloc, reader) {
        Ok(bytes) => {
            diagnostics.input = bytes;
            run_bytes(
                rt,
                alloc,
                diagnostics.input.as_slice(),
                &mut diagnostics.warnings,
                writer,
            )
        }
        Err(fault) => Err(InputRunFault::Play(fault)),
    }
}

/// Lets workers make the commands of the input in `bytes` and its processors' turns, and writes the report and the
/// history; or one line for a refused input. It ignores the schedule. It stores the run's warnings in `warnings`. It
/// may block.
///
/// Fails with `InputRunFault::Play` if out of memory before the workers start, or if the writer fails, and with
/// `InputRunFault::Workers` if the workers run out of memory or stop early. Only a failed writer may have written
/// something.
pub fn run_bytes<W: Write, H: Threads + Wait + Sync>(
    rt: &H,
    alloc: Global,
    bytes: &[u8],
    warnings: &mut Warnings,
    writer: &mut Watched<W>,
) -> Result<Played, InputRunFault>
    requires { writer.old.failed ≡ false }
    ensures flushed { OnOk result (writer.new.flushed ≡ true) }
    ensures run { Runs (timeless (program_in bytes.now)) W.contents writer.old writer.new result }
{
    match parse(alloc, bytes) {
        Ok(program) => match program.without_time(alloc) {
            Ok(program) => run_program(rt, alloc, &program, warnings, writer),
            Err(_) => Err(InputRunFault::Play(IoFault::Memory)),
        },
        Err(ParseFault::Memory) => Err(InputRunFault::Play(IoFault::Memory)),
        Err(ParseFault::Input(fault)) => match refuse(fault, writer) {
            Ok(played) => Ok(played),
            Err(fault) => Err(InputRunFault::Play(fault)),
        },
    }
}

/// Runs the program in a system of its own, and writes its report and its history.
fn run_program<W: Write, H: Threads + Wait + Sync>(
    rt: &H,
    alloc: Global,
    program: &Program,
    warnings: &mut Warnings,
    writer: &mut Watched<W>,
) -> Result<Played, InputRunFault>
    requires { writer.old.failed ≡ false }
    ensures flushed { OnOk result (writer.new.flushed ≡ true) }
    ensures run { Runs (Ok program.now) W.contents writer.old writer.new result }
{
    let mut system = match free_run(rt, alloc, program, &OpenGate) {
        Ok(system) => system,
        Err(fault) => return Err(InputRunFault::Workers(fault)),
    };
    match write_end(&mut system, writer) {
        Ok(()) => Ok(noted(&mut system, warnings)),
        Err(fault) => Err(InputRunFault::Play(fault)),
    }
}

/// Records the warnings of the finished run.
fn noted(system: &mut System, warnings: &mut Warnings) -> Played
    ensures { result ≡ Done }
{
    note_end(warnings, system);
    Played::Done
}
