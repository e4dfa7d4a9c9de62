//! Explaining an input.
ghost use Rattle.std.specs.Prelude.{◌≡◌, ◌||◌, false, true, MatchResult, OnOk};
ghost use Rattle.lot_simulation.specs.Grammar.{program_in};
ghost use Rattle.lot_system.specs.Leaving.{ends_refused};
ghost use Rattle.lot_system.specs.Played.{Plays, came_of};
ghost use Rattle.lot_system.specs.declared.inputs.Played.TheVariants.{Done};
ghost use Rattle.lot_explain.specs.Explained.{explained_output, explained_program};

use crate::detail::Detail;
use crate::explained::explain_turns;
use crate::gathering::Lots;
use lot_io::{IoFault, Watched};
use lot_playback::Playback;
use lot_program::Program;
use lot_simulation::Warnings;
use lot_system::{Played, end_play, refuse};
use lot_text::{ParseFault, parse};
use std::alloc::Global;
use std::io::Write;

/// Makes the turns of the input in `bytes`, and writes the output of `play`, with the lots of each won lottery before
/// its line; or one line for a refused input. It stores the run's warnings in `warnings`, and whether a refusal ended
/// the run. It allocates all its memory before the first turn. Fails with `Memory` before it has written anything, and
/// with `Write` if the writer fails.
pub fn explain_bytes<W: Write>(
    alloc: Global,
    detail: Detail,
    bytes: &[u8],
    warnings: &mut Warnings,
    writer: &mut Watched<W>,
) -> Result<Played, IoFault>
    requires { writer.old.failed ≡ false }
    ensures flushed { OnOk result (writer.new.flushed ≡ true) }
    ensures played { Plays W.contents writer.old writer.new result (came_of (program_in bytes.now))
        (explained_output detail bytes.now) }
    ensures stopped { OnOk result (MatchResult (program_in bytes.now)
        (λ program. warnings.new.stopped ≡ (warnings.old.stopped || ends_refused program))
        (λ fault. warnings.new.stopped ≡ warnings.old.stopped)) }
{
    match parse(alloc, bytes) {
        Ok(program) => explain_program(alloc, detail, &program, warnings, writer),
        Err(ParseFault::Memory) => Err(IoFault::Memory),
        Err(ParseFault::Input(fault)) => refuse(fault, writer),
    }
}

/// Explains the program in a system of its own: makes its turns, and writes the output of `play`, with the lots of each
/// won lottery before its line. It stores the run's warnings in `warnings`, and whether a refusal ended the run. It
/// allocates all its memory before the first turn. Fails with `Memory` before it has written anything, and with `Write`
/// if the writer fails.
pub fn explain_program<W: Write>(
    alloc: Global,
    detail: Detail,
    program: &Program,
    warnings: &mut Warnings,
    writer: &mut Watched<W>,
) -> Result<Played, IoFault>
    requires { writer.old.failed ≡ false }
    ensures flushed { OnOk result (writer.new.flushed ≡ true) }
    ensures played { Plays W.contents writer.old writer.new result Done
        (explained_program detail program.now program.now.duration) }
    ensures stopped { OnOk result (warnings.new.stopped ≡ (warnings.old.stopped || ends_refused program.now)) }
{
    let Ok(mut playback) = Playback::open(alloc, program) else {
        return Err(IoFault::Memory);
    };
    let Ok(mut lots) = Lots::open(alloc, program.limits().threads) else {
        return Err(IoFault::Memory);
    };
    explain_turns(program, detail, &mut playback, &mut lots, warnings, writer)?;
    end_play(program, playback, warnings, writer)?;
    Ok(Played::Done)
}
