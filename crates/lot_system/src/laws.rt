//! The output of a program's turns: laws of the definitions, without executable code.
ghost use Rattle.std.specs.Prelude.{◌≡◌, ◌++◌};
ghost use Rattle.lot_simulation.specs.Output.{played_output};
ghost use Rattle.lot_simulation.specs.World.{Program};
ghost use Rattle.lot_system.specs.Texts.{last_report, made_texts};
ghost use Rattle.lot_playback.specs.Turns.{program_turns};

/// The output of `play` is the lines of the program's turns followed by the report, for a schedule and for a timed
/// program.
pub fn output_is_that_of_the_turns()
    ensures { (program : Program) → played_output program program.duration
        ≡ made_texts (program_turns program) ++ last_report program program.duration }
{}
