//! Playing a whole program.
ghost use Rattle.std.specs.Prelude.{◌≡◌, List, [], ◌++◌, IfErr, OnOk};
ghost use Rattle.lot_playback.specs.Stages.{HasMade, turns_left};
ghost use Rattle.lot_playback.specs.Turns.{MadeTurn, program_turns};

use lot_playback::{Observer, Playback, Turn};
use lot_program::Program;

/// Makes all turns of a program, from its first, and lets the observer follow them. If the observer stops the play, it
/// fails with the observer's fault.
#[inline(always)]
pub fn play_through<O: Observer>(
    program: &Program,
    playback: &mut Playback,
    observer: &mut O,
) -> Result<(), O::Fault>
    requires none { playback.old.made ≡ 0 }
    requires made { HasMade program.now [] playback.old.seen }
    requires ready { O.observed program.now [] observer.old observer.old }
    ensures setting { playback.new.seen.setting ≡ playback.old.seen.setting }
    ensures ended { OnOk result (turns_left playback.new ≡ []) }
    ensures made { OnOk result (HasMade program.now (program_turns program.now) playback.new.seen) }
    ensures observed { OnOk result (O.observed program.now (program_turns program.now) observer.old observer.new) }
    ensures stopped { IfErr result (λ fault. (turns : List MadeTurn) × (others : List MadeTurn)
        × (program_turns program.now ≡ turns ++ others)
        × O.stopped program.now turns observer.old observer.new fault) }
{
    let mut turn = Turn::blank();
    while let Some(next) = playback.next_due(program) {
        playback.play_turn(program, next, &mut turn, observer)?;
    }
    Ok(())
}
