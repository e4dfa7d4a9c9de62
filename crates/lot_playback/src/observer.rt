//! Observers of a program's turns.
ghost use Rattle.std.specs.Prelude.{◌≡◌, ℕ, List, ◌∷◌, [], ◌++◌, IfErr, OnOk};
ghost use Rattle.lot_simulation.specs.World.{Program as ProgramRecord, World};
ghost use Rattle.lot_engine.specs.Seen.{world_of};
ghost use Rattle.lot_playback.specs.Stages.{HasJustMade, HasMade};
ghost use Rattle.lot_playback.specs.Turns.{MadeTurn};

use crate::Turn;
use lot_engine::System;
use lot_program::Program;

/// An observer of a program's turns, which produces a result from them.
pub trait Observer {
    /// The reason to stop the play.
    type Fault;

    // the observer's state after these turns of the program, given its state before them
    ghost observed: { ProgramRecord → List MadeTurn → Self → Self → Type 0 };

    // its state after these turns, once it has seen the world before this actor's turn
    ghost awaits: { ProgramRecord → List MadeTurn → World → ℕ → Self → Self → Type 0 };

    // its state and its fault after it stopped the play at the last of these turns
    ghost stopped: { ProgramRecord → List MadeTurn → Self → Self → Self.Fault → Type 0 };

    /// Sees the system before this actor's turn.
    fn before(&mut self, program: &Program, system: &mut System, actor: u32)
        requires program { system.old.setting.program ≡ program.now }
        requires observed { (turns : List MadeTurn) × (first : Self)
            × HasMade program.now turns system.old × observed program.now turns first self.old }
        ensures same { system.new ≡ system.old }
        ensures awaits { (turns : List MadeTurn) (first : Self)
            → HasMade program.now turns system.old → observed program.now turns first self.old
            → awaits program.now turns (world_of system.old) actor first self.new };

    /// Sees the turn, and the system after it.
    fn after(
        &mut self,
        program: &Program,
        system: &mut System,
        turn: &Turn,
    ) -> Result<(), Self::Fault>
        requires program { system.old.setting.program ≡ program.now }
        requires awaits { (turns : List MadeTurn) × (made : MadeTurn) × (first : Self)
            × HasJustMade program.now turns made turn.now system.old
            × awaits program.now turns made.before made.actor first self.old }
        ensures same { system.new ≡ system.old }
        ensures ok { OnOk result ((turns : List MadeTurn) (made : MadeTurn) (first : Self)
            → HasJustMade program.now turns made turn.now system.old
            → awaits program.now turns made.before made.actor first self.old
            → observed program.now (turns ++ made ∷ []) first self.new) }
        ensures err { IfErr result (λ fault. (turns : List MadeTurn) (made : MadeTurn) (first : Self)
            → HasJustMade program.now turns made turn.now system.old
            → awaits program.now turns made.before made.actor first self.old
            → stopped program.now (turns ++ made ∷ []) first self.new fault) };
}
