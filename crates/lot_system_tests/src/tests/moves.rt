//! A turn of a system, with the slice of its actor's work. It is among the tests, since the crate would prove it a
//! second time as a library.
ghost use Rattle.std.specs.Prelude.{◌≡◌, ◌≤◌, ◌⊎◌, IfErr, IfOk, Option};
ghost use Rattle.lot_script.specs.Slices.{Parts};
ghost use Rattle.lot_engine.specs.Fitting.{IsStale};
ghost use Rattle.lot_engine.specs.Seen.{after_turn};
ghost use Rattle.lot_engine.specs.Turns.{Faults, IsWorkOf, Matches};
ghost use Rattle.lot_engine.specs.declared.turn.Work.{Work as WorkRecord};

use lot_program::Program;
use lot_system::{System, TurnFault, slice_for};

/// Makes the actor's turn, with the slice of its work in this program if it has any. A fault changes nothing: `Stale`
/// if the work doesn't fit the program, otherwise the fault of `System::turn` with that slice.
pub(crate) fn make_turn(system: &mut System, program: &Program, actor: u32) -> Result<(), TurnFault>
    requires { actor ≤ system.old.setting.program.limits.processors }
    ensures made { IfOk result (λ _. system.new ≡ after_turn system.old actor) }
    ensures unmade { IfErr result (λ _. system.new ≡ system.old) }
    ensures fault { IfErr result (λ fault. (work : Option WorkRecord) × IsWorkOf system.old actor work
        × (IsStale program.now work fault
        ⊎ ((given : Option Parts) × Matches program.now work given × Faults system.old actor given fault))) }
{
    let slice = slice_for(program, system.work(actor))?;
    system.turn(actor, slice)?;
    Ok(())
}
