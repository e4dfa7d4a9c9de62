//! The entrants of the lottery that a turn may hold.
ghost use Rattle.std.specs.Prelude.{◌≡◌, ℕ, IfSome};
ghost use Rattle.lot_machine.specs.declared.event.Event.{Event as AnEvent};
ghost use Rattle.lot_machine.specs.declared.reply.Reply.{Reply as AReply};
ghost use Rattle.lot_script.specs.Slices.{IsSlice};
ghost use Rattle.lot_simulation.specs.Script.{Slice as ASlice};
ghost use Rattle.lot_simulation.specs.World.{event_of_slice};
ghost use Rattle.lot_simulation.specs.World.TurnAnswer.{Answered};
ghost use Rattle.lot_engine.specs.Playing.{turn_in};
ghost use Rattle.lot_engine.specs.Steps.{event_given};
ghost use Rattle.lot_explain.specs.Lots.{entrants_in};

use lot_engine::{System, slice_in};
use lot_machine::ScriptTrap;
use lot_program::Program;
use lot_script::Slice;

/// The entrants of a lottery.
#[derive(Clone, Copy, Debug, PartialEq, Eq)]
pub(crate) enum Entrants {
    Nobody,
    /// The Ready threads.
    Ready,
    /// The waiters of the mutex with this number.
    Waiters(u32),
}

/// The entrants of the lottery that the actor's next turn may hold: the console and the timer hold none.
pub(crate) fn next_entrants(program: &Program, system: &System, actor: u32) -> Entrants
    requires { system.now.setting.program ≡ program.now }
    ensures { (event : AnEvent) (reply : AReply) → (turn_in system.now actor).answer ≡ Answered event reply
        → result ≡ entrants_in event }
{
    if actor == 0 || actor > system.processors() {
        return Entrants::Nobody;
    }
    entrants_of_slice(&slice_in(system, program, actor))
}

/// The entrants of the lottery of a processor's turn with this slice, or of a draw without one.
fn entrants_of_slice(slice: &Option<Slice<'_>>) -> Entrants
    ensures entrants { (processor drawn : ℕ) → result ≡ entrants_in (event_given processor drawn slice.now) }
    ensures exact { IfSome slice.now IsSlice }
{
    match slice {
        None => Entrants::Ready,
        Some(slice) => entrants_of_trap(slice.trap()),
    }
}

/// The entrants of the lottery of a slice that ends with this trap, or with its budget.
fn entrants_of_trap(trap: Option<ScriptTrap>) -> Entrants
    ensures { (processor drawn : ℕ) (done : ASlice) → done.trap ≡ trap
        → result ≡ entrants_in (event_of_slice processor drawn done) }
{
    match trap {
        Some(ScriptTrap::Unlock(mutex, _)) => Entrants::Waiters(mutex),
        _ => Entrants::Nobody,
    }
}
