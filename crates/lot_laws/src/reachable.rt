//! The premises of the other laws hold in each reachable state.
ghost use Rattle.std.specs.Prelude.{List};
ghost use Rattle.lot_machine.specs.declared.event.Event.{Event};
ghost use Rattle.lot_machine.specs.State.{State, funding_of};
ghost use Rattle.lot_machine.specs.Order.{IsInOrder};
ghost use Rattle.lot_machine.specs.Step.{step, state_after};
ghost use Rattle.lot_laws.specs.Conservation.{HasAmounts};
ghost use Rattle.lot_laws.specs.Reachable.{IsReachable, IsWellFormed};

/// Each reachable state is in order, and its funding is well formed: nothing makes a cycle, no ticket has the amount
/// 0, and tickets fund only existing threads and user currencies. The state after a run of events is reachable if the
/// state before it is.
pub fn reachable_states_meet_the_premises()
    ensures in_order { (s : State) → IsReachable s → IsInOrder s }
    ensures well_formed { (s : State) → IsReachable s → IsWellFormed (funding_of s) }
    ensures run { (s : State) (events : List Event) → IsReachable s → IsReachable (state_after s events) }
{}

/// No event makes a ticket with the amount 0, or gives one that amount.
pub fn events_keep_amounts_positive()
    ensures { (s : State) (e : Event) → HasAmounts (funding_of s) → HasAmounts (funding_of (step s e).state) }
{}
