//! No reference to a removed thread, ticket or currency remains. A removed thread stays removed, unless `reuse` gives
//! its number to another.
ghost use Rattle.std.specs.Prelude.{◌≡◌, ◌≢◌, ℕ, true, List, [], Some, None, slice_get};
ghost use Rattle.lot_machine.specs.declared.event.Event.{Event};
ghost use Rattle.lot_machine.specs.declared.ticket.Target.TheVariants.{Currency};
ghost use Rattle.lot_machine.specs.Funding.{issuer_of, target_of};
ghost use Rattle.lot_machine.specs.Numbered.{at_number};
ghost use Rattle.lot_machine.specs.State.{State, funding_of};
ghost use Rattle.lot_machine.specs.Order.{IsInOrder};
ghost use Rattle.lot_machine.specs.Step.{step, state_after};
ghost use Rattle.lot_laws.specs.Reachable.{IsReachable};
ghost use Rattle.lot_laws.specs.Removed.{IsRemoved, IsNotGiven, NothingLeadsTo, NothingLeadsToRemoved, StandsNowhere};

/// In a reachable state nothing refers to a removed thread: no ticket funds it, no thread lends to it, it owns no
/// mutex, no list of waiting or served threads holds it, and it serves nobody. It is dead and stays removed, and no
/// later event changes its record, so its quanta and ticks stay readable; with `reuse` until an event gives its number
/// to a new thread.
pub fn removed_threads_stay_out()
    ensures edges { (s : State) (t : ℕ) → IsReachable s → IsRemoved s t → NothingLeadsTo (funding_of s) t }
    ensures lists { (s : State) (t : ℕ) → IsInOrder s → IsRemoved s t → StandsNowhere s t }
    ensures serves { (s : State) (t : ℕ) (clients : List ℕ) → IsReachable s → IsRemoved s t
        → at_number s.clients t ≡ Some clients → clients ≡ [] }
    ensures later { (s : State) (events : List Event) (t : ℕ) → IsInOrder s → IsRemoved s t
        → (s.limits.reuse ≡ true → IsNotGiven s events t) → IsRemoved (state_after s events) t }
    ensures record_stays { (s : State) (events : List Event) (t : ℕ) → IsInOrder s → IsRemoved s t
        → (s.limits.reuse ≡ true → IsNotGiven s events t)
        → at_number (state_after s events).records t ≡ at_number s.records t }
{}

/// If the state is in order and no edge leads to a removed thread, none does after an event. Order alone isn't enough,
/// since it doesn't say which targets tickets have, or which owners mutexes.
pub fn events_refer_to_no_removed_thread()
    ensures { (s : State) (e : Event) → IsInOrder s → NothingLeadsToRemoved s
        → NothingLeadsToRemoved (step s e).state }
{}

/// In a reachable state no ticket is issued in a removed currency, and none funds it. So a currency that gets its
/// number starts without tickets.
pub fn removed_currencies_have_no_tickets()
    ensures issued { (s : State) (n c : ℕ) → IsReachable s → slice_get s.currencies c ≡ Some None
        → issuer_of (funding_of s) n ≢ Some c }
    ensures funded { (s : State) (n c : ℕ) → IsReachable s → slice_get s.currencies c ≡ Some None
        → target_of (funding_of s) n ≢ Some (Currency c) }
{}
