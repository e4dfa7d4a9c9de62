//! Worked rows for unlocks that pass a mutex on (6.1).
ghost use Rattle.std.specs.Prelude.{◌≡◌, [], ◌∷◌, ◌++◌, count_by};
ghost use Rattle.std.specs.List.{range_with_len};
ghost use Rattle.lot_machine.specs.declared.trap.Trap.TheVariants.{Unlock};
ghost use Rattle.lot_machine.specs.declared.event.Event.TheVariants.{Trap};
ghost use Rattle.lot_machine.specs.Facts.{live_value};
ghost use Rattle.lot_machine.specs.Step.{step};
ghost use Rattle.lot_machine.specs.Worked.{after, values};
ghost use Rattle.lot_machine.specs.WorkedRuns.{poor_waiters, poor_turns};
ghost use Rattle.lot_laws.specs.Runs.{two_waiters};
ghost use Rattle.lot_laws.specs.Unlocks.{PassesOn, waiters_of, is_passed_to, mutex_worth};

/// An owner of 1 base passes a mutex on, for which threads of 2 and of 1 wait: of three numbers two pass it to the one,
/// and one to the other. The owner is left with its own, and the next owner is worth 3.
pub fn two_waiters()
    ensures waiters { waiters_of (after two_waiters) 1 ≡ 2 ∷ 3 ∷ [] }
    ensures passes { PassesOn (after two_waiters) (Trap 1 0 (Unlock 1 0)) 1 1 2 }
    ensures first_share { count_by (λ n. is_passed_to 2 (step (after two_waiters) (Trap 1 0 (Unlock 1 n))).reply)
        (range_with_len 0 3) ≡ 2 }
    ensures second_share { count_by (λ n. is_passed_to 3 (step (after two_waiters) (Trap 1 0 (Unlock 1 n))).reply)
        (range_with_len 0 3) ≡ 1 }
    ensures worth { mutex_worth (after two_waiters) 1 ≡ 3 }
    ensures before { values (after two_waiters) ≡ 4 ∷ 2 ∷ 1 ∷ [] }
    ensures first_gets { values (after (two_waiters ++ Trap 1 0 (Unlock 1 0) ∷ [])) ≡ 1 ∷ 3 ∷ 1 ∷ [] }
    ensures second_gets { values (after (two_waiters ++ Trap 1 0 (Unlock 1 2) ∷ [])) ≡ 1 ∷ 2 ∷ 3 ∷ [] }
    ensures together { live_value (after two_waiters) ≡ 4 }
    ensures together_then { live_value (after (two_waiters ++ Trap 1 0 (Unlock 1 0) ∷ [])) ≡ 4 }
{}

/// Waiters that are worth nothing: the one that has waited longest gets the mutex, whatever the number.
pub fn poor_waiters()
    ensures waiters { waiters_of (after (poor_waiters ++ poor_turns)) 1 ≡ 2 ∷ 3 ∷ [] }
    ensures worth { mutex_worth (after (poor_waiters ++ poor_turns)) 1 ≡ 0 }
    ensures passes { PassesOn (after (poor_waiters ++ poor_turns)) (Trap 1 0 (Unlock 1 5)) 1 1 2 }
{}
