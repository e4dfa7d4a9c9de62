//! Worked rows for the values that a kill leaves.
ghost use Rattle.std.specs.Prelude.{◌≡◌, [], ◌∷◌, ◌++◌, codes};
ghost use Rattle.lot_machine.specs.declared.trap.Trap.TheVariants.{Call, Receive};
ghost use Rattle.lot_machine.specs.declared.event.Event.TheVariants.{Trap};
ghost use Rattle.lot_machine.specs.Facts.{live_value};
ghost use Rattle.lot_machine.specs.Worked.{after, kill, values};
ghost use Rattle.lot_machine.specs.WorkedRuns.{two_to_one};
ghost use Rattle.lot_laws.specs.Runs.{busy_server};

/// A server without tickets has its client's value. After its kill the client has it, and nothing is lost.
pub fn server_killed()
    ensures before { values (after (busy_server ++ Trap 2 0 (Call 1 9) ∷ Trap 1 0 (Receive 1) ∷ []))
        ≡ 400 ∷ 400 ∷ [] }
    ensures after { values (after (busy_server ++ Trap 2 0 (Call 1 9) ∷ Trap 1 0 (Receive 1) ∷ kill (codes "v") ∷ []))
        ≡ 0 ∷ 400 ∷ [] }
    ensures together { live_value (after (busy_server ++ Trap 2 0 (Call 1 9) ∷ Trap 1 0 (Receive 1) ∷ [])) ≡ 400 }
    ensures together_then { live_value (after (busy_server ++ Trap 2 0 (Call 1 9) ∷ Trap 1 0 (Receive 1)
        ∷ kill (codes "v") ∷ [])) ≡ 400 }
{}

/// A killed thread with a ticket of a currency leaves its share to the currency's other thread. So the law requires a
/// thread without tickets.
pub fn funded_thread_killed()
    ensures before { values (after two_to_one) ≡ 133 ∷ 66 ∷ [] }
    ensures after { values (after (two_to_one ++ kill (codes "a") ∷ [])) ≡ 0 ∷ 200 ∷ [] }
{}
