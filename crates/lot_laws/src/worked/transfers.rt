//! Worked rows for transfers (3.1, 4.6, 6.1).
ghost use Rattle.std.specs.Prelude.{◌≡◌, [], ◌∷◌, ◌++◌};
ghost use Rattle.lot_machine.specs.declared.trap.Trap.TheVariants.{Call, Receive, Reply as ReplyTo, Serve, Lock};
ghost use Rattle.lot_machine.specs.declared.event.Event.TheVariants.{Trap};
ghost use Rattle.lot_machine.specs.Worked.{after, values};
ghost use Rattle.lot_machine.specs.Facts.{live_value};
ghost use Rattle.lot_laws.specs.Runs.{waiting_server, server_with_a_ticket, busy_server, two_callers, owner_runs};
ghost use Rattle.lot_laws.specs.Runs.{owner_receives};
ghost use Rattle.lot_laws.specs.Transfers.{TakesCall, QueuesCall, TakesQueuedCall, RepliesTo, RepliesThenWaits};
ghost use Rattle.lot_laws.specs.Transfers.{RepliesThenReceives, WaitsFor, OwnsNothing};

/// A server with no ticket of its own gets its client's value.
pub fn call_taken()
    ensures takes { TakesCall (after waiting_server) (Trap 1 0 (Call 1 9)) 2 1 }
    ensures owns { OwnsNothing (after waiting_server) 1 }
    ensures before { values (after waiting_server) ≡ 0 ∷ 400 ∷ [] }
    ensures after { values (after (waiting_server ++ Trap 1 0 (Call 1 9) ∷ [])) ≡ 400 ∷ 400 ∷ [] }
    ensures together { live_value (after (waiting_server ++ Trap 1 0 (Call 1 9) ∷ [])) ≡ 400 }
{}

/// If the server has a ticket of its own in the client's currency, this ticket is active again once it serves, and the
/// client's tickets are worth less. So the law requires a server with nothing of its own.
pub fn server_with_a_ticket()
    ensures takes { TakesCall (after server_with_a_ticket) (Trap 1 0 (Call 1 9)) 2 1 }
    ensures before { values (after server_with_a_ticket) ≡ 0 ∷ 100 ∷ [] }
    ensures after { values (after (server_with_a_ticket ++ Trap 1 0 (Call 1 9) ∷ [])) ≡ 100 ∷ 50 ∷ [] }
{}

/// A call is queued, taken and replied to: the caller is worth nothing while it is queued, then its server has its
/// value, and then the server is worth nothing again.
pub fn call_queued()
    ensures queues { QueuesCall (after busy_server) (Trap 2 0 (Call 1 9)) 2 }
    ensures takes { TakesQueuedCall (after (busy_server ++ Trap 2 0 (Call 1 9) ∷ [])) (Trap 1 0 (Receive 1)) 2 1 }
    ensures replies { RepliesTo (after (busy_server ++ Trap 2 0 (Call 1 9) ∷ Trap 1 0 (Receive 1)
        ∷ [])) (Trap 1 0 (ReplyTo 5)) 2 1 }
    ensures before { values (after busy_server) ≡ 0 ∷ 400 ∷ [] }
    ensures queued { values (after (busy_server ++ Trap 2 0 (Call 1 9) ∷ [])) ≡ 0 ∷ 0 ∷ [] }
    ensures taken { values (after (busy_server ++ Trap 2 0 (Call 1 9) ∷ Trap 1 0 (Receive 1) ∷ [])) ≡ 400 ∷ 400 ∷ [] }
    ensures replied { values (after (busy_server ++ Trap 2 0 (Call 1 9) ∷ Trap 1 0 (Receive 1)
        ∷ Trap 1 0 (ReplyTo 5) ∷ [])) ≡ 0 ∷ 400 ∷ [] }
{}

/// A server replies and receives in one trap: without a queued call it is worth nothing afterwards, and with one it
/// has the next caller's value.
pub fn servings()
    ensures waits { RepliesThenWaits (after (busy_server ++ Trap 2 0 (Call 1 9) ∷ Trap 1 0 (Receive 1)
        ∷ [])) (Trap 1 0 (Serve 1 5)) 2 1 }
    ensures alone { values (after (busy_server ++ Trap 2 0 (Call 1 9) ∷ Trap 1 0 (Receive 1)
        ∷ Trap 1 0 (Serve 1 5) ∷ [])) ≡ 0 ∷ 400 ∷ [] }
    ensures takes { RepliesThenReceives (after two_callers) (Trap 1 0 (Serve 1 5)) 2 3 1 }
    ensures before { values (after two_callers) ≡ 400 ∷ 400 ∷ 0 ∷ [] }
    ensures after { values (after (two_callers ++ Trap 1 0 (Serve 1 5) ∷ [])) ≡ 100 ∷ 400 ∷ 100 ∷ [] }
{}

/// A thread waits for a mutex: its owner gets the thread's value.
pub fn mutex_wait()
    ensures waits { WaitsFor (after owner_runs) (Trap 2 0 (Lock 1)) 2 1 }
    ensures before { values (after owner_runs) ≡ 50 ∷ 100 ∷ [] }
    ensures after { values (after (owner_runs ++ Trap 2 0 (Lock 1) ∷ [])) ≡ 150 ∷ 100 ∷ [] }
    ensures together { live_value (after (owner_runs ++ Trap 2 0 (Lock 1) ∷ [])) ≡ 150 }
{}

/// If the owner waits for a call, no live thread gets a waiter's value, and the waiter is worth nothing. So the law
/// requires a backed owner.
pub fn owner_not_backed()
    ensures waits { WaitsFor (after owner_receives) (Trap 2 0 (Lock 1)) 2 1 }
    ensures before { values (after owner_receives) ≡ 0 ∷ 100 ∷ [] }
    ensures after { values (after (owner_receives ++ Trap 2 0 (Lock 1) ∷ [])) ≡ 0 ∷ 0 ∷ [] }
{}
