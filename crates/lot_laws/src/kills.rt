//! Kills, as laws of the machine: a killed thread is nowhere, and the threads that waited for it go on (4.6, 6.1).
ghost use Rattle.std.specs.Prelude.{◌≡◌, ◌≢◌, ◌+◌, ℕ, List, [], Contains, Some, None, false, drop, slice_get};
ghost use Rattle.lot_machine.specs.declared.reference.ThreadRef.{ThreadRef as Reference};
ghost use Rattle.lot_machine.specs.declared.record.Record.{Record as ARecord};
ghost use Rattle.lot_machine.specs.declared.record.Status.TheVariants as status;
ghost use Rattle.lot_machine.specs.declared.ticket.Ticket.{Ticket as ATicket};
ghost use Rattle.lot_machine.specs.declared.ticket.Target.TheVariants as target;
ghost use Rattle.lot_machine.specs.Activity.{is_active};
ghost use Rattle.lot_machine.specs.Numbered.{at_number};
ghost use Rattle.lot_machine.specs.Order.{IsInOrder};
ghost use Rattle.lot_machine.specs.Ports.{clients_of};
ghost use Rattle.lot_machine.specs.Facts.{live_value};
ghost use Rattle.lot_machine.specs.Lends.{borrower_of, IsBacked, LendsLead};
ghost use Rattle.lot_machine.specs.State.{State, Mutex, funding_of, live_of, status_of, value_of};
ghost use Rattle.lot_laws.specs.Kills.{HasOnlyClients, Kills, Owns, WaitsForThread, after_kill};
ghost use Rattle.lot_laws.specs.Reachable.{IsReachable};
ghost use Rattle.lot_laws.specs.Removed.{StandsNowhere};

/// A killed thread is dead without compensation, and keeps its quanta and its ticks. If the state is reachable, only
/// tickets refer to it afterwards: it is in no queue, serves nobody and owns no mutex, and no thread lends to it.
pub fn killed_threads_are_nowhere()
    ensures record { (s : State) (thread : Reference) (t : ℕ) (r : ARecord) → Kills s thread t
        → at_number s.records t ≡ Some r
        → at_number (after_kill s thread).records t ≡ Some (record r { status = status.Dead; compensation = None }) }
    ensures lists { (s : State) (thread : Reference) (t : ℕ) → IsReachable s → Kills s thread t
        → StandsNowhere (after_kill s thread) t }
    ensures serves { (s : State) (thread : Reference) (t : ℕ) (clients : List ℕ) → Kills s thread t
        → at_number (after_kill s thread).clients t ≡ Some clients → clients ≡ [] }
    ensures owns { (s : State) (thread : Reference) (t m : ℕ) (mutex : Mutex) → Kills s thread t
        → at_number (after_kill s thread).mutexes m ≡ Some mutex → mutex.owner ≢ Some t }
    ensures lends { (s : State) (thread : Reference) (t u : ℕ) → IsReachable s → Kills s thread t
        → borrower_of (funding_of (after_kill s thread)) u ≢ Some t }
{}

/// Each client of a killed thread is Ready, and so is each thread that has waited longest for one of its mutexes:
/// nothing is delivered to it, and its compensation, quanta and ticks stay. Afterwards that thread owns the mutex,
/// which is free if none waits; the others go on waiting in order.
pub fn kills_end_waits()
    ensures released { (s : State) (thread : Reference) (t u : ℕ) (r : ARecord) → IsInOrder s → Kills s thread t
        → WaitsForThread s t u → at_number s.records u ≡ Some r
        → at_number (after_kill s thread).records u ≡ Some (record r { status = status.Ready }) }
    ensures passed { (s : State) (thread : Reference) (t m : ℕ) (mutex : Mutex) → IsInOrder s → Kills s thread t
        → Owns s t m mutex
        → at_number (after_kill s thread).mutexes m
        ≡ Some (record { owner = slice_get mutex.waiters 0; waiters = drop 1 mutex.waiters }) }
{}

/// In a reachable state each served thread is among the clients of its server, so a kill of the server releases it.
pub fn served_threads_are_listed()
    ensures { (s : State) (u server : ℕ) → IsReachable s → status_of s.records u ≡ Some (status.Served server)
        → Contains (clients_of s.clients server) u }
{}

/// A kill leaves the rest of the state: the record of each thread that doesn't wait for the killed one, each port and
/// mutex where the killed one neither waits nor is the owner, the clients of each thread that doesn't serve it, and all
/// tickets, currencies, names and limits.
pub fn kills_leave_the_rest()
    ensures records { (s : State) (thread : Reference) (t u : ℕ) → IsInOrder s → Kills s thread t → u ≢ t
        → ¬ WaitsForThread s t u → at_number (after_kill s thread).records u ≡ at_number s.records u }
    ensures ports { (s : State) (thread : Reference) (t p : ℕ) → IsInOrder s → Kills s thread t
        → status_of s.records t ≢ Some (status.Queued p) → status_of s.records t ≢ Some (status.Receiving p)
        → at_number (after_kill s thread).ports p ≡ at_number s.ports p }
    ensures mutexes { (s : State) (thread : Reference) (t m : ℕ) → IsInOrder s → Kills s thread t
        → status_of s.records t ≢ Some (status.Waiting m) → ((mutex : Mutex) → ¬ Owns s t m mutex)
        → at_number (after_kill s thread).mutexes m ≡ at_number s.mutexes m }
    ensures clients { (s : State) (thread : Reference) (t server : ℕ) → IsInOrder s → Kills s thread t → server ≢ t
        → status_of s.records t ≢ Some (status.Served server)
        → at_number (after_kill s thread).clients server ≡ at_number s.clients server }
    ensures others { (s : State) (thread : Reference)
        → after_kill s thread ≡ record s {
          records = (after_kill s thread).records;
          clients = (after_kill s thread).clients;
          ports = (after_kill s thread).ports;
          mutexes = (after_kill s thread).mutexes;
        } }
{}

/// A dead thread, as one that is killed, lends to nobody and is worth nothing, and the tickets that fund it are
/// inactive, so they count in no currency's active amount (4.4).
pub fn dead_threads_have_nothing()
    ensures lends { (s : State) (t : ℕ) → status_of s.records t ≡ Some status.Dead
        → borrower_of (funding_of s) t ≡ None }
    ensures worth { (s : State) (t : ℕ) → IsInOrder s → status_of s.records t ≡ Some status.Dead → value_of s t ≡ 0 }
    ensures tickets { (s : State) (t : ℕ) (ticket : ATicket) → IsInOrder s → status_of s.records t ≡ Some status.Dead
        → ticket.target ≡ target.Thread t → is_active (funding_of s) (live_of s) ticket ≡ false }
{}

/// A kill of a server that has nothing but its clients returns what they lend: each thread to which the server's lends
/// lead, itself among them, loses the server's value. Every other thread, the clients among them, keeps its value, and
/// so does the sum over the live threads. The server must be backed. A killed thread with tickets of its own leaves
/// more to others: `worked::kills` shows one.
pub fn kills_return_value()
    ensures behind { (s : State) (thread : Reference) (t behind : ℕ) → IsReachable s
        → s.limits.without_lending ≡ false → Kills s thread t → HasOnlyClients s t
        → IsBacked (funding_of s) (live_of s) t → LendsLead (funding_of s) t behind
        → value_of s behind ≡ value_of (after_kill s thread) behind + value_of s t }
    ensures others { (s : State) (thread : Reference) (t other : ℕ) → IsReachable s
        → s.limits.without_lending ≡ false → Kills s thread t → HasOnlyClients s t
        → IsBacked (funding_of s) (live_of s) t → ¬ LendsLead (funding_of s) t other
        → value_of (after_kill s thread) other ≡ value_of s other }
    ensures together { (s : State) (thread : Reference) (t : ℕ) → IsReachable s
        → s.limits.without_lending ≡ false → Kills s thread t → HasOnlyClients s t
        → IsBacked (funding_of s) (live_of s) t → live_value (after_kill s thread) ≡ live_value s }
{}
