//! Transfers lose nothing: a thread that blocks passes its value to the thread that it waits for, and gets it back
//! with the reply (3.1, 4.6, 6.1), unless the kernel is without lending.
ghost use Rattle.std.specs.Prelude.{◌≡◌, ◌≢◌, ◌⊎◌, ◌+◌, ℕ, false, sum_by};
ghost use Rattle.lot_machine.specs.declared.event.Event.{Event};
ghost use Rattle.lot_machine.specs.Lends.{LendsLead, IsBacked};
ghost use Rattle.lot_machine.specs.State.{State, funding_of, live_of, value_of};
ghost use Rattle.lot_machine.specs.Facts.{live_value};
ghost use Rattle.lot_machine.specs.Order.{IsInOrder};
ghost use Rattle.lot_machine.specs.Step.{step};
ghost use Rattle.lot_laws.specs.Reachable.{IsReachable};
ghost use Rattle.lot_laws.specs.Transfers.{LendsServed, TakesCall, QueuesCall, TakesQueuedCall, RepliesTo};
ghost use Rattle.lot_laws.specs.Transfers.{RepliesThenWaits, RepliesThenReceives, LendsQueued, QueuesAt};
ghost use Rattle.lot_laws.specs.Transfers.{TakesCallAt, ServesNextAt, Serves, port_value, callers_of};
ghost use Rattle.lot_laws.specs.Transfers.{with_callers_ready, MayWait, WaitsFor, OwnsNothing, with_ready};

/// A server with nothing of its own is worth nothing. Once it takes a call, it is worth exactly as much as the caller
/// was before. Every other thread, and the caller, keeps its value, and so does the sum over the live threads.
pub fn calls_transfer_value()
    ensures before { (s : State) (server : ℕ) → IsInOrder s → OwnsNothing s server → value_of s server ≡ 0 }
    ensures server { (s : State) (e : Event) (caller server : ℕ) → IsInOrder s
        → LendsServed s → TakesCall s e caller server
        → OwnsNothing s server → value_of (step s e).state server ≡ value_of s caller }
    ensures others { (s : State) (e : Event) (caller server other : ℕ) → IsInOrder s
        → LendsServed s → TakesCall s e caller server
        → OwnsNothing s server → other ≢ server
        → value_of (step s e).state other ≡ value_of s other }
    ensures together { (s : State) (e : Event) (caller server : ℕ) → IsInOrder s
        → LendsServed s → TakesCall s e caller server
        → OwnsNothing s server → live_value (step s e).state ≡ live_value s }
{}

/// The same with `queued_lend`, in a reachable state: no call is queued at the port, since a server waits there, so the
/// port's new server gets nothing else.
pub fn calls_taken_at_once_move_no_queue()
    ensures server { (s : State) (e : Event) (caller server : ℕ) → IsReachable s
        → LendsQueued s → TakesCall s e caller server
        → OwnsNothing s server → value_of (step s e).state server ≡ value_of s caller }
    ensures others { (s : State) (e : Event) (caller server other : ℕ) → IsReachable s
        → LendsQueued s → TakesCall s e caller server
        → OwnsNothing s server → other ≢ server
        → value_of (step s e).state other ≡ value_of s other }
    ensures together { (s : State) (e : Event) (caller server : ℕ) → IsReachable s
        → LendsQueued s → TakesCall s e caller server
        → OwnsNothing s server → live_value (step s e).state ≡ live_value s }
{}

/// A caller is worth nothing while its call is queued. A server that takes the call gains the value that the caller
/// would have if it were Ready; all other values and the sum are as in that case.
pub fn receipts_transfer_value()
    ensures queued { (s : State) (e : Event) (caller server : ℕ) → IsInOrder s → s.limits.queued_lend ≡ false
        → TakesQueuedCall s e caller server → value_of s caller ≡ 0 }
    ensures server { (s : State) (e : Event) (caller server : ℕ) → IsInOrder s
        → LendsServed s → TakesQueuedCall s e caller server
        → value_of (step s e).state server
        ≡ value_of (with_ready s caller) server + value_of (with_ready s caller) caller }
    ensures alone { (s : State) (e : Event) (caller server : ℕ) → IsInOrder s
        → LendsServed s → TakesQueuedCall s e caller server
        → OwnsNothing s server
        → value_of (step s e).state server ≡ value_of (with_ready s caller) caller }
    ensures others { (s : State) (e : Event) (caller server other : ℕ) → IsInOrder s
        → LendsServed s → TakesQueuedCall s e caller server → other ≢ server
        → value_of (step s e).state other ≡ value_of (with_ready s caller) other }
    ensures together { (s : State) (e : Event) (caller server : ℕ) → IsInOrder s
        → LendsServed s → TakesQueuedCall s e caller server
        → live_value (step s e).state ≡ live_value (with_ready s caller) }
{}

/// A queued call that a running server takes in the next event transfers as much as a call that a waiting server
/// takes at once.
pub fn queued_calls_transfer_value()
    ensures server { (s : State) (e next : Event) (caller server : ℕ) → IsInOrder s
        → LendsServed s → QueuesCall s e caller
        → TakesQueuedCall (step s e).state next caller server
        → value_of (step (step s e).state next).state server ≡ value_of s server + value_of s caller }
    ensures alone { (s : State) (e next : Event) (caller server : ℕ) → IsInOrder s
        → LendsServed s → QueuesCall s e caller
        → TakesQueuedCall (step s e).state next caller server → OwnsNothing s server
        → value_of (step (step s e).state next).state server ≡ value_of s caller }
    ensures others { (s : State) (e next : Event) (caller server other : ℕ) → IsInOrder s
        → LendsServed s → QueuesCall s e caller
        → TakesQueuedCall (step s e).state next caller server → other ≢ server
        → value_of (step (step s e).state next).state other ≡ value_of s other }
    ensures together { (s : State) (e next : Event) (caller server : ℕ) → IsInOrder s
        → LendsServed s → QueuesCall s e caller
        → TakesQueuedCall (step s e).state next caller server
        → live_value (step (step s e).state next).state ≡ live_value s }
{}

/// A server that replies gives back exactly the caller's value, which is all its own if it is left with nothing. Every
/// other thread, and the caller, keeps its value, and so does the sum over the live threads.
pub fn replies_return_value()
    ensures server { (s : State) (e : Event) (caller server : ℕ) → IsInOrder s
        → s.limits.without_lending ≡ false → RepliesTo s e caller server
        → value_of s server ≡ value_of (step s e).state server + value_of s caller }
    ensures alone { (s : State) (e : Event) (caller server : ℕ) → IsInOrder s
        → s.limits.without_lending ≡ false → RepliesTo s e caller server
        → OwnsNothing (step s e).state server → value_of s server ≡ value_of s caller }
    ensures caller { (s : State) (e : Event) (caller server : ℕ) → IsInOrder s
        → s.limits.without_lending ≡ false → RepliesTo s e caller server
        → value_of (step s e).state caller ≡ value_of s caller }
    ensures others { (s : State) (e : Event) (caller server other : ℕ) → IsInOrder s
        → s.limits.without_lending ≡ false → RepliesTo s e caller server
        → other ≢ server → value_of (step s e).state other ≡ value_of s other }
    ensures together { (s : State) (e : Event) (caller server : ℕ) → IsInOrder s
        → s.limits.without_lending ≡ false → RepliesTo s e caller server
        → live_value (step s e).state ≡ live_value s }
{}

/// A server that replies and then waits for a call, in one trap, and is left with nothing, gives back as much as with
/// a reply alone.
pub fn servings_return_value()
    ensures server { (s : State) (e : Event) (caller server : ℕ) → IsInOrder s
        → s.limits.without_lending ≡ false → RepliesThenWaits s e caller server
        → OwnsNothing (step s e).state server → value_of s server ≡ value_of s caller }
    ensures others { (s : State) (e : Event) (caller server other : ℕ) → IsInOrder s
        → s.limits.without_lending ≡ false → RepliesThenWaits s e caller server → other ≢ server
        → OwnsNothing (step s e).state server
        → value_of (step s e).state other ≡ value_of s other }
    ensures together { (s : State) (e : Event) (caller server : ℕ) → IsInOrder s
        → s.limits.without_lending ≡ false → RepliesThenWaits s e caller server → OwnsNothing (step s e).state server
        → live_value (step s e).state ≡ live_value s }
{}

/// A server that replies and then takes the next caller's queued call, in one trap, gains the value that this caller
/// would have if both callers were Ready; all other values and the sum are as in that case.
pub fn servings_transfer_value()
    ensures server { (s : State) (e : Event) (caller next server : ℕ) → IsInOrder s
        → LendsServed s → RepliesThenReceives s e caller next server
        → value_of (step s e).state server
        ≡ value_of (with_ready (with_ready s caller) next) server
        + value_of (with_ready (with_ready s caller) next) next }
    ensures others { (s : State) (e : Event) (caller next server other : ℕ) → IsInOrder s
        → LendsServed s → RepliesThenReceives s e caller next server → other ≢ server
        → value_of (step s e).state other ≡ value_of (with_ready (with_ready s caller) next) other }
    ensures together { (s : State) (e : Event) (caller next server : ℕ) → IsInOrder s
        → LendsServed s → RepliesThenReceives s e caller next server
        → live_value (step s e).state ≡ live_value (with_ready (with_ready s caller) next) }
{}

/// With `queued_lend` a caller whose call is queued passes its value to the port's server, and to each thread to which
/// the server's lends lead: exactly as much as to a server that takes its call at once. Every other thread keeps its
/// value, and so does the sum over the live threads. The server must be backed, and its lends must not lead to the
/// caller.
pub fn queued_calls_lend()
    ensures server { (s : State) (e : Event) (caller port server : ℕ) → IsInOrder s → LendsQueued s
        → QueuesAt s e caller port → Serves s port server → IsBacked (funding_of s) (live_of s) server
        → ¬ LendsLead (funding_of s) server caller
        → value_of (step s e).state server ≡ value_of s server + value_of s caller }
    ensures behind { (s : State) (e : Event) (caller port server behind : ℕ) → IsInOrder s → LendsQueued s
        → QueuesAt s e caller port → Serves s port server → IsBacked (funding_of s) (live_of s) server
        → ¬ LendsLead (funding_of s) server caller → LendsLead (funding_of s) server behind
        → value_of (step s e).state behind ≡ value_of s behind + value_of s caller }
    ensures others { (s : State) (e : Event) (caller port server other : ℕ) → IsInOrder s → LendsQueued s
        → QueuesAt s e caller port → Serves s port server → IsBacked (funding_of s) (live_of s) server
        → ¬ LendsLead (funding_of s) server caller → ¬ LendsLead (funding_of s) server other
        → value_of (step s e).state other ≡ value_of s other }
    ensures together { (s : State) (e : Event) (caller port server : ℕ) → IsInOrder s → LendsQueued s
        → QueuesAt s e caller port → Serves s port server → IsBacked (funding_of s) (live_of s) server
        → ¬ LendsLead (funding_of s) server caller
        → live_value (step s e).state ≡ live_value s }
{}

/// With `queued_lend` a thread that takes a queued call is the port's server from then on, and the callers' loans move
/// to it: the server before it, and each thread to which that one's lends lead, loses the port's value, and the new
/// server gains it. A server that had it already, as the port's server itself, keeps its value. So does every other
/// thread, and the sum over the live threads. The server before must be backed.
pub fn receipts_move_the_queue()
    ensures gains { (s : State) (e : Event) (port caller server before : ℕ) → IsInOrder s → LendsQueued s
        → TakesCallAt s e port caller server → Serves s port before → IsBacked (funding_of s) (live_of s) before
        → ¬ LendsLead (funding_of s) before server
        → value_of (step s e).state server ≡ value_of s server + port_value s port }
    ensures keeps { (s : State) (e : Event) (port caller server before : ℕ) → IsInOrder s → LendsQueued s
        → TakesCallAt s e port caller server → Serves s port before → IsBacked (funding_of s) (live_of s) before
        → LendsLead (funding_of s) before server
        → value_of (step s e).state server ≡ value_of s server }
    ensures loses { (s : State) (e : Event) (port caller server before behind : ℕ) → IsInOrder s → LendsQueued s
        → TakesCallAt s e port caller server → Serves s port before → IsBacked (funding_of s) (live_of s) before
        → LendsLead (funding_of s) before behind → behind ≢ server
        → value_of s behind ≡ value_of (step s e).state behind + port_value s port }
    ensures others { (s : State) (e : Event) (port caller server before other : ℕ) → IsInOrder s → LendsQueued s
        → TakesCallAt s e port caller server → Serves s port before → IsBacked (funding_of s) (live_of s) before
        → ¬ LendsLead (funding_of s) before other → other ≢ server
        → value_of (step s e).state other ≡ value_of s other }
    ensures together { (s : State) (e : Event) (port caller server before : ℕ) → IsInOrder s → LendsQueued s
        → TakesCallAt s e port caller server → Serves s port before → IsBacked (funding_of s) (live_of s) before
        → live_value (step s e).state ≡ live_value s }
{}

/// With `queued_lend` a thread that takes a queued call in a reachable state gains the value that all the callers would
/// have if they were Ready, whoever was the port's server; all other values and the sum are as in that case. So no
/// value is lost while calls wait at a port without a server, or with one that isn't backed.
pub fn receipts_gather_the_queue()
    ensures server { (s : State) (e : Event) (port caller server : ℕ) → IsReachable s → LendsQueued s
        → TakesCallAt s e port caller server
        → value_of (step s e).state server ≡ value_of (with_callers_ready s port) server
        + sum_by (value_of (with_callers_ready s port)) (callers_of s.ports port) }
    ensures others { (s : State) (e : Event) (port caller server other : ℕ) → IsReachable s → LendsQueued s
        → TakesCallAt s e port caller server → other ≢ server
        → value_of (step s e).state other ≡ value_of (with_callers_ready s port) other }
    ensures together { (s : State) (e : Event) (port caller server : ℕ) → IsReachable s → LendsQueued s
        → TakesCallAt s e port caller server
        → live_value (step s e).state ≡ live_value (with_callers_ready s port) }
{}

/// The same for a server that replies and then takes the next caller's queued call, in one trap, against the state in
/// which the answered caller is Ready too.
pub fn servings_gather_the_queue()
    ensures server { (s : State) (e : Event) (port caller next server : ℕ) → IsReachable s → LendsQueued s
        → ServesNextAt s e port caller next server
        → value_of (step s e).state server ≡ value_of (with_callers_ready (with_ready s caller) port) server
        + sum_by (value_of (with_callers_ready (with_ready s caller) port)) (callers_of s.ports port) }
    ensures others { (s : State) (e : Event) (port caller next server other : ℕ) → IsReachable s → LendsQueued s
        → ServesNextAt s e port caller next server → other ≢ server
        → value_of (step s e).state other ≡ value_of (with_callers_ready (with_ready s caller) port) other }
    ensures together { (s : State) (e : Event) (port caller next server : ℕ) → IsReachable s → LendsQueued s
        → ServesNextAt s e port caller next server
        → live_value (step s e).state ≡ live_value (with_callers_ready (with_ready s caller) port) }
{}

/// With `queued_lend` a server that replies and then takes the next caller's queued call, in one trap, gives back the
/// answered caller's value, and the callers' loans move to it as by a receipt alone. So the port's own server gives
/// back exactly that much (`own`). Another one gains the port's value too (`gains`), unless it has it already
/// (`keeps`).
pub fn servings_move_the_queue()
    ensures own { (s : State) (e : Event) (port caller next server : ℕ) → IsInOrder s → LendsQueued s
        → ServesNextAt s e port caller next server → Serves s port server
        → value_of s server ≡ value_of (step s e).state server + value_of s caller }
    ensures gains { (s : State) (e : Event) (port caller next server before : ℕ) → IsInOrder s → LendsQueued s
        → ServesNextAt s e port caller next server → Serves s port before → IsBacked (funding_of s) (live_of s) before
        → (¬ LendsLead (funding_of s) before server) ⊎ LendsLead (funding_of s) before caller
        → value_of (step s e).state server + value_of s caller ≡ value_of s server + port_value s port }
    ensures keeps { (s : State) (e : Event) (port caller next server before : ℕ) → IsInOrder s → LendsQueued s
        → ServesNextAt s e port caller next server → Serves s port before → IsBacked (funding_of s) (live_of s) before
        → LendsLead (funding_of s) before server → ¬ LendsLead (funding_of s) before caller
        → value_of s server ≡ value_of (step s e).state server + value_of s caller }
    ensures loses { (s : State) (e : Event) (port caller next server before behind : ℕ) → IsInOrder s → LendsQueued s
        → ServesNextAt s e port caller next server → Serves s port before → IsBacked (funding_of s) (live_of s) before
        → LendsLead (funding_of s) before behind → behind ≢ server
        → value_of s behind ≡ value_of (step s e).state behind + port_value s port }
    ensures others { (s : State) (e : Event) (port caller next server before other : ℕ) → IsInOrder s → LendsQueued s
        → ServesNextAt s e port caller next server → Serves s port before → IsBacked (funding_of s) (live_of s) before
        → ¬ LendsLead (funding_of s) before other → other ≢ server
        → value_of (step s e).state other ≡ value_of s other }
    ensures together { (s : State) (e : Event) (port caller next server before : ℕ) → IsInOrder s → LendsQueued s
        → ServesNextAt s e port caller next server → Serves s port before → IsBacked (funding_of s) (live_of s) before
        → live_value (step s e).state ≡ live_value s }
{}

/// A thread that waits for a mutex passes its value to the owner, and to each thread to which the owner's lends lead.
/// An owner with nothing of its own is then worth exactly that. Every other thread, and the waiter, keeps its value,
/// and so does the sum over the live threads. The owner must be backed: otherwise the waiter's value goes to no live
/// thread, as `worked::transfers::owner_not_backed` shows.
pub fn waits_transfer_value()
    ensures owner { (s : State) (e : Event) (t owner : ℕ) → IsInOrder s
        → s.limits.without_lending ≡ false → WaitsFor s e t owner
        → MayWait s t owner → IsBacked (funding_of s) (live_of s) owner
        → value_of (step s e).state owner ≡ value_of s owner + value_of s t }
    ensures alone { (s : State) (e : Event) (t owner : ℕ) → IsInOrder s
        → s.limits.without_lending ≡ false → WaitsFor s e t owner
        → MayWait s t owner → IsBacked (funding_of s) (live_of s) owner → OwnsNothing s owner
        → value_of (step s e).state owner ≡ value_of s t }
    ensures behind { (s : State) (e : Event) (t owner behind : ℕ) → IsInOrder s
        → s.limits.without_lending ≡ false → WaitsFor s e t owner
        → MayWait s t owner → IsBacked (funding_of s) (live_of s) owner → LendsLead (funding_of s) owner behind
        → value_of (step s e).state behind ≡ value_of s behind + value_of s t }
    ensures others { (s : State) (e : Event) (t owner other : ℕ) → IsInOrder s
        → s.limits.without_lending ≡ false → WaitsFor s e t owner
        → MayWait s t owner → IsBacked (funding_of s) (live_of s) owner → ¬ LendsLead (funding_of s) owner other
        → value_of (step s e).state other ≡ value_of s other }
    ensures together { (s : State) (e : Event) (t owner : ℕ) → IsInOrder s
        → s.limits.without_lending ≡ false → WaitsFor s e t owner
        → MayWait s t owner → IsBacked (funding_of s) (live_of s) owner → live_value (step s e).state ≡ live_value s }
{}
