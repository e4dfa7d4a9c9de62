//! Worked rows for killed threads.
ghost use Rattle.std.specs.Prelude.{◌≡◌, [], ◌∷◌, ◌++◌, codes, false, Some, None};
ghost use Rattle.lot_machine.specs.declared.trap.Trap.TheVariants.{Call, Receive, Reply as ReplyTo, Lock, Sleep};
ghost use Rattle.lot_machine.specs.declared.trap.Trap.TheVariants.{Exit};
ghost use Rattle.lot_machine.specs.declared.command.Command.TheVariants.{Kill, RemoveThread};
ghost use Rattle.lot_machine.specs.declared.event.Event.TheVariants.{Command, Draw, Expire, Trap, Preempt, Wake};
ghost use Rattle.lot_machine.specs.declared.reference.ThreadRef.TheVariants.{Named, Numbered};
ghost use Rattle.lot_machine.specs.Worked.{after, answers, statuses, values, weights, fundx, kill, unfund, base};
ghost use Rattle.lot_machine.specs.WorkedRuns.{many_clients, first_client, second_client, mutex_lottery, mutex_turns};
ghost use Rattle.lot_machine.specs.WorkedRuns.{three_calls};
ghost use Rattle.lot_machine.specs.Rows.{thread_row};
ghost use Rattle.lot_machine.specs.Worked.{thread_shown};
ghost use Rattle.lot_machine.specs.declared.reply.Reply.TheVariants as reply;
ghost use Rattle.lot_machine.specs.declared.reply.Outcome.TheVariants as outcome;
ghost use Rattle.lot_machine.specs.declared.record.Status.TheVariants as status;
ghost use Rattle.lot_machine.specs.declared.refusal.Refusal.TheVariants as refusal;
ghost use Rattle.lot_machine.specs.declared.refusal.TrapRefusal.TheVariants as trap_refusal;

/// A killed running thread leaves its processor idle; other processors run on. The thread is charged nothing more, so a
/// host that charges for the ticks run preempts it first.
pub fn running()
    ensures turns { answers (fundx 400 base (codes "a") ∷ fundx 100 base (codes "b") ∷ [])
        (Draw 1 0 ∷ kill (codes "a") ∷ Expire 1 ∷ Draw 1 99 ∷ [])
        ≡ reply.Winner 1 0 500 None ∷ reply.Killed 1 ∷ reply.Refused refusal.NotRunning
        ∷ reply.Winner 2 99 100 None ∷ [] }
    ensures elsewhere { statuses (after (fundx 400 base (codes "a") ∷ fundx 100 base (codes "b") ∷ Draw 1 0 ∷ Draw 2 0
        ∷ kill (codes "b") ∷ [])) ≡ status.Running 1 0 ∷ status.Dead ∷ [] }
    ensures row { thread_row (after (fundx 400 base (codes "a") ∷ Draw 1 0 ∷ Trap 1 29 (Lock 1) ∷ kill (codes "a")
        ∷ [])) 1 ≡ thread_shown (codes "a") status.Dead 0 0 1 30 }
    ensures charged { thread_row (after (fundx 400 base (codes "a") ∷ Draw 1 0 ∷ Preempt 1 50 ∷ kill (codes "a") ∷ []))
        1 ≡ thread_shown (codes "a") status.Dead 0 0 1 50 }
{}

/// The call of a killed thread is withdrawn; the calls before and after it stay in order (4.6).
pub fn callers()
    ensures ports { (after (many_clients ++ three_calls ++ kill (codes "c") ∷ [])).ports
        ≡ record {
          calls = record { caller = 1; number = 7 } ∷ record { caller = 3; number = 9 } ∷ [];
          receivers = [];
        }
        ∷ record { calls = []; receivers = [] } ∷ [] }
    ensures statuses { statuses (after (many_clients ++ three_calls ++ kill (codes "c") ∷ []))
        ≡ status.Queued 1 ∷ status.Dead ∷ status.Queued 1 ∷ [] }
{}

/// A killed receiver takes no call (4.6).
pub fn receivers()
    ensures { answers (many_clients ++ Draw 1 0 ∷ Trap 1 0 (Receive 1) ∷ [])
        (kill (codes "v") ∷ Draw 1 0 ∷ Trap 1 0 (Call 1 5) ∷ [])
        ≡ reply.Killed 1 ∷ reply.Winner 2 0 50 None ∷ reply.Trapped 2 1 outcome.Queued false ∷ [] }
{}

/// The clients of a killed server are Ready: their calls return with nothing delivered, and their compensation stays.
/// A client that is killed gets no reply (4.6).
pub fn servers()
    ensures clients { (after (many_clients ++ first_client ++ second_client ++ kill (codes "v") ∷ [])).clients
        ≡ [] ∷ [] ∷ [] ∷ [] }
    ensures statuses { statuses (after (many_clients ++ first_client ++ second_client ++ kill (codes "v") ∷ []))
        ≡ status.Dead ∷ status.Ready ∷ status.Ready ∷ [] }
    ensures values { values (after (many_clients ++ first_client ++ second_client ++ kill (codes "v") ∷ []))
        ≡ 0 ∷ 20 ∷ 30 ∷ [] }
    ensures nothing { answers (many_clients ++ first_client ++ second_client) (kill (codes "v") ∷ Draw 1 0 ∷ [])
        ≡ reply.Killed 1 ∷ reply.Winner 2 0 5000 None ∷ [] }
    ensures client { answers (many_clients ++ first_client ++ second_client)
        (kill (codes "c") ∷ Trap 1 0 (ReplyTo 9) ∷ Trap 1 0 (ReplyTo 9) ∷ [])
        ≡ reply.Killed 2 ∷ reply.Trapped 1 1 (outcome.Replied 3) false
        ∷ reply.Trapped 1 1 (outcome.Refused trap_refusal.NothingToReply) false ∷ [] }
{}

/// The mutex of a killed owner passes to the thread that has waited longest, or is free if none waits. A killed waiter
/// leaves the queue (6.1).
pub fn owners()
    ensures passed { (after (mutex_lottery ++ mutex_turns ++ kill (codes "a") ∷ [])).mutexes
        ≡ record { owner = Some 2; waiters = 3 ∷ [] } ∷ record { owner = None; waiters = [] } ∷ [] }
    ensures statuses { statuses (after (mutex_lottery ++ mutex_turns ++ kill (codes "a") ∷ []))
        ≡ status.Dead ∷ status.Ready ∷ status.Waiting 1 ∷ [] }
    ensures values { values (after (mutex_lottery ++ mutex_turns ++ kill (codes "a") ∷ [])) ≡ 0 ∷ 400 ∷ 300 ∷ [] }
    ensures weights { weights (after (mutex_lottery ++ mutex_turns ++ kill (codes "a") ∷ []))
        ≡ 0 ∷ 40000 ∷ 30000 ∷ [] }
    ensures freed { (after (many_clients ++ Draw 1 0 ∷ Trap 1 0 (Lock 2) ∷ kill (codes "v") ∷ [])).mutexes
        ≡ record { owner = None; waiters = [] } ∷ record { owner = None; waiters = [] } ∷ [] }
    ensures waiter { (after (mutex_lottery ++ mutex_turns ++ kill (codes "b") ∷ [])).mutexes
        ≡ record { owner = Some 1; waiters = 3 ∷ [] } ∷ record { owner = None; waiters = [] } ∷ [] }
    ensures waits { statuses (after (mutex_lottery ++ mutex_turns ++ kill (codes "b") ∷ []))
        ≡ status.Running 1 0 ∷ status.Dead ∷ status.Waiting 1 ∷ [] }
{}

/// A sleeper can be killed, and not woken afterwards. A thread that has ended can't be killed, nor can one that doesn't
/// exist.
pub fn refusals()
    ensures sleeper { answers (fundx 400 base (codes "a") ∷ Draw 1 0 ∷ Trap 1 0 (Sleep tt) ∷ [])
        (kill (codes "a") ∷ Wake 1 ∷ Draw 1 0 ∷ [])
        ≡ reply.Killed 1 ∷ reply.Refused refusal.NotAsleep ∷ reply.Idle ∷ [] }
    ensures dead { answers (fundx 400 base (codes "a") ∷ fundx 100 base (codes "b") ∷ Draw 1 0 ∷ Trap 1 0 Exit ∷ [])
        (kill (codes "a") ∷ kill (codes "c") ∷ Command (Kill (Numbered 2)) ∷ Command (Kill (Numbered 2))
        ∷ Command (Kill (Numbered 3)) ∷ Command (Kill (Numbered 0)) ∷ [])
        ≡ reply.Refused refusal.DeadThread ∷ reply.Refused refusal.NoThread ∷ reply.Killed 2
        ∷ reply.Refused refusal.DeadThread ∷ reply.Refused refusal.NoThread ∷ reply.Refused refusal.NoThread ∷ [] }
    ensures removed { answers (fundx 400 base (codes "a") ∷ kill (codes "a") ∷ [])
        (Command (RemoveThread (Named (codes "a"))) ∷ unfund 1 ∷ Command (RemoveThread (Named (codes "a")))
        ∷ kill (codes "a") ∷ [])
        ≡ reply.Refused refusal.InUse ∷ reply.Done ∷ reply.Done ∷ reply.Refused refusal.NoThread ∷ [] }
{}
