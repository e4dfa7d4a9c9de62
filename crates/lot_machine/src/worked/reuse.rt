//! Worked rows for kernels with `reuse` and without.
ghost use Rattle.std.specs.Prelude.{◌≡◌, [], ◌∷◌, ◌++◌, codes, false, None};
ghost use Rattle.lot_machine.specs.declared.trap.Trap.TheVariants.{Exit};
ghost use Rattle.lot_machine.specs.declared.event.Event.TheVariants.{Draw, Trap};
ghost use Rattle.lot_machine.specs.Worked.{after_in, answers_in, mktkt, rmtkt, mkcur, rmcur, mkthr, rmthr, fundx, fund};
ghost use Rattle.lot_machine.specs.Worked.{unfund, base, two_of_each, two_in_all, thread_shown};
ghost use Rattle.lot_machine.specs.WorkedRuns.{one_thread_removed, both_threads_removed};
ghost use Rattle.lot_machine.specs.Rows.{thread_row};
ghost use Rattle.lot_machine.specs.declared.record.Status.TheVariants as status;
ghost use Rattle.lot_machine.specs.declared.reply.Reply.TheVariants as reply;
ghost use Rattle.lot_machine.specs.declared.reply.Outcome.TheVariants as outcome;
ghost use Rattle.lot_machine.specs.declared.refusal.Refusal.TheVariants as refusal;

/// Tickets of a kernel with room for two at once: the next ticket gets a removed one's number, and two removed numbers
/// come back in reverse order.
pub fn tickets()
    ensures again { answers_in two_of_each [] (mktkt 5 base ∷ mktkt 6 base ∷ mktkt 7 base ∷ rmtkt 1 ∷ mktkt 7 base
        ∷ mktkt 8 base ∷ [])
        ≡ reply.Ticket 1 ∷ reply.Ticket 2 ∷ reply.Refused refusal.Full ∷ reply.Done ∷ reply.Ticket 1
        ∷ reply.Refused refusal.Full ∷ [] }
    ensures reversed { answers_in two_of_each (mktkt 5 base ∷ mktkt 6 base ∷ []) (rmtkt 1 ∷ rmtkt 2 ∷ mktkt 7 base
        ∷ mktkt 8 base ∷ mktkt 9 base ∷ [])
        ≡ reply.Done ∷ reply.Done ∷ reply.Ticket 2 ∷ reply.Ticket 1 ∷ reply.Refused refusal.Full ∷ [] }
    ensures once { answers_in two_in_all (mktkt 5 base ∷ mktkt 6 base ∷ []) (rmtkt 1 ∷ mktkt 7 base ∷ [])
        ≡ reply.Done ∷ reply.Refused refusal.Full ∷ [] }
{}

/// Currencies of a kernel with room for two user currencies.
pub fn currencies()
    ensures again { answers_in two_of_each [] (mkcur (codes "a") ∷ mkcur (codes "b") ∷ mkcur (codes "c")
        ∷ rmcur (codes "a") ∷ mkcur (codes "c") ∷ mkcur (codes "d") ∷ [])
        ≡ reply.Currency 1 ∷ reply.Currency 2 ∷ reply.Refused refusal.Full ∷ reply.Done ∷ reply.Currency 1
        ∷ reply.Refused refusal.Full ∷ [] }
    ensures reversed { answers_in two_of_each (mkcur (codes "a") ∷ mkcur (codes "b") ∷ [])
        (rmcur (codes "a") ∷ rmcur (codes "b") ∷ mkcur (codes "c") ∷ mkcur (codes "d") ∷ mkcur (codes "e") ∷ [])
        ≡ reply.Done ∷ reply.Done ∷ reply.Currency 2 ∷ reply.Currency 1 ∷ reply.Refused refusal.Full ∷ [] }
    ensures once { answers_in two_in_all (mkcur (codes "a") ∷ mkcur (codes "b") ∷ []) (rmcur (codes "a")
        ∷ mkcur (codes "c") ∷ [])
        ≡ reply.Done ∷ reply.Refused refusal.Full ∷ [] }
{}

/// Threads of a kernel with room for two: a thread with a reused number has won and used nothing, and has a name of its
/// own.
pub fn threads()
    ensures again { answers_in two_of_each one_thread_removed (mkthr (codes "c") ∷ mkthr (codes "d") ∷ [])
        ≡ reply.Thread 1 ∷ reply.Refused refusal.Full ∷ [] }
    ensures begins_anew { thread_row (after_in two_of_each (one_thread_removed ++ mkthr (codes "c") ∷ [])) 1
        ≡ thread_shown (codes "c") status.Ready 0 0 0 0 }
    ensures funded { answers_in two_of_each (one_thread_removed ++ rmtkt 1 ∷ []) (fundx 7 base (codes "c") ∷ Draw 1 11
        ∷ Draw 1 6 ∷ [])
        ≡ reply.Funded 1 1 ∷ reply.Winner 2 11 12 None ∷ reply.Refused refusal.Busy ∷ [] }
    ensures reversed { answers_in two_of_each both_threads_removed (mkthr (codes "c") ∷ mkthr (codes "d")
        ∷ mkthr (codes "e") ∷ [])
        ≡ reply.Thread 2 ∷ reply.Thread 1 ∷ reply.Refused refusal.Full ∷ [] }
    ensures full { answers_in two_of_each (fundx 5 base (codes "a") ∷ fundx 5 base (codes "b") ∷ [])
        (mkthr (codes "c") ∷ Draw 1 0 ∷ Trap 1 0 Exit ∷ rmthr (codes "a") ∷ unfund 1 ∷ rmthr (codes "a")
        ∷ fund 1 (codes "b") ∷ mkthr (codes "c") ∷ [])
        ≡ reply.Refused refusal.Full ∷ reply.Winner 1 0 10 None ∷ reply.Trapped 1 1 outcome.Exited false
        ∷ reply.Refused refusal.InUse ∷ reply.Done ∷ reply.Done ∷ reply.Done ∷ reply.Thread 1 ∷ [] }
    ensures once { answers_in two_in_all one_thread_removed (mkthr (codes "c") ∷ []) ≡ reply.Refused refusal.Full ∷ [] }
{}
