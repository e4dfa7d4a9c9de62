//! Worked rows for names: threads without a name, good names, and plain names.
ghost use Rattle.std.specs.Prelude.{◌≡◌, [], ◌∷◌, codes, true};
ghost use Rattle.lot_machine.specs.declared.command.Command.TheVariants.{Fund, Kill};
ghost use Rattle.lot_machine.specs.declared.event.Event.TheVariants.{Command};
ghost use Rattle.lot_machine.specs.declared.reference.TargetRef.TheVariants as target_ref;
ghost use Rattle.lot_machine.specs.declared.reference.ThreadRef.TheVariants as thread_ref;
ghost use Rattle.lot_machine.specs.declared.record.Status.TheVariants as status;
ghost use Rattle.lot_machine.specs.declared.reply.Reply.TheVariants as reply;
ghost use Rattle.lot_machine.specs.declared.refusal.Refusal.TheVariants as refusal;
ghost use Rattle.lot_machine.specs.declared.ticket.Target.TheVariants as target;
ghost use Rattle.lot_machine.specs.Rows.{ticket_row, thread_row};
ghost use Rattle.lot_machine.specs.Worked.{after, answers, answers_in, any_printable, base, mktkt, mkcur, rmcur, mkthr};
ghost use Rattle.lot_machine.specs.Worked.{rmthr, kill, fundx, fund, ticket_shown, thread_shown};

/// Any number of threads may have no name; a currency must have one. No command can name such a thread: commands mean
/// it by its number.
pub fn no_name()
    ensures made { answers [] (mkthr [] ∷ mkthr [] ∷ fundx 5 base [] ∷ mkcur [] ∷ [])
        ≡ reply.Thread 1 ∷ reply.Thread 2 ∷ reply.Funded 1 3 ∷ reply.Refused refusal.BadName ∷ [] }
    ensures by_name { answers (mkthr [] ∷ mktkt 5 base ∷ []) (fund 1 [] ∷ kill [] ∷ rmthr [] ∷ mktkt 5 []
        ∷ rmcur [] ∷ [])
        ≡ reply.Refused refusal.NoTarget ∷ reply.Refused refusal.NoThread ∷ reply.Refused refusal.NoThread
        ∷ reply.Refused refusal.NoCurrency ∷ reply.Refused refusal.NoCurrency ∷ [] }
    ensures by_number { answers (mkthr [] ∷ mktkt 5 base ∷ []) (Command (Fund 1 (target_ref.Thread 1))
        ∷ Command (Kill (thread_ref.Numbered 1)) ∷ [])
        ≡ reply.Done ∷ reply.Killed 1 ∷ [] }
    ensures thread { thread_row (after (fundx 5 base [] ∷ [])) 1 ≡ thread_shown [] status.Ready 5 5 0 0 }
    ensures ticket { ticket_row (after (fundx 5 base [] ∷ [])) 1 ≡ ticket_shown 5 base [] (target.Thread 1) true 5 }
{}

/// Without plain names a name is a letter, followed by letters, digits, `_` or `-`.
pub fn good_names()
    ensures { answers [] (mkthr (codes "Job") ∷ mkthr (codes "9a") ∷ mkcur (codes "a!") ∷ mkthr (codes "a-_9") ∷ [])
        ≡ reply.Refused refusal.BadName ∷ reply.Refused refusal.BadName ∷ reply.Refused refusal.BadName
        ∷ reply.Thread 1 ∷ [] }
{}

/// With plain names a name may have any printable ASCII but the space, from byte 33 to 126.
pub fn plain_names()
    ensures bytes { answers_in any_printable [] (mkthr (33 ∷ []) ∷ mkcur (126 ∷ []) ∷ mkthr (32 ∷ []) ∷ mkcur (127 ∷ [])
        ∷ mkthr (codes "job #1") ∷ mkthr (codes "Job#1") ∷ [])
        ≡ reply.Thread 1 ∷ reply.Currency 1 ∷ reply.Refused refusal.BadName ∷ reply.Refused refusal.BadName
        ∷ reply.Refused refusal.BadName ∷ reply.Thread 2 ∷ [] }
    ensures others { answers_in any_printable (mkthr (codes "Job#1") ∷ []) (mkcur (codes "Job#1") ∷ mkthr base
        ∷ mkcur [] ∷ mkthr [] ∷ rmthr (codes "Job#2") ∷ [])
        ≡ reply.Refused refusal.NameTaken ∷ reply.Refused refusal.NameTaken ∷ reply.Refused refusal.BadName
        ∷ reply.Thread 2 ∷ reply.Refused refusal.NoThread ∷ [] }
{}
