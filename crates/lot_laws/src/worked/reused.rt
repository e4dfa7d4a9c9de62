//! Worked rows for limits and numbers, with `reuse` and without (4.7).
ghost use Rattle.std.specs.Prelude.{◌≡◌, [], ◌∷◌, ◌++◌, codes};
ghost use Rattle.lot_machine.specs.Named.{thread_given};
ghost use Rattle.lot_machine.specs.State.{opening};
ghost use Rattle.lot_machine.specs.Worked.{after_in, answers_in, mktkt, mkcur, mkthr, fundx, base};
ghost use Rattle.lot_machine.specs.Worked.{largest, two_of_each, two_in_all};
ghost use Rattle.lot_machine.specs.declared.refusal.Refusal.TheVariants as refusal;
ghost use Rattle.lot_machine.specs.declared.reply.Reply.TheVariants as reply;
ghost use Rattle.lot_laws.specs.Numbers.{counted, ticket_given, currency_given, numbers_given};
ghost use Rattle.lot_laws.specs.Runs.{ticket_removed, currency_removed};

/// One of two tickets is removed, and one of two currencies: with `reuse` one of each counts, so the next is made.
/// Without it both count, so the next is refused, as full if nothing else refuses it. Base counts beside the limit.
pub fn two_of_each_at_most()
    ensures tickets { counted (after_in two_of_each ticket_removed) (after_in two_of_each ticket_removed).tickets ≡ 1 }
    ensures next { answers_in two_of_each ticket_removed (mktkt 7 base ∷ mktkt 7 base ∷ [])
        ≡ reply.Ticket 1 ∷ reply.Refused refusal.Full ∷ [] }
    ensures all_tickets { counted (after_in two_in_all ticket_removed) (after_in two_in_all ticket_removed).tickets
        ≡ 2 }
    ensures none { answers_in two_in_all ticket_removed (mktkt 7 base ∷ mktkt 0 base ∷ mktkt 7 (codes "g") ∷ [])
        ≡ reply.Refused refusal.Full ∷ reply.Refused refusal.BadAmount ∷ reply.Refused refusal.NoCurrency ∷ [] }
    ensures currencies { counted (after_in two_of_each currency_removed)
        (after_in two_of_each currency_removed).currencies ≡ 2 }
    ensures all_currencies { counted (after_in two_in_all currency_removed)
        (after_in two_in_all currency_removed).currencies ≡ 3 }
{}

/// The numbers that runs give: without `reuse` each once, and with it a removed ticket's number again. A command that
/// makes a thread and its ticket gives a number of each.
pub fn numbers()
    ensures once { numbers_given ticket_given (opening largest) (ticket_removed ++ mktkt 7 base ∷ [])
        ≡ 1 ∷ 2 ∷ 3 ∷ [] }
    ensures again { numbers_given ticket_given (opening two_of_each) (ticket_removed ++ mktkt 7 base ∷ [])
        ≡ 1 ∷ 2 ∷ 1 ∷ [] }
    ensures currencies { numbers_given currency_given (opening largest) (currency_removed ++ mkcur (codes "c") ∷ [])
        ≡ 1 ∷ 2 ∷ 3 ∷ [] }
    ensures funded { numbers_given ticket_given (opening largest) (mktkt 5 base ∷ fundx 5 base (codes "a")
        ∷ mkthr (codes "b") ∷ []) ≡ 1 ∷ 2 ∷ [] }
    ensures threads { numbers_given thread_given (opening largest) (mktkt 5 base ∷ fundx 5 base (codes "a")
        ∷ mkthr (codes "b") ∷ []) ≡ 1 ∷ 2 ∷ [] }
{}
