//! Limits count what exists at once in a kernel with `reuse`, and all that was ever made in one without; and no number
//! is given to two things (4.7).
ghost use Rattle.std.specs.Prelude.{◌≡◌, ◌≢◌, ◌+◌, ◌≤◌, ◌⊎◌, ◌↔◌, false, Some, None, is_some, ℕ, List, AllPairs};
ghost use Rattle.std.specs.Prelude.{count_by, length, slice_get};
ghost use Rattle.std.specs.List.{range_with_len};
ghost use Rattle.std.specs.Option.{option_flatten};
ghost use Rattle.lot_machine.specs.declared.event.Event.{Event};
ghost use Rattle.lot_machine.specs.declared.event.Event.TheVariants.{Command};
ghost use Rattle.lot_machine.specs.declared.command.Command.TheVariants.{MakeTicket, MakeCurrency, MakeThread};
ghost use Rattle.lot_machine.specs.declared.command.Command.TheVariants.{MakeFunded};
ghost use Rattle.lot_machine.specs.declared.reference.CurrencyRef.{CurrencyRef};
ghost use Rattle.lot_machine.specs.declared.refusal.Refusal.TheVariants.{Full};
ghost use Rattle.lot_machine.specs.declared.reply.Reply.TheVariants.{Refused};
ghost use Rattle.lot_machine.specs.declared.sizes.Sizes.{Sizes};
ghost use Rattle.lot_machine.specs.Funding.{ticket_in};
ghost use Rattle.lot_machine.specs.Named.{thread_given};
ghost use Rattle.lot_machine.specs.Order.{IsInOrder};
ghost use Rattle.lot_machine.specs.State.{State, opening, thread_at};
ghost use Rattle.lot_machine.specs.Step.{step};
ghost use Rattle.lot_laws.specs.Numbers.{IsGoodTicket, IsGoodCurrency, IsGoodThread};
ghost use Rattle.lot_laws.specs.Numbers.{HasAllTickets, HasAllCurrencies, HasAllThreads};
ghost use Rattle.lot_laws.specs.Numbers.{ticket_given, currency_given, numbers_given};
ghost use Rattle.lot_laws.specs.Reachable.{IsReachable};

/// In a reachable state a command that makes a ticket, a user currency or a thread is refused as full if and only if as
/// many count as the limit allows, and no check before that one refuses it. With `reuse` those count that exist,
/// without it all that were ever made.
pub fn full_means_full()
    ensures ticket { (s : State) (amount : ℕ) (currency : CurrencyRef) → IsReachable s
        → ((step s (Command (MakeTicket amount currency))).reply ≡ Refused Full)
        ↔ (IsGoodTicket s amount currency × HasAllTickets s) }
    ensures currency { (s : State) (name : List ℕ) → IsReachable s
        → ((step s (Command (MakeCurrency name))).reply ≡ Refused Full)
        ↔ (IsGoodCurrency s name × HasAllCurrencies s) }
    ensures thread { (s : State) (name : List ℕ) (script : ℕ) → IsReachable s
        → ((step s (Command (MakeThread name script))).reply ≡ Refused Full)
        ↔ (IsGoodThread s name script × HasAllThreads s) }
    ensures funded { (s : State) (amount : ℕ) (currency : CurrencyRef) (name : List ℕ) (script : ℕ) → IsReachable s
        → ((step s (Command (MakeFunded amount currency name script))).reply ≡ Refused Full)
        ↔ (IsGoodTicket s amount currency × IsGoodThread s name script × (HasAllTickets s ⊎ HasAllThreads s)) }
{}

/// In a reachable state no more tickets, user currencies and threads exist than the limits allow; base is one more
/// currency. Nor do the tables have more places, and without `reuse` these are all that were ever made.
pub fn limits_bound_what_exists()
    ensures tickets { (s : State) → IsReachable s → count_by is_some s.tickets ≤ s.limits.tickets }
    ensures currencies { (s : State) → IsReachable s → count_by is_some s.currencies ≤ s.limits.currencies + 1 }
    ensures threads { (s : State) → IsReachable s → count_by is_some s.threads ≤ s.limits.threads }
    ensures places { (s : State) → IsReachable s → (length s.tickets ≤ s.limits.tickets)
        × (length s.currencies ≤ s.limits.currencies + 1) × (length s.threads ≤ s.limits.threads) }
{}

/// A kernel without `reuse` gives no number twice: over a run from the start, the replies give the tickets the numbers
/// 1, 2, 3 and so on, and so the user currencies and the threads.
pub fn no_number_is_given_twice()
    ensures tickets { (limits : Sizes) (events : List Event) → limits.reuse ≡ false
        → AllPairs (λ a b. a ≢ b) (numbers_given ticket_given (opening limits) events) }
    ensures currencies { (limits : Sizes) (events : List Event) → limits.reuse ≡ false
        → AllPairs (λ a b. a ≢ b) (numbers_given currency_given (opening limits) events) }
    ensures threads { (limits : Sizes) (events : List Event) → limits.reuse ≡ false
        → AllPairs (λ a b. a ≢ b) (numbers_given thread_given (opening limits) events) }
    ensures tickets_in_order { (limits : Sizes) (events : List Event) → limits.reuse ≡ false
        → numbers_given ticket_given (opening limits) events
        ≡ range_with_len 1 (length (numbers_given ticket_given (opening limits) events)) }
    ensures currencies_in_order { (limits : Sizes) (events : List Event) → limits.reuse ≡ false
        → numbers_given currency_given (opening limits) events
        ≡ range_with_len 1 (length (numbers_given currency_given (opening limits) events)) }
    ensures threads_in_order { (limits : Sizes) (events : List Event) → limits.reuse ≡ false
        → numbers_given thread_given (opening limits) events
        ≡ range_with_len 1 (length (numbers_given thread_given (opening limits) events)) }
{}

/// A reply gives a new ticket, currency or thread a number that none has, with `reuse` too.
pub fn numbers_given_are_free()
    ensures ticket { (s : State) (e : Event) (n : ℕ) → IsInOrder s → ticket_given (step s e).reply ≡ Some n
        → ticket_in s.tickets n ≡ None }
    ensures currency { (s : State) (e : Event) (c : ℕ) → IsInOrder s → currency_given (step s e).reply ≡ Some c
        → option_flatten (slice_get s.currencies c) ≡ None }
    ensures thread { (s : State) (e : Event) (t : ℕ) → IsInOrder s → thread_given (step s e).reply ≡ Some t
        → thread_at s.threads t ≡ None }
{}
