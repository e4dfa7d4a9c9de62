//! The numbers that a kernel gives, with `reuse` and without: laws of the machine, without executable code.
ghost use Rattle.std.specs.Prelude.{◌≡◌, ◌≢◌, ◌+◌, ◌<◌, ◌≤◌, ◌++◌, ◌∷◌, [], Some, true, false, is_some, ℕ, List};
ghost use Rattle.std.specs.Prelude.{length, count_by};
ghost use Rattle.lot_machine.specs.declared.ticket.Ticket.{Ticket};
ghost use Rattle.lot_machine.specs.State.{State, free_tickets, free_currencies, free_threads};
ghost use Rattle.lot_machine.specs.State.{next_ticket, next_currency, next_thread};
ghost use Rattle.lot_machine.specs.Commands.{with_ticket, with_currency, with_thread, newborn};
ghost use Rattle.lot_machine.specs.Commands.{drop_ticket, drop_currency, drop_thread};
ghost use Rattle.lot_machine.specs.Commands.{are_tickets_full, are_currencies_full, are_threads_full};
ghost use Rattle.lot_machine.specs.Order.{IsInOrder};

/// A kernel without `reuse` gives each number once: one more ticket, currency or thread comes at the end of its table,
/// with the next number.
pub fn numbers_are_given_once()
    ensures tickets { (s : State) (ticket : Ticket) → s.limits.reuse ≡ false
        → (with_ticket s ticket).tickets ≡ s.tickets ++ Some ticket ∷ [] }
    ensures currencies { (s : State) (name : List ℕ) → s.limits.reuse ≡ false
        → (with_currency s name).currencies ≡ s.currencies ++ Some name ∷ [] }
    ensures threads { (s : State) (name : List ℕ) (script : ℕ) → s.limits.reuse ≡ false
        → (with_thread s name script).threads ≡ s.threads ++ Some (record { name = name; script = script }) ∷ [] }
    ensures records { (s : State) (name : List ℕ) (script : ℕ) → s.limits.reuse ≡ false
        → (with_thread s name script).records ≡ s.records ++ newborn ∷ [] }
    ensures clients { (s : State) (name : List ℕ) (script : ℕ) → s.limits.reuse ≡ false
        → (with_thread s name script).clients ≡ s.clients ++ [] ∷ [] }
    ensures next { (s : State) → s.limits.reuse ≡ false → (next_ticket s ≡ length s.tickets + 1)
        × (next_currency s ≡ length s.currencies) × (next_thread s ≡ length s.threads + 1) }
{}

/// A kernel with `reuse` gives the number freed last first, and then those freed before it.
pub fn the_last_removed_comes_first()
    ensures ticket { (s : State) (n : ℕ) → s.limits.reuse ≡ true → n ≢ 0 → next_ticket (drop_ticket s n) ≡ n }
    ensures currency { (s : State) (c : ℕ) → s.limits.reuse ≡ true → next_currency (drop_currency s c) ≡ c }
    ensures thread { (s : State) (t : ℕ) → s.limits.reuse ≡ true → t ≢ 0 → next_thread (drop_thread s t) ≡ t }
    ensures then_tickets { (s : State) (n : ℕ) (ticket : Ticket) → s.limits.reuse ≡ true
        → free_tickets (with_ticket (drop_ticket s n) ticket) ≡ free_tickets s }
    ensures then_currencies { (s : State) (c : ℕ) (name : List ℕ) → s.limits.reuse ≡ true
        → free_currencies (with_currency (drop_currency s c) name) ≡ free_currencies s }
    ensures then_threads { (s : State) (t : ℕ) (name : List ℕ) (script : ℕ) → s.limits.reuse ≡ true
        → free_threads (with_thread (drop_thread s t) name script) ≡ free_threads s }
{}

/// A kernel with `reuse` is full only if as many tickets, user currencies or threads exist as its limit allows.
pub fn only_what_exists_counts()
    ensures tickets { (s : State) → IsInOrder s → s.limits.reuse ≡ true → are_tickets_full s ≡ true
        → s.limits.tickets ≤ count_by is_some s.tickets }
    ensures currencies { (s : State) → IsInOrder s → s.limits.reuse ≡ true → are_currencies_full s ≡ true
        → s.limits.currencies < count_by is_some s.currencies }
    ensures threads { (s : State) → IsInOrder s → s.limits.reuse ≡ true → are_threads_full s ≡ true
        → s.limits.threads ≤ count_by is_some s.threads }
{}
