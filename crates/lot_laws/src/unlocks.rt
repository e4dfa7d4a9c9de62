//! Unlocks that pass a mutex on: the lottery over the waiters is exact, and the value that waiters lend moves to the
//! next owner (6.1).
ghost use Rattle.std.specs.Prelude.{◌≡◌, ◌≢◌, ◌+◌, ℕ, Some, false, Contains, count_by, slice_get, sum_by};
ghost use Rattle.std.specs.List.{range_with_len};
ghost use Rattle.lot_machine.specs.declared.event.Event.{Event};
ghost use Rattle.lot_machine.specs.declared.event.Event.TheVariants.{Trap};
ghost use Rattle.lot_machine.specs.declared.trap.Trap.TheVariants.{Unlock};
ghost use Rattle.lot_machine.specs.Facts.{live_value};
ghost use Rattle.lot_machine.specs.Order.{IsInOrder};
ghost use Rattle.lot_machine.specs.State.{State, value_of};
ghost use Rattle.lot_machine.specs.Step.{step};
ghost use Rattle.lot_laws.specs.Unlocks.{PassesOn, waiters_of, is_passed_to, mutex_worth};

/// If an unlock passes a mutex on with some number, then it does so with each, to one of the waiters. Of the numbers
/// below the sum of the waiters' values, exactly as many pass it to a waiter as this one is worth. If all of them are
/// worth nothing, the one that has waited longest gets it.
pub fn unlock_shares_are_exact()
    ensures share { (s : State) (p ran m d t next u : ℕ) → IsInOrder s
        → PassesOn s (Trap p ran (Unlock m d)) m t next → Contains (waiters_of s m) u
        → count_by (λ n. is_passed_to u (step s (Trap p ran (Unlock m n))).reply)
        (range_with_len 0 (sum_by (value_of s) (waiters_of s m))) ≡ value_of s u }
    ensures each { (s : State) (p ran m d t next n : ℕ) → PassesOn s (Trap p ran (Unlock m d)) m t next
        → (other : ℕ) × PassesOn s (Trap p ran (Unlock m n)) m t other }
    ensures waiter { (s : State) (e : Event) (m t next : ℕ) → PassesOn s e m t next
        → Contains (waiters_of s m) next }
    ensures first { (s : State) (e : Event) (m t next : ℕ) → PassesOn s e m t next
        → sum_by (value_of s) (waiters_of s m) ≡ 0 → slice_get (waiters_of s m) 0 ≡ Some next }
{}

/// An owner that passes a mutex on gives back exactly what the waiters lend it. The next owner is then worth as much as
/// all waiters were together, itself among them, and the others lend to it. Every other thread keeps its value, and so
/// does the sum over the live threads.
pub fn unlocks_transfer_value()
    ensures owner { (s : State) (e : Event) (m t next : ℕ) → IsInOrder s → s.limits.without_lending ≡ false
        → PassesOn s e m t next → value_of s t ≡ value_of (step s e).state t + mutex_worth s m }
    ensures next { (s : State) (e : Event) (m t next : ℕ) → IsInOrder s → s.limits.without_lending ≡ false
        → PassesOn s e m t next → value_of (step s e).state next ≡ mutex_worth s m }
    ensures others { (s : State) (e : Event) (m t next other : ℕ) → IsInOrder s → s.limits.without_lending ≡ false
        → PassesOn s e m t next → other ≢ t → other ≢ next → value_of (step s e).state other ≡ value_of s other }
    ensures together { (s : State) (e : Event) (m t next : ℕ) → IsInOrder s → s.limits.without_lending ≡ false
        → PassesOn s e m t next → live_value (step s e).state ≡ live_value s }
{}
