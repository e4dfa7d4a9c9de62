//! Names are unique.
ghost use Rattle.std.specs.Prelude.{◌≡◌, ℕ, List, Some, false, true};
ghost use Rattle.lot_machine.specs.declared.ticket.Target.{Target};
ghost use Rattle.lot_machine.specs.Commands.{is_name, is_no_name, is_thread_name, target_named};
ghost use Rattle.lot_machine.specs.Rows.{currency_name, target_name, thread_name};
ghost use Rattle.lot_machine.specs.State.{State};
ghost use Rattle.lot_laws.specs.Reachable.{IsReachable};

/// In a reachable state a name means exactly one currency or thread. A thread may have no name.
pub fn names_mean_who_has_them()
    ensures means { (s : State) (x : Target) (name : List ℕ) → IsReachable s → target_name s x ≡ Some name
        → is_no_name name ≡ false → target_named s name ≡ Some x }
    ensures once { (s : State) (x y : Target) (name : List ℕ) → IsReachable s → target_name s x ≡ Some name
        → target_name s y ≡ Some name → is_no_name name ≡ false → x ≡ y }
    ensures currencies { (s : State) (c : ℕ) (name : List ℕ) → IsReachable s → currency_name s c ≡ Some name
        → is_name s.limits name ≡ true }
    ensures threads { (s : State) (t : ℕ) (name : List ℕ) → IsReachable s → thread_name s t ≡ Some name
        → is_thread_name s.limits name ≡ true }
{}
