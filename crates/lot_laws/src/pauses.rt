//! Sleeping and waking, as laws of the machine (4.4, 4.5).
ghost use Rattle.std.specs.Prelude.{◌≡◌, ℕ, false, Some, None};
ghost use Rattle.lot_machine.specs.declared.trap.Trap.TheVariants.{Yield, Sleep};
ghost use Rattle.lot_machine.specs.declared.event.Event.TheVariants.{Trap, Wake};
ghost use Rattle.lot_machine.specs.declared.record.Status.TheVariants.{Asleep};
ghost use Rattle.lot_machine.specs.declared.record.Thread.{Thread as AThread};
ghost use Rattle.lot_machine.specs.declared.ticket.Ticket.{Ticket as ATicket};
ghost use Rattle.lot_machine.specs.declared.ticket.Target.TheVariants as target;
ghost use Rattle.lot_machine.specs.Activity.{is_active};
ghost use Rattle.lot_machine.specs.Lends.{borrower_of};
ghost use Rattle.lot_machine.specs.Order.{IsInOrder};
ghost use Rattle.lot_machine.specs.State.{State, funding_of, live_of, status_of, thread_at, thread_on, value_of};
ghost use Rattle.lot_machine.specs.Step.{step};

/// A sleeping thread lends to nobody and is worth nothing, and its tickets are inactive, like those of any blocked
/// thread that lends to nobody (4.4).
pub fn sleepers_have_nothing()
    ensures lends { (s : State) (t : ℕ) → status_of s.records t ≡ Some Asleep
        → borrower_of (funding_of s) t ≡ None }
    ensures worth { (s : State) (t : ℕ) → IsInOrder s → status_of s.records t ≡ Some Asleep → value_of s t ≡ 0 }
    ensures tickets { (s : State) (t : ℕ) (ticket : ATicket) → IsInOrder s → status_of s.records t ≡ Some Asleep
        → ticket.target ≡ target.Thread t → is_active (funding_of s) (live_of s) ticket ≡ false }
{}

/// A sleep that ends at once is a yield: the thread is Ready with the same compensation and ticks, and the rest of
/// the state is unchanged (4.5).
pub fn a_sleep_that_ends_at_once_is_a_yield()
    ensures { (s : State) (p t ran : ℕ) (thread : AThread) → thread_on s.records p ≡ Some t
        → thread_at s.threads t ≡ Some thread
        → (step (step s (Trap p ran (Sleep tt))).state (Wake t)).state ≡ (step s (Trap p ran Yield)).state }
{}
