//! Queued calls, which may lend: laws of the machine, without executable code.
ghost use Rattle.std.specs.Prelude.{◌≡◌, ℕ, List, length, is_none, false};
ghost use Rattle.lot_machine.specs.declared.event.Event.{Event};
ghost use Rattle.lot_machine.specs.declared.sizes.Sizes.{Sizes};
ghost use Rattle.lot_machine.specs.declared.funding.Lend.TheVariants.{Nobody};
ghost use Rattle.lot_machine.specs.declared.record.Status.TheVariants.{Queued};
ghost use Rattle.lot_machine.specs.declared.reply.Outcome.{Outcome};
ghost use Rattle.lot_machine.specs.Numbered.{at_number};
ghost use Rattle.lot_machine.specs.State.{State, opening, funding_of, holders, lend_of};
ghost use Rattle.lot_machine.specs.Order.{HasOneSidedPorts};
ghost use Rattle.lot_machine.specs.Servers.{served_at, without_servers, before_lock, left_by};
ghost use Rattle.lot_machine.specs.Step.{is_no_mutex, step, state_after};

/// No call waits in a port's queue while a thread waits there to receive (4.6). That holds at the start, each event
/// preserves it, and so it holds in every reachable state.
pub fn no_call_waits_beside_a_receiver()
    ensures start { (limits : Sizes) → HasOneSidedPorts (opening limits) }
    ensures event { (s : State) (e : Event) → HasOneSidedPorts s → HasOneSidedPorts (step s e).state }
    ensures reached { (limits : Sizes) (events : List Event) → HasOneSidedPorts (state_after (opening limits) events) }
{}

/// There are as many holders as mutexes, and with `queued_lend` one more for each port.
pub fn holders_are_counted()
    ensures { (limits : Sizes) (events : List Event)
        → length (state_after (opening limits) events).mutexes ≡ holders limits }
{}

/// Without `queued_lend` the mutexes are the only holders, a queued caller lends to nobody, no trap gives or takes a
/// server, and a lock that would close a cycle anywhere in the funding is refused.
pub fn nothing_else_changes()
    ensures holders { (limits : Sizes) → limits.queued_lend ≡ false → holders limits ≡ limits.mutexes }
    ensures lends { (limits : Sizes) (port : ℕ) → limits.queued_lend ≡ false → lend_of limits (Queued port) ≡ Nobody }
    ensures served { (s : State) (t port : ℕ) (outcome : Outcome) → s.limits.queued_lend ≡ false
        → served_at s t port outcome ≡ s.mutexes }
    ensures left { (s : State) (t : ℕ) → s.limits.queued_lend ≡ false → left_by s t ≡ s.mutexes }
    ensures locks { (s : State) (t m : ℕ) → s.limits.queued_lend ≡ false → before_lock s t m ≡ s.mutexes }
    ensures refused { (s : State) → s.limits.queued_lend ≡ false → without_servers s ≡ funding_of s }
    ensures mutexes { (limits : Sizes) (events : List Event) (m : ℕ) → limits.queued_lend ≡ false
        → is_no_mutex (state_after (opening limits) events) m
        ≡ is_none (at_number (state_after (opening limits) events).mutexes m) }
{}
