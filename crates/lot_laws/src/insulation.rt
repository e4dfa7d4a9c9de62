//! Insulation: a node that a change can't affect keeps its value, and a change inside a currency changes no value
//! outside it (3.2, 3.3).
ghost use Rattle.std.specs.Prelude.{◌≡◌, ◌≢◌, IsTrue, ◌+◌, ◌<◌, ◌⊎◌, ◌↔◌, Bool, true, false, Some, List, All, ℕ};
ghost use Rattle.std.specs.Prelude.{length};
ghost use Rattle.lot_machine.specs.declared.event.Event.{Event};
ghost use Rattle.lot_machine.specs.declared.event.Event.TheVariants.{Command};
ghost use Rattle.lot_machine.specs.declared.command.Command.TheVariants.{Fund, SetTicket, MakeFunded};
ghost use Rattle.lot_machine.specs.declared.reference.CurrencyRef.{CurrencyRef};
ghost use Rattle.lot_machine.specs.declared.reference.TargetRef.{TargetRef};
ghost use Rattle.lot_machine.specs.declared.reply.Reply.TheVariants.{Done};
ghost use Rattle.lot_machine.specs.declared.funding.Node.{Node};
ghost use Rattle.lot_machine.specs.declared.funding.Node.TheVariants.{Currency, Thread};
ghost use Rattle.lot_machine.specs.declared.ticket.Ticket.{Ticket};
ghost use Rattle.lot_machine.specs.Funding.{Funding, ticket_at, issuer_of, reissued};
ghost use Rattle.lot_machine.specs.Activity.{active_amount};
ghost use Rattle.lot_machine.specs.Value.{node_value};
ghost use Rattle.lot_machine.specs.Equations.{HasEquation};
ghost use Rattle.lot_machine.specs.State.{State, next_thread, funding_of};
ghost use Rattle.lot_machine.specs.Facts.{HasNoCycle, FundsThere};
ghost use Rattle.lot_machine.specs.Order.{IsInOrder};
ghost use Rattle.lot_machine.specs.Commands.{currency_meant};
ghost use Rattle.lot_machine.specs.Step.{step, state_after};
ghost use Rattle.lot_laws.specs.Insulation.{KeepsAmount, KeepsAmounts, SetsAmountOf, RemovesTicket};
ghost use Rattle.lot_laws.specs.Insulation.{IsAffected, Affects, Encloses, IsChangeInside};
ghost use Rattle.lot_laws.specs.Insulation.{ChangesInside, IsMeantInside, amount_in, worth_in, is_active_in};
ghost use Rattle.lot_laws.specs.Insulation.{ticket_worth_in};
ghost use Rattle.lot_laws.specs.Reachable.{IsReachable, IsWellFormed};

/// Whatever changes in tickets, their amounts, lends, owners and live threads, a node keeps its value if no touched
/// node leads to it. Nothing may make a cycle before or after. It isn't enough that the change leaves the node itself
/// untouched: `worked::insulation::untouched_but_affected` shows such a node, whose value changes.
pub fn changes_are_insulated()
    ensures { (before after : Funding) → HasNoCycle before → FundsThere before → HasNoCycle after → FundsThere after
        → (unit : ℕ) (live now_live : List Bool) (node : Node) → HasEquation before node → HasEquation after node
        → ¬ IsAffected before after live now_live node
        → node_value unit before live node ≡ node_value unit after now_live node }
{}

/// Only `settkt` changes a ticket's amount: every other event, and every run without a `settkt` of the ticket, leaves
/// it. With `reuse`, the state has to be in order, and the run may not remove the ticket, since the next one with its
/// number has an amount of its own.
pub fn amounts_stay()
    ensures event { (s : State) (e : Event) (n : ℕ) → ¬ SetsAmountOf n e → (s.limits.reuse ≡ true → IsInOrder s)
        → KeepsAmount (funding_of s) (funding_of (step s e).state) n }
    ensures run { (s : State) (events : List Event) (n : ℕ) → All (λ e. ¬ SetsAmountOf n e) events
        → (s.limits.reuse ≡ true → IsInOrder s × All (λ e. ¬ RemovesTicket n e) events)
        → KeepsAmount (funding_of s) (funding_of (state_after s events)) n }
    ensures all { (s : State) (events : List Event) → ((n : ℕ) → All (λ e. ¬ SetsAmountOf n e) events)
        → (s.limits.reuse ≡ true → IsInOrder s × ((n : ℕ) → All (λ e. ¬ RemovesTicket n e) events))
        → KeepsAmounts (funding_of s) (funding_of (state_after s events)) }
{}

/// `settkt` sets the ticket's amount to the given one, and leaves its issuer and its target. It leaves every other
/// ticket, and the rest of the state.
pub fn amounts_are_set()
    ensures ticket { (s : State) (n amount : ℕ) (t : Ticket)
        → (step s (Command (SetTicket n amount))).reply ≡ Done → ticket_at (funding_of s) n ≡ Some t
        → ticket_at (funding_of (step s (Command (SetTicket n amount))).state) n ≡ Some (reissued amount t) }
    ensures others { (s : State) (n amount m : ℕ) → m ≢ n
        → ticket_at (funding_of (step s (Command (SetTicket n amount))).state) m ≡ ticket_at (funding_of s) m }
    ensures rest { (s : State) (n amount : ℕ) → (step s (Command (SetTicket n amount))).state
        ≡ record s { tickets = (step s (Command (SetTicket n amount))).state.tickets } }
{}

/// A currency, a thread or a mutex that an event doesn't affect keeps its value; so does one that a run of events
/// doesn't affect.
pub fn events_are_insulated()
    ensures event { (s : State) (e : Event) (node : Node) → IsInOrder s → HasEquation (funding_of s) node
        → ¬ Affects s (step s e).state node → worth_in (step s e).state node ≡ worth_in s node }
    ensures run { (s : State) (events : List Event) (node : Node) → IsInOrder s → HasEquation (funding_of s) node
        → ¬ Affects s (state_after s events) node
        → worth_in (state_after s events) node ≡ worth_in s node }
{}

/// A change inside a currency changes no value outside it, not even the currency's own, if the currency has an active
/// amount before and after, or neither before nor after.
pub fn changes_stay_inside()
    ensures { (before after : Funding) → IsWellFormed before → IsWellFormed after
        → (unit : ℕ) (live now_live : List Bool) (c : ℕ) (inside : Node → Bool)
        → IsChangeInside before after live now_live c inside
        → ((0 < active_amount before live c) ↔ (0 < active_amount after now_live c))
        → (node : Node) → inside node ≡ false → HasEquation before node → HasEquation after node
        → node_value unit before live node ≡ node_value unit after now_live node }
{}

/// A change inside a currency whose active amount stays, whether a ticket is issued, funded, removed or gets another
/// amount, changes no value outside it, not even the currency's own, and leaves the values of the currency's other
/// tickets (3.3): a ticket that keeps its amount keeps its value, and one with a new amount is worth as much as this
/// amount was before. Only the currency, base and nodes inside may lead inside; otherwise values outside can change, as
/// `worked::insulation::funded_from_outside` shows.
pub fn currencies_insulate()
    ensures outside { (s : State) (events : List Event) (c : ℕ) (inside : Node → Bool) → IsReachable s
        → ChangesInside s (state_after s events) c inside
        → amount_in (state_after s events) c ≡ amount_in s c
        → (node : Node) → inside node ≡ false → HasEquation (funding_of s) node
        → worth_in (state_after s events) node ≡ worth_in s node }
    ensures tickets { (s : State) (events : List Event) (c : ℕ) (inside : Node → Bool) → IsReachable s
        → ChangesInside s (state_after s events) c inside
        → amount_in (state_after s events) c ≡ amount_in s c → c ≢ 0
        → (n : ℕ) (t u : Ticket) → ticket_at (funding_of s) n ≡ Some t
        → ticket_at (funding_of (state_after s events)) n ≡ Some u → t.issuer ≡ c → u.issuer ≡ c
        → IsTrue (is_active_in s t) → IsTrue (is_active_in (state_after s events) u) → t.amount ≡ u.amount
        → ticket_worth_in (state_after s events) u ≡ ticket_worth_in s t }
    ensures amounts { (s : State) (events : List Event) (c : ℕ) (inside : Node → Bool) → IsReachable s
        → ChangesInside s (state_after s events) c inside
        → amount_in (state_after s events) c ≡ amount_in s c → c ≢ 0
        → (n : ℕ) (t u : Ticket) → ticket_at (funding_of s) n ≡ Some t
        → ticket_at (funding_of (state_after s events)) n ≡ Some u → t.issuer ≡ c → u.issuer ≡ c
        → IsTrue (is_active_in s t) → IsTrue (is_active_in (state_after s events) u)
        → ticket_worth_in (state_after s events) u ≡ ticket_worth_in s (reissued u.amount t) }
{}

/// Inflation is local (3.2): tickets made inside a currency with active tickets change no value outside it, whatever
/// their amounts. That covers a ticket that funds a target inside, a ticket made with a new thread inside, and a whole
/// run that changes nothing outside. In a currency without active tickets the first one activates the currency's
/// backing tickets, as `worked::insulation::first_active_ticket` shows. A changed amount activates nothing: `settkt`
/// of a ticket of the currency, or of a currency inside it, is a change inside, and changes no value outside, with or
/// without active tickets in the currency.
pub fn inflation_is_local()
    ensures fund { (s : State) (n c : ℕ) (to : TargetRef) (inside : Node → Bool) → IsReachable s
        → Encloses (funding_of s) c inside → issuer_of (funding_of s) n ≡ Some c
        → IsMeantInside s to inside → 0 < amount_in s c → (node : Node) → inside node ≡ false
        → HasEquation (funding_of s) node
        → worth_in (step s (Command (Fund n to))).state node ≡ worth_in s node }
    ensures make { (s : State) (amount c : ℕ) (currency : CurrencyRef) (name : List ℕ) (script : ℕ)
        (inside : Node → Bool)
        → IsReachable s → Encloses (funding_of s) c inside → currency_meant s currency ≡ Some c
        → inside (Thread (next_thread s)) ≡ true → 0 < amount_in s c → (node : Node) → inside node ≡ false
        → HasEquation (funding_of s) node
        → worth_in (step s (Command (MakeFunded amount currency name script))).state node ≡ worth_in s node }
    ensures set { (s : State) (n amount d c : ℕ) (inside : Node → Bool) → IsReachable s
        → Encloses (funding_of s) c inside → issuer_of (funding_of s) n ≡ Some d
        → (d ≡ c) ⊎ (inside (Currency d) ≡ true) → (node : Node) → inside node ≡ false → HasEquation (funding_of s) node
        → worth_in (step s (Command (SetTicket n amount))).state node ≡ worth_in s node }
    ensures set_inside { (s : State) (n amount d c : ℕ) (inside : Node → Bool) → Encloses (funding_of s) c inside
        → issuer_of (funding_of s) n ≡ Some d → (d ≡ c) ⊎ (inside (Currency d) ≡ true)
        → ChangesInside s (step s (Command (SetTicket n amount))).state c inside }
    ensures run { (s : State) (events : List Event) (c : ℕ) (inside : Node → Bool) → IsReachable s
        → ChangesInside s (state_after s events) c inside
        → 0 < amount_in s c → 0 < amount_in (state_after s events) c
        → (node : Node) → inside node ≡ false → HasEquation (funding_of s) node
        → worth_in (state_after s events) node ≡ worth_in s node }
{}
