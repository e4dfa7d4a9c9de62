//! Invariants that each change of the state preserves: laws of the machine, without executable code.
ghost use Rattle.std.specs.Prelude.{◌≡◌, ◌<◌, ◌≤◌, ◌^◌, All, IfSome, ◌++◌, ◌∷◌, [], Some, None, true, false, Bool};
ghost use Rattle.std.specs.Prelude.{Option, List, ℕ, length, slice_get, slice_set};
ghost use Rattle.lot_machine.specs.declared.command.Command.{Command as Asked};
ghost use Rattle.lot_machine.specs.declared.ticket.Target.{Target};
ghost use Rattle.lot_machine.specs.declared.ticket.Target.TheVariants.{Currency};
ghost use Rattle.lot_machine.specs.Funding.{Funding, WouldCycle, would_cycle, with_new_ticket, without_ticket};
ghost use Rattle.lot_machine.specs.Funding.{with_target, currency_funded, issuer_of, backing_currency};
ghost use Rattle.lot_machine.specs.Facts.{HasNoCycle, FundsThere, RunsApart, IsSound, base_value};
ghost use Rattle.lot_machine.specs.Order.{IsInOrder};
ghost use Rattle.lot_machine.specs.Lends.{borrower, LendsLead, lends_lead};
ghost use Rattle.lot_machine.specs.Numbered.{at_number, set_number, option_any};
ghost use Rattle.lot_machine.specs.declared.funding.Lend.{Lend};
ghost use Rattle.lot_machine.specs.declared.funding.Lend.TheVariants.{Nobody};
ghost use Rattle.lot_machine.specs.State.{State, opening, funding_of, change_record, thread_on, used_by};
ghost use Rattle.lot_machine.specs.Commands.{command_step};
ghost use Rattle.lot_machine.specs.Step.{step, state_after};
ghost use Rattle.lot_machine.specs.Change.{Change, applied_all};
ghost use Rattle.lot_machine.specs.Named.{processor_of, thread_in};
ghost use Rattle.lot_machine.specs.Bounds.{IsWithinBounds};
ghost use Rattle.lot_machine.specs.declared.sizes.Sizes.{Sizes};
ghost use Rattle.lot_machine.specs.declared.event.Event.{Event};
ghost use Rattle.lot_machine.specs.declared.record.Record.{Record};
ghost use Rattle.lot_machine.specs.declared.reply.Reply.TheVariants.{Killed};
ghost use Rattle.lot_machine.specs.declared.record.Status.TheVariants.{Running};

/// A new ticket that funds no currency makes no cycle, and tickets still fund only existing currencies.
pub fn new_ticket_keeps()
    ensures no_cycle { (f : Funding) (amount issuer : ℕ) (to : Target) → currency_funded to ≡ None → HasNoCycle f
        → HasNoCycle (record f { tickets = with_new_ticket f.tickets amount issuer to }) }
    ensures there { (f : Funding) (amount issuer : ℕ) (to : Target) → currency_funded to ≡ None → FundsThere f
        → FundsThere (record f { tickets = with_new_ticket f.tickets amount issuer to }) }
{}

/// Removing a ticket makes no cycle, and tickets still fund only existing currencies.
pub fn removed_ticket_keeps()
    ensures no_cycle { (f : Funding) (n : ℕ) → HasNoCycle f
        → HasNoCycle (record f { tickets = without_ticket f.tickets n }) }
    ensures there { (f : Funding) (n : ℕ) → FundsThere f
        → FundsThere (record f { tickets = without_ticket f.tickets n }) }
{}

/// Retargeting a ticket to a thread, or to nothing, makes no cycle, and tickets still fund only existing currencies.
pub fn unfunding_keeps()
    ensures no_cycle { (f : Funding) (n : ℕ) (to : Target) → currency_funded to ≡ None → HasNoCycle f
        → HasNoCycle (record f { tickets = with_target f.tickets n to }) }
    ensures there { (f : Funding) (n : ℕ) (to : Target) → currency_funded to ≡ None → FundsThere f
        → FundsThere (record f { tickets = with_target f.tickets n to }) }
{}

/// Retargeting a ticket to a currency makes no cycle unless `WouldCycle` holds; if the currency exists, its test
/// `would_cycle` may stand for it. Tickets still fund only existing currencies if this currency exists.
pub fn funding_keeps()
    ensures no_cycle { (f : Funding) (n issuer c : ℕ) → issuer_of f n ≡ Some issuer → ¬ WouldCycle f issuer c
        → HasNoCycle f
        → HasNoCycle (record f { tickets = with_target f.tickets n (Currency c) }) }
    ensures tested { (f : Funding) (n issuer c : ℕ) → issuer_of f n ≡ Some issuer → would_cycle f issuer c ≡ false
        → slice_get f.currencies c ≡ Some true → FundsThere f → HasNoCycle f
        → HasNoCycle (record f { tickets = with_target f.tickets n (Currency c) }) }
    ensures there { (f : Funding) (n issuer c : ℕ) → issuer_of f n ≡ Some issuer
        → slice_get f.currencies c ≡ Some true → FundsThere f
        → FundsThere (record f { tickets = with_target f.tickets n (Currency c) }) }
{}

/// Making or removing currencies makes no cycle. Tickets still fund only existing currencies if a currency is made,
/// or if one that no ticket funds is removed.
pub fn currencies_keep()
    ensures no_cycle { (f : Funding) (currencies : List Bool) → HasNoCycle f
        → HasNoCycle (record f { currencies = currencies }) }
    ensures made { (f : Funding) → FundsThere f → FundsThere (record f { currencies = f.currencies ++ true ∷ [] }) }
    ensures removed { (f : Funding) (c : ℕ) → length (backing_currency f c) ≡ 0 → FundsThere f
        → FundsThere (record f { currencies = slice_set f.currencies c false }) }
{}

/// No command makes a cycle, or leaves a ticket that funds a missing currency.
pub fn commands_keep()
    ensures no_cycle { (s : State) (c : Asked) → HasNoCycle (funding_of s) → FundsThere (funding_of s)
        → HasNoCycle (funding_of (command_step s c).state) }
    ensures there { (s : State) (c : Asked) → HasNoCycle (funding_of s) → FundsThere (funding_of s)
        → FundsThere (funding_of (command_step s c).state) }
{}

/// A thread that starts or stops lending to another makes no cycle, if no lends lead from the borrower back to it.
pub fn lends_keep()
    ensures nobody { (f : Funding) (t : ℕ) → HasNoCycle f
        → HasNoCycle (record f { lends = set_number f.lends t Nobody }) }
    ensures no_cycle { (f : Funding) (t : ℕ) (lend before : Lend) → at_number f.lends t ≡ Some before
        → ((b : ℕ) → borrower f lend ≡ Some b → ¬ LendsLead f b t) → HasNoCycle f
        → HasNoCycle (record f { lends = set_number f.lends t lend }) }
    ensures tested { (f : Funding) (t : ℕ) (lend before : Lend) → at_number f.lends t ≡ Some before
        → option_any (λ b. lends_lead f b t) (borrower f lend) ≡ false → HasNoCycle f
        → HasNoCycle (record f { lends = set_number f.lends t lend }) }
    ensures one_more { (f : Funding) → HasNoCycle f → HasNoCycle (record f { lends = f.lends ++ Nobody ∷ [] }) }
{}

/// Freeing a mutex makes no cycle, and neither does passing it to a thread that lends to nobody.
pub fn owners_keep()
    ensures freed { (f : Funding) (m : ℕ) → HasNoCycle f
        → HasNoCycle (record f { owners = set_number f.owners m None }) }
    ensures owned { (f : Funding) (m w : ℕ) → at_number f.lends w ≡ Some Nobody → HasNoCycle f
        → HasNoCycle (record f { owners = set_number f.owners m (Some w) }) }
{}

/// Tickets still fund only existing currencies, whatever the lends and the owners of mutexes become.
pub fn lends_fund_nothing()
    ensures { (f : Funding) (lends : List Lend) (owners : List (Option ℕ)) → FundsThere f
        → FundsThere (record f { lends = lends; owners = owners }) }
{}

/// Each processor still has its own thread if a thread's record changes and the thread doesn't run afterwards.
pub fn stopping_keeps()
    ensures { (change : Record → Record) (records : List Record) (t : ℕ)
        → ((r : Record) (p used : ℕ) → ¬ ((change r).status ≡ Running p used)) → RunsApart records
        → RunsApart (change_record change records t) }
{}

/// Each processor still has its own thread if a thread starts to run on an idle processor.
pub fn starting_keeps()
    ensures { (change : Record → Record) (records : List Record) (t p used : ℕ)
        → ((r : Record) → (change r).status ≡ Running p used) → thread_on records p ≡ None → RunsApart records
        → RunsApart (change_record change records t) }
{}

/// Each processor still has its own thread if a thread goes on running on its processor.
pub fn going_on_keeps()
    ensures { (change : Record → Record) (records : List Record) (t p used more : ℕ)
        → ((r : Record) → (change r).status ≡ Running p more) → used_by records p t ≡ Some used → RunsApart records
        → RunsApart (change_record change records t) }
{}

/// Each processor still has its own thread if a thread is added that doesn't run.
pub fn one_thread_more_keeps()
    ensures { (records : List Record) (r : Record) → ((p used : ℕ) → ¬ (r.status ≡ Running p used))
        → RunsApart records → RunsApart (records ++ r ∷ []) }
{}

/// Each event is a sequence of primitive changes.
pub fn steps_are_changes()
    ensures { (s : State) (e : Event) → (changes : List Change) × (applied_all s changes ≡ (step s e).state) }
{}

/// Each processor still has its own thread after any event.
pub fn events_keep_apart()
    ensures { (s : State) (e : Event) → RunsApart s.records → RunsApart (step s e).state.records }
{}

/// In a state that is in order, an event of one processor changes neither the thread that runs on another, unless the
/// event kills that thread, nor the ticks used there. After such a kill that processor is idle.
pub fn other_processors_run_on()
    ensures thread { (s : State) (e : Event) (p : ℕ) → IsInOrder s → ¬ (processor_of e ≡ Some p)
        → ((t : ℕ) → thread_on s.records p ≡ Some t → ¬ ((step s e).reply ≡ Killed t))
        → thread_on (step s e).state.records p ≡ thread_on s.records p }
    ensures used { (s : State) (e : Event) (p t : ℕ) → IsInOrder s → ¬ (processor_of e ≡ Some p)
        → ¬ ((step s e).reply ≡ Killed t) → used_by (step s e).state.records p t ≡ used_by s.records p t }
    ensures killed { (s : State) (e : Event) (p t : ℕ) → IsInOrder s → (step s e).reply ≡ Killed t
        → thread_on s.records p ≡ Some t → thread_on (step s e).state.records p ≡ None }
{}

/// The thread named in the reply to an event of one processor doesn't run on another processor.
pub fn replies_name_their_own()
    ensures { (s : State) (e : Event) (p q t : ℕ) → processor_of e ≡ Some q → ¬ (q ≡ p)
        → thread_in (step s e).reply ≡ Some t → ¬ (thread_on s.records p ≡ Some t) }
{}

/// No event changes the limits.
pub fn limits_stay()
    ensures { (s : State) (e : Event) → (step s e).state.limits ≡ s.limits }
{}

/// Base's active tickets are worth less than 2 ^ 56 if amounts have 32 bits, tickets are within their limit, and sizes
/// are within their bounds.
pub fn base_is_bounded()
    ensures { (s : State) → All (λ o. IfSome o (λ t. t.amount < 2 ^ 32)) s.tickets
        → length s.tickets ≤ s.limits.tickets → IsWithinBounds s.limits → base_value s < 2 ^ 56 }
{}

/// The opening state is in order, and each event, and so each run, preserves that.
pub fn order_is_kept()
    ensures start { (limits : Sizes) → IsWithinBounds limits → IsInOrder (opening limits) }
    ensures event { (s : State) (e : Event) → IsInOrder s → IsInOrder (step s e).state }
    ensures run { (s : State) (events : List Event) → IsInOrder s → IsInOrder (state_after s events) }
{}

/// A state that is in order is sound.
pub fn order_is_sound()
    ensures { (s : State) → IsInOrder s → IsSound s }
{}

/// Each state that a run from the start reaches is sound if sizes are within their bounds.
pub fn reached_states_are_sound()
    ensures { (limits : Sizes) (events : List Event) → IsWithinBounds limits
        → IsSound (state_after (opening limits) events) }
{}
