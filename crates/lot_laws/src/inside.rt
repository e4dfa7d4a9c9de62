//! What happens inside a currency stays inside it: no inflation escapes, and currencies don't interfere (3.2, 3.3).
ghost use Rattle.std.specs.Prelude.{◌≡◌, ◌≢◌, ◌*◌, ◌<◌, ◌≤◌, ◌⊎◌, Bool, true, false, Some, List, ℕ, count_by};
ghost use Rattle.std.specs.List.{range_with_len};
ghost use Rattle.lot_machine.specs.declared.event.Event.{Event};
ghost use Rattle.lot_machine.specs.declared.event.Event.TheVariants.{Command};
ghost use Rattle.lot_machine.specs.declared.command.Command.TheVariants.{SetTicket};
ghost use Rattle.lot_machine.specs.declared.funding.Node.{Node};
ghost use Rattle.lot_machine.specs.declared.funding.Node.TheVariants.{Currency, Thread};
ghost use Rattle.lot_machine.specs.declared.record.Status.TheVariants.{Ready};
ghost use Rattle.lot_machine.specs.Funding.{issuer_of};
ghost use Rattle.lot_machine.specs.State.{State, funding_of, status_of};
ghost use Rattle.lot_machine.specs.Step.{step, state_after};
ghost use Rattle.lot_machine.specs.Facts.{total_weight};
ghost use Rattle.lot_laws.specs.Fairness.{thread_wins};
ghost use Rattle.lot_laws.specs.Insulation.{ChangesInside, Encloses, amount_in, worth_in};
ghost use Rattle.lot_laws.specs.Inside.{EnclosesAlone, NoneCompensated, value_inside, weight_inside, weighed_ticks};
ghost use Rattle.lot_laws.specs.Inside.{wins_inside};
ghost use Rattle.lot_laws.specs.Reachable.{IsReachable};
ghost use Rattle.lot_laws.specs.TwoRuns.{AgreeOutside, AllAlike, DifferInside, SameOutside, WinOutside};
ghost use Rattle.lot_laws.specs.TwoRuns.{first_runs, second_runs};

/// No inflation escapes a currency (3.2): the live threads that it alone funds are together worth at most its value,
/// whatever tickets exist inside. After a run that changes only what is inside, they are worth at most what the
/// currency was worth before, if it was active. The Ready ones weigh at most that value in a draw if none of them is
/// compensated, and at most a quantum times as much otherwise: each weight times the ticks that the compensation used,
/// a quantum at most, sums to at most the value times the quantum (3.4). Of the numbers below a draw's total exactly as
/// many win inside as those threads weigh. `worked::inside::funded_by_base` shows why base may not lead inside.
pub fn no_inflation_escapes()
    ensures value { (s : State) (c : ℕ) (inside : Node → Bool) → IsReachable s → c ≢ 0
        → EnclosesAlone (funding_of s) c inside → value_inside s inside ≤ worth_in s (Currency c) }
    ensures run { (s : State) (events : List Event) (c : ℕ) (inside : Node → Bool) → IsReachable s → c ≢ 0
        → ChangesInside s (state_after s events) c inside
        → EnclosesAlone (funding_of (state_after s events)) c inside → 0 < amount_in s c
        → value_inside (state_after s events) inside ≤ worth_in s (Currency c) }
    ensures weight { (s : State) (c : ℕ) (inside : Node → Bool) → IsReachable s → c ≢ 0
        → EnclosesAlone (funding_of s) c inside → NoneCompensated s inside
        → weight_inside s inside ≤ worth_in s (Currency c) }
    ensures compensated { (s : State) (c : ℕ) (inside : Node → Bool) → IsReachable s → c ≢ 0
        → EnclosesAlone (funding_of s) c inside → weight_inside s inside ≤ worth_in s (Currency c) * s.limits.quantum }
    ensures ticks { (s : State) (c : ℕ) (inside : Node → Bool) → IsReachable s → c ≢ 0
        → EnclosesAlone (funding_of s) c inside → weighed_ticks s inside ≤ worth_in s (Currency c) * s.limits.quantum }
    ensures wins { (s : State) (p : ℕ) (inside : Node → Bool) → wins_inside s p inside ≡ weight_inside s inside }
{}

/// Currencies don't interfere (3.3). Two states that differ only inside a currency, which is active in both or in
/// neither, agree outside: on values, on weights, and on the sum of the weights outside, so on a draw's total if what
/// is inside weighs as much in both. A thread outside wins with as many numbers in both, though maybe with others.
///
/// Such states stay such if a ticket inside gets another amount in one of them; if the same thread outside wins a draw
/// in both; and if one event in both ends the turn of the same thread outside, or sets the amount of a ticket that
/// leads outside. That event gets the same reply in both. So two runs from one state agree outside at their ends if
/// they are made, pair by pair, of such events and of parts each of which changes only what is inside. The law says
/// nothing of runs with other commands or other traps outside.
pub fn currencies_dont_interfere()
    ensures agree { (s u : State) (c : ℕ) (inside : Node → Bool) → IsReachable s → IsReachable u
        → DifferInside s u c inside → AgreeOutside s u inside }
    ensures total { (s u : State) (c : ℕ) (inside : Node → Bool) → IsReachable s → IsReachable u
        → DifferInside s u c inside → weight_inside u inside ≡ weight_inside s inside
        → total_weight u ≡ total_weight s }
    ensures wins { (s u : State) (c : ℕ) (inside : Node → Bool) → IsReachable s → IsReachable u
        → DifferInside s u c inside → (p t : ℕ) → inside (Thread t) ≡ false → status_of s.records t ≡ Some Ready
        → count_by (thread_wins u p t) (range_with_len 0 (total_weight u))
        ≡ count_by (thread_wins s p t) (range_with_len 0 (total_weight s)) }
    ensures draws { (s u : State) (c : ℕ) (inside : Node → Bool) (e d : Event) → DifferInside s u c inside
        → WinOutside s u e d inside → DifferInside (step s e).state (step u d).state c inside }
    ensures set_inside { (s : State) (n amount d c : ℕ) (inside : Node → Bool) → IsReachable s
        → Encloses (funding_of s) c inside → issuer_of (funding_of s) n ≡ Some d
        → (d ≡ c) ⊎ (inside (Currency d) ≡ true)
        → DifferInside s (step s (Command (SetTicket n amount))).state c inside }
    ensures events { (s u : State) (c : ℕ) (inside : Node → Bool) (e d : Event) → IsReachable s → IsReachable u
        → DifferInside s u c inside → SameOutside s u e d inside
        → DifferInside (step s e).state (step u d).state c inside }
    ensures replies { (s u : State) (c : ℕ) (inside : Node → Bool) (e d : Event) → IsReachable s → IsReachable u
        → DifferInside s u c inside → SameOutside s u e d inside → (step u d).reply ≡ (step s e).reply }
    ensures runs { (s u : State) (c : ℕ) (inside : Node → Bool) (pairs : List (List Event × List Event))
        → IsReachable s → IsReachable u → DifferInside s u c inside → AllAlike s u c inside pairs
        → DifferInside (state_after s (first_runs pairs)) (state_after u (second_runs pairs)) c inside }
    ensures from_one { (s : State) (c : ℕ) (inside : Node → Bool) (pairs : List (List Event × List Event))
        → IsReachable s → Encloses (funding_of s) c inside → AllAlike s s c inside pairs
        → AgreeOutside (state_after s (first_runs pairs)) (state_after s (second_runs pairs)) inside }
{}
