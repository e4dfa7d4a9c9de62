//! Rounds of a processor: a draw, and then the time that the winner runs. These laws are of the machine's own runs: a
//! thread's wins and ticks over all numbers that a run may draw, the ticks that compensation makes up for, and the
//! number of lists with which a thread never wins (2.2, 3.4). They don't claim that the generator spreads its numbers
//! evenly.
ghost use Rattle.std.specs.Prelude.{◌≡◌, ◌+◌, ◌-◌, ◌*◌, ◌^◌, ◌<◌, ◌≤◌, ◌==◌, false, Some, None, List, ℕ, count_by};
ghost use Rattle.std.specs.Prelude.{length, sum_by};
ghost use Rattle.lot_machine.specs.Actions.{Action};
ghost use Rattle.lot_machine.specs.declared.after.After.TheVariants.{Leaves};
ghost use Rattle.lot_machine.specs.declared.event.Event.TheVariants.{Trap};
ghost use Rattle.lot_machine.specs.declared.record.Status.{Status};
ghost use Rattle.lot_machine.specs.declared.trap.Trap.TheVariants.{Yield};
ghost use Rattle.lot_machine.specs.declared.record.Status.TheVariants.{Ready};
ghost use Rattle.lot_machine.specs.Facts.{total_weight};
ghost use Rattle.lot_machine.specs.State.{State, status_of, thread_on, value_of, weight_of};
ghost use Rattle.lot_machine.specs.Step.{is_bad_processor, step, state_after, trap_effect, trap_refusal, used_there};
ghost use Rattle.lot_laws.specs.Fairness.{thread_wins, all_draws, win_count, choose};
ghost use Rattle.lot_laws.specs.Rounds.{IsBetweenRounds, IsSameLottery, rounds, wins_in_rounds, ticks_in_rounds};
ghost use Rattle.lot_laws.specs.Rounds.{IsJustBelow, compensation_of, ticks_in_all_parts, IsBetweenSlices};
ghost use Rattle.lot_laws.specs.Rounds.{ticks_in_all_slices, StaysReady, loses_all};

/// Rounds leave the lottery as it is: funding, live threads, weights and total stay, and the next round finds what the
/// first one found (2.2, 4.2). A round is a draw of a processor on which nobody runs, and the end of the winner's
/// quantum. The premise is that each Ready thread weighs its value. One without compensation does, and one that is
/// worth nothing.
pub fn rounds_keep_the_lottery()
    ensures plain { (s : State) (t : ℕ) → (0 < value_of s t → compensation_of s t ≡ None)
        → weight_of s t ≡ value_of s t }
    ensures lottery { (s : State) (p : ℕ) (draws : List ℕ) → IsBetweenRounds s p
        → IsSameLottery s (state_after s (rounds p draws)) }
    ensures again { (s : State) (p : ℕ) (draws : List ℕ) → IsBetweenRounds s p
        → IsBetweenRounds (state_after s (rounds p draws)) p }
{}

/// Over all numbers that a run of n rounds may draw, a thread of value V wins exactly k rounds with choose n k * V ^ k
/// * (total - V) ^ (n - k) lists of numbers: its wins have the binomial distribution (2.2). Each round of the run is
/// won as a draw of the state before the run would be.
pub fn rounds_are_won_by_value()
    ensures draws { (s : State) (p t : ℕ) (draws : List ℕ) → IsBetweenRounds s p
        → wins_in_rounds s p t draws ≡ win_count (thread_wins s p t) draws }
    ensures binomial { (s : State) (p t n k : ℕ) → IsBetweenRounds s p → status_of s.records t ≡ Some Ready
        → count_by (λ draws. wins_in_rounds s p t draws == k) (all_draws (total_weight s) n)
        ≡ choose n k * value_of s t ^ k * (total_weight s - value_of s t) ^ (n - k) }
{}

/// A thread runs a whole quantum in each round that it wins, so over all numbers that n rounds may draw its ticks are
/// in proportion to its value: n * V / total quanta in the mean (2.2).
pub fn rounds_give_ticks_by_value()
    ensures ticks { (s : State) (p t : ℕ) (draws : List ℕ) → IsBetweenRounds s p
        → ticks_in_rounds s p t draws ≡ wins_in_rounds s p t draws * s.limits.quantum }
    ensures all { (s : State) (p t n : ℕ) → IsBetweenRounds s p → status_of s.records t ≡ Some Ready
        → sum_by (ticks_in_rounds s p t) (all_draws (total_weight s) n)
        ≡ n * value_of s t * total_weight s ^ (n - 1) * s.limits.quantum }
    ensures mean { (s : State) (p t n : ℕ) → IsBetweenRounds s p → status_of s.records t ≡ Some Ready
        → sum_by (ticks_in_rounds s p t) (all_draws (total_weight s) n) * total_weight s
        ≡ n * value_of s t * length (all_draws (total_weight s) n) * s.limits.quantum }
{}

/// A thread of value V that gives up its processor after u of the Q ticks of a quantum weighs V * Q / u, rounded down:
/// its weight times u is V * Q, but for less than u (3.4). So over all numbers of its next draw it runs V * Q ticks,
/// but for less than u, if it yields after u ticks again, as many as a thread of its value that runs whole quanta. A
/// thread whose quantum ended late, after u ticks, weighs as much. Only if V * Q is less than u it weighs more, namely
/// 1.
pub fn compensation_makes_up_for_the_rest()
    ensures leaves { (s : State) (p t ran used : ℕ) (action : Action) (status : Status)
        → is_bad_processor s p ≡ false → thread_on s.records p ≡ Some t → s.limits.without_compensation ≡ false
        → used_there s p + ran + 1 ≡ used → used < s.limits.quantum → trap_refusal s t action ≡ None
        → (trap_effect s t action).after ≡ Leaves status
        → compensation_of (step s (Trap p ran action)).state t ≡ Some used }
    ensures yields { (s : State) (p t ran used : ℕ) → is_bad_processor s p ≡ false → thread_on s.records p ≡ Some t
        → s.limits.without_compensation ≡ false → used_there s p + ran + 1 ≡ used → used < s.limits.quantum
        → let after = (step s (Trap p ran Yield)).state in (status_of after.records t ≡ Some Ready)
        × IsJustBelow (value_of s t * s.limits.quantum) used (weight_of after t * used) }
    ensures weighs { (s : State) (t used : ℕ) → compensation_of s t ≡ Some used → 0 < used
        → (0 < value_of s t → used ≤ value_of s t * s.limits.quantum)
        → IsJustBelow (value_of s t * s.limits.quantum) used (weight_of s t * used) }
    ensures late { (s : State) (t used : ℕ) → compensation_of s t ≡ Some used → 0 < value_of s t
        → value_of s t * s.limits.quantum < used → weight_of s t ≡ 1 }
    ensures ticks { (s : State) (p t used : ℕ) → is_bad_processor s p ≡ false → thread_on s.records p ≡ None
        → status_of s.records t ≡ Some Ready → compensation_of s t ≡ Some used → 0 < used → used ≤ s.limits.quantum
        → IsJustBelow (value_of s t * s.limits.quantum) used (ticks_in_all_parts s p t used) }
{}

/// Compensation keeps shares over a run in which each thread yields after a slice of its own whenever it wins (3.4).
/// Over all numbers that n rounds may draw, the ticks of a thread of value V with a slice of u of the Q ticks of a
/// quantum are n * (w * u) * total ^ (n - 1), where its weight w times u is V * Q, but for less than u.
pub fn slices_give_ticks_by_value()
    ensures all { (slices : ℕ → ℕ) (s : State) (p t n : ℕ) → IsBetweenSlices slices s p
        → status_of s.records t ≡ Some Ready
        → ticks_in_all_slices slices s p t n ≡ n * (weight_of s t * slices t) * total_weight s ^ (n - 1) }
    ensures value { (slices : ℕ → ℕ) (s : State) (p t : ℕ) → IsBetweenSlices slices s p
        → status_of s.records t ≡ Some Ready
        → IsJustBelow (value_of s t * s.limits.quantum) (slices t) (weight_of s t * slices t) }
{}

/// Everyone funded gets on. In n rounds a thread of value V never wins with exactly (total - V) ^ n of all total ^ n
/// lists of numbers (2.2). Whatever happens between n draws, and whether or not it depends on the numbers drawn, a
/// thread that is Ready before each draw, weighing at least w in a total of at most T, loses all of them with at most
/// (T - w) ^ n of the T ^ n lists of numbers below T. Of a number that is not below its own total a draw takes the
/// remainder.
pub fn everyone_funded_wins_in_the_end()
    ensures rounds { (s : State) (p t n : ℕ) → IsBetweenRounds s p → status_of s.records t ≡ Some Ready
        → count_by (λ draws. wins_in_rounds s p t draws == 0) (all_draws (total_weight s) n)
        ≡ (total_weight s - value_of s t) ^ n }
    ensures anywhere { (before : List ℕ → State) (p t least most n : ℕ) → StaysReady before t least most n
        → count_by (loses_all before p t) (all_draws most n) ≤ (most - least) ^ n }
{}
