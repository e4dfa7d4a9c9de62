//! Worked rows for rounds: wins, ticks, compensation and losses in runs of a few events (2.2, 3.4).
ghost use Rattle.std.specs.Prelude.{◌≡◌, ◌==◌, [], ◌∷◌, None, count_by, map, sum_by};
ghost use Rattle.lot_machine.specs.declared.reply.Reply.TheVariants.{Winner, Expired};
ghost use Rattle.lot_machine.specs.Step.{replies, state_after};
ghost use Rattle.lot_machine.specs.Worked.{after, weights};
ghost use Rattle.lot_laws.specs.Fairness.{all_draws};
ghost use Rattle.lot_laws.specs.Rounds.{rounds, wins_in_rounds, ticks_in_rounds, ticks_in_all_parts, loses_all};
ghost use Rattle.lot_laws.specs.Rounds.{two_and_one, one_comes, half_and_whole, part_of_one, ticks_in_all_slices};
ghost use Rattle.lot_laws.specs.Rounds.{halving};

/// Threads have 2 and 1 of base. After each round their weights are 2 and 1 again. In all nine runs of two rounds,
/// eighteen rounds of 100 ticks, the first wins twelve and the second six.
pub fn two_rounds()
    ensures answers { replies (after two_and_one) (rounds 1 (0 ∷ 2 ∷ 1 ∷ []))
        ≡ Winner 1 0 3 None ∷ Expired 1 100 ∷ Winner 2 2 3 None ∷ Expired 2 100 ∷ Winner 1 1 3 None ∷ Expired 1 100
        ∷ [] }
    ensures weights { weights (state_after (after two_and_one) (rounds 1 (0 ∷ 2 ∷ []))) ≡ 2 ∷ 1 ∷ [] }
    ensures each { map (wins_in_rounds (after two_and_one) 1 1) (all_draws 3 2)
        ≡ 2 ∷ 2 ∷ 1 ∷ 2 ∷ 2 ∷ 1 ∷ 1 ∷ 1 ∷ 0 ∷ [] }
    ensures first { sum_by (ticks_in_rounds (after two_and_one) 1 1) (all_draws 3 2) ≡ 1200 }
    ensures second { sum_by (ticks_in_rounds (after two_and_one) 1 2) (all_draws 3 2) ≡ 600 }
{}

/// Two threads have 1 of base each, and the first yields after half its quantum of 100. It then weighs 2, so over all
/// numbers of a draw it runs 50 ticks with two of them, and the other 100 with one. In all nine runs of two rounds both
/// run 600 ticks. If the first runs a whole quantum instead, it weighs 1 again: rounds of whole quanta change a lottery
/// in which a thread weighs more than its value.
pub fn half_a_quantum()
    ensures weights { weights (after half_and_whole) ≡ 2 ∷ 1 ∷ [] }
    ensures half { ticks_in_all_parts (after half_and_whole) 1 1 50 ≡ 100 }
    ensures whole { sum_by (ticks_in_rounds (after half_and_whole) 1 2) (all_draws 3 1) ≡ 100 }
    ensures spent { weights (state_after (after half_and_whole) (rounds 1 (0 ∷ []))) ≡ 1 ∷ 1 ∷ [] }
    ensures runs { map (λ t. ticks_in_all_slices halving (after half_and_whole) 1 t 2) (1 ∷ 2 ∷ []) ≡ 600 ∷ 600 ∷ [] }
{}

/// A thread with 1 of base that yields after 30 of 100 ticks weighs 3, since 100 / 30 rounds down. So over all numbers
/// it runs 90 ticks, 10 fewer than its value gives it, and 10 is less than 30.
pub fn rounding()
    ensures weights { weights (after part_of_one) ≡ 3 ∷ [] }
    ensures ticks { ticks_in_all_parts (after part_of_one) 1 1 30 ≡ 90 }
{}

/// The second of two threads with 2 and 1 of base loses two rounds with 4 of 9 lists. If one more thread with 1 comes
/// after the first draw, totals are 3 and then 4. Of the numbers below 4 it then loses with three and with three, 9
/// lists of 16. Of those below 6, two win the first draw, since a draw takes the remainder: it loses with four and with
/// five, 20 lists, where the law allows 25.
pub fn losses()
    ensures rounds { count_by (λ draws. wins_in_rounds (after two_and_one) 1 2 draws == 0) (all_draws 3 2) ≡ 4 }
    ensures joined { count_by (loses_all one_comes 1 2) (all_draws 4 2) ≡ 9 }
    ensures beyond { count_by (loses_all one_comes 1 2) (all_draws 6 2) ≡ 20 }
{}
