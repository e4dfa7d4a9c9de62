//! Worked rows for fairness in small lotteries (2.2).
ghost use Rattle.std.specs.Prelude.{◌≡◌, [], ◌∷◌, Some, None, codes, map, length};
ghost use Rattle.lot_machine.specs.Worked.{after, fundx, base};
ghost use Rattle.lot_laws.specs.Fairness.{place_wins, thread_wins, win_count, all_draws, wins_in_all};
ghost use Rattle.lot_laws.specs.Fairness.{draws_with_wins, first_win, draws_first_won_after, squared_distances};
ghost use Rattle.lot_laws.specs.Fairness.{choose, processors_in_all, two_users};

/// Two lotteries over the weights 2 and 1, a total of 3: in all nine draws, eighteen lotteries, the first index wins
/// twelve times.
pub fn two_lotteries()
    ensures all { all_draws 3 2 ≡ (0 ∷ 0 ∷ []) ∷ (0 ∷ 1 ∷ []) ∷ (0 ∷ 2 ∷ []) ∷ (1 ∷ 0 ∷ []) ∷ (1 ∷ 1 ∷ [])
        ∷ (1 ∷ 2 ∷ []) ∷ (2 ∷ 0 ∷ []) ∷ (2 ∷ 1 ∷ []) ∷ (2 ∷ 2 ∷ []) ∷ [] }
    ensures each { map (win_count (place_wins (2 ∷ 1 ∷ []) 0)) (all_draws 3 2)
        ≡ 2 ∷ 2 ∷ 1 ∷ 2 ∷ 2 ∷ 1 ∷ 1 ∷ 1 ∷ 0 ∷ [] }
    ensures first { wins_in_all (place_wins (2 ∷ 1 ∷ []) 0) 3 2 ≡ 12 }
    ensures second { wins_in_all (place_wins (2 ∷ 1 ∷ []) 1) 3 2 ≡ 6 }
    ensures binomial { map (draws_with_wins (place_wins (2 ∷ 1 ∷ []) 0) 3 2) (0 ∷ 1 ∷ 2 ∷ 3 ∷ []) ≡ 1 ∷ 4 ∷ 4 ∷ 0 ∷ [] }
    ensures first_wins { map (first_win (place_wins (2 ∷ 1 ∷ []) 0)) (all_draws 3 2)
        ≡ Some 0 ∷ Some 0 ∷ Some 0 ∷ Some 0 ∷ Some 0 ∷ Some 0 ∷ Some 1 ∷ Some 1 ∷ None ∷ [] }
    ensures geometric { map (draws_first_won_after (place_wins (2 ∷ 1 ∷ []) 0) 3 2) (0 ∷ 1 ∷ []) ≡ 6 ∷ 2 ∷ [] }
    ensures variance { squared_distances (place_wins (2 ∷ 1 ∷ []) 0) 3 2 2 ≡ 36 }
{}

/// Three lotteries over the weights 1, 0 and 1: the index with weight 0 never wins.
pub fn three_lotteries()
    ensures many { length (all_draws 2 3) ≡ 8 }
    ensures binomial { map (draws_with_wins (place_wins (1 ∷ 0 ∷ 1 ∷ []) 0) 2 3) (0 ∷ 1 ∷ 2 ∷ 3 ∷ [])
        ≡ 1 ∷ 3 ∷ 3 ∷ 1 ∷ [] }
    ensures nothing { wins_in_all (place_wins (1 ∷ 0 ∷ 1 ∷ []) 1) 2 3 ≡ 0 }
    ensures geometric { map (draws_first_won_after (place_wins (1 ∷ 0 ∷ 1 ∷ []) 0) 2 3) (0 ∷ 1 ∷ 2 ∷ [])
        ≡ 4 ∷ 2 ∷ 1 ∷ [] }
    ensures chosen { map (choose 4) (0 ∷ 1 ∷ 2 ∷ 3 ∷ 4 ∷ 5 ∷ []) ≡ 1 ∷ 4 ∷ 6 ∷ 4 ∷ 1 ∷ 0 ∷ [] }
{}

/// Threads with 2 and 1 of base: in all draws of two lotteries the first wins twelve times, the second six.
pub fn two_threads()
    ensures first { wins_in_all (thread_wins (after (fundx 2 base (codes "a") ∷ fundx 1 base (codes "b")
        ∷ [])) 1 1) 3 2 ≡ 12 }
    ensures second { wins_in_all (thread_wins (after (fundx 2 base (codes "a") ∷ fundx 1 base (codes "b")
        ∷ [])) 1 2) 3 2 ≡ 6 }
{}

/// Two users with equal funding, one with two threads and one with four. A thread that runs is in no draw, so of two
/// processors the second draws among fewer numbers: 6 after a thread of the first user, 7 after one of the second. Over
/// all numbers of both draws, 42 being a multiple of 6 and 7, the user with more threads gets more: 352 processors of
/// 672. In the first draw alone both have 4 numbers of 8.
pub fn two_processors()
    ensures few_threads { processors_in_all (after two_users) (1 ∷ 2 ∷ []) 8 42 ≡ 320 }
    ensures many_threads { processors_in_all (after two_users) (3 ∷ 4 ∷ 5 ∷ 6 ∷ []) 8 42 ≡ 352 }
    ensures first_draw { map (λ t. wins_in_all (thread_wins (after two_users) 1 t) 8 1) (1 ∷ 2 ∷ 3 ∷ 4 ∷ 5 ∷ 6 ∷ [])
        ≡ 2 ∷ 2 ∷ 1 ∷ 1 ∷ 1 ∷ 1 ∷ [] }
{}
