//! Fairness by counting: over all numbers that n lotteries over the same weights may draw, a client wins in proportion
//! to its weight, and its wins have the binomial distribution (2.2). These laws don't claim that the generator spreads
//! its numbers evenly, and say nothing of draws between which weights change.
ghost use Rattle.std.specs.Prelude.{◌≡◌, ◌+◌, ◌-◌, ◌*◌, ◌^◌, ◌<◌, Some, List, All, ℕ, length, slice_get, sum};
ghost use Rattle.lot_machine.specs.Equations.{HasEachOnce};
ghost use Rattle.lot_machine.specs.State.{State, status_of, weight_of};
ghost use Rattle.lot_machine.specs.Facts.{total_weight};
ghost use Rattle.lot_machine.specs.declared.record.Status.TheVariants.{Ready};
ghost use Rattle.lot_laws.specs.Fairness.{place_wins, thread_wins, all_draws, wins_in_all, draws_with_wins};
ghost use Rattle.lot_laws.specs.Fairness.{draws_first_won_after, squared_distances, choose};

/// The draws of n lotteries are exactly the lists of n numbers below the total, each once: total ^ n lists.
pub fn all_draws_are_there()
    ensures once { (total n : ℕ) → HasEachOnce (all_draws total n) (λ draws. (length draws ≡ n)
        × All (λ d. d < total) draws) }
    ensures count { (total n : ℕ) → length (all_draws total n) ≡ total ^ n }
{}

/// In all draws of n lotteries together, a client of weight w wins n * w * total ^ (n - 1) times, so n * w / total
/// times in the mean; the clauses about means avoid the division (2.2). A client is an index in a lottery over any
/// weights, or a Ready thread in any state.
pub fn wins_are_in_proportion()
    ensures place { (ws : List ℕ) (place weight n : ℕ) → slice_get ws place ≡ Some weight
        → wins_in_all (place_wins ws place) (sum ws) n ≡ n * weight * sum ws ^ (n - 1) }
    ensures thread { (s : State) (p t n : ℕ) → status_of s.records t ≡ Some Ready
        → wins_in_all (thread_wins s p t) (total_weight s) n ≡ n * weight_of s t * total_weight s ^ (n - 1) }
    ensures place_mean { (ws : List ℕ) (place weight n : ℕ) → slice_get ws place ≡ Some weight
        → wins_in_all (place_wins ws place) (sum ws) n * sum ws ≡ n * weight * length (all_draws (sum ws) n) }
    ensures thread_mean { (s : State) (p t n : ℕ) → status_of s.records t ≡ Some Ready
        → wins_in_all (thread_wins s p t) (total_weight s) n * total_weight s
        ≡ n * weight_of s t * length (all_draws (total_weight s) n) }
{}

/// Wins have the binomial distribution (2.2): a client of weight w wins exactly k of n lotteries in choose n k * w ^
/// k * (total - w) ^ (n - k) of all draws.
pub fn wins_are_binomial()
    ensures place { (ws : List ℕ) (place weight n k : ℕ) → slice_get ws place ≡ Some weight
        → draws_with_wins (place_wins ws place) (sum ws) n k ≡ choose n k * weight ^ k * (sum ws - weight) ^ (n - k) }
    ensures thread { (s : State) (p t n k : ℕ) → status_of s.records t ≡ Some Ready
        → draws_with_wins (thread_wins s p t) (total_weight s) n k
        ≡ choose n k * weight_of s t ^ k * (total_weight s - weight_of s t) ^ (n - k) }
{}

/// The first win has the geometric distribution (2.2): of all draws of n lotteries, it comes after k losses in (total
/// - w) ^ k * w * total ^ (n - (k + 1)), and never in (total - w) ^ n.
pub fn first_wins_are_geometric()
    ensures place { (ws : List ℕ) (place weight n k : ℕ) → slice_get ws place ≡ Some weight → k < n
        → draws_first_won_after (place_wins ws place) (sum ws) n k
        ≡ (sum ws - weight) ^ k * weight * sum ws ^ (n - (k + 1)) }
    ensures thread { (s : State) (p t n k : ℕ) → status_of s.records t ≡ Some Ready → k < n
        → draws_first_won_after (thread_wins s p t) (total_weight s) n k
        ≡ (total_weight s - weight_of s t) ^ k * weight_of s t * total_weight s ^ (n - (k + 1)) }
    ensures place_never { (ws : List ℕ) (place weight n : ℕ) → slice_get ws place ≡ Some weight
        → draws_with_wins (place_wins ws place) (sum ws) n 0 ≡ (sum ws - weight) ^ n }
    ensures thread_never { (s : State) (p t n : ℕ) → status_of s.records t ≡ Some Ready
        → draws_with_wins (thread_wins s p t) (total_weight s) n 0 ≡ (total_weight s - weight_of s t) ^ n }
{}

/// Wins have the variance of the binomial distribution, n * (w / total) * (1 - w / total): over all draws of n
/// lotteries the squares of wins * total - n * w sum to n * w * (total - w) * total ^ n. The variance grows with n
/// and not with its square, so the more lotteries, the closer a client's share of the wins comes to its share of the
/// weights (2.2).
pub fn wins_have_the_binomial_variance()
    ensures place { (ws : List ℕ) (place weight n : ℕ) → slice_get ws place ≡ Some weight
        → squared_distances (place_wins ws place) (sum ws) weight n ≡ n * weight * (sum ws - weight) * sum ws ^ n }
    ensures thread { (s : State) (p t n : ℕ) → status_of s.records t ≡ Some Ready
        → squared_distances (thread_wins s p t) (total_weight s) (weight_of s t) n
        ≡ n * weight_of s t * (total_weight s - weight_of s t) * total_weight s ^ n }
{}
