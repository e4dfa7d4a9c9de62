//! Laws of draws among competing threads, without executable code.
ghost use Rattle.std.specs.Prelude.{◌≡◌, ℕ, Bool, false, Option, List, map, filter};
ghost use Rattle.lot_machine.specs.declared.funding.Node.{Node};
ghost use Rattle.lot_machine.specs.Lottery as lottery;
ghost use Rattle.lot_machine.specs.State.{State, ready_threads, value_of, weight_of};
ghost use Rattle.lot_value.specs.Caches.{Known, IsStale};
ghost use Rattle.lot_draw.specs.declared.competing.Competitor.{Competitor};
ghost use Rattle.lot_draw.specs.Competing.{AreReady, winner_among, drawn_among};
ghost use Rattle.lot_draw.specs.Queued.{Queued, AreWeights};

/// Leaving competitors of weight 0 out of a lottery changes neither the winner, the number nor the total.
pub fn who_weighs_nothing_is_left_out()
    ensures { (competes : ℕ → Bool) (weight : ℕ → ℕ) → ((t : ℕ) → competes t ≡ false → weight t ≡ 0)
        → (threads : List ℕ) (d : ℕ)
        → winner_among threads (lottery.winner (map weight threads) d)
        ≡ winner_among (filter competes threads) (lottery.winner (map weight (filter competes threads)) d) }
{}

/// If the competitors are the Ready threads, a draw among them is the lottery over the weights of the Ready threads.
pub fn draws_are_among_the_ready()
    ensures { (s : State) (competitors : List (Option Competitor)) → AreReady s.records competitors
        → (d : ℕ) → drawn_among s.limits.quantum competitors (value_of s) d
        ≡ winner_among (ready_threads s.records) (lottery.winner (map (weight_of s) (ready_threads s.records)) d) }
{}

/// Weights remain right when more nodes become stale.
pub fn weights_stay_where_more_is_stale()
    ensures { (q : Queued) (old new : Known) → new ≡ record old { stale = new.stale }
        → ((node : Node) → IsStale old node → IsStale new node) → AreWeights q old → AreWeights q new }
{}
