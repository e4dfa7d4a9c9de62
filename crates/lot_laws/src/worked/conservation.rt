//! Worked rows for conservation (4.4).
ghost use Rattle.std.specs.Prelude.{◌≡◌, [], ◌∷◌, map};
ghost use Rattle.lot_machine.specs.Worked.{after, after_in, finer};
ghost use Rattle.lot_machine.specs.WorkedRuns.{currency_graph, thirds, halves};
ghost use Rattle.lot_machine.specs.State.{funding_of, live_of};
ghost use Rattle.lot_machine.specs.Facts.{live_value, base_value};
ghost use Rattle.lot_laws.specs.Conservation.{lost_at, lost_value, rounded_tickets};
ghost use Rattle.lot_laws.specs.Runs.{nothing_to_share};

/// Whole shares lose nothing.
pub fn whole_shares()
    ensures base { base_value (after currency_graph) ≡ 3000 }
    ensures live { live_value (after currency_graph) ≡ 3000 }
    ensures lost { map (lost_at 1 (funding_of (after currency_graph)) (live_of (after currency_graph))) (1 ∷ 2 ∷ 3
        ∷ 4 ∷ 5 ∷ []) ≡ 0 ∷ 0 ∷ 0 ∷ 0 ∷ 0 ∷ [] }
{}

/// 100 in three shares loses 1, and 1 in two shares loses 1, the most possible. A larger unit loses less.
pub fn broken_shares()
    ensures base { base_value (after thirds) ≡ 100 }
    ensures live { live_value (after thirds) ≡ 99 }
    ensures lost { lost_value (after thirds) ≡ 1 }
    ensures rounded { rounded_tickets (after thirds) ≡ 3 }
    ensures half_base { base_value (after halves) ≡ 1 }
    ensures half_live { live_value (after halves) ≡ 0 }
    ensures half_lost { lost_value (after halves) ≡ 1 }
    ensures finer_base { base_value (after_in finer thirds) ≡ 25600 }
    ensures finer_live { live_value (after_in finer thirds) ≡ 25599 }
{}

/// A currency whose only active ticket had the amount 0 would lose its whole value, not just by rounding. No command
/// makes such a ticket.
pub fn nothing_to_share()
    ensures base { base_value nothing_to_share ≡ 5 }
    ensures live { live_value nothing_to_share ≡ 0 }
    ensures lost { lost_value nothing_to_share ≡ 5 }
    ensures rounded { rounded_tickets nothing_to_share ≡ 1 }
{}
