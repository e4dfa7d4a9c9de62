//! Conservation: apart from rounding, currencies pass on their whole value, from base to the live threads (3.3, 4.4).
ghost use Rattle.std.specs.Prelude.{◌≡◌, ◌≢◌, ◌+◌, ◌-◌, ◌≤◌, Bool, List, ℕ, length};
ghost use Rattle.lot_machine.specs.Funding.{Funding};
ghost use Rattle.lot_machine.specs.Value.{currency_value};
ghost use Rattle.lot_machine.specs.State.{State, funding_of, live_of};
ghost use Rattle.lot_machine.specs.Facts.{HasNoCycle, FundsThere, live_value, base_value};
ghost use Rattle.lot_laws.specs.Conservation.{HasAmounts, active_issued, handed_out, lost_at, lost_value};
ghost use Rattle.lot_laws.specs.Conservation.{rounded_tickets};
ghost use Rattle.lot_laws.specs.Reachable.{IsReachable};

/// A user currency's tickets together are worth the currency's value, less the rounding loss, which is at most k - 1 if
/// k of its tickets are active (4.4).
pub fn currencies_hand_on()
    ensures adds_up { (f : Funding) → HasNoCycle f → FundsThere f → (unit : ℕ) (live : List Bool) (c : ℕ) → c ≢ 0
        → currency_value unit f live c ≡ handed_out unit f live c + lost_at unit f live c }
    ensures most { (f : Funding) → HasNoCycle f → FundsThere f → HasAmounts f
        → (unit : ℕ) (live : List Bool) (c : ℕ) → c ≢ 0
        → lost_at unit f live c ≤ length (active_issued f live c) - 1 }
{}

/// The live threads together are worth as much as base's active tickets, less the rounding loss, which is less than 1
/// for each active ticket of another currency.
pub fn value_is_conserved()
    ensures adds_up { (s : State) → HasNoCycle (funding_of s) → FundsThere (funding_of s)
        → base_value s ≡ live_value s + lost_value s }
    ensures most { (s : State) → HasNoCycle (funding_of s) → FundsThere (funding_of s) → HasAmounts (funding_of s)
        → lost_value s ≤ rounded_tickets s - 1 }
{}

/// Value is conserved, apart from rounding, in each reachable state.
pub fn value_stays_conserved()
    ensures adds_up { (s : State) → IsReachable s → base_value s ≡ live_value s + lost_value s }
    ensures most { (s : State) → IsReachable s → lost_value s ≤ rounded_tickets s - 1 }
    ensures currency { (s : State) (c : ℕ) → IsReachable s → c ≢ 0
        → lost_at s.limits.unit (funding_of s) (live_of s) c ≤ length (active_issued (funding_of s) (live_of s) c) - 1 }
{}
