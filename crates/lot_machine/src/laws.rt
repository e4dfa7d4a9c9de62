//! Consequences of the definitions: laws of the machine, without executable code.
ghost use Rattle.std.specs.Prelude.{◌≡◌, ◌+◌, ◌==◌, ◌*◌, ◌/◌, sum_by, count_by, slice_get, ◌≤◌, ◌↔◌, ◌⊎◌, ◌<◌, ◌^◌};
ghost use Rattle.std.specs.Prelude.{Some, ◌%◌, ◌≢◌, Contains, IsTrue, MatchOption, sum, List, Bool, ℕ, length};
ghost use Rattle.lot_machine.specs.Bounds.{IsWithinBounds};
ghost use Rattle.lot_machine.specs.Funding.{Funding, IsEdge, edge_count_into, backing_thread, WouldCycle, would_cycle};
ghost use Rattle.lot_machine.specs.Funding.{ticket_at, target_of, issuer_of, IsChain, reaches_within, backing_currency};
ghost use Rattle.lot_machine.specs.Funding.{user_currency_count};
ghost use Rattle.lot_machine.specs.Activity.{IsActive, is_active, activates_within, active_amount};
ghost use Rattle.lot_machine.specs.Value.{ticket_value, currency_value, ticket_value_within, own_value, thread_value};
ghost use Rattle.lot_machine.specs.Value.{waiters_for, mutex_value, node_value};
ghost use Rattle.lot_machine.specs.Equations.{direct_lenders, owned_by, LeadsInto, HasEachOnce, edges_into};
ghost use Rattle.lot_machine.specs.Equations.{ticket_share, share, shares_into, HasEquation, Solves, Reaches};
ghost use Rattle.lot_machine.specs.declared.funding.Edge.{Edge};
ghost use Rattle.lot_machine.specs.declared.funding.Node.{Node};
ghost use Rattle.lot_machine.specs.declared.ticket.Ticket.{Ticket};
ghost use Rattle.lot_machine.specs.declared.ticket.Target.{Target};
ghost use Rattle.lot_machine.specs.declared.ticket.Target.TheVariants.{Currency, Thread};
ghost use Rattle.lot_machine.specs.declared.funding.Node.TheVariants as nodes;
ghost use Rattle.lot_machine.specs.Lottery.{winner, IsFirstAbove};
ghost use Rattle.lot_machine.specs.Facts.{HasNoCycle, FundsThere, CountsOnce, RunsApart, IsSound, live_value};
ghost use Rattle.lot_machine.specs.Facts.{base_value, total_weight, is_won_by};
ghost use Rattle.std.specs.List.{range_with_len};
ghost use Rattle.lot_machine.specs.declared.record.Status.TheVariants.{Ready};
ghost use Rattle.lot_machine.specs.Numbered.{option_any};
ghost use Rattle.lot_machine.specs.State.{State, funding_of, status_of, weight_of};
ghost use Rattle.lot_machine.specs.Step.{draw};
ghost use Rattle.lot_machine.specs.Lends.{LendsLead, LendsOnTo, IsBacked, lends_lead, lends_on_to, IsLendChain, IsLive};
ghost use Rattle.lot_machine.specs.Lends.{lends_lead_within, is_backed_within, is_backed};

/// The test that follows lends is true if and only if a chain of lends, within the test's length, leads there.
pub fn lends_are_followed()
    ensures { (k : ℕ) (f : Funding) (t u : ℕ)
        → IsTrue (lends_lead_within k f t u) ↔ ((chain : List ℕ) × IsLendChain f t chain u × (length chain ≤ k)) }
{}

/// The test for a backed thread is true if and only if a chain of lends, within the test's length, leads to a live
/// thread.
pub fn backing_is_followed()
    ensures { (k : ℕ) (f : Funding) (live : List Bool) (t : ℕ) → IsTrue (is_backed_within k f live t)
        ↔ ((chain : List ℕ) × (u : ℕ) × IsLendChain f t chain u × IsLive live u × (length chain ≤ k)) }
{}

/// The test for an active ticket is true if and only if a chain of tickets begins with it and ends at a backed thread,
/// with no more tickets after the first than the test's depth.
pub fn activity_is_followed()
    ensures { (k : ℕ) (f : Funding) (live : List Bool) (n : ℕ) (target : Target) → target_of f n ≡ Some target
        → IsTrue (activates_within k f live target)
        ↔ ((rest : List ℕ) × (t : ℕ) × IsChain f n rest (Thread t) × IsTrue (is_backed f live t) × (length rest ≤ k)) }
{}

/// The test for a cycle is true if and only if both currencies are one, or a chain of no more tickets than the test's
/// depth leads from one to the other.
pub fn cycles_are_followed()
    ensures { (k : ℕ) (f : Funding) (c issuer : ℕ) → IsTrue (reaches_within k f c issuer)
        ↔ ((c ≡ issuer) ⊎ ((first : ℕ) × (rest : List ℕ) × (issuer_of f first ≡ Some c)
        × IsChain f first rest (Currency issuer) × (length rest < k))) }
{}

/// A thread wins if the weights sum to more than 0. The winner's number is below the sum, and its index is the first
/// whose running sum is greater than the number.
pub fn winner_is_first_above()
    ensures { (ws : List ℕ) (d : ℕ) → MatchOption (winner ws d) (sum ws ≡ 0) (λ w.
        IsFirstAbove ws w.number w.place × (w.number ≡ d % sum ws) × (w.number < sum ws) × (w.total ≡ sum ws)) }
{}

/// Of the numbers below the sum of the weights, each index wins with exactly as many as its weight, and so does each
/// Ready thread in a draw.
pub fn shares_are_exact()
    ensures place { (ws : List ℕ) (place weight : ℕ) → slice_get ws place ≡ Some weight
        → count_by (λ d. option_any (λ w. w.place == place) (winner ws d)) (range_with_len 0 (sum ws)) ≡ weight }
    ensures thread { (s : State) (p t : ℕ) → status_of s.records t ≡ Some Ready
        → count_by (λ d. is_won_by t (draw s p d).reply) (range_with_len 0 (total_weight s)) ≡ weight_of s t }
{}

/// If nothing makes a cycle, and tickets fund only existing currencies, an active base ticket is worth its amount
/// times the unit, another active ticket its share of its currency's value, and any other ticket nothing (4.4).
/// Recursion deeper than the number of user currencies changes no value.
pub fn values_unfold()
    ensures user_ticket { (f : Funding) → HasNoCycle f → FundsThere f → (unit : ℕ) (live : List Bool) (t : Ticket)
        → IsTrue (is_active f live t) → t.issuer ≢ 0
        → ticket_value unit f live t ≡ currency_value unit f live t.issuer * t.amount / active_amount f live t.issuer }
    ensures base_ticket { (f : Funding) → HasNoCycle f → FundsThere f → (unit : ℕ) (live : List Bool) (t : Ticket)
        → IsTrue (is_active f live t) → t.issuer ≡ 0
        → ticket_value unit f live t ≡ t.amount * unit }
    ensures other_ticket { (f : Funding) → HasNoCycle f → FundsThere f → (unit : ℕ) (live : List Bool) (t : Ticket)
        → ¬ IsTrue (is_active f live t) → ticket_value unit f live t ≡ 0 }
    ensures depth { (f : Funding) → HasNoCycle f → FundsThere f → (k unit : ℕ) (live : List Bool) (t : Ticket)
        → user_currency_count f ≤ k
        → ticket_value_within k unit f live t ≡ ticket_value unit f live t }
{}

/// If lends make no cycle, lent funding counts once: the live threads together are worth as much as the backed
/// threads' own tickets together.
pub fn lent_counts_once()
    ensures { (s : State) → HasNoCycle (funding_of s) → CountsOnce s }
{}

/// If nothing makes a cycle, and tickets fund only existing currencies, neither the live threads together nor any
/// currency is worth more than base's active tickets. A draw's total is at most that value times the quantum, if
/// sizes are within their bounds.
pub fn values_are_bounded()
    ensures values { (s : State) → HasNoCycle (funding_of s) → FundsThere (funding_of s) → live_value s ≤ base_value s }
    ensures currencies { (f : Funding) → HasNoCycle f → FundsThere f → (unit : ℕ) (live : List Bool) (c : ℕ)
        → currency_value unit f live c ≤ active_amount f live 0 * unit }
    ensures weights { (s : State) → HasNoCycle (funding_of s) → FundsThere (funding_of s) → IsWithinBounds s.limits
        → total_weight s ≤ base_value s * s.limits.quantum }
{}

/// A state is sound if nothing makes a cycle, tickets fund only existing currencies, sizes are within their
/// bounds, each processor has its own thread, and base's active tickets are worth less than 2 ^ 56.
pub fn soundness_follows()
    ensures { (s : State) → HasNoCycle (funding_of s) → FundsThere (funding_of s) → IsWithinBounds s.limits
        → RunsApart s.records → base_value s < 2 ^ 56 → IsSound s }
{}

/// If lends make no cycle, the tests for chains of lends and for backed threads agree with their relations. The test
/// for a chain of one lend or more is the one that refuses a lock with `LockCycle` (6.1).
pub fn lends_are_exact()
    ensures lead { (f : Funding) → HasNoCycle f → (t u : ℕ) → IsTrue (lends_lead f t u) ↔ LendsLead f t u }
    ensures lead_on { (f : Funding) → HasNoCycle f → (t u : ℕ) → IsTrue (lends_on_to f t u) ↔ LendsOnTo f t u }
    ensures backed { (f : Funding) → HasNoCycle f → (live : List Bool) (t : ℕ)
        → IsTrue (is_backed f live t) ↔ IsBacked f live t }
{}

/// If tickets and lends make no cycle, and tickets fund only existing currencies, the tests for active tickets
/// and for cycles agree with their relations.
pub fn tickets_are_exact()
    ensures active { (f : Funding) → HasNoCycle f → FundsThere f → (live : List Bool) (n : ℕ) (t : Ticket)
        → ticket_at f n ≡ Some t
        → IsTrue (is_active f live t) ↔ IsActive f live n }
    ensures cycle { (f : Funding) → HasNoCycle f → FundsThere f → (issuer c : ℕ) → c < length f.currencies
        → IsTrue (would_cycle f issuer c) ↔ WouldCycle f issuer c }
{}

/// If lends make no cycle, a thread is worth the sum of its own tickets, the threads that lend to it directly, and
/// the mutexes that it owns, each counted once.
pub fn thread_values_add_up()
    ensures { (f : Funding) → HasNoCycle f → (unit : ℕ) (live : List Bool) (t : ℕ) → 0 < t → t ≤ length f.lends
        → thread_value unit f live t
        ≡ own_value unit f live t + sum_by (thread_value unit f live) (direct_lenders f t)
        + sum_by (mutex_value unit f live) (owned_by f t) }
{}

/// An active ticket's issuer has at least the ticket's amount active, and so more than 0 if the amount is.
pub fn issuers_are_active()
    ensures amount { (f : Funding) (live : List Bool) (n : ℕ) (t : Ticket) → ticket_at f n ≡ Some t
        → IsTrue (is_active f live t) → t.amount ≤ active_amount f live t.issuer }
    ensures some { (f : Funding) (live : List Bool) (n : ℕ) (t : Ticket) → ticket_at f n ≡ Some t
        → IsTrue (is_active f live t) → 0 < t.amount → 0 < active_amount f live t.issuer }
{}

/// If nothing makes a cycle, and tickets fund only existing currencies, no thread, no mutex and no user currency
/// is worth more than base's active tickets.
pub fn node_values_are_bounded()
    ensures thread { (f : Funding) → HasNoCycle f → FundsThere f → (unit : ℕ) (live : List Bool) (t : ℕ)
        → thread_value unit f live t ≤ active_amount f live 0 * unit }
    ensures mutex { (f : Funding) → HasNoCycle f → FundsThere f → (unit : ℕ) (live : List Bool) (m : ℕ)
        → mutex_value unit f live m ≤ active_amount f live 0 * unit }
    ensures node { (f : Funding) → HasNoCycle f → FundsThere f → (unit : ℕ) (live : List Bool) (node : Node)
        → node ≢ nodes.Currency 0 → node_value unit f live node ≤ active_amount f live 0 * unit }
{}

/// The list of edges into a node holds each such edge exactly once, and its length is the count that the machine
/// defines. Any other list that holds each exactly once has the same sums.
pub fn edges_into_are_exact()
    ensures edges { (f : Funding) (node : Node) → HasEachOnce (edges_into f node) (LeadsInto f node) }
    ensures count { (f : Funding) (node : Node) → length (edges_into f node) ≡ edge_count_into f node }
    ensures sums { (f : Funding) (node : Node) (counted : Edge → ℕ) (edges : List Edge)
        → HasEachOnce edges (LeadsInto f node) → sum_by counted edges ≡ sum_by counted (edges_into f node) }
{}

/// The sum that the edges into a node pass on is the sum over the tickets that fund it, the threads that lend to it,
/// and the mutexes that it owns.
pub fn shares_are_sums()
    ensures currency { (f : Funding) (unit : ℕ) (live : List Bool) (worth : Node → ℕ) (c : ℕ)
        → shares_into unit f live worth (nodes.Currency c)
        ≡ sum_by (ticket_share unit f live worth) (backing_currency f c) }
    ensures thread { (f : Funding) (unit : ℕ) (live : List Bool) (worth : Node → ℕ) (t : ℕ)
        → shares_into unit f live worth (nodes.Thread t)
        ≡ sum_by (ticket_share unit f live worth) (backing_thread f t)
        + sum_by (λ s. worth (nodes.Thread s)) (direct_lenders f t)
        + sum_by (λ m. worth (nodes.Mutex m)) (owned_by f t) }
    ensures mutex { (f : Funding) (unit : ℕ) (live : List Bool) (worth : Node → ℕ) (m : ℕ)
        → shares_into unit f live worth (nodes.Mutex m) ≡ sum_by (λ s. worth (nodes.Thread s)) (waiters_for f m) }
{}

/// If nothing makes a cycle, and tickets fund only existing currencies, the nodes' values solve the equation of
/// each node: its value is the sum that the edges into it pass on.
pub fn node_values_solve()
    ensures { (f : Funding) → HasNoCycle f → FundsThere f → (unit : ℕ) (live : List Bool) (node : Node)
        → HasEquation f node → Solves unit f live (node_value unit f live) node }
{}

/// The solution is unique: values that solve each equation are the nodes' values, for any value of base. The same
/// holds for a set of nodes, if the edges into them come only from these nodes and base.
pub fn solutions_are_node_values()
    ensures all { (f : Funding) → HasNoCycle f → FundsThere f → (unit : ℕ) (live : List Bool) (worth : Node → ℕ)
        → ((node : Node) → HasEquation f node → Solves unit f live worth node)
        → (node : Node) → HasEquation f node → worth node ≡ node_value unit f live node }
    ensures known { (f : Funding) → HasNoCycle f → FundsThere f
        → (unit : ℕ) (live : List Bool) (worth : Node → ℕ) (unknown : List Node)
        → ((from to : Node) → IsEdge f from to → ¬ Contains unknown to → from ≢ nodes.Currency 0
        → ¬ Contains unknown from)
        → ((node : Node) → ¬ Contains unknown node → HasEquation f node → Solves unit f live worth node)
        → (node : Node) → ¬ Contains unknown node → HasEquation f node → worth node ≡ node_value unit f live node }
{}

/// The equation of a node reads only the values of the nodes with an edge into it, and never base's. A change leaves it
/// alone if these edges stay and pass on as much.
pub fn equations_are_local()
    ensures reads { (f : Funding) (unit : ℕ) (live : List Bool) (worth other : Node → ℕ) (node : Node)
        → ((from : Node) → IsEdge f from node → from ≢ nodes.Currency 0 → worth from ≡ other from)
        → shares_into unit f live worth node ≡ shares_into unit f live other node }
    ensures kept { (f g : Funding) (unit : ℕ) (live now_live : List Bool) (worth : Node → ℕ) (node : Node)
        → ((edge : Edge) → LeadsInto f node edge ↔ LeadsInto g node edge)
        → ((edge : Edge) → LeadsInto f node edge → share unit f live worth edge ≡ share unit g now_live worth edge)
        → shares_into unit f live worth node ≡ shares_into unit g now_live worth node }
{}

/// If nothing makes a cycle, and tickets fund only existing currencies, no path over edges of any kind leads back to
/// its start.
pub fn no_way_leads_back()
    ensures { (f : Funding) → HasNoCycle f → FundsThere f → (from next : Node) → IsEdge f from next
        → ¬ Reaches f next from }
{}

/// If nothing makes a cycle, and tickets fund only existing currencies, the nodes have ranks that rise along edges.
pub fn ranks_rise()
    ensures { (f : Funding) → HasNoCycle f → FundsThere f
        → (rank : Node → ℕ) × ((from to : Node) → IsEdge f from to → rank from < rank to) }
{}
