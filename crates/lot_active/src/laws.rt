//! The calls of the graph that add or remove one edge, and those that leave activity unchanged: laws of the
//! definitions, without executable code.
ghost use Rattle.std.specs.Prelude.{◌≡◌, ◌≢◌, ◌⊎◌, ℕ, ◌<◌, ◌≤◌, ◌↔◌, ◌++◌, ◌∷◌, [], Bool, List, Contains, None, Some};
ghost use Rattle.std.specs.Prelude.{false};
ghost use Rattle.lot_machine.specs.declared.ticket.Ticket.{Ticket};
ghost use Rattle.lot_machine.specs.declared.ticket.Target.{Target};
ghost use Rattle.lot_machine.specs.declared.ticket.Target.TheVariants.{Unfunded};
ghost use Rattle.lot_machine.specs.declared.funding.Node.{Node};
ghost use Rattle.lot_machine.specs.declared.funding.Node.TheVariants.{Currency as CurrencyNode, Thread as ThreadNode};
ghost use Rattle.lot_machine.specs.declared.funding.Node.TheVariants.{Mutex as MutexNode};
ghost use Rattle.lot_machine.specs.declared.funding.Edge.TheVariants.{OfTicket, OfLender, OfMutex};
ghost use Rattle.lot_machine.specs.declared.funding.Lend.{Lend};
ghost use Rattle.lot_machine.specs.declared.funding.Lend.TheVariants.{Nobody};
ghost use Rattle.lot_machine.specs.Numbered.{at_number, set_number};
ghost use Rattle.lot_machine.specs.Funding.{ticket_at, owner_of, target_node, lend_node, with_new_ticket};
ghost use Rattle.lot_machine.specs.Funding.{without_ticket, with_amount, with_target};
ghost use Rattle.lot_machine.specs.Activity.{active_amount};
ghost use Rattle.lot_graph.specs.Graphs.{LimitedFunding, IsSound, IsMutex};
ghost use Rattle.lot_graph.specs.Places.{FitsLimits, layout_of};
ghost use Rattle.lot_active.specs.Activity.{Activity};
ghost use Rattle.lot_active.specs.Fundings.{IsKeptFor, AddsEdge, edge_between};
ghost use Rattle.lot_active.specs.Changes.{ChangesNodes, switched_nodes, adjusted_nodes};
ghost use Rattle.lot_graph.specs.Changes.{with_currencies, with_lends, with_owners, with_tickets};

/// Giving a ticket a target, a thread a lend, or a mutex an owner adds one edge; taking it away removes one.
pub fn calls_change_one_edge()
    ensures fund { (w now : LimitedFunding) (n : ℕ) (t : Ticket) (to : Target) (node : Node)
        → ticket_at w.funding n ≡ Some t → t.target ≡ Unfunded → target_node to ≡ Some node
        → now ≡ with_tickets w (with_target w.funding.tickets n to)
        → AddsEdge w now (OfTicket n) (edge_between t.amount (CurrencyNode t.issuer) node) }
    ensures unfund { (w now : LimitedFunding) (n : ℕ) (t : Ticket) (node : Node) → ticket_at w.funding n ≡ Some t
        → target_node t.target ≡ Some node
        → now ≡ with_tickets w (with_target w.funding.tickets n Unfunded)
        → AddsEdge now w (OfTicket n) (edge_between t.amount (CurrencyNode t.issuer) node) }
    ensures lend { (w now : LimitedFunding) (t : ℕ) (lend : Lend) (node : Node)
        → at_number w.funding.lends t ≡ Some Nobody → lend_node lend ≡ Some node
        → now ≡ with_lends w (set_number w.funding.lends t lend)
        → AddsEdge w now (OfLender t) (edge_between 1 (ThreadNode t) node) }
    ensures unlend { (w now : LimitedFunding) (t : ℕ) (lend : Lend) (node : Node)
        → at_number w.funding.lends t ≡ Some lend → lend_node lend ≡ Some node
        → now ≡ with_lends w (set_number w.funding.lends t Nobody)
        → AddsEdge now w (OfLender t) (edge_between 1 (ThreadNode t) node) }
    ensures own { (w now : LimitedFunding) (m owner : ℕ) → IsMutex w.funding m → owner_of w.funding m ≡ None
        → now ≡ with_owners w (set_number w.funding.owners m (Some owner))
        → AddsEdge w now (OfMutex m) (edge_between 1 (MutexNode m) (ThreadNode owner)) }
    ensures disown { (w now : LimitedFunding) (m owner : ℕ) → IsMutex w.funding m → owner_of w.funding m ≡ Some owner
        → now ≡ with_owners w (set_number w.funding.owners m None)
        → AddsEdge now w (OfMutex m) (edge_between 1 (MutexNode m) (ThreadNode owner)) }
{}

/// These changes leave the activity right: making or removing a ticket without a target or a currency, adding a thread
/// that isn't live, and changing the amount of a ticket without a target.
pub fn others_keep()
    ensures issue { (v : Activity) (w now : LimitedFunding) (live : List Bool) (amount issuer : ℕ)
        → IsKeptFor v w live → IsSound now.funding → FitsLimits now
        → now ≡ with_tickets w (with_new_ticket w.funding.tickets amount issuer Unfunded) → IsKeptFor v now live }
    ensures again { (v : Activity) (w now : LimitedFunding) (live : List Bool) (n : ℕ) (t : Ticket)
        → IsKeptFor v w live → IsSound now.funding → FitsLimits now → at_number w.funding.tickets n ≡ Some None
        → t.target ≡ Unfunded
        → now ≡ with_tickets w (set_number w.funding.tickets n (Some t)) → IsKeptFor v now live }
    ensures destroy { (v : Activity) (w now : LimitedFunding) (live : List Bool) (n : ℕ) (t : Ticket)
        → IsKeptFor v w live → IsSound now.funding → FitsLimits now → ticket_at w.funding n ≡ Some t
        → t.target ≡ Unfunded
        → now ≡ with_tickets w (without_ticket w.funding.tickets n) → IsKeptFor v now live }
    ensures set_amount { (v : Activity) (w now : LimitedFunding) (live : List Bool) (n amount : ℕ) (t : Ticket)
        → IsKeptFor v w live → IsSound now.funding → FitsLimits now → ticket_at w.funding n ≡ Some t
        → t.target ≡ Unfunded
        → now ≡ with_tickets w (with_amount w.funding.tickets n amount) → IsKeptFor v now live }
    ensures thread { (v : Activity) (w now : LimitedFunding) (live : List Bool) → IsKeptFor v w live
        → IsSound now.funding → FitsLimits now
        → now ≡ with_lends w (w.funding.lends ++ Nobody ∷ []) → IsKeptFor v now (live ++ false ∷ []) }
    ensures currencies { (v : Activity) (w now : LimitedFunding) (live currencies : List Bool) → IsKeptFor v w live
        → IsSound now.funding → FitsLimits now
        → now ≡ with_currencies w currencies → IsKeptFor v now live }
{}

/// A currency is in one of a call's two lists if and only if its active amount changed.
pub fn listed_have_changed()
    ensures amounts { (begun : Node) (old new : Activity) (before now : LimitedFunding) (live after : List Bool)
        (c : ℕ) → ChangesNodes before live now after begun new → IsKeptFor old before live → IsKeptFor new now after
        → layout_of now ≡ layout_of before → c ≤ now.currency_limit
        → (Contains (switched_nodes now new) (CurrencyNode c) ⊎ Contains (adjusted_nodes now new) (CurrencyNode c))
        ↔ (active_amount now.funding after c ≢ active_amount before.funding live c) }
{}
