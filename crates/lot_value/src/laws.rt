//! Cached values after a change: laws of the definitions, without executable code.
ghost use Rattle.std.specs.Prelude.{◌≡◌, ◌⊎◌, ◌++◌, ℕ, Bool, List, Contains, Some};
ghost use Rattle.lot_machine.specs.declared.funding.Node.{Node};
ghost use Rattle.lot_machine.specs.declared.funding.Edge.{Edge};
ghost use Rattle.lot_machine.specs.Funding.{Funding, IsEdge, ends_of};
ghost use Rattle.lot_machine.specs.Equations.{HasEquation};
ghost use Rattle.lot_graph.specs.Graphs.{LimitedFunding, IsSound};
ghost use Rattle.lot_graph.specs.Places.{layout_of};
ghost use Rattle.lot_active.specs.Activity.{Activity};
ghost use Rattle.lot_active.specs.Changes.{ChangesNodes};
ghost use Rattle.lot_active.specs.Fundings.{IsKeptFor, ends_of_edge};
ghost use Rattle.lot_value.specs.Caches.{Known, IsRightBut, DiffersAt, CoversChange, TouchesListed, HasSameEquation};

/// Values right for one graph and its live threads are right for another, except at the nodes whose equations differ.
/// So after all changes of an event a caller touches each of these nodes, in any order.
pub fn changed_nodes_are_pending()
    ensures { (before after : LimitedFunding) (live now : List Bool) (c : Known) (pending changed : List Node)
        → IsRightBut before live c pending → DiffersAt c.unit before live after now changed
        → IsRightBut after now c (changed ++ pending) }
{}

/// After a change that these nodes cover, each other node has its old equation: the edges into it are unchanged and
/// pass on as much.
pub fn equations_stay_elsewhere()
    ensures { (unit : ℕ) (before after : Funding) (live now : List Bool) (changed : List Node) → IsSound before
        → IsSound after → CoversChange before live after now changed → (node : Node) → ¬ Contains changed node
        → HasSameEquation unit before live after now node }
{}

/// These nodes cover the change: those that a call of an `Active` switched, those funded by a ticket of a user
/// currency whose active amount it changed, and the ends of the edges that the graph gained or lost.
pub fn listed_nodes_cover_the_change()
    ensures { (old new : Activity) (before after : LimitedFunding) (live now : List Bool) (begun : Node)
        (changed : List Node) → layout_of after ≡ layout_of before → IsKeptFor old before live
        → IsKeptFor new after now → ChangesNodes before live after now begun new
        → ((from to : Node) → IsEdge after.funding from to → HasEquation after.funding to)
        → TouchesListed after new changed
        → ((edge : Edge) → (ends_of_edge after.funding edge ≡ ends_of_edge before.funding edge)
        ⊎ ((from to : Node) → (ends_of before.funding edge ≡ Some (from, to))
        ⊎ (ends_of after.funding edge ≡ Some (from, to)) → Contains changed to))
        → CoversChange before.funding live after.funding now changed }
{}
