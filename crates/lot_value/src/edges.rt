//! Updates of activity and staleness for one edge of the graph.
ghost use Rattle.std.specs.Prelude.{◌≡◌};
ghost use Rattle.lot_machine.specs.declared.funding.Node.{Node as ANode};
ghost use Rattle.lot_machine.specs.declared.funding.Edge.{Edge as AnEdge};
ghost use Rattle.lot_graph.specs.Graphs.{LimitedFunding, IsSound};
ghost use Rattle.lot_graph.specs.Places.{FitsLimits};
ghost use Rattle.lot_active.specs.declared.edge_ends.EdgeEnds.{EdgeEnds as Ends};
ghost use Rattle.lot_active.specs.Fundings.{AddsEdge};
ghost use Rattle.lot_value.specs.Caches.{IsStale};
ghost use Rattle.lot_value.specs.Valued.{AreTogether, Follows, StandsFor, live_of};

use crate::touching::touch_listed;
use crate::values::Values;
use lot_active::{Active, EdgeEnds, ends_of_edge};
use lot_graph::Graph;
use lot_machine::Edge;

/// Updates activity and staleness for an edge added to the graph.
#[inline(always)]
pub(crate) fn attach(graph: &Graph, active: &mut Active, values: &mut Values, edge: Edge)
    requires before { (before : LimitedFunding) × (ends : Ends) × AddsEdge before graph.now edge ends
        × StandsFor before graph.now ends × AreTogether before active.old values.old }
    ensures follows { (before : LimitedFunding) (ends : Ends) → AddsEdge before graph.now edge ends
        → StandsFor before graph.now ends → AreTogether before active.old values.old
        → Follows before graph.now active.old active.new values.old values.new (live_of before active.old) }
    ensures kept { (node : ANode) → IsStale values.old node → IsStale values.new node }
    ensures others { values.new ≡ record values.old { stale = values.new.stale } }
{
    // Looked up before any write, so that one lookup serves here and in `attach`, which is inlined.
    let Some(ends) = ends_of_edge(graph, edge) else {
        unreachable!()
    };
    active.attach(graph, edge);
    touch_listed(graph, active, values);
    values.touch(graph, ends.to);
}

/// Updates activity and staleness for an edge removed from the graph, given its former ends.
#[inline(always)]
pub(crate) fn detach(graph: &Graph, active: &mut Active, values: &mut Values, ends: EdgeEnds)
    requires sound { IsSound graph.now.funding }
    requires fits { FitsLimits graph.now }
    requires before { (before : LimitedFunding) × (edge : AnEdge) × AddsEdge graph.now before edge ends
        × StandsFor before graph.now ends × AreTogether before active.old values.old }
    ensures follows { (before : LimitedFunding) (edge : AnEdge) → AddsEdge graph.now before edge ends
        → StandsFor before graph.now ends → AreTogether before active.old values.old
        → Follows before graph.now active.old active.new values.old values.new (live_of before active.old) }
    ensures kept { (node : ANode) → IsStale values.old node → IsStale values.new node }
    ensures others { values.new ≡ record values.old { stale = values.new.stale } }
{
    active.detach(graph, ends);
    touch_listed(graph, active, values);
    values.touch(graph, ends.to);
}
