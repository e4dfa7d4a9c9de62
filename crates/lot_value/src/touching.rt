//! The nodes to touch after a change.
ghost use Rattle.std.specs.Prelude.{◌≡◌, ◌≢◌, ◌⊎◌, ◌↔◌, ℕ, Bool, List, Contains, IsTrue};
ghost use Rattle.lot_machine.specs.declared.funding.Node.{Node as ANode};
ghost use Rattle.lot_machine.specs.declared.funding.Node.TheVariants.{Currency as CurrencyNode};
ghost use Rattle.lot_machine.specs.Funding.{IsEdge};
ghost use Rattle.lot_machine.specs.Equations.{HasEquation};
ghost use Rattle.lot_graph.specs.Graphs.{IsNodeOf};
ghost use Rattle.lot_graph.specs.Places.{layout_of};
ghost use Rattle.lot_active.specs.Changes.{switched_nodes, adjusted_nodes};
ghost use Rattle.lot_active.specs.Fundings.{IsKeptFor};
ghost use Rattle.lot_value.specs.Caches.{IsStale, TouchesListed};
ghost use Rattle.lot_value.specs.Touched.{Touched, IsUser, IsFundedBy, IsListed, IsSwitchedOrFunded};

use crate::values::Values;
use lot_active::{Active, ChangedNodes, ends_of_edge};
use lot_graph::Graph;
use lot_machine::Node;

/// Touches the nodes with an equation that the last call of `active` switched, and the targets of the tickets that
/// user currencies among them issue.
#[inline(always)]
pub(crate) fn touch_switched(graph: &Graph, active: &Active, values: &mut Values)
    requires layout { values.old.layout ≡ layout_of graph.now }
    requires kept { (live : List Bool) × IsKeptFor active.now graph.now live }
    requires nodes { (node : ANode) → Contains (switched_nodes graph.now active.now) node → IsNodeOf graph.now node }
    requires ends { (from to : ANode) → IsEdge graph.now.funding from to → HasEquation graph.now.funding to }
    ensures touched { Touched graph.now values.old values.new (IsSwitchedOrFunded graph.now active.now) }
    ensures marked { (node : ANode) → Contains (switched_nodes graph.now active.now) node
        → HasEquation graph.now.funding node → IsStale values.new node }
    ensures funded { (to : ANode) → IsFundedBy graph.now (switched_nodes graph.now active.now) to
        → IsStale values.new to }
{
    for node in active.switched() {
        touch_node(graph, node, values);
        touch_funded_by(graph, node, values);
    }
}

/// Touches a node, if it has an equation.
#[inline(always)]
fn touch_node(graph: &Graph, node: Node, values: &mut Values)
    requires layout { values.old.layout ≡ layout_of graph.now }
    requires node { IsNodeOf graph.now node }
    ensures touched { Touched graph.now values.old values.new
        (λ x. (x ≡ node) × HasEquation graph.now.funding x) }
    ensures marked { HasEquation graph.now.funding node → IsStale values.new node }
{
    if has_equation(graph, node) {
        values.touch(graph, node);
    }
}

/// Touches the targets of the tickets that user currencies among these nodes issue.
#[inline(always)]
pub(crate) fn touch_funded(graph: &Graph, nodes: ChangedNodes, values: &mut Values)
    requires layout { values.old.layout ≡ layout_of graph.now }
    requires nodes { (node : ANode) → Contains nodes node → IsNodeOf graph.now node }
    requires ends { (from to : ANode) → IsEdge graph.now.funding from to → HasEquation graph.now.funding to }
    ensures touched { Touched graph.now values.old values.new (IsFundedBy graph.now nodes.entry) }
    ensures marked { (to : ANode) → IsFundedBy graph.now nodes.entry to → IsStale values.new to }
{
    for node in nodes {
        touch_funded_by(graph, node, values);
    }
}

/// Touches the targets of the tickets that a node issues, if it is a user currency.
#[inline(always)]
fn touch_funded_by(graph: &Graph, node: Node, values: &mut Values)
    requires layout { values.old.layout ≡ layout_of graph.now }
    requires node { IsNodeOf graph.now node }
    requires ends { (from to : ANode) → IsEdge graph.now.funding from to → HasEquation graph.now.funding to }
    ensures touched { Touched graph.now values.old values.new (λ to. IsUser node × IsEdge graph.now.funding node to) }
    ensures marked { IsUser node → (to : ANode) → IsEdge graph.now.funding node to → IsStale values.new to }
{
    if is_user_currency(node) {
        touch_targets(graph, node, values);
    }
}

/// Touches the targets of a node's edges.
fn touch_targets(graph: &Graph, node: Node, values: &mut Values)
    requires layout { values.old.layout ≡ layout_of graph.now }
    requires node { IsNodeOf graph.now node }
    requires ends { (from to : ANode) → IsEdge graph.now.funding from to → HasEquation graph.now.funding to }
    ensures touched { Touched graph.now values.old values.new (IsEdge graph.now.funding node) }
    ensures marked { (to : ANode) → IsEdge graph.now.funding node to → IsStale values.new to }
{
    for edge in graph.edges_out_of(node) {
        let Some(ends) = ends_of_edge(graph, edge) else {
            unreachable!()
        };
        values.touch(graph, ends.to);
    }
}

/// Whether a node has an equation: any except base, and a thread only if it exists.
fn has_equation(graph: &Graph, node: Node) -> bool
    ensures { IsTrue result ↔ HasEquation graph.now.funding node }
{
    match node {
        Node::Currency(currency) => 0 < currency,
        Node::Thread(thread) => 0 < thread && thread <= graph.threads(),
        Node::Mutex(_) => true,
    }
}

/// Whether a node is a currency other than base.
fn is_user_currency(node: Node) -> bool
    ensures { IsTrue result ↔ IsUser node }
{
    match node {
        Node::Currency(currency) => currency != 0,
        _ => false,
    }
}

/// Touches all nodes that the last call of `active` requires: those that it switched, and the targets of tickets of
/// user currencies whose active amount it changed.
#[inline(always)]
pub(crate) fn touch_listed(graph: &Graph, active: &Active, values: &mut Values)
    requires layout { values.old.layout ≡ layout_of graph.now }
    requires kept { (live : List Bool) × IsKeptFor active.now graph.now live }
    requires switched { (node : ANode) → Contains (switched_nodes graph.now active.now) node → IsNodeOf graph.now node }
    requires adjusted { (node : ANode) → Contains (adjusted_nodes graph.now active.now) node → IsNodeOf graph.now node }
    requires ends { (from to : ANode) → IsEdge graph.now.funding from to → HasEquation graph.now.funding to }
    ensures touched { Touched graph.now values.old values.new (IsListed graph.now active.now) }
    ensures listed { TouchesListed graph.now active.now values.new.stale }
{
    touch_switched(graph, active, values);
    touch_funded(graph, active.adjusted(), values);
}
