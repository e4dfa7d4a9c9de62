//! The order in which stale nodes are settled. This module sees neither values nor counts, so it reads no edge for a
//! value: staleness isn't a value.
//!
//! Most often the next node is the one at the front of the list. If the front node has a stale source, this module
//! turns it over to the back. Then it and all stale nodes upstream of it come first, from the back of the list.
//!
//! While all stale nodes are settled one after the other, and none becomes stale in between, this module walks the
//! edges into each of them at most three times: once to look at the node at the front, once to raise its stale sources,
//! and once when it has none left. The sources raised above a node are upstream of it, so they never raise it again,
//! and all of them are returned before it. With the read for its value that makes four walks, and two for a node whose
//! sources come before it in the list.
ghost use Rattle.std.specs.Prelude.{◌≡◌, ℕ, [], Contains, Some, IfSome, IfNone};
ghost use Rattle.std.specs.Bool.{OnTrue, OnFalse};
ghost use Rattle.lot_lists.specs.NodeLists.{nodes_of};
ghost use Rattle.lot_machine.specs.declared.funding.Node.{Node as ANode};
ghost use Rattle.lot_machine.specs.Funding.{IsEdge, ends_of};
ghost use Rattle.lot_graph.specs.Graphs.{IsNodeOf};
ghost use Rattle.lot_graph.specs.Places as places;
ghost use Rattle.lot_graph.specs.Places.{IsEdgeWithin, layout_of, node_place};
ghost use Rattle.lot_value.specs.Marking.{IsStaleList, IsReordered, IsFreshPlace, LeadsFromPlace, last_of};

use crate::marking::STALE;
use lot_graph::Graph;
use lot_lists::Lists;
use lot_machine::{Edge, Node};

/// Whether a source of a node is stale. It reads each edge into the node once, even after it has found one: most nodes
/// have few edges, and a loop with one exit takes fewer instructions.
#[inline(always)]
pub(crate) fn has_stale_source(graph: &Graph, stale: &Lists, node: Node) -> bool
    requires list { IsStaleList stale.now (places.node_count (layout_of graph.now)) }
    requires node { IsNodeOf graph.now node }
    ensures found { OnTrue result ((place : ℕ) × Contains (nodes_of stale.now 0) place
        × LeadsFromPlace (layout_of graph.now) graph.now.funding place node) }
    ensures none { OnFalse result ((from : ANode) → IsEdge graph.now.funding from node
        → ¬ Contains (nodes_of stale.now 0) (node_place (layout_of graph.now) from)) }
{
    let layout = graph.layout();
    let mut found = false;
    for edge in graph.edges_into(node) {
        let Some(source) = source_of_edge(graph, edge) else {
            unreachable!()
        };
        let place = layout.list_of(source);
        if stale.list_of(place).is_some() {
            found = true;
        }
    }
    found
}

/// The source of an edge, if the edge exists. It doesn't read the edge's target.
#[inline(always)]
fn source_of_edge(graph: &Graph, edge: Edge) -> Option<Node>
    requires within { IsEdgeWithin (layout_of graph.now) edge }
    ensures source { (from to : ANode) → ends_of graph.now.funding edge ≡ Some (from, to) → result ≡ Some from }
{
    match edge {
        Edge::OfTicket(number) => Some(Node::Currency(graph.issuer_of(number)?)),
        Edge::OfLender(thread) => Some(Node::Thread(thread)),
        Edge::OfMutex(mutex) => Some(Node::Mutex(mutex)),
    }
}

/// Turns the node at the front over to the back, unless an earlier turned one is unsettled. Returns the place of the
/// first node to settle, among the turned one and the stale nodes upstream of it: a stale node without a stale source.
/// `None` if no node is stale. `turned` is the place of the turned node, until it is returned.
pub(crate) fn raise_fresh(
    graph: &Graph,
    stale: &mut Lists,
    turned: &mut Option<usize>,
) -> Option<usize>
    requires list { IsStaleList stale.old (places.node_count (layout_of graph.now)) }
    ensures list { IsStaleList stale.new (places.node_count (layout_of graph.now)) }
    ensures reordered { IsReordered (nodes_of stale.old 0) (nodes_of stale.new 0) }
    ensures fresh { IfSome result (IsFreshPlace (layout_of graph.now) graph.now.funding (nodes_of stale.new 0)) }
    ensures none { IfNone result (nodes_of stale.new 0 ≡ []) }
{
    let bottom = turn_over(stale, *turned);
    let fresh = fresh_back(graph, stale);
    *turned = if bottom == fresh { None } else { bottom };
    fresh
}

/// Moves the node at the front of the list, if any, to the back, and returns its place. If another node is turned over,
/// returns that one's place.
fn turn_over(stale: &mut Lists, turned: Option<usize>) -> Option<usize>
    requires list { IsStaleList stale.old stale.old.nodes }
    ensures list { IsStaleList stale.new stale.old.nodes }
    ensures reordered { IsReordered (nodes_of stale.old 0) (nodes_of stale.new 0) }
{
    if turned.is_some() {
        return turned;
    }
    let place = stale.first(STALE)?;
    stale.move_to(place, STALE);
    Some(place)
}

/// Moves stale nodes to the back until the one there has no stale source, and returns its place, or `None` if no node
/// is stale.
fn fresh_back(graph: &Graph, stale: &mut Lists) -> Option<usize>
    requires list { IsStaleList stale.old (places.node_count (layout_of graph.now)) }
    ensures list { IsStaleList stale.new (places.node_count (layout_of graph.now)) }
    ensures reordered { IsReordered (nodes_of stale.old 0) (nodes_of stale.new 0) }
    ensures fresh { IfSome result (IsFreshPlace (layout_of graph.now) graph.now.funding (nodes_of stale.new 0)) }
    ensures none { IfNone result (nodes_of stale.new 0 ≡ []) }
{
    let layout = graph.layout();
    while let Some(place) = stale.last(STALE) {
        if !raise_sources(graph, stale, layout.node_of(place)) {
            return Some(place);
        }
    }
    None
}

/// Moves the stale sources of a node to the back of the list. Returns whether there are any.
#[inline(always)]
fn raise_sources(graph: &Graph, stale: &mut Lists, node: Node) -> bool
    requires list { IsStaleList stale.old (places.node_count (layout_of graph.now)) }
    requires node { IsNodeOf graph.now node }
    ensures list { IsStaleList stale.new (places.node_count (layout_of graph.now)) }
    ensures reordered { IsReordered (nodes_of stale.old 0) (nodes_of stale.new 0) }
    ensures raised { OnTrue result ((place : ℕ) × (last_of stale.new ≡ Some place)
        × LeadsFromPlace (layout_of graph.now) graph.now.funding place node) }
    ensures none { OnFalse result ((stale.new ≡ stale.old)
        × ((from : ANode) → IsEdge graph.now.funding from node
        → ¬ Contains (nodes_of stale.old 0) (node_place (layout_of graph.now) from))) }
{
    let layout = graph.layout();
    let mut raised = false;
    for edge in graph.edges_into(node) {
        let Some(source) = source_of_edge(graph, edge) else {
            unreachable!()
        };
        let place = layout.list_of(source);
        if stale.list_of(place).is_some() {
            stale.move_to(place, STALE);
            raised = true;
        }
    }
    raised
}
