//! Marking a node, and all nodes downstream of it, as stale.
ghost use Rattle.std.specs.Prelude.{◌≡◌, ◌<◌, Contains};
ghost use Rattle.lot_lists.specs.NodeLists.{IsFree, nodes_of};
ghost use Rattle.lot_machine.specs.declared.funding.Node.TheVariants.{Currency as CurrencyNode, Thread as ThreadNode};
ghost use Rattle.lot_machine.specs.declared.funding.Node.TheVariants.{Mutex as MutexNode};
ghost use Rattle.lot_graph.specs.Graphs.{IsNodeOf};
ghost use Rattle.lot_graph.specs.Places as places;
ghost use Rattle.lot_graph.specs.Places.{FitsLimits, layout_of, node_place};
ghost use Rattle.lot_value.specs.Marking.{IsStaleList, LeadsToPlace, Spreads, Marks};

use lot_active::{funded_node, lent_node};
use lot_graph::Graph;
use lot_lists::Lists;
use lot_machine::Node;

// The only list: the stale nodes.
pub(crate) const STALE: usize = 0;

/// Lists a node at the back, and with it all nodes that it reaches through unlisted nodes.
#[inline(always)]
pub(crate) fn mark(graph: &Graph, stale: &mut Lists, node: Node)
    requires list { IsStaleList stale.old (places.node_count (layout_of graph.now)) }
    requires node { IsNodeOf graph.now node }
    ensures list { IsStaleList stale.new (places.node_count (layout_of graph.now)) }
    ensures marks { Marks (layout_of graph.now) graph.now.funding (nodes_of stale.old 0) (nodes_of stale.new 0) node }
    ensures fits { FitsLimits graph.now }
{
    let layout = graph.layout();
    let place = layout.list_of(node);
    // Inlined, so that no call is made for a node that is listed already.
    if stale.list_of(place).is_some() {
        return;
    }
    mark_unlisted(graph, stale, node, place);
}

/// Lists an unlisted node at the back, and with it all nodes that it reaches through unlisted nodes.
fn mark_unlisted(graph: &Graph, stale: &mut Lists, node: Node, place: usize)
    requires list { IsStaleList stale.old (places.node_count (layout_of graph.now)) }
    requires node { IsNodeOf graph.now node }
    requires place { place ≡ node_place (layout_of graph.now) node }
    requires free { IsFree stale.old place }
    ensures list { IsStaleList stale.new (places.node_count (layout_of graph.now)) }
    ensures marks { Marks (layout_of graph.now) graph.now.funding (nodes_of stale.old 0) (nodes_of stale.new 0) node }
    ensures fits { FitsLimits graph.now }
{
    let layout = graph.layout();
    stale.push_back(STALE, place);
    let mut next = Some(place);
    // As many iterations as there are nodes: each follows the next listed one.
    for _ in 0..layout.node_count() {
        let Some(from) = next else {
            return;
        };
        add_targets(graph, stale, layout.node_of(from));
        next = stale.next(from);
    }
}

/// Lists the targets of a node's edges, unless they are listed.
fn add_targets(graph: &Graph, stale: &mut Lists, from: Node)
    requires list { IsStaleList stale.old (places.node_count (layout_of graph.now)) }
    requires node { IsNodeOf graph.now from }
    ensures list { IsStaleList stale.new (places.node_count (layout_of graph.now)) }
    ensures spreads { Spreads stale.old stale.new (LeadsToPlace (layout_of graph.now) graph.now.funding from) }
{
    match from {
        Node::Currency(currency) => add_funded(graph, stale, currency),
        Node::Thread(thread) => add_borrower(graph, stale, thread),
        Node::Mutex(mutex) => add_owner(graph, stale, mutex),
    }
}

/// Lists the nodes that a currency's tickets fund, unless they are listed. Reads each ticket once.
fn add_funded(graph: &Graph, stale: &mut Lists, currency: u32)
    requires list { IsStaleList stale.old (places.node_count (layout_of graph.now)) }
    requires node { IsNodeOf graph.now (CurrencyNode currency) }
    ensures list { IsStaleList stale.new (places.node_count (layout_of graph.now)) }
    ensures spreads { Spreads stale.old stale.new (LeadsToPlace (layout_of graph.now) graph.now.funding
        (CurrencyNode currency)) }
{
    let layout = graph.layout();
    for number in graph.tickets_of(currency) {
        let Some(ticket) = graph.ticket(number) else {
            unreachable!()
        };
        if let Some(to) = funded_node(ticket.target) {
            add(stale, layout.list_of(to));
        }
    }
}

/// Lists the node to which a thread lends, if it lends, unless that node is listed.
fn add_borrower(graph: &Graph, stale: &mut Lists, thread: u32)
    requires list { IsStaleList stale.old (places.node_count (layout_of graph.now)) }
    requires node { IsNodeOf graph.now (ThreadNode thread) }
    ensures list { IsStaleList stale.new (places.node_count (layout_of graph.now)) }
    ensures spreads { Spreads stale.old stale.new (LeadsToPlace (layout_of graph.now) graph.now.funding
        (ThreadNode thread)) }
{
    let layout = graph.layout();
    let Some(lend) = graph.lend_of(thread) else {
        return;
    };
    if let Some(to) = lent_node(lend) {
        add(stale, layout.list_of(to));
    }
}

/// Lists the owner of a mutex, if it has one, unless that thread is listed.
fn add_owner(graph: &Graph, stale: &mut Lists, mutex: u32)
    requires list { IsStaleList stale.old (places.node_count (layout_of graph.now)) }
    requires node { IsNodeOf graph.now (MutexNode mutex) }
    ensures list { IsStaleList stale.new (places.node_count (layout_of graph.now)) }
    ensures spreads { Spreads stale.old stale.new (LeadsToPlace (layout_of graph.now) graph.now.funding
        (MutexNode mutex)) }
{
    let layout = graph.layout();
    if let Some(owner) = graph.owner(mutex) {
        add(stale, layout.list_of(Node::Thread(owner)));
    }
}

/// Lists a node at the back, unless it is listed.
fn add(stale: &mut Lists, place: usize)
    requires list { IsStaleList stale.old stale.old.nodes }
    requires place { place < stale.old.nodes }
    ensures list { IsStaleList stale.new stale.old.nodes }
    ensures spreads { Spreads stale.old stale.new (λ x. x ≡ place) }
{
    if stale.list_of(place).is_none() {
        stale.push_back(STALE, place);
    }
}
