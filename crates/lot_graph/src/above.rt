//! The nodes above a node: a search against the edges.
ghost use Rattle.std.specs.Prelude.{◌≡◌, ◌≤◌, ◌↔◌, ◌+◌, ◌*◌, [], IfOk, IsTrue};
ghost use Rattle.lot_graph.specs.Found.{HasFound, IsAbove};
ghost use Rattle.lot_graph.specs.Graphs.{IsNodeOf};
ghost use Rattle.lot_graph.specs.Places.{IsEdgeWithin, layout_of, node_count};
ghost use Rattle.lot_graph.specs.Spread.{IsBack, tail_of as edge_tail};

use crate::graph::Graph;
use crate::layout::Layout;
use crate::search::{Steps, add_node, find};
use lot_lists::Lists;
use lot_machine::{Edge, Node};
use std::alloc::{AllocError, Global};
use std::marker::Model;

/// A search for the nodes above a node: those from which a path of edges, perhaps empty, leads to it. Only `new`
/// allocates.
#[derive(Drop)]
pub struct Above {
    // The places of the nodes found, in one list.
    found: Lists,
    layout: Layout,
}

impl Model for Above {
    ghost use Rattle.lot_graph.specs.Found.{FoundNodes};
    ghost use Rattle.lot_graph.specs.Spread.{IsFoundList, found_nodes};

    ghost Value = { FoundNodes };

    ghost view = { λ s. found_nodes s.layout s.found };

    ghost invariant = { λ s. IsFoundList s.layout s.found };
}

impl Above {
    /// A search for graphs with this layout, with nothing found.
    ///
    /// Fails with `AllocError` if out of memory, or if a `u32` can't number all nodes of the layout.
    pub fn new(alloc: Global, layout: Layout) -> Result<Self, AllocError>
        ensures layout { IfOk result (λ made. made.layout ≡ layout) }
        ensures nothing { IfOk result (λ made. made.nodes ≡ []) }
    {
        Ok(Above {
            found: Lists::new(alloc, 1, layout.node_count())?,
            layout,
        })
    }

    /// The number of bytes that `new` requests from the allocator for graphs with this layout.
    pub fn bytes(layout: Layout) -> u64
        ensures { result ≡ 12 * node_count layout + 8 }
    {
        Lists::bytes(1, layout.node_count())
    }

    /// The capacity in bytes: always exactly what `new` requested.
    pub fn held(&self) -> u64
        ensures { result ≡ 12 * node_count self.now.layout + 8 }
    {
        self.found.held()
    }

    /// Finds the nodes from which a path of edges, perhaps empty, leads to this one. They replace those found before.
    /// It reads each edge into them once.
    pub fn find(&mut self, graph: &Graph, node: Node)
        requires layout { self.old.layout ≡ layout_of graph.now }
        requires node { IsNodeOf graph.now node }
        ensures layout { self.new.layout ≡ self.old.layout }
        ensures above { IsAbove graph.now.funding node self.new }
    {
        find(graph, graph.layout(), &mut self.found, node);
    }

    /// Whether the last search found this currency.
    pub fn has(&self, currency: u32) -> bool
        requires currency { currency ≤ self.now.layout.currencies }
        ensures { IsTrue result ↔ HasFound self.now currency }
    {
        let place = self.layout.list_of(Node::Currency(currency));
        self.found.list_of(place).is_some()
    }
}

impl Steps for Graph {
    // against the edges
    ghost leads = { λ graph. IsBack graph.funding };

    ghost fit = { λ graph layout. layout ≡ layout_of graph };

    fn add_next(&self, layout: Layout, found: &mut Lists, node: Node) {
        for edge in self.edges_into(node) {
            add_node(found, layout, tail_of(self, edge));
        }
    }
}

/// The node that an edge leads out of: the issuer of a ticket, the thread that lends, or the owned mutex. It doesn't
/// read the edge's other end.
fn tail_of(graph: &Graph, edge: Edge) -> Option<Node>
    requires within { IsEdgeWithin (layout_of graph.now) edge }
    ensures { result ≡ edge_tail graph.now.funding edge }
{
    match edge {
        Edge::OfTicket(ticket) => Some(Node::Currency(graph.issuer_of(ticket)?)),
        Edge::OfLender(thread) => Some(Node::Thread(thread)),
        Edge::OfMutex(mutex) => Some(Node::Mutex(mutex)),
    }
}
