//! Cached values, and the stale ones among them.
ghost use Rattle.std.specs.Prelude.{◌≡◌, ◌<◌, ◌⊎◌, ◌↔◌, ℕ, Bool, List, [], ◌∷◌, Contains, Some, IfOk, IfSome, IfNone};
ghost use Rattle.std.specs.Prelude.{◌+◌, ◌*◌, IsTrue, replicate};
ghost use Rattle.lot_machine.specs.declared.funding.Node.{Node as ANode};
ghost use Rattle.lot_machine.specs.declared.funding.Node.TheVariants.{Currency as CurrencyNode};
ghost use Rattle.lot_machine.specs.declared.ticket.Ticket.{Ticket as ATicket};
ghost use Rattle.lot_machine.specs.declared.funding.Edge.TheVariants.{OfTicket as OfTicketEdge};
ghost use Rattle.lot_machine.specs.Funding.{IsEdge, edge_count_into, ticket_at};
ghost use Rattle.lot_machine.specs.Equations.{HasEquation, Reaches};
ghost use Rattle.lot_machine.specs.Value.{node_value, ticket_value};
ghost use Rattle.lot_graph.specs.Graphs.{LimitedFunding, IsSound, IsNodeOf, IsFunding};
ghost use Rattle.lot_graph.specs.Places as places;
ghost use Rattle.lot_graph.specs.Places.{FitsLimits, IsNodeWithin, layout_of};
ghost use Rattle.lot_active.specs.Fundings.{IsKeptFor};
ghost use Rattle.lot_value.specs.Counts.{counted_up};
ghost use Rattle.lot_value.specs.Caches.{IsStale, IsOnce, IsRight, IsRightBut, IsSmall, Settles, edges_into_all};
ghost use Rattle.lot_value.specs.Caches.{value_in};
ghost use Rattle.lot_value.specs.Marking.{IsFreshPlace, stale_places};

use crate::marking::{STALE, mark};
use crate::readings::{Sources, read_share, read_value, ticket_share};
use crate::settling::{has_stale_source, raise_fresh};
use lot_active::Active;
use lot_graph::{Graph, Layout};
use lot_kept::Kept;
use lot_lists::Lists;
use lot_machine::{Edge, Node};
use std::alloc::{AllocError, Global};
use std::marker::Model;
use std::mem::size_of;

// The bytes of one node's value.
const VALUE_BYTES: u64 = size_of::<u64>() as u64;

/// The number of edges read for values. Only `Values::new` can make one, and nothing can copy it, so a read always
/// counts for the values that it is for.
#[derive(Drop)]
pub(crate) struct ReadCount {
    reads: u64,
}

impl Model for ReadCount {
    ghost Value = { ℕ };

    ghost view = { λ c. c.reads };
}

impl ReadCount {
    /// Counts one read of an edge.
    pub(crate) fn count(&mut self)
        ensures { self.new ≡ counted_up self.old 1 }
    {
        self.reads = self.reads.saturating_add(1);
    }
}

/// The cached value of each currency, thread and mutex, in base units; the stale nodes; and the number of edges read
/// for values.
#[derive(Drop)]
pub struct Values {
    values: Kept<u64>,
    // One list, of the places of the stale nodes.
    stale: Lists,
    // The place of a node that `raise_fresh` turned over, until it is settled.
    turned: Option<usize>,
    layout: Layout,
    unit: u32,
    reads: ReadCount,
}

impl Model for Values {
    ghost use Rattle.std.specs.Prelude.{◌≡◌, length, map};
    ghost use Rattle.lot_lists.specs.NodeLists.{nodes_of};
    ghost use Rattle.lot_graph.specs.Places.{node_count, node_of};
    ghost use Rattle.lot_value.specs.Caches.{Known};
    ghost use Rattle.lot_value.specs.Marking.{IsStaleList};

    ghost Value = { Known };

    ghost view = { λ s. record {
      unit = s.unit;
      layout = s.layout;
      values = s.values.items;
      stale = map (node_of s.layout) (nodes_of s.stale 0);
      reads = s.reads;
    } };

    ghost invariant = { λ s. IsStaleList s.stale (node_count s.layout)
        × (length s.values.items ≡ node_count s.layout) };
}

impl Values {
    /// All nodes of a graph within its limits, with value 0, none of them stale, and a count of 0. It fails only if out
    /// of memory.
    pub fn new(alloc: Global, graph: &Graph, unit: u32) -> Result<Self, AllocError>
        ensures { IfOk result (λ made. made
            ≡ record {
              unit = unit;
              layout = layout_of graph.now;
              values = replicate (places.node_count (layout_of graph.now)) 0;
              stale = [];
              reads = 0;
            }) }
    {
        let layout = graph.layout();
        let nodes = layout.node_count();
        Ok(Values {
            values: Kept::filled(alloc, 0, nodes)?,
            stale: Lists::new(alloc, 1, nodes)?,
            turned: None,
            layout,
            unit,
            reads: ReadCount { reads: 0 },
        })
    }

    /// The number of bytes that `new` requests from the allocator for a graph with this layout.
    pub fn bytes(layout: Layout) -> u64
        ensures { result ≡ 20 * places.node_count layout + 8 }
    {
        let nodes = layout.node_count();
        VALUE_BYTES * nodes as u64 + Lists::bytes(1, nodes)
    }

    /// The capacity in bytes: always exactly what `new` requested.
    pub fn held(&self) -> u64
        ensures { result ≡ 20 * places.node_count self.now.layout + 8 }
    {
        VALUE_BYTES * self.values.room() as u64 + self.stale.held()
    }

    /// The number of edges read for values. The count saturates at the largest `u64`.
    pub fn reads(&self) -> u64
        ensures { result ≡ self.now.reads }
    {
        self.reads.reads
    }

    /// Whether a node is stale.
    pub fn is_stale(&self, node: Node) -> bool
        requires node { IsNodeWithin self.now.layout node }
        ensures { IsTrue result ↔ IsStale self.now node }
    {
        self.stale.list_of(self.layout.list_of(node)).is_some()
    }

    /// Whether no node is stale.
    pub fn is_settled(&self) -> bool
        ensures { IsTrue result ↔ (self.now.stale ≡ []) }
    {
        self.stale.is_empty(STALE)
    }

    /// A node's cached value, which is its value (4.4) if it isn't stale.
    pub fn value_of(&self, node: Node) -> u64
        requires node { IsNodeWithin self.now.layout node }
        ensures value { result ≡ value_in self.now node }
        ensures worth { ¬ IsStale self.now node → (w : LimitedFunding) (live : List Bool) → IsSound w.funding
            → FitsLimits w → IsRight w live self.now → HasEquation w.funding node
            → result ≡ node_value self.now.unit w.funding live node }
    {
        self.values[self.layout.list_of(node)]
    }

    /// A ticket's value (4.4), in base units, if its issuer isn't stale. It counts one read of a ticket that funds
    /// something. A ticket that funds nothing is worth 0.
    pub fn ticket_value(&mut self, graph: &Graph, active: &Active, ticket: u32) -> u64
        requires right { (live : List Bool) × IsKeptFor active.now graph.now live
            × IsSmall self.old.unit graph.now live × IsRight graph.now live self.old }
        requires fresh { (t : ATicket) → ticket_at graph.now.funding ticket ≡ Some t
            → ¬ IsStale self.old (CurrencyNode t.issuer) }
        ensures worth { (live : List Bool) → IsKeptFor active.now graph.now live → IsRight graph.now live self.old
            → (t : ATicket) → ticket_at graph.now.funding ticket ≡ Some t
            → result ≡ ticket_value self.old.unit graph.now.funding live t }
        ensures counted { IsFunding graph.now.funding ticket
            → self.new ≡ record self.old { reads = counted_up self.old.reads 1 } }
        ensures uncounted { ¬ IsFunding graph.now.funding ticket → self.new ≡ self.old }
        ensures unit { self.new.unit ≡ self.old.unit }
        ensures right { (live : List Bool) → IsRight graph.now live self.old → IsRight graph.now live self.new }
    {
        if !graph.is_funding(ticket) {
            return 0;
        }
        let sources = Sources {
            graph,
            active,
            values: &self.values,
            unit: self.unit,
        };
        read_share(sources, Edge::OfTicket(ticket), &mut self.reads)
    }

    /// A ticket's value (4.4), in base units, if nothing is stale. A ticket that funds nothing is worth 0. It counts no
    /// read: rows of a settled kernel are its only callers, and no event reaches it.
    pub fn settled_ticket_value(&self, graph: &Graph, active: &Active, ticket: u32) -> u64
        requires right { (live : List Bool) × IsKeptFor active.now graph.now live
            × IsSmall self.now.unit graph.now live × IsRight graph.now live self.now }
        requires settled { self.now.stale ≡ [] }
        ensures { (live : List Bool) → IsKeptFor active.now graph.now live → IsRight graph.now live self.now
            → (t : ATicket) → ticket_at graph.now.funding ticket ≡ Some t
            → result ≡ ticket_value self.now.unit graph.now.funding live t }
    {
        if !graph.is_funding(ticket) {
            return 0;
        }
        let sources = Sources {
            graph,
            active,
            values: &self.values,
            unit: self.unit,
        };
        ticket_share(sources, ticket)
    }

    /// Makes a node, and all nodes that it reaches, stale. It reads each edge from a node that becomes stale once, and
    /// none for a value.
    ///
    /// After a change of the graph or of the live threads, the caller touches each node whose equation has changed.
    #[inline(always)]
    pub fn touch(&mut self, graph: &Graph, node: Node)
        requires layout { self.old.layout ≡ layout_of graph.now }
        requires node { IsNodeOf graph.now node }
        ensures right { (live : List Bool) (others : List ANode) → HasEquation graph.now.funding node
            → IsRightBut graph.now live self.old (node ∷ others) → IsRightBut graph.now live self.new others }
        ensures marked { IsStale self.new node }
        ensures kept { (x : ANode) → IsStale self.old x → IsStale self.new x }
        ensures only { (x : ANode) → IsStale self.new x → IsStale self.old x ⊎ Reaches graph.now.funding node x }
        ensures exact { (live : List Bool) → HasEquation graph.now.funding node
            → IsRightBut graph.now live self.old (node ∷ []) → (x : ANode)
            → IsStale self.new x ↔ (IsStale self.old x ⊎ Reaches graph.now.funding node x) }
        ensures others { self.new ≡ record self.old { stale = self.new.stale } }
    {
        mark(graph, &mut self.stale, node);
    }

    /// Recomputes the values of all stale nodes, in an order along the edges. Counts each edge into a stale node
    /// once.
    pub fn settle(&mut self, graph: &Graph, active: &Active)
        requires right { (live : List Bool) × IsKeptFor active.now graph.now live
            × IsSmall self.old.unit graph.now live × IsRight graph.now live self.old }
        ensures settled { self.new.stale ≡ [] }
        ensures unit { self.new.unit ≡ self.old.unit }
        ensures right { (live : List Bool) → IsKeptFor active.now graph.now live → IsRight graph.now live self.old
            → IsRight graph.now live self.new }
        ensures once { IsOnce self.old }
        ensures counted { self.new.reads ≡ counted_up self.old.reads (edges_into_all graph.now.funding self.old.stale) }
    {
        // Brings the invariant of every cache into the proof: no node is listed twice.
        let _ = &self.stale;
        while self.settle_next(graph, active).is_some() {}
    }

    /// Recomputes the value of one stale node without stale sources, and returns that node, or `None` if no node is
    /// stale. Counts each edge into the node.
    #[inline(always)]
    pub fn settle_next(&mut self, graph: &Graph, active: &Active) -> Option<Node>
        requires right { (live : List Bool) × IsKeptFor active.now graph.now live
            × IsSmall self.old.unit graph.now live × IsRight graph.now live self.old }
        ensures right { (live : List Bool) → IsKeptFor active.now graph.now live → IsRight graph.now live self.old
            → IsRight graph.now live self.new }
        ensures node { IfSome result (HasEquation graph.now.funding) }
        ensures within { IfSome result (IsNodeWithin self.old.layout) }
        ensures once { IsOnce self.old }
        ensures settles { IfSome result (Settles self.old self.new) }
        ensures counted { IfSome result (λ node. self.new.reads
            ≡ counted_up self.old.reads (edge_count_into graph.now.funding node)) }
        ensures none { IfNone result ((self.old.stale ≡ []) × (self.new ≡ self.old)) }
    {
        if self.turned.is_none() {
            let place = self.stale.first(STALE)?;
            let node = graph.layout().node_of(place);
            if !has_stale_source(graph, &self.stale, node) {
                self.settle_node(graph, active, place, node);
                return Some(node);
            }
        }
        self.settle_raised(graph, active)
    }

    /// Settles the next node from the back of the list, for the rare case that the front node has a stale source, or
    /// that a turned node is unsettled.
    fn settle_raised(&mut self, graph: &Graph, active: &Active) -> Option<Node>
        requires right { (live : List Bool) × IsKeptFor active.now graph.now live
            × IsSmall self.old.unit graph.now live × IsRight graph.now live self.old }
        ensures right { (live : List Bool) → IsKeptFor active.now graph.now live → IsRight graph.now live self.old
            → IsRight graph.now live self.new }
        ensures within { IfSome result (IsNodeWithin self.old.layout) }
        ensures settles { IfSome result (Settles self.old self.new) }
        ensures counted { IfSome result (λ node. self.new.reads
            ≡ counted_up self.old.reads (edge_count_into graph.now.funding node)) }
        ensures none { IfNone result ((self.old.stale ≡ []) × (self.new ≡ self.old)) }
    {
        let place = raise_fresh(graph, &mut self.stale, &mut self.turned)?;
        let node = graph.layout().node_of(place);
        self.settle_node(graph, active, place, node);
        Some(node)
    }

    /// Recomputes the value of a stale node without stale sources. Counts each edge into the node.
    #[inline(always)]
    fn settle_node(&mut self, graph: &Graph, active: &Active, place: usize, node: Node)
        requires right { (live : List Bool) × IsKeptFor active.now graph.now live
            × IsSmall self.old.unit graph.now live × IsRight graph.now live self.old }
        requires place { place < places.node_count (layout_of graph.now) }
        requires node { node ≡ places.node_of (layout_of graph.now) place }
        requires fresh { IsFreshPlace (layout_of graph.now) graph.now.funding (stale_places self.old) place }
        ensures right { (live : List Bool) → IsKeptFor active.now graph.now live → IsRight graph.now live self.old
            → IsRight graph.now live self.new }
        ensures settles { Settles self.old self.new node }
        ensures counted { self.new.reads ≡ counted_up self.old.reads (edge_count_into graph.now.funding node) }
    {
        let sources = Sources {
            graph,
            active,
            values: &self.values,
            unit: self.unit,
        };
        self.values[place] = read_value(sources, node, &mut self.reads);
        self.stale.remove(place);
    }
}
