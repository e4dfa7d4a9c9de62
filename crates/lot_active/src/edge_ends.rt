//! An edge of the graph, given by its ends.
ghost use Rattle.std.specs.Prelude.{◌≡◌, Some};
ghost use Rattle.lot_machine.specs.Funding as funding;
ghost use Rattle.lot_graph.specs.Graphs.{IsSound};
ghost use Rattle.lot_graph.specs.Places.{FitsLimits, layout_of};
ghost use Rattle.lot_active.specs.declared.edge_ends.EdgePlaces.{EdgePlaces as AnEdgePlaces};
ghost use Rattle.lot_active.specs.Fundings as fundings;

use lot_graph::{Graph, Layout};
use lot_machine::{Edge, Lend, Node, Target};

/// An existing edge: its source, its target, and its amount, which is its ticket's, or 1 for another edge.
#[derive(Clone, Copy, Debug, PartialEq, Eq)]
pub struct EdgeEnds {
    pub from: Node,
    pub to: Node,
    pub amount: u32,
}

/// An edge, given by the places of its ends.
#[derive(Clone, Copy)]
pub(crate) struct EdgePlaces {
    pub(crate) from: usize,
    pub(crate) to: usize,
    pub(crate) amount: u32,
}

/// The source of an edge by its place, and the edge's amount.
#[derive(Clone, Copy)]
pub(crate) struct EdgeSource {
    pub(crate) place: usize,
    pub(crate) amount: u32,
}

impl EdgeEnds {
    pub(crate) fn places(self, layout: Layout) -> EdgePlaces
        ensures { result ≡ fundings.places_of_ends layout self }
    {
        EdgePlaces {
            from: layout.list_of(self.from),
            to: layout.list_of(self.to),
            amount: self.amount,
        }
    }
}

/// The ends of an edge, and its amount, if the edge exists.
#[inline(always)]
pub fn ends_of_edge(graph: &Graph, edge: Edge) -> Option<EdgeEnds>
    ensures ends { result ≡ fundings.ends_of_edge graph.now.funding edge }
    ensures sound { IsSound graph.now.funding }
    ensures fits { FitsLimits graph.now }
{
    // Not every call below has clauses on the graph's invariant and limits. This one has.
    let _layout = graph.layout();
    match edge {
        Edge::OfTicket(number) => {
            let ticket = graph.ticket(number)?;
            Some(EdgeEnds {
                from: Node::Currency(ticket.issuer),
                to: funded_node(ticket.target)?,
                amount: ticket.amount,
            })
        }
        Edge::OfLender(thread) => Some(EdgeEnds {
            from: Node::Thread(thread),
            to: lent_node(graph.lend_of(thread)?)?,
            amount: 1,
        }),
        Edge::OfMutex(mutex) => Some(EdgeEnds {
            from: Node::Mutex(mutex),
            to: Node::Thread(graph.owner(mutex)?),
            amount: 1,
        }),
    }
}

/// The source and the amount of an edge, if the edge exists. It doesn't read the edge's target.
#[inline(always)]
pub(crate) fn source_of_edge(graph: &Graph, edge: Edge) -> Option<EdgeSource>
    ensures source { (ends : AnEdgePlaces) → fundings.places_of_edge (layout_of graph.now) graph.now.funding edge
        ≡ Some ends → result ≡ Some (record { place = ends.from; amount = ends.amount }) }
    ensures sound { IsSound graph.now.funding }
    ensures fits { FitsLimits graph.now }
{
    let layout = graph.layout();
    match edge {
        Edge::OfTicket(number) => {
            let ticket = graph.ticket(number)?;
            Some(EdgeSource {
                place: layout.list_of(Node::Currency(ticket.issuer)),
                amount: ticket.amount,
            })
        }
        Edge::OfLender(thread) => Some(EdgeSource {
            place: layout.list_of(Node::Thread(thread)),
            amount: 1,
        }),
        Edge::OfMutex(mutex) => Some(EdgeSource {
            place: layout.list_of(Node::Mutex(mutex)),
            amount: 1,
        }),
    }
}

/// The node of a ticket's target, if it has one.
pub fn funded_node(target: Target) -> Option<Node>
    ensures { result ≡ funding.target_node target }
{
    match target {
        Target::Unfunded => None,
        Target::Currency(currency) => Some(Node::Currency(currency)),
        Target::Thread(thread) => Some(Node::Thread(thread)),
    }
}

/// The node that receives a lend, a thread or a mutex, if any.
pub fn lent_node(lend: Lend) -> Option<Node>
    ensures { result ≡ funding.lend_node lend }
{
    match lend {
        Lend::Nobody => None,
        Lend::ToThread(thread) => Some(Node::Thread(thread)),
        Lend::ToMutex(mutex) => Some(Node::Mutex(mutex)),
    }
}
