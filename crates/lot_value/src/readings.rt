//! Reads of edges for values. Events read edges only by `read_share`, which counts. A row of a settled kernel takes its
//! ticket's share from `ticket_share`, which doesn't.
ghost use Rattle.std.specs.Prelude.{◌≡◌, ◌^◌, ◌*◌, ◌/◌, ◌<◌, ℕ, Bool, List};
ghost use Rattle.lot_machine.specs.declared.funding.Node.{Node as ANode};
ghost use Rattle.lot_machine.specs.declared.funding.Edge.TheVariants.{OfTicket as OfTicketEdge};
ghost use Rattle.lot_machine.specs.Funding.{edge_count_into};
ghost use Rattle.lot_machine.specs.Equations.{LeadsInto, share, shares_into};
ghost use Rattle.lot_graph.specs.Graphs.{IsNodeOf};
ghost use Rattle.lot_graph.specs.Places.{layout_of};
ghost use Rattle.lot_value.specs.Counts.{counted_up};
ghost use Rattle.lot_value.specs.Caches.{kept_worth};
ghost use Rattle.lot_value.specs.Sources.{AreSources};

use crate::values::ReadCount;
use lot_active::Active;
use lot_graph::Graph;
use lot_machine::{Edge, Node};

/// The sources of shares: the graph, its activity, and the cached values.
#[derive(Clone, Copy)]
pub(crate) struct Sources<'a> {
    pub(crate) graph: &'a Graph,
    pub(crate) active: &'a Active,
    pub(crate) values: &'a [u64],
    pub(crate) unit: u32,
}

/// The sum that the edges into a node pass on, each of them read once.
#[inline(always)]
pub(crate) fn read_value(sources: Sources, node: Node, reads: &mut ReadCount) -> u64
    requires node { IsNodeOf sources.graph.now node }
    requires sources { (live : List Bool) × AreSources sources live
        × (shares_into sources.unit sources.graph.now.funding live
        (kept_worth (layout_of sources.graph.now) sources.values.now) node < 2 ^ 64) }
    ensures value { (live : List Bool) → AreSources sources.entry live
        → result ≡ shares_into sources.entry.unit sources.entry.graph.now.funding live
        (kept_worth (layout_of sources.entry.graph.now) sources.entry.values.now) node }
    ensures counted { reads.new ≡ counted_up reads.old (edge_count_into sources.entry.graph.now.funding node) }
{
    let mut total = 0;
    for edge in sources.graph.edges_into(node) {
        total += read_share(sources, edge, reads);
    }
    total
}

/// The share that an edge passes on. It counts the read.
#[inline(always)]
pub(crate) fn read_share(sources: Sources, edge: Edge, reads: &mut ReadCount) -> u64
    requires edge { (to : ANode) × LeadsInto sources.graph.now.funding to edge }
    requires sources { (live : List Bool) × AreSources sources live
        × (share sources.unit sources.graph.now.funding live
        (kept_worth (layout_of sources.graph.now) sources.values.now) edge < 2 ^ 64) }
    ensures value { (live : List Bool) → AreSources sources.entry live
        → result ≡ share sources.entry.unit sources.entry.graph.now.funding live
        (kept_worth (layout_of sources.entry.graph.now) sources.entry.values.now) edge }
    ensures counted { reads.new ≡ counted_up reads.old 1 }
{
    reads.count();
    let layout = sources.graph.layout();
    match edge {
        Edge::OfTicket(ticket) => ticket_share(sources, ticket),
        Edge::OfLender(thread) => sources.values[layout.list_of(Node::Thread(thread))],
        Edge::OfMutex(mutex) => sources.values[layout.list_of(Node::Mutex(mutex))],
    }
}

/// The share of a ticket that has a target.
#[inline(always)]
pub(crate) fn ticket_share(sources: Sources, number: u32) -> u64
    requires edge { (to : ANode) × LeadsInto sources.graph.now.funding to (OfTicketEdge number) }
    requires sources { (live : List Bool) × AreSources sources live
        × (share sources.unit sources.graph.now.funding live
        (kept_worth (layout_of sources.graph.now) sources.values.now) (OfTicketEdge number) < 2 ^ 64) }
    ensures { (live : List Bool) → AreSources sources.entry live
        → result ≡ share sources.entry.unit sources.entry.graph.now.funding live
        (kept_worth (layout_of sources.entry.graph.now) sources.entry.values.now) (OfTicketEdge number) }
{
    let Some(ticket) = sources.graph.ticket(number) else {
        unreachable!()
    };
    if !sources.active.is_active(ticket.target) {
        return 0;
    }
    if ticket.issuer == 0 {
        return u64::from(ticket.amount) * u64::from(sources.unit);
    }
    let value = sources.values[ticket.issuer as usize];
    let active = sources.active.active_amount(ticket.issuer);
    share_of(value, ticket.amount, active)
}

/// The share of a value for an amount out of all active amounts, rounded down once (4.4). An amount that is all of
/// them needs no division, and nearly all products fit 64 bits, which divide faster.
#[inline(always)]
fn share_of(value: u64, amount: u32, active: u64) -> u64
    requires active { 0 < active }
    requires fits { value * amount / active < 2 ^ 64 }
    ensures { result ≡ value * amount / active }
{
    if active == u64::from(amount) {
        return value;
    }
    match value.checked_mul(u64::from(amount)) {
        Some(whole) => whole / active,
        None => (u128::from(value) * u128::from(amount) / u128::from(active)) as u64,
    }
}
